// Contexts in which parts of expressions are read.
ghost use Rattle.std.specs.Prelude.{◌≡◌};
ghost use Rattle.swc_context.specs.Contexts.{view as deciding};
ghost use Rattle.swc_grammar.specs.Tokens.{include_in};

use swc_context::context::Context;

/// The context in which `in` counts as an operator (ECMA-262, 13.10).
pub fn include_in(ctx: Context) -> Context
    ensures decides { deciding result ≡ include_in (deciding ctx) }
    ensures module { result.module ≡ ctx.module }
{
    Context {
        include_in_expr: true,
        ..ctx
    }
}

/// The context of items in brackets or parentheses (ECMA-262, 13.2.4 and 13.3.8), in which `in` counts as an operator,
/// and no colon of a conditional is expected.
pub fn items_context(ctx: Context) -> Context
    ensures decides { deciding result ≡ include_in (deciding ctx) }
    ensures module { result.module ≡ ctx.module }
{
    Context {
        include_in_expr: true,
        will_expect_colon_for_cond: false,
        ..ctx
    }
}

/// The context of properties (ECMA-262, 13.2.5 and 14.3.3) and of templates (13.2.8), in which no colon of a
/// conditional is expected.
pub fn without_colon(ctx: Context) -> Context
    ensures decides { deciding result ≡ deciding ctx }
    ensures module { result.module ≡ ctx.module }
{
    Context {
        will_expect_colon_for_cond: false,
        ..ctx
    }
}

/// The context of a property's name (ECMA-262, 13.2.5).
pub fn prop_name_context(ctx: Context) -> Context
    ensures decides { deciding result ≡ deciding ctx }
    ensures module { result.module ≡ ctx.module }
{
    Context {
        in_property_name: true,
        ..ctx
    }
}

/// The context of what is before the first call of a left-hand side (ECMA-262, 13.3), in which no `<` and no `>` belong
/// to a type.
pub fn member_context(ctx: Context) -> Context
    ensures decides { deciding result ≡ deciding ctx }
    ensures module { result.module ≡ ctx.module }
{
    Context {
        should_not_lex_lt_or_gt_as_type: true,
        ..ctx
    }
}
