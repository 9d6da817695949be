// Pieces of expressions that are read by themselves, outside the ring: arguments with their parentheses, templates of
// which no node is made, and keys.
ghost use Rattle.swc_grammar.specs.Symbols.{Arguments, Key, Template};
ghost use Rattle.swc_grammar.specs.Clean.{sym, run};
ghost use Rattle.swc_nodes.specs.GrowingNodes.{count};
ghost use Rattle.swc_steps.specs.Parsing.{Produces, args_of, args_at, key_of, key_at};
ghost use Rattle.swc_productions.specs.Pieces.{tpl_of, tpl_at};

use crate::ring::{parse_args, parse_prop_name, parse_tpl_elements};
use swc_ast::expr::{ExprOrSpread, Tpl};
use swc_ast::prop::PropName;
use swc_bodies::bodies::Bodies;
use swc_context::error::PResult;
use swc_context::span::Span;
use swc_input::tokens::Tokens;
use swc_left::args::check_import_args;
use swc_nodes::node::ExprId;
use swc_operators::within::{items_context, prop_name_context, without_colon};
use swc_steps::productions::Productions;
use swc_steps::tokens;
use swc_steps::tokens::{Listed, Sign};

/// Arguments (ECMA-262, 13.3.8), in which `in` counts as an operator, with their parentheses; those of `import`
/// (13.3.10), where it `is_dynamic_import`.
pub fn parse_arguments<I: Tokens, B: Bodies<I>>(
    p: &mut Productions<I, B>,
    room: usize,
    is_dynamic_import: bool,
) -> PResult<Listed<ExprOrSpread<ExprId>>>
    ensures { Produces I.model B.is_faithful args_of args_at (run B.forms (sym (Arguments is_dynamic_import)))
        (count p.old.nodes) p.old result p.new }
{
    let open = tokens::expect(&mut p.input, Sign::LParen)?;
    let list = within!(
        p,
        items_context(p.get_ctx()),
        parse_args(p, room, is_dynamic_import)
    )?;
    check_import_args(&mut p.input, open.lo, &list, is_dynamic_import)?;
    Ok(list)
}

/// A template (ECMA-262, 13.2.8), of which no node is made. Where it `is_tagged`, a text may have a bad escape.
pub fn parse_template<I: Tokens, B: Bodies<I>>(
    p: &mut Productions<I, B>,
    room: usize,
    is_tagged: bool,
) -> PResult<Tpl<ExprId>>
    ensures { Produces I.model B.is_faithful tpl_of tpl_at (run B.forms (sym (Template is_tagged)))
        (count p.old.nodes) p.old result p.new }
{
    let start = tokens::expect(&mut p.input, Sign::BackQuote)?;
    let parts = within!(
        p,
        without_colon(p.get_ctx()),
        parse_tpl_elements(p, room, is_tagged)
    )?;
    let span = Span {
        lo: start.lo,
        hi: parts.end.hi,
    };
    Ok(Tpl {
        span,
        exprs: parts.exprs,
        quasis: parts.quasis,
    })
}

/// A property's key (ECMA-262, 13.2.5): any word, a string, a number, a big integer, or an expression in brackets, in
/// which `in` counts as an operator.
///
/// Another token is refused as `Unexpected`, at that token, and the end as `Eof`; a missing `]` as `Expected`. The
/// context is that from before, also after a refusal.
pub fn parse_key<I: Tokens, B: Bodies<I>>(
    p: &mut Productions<I, B>,
    room: usize,
) -> PResult<PropName<ExprId>>
    ensures { Produces I.model B.is_faithful key_of key_at (run B.forms (sym Key))
        (count p.old.nodes) p.old result p.new }
{
    within!(p, prop_name_context(p.get_ctx()), parse_prop_name(p, room))
}
