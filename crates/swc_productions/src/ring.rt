// The ring: the productions that call one another back (ECMA-262, 13), in the order of the standard.
ghost use Rattle.std.specs.Prelude.{ℕ, ◌≢◌, ◌≡◌, ◌<◌, true, false, not, ◌&&◌, None, Some, IsSome};
ghost use Rattle.swc_arrows.specs.Answers.{body_at, body_of, MayBeArrow, MayBeOperand, ReadsArrow};
ghost use Rattle.swc_arrows.specs.Readers.{arrow_behind, body_by};
ghost use Rattle.swc_nodes.specs.Lists.{pats_parts, pat_trees};
ghost use Rattle.swc_cover.specs.Rewriting.{Rewrites};
ghost use Rattle.swc_grammar.specs.Clean.{sym, links, run, no_error};
ghost use Rattle.swc_grammar.specs.Symbols.{Args, Lhs, Primary, Elements, Item, Props, Prop, Key, Parts, Level, Unary, Expr, Assign, Pat, Element, PatElements, PatProps};
ghost use Rattle.swc_grammar.specs.Tokens.{is_yield};
ghost use Rattle.swc_input.specs.Buffer.{context, current};
ghost use Rattle.swc_input.specs.Kinds.{at_token};
ghost use Rattle.swc_left.specs.Bases.{plain_base, super_tail, super_head, import_head};
ghost use Rattle.swc_left.specs.Templates.{tpl_parts_of, tpl_parts_at};
ghost use Rattle.swc_steps.specs.Params.{pat_at};
ghost use Rattle.swc_patterns.specs.Answers.{Leaves, pat_itself, pat_elems_of, pat_elems_at, pat_prop_of, pat_prop_at, pat_props_of, pat_props_at};
ghost use Rattle.swc_patterns.specs.Objects.{pat_prop_item, props_done};
ghost use Rattle.swc_patterns.specs.ParamsRead.{LeavesParams};
ghost use Rattle.swc_nodes.specs.Pending.{all_pending, operand_parts, first_operand};
ghost use Rattle.swc_nodes.specs.NodeParts.{expr_part};
ghost use Rattle.swc_nodes.specs.GrowingNodes.{count, tree_at, first_at, From, Apart, start_at};
ghost use Rattle.swc_operators.specs.Assignments.{assigns_from, yield_expr};
ghost use Rattle.swc_operators.specs.Operands.{is_plain};
ghost use Rattle.swc_operators.specs.Pending.{pending_reads};
ghost use Rattle.swc_operators.specs.Updates.{await_tail};
ghost use Rattle.swc_primary.specs.Methods.{method_inside, method_shell};
ghost use Rattle.swc_steps.specs.Readers.{operand};
ghost use Rattle.swc_input.specs.Calls.{Here};
ghost use Rattle.swc_steps.specs.Parsing.{seen, Produces, GoesOn, itself, tree_of, item_of, item_at, elems_of, elems_at, key_of, key_at, prop_of, prop_at, props_of, props_at, args_of, args_at, shell_at, Consumes, Recovers};
ghost use Rattle.swc_context.specs.declared.error.SyntaxError.TheVariants.{ParserFailed};

use crate::room::deeper;
use swc_arrows::bodies::{
    ArrowOrBase, arrow_function, begins_block, check_operators_end, parse_block_body,
};
use swc_arrows::lists::{close_list, open_list};
use swc_arrows::names::{ArrowHead, Beginning, parse_arrow_name, parse_async_name};
use swc_arrows::starts::{StartKind, start_kind};
use swc_ast::expr::{BlockStmtOrExpr, Callee, ExprOrSpread, Import, Super};
use swc_ast::function::{Function, Param};
use swc_ast::prop::PropName;
use swc_ast::spanned::Spanned;
use swc_bodies::bodies::Bodies;
use swc_context::error::{Error, PResult};
use swc_context::span::{BytePos, Span};
use swc_input::tokens::Tokens;
use swc_left::args::separate_args;
use swc_left::base::{ImportHead, SuperChain, SuperHead};
use swc_left::left::LinkHead;
use swc_left::tpl::{TplParts, eat_tpl_end, parse_tpl_element, tagged_tpl};
use swc_left::{base, left};
use swc_nodes::node::{ExprId, PatId, PatPropNode, PropNode};
use swc_nodes::patterns::name_pat_prop;
use swc_nodes::pending::PendingOperators;
use swc_operators::plain::{begins_plain, may_go_on};
use swc_operators::prefix::{is_await_name, update_prefix};
use swc_operators::within::{
    include_in, items_context, member_context, prop_name_context, without_colon,
};
use swc_operators::{assign, ops};
use swc_patterns::object::{AfterPatKey, after_pat_key, object_pat};
use swc_patterns::params::{NextParam, next_param, param_of, rest_default};
use swc_patterns::pat::{
    NextElement, PatKind, array_pat, default_pat, next_element, parse_plain_pat, pat_kind, rest_pat,
};
use swc_patterns::rest::{SeenRest, separate_item};
use swc_primary::literals::{array_lit, object_lit};
use swc_primary::methods::{close_method, method_of, method_params, without_params};
use swc_primary::modifiers::MethodKind;
use swc_primary::object::{
    PropHead, computed_prop_name, cover_prop, key_prop, parse_plain_prop_name, parse_prop_head,
    spread_prop,
};
use swc_primary::primary;
use swc_primary::primary::{Elem, PrimaryKind};
use swc_steps::productions::Productions;
use swc_steps::tokens;
use swc_steps::tokens::{Listed, Sign};

/// The items of a list, up to the sign that closes the list: the loop of all lists. The expression reads an item, adds
/// it to the items, and is the place of the comma after it.
macro_rules! listed {
    ($p:ident, $close:expr, $items:ident, $comma:expr) => {{
        let mut $items = Vec::new($p.alloc);
        let mut trailing_comma = None;
        loop {
            match tokens::eat(&mut $p.input, $close)? {
                Some(end) => {
                    return Ok(Listed {
                        items: $items,
                        trailing_comma,
                        end,
                    });
                }
                None => {}
            }
            trailing_comma = $comma;
        }
    }};
}

// ---- Expressions (ECMA-262, 13)

/// A primary expression (ECMA-262, 13.2): expressions in parentheses (13.2.9), as a list like that of arguments has
/// them; an array literal (13.2.4), among whose elements `in` counts as an operator; an object literal (13.2.5); a
/// template without a tag (13.2.8); or one with no other expression in it. No colon of a conditional is expected
/// in a literal. The context is that from before, also after a refusal.
#[cycle(productions)]
pub fn parse_primary_expr<I: Tokens, B: Bodies<I>>(
    p: &mut Productions<I, B>,
    room: usize,
) -> PResult<ExprId>
    ensures { Produces I.model B.is_faithful itself tree_of (run B.forms (sym Primary))
        (count p.old.nodes) p.old result p.new }
{
    tokens::look(&mut p.input)?;
    match primary::primary_kind(&p.input) {
        PrimaryKind::Paren => {
            let start = p.cur_span();
            tokens::skip(&mut p.input);
            let list = within!(p, items_context(p.get_ctx()), parse_args(p, room, false))?;
            primary::paren_items(p, start, list)
        }
        PrimaryKind::Array => {
            let start = p.cur_span().lo;
            tokens::skip(&mut p.input);
            let elems = within!(p, items_context(p.get_ctx()), parse_elements(p, room))?;
            array_lit(p, start, elems)
        }
        PrimaryKind::Object => {
            let start = p.cur_span().lo;
            tokens::skip(&mut p.input);
            let props = within!(p, without_colon(p.get_ctx()), parse_props(p, room))?;
            object_lit(p, start, props)
        }
        PrimaryKind::Template => {
            let start = tokens::expect(&mut p.input, Sign::BackQuote)?;
            let parts = within!(
                p,
                without_colon(p.get_ctx()),
                parse_tpl_elements(p, room, false)
            )?;
            let end = parts.end.hi;
            let node = p.nodes.tpl(start.lo, end, parts.quasis, parts.exprs);
            p.made(node)
        }
        PrimaryKind::Plain => primary::parse_plain_primary(p),
    }
}

/// The elements of an array literal (ECMA-262, 13.2.4), a comma after each, which may be missing after the last one,
/// and the bracket that closes the literal. A comma where an element would be is a hole (`None`).
#[cycle(productions)]
fn parse_elements<I: Tokens, B: Bodies<I>>(
    p: &mut Productions<I, B>,
    room: usize,
) -> PResult<Listed<Elem>>
    ensures { Produces I.model B.is_faithful elems_of elems_at (run B.forms (sym Elements))
        (count p.old.nodes) p.old result p.new }
{
    listed!(
        p,
        Sign::RBracket,
        items,
        {
            match tokens::eat(&mut p.input, Sign::Comma)? {
                Some(_) => {
                    p.add(&mut items, None)?;
                    None
                }
                None => {
                    let item = parse_expr_or_spread(p, room)?;
                    p.add(&mut items, Some(item))?;
                    tokens::separate(&mut p.input, Sign::RBracket)?
                }
            }
        }
    )
}

/// An item of a list (ECMA-262, 13.2.4 and 13.3.8): an assignment expression, or one after `...`. A refusal of the
/// latter is labelled with the place of the dots.
#[cycle(productions)]
pub fn parse_expr_or_spread<I: Tokens, B: Bodies<I>>(
    p: &mut Productions<I, B>,
    room: usize,
) -> PResult<ExprOrSpread<ExprId>>
    ensures { Produces I.model B.is_faithful item_of item_at (run B.forms (sym Item))
        (count p.old.nodes) p.old result p.new }
{
    let spread = tokens::eat(&mut p.input, Sign::DotDotDot)?;
    match parse_assignment_expr(p, room) {
        Ok(expr) => Ok(ExprOrSpread { spread, expr }),
        Err(error) => Err(tokens::label_spread(p.alloc, &p.input, spread, error)),
    }
}

/// A left-hand side (ECMA-262, 13.3). What is before its first call is read as a member expression, but for
/// `super` and `import`: there no `<` and no `>` belong to a type. The context is that from before, also after a
/// refusal.
#[cycle(productions)]
pub fn parse_lhs_expr<I: Tokens, B: Bodies<I>>(
    p: &mut Productions<I, B>,
    room: usize,
) -> PResult<ExprId>
    ensures { Produces I.model B.is_faithful itself tree_of (run B.forms (sym (Lhs true)))
        (count p.old.nodes) p.old result p.new }
{
    tokens::look(&mut p.input)?;
    if left::is_super_or_import(&p.input) {
        let base = parse_base(p, room, false)?;
        return parse_subscripts(p, room, base, false);
    }
    let callee = within!(p, member_context(p.get_ctx()), parse_member_expr(p, room))?;
    parse_subscripts(p, room, callee, false)
}

/// A member expression (ECMA-262, 13.3), or `new` without arguments: a left-hand side in which a parenthesis is no
/// link, but that of `new`. With `new` (13.3.5), what it constructs, which is no optional chain, and its arguments, and
/// links after these, but for calls; or no arguments. Or `new.target` (13.3.12), and its links, but for calls.
#[cycle(productions)]
fn parse_member_expr<I: Tokens, B: Bodies<I>>(
    p: &mut Productions<I, B>,
    room: usize,
) -> PResult<ExprId>
    ensures { Produces I.model B.is_faithful itself tree_of (run B.forms (sym (Lhs false)))
        (count p.old.nodes) p.old result p.new }
{
    tokens::look(&mut p.input)?;
    if !tokens::is_sign(&p.input, Sign::New) {
        let base = parse_base(p, room, true)?;
        return parse_subscripts(p, room, base, true);
    }
    let start = p.cur_span();
    tokens::skip(&mut p.input);
    match tokens::eat(&mut p.input, Sign::Dot)? {
        Some(_) => {
            let target = left::parse_new_target(p, start)?;
            return parse_subscripts(p, room, target, true);
        }
        None => {}
    }
    let less = deeper(&p.input, &mut p.too_deep, room)?;
    let callee = parse_member_expr(p, less)?;
    left::refuse_opt_chain::<I, B>(&mut p.input, &p.nodes, callee)?;
    match tokens::eat(&mut p.input, Sign::LParen)? {
        Some(_) => {
            let list = within!(p, items_context(p.get_ctx()), parse_args(p, room, false))?;
            let base = left::new_expr(p, start, callee, list)?;
            parse_subscripts(p, room, base, true)
        }
        None => {
            let node = p.nodes.bare_new_expr(start.lo, callee);
            p.made(node)
        }
    }
}

/// Reads on after `obj`, through all links: a member by its name, or by an expression in which `in` counts as an
/// operator, in brackets (ECMA-262, 13.3.2); a call (13.3.6), but with `no_call`; or a template with the tag `obj`
/// (13.3.11).
#[cycle(productions)]
fn parse_subscripts<I: Tokens, B: Bodies<I>>(
    p: &mut Productions<I, B>,
    room: usize,
    mut obj: ExprId,
    no_call: bool,
) -> PResult<ExprId>
    requires from { From 0 p.old.nodes (expr_part obj) }
    ensures { GoesOn I.model B.is_faithful itself tree_of
        (run B.forms (links (not no_call) (tree_of p.old.nodes obj)))
        (first_at p.old.nodes obj.0) p.old result p.new }
{
    loop {
        let head = match left::parse_link_head(&mut p.input, no_call)? {
            Some(head) => head,
            None => return Ok(obj),
        };
        match head {
            LinkHead::Name { optional } => obj = left::parse_dot_member(p, obj, optional)?,
            LinkHead::Computed { start, optional } => {
                let expr = within!(p, include_in(p.get_ctx()), parse_expr(p, room))?;
                obj = left::computed_member(p, obj, start, expr, optional)?;
            }
            LinkHead::Call { optional } => {
                let list = within!(p, items_context(p.get_ctx()), parse_args(p, room, false))?;
                obj = left::call_expr(p, obj, list, optional)?;
            }
            LinkHead::Template { start } => {
                let parts = within!(
                    p,
                    without_colon(p.get_ctx()),
                    parse_tpl_elements(p, room, true)
                )?;
                obj = tagged_tpl(p, obj, start, parts)?;
            }
        }
    }
}

// ---- Object literals (ECMA-262, 13.2.5): properties, keys, and the functions of methods (15.4)

/// The properties of an object literal (ECMA-262, 13.2.5), a comma after each, which may be missing after the last
/// one, and the brace that closes the literal.
#[cycle(productions)]
pub fn parse_props<I: Tokens, B: Bodies<I>>(
    p: &mut Productions<I, B>,
    room: usize,
) -> PResult<Listed<PropNode<B::Block>>>
    ensures { Produces I.model B.is_faithful props_of props_at (run B.forms (sym Props))
        (count p.old.nodes) p.old result p.new }
{
    listed!(
        p,
        Sign::RBrace,
        items,
        {
            let prop = parse_object_prop(p, room)?;
            p.add(&mut items, prop)?;
            tokens::separate(&mut p.input, Sign::RBrace)?
        }
    )
}

/// A property of an object literal (ECMA-262, 13.2.5): a name alone; dots, or a name with `=`, and an expression in
/// which `in` counts as an operator; a key, and `:` and such an expression, or its method's function; or a method of
/// another kind (15.4 to 15.6 and 15.8).
///
/// Another token after a key is refused as `Unexpected`, at that token, and the end as `Eof`.
#[cycle(productions)]
pub fn parse_object_prop<I: Tokens, B: Bodies<I>>(
    p: &mut Productions<I, B>,
    room: usize,
) -> PResult<PropNode<B::Block>>
    ensures { Produces I.model B.is_faithful prop_of prop_at (run B.forms (sym Prop))
        (count p.old.nodes) p.old result p.new }
{
    match parse_prop_head::<I, B>(p.alloc, &mut p.input)? {
        PropHead::Shorthand(name) => Ok(PropNode::Shorthand(name)),
        PropHead::Spread(dots) => {
            let expr = within!(p, include_in(p.get_ctx()), parse_assignment_expr(p, room))?;
            Ok(spread_prop(&p.nodes, dots, expr))
        }
        PropHead::Cover(name) => {
            let value = within!(p, include_in(p.get_ctx()), parse_assignment_expr(p, room))?;
            Ok(cover_prop(&p.nodes, name, value))
        }
        PropHead::Key => {
            let key = within!(p, prop_name_context(p.get_ctx()), parse_prop_name(p, room))?;
            match tokens::eat(&mut p.input, Sign::Colon)? {
                Some(_) => {
                    let value = within!(
                        p,
                        include_in(p.get_ctx()),
                        parse_assignment_expr(p, room)
                    )?;
                    Ok(key_prop(&p.nodes, key, value))
                }
                None => {
                    let start = key.span();
                    let ctx = method_params(None, p.get_ctx());
                    let function = within!(p, ctx, parse_method(p, room, None, start))?;
                    Ok(method_of(None, start, key, function))
                }
            }
        }
        PropHead::Method(kind, start) => {
            let key = within!(p, prop_name_context(p.get_ctx()), parse_prop_name(p, room))?;
            let ctx = method_params(Some(kind), p.get_ctx());
            let function = within!(p, ctx, parse_method(p, room, Some(kind), key.span()))?;
            Ok(method_of(Some(kind), start, key, function))
        }
    }
}

/// The function of a method (ECMA-262, 15.4 to 15.6 and 15.8), after its key at `key`, in the context of its parameters
/// (these and a block). Nothing was before the key where the method is of no kind. Where the parameters begin, another
/// token is refused as `Expected`, and where nothing is before the method's key as `Unexpected`, at that token; the end
/// as `Eof`.
#[cycle(productions)]
fn parse_method<I: Tokens, B: Bodies<I>>(
    p: &mut Productions<I, B>,
    room: usize,
    kind: Option<MethodKind>,
    key: Span,
) -> PResult<Function<PatId, B::Block>>
    ensures { Produces I.model B.is_faithful (method_shell kind) shell_at (method_inside B.forms B.Block.place kind)
        (count p.old.nodes) p.old result p.new }
{
    let start = tokens::expect_or(&mut p.input, Sign::LParen, without_params(kind))?;
    let params = parse_formal_params(p, room)?;
    close_method(p, kind, key, start, params)
}

/// A property's key (ECMA-262, 13.2.5): any word, a string, a number, a big integer, or an expression in brackets, in
/// which `in` counts as an operator.
///
/// Another token is refused as `Unexpected`, at that token, and the end as `Eof`; a missing `]` as `Expected`.
#[cycle(productions)]
pub fn parse_prop_name<I: Tokens, B: Bodies<I>>(
    p: &mut Productions<I, B>,
    room: usize,
) -> PResult<PropName<ExprId>>
    ensures { Produces I.model B.is_faithful key_of key_at (run B.forms (sym Key))
        (count p.old.nodes) p.old result p.new }
{
    match tokens::eat(&mut p.input, Sign::LBracket)? {
        Some(start) => {
            let expr = within!(p, include_in(p.get_ctx()), parse_assignment_expr(p, room))?;
            computed_prop_name(p, start, expr)
        }
        None => parse_plain_prop_name(p.alloc, &mut p.input),
    }
}

// ---- Templates, with a tag and without (ECMA-262, 13.2.8 and 13.3.11)

/// The texts of a template, after its backquote, between each two of them an expression in which `in` counts as an
/// operator, in braces, and the backquote that closes the template.
#[cycle(productions)]
pub fn parse_tpl_elements<I: Tokens, B: Bodies<I>>(
    p: &mut Productions<I, B>,
    room: usize,
    is_tagged: bool,
) -> PResult<TplParts>
    ensures { Produces I.model B.is_faithful tpl_parts_of tpl_parts_at (run B.forms (sym (Parts is_tagged)))
        (count p.old.nodes) p.old result p.new }
{
    let mut quasis = Vec::new(p.alloc);
    let mut exprs = Vec::new(p.alloc);
    loop {
        let quasi = parse_tpl_element(&mut p.input, is_tagged)?;
        p.add(&mut quasis, quasi)?;
        match eat_tpl_end(&mut p.input)? {
            Some(end) => return Ok(TplParts { quasis, exprs, end }),
            None => {}
        }
        let expr = within!(p, include_in(p.get_ctx()), parse_expr(p, room))?;
        tokens::expect(&mut p.input, Sign::RBrace)?;
        p.add(&mut exprs, expr)?;
    }
}

// ---- Arguments (ECMA-262, 13.3.8), and those of `import` (13.3.10)

/// Arguments (ECMA-262, 13.3.8), after their parenthesis, a comma after each, which may be missing after the last one,
/// and the parenthesis that closes them. Those of `import`, where it `is_dynamic_import`, may have no comma after the
/// last one, unless import attributes are read.
#[cycle(productions)]
pub fn parse_args<I: Tokens, B: Bodies<I>>(
    p: &mut Productions<I, B>,
    room: usize,
    is_dynamic_import: bool,
) -> PResult<Listed<ExprOrSpread<ExprId>>>
    ensures { Produces I.model B.is_faithful args_of args_at (run B.forms (sym (Args is_dynamic_import)))
        (count p.old.nodes) p.old result p.new }
{
    let start = p.prev_span();
    listed!(
        p,
        Sign::RParen,
        items,
        {
            let arg = parse_expr_or_spread(p, room)?;
            p.add(&mut items, arg)?;
            separate_args(&mut p.input, start, is_dynamic_import)?
        }
    )
}

// ---- What left-hand sides begin with (ECMA-262, 13.3): `super`, `import`, and primary expressions

/// What a left-hand side begins with (ECMA-262, 13.3), where that isn't `new`: `super`, `import`, or a primary
/// expression. `import` begins `import.meta` (13.3.12), or a call of `import` (13.3.10) or of `import.source`. With
/// `no_call`, a call of `super` or `import` is refused.
#[cycle(productions)]
pub fn parse_base<I: Tokens, B: Bodies<I>>(
    p: &mut Productions<I, B>,
    room: usize,
    no_call: bool,
) -> PResult<ExprId>
    ensures { Produces I.model B.is_faithful itself tree_of (plain_base B.forms (not no_call))
        (count p.old.nodes) p.old result p.new }
{
    match tokens::eat(&mut p.input, Sign::Super)? {
        Some(start) => return parse_super(p, room, start, no_call),
        None => {}
    }
    let start = match tokens::eat(&mut p.input, Sign::Import)? {
        Some(start) => start,
        None => return parse_primary_expr(p, room),
    };
    match base::import_head(p, start, no_call)? {
        ImportHead::Meta(span) => base::import_meta(p, span),
        ImportHead::Call(import) => {
            let open = p.prev_span().lo;
            let list = within!(p, items_context(p.get_ctx()), parse_args(p, room, true))?;
            base::import_call(p, start, import, open, list)
        }
    }
}

/// A property of `super`, or a call of it (ECMA-262, 13.3.7), after `super` at `start`. In brackets is an
/// expression in which `in` counts as an operator. With `no_call`, a call is refused, as anything else is: a link of an
/// optional chain, after what it reads, and any other token as `InvalidSuper`, with `no_call` as `InvalidSuperCall`.
/// Of a link, arguments are refused as `SuperCallOptional`; a name or brackets as `InvalidSuper`, and where `super` may
/// have properties, with `no_call` as `InvalidSuperCall`.
#[cycle(productions)]
#[inline(never)]
fn parse_super<I: Tokens, B: Bodies<I>>(
    p: &mut Productions<I, B>,
    room: usize,
    start: Span,
    no_call: bool,
) -> PResult<ExprId>
    ensures { Produces I.model B.is_faithful itself tree_of (super_tail B.forms (not no_call) start)
        (count p.old.nodes) p.old result p.new }
{
    match base::super_head(&mut p.input, no_call)? {
        SuperHead::Name => return base::parse_super_name(p, start),
        SuperHead::Computed(bracket) => {
            let expr = within!(p, include_in(p.get_ctx()), parse_expr(p, room))?;
            return base::super_computed(p, start, bracket, expr);
        }
        SuperHead::Call => {
            let list = within!(p, items_context(p.get_ctx()), parse_args(p, room, false))?;
            return base::callee_call(p, start, Callee::Super(Super { span: start }), list);
        }
        SuperHead::Other => {}
    }
    match base::super_chain(&mut p.input, no_call)? {
        SuperChain::Name => base::refuse_super_name(p, no_call),
        SuperChain::Computed => {
            within!(p, include_in(p.get_ctx()), parse_expr(p, room))?;
            Err(base::refuse_super_brackets(&mut p.input, no_call))
        }
        SuperChain::Call => {
            within!(p, items_context(p.get_ctx()), parse_args(p, room, false))?;
            Err(base::refuse_super_args(&mut p.input))
        }
    }
}

// ---- Binary and unary operators, `++`, `--` and `await` (ECMA-262, 13.4 to 13.13 and 15.8)

/// Binary operators of any precedence (ECMA-262, 13.13). Where the left operand was refused before an operator, that
/// is recorded, and reading goes on there; elsewhere the refusal is the answer, and so is out of memory.
#[cycle(productions)]
#[inline(never)]
pub fn parse_bin_expr<I: Tokens, B: Bodies<I>>(
    p: &mut Productions<I, B>,
    room: usize,
) -> PResult<ExprId>
    ensures { Produces I.model B.is_faithful itself tree_of (run B.forms (sym (Level 1)))
        (count p.old.nodes) p.old result p.new }
{
    let first = tokens::cur_pos(&mut p.input)?;
    match parse_operand(p, room, true) {
        Ok(left) => {
            let pending = PendingOperators::new(p.alloc);
            parse_operators(p, room, pending, left)
        }
        Err(error) => recover_operators(p, room, error, first),
    }
}

/// Reads on where the left operand of a binary operator, which begins at `first`, was refused, if an operator follows:
/// that is recorded, and `Invalid` takes its place. Elsewhere the refusal is the answer, and so is out of
/// memory.
#[cycle(productions)]
#[inline(never)]
fn recover_operators<I: Tokens, B: Bodies<I>>(
    p: &mut Productions<I, B>,
    room: usize,
    error: Error,
    first: BytePos,
) -> PResult<ExprId>
    requires { error.kind ≢ ParserFailed }
    ensures { Recovers I.model itself (Consumes I.model) error.kind p.old result p.new }
{
    let mut pending = PendingOperators::new(p.alloc);
    let (left, op) = ops::recover_left(p, error, first)?;
    ops::take_operator(p, &mut pending, left, op)?;
    let is_free = ops::private_may_follow(&pending);
    let right = parse_operand(p, room, is_free)?;
    parse_operators(p, room, pending, right)
}

/// Reads on after the operand `left`, the right one of the operator on top, through all operators (ECMA-262, 13.6 to
/// 13.13). One that binds tighter than what is pending is put on top, until its right operand was read; where none
/// follows, the one on top is joined with its operands. So no recursion is needed, however many operators follow one
/// another.
#[cycle(productions)]
fn parse_operators<I: Tokens, B: Bodies<I>>(
    p: &mut Productions<I, B>,
    room: usize,
    mut pending: PendingOperators,
    mut left: ExprId,
) -> PResult<ExprId>
    requires { Apart 0 p.old.nodes (operand_parts (all_pending pending) left) }
    ensures { GoesOn I.model B.is_faithful itself tree_of
        (pending_reads B.forms (tree_of p.old.nodes) (all_pending pending) left)
        (first_at p.old.nodes (first_operand (all_pending pending) left).0) p.old result p.new }
{
    loop {
        match ops::next_operator(&mut p.input, pending.min_prec())? {
            Some(op) => {
                ops::take_operator(p, &mut pending, left, op)?;
                let is_free = ops::private_may_follow(&pending);
                left = parse_operand(p, room, is_free)?;
            }
            None => {
                ops::check_nullish_left::<I, B>(&mut p.input, &p.nodes, left)?;
                match pending.pop() {
                    Some(operator) => left = ops::join_operands(p, operator, left)?,
                    None => return Ok(left),
                }
            }
        }
    }
}

/// An operand of a binary operator: a unary expression; or, where the syntax is pedantic, a `#` and a name that are the
/// left operand of an `in` (ECMA-262, 13.10.1), if no operator before them takes them, so that they are free. Where no
/// `in` follows, that is recorded, and they are read on from as any primary expression is.
#[cycle(productions)]
fn parse_operand<I: Tokens, B: Bodies<I>>(
    p: &mut Productions<I, B>,
    room: usize,
    is_free: bool,
) -> PResult<ExprId>
    ensures { Produces I.model B.is_faithful itself tree_of (operand B.forms is_free)
        (count p.old.nodes) p.old result p.new }
{
    tokens::look(&mut p.input)?;
    if primary::begins_private(&p.input, is_free) {
        let name = primary::parse_private_operand(p)?;
        let callee = parse_subscripts(p, room, name, false)?;
        return ops::parse_update_postfix(p, callee);
    }
    parse_unary_expr(p, room)
}

/// A unary expression (ECMA-262, 13.5): `++`, `--`, another prefix operator or `await`, and its operand; or a
/// left-hand side, and `++` or `--` after it on the same line.
#[cycle(productions)]
pub fn parse_unary_expr<I: Tokens, B: Bodies<I>>(
    p: &mut Productions<I, B>,
    room: usize,
) -> PResult<ExprId>
    ensures { Produces I.model B.is_faithful itself tree_of (run B.forms (sym Unary))
        (count p.old.nodes) p.old result p.new }
{
    tokens::look(&mut p.input)?;
    if begins_plain(&p.input) {
        return parse_plain_operand(p, room);
    }
    match ops::cur_update_op(&p.input) {
        Some(op) => {
            let less = deeper(&p.input, &mut p.too_deep, room)?;
            let start = p.cur_span();
            tokens::skip(&mut p.input);
            let arg = parse_unary_expr(p, less)?;
            return update_prefix(p, start, op, arg);
        }
        None => {}
    }
    match ops::cur_prefix_op(&p.input) {
        Some(op) => {
            let less = deeper(&p.input, &mut p.too_deep, room)?;
            let start = p.cur_span();
            tokens::skip(&mut p.input);
            let at = tokens::cur_pos(&mut p.input)?;
            return match parse_unary_expr(p, less) {
                Ok(arg) => ops::unary_expr(p, start, op, arg),
                Err(error) => ops::unary_expr_without_operand(p, start, op, error, at),
            };
        }
        None => {}
    }
    if ops::is_await(&p.input) {
        let start = p.cur_span();
        tokens::skip(&mut p.input);
        return parse_await_expr(p, room, start);
    }
    let expr = parse_lhs_expr(p, room)?;
    ops::parse_update_postfix(p, expr)
}

/// `await` (ECMA-262, 15.8), which is at `start`, and its operand; or the identifier `await` (13.1).
#[cycle(productions)]
fn parse_await_expr<I: Tokens, B: Bodies<I>>(
    p: &mut Productions<I, B>,
    room: usize,
    start: Span,
) -> PResult<ExprId>
    ensures { GoesOn I.model B.is_faithful itself tree_of (await_tail B.forms start)
        (count p.old.nodes) p.old result p.new }
{
    if is_await_name(&mut p.input)? {
        return ops::parse_await_ident(p, start);
    }
    ops::check_await(&mut p.input, start)?;
    let less = deeper(&p.input, &mut p.too_deep, room)?;
    let arg = parse_unary_expr(p, less)?;
    let node = p.nodes.await_expr(start.lo, arg);
    p.made(node)
}

/// A unary expression (ECMA-262, 13.5) that begins with a name, a literal or `this`: a left-hand side, and `++` or `--`
/// after it on the same line. Where nothing goes on with what is before its first call, that is all of it. The
/// context is that from before, also after a refusal.
#[cycle(productions)]
fn parse_plain_operand<I: Tokens, B: Bodies<I>>(
    p: &mut Productions<I, B>,
    room: usize,
) -> PResult<ExprId>
    requires looked { Here I.model p.old.input p.old.input }
    requires plain { at_token is_plain (seen p.old.input) ≡ true }
    ensures { Produces I.model B.is_faithful itself tree_of (run B.forms (sym Unary))
        (count p.old.nodes) p.old result p.new }
{
    let callee = within!(p, member_context(p.get_ctx()), parse_plain_member(p, room))?;
    tokens::look(&mut p.input)?;
    if !may_go_on(&p.input) {
        return Ok(callee);
    }
    let expr = parse_subscripts(p, room, callee, false)?;
    ops::parse_update_postfix(p, expr)
}

/// A member expression (ECMA-262, 13.3) that begins with a name, a literal or `this`: a primary expression, and the
/// links after it, but for calls.
#[cycle(productions)]
fn parse_plain_member<I: Tokens, B: Bodies<I>>(
    p: &mut Productions<I, B>,
    room: usize,
) -> PResult<ExprId>
    requires looked { Here I.model p.old.input p.old.input }
    requires plain { at_token is_plain (seen p.old.input) ≡ true }
    ensures { Produces I.model B.is_faithful itself tree_of (run B.forms (sym (Lhs false)))
        (count p.old.nodes) p.old result p.new }
{
    let base = primary::parse_plain_primary(p)?;
    parse_subscripts(p, room, base, true)
}

// ---- Expressions with commas between them, assignment expressions, conditionals and `yield` (ECMA-262, 13.14 to 13.16
// and 15.5)

/// An expression (ECMA-262, 13.16): an assignment expression, or several with commas between them.
#[cycle(productions)]
pub fn parse_expr<I: Tokens, B: Bodies<I>>(
    p: &mut Productions<I, B>,
    room: usize,
) -> PResult<ExprId>
    ensures { Produces I.model B.is_faithful itself tree_of (run B.forms (sym Expr))
        (count p.old.nodes) p.old result p.new }
{
    let first = parse_assignment_expr(p, room)?;
    match tokens::eat(&mut p.input, Sign::Comma)? {
        Some(_) => {}
        None => return Ok(first),
    }
    let mut exprs = Vec::new(p.alloc);
    p.add(&mut exprs, first)?;
    loop {
        let expr = parse_assignment_expr(p, room)?;
        p.add(&mut exprs, expr)?;
        match tokens::eat(&mut p.input, Sign::Comma)? {
            Some(_) => {}
            None => {
                let node = p.nodes.seq_expr(exprs);
                return p.made(node);
            }
        }
    }
}

/// An assignment expression (ECMA-262, 13.15), or an arrow function (15.3 and 15.9); or `yield` (15.5), and its
/// operand.
#[cycle(productions)]
pub fn parse_assignment_expr<I: Tokens, B: Bodies<I>>(
    p: &mut Productions<I, B>,
    room: usize,
) -> PResult<ExprId>
    ensures { Produces I.model B.is_faithful itself tree_of (run B.forms (sym Assign))
        (count p.old.nodes) p.old result p.new }
{
    p.input.require_cur()?;
    let less = deeper(&p.input, &mut p.too_deep, room)?;
    if assign::is_yield_operator(&p.input) {
        return parse_yield_expr(p, less);
    }
    parse_arrow_or_assign(p, less)
}

/// `yield` (ECMA-262, 15.5), which is current, and its operand, with the `*` before it or not, where one begins on the
/// same line. In parameters outside a function `yield` is refused. A refusal of its operand is labelled with the place
/// of `yield` and the `*`.
#[cycle(productions)]
#[inline(never)]
fn parse_yield_expr<I: Tokens, B: Bodies<I>>(
    p: &mut Productions<I, B>,
    room: usize,
) -> PResult<ExprId>
    requires { IsSome (current p.old.input) }
    ensures { Produces I.model B.is_faithful itself tree_of (yield_expr B.forms)
        (count p.old.nodes) p.old result p.new }
{
    let start = p.cur_span();
    tokens::skip(&mut p.input);
    assign::refuse_yield_param(&mut p.input)?;
    if !assign::goes_on_yield(&mut p.input)? {
        let node = p.nodes.yield_alone(start);
        return p.made(node);
    }
    let star = tokens::eat(&mut p.input, Sign::Star)?;
    let end = p.last_pos();
    match parse_assignment_expr(p, room) {
        Ok(arg) => {
            let node = p.nodes.yield_expr(start.lo, star.is_some(), arg);
            p.made(node)
        }
        Err(error) => {
            let span = Span::new(start.lo, end);
            Err(tokens::label_yield(p.alloc, &p.input, span, error))
        }
    }
}

/// An assignment expression that `yield` doesn't begin (ECMA-262, 13.15): an arrow function (15.3 and 15.9); or what
/// binary operators join, a conditional or an assignment. After an arrow function with parameters in parentheses and a
/// block operators are read on, which is recorded as `TS1005`, and once more where no semicolon may come after them.
/// Where the left operand was refused before an operator, or an operand after such a function, that is recorded, and
/// reading goes on there, with `Invalid` in place of all that was read before.
#[cycle(productions)]
fn parse_arrow_or_assign<I: Tokens, B: Bodies<I>>(
    p: &mut Productions<I, B>,
    room: usize,
) -> PResult<ExprId>
    requires looked { Here I.model p.old.input p.old.input }
    requires fit { at_token no_error (seen p.old.input) ≡ true }
    requires no_yield { (at_token is_yield (seen p.old.input)
        && (context I.model p.old.input).in_generator) ≡ false }
    ensures { Produces I.model B.is_faithful itself tree_of (run B.forms (sym Assign))
        (count p.old.nodes) p.old result p.new }
{
    let first = p.cur_span().lo;
    let read = match parse_arrow_or_operand(p, room) {
        Ok(read) => read,
        Err(error) => {
            let left = recover_operators(p, room, error, first)?;
            return finish_assignment_expr(p, room, left);
        }
    };
    let pending = PendingOperators::new(p.alloc);
    match read {
        ArrowOrBase::Arrow(arrow) => Ok(arrow),
        ArrowOrBase::Base(operand) => {
            let left = parse_operators(p, room, pending, operand)?;
            finish_assignment_expr(p, room, left)
        }
        ArrowOrBase::Operand(arrow) => {
            let left = match parse_operators(p, room, pending, arrow) {
                Ok(left) => left,
                Err(error) => {
                    let left = recover_operators(p, room, error, first)?;
                    return finish_assignment_expr(p, room, left);
                }
            };
            check_operators_end(&mut p.input)?;
            ops::check_nullish_left::<I, B>(&mut p.input, &p.nodes, left)?;
            finish_assignment_expr(p, room, left)
        }
        ArrowOrBase::Other => {
            let left = parse_bin_expr(p, room)?;
            finish_assignment_expr(p, room, left)
        }
    }
}

/// What an assignment expression begins with, where that may be an arrow function (ECMA-262, 15.3 and 15.9), as
/// `parse_arrow_or_base` reads it; with the links after it, and `++` or `--`, where it is no arrow function.
#[cycle(productions)]
#[inline(never)]
fn parse_arrow_or_operand<I: Tokens, B: Bodies<I>>(
    p: &mut Productions<I, B>,
    room: usize,
) -> PResult<ArrowOrBase>
    requires looked { Here I.model p.old.input p.old.input }
    requires fit { at_token no_error (seen p.old.input) ≡ true }
    requires no_yield { (at_token is_yield (seen p.old.input)
        && (context I.model p.old.input).in_generator) ≡ false }
    ensures { MayBeOperand I.model B.is_faithful B.forms (run B.forms (sym Assign))
        (count p.old.nodes) p.old result p.new }
{
    match parse_arrow_or_base(p, room)? {
        ArrowOrBase::Base(base) => {
            let callee = parse_subscripts(p, room, base, false)?;
            let operand = ops::parse_update_postfix(p, callee)?;
            Ok(ArrowOrBase::Base(operand))
        }
        other => Ok(other),
    }
}

/// What an assignment expression begins with, where that may be an arrow function (ECMA-262, 15.3 and 15.9): the
/// function; or an expression in parentheses, or a call of `async` (13.3.8), or in the head of a `for await` `async`
/// before `of`, after which links may come. Elsewhere nothing is read.
#[cycle(productions)]
fn parse_arrow_or_base<I: Tokens, B: Bodies<I>>(
    p: &mut Productions<I, B>,
    room: usize,
) -> PResult<ArrowOrBase>
    requires looked { Here I.model p.old.input p.old.input }
    requires fit { at_token no_error (seen p.old.input) ≡ true }
    requires no_yield { (at_token is_yield (seen p.old.input)
        && (context I.model p.old.input).in_generator) ≡ false }
    ensures { MayBeArrow I.model B.is_faithful B.forms (run B.forms (sym Assign))
        (count p.old.nodes) p.old result p.new }
{
    match start_kind(&mut p.input)? {
        StartKind::Name => match parse_arrow_name(p)? {
            Beginning::Arrow(head) => parse_arrow_rest(p, room, head),
            Beginning::Base(base) => Ok(ArrowOrBase::Base(base)),
        },
        StartKind::AsyncName => match parse_async_name(p)? {
            Beginning::Arrow(head) => parse_arrow_rest(p, room, head),
            Beginning::Base(base) => Ok(ArrowOrBase::Base(base)),
        },
        StartKind::List { is_async } => {
            let start = open_list(p, is_async)?;
            let list = within!(p, items_context(p.get_ctx()), parse_args(p, room, false))?;
            match close_list(p, start, list)? {
                Beginning::Arrow(head) => parse_arrow_rest(p, room, head),
                Beginning::Base(base) => Ok(ArrowOrBase::Base(base)),
            }
        }
        StartKind::Other => Ok(ArrowOrBase::Other),
    }
}

/// An arrow function (ECMA-262, 15.3 and 15.9), after its `=>`: reads its body. The context is that from before, also
/// after a refusal; whether `import.` was read in the body isn't told outside.
#[cycle(productions)]
fn parse_arrow_rest<I: Tokens, B: Bodies<I>>(
    p: &mut Productions<I, B>,
    room: usize,
    head: ArrowHead,
) -> PResult<ArrowOrBase>
    requires { Apart 0 p.old.nodes (pats_parts head.params) }
    ensures reads { (k : ℕ) → Apart k p.old.nodes (pats_parts head.params) → ReadsArrow I.model B.is_faithful
        (arrow_behind B.forms head.start head.is_async head.in_parens (pat_trees (tree_at p.old.nodes) head.params))
        k p.old result p.new }
    ensures found { p.new.found_module_item ≡ p.old.found_module_item }
{
    let found = p.found_module_item;
    let ctx = p.get_ctx().arrow_body(head.is_async);
    let body = within!(p, ctx, parse_arrow_body(p, room));
    let arrow = match body {
        Ok(body) => arrow_function(p, head, body),
        Err(error) => Err(error),
    };
    p.found_module_item = found;
    arrow
}

/// The body of an arrow function (ECMA-262, 15.3 and 15.9), in its context: a block, which the hook reads, or an
/// assignment expression.
#[cycle(productions)]
fn parse_arrow_body<I: Tokens, B: Bodies<I>>(
    p: &mut Productions<I, B>,
    room: usize,
) -> PResult<BlockStmtOrExpr<ExprId, B::Block>>
    ensures { Produces I.model B.is_faithful body_of body_at (body_by B.forms B.Block.place)
        (count p.old.nodes) p.old result p.new }
{
    if begins_block(&mut p.input)? {
        return parse_block_body(p);
    }
    let expr = parse_assignment_expr(p, room)?;
    Ok(BlockStmtOrExpr::Expr(expr))
}

/// Reads on after `left`, which is what binary operators join: the rest of a conditional (ECMA-262, 13.14), from its
/// `?` on, or an operator that writes and what it writes (13.15), where a literal before `=` becomes a pattern
/// (13.15.5). The context is that from before, also after a refusal.
#[cycle(productions)]
fn finish_assignment_expr<I: Tokens, B: Bodies<I>>(
    p: &mut Productions<I, B>,
    room: usize,
    left: ExprId,
) -> PResult<ExprId>
    requires from { From 0 p.old.nodes (expr_part left) }
    ensures { Rewrites I.model B.is_faithful itself
        (assigns_from B.forms (start_at p.old.nodes left.0) (tree_of p.old.nodes left))
        (λ ns e c ts. Some (tree_of ns e, ts)) (first_at p.old.nodes left.0) p.old result p.new }
{
    tokens::look(&mut p.input)?;
    if tokens::is_sign(&p.input, Sign::Question) {
        tokens::skip(&mut p.input);
        let ctx = assign::cond_middle(p.get_ctx());
        let cons = within!(p, ctx, parse_assignment_expr(p, room))?;
        tokens::expect(&mut p.input, Sign::Colon)?;
        let ctx = assign::cond_last(p.get_ctx());
        let alt = within!(p, ctx, parse_assignment_expr(p, room))?;
        let node = p.nodes.cond_expr(left, cons, alt);
        return p.made(node);
    }
    let op = match assign::cur_assign_op(p, left) {
        Some(op) => op,
        None => return Ok(left),
    };
    let target = assign::assign_target(p, op, left)?;
    tokens::skip(&mut p.input);
    let right = parse_assignment_expr(p, room)?;
    assign::assign_node(p, op, target, right)
}

// ---- Binding patterns (ECMA-262, 14.3.3) and formal parameters (15.1)

/// A binding pattern (ECMA-262, 14.3.3): an identifier that is bound (13.1), an array pattern or an object pattern,
/// among whose properties no colon of a conditional is expected. Another token is refused as `Unexpected`, at that
/// token, and the end as `Eof`. The context is that from before, also after a refusal.
#[cycle(productions)]
pub fn parse_pat<I: Tokens, B: Bodies<I>>(p: &mut Productions<I, B>, room: usize) -> PResult<PatId>
    ensures { Produces I.model B.is_faithful pat_itself pat_at (run B.forms (sym Pat))
        (count p.old.nodes) p.old result p.new }
{
    tokens::look(&mut p.input)?;
    match pat_kind(&p.input) {
        PatKind::Array => {
            let less = deeper(&p.input, &mut p.too_deep, room)?;
            let start = p.cur_span();
            tokens::skip(&mut p.input);
            let elems = parse_pat_elements(p, less)?;
            array_pat(p, start, elems)
        }
        PatKind::Object => {
            let less = deeper(&p.input, &mut p.too_deep, room)?;
            let start = p.cur_span().lo;
            tokens::skip(&mut p.input);
            let props = within!(p, without_colon(p.get_ctx()), parse_pat_props(p, less))?;
            object_pat(p, start, props)
        }
        PatKind::Plain => parse_plain_pat(p),
    }
}

/// A binding pattern, and its initialiser or none (ECMA-262, 14.3.3), in which `in` counts as an operator.
#[cycle(productions)]
pub fn parse_binding_element<I: Tokens, B: Bodies<I>>(
    p: &mut Productions<I, B>,
    room: usize,
) -> PResult<PatId>
    ensures { Produces I.model B.is_faithful pat_itself pat_at (run B.forms (sym Element))
        (count p.old.nodes) p.old result p.new }
{
    let left = parse_pat(p, room)?;
    match tokens::eat(&mut p.input, Sign::Assign)? {
        Some(_) => {
            let value = within!(p, include_in(p.get_ctx()), parse_assignment_expr(p, room))?;
            default_pat(p, left, value)
        }
        None => Ok(left),
    }
}

/// The elements of an array pattern (ECMA-262, 14.3.3), a comma after each, which may be missing after the last one,
/// and the bracket that closes the pattern. A comma where an element would be is a hole (`None`).
#[cycle(productions)]
fn parse_pat_elements<I: Tokens, B: Bodies<I>>(
    p: &mut Productions<I, B>,
    room: usize,
) -> PResult<Listed<Option<PatId>>>
    ensures { Produces I.model B.is_faithful pat_elems_of pat_elems_at (run B.forms (sym PatElements))
        (count p.old.nodes) p.old result p.new }
{
    let mut items = Vec::new(p.alloc);
    let mut rest = SeenRest::No;
    loop {
        match next_element(&mut p.input, rest)? {
            NextElement::End(end) => {
                return Ok(Listed {
                    items,
                    trailing_comma: None,
                    end,
                });
            }
            NextElement::Hole => {
                p.add(&mut items, None)?;
                rest = rest.passed();
            }
            NextElement::Item(dots) => {
                let pat = match dots {
                    Some(dots) => {
                        let arg = parse_pat(p, room)?;
                        rest_pat(p, dots, arg)?
                    }
                    None => parse_binding_element(p, room)?,
                };
                p.add(&mut items, Some(pat))?;
                rest = separate_item(&mut p.input, Sign::RBracket, dots, rest)?;
            }
        }
    }
}

/// The properties of an object pattern (ECMA-262, 14.3.3), and rests among them, wherever they are, a comma after
/// each, which may be missing after the last one, and the brace that closes the pattern.
#[cycle(productions)]
fn parse_pat_props<I: Tokens, B: Bodies<I>>(
    p: &mut Productions<I, B>,
    room: usize,
) -> PResult<Listed<PatPropNode>>
    ensures { Leaves I.model B.is_faithful pat_props_of (run B.forms (sym PatProps))
        (λ ns l. props_done (pat_props_at ns l)) (count p.old.nodes) p.old result p.new }
{
    listed!(
        p,
        Sign::RBrace,
        items,
        {
            let prop = parse_object_pat_prop(p, room)?;
            p.add(&mut items, prop)?;
            tokens::separate(&mut p.input, Sign::RBrace)?
        }
    )
}

/// A property of an object pattern (ECMA-262, 14.3.3): a rest over any pattern; a key, and after its `:` an element; a
/// name alone; or a name, and after its `=` an initialiser, in which `in` counts as an operator.
#[cycle(productions)]
pub fn parse_object_pat_prop<I: Tokens, B: Bodies<I>>(
    p: &mut Productions<I, B>,
    room: usize,
) -> PResult<PatPropNode>
    ensures { Produces I.model B.is_faithful pat_prop_of pat_prop_at (pat_prop_item B.forms)
        (count p.old.nodes) p.old result p.new }
{
    match tokens::eat(&mut p.input, Sign::DotDotDot)? {
        Some(dots) => {
            let arg = parse_pat(p, room)?;
            return Ok(p.nodes.rest_pat_prop(dots, arg));
        }
        None => {}
    }
    let key = within!(p, prop_name_context(p.get_ctx()), parse_prop_name(p, room))?;
    match after_pat_key(&mut p.input, key)? {
        AfterPatKey::Value(key) => {
            let value = parse_binding_element(p, room)?;
            Ok(p.nodes.key_pat_prop(key, value))
        }
        AfterPatKey::Default(name) => {
            let value = within!(p, include_in(p.get_ctx()), parse_assignment_expr(p, room))?;
            Ok(p.nodes.default_pat_prop(name, value))
        }
        AfterPatKey::Name(name) => Ok(name_pat_prop(name)),
    }
}

/// Formal parameters (ECMA-262, 15.1), a comma after each, which may be missing after the last one, up to the
/// parenthesis that closes them, which stays, or to the end where a parameter could begin. A rest may have an
/// initialiser, which is recorded.
#[cycle(productions)]
pub fn parse_formal_params<I: Tokens, B: Bodies<I>>(
    p: &mut Productions<I, B>,
    room: usize,
) -> PResult<Vec<Param<PatId>>>
    ensures { LeavesParams I.model B.is_faithful B.forms (count p.old.nodes) p.old result p.new }
{
    let mut params = Vec::new(p.alloc);
    let mut rest = SeenRest::No;
    loop {
        match next_param(&mut p.input, rest)? {
            NextParam::End => return Ok(params),
            NextParam::Item(dots) => {
                let pat = match dots {
                    Some(dots) => {
                        let arg = parse_pat(p, room)?;
                        match tokens::eat(&mut p.input, Sign::Assign)? {
                            Some(_) => {
                                let value = parse_assignment_expr(p, room)?;
                                rest_default(p, dots, arg, value)?
                            }
                            None => rest_pat(p, dots, arg)?,
                        }
                    }
                    None => parse_binding_element(p, room)?,
                };
                let param = param_of(p, pat);
                p.add(&mut params, param)?;
                rest = separate_item(&mut p.input, Sign::RParen, dots, rest)?;
            }
        }
    }
}
