// Expressions (ECMA-262, 13).
ghost use Rattle.std.specs.Prelude.{◌≡◌, ◌<◌, ◌≤◌, ◌++◌, true, false, not, ◌||◌, None, Some, OnOk, IfOk, IfErr, IsSome, MatchOption};
ghost use Rattle.swc_input.specs.Buffer.{current, peeked, to_come, context, Peeked};
ghost use Rattle.swc_input.specs.Kinds.{at_token};
ghost use Rattle.swc_ast.specs.Trees.{is_chain};
ghost use Rattle.swc_grammar.specs.Tokens.{is_super, is_import, new_target_ok};
ghost use Rattle.swc_grammar.specs.{Clean.first, Words.rest};
ghost use Rattle.swc_nodes.specs.NodeParts.{expr_part, one_expr, args_parts};
ghost use Rattle.swc_nodes.specs.GrowingNodes.{count, first_at, Apart, From};
ghost use Rattle.swc_left.specs.Links.{link_at, link_here, chain_at, chain_head, head_of, link_head, member_name, dot_tail, computed_close, call_node, target_tail, new_node};
ghost use Rattle.swc_input.specs.Calls.{Checked, Refuses};
ghost use Rattle.swc_steps.specs.Parsing.{seen, ParsesAlone, ContinuesAlone, Produces, GoesOn, Tells, itself, tree_of, args_at, member_name_of, member_name_at};

use swc_ast::expr::{ExprOrSpread, MemberProp, MetaPropKind};
use swc_ast::ident::Ident;
use swc_ast::prop::ComputedPropName;
use swc_bodies::bodies::Bodies;
use swc_context::context::Context;
use swc_context::error::{PResult, SyntaxError, Wanted};
use swc_context::span::{BytePos, Span};
use swc_ident::ident;
use swc_input::buffer::Buffer;
use swc_input::token::Token;
use swc_input::tokens::Tokens;
use swc_nodes::node::ExprId;
use swc_nodes::nodes::NodesOf;
use swc_steps::productions::Productions;
use swc_steps::tokens::{
    Listed, Sign, eat, expect, expect_or, is_sign, look, parse_private_name, skip,
};

/// A link of a left-hand side (ECMA-262, 13.3), by the token that begins it.
#[derive(Clone, Copy)]
pub enum Link {
    /// `.`: a member, by its name.
    Name,
    /// `[`: a member, by an expression.
    Computed,
    /// `(`: a call.
    Call,
    /// `?` and then `.`: a link of an optional chain.
    Chain,
    /// A backquote: a template, with a tag.
    Template,
}

/// The first tokens of a link, after which it is read on. It is `optional` where they begin with `?.`.
#[derive(Clone, Copy)]
pub enum LinkHead {
    /// `.` or `?.`: a member, by its name.
    Name { optional: bool },
    /// `[` or `?.[`, with the bracket at `start`: a member, by an expression.
    Computed { start: Span, optional: bool },
    /// `(` or `?.(`: a call.
    Call { optional: bool },
    /// A backquote at `start`: a template, with a tag.
    Template { start: Span },
}

/// `new.target` (ECMA-262, 13.3.12), after the `.`; `new` is at `start`. Where there is none, that is recorded
/// at the whole.
pub fn parse_new_target<I: Tokens, B: Bodies<I>>(
    p: &mut Productions<I, B>,
    start: Span,
) -> PResult<ExprId>
    ensures { Produces I.model B.is_faithful itself tree_of (target_tail start)
        (count p.old.nodes) p.old result p.new }
{
    let end = expect_or(
        &mut p.input,
        Sign::Target,
        SyntaxError::Unexpected(Wanted::Target),
    )?;
    let span = Span {
        lo: start.lo,
        hi: end.hi,
    };
    check_new_target(&mut p.input, span)?;
    let node = p.nodes.meta_prop(span, MetaPropKind::NewTarget);
    p.made(node)
}

/// The node of `new` at `start` (ECMA-262, 13.3.5) with its arguments. Refused only when out of memory.
pub fn new_expr<I: Tokens, B: Bodies<I>>(
    p: &mut Productions<I, B>,
    start: Span,
    callee: ExprId,
    list: Listed<ExprOrSpread<ExprId>>,
) -> PResult<ExprId>
    requires { Apart 0 p.old.nodes (one_expr callee ++ args_parts list.items) }
    ensures { GoesOn I.model B.is_faithful itself tree_of
        (new_node start (tree_of p.old.nodes callee) (args_at p.old.nodes list))
        (first_at p.old.nodes callee.0) p.old result p.new }
{
    let end = list.end.hi;
    let node = p.nodes.new_expr(start.lo, callee, list.items, end);
    p.made(node)
}

/// A member of `obj` (ECMA-262, 13.3.2), after the `.`; `optional`, where `?` is before it.
pub fn parse_dot_member<I: Tokens, B: Bodies<I>>(
    p: &mut Productions<I, B>,
    obj: ExprId,
    optional: bool,
) -> PResult<ExprId>
    requires from { From 0 p.old.nodes (expr_part obj) }
    ensures { Produces I.model B.is_faithful itself tree_of (dot_tail optional (tree_of p.old.nodes obj))
        (first_at p.old.nodes obj.0) p.old result p.new }
{
    let (prop, end) = parse_member_name(p)?;
    let node = p.nodes.member_expr(obj, prop, end, optional);
    p.made(node)
}

/// What names a member after a `.`, any word or a private name, and where it ends, in bytes.
pub(crate) fn parse_member_name<I: Tokens, B: Bodies<I>>(
    p: &mut Productions<I, B>,
) -> PResult<(MemberProp<ExprId>, BytePos)>
    ensures { Produces I.model B.is_faithful member_name_of member_name_at member_name
        (count p.old.nodes) p.old result p.new }
{
    look(&mut p.input)?;
    if is_sign(&p.input, Sign::Hash) {
        let (name, end) = parse_private_name(p.alloc, &mut p.input)?;
        return Ok((MemberProp::PrivateName(name), end));
    }
    let name = ident::parse_ident_name(p.alloc, &mut p.input)?;
    let end = name.span.hi;
    Ok((MemberProp::Ident(name), end))
}

/// A member of `obj` (ECMA-262, 13.3.2), after the bracket at `start` and the expression `expr`: the bracket that
/// closes it; `optional`, where `?.` is before these.
pub fn computed_member<I: Tokens, B: Bodies<I>>(
    p: &mut Productions<I, B>,
    obj: ExprId,
    start: Span,
    expr: ExprId,
    optional: bool,
) -> PResult<ExprId>
    requires { Apart 0 p.old.nodes (one_expr obj ++ one_expr expr) }
    ensures { Produces I.model B.is_faithful itself tree_of
        (computed_close optional start (tree_of p.old.nodes obj) (tree_of p.old.nodes expr))
        (first_at p.old.nodes obj.0) p.old result p.new }
{
    let end = expect(&mut p.input, Sign::RBracket)?;
    let span = Span {
        lo: start.lo,
        hi: end.hi,
    };
    let prop = MemberProp::Computed(ComputedPropName { span, expr });
    let node = p.nodes.member_expr(obj, prop, end.hi, optional);
    p.made(node)
}

/// The node of a call (ECMA-262, 13.3.6), with its arguments; `optional`, where `?.` is before these. Refused
/// only when out of memory.
#[inline(never)]
pub fn call_expr<I: Tokens, B: Bodies<I>>(
    p: &mut Productions<I, B>,
    callee: ExprId,
    list: Listed<ExprOrSpread<ExprId>>,
    optional: bool,
) -> PResult<ExprId>
    requires { Apart 0 p.old.nodes (one_expr callee ++ args_parts list.items) }
    ensures { GoesOn I.model B.is_faithful itself tree_of
        (call_node optional (tree_of p.old.nodes callee) (args_at p.old.nodes list))
        (first_at p.old.nodes callee.0) p.old result p.new }
{
    let end = list.end.hi;
    let node = p.nodes.call_expr(callee, list.items, end, optional);
    p.made(node)
}

/// Whether `super` or `import` is current.
pub fn is_super_or_import<I: Tokens>(input: &Buffer<I>) -> bool
    ensures { result ≡ (at_token is_super (seen input.now) || at_token is_import (seen input.now)) }
{
    is_sign(input, Sign::Super) || is_sign(input, Sign::Import)
}

/// Consumes the first tokens of the link that comes next, and answers what they begin; or nothing, where none comes
/// next. With `no_call`, a parenthesis begins none.
pub fn parse_link_head<I: Tokens>(input: &mut Buffer<I>, no_call: bool) -> PResult<Option<LinkHead>>
    ensures begins { ContinuesAlone I.model (λ h. h) (link_head (not no_call)) input.old result input.new }
    ensures falls { OnOk result (to_come I.model input.new ≤ to_come I.model input.old) }
    ensures more { IfOk result (λ r. IsSome r → to_come I.model input.new < to_come I.model input.old) }
{
    look(input)?;
    let link = match next_link(input, no_call)? {
        Some(link) => link,
        None => return Ok(None),
    };
    let head = open_link(input, link)?;
    Ok(Some(head))
}

/// Consumes the first tokens of the link that the current token begins.
fn open_link<I: Tokens>(input: &mut Buffer<I>, link: Link) -> PResult<LinkHead>
    requires { IsSome (current input.old) }
    ensures begins { ParsesAlone I.model (λ h. h) (head_of link) input.old result input.new }
    ensures falls { OnOk result (to_come I.model input.new < to_come I.model input.old) }
{
    let start = input.cur_span();
    skip(input);
    match link {
        Link::Name => Ok(LinkHead::Name { optional: false }),
        Link::Computed => Ok(LinkHead::Computed {
            start,
            optional: false,
        }),
        Link::Call => Ok(LinkHead::Call { optional: false }),
        Link::Chain => open_chain(input),
        Link::Template => Ok(LinkHead::Template { start }),
    }
}

/// Consumes the first tokens of a link of an optional chain (ECMA-262, 13.3.9), after its `?`: the `.`, and the
/// bracket or the parenthesis after it. Where neither is there, a name has to be.
fn open_chain<I: Tokens>(input: &mut Buffer<I>) -> PResult<LinkHead>
    ensures begins { ParsesAlone I.model (λ h. h) chain_head input.old result input.new }
    ensures falls { OnOk result (to_come I.model input.new < to_come I.model input.old) }
{
    expect(input, Sign::Dot)?;
    match eat(input, Sign::LBracket)? {
        Some(start) => {
            return Ok(LinkHead::Computed {
                start,
                optional: true,
            });
        }
        None => {}
    }
    match eat(input, Sign::LParen)? {
        Some(_) => Ok(LinkHead::Call { optional: true }),
        None => Ok(LinkHead::Name { optional: true }),
    }
}

/// The link that comes next; with `no_call`, a parenthesis begins none. Refused only when out of memory.
fn next_link<I: Tokens>(input: &mut Buffer<I>, no_call: bool) -> PResult<Option<Link>>
    ensures tells { Tells I.model (link_here (not no_call)) input.old result input.new }
    ensures some { IfOk result (λ r. IsSome r → IsSome (current input.new)) }
    ensures falls { to_come I.model input.new ≤ to_come I.model input.old }
{
    if is_sign(input, Sign::Question) {
        return chain_behind(input);
    }
    Ok(cur_link(input, no_call))
}

/// The link that the current token begins, which is no `?`; with `no_call`, a parenthesis begins none.
fn cur_link<I: Tokens>(input: &Buffer<I>, no_call: bool) -> Option<Link>
    ensures value { result ≡ link_at (not no_call) (seen input.now) None }
    ensures some { IsSome result → IsSome (current input.now) }
{
    match input.cur_debug()? {
        Token::Dot => Some(Link::Name),
        Token::LBracket => Some(Link::Computed),
        Token::BackQuote => Some(Link::Template),
        Token::LParen if !no_call => Some(Link::Call),
        _ => None,
    }
}

/// The link of an optional chain that `?` begins, where a `.` is after it. Refused only when out of memory.
pub(crate) fn chain_behind<I: Tokens>(input: &mut Buffer<I>) -> PResult<Option<Link>>
    requires { IsSome (current input.old) }
    ensures tells { Tells I.model (λ ts. chain_at (first (rest ts))) input.old result input.new }
    ensures current { current input.new ≡ current input.old }
    ensures falls { to_come I.model input.new ≤ to_come I.model input.old }
{
    match peek_chain(input) {
        Some(link) => Ok(link),
        None => {
            if input.failed() {
                return Err(input.out_of_memory());
            }
            Ok(None)
        }
    }
}

/// The same; nothing where no token is after it.
fn peek_chain<I: Tokens>(input: &mut Buffer<I>) -> Option<Option<Link>>
    requires { IsSome (current input.old) }
    ensures peeked { Peeked I.model input.old input.new }
    ensures value { MatchOption (peeked input.new) (result ≡ None) (λ t. result ≡ Some (chain_at (Some t))) }
{
    match input.peek() {
        Some(Token::Dot) => Some(Some(Link::Chain)),
        Some(_) => Some(None),
        None => None,
    }
}

/// Records that there is no `new.target` to give, as in code of no function and no class (ECMA-262, 16.1.1 and
/// 16.2.1.1).
fn check_new_target<I: Tokens>(input: &mut Buffer<I>, span: Span) -> PResult<()>
    ensures checks { Checked I.model (new_target_ok (context I.model input.old)) input.old result input.new }
    ensures falls { OnOk result (to_come I.model input.new ≤ to_come I.model input.old) }
{
    let ctx = input.get_ctx();
    if may_be_new_target(ctx) {
        return Ok(());
    }
    input.emit_err(span.in_order(), SyntaxError::InvalidNewTarget)
}

/// Whether `new.target` may be in the context.
fn may_be_new_target(ctx: Context) -> bool
    ensures { result ≡ new_target_ok ctx }
{
    ctx.inside_non_arrow_function_scope || ctx.in_parameters || ctx.in_class
}

/// Refuses an optional chain as what `new` constructs.
pub fn refuse_opt_chain<I: Tokens, B: Bodies<I>>(
    input: &mut Buffer<I>,
    nodes: &NodesOf<B>,
    callee: ExprId,
) -> PResult<()>
    requires { From 0 nodes.now (expr_part callee) }
    ensures passes { OnOk result ((input.new ≡ input.old) × (is_chain (tree_of nodes.now callee) ≡ false)) }
    ensures refuses { IfErr result
        (λ e. Refuses I.model input.old e input.new × (is_chain (tree_of nodes.now callee) ≡ true)) }
{
    if nodes.is_opt_chain(callee) {
        let span = nodes.span(callee);
        let kind = SyntaxError::OptChainCannotFollowConstructorCall;
        return Err(input.syntax_error(span, kind));
    }
    Ok(())
}
