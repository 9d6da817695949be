// Lists in parentheses that may be the parameters of an arrow function (ECMA-262, 13.2.9, 15.3 and 15.9).
ghost use Rattle.std.specs.Prelude.{◌≡◌, ◌<◌, ◌≤◌, ◌++◌, ℕ, true, map, IfOk, OnOk};
ghost use Rattle.swc_bodies.specs.Readings.{is_async as is_async_token};
ghost use Rattle.swc_cover.specs.Rewriting.{Rewrites};
ghost use Rattle.swc_grammar.specs.Arrows.{is_arrow};
ghost use Rattle.swc_input.specs.{Buffer.current, Buffer.to_come, Kinds.at_token};
ghost use Rattle.swc_nodes.specs.GrowingNodes.{count, first_at, first_start, last_end, Apart};
ghost use Rattle.swc_nodes.specs.NodeParts.{args_parts, one_expr};
ghost use Rattle.swc_patterns.specs.Answers.{Leaves};
ghost use Rattle.swc_steps.specs.Parsing.{seen, args_at, itself, tree_of, ContinuesAlone, GoesOn, Heard};
ghost use Rattle.swc_arrows.specs.Answers.{beginning_of, beginning_behind, callee_at, callee_parts, list_start_at, list_start_of, list_start_behind, IsArrow, IsBase};
ghost use Rattle.swc_arrows.specs.Readers.{async_call, base_closed, base_look, params_closed, is_callee, list_closed, list_head, list_opening, on_line};

use crate::names::{ArrowHead, Beginning};
use swc_ast::expr::ExprOrSpread;
use swc_bodies::bodies::Bodies;
use swc_context::error::{PResult, SyntaxError};
use swc_context::span::Span;
use swc_cover::refining::parse_paren_items_as_params;
use swc_input::buffer::Buffer;
use swc_input::tokens::Tokens;
use swc_left::left::call_expr;
use swc_nodes::node::ExprId;
use swc_primary::parens::check_item_covers;
use swc_primary::primary::{paren_items, parse_reference};
use swc_steps::productions::Productions;
use swc_steps::tokens::{Listed, Sign, expect, is_after_line_break, is_sign, look, skip};

/// Where a list begins that may be the parameters of an arrow function.
#[derive(Clone, Copy)]
pub struct ListStart {
    /// The place of its parenthesis, or of `async` before it.
    pub at: Span,
    /// `async`, as an identifier, which is called where the list is no parameters.
    pub callee: Option<ExprId>,
}

/// Consumes the parenthesis that opens a list, and `async` before it, where it `is_async`.
#[inline(never)]
pub fn open_list<I: Tokens, B: Bodies<I>>(
    p: &mut Productions<I, B>,
    is_async: bool,
) -> PResult<ListStart>
    requires { is_async ≡ true → at_token is_async_token (seen p.old.input) ≡ true }
    ensures leaves { Leaves I.model B.is_faithful list_start_of (list_head B.forms is_async) (list_start_behind B.forms)
        (count p.old.nodes) p.old result p.new }
    ensures callee { IfOk result (λ s. is_callee s.at (callee_at p.new.nodes s.callee)) }
    ensures opens { IfOk result (λ s. Heard I.model B.is_faithful (list_opening is_async) (list_start_at p.new.nodes s)
        p.old.input p.new.input) }
    ensures less { OnOk result (to_come I.model p.new.input < to_come I.model p.old.input) }
{
    if !is_async {
        let at = expect(&mut p.input, Sign::LParen)?;
        return Ok(ListStart { at, callee: None });
    }
    let name = parse_reference(p.alloc, &mut p.input)?;
    let at = name.span;
    expect(&mut p.input, Sign::LParen)?;
    let node = p.nodes.ident_expr(name);
    let callee = p.made(node)?;
    Ok(ListStart {
        at,
        callee: Some(callee),
    })
}

/// What a list is that was read: the parameters of an arrow function, where `=>` is after it; else what is in
/// parentheses (ECMA-262, 13.2.9), or the arguments of a call of `async` (13.3.8), among which an object literal with a
/// property `name = value` is recorded, unless the syntax is pedantic. A line break before `=>` is refused as
/// `LineBreakBeforeArrow`, from where the list begins through its `)`.
#[inline(never)]
pub fn close_list<I: Tokens, B: Bodies<I>>(
    p: &mut Productions<I, B>,
    start: ListStart,
    list: Listed<ExprOrSpread<ExprId>>,
) -> PResult<Beginning>
    requires { Apart 0 p.old.nodes (callee_parts start.callee ++ args_parts list.items) }
    ensures rewrites { (k : ℕ) → k ≤ count p.old.nodes
        → Apart k p.old.nodes (callee_parts start.callee ++ args_parts list.items)
        → Rewrites I.model B.is_faithful beginning_of
        (list_closed B.forms (first_start p.old.nodes (map (λ item. item.expr) list.items.items))
        (last_end p.old.nodes (map (λ item. item.expr) list.items.items)) (callee_at p.old.nodes start.callee)
        start.at (args_at p.old.nodes list)) (beginning_behind B.forms) k p.old result p.new }
    ensures base { IfOk result (λ b. IsBase I.model B.is_faithful
        (base_look (first_start p.old.nodes (map (λ item. item.expr) list.items.items))
        (last_end p.old.nodes (map (λ item. item.expr) list.items.items)) (callee_at p.old.nodes start.callee)
        start.at (args_at p.old.nodes list)) p.new.nodes b p.old.input p.new.input) }
{
    look(&mut p.input)?;
    if is_sign(&p.input, Sign::Arrow) {
        return parse_params(p, start, list);
    }
    let base = close_base(p, start, list)?;
    Ok(Beginning::Base(base))
}

/// The list as what is in parentheses, or as the arguments of a call of `async`.
fn close_base<I: Tokens, B: Bodies<I>>(
    p: &mut Productions<I, B>,
    start: ListStart,
    list: Listed<ExprOrSpread<ExprId>>,
) -> PResult<ExprId>
    requires { Apart 0 p.old.nodes (callee_parts start.callee ++ args_parts list.items) }
    ensures { (k : ℕ) → Apart k p.old.nodes (callee_parts start.callee ++ args_parts list.items)
        → GoesOn I.model B.is_faithful itself tree_of
        (base_closed (first_start p.old.nodes (map (λ item. item.expr) list.items.items))
        (last_end p.old.nodes (map (λ item. item.expr) list.items.items)) (callee_at p.old.nodes start.callee)
        start.at (args_at p.old.nodes list)) k p.old result p.new }
{
    match start.callee {
        Some(callee) => async_call(p, callee, list),
        None => paren_items(p, start.at, list),
    }
}

/// The list as the parameters of an arrow function, after which `=>` is current.
fn parse_params<I: Tokens, B: Bodies<I>>(
    p: &mut Productions<I, B>,
    start: ListStart,
    list: Listed<ExprOrSpread<ExprId>>,
) -> PResult<Beginning>
    requires arrow { at_token is_arrow (seen p.old.input) ≡ true }
    requires apart { Apart 0 p.old.nodes (callee_parts start.callee ++ args_parts list.items) }
    ensures rewrites { (k : ℕ) → k ≤ count p.old.nodes
        → Apart k p.old.nodes (callee_parts start.callee ++ args_parts list.items)
        → Rewrites I.model B.is_faithful beginning_of (params_closed B.forms (callee_at p.old.nodes start.callee)
        start.at (args_at p.old.nodes list)) (beginning_behind B.forms) k p.old result p.new }
    ensures arrow { IfOk result (λ b. IsArrow b) }
{
    refuse_line_break(&mut p.input, start.at, list.end)?;
    skip(&mut p.input);
    let params = parse_paren_items_as_params(p, &list.items, list.trailing_comma)?;
    Ok(Beginning::Arrow(ArrowHead {
        start: start.at.lo,
        is_async: start.callee.is_some(),
        in_parens: true,
        params,
    }))
}

/// Refuses `=>` after a line break, from `start` through `end`.
fn refuse_line_break<I: Tokens>(input: &mut Buffer<I>, start: Span, end: Span) -> PResult<()>
    ensures continues { ContinuesAlone I.model (λ u. u) on_line input.old result input.new }
    ensures falls { OnOk result (to_come I.model input.new ≤ to_come I.model input.old) }
    ensures current { at_token is_arrow (seen input.old) ≡ true → OnOk result (current input.new ≡ current input.old) }
{
    if is_after_line_break(input)? {
        let span = Span::new(start.lo, end.hi);
        return Err(input.syntax_error(span, SyntaxError::LineBreakBeforeArrow));
    }
    Ok(())
}

/// A call of `async` (ECMA-262, 13.3.8).
fn async_call<I: Tokens, B: Bodies<I>>(
    p: &mut Productions<I, B>,
    callee: ExprId,
    list: Listed<ExprOrSpread<ExprId>>,
) -> PResult<ExprId>
    requires { Apart 0 p.old.nodes (one_expr callee ++ args_parts list.items) }
    ensures { GoesOn I.model B.is_faithful itself tree_of
        (async_call (tree_of p.old.nodes callee) (args_at p.old.nodes list))
        (first_at p.old.nodes callee.0) p.old result p.new }
{
    check_item_covers::<I, B>(&mut p.input, &p.nodes, &list.items)?;
    call_expr(p, callee, list, false)
}
