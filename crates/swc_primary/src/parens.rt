// What can't be in parentheses by itself (ECMA-262, 13.2.9), of a list as arguments have it.
ghost use Rattle.std.specs.Prelude.{length, ◌≡◌, ◌≢◌, ◌≤◌, true, false, not, ◌||◌, OnOk, IfErr};
ghost use Rattle.swc_ast.specs.Parts.{item_trees};
ghost use Rattle.swc_ast.specs.Trees.{no_cover_in, no_covers, no_spread, paren_ok};
ghost use Rattle.swc_context.specs.declared.error.SyntaxError.TheVariants.{OutOfMemory};
ghost use Rattle.swc_input.specs.{Recording.is_some, Buffer.state_of, Buffer.to_come};
ghost use Rattle.swc_nodes.specs.{Lists.is_cover_prop, Lists.has_cover, NodeParts.expr_part, NodeParts.args_parts, GrowingNodes.Apart, GrowingNodes.From};
ghost use Rattle.swc_steps.specs.Args.{arrow_free};
ghost use Rattle.swc_input.specs.Calls.{Checked, Checks, Refuses};
ghost use Rattle.swc_steps.specs.Parsing.{ContinuesAlone, tree_of, args_at};

use swc_ast::expr::ExprOrSpread;
use swc_bodies::bodies::Bodies;
use swc_context::error::{PResult, SyntaxError};
use swc_context::span::Span;
use swc_input::buffer::Buffer;
use swc_input::tokens::Tokens;
use swc_nodes::node::{ExprId, PropNode};
use swc_nodes::nodes::NodesOf;
use swc_steps::tokens::{Listed, Sign, is_after_line_break, is_sign};

/// Refuses `=>` after a list in parentheses that is no list of parameters, at the place of the list: as
/// `LineBreakBeforeArrow` where it is on another line, or else as `ArrowNotAllowed`.
pub(crate) fn refuse_arrow<I: Tokens>(input: &mut Buffer<I>, list: Span) -> PResult<()>
    ensures free { ContinuesAlone I.model (λ u. u) arrow_free input.old result input.new }
    ensures falls { OnOk result (to_come I.model input.new ≤ to_come I.model input.old) }
{
    let breaks = is_after_line_break(input)?;
    if !is_sign(input, Sign::Arrow) {
        return Ok(());
    }
    let kind = if breaks {
        SyntaxError::LineBreakBeforeArrow
    } else {
        SyntaxError::ArrowNotAllowed
    };
    Err(input.syntax_error(list, kind))
}

/// Records and refuses what can't be in parentheses, of a list from the one at `start` on. Where the syntax is
/// pedantic, a property `name = value` of an object literal may be there.
pub(crate) fn check_paren_items<I: Tokens, B: Bodies<I>>(
    input: &mut Buffer<I>,
    nodes: &NodesOf<B>,
    start: Span,
    list: &Listed<ExprOrSpread<ExprId>>,
) -> PResult<()>
    requires { Apart 0 nodes.now (args_parts list.now.items) }
    ensures checks { OnOk result (Checks I.model
        (paren_ok (state_of I.model input.old).syntax.pedantic (args_at nodes.now list.now)) input.old input.new) }
    ensures some { OnOk result (1 ≤ length list.now.items.items) }
    ensures refuses { IfErr result (λ e. Refuses I.model input.old e input.new
        × (e.kind ≢ OutOfMemory
        → paren_ok (state_of I.model input.old).syntax.pedantic (args_at nodes.now list.now) ≡ false)) }
    ensures falls { OnOk result (to_come I.model input.new ≤ to_come I.model input.old) }
{
    check_item_covers::<I, B>(input, nodes, &list.items)?;
    if list.items.is_empty() {
        let span = Span::new(start.lo, list.end.hi);
        return Err(input.syntax_error(span, SyntaxError::EmptyParenExpr));
    }
    check_last_comma(input, list.trailing_comma)?;
    refuse_spread::<I, B>(input, nodes, &list.items)
}

/// Records each property `name = value` of the object literals among the items of a list, in their order. Where the
/// syntax is pedantic, none is recorded.
#[inline(never)]
pub fn check_item_covers<I: Tokens, B: Bodies<I>>(
    input: &mut Buffer<I>,
    nodes: &NodesOf<B>,
    items: &Vec<ExprOrSpread<ExprId>>,
) -> PResult<()>
    requires { Apart 0 nodes.now (args_parts items.now) }
    ensures checks { Checked I.model ((state_of I.model input.old).syntax.pedantic
        || no_covers (item_trees (tree_of nodes.now) items.now.items)) input.old result input.new }
    ensures falls { OnOk result (to_come I.model input.new ≤ to_come I.model input.old) }
{
    let syntax = input.syntax();
    if syntax.pedantic {
        return Ok(());
    }
    for item in items {
        check_cover_names::<I, B>(input, nodes, item.expr)?;
    }
    Ok(())
}

/// Records a comma after the last expression in parentheses.
fn check_last_comma<I: Tokens>(input: &mut Buffer<I>, comma: Option<Span>) -> PResult<()>
    ensures checks { Checked I.model (not (is_some comma)) input.old result input.new }
    ensures falls { OnOk result (to_come I.model input.new ≤ to_come I.model input.old) }
{
    match comma {
        Some(span) => input.emit_err(span, SyntaxError::TS1109),
        None => Ok(()),
    }
}

/// Refuses the first item of a list that is after dots, at its expression.
fn refuse_spread<I: Tokens, B: Bodies<I>>(
    input: &mut Buffer<I>,
    nodes: &NodesOf<B>,
    items: &Vec<ExprOrSpread<ExprId>>,
) -> PResult<()>
    requires { Apart 0 nodes.now (args_parts items.now) }
    ensures passes { OnOk result ((input.new ≡ input.old)
        × (no_spread (item_trees (tree_of nodes.now) items.now.items) ≡ true)) }
    ensures refuses { IfErr result (λ e. Refuses I.model input.old e input.new
        × (no_spread (item_trees (tree_of nodes.now) items.now.items) ≡ false)) }
{
    for item in items {
        if item.spread.is_some() {
            let span = nodes.span(item.expr);
            return Err(input.syntax_error(span, SyntaxError::SpreadInParenExpr));
        }
    }
    Ok(())
}

/// Records each property `name = value` of an object literal, in their order, at their places. Of any other expression
/// nothing is recorded.
fn check_cover_names<I: Tokens, B: Bodies<I>>(
    input: &mut Buffer<I>,
    nodes: &NodesOf<B>,
    expr: ExprId,
) -> PResult<()>
    requires { From 0 nodes.now (expr_part expr) }
    ensures checks { Checked I.model (no_cover_in (tree_of nodes.now expr)) input.old result input.new }
    ensures falls { OnOk result (to_come I.model input.new ≤ to_come I.model input.old) }
{
    match nodes.props(expr) {
        Some(props) => check_props(input, props),
        None => Ok(()),
    }
}

/// Records each property `name = value` of a list, in their order.
fn check_props<I: Tokens, K>(input: &mut Buffer<I>, props: &Vec<PropNode<K>>) -> PResult<()>
    ensures checks { Checked I.model (not (has_cover props.now.items)) input.old result input.new }
    ensures falls { OnOk result (to_come I.model input.new ≤ to_come I.model input.old) }
{
    for prop in props {
        check_prop(input, prop)?;
    }
    Ok(())
}

/// Records a property if it is `name = value`.
fn check_prop<I: Tokens, K>(input: &mut Buffer<I>, prop: &PropNode<K>) -> PResult<()>
    ensures checks { Checked I.model (not (is_cover_prop prop.now)) input.old result input.new }
    ensures falls { OnOk result (to_come I.model input.new ≤ to_come I.model input.old) }
{
    match prop {
        PropNode::Assign(cover) => input.emit_err(
            cover.span.in_order(),
            SyntaxError::AssignProperty,
        ),
        _ => Ok(()),
    }
}
