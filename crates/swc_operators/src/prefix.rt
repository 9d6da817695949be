// `++` and `--` before their operand (ECMA-262, 13.4), and what `await` is (13.1 and 15.8).
ghost use Rattle.std.specs.Prelude.{◌≤◌, OnOk};
ghost use Rattle.swc_input.specs.Buffer.{to_come};
ghost use Rattle.swc_nodes.specs.{NodeParts.expr_part, GrowingNodes.first_at, GrowingNodes.From};
ghost use Rattle.swc_operators.specs.{Prefixes.await_names, Updates.update_node};
ghost use Rattle.swc_steps.specs.Parsing.{ContinuesAlone, GoesOn, itself, tree_of};

use crate::ops::{check_update_target, is_await_ident};
use swc_bodies::bodies::Bodies;
use swc_context::error::{PResult, SyntaxError};
use swc_context::operator::UpdateOp;
use swc_context::span::Span;
use swc_input::buffer::Buffer;
use swc_input::tokens::Tokens;
use swc_nodes::node::ExprId;
use swc_steps::productions::Productions;
use swc_steps::tokens::{Sign, is_sign, look};

/// `++` or `--` at `start`, and its operand (ECMA-262, 13.4). What it can't write to is recorded. Consumes nothing.
pub fn update_prefix<I: Tokens, B: Bodies<I>>(
    p: &mut Productions<I, B>,
    start: Span,
    op: UpdateOp,
    arg: ExprId,
) -> PResult<ExprId>
    requires { From 0 p.old.nodes (expr_part arg) }
    ensures { GoesOn I.model B.is_faithful itself tree_of
        (λ c ts. update_node start op c (tree_of p.old.nodes arg) ts)
        (first_at p.old.nodes arg.0) p.old result p.new }
{
    check_update_target::<I, B>(&mut p.input, &p.nodes, arg)?;
    let node = p.nodes.update_prefix(start.lo, op, arg);
    p.made(node)
}

/// Whether `await`, which was consumed, is an identifier (ECMA-262, 13.1): outside async code, where no operand
/// follows. A `*` after it is refused. Consumes nothing.
pub fn is_await_name<I: Tokens>(input: &mut Buffer<I>) -> PResult<bool>
    ensures names { ContinuesAlone I.model (λ b. b) await_names input.old result input.new }
    ensures falls { OnOk result (to_come I.model input.new ≤ to_come I.model input.old) }
{
    look(input)?;
    if is_sign(input, Sign::Star) {
        let span = input.cur_span();
        return Err(input.syntax_error(span, SyntaxError::AwaitStar));
    }
    is_await_ident(input)
}
