// The bodies of arrow functions (ECMA-262, 15.3 and 15.9), and what may come after them.
ghost use Rattle.std.specs.Prelude.{◌≡◌, ◌≤◌, ◌++◌, ◌&&◌, ℕ, Bool, true, OnOk, IfOk, MatchResult, Some};
ghost use Rattle.swc_bodies.specs.Readings.{is_brace};
ghost use Rattle.swc_grammar.specs.{Arrows.is_sign, Clean.no_error};
ghost use Rattle.swc_input.specs.Buffer.{to_come};
ghost use Rattle.swc_input.specs.Kinds.{at_token};
ghost use Rattle.swc_nodes.specs.GrowingNodes.{count, tree_at, body_end, Apart};
ghost use Rattle.swc_nodes.specs.{Lists.pats_parts, Lists.pat_trees, NodeParts.body_parts};
ghost use Rattle.swc_input.specs.Calls.{Looks, Tries};
ghost use Rattle.swc_steps.specs.Parsing.{seen, Produces, On, Unheard};
ghost use Rattle.swc_arrows.specs.Answers.{has_block, body_at, body_of, EndsArrow, SignChecked};
ghost use Rattle.swc_arrows.specs.Readers.{arrow_end, block_inside, no_sign, ends_statement, statement_ends};

use crate::names::ArrowHead;
use swc_ast::expr::BlockStmtOrExpr;
use swc_bodies::bodies::Bodies;
use swc_context::error::{PResult, SyntaxError};
use swc_input::buffer::Buffer;
use swc_input::token::Token;
use swc_input::tokens::Tokens;
use swc_nodes::node::ExprId;
use swc_primary::methods::parse_block;
use swc_steps::productions::Productions;
use swc_steps::tokens::{Sign, is_after_line_break, is_sign, look};

/// What was read where an arrow function may be.
#[derive(Clone, Copy)]
pub enum ArrowOrBase {
    /// An arrow function, with which the assignment expression ends.
    Arrow(ExprId),
    /// An operand, which links may follow.
    Base(ExprId),
    /// An arrow function with parameters in parentheses and a block, and an operator after it, which was recorded: its
    /// left operand.
    Operand(ExprId),
    /// Nothing: no arrow function begins here.
    Other,
}

/// Whether the body is a block. Consumes nothing, and is refused only when out of memory.
pub fn begins_block<I: Tokens>(input: &mut Buffer<I>) -> PResult<bool>
    ensures looks { Looks I.model input.old result input.new }
    ensures value { IfOk result (λ r. r ≡ at_token is_brace (seen input.new)) }
    ensures falls { OnOk result (to_come I.model input.new ≤ to_come I.model input.old) }
{
    look(input)?;
    Ok(is_sign(input, Sign::LBrace))
}

/// A block, which the hook reads, in the context of the body.
pub fn parse_block_body<I: Tokens, B: Bodies<I>>(
    p: &mut Productions<I, B>,
) -> PResult<BlockStmtOrExpr<ExprId, B::Block>>
    ensures { Produces I.model B.is_faithful body_of body_at (block_inside B.forms B.Block.place)
        (count p.old.nodes) p.old result p.new }
{
    let block = parse_block(p)?;
    Ok(BlockStmtOrExpr::BlockStmt(block))
}

/// An arrow function of its beginning and its body (ECMA-262, 15.3 and 15.9). A binary operator other than `in` and
/// `instanceof` after parameters in parentheses and a block is recorded as `TS1005`, at the operator: operators are
/// read on there.
pub fn arrow_function<I: Tokens, B: Bodies<I>>(
    p: &mut Productions<I, B>,
    head: ArrowHead,
    body: BlockStmtOrExpr<ExprId, B::Block>,
) -> PResult<ArrowOrBase>
    requires { Apart 0 p.old.nodes (pats_parts head.params ++ body_parts body) }
    ensures { (k : ℕ) → Apart k p.old.nodes (pats_parts head.params ++ body_parts body)
        → EndsArrow I.model B.is_faithful (λ c ts. arrow_end head.start (body_end p.old.nodes body) head.is_async
        head.in_parens (pat_trees (tree_at p.old.nodes) head.params) (body_at p.old.nodes body) ts)
        k p.old result p.new }
{
    let bars = bars_signs(head.in_parens, &body);
    let node = p
        .nodes
        .arrow_expr(head.start, head.is_async, head.params, body);
    let arrow = p.made(node)?;
    if check_sign(&mut p.input, bars)? {
        return Ok(ArrowOrBase::Operand(arrow));
    }
    Ok(ArrowOrBase::Arrow(arrow))
}

/// Whether no binary operator may come after an arrow function but for `in` and `instanceof`: where its parameters
/// are in parentheses, and its body is a block.
fn bars_signs<K>(in_parens: bool, body: &BlockStmtOrExpr<ExprId, K>) -> bool
    ensures { result ≡ (in_parens && has_block body.now) }
{
    in_parens && matches!(body, BlockStmtOrExpr::BlockStmt(_))
}

/// Whether a binary operator is where it `bars` them, but for `in` and `instanceof`: it is recorded as `TS1005`.
/// Refused only when out of memory.
fn check_sign<I: Tokens>(input: &mut Buffer<I>, bars: bool) -> PResult<bool>
    ensures checks { (sure : Bool) → MatchResult result (λ r. SignChecked I.model sure bars r input.old input.new)
        (λ e. Unheard I.model sure (no_sign bars) input.old e input.new) }
    ensures falls { OnOk result (to_come I.model input.new ≤ to_come I.model input.old) }
{
    if !bars {
        return Ok(false);
    }
    if !is_at_sign(input)? {
        return Ok(false);
    }
    let span = input.cur_span();
    input.emit_err(span, SyntaxError::TS1005)?;
    Ok(true)
}

/// Whether a binary operator is current, but for `in` and `instanceof`. Refused only when out of memory.
fn is_at_sign<I: Tokens>(input: &mut Buffer<I>) -> PResult<bool>
    ensures looks { Looks I.model input.old result input.new }
    ensures value { IfOk result (λ r. r ≡ at_token is_sign (seen input.new)) }
    ensures fit { IfOk result (λ r. r ≡ true → at_token no_error (seen input.new) ≡ true) }
    ensures falls { OnOk result (to_come I.model input.new ≤ to_come I.model input.old) }
{
    look(input)?;
    Ok(matches!(input.cur_debug(), Some(Token::BinOp(_))))
}

/// Records `TS1005` after operators that followed an arrow function with a block, at the current token, unless a
/// semicolon may be there (ECMA-262, 12.10).
#[inline(never)]
pub fn check_operators_end<I: Tokens>(input: &mut Buffer<I>) -> PResult<()>
    ensures tries { Tries I.model input.old result input.new }
    ensures ends { OnOk result ((sure : Bool)
        → On I.model sure statement_ends (λ x ts. Some (tt, ts)) input.old input.new) }
    ensures falls { OnOk result (to_come I.model input.new ≤ to_come I.model input.old) }
{
    if is_after_line_break(input)? {
        return Ok(());
    }
    if is_statement_end(input) {
        return Ok(());
    }
    let span = input.cur_span();
    input.emit_err(span, SyntaxError::TS1005)
}

/// Whether a token is current that ends a statement.
fn is_statement_end<I: Tokens>(input: &Buffer<I>) -> bool
    ensures { result ≡ at_token ends_statement (seen input.now) }
{
    matches!(input.cur_debug(), Some(Token::Semi | Token::RBrace))
}
