// Binary and unary operators, `++`, `--` and `await` (ECMA-262, 13.4 to 13.13 and 15.8).
ghost use Rattle.std.specs.Prelude.{◌+◌, ◌++◌, ◌∷◌, [], ◌≡◌, ◌≢◌, ◌<◌, ◌≤◌, true, false, not, ◌&&◌, nat_lt, OnOk, IfOk, IfErr, IsSome};
ghost use Rattle.swc_context.specs.Operators.{precedence_of};
ghost use Rattle.swc_context.specs.declared.error.SyntaxError.TheVariants.{OutOfMemory, ParserFailed, TS1102, TS1109};
ghost use Rattle.swc_context.specs.Spans.{in_order};
ghost use Rattle.swc_input.specs.Source.{with_module_error};
ghost use Rattle.swc_ast.specs.Tree.{span_of};
ghost use Rattle.swc_input.specs.Buffer.{current, context, last_position, state_of, to_come};
ghost use Rattle.swc_input.specs.{Recording.no_memory, Kinds.at_token};
ghost use Rattle.swc_ast.specs.{Targets.is_target, Trees.left_ok};
ghost use Rattle.swc_ast.specs.Trees as trees;
ghost use Rattle.swc_grammar.specs.Tokens.{is_await as is_await_word, await_ok, await_ident_ok, ends_operand};
ghost use Rattle.swc_grammar.specs.Clean.{sym, updates, run, operator_at, prefix_at, no_error, ends_await_at};
ghost use Rattle.swc_nodes.specs.GrowingNodes.{count, first_at, From};
ghost use Rattle.swc_nodes.specs.{NodeParts.expr_part, Rising.waiting, Rising.least_above, Pending.all_pending};
ghost use Rattle.swc_steps.specs.Readers.{unary_op, unary_op_node};
ghost use Rattle.swc_input.specs.Calls.{Refuses, Tries, Looks, Checked};
ghost use Rattle.swc_steps.specs.Parsing.{seen, Acts, GoesOn, Recovers, itself, operand_of, tree_of, ParsesAlone};
ghost use Rattle.swc_operators.specs.Pending.{operator_above, operator_taken, join};
ghost use Rattle.swc_operators.specs.Updates.{update_at, update_behind, await_ident};

use std::alloc::Global;
use swc_ast::ident::Ident;
use swc_ast::spanned::Spanned;
use swc_bodies::bodies::Bodies;
use swc_context::atom::Atom;
use swc_context::error::{Error, PResult, SyntaxError};
use swc_context::operator::{BinOpToken, BinaryOp, UnaryOp, UpdateOp};
use swc_context::span::{BytePos, Span};
use swc_context::word::{Keyword, Word};
use swc_input::buffer::Buffer;
use swc_input::token::Token;
use swc_input::tokens::Tokens;
use swc_nodes::node::ExprId;
use swc_nodes::nodes::{Nodes, NodesOf};
use swc_nodes::pending::{PendingOperator, PendingOperators};
use swc_nodes::shape::is_nullish_op;
use swc_steps::productions::Productions;
use swc_steps::tokens::{is_after_line_break, is_out_of_memory, look, record_refusal, skip};

/// Records, before an operator, that its left operand, which begins at `first`, was refused: a node of `Invalid`
/// stands in for it. Elsewhere the refusal is the answer, and so is out of memory.
#[inline(never)]
pub fn recover_left<I: Tokens, B: Bodies<I>>(
    p: &mut Productions<I, B>,
    error: Error,
    first: BytePos,
) -> PResult<(ExprId, BinaryOp)>
    requires { error.kind ≢ ParserFailed }
    ensures recovers { Recovers I.model operand_of (Acts I.model) error.kind p.old result p.new }
    ensures operator { OnOk result (IsSome (current p.new.input)) }
{
    if is_out_of_memory(&error) {
        return Err(error);
    }
    match look_for_operator(&mut p.input) {
        Ok(Some(op)) => stand_in(p, place_of(error), first, op),
        Ok(None) => Err(error),
        Err(memory) => Err(instead(error, memory)),
    }
}

/// Records that the operator, which is current, has no left operand: a node of `Invalid` at the place stands in for
/// what begins at `first`. No node ends with a left operand, so its `last` is `first` too.
fn stand_in<I: Tokens, B: Bodies<I>>(
    p: &mut Productions<I, B>,
    at: Span,
    first: BytePos,
    op: BinaryOp,
) -> PResult<(ExprId, BinaryOp)>
    requires known { IsSome (current p.old.input) }
    requires fit { at_token no_error (seen p.old.input) ≡ true }
    ensures recovers { Recovers I.model operand_of (Tries I.model) TS1109 p.old result p.new }
    ensures operator { OnOk result (IsSome (current p.new.input)) }
{
    let operator = p.cur_span();
    p.input.emit_err(operator, SyntaxError::TS1109)?;
    let node = p.nodes.invalid(at, first, first);
    let left = p.made(node)?;
    Ok((left, op))
}

/// The operator that is current, if one of a precedence above `min_prec` is. Consumes nothing, and is refused only for
/// out of memory.
pub fn next_operator<I: Tokens>(input: &mut Buffer<I>, min_prec: u8) -> PResult<Option<BinaryOp>>
    ensures looks { Looks I.model input.old result input.new }
    ensures value { IfOk result
        (λ o. o ≡ operator_above min_prec (operator_at (context I.model input.new) (seen input.new))) }
    ensures some { IfOk result (λ o. IsSome o → IsSome (current input.new)) }
    ensures falls { OnOk result (to_come I.model input.new ≤ to_come I.model input.old) }
{
    let op = look_for_operator(input)?;
    Ok(above(op, min_prec))
}

/// The operator, if it binds tighter than `min_prec`.
fn above(op: Option<BinaryOp>, min_prec: u8) -> Option<BinaryOp>
    ensures value { result ≡ operator_above min_prec op }
    ensures some { IsSome result → IsSome op }
{
    let op = op?;
    if op.precedence() <= min_prec {
        return None;
    }
    Some(op)
}

/// Whether a `#` and a name that are read next may be the left operand of an `in` (ECMA-262, 13.10.1): nothing that is
/// pending binds as tightly as `in`, or tighter.
pub fn private_may_follow(pending: &PendingOperators) -> bool
    ensures { result ≡ nat_lt (least_above 0 (all_pending pending.now)) 7 }
{
    pending.min_prec() < BinaryOp::In.precedence()
}

/// Consumes the operator `op`, which is current, after its left operand (ECMA-262, 13.6 to 13.13), and puts both on
/// what is pending: what is read next is its right operand. A prefix operator left of `**` is refused.
#[inline(never)]
pub fn take_operator<I: Tokens, B: Bodies<I>>(
    p: &mut Productions<I, B>,
    pending: &mut PendingOperators,
    left: ExprId,
    op: BinaryOp,
) -> PResult<()>
    requires from { From 0 p.old.nodes (expr_part left) }
    requires operator { IsSome (current p.old.input) }
    requires tighter { least_above 0 (all_pending pending.old) < precedence_of op }
    ensures reads { ParsesAlone I.model (λ u. u) (operator_taken op (tree_of p.old.nodes left))
        p.old.input result p.new.input }
    ensures falls { OnOk result (to_come I.model p.new.input < to_come I.model p.old.input) }
    ensures pushed { OnOk result (all_pending pending.new ≡ all_pending pending.old ++ waiting left op ∷ []) }
    ensures nodes { p.new.nodes ≡ p.old.nodes }
{
    skip(&mut p.input);
    refuse_unary_in_exp::<I, B>(&mut p.input, &p.nodes, op, left)?;
    match pending.push(left, op) {
        Ok(()) => Ok(()),
        Err(_) => Err(p.input.out_of_memory()),
    }
}

/// An operator that was pending and its right operand (ECMA-262, 13.6 to 13.13), which was read after the left one:
/// the node. An operand of `??` that is a node of `||` or `&&` is recorded, and so is a node of these that has one of
/// `??` on its left. Consumes nothing, and is refused only when out of memory.
pub fn join_operands<I: Tokens, B: Bodies<I>>(
    p: &mut Productions<I, B>,
    operator: PendingOperator,
    right: ExprId,
) -> PResult<ExprId>
    requires left { From 0 p.old.nodes (expr_part operator.left) }
    requires right { From (operator.left.0 + 1) p.old.nodes (expr_part right) }
    ensures { GoesOn I.model B.is_faithful itself tree_of
        (join B.forms operator.op (tree_of p.old.nodes operator.left) (tree_of p.old.nodes right))
        (first_at p.old.nodes operator.left.0) p.old result p.new }
{
    let PendingOperator { left, op } = operator;
    check_operands::<I, B>(&mut p.input, &p.nodes, op, left, right)?;
    let node = p.nodes.bin_op(op, left, right);
    let node = p.made(node)?;
    check_nullish_left::<I, B>(&mut p.input, &p.nodes, node)?;
    Ok(node)
}

/// Reads on after a left-hand side: `++` or `--` (ECMA-262, 13.4) on the same line, or nothing.
#[inline(never)]
pub fn parse_update_postfix<I: Tokens, B: Bodies<I>>(
    p: &mut Productions<I, B>,
    expr: ExprId,
) -> PResult<ExprId>
    requires from { From 0 p.old.nodes (expr_part expr) }
    ensures { GoesOn I.model B.is_faithful itself tree_of (run B.forms (updates (tree_of p.old.nodes expr)))
        (first_at p.old.nodes expr.0) p.old result p.new }
{
    let op = match update_behind_cur(&mut p.input)? {
        Some(op) => op,
        None => return Ok(expr),
    };
    check_update_target::<I, B>(&mut p.input, &p.nodes, expr)?;
    skip(&mut p.input);
    let end = p.last_pos();
    let node = p.nodes.update_postfix(op, expr, end);
    p.made(node)
}

/// The identifier `await` (ECMA-262, 13.1), which is at `start`. In a module it is recorded.
pub fn parse_await_ident<I: Tokens, B: Bodies<I>>(
    p: &mut Productions<I, B>,
    start: Span,
) -> PResult<ExprId>
    ensures { GoesOn I.model B.is_faithful itself tree_of (λ c ts. await_ident start c ts)
        (count p.old.nodes) p.old result p.new }
{
    check_await_ident(&mut p.input, start)?;
    let sym = text_of(p.alloc, &p.input, "await")?;
    let node = p.nodes.ident_expr(Ident { span: start, sym });
    p.made(node)
}

/// A prefix operator at `start`, and its operand (ECMA-262, 13.5). For modules, an identifier as the operand of
/// `delete` is recorded. Consumes nothing, and is refused only when out of memory.
pub fn unary_expr<I: Tokens, B: Bodies<I>>(
    p: &mut Productions<I, B>,
    start: Span,
    op: UnaryOp,
    arg: ExprId,
) -> PResult<ExprId>
    requires { From 0 p.old.nodes (expr_part arg) }
    ensures reads { GoesOn I.model B.is_faithful itself tree_of
        (λ c ts. unary_op_node B.forms start op c (tree_of p.old.nodes arg) ts)
        (first_at p.old.nodes arg.0) p.old result p.new }
    ensures memory { IfErr result (λ e. e.kind ≡ OutOfMemory) }
{
    check_delete::<I, B>(&mut p.input, &p.nodes, op, arg)?;
    let node = p.nodes.unary_op(start.lo, op, arg);
    p.made(node)
}

/// A prefix operator at `start`, the operand of which, at `at`, was refused. That is recorded, unless it is out of
/// memory, and a node of `Invalid` is in its place: what ends with it ends where the operator does.
pub fn unary_expr_without_operand<I: Tokens, B: Bodies<I>>(
    p: &mut Productions<I, B>,
    start: Span,
    op: UnaryOp,
    error: Error,
    at: BytePos,
) -> PResult<ExprId>
    requires { error.kind ≢ ParserFailed }
    ensures { Recovers I.model itself (Tries I.model) error.kind p.old result p.new }
{
    let arg = recover(p, error, at, start.hi)?;
    unary_expr(p, start, op, arg)
}

/// Records a refusal, unless it is out of memory: a node of `Invalid`, at the position before `first`, stands in for
/// the operand that begins there. The token before it ends at `last`.
fn recover<I: Tokens, B: Bodies<I>>(
    p: &mut Productions<I, B>,
    error: Error,
    first: BytePos,
    last: BytePos,
) -> PResult<ExprId>
    requires { error.kind ≢ ParserFailed }
    ensures { Recovers I.model itself (Tries I.model) error.kind p.old result p.new }
{
    record_refusal(&mut p.input, error)?;
    let at = BytePos(first.0.saturating_sub(1));
    let node = p.nodes.invalid(Span { lo: at, hi: at }, first, last);
    p.made(node)
}

fn is_exp_op(op: BinaryOp) -> bool
    ensures { result ≡ trees.is_exp op }
{
    matches!(op, BinaryOp::Exp)
}

fn is_delete_op(op: UnaryOp) -> bool
    ensures { result ≡ trees.is_delete op }
{
    matches!(op, UnaryOp::Delete)
}

/// The place of the error, which is dropped.
fn place_of(error: Error) -> Span {
    error.span()
}

/// The second error; the first is dropped.
fn instead(_first: Error, second: Error) -> Error
    ensures { result ≡ second }
{
    second
}

/// The operator that is current, if one is. Refused only when out of memory.
fn look_for_operator<I: Tokens>(input: &mut Buffer<I>) -> PResult<Option<BinaryOp>>
    ensures looks { Looks I.model input.old result input.new }
    ensures value { IfOk result (λ o. o ≡ operator_at (context I.model input.new) (seen input.new)) }
    ensures some { IfOk result
        (λ o. IsSome o → (IsSome (current input.new)) × (at_token no_error (seen input.new) ≡ true)) }
    ensures falls { OnOk result (to_come I.model input.new ≤ to_come I.model input.old) }
{
    look(input)?;
    Ok(cur_binary_op(input))
}

/// The operator that the current token is. `in` is one only with `include_in_expr`.
fn cur_binary_op<I: Tokens>(input: &Buffer<I>) -> Option<BinaryOp>
    ensures value { result ≡ operator_at (context I.model input.now) (seen input.now) }
    ensures some { IsSome result → IsSome (current input.now) }
    ensures fit { IsSome result → at_token no_error (seen input.now) ≡ true }
{
    match input.cur_debug()? {
        Token::Word(Word::Keyword(Keyword::In)) if input.get_ctx().include_in_expr => {
            Some(BinaryOp::In)
        }
        Token::Word(Word::Keyword(Keyword::InstanceOf)) => Some(BinaryOp::InstanceOf),
        Token::BinOp(op) => Some(BinaryOp::from(*op)),
        _ => None,
    }
}

/// Whether `await` is current.
pub fn is_await<I: Tokens>(input: &Buffer<I>) -> bool
    ensures value { result ≡ at_token is_await_word (seen input.now) }
    ensures some { result ≡ true → IsSome (current input.now) }
{
    match input.cur_debug() {
        Some(token) => is_await_token(token),
        None => false,
    }
}

/// Whether the token is the word `await`.
fn is_await_token(token: &Token) -> bool
    ensures { result ≡ is_await_word token.now }
{
    matches!(token, Token::Word(Word::Keyword(Keyword::Await)))
}

/// Whether `await`, which was consumed, is an identifier: outside async code, where no operand follows. Refused only
/// when out of memory.
pub fn is_await_ident<I: Tokens>(input: &mut Buffer<I>) -> PResult<bool>
    ensures looks { Looks I.model input.old result input.new }
    ensures value { IfOk result
        (λ r. r ≡ (not (context I.model input.new).in_async && ends_await_at (seen input.new))) }
    ensures falls { OnOk result (to_come I.model input.new ≤ to_come I.model input.old) }
{
    let is_async = input.get_ctx().in_async;
    let ends = is_after_line_break(input)? || is_operand_end(input);
    Ok(!is_async && ends)
}

/// Whether a token is current that closes or parts a list, or ends a statement.
fn is_operand_end<I: Tokens>(input: &Buffer<I>) -> bool
    ensures { result ≡ at_token ends_operand (seen input.now) }
{
    matches!(
        input.cur_debug(),
        Some(Token::Semi | Token::RBrace | Token::RParen | Token::RBracket | Token::Comma)
    )
}

/// Records, in a module, that `await`, at `start`, is no identifier.
fn check_await_ident<I: Tokens>(input: &mut Buffer<I>, start: Span) -> PResult<()>
    ensures checks { Checked I.model (await_ident_ok (context I.model input.old)) input.old result input.new }
    ensures falls { OnOk result (to_come I.model input.new ≤ to_come I.model input.old) }
{
    let ctx = input.get_ctx();
    if ctx.in_async || ctx.module {
        return input.emit_err(start, SyntaxError::InvalidIdentInAsync);
    }
    Ok(())
}

/// Records that `await`, at `start`, is no operator: in a function that isn't async, at the token after it, and in
/// parameters outside a function.
pub fn check_await<I: Tokens>(input: &mut Buffer<I>, start: Span) -> PResult<()>
    ensures checks { Checked I.model (await_ok (context I.model input.old)) input.old result input.new }
    ensures falls { OnOk result (to_come I.model input.new ≤ to_come I.model input.old) }
{
    let ctx = input.get_ctx();
    if ctx.in_function && !ctx.in_async {
        let span = input.cur_span();
        return input.emit_err(span, SyntaxError::AwaitInFunction);
    }
    if ctx.in_parameters && !ctx.in_function {
        return input.emit_err(start, SyntaxError::AwaitParamInAsync);
    }
    Ok(())
}

/// The text, as a name. Refused only when out of memory.
fn text_of<I: Tokens>(alloc: Global, input: &Buffer<I>, text: &str) -> PResult<Atom>
    ensures text { IfOk result (λ t. t ≡ text.now) }
    ensures refused { IfErr result (λ e. e ≡ no_memory (last_position input.now)) }
{
    match Atom::new(alloc, text) {
        Ok(atom) => Ok(atom),
        Err(_) => Err(input.out_of_memory()),
    }
}

/// `++` or `--`, where it is current.
pub fn cur_update_op<I: Tokens>(input: &Buffer<I>) -> Option<UpdateOp>
    ensures value { result ≡ update_at (seen input.now) }
    ensures some { IsSome result → IsSome (current input.now) }
    ensures fit { IsSome result → at_token no_error (seen input.now) ≡ true }
{
    match input.cur_debug()? {
        Token::PlusPlus => Some(UpdateOp::PlusPlus),
        Token::MinusMinus => Some(UpdateOp::MinusMinus),
        _ => None,
    }
}

/// The same, where no line break is before it. Refused only when out of memory.
fn update_behind_cur<I: Tokens>(input: &mut Buffer<I>) -> PResult<Option<UpdateOp>>
    ensures looks { Looks I.model input.old result input.new }
    ensures value { IfOk result (λ r. r ≡ update_behind (seen input.new)) }
    ensures some { IfOk result (λ r. IsSome r → IsSome (current input.new)) }
    ensures fit { IfOk result (λ r. IsSome r → at_token no_error (seen input.new) ≡ true) }
    ensures falls { OnOk result (to_come I.model input.new ≤ to_come I.model input.old) }
{
    if is_after_line_break(input)? {
        return Ok(None);
    }
    Ok(cur_update_op(input))
}

/// Records what `++` and `--` can't write to.
pub fn check_update_target<I: Tokens, B: Bodies<I>>(
    input: &mut Buffer<I>,
    nodes: &NodesOf<B>,
    arg: ExprId,
) -> PResult<()>
    requires { From 0 nodes.now (expr_part arg) }
    ensures checks { Checked I.model (is_target (context I.model input.old).strict (tree_of nodes.now arg))
        input.old result input.new }
    ensures kept { at_token no_error (seen input.old) ≡ true → OnOk result (current input.new ≡ current input.old) }
    ensures falls { OnOk result (to_come I.model input.new ≤ to_come I.model input.old) }
{
    let strict = input.get_ctx().strict;
    if nodes.is_simple_target(arg, strict) {
        return Ok(());
    }
    input.emit_err(nodes.span(arg), SyntaxError::TS2406)
}

/// The prefix operator that the current token is: none of `++`, `--` and `await`.
pub fn cur_prefix_op<I: Tokens>(input: &Buffer<I>) -> Option<UnaryOp>
    ensures value { result ≡ prefix_at (seen input.now) }
    ensures some { IsSome result → IsSome (current input.now) }
{
    match input.cur_debug()? {
        Token::Word(Word::Keyword(Keyword::Delete)) => Some(UnaryOp::Delete),
        Token::Word(Word::Keyword(Keyword::Void)) => Some(UnaryOp::Void),
        Token::Word(Word::Keyword(Keyword::TypeOf)) => Some(UnaryOp::TypeOf),
        Token::BinOp(BinOpToken::Add) => Some(UnaryOp::Plus),
        Token::BinOp(BinOpToken::Sub) => Some(UnaryOp::Minus),
        Token::Tilde => Some(UnaryOp::Tilde),
        Token::Bang => Some(UnaryOp::Bang),
        _ => None,
    }
}

/// Refuses a prefix operator left of `**`, which was consumed.
fn refuse_unary_in_exp<I: Tokens, B: Bodies<I>>(
    input: &mut Buffer<I>,
    nodes: &NodesOf<B>,
    op: BinaryOp,
    left: ExprId,
) -> PResult<()>
    requires { From 0 nodes.now (expr_part left) }
    ensures passes { OnOk result ((input.new ≡ input.old) × (trees.exp_ok op (tree_of nodes.now left) ≡ true)) }
    ensures refuses { IfErr result
        (λ e. Refuses I.model input.old e input.new × (trees.exp_ok op (tree_of nodes.now left) ≡ false)) }
{
    if is_unary_in_exp(nodes, op, left) {
        let span = input.prev_span();
        let left_span = nodes.span(left);
        return Err(input.syntax_error(span, SyntaxError::UnaryInExp { left_span }));
    }
    Ok(())
}

/// Records a node of `||` or `&&` whose left operand is one of `??`.
#[inline(never)]
pub fn check_nullish_left<I: Tokens, B: Bodies<I>>(
    input: &mut Buffer<I>,
    nodes: &NodesOf<B>,
    expr: ExprId,
) -> PResult<()>
    requires { From 0 nodes.now (expr_part expr) }
    ensures checks { Checked I.model (left_ok (tree_of nodes.now expr)) input.old result input.new }
    ensures falls { OnOk result (to_come I.model input.new ≤ to_come I.model input.old) }
{
    if nodes.has_nullish_left(expr) {
        return input.emit_err(
            nodes.span(expr),
            SyntaxError::NullishCoalescingWithLogicalOp,
        );
    }
    Ok(())
}

/// Records the operands of `??` that are nodes of `||` or `&&`.
fn check_operands<I: Tokens, B: Bodies<I>>(
    input: &mut Buffer<I>,
    nodes: &NodesOf<B>,
    op: BinaryOp,
    left: ExprId,
    right: ExprId,
) -> PResult<()>
    requires left { From 0 nodes.now (expr_part left) }
    requires right { From 0 nodes.now (expr_part right) }
    ensures checks { Checked I.model
        (trees.nullish_ok op (tree_of nodes.now left) (tree_of nodes.now right)) input.old result input.new }
    ensures falls { OnOk result (to_come I.model input.new ≤ to_come I.model input.old) }
{
    if !is_nullish_op(op) {
        return Ok(());
    }
    check_logical_operand::<I, B>(input, nodes, left)?;
    check_logical_operand::<I, B>(input, nodes, right)
}

/// Records an operand of `??` that is a node of `||` or `&&`.
fn check_logical_operand<I: Tokens, B: Bodies<I>>(
    input: &mut Buffer<I>,
    nodes: &NodesOf<B>,
    operand: ExprId,
) -> PResult<()>
    requires { From 0 nodes.now (expr_part operand) }
    ensures checks { Checked I.model (not (trees.is_logical (tree_of nodes.now operand))) input.old result input.new }
    ensures falls { OnOk result (to_come I.model input.new ≤ to_come I.model input.old) }
{
    if nodes.is_logical(operand) {
        return input.emit_err(
            nodes.span(operand),
            SyntaxError::NullishCoalescingWithLogicalOp,
        );
    }
    Ok(())
}

/// Records, for modules, an identifier as the operand of `delete`.
fn check_delete<I: Tokens, B: Bodies<I>>(
    input: &mut Buffer<I>,
    nodes: &NodesOf<B>,
    op: UnaryOp,
    arg: ExprId,
) -> PResult<()>
    requires { From 0 nodes.now (expr_part arg) }
    ensures checks { Checked I.model
        (trees.delete_ok (context I.model input.old) op (tree_of nodes.now arg)) input.old result input.new }
    ensures waits { (context I.model input.old).ignore_error ≡ false
        → (trees.is_delete op && trees.is_ident (tree_of nodes.now arg)) ≡ true
        → OnOk result (state_of I.model input.new
        ≡ with_module_error (record { span = in_order (span_of (tree_of nodes.now arg)); kind = TS1102 })
        (state_of I.model input.old)) }
    ensures falls { OnOk result (to_come I.model input.new ≤ to_come I.model input.old) }
{
    if is_ident_deleted(nodes, op, arg) {
        return input.emit_strict_mode_err(nodes.span(arg), SyntaxError::TS1102);
    }
    Ok(())
}

/// Whether `**` would take a prefix operator on its left.
fn is_unary_in_exp<F: Spanned + Drop, C: Spanned + Drop, K: Spanned + Drop>(
    nodes: &Nodes<F, C, K>,
    op: BinaryOp,
    left: ExprId,
) -> bool
    requires { From 0 nodes.now (expr_part left) }
    ensures { result ≡ not (trees.exp_ok op (tree_of nodes.now left)) }
{
    is_exp_op(op) && nodes.is_unary(left)
}

/// Whether an identifier is the operand of `delete`.
fn is_ident_deleted<F: Spanned + Drop, C: Spanned + Drop, K: Spanned + Drop>(
    nodes: &Nodes<F, C, K>,
    op: UnaryOp,
    arg: ExprId,
) -> bool
    requires { From 0 nodes.now (expr_part arg) }
    ensures { result ≡ (trees.is_delete op && trees.is_ident (tree_of nodes.now arg)) }
{
    is_delete_op(op) && nodes.is_ident(arg)
}
