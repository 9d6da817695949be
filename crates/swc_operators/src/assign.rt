// Expressions with commas between them, assignment expressions, conditionals and `yield` (ECMA-262, 13.14 to 13.16 and
ghost use Rattle.std.specs.Prelude.{◌+◌, ◌≡◌, ◌≢◌, ◌<◌, ◌≤◌, true, false, ◌&&◌, ◌||◌, OnOk, IfOk, IfErr, IsSome};
ghost use Rattle.swc_context.specs.declared.error.SyntaxError.TheVariants.{OutOfMemory};
ghost use Rattle.swc_input.specs.Buffer.{current, context, to_come};
ghost use Rattle.swc_input.specs.Kinds.{at_token};
ghost use Rattle.swc_ast.specs.Targets.{is_target};
ghost use Rattle.swc_grammar.specs.Tokens.{is_yield, yield_ok, opening, word_opening, is_opening, opens_at_times};
ghost use Rattle.swc_grammar.specs.{Firsts.begins_expression, Scope.Scope, Clean.goes_on_yield_at, Clean.no_error, Cover.is_pattern};
ghost use Rattle.swc_nodes.specs.NodeParts.{expr_part, target_part};
ghost use Rattle.swc_nodes.specs.GrowingNodes.{From, end_at, first_at};
ghost use Rattle.swc_nodes.specs.declared.node.TargetNode.TheVariants as target;
ghost use Rattle.swc_cover.specs.Rewriting.{Rewrites};
ghost use Rattle.swc_operators.specs.Assignments.{assign_at, assign_by, assign_made, assign_tail, fits_op, refines, target_at, target_from, target_number};
ghost use Rattle.swc_steps.specs.Contexts.{cond_middle, cond_last};
ghost use Rattle.swc_input.specs.Calls.{Checks, Looks, Refuses};
ghost use Rattle.swc_steps.specs.Parsing.{behind, itself, seen, GoesOn, tree_of};

use swc_bodies::bodies::Bodies;
use swc_context::context::Context;
use swc_context::error::{PResult, SyntaxError};
use swc_context::operator::{AssignOp, BinOpToken};
use swc_context::word::{Keyword, Word};
use swc_cover::pat_type::PatType;
use swc_cover::refining::reparse_expr_as_pat;
use swc_input::buffer::Buffer;
use swc_input::token::Token;
use swc_input::tokens::Tokens;
use swc_nodes::node::{ExprId, Node, TargetNode};
use swc_nodes::nodes::NodesOf;
use swc_steps::productions::Productions;
use swc_steps::tokens::is_after_line_break;

/// The operator that writes which the current token is, where `left` is before it: none after an operation.
pub fn cur_assign_op<I: Tokens, B: Bodies<I>>(
    p: &Productions<I, B>,
    left: ExprId,
) -> Option<AssignOp>
    requires { From 0 p.now.nodes (expr_part left) }
    ensures value { result ≡ assign_at (seen p.now.input) (tree_of p.now.nodes left) }
    ensures some { IsSome result → IsSome (current p.now.input) }
{
    match p.input.cur_debug()? {
        Token::AssignOp(op) if !p.nodes.is_operation(left) => Some(*op),
        _ => None,
    }
}

/// The context of the middle of a conditional, in which `in` counts as an operator, and after which a colon is
/// expected.
pub fn cond_middle(ctx: Context) -> Context
    ensures { result ≡ cond_middle ctx }
{
    Context {
        include_in_expr: true,
        in_cond_expr: true,
        will_expect_colon_for_cond: true,
        ..ctx
    }
}

/// The context of the last part of a conditional.
pub fn cond_last(ctx: Context) -> Context
    ensures { result ≡ cond_last ctx }
{
    Context {
        in_cond_expr: true,
        will_expect_colon_for_cond: false,
        ..ctx
    }
}

/// Whether `yield` is current, where it is an operator.
pub fn is_yield_operator<I: Tokens>(input: &Buffer<I>) -> bool
    ensures value { result ≡ (at_token is_yield (seen input.now) && (context I.model input.now).in_generator) }
    ensures some { result ≡ true → IsSome (current input.now) }
{
    let ctx = input.get_ctx();
    match input.cur_debug() {
        Some(token) => is_yield_token(token) && ctx.in_generator,
        None => false,
    }
}

/// Whether the token is the word `yield`.
fn is_yield_token(token: &Token) -> bool
    ensures { result ≡ is_yield token.now }
{
    matches!(token, Token::Word(Word::Keyword(Keyword::Yield)))
}

/// Refuses `yield`, which was consumed, in parameters outside a function.
#[inline(never)]
pub fn refuse_yield_param<I: Tokens>(input: &mut Buffer<I>) -> PResult<()>
    ensures passes { OnOk result ((input.new ≡ input.old) × (yield_ok (context I.model input.old) ≡ true)) }
    ensures refuses { IfErr result
        (λ e. Refuses I.model input.old e input.new × (yield_ok (context I.model input.old) ≡ false)) }
{
    let ctx = input.get_ctx();
    if ctx.in_parameters && !ctx.in_function {
        let span = input.prev_span();
        return Err(input.syntax_error(span, SyntaxError::YieldParamInGen));
    }
    Ok(())
}

/// Whether an operand of `yield` begins here, on the same line. Refused only when out of memory.
#[inline(never)]
pub fn goes_on_yield<I: Tokens>(input: &mut Buffer<I>) -> PResult<bool>
    ensures looks { Looks I.model input.old result input.new }
    ensures value { IfOk result (λ r. r ≡ goes_on_yield_at (seen input.new)) }
    ensures falls { OnOk result (to_come I.model input.new ≤ to_come I.model input.old) }
{
    if is_after_line_break(input)? {
        return Ok(false);
    }
    match input.cur_debug() {
        Some(token) => Ok(begins_operand(token)),
        None => Ok(false),
    }
}

/// Whether the operand of `yield` may begin with the token: `*`, a name, or a token with which an expression begins in
/// some context.
fn begins_operand(token: &Token) -> bool
    ensures table { result ≡ is_opening (opening token.now) }
    ensures all { (c : Scope) → begins_expression c token.now ≡ true → result ≡ true }
    ensures only { (c : Scope) → result ≡ true
        → (begins_expression c token.now || opens_at_times (opening token.now)) ≡ true }
{
    is_opening(token)
}

/// Whether the table of what begins what has the token.
fn is_opening(token: &Token) -> bool
    ensures { result ≡ is_opening (opening token.now) }
{
    match token {
        Token::Word(word) => is_opening_word(word),
        Token::BinOp(op) => matches!(
            op,
            BinOpToken::Add | BinOpToken::Sub | BinOpToken::Mul | BinOpToken::Div
        ),
        Token::AssignOp(op) => matches!(op, AssignOp::DivAssign),
        Token::LParen
        | Token::LBracket
        | Token::LBrace
        | Token::Tilde
        | Token::Bang
        | Token::PlusPlus
        | Token::MinusMinus
        | Token::BackQuote
        | Token::Hash
        | Token::Num { .. }
        | Token::BigInt { .. }
        | Token::Str { .. }
        | Token::Regex(..) => true,
        _ => false,
    }
}

/// Whether it has the word.
fn is_opening_word(word: &Word) -> bool
    ensures { result ≡ is_opening (word_opening word.now) }
{
    match word {
        Word::Keyword(keyword) => matches!(
            keyword,
            Keyword::Let
                | Keyword::This
                | Keyword::Function
                | Keyword::Class
                | Keyword::New
                | Keyword::Super
                | Keyword::Import
                | Keyword::Await
                | Keyword::Yield
                | Keyword::TypeOf
                | Keyword::Void
                | Keyword::Delete
        ),
        _ => true,
    }
}

/// What the operator writes to. A literal of an array or an object becomes a pattern before `=` (ECMA-262, 13.15.5),
/// and what is wrong of that is recorded. Of anything else it is recorded that it can't be written to by the operator,
/// or not by any but `=`; and refused what can't come before one at all.
pub fn assign_target<I: Tokens, B: Bodies<I>>(
    p: &mut Productions<I, B>,
    op: AssignOp,
    left: ExprId,
) -> PResult<TargetNode>
    requires from { From 0 p.old.nodes (expr_part left) }
    requires fit { at_token no_error (seen p.old.input) ≡ true }
    ensures rewrites { Rewrites I.model B.is_faithful target_from (assign_by B.forms op (tree_of p.old.nodes left))
        (λ ns t. behind (assign_tail B.forms op (target_at ns t))) (first_at p.old.nodes left.0) p.old result p.new }
    ensures kept { OnOk result (current p.new.input ≡ current p.old.input) }
    ensures plain { IfOk result (λ t. fits_op op t ≡ true) }
{
    if !refines::<I, B>(&p.nodes, op, left) {
        check_assign_target::<I, B>(&mut p.input, &p.nodes, op, left)?;
        return Ok(TargetNode::Simple(left));
    }
    let pat = reparse_expr_as_pat(p, PatType::AssignPat, left)?;
    Ok(TargetNode::Pat(pat))
}

/// Whether the operator makes a pattern of what is before it.
fn refines<I: Tokens, B: Bodies<I>>(nodes: &NodesOf<B>, op: AssignOp, left: ExprId) -> bool
    requires { From 0 nodes.now (expr_part left) }
    ensures { result ≡ refines op (tree_of nodes.now left) }
{
    match op {
        AssignOp::Assign => is_literal::<I, B>(nodes, left),
        _ => false,
    }
}

/// Whether the expression is a literal of an array or an object.
fn is_literal<I: Tokens, B: Bodies<I>>(nodes: &NodesOf<B>, expr: ExprId) -> bool
    requires { From 0 nodes.now (expr_part expr) }
    ensures { result ≡ is_pattern (tree_of nodes.now expr) }
{
    matches!(nodes.get(expr.0), Node::Array { .. } | Node::Object { .. })
}

/// Records what can't be written to by the operator, or not by any but `=`; and refuses what can't come before one at
/// all.
fn check_assign_target<I: Tokens, B: Bodies<I>>(
    input: &mut Buffer<I>,
    nodes: &NodesOf<B>,
    op: AssignOp,
    left: ExprId,
) -> PResult<()>
    requires from { From 0 nodes.now (expr_part left) }
    requires fit { at_token no_error (seen input.old) ≡ true }
    ensures checks { OnOk result (Checks I.model
        (is_target (context I.model input.old).strict (tree_of nodes.now left)) input.old input.new) }
    ensures kept { OnOk result (current input.new ≡ current input.old) }
    ensures target { OnOk result (From 0 nodes.now (target_part (target.Simple left))) }
    ensures refuses { IfErr result (λ e. Refuses I.model input.old e input.new × (e.kind ≢ OutOfMemory
        → is_target (context I.model input.old).strict (tree_of nodes.now left) ≡ false)) }
    ensures falls { OnOk result (to_come I.model input.new ≤ to_come I.model input.old) }
{
    let strict = input.get_ctx().strict;
    if nodes.is_simple_target(left, strict) {
        return Ok(());
    }
    let span = nodes.span(left);
    match op {
        AssignOp::Assign => input.emit_err(span, SyntaxError::TS2406)?,
        _ => input.emit_err(span, SyntaxError::NotSimpleAssign)?,
    }
    if nodes.has_target(TargetNode::Simple(left)) {
        return Ok(());
    }
    Err(input.syntax_error(span, SyntaxError::InvalidAssignTarget))
}

/// An assignment (ECMA-262, 13.15) by the operator of `right` to the target, which is before it.
pub fn assign_node<I: Tokens, B: Bodies<I>>(
    p: &mut Productions<I, B>,
    op: AssignOp,
    target: TargetNode,
    right: ExprId,
) -> PResult<ExprId>
    requires left { From 0 p.old.nodes (target_part target) }
    requires right { From (target_number target + 1) p.old.nodes (expr_part right) }
    requires plain { fits_op op target ≡ true }
    ensures { GoesOn I.model B.is_faithful itself tree_of
        (assign_made op (target_at p.old.nodes target) (end_at p.old.nodes right.0) (tree_of p.old.nodes right))
        (first_at p.old.nodes (target_number target)) p.old result p.new }
{
    match target {
        TargetNode::Simple(left) => {
            let node = p.nodes.assign_expr(op, left, right);
            p.made(node)
        }
        TargetNode::Pat(left) => {
            let node = p.nodes.assign_pat_expr(left, right);
            p.made(node)
        }
    }
}
