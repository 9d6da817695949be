// Formal parameters (ECMA-262, 15.1).
ghost use Rattle.std.specs.Prelude.{◌≡◌, ◌+◌, ◌<◌, ◌≤◌, true, IfOk, OnOk};
ghost use Rattle.swc_input.specs.Buffer.{to_come};
ghost use Rattle.swc_ast.specs.Tree.{span_of};
ghost use Rattle.swc_nodes.specs.{GrowingNodes.first_at, GrowingNodes.From, NodeParts.expr_part, NodeParts.pat_part};
ghost use Rattle.swc_steps.specs.{Parsing.ContinuesAlone, Parsing.GoesOn, Readers.nothing};
ghost use Rattle.swc_patterns.specs.Params.{next_param, param_head, goes_on};
ghost use Rattle.swc_steps.specs.Params.{pat_at};
ghost use Rattle.swc_patterns.specs.{Answers.pat_itself, Rests.stage_of};

use crate::pat::{made, rest_pat};
use crate::rest::{SeenRest, check_comma, check_last};
use swc_ast::function::Param;
use swc_bodies::bodies::Bodies;
use swc_context::error::{PResult, SyntaxError};
use swc_context::span::Span;
use swc_input::buffer::Buffer;
use swc_input::tokens::Tokens;
use swc_nodes::node::{ExprId, PatId};
use swc_steps::productions::Productions;
use swc_steps::tokens::{Sign, eat, is_sign, look};

/// What is before a formal parameter.
#[derive(Clone, Copy)]
pub enum NextParam {
    /// The parenthesis that closes the list, or the end.
    End,
    /// Nothing, or the dots of a rest.
    Item(Option<Span>),
}

/// What is before a formal parameter (ECMA-262, 15.1), where `rest` was seen before; or the parenthesis that closes
/// the list, which stays, or the end. A rest with a comma and that parenthesis after it is recorded as
/// `CommaAfterRestElement`, at the comma, one with another parameter after it as `TS1014`, at the rest.
pub fn next_param<I: Tokens>(input: &mut Buffer<I>, rest: SeenRest) -> PResult<NextParam>
    ensures next { ContinuesAlone I.model (λ n. n) (next_param (stage_of rest)) input.old result input.new }
    ensures falls { OnOk result (to_come I.model input.new ≤ to_come I.model input.old) }
    ensures ate { IfOk result (λ n. goes_on n ≡ true → to_come I.model input.new < to_come I.model input.old) }
{
    if !look(input)? {
        return Ok(NextParam::End);
    }
    if !is_sign(input, Sign::RParen) {
        return param_head(input, rest);
    }
    check_comma(input, rest)?;
    Ok(NextParam::End)
}

/// What is before a parameter where one comes.
fn param_head<I: Tokens>(input: &mut Buffer<I>, rest: SeenRest) -> PResult<NextParam>
    ensures next { ContinuesAlone I.model (λ n. n) (param_head (stage_of rest)) input.old result input.new }
    ensures falls { OnOk result (to_come I.model input.new ≤ to_come I.model input.old) }
    ensures ate { IfOk result (λ n. goes_on n ≡ true → to_come I.model input.new < to_come I.model input.old) }
{
    check_last(input, rest, SyntaxError::TS1014)?;
    let dots = eat(input, Sign::DotDotDot)?;
    Ok(NextParam::Item(dots))
}

/// The rest of the dots and the pattern after them, with an initialiser, which is recorded as `TS1048`, at the
/// pattern. What has the initialiser begins with the dots.
pub fn rest_default<I: Tokens, B: Bodies<I>>(
    p: &mut Productions<I, B>,
    dots: Span,
    arg: PatId,
    value: ExprId,
) -> PResult<PatId>
    requires left { From 0 p.old.nodes (pat_part arg) }
    requires right { From (arg.0 + 1) p.old.nodes (expr_part value) }
    ensures { GoesOn I.model B.is_faithful pat_itself pat_at nothing (first_at p.old.nodes arg.0) p.old result p.new }
{
    let span = p.nodes.pat_span(arg);
    p.input.emit_err(span, SyntaxError::TS1048)?;
    let node = p.nodes.default_pat(dots.lo, arg, value);
    let pat = made(&p.input, node)?;
    rest_pat(p, dots, pat)
}

/// The parameter of a pattern, at its place (ECMA-262, 15.1).
pub fn param_of<I: Tokens, B: Bodies<I>>(p: &Productions<I, B>, pat: PatId) -> Param<PatId>
    requires from { From 0 p.now.nodes (pat_part pat) }
    ensures pat { result.pat ≡ pat }
    ensures span { result.span ≡ span_of (pat_at p.now.nodes pat) }
{
    let span = p.nodes.pat_extent(pat);
    Param { span, pat }
}
