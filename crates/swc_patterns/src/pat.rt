// Binding patterns (ECMA-262, 14.3.3): names, array patterns and rests, and initialisers.
ghost use Rattle.std.specs.Prelude.{ℕ, ◌≡◌, ◌+◌, ◌<◌, ◌≤◌, Some, IfOk, OnOk, Bool, false, Ok, IfErr};
ghost use Rattle.swc_input.specs.{Buffer.to_come, Buffer.last_position, Kinds.at_token, Recording.no_memory};
ghost use Rattle.swc_grammar.specs.Tokens.{is_word};
ghost use Rattle.swc_nodes.specs.GrowingNodes.{count, end_at, first_at, Apart, From};
ghost use Rattle.swc_nodes.specs.{Lists.pat_elem_parts, NodeParts.expr_part, NodeParts.pat_part};
ghost use Rattle.swc_steps.specs.Parsing.{seen, tree_of, ContinuesAlone, GoesOn, Heard, Produces};
ghost use Rattle.swc_steps.specs.Params.{pat_at};
ghost use Rattle.swc_patterns.specs.Answers.{pat_itself, pat_elems_at};
ghost use Rattle.swc_patterns.specs.Arrays.{default_to, pat_kind, plain_pat, next_element, element_head, array_from, is_item, ends_in_hole, without_holes};
ghost use Rattle.swc_patterns.specs.Rests.{rest_node, stage_of};

use crate::rest::{SeenRest, check_comma, check_last};
use std::alloc::AllocError;
use swc_bodies::bodies::Bodies;
use swc_context::error::{PResult, SyntaxError, Wanted};
use swc_context::span::Span;
use swc_ident::ident;
use swc_input::buffer::Buffer;
use swc_input::token::Token;
use swc_input::tokens::Tokens;
use swc_nodes::node::{ExprId, PatId};
use swc_steps::productions::Productions;
use swc_steps::tokens::{Listed, Sign, eat, expect, is_sign, look};

/// A binding pattern (ECMA-262, 14.3.3), by the token that begins it, if other patterns are in it.
#[derive(Clone, Copy)]
pub enum PatKind {
    /// `[`: an array pattern.
    Array,
    /// `{`: an object pattern.
    Object,
    /// Another token, or none.
    Plain,
}

/// Which binding pattern the current token begins.
pub fn pat_kind<I: Tokens>(input: &Buffer<I>) -> PatKind
    ensures { result ≡ pat_kind (seen input.now) }
{
    match input.cur_debug() {
        Some(Token::LBracket) => PatKind::Array,
        Some(Token::LBrace) => PatKind::Object,
        _ => PatKind::Plain,
    }
}

/// An identifier that is bound (ECMA-262, 13.1). A token that is no word is refused as `Unexpected`, at that token, and
/// the end as `Eof`; a word that is bound nowhere as `ExpectedIdent`, at the word.
pub fn parse_plain_pat<I: Tokens, B: Bodies<I>>(p: &mut Productions<I, B>) -> PResult<PatId>
    ensures { Produces I.model B.is_faithful pat_itself pat_at plain_pat (count p.old.nodes) p.old result p.new }
{
    look(&mut p.input)?;
    if !is_word(&p.input) {
        let kind = SyntaxError::Unexpected(Wanted::Binding);
        return Err(p.input.unexpected(kind));
    }
    let name = ident::parse_binding_ident(p.alloc, &mut p.input)?;
    let node = p.nodes.ident_pat(name);
    made(&p.input, node)
}

/// Whether a word is current.
fn is_word<I: Tokens>(input: &Buffer<I>) -> bool
    ensures { result ≡ at_token is_word (seen input.now) }
{
    matches!(input.cur_debug(), Some(Token::Word(_)))
}

/// The number of a pattern's node. Refused only when out of memory.
pub fn made<I: Tokens>(input: &Buffer<I>, id: Result<PatId, AllocError>) -> PResult<PatId>
    ensures ok { IfOk result (λ r. id ≡ Ok r) }
    ensures refused { IfErr result (λ e. e ≡ no_memory (last_position input.now)) }
{
    match id {
        Ok(id) => Ok(id),
        Err(_) => Err(input.out_of_memory()),
    }
}

/// The pattern and its initialiser (ECMA-262, 14.3.3). Refused only when out of memory.
pub fn default_pat<I: Tokens, B: Bodies<I>>(
    p: &mut Productions<I, B>,
    left: PatId,
    value: ExprId,
) -> PResult<PatId>
    requires left { From 0 p.old.nodes (pat_part left) }
    requires right { From (left.0 + 1) p.old.nodes (expr_part value) }
    ensures { let t = default_to (pat_at p.old.nodes left) (end_at p.old.nodes value.0) (tree_of p.old.nodes value) in
        GoesOn I.model B.is_faithful pat_itself pat_at (λ c ts. Some (t, ts)) (first_at p.old.nodes left.0)
        p.old result p.new }
{
    let start = p.nodes.pat_extent(left).lo;
    let node = p.nodes.default_pat(start, left, value);
    made(&p.input, node)
}

/// The rest of the dots and the pattern after them (ECMA-262, 14.3.3). Refused only when out of memory.
pub fn rest_pat<I: Tokens, B: Bodies<I>>(
    p: &mut Productions<I, B>,
    dots: Span,
    arg: PatId,
) -> PResult<PatId>
    requires from { From 0 p.old.nodes (pat_part arg) }
    ensures { GoesOn I.model B.is_faithful pat_itself pat_at
        (λ c ts. Some (rest_node dots (pat_at p.old.nodes arg), ts))
        (first_at p.old.nodes arg.0) p.old result p.new }
{
    let node = p.nodes.rest_pat(dots, arg);
    made(&p.input, node)
}

/// What is before an element of an array pattern.
#[derive(Clone, Copy)]
pub enum NextElement {
    /// The bracket that closes the list.
    End(Span),
    /// A comma alone: the element is a hole.
    Hole,
    /// Nothing, or the dots of a rest.
    Item(Option<Span>),
}

/// What is before an element of an array pattern (ECMA-262, 14.3.3), or the bracket that closes the list, where
/// `rest` was seen before. A rest with a comma and that bracket after it is recorded as `CommaAfterRestElement`, at
/// the comma, one with anything else after it as `NonLastRestParam`, at the rest. The end is refused as `Eof`.
pub fn next_element<I: Tokens>(input: &mut Buffer<I>, rest: SeenRest) -> PResult<NextElement>
    ensures next { ContinuesAlone I.model (λ n. n) (next_element (stage_of rest)) input.old result input.new }
    ensures falls { OnOk result (to_come I.model input.new ≤ to_come I.model input.old) }
    ensures ate { IfOk result (λ n. is_item n ≡ false → (sure : Bool)
        → Heard I.model sure (next_element (stage_of rest)) n input.old input.new) }
{
    look(input)?;
    if !is_sign(input, Sign::RBracket) {
        return element_head(input, rest);
    }
    check_comma(input, rest)?;
    let end = expect(input, Sign::RBracket)?;
    Ok(NextElement::End(end))
}

/// What is before an element that isn't the bracket.
fn element_head<I: Tokens>(input: &mut Buffer<I>, rest: SeenRest) -> PResult<NextElement>
    ensures next { ContinuesAlone I.model (λ n. n) (element_head (stage_of rest)) input.old result input.new }
    ensures falls { OnOk result (to_come I.model input.new ≤ to_come I.model input.old) }
    ensures ate { IfOk result (λ n. is_item n ≡ false → (sure : Bool)
        → Heard I.model sure (element_head (stage_of rest)) n input.old input.new) }
{
    if !look(input)? {
        let kind = SyntaxError::Expected(Wanted::RBracket);
        return Err(input.unexpected(kind));
    }
    check_last(input, rest, SyntaxError::NonLastRestParam)?;
    match eat(input, Sign::Comma)? {
        Some(_) => Ok(NextElement::Hole),
        None => {
            let dots = eat(input, Sign::DotDotDot)?;
            Ok(NextElement::Item(dots))
        }
    }
}

/// The array pattern (ECMA-262, 14.3.3) whose bracket is at `start`, after its elements and its closing bracket. Holes
/// at the end are dropped. Refused only when out of memory.
pub fn array_pat<I: Tokens, B: Bodies<I>>(
    p: &mut Productions<I, B>,
    start: Span,
    list: Listed<Option<PatId>>,
) -> PResult<PatId>
    requires apart { Apart 0 p.old.nodes (pat_elem_parts list.items) }
    ensures { (k : ℕ) → Apart k p.old.nodes (pat_elem_parts list.items) → GoesOn I.model B.is_faithful pat_itself pat_at
        (λ c ts. Some (array_from start (pat_elems_at p.old.nodes list), ts)) k p.old result p.new }
{
    let end = list.end.hi;
    let elems = drop_holes(list.items);
    let node = p.nodes.array_pat(start.lo, end, elems);
    made(&p.input, node)
}

/// The elements without the holes at the end.
fn drop_holes(elems: Vec<Option<PatId>>) -> Vec<Option<PatId>>
    ensures { result.items ≡ without_holes elems.items }
{
    let mut elems = elems;
    while ends_in_hole(&elems) {
        elems.pop();
    }
    elems
}

/// Whether the last element is a hole.
fn ends_in_hole(elems: &[Option<PatId>]) -> bool
    ensures { result ≡ ends_in_hole elems.now }
{
    matches!(elems.last(), Some(None))
}
