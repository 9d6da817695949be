// A text, or a part of one, read as one expression or as one binding pattern.
ghost use Rattle.std.specs.Prelude.{◌≡◌, ◌≤◌, ◌↔◌, true, false, [], length, take, IfOk, IsSome, IfSome};
ghost use Rattle.swc_grammar.specs.Symbols.{Expr, Pat};
ghost use Rattle.swc_ast.specs.Tree.{span_of};
ghost use Rattle.swc_nodes.specs.{NodeParts.expr_part, NodeParts.pat_part, GrowingNodes.From, GrowingNodes.tree_at};
ghost use Rattle.swc_steps.specs.Params.{pat_at};
ghost use Rattle.swc_steps.specs.Parsing.{tree_of};
ghost use Rattle.swc_ecma_parser.specs.{TextList.IsModern, TextList.IsModernAt, TextList.IsPart, TextList.StopsAt, TextList.text_tokens, TextList.tokens_at, WholeList.IsHeeded, WholeList.Headline, WholeList.ReadsFront, Calls.wants_memory};
ghost use Rattle.swc_ecma_parser.specs.TextList as text_list;

use crate::whole::{Whole, read_whole_expr, read_whole_pat};
use std::alloc::Global;
use swc_bodies::bodies::{Bodies, BodyForms};
use swc_context::context::{Context, EsVersion, Syntax};
use swc_context::span::BytePos;
use swc_lexer::input::{SourceText, TextInput};
use swc_lexer::reader::End;
use swc_lexer::stack::Start;
use swc_lexical::blank::blanks_len;
use swc_nodes::node::{ExprId, PatId};

/// The result of reading a part of a text.
#[derive(Drop)]
pub struct TextPart<N, B: BodyForms> {
    /// What was read. Spans are in bytes of the whole text.
    pub whole: Whole<N, B>,
    /// Where reading stopped, in bytes of the whole text: after what was read, with blanks and comments after it, so
    /// where the first token begins that doesn't go on, or the part ends. For a refusal: where this begins.
    pub stop: usize,
}

/// Reads a text in UTF-8 as one expression (ECMA-262, 13.16), in the context and by the syntax, with a parser of its
/// own, which `levels` bounds (`Parser::limit_nesting`; `usize::MAX` is no bound).
///
/// Tokens are read as the parser asks for them (`TextInput`). An invalid token is refused with its kind and span
/// (`UnterminatedStrLit`, ..) when the parser reaches it. Legacy octal numbers and escapes, as `010`, are recorded in
/// strict code and modules. Other refusals are those of `Parser::parse_expr`. Spans are in bytes of the text.
///
/// The promise holds where early errors are on and not ignored. A tree returned with no fault recorded is the only one
/// that the written grammar derives from the tokens read, which are all of the text's tokens, or the first of them where
/// some are left (`front`). With a faithful hook each tree that it derives from all tokens of a text that has no legacy
/// octal number or escape is returned so, unless memory runs out or it is nested too deeply (`headline`). The text's
/// tokens are those of the written lexical grammar. Where the syntax is pedantic, this holds for trees in which no
/// property `name = value` of an object literal is left (ECMA-262, 13.2.5.1).
pub fn parse_text_expr<T: SourceText, B: Bodies<TextInput<T>>>(
    alloc: Global,
    text: T,
    ctx: Context,
    syntax: Syntax,
    target: EsVersion,
    bodies: B,
    levels: usize,
) -> Whole<ExprId, B>
    ensures stands { IfOk result.read (λ r. From 0 result.nodes (expr_part r.0)) }
    ensures headline { IsHeeded ctx syntax → IsModern ctx (T.bytes text)
        → Headline B.is_faithful B.forms Expr tree_of ctx syntax (text_tokens ctx (T.bytes text))
        result.read result.nodes result.recorded.items }
    ensures front { IsHeeded ctx syntax → IfOk result.read (λ r. result.recorded.items ≡ []
        → ReadsFront B.forms Expr ctx syntax (text_tokens ctx (T.bytes text)) r.1 (tree_of result.nodes r.0)) }
    ensures deep { wants_memory result.read ≡ false → result.too_deep ≡ false }
    ensures unbounded { levels ≡ usize.MAX → result.too_deep ≡ false }
{
    expr_from(alloc, text, 0, ctx, syntax, target, bodies, levels)
}

/// Reads a part of a text as one expression, as `parse_text_expr` reads a whole text: the part between the bytes `at`
/// and `end`. The text isn't copied, and spans are in the whole text. Tokens that are left after the expression are no
/// fault: so an expression ends at the first token that doesn't go on (`stop`), as the `}` of a text with holes.
///
/// `None` if `end` is before `at` or after the text's end, or either is within a character.
pub fn parse_text_expr_at<T: SourceText + Copy, B: Bodies<TextInput<T>>>(
    alloc: Global,
    text: T,
    at: usize,
    end: usize,
    ctx: Context,
    syntax: Syntax,
    target: EsVersion,
    bodies: B,
    levels: usize,
) -> Option<TextPart<ExprId, B>>
    ensures found { IsSome result ↔ IsPart (T.bytes text) at end }
    ensures stands { IfSome result (λ p. IfOk p.whole.read (λ r. From 0 p.whole.nodes (expr_part r.0))) }
    ensures headline { IsHeeded ctx syntax → IsModernAt at ctx (take end (T.bytes text)) → IfSome result
        (λ p. Headline B.is_faithful B.forms Expr tree_of ctx syntax (tokens_at at ctx (take end (T.bytes text)))
        p.whole.read p.whole.nodes p.whole.recorded.items) }
    ensures front { IsHeeded ctx syntax → IfSome result (λ p. IfOk p.whole.read (λ r. p.whole.recorded.items ≡ []
        → ReadsFront B.forms Expr ctx syntax (tokens_at at ctx (take end (T.bytes text))) r.1
        (tree_of p.whole.nodes r.0))) }
    ensures stop { IfSome result (λ p. StopsAt (take end (T.bytes text))
        (λ r. span_of (tree_at p.whole.nodes r.0.0)) p.whole.read p.stop) }
    ensures deep { IfSome result (λ p. wants_memory p.whole.read ≡ false → p.whole.too_deep ≡ false) }
    ensures unbounded { levels ≡ usize.MAX → IfSome result (λ p. p.whole.too_deep ≡ false) }
{
    match part_of(text, at, end) {
        Some(front) => {
            let whole = expr_from(alloc, front, at, ctx, syntax, target, bodies, levels);
            let stop = match &whole.read {
                Ok((expr, _)) => next_place(front.as_text(), whole.nodes.extent(*expr).hi),
                Err(fault) => fault.span().lo.0 as usize,
            };
            Some(TextPart { whole, stop })
        }
        None => None,
    }
}

/// Reads a text in UTF-8 as one binding pattern (ECMA-262, 14.3.3), as `parse_text_expr` reads an expression.
///
/// Refused as `Parser::parse_pat`. `headline` is that of `parse_text_expr`.
pub fn parse_text_pat<T: SourceText, B: Bodies<TextInput<T>>>(
    alloc: Global,
    text: T,
    ctx: Context,
    syntax: Syntax,
    target: EsVersion,
    bodies: B,
    levels: usize,
) -> Whole<PatId, B>
    ensures stands { IfOk result.read (λ r. From 0 result.nodes (pat_part r.0)) }
    ensures headline { IsHeeded ctx syntax → IsModern ctx (T.bytes text)
        → Headline B.is_faithful B.forms Pat pat_at ctx syntax (text_tokens ctx (T.bytes text))
        result.read result.nodes result.recorded.items }
    ensures front { IsHeeded ctx syntax → IfOk result.read (λ r. result.recorded.items ≡ []
        → ReadsFront B.forms Pat ctx syntax (text_tokens ctx (T.bytes text)) r.1 (pat_at result.nodes r.0)) }
    ensures deep { wants_memory result.read ≡ false → result.too_deep ≡ false }
    ensures unbounded { levels ≡ usize.MAX → result.too_deep ≡ false }
{
    pat_from(alloc, text, 0, ctx, syntax, target, bodies, levels)
}

/// Reads a part of a text as one binding pattern, as `parse_text_expr_at` reads an expression.
pub fn parse_text_pat_at<T: SourceText + Copy, B: Bodies<TextInput<T>>>(
    alloc: Global,
    text: T,
    at: usize,
    end: usize,
    ctx: Context,
    syntax: Syntax,
    target: EsVersion,
    bodies: B,
    levels: usize,
) -> Option<TextPart<PatId, B>>
    ensures found { IsSome result ↔ IsPart (T.bytes text) at end }
    ensures stands { IfSome result (λ p. IfOk p.whole.read (λ r. From 0 p.whole.nodes (pat_part r.0))) }
    ensures headline { IsHeeded ctx syntax → IsModernAt at ctx (take end (T.bytes text)) → IfSome result
        (λ p. Headline B.is_faithful B.forms Pat pat_at ctx syntax (tokens_at at ctx (take end (T.bytes text)))
        p.whole.read p.whole.nodes p.whole.recorded.items) }
    ensures front { IsHeeded ctx syntax → IfSome result (λ p. IfOk p.whole.read (λ r. p.whole.recorded.items ≡ []
        → ReadsFront B.forms Pat ctx syntax (tokens_at at ctx (take end (T.bytes text))) r.1
        (pat_at p.whole.nodes r.0))) }
    ensures stop { IfSome result (λ p. StopsAt (take end (T.bytes text))
        (λ r. span_of (tree_at p.whole.nodes r.0.0)) p.whole.read p.stop) }
    ensures deep { IfSome result (λ p. wants_memory p.whole.read ≡ false → p.whole.too_deep ≡ false) }
    ensures unbounded { levels ≡ usize.MAX → IfSome result (λ p. p.whole.too_deep ≡ false) }
{
    match part_of(text, at, end) {
        Some(front) => {
            let whole = pat_from(alloc, front, at, ctx, syntax, target, bodies, levels);
            let stop = match &whole.read {
                Ok((pat, _)) => next_place(front.as_text(), whole.nodes.pat_extent(*pat).hi),
                Err(fault) => fault.span().lo.0 as usize,
            };
            Some(TextPart { whole, stop })
        }
        None => None,
    }
}

/// Reads a text from a byte on as one expression.
fn expr_from<T: SourceText, B: Bodies<TextInput<T>>>(
    alloc: Global,
    text: T,
    at: usize,
    ctx: Context,
    syntax: Syntax,
    target: EsVersion,
    bodies: B,
    levels: usize,
) -> Whole<ExprId, B>
    requires { at ≤ length (T.bytes text) }
    ensures stands { IfOk result.read (λ r. From 0 result.nodes (expr_part r.0)) }
    ensures headline { IsHeeded ctx syntax → IsModernAt at ctx (T.bytes text)
        → Headline B.is_faithful B.forms Expr tree_of ctx syntax (tokens_at at ctx (T.bytes text))
        result.read result.nodes result.recorded.items }
    ensures front { IsHeeded ctx syntax → IfOk result.read (λ r. result.recorded.items ≡ []
        → ReadsFront B.forms Expr ctx syntax (tokens_at at ctx (T.bytes text)) r.1 (tree_of result.nodes r.0)) }
    ensures deep { wants_memory result.read ≡ false → result.too_deep ≡ false }
    ensures unbounded { levels ≡ usize.MAX → result.too_deep ≡ false }
{
    let source = TextInput::new_at(
        alloc,
        text,
        at,
        Start::Operand,
        End::Whole,
        ctx,
        syntax,
        target,
    );
    read_whole_expr(alloc, source, bodies, levels)
}

/// Reads a text from a byte on as one binding pattern.
fn pat_from<T: SourceText, B: Bodies<TextInput<T>>>(
    alloc: Global,
    text: T,
    at: usize,
    ctx: Context,
    syntax: Syntax,
    target: EsVersion,
    bodies: B,
    levels: usize,
) -> Whole<PatId, B>
    requires { at ≤ length (T.bytes text) }
    ensures stands { IfOk result.read (λ r. From 0 result.nodes (pat_part r.0)) }
    ensures headline { IsHeeded ctx syntax → IsModernAt at ctx (T.bytes text)
        → Headline B.is_faithful B.forms Pat pat_at ctx syntax (tokens_at at ctx (T.bytes text))
        result.read result.nodes result.recorded.items }
    ensures front { IsHeeded ctx syntax → IfOk result.read (λ r. result.recorded.items ≡ []
        → ReadsFront B.forms Pat ctx syntax (tokens_at at ctx (T.bytes text)) r.1 (pat_at result.nodes r.0)) }
    ensures deep { wants_memory result.read ≡ false → result.too_deep ≡ false }
    ensures unbounded { levels ≡ usize.MAX → result.too_deep ≡ false }
{
    let source = TextInput::new_at(
        alloc,
        text,
        at,
        Start::Operand,
        End::Whole,
        ctx,
        syntax,
        target,
    );
    read_whole_pat(alloc, source, bodies, levels)
}

/// The text up to `end`, where the bytes from `at` to `end` are a part of it; `None` if `end` is before `at` or after the
/// text's end, or either is within a character.
pub fn part_of<T: SourceText>(text: T, at: usize, end: usize) -> Option<T>
    ensures found { IsSome result ↔ IsPart (T.bytes text) at end }
    ensures front { IfSome result (λ front. T.bytes front ≡ take end (T.bytes text)) }
    ensures within { IfSome result (λ front. at ≤ length (T.bytes front)) }
{
    if end < at || !text.as_text().is_char_boundary(at) {
        return None;
    }
    text.up_to(end)
}

/// Where the first thing after a place begins, but for blanks and comments.
fn next_place(text: &str, from: BytePos) -> usize
    ensures { result ≡ text_list.next_place text.now from.0 }
{
    let from = from.0 as usize;
    if from <= text.len() {
        from + blanks_len(&text.as_bytes()[from..])
    } else {
        from
    }
}
