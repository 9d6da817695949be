// Object literals (ECMA-262, 13.2.5): properties and keys.
ghost use Rattle.std.specs.Prelude.{◌≡◌, ◌<◌, ◌≤◌, true, not, [], Some, IfOk, OnOk, MatchResult};
ghost use Rattle.swc_context.specs.{Reserved.is_reserved_word, Spans.from_to};
ghost use Rattle.swc_input.specs.{Buffer.to_come, Buffer.context, Plain.plain_token};
ghost use Rattle.swc_ast.specs.Trees.{to, cover_e, spread_prop_e};
ghost use Rattle.swc_ast.specs.{Parts.ident_tree, Tree.span_of};
ghost use Rattle.swc_grammar.specs.{Symbols.Prop, Clean.sym, Clean.run};
ghost use Rattle.swc_nodes.specs.NodeParts.{expr_part, key_parts, prop_parts, one_expr};
ghost use Rattle.swc_nodes.specs.GrowingNodes.{first_at, end_at, From};
ghost use Rattle.swc_steps.specs.Readers.{nothing};
ghost use Rattle.swc_steps.specs.Keys.{is_key_lit, literal_key, plain_key, key_close};
ghost use Rattle.swc_input.specs.Calls.{Refuses, Checked, Tries};
ghost use Rattle.swc_steps.specs.Parsing.{Acts, ParsesAlone, Unheard, Produces, tree_of, key_of, key_at, ident_spelling, prop_at};
ghost use Rattle.swc_primary.specs.{Properties.open_name, Properties.cover_name, Begins.Begins, Methods.value_behind};

use crate::modifiers::{
    MethodKind, PropKind, is_word, modifier_here, parse_modifiers, prop_kind, questioned_kind,
};
use std::alloc::Global;
use swc_ast::ident::{Ident, IdentName};
use swc_ast::lit::{BigInt, Num, Str};
use swc_ast::prop::{AssignProp, ComputedPropName, PropName, SpreadElement};
use swc_ast::spanned::Spanned;
use swc_bodies::bodies::Bodies;
use swc_context::error::{Error, PResult, SyntaxError, Wanted};
use swc_context::span::Span;
use swc_ident::ident;
use swc_input::buffer::Buffer;
use swc_input::token::Token;
use swc_input::tokens::Tokens;
use swc_nodes::node::{ExprId, PropNode};
use swc_nodes::nodes::Nodes;
use swc_steps::productions::{Productions, is_key_lit};
use swc_steps::tokens::{Sign, eat, expect, look};

/// The bracket that closes the key of an expression, after this; that which opens it is at `start`. Another token is
/// refused as `Expected`, at that token, and the end as `Eof`.
pub fn computed_prop_name<I: Tokens, B: Bodies<I>>(
    p: &mut Productions<I, B>,
    start: Span,
    expr: ExprId,
) -> PResult<PropName<ExprId>>
    requires from { From 0 p.old.nodes (expr_part expr) }
    ensures { Produces I.model B.is_faithful key_of key_at (key_close start (tree_of p.old.nodes expr))
        (first_at p.old.nodes expr.0) p.old result p.new }
{
    let end = expect(&mut p.input, Sign::RBracket)?;
    let span = Span {
        lo: start.lo,
        hi: end.hi,
    };
    Ok(PropName::Computed(ComputedPropName { span, expr }))
}

/// A key that is no expression in brackets.
pub fn parse_plain_prop_name<I: Tokens>(
    alloc: Global,
    input: &mut Buffer<I>,
) -> PResult<PropName<ExprId>>
    ensures parses { ParsesAlone I.model (λ key. key) plain_key input.old result input.new }
    ensures parts { IfOk result (λ key. key_parts key ≡ []) }
    ensures falls { OnOk result (to_come I.model input.new < to_come I.model input.old) }
{
    input.require_cur()?;
    if is_word(input) {
        let name = ident::parse_ident_name(alloc, input)?;
        return Ok(PropName::Ident(name));
    }
    if !is_key_lit(input) {
        return Err(input.unexpected(SyntaxError::Unexpected(Wanted::PropName)));
    }
    let token = input.bump();
    let span = input.prev_span();
    Ok(key_lit_of(token, span))
}

/// The key that a literal's token is.
fn key_lit_of(token: Token, span: Span) -> PropName<ExprId>
    requires { is_key_lit token ≡ true }
    ensures literal { literal_key (plain_token token) span ≡ Some result }
    ensures parts { key_parts result ≡ [] }
{
    match token {
        Token::Str { value, raw } => PropName::Str(Str { span, value, raw }),
        Token::Num { raw } => PropName::Num(Num { span, raw }),
        Token::BigInt { raw } => PropName::BigInt(BigInt { span, raw }),
        _ => unreachable!(),
    }
}

/// What a property begins with, before the first part that a production reads.
#[derive(Drop)]
pub enum PropHead {
    /// A name alone, which is the whole property.
    Shorthand(Ident),
    /// The dots before an expression.
    Spread(Span),
    /// A name, and the `=` before its value.
    Cover(Ident),
    /// Nothing: a key comes.
    Key,
    /// What a method of the kind has before its key, and where that begins.
    Method(MethodKind, Span),
}

/// What a property begins with (ECMA-262, 13.2.5 and 15.4 to 15.6): a name alone, dots, a name and `=`, or what a
/// method has before its key; nothing where a key comes. A name that stands for its value too, and is reserved where
/// it is, is recorded, at its place; so is `?` after a word, which is read on as if it weren't there.
///
/// A word with a token after it that goes on with none of these is refused as `Unexpected`, at that token, and the end
/// as `Eof`.
pub fn parse_prop_head<I: Tokens, B: Bodies<I>>(
    alloc: Global,
    input: &mut Buffer<I>,
) -> PResult<PropHead>
    ensures reads { MatchResult result
        (λ h. Begins I.model B.is_faithful B.forms h input.old input.new)
        (λ e. Unheard I.model B.is_faithful (run B.forms (sym Prop)) input.old e input.new) }
    ensures falls { OnOk result (to_come I.model input.new ≤ to_come I.model input.old) }
{
    look(input)?;
    match prop_kind(input)? {
        PropKind::Shorthand => {
            let name = parse_open_name(alloc, input)?;
            Ok(PropHead::Shorthand(name))
        }
        PropKind::Spread => {
            let dots = expect(input, Sign::DotDotDot)?;
            Ok(PropHead::Spread(dots))
        }
        PropKind::Cover => {
            let name = parse_cover_name(alloc, input)?;
            Ok(PropHead::Cover(name))
        }
        PropKind::Key => Ok(PropHead::Key),
        PropKind::Method(kind) => {
            let start = parse_modifiers(input, kind)?;
            Ok(PropHead::Method(kind, start))
        }
        PropKind::Questioned => parse_questioned_head(alloc, input),
        PropKind::Unfit => Err(unfit_prop(alloc, input)),
    }
}

/// A word with `?` after it, which is recorded, and what it begins as if the `?` weren't there (ECMA-262, 13.2.5).
fn parse_questioned_head<I: Tokens>(alloc: Global, input: &mut Buffer<I>) -> PResult<PropHead>
    ensures parses { ParsesAlone I.model (λ h. h) nothing input.old result input.new }
    ensures falls { OnOk result (to_come I.model input.new < to_come I.model input.old) }
{
    let Questioned { name, kind } = parse_questioned(alloc, input)?;
    match kind {
        PropKind::Shorthand => Ok(PropHead::Shorthand(name)),
        PropKind::Cover => Ok(PropHead::Cover(name)),
        PropKind::Method(kind) => Ok(PropHead::Method(kind, name.span)),
        _ => Err(unfit_behind(input)),
    }
}

/// A name that stands for its value too (ECMA-262, 13.2.5.1). One that is reserved there is recorded, at its
/// place.
fn parse_open_name<I: Tokens>(alloc: Global, input: &mut Buffer<I>) -> PResult<Ident>
    ensures parses { ParsesAlone I.model ident_spelling open_name input.old result input.new }
    ensures falls { OnOk result (to_come I.model input.new < to_come I.model input.old) }
{
    let name = ident::parse_ident_name(alloc, input)?;
    check_open_name(input, &name)?;
    Ok(Ident {
        span: name.span,
        sym: name.sym,
    })
}

/// A name that stands for its value too, and the `=` after it (ECMA-262, 13.2.5). A name that is reserved
/// there is recorded, at its place. Another token than `=` is refused as `Expected`, at that token, and the end as
/// `Eof`.
fn parse_cover_name<I: Tokens>(alloc: Global, input: &mut Buffer<I>) -> PResult<Ident>
    ensures parses { ParsesAlone I.model ident_spelling cover_name input.old result input.new }
    ensures falls { OnOk result (to_come I.model input.new < to_come I.model input.old) }
{
    let name = parse_open_name(alloc, input)?;
    expect(input, Sign::Assign)?;
    Ok(name)
}

/// Records a name that is reserved where it is.
fn check_open_name<I: Tokens>(input: &mut Buffer<I>, name: &IdentName) -> PResult<()>
    ensures checks { Checked I.model
        (not (is_reserved_word (context I.model input.old) name.now.sym)) input.old result input.new }
    ensures falls { OnOk result (to_come I.model input.new ≤ to_come I.model input.old) }
{
    if input.get_ctx().is_reserved_word(&name.sym) {
        let kind = SyntaxError::ReservedWordInObjShorthandOrPat;
        return input.emit_err(name.span, kind);
    }
    Ok(())
}

/// A word with `?` after it, and the property that it begins as if the `?` weren't there.
#[derive(Drop)]
struct Questioned {
    name: Ident,
    kind: PropKind,
}

/// A word with `?` after it, which is recorded, and the `=` of a cover name or the `*` of an async generator after
/// that. A name that stands for its value too, and is reserved where it is, is recorded.
fn parse_questioned<I: Tokens>(alloc: Global, input: &mut Buffer<I>) -> PResult<Questioned>
    ensures parses { ParsesAlone I.model (λ q. q) nothing input.old result input.new }
    ensures falls { OnOk result (to_come I.model input.new < to_come I.model input.old) }
{
    let modifier = modifier_here(input);
    let name = parse_questioned_name(alloc, input)?;
    look(input)?;
    let kind = questioned_kind(input, modifier);
    check_questioned(input, kind, &name)?;
    eat_questioned(input, kind)?;
    let name = Ident {
        span: name.span,
        sym: name.sym,
    };
    Ok(Questioned { name, kind })
}

/// A word and the `?` after it, which is recorded at its place.
fn parse_questioned_name<I: Tokens>(alloc: Global, input: &mut Buffer<I>) -> PResult<IdentName>
    ensures parses { ParsesAlone I.model (λ n. n) nothing input.old result input.new }
    ensures falls { OnOk result (to_come I.model input.new < to_come I.model input.old) }
{
    let name = ident::parse_ident_name(alloc, input)?;
    let question = expect(input, Sign::Question)?;
    input.emit_err(question, SyntaxError::TS1162)?;
    Ok(name)
}

/// Records a name that stands for its value too, by what it begins, and is reserved where it is.
fn check_questioned<I: Tokens>(
    input: &mut Buffer<I>,
    kind: PropKind,
    name: &IdentName,
) -> PResult<()>
    ensures tries { Tries I.model input.old result input.new }
    ensures falls { OnOk result (to_come I.model input.new ≤ to_come I.model input.old) }
{
    match kind {
        PropKind::Shorthand | PropKind::Cover => check_open_name(input, name),
        _ => Ok(()),
    }
}

/// Consumes the `=` of a cover name, and the `*` of an async generator.
fn eat_questioned<I: Tokens>(input: &mut Buffer<I>, kind: PropKind) -> PResult<Option<Span>>
    ensures acts { Acts I.model input.old result input.new }
    ensures falls { OnOk result (to_come I.model input.new ≤ to_come I.model input.old) }
{
    match kind {
        PropKind::Cover => eat(input, Sign::Assign),
        PropKind::Method(MethodKind::AsyncGenerator) => eat(input, Sign::Star),
        _ => Ok(None),
    }
}

/// From a place to the end of an expression, as they are.
fn span_to<F: Spanned + Drop, C: Spanned + Drop, K: Spanned + Drop>(
    nodes: &Nodes<F, C, K>,
    start: Span,
    end: ExprId,
) -> Span
    requires { From 0 nodes.now (expr_part end) }
    ensures { result ≡ to start (span_of (tree_of nodes.now end)) }
{
    Span {
        lo: start.lo,
        hi: nodes.extent(end).hi,
    }
}

/// The property of dots and the expression after them.
pub fn spread_prop<F: Spanned + Drop, C: Spanned + Drop, K: Spanned + Drop>(
    nodes: &Nodes<F, C, K>,
    dots: Span,
    expr: ExprId,
) -> PropNode<K>
    requires { From 0 nodes.now (expr_part expr) }
    ensures tree { prop_at nodes.now result ≡ spread_prop_e dots (tree_of nodes.now expr) }
    ensures parts { prop_parts result ≡ one_expr expr }
{
    let span = span_to(nodes, dots, expr);
    PropNode::Spread(SpreadElement {
        span,
        dot3_token: dots,
        expr,
    })
}

/// The property of a name and the value after its `=`.
pub fn cover_prop<F: Spanned + Drop, C: Spanned + Drop, K: Spanned + Drop>(
    nodes: &Nodes<F, C, K>,
    key: Ident,
    value: ExprId,
) -> PropNode<K>
    requires { From 0 nodes.now (expr_part value) }
    ensures tree { prop_at nodes.now result ≡ cover_e (from_to key.span.lo (end_at nodes.now value.0))
        (ident_tree key) (tree_of nodes.now value) }
    ensures parts { prop_parts result ≡ one_expr value }
{
    let span = Span {
        lo: key.span.lo,
        hi: nodes.end(value),
    };
    PropNode::Assign(AssignProp { span, key, value })
}

/// The property of a key and the value after its colon.
pub fn key_prop<F: Spanned + Drop, C: Spanned + Drop, K: Spanned + Drop>(
    nodes: &Nodes<F, C, K>,
    key: PropName<ExprId>,
    value: ExprId,
) -> PropNode<K>
    requires { From 0 nodes.now (expr_part value) }
    ensures { result ≡ value_behind key (span_of (tree_of nodes.now value)) value }
{
    let span = Span {
        lo: key.span().lo,
        hi: nodes.extent(value).hi,
    };
    PropNode::KeyValue { span, key, value }
}

/// The refusal of what is after a word that is a property's, at the token that doesn't fit.
fn unfit_prop<I: Tokens>(alloc: Global, input: &mut Buffer<I>) -> Error
    ensures refuses { Refuses I.model input.old result input.new }
{
    match ident::parse_ident_name(alloc, input) {
        Ok(_) => unfit_behind(input),
        Err(error) => error,
    }
}

/// The refusal of the current token, which goes on with no property that a word begins.
fn unfit_behind<I: Tokens>(input: &mut Buffer<I>) -> Error
    ensures refuses { Refuses I.model input.old result input.new }
{
    input.unexpected(SyntaxError::Unexpected(Wanted::AfterPropName))
}
