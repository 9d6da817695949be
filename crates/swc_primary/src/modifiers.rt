// What a property of an object literal is, by the tokens that it begins with (ECMA-262, 13.2.5 and 15.4).
ghost use Rattle.std.specs.Prelude.{◌≡◌, ◌<◌, true, Some, None, IsSome, MatchOption, OnOk};
ghost use Rattle.swc_input.specs.Buffer.{current, peeked, to_come, Peeked};
ghost use Rattle.swc_input.specs.Kinds.{at_token};
ghost use Rattle.swc_grammar.specs.{Clean.first, Words.rest, Tokens.is_word};
ghost use Rattle.swc_steps.specs.Parsing.{seen, ParsesAlone, Tells};
ghost use Rattle.swc_primary.specs.Properties.{prop_kind, sign_kind, by_modifier, kind_at, kind_of, modifier_of};
ghost use Rattle.swc_primary.specs.Methods.{of_async, of_generator, async_star, modifiers};

use swc_context::error::PResult;
use swc_context::operator::{AssignOp, BinOpToken};
use swc_context::span::Span;
use swc_input::buffer::Buffer;
use swc_input::token::Token;
use swc_input::tokens::Tokens;
use swc_steps::tokens::{Sign, expect, is_async, is_sign};

/// What a property of an object literal is, by the tokens that it begins with (ECMA-262, 13.2.5 and 15.4).
#[derive(Clone, Copy)]
pub enum PropKind {
    /// Dots, and an expression.
    Spread,
    /// A name alone.
    Shorthand,
    /// A name with `=` and an expression after it.
    Cover,
    /// A key, and its value or its method's function.
    Key,
    /// What a method of the kind begins with, and the method.
    Method(MethodKind),
    /// A word with `?` after it.
    Questioned,
    /// A word, and after it a token that goes on with none of these.
    Unfit,
}

/// What a method is, by what is before its key (ECMA-262, 15.4 to 15.6 and 15.8).
#[derive(Clone, Copy)]
pub enum MethodKind {
    /// `*`: a generator.
    Generator,
    /// `async`: an async method.
    Async,
    /// `async` and `*`: an async generator.
    AsyncGenerator,
    /// `get`: a getter.
    Getter,
    /// `set`: a setter.
    Setter,
}

/// What a word is to the key after it.
#[derive(Clone, Copy)]
pub enum Modifier {
    /// `get`
    Get,
    /// `set`
    Set,
    /// `async`
    Async,
    /// Nothing: it is another word.
    Other,
}

impl MethodKind {
    /// Whether its function is async.
    pub fn is_async(self) -> bool
        ensures { result ≡ of_async self }
    {
        matches!(self, MethodKind::Async | MethodKind::AsyncGenerator)
    }

    /// Whether its function is a generator.
    pub fn is_generator(self) -> bool
        ensures { result ≡ of_generator self }
    {
        matches!(self, MethodKind::Generator | MethodKind::AsyncGenerator)
    }
}

/// What the property is that the current token begins, by that token and the one after it. Refused only when out of
/// memory.
pub(crate) fn prop_kind<I: Tokens>(input: &mut Buffer<I>) -> PResult<PropKind>
    ensures tells { Tells I.model prop_kind input.old result input.new }
{
    if !is_word(input) {
        return Ok(sign_kind(input));
    }
    let modifier = modifier_here(input);
    kind_behind(input, modifier)
}

/// Whether a word is current.
pub(crate) fn is_word<I: Tokens>(input: &Buffer<I>) -> bool
    ensures value { result ≡ at_token is_word (seen input.now) }
    ensures some { result ≡ true → IsSome (current input.now) }
{
    matches!(input.cur_debug(), Some(Token::Word(_)))
}

/// What the current token is to a key after it.
pub(crate) fn modifier_here<I: Tokens>(input: &Buffer<I>) -> Modifier
    ensures { result ≡ modifier_of (seen input.now) }
{
    if is_sign(input, Sign::Get) {
        Modifier::Get
    } else if is_sign(input, Sign::Set) {
        Modifier::Set
    } else if is_sign(input, Sign::Async) {
        Modifier::Async
    } else {
        Modifier::Other
    }
}

/// What the property is that the current token begins, which is no word.
fn sign_kind<I: Tokens>(input: &Buffer<I>) -> PropKind
    ensures { result ≡ sign_kind (seen input.now) }
{
    match input.cur_debug() {
        Some(Token::DotDotDot) => PropKind::Spread,
        Some(Token::BinOp(BinOpToken::Mul)) => PropKind::Method(MethodKind::Generator),
        _ => PropKind::Key,
    }
}

/// What the property is that a word begins, by the token after it. Refused only when out of memory.
fn kind_behind<I: Tokens>(input: &mut Buffer<I>, modifier: Modifier) -> PResult<PropKind>
    requires { IsSome (current input.old) }
    ensures tells { Tells I.model (λ ts. kind_of modifier (first (rest ts))) input.old result input.new }
{
    match peek_kind(input, modifier) {
        Some(kind) => Ok(kind),
        None => {
            if input.failed() {
                return Err(input.out_of_memory());
            }
            Ok(by_modifier(modifier, false))
        }
    }
}

/// The same; nothing where no token is after it.
fn peek_kind<I: Tokens>(input: &mut Buffer<I>, modifier: Modifier) -> Option<PropKind>
    requires { IsSome (current input.old) }
    ensures peeked { Peeked I.model input.old input.new }
    ensures value { MatchOption (peeked input.new) (result ≡ None)
        (λ t. result ≡ Some (kind_at modifier t.token)) }
{
    match input.peek() {
        Some(token) => Some(kind_at(modifier, token)),
        None => None,
    }
}

/// What the property is that a word begins with the token after it.
fn kind_at(modifier: Modifier, token: &Token) -> PropKind
    ensures { result ≡ kind_at modifier token.now }
{
    match token {
        Token::Comma | Token::RBrace => PropKind::Shorthand,
        Token::AssignOp(AssignOp::Assign) => PropKind::Cover,
        Token::Colon | Token::LParen => PropKind::Key,
        Token::QuestionMark => PropKind::Questioned,
        Token::BinOp(BinOpToken::Mul) => by_modifier(modifier, true),
        _ => by_modifier(modifier, false),
    }
}

/// What the property is that a word begins with a key after it, and maybe `*` between them.
fn by_modifier(modifier: Modifier, with_star: bool) -> PropKind
    ensures { result ≡ by_modifier modifier with_star }
{
    match modifier {
        Modifier::Get => PropKind::Method(MethodKind::Getter),
        Modifier::Set => PropKind::Method(MethodKind::Setter),
        Modifier::Async if with_star => PropKind::Method(MethodKind::AsyncGenerator),
        Modifier::Async => PropKind::Method(MethodKind::Async),
        Modifier::Other => PropKind::Unfit,
    }
}

/// What the property is that a word with `?` after it begins, by the current token, which is after the `?`.
pub(crate) fn questioned_kind<I: Tokens>(input: &Buffer<I>, modifier: Modifier) -> PropKind {
    match input.cur_debug() {
        Some(Token::Comma | Token::RBrace) => PropKind::Shorthand,
        Some(Token::AssignOp(AssignOp::Assign)) => PropKind::Cover,
        Some(Token::BinOp(BinOpToken::Mul)) => by_modifier(modifier, true),
        _ => by_modifier(modifier, false),
    }
}

/// Consumes what a method of the kind begins with, and answers where it begins.
pub(crate) fn parse_modifiers<I: Tokens>(input: &mut Buffer<I>, kind: MethodKind) -> PResult<Span>
    ensures parses { ParsesAlone I.model (λ s. s) (modifiers kind) input.old result input.new }
    ensures falls { OnOk result (to_come I.model input.new < to_come I.model input.old) }
{
    match kind {
        MethodKind::Generator => expect(input, Sign::Star),
        MethodKind::Async => expect(input, Sign::Async),
        MethodKind::AsyncGenerator => parse_async_star(input),
        MethodKind::Getter => expect(input, Sign::Get),
        MethodKind::Setter => expect(input, Sign::Set),
    }
}

/// Consumes `async` and `*`, and answers where the first is.
fn parse_async_star<I: Tokens>(input: &mut Buffer<I>) -> PResult<Span>
    ensures parses { ParsesAlone I.model (λ s. s) async_star input.old result input.new }
    ensures falls { OnOk result (to_come I.model input.new < to_come I.model input.old) }
{
    let start = expect(input, Sign::Async)?;
    expect(input, Sign::Star)?;
    Ok(start)
}
