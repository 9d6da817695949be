// The hook that keeps the tokens of functions, classes and blocks.
ghost use Rattle.std.specs.Prelude.{◌≡◌, true, false, Option, Some, IsSome, IfErr, MatchResult};
ghost use Rattle.swc_input.specs.{declared.token.Token.Token, Source.given_one, Buffer.current, Buffer.Looked, Kinds.at_token};
ghost use Rattle.swc_bodies.specs.declared.place.Place.{Place};
ghost use Rattle.swc_bodies.specs.Readings.{Hooked, Faithful, at_function, either_one, is_function, is_async, is_class, is_brace};
ghost use Rattle.swc_bodies.specs.Taking.{is_full, at_current, begun, taken, function_first, class_first, block_first};
ghost use Rattle.swc_bodies.specs.Steps.{KeepsOne, GoesOn, Stops, NoBody, Quiet};

use crate::bodies::{Bodies, BodyForms, ReplayBodies};
use crate::place::{Place, sign_at};
use crate::token_body::TokenBody;
use std::alloc::{AllocError, Global};
use swc_context::error::{PResult, SyntaxError, Wanted};
use swc_context::span::Span;
use swc_context::word::{Keyword, Word};
use swc_input::buffer::Buffer;
use swc_input::keeping::keep;
use swc_input::token::{Token, TokenAndSpan};
use swc_input::tokens::Tokens;

/// The place after the current token, if that may be here. Consumes nothing.
fn after_current<I: Tokens>(place: Place, input: &mut Buffer<I>) -> Option<Place>
    requires { is_full place ≡ false }
    ensures looked { Looked I.model input.old input.new }
    ensures value { result ≡ at_current place (current input.new) }
{
    let had_line_break = input.had_line_break_before_cur();
    match input.cur_debug() {
        Some(token) => place.after(sign_at(token, had_line_break)),
        None => None,
    }
}

/// The place after the current token. One that may not be here is refused, as `Unexpected` with `{`.
fn next_place<I: Tokens>(place: Place, input: &mut Buffer<I>) -> PResult<Place>
    ensures { MatchResult result (λ next. GoesOn I.model input.old place next input.new)
        (λ e. Stops I.model input.old place e input.new) }
{
    if place.is_full() {
        return Err(input.out_of_memory());
    }
    match after_current(place, input) {
        Some(next) => Ok(next),
        None => Err(input.unexpected(SyntaxError::Unexpected(Wanted::LBrace))),
    }
}

/// Consumes the current token and keeps it.
fn keep_current<I: Tokens>(kept: &mut Vec<TokenAndSpan>, input: &mut Buffer<I>) -> PResult<()>
    requires { IsSome (current input.old) }
    ensures { KeepsOne I.model input.old kept.old.items result kept.new.items input.new }
{
    let had_line_break = input.had_line_break_before_cur();
    let span = input.cur_span();
    let token = input.bump();
    let found = TokenAndSpan {
        token,
        had_line_break,
        span,
    };
    match keep(kept, found) {
        Ok(()) => Ok(()),
        Err(AllocError) => Err(input.out_of_memory()),
    }
}

/// Takes a body, where its first token is current and leads to the place.
fn take_body<I: Tokens>(alloc: Global, first: Place, input: &mut Buffer<I>) -> PResult<TokenBody>
    requires { IsSome (current input.old) }
    ensures hooked { (begins : Token → Option Place) → begun begins (given_one (current input.old)) ≡ Some first
        → Hooked I.model (taken begins) input.old result input.new }
    ensures faithful { (begins : Token → Option Place) → begun begins (given_one (current input.old)) ≡ Some first
        → Faithful I.model (taken begins) input.old result input.new }
    ensures refused { IfErr result (λ e. NoBody I.model e input.new) }
    ensures quiet { Quiet I.model input.old input.new }
{
    let from = input.cur_span().lo;
    let mut kept = Vec::new(alloc);
    keep_current(&mut kept, input)?;
    let mut place = first;
    while !place.is_end() {
        place = next_place(place, input)?;
        keep_current(&mut kept, input)?;
    }
    kept.shrink_to_fit();
    Ok(TokenBody {
        span: Span {
            lo: from,
            hi: input.last_pos(),
        },
        tokens: kept,
    })
}

/// The hook that keeps the tokens of functions, classes and blocks, and looks at their brackets alone.
///
/// Each call takes the tokens to the first `{` that is in no bracket, and through the `}` that
/// closes it. Before that brace `(`, `[`, `${` and `{` open a bracket, and `)`, `]` and `}` close one,
/// whichever was opened; after it `{` and `${` open, `}` closes, and no other bracket counts. Each
/// token is moved, and none is copied. Before one is kept, those kept at the end that end after its
/// start are dropped: where the tokens come in order, all are kept.
///
/// A closing bracket before the brace, where none is open, is refused as `Unexpected` with `{`, at that token, and
/// isn't consumed; so is what follows `async` and isn't `function` on the same line. The end of the tokens is refused
/// as `Eof`, an empty span where the token consumed last ends. An error token is consumed, and its error is the
/// refusal. Out of memory, and 2^64 - 1 open brackets, are refused as `OutOfMemory`, an empty span at that place too.
/// What was taken before a refusal stays consumed. The hook records no fault itself.
#[derive(Drop)]
pub struct TokenBodies {
    alloc: Global,
}

impl TokenBodies {
    /// A hook that keeps tokens in memory of the allocator. Takes no memory itself.
    pub fn new(alloc: Global) -> TokenBodies {
        TokenBodies { alloc }
    }
}

impl BodyForms for TokenBodies {
    ghost use Rattle.swc_bodies.specs.Taking.{token_forms};

    type Fun = TokenBody;

    type Class = TokenBody;

    type Block = TokenBody;

    ghost forms = { token_forms };
}

/// The place after the first word of a function, `function` or `async`.
fn behind_word(token: &Token) -> Place
    requires { either_one (is_function token.now) (is_async token.now) ≡ true }
    ensures { function_first token.now ≡ Some result }
{
    match token {
        Token::Word(Word::Keyword(Keyword::Function)) => Place::Head(0),
        _ => Place::Async,
    }
}

/// The place after the current word, with which a function begins.
fn behind_current<I: Tokens>(input: &Buffer<I>) -> Place
    requires { at_function (current input.now) ≡ true }
    ensures { begun function_first (given_one (current input.now)) ≡ Some result }
{
    match input.cur_debug() {
        Some(token) => behind_word(token),
        None => Place::Async,
    }
}

impl<I: Tokens> Bodies<I> for TokenBodies {
    ghost use Rattle.swc_bodies.specs.Laws.{token_forms_read};

    ghost is_faithful = { true };

    fn fun(&mut self, input: &mut Buffer<I>) -> PResult<TokenBody>
        requires { at_function (current input.old) ≡ true }
        ensures hooked { Hooked I.model (taken function_first) input.old result input.new }
        ensures faithful { Faithful I.model (taken function_first) input.old result input.new }
        ensures refused { IfErr result (λ e. NoBody I.model e input.new) }
        ensures quiet { Quiet I.model input.old input.new }
    {
        let first = behind_current(input);
        take_body(self.alloc, first, input)
    }

    fn class(&mut self, input: &mut Buffer<I>) -> PResult<TokenBody>
        requires { at_token is_class (current input.old) ≡ true }
        ensures hooked { Hooked I.model (taken class_first) input.old result input.new }
        ensures faithful { Faithful I.model (taken class_first) input.old result input.new }
        ensures refused { IfErr result (λ e. NoBody I.model e input.new) }
        ensures quiet { Quiet I.model input.old input.new }
    {
        take_body(self.alloc, Place::Head(0), input)
    }

    fn block(&mut self, input: &mut Buffer<I>) -> PResult<TokenBody>
        requires { at_token is_brace (current input.old) ≡ true }
        ensures hooked { Hooked I.model (taken block_first) input.old result input.new }
        ensures faithful { Faithful I.model (taken block_first) input.old result input.new }
        ensures refused { IfErr result (λ e. NoBody I.model e input.new) }
        ensures quiet { Quiet I.model input.old input.new }
    {
        take_body(self.alloc, Place::Inside(0), input)
    }

    ghost lawful = { token_forms_read };
}

impl ReplayBodies for TokenBodies {
    ghost use Rattle.swc_bodies.specs.{Laws.token_forms_read, Replaying.token_forms_replay};

    ghost lawful = { token_forms_read };

    ghost replays = { token_forms_replay };
}
