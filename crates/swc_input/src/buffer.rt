// The parser's buffer: the current token, and the one after it.
ghost use Rattle.std.specs.Prelude.{◌≡◌, ◌<◌, true, false, [], ◌∷◌, None, Some, MatchOption, IsSome, ⊤, IsTrue, ◌↔◌, OnOk, OnErr};
ghost use Rattle.std.specs.Option.{option_copied};
ghost use Rattle.std.specs.Borrow.{sem, follows, follows_so};
ghost use mathlib.Core.Option.{none};
ghost use Rattle.swc_context.specs.declared.operator.BinOpToken.TheVariants.{LShift};
ghost use Rattle.swc_input.specs.Source.{HeldBack, Hinted, regexp, with_context};
ghost use Rattle.swc_input.specs.Buffer.{current, peeked, previous, last_position, source, held, token_of, state_of, to_come, with_current, with_source, cut, stored, fresh, Took, Read, Looked, Peeked, Bumped};
ghost use Rattle.swc_input.specs.Kinds.{at_token, is_word};
ghost use Rattle.swc_input.specs.declared.token.Token.TheVariants as tokens;
ghost use Rattle.swc_input.specs.{declared.token.Token.TheVariants.BinOp, declared.token.TokenAndSpan.TokenAndSpan, Plain.plain, contracts.buffer.Buffer.the_row};

use crate::token::{Token, TokenAndSpan};
use crate::tokens::Tokens;
use std::alloc::AllocError;
use swc_context::context::{Context, EsVersion, Syntax};
use swc_context::operator::BinOpToken;
use swc_context::span::{BytePos, Span};
use swc_context::word::Word;

/// A source, and the tokens that were taken from it ahead: the current one and, where it was peeked
/// at, the one after it.
///
/// A look at a token may take it from the source, but doesn't consume it. If it gives `None`, that is the end, or out
/// of memory where the source has `failed`; `Buffer::has_cur` tells these apart.
pub struct Buffer<I> {
    pub(crate) iter: I,
    /// The place of the token that was consumed last.
    pub(crate) prev_span: Span,
    pub(crate) cur: Option<TokenAndSpan>,
    pub(crate) next: Option<TokenAndSpan>,
}

// Not derived: so dropping a buffer is a call, and is proved here alone.
impl<I: Drop> Drop for Buffer<I> {
    fn drop(self) {
        let Buffer {
            iter: _,
            prev_span: _,
            cur: _,
            next: _,
        } = self;
    }
}

/// Puts a token in a place. (Dropping what was there has a case for each kind of token.)
#[inline(always)]
fn put(place: &mut Option<TokenAndSpan>, token: Option<TokenAndSpan>)
    ensures { place.new ≡ token }
{
    *place = token;
}

/// The word that the token is.
#[inline(always)]
fn word_in(token: Token) -> Word
    requires { is_word token ≡ true }
    ensures { tokens.Word result ≡ token }
{
    match token {
        Token::Word(word) => word,
        _ => unreachable!(),
    }
}

impl<I: Tokens> Buffer<I> {
    /// A buffer that consumed nothing; its previous span is empty, where the source begins. Takes no memory.
    pub fn new(input: I) -> Buffer<I>
        ensures { result ≡ fresh input (last_position result) }
    {
        let start = input.start_pos();
        Buffer {
            iter: input,
            prev_span: Span {
                lo: start,
                hi: start,
            },
            cur: None,
            next: None,
        }
    }

    /// The source.
    pub fn input(&mut self) -> &mut I
        ensures* lent { sem 𝓛 (follows (the_row I.row) I.row self.entry.ghost_name result.ghost_name
            (λ s. with_source s self.old)) }
        ensures value { result.now ≡ source self.old }
    {
        &mut self.iter
    }

    /// Makes this token the current one, with the span of the token consumed last and no line break before it.
    pub fn store(&mut self, token: Token)
        requires { held self.old ≡ [] }
        ensures { self.new ≡ with_current (stored token self.old) self.old }
    {
        let stored = TokenAndSpan {
            token,
            had_line_break: false,
            span: self.prev_span,
        };
        put(&mut self.cur, Some(stored));
    }

    /// The current token, where it is known already.
    pub fn cur_debug(&self) -> Option<&Token>
        ensures { option_copied result ≡ token_of (current self.now) }
    {
        match &self.cur {
            Some(token) => Some(&token.token),
            None => None,
        }
    }

    /// Consumes the current token.
    #[inline(never)]
    pub fn bump(&mut self) -> Token
        requires { IsSome (current self.old) }
        ensures { Bumped I.model self.old result self.new }
    {
        match self.cur.take() {
            Some(token) => {
                self.prev_span = token.span;
                token.token
            }
            None => unreachable!(),
        }
    }

    /// Consumes the current token, which is dropped where it lies.
    #[inline(always)]
    pub fn pass(&mut self)
        requires { IsSome (current self.old) }
        ensures passed { MatchOption (current self.old) ⊤ (λ t. Bumped I.model self.old t.token self.new) }
        ensures falls { to_come I.model self.new < to_come I.model self.old }
    {
        match &self.cur {
            Some(token) => self.prev_span = token.span,
            None => unreachable!(),
        }
        put(&mut self.cur, None);
    }

    /// Consumes the current word, and gives it.
    #[inline(always)]
    pub fn bump_word(&mut self) -> Word
        requires { at_token is_word (current self.old) ≡ true }
        ensures { Bumped I.model self.old (tokens.Word result) self.new }
    {
        match self.cur.take() {
            Some(found) => {
                self.prev_span = found.span;
                word_in(found.token)
            }
            None => unreachable!(),
        }
    }

    /// Whether the current token is known already.
    pub fn knows_cur(&self) -> bool
        ensures { IsTrue result ↔ IsSome (current self.now) }
    {
        self.cur.is_some()
    }

    #[inline(never)]
    fn fill_next(&mut self)
        requires { IsSome (current self.old) }
        ensures { Peeked I.model self.old self.new }
    {
        if self.next.is_none() {
            self.iter.fill(&mut self.next);
        }
    }

    /// The token after the current one.
    pub fn peek(&mut self) -> Option<&Token>
        requires { IsSome (current self.old) }
        ensures* { sem 𝓛 (follows_so (the_row I.row) (the_row I.row) self.entry.ghost_name none (λ _ _. ⊤)
            (λ v. Peeked I.model self.old v × (token_of (peeked v) ≡ option_copied result))) }
    {
        self.fill_next();
        match &self.next {
            Some(next) => Some(&next.token),
            None => None,
        }
    }

    /// Whether a line break is before the current token; true at the end.
    pub fn had_line_break_before_cur(&mut self) -> bool
        ensures looked { Looked I.model self.old self.new }
        ensures value { MatchOption (current self.new) (result ≡ true) (λ t. result ≡ t.had_line_break) }
    {
        self.fill();
        match &self.cur {
            Some(token) => token.had_line_break,
            None => true,
        }
    }

    /// Whether a line break is before the token after the current one; true where none is left.
    pub fn has_linebreak_between_cur_and_peeked(&mut self) -> bool
        requires { IsSome (current self.old) }
        ensures peeked { Peeked I.model self.old self.new }
        ensures value { MatchOption (peeked self.new) (result ≡ true) (λ t. result ≡ t.had_line_break) }
    {
        self.fill_next();
        match &self.next {
            Some(next) => next.had_line_break,
            None => true,
        }
    }

    /// Makes the current token known, if there is one.
    #[inline(always)]
    fn fill(&mut self)
        ensures { Looked I.model self.old self.new }
    {
        if self.cur.is_none() {
            self.fill_cur();
        }
    }

    /// Takes the token that was peeked at, or asks the source for one.
    #[inline(never)]
    fn fill_cur(&mut self)
        requires { current self.old ≡ None }
        ensures { Looked I.model self.old self.new }
    {
        if self.next.is_some() {
            let token = self.next.take();
            put(&mut self.cur, token);
            return;
        }
        self.iter.fill(&mut self.cur);
    }

    /// The current token.
    pub fn cur(&mut self) -> Option<&Token>
        ensures* { sem 𝓛 (follows_so (the_row I.row) (the_row I.row) self.entry.ghost_name none (λ _ _. ⊤)
            (λ v. Looked I.model self.old v × (token_of (current v) ≡ option_copied result))) }
    {
        self.fill();
        self.cur_debug()
    }

    /// Makes of the current `<<` a `<` that begins one byte later.
    pub fn cut_lshift(&mut self)
        requires { token_of (current self.old) ≡ Some (BinOp LShift) }
        ensures { MatchOption (current self.old) ⊤ (λ t. self.new ≡ with_current (cut t) self.old) }
    {
        let span = self.cur_span();
        let token = TokenAndSpan {
            token: Token::BinOp(BinOpToken::Lt),
            had_line_break: false,
            span: Span {
                lo: BytePos(span.lo.0.saturating_add(1)),
                hi: span.hi,
            },
        };
        put(&mut self.cur, Some(token));
    }

    /// Whether the current token is this one.
    pub fn is(&mut self, expected: &Token) -> bool
        ensures looked { Looked I.model self.old self.new }
        ensures is { MatchOption (current self.new) (result ≡ false)
            (λ t. result ≡ ⟦<Token as PartialEq>⟧.eq expected.now t.token) }
    {
        self.fill();
        match &self.cur {
            Some(token) => *expected == token.token,
            None => false,
        }
    }

    /// Consumes the current token if it is this one, and says whether it was.
    pub fn eat(&mut self, expected: &Token) -> bool
        ensures eaten { result ≡ true → (x : TokenAndSpan) × (⟦<Token as PartialEq>⟧.eq expected.now x.token ≡ true)
            × Read I.model self.old (plain x ∷ []) self.new × (previous self.new ≡ x.span) }
        ensures falls { result ≡ true → to_come I.model self.new < to_come I.model self.old }
        ensures stays { result ≡ false → Looked I.model self.old self.new
            × MatchOption (current self.new) ⊤ (λ t. ⟦<Token as PartialEq>⟧.eq expected.now t.token ≡ false) }
        ensures same { (here : Buffer I) × Looked I.model self.old here × (source self.new ≡ source here) }
    {
        let here = self.is(expected);
        if here {
            let _ = self.bump();
        }
        here
    }

    /// Where the current token begins, in bytes; at the end, where the token consumed last ends.
    pub fn cur_pos(&mut self) -> BytePos
        ensures looked { Looked I.model self.old self.new }
        ensures value { MatchOption (current self.new) (result ≡ last_position self.new) (λ t. result ≡ t.span.lo) }
    {
        self.fill();
        match &self.cur {
            Some(token) => token.span.lo,
            None => self.prev_span.hi,
        }
    }

    /// The place of the current token, where it is known already, or else of the token consumed last.
    pub fn cur_span(&self) -> Span
        ensures { MatchOption (current self.now) (result ≡ previous self.now) (λ t. result ≡ t.span) }
    {
        match &self.cur {
            Some(token) => token.span,
            None => self.prev_span,
        }
    }

    /// Where the token consumed last ends, in bytes.
    pub fn last_pos(&self) -> BytePos
        ensures { result ≡ last_position self.now }
    {
        self.prev_span.hi
    }

    /// The place of the token consumed last; in a new buffer it is empty, where the source begins.
    pub fn prev_span(&self) -> Span
        ensures { result ≡ previous self.now }
    {
        self.prev_span
    }

    /// The context of the source.
    pub fn get_ctx(&self) -> Context
        ensures { result ≡ (state_of I.model self.now).context }
    {
        self.iter.ctx()
    }

    /// Sets the context of the source; see `Tokens::set_ctx`. Refused only to a module, and then nothing changes.
    pub fn set_ctx(&mut self, ctx: Context) -> Result<(), AllocError>
        ensures took { Took I.model self.old [] self.new }
        ensures rest { self.new ≡ with_source (source self.new) self.old }
        ensures set { OnOk result (state_of I.model self.new ≡ with_context ctx (state_of I.model self.old)) }
        ensures unchanged { OnErr result (state_of I.model self.new ≡ state_of I.model self.old) }
        ensures refused { OnErr result (HeldBack ctx (state_of I.model self.old)) }
    {
        self.iter.set_ctx(ctx)
    }

    /// Which forms of the language are read.
    pub fn syntax(&self) -> Syntax
        ensures { result ≡ (state_of I.model self.now).syntax }
    {
        self.iter.syntax()
    }

    /// The edition of the standard.
    pub fn target(&self) -> EsVersion
        ensures { result ≡ (state_of I.model self.now).target }
    {
        self.iter.target()
    }

    /// Hints to a lexer that a regular expression begins at the slash that it gave last; see `Tokens::set_next_regexp`.
    pub fn set_next_regexp(&mut self, start: Option<BytePos>)
        ensures took { Took I.model self.old [] self.new }
        ensures rest { self.new ≡ with_source (source self.new) self.old }
        ensures state { Hinted start (state_of I.model self.old) (state_of I.model self.new) }
        ensures told { I.model.told (source self.old) (regexp start) (source self.new) }
    {
        self.iter.set_next_regexp(start);
    }

    /// Whether the source ran out of memory.
    pub fn failed(&self) -> bool
        ensures { result ≡ (state_of I.model self.now).failed }
    {
        self.iter.failed()
    }
}
