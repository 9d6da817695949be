//! Reading a text, token by token.
ghost use Rattle.std.specs.Prelude.{◌≡◌, ◌+◌, ◌≤◌, ◌<◌, ◌^◌, length, drop, false, IfOk, IfSome, OnErr, OnOk, Some, None};
ghost use Rattle.swc_lexer.specs.Readings as readings;
ghost use Rattle.swc_lexer.specs.Stacks as stacks;
ghost use Rattle.swc_lexical.specs.Blanks.{blanks_len};
ghost use Rattle.swc_lexical.specs.Scans as scans;
ghost use Rattle.swc_lexical.specs.Templates as templates;

use crate::mark::mark_of;
use crate::place::{Kind, is_asking, is_dot};
use crate::sign::sign;
use crate::stack::{Stack, Start};
use crate::token::token;
use std::alloc::{AllocError, Global};
use swc_context::context::Context;
use swc_context::error::{Error, SyntaxError};
use swc_context::span::{BytePos, Span};
use swc_input::token::{Token, TokenAndSpan};
use swc_lexical::blank::{blanks_len, has_break, hashbang_len};
use swc_lexical::bytes::is_at;
use swc_lexical::fault::{Wrong, char_len, fault_of};
use swc_lexical::lexeme::Kind as Lexical;
use swc_lexical::scan::{Goal, Piece, piece_after};

/// The length of the longest text that can be read, in bytes.
pub const MAX_LEN: usize = 4_294_967_295;

/// Where a text ends.
#[derive(Clone, Copy)]
pub enum End {
    /// At its end.
    Whole,
    /// Before a `}` whose `{` isn't in the text, or at its end.
    BeforeBrace,
}

/// What comes next in a text.
#[derive(Clone, Copy)]
pub enum Here {
    /// Nothing.
    Over,
    /// Something that is no token.
    Fault,
    /// A token.
    Piece(Piece),
}

/// Whether the character at the place, of a text in UTF-8, begins there; also at the end.
fn is_edge(text: &[u8], at: usize) -> bool
    ensures { result ≡ readings.is_edge text.now at }
{
    match text.get(at) {
        Some(byte) => *byte < 128 || 192 <= *byte,
        None => at == text.len(),
    }
}

/// The text from the place on.
#[tactic(auto, using(crate::proofs::Readings::cut_is))]
pub(crate) fn rest_from(text: &[u8], at: usize) -> &[u8]
    requires { at ≤ length text.now }
    ensures { result.now ≡ drop at text.now }
{
    &text[at..]
}

/// Whether the token takes some of the text, or is the text of a template, which may be empty.
fn moves(piece: Piece) -> bool
    ensures { result ≡ readings.moves piece }
{
    0 < piece.len || matches!(piece.goal, Goal::Text)
}

/// Whether the token is a dot with blanks before it, where a `?` is before them: `?.` is written without.
fn gapes(asks: bool, piece: Piece, rest: &[u8]) -> bool
    ensures { result ≡ scans.gapes asks piece rest.now }
{
    let is_sign = matches!(piece.kind, Lexical::Sign);
    asks && 0 < piece.blanks && is_sign && piece.len == 1 && is_at(rest, piece.blanks, b'.')
}

/// Whether nothing but blanks is left, of which so many bytes are here, or the `}` before which the text ends.
fn is_over(end: End, stack: &Stack, goal: Goal, blanks: usize, rest: &[u8]) -> bool
    requires { blanks ≡ blanks_len rest.now }
    ensures { result ≡ readings.is_over end (stacks.state_of stack.now) goal rest.now }
{
    match goal {
        Goal::Text | Goal::Delimiter => false,
        _ => match end {
            End::Whole => blanks == rest.len(),
            End::BeforeBrace => {
                blanks == rest.len() || is_at(rest, blanks, b'}') && !stack.has_brace()
            }
        },
    }
}

/// The token that is here, by the goal, after so many bytes of blanks, or a fault.
fn piece_here(goal: Goal, asks: bool, blanks: usize, rest: &[u8]) -> Here
    requires within { blanks ≤ length rest.now }
    requires blanks { blanks ≡ blanks_len rest.now }
    ensures value { result ≡ readings.piece_here goal asks rest.now }
    ensures within { readings.IsWithin result (length rest.now) }
    ensures goal { readings.HasGoal result goal }
{
    match piece_after(goal, blanks, rest) {
        None => Here::Fault,
        Some(piece) => {
            if moves(piece) && !gapes(asks, piece, rest) {
                Here::Piece(piece)
            } else {
                Here::Fault
            }
        }
    }
}

/// Which goal of the lexical grammar comes next, after so many bytes of blanks.
fn goal_here(stack: &Stack, blanks: usize, rest: &[u8]) -> Goal
    requires within { blanks ≤ length rest.now }
    requires blanks { blanks ≡ blanks_len rest.now }
    ensures { result ≡ readings.goal_here (stacks.state_of stack.now) rest.now }
{
    stack.goal(has_break(rest, blanks))
}

/// What comes next.
fn what_comes(end: End, stack: &Stack, rest: &[u8]) -> Here
    ensures value { result ≡ readings.what_comes end (stacks.state_of stack.now) rest.now }
    ensures within { readings.IsWithin result (length rest.now) }
    ensures goal { readings.HasGoal result (readings.goal_here (stacks.state_of stack.now) rest.now) }
{
    let blanks = blanks_len(rest);
    let goal = goal_here(stack, blanks, rest);
    if is_over(end, stack, goal, blanks, rest) {
        return Here::Over;
    }
    piece_here(goal, is_asking(stack.place()), blanks, rest)
}

/// What is wrong, as the parser says it.
fn kind_of(wrong: Wrong) -> SyntaxError
    ensures { result ≡ readings.kind_of wrong }
{
    match wrong {
        Wrong::Comment => SyntaxError::UnterminatedBlockComment,
        Wrong::Regexp => SyntaxError::UnterminatedRegExp,
        Wrong::String => SyntaxError::UnterminatedStrLit,
        Wrong::Template => SyntaxError::UnterminatedTpl,
        Wrong::Name => SyntaxError::IdentAfterNum,
        Wrong::Digit => SyntaxError::ExpectedDigit,
        Wrong::Escape => SyntaxError::BadCharacterEscapeSequence,
        Wrong::Character => SyntaxError::UnexpectedChar,
    }
}

/// The token of a fault between two places.
fn fault_token(kind: SyntaxError, lo: usize, hi: usize) -> TokenAndSpan
    requires lo { lo < 2 ^ 32 }
    requires hi { hi < 2 ^ 32 }
    ensures { result ≡ readings.fault_token kind lo hi }
{
    let span = Span {
        lo: BytePos(lo as u32),
        hi: BytePos(hi as u32),
    };
    TokenAndSpan {
        token: Token::Error(Error::new(span, kind)),
        had_line_break: false,
        span,
    }
}

/// Where a fault begins: of a template that isn't closed before its text, with a backquote or a brace.
fn begins(goal: Goal, at: usize) -> usize
    ensures value { result ≡ readings.begins goal at }
    ensures within { result ≤ at }
{
    match goal {
        Goal::Text => at.saturating_sub(1),
        _ => at,
    }
}

/// The fault of what is here, which is no token.
fn fault_here(goal: Goal, text: &[u8], at: usize) -> TokenAndSpan
    requires small { length text.now < 2 ^ 32 }
    requires within { at ≤ length text.now }
    ensures { result ≡ readings.fault_here goal text.now at }
{
    let fault = fault_of(goal, rest_from(text, at));
    let lo = at + fault.offset;
    fault_token(kind_of(fault.wrong), begins(goal, lo), lo + fault.len)
}

/// The fault of a piece of so many bytes that is no token: a word with escapes that means a keyword, or a character.
fn fault_of_kind(kind: Lexical, at: usize, len: usize, text: &[u8]) -> TokenAndSpan
    requires small { length text.now < 2 ^ 32 }
    requires within { at + len ≤ length text.now }
    ensures { result ≡ readings.fault_of_kind kind at len text.now }
{
    match kind {
        Lexical::Word => fault_token(SyntaxError::EscapeInReservedWord, at, at + len),
        _ => fault_token(
            SyntaxError::UnexpectedChar,
            at,
            at + char_len(rest_from(text, at)),
        ),
    }
}

/// Which words are operators where a text begins: those of the function around it, and `await` in a module.
pub fn kind_in(context: Context) -> Kind
    ensures { result ≡ readings.kind_in context }
{
    Kind {
        awaits: context.in_async || context.module,
        yields: context.in_generator,
    }
}

/// How far a text was read.
#[derive(Drop)]
pub struct Reader {
    at: usize,
    stack: Stack,
    ended: bool,
}

impl Reader {
    /// A reader at the place in a text, after a hashbang at its beginning. Takes no memory.
    pub fn new(alloc: Global, text: &[u8], at: usize, start: Start, kind: Kind) -> Reader
        requires { at ≤ length text.now }
        ensures value { readings.reading_of result ≡ readings.first text.now at start kind }
        ensures within { result.at ≤ length text.now }
    {
        let begin = if at == 0 { hashbang_len(text) } else { at };
        Reader {
            at: begin,
            stack: Stack::new(alloc, start, kind),
            ended: false,
        }
    }

    /// How far the text was read, in bytes.
    pub fn at(&self) -> usize
        ensures { result ≡ self.now.at }
    {
        self.at
    }

    /// Whether the text of a template, or what ends it, comes next: so nothing there is a blank or a comment.
    pub fn is_in_template(&self) -> bool
        ensures { result ≡ readings.is_in_template (readings.reading_of self.now) }
    {
        matches!(self.stack.goal(false), Goal::Text | Goal::Delimiter)
    }

    /// Goes on at a place of the text, as if what is before it were blanks: an HTML-like comment (ECMA-262, B.1.1), say.
    pub fn skip_to(&mut self, text: &[u8], at: usize)
        requires { at ≤ length text.now }
        ensures value { readings.reading_of self.new ≡ readings.skipped at (readings.reading_of self.old) }
        ensures within { self.new.at ≤ length text.now }
    {
        self.at = at;
    }

    /// Goes on after a word of the text that was given as a fault, as after this token. The only error is out of memory,
    /// and then nothing changes.
    pub fn pass_word(
        &mut self,
        text: &[u8],
        token: Token,
        lo: usize,
        hi: usize,
    ) -> Result<TokenAndSpan, AllocError>
        requires small { length text.now < 2 ^ 32 }
        requires order { self.old.at ≤ lo }
        requires word { lo ≤ hi }
        requires end { hi ≤ length text.now }
        ensures value { OnOk result
            (readings.reading_of self.new ≡ readings.word_passed token lo hi text.now (readings.reading_of self.old)) }
        ensures within { OnOk result (self.new.at ≤ length text.now) }
        ensures unchanged { OnErr result (readings.reading_of self.new ≡ readings.reading_of self.old) }
    {
        let blanks = lo - self.at;
        let had_line_break = has_break(rest_from(text, self.at), blanks);
        self.stack
            .pass(mark_of(&token), blanks == 0, had_line_break)?;
        self.at = hi;
        self.ended = false;
        Ok(TokenAndSpan {
            token,
            had_line_break,
            span: Span {
                lo: BytePos(lo as u32),
                hi: BytePos(hi as u32),
            },
        })
    }

    /// Gives a fault, after which nothing comes.
    fn give_fault(&mut self, fault: TokenAndSpan) -> TokenAndSpan
        ensures given { result ≡ fault }
        ensures ended { readings.reading_of self.new ≡ readings.ended (readings.reading_of self.old) }
        ensures at { self.new.at ≡ self.old.at }
    {
        self.ended = true;
        fault
    }

    /// Gives the fault of the piece that comes next, which is no token.
    fn give_fault_of(&mut self, text: &[u8], piece: Piece) -> TokenAndSpan
        requires small { length text.now < 2 ^ 32 }
        requires within { self.old.at + piece.blanks + piece.len ≤ length text.now }
        ensures given { (result, readings.reading_of self.new)
            ≡ readings.given_of text.now (readings.reading_of self.old) piece None }
        ensures at { self.new.at ≡ self.old.at }
    {
        let fault = fault_of_kind(piece.kind, self.at + piece.blanks, piece.len, text);
        self.give_fault(fault)
    }

    /// Goes on after this token, which the piece that comes next is.
    #[inline(always)]
    fn go_on(
        &mut self,
        text: &[u8],
        piece: Piece,
        token: Token,
    ) -> Result<Option<TokenAndSpan>, AllocError>
        requires small { length text.now < 2 ^ 32 }
        requires within { self.old.at + piece.blanks + piece.len ≤ length text.now }
        ensures given { IfOk result (λ o. readings.AreGiven o (readings.reading_of self.new)
            (readings.given_of text.now (readings.reading_of self.old) piece
            (readings.placed self.old.at piece text.now (Some token)))) }
        ensures within { self.new.at ≤ length text.now }
        ensures unchanged { OnErr result (readings.reading_of self.new ≡ readings.reading_of self.old) }
    {
        let lo = self.at + piece.blanks;
        let hi = lo + piece.len;
        let had_line_break = has_break(rest_from(text, self.at), piece.blanks);
        self.stack
            .pass(mark_of(&token), piece.blanks == 0, had_line_break)?;
        self.at = hi;
        Ok(Some(TokenAndSpan {
            token,
            had_line_break,
            span: Span {
                lo: BytePos(lo as u32),
                hi: BytePos(hi as u32),
            },
        }))
    }

    /// Gives the token of the piece that comes next, or a fault. A sign takes no memory.
    fn give(
        &mut self,
        alloc: Global,
        text: &str,
        piece: Piece,
    ) -> Result<Option<TokenAndSpan>, AllocError>
        requires small { length text.now < 2 ^ 32 }
        requires within { self.old.at + piece.blanks + piece.len ≤ length text.now }
        ensures given { IfOk result (λ o. readings.AreGiven o (readings.reading_of self.new)
            (readings.given text.now (readings.reading_of self.old) piece)) }
        ensures within { self.new.at ≤ length text.now }
        ensures unchanged { OnErr result (readings.reading_of self.new ≡ readings.reading_of self.old) }
    {
        let bytes = text.as_bytes();
        let lo = self.at + piece.blanks;
        let hi = lo + piece.len;
        if !is_edge(bytes, lo) || !is_edge(bytes, hi) {
            return Ok(Some(self.give_fault_of(bytes, piece)));
        }
        if let Lexical::Sign = piece.kind {
            return match sign(&bytes[lo..hi]) {
                None => Ok(Some(self.give_fault_of(bytes, piece))),
                Some(token) => self.go_on(bytes, piece, token),
            };
        }
        let named = is_dot(self.stack.place());
        match token(alloc, named, piece.kind, lo, &text[lo..hi]) {
            Err(refused) => Err(refused),
            Ok(None) => Ok(Some(self.give_fault_of(bytes, piece))),
            Ok(Some(token)) => self.go_on(bytes, piece, token),
        }
    }

    /// Gives the fault that comes next.
    fn give_what_is_no_token(&mut self, text: &[u8]) -> TokenAndSpan
        requires small { length text.now < 2 ^ 32 }
        requires within { self.old.at ≤ length text.now }
        ensures given { (result, readings.reading_of self.new)
            ≡ readings.given_fault text.now (readings.reading_of self.old) }
        ensures at { self.new.at ≡ self.old.at }
    {
        let rest = rest_from(text, self.at);
        let goal = goal_here(&self.stack, blanks_len(rest), rest);
        let fault = fault_here(goal, text, self.at);
        self.give_fault(fault)
    }

    /// The next token of a text that isn't too long, and not ended.
    #[tactic(auto, using(crate::proofs::Readings::gives_piece, crate::proofs::Readings::gives_fault, crate::proofs::Readings::gives_over))]
    fn next_in(
        &mut self,
        alloc: Global,
        end: End,
        text: &str,
    ) -> Result<Option<TokenAndSpan>, AllocError>
        requires small { length text.now < 2 ^ 32 }
        requires within { self.old.at ≤ length text.now }
        requires runs { self.old.ended ≡ false }
        ensures given { IfOk result
            (λ o. readings.Gives end text.now (readings.reading_of self.old) o (readings.reading_of self.new)) }
        ensures within { self.new.at ≤ length text.now }
        ensures unchanged { OnErr result (readings.reading_of self.new ≡ readings.reading_of self.old) }
    {
        let bytes = text.as_bytes();
        let rest = rest_from(bytes, self.at);
        match what_comes(end, &self.stack, rest) {
            Here::Over => {
                self.ended = true;
                Ok(None)
            }
            Here::Fault => {
                let fault = self.give_what_is_no_token(bytes);
                Ok(Some(fault))
            }
            Here::Piece(piece) => self.give(alloc, text, piece),
        }
    }

    /// The next token of the text; none at its end. A fault is a token too, the last one. The only error is out of
    /// memory, and then nothing changes.
    #[tactic(auto, using(crate::proofs::Readings::gives_none, crate::proofs::Readings::gives_long))]
    pub fn next(
        &mut self,
        alloc: Global,
        end: End,
        text: &str,
    ) -> Result<Option<TokenAndSpan>, AllocError>
        requires { self.old.at ≤ length text.now }
        ensures given { IfOk result
            (λ o. readings.Gives end text.now (readings.reading_of self.old) o (readings.reading_of self.new)) }
        ensures within { self.new.at ≤ length text.now }
        ensures unchanged { OnErr result (readings.reading_of self.new ≡ readings.reading_of self.old) }
    {
        if self.ended {
            return Ok(None);
        }
        if text.len() > MAX_LEN {
            return Ok(Some(self.give_fault(fault_token(SyntaxError::Lex, 0, 0))));
        }
        self.next_in(alloc, end, text)
    }
}
