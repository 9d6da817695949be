// The reader finds the tokens of a text, one after the other.
ghost use Rattle.std.specs.Prelude.{◌≡◌, ◌↔◌, ◌+◌, ◌<◌, ◌≤◌, ◌^◌, length, drop, IsTrue, IsFalse, IsSome, IfOk, IfErr, IfSome, true, IfNone, OnOk, slice_range};
ghost use Rattle.std.specs.{List.list_any, Str.IsAscii};
ghost use Rattle.swc_tokens.specs.{Faults.IsByteFault, Faults.IsRefusal, Blanks.AreBlanks, Blanks.StandAt, Nesting.fits, Nesting.part_of, Reading.IsNext, Reading.Takes};
ghost use Rattle.swc_tokens.specs.Found.{made, sign_token, token_of, IsSpelled};
ghost use Rattle.swc_tokens.specs.Order.{is_error, is_free, is_text};
ghost use Rattle.swc_tokens.specs.Spelling.{EndsText, IsLexeme, IsName, Spells};
ghost use Rattle.swc_tokens.specs.Faults as faults;
ghost use Rattle.swc_tokens.specs.Blanks as blanks;
ghost use Rattle.swc_tokens.specs.Nesting as nesting;
ghost use Rattle.swc_tokens.specs.Profile as profile;
ghost use Rattle.swc_tokens.specs.Spelling as spelling;
ghost use Rattle.swc_lexical.specs.Meanings as meanings;
ghost use Rattle.swc_lexical.specs.declared.lexeme.Kind.TheVariants as kinds;

use crate::fault::{lex_fault, span};
use crate::found::{Found, Shape, Sign};
use crate::profile::{blanks_len, has_line_break, lexeme_here, text_here};
use crate::sign::{lone_sign, sign_of};
use crate::template::Next;
use std::str;
use swc_context::error::{Error, PResult};
use swc_context::span::Span;
use swc_context::word::Keyword;
use swc_lexical::bytes::is_at;
use swc_lexical::lexeme::Kind;
use swc_lexical::name::name_len;
use swc_lexical::quoted::body_len;
use swc_lexical::sign::sign_len;

/// A text, and how far it is read.
#[derive(Drop)]
pub(crate) struct Reader<'a> {
    pub(crate) text: &'a [u8],
    pub(crate) at: usize,
    ghost short: { length text.now < 2 ^ 32 },
    ghost ascii: { IsAscii text.now },
    ghost within: { at ≤ length text.now },
}

impl<'a> Reader<'a> {
    /// A reader at the text's beginning.
    pub(crate) fn new(text: &'a [u8]) -> Reader<'a>
        requires short { length text.now < 2 ^ 32 }
        requires ascii { IsAscii text.now }
        ensures text { result.text ≡ text.entry }
        ensures at { result.at ≡ 0 }
    {
        Reader { text, at: 0 }
    }

    /// The fault of the byte at this place; at the end of the text an empty span there.
    fn fault_at(&self, at: usize) -> Error
        requires { at ≤ length self.now.text.now }
        ensures { IsByteFault self.now.text.now result }
    {
        lex_fault(at, self.text.len().min(at + 1))
    }

    /// The fault of the end of what is read.
    pub(crate) fn fault(&self) -> Error
        ensures { IsByteFault self.now.text.now result }
    {
        self.fault_at(self.at)
    }

    /// Reads the next token, if there is one. `before` is the token before it.
    #[tactic(auto, using(crate::proofs::Blanks::AreBlanks_end))]
    pub(crate) fn read_next(&mut self, next: Next, before: Option<&Found>) -> PResult<Option<Found>>
        requires { next ≡ Next.Delimiter → EndsText self.old.text.now self.old.at }
        ensures text { self.new.text ≡ self.old.text }
        ensures refused { IfErr result (IsRefusal self.old.text.now) }
        ensures next { IfOk result (λ found. IfSome found (λ f.
            IsNext self.old.text.now self.old.at next (made self.old.text.now f) self.new.at)) }
        ensures rest { IfOk result
            (λ found. IfNone found (AreBlanks self.old.text.now self.old.at (length self.old.text.now))) }
        ensures closed { IfOk result (λ found. IfNone found (next ≡ Next.Token)) }
        ensures no_error { IfOk result
            (λ found. IfSome found (λ f. IsFalse (is_error (made self.old.text.now f).token))) }
        ensures first { IfOk result (λ found. IfSome found (λ f. IsTrue f.had_line_break → IsSome before.entry)) }
        ensures marks { IfOk result (λ found. IfSome found (λ f. IsSome before.entry
            → f.had_line_break ≡ blanks.has_line_break self.old.text.now self.old.at f.span.lo.0)) }
    {
        let end = self.at;
        self.skip_before(next)?;
        let line_break = self.has_line_break_from(end);
        let start = self.at;
        match self.read_here(next, before)? {
            None => Ok(None),
            Some(shape) => Ok(Some(Found {
                shape,
                had_line_break: line_break && before.is_some(),
                span: span(start, self.at),
            })),
        }
    }

    /// Whether a line break is among the bytes that are read from this position on.
    #[tactic(auto, using(crate::proofs::Blanks::has_line_break_none), unfolding(crate::specs::Blanks::has_line_break))]
    fn has_line_break_from(&self, start: usize) -> bool
        requires { start ≤ self.now.at }
        ensures { result ≡ blanks.has_line_break self.now.text.now start self.now.at }
    {
        start < self.at && has_line_break(&self.text[start..self.at])
    }

    /// Skips what is before that which is read next: blanks and comments, if it is a token.
    #[tactic(auto, using(crate::proofs::Blanks::AreBlanks_none))]
    fn skip_before(&mut self, next: Next) -> PResult<()>
        ensures text { self.new.text ≡ self.old.text }
        ensures refused { IfErr result (IsRefusal self.old.text.now) }
        ensures forward { OnOk result (self.old.at ≤ self.new.at) }
        ensures blanks { OnOk result (AreBlanks self.old.text.now self.old.at self.new.at) }
        ensures stays { next ≡ Next.Delimiter → self.new.at ≡ self.old.at }
    {
        match next {
            Next::Token => self.skip_blanks(),
            Next::Text | Next::Delimiter => Ok(()),
        }
    }

    /// Skips blanks and comments, where the byte that comes next may begin one.
    #[tactic(auto, using(crate::proofs::Blanks::AreBlanks_none))]
    fn skip_blanks(&mut self) -> PResult<()>
        ensures text { self.new.text ≡ self.old.text }
        ensures refused { IfErr result (IsRefusal self.old.text.now) }
        ensures forward { OnOk result (self.old.at ≤ self.new.at) }
        ensures blanks { OnOk result (AreBlanks self.old.text.now self.old.at self.new.at) }
    {
        match self.text.get(self.at) {
            Some(b' ' | b'\n' | b'\r' | b'\t' | 0x0B | 0x0C | b'/') => self.skip_run(),
            _ => Ok(()),
        }
    }

    /// Skips blanks and comments. A comment that is open is a fault at the end of the text.
    #[tactic(auto, using(crate::proofs::Blanks::AreBlanks_all))]
    fn skip_run(&mut self) -> PResult<()>
        ensures text { self.new.text ≡ self.old.text }
        ensures refused { IfErr result (IsRefusal self.old.text.now) }
        ensures forward { OnOk result (self.old.at ≤ self.new.at) }
        ensures blanks { OnOk result (AreBlanks self.old.text.now self.old.at self.new.at) }
    {
        self.at += blanks_len(&self.text[self.at..]);
        if is_at(self.text, self.at, b'/') && is_at(self.text, self.at + 1, b'*') {
            return Err(self.fault_at(self.text.len()));
        }
        Ok(())
    }

    /// Whether the two bytes come next.
    fn is_next(&self, first: u8, second: u8) -> bool
        ensures { IsTrue result ↔ StandAt self.now.text.now self.now.at first second }
    {
        match (
            self.text.get(self.at).copied(),
            self.text.get(self.at + 1).copied(),
        ) {
            (Some(left), Some(right)) => left == first && right == second,
            _ => false,
        }
    }

    /// Reads the token that begins here, unless the text ends.
    #[tactic(auto, using(crate::proofs::Reading::here))]
    fn read_here(&mut self, next: Next, before: Option<&Found>) -> PResult<Option<Shape>>
        requires { next ≡ Next.Delimiter → EndsText self.old.text.now self.old.at }
        ensures text { self.new.text ≡ self.old.text }
        ensures forward { OnOk result (self.old.at ≤ self.new.at) }
        ensures refused { IfErr result (IsRefusal self.old.text.now) }
        ensures takes { IfOk result (λ shape. IfSome shape
            (λ s. Takes next self.old.at self.new.at (token_of self.old.text.now self.old.at self.new.at s))) }
        ensures fits { IfOk result (λ shape. IfSome shape
            (λ s. IsTrue (fits next (part_of (token_of self.old.text.now self.old.at self.new.at s))))) }
        ensures closed { IfOk result (λ shape. IfNone shape (next ≡ Next.Token)) }
        ensures ends { IfOk result (λ shape. IfNone shape (length self.old.text.now ≤ self.old.at)) }
        ensures no_error { IfOk result (λ shape. IfSome shape
            (λ s. IsFalse (is_error (token_of self.old.text.now self.old.at self.new.at s)))) }
        ensures spells { IfOk result (λ shape. IfSome shape
            (λ s. IsSpelled self.old.text.now self.old.at self.new.at s)) }
    {
        match next {
            Next::Text => Ok(Some(self.read_text()?)),
            Next::Delimiter => Ok(Some(self.read_delimiter())),
            Next::Token => {
                if self.at == self.text.len() {
                    Ok(None)
                } else {
                    Ok(Some(self.read_token(before)?))
                }
            }
        }
    }

    /// The keyword at the place, if one is there.
    fn keyword_at(&self, place: Span) -> Option<Keyword> {
        let word = self.text.get(place.lo.0 as usize..place.hi.0 as usize)?;
        Keyword::from_text(str::from_utf8(word).ok()?)
    }

    /// Whether a slash after this token begins a regular expression, and doesn't divide.
    fn begins_regexp(&self, before: Option<&Found>) -> bool {
        match before {
            None => true,
            Some(
                Found {
                    shape: Shape::Word,
                    span,
                    ..
                },
            ) => match self.keyword_at(*span) {
                None => false,
                Some(keyword) => !matches!(keyword, Keyword::This | Keyword::Super),
            },
            Some(found) => !found.shape.ends_operand(),
        }
    }

    /// Whether a number, a string, a regular expression or a division may begin with the byte that comes next.
    fn begins_lexeme(&self) -> bool {
        match self.text.get(self.at) {
            Some(b'0'..=b'9' | b'\'' | b'"' | b'/') => true,
            Some(b'.') => matches!(self.text.get(self.at + 1), Some(b'0'..=b'9')),
            _ => false,
        }
    }

    /// Reads the token that begins here.
    #[tactic(auto, using(crate::proofs::Spelling::IsName_here))]
    fn read_token(&mut self, before: Option<&Found>) -> PResult<Shape>
        requires { self.old.at < length self.old.text.now }
        ensures text { self.new.text ≡ self.old.text }
        ensures forward { OnOk result (self.old.at < self.new.at) }
        ensures refused { IfErr result (IsRefusal self.old.text.now) }
        ensures free { IfOk result (λ s. IsTrue (is_free (token_of self.old.text.now self.old.at self.new.at s))) }
        ensures spells { IfOk result (λ s. IsSpelled self.old.text.now self.old.at self.new.at s) }
    {
        let name = name_len(&self.text[self.at..]);
        if 0 < name {
            return self.read_word(name);
        }
        if self.begins_lexeme() {
            self.read_lexeme(self.begins_regexp(before))
        } else {
            self.read_sign()
        }
    }

    /// Reads the word of so many bytes that is here (ECMA-262, 12.7).
    #[tactic(auto, unfolding(crate::specs::Found::token_of, crate::specs::Order::is_free, crate::specs::Spelling::Spells))]
    fn read_word(&mut self, len: usize) -> PResult<Shape>
        requires some { 0 < len }
        requires within { self.old.at + len ≤ length self.old.text.now }
        requires name { IsName self.old.text.now self.old.at (self.old.at + len) }
        ensures text { self.new.text ≡ self.old.text }
        ensures forward { OnOk result (self.old.at < self.new.at) }
        ensures refused { IfErr result (IsRefusal self.old.text.now) }
        ensures free { IfOk result (λ s. IsTrue (is_free (token_of self.old.text.now self.old.at self.new.at s))) }
        ensures spells { IfOk result (λ s. IsSpelled self.old.text.now self.old.at self.new.at s) }
    {
        self.at += len;
        Ok(Shape::Word)
    }

    /// Whether a sign may go on with the byte after that which comes next.
    fn goes_on(&self) -> bool {
        matches!(
            self.text.get(self.at + 1),
            Some(b'=' | b'>' | b'<' | b'&' | b'|' | b'+' | b'-' | b'*' | b'?' | b'.')
        )
    }

    /// The sign of one byte that is here, if no longer one is.
    fn lone_sign_here(&self) -> Option<Sign>
        requires { self.now.at < length self.now.text.now }
        ensures free { IfSome result (λ s. IsTrue (is_free (sign_token s))) }
        ensures spells { IfSome result (λ s. Spells self.now.text.now self.now.at (self.now.at + 1) (sign_token s)) }
    {
        lone_sign(self.text[self.at], self.goes_on())
    }

    /// Reads the sign that is here (ECMA-262, 12.8).
    #[tactic(auto, unfolding(crate::specs::Found::token_of))]
    fn read_sign(&mut self) -> PResult<Shape>
        requires { self.old.at < length self.old.text.now }
        ensures text { self.new.text ≡ self.old.text }
        ensures forward { OnOk result (self.old.at < self.new.at) }
        ensures refused { IfErr result (IsRefusal self.old.text.now) }
        ensures free { IfOk result (λ s. IsTrue (is_free (token_of self.old.text.now self.old.at self.new.at s))) }
        ensures spells { IfOk result (λ s. IsSpelled self.old.text.now self.old.at self.new.at s) }
    {
        if let Some(sign) = self.lone_sign_here() {
            self.at += 1;
            return Ok(Shape::Sign(sign));
        }
        let len = sign_len(&self.text[self.at..]);
        if len == 0 {
            return Err(self.fault());
        }
        let start = self.at;
        self.at += len;
        self.sign(start)
    }

    /// Reads the lexeme that is here, where a slash begins a regular expression or divides.
    #[tactic(auto, using(crate::proofs::Spelling::IsLexeme_here))]
    fn read_lexeme(&mut self, wants: bool) -> PResult<Shape>
        ensures text { self.new.text ≡ self.old.text }
        ensures forward { OnOk result (self.old.at < self.new.at) }
        ensures refused { IfErr result (IsRefusal self.old.text.now) }
        ensures free { IfOk result (λ s. IsTrue (is_free (token_of self.old.text.now self.old.at self.new.at s))) }
        ensures spells { IfOk result (λ s. IsSpelled self.old.text.now self.old.at self.new.at s) }
    {
        match lexeme_here(wants, &self.text[self.at..]) {
            Ok((kind, len)) => {
                let start = self.at;
                self.at += len;
                self.shape(kind, start)
            }
            Err(far) => Err(self.fault_at(self.at + far)),
        }
    }

    /// What the lexeme of this kind is from the place up to here.
    #[tactic(auto, unfolding(crate::specs::Found::token_of, crate::specs::Order::is_free, crate::specs::Spelling::Spells))]
    fn shape(&self, kind: Kind, start: usize) -> PResult<Shape>
        requires some { start < self.now.at }
        requires lexeme { IsLexeme kind self.now.text.now start self.now.at }
        ensures refused { IfErr result (IsRefusal self.now.text.now) }
        ensures free { IfOk result (λ s. IsTrue (is_free (token_of self.now.text.now start self.now.at s))) }
        ensures spells { IfOk result (λ s. IsSpelled self.now.text.now start self.now.at s) }
    {
        match kind {
            Kind::Number => Ok(Shape::Number),
            Kind::Big => Ok(Shape::Big),
            Kind::String => Ok(Shape::String),
            Kind::Regexp => self.regexp(start),
            Kind::Sign => self.sign(start),
            Kind::Word | Kind::Text => Err(self.fault()),
        }
    }

    /// The regular expression from the place up to here (ECMA-262, 12.9.5).
    #[tactic(auto, unfolding(crate::specs::Found::token_of, crate::specs::Order::is_free, crate::specs::Spelling::Spells))]
    fn regexp(&self, start: usize) -> PResult<Shape>
        requires some { start < self.now.at }
        requires lexeme { IsLexeme kinds.Regexp self.now.text.now start self.now.at }
        ensures refused { IfErr result (IsRefusal self.now.text.now) }
        ensures free { IfOk result (λ s. IsTrue (is_free (token_of self.now.text.now start self.now.at s))) }
        ensures spells { IfOk result (λ s. IsSpelled self.now.text.now start self.now.at s) }
    {
        let first = start + 1;
        match body_len(&self.text[first..self.at]) {
            Some(_) => Ok(Shape::Regexp),
            None => Err(self.fault()),
        }
    }

    /// The sign from the place up to here (ECMA-262, 12.8).
    #[tactic(auto, using(crate::proofs::Spelling::Spells_sign), unfolding(crate::specs::Found::token_of))]
    fn sign(&self, start: usize) -> PResult<Shape>
        requires some { start < self.now.at }
        ensures refused { IfErr result (IsRefusal self.now.text.now) }
        ensures free { IfOk result (λ s. IsTrue (is_free (token_of self.now.text.now start self.now.at s))) }
        ensures spells { IfOk result (λ s. IsSpelled self.now.text.now start self.now.at s) }
    {
        match sign_of(&self.text[start..self.at]) {
            Some(sign) => Ok(Shape::Sign(sign)),
            None => Err(self.fault()),
        }
    }

    /// Reads a text of a template, up to the `${` or the backquote that ends it.
    #[tactic(auto, using(crate::proofs::Spelling::IsTextBetween_here))]
    fn read_text(&mut self) -> PResult<Shape>
        ensures text { self.new.text ≡ self.old.text }
        ensures forward { self.old.at ≤ self.new.at }
        ensures refused { IfErr result (IsRefusal self.old.text.now) }
        ensures is_text { IfOk result (λ s. IsTrue (is_text (token_of self.old.text.now self.old.at self.new.at s))) }
        ensures spells { IfOk result (λ s. IsSpelled self.old.text.now self.old.at self.new.at s) }
    {
        match text_here(&self.text[self.at..]) {
            Ok(len) => {
                let start = self.at;
                self.at += len;
                self.text(start)
            }
            Err(far) => Err(self.fault_at(self.at + far)),
        }
    }

    /// The text of a template from the place up to here.
    #[tactic(auto, unfolding(crate::specs::Found::token_of, crate::specs::Order::is_text, crate::specs::Spelling::Spells))]
    fn text(&self, start: usize) -> PResult<Shape>
        requires order { start ≤ self.now.at }
        requires text { spelling.IsTextBetween self.now.text.now start self.now.at }
        ensures refused { IfErr result (IsRefusal self.now.text.now) }
        ensures is_text { IfOk result (λ s. IsTrue (is_text (token_of self.now.text.now start self.now.at s))) }
        ensures spells { IfOk result (λ s. IsSpelled self.now.text.now start self.now.at s) }
    {
        if !self.is_end() {
            return Err(self.fault_at(self.text.len()));
        }
        Ok(Shape::Text)
    }

    /// Whether `${` or a backquote comes next.
    fn is_end(&self) -> bool
        ensures { IsTrue result → EndsText self.now.text.now self.now.at }
    {
        self.is_next(b'$', b'{') || self.text.get(self.at).copied() == Some(b'`')
    }

    /// Reads the `${` or the backquote that ends a text.
    #[tactic(auto, unfolding(crate::specs::Found::token_of, crate::specs::Order::is_error))]
    fn read_delimiter(&mut self) -> Shape
        requires { EndsText self.old.text.now self.old.at }
        ensures text { self.new.text ≡ self.old.text }
        ensures forward { self.old.at < self.new.at }
        ensures fits { IsTrue (fits Next.Delimiter
            (nesting.part_of (token_of self.old.text.now self.old.at self.new.at result))) }
        ensures no_error { IsFalse (is_error (token_of self.old.text.now self.old.at self.new.at result)) }
        ensures spells { IsSpelled self.old.text.now self.old.at self.new.at result }
    {
        if self.is_next(b'$', b'{') {
            self.at += 2;
            return Shape::Sign(Sign::DollarLBrace);
        }
        self.at += 1;
        Shape::Sign(Sign::BackQuote)
    }
}
