// Tokens made of the text in which they were found.
ghost use Rattle.std.specs.Prelude.{◌≡◌, ◌-◌, ◌≤◌, ◌<◌, ◌^◌, length, slice_range, Some, IfOk, OnOk, OnErr};
ghost use Rattle.std.specs.Str.{IsAscii};
ghost use Rattle.swc_tokens.specs.Found.{made, token_of};
ghost use Rattle.swc_tokens.specs.Spelling as spelling;
ghost use Rattle.swc_tokens.specs.declared.found.Shape.TheVariants as shapes;

use crate::fault::lex_fault;
use crate::found::{Found, Shape};
use crate::profile::{good_len, has};
use std::alloc::{AllocError, Global};
use swc_context::atom::Atom;
use swc_context::error::Error;
use swc_context::word::Word;
use swc_input::token::{Token, TokenAndSpan};
use swc_lexical::meaning::meaning;
use swc_lexical::quoted::body_len;

/// A text in ASCII, of which tokens are made.
#[derive(Clone, Copy)]
pub(crate) struct Source<'a> {
    alloc: Global,
    text: &'a str,
    ghost short: { length text.now < 2 ^ 32 },
    ghost ascii: { IsAscii text.now },
}

impl<'a> Source<'a> {
    /// The text.
    pub(crate) fn new(alloc: Global, text: &'a str) -> Source<'a>
        requires short { length text.now < 2 ^ 32 }
        requires ascii { IsAscii text.now }
        ensures { result.text ≡ text.entry }
    {
        Source { alloc, text }
    }

    /// The text between two places, or as much of it as there is.
    fn piece(&self, low: usize, high: usize) -> &'a str
        ensures value { result.now ≡ slice_range self.now.text.now low high }
        ensures within { length result.now ≤ length self.now.text.now - low }
    {
        let high = high.min(self.text.len());
        if low < high {
            &self.text[low..high]
        } else {
            ""
        }
    }

    /// The text between two places, as an owned text.
    fn atom(&self, low: usize, high: usize) -> Result<Atom, AllocError>
        ensures { IfOk result (λ a. a ≡ slice_range self.now.text.now low high) }
    {
        Atom::new(self.alloc, self.piece(low, high))
    }

    /// What the text between two places means: itself, unless escapes are in it.
    fn meant(&self, low: usize, high: usize) -> Result<Atom, AllocError>
        ensures { IfOk result (λ a. a ≡ spelling.meant (slice_range self.now.text.now low high)) }
    {
        let text = self.piece(low, high);
        if has(text.as_bytes(), b'\\') {
            let value = meaning(self.alloc, true, text.as_bytes())?;
            Atom::new(self.alloc, value.as_str())
        } else {
            Atom::new(self.alloc, text)
        }
    }

    /// A word (ECMA-262, 12.7). One of a single byte is always a name.
    #[tactic(auto, using(crate::proofs::Spelling::word_of_one), unfolding(crate::specs::Found::token_of))]
    fn word(&self, low: usize, high: usize) -> Result<Token, AllocError>
        ensures { IfOk result (λ t. t ≡ token_of self.now.text.now low high shapes.Word) }
    {
        let text = self.piece(low, high);
        let word = if text.len() == 1 {
            Word::Ident(Atom::new(self.alloc, text)?)
        } else {
            Word::new(self.alloc, text)?
        };
        Ok(Token::Word(word))
    }

    /// A string with its quotes (ECMA-262, 12.9.4).
    #[tactic(auto, unfolding(crate::specs::Found::token_of))]
    fn string(&self, low: usize, high: usize) -> Result<Token, AllocError>
        requires { low < 2 ^ 32 }
        ensures { IfOk result (λ t. t ≡ token_of self.now.text.now low high shapes.String) }
    {
        let value = self.meant(low + 1, high.saturating_sub(1))?;
        let raw = self.atom(low, high)?;
        Ok(Token::Str { value, raw })
    }

    /// A regular expression with its flags (ECMA-262, 12.9.5).
    #[tactic(auto, unfolding(crate::specs::Found::token_of))]
    fn regexp(&self, low: usize, high: usize) -> Result<Token, AllocError>
        requires low { low < 2 ^ 32 }
        requires high { high < 2 ^ 32 }
        ensures { IfOk result (λ t. t ≡ token_of self.now.text.now low high shapes.Regexp) }
    {
        let first = low + 1;
        let last = match body_len(self.piece(first, high).as_bytes()) {
            Some(len) => first + len,
            None => high,
        };
        let body = self.atom(first, last)?;
        let flags = self.atom(last + 1, high)?;
        Ok(Token::Regex(body, flags))
    }

    /// What the text of a template means, or the fault of its first escape that isn't read.
    fn cooked(&self, low: usize, high: usize) -> Result<Result<Atom, Error>, AllocError>
        ensures { IfOk result (λ c. c ≡ spelling.cooked low (slice_range self.now.text.now low high)) }
    {
        let text = self.piece(low, high).as_bytes();
        let good = good_len(text);
        if good < text.len() {
            Ok(Err(lex_fault(low + good, low + good + 1)))
        } else {
            Ok(Ok(self.meant(low, high)?))
        }
    }

    /// The text of a template (ECMA-262, 12.9.6).
    #[tactic(auto, unfolding(crate::specs::Found::token_of))]
    fn template(&self, low: usize, high: usize) -> Result<Token, AllocError>
        ensures { IfOk result (λ t. t ≡ token_of self.now.text.now low high shapes.Text) }
    {
        let cooked = self.cooked(low, high)?;
        let raw = self.atom(low, high)?;
        Ok(Token::Template { raw, cooked })
    }

    /// The token of this shape between two places.
    #[tactic(auto, unfolding(crate::specs::Found::token_of))]
    fn token(&self, low: usize, high: usize, shape: Shape) -> Result<Token, AllocError>
        requires low { low < 2 ^ 32 }
        requires high { high < 2 ^ 32 }
        ensures { IfOk result (λ t. t ≡ token_of self.now.text.now low high shape) }
    {
        match shape {
            Shape::Word => self.word(low, high),
            Shape::Number => Ok(Token::Num {
                raw: self.atom(low, high)?,
            }),
            Shape::Big => Ok(Token::BigInt {
                raw: self.atom(low, high)?,
            }),
            Shape::String => self.string(low, high),
            Shape::Regexp => self.regexp(low, high),
            Shape::Text => self.template(low, high),
            Shape::Sign(sign) => Ok(sign.token()),
        }
    }

    /// The token that was found. The only error is out of memory.
    pub(crate) fn make(&self, found: Found) -> Result<TokenAndSpan, AllocError>
        ensures { IfOk result (λ t. t ≡ made self.now.text.now found) }
    {
        let (low, high) = (found.span.lo.0 as usize, found.span.hi.0 as usize);
        Ok(TokenAndSpan {
            token: self.token(low, high, found.shape)?,
            had_line_break: found.had_line_break,
            span: found.span,
        })
    }
    /// Puts the token that was found in a place. The only error is out of memory, and then nothing changes.
    #[inline(always)]
    #[tactic(auto, unfolding(crate::specs::Found::token_of))]
    pub(crate) fn put(
        &self,
        found: Found,
        place: &mut Option<TokenAndSpan>,
    ) -> Result<(), AllocError>
        ensures made { OnOk result (place.new ≡ Some (made self.now.text.now found)) }
        ensures unchanged { OnErr result (place.new ≡ place.old) }
    {
        match found.shape {
            Shape::Sign(sign) => put_found(place, found, sign.token()),
            Shape::Word => {
                let token = self.word(found.span.lo.0 as usize, found.span.hi.0 as usize)?;
                put_found(place, found, token);
            }
            _ => {
                let made = self.make(found)?;
                put(place, Some(made));
            }
        }
        Ok(())
    }
}

/// Puts a token in a place. (Dropping what was there has a case for each kind of token.)
#[inline(always)]
pub(crate) fn put(place: &mut Option<TokenAndSpan>, token: Option<TokenAndSpan>)
    ensures { place.new ≡ token }
{
    *place = token;
}

/// Puts the token in a place, where it was found.
#[inline(always)]
fn put_found(place: &mut Option<TokenAndSpan>, found: Found, token: Token)
    ensures { place.new ≡ Some (record { token = token; had_line_break = found.had_line_break; span = found.span }) }
{
    *place = Some(TokenAndSpan {
        token,
        had_line_break: found.had_line_break,
        span: found.span,
    });
}
