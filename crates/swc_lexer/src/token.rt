//! The token that a lexeme is (ECMA-262, 12).
ghost use Rattle.std.specs.Prelude.{◌≡◌, ◌+◌, ◌≤◌, ◌<◌, ◌^◌, IfOk, length, drop, true};
ghost use Rattle.swc_lexical.specs.{Regexps.body_len, Runs.is_at};
ghost use Rattle.swc_input.specs.declared.token.Token.TheVariants as token;
ghost use Rattle.swc_lexer.specs.Tokens as tokens;
ghost use Rattle.swc_lexical.specs.Meanings as meanings;

use crate::sign::sign;
use std::alloc::{AllocError, Global};
use swc_context::atom::Atom;
use swc_context::error::{Error, SyntaxError};
use swc_context::span::{BytePos, Span};
use swc_context::word::Word;
use swc_input::token::Token;
use swc_lexical::bytes::is_at;
use swc_lexical::fault::bad_len;
use swc_lexical::lexeme::Kind;
use swc_lexical::meaning::meaning;
use swc_lexical::quoted::body_len;
use swc_lexical::template::good_len;

/// Whether a backslash is among the bytes.
fn has_escape(bytes: &[u8]) -> bool
    ensures { result ≡ tokens.has_escape bytes.now }
{
    bytes.iter().any(|byte| *byte == b'\\')
}

/// The word that is written with escapes: a name, or where a name is wanted any word.
fn escaped(named: bool, word: Word) -> Option<Token>
    ensures { result ≡ tokens.escaped named word }
{
    match word {
        Word::Ident(name) => Some(Token::Word(Word::Ident(name))),
        word if named => Some(Token::Word(word)),
        _ => None,
    }
}

/// A word (ECMA-262, 12.7).
fn word(alloc: Global, named: bool, text: &str) -> Result<Option<Token>, AllocError>
    ensures { IfOk result (λ o. o ≡ tokens.word_token named text.now) }
{
    if has_escape(text.as_bytes()) {
        let name = meaning(alloc, true, text.as_bytes())?;
        let word = Word::new(alloc, name.as_str())?;
        Ok(escaped(named, word))
    } else {
        Ok(Some(Token::Word(Word::new(alloc, text)?)))
    }
}

/// What the bytes mean, as an owned text.
fn meant(alloc: Global, cooks: bool, bytes: &[u8]) -> Result<Atom, AllocError>
    ensures { IfOk result (λ a. a ≡ meanings.meaning cooks bytes.now) }
{
    let value = meaning(alloc, cooks, bytes)?;
    Atom::new(alloc, value.as_str())
}

/// A string with its quotes (ECMA-262, 12.9.4).
#[inline(never)]
fn string(alloc: Global, text: &str) -> Result<Option<Token>, AllocError>
    ensures { IfOk result (λ o. o ≡ tokens.string_token text.now) }
{
    let bytes = text.as_bytes();
    if bytes.len() < 2 {
        return Ok(None);
    }
    let value = meant(alloc, true, &bytes[1..bytes.len() - 1])?;
    Ok(Some(Token::Str {
        value,
        raw: Atom::new(alloc, text)?,
    }))
}

/// The fault of a bad escape of so many bytes, at a place.
fn fault_at(at: usize, len: usize) -> Error
    requires { at + len < 2 ^ 32 }
    ensures { result ≡ tokens.fault_at at len }
{
    Error::new(
        Span {
            lo: BytePos(at as u32),
            hi: BytePos((at + len) as u32),
        },
        SyntaxError::BadCharacterEscapeSequence,
    )
}

/// What a text of a template means, or the fault at its first bad escape.
fn cooked(alloc: Global, at: usize, bytes: &[u8]) -> Result<Result<Atom, Error>, AllocError>
    requires { at + length bytes.now < 2 ^ 32 }
    ensures { IfOk result (λ c. c ≡ tokens.cooked at bytes.now) }
{
    let good = good_len(bytes);
    if good < bytes.len() {
        Ok(Err(fault_at(at + good, bad_len(&bytes[good..]))))
    } else {
        Ok(Ok(meant(alloc, true, bytes)?))
    }
}

/// A text of a template (ECMA-262, 12.9.6).
#[inline(never)]
fn template(alloc: Global, at: usize, bytes: &[u8]) -> Result<Option<Token>, AllocError>
    requires { at + length bytes.now < 2 ^ 32 }
    ensures { IfOk result (λ o. o ≡ tokens.template_token at bytes.now) }
{
    Ok(Some(Token::Template {
        raw: meant(alloc, false, bytes)?,
        cooked: cooked(alloc, at, bytes)?,
    }))
}

/// A regular expression, which begins with a slash (ECMA-262, 12.9.5).
#[inline(never)]
fn slashed(alloc: Global, text: &str) -> Result<Option<Token>, AllocError>
    requires some { 0 < length text.now }
    requires opens { is_at text.now 0 47 ≡ true }
    ensures { IfOk result (λ o. o ≡ tokens.regexp_of text.now (body_len (drop 1 text.now))) }
{
    let bytes = text.as_bytes();
    match body_len(&bytes[1..]) {
        None => Ok(None),
        Some(len) => {
            let closes = is_at(bytes, len + 1, b'/');
            if closes {
                let body = Atom::new(alloc, &text[1..len + 1])?;
                let flags = Atom::new(alloc, &text[len + 2..])?;
                Ok(Some(Token::Regex(body, flags)))
            } else {
                Ok(None)
            }
        }
    }
}

/// A regular expression with its flags.
fn regexp(alloc: Global, text: &str) -> Result<Option<Token>, AllocError>
    ensures { IfOk result (λ o. o ≡ tokens.regexp_token text.now) }
{
    let opens = is_at(text.as_bytes(), 0, b'/');
    if opens {
        slashed(alloc, text)
    } else {
        Ok(None)
    }
}

/// The token that begins at the place, of this kind, and is written so; none where none is. After `.` a word is a
/// name (`named`). The only error is out of memory.
pub fn token(
    alloc: Global,
    named: bool,
    kind: Kind,
    at: usize,
    text: &str,
) -> Result<Option<Token>, AllocError>
    requires { at + length text.now < 2 ^ 32 }
    ensures { IfOk result (λ o. o ≡ tokens.token_of named kind at text.now) }
{
    match kind {
        Kind::Word => word(alloc, named, text),
        Kind::Number => Ok(Some(Token::Num {
            raw: Atom::new(alloc, text)?,
        })),
        Kind::Big => Ok(Some(Token::BigInt {
            raw: Atom::new(alloc, text)?,
        })),
        Kind::String => string(alloc, text),
        Kind::Regexp => regexp(alloc, text),
        Kind::Sign => Ok(sign(text.as_bytes())),
        Kind::Text => template(alloc, at, text.as_bytes()),
    }
}
