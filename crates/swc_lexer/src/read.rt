//! All tokens of a text.
ghost use Rattle.std.specs.Prelude.{◌≡◌, ◌≤◌, length, IfOk, IfErr, Err};
ghost use Rattle.std.specs.{Str.IsUtf8, Str.Lossy.utf8_valid_len};
ghost use Rattle.swc_lexer.specs.Covers as covers;
ghost use Rattle.swc_lexer.specs.Reads as reads;
ghost use Rattle.swc_lexer.specs.Readings as readings;

use crate::place::Kind;
use crate::reader::{End, MAX_LEN, Reader};
use crate::stack::Start;
use std::alloc::{AllocError, Global};
use swc_context::error::{Error, PResult, SyntaxError};
use swc_context::span::{BytePos, Span};
use swc_input::token::{Token, TokenAndSpan};

/// The error when out of memory, at 0..0.
pub fn out_of_memory() -> Error
    ensures { result ≡ reads.out_of_memory }
{
    let span = Span {
        lo: BytePos(0),
        hi: BytePos(0),
    };
    Error::new(span, SyntaxError::OutOfMemory)
}

/// The error that a token is, or the token.
fn checked(found: TokenAndSpan) -> Result<TokenAndSpan, Error>
    ensures token { IfOk result (λ t. (t ≡ found) × reads.IsClean t) }
    ensures fault { IfErr result (λ e. reads.IsError e found) }
{
    match found.token {
        Token::Error(error) => Err(error),
        token => Ok(TokenAndSpan { token, ..found }),
    }
}

/// The tokens still to come, or the first fault.
#[tactic(auto, using(crate::proofs::Sums::ReadTo_begin, crate::proofs::Sums::ReadTo_more, crate::proofs::Sums::ReadTo_over, crate::proofs::Sums::lower))]
fn read_all(
    alloc: Global,
    end: End,
    text: &str,
    reader: &mut Reader,
) -> Result<Result<Vec<TokenAndSpan>, Error>, AllocError>
    requires { reader.old.at ≤ length text.now }
    ensures { IfOk result
        (λ r. reads.Reads r (readings.tokens_from end text.now (readings.reading_of reader.old))) }
{
    let mut tokens = Vec::new(alloc);
    while let Some(found) = reader.next(alloc, end, text)? {
        match checked(found) {
            Ok(token) => tokens.push(token)?,
            Err(error) => return Ok(Err(error)),
        }
    }
    Ok(Ok(tokens))
}

/// The tokens of a text, as `read_text` gives them, with its first fault as an error token, the last. The only error is
/// out of memory.
#[tactic(auto, using(crate::proofs::Sums::ReadTo_begin, crate::proofs::Sums::ReadTo_more, crate::proofs::Sums::ReadTo_over, crate::proofs::Sums::lower))]
pub fn read_list(
    alloc: Global,
    text: &str,
    start: Start,
    end: End,
    kind: Kind,
) -> Result<Vec<TokenAndSpan>, AllocError>
    ensures { IfOk result (λ v. v.items ≡ readings.tokens_of end 0 start kind text.now) }
{
    let mut tokens = Vec::new(alloc);
    let mut reader = Reader::new(alloc, text.as_bytes(), 0, start, kind);
    while let Some(found) = reader.next(alloc, end, text)? {
        tokens.push(found)?;
    }
    Ok(tokens)
}

/// The tokens of a text (ECMA-262, 12), of a program or an expression, in a function of the kind. Between them are
/// white space, line terminators and comments alone (`comments_of` reads these). The error is the first fault of the
/// text, with its place; `Lex` at 0..0 if the text is longer than `MAX_LEN`; or `OutOfMemory` at 0..0. Numbers and
/// escapes of old scripts are read: `legacy_faults` has their faults.
pub fn read_text(
    alloc: Global,
    text: &str,
    start: Start,
    end: End,
    kind: Kind,
) -> PResult<Vec<TokenAndSpan>>
    ensures answers { reads.Answers result (readings.tokens_of end 0 start kind text.now) }
    ensures covers { IfOk result (λ v. covers.Covers end text.now (readings.begin text.now 0) v.items) }
{
    let mut reader = Reader::new(alloc, text.as_bytes(), 0, start, kind);
    match read_all(alloc, end, text, &mut reader) {
        Ok(answer) => answer,
        Err(_) => Err(out_of_memory()),
    }
}

/// The fault of bytes that are no UTF-8, the first of which is there.
fn bad_utf8(at: usize) -> Error
    ensures { result ≡ reads.bad_utf8 at }
{
    let lo = at.min(MAX_LEN - 1);
    let span = Span {
        lo: BytePos(lo as u32),
        hi: BytePos((lo + 1) as u32),
    };
    Error::new(span, SyntaxError::InvalidUtf8)
}

/// The tokens of a text in UTF-8, as `read_text` gives them. Bytes that are no UTF-8 refuse the text as `InvalidUtf8`,
/// at the first such byte.
pub fn read_bytes(
    alloc: Global,
    bytes: &[u8],
    start: Start,
    end: End,
    kind: Kind,
) -> PResult<Vec<TokenAndSpan>>
    ensures read { IsUtf8 bytes.now
        → reads.Answers result (readings.tokens_of end 0 start kind bytes.now) }
    ensures refused { (IsUtf8 bytes.now → ⊥) → result ≡ Err (reads.bad_utf8 (utf8_valid_len bytes.now)) }
{
    match str::from_utf8(bytes) {
        Ok(text) => read_text(alloc, text, start, end, kind),
        Err(error) => Err(bad_utf8(error.valid_up_to())),
    }
}
