//! The faults of strict code that tokens have: numbers and escapes of old scripts (ECMA-262, 12.9.3.1 and 12.9.4.1).
ghost use Rattle.std.specs.Prelude.{◌≡◌, ◌+◌, ◌++◌, ◌<◌, ◌≤◌, length, true, IfOk, OnOk, slice_get};
ghost use Rattle.swc_lexer.specs.Legacy as legacy;

use std::alloc::{AllocError, Global};
use swc_context::error::{Error, SyntaxError};
use swc_context::span::{BytePos, Span};
use swc_input::token::{Token, TokenAndSpan};
use swc_lexical::bytes::is_at;
use swc_lexical::escape::string_escape_len;
use swc_lexical::number::{Base, is_legacy, is_octal};
use swc_lexical::string::string_run;

/// Whether so many bytes after the first ones are in the span.
fn has_part(span: Span, offset: usize, len: usize) -> bool
    ensures value { result ≡ legacy.has_part span offset len }
    ensures within { result ≡ true → span.lo.0 + offset + len ≤ span.hi.0 }
{
    let (lo, hi) = (span.lo.0 as usize, span.hi.0 as usize);
    offset <= hi && len <= hi && lo + offset + len <= hi
}

/// So many bytes of a token, after its first ones; the whole token where it is shorter.
fn part_of(span: Span, offset: usize, len: usize) -> Span
    ensures { result ≡ legacy.part_of span offset len }
{
    let has = has_part(span, offset, len);
    if has {
        let lo = span.lo.0 + offset as u32;
        Span {
            lo: BytePos(lo),
            hi: BytePos(lo + len as u32),
        }
    } else {
        span
    }
}

/// The fault of a number.
fn in_number(span: Span, raw: &[u8]) -> Option<Error>
    ensures { result ≡ legacy.in_number span raw.now }
{
    if is_octal(raw) {
        Some(Error::new(span, SyntaxError::LegacyOctal))
    } else if is_legacy(raw) {
        Some(Error::new(span, SyntaxError::LegacyDecimal))
    } else {
        None
    }
}

/// The kind of an escape by digits.
fn kind_at(rest: &[u8]) -> SyntaxError
    ensures { result ≡ legacy.kind_at rest.now }
{
    if is_at(rest, 1, b'8') || is_at(rest, 1, b'9') {
        SyntaxError::LegacyDecimal
    } else {
        SyntaxError::LegacyOctal
    }
}

/// The fault of a string after so many bytes of it.
fn in_string_at(span: Span, len: usize, raw: &[u8]) -> Option<Error>
    requires { len ≤ length raw.now }
    ensures { result ≡ legacy.in_string_at span len raw.now }
{
    let escapes = is_at(raw, len, b'\\');
    if escapes && Base::Decimal.has_digit_at(raw, len + 1) {
        let rest = &raw[len..];
        let place = part_of(span, len, string_escape_len(rest));
        Some(Error::new(place, kind_at(rest)))
    } else {
        None
    }
}

/// The fault of a string, which is written so.
fn in_string(span: Span, raw: &[u8]) -> Option<Error>
    ensures { result ≡ legacy.in_string_by span (slice_get raw.now 0) raw.now }
{
    match raw.get(0) {
        None => None,
        Some(quote) => in_string_at(span, 1 + string_run(true, *quote, &raw[1..]), raw),
    }
}

/// The fault that the token has in strict code: a number as `010` or `08`, at its place, and the first escape by digits
/// of a string, as `\1` or `\8`, at the place of the escape. A template's text never has one.
pub fn legacy_fault(token: &TokenAndSpan) -> Option<Error>
    ensures { result ≡ legacy.legacy_of token.now }
{
    match &token.token {
        Token::Num { raw } => in_number(token.span, raw.as_str().as_bytes()),
        Token::Str { value: _, raw } => in_string(token.span, raw.as_str().as_bytes()),
        _ => None,
    }
}

/// Adds that fault, if the token has one.
fn push_fault(faults: &mut Vec<Error>, token: &TokenAndSpan) -> Result<(), AllocError>
    ensures { OnOk result (faults.new.items ≡ faults.old.items ++ legacy.fault_list (legacy.legacy_of token.now)) }
{
    match legacy_fault(token) {
        Some(fault) => faults.push(fault)?,
        None => {}
    }
    Ok(())
}

/// Those faults of all tokens, in their order. Whoever reads tokens from a list adds them to what is recorded where the
/// code is strict, or a module; `TextInput` records them itself. The only error is out of memory.
#[tactic(auto, using(crate::proofs::Faults::FaultsTo_begin))]
pub fn legacy_faults(alloc: Global, tokens: &[TokenAndSpan]) -> Result<Vec<Error>, AllocError>
    ensures { IfOk result (λ v. v.items ≡ legacy.legacy_faults tokens.now) }
{
    let mut faults = Vec::new(alloc);
    for token in tokens {
        push_fault(&mut faults, token)?;
    }
    Ok(faults)
}
