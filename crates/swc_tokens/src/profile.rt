// Which lexemes (ECMA-262, 12) are read, and where those that aren't have their fault: after how many bytes.
ghost use Rattle.std.specs.Prelude.{◌≡◌, ◌+◌, ◌<◌, ◌≤◌, length, drop, take, false, Some, IfOk, IfErr, IsTrue};
ghost use Rattle.std.specs.List.{list_any};
ghost use Rattle.swc_lexical.specs.Templates as templates;
ghost use Rattle.swc_tokens.specs.Profile as profile;

use swc_lexical::blank::comment_len;
use swc_lexical::bytes::is_at;
use swc_lexical::lexeme::{Kind, lexeme};
use swc_lexical::number::{Base, number_len};
use swc_lexical::template::text_len;

/// Whether the byte is a line break (ECMA-262, 12.3).
pub(crate) fn is_line_break(byte: u8) -> bool
    ensures { result ≡ profile.is_line_break byte }
{
    matches!(byte, b'\n' | b'\r')
}

/// Whether a line break is among the bytes.
pub(crate) fn has_line_break(bytes: &[u8]) -> bool
    ensures { result ≡ list_any profile.is_line_break bytes.now }
{
    bytes.iter().any(|byte| is_line_break(*byte))
}

/// Whether this byte is among the bytes.
pub(crate) fn has(text: &[u8], byte: u8) -> bool
    ensures { result ≡ profile.has text.now byte }
{
    text.iter().any(|found| *found == byte)
}

/// How many bytes come before this one, or before the end.
fn len_before(text: &[u8], byte: u8) -> usize
    ensures { result ≤ length text.now }
{
    text.iter()
        .position(|found| *found == byte)
        .unwrap_or(text.len())
}

/// How many bytes come before a line break, or before the end.
fn line_len(text: &[u8]) -> usize
    ensures { result ≤ length text.now }
{
    text.iter()
        .position(|byte| is_line_break(*byte))
        .unwrap_or(text.len())
}

/// A blank byte or a comment; 0 where none is here.
fn blank_len(rest: &[u8]) -> usize
    ensures value { result ≡ profile.blank_len rest.now }
    ensures within { result ≤ length rest.now }
{
    match rest.get(0) {
        Some(b' ' | b'\n' | b'\r' | b'\t' | 0x0B | 0x0C) => 1,
        Some(b'/') => comment_len(rest),
        _ => 0,
    }
}

/// All blanks and comments that are here.

pub(crate) fn blanks_len(rest: &[u8]) -> usize
    ensures value { result ≡ profile.blanks_len rest.now }
    ensures within { result ≤ length rest.now }
{
    let mut at = 0;
    while at < rest.len() {
        let len = blank_len(&rest[at..]);
        if len == 0 {
            return at;
        }
        at += len;
    }
    at
}

/// Whether no escape begins with a backslash and this byte that is read.
fn is_refused(byte: u8) -> bool
    ensures { result ≡ profile.is_refused byte }
{
    matches!(byte, b'0'..=b'9' | b'x' | b'u' | b'\n' | b'\r')
}

/// Whether such an escape is here.
fn is_bad(rest: &[u8]) -> bool
    ensures { result ≡ profile.is_bad rest.now }
{
    match rest.get(1) {
        Some(byte) => is_at(rest, 0, b'\\') && is_refused(*byte),
        None => false,
    }
}

/// A byte, or an escape that is read; 0 where one is here that isn't.
fn piece_len(rest: &[u8]) -> usize
    ensures value { result ≡ profile.piece_len rest.now }
    ensures within { result ≤ length rest.now }
{
    if rest.is_empty() || is_bad(rest) {
        0
    } else if is_at(rest, 0, b'\\') && 1 < rest.len() {
        2
    } else {
        1
    }
}

/// How many bytes come before the first escape that isn't read, or before the end.

pub(crate) fn good_len(rest: &[u8]) -> usize
    ensures value { result ≡ profile.good_len rest.now }
    ensures within { result ≤ length rest.now }
{
    let mut at = 0;
    while at < rest.len() {
        let len = piece_len(&rest[at..]);
        if len == 0 {
            return at;
        }
        at += len;
    }
    at
}

/// Whether a digit comes after a leading 0.
fn is_long_zero(text: &[u8]) -> bool
    ensures { result ≡ profile.is_long_zero text.now }
{
    is_at(text, 0, b'0') && Base::Decimal.has_digit_at(text, 1)
}

/// Whether a lexeme of this kind is read.
fn is_read(kind: Kind, text: &[u8]) -> bool
    ensures { result ≡ profile.is_read kind text.now }
{
    match kind {
        Kind::Number | Kind::Big => !is_long_zero(text) && !has(text, b'_'),
        Kind::String => !has(text, b'\\') || good_len(text) == text.len(),
        _ => true,
    }
}

/// How far the fault of a number is that isn't read: at a `_`, at the letter of a base or an exponent without a digit
/// after it, or at what may not come after a number.
fn number_fault(rest: &[u8]) -> usize
    ensures { result ≤ length rest.now }
{
    if is_long_zero(rest) {
        return rest.len().min(1);
    }
    match number_len(rest) {
        None => rest
            .iter()
            .position(|byte| !byte.is_ascii_digit() && *byte != b'.')
            .unwrap_or(rest.len()),
        Some(len) => {
            let whole = len_before(&rest[..len], b'_');
            let is_big = is_at(rest, len, b'n') && lexeme(false, &rest[..len + 1]).is_some();
            if whole == len && is_big {
                len + 1
            } else {
                whole
            }
        }
    }
}

/// How far the fault is of what begins here, and isn't read.
fn fault_len(wants: bool, rest: &[u8]) -> usize
    ensures { result ≤ length rest.now }
{
    match rest.get(0) {
        Some(b'0'..=b'9' | b'.') => number_fault(rest),
        Some(b'\'' | b'"') => good_len(rest).min(line_len(rest)),
        Some(b'/') if wants => line_len(rest),
        _ => 0,
    }
}

/// The lexeme that begins here, and how many bytes it takes; or how far its fault is. `wants` says that a slash begins
/// a regular expression, and doesn't divide.
pub(crate) fn lexeme_here(wants: bool, rest: &[u8]) -> Result<(Kind, usize), usize>
    ensures read { IfOk result (λ found. profile.lexeme wants rest.now ≡ Some found) }
    ensures some { IfOk result (λ found. 0 < found.1) }
    ensures within { IfOk result (λ found. found.1 ≤ length rest.now) }
    ensures fault { IfErr result (λ far. far ≤ length rest.now) }
{
    match lexeme(wants, rest) {
        Some((kind, len)) if 0 < len && is_read(kind, &rest[..len]) => Ok((kind, len)),
        _ => Err(fault_len(wants, rest)),
    }
}

/// How many bytes the text of a template takes that begins here, or how far its fault is: a CR, or the end of the text.
pub(crate) fn text_here(rest: &[u8]) -> Result<usize, usize>
    ensures read { IfOk result (λ len. templates.text_len rest.now ≡ Some len) }
    ensures no_return { IfOk result (λ len. profile.has (take len rest.now) 13 ≡ false) }
    ensures within { IfOk result (λ len. len ≤ length rest.now) }
    ensures fault { IfErr result (λ far. far ≤ length rest.now) }
{
    match text_len(rest) {
        Some(len) if !has(&rest[..len], b'\r') => Ok(len),
        _ => Err(len_before(rest, b'\r')),
    }
}
