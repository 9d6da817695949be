//! Names (ECMA-262, 12.7).
ghost use Rattle.std.specs.Prelude.{◌≡◌, ◌+◌, ◌≤◌, ◌<◌, length, IfSome, IfOk};
ghost use Rattle.swc_lexical.specs.Chars as chars;
ghost use Rattle.swc_lexical.specs.PlainNames as names;
ghost use Rattle.swc_lexical.specs.Names as written;
ghost use Rattle.swc_lexical.specs.Runs.{run, test_at};

use crate::bytes::{first_char, is_at};
use crate::escape::unicode_escape;
use ucd_derived::{is_id_continue, is_id_start};

/// Whether a name may begin with the byte, which is ASCII.
pub fn starts_plain(byte: u8) -> bool
    ensures { result ≡ chars.starts_plain byte }
{
    byte.is_ascii_alphabetic() || byte == b'$' || byte == b'_'
}

/// Whether a name may go on with the byte, which is ASCII.
pub fn continues_plain(byte: u8) -> bool
    ensures { result ≡ chars.continues_plain byte }
{
    starts_plain(byte) || byte.is_ascii_digit()
}

/// Whether a name may begin with the character.
pub fn starts_name(ch: char) -> bool
    ensures { result ≡ chars.starts_name ch }
{
    ch == '$' || ch == '_' || is_id_start(ch)
}

/// Whether a name may go on with the character.
pub fn continues_name(ch: char) -> bool
    ensures { result ≡ chars.continues_name ch }
{
    ch == '$' || ch == '\u{200C}' || ch == '\u{200D}' || is_id_continue(ch)
}

/// What a name begins with; 0 where none does.
#[inline(always)]
fn begin_len(rest: &[u8]) -> usize
    ensures value { result ≡ names.begin_len rest.now }
    ensures within { result ≤ length rest.now }
{
    match rest.get(0) {
        None => 0,
        Some(byte) if *byte < 128 => { if starts_plain(*byte) { 1 } else { 0 } }
        Some(_) => match first_char(rest) {
            Some((ch, len)) if starts_name(ch) => len,
            _ => 0,
        },
    }
}

/// What a name goes on with; 0 where it ends.
#[inline(always)]
fn more_len(rest: &[u8]) -> usize
    ensures value { result ≡ names.more_len rest.now }
    ensures within { result ≤ length rest.now }
{
    match rest.get(0) {
        None => 0,
        Some(byte) if *byte < 128 => { if continues_plain(*byte) { 1 } else { 0 } }
        Some(_) => match first_char(rest) {
            Some((ch, len)) if continues_name(ch) => len,
            _ => 0,
        },
    }
}

/// All with which a name goes on.
#[tactic(auto, using(crate::proofs::Runs::RunsTo_begin))]
pub(crate) fn more_run(rest: &[u8]) -> usize
    ensures value { result ≡ run names.more_len rest.now }
    ensures within { result ≤ length rest.now }
{
    let mut at = 0;
    while at < rest.len() {
        let len = more_len(&rest[at..]);
        if len == 0 {
            return at;
        }
        at += len;
    }
    at
}

/// A name, as long as it goes on; 0 where none begins here.
pub fn name_len(rest: &[u8]) -> usize
    ensures value { result ≡ names.name_len rest.now }
    ensures within { result ≤ length rest.now }
{
    let begin = begin_len(rest);
    if begin == 0 {
        return 0;
    }
    begin + more_run(&rest[begin..])
}

/// The character of a code, which is no half of a pair.
pub(crate) fn scalar(code: u32) -> Option<char>
    ensures { result ≡ written.scalar code }
{
    if code < 0xD800 || 0xE000 <= code && code <= 0x10_FFFF {
        char::from_u32(code)
    } else {
        None
    }
}

/// An escape in a name, from its backslash on: a character, and how many bytes it takes.
pub fn name_escape(rest: &[u8]) -> Option<(char, usize)>
    ensures value { result ≡ written.name_escape rest.now }
    ensures within { IfSome result (λ r. r.1 ≤ length rest.now) }
{
    if !is_at(rest, 1, b'u') {
        return None;
    }
    match unicode_escape(&rest[2..]) {
        Some((code, len)) => match scalar(code) {
            Some(ch) => Some((ch, 2 + len)),
            None => None,
        },
        None => None,
    }
}

/// What a name begins with, which may be an escape; 0 where none does.
pub(crate) fn written_begin_len(rest: &[u8]) -> usize
    ensures value { result ≡ written.begin_len rest.now }
    ensures within { result ≤ length rest.now }
{
    match rest.get(0) {
        Some(byte) if starts_plain(*byte) => 1,
        Some(b'\\') => match name_escape(rest) {
            Some((ch, len)) if starts_name(ch) => len,
            _ => 0,
        },
        _ => begin_len(rest),
    }
}

/// What a name goes on with, which may be an escape; 0 where it ends.
fn written_more_len(rest: &[u8]) -> usize
    ensures value { result ≡ written.more_len rest.now }
    ensures within { result ≤ length rest.now }
{
    match rest.get(0) {
        Some(byte) if continues_plain(*byte) => 1,
        Some(b'\\') => match name_escape(rest) {
            Some((ch, len)) if continues_name(ch) => len,
            _ => 0,
        },
        _ => more_len(rest),
    }
}

/// All with which a name goes on.
#[tactic(auto, using(crate::proofs::Runs::RunsTo_begin))]
pub(crate) fn written_run(rest: &[u8]) -> usize
    ensures value { result ≡ run written.more_len rest.now }
    ensures within { result ≤ length rest.now }
{
    let mut at = 0;
    while at < rest.len() {
        let len = written_more_len(&rest[at..]);
        if len == 0 {
            return at;
        }
        at += len;
    }
    at
}

/// How many bytes the name takes that begins here, with escapes or not; 0 where none does.
pub fn written_len(rest: &[u8]) -> usize
    ensures value { result ≡ written.name_len rest.now }
    ensures within { result ≤ length rest.now }
{
    let begin = written_begin_len(rest);
    if begin == 0 {
        return 0;
    }
    begin + written_run(&rest[begin..])
}
