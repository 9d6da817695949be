//! White space, line terminators and comments (ECMA-262, 12.2 to 12.5).
ghost use Rattle.std.specs.Prelude.{◌≡◌, ◌+◌, ◌≤◌, ◌<◌, length, IfSome};
ghost use Rattle.swc_lexical.specs.Blanks as blanks;
ghost use Rattle.swc_lexical.specs.Chars as chars;
ghost use Rattle.swc_lexical.specs.Runs.{run};

use crate::bytes::{first_char, is_at, terminator_len};
use crate::comment::{block_len, line_len};

/// Whether the byte, which is ASCII, is white space.
fn is_plain(byte: u8) -> bool
    ensures { result ≡ blanks.is_plain byte }
{
    byte == b' ' || byte == b'\t' || byte == 11 || byte == 12
}

/// Whether the character is white space.
fn is_white_space(ch: char) -> bool
    ensures { result ≡ chars.is_white_space ch }
{
    ch == '\t'
        || ch == '\u{B}'
        || ch == '\u{C}'
        || ch == ' '
        || ch == '\u{A0}'
        || ch == '\u{FEFF}'
        || ch == '\u{1680}'
        || '\u{2000}' <= ch && ch <= '\u{200A}'
        || ch == '\u{202F}'
        || ch == '\u{205F}'
        || ch == '\u{3000}'
}

/// White space; 0 where none is here.
fn space_len(rest: &[u8]) -> usize
    ensures value { result ≡ blanks.space_len rest.now }
    ensures within { result ≤ length rest.now }
{
    match rest.get(0) {
        None => 0,
        Some(byte) if *byte < 128 => { if is_plain(*byte) { 1 } else { 0 } }
        Some(_) => match first_char(rest) {
            Some((ch, len)) if is_white_space(ch) => len,
            _ => 0,
        },
    }
}

/// How many bytes the comment takes that is here; 0 where none is, or its `*/` is missing.
pub fn comment_len(rest: &[u8]) -> usize
    ensures value { result ≡ blanks.comment_len rest.now }
    ensures within { result ≤ length rest.now }
{
    if is_at(rest, 0, b'/') && is_at(rest, 1, b'/') {
        2 + line_len(&rest[2..])
    } else if is_at(rest, 0, b'/') && is_at(rest, 1, b'*') {
        match block_len(&rest[2..]) {
            Some(len) => 2 + len,
            None => 0,
        }
    } else {
        0
    }
}

/// White space, a line terminator or a comment, where bytes are that may begin one.
fn some_blank_len(rest: &[u8]) -> usize
    ensures value { result ≡ blanks.blank_len rest.now }
    ensures within { result ≤ length rest.now }
{
    let spaces = space_len(rest);
    if 0 < spaces {
        return spaces;
    }
    let breaks = terminator_len(rest);
    if 0 < breaks {
        return breaks;
    }
    comment_len(rest)
}

/// How many bytes the white space, line terminator or comment takes that is here; 0 where none is.
pub fn blank_len(rest: &[u8]) -> usize
    ensures value { result ≡ blanks.blank_len rest.now }
    ensures within { result ≤ length rest.now }
{
    match rest.get(0) {
        None => 0,
        Some(b' ') => 1,
        Some(byte) if b' ' < *byte && *byte < 128 && *byte != b'/' => 0,
        Some(_) => some_blank_len(rest),
    }
}

/// How many bytes all blanks take that are here: white space, line terminators and comments.
#[tactic(auto, using(crate::proofs::Runs::RunsTo_begin))]
pub fn blanks_len(rest: &[u8]) -> usize
    ensures value { result ≡ blanks.blanks_len rest.now }
    ensures within { result ≤ length rest.now }
{
    let mut at = 0;
    while at < rest.len() {
        let len = blank_len(&rest[at..]);
        if len == 0 {
            return at;
        }
        at += len;
    }
    at
}

/// Whether a line break is among so many bytes.
pub fn has_break(rest: &[u8], len: usize) -> bool
    requires { len ≤ length rest.now }
    ensures { result ≡ blanks.has_break rest.now len }
{
    line_len(&rest[..len]) < len
}

/// `#!` and its line.
pub fn hashbang_len(rest: &[u8]) -> usize
    ensures value { result ≡ blanks.hashbang_len rest.now }
    ensures within { result ≤ length rest.now }
{
    if is_at(rest, 0, b'#') && is_at(rest, 1, b'!') {
        2 + line_len(&rest[2..])
    } else {
        0
    }
}
