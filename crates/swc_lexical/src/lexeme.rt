//! What begins at a place of a text (ECMA-262, 12).
ghost use Rattle.std.specs.Prelude.{◌≡◌, ◌+◌, ◌≤◌, ◌<◌, length, IfSome, true};
ghost use Rattle.swc_lexical.specs.Lexemes as lexemes;

use crate::bytes::is_at;
use crate::name::{more_run, starts_plain, written_begin_len, written_len};
use crate::number::{Base, digits_len, has_base, is_legacy, number_len};
use crate::quoted::body_len;
use crate::sign::sign_len;
use crate::string::string_len;

/// What a lexeme is.
#[derive(Clone, Copy, PartialEq, Eq, Debug)]
pub enum Kind {
    Word,
    Number,
    /// A number with its `n`
    Big,
    String,
    /// A regular expression with its flags
    Regexp,
    Sign,
    /// A text of a template
    Text,
}

/// So many bytes of a kind; none where there are none.
fn some_of(kind: Kind, len: usize) -> Option<(Kind, usize)>
    ensures value { result ≡ lexemes.some_of kind len }
    ensures len { IfSome result (λ r. (0 < r.1) × (r.1 ≤ len)) }
{
    if 0 < len { Some((kind, len)) } else { None }
}

/// Whether the number of so many bytes is an integer with `n` after it.
pub(crate) fn is_big(rest: &[u8], len: usize) -> bool
    ensures value { result ≡ lexemes.is_big rest.now len }
    ensures within { result ≡ true → len < length rest.now }
{
    is_at(rest, len, b'n')
        && !is_legacy(rest)
        && (has_base(rest) || digits_len(Base::Decimal, rest) == len)
}

/// A number of so many bytes, after which no digit and no name comes.
fn ended(kind: Kind, len: usize, rest: &[u8]) -> Option<(Kind, usize)>
    requires { len ≤ length rest.now }
    ensures value { result ≡ lexemes.ended kind len rest.now }
    ensures within { IfSome result (λ r. r.1 ≤ length rest.now) }
{
    if Base::Decimal.has_digit_at(rest, len) || 0 < written_begin_len(&rest[len..]) {
        None
    } else {
        Some((kind, len))
    }
}

fn number(rest: &[u8]) -> Option<(Kind, usize)>
    ensures value { result ≡ lexemes.number rest.now }
    ensures within { IfSome result (λ r. r.1 ≤ length rest.now) }
{
    match number_len(rest) {
        None => None,
        Some(len) => {
            if is_big(rest, len) {
                ended(Kind::Big, len + 1, rest)
            } else {
                ended(Kind::Number, len, rest)
            }
        }
    }
}

fn string(quote: u8, rest: &[u8]) -> Option<(Kind, usize)>
    requires { 0 < length rest.now }
    ensures value { result ≡ lexemes.string quote rest.now }
    ensures within { IfSome result (λ r. r.1 ≤ length rest.now) }
{
    match string_len(quote, &rest[1..]) {
        None => None,
        Some(len) => Some((Kind::String, len + 2)),
    }
}

fn regexp(rest: &[u8]) -> Option<(Kind, usize)>
    requires { 0 < length rest.now }
    ensures value { result ≡ lexemes.regexp rest.now }
    ensures within { IfSome result (λ r. r.1 ≤ length rest.now) }
{
    match body_len(&rest[1..]) {
        None => None,
        Some(len) => Some((Kind::Regexp, len + 2 + more_run(&rest[len + 2..]))),
    }
}

/// Whether a comment begins here, or a `#` without a name.
fn is_stray(rest: &[u8]) -> bool
    requires { 0 < length rest.now }
    ensures { result ≡ lexemes.is_stray rest.now }
{
    is_at(rest, 0, b'/') && (is_at(rest, 1, b'*') || is_at(rest, 1, b'/'))
        || is_at(rest, 0, b'#') && written_begin_len(&rest[1..]) == 0
}

/// Whether only a word may begin with the byte.
pub(crate) fn begins_word(byte: u8) -> bool
    ensures { result ≡ lexemes.begins_word byte }
{
    starts_plain(byte) || byte == b'\\' || 128 <= byte
}

/// What begins with this byte, which is here.
fn of_first(wants: bool, rest: &[u8], byte: u8) -> Option<(Kind, usize)>
    requires { 0 < length rest.now }
    ensures value { result ≡ lexemes.of_first wants rest.now byte }
    ensures within { IfSome result (λ r. r.1 ≤ length rest.now) }
{
    if begins_word(byte) {
        some_of(Kind::Word, written_len(rest))
    } else if byte.is_ascii_digit() || byte == b'.' && Base::Decimal.has_digit_at(rest, 1) {
        number(rest)
    } else if byte == b'"' || byte == b'\'' {
        string(byte, rest)
    } else if is_stray(rest) {
        None
    } else if byte == b'/' && wants {
        regexp(rest)
    } else {
        some_of(Kind::Sign, sign_len(rest))
    }
}

/// What begins here, and how many bytes it takes; `None` where nothing fits, and at the end. `wants` says that a slash
/// begins a regular expression; otherwise it divides.
pub fn lexeme(wants: bool, rest: &[u8]) -> Option<(Kind, usize)>
    ensures value { result ≡ lexemes.lexeme wants rest.now }
    ensures within { IfSome result (λ r. r.1 ≤ length rest.now) }
{
    match rest.get(0) {
        None => None,
        Some(byte) => of_first(wants, rest, *byte),
    }
}
