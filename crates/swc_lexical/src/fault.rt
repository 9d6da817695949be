//! What is wrong where no token begins (ECMA-262, 12).
ghost use Rattle.std.specs.Prelude.{◌≡◌, ◌+◌, ◌≤◌, ◌<◌, length, true};
ghost use Rattle.swc_lexical.specs.Faults as faults;
ghost use Rattle.swc_lexical.specs.Numbers as numbers;

use crate::blank::blanks_len;
use crate::bytes::{first_char, is_at};
use crate::comment::line_len;
use crate::escape::{escape_len, hex_run};
use crate::lexeme::begins_word;
use crate::name::written_run;
use crate::number::{Base, has_base, mantissa, number_len, whole_len};
use crate::scan::Goal;
use crate::string::string_run;

/// What is wrong.
#[derive(Clone, Copy, PartialEq, Eq, Debug)]
pub enum Wrong {
    /// A block comment that isn't closed.
    Comment,
    /// A regular expression that isn't closed.
    Regexp,
    /// A string that isn't closed.
    String,
    /// A template that isn't closed.
    Template,
    /// A name or a digit right after a number.
    Name,
    /// A digit is missing in a number.
    Digit,
    /// A bad escape.
    Escape,
    /// A character with which nothing begins.
    Character,
}

/// What is wrong, and where.
#[derive(Clone, Copy, PartialEq, Eq, Debug)]
pub struct Fault {
    pub wrong: Wrong,
    /// How many bytes after the place it begins.
    pub offset: usize,
    /// How many bytes it takes.
    pub len: usize,
}

/// A fault that begins so far after the place.
fn wrong_at(wrong: Wrong, offset: usize, len: usize) -> Fault
    ensures { result ≡ faults.wrong_at wrong offset len }
{
    Fault { wrong, offset, len }
}

/// How many bytes the character takes that is here.
pub fn char_len(rest: &[u8]) -> usize
    ensures value { result ≡ faults.char_len rest.now }
    ensures within { result ≤ length rest.now }
{
    match first_char(rest) {
        Some((_, len)) => len,
        None => 0,
    }
}

/// The character that is here.
fn character(rest: &[u8]) -> Fault
    ensures value { result ≡ faults.character rest.now }
    ensures within { result.offset + result.len ≤ length rest.now }
{
    wrong_at(Wrong::Character, 0, char_len(rest))
}

/// So many bytes, and the brace that is after them.
fn and_brace(len: usize, rest: &[u8]) -> usize
    requires { len ≤ length rest.now }
    ensures value { result ≡ faults.and_brace len rest.now }
    ensures within { result ≤ length rest.now }
{
    if is_at(rest, len, b'}') { len + 1 } else { len }
}

/// Whether `u{` comes after the byte that is here.
fn opens_brace(rest: &[u8]) -> bool
    ensures value { result ≡ faults.opens_brace rest.now }
    ensures within { result ≡ true → 2 < length rest.now }
{
    is_at(rest, 1, b'u') && is_at(rest, 2, b'{')
}

/// Whether digits are wanted right after the letter of the escape that is here.
fn wants_digits(rest: &[u8]) -> bool
    ensures value { result ≡ faults.wants_digits rest.now }
    ensures within { result ≡ true → 1 < length rest.now }
{
    is_at(rest, 1, b'u') || is_at(rest, 1, b'x')
}

/// So many bytes, and the digits of base 16 after them.
fn and_digits(len: usize, rest: &[u8]) -> usize
    requires { len ≤ length rest.now }
    ensures value { result ≡ faults.and_digits len rest.now }
    ensures within { result ≤ length rest.now }
{
    len + hex_run(&rest[len..])
}

/// A byte, and the character after it.
fn and_char(rest: &[u8]) -> usize
    requires { 0 < length rest.now }
    ensures value { result ≡ faults.and_char rest.now }
    ensures within { result ≤ length rest.now }
{
    1 + char_len(&rest[1..])
}

/// An escape that isn't well written: a backslash and a character, and digits that are wanted after it.
fn broken_len(rest: &[u8]) -> usize
    requires { 0 < length rest.now }
    ensures value { result ≡ faults.broken_len rest.now }
    ensures within { result ≤ length rest.now }
{
    if opens_brace(rest) {
        and_brace(and_digits(3, rest), rest)
    } else if wants_digits(rest) {
        and_digits(2, rest)
    } else {
        and_char(rest)
    }
}

/// How many bytes a bad escape takes, from its backslash on.
pub fn bad_len(rest: &[u8]) -> usize
    requires { 0 < length rest.now }
    ensures value { result ≡ faults.bad_len rest.now }
    ensures within { result ≤ length rest.now }
{
    let len = escape_len(rest);
    if 0 < len { len } else { broken_len(rest) }
}

/// Where a digit is wanted, after the letter of an exponent and its sign.
fn exponent_at(end: usize, rest: &[u8]) -> usize
    requires { end ≤ length rest.now }
    ensures value { result ≡ faults.exponent_at end rest.now }
    ensures within { result ≤ length rest.now }
{
    let has_letter = is_at(rest, end, b'e') || is_at(rest, end, b'E');
    if !has_letter {
        return end;
    }
    if is_at(rest, end + 1, b'+') || is_at(rest, end + 1, b'-') {
        end + 2
    } else {
        end + 1
    }
}

/// Up to where a digit is wanted in a number.
fn digit_at(rest: &[u8]) -> usize
    ensures value { result ≡ faults.digit_at rest.now }
    ensures within { result ≤ length rest.now }
{
    let has_letter = has_base(rest);
    if has_letter {
        return 2;
    }
    exponent_at(mantissa(whole_len(rest), rest), rest)
}

/// What is wrong after a number of so many bytes.
fn after_number(len: usize, rest: &[u8]) -> Fault
    requires { len ≤ length rest.now }
    ensures value { result ≡ faults.after_number len rest.now }
    ensures within { result.offset + result.len ≤ length rest.now }
{
    if is_at(rest, len, b'_') {
        wrong_at(Wrong::Digit, 0, len + 1)
    } else {
        wrong_at(Wrong::Name, 0, len + written_run(&rest[len..]))
    }
}

/// What is wrong with a number.
fn number(rest: &[u8]) -> Fault
    ensures value { result ≡ faults.number_of (numbers.number_len rest.now) rest.now }
    ensures within { result.offset + result.len ≤ length rest.now }
{
    match number_len(rest) {
        None => wrong_at(Wrong::Digit, 0, digit_at(rest)),
        Some(len) => after_number(len, rest),
    }
}

/// What is wrong with a string, at a backslash before which there are so many bytes of it.
fn string_escape(len: usize, rest: &[u8]) -> Fault
    requires { len < length rest.now }
    ensures value { result ≡ faults.string_escape len rest.now }
    ensures within { result.offset + result.len ≤ length rest.now }
{
    if len + 1 < rest.len() {
        wrong_at(Wrong::Escape, len, bad_len(&rest[len..]))
    } else {
        wrong_at(Wrong::String, 0, len + 1)
    }
}

/// What is wrong with a string that goes on for so many bytes.
fn string_at(len: usize, rest: &[u8]) -> Fault
    requires { len ≤ length rest.now }
    ensures value { result ≡ faults.string_at len rest.now }
    ensures within { result.offset + result.len ≤ length rest.now }
{
    if is_at(rest, len, b'\\') {
        string_escape(len, rest)
    } else {
        wrong_at(Wrong::String, 0, len)
    }
}

/// How far a string goes on, which begins with the quote.
fn string_end(quote: u8, rest: &[u8]) -> usize
    requires { 0 < length rest.now }
    ensures value { result ≡ faults.string_end quote rest.now }
    ensures within { result ≤ length rest.now }
{
    1 + string_run(false, quote, &rest[1..])
}

/// What is wrong with a string, which begins with the quote.
fn string(quote: u8, rest: &[u8]) -> Fault
    requires { 0 < length rest.now }
    ensures value { result ≡ faults.string quote rest.now }
    ensures within { result.offset + result.len ≤ length rest.now }
{
    string_at(string_end(quote, rest), rest)
}

/// What is wrong with a word: its first escape, or its first character.
fn word(rest: &[u8]) -> Fault
    requires { 0 < length rest.now }
    ensures value { result ≡ faults.word rest.now }
    ensures within { result.offset + result.len ≤ length rest.now }
{
    if is_at(rest, 0, b'\\') {
        wrong_at(Wrong::Escape, 0, bad_len(rest))
    } else {
        character(rest)
    }
}

/// Whether `/*` is here.
fn opens_comment(rest: &[u8]) -> bool
    ensures { result ≡ faults.opens_comment rest.now }
{
    is_at(rest, 0, b'/') && is_at(rest, 1, b'*')
}

/// What is wrong with a sign, a comment or a regular expression.
fn sign(wants: bool, rest: &[u8], byte: u8) -> Fault
    ensures value { result ≡ faults.sign wants rest.now byte }
    ensures within { result.offset + result.len ≤ length rest.now }
{
    if opens_comment(rest) {
        wrong_at(Wrong::Comment, 0, rest.len())
    } else if byte == b'/' && wants {
        wrong_at(Wrong::Regexp, 0, line_len(rest))
    } else {
        character(rest)
    }
}

/// Whether a number begins with this byte, which is here.
fn begins_number(rest: &[u8], byte: u8) -> bool
    ensures { result ≡ faults.begins_number rest.now byte }
{
    byte.is_ascii_digit() || byte == b'.' && Base::Decimal.has_digit_at(rest, 1)
}

/// Whether a string begins with this byte.
fn is_quote(byte: u8) -> bool
    ensures { result ≡ faults.is_quote byte }
{
    byte == b'"' || byte == b'\''
}

/// What is wrong with what begins with this byte, which is here.
fn of_first(wants: bool, rest: &[u8], byte: u8) -> Fault
    requires { 0 < length rest.now }
    ensures value { result ≡ faults.of_first wants rest.now byte }
    ensures within { result.offset + result.len ≤ length rest.now }
{
    if begins_word(byte) {
        word(rest)
    } else if begins_number(rest, byte) {
        number(rest)
    } else if is_quote(byte) {
        string(byte, rest)
    } else {
        sign(wants, rest, byte)
    }
}

/// What is wrong here, where no blank is.
fn fault_after(wants: bool, rest: &[u8]) -> Fault
    ensures value { result ≡ faults.fault_after wants rest.now }
    ensures within { result.offset + result.len ≤ length rest.now }
{
    match rest.get(0) {
        None => character(rest),
        Some(byte) => of_first(wants, rest, *byte),
    }
}

/// What is wrong after blanks.
fn in_code(wants: bool, rest: &[u8]) -> Fault
    ensures value { result ≡ faults.in_code wants rest.now }
    ensures within { result.offset + result.len ≤ length rest.now }
{
    let blanks = blanks_len(rest);
    let found = fault_after(wants, &rest[blanks..]);
    Fault {
        offset: blanks + found.offset,
        ..found
    }
}

/// What is wrong here, by the goal, where no token begins. Of a template's text that isn't closed it is all that is
/// left.
pub fn fault_of(goal: Goal, rest: &[u8]) -> Fault
    ensures value { result ≡ faults.fault_of goal rest.now }
    ensures within { result.offset + result.len ≤ length rest.now }
{
    match goal {
        Goal::Div => in_code(false, rest),
        Goal::RegExp => in_code(true, rest),
        Goal::Text => wrong_at(Wrong::Template, 0, rest.len()),
        Goal::Delimiter => character(rest),
    }
}
