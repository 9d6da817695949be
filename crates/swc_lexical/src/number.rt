//! Numbers (ECMA-262, 12.9.3).
ghost use Rattle.std.specs.Prelude.{◌≡◌, ◌≤◌, ◌<◌, length, IfSome, slice_get, true, ◌+◌, ◌^◌};
ghost use Rattle.swc_lexical.specs.Numbers as numbers;
ghost use Rattle.swc_lexical.specs.Runs.{run, test_at};

use crate::bytes::is_at;

/// The base of a number's digits.
#[derive(Clone, Copy, PartialEq, Eq, Debug)]
pub enum Base {
    Binary,
    Octal,
    Decimal,
    Hexadecimal,
}

impl Base {
    /// Whether the byte is a digit of the base.
    pub fn has_digit(self, byte: u8) -> bool
        ensures { result ≡ numbers.is_digit self byte }
    {
        match self {
            Base::Binary => matches!(byte, b'0'..=b'1'),
            Base::Octal => matches!(byte, b'0'..=b'7'),
            Base::Decimal => byte.is_ascii_digit(),
            Base::Hexadecimal => byte.is_ascii_hexdigit(),
        }
    }

    /// Whether a digit of the base is there.
    pub fn has_digit_at(self, rest: &[u8], at: usize) -> bool
        ensures value { result ≡ test_at (numbers.is_digit self) rest.now at }
        ensures within { result ≡ true → at < length rest.now }
    {
        match rest.get(at) {
            Some(byte) => self.has_digit(*byte),
            None => false,
        }
    }
}

/// A digit, or `_` and a digit.
fn digit_len(base: Base, rest: &[u8]) -> usize
    ensures value { result ≡ numbers.digit_len base rest.now }
    ensures within { result ≤ length rest.now }
{
    if base.has_digit_at(rest, 0) {
        1
    } else if is_at(rest, 0, b'_') && base.has_digit_at(rest, 1) {
        2
    } else {
        0
    }
}

/// Digits, with a `_` between two of them or not.
pub fn digits_len(base: Base, rest: &[u8]) -> usize
    ensures value { result ≡ numbers.digits_len base rest.now }
    ensures within { result ≤ length rest.now }
{
    if base.has_digit_at(rest, 0) {
        digit_run(base, rest)
    } else {
        0
    }
}

/// Such digits, also after others.
#[tactic(auto, using(crate::proofs::Runs::RunsTo_begin))]
fn digit_run(base: Base, rest: &[u8]) -> usize
    ensures value { result ≡ run (numbers.digit_len base) rest.now }
    ensures within { result ≤ length rest.now }
{
    let mut at = 0;
    while at < rest.len() {
        let len = digit_len(base, &rest[at..]);
        if len == 0 {
            return at;
        }
        at += len;
    }
    at
}

/// So many bytes, and then some more.
fn then_some(before: usize, len: usize) -> Option<usize>
    requires { before + len < 2 ^ 63 }
    ensures value { result ≡ numbers.then_some before len }
    ensures sum { IfSome result (λ n. n ≡ before + len) }
{
    if len == 0 { None } else { Some(before + len) }
}

/// An exponent, or nothing; none where its letter has no digits after it.
fn exponent_len(rest: &[u8]) -> Option<usize>
    ensures value { result ≡ numbers.exponent_len rest.now }
    ensures within { IfSome result (λ len. len ≤ length rest.now) }
{
    if !is_at(rest, 0, b'e') && !is_at(rest, 0, b'E') {
        return Some(0);
    }
    if is_at(rest, 1, b'+') || is_at(rest, 1, b'-') {
        return then_some(2, digits_len(Base::Decimal, &rest[2..]));
    }
    then_some(1, digits_len(Base::Decimal, &rest[1..]))
}

/// A digit without `_`.
fn plain_digit_len(base: Base, rest: &[u8]) -> usize
    ensures value { result ≡ numbers.plain_digit_len base rest.now }
    ensures within { result ≤ length rest.now }
{
    if base.has_digit_at(rest, 0) { 1 } else { 0 }
}

/// Digits without `_`.
#[tactic(auto, using(crate::proofs::Runs::RunsTo_begin))]
fn plain_digits_len(base: Base, rest: &[u8]) -> usize
    ensures value { result ≡ numbers.plain_digits_len base rest.now }
    ensures within { result ≤ length rest.now }
{
    let mut at = 0;
    while at < rest.len() {
        let len = plain_digit_len(base, &rest[at..]);
        if len == 0 {
            return at;
        }
        at += len;
    }
    at
}

/// Whether a number of old scripts is here: a `0` and a digit.
pub fn is_legacy(rest: &[u8]) -> bool
    ensures { result ≡ numbers.is_legacy rest.now }
{
    is_at(rest, 0, b'0') && Base::Decimal.has_digit_at(rest, 1)
}

/// Whether such a number is here, of octal digits alone.
pub fn is_octal(rest: &[u8]) -> bool
    ensures { result ≡ numbers.is_octal rest.now }
{
    is_legacy(rest) && plain_digits_len(Base::Octal, rest) == plain_digits_len(Base::Decimal, rest)
}

/// What comes before the dot of a number without base letter.
pub(crate) fn whole_len(rest: &[u8]) -> usize
    ensures value { result ≡ numbers.whole_len rest.now }
    ensures within { result ≤ length rest.now }
{
    if is_legacy(rest) {
        plain_digits_len(Base::Decimal, rest)
    } else if is_at(rest, 0, b'0') {
        1
    } else {
        digits_len(Base::Decimal, rest)
    }
}

/// Of a number that has so many bytes before its dot: these and its fraction.
pub(crate) fn mantissa(whole: usize, rest: &[u8]) -> usize
    requires { whole ≤ length rest.now }
    ensures value { result ≡ numbers.mantissa whole rest.now }
    ensures within { result ≤ length rest.now }
{
    if is_at(rest, whole, b'.') {
        whole + 1 + digits_len(Base::Decimal, &rest[whole + 1..])
    } else {
        whole
    }
}

/// Such a number, with its fraction and exponent.
fn with_fraction(whole: usize, rest: &[u8]) -> Option<usize>
    requires { whole ≤ length rest.now }
    ensures value { result ≡ numbers.with_fraction whole rest.now }
    ensures within { IfSome result (λ len. len ≤ length rest.now) }
{
    let end = mantissa(whole, rest);
    Some(end + exponent_len(&rest[end..])?)
}

/// Whether `0b`, `0o` or `0x` is here.
pub(crate) fn has_base(rest: &[u8]) -> bool
    ensures value { result ≡ numbers.has_base rest.now }
    ensures within { result ≡ true → 2 ≤ length rest.now }
{
    is_at(rest, 0, b'0')
        && (is_at(rest, 1, b'b')
            || is_at(rest, 1, b'B')
            || is_at(rest, 1, b'o')
            || is_at(rest, 1, b'O')
            || is_at(rest, 1, b'x')
            || is_at(rest, 1, b'X'))
}

/// The base, by the letter after the `0`.
fn base_of(rest: &[u8]) -> Base
    ensures { result ≡ numbers.base_of rest.now }
{
    if is_at(rest, 1, b'b') || is_at(rest, 1, b'B') {
        Base::Binary
    } else if is_at(rest, 1, b'o') || is_at(rest, 1, b'O') {
        Base::Octal
    } else {
        Base::Hexadecimal
    }
}

/// Digits of the base, after a 0 and its letter.
fn in_base(base: Base, rest: &[u8]) -> Option<usize>
    requires { 2 ≤ length rest.now }
    ensures value { result ≡ numbers.in_base base rest.now }
    ensures within { IfSome result (λ len. len ≤ length rest.now) }
{
    then_some(2, digits_len(base, &rest[2..]))
}

/// How many bytes a number takes, without the `n` of a big one; `None` where a digit is missing after the letter of a
/// base or an exponent. A number of old scripts, as `010` and `08.5`, is one too.
pub fn number_len(rest: &[u8]) -> Option<usize>
    ensures value { result ≡ numbers.number_len rest.now }
    ensures within { IfSome result (λ len. len ≤ length rest.now) }
{
    let has_letter = has_base(rest);
    if has_letter {
        return in_base(base_of(rest), rest);
    }
    let whole = whole_len(rest);
    if is_octal(rest) {
        Some(whole)
    } else {
        with_fraction(whole, rest)
    }
}
