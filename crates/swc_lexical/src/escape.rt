//! Escapes (ECMA-262, 12.9.4 and 12.7).
ghost use Rattle.std.specs.Prelude.{◌≡◌, ◌+◌, ◌<◌, ◌≤◌, ◌^◌, length, IfSome, IsSome, ◌*◌, slice_get, drop};
ghost use Rattle.swc_lexical.specs.Escapes as escapes;
ghost use Rattle.swc_lexical.specs.Runs.{run};

use crate::bytes::{first_char, is_at, terminator_len};
use crate::number::Base;

/// What an escape means.
#[derive(Clone, Copy, PartialEq, Eq, Debug)]
pub enum Meaning {
    /// A code: of a character, or of half a pair by which UTF-16 writes one.
    Code(u32),
    /// Nothing: the line goes on.
    Nothing,
}

/// The value of a digit of base 16.
fn hex_value(byte: u8) -> Option<u32>
    ensures value { result ≡ escapes.hex_value byte }
    ensures small { IfSome result (λ n. n < 16) }
{
    if b'0' <= byte && byte <= b'9' {
        Some(u32::from(byte - b'0'))
    } else if b'a' <= byte && byte <= b'f' {
        Some(u32::from(byte - 87))
    } else if b'A' <= byte && byte <= b'F' {
        Some(u32::from(byte - 55))
    } else {
        None
    }
}

/// The value of the digit of base 16 that is there.
fn hex_at(rest: &[u8], at: usize) -> Option<u32>
    ensures value { result ≡ escapes.hex_at (slice_get rest.now at) }
    ensures small { IfSome result (λ n. n < 16) }
    ensures within { IfSome result (λ n. at < length rest.now) }
{
    match rest.get(at) {
        Some(byte) => hex_value(*byte),
        None => None,
    }
}

/// The value so far, with one digit more.
fn and_digit(value: Option<u32>, digit: Option<u32>) -> Option<u32>
    requires value { IfSome value (λ n. n < 2 ^ 24) }
    requires digit { IfSome digit (λ n. n < 16) }
    ensures value { result ≡ escapes.and_digit value digit }
    ensures small { IfSome result (λ n. IfSome value (λ v. n < 16 * v + 16)) }
    ensures both { IfSome result (λ n. IsSome value × IsSome digit) }
{
    match (value, digit) {
        (Some(value), Some(digit)) => Some(16 * value + digit),
        (Some(_), None) => None,
        (None, _) => None,
    }
}

/// The number that two digits write.
fn two_digits(rest: &[u8]) -> Option<u32>
    ensures value { result ≡ escapes.two_digits rest.now }
    ensures small { IfSome result (λ n. n < 256) }
    ensures within { IfSome result (λ n. 2 ≤ length rest.now) }
{
    and_digit(hex_at(rest, 0), hex_at(rest, 1))
}

/// The number that four digits write.
fn four_digits(rest: &[u8]) -> Option<u32>
    ensures value { result ≡ escapes.four_digits rest.now }
    ensures small { IfSome result (λ n. n < 65536) }
    ensures within { IfSome result (λ n. 4 ≤ length rest.now) }
{
    and_digit(
        and_digit(two_digits(rest), hex_at(rest, 2)),
        hex_at(rest, 3),
    )
}

/// A digit of base 16.
fn hex_digit_len(rest: &[u8]) -> usize
    ensures value { result ≡ escapes.hex_digit_len rest.now }
    ensures within { result ≤ length rest.now }
{
    match hex_at(rest, 0) {
        Some(_) => 1,
        None => 0,
    }
}

/// All such digits.
#[tactic(auto, using(crate::proofs::Runs::RunsTo_begin))]
pub(crate) fn hex_run(rest: &[u8]) -> usize
    ensures value { result ≡ run escapes.hex_digit_len rest.now }
    ensures within { result ≤ length rest.now }
{
    let mut at = 0;
    while at < rest.len() {
        let len = hex_digit_len(&rest[at..]);
        if len == 0 {
            return at;
        }
        at += len;
    }
    at
}

/// 16 times the value and the digit, or 0x110000 where that is no code.
fn capped(value: u32, digit: u32) -> u32
    requires value { value ≤ 0x110000 }
    requires digit { digit < 16 }
    ensures value { result ≡ escapes.capped value digit }
    ensures small { result ≤ 0x110000 }
{
    if 16 * value + digit <= 0x10_FFFF {
        16 * value + digit
    } else {
        0x11_0000
    }
}

/// The value of the digits that are here, or 0x110000 where they write no code.
#[tactic(auto, using(crate::proofs::Escapes::HexTo_begin))]
fn hex_number(rest: &[u8]) -> u32
    ensures value { result ≡ escapes.hex_from 0 rest.now }
    ensures small { result ≤ 0x110000 }
{
    let mut value = 0;
    let mut at = 0;
    while at < rest.len() {
        match hex_at(rest, at) {
            None => return value,
            Some(digit) => {
                value = capped(value, digit);
                at += 1;
            }
        }
    }
    value
}

/// After `{`: the code that digits write before `}`, and how many bytes they take with the brace.
fn in_braces(rest: &[u8]) -> Option<(u32, usize)>
    ensures value { result ≡ escapes.in_braces rest.now }
    ensures within { IfSome result (λ r. r.1 ≤ length rest.now) }
{
    let len = hex_run(rest);
    let code = hex_number(rest);
    if 0 < len && is_at(rest, len, b'}') && code <= 0x10_FFFF {
        Some((code, len + 1))
    } else {
        None
    }
}

/// After `\u`: a code, and how many bytes it takes.
pub fn unicode_escape(rest: &[u8]) -> Option<(u32, usize)>
    ensures value { result ≡ escapes.unicode_escape rest.now }
    ensures within { IfSome result (λ r. r.1 ≤ length rest.now) }
{
    if is_at(rest, 0, b'{') {
        match in_braces(&rest[1..]) {
            Some((code, len)) => Some((code, 1 + len)),
            None => None,
        }
    } else {
        match four_digits(rest) {
            Some(code) => Some((code, 4)),
            None => None,
        }
    }
}

/// What a letter means after a backslash that doesn't mean itself.
fn single(byte: u8) -> Option<u32>
    ensures { result ≡ escapes.single byte }
{
    if byte == b'n' {
        Some(10)
    } else if byte == b't' {
        Some(9)
    } else if byte == b'r' {
        Some(13)
    } else if byte == b'b' {
        Some(8)
    } else if byte == b'f' {
        Some(12)
    } else if byte == b'v' {
        Some(11)
    } else {
        None
    }
}

/// What such a letter means after the backslash that is here.
fn single_after(rest: &[u8]) -> Option<u32>
    ensures value { result ≡ escapes.single_at (slice_get rest.now 1) }
    ensures within { IfSome result (λ n. 1 < length rest.now) }
{
    match rest.get(1) {
        Some(byte) => single(*byte),
        None => None,
    }
}

/// An escape by number, or by one character, after the backslash that is here.
fn sign_escape(rest: &[u8]) -> Option<(Meaning, usize)>
    requires { 0 < length rest.now }
    ensures value { result ≡ escapes.sign_escape rest.now }
    ensures within { IfSome result (λ r. (0 < r.1) × (r.1 ≤ length rest.now)) }
{
    match single_after(rest) {
        Some(code) => Some((Meaning::Code(code), 2)),
        None => match first_char(&rest[1..]) {
            Some((ch, len)) => Some((Meaning::Code(u32::from(ch)), 1 + len)),
            None => None,
        },
    }
}

/// The escape of a template, or of a string in strict code, from its backslash on, and how many bytes it takes; none
/// where it is a bad one.
pub fn escape(rest: &[u8]) -> Option<(Meaning, usize)>
    requires { 0 < length rest.now }
    ensures value { result ≡ escapes.escape rest.now }
    ensures within { IfSome result (λ r. (0 < r.1) × (r.1 ≤ length rest.now)) }
{
    let breaks = terminator_len(&rest[1..]);
    if 0 < breaks {
        return Some((Meaning::Nothing, 1 + breaks));
    }
    if is_at(rest, 1, b'x') {
        return match two_digits(&rest[2..]) {
            Some(code) => Some((Meaning::Code(code), 4)),
            None => None,
        };
    }
    if is_at(rest, 1, b'u') {
        return match unicode_escape(&rest[2..]) {
            Some((code, len)) => Some((Meaning::Code(code), 2 + len)),
            None => None,
        };
    }
    if is_at(rest, 1, b'0') && !Base::Decimal.has_digit_at(rest, 2) {
        return Some((Meaning::Code(0), 2));
    }
    if Base::Decimal.has_digit_at(rest, 1) {
        return None;
    }
    sign_escape(rest)
}

/// The value of the digit of base 8 that is there.
fn octal_at(rest: &[u8], at: usize) -> Option<u32>
    ensures value { result ≡ escapes.octal_at (slice_get rest.now at) }
    ensures small { IfSome result (λ n. n < 8) }
    ensures within { IfSome result (λ n. at < length rest.now) }
{
    match rest.get(at) {
        Some(byte) if Base::Octal.has_digit(*byte) => Some(u32::from(*byte - b'0')),
        _ => None,
    }
}

/// The value and the length of an escape of two octal digits, and a third one where it is taken.
fn after_two(first: u32, second: u32, third: Option<u32>) -> (u32, usize)
    requires first { first < 8 }
    requires second { second < 8 }
    requires third { IfSome third (λ n. n < 8) }
    ensures { result ≡ escapes.after_two first second third }
{
    match third {
        Some(third) if first <= 3 => (64 * first + 8 * second + third, 4),
        _ => (8 * first + second, 3),
    }
}

/// The value and the length of an escape of an octal digit, after which more may come.
fn after_one(first: u32, rest: &[u8]) -> (u32, usize)
    requires digit { first < 8 }
    requires within { 1 < length rest.now }
    ensures value { result ≡ escapes.after_one first (escapes.octal_at (slice_get rest.now 2))
        (escapes.octal_at (slice_get rest.now 3)) }
    ensures within { result.1 ≤ length rest.now }
    ensures some { 0 < result.1 }
{
    let third = octal_at(rest, 3);
    match octal_at(rest, 2) {
        None => (first, 2),
        Some(second) => after_two(first, second, third),
    }
}

/// An escape by digits, as old scripts have them, from its backslash on, after which a digit comes.
pub fn legacy_escape(rest: &[u8]) -> Option<(Meaning, usize)>
    ensures value { result ≡ escapes.legacy_escape rest.now }
    ensures within { IfSome result (λ r. (0 < r.1) × (r.1 ≤ length rest.now)) }
{
    match octal_at(rest, 1) {
        Some(first) => {
            let (code, len) = after_one(first, rest);
            Some((Meaning::Code(code), len))
        }
        None => match rest.get(1) {
            Some(byte) => Some((Meaning::Code(u32::from(*byte)), 2)),
            None => None,
        },
    }
}

/// The escape of a string, from its backslash on, and how many bytes it takes; none where it is a bad one. Escapes by
/// digits, as old scripts have them, are good ones.
pub fn string_escape(rest: &[u8]) -> Option<(Meaning, usize)>
    requires { 0 < length rest.now }
    ensures value { result ≡ escapes.string_escape rest.now }
    ensures within { IfSome result (λ r. (0 < r.1) × (r.1 ≤ length rest.now)) }
{
    if Base::Decimal.has_digit_at(rest, 1) {
        legacy_escape(rest)
    } else {
        escape(rest)
    }
}

/// How many bytes the escape of a template takes; 0 where it is a bad one.
pub fn escape_len(rest: &[u8]) -> usize
    requires { 0 < length rest.now }
    ensures value { result ≡ escapes.escape_len rest.now }
    ensures within { result ≤ length rest.now }
{
    match escape(rest) {
        Some((_, len)) => len,
        None => 0,
    }
}

/// How many bytes the escape of a string takes; 0 where it is a bad one.
pub fn string_escape_len(rest: &[u8]) -> usize
    requires { 0 < length rest.now }
    ensures value { result ≡ escapes.string_escape_len rest.now }
    ensures within { result ≤ length rest.now }
{
    match string_escape(rest) {
        Some((_, len)) => len,
        None => 0,
    }
}
