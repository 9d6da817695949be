//! What the texts of strings and templates mean (ECMA-262, 12.9.4.2 and 12.9.6.1).
ghost use Rattle.std.specs.Prelude.{◌≡◌, ◌+◌, ◌++◌, ◌≤◌, ◌<◌, length, IfSome, IfOk, OnOk, string_bytes};
ghost use Rattle.swc_lexical.specs.Meanings as meanings;

use crate::bytes::{first_char, is_at, terminator_len};
use crate::escape::{Meaning, string_escape};
use crate::name::scalar;
use std::alloc::{AllocError, Global};

fn is_high(code: u32) -> bool
    ensures { result ≡ meanings.is_high code }
{
    0xD800 <= code && code < 0xDC00
}

fn is_low(code: u32) -> bool
    ensures { result ≡ meanings.is_low code }
{
    0xDC00 <= code && code < 0xE000
}

/// What stands for a first half that no second half follows.
fn lost(half: Option<u32>, code: u32) -> Option<char>
    ensures { result ≡ meanings.lost half code }
{
    match half {
        None => None,
        Some(_) => { if is_low(code) { None } else { Some('\u{FFFD}') } }
    }
}

/// The character of a pair, or of a second half alone.
fn pair(half: Option<u32>, code: u32) -> Option<char>
    requires half { IfSome half (λ h. h < 0xE000) }
    requires code { code < 0xE000 }
    ensures { result ≡ meanings.pair half code }
{
    match half {
        None => Some('\u{FFFD}'),
        Some(high) => scalar((high * 1024 + code).saturating_sub(56_613_888)),
    }
}

/// The character of a code after a half or none.
fn char_of(half: Option<u32>, code: u32) -> Option<char>
    requires half { IfSome half (λ h. h < 0xE000) }
    ensures { result ≡ meanings.char_of half code }
{
    if is_low(code) {
        pair(half, code)
    } else {
        scalar(code)
    }
}

/// The half that is left after a meaning.
fn left(half: Option<u32>, found: Meaning) -> Option<u32>
    requires { IfSome half (λ h. h < 0xE000) }
    ensures value { result ≡ meanings.left half found }
    ensures small { IfSome result (λ h. h < 0xE000) }
{
    match found {
        Meaning::Nothing => half,
        Meaning::Code(code) => { if is_high(code) { Some(code) } else { None } }
    }
}

/// What the bytes begin with, and how many bytes it takes.
fn piece(cooks: bool, rest: &[u8]) -> (Meaning, usize)
    requires { 0 < length rest.now }
    ensures value { result ≡ meanings.piece cooks rest.now }
    ensures within { result.1 ≤ length rest.now }
    ensures some { 0 < result.1 }
{
    if cooks && is_at(rest, 0, b'\\') {
        return match string_escape(rest) {
            Some(found) => found,
            None => (Meaning::Nothing, 1),
        };
    }
    if is_at(rest, 0, b'\r') {
        return (Meaning::Code(10), terminator_len(rest));
    }
    match first_char(rest) {
        Some((ch, len)) => (Meaning::Code(u32::from(ch)), len),
        None => (Meaning::Nothing, 1),
    }
}

/// Adds the character, if there is one.
fn push_some(value: &mut String, ch: Option<char>) -> Result<(), AllocError>
    ensures { OnOk result (string_bytes value.new ≡ string_bytes value.old ++ meanings.text_of ch) }
{
    match ch {
        Some(ch) => value.push(ch),
        None => Ok(()),
    }
}

/// Adds what a meaning gives after a half or none.
fn push_meaning(value: &mut String, half: Option<u32>, found: Meaning) -> Result<(), AllocError>
    requires { IfSome half (λ h. h < 0xE000) }
    ensures { OnOk result (string_bytes value.new ≡ string_bytes value.old ++ meanings.given half found) }
{
    match found {
        Meaning::Nothing => Ok(()),
        Meaning::Code(code) => {
            push_some(value, lost(half, code))?;
            push_some(value, char_of(half, code))
        }
    }
}

/// What stands for a half at the end.
fn lone(half: Option<u32>) -> Option<char>
    ensures { result ≡ meanings.lone half }
{
    match half {
        None => None,
        Some(_) => Some('\u{FFFD}'),
    }
}

/// What a text means if `cooks`; otherwise how it is written, with an LF for each CR or CRLF. The only error is out of
/// memory.
#[tactic(auto, using(crate::proofs::Meanings::MeansTo_begin))]
pub fn meaning(alloc: Global, cooks: bool, text: &[u8]) -> Result<String, AllocError>
    ensures { IfOk result (λ value. string_bytes value ≡ meanings.meaning cooks text.now) }
{
    let mut value = String::new(alloc);
    let mut half = None;
    let mut at = 0;
    while at < text.len() {
        let (found, len) = piece(cooks, &text[at..]);
        push_meaning(&mut value, half, found)?;
        half = left(half, found);
        at += len;
    }
    let last = lone(half);
    push_some(&mut value, last)?;
    Ok(value)
}
