//! Strings (ECMA-262, 12.9.4).
ghost use Rattle.std.specs.Prelude.{◌≡◌, ◌+◌, ◌≤◌, ◌<◌, length, IfSome};
ghost use Rattle.swc_lexical.specs.Strings as strings;
ghost use Rattle.swc_lexical.specs.Runs.{run};

use crate::bytes::is_at;
use crate::escape::{escape_len, string_escape_len};

/// An escape: in strict code none by digits but `\0`.
fn escape_in(strict: bool, rest: &[u8]) -> usize
    requires { 0 < length rest.now }
    ensures value { result ≡ strings.escape_in strict rest.now }
    ensures within { result ≤ length rest.now }
{
    if strict {
        escape_len(rest)
    } else {
        string_escape_len(rest)
    }
}

/// A byte that stands for itself, or an escape.
fn in_string(strict: bool, quote: u8, rest: &[u8]) -> usize
    ensures value { result ≡ strings.in_string strict quote rest.now }
    ensures within { result ≤ length rest.now }
{
    if is_at(rest, 0, b'\\') {
        escape_in(strict, rest)
    } else if is_at(rest, 0, quote) || is_at(rest, 0, b'\n') || is_at(rest, 0, b'\r') {
        0
    } else if rest.is_empty() {
        0
    } else {
        1
    }
}

/// All that is in a string, up to a bad escape, in strict code or not.
#[tactic(auto, using(crate::proofs::Runs::RunsTo_begin))]
pub fn string_run(strict: bool, quote: u8, rest: &[u8]) -> usize
    ensures value { result ≡ run (strings.in_string strict quote) rest.now }
    ensures within { result ≤ length rest.now }
{
    let mut at = 0;
    while at < rest.len() {
        let len = in_string(strict, quote, &rest[at..]);
        if len == 0 {
            return at;
        }
        at += len;
    }
    at
}

/// After the quote: how many bytes come before the same quote.
pub fn string_len(quote: u8, rest: &[u8]) -> Option<usize>
    ensures value { result ≡ strings.string_len quote rest.now }
    ensures within { IfSome result (λ len. len < length rest.now) }
{
    let len = string_run(false, quote, rest);
    if is_at(rest, len, quote) {
        Some(len)
    } else {
        None
    }
}
