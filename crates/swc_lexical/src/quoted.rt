//! Regular expressions (ECMA-262, 12.9.5).
ghost use Rattle.std.specs.Prelude.{◌≡◌, ◌+◌, ◌≤◌, ◌<◌, length, IfSome};
ghost use Rattle.swc_lexical.specs.Regexps as regexps;
ghost use Rattle.swc_lexical.specs.Runs.{run};

use crate::bytes::{is_at, plain_len};

/// A backslash, which is here, and such a byte.
fn backslash_len(rest: &[u8]) -> usize
    requires { 0 < length rest.now }
    ensures value { result ≡ regexps.backslash_len rest.now }
    ensures within { result ≤ length rest.now }
{
    if plain_len(&rest[1..]) == 0 { 0 } else { 2 }
}

/// What is in a class.
fn in_class(rest: &[u8]) -> usize
    ensures value { result ≡ regexps.in_class rest.now }
    ensures within { result ≤ length rest.now }
{
    if is_at(rest, 0, b']') {
        0
    } else if is_at(rest, 0, b'\\') {
        backslash_len(rest)
    } else {
        plain_len(rest)
    }
}

/// All that is in a class.
#[tactic(auto, using(crate::proofs::Runs::RunsTo_begin))]
fn class_text_len(rest: &[u8]) -> usize
    ensures value { result ≡ run regexps.in_class rest.now }
    ensures within { result ≤ length rest.now }
{
    let mut at = 0;
    while at < rest.len() {
        let len = in_class(&rest[at..]);
        if len == 0 {
            return at;
        }
        at += len;
    }
    at
}

/// A class, from `[` to its `]`.
fn class_len(rest: &[u8]) -> usize
    requires { 0 < length rest.now }
    ensures value { result ≡ regexps.class_len rest.now }
    ensures within { result ≤ length rest.now }
{
    let len = class_text_len(&rest[1..]);
    if is_at(rest, 1 + len, b']') {
        len + 2
    } else {
        0
    }
}

/// What is in a body.
fn in_body(rest: &[u8]) -> usize
    ensures value { result ≡ regexps.in_body rest.now }
    ensures within { result ≤ length rest.now }
{
    if is_at(rest, 0, b'/') {
        0
    } else if is_at(rest, 0, b'\\') {
        backslash_len(rest)
    } else if is_at(rest, 0, b'[') {
        class_len(rest)
    } else {
        plain_len(rest)
    }
}

/// All that is in a body.
#[tactic(auto, using(crate::proofs::Runs::RunsTo_begin))]
fn body_text_len(rest: &[u8]) -> usize
    ensures value { result ≡ run regexps.in_body rest.now }
    ensures within { result ≤ length rest.now }
{
    let mut at = 0;
    while at < rest.len() {
        let len = in_body(&rest[at..]);
        if len == 0 {
            return at;
        }
        at += len;
    }
    at
}

/// After the slash: how many bytes come before the second slash.
pub fn body_len(rest: &[u8]) -> Option<usize>
    ensures value { result ≡ regexps.body_len rest.now }
    ensures within { IfSome result (λ len. len < length rest.now) }
{
    let len = body_text_len(rest);
    if is_at(rest, len, b'/') {
        Some(len)
    } else {
        None
    }
}
