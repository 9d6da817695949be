//! The texts of templates (ECMA-262, 12.9.6).
ghost use Rattle.std.specs.Prelude.{◌≡◌, ◌+◌, ◌≤◌, ◌<◌, length, IfSome, IsTrue, true};
ghost use Rattle.swc_lexical.specs.Templates as templates;
ghost use Rattle.swc_lexical.specs.Runs.{run};

use crate::bytes::is_at;
use crate::escape::escape_len;

/// Whether a backquote or `${` is here.
pub(crate) fn is_end(rest: &[u8]) -> bool
    ensures { result ≡ templates.is_end rest.now }
{
    is_at(rest, 0, b'`') || is_at(rest, 0, b'$') && is_at(rest, 1, b'{')
}

/// A byte that stands for itself, where there is one.
fn one(rest: &[u8]) -> usize
    ensures value { result ≡ templates.one rest.now }
    ensures within { result ≤ length rest.now }
{
    if rest.is_empty() { 0 } else { 1 }
}

/// So many bytes, or a backslash and a byte where an escape is a bad one.
fn or_two(len: usize, rest: &[u8]) -> usize
    requires { len ≤ length rest.now }
    ensures value { result ≡ templates.or_two len rest.now }
    ensures within { result ≤ length rest.now }
{
    if 0 < len {
        len
    } else if 2 <= rest.len() {
        2
    } else {
        0
    }
}

/// A piece of a text, in which escapes may be bad ones.
fn in_text(rest: &[u8]) -> usize
    ensures value { result ≡ templates.in_text rest.now }
    ensures within { result ≤ length rest.now }
{
    if is_end(rest) {
        0
    } else if is_at(rest, 0, b'\\') {
        or_two(escape_len(rest), rest)
    } else {
        one(rest)
    }
}

/// A piece of a text without bad escapes.
fn in_good(rest: &[u8]) -> usize
    ensures value { result ≡ templates.in_good rest.now }
    ensures within { result ≤ length rest.now }
{
    if is_end(rest) {
        0
    } else if is_at(rest, 0, b'\\') {
        escape_len(rest)
    } else {
        one(rest)
    }
}

/// All that is in a text.
#[tactic(auto, using(crate::proofs::Runs::RunsTo_begin))]
fn text_run(rest: &[u8]) -> usize
    ensures value { result ≡ run templates.in_text rest.now }
    ensures within { result ≤ length rest.now }
{
    let mut at = 0;
    while at < rest.len() {
        let len = in_text(&rest[at..]);
        if len == 0 {
            return at;
        }
        at += len;
    }
    at
}

/// How many bytes come before the backquote or `${` that ends the text.
pub fn text_len(rest: &[u8]) -> Option<usize>
    ensures value { result ≡ templates.text_len rest.now }
    ensures within { IfSome result (λ len. len < length rest.now) }
{
    let len = text_run(rest);
    if len < rest.len() { Some(len) } else { None }
}

/// How many bytes come before the first bad escape, or before the end of the text.
#[tactic(auto, using(crate::proofs::Runs::RunsTo_begin))]
pub fn good_len(rest: &[u8]) -> usize
    ensures value { result ≡ templates.good_len rest.now }
    ensures within { result ≤ length rest.now }
{
    let mut at = 0;
    while at < rest.len() {
        let len = in_good(&rest[at..]);
        if len == 0 {
            return at;
        }
        at += len;
    }
    at
}
