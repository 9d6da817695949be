//! Signs (ECMA-262, 12.8): the longest.
ghost use Rattle.std.specs.Prelude.{◌≡◌, ◌≤◌, ◌+◌, length};
ghost use Rattle.swc_lexical.specs.Signs as signs;

use crate::bytes::is_at;

/// So many bytes, or the longer sign where `=` comes after them.
fn with_equal(rest: &[u8], len: usize, longer: usize) -> usize
    requires longer { longer ≤ len + 1 }
    requires within { len ≤ length rest.now }
    ensures value { result ≡ signs.with_equal rest.now len longer }
    ensures within { result ≤ length rest.now }
{
    if is_at(rest, len, b'=') { longer } else { len }
}

/// A byte with which no longer sign begins.
fn is_lone(b: u8) -> bool
    ensures { result ≡ signs.is_lone b }
{
    b == b'('
        || b == b')'
        || b == b'['
        || b == b']'
        || b == b'{'
        || b == b'}'
        || b == b';'
        || b == b','
        || b == b':'
        || b == b'`'
        || b == b'~'
        || b == b'#'
        || b == b'@'
}

fn is_single(b: u8) -> bool
    ensures { result ≡ signs.is_single b }
{
    b == b'/' || b == b'%' || b == b'^'
}

fn is_twice(b: u8) -> bool
    ensures { result ≡ signs.is_twice b }
{
    b == b'*' || b == b'<' || b == b'&' || b == b'|'
}

fn is_step(b: u8) -> bool
    ensures { result ≡ signs.is_step b }
{
    b == b'+' || b == b'-'
}

fn angle_len(rest: &[u8]) -> usize
    requires { 1 ≤ length rest.now }
    ensures value { result ≡ signs.angle_len rest.now }
    ensures within { result ≤ length rest.now }
{
    if is_at(rest, 1, b'>') {
        if is_at(rest, 2, b'>') {
            with_equal(rest, 3, 4)
        } else {
            with_equal(rest, 2, 3)
        }
    } else {
        with_equal(rest, 1, 2)
    }
}

/// The sign that begins with this byte, which is here.
fn sign_of(rest: &[u8], b: u8) -> usize
    requires { 1 ≤ length rest.now }
    ensures value { result ≡ signs.sign_of rest.now b }
    ensures within { result ≤ length rest.now }
{
    if is_lone(b) {
        1
    } else if b == b'.' {
        if is_at(rest, 1, b'.') && is_at(rest, 2, b'.') {
            3
        } else {
            1
        }
    } else if is_single(b) {
        with_equal(rest, 1, 2)
    } else if is_twice(b) {
        if is_at(rest, 1, b) {
            with_equal(rest, 2, 3)
        } else {
            with_equal(rest, 1, 2)
        }
    } else if is_step(b) {
        if is_at(rest, 1, b) {
            2
        } else {
            with_equal(rest, 1, 2)
        }
    } else if b == b'>' {
        angle_len(rest)
    } else if b == b'!' {
        if is_at(rest, 1, b'=') {
            with_equal(rest, 2, 3)
        } else {
            1
        }
    } else if b == b'=' {
        if is_at(rest, 1, b'>') {
            2
        } else if is_at(rest, 1, b'=') {
            with_equal(rest, 2, 3)
        } else {
            1
        }
    } else if b == b'?' {
        if is_at(rest, 1, b'?') {
            with_equal(rest, 2, 3)
        } else {
            1
        }
    } else {
        0
    }
}

/// How many bytes the longest sign takes that is here; 0 where none does.
pub fn sign_len(rest: &[u8]) -> usize
    ensures value { result ≡ signs.sign_len rest.now }
    ensures within { result ≤ length rest.now }
{
    match rest.get(0) {
        Some(byte) => sign_of(rest, *byte),
        None => 0,
    }
}
