//! Comments (ECMA-262, 12.4).
ghost use Rattle.std.specs.Prelude.{◌≡◌, ◌≤◌, length, IfSome};
ghost use Rattle.swc_lexical.specs.Chars as chars;
ghost use Rattle.swc_lexical.specs.Comments as comments;
ghost use Rattle.swc_lexical.specs.Runs.{run};

use crate::bytes::{is_at, plain_len};

/// How many bytes come before a line terminator, or before the end.
#[tactic(auto, using(crate::proofs::Runs::RunsTo_begin))]
pub fn line_len(rest: &[u8]) -> usize
    ensures value { result ≡ run chars.plain_len rest.now }
    ensures within { result ≤ length rest.now }
{
    let mut at = 0;
    while at < rest.len() {
        let len = plain_len(&rest[at..]);
        if len == 0 {
            return at;
        }
        at += len;
    }
    at
}

/// A byte that no `*/` begins with.
fn in_block(rest: &[u8]) -> usize
    ensures value { result ≡ comments.in_block rest.now }
    ensures within { result ≤ length rest.now }
{
    if !rest.is_empty() && !(is_at(rest, 0, b'*') && is_at(rest, 1, b'/')) {
        1
    } else {
        0
    }
}

/// How many bytes come before `*/`, or before the end.
#[tactic(auto, using(crate::proofs::Runs::RunsTo_begin))]
fn block_text_len(rest: &[u8]) -> usize
    ensures value { result ≡ run comments.in_block rest.now }
    ensures within { result ≤ length rest.now }
{
    let mut at = 0;
    while at < rest.len() {
        let len = in_block(&rest[at..]);
        if len == 0 {
            return at;
        }
        at += len;
    }
    at
}

/// After `/*`: how many bytes a block comment takes with its `*/`.
pub fn block_len(rest: &[u8]) -> Option<usize>
    ensures value { result ≡ comments.block_len rest.now }
    ensures within { IfSome result (λ len. len ≤ length rest.now) }
{
    let len = block_text_len(rest);
    if is_at(rest, len + 1, b'/') {
        Some(len + 2)
    } else {
        None
    }
}
