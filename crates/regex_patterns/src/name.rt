// Names of groups (ECMA-262, 22.2.1).
ghost use Rattle.std.specs.Prelude.{◌≡◌, ◌≤◌, ◌<◌, length, slice_get, IfSome, IfOk};
ghost use Rattle.std.specs.String.{string_bytes};
ghost use Rattle.swc_lexical.specs.Chars as chars;
ghost use Rattle.swc_lexical.specs.Runs.{run};
ghost use Rattle.swc_lexical.specs.Names as written;
ghost use Rattle.regex_patterns.specs.Names as names;

use crate::escape::{character_escape, joined};
use crate::signs::{is_at, tail};
use std::alloc::{AllocError, Global};
use swc_lexical::name::{continues_name, starts_name};

/// The character of a code that is no half.
fn with_scalar(code: u32, len: usize) -> Option<(char, usize)>
    ensures value { result ≡ written.scalar_of (Some (code, len)) }
    ensures len { IfSome result (λ r. r.1 ≡ len) }
{
    match char::from_u32(code) {
        Some(ch) => Some((ch, len)),
        None => None,
    }
}

/// A character by itself: one unit, or two halves.
fn plain(rest: &[u32]) -> Option<(u32, usize)>
    ensures value { result ≡ names.plain_of (slice_get rest.now 0) (slice_get rest.now 1) }
    ensures within { IfSome result (λ r. (0 < r.1) × (r.1 ≤ length rest.now)) }
{
    let high = match rest.get(0) {
        Some(high) => *high,
        None => return None,
    };
    let low = match rest.get(1) {
        Some(low) => *low,
        None => return Some((high, 1)),
    };
    match joined(high, low) {
        Some(character) => Some((character, 2)),
        None => Some((high, 1)),
    }
}

/// A character of a name, which may be an escape, and how many units it takes.
fn character(rest: &[u32]) -> Option<(char, usize)>
    ensures value { result ≡ names.character rest.now }
    ensures within { IfSome result (λ r. (0 < r.1) × (r.1 ≤ length rest.now)) }
{
    if is_at(rest, 0, '\\') {
        if !is_at(rest, 1, 'u') {
            return None;
        }
        return match character_escape(true, tail(rest, 2)) {
            Some((code, len)) => with_scalar(code, 2 + len),
            None => None,
        };
    }
    match plain(rest) {
        Some((code, len)) => with_scalar(code, len),
        None => None,
    }
}

/// How many units a character takes that begins a name; 0 where none does.
fn begin_len(rest: &[u32]) -> usize
    ensures value { result ≡ names.begin_len rest.now }
    ensures within { result ≤ length rest.now }
{
    match character(rest) {
        Some((ch, len)) if starts_name(ch) => len,
        _ => 0,
    }
}

/// How many units a character takes that goes on with a name; 0 where none does.
fn more_len(rest: &[u32]) -> usize
    ensures value { result ≡ names.more_len rest.now }
    ensures within { result ≤ length rest.now }
{
    match character(rest) {
        Some((ch, len)) if continues_name(ch) => len,
        _ => 0,
    }
}

/// All such characters.
#[tactic(auto, using(swc_lexical::proofs::Runs::RunsTo_begin))]
fn more_run(rest: &[u32]) -> usize
    ensures value { result ≡ run names.more_len rest.now }
    ensures within { result ≤ length rest.now }
{
    let mut at = 0;
    while at < rest.len() {
        let len = more_len(&rest[at..]);
        if len == 0 {
            return at;
        }
        at += len;
    }
    at
}

/// How many units a name takes with its `>`. None where no name is here.
pub(crate) fn name_len(rest: &[u32]) -> Option<usize>
    ensures value { result ≡ names.name_len rest.now }
    ensures within { IfSome result (λ n. n ≤ length rest.now) }
{
    let begin = begin_len(rest);
    if begin == 0 {
        return None;
    }
    let len = begin + more_run(tail(rest, begin));
    if is_at(rest, len, '>') {
        Some(len + 1)
    } else {
        None
    }
}

/// The name that is here, as long as it goes on. The only error is out of memory.
pub(crate) fn name(alloc: Global, rest: &[u32]) -> Result<String, AllocError>
    ensures { IfOk result (λ s. string_bytes s ≡ names.name rest.now) }
{
    let mut name = String::new(alloc);
    let mut at = 0;
    while at < rest.len() {
        match character(tail(rest, at)) {
            Some((ch, len)) if continues_name(ch) => {
                name.push(ch)?;
                at += len;
            }
            _ => return Ok(name),
        }
    }
    Ok(name)
}
