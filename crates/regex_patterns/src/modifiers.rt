// What a group begins with that changes flags (ECMA-262, 22.2.1).
ghost use Rattle.std.specs.Prelude.{◌≡◌, ◌+◌, ◌≤◌, ◌<◌, length, nat_le, IfSome};
ghost use Rattle.regex_patterns.specs.Pieces as pieces;
ghost use Rattle.regex_patterns.specs.Signs as signs;

use crate::signs::{Run, is_at, part, tail, times};

/// Whether each of `i`, `m` and `s` is in both once at most.
fn once(first: &[u32], second: &[u32]) -> bool
    ensures { result ≡ pieces.once first.now second.now }
{
    once_each('i', first, second) && once_each('m', first, second) && once_each('s', first, second)
}

/// Whether the sign is in both once at most.
fn once_each(sign: char, first: &[u32], second: &[u32]) -> bool
    ensures { result ≡ nat_le (signs.times sign first.now + signs.times sign second.now) 1 }
{
    times(sign, first) + times(sign, second) <= 1
}

/// Flags, `-`, flags and `:`, of so many flags each.
fn without(rest: &[u32], first: usize, second: usize) -> Option<usize>
    requires { 1 + first + second ≤ length rest.now }
    ensures value { result ≡ pieces.without rest.now first second }
    ensures within { IfSome result (λ n. n ≤ length rest.now) }
{
    if is_at(rest, 1 + first + second, ':')
        && 0 < first + second
        && once(part(rest, 0, first), part(rest, 1 + first, second))
    {
        Some(2 + first + second)
    } else {
        None
    }
}

/// What is after so many flags.
fn after_first(rest: &[u32], first: usize) -> Option<usize>
    requires { first ≤ length rest.now }
    ensures value { result ≡ pieces.modifiers_of rest.now first }
    ensures within { IfSome result (λ n. n ≤ length rest.now) }
{
    if is_at(rest, first, ':') {
        if once(part(rest, 0, first), &[]) {
            Some(1 + first)
        } else {
            None
        }
    } else if is_at(rest, first, '-') {
        without(rest, first, Run::Flags.len(tail(rest, 1 + first)))
    } else {
        None
    }
}

/// How many units the flags take that are after `(?`, with their `:`.
pub(crate) fn modifiers(rest: &[u32]) -> Option<usize>
    ensures value { result ≡ pieces.modifiers rest.now }
    ensures within { IfSome result (λ n. n ≤ length rest.now) }
{
    after_first(rest, Run::Flags.len(rest))
}
