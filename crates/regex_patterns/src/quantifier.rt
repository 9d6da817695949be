// Quantifiers (ECMA-262, 22.2.1).
ghost use Rattle.std.specs.Prelude.{◌≡◌, ◌+◌, ◌≤◌, ◌<◌, length, IfSome};
ghost use Rattle.regex_patterns.specs.Quantifiers as quantifiers;

use crate::signs::{Run, in_order, is_at, part, tail};

/// Two numbers in braces, of so many digits each; the second may have none.
fn to_second(rest: &[u32], first: usize, second: usize) -> Option<(bool, usize)>
    requires { 2 + first + second ≤ length rest.now }
    ensures value { result ≡ quantifiers.to_second rest.now first second }
    ensures within { IfSome result (λ r. (0 < r.1) × (r.1 ≤ length rest.now)) }
{
    if !is_at(rest, 2 + first + second, '}') {
        return None;
    }
    let are_in_order = second == 0 || in_order(part(rest, 1, first), part(rest, 2 + first, second));
    Some((are_in_order, 3 + first + second))
}

/// A number of so many digits in braces, and what is after it.
fn after_first(rest: &[u32], first: usize) -> Option<(bool, usize)>
    requires { 1 + first ≤ length rest.now }
    ensures value { result ≡ quantifiers.after_first rest.now first }
    ensures within { IfSome result (λ r. (0 < r.1) × (r.1 ≤ length rest.now)) }
{
    if first == 0 {
        None
    } else if is_at(rest, 1 + first, '}') {
        Some((true, 2 + first))
    } else if is_at(rest, 1 + first, ',') {
        to_second(rest, first, Run::Digits.len(tail(rest, 2 + first)))
    } else {
        None
    }
}

/// `{1}`, `{1,}` or `{1,2}`: whether its numbers are in order, and how many units it takes.
pub(crate) fn braces(rest: &[u32]) -> Option<(bool, usize)>
    requires { 0 < length rest.now }
    ensures value { result ≡ quantifiers.braces rest.now }
    ensures within { IfSome result (λ r. (0 < r.1) × (r.1 ≤ length rest.now)) }
{
    after_first(rest, Run::Digits.len(tail(rest, 1)))
}

/// So many units, and a `?` after them.
pub(crate) fn lazy(rest: &[u32], len: usize) -> usize
    requires { len ≤ length rest.now }
    ensures value { result ≡ quantifiers.lazy rest.now len }
    ensures within { (len ≤ result) × (result ≤ length rest.now) }
{
    if is_at(rest, len, '?') { len + 1 } else { len }
}
