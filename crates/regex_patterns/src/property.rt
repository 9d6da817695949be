// Escapes of properties of Unicode (ECMA-262, 22.2.1).
ghost use Rattle.std.specs.Prelude.{◌≡◌, ◌+◌, ◌≤◌, ◌<◌, length, IfSome};
ghost use Rattle.regex_patterns.specs.Properties as properties;

use crate::escape::Meaning;
use crate::mode::Mode;
use crate::properties::{has_value, is_binary, is_category, is_of_strings};
use crate::signs::{Run, is_at, part, tail};

/// What a property by itself stands for. Only with the flag `v`, and not with `\P`, may it have strings.
fn lone(mode: Mode, is_negated: bool, name: &[u32]) -> Option<Meaning>
    ensures { result ≡ properties.lone mode is_negated name.now }
{
    if is_category(name) || is_binary(name) {
        Some(Meaning::Class)
    } else if mode.sets && !is_negated && is_of_strings(name) {
        Some(Meaning::Strings)
    } else {
        None
    }
}

/// A property with its value, of so many units each.
fn of_value(rest: &[u32], name: usize, value: usize) -> Option<(Meaning, usize)>
    requires { 4 + name + value ≤ length rest.now }
    ensures value { result ≡ properties.of_value rest.now name value }
    ensures within { IfSome result (λ r. (0 < r.1) × (r.1 ≤ length rest.now)) }
{
    if is_at(rest, 4 + name + value, '}')
        && has_value(part(rest, 3, name), part(rest, 4 + name, value))
    {
        Some((Meaning::Class, 5 + name + value))
    } else {
        None
    }
}

/// A property whose name has so many units.
fn of_name(mode: Mode, rest: &[u32], name: usize) -> Option<(Meaning, usize)>
    requires { 3 + name ≤ length rest.now }
    ensures value { result ≡ properties.of_name mode rest.now name }
    ensures within { IfSome result (λ r. (0 < r.1) × (r.1 ≤ length rest.now)) }
{
    if is_at(rest, 3 + name, '=') {
        return of_value(rest, name, Run::Word.len(tail(rest, 4 + name)));
    }
    if !is_at(rest, 3 + name, '}') {
        return None;
    }
    match lone(mode, is_at(rest, 1, 'P'), part(rest, 3, name)) {
        Some(meaning) => Some((meaning, 4 + name)),
        None => None,
    }
}

/// `\p{..}` or `\P{..}`
pub(crate) fn property(mode: Mode, rest: &[u32]) -> Option<(Meaning, usize)>
    ensures value { result ≡ properties.property mode rest.now }
    ensures within { IfSome result (λ r. (0 < r.1) × (r.1 ≤ length rest.now)) }
{
    if is_at(rest, 2, '{') {
        of_name(mode, rest, Run::Word.len(tail(rest, 3)))
    } else {
        None
    }
}
