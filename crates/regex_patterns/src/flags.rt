// The flags of a regular expression (ECMA-262, 22.2.3.4).
ghost use Rattle.std.specs.Prelude.{◌≡◌, ◌↔◌, [], None, true};
ghost use Rattle.regex_patterns.specs.Patterns as patterns;

use crate::fault::{PatternFault, Wrong};

/// Whether there is such a flag: `d`, `g`, `i`, `m`, `s`, `u`, `v` or `y`.
fn is_flag(byte: u8) -> bool
    ensures { result ≡ patterns.is_flag byte }
{
    matches!(byte, 100 | 103 | 105 | 109 | 115 | 117 | 118 | 121)
}

/// Whether the flag is there.
pub(crate) fn has(flags: &[u8], flag: u8) -> bool
    ensures { result ≡ patterns.has flags.now flag }
{
    flags.contains(&flag)
}

/// What is wrong with a flag after others.
fn fault_after(before: &[u8], flag: u8) -> Option<PatternFault>
    ensures { (result ≡ None) ↔ (patterns.can_follow before.now flag ≡ true) }
{
    if !is_flag(flag) {
        Some(PatternFault::FlagUnknown)
    } else if has(before, flag) {
        Some(PatternFault::FlagTwice)
    } else if flag == 117 && has(before, 118) || flag == 118 && has(before, 117) {
        Some(PatternFault::FlagsTogether)
    } else {
        None
    }
}

/// What is wrong with flags, and at which byte.
pub(crate) fn fault_of_flags(flags: &str) -> Option<Wrong>
    ensures { (result ≡ None) ↔ (patterns.are_flags [] flags.now ≡ true) }
{
    let flags = flags.as_bytes();
    let mut at = 0;
    while at < flags.len() {
        if let Some(fault) = fault_after(&flags[..at], flags[at]) {
            return Some(Wrong::new(fault, at));
        }
        at += 1;
    }
    None
}
