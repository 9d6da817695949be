// Single units, and runs of them.
ghost use Rattle.std.specs.Prelude.{◌≡◌, ◌+◌, ◌≤◌, ◌<◌, length, take, drop, true};
ghost use Rattle.swc_lexical.specs.Runs as runs;
ghost use Rattle.regex_patterns.specs.Signs as signs;

/// Whether this sign is there.
pub(crate) fn is_at(rest: &[u32], at: usize, sign: char) -> bool
    ensures value { result ≡ runs.is_at rest.now at sign }
    ensures within { result ≡ true → at < length rest.now }
{
    match rest.get(at) {
        Some(unit) => *unit == u32::from(sign),
        None => false,
    }
}

/// What is there after so many units.
pub(crate) fn tail(rest: &[u32], from: usize) -> &[u32]
    requires { from ≤ length rest.now }
    ensures { result.now ≡ drop from rest.now }
{
    &rest[from..]
}

/// So many units, after others.
pub(crate) fn part(rest: &[u32], from: usize, len: usize) -> &[u32]
    requires { from + len ≤ length rest.now }
    ensures { result.now ≡ take len (drop from rest.now) }
{
    &rest[from..from + len]
}

pub(crate) fn is_digit(unit: u32) -> bool
    ensures { result ≡ signs.is_digit unit }
{
    48 <= unit && unit <= 57
}

/// Whether it is a letter of ASCII.
pub(crate) fn is_letter(unit: u32) -> bool
    ensures { result ≡ signs.is_letter unit }
{
    97 <= unit && unit <= 122 || 65 <= unit && unit <= 90
}

fn is_hex_digit(unit: u32) -> bool
    ensures { result ≡ signs.is_hex_digit unit }
{
    is_digit(unit) || 97 <= unit && unit <= 102 || 65 <= unit && unit <= 70
}

/// Whether it is a letter of ASCII, a digit or `_`.
pub(crate) fn is_word(unit: u32) -> bool
    ensures { result ≡ signs.is_word unit }
{
    is_letter(unit) || is_digit(unit) || unit == 95
}

/// Whether it is a flag that a group can change: `i`, `m` or `s`.
fn is_flag(unit: u32) -> bool
    ensures { result ≡ signs.is_flag unit }
{
    unit == 105 || unit == 109 || unit == 115
}

/// What a run is made of.
#[derive(Clone, Copy)]
pub(crate) enum Run {
    Digits,
    HexDigits,
    /// `i`, `m` and `s`.
    Flags,
    /// Letters, digits and `_`.
    Word,
}

impl Run {
    pub(crate) fn has(self, unit: u32) -> bool
        ensures { result ≡ signs.has self unit }
    {
        match self {
            Run::Digits => is_digit(unit),
            Run::HexDigits => is_hex_digit(unit),
            Run::Flags => is_flag(unit),
            Run::Word => is_word(unit),
        }
    }

    /// How many of its units are here.
    pub(crate) fn len(self, rest: &[u32]) -> usize
        ensures value { result ≡ signs.while_len (signs.has self) rest.now }
        ensures within { result ≤ length rest.now }
    {
        let mut at = 0;
        while at < rest.len() {
            if !self.has(rest[at]) {
                return at;
            }
            at += 1;
        }
        at
    }
}

/// The number that the digits write that are here; one that is too high for any count of groups is 2^63.
pub(crate) fn number(rest: &[u32]) -> u64
    ensures { result ≡ signs.number_from 0 rest.now }
{
    let mut value = 0;
    let mut at = 0;
    while at < rest.len() {
        if !is_digit(rest[at]) {
            return value;
        }
        value = and_digit(value, rest[at]);
        at += 1;
    }
    value
}

fn and_digit(value: u64, unit: u32) -> u64
    requires { signs.is_digit unit ≡ true }
    ensures { result ≡ signs.and_digit value unit }
{
    if value < 0x0800_0000_0000_0000 {
        10 * value + u64::from(unit - 48)
    } else {
        0x8000_0000_0000_0000
    }
}

/// Digits without zeros at their front.
fn without_zeros(digits: &[u32]) -> &[u32]
    ensures { result.now ≡ signs.without_zeros digits.now }
{
    let mut at = 0;
    while at < digits.len() {
        if digits[at] != 48 {
            return &digits[at..];
        }
        at += 1;
    }
    &digits[at..]
}

/// Whether of two numbers with as many digits the first isn't above the second.
fn is_up_to(first: &[u32], second: &[u32]) -> bool
    requires { length first.now ≡ length second.now }
    ensures { result ≡ signs.is_up_to first.now second.now }
{
    let mut at = 0;
    while at < first.len() {
        if first[at] != second[at] {
            return first[at] < second[at];
        }
        at += 1;
    }
    true
}

/// Whether the number that the first digits write isn't above that of the second.
pub(crate) fn in_order(first: &[u32], second: &[u32]) -> bool
    ensures { result ≡ signs.in_order first.now second.now }
{
    let first = without_zeros(first);
    let second = without_zeros(second);
    if first.len() == second.len() {
        is_up_to(first, second)
    } else {
        first.len() < second.len()
    }
}

/// How often a sign is there.
pub(crate) fn times(sign: char, units: &[u32]) -> usize
    ensures value { result ≡ signs.times sign units.now }
    ensures small { result ≤ length units.now }
{
    let mut count = 0;
    let mut at = 0;
    while at < units.len() {
        if units[at] == u32::from(sign) {
            count += 1;
        }
        at += 1;
    }
    count
}
