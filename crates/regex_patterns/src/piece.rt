// The pieces that a pattern is made of (ECMA-262, 22.2.1 and B.1.2).
ghost use Rattle.std.specs.Prelude.{◌≡◌, ◌+◌, ◌≤◌, ◌<◌, length, slice_get, drop, IfSome, nat_eq, IfOk, false, MatchOption, Some, None};
ghost use Rattle.regex_patterns.specs.declared.piece.Group.TheVariants.{Plain};
ghost use Rattle.regex_patterns.specs.declared.piece.Piece.TheVariants.{Open, Atom};
ghost use Rattle.regex_patterns.specs.Classes as classes;
ghost use Rattle.regex_patterns.specs.Escapes as escapes;
ghost use Rattle.regex_patterns.specs.Names as names;
ghost use Rattle.regex_patterns.specs.Quantifiers as quantifiers;
ghost use Rattle.std.specs.Result.{result_ok};
ghost use Rattle.regex_patterns.specs.Pieces as pieces;

use crate::class::{fault_of_escape, old_class};
use crate::escape::escape;
use crate::fault::{PatternFault, Wrong};
use crate::mode::Mode;
use crate::modifiers::modifiers;
use crate::name::name_len;
use crate::quantifier::{braces, lazy};
use crate::sets::set_class;
use crate::signs::{Run, is_at, number, tail};
use std::alloc::{AllocError, Global};

/// A group, by what it begins with.
#[derive(Clone, Copy, PartialEq, Eq)]
pub(crate) enum Group {
    /// `(`
    Capture,
    /// `(?<name>`
    Named,
    /// `(?:`, with flags or not.
    Plain,
    /// `(?=` or `(?!`
    Lookahead,
    /// `(?<=` or `(?<!`
    Lookbehind,
}

/// A piece of a pattern.
#[derive(Clone, Copy, PartialEq, Eq)]
pub(crate) enum Piece {
    Open(Group),
    /// `)`
    Close,
    /// `|`
    Bar,
    /// `^`, `$`, `\b` or `\B`
    Assertion,
    Quantifier,
    /// A character, an escape or a class.
    Atom,
    /// A reference to the group that has the number.
    Number(u64),
    /// A reference to a group by its name.
    Name,
}

/// A piece, and at which unit it begins.
#[derive(Clone, Copy)]
pub(crate) struct Placed {
    pub(crate) piece: Piece,
    pub(crate) at: usize,
}

/// A group with a name, or a reference to one, after three units.
fn by_name(piece: Piece, rest: &[u32]) -> Result<(Piece, usize), Wrong>
    requires { 3 ≤ length rest.now }
    ensures value { result_ok result ≡ pieces.as_piece piece (classes.longer_by 3 (names.name_len (drop 3 rest.now))) }
    ensures within { IfOk result (λ r. (0 < r.1) × (r.1 ≤ length rest.now)) }
{
    match name_len(tail(rest, 3)) {
        Some(len) => Ok((piece, 3 + len)),
        None => Err(Wrong::new(PatternFault::GroupName, 3)),
    }
}

/// A group that changes flags, or has none of these signs after `(?`.
fn by_flags(rest: &[u32]) -> Result<(Piece, usize), Wrong>
    requires { 2 ≤ length rest.now }
    ensures value { result_ok result ≡ pieces.as_piece (Open Plain) (classes.longer_by 2 (pieces.modifiers (drop 2 rest.now))) }
    ensures within { IfOk result (λ r. (0 < r.1) × (r.1 ≤ length rest.now)) }
{
    match modifiers(tail(rest, 2)) {
        Some(len) => Ok((Piece::Open(Group::Plain), 2 + len)),
        None => Err(fault_of_group(tail(rest, 2))),
    }
}

/// What is wrong with a group that begins with `(?` and these units: the flag that is there twice is at fault, if one is.
fn fault_of_group(rest: &[u32]) -> Wrong {
    if Run::Flags.len(rest) == 0 && !is_at(rest, 0, '-') {
        return Wrong::new(PatternFault::GroupUnknown, 0);
    }
    let mut at = 0;
    while at < rest.len() {
        if rest[at] != 45 && !Run::Flags.has(rest[at]) {
            return Wrong::new(PatternFault::Modifiers, 0);
        }
        if rest[..at].contains(&rest[at]) {
            return Wrong::new(PatternFault::Modifiers, at).after(2);
        }
        at += 1;
    }
    Wrong::new(PatternFault::Modifiers, 0)
}

/// What begins a group, and how many units it takes.
fn opener(rest: &[u32]) -> Result<(Piece, usize), Wrong>
    requires { 0 < length rest.now }
    ensures value { result_ok result ≡ pieces.opener rest.now }
    ensures within { IfOk result (λ r. (0 < r.1) × (r.1 ≤ length rest.now)) }
{
    if !is_at(rest, 1, '?') {
        Ok((Piece::Open(Group::Capture), 1))
    } else if is_at(rest, 2, '=') || is_at(rest, 2, '!') {
        Ok((Piece::Open(Group::Lookahead), 3))
    } else if !is_at(rest, 2, '<') {
        by_flags(rest)
    } else if is_at(rest, 3, '=') || is_at(rest, 3, '!') {
        Ok((Piece::Open(Group::Lookbehind), 4))
    } else {
        by_name(Piece::Open(Group::Named), rest)
    }
}

/// `{`: a quantifier in braces, or a character of old scripts.
fn quantifier(mode: Mode, rest: &[u32]) -> Result<(Piece, usize), Wrong>
    requires { 0 < length rest.now }
    ensures value { result_ok result ≡ pieces.quantifier mode rest.now (quantifiers.braces rest.now) }
    ensures within { IfOk result (λ r. (0 < r.1) × (r.1 ≤ length rest.now)) }
{
    match braces(rest) {
        Some((true, len)) => Ok((Piece::Quantifier, lazy(rest, len))),
        Some((false, _)) => Err(Wrong::new(PatternFault::BoundsOutOfOrder, 0)),
        None if mode.unicode => Err(Wrong::new(PatternFault::LoneBracket, 0)),
        None => Ok((Piece::Atom, 1)),
    }
}

/// A reference by its number.
fn reference(rest: &[u32]) -> (Piece, usize)
    requires { 0 < length rest.now }
    ensures value { Some result ≡ pieces.reference rest.now }
    ensures within { (0 < result.1) × (result.1 ≤ length rest.now) }
{
    let digits = tail(rest, 1);
    (Piece::Number(number(digits)), 1 + Run::Digits.len(digits))
}

/// What begins with a backslash.
fn escaped(mode: Mode, rest: &[u32]) -> Result<(Piece, usize), Wrong>
    requires { 0 < length rest.now }
    ensures value { result_ok result ≡ pieces.escaped mode rest.now (slice_get rest.now 1) }
    ensures within { IfOk result (λ r. (0 < r.1) × (r.1 ≤ length rest.now)) }
{
    match rest.get(1) {
        Some(unit) => escaped_of(mode, rest, *unit),
        None => Err(Wrong::new(PatternFault::Escape, 0)),
    }
}

/// What begins with a backslash, by the unit after it.
fn escaped_of(mode: Mode, rest: &[u32], unit: u32) -> Result<(Piece, usize), Wrong>
    requires { 2 ≤ length rest.now }
    ensures value { result_ok result ≡ pieces.escaped_of mode rest.now unit }
    ensures within { IfOk result (λ r. (0 < r.1) × (r.1 ≤ length rest.now)) }
{
    if is_number(unit) {
        Ok(reference(rest))
    } else if mode.named && unit == 107 {
        name_reference(rest)
    } else if unit == 98 || unit == 66 {
        Ok((Piece::Assertion, 2))
    } else if mode.unicode && unit == 45 {
        Err(Wrong::new(PatternFault::Escape, 0))
    } else {
        other_escape(mode, rest)
    }
}

/// Whether it is a digit, and not 0.
fn is_number(unit: u32) -> bool
    ensures { result ≡ pieces.is_number unit }
{
    49 <= unit && unit <= 57
}

/// `\k` and a name.
fn name_reference(rest: &[u32]) -> Result<(Piece, usize), Wrong>
    ensures value { result_ok result ≡ pieces.name_reference rest.now }
    ensures within { IfOk result (λ r. (0 < r.1) × (r.1 ≤ length rest.now)) }
{
    if is_at(rest, 2, '<') {
        by_name(Piece::Name, rest)
    } else {
        Err(Wrong::new(PatternFault::GroupName, 2))
    }
}

/// An escape that is an atom.
fn other_escape(mode: Mode, rest: &[u32]) -> Result<(Piece, usize), Wrong>
    ensures value { result_ok result ≡ pieces.as_atom (escapes.escape mode rest.now) }
    ensures within { IfOk result (λ r. (0 < r.1) × (r.1 ≤ length rest.now)) }
{
    match escape(mode, rest) {
        Some((_, len)) => Ok((Piece::Atom, len)),
        None => Err(Wrong::new(fault_of_escape(rest), 0)),
    }
}

/// A class.
fn class(
    alloc: Global,
    mode: Mode,
    rest: &[u32],
) -> Result<Result<(Piece, usize), Wrong>, AllocError>
    requires { 0 < length rest.now }
    ensures value { IfOk result (λ found. result_ok found ≡ pieces.as_piece Atom (pieces.class mode rest.now)) }
    ensures within { IfOk result (λ found. IfOk found (λ r. (0 < r.1) × (r.1 ≤ length rest.now))) }
{
    let found = if mode.sets {
        set_class(alloc, mode, rest)?
    } else {
        old_class(mode, rest)
    };
    Ok(match found {
        Ok(len) => Ok((Piece::Atom, len)),
        Err(wrong) => Err(wrong),
    })
}

/// The piece that is here, unless it is a class.
fn plain_piece(mode: Mode, unit: u32, rest: &[u32]) -> Result<(Piece, usize), Wrong>
    requires here { slice_get rest.now 0 ≡ Some unit }
    requires within { 0 < length rest.now }
    requires other { nat_eq unit 91 ≡ false }
    ensures value { result_ok result ≡ pieces.piece_of mode rest.now unit }
    ensures within { IfOk result (λ r. (0 < r.1) × (r.1 ≤ length rest.now)) }
{
    match unit {
        40 => opener(rest),
        41 => Ok((Piece::Close, 1)),
        124 => Ok((Piece::Bar, 1)),
        94 | 36 => Ok((Piece::Assertion, 1)),
        42 | 43 | 63 => Ok((Piece::Quantifier, lazy(rest, 1))),
        123 => quantifier(mode, rest),
        92 => escaped(mode, rest),
        93 | 125 if mode.unicode => Err(Wrong::new(PatternFault::LoneBracket, 0)),
        _ => Ok((Piece::Atom, 1)),
    }
}

/// The piece that is here, and how many units it takes; or what is wrong with it. The only error is out of memory.
fn piece_here(
    alloc: Global,
    mode: Mode,
    rest: &[u32],
) -> Result<Result<(Piece, usize), Wrong>, AllocError>
    requires { 0 < length rest.now }
    ensures value { IfOk result (λ found. result_ok found ≡ pieces.piece mode rest.now) }
    ensures within { IfOk result (λ found. IfOk found (λ r. (0 < r.1) × (r.1 ≤ length rest.now))) }
{
    let unit = rest[0];
    if unit == 91 {
        class(alloc, mode, rest)
    } else {
        Ok(plain_piece(mode, unit, rest))
    }
}

/// The pieces of a pattern up to the first that is wrong, and what is wrong with it.
#[derive(Drop)]
pub(crate) struct Pieces {
    pub(crate) list: Vec<Placed>,
    pub(crate) wrong: Option<Wrong>,
}

/// The pieces of a pattern. The only error is out of memory.
pub(crate) fn pieces_of(alloc: Global, mode: Mode, units: &[u32]) -> Result<Pieces, AllocError>
    ensures { IfOk result (λ found. MatchOption found.wrong (pieces.pieces mode units.now ≡ Some found.list.items) (λ w. pieces.pieces mode units.now ≡ None)) }
{
    let mut list = Vec::new(alloc);
    let mut at = 0;
    while at < units.len() {
        match piece_here(alloc, mode, &units[at..])? {
            Ok((piece, len)) => {
                list.push(Placed { piece, at })?;
                at += len;
            }
            Err(wrong) => {
                return Ok(Pieces {
                    list,
                    wrong: Some(wrong.after(at)),
                });
            }
        }
    }
    Ok(Pieces { list, wrong: None })
}
