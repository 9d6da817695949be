// References to groups (ECMA-262, 22.2.1.1).
ghost use Rattle.std.specs.Prelude.{◌≡◌, ◌↔◌, ◌||◌, ℕ, List, None, IfOk, true};
ghost use Rattle.std.specs.String.{string_bytes};
ghost use Rattle.std.specs.Str.{bytes_eq};
ghost use Rattle.std.specs.HashSet as set;
ghost use Rattle.regex_patterns.specs.Conditions as conditions;

use crate::fault::{PatternFault, Wrong};
use crate::names::{is_named, name_at};
use crate::piece::{Group, Piece, Placed};
use std::alloc::{AllocError, Global};
use std::collections::HashSet;

/// Whether the piece is a group that captures.
fn captures(piece: Piece) -> bool
    ensures { result ≡ conditions.captures piece }
{
    match piece {
        Piece::Open(group) => match group {
            Group::Capture | Group::Named => true,
            Group::Plain | Group::Lookahead | Group::Lookbehind => false,
        },
        _ => false,
    }
}

/// How many groups capture.
fn count(pieces: &[Placed]) -> usize
    ensures { result ≡ conditions.count pieces.now }
{
    let mut count = 0;
    let mut number = 0;
    while number < pieces.len() {
        if captures(pieces[number].piece) {
            count += 1;
        }
        number += 1;
    }
    count
}

/// Whether a reference by number is to one of so many groups.
fn fits(groups: usize, piece: Piece) -> bool
    ensures { result ≡ conditions.fits groups piece }
{
    match piece {
        Piece::Number(number) => number <= groups as u64,
        _ => true,
    }
}

/// The first reference by number to a group that isn't there.
pub(crate) fn fault_of_numbers(pieces: &[Placed]) -> Option<Wrong>
    ensures { (result ≡ None) ↔ (conditions.numbers_fit pieces.now ≡ true) }
{
    let groups = count(pieces);
    let mut number = 0;
    while number < pieces.len() {
        let placed = pieces[number];
        if !fits(groups, placed.piece) {
            return Some(Wrong::new(PatternFault::ReferenceUnknown, placed.at));
        }
        number += 1;
    }
    None
}

/// Whether the piece is a reference by name.
fn is_reference(piece: Piece) -> bool
    ensures { result ≡ conditions.is_reference piece }
{
    match piece {
        Piece::Name => true,
        _ => false,
    }
}

/// Adds a name to others.
fn add_name(names: &mut HashSet<String>, name: String) -> Result<(), AllocError>
    ensures { IfOk result (λ u. (q : List ℕ) → set.contains_text names.new q ≡ (bytes_eq (string_bytes name) q || set.contains_text names.old q)) }
{
    match names.insert(name) {
        Ok(_) => Ok(()),
        Err(_) => Err(AllocError),
    }
}

/// The names of groups.
fn names_of(alloc: Global, units: &[u32], pieces: &[Placed]) -> Result<HashSet<String>, AllocError>
    ensures { IfOk result (λ s. (q : List ℕ) → set.contains_text s q ≡ conditions.contains (conditions.group_names units.now pieces.now) q) }
{
    let mut names = HashSet::new(alloc);
    let mut number = 0;
    while number < pieces.len() {
        let placed = pieces[number];
        if is_named(placed.piece) {
            let name = name_at(alloc, units, placed.at)?;
            add_name(&mut names, name)?;
        }
        number += 1;
    }
    Ok(names)
}

/// The first reference by name to a group that isn't there. The only error is out of memory.
pub(crate) fn fault_of_references(
    alloc: Global,
    units: &[u32],
    pieces: &[Placed],
) -> Result<Option<Wrong>, AllocError>
    ensures { IfOk result (λ wrong. (wrong ≡ None) ↔ (conditions.are_known units.now (conditions.group_names units.now pieces.now) pieces.now ≡ true)) }
{
    let names = names_of(alloc, units, pieces)?;
    let mut number = 0;
    while number < pieces.len() {
        let placed = pieces[number];
        if is_reference(placed.piece) {
            let name = name_at(alloc, units, placed.at)?;
            if !names.contains(name.as_str()) {
                return Ok(Some(Wrong::new(PatternFault::ReferenceUnknown, placed.at).after(3)));
            }
        }
        number += 1;
    }
    Ok(None)
}
