// Groups that have one name (ECMA-262, 22.2.1.1).
ghost use Rattle.std.specs.Prelude.{◌≡◌, ◌↔◌, ℕ, List, None, IfOk, true, reverse};
ghost use Rattle.std.specs.String.{string_bytes};
ghost use Rattle.std.specs.HashMap.{get_by_text};
ghost use Rattle.regex_patterns.specs.Conditions as conditions;

use crate::fault::{PatternFault, Wrong};
use crate::name::name;
use crate::piece::{Group, Piece, Placed};
use crate::signs::tail;
use std::alloc::{AllocError, Global};
use std::collections::HashMap;

/// A group that is open, or the whole pattern: with which piece it began, and with which its alternative.
#[derive(Clone, Copy)]
pub(crate) struct Frame {
    pub(crate) began: usize,
    pub(crate) alternative: usize,
}

/// Whether the innermost of these that is around the piece is still in that alternative.
fn is_within(frames: &[Frame], number: usize) -> bool
    ensures { result ≡ conditions.is_within (reverse frames.now) number }
{
    let mut left = frames.len();
    while left > 0 {
        let frame = frames[left - 1];
        if frame.began <= number {
            return frame.alternative <= number;
        }
        left -= 1;
    }
    false
}

/// Of each name, which piece had it last.
pub(crate) type Last = HashMap<String, usize>;

/// Notes that the group with the number has the name. Answers whether one has it that excludes this one.
fn is_excluded(
    last: &mut Last,
    frames: &[Frame],
    name: String,
    number: usize,
) -> Result<bool, AllocError>
    ensures value { IfOk result (λ b. b ≡ conditions.excludes (reverse frames.now) (get_by_text last.old (string_bytes name))) }
    ensures put { IfOk result (λ b. (q : List ℕ) → get_by_text last.new q ≡ conditions.put (get_by_text last.old) (string_bytes name) number q) }
{
    match last.insert(name, number) {
        Ok(Some(before)) => Ok(is_within(frames, before)),
        Ok(None) => Ok(false),
        Err(_) => Err(AllocError),
    }
}

/// Opens and closes groups, and begins their alternatives, by a piece before the number.
fn pass(frames: &mut Vec<Frame>, piece: Piece, number: usize) -> Result<(), AllocError>
    ensures { IfOk result (λ u. reverse frames.new.items ≡ conditions.frames_after number piece (reverse frames.old.items)) }
{
    match piece {
        Piece::Open(_) => {
            frames.push(Frame {
                began: number,
                alternative: number,
            })?;
        }
        Piece::Close => {
            let _ = frames.pop();
        }
        Piece::Bar => {
            if let Some(frame) = frames.pop() {
                frames.push(Frame {
                    began: frame.began,
                    alternative: number,
                })?;
            }
        }
        _ => {}
    }
    Ok(())
}

/// Whether the piece is a group with a name.
pub(crate) fn is_named(piece: Piece) -> bool
    ensures { result ≡ conditions.is_named piece }
{
    match piece {
        Piece::Open(group) => match group {
            Group::Named => true,
            Group::Capture | Group::Plain | Group::Lookahead | Group::Lookbehind => false,
        },
        _ => false,
    }
}

/// The name that a group or a reference has, which begins there.
pub(crate) fn name_at(alloc: Global, units: &[u32], at: usize) -> Result<String, AllocError>
    ensures { IfOk result (λ s. string_bytes s ≡ conditions.name_at units.now at) }
{
    if units.len() < 3 || units.len() - 3 < at {
        return Ok(String::new(alloc));
    }
    name(alloc, tail(units, at + 3))
}

/// The first group whose name another one has that isn't in another alternative. The only error is out of memory.
pub(crate) fn fault_of_names(
    alloc: Global,
    units: &[u32],
    pieces: &[Placed],
) -> Result<Option<Wrong>, AllocError>
    ensures { IfOk result (λ wrong. (wrong ≡ None) ↔ (conditions.are_apart units.now pieces.now ≡ true)) }
{
    let mut last = HashMap::new(alloc);
    let mut frames = vec![in alloc;
        Frame {
            began: 0,
            alternative: 0
        },
    ]?;
    let mut number = 0;
    while number < pieces.len() {
        let placed = pieces[number];
        if is_named(placed.piece) {
            let name = name_at(alloc, units, placed.at)?;
            if is_excluded(&mut last, &frames, name, number)? {
                return Ok(Some(Wrong::new(PatternFault::GroupTwice, placed.at).after(3)));
            }
        }
        number += 1;
        pass(&mut frames, placed.piece, number)?;
    }
    Ok(None)
}
