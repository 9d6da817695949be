//! `ecma` for C, and for what calls C: Node, Python and others.
//!
//! Each function reads a text of UTF-8 bytes, writes its answer into room of the caller's, as far as it goes there, and
//! says in an `EcmaOutcome` what came of it. Nothing lasts from one call to the next, so calls may be made at once from
//! several threads. What the caller owes, and how the functions look in C, is in include/ecma.h.
#![tactic(auto)]

mod checking;
mod laying_out;
mod naming;
mod outcome;
mod reading;
mod room;
mod tokens;
mod trees;

pub use crate::outcome::EcmaOutcome;
pub use crate::reading::EcmaOptions;
use crate::room::Room;
use ecma_commands::VERSION;
use std::alloc::Global;

/// Writes which version this is, and answers how many bytes that takes.
#[unsafe(no_mangle)]
pub extern "C" fn ecma_version(room: &mut [u8]) -> usize {
    let mut room = Room::new(room);
    room.put(VERSION);
    room.needed()
}

/// Writes what is wrong with a program, early errors too, as a JSON list of findings in the order of the text.
///
/// `DONE` if it is empty, `FAULT` otherwise: then the place is that of the first finding.
#[unsafe(no_mangle)]
pub extern "C" fn ecma_check(
    alloc: Global,
    text: &[u8],
    options: &EcmaOptions,
    room: &mut [u8],
    outcome: &mut EcmaOutcome,
) {
    *outcome = checking::check(alloc, text, *options, &mut Room::new(room));
}

/// Writes the ESTree of a program as JSON.
#[unsafe(no_mangle)]
pub extern "C" fn ecma_estree(
    alloc: Global,
    text: &[u8],
    options: &EcmaOptions,
    room: &mut [u8],
    outcome: &mut EcmaOutcome,
) {
    *outcome = trees::estree(alloc, text, *options, &mut Room::new(room));
}

/// Writes a program in its layout.
#[unsafe(no_mangle)]
pub extern "C" fn ecma_format(
    alloc: Global,
    text: &[u8],
    options: &EcmaOptions,
    room: &mut [u8],
    outcome: &mut EcmaOutcome,
) {
    *outcome = laying_out::format(alloc, text, *options, &mut Room::new(room));
}

/// Writes the names of a program as a JSON list.
#[unsafe(no_mangle)]
pub extern "C" fn ecma_names(
    alloc: Global,
    text: &[u8],
    options: &EcmaOptions,
    room: &mut [u8],
    outcome: &mut EcmaOutcome,
) {
    *outcome = naming::names_of(alloc, text, *options, &mut Room::new(room));
}

/// Writes the tokens of a text as a JSON list.
#[unsafe(no_mangle)]
pub extern "C" fn ecma_tokens(
    alloc: Global,
    text: &[u8],
    options: &EcmaOptions,
    room: &mut [u8],
    outcome: &mut EcmaOutcome,
) {
    *outcome = tokens::tokens(alloc, text, *options, &mut Room::new(room));
}
