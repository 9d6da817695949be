// What comes of a call.
use crate::room::Room;
use ecma_commands::findings::{Place, fault_of};
use reporting::Refusal;
use std::alloc::{AllocError, Global};
use swc_ecma_parser::context::span::Span;
use tree_types::tree::Goal;

/// All is well, and the answer is in the room.
pub(crate) const DONE: u32 = 0;

/// The text has a fault.
pub(crate) const FAULT: u32 = 1;

/// The answer takes more room than there is.
pub(crate) const NO_ROOM: u32 = 2;

/// The text isn't UTF-8.
pub(crate) const NOT_UTF8: u32 = 3;

/// An option has no such value.
pub(crate) const BAD_OPTION: u32 = 4;

pub(crate) const OUT_OF_MEMORY: u32 = 5;

/// The text is nested too deeply.
pub(crate) const TOO_DEEP: u32 = 6;

/// What came of a call. Where there is no place, its numbers are 0.
#[repr(C)]
#[derive(Clone, Copy)]
pub struct EcmaOutcome {
    /// Which of these it is: done 0, a fault 1, too little room 2, no UTF-8 3, a bad option 4, out of memory 5, nested too
    /// deeply 6.
    pub status: u32,
    /// What the text was read as: a script 1, a module 2, a CommonJS module 3; or 0, if it wasn't read.
    pub goal: u32,
    /// How many bytes the whole answer takes, or of a fault the message.
    pub needed: usize,
    /// The place of a fault, in bytes.
    pub lo: u32,
    pub hi: u32,
    /// The same place in UTF-16 units.
    pub start: u32,
    pub end: u32,
    /// The line of the place, counted from 1, and its column, counted from 1 in UTF-16 units.
    pub line: u32,
    pub column: u32,
}

/// The number of a goal.
pub(crate) fn number_of(goal: Goal) -> u32 {
    match goal {
        Goal::Script => 1,
        Goal::Module => 2,
        Goal::CommonJs => 3,
    }
}

impl EcmaOutcome {
    /// An outcome without a place.
    pub(crate) fn of(status: u32) -> EcmaOutcome {
        EcmaOutcome {
            status,
            goal: 0,
            needed: 0,
            lo: 0,
            hi: 0,
            start: 0,
            end: 0,
            line: 0,
            column: 0,
        }
    }

    /// The outcome of an answer that was written.
    pub(crate) fn written(goal: Option<Goal>, room: &Room<'_>) -> EcmaOutcome {
        EcmaOutcome {
            goal: goal.map_or(0, number_of),
            needed: room.needed(),
            ..EcmaOutcome::of(if room.is_enough() { DONE } else { NO_ROOM })
        }
    }

    /// The outcome at a place of a text.
    pub(crate) fn at(self, place: &Place<'_>, span: Span) -> EcmaOutcome {
        let (line, column) = place.at(span.lo);
        EcmaOutcome {
            lo: span.lo.0,
            hi: span.hi.0,
            start: narrow(place.units(span.lo)),
            end: narrow(place.units(span.hi)),
            line: narrow(line),
            column: narrow(column),
            ..self
        }
    }

    /// The outcome of a text that is refused: the message goes into the room.
    pub(crate) fn refused(
        alloc: Global,
        text: &str,
        refusal: &Refusal,
        levels: usize,
        room: &mut Room<'_>,
    ) -> Result<EcmaOutcome, AllocError> {
        if refusal.is_failure() {
            return Err(AllocError);
        }
        let place = Place::new(alloc, "", text.as_bytes())?;
        let status = match refusal {
            Refusal::TooDeep(_) => {
                room.put(format!(in alloc; "nested more deeply than {levels} levels")?.as_str());
                TOO_DEEP
            }
            _ => {
                room.put(
                    fault_of(alloc, &place, refusal, levels, "")?
                        .message
                        .as_str(),
                );
                FAULT
            }
        };
        let outcome = EcmaOutcome {
            needed: room.needed(),
            ..EcmaOutcome::of(status)
        };
        Ok(outcome.at(&place, refusal.span()))
    }
}

fn narrow(number: usize) -> u32 {
    u32::try_from(number).unwrap_or(u32::MAX)
}
