// Options, and texts that are read by them.
use crate::outcome::{BAD_OPTION, EcmaOutcome, NOT_UTF8, OUT_OF_MEMORY, number_of};
use crate::room::Room;
use early_errors::early_errors;
use early_errors::fault::EarlyError;
use ecma_commands::faults::Job;
use ecma_commands::findings::{Place, early_fault_of};
use ecma_commands::goals::{NoProgram, read_program};
use layout_document::style::{Commas, Style};
use std::alloc::{AllocError, Global};
use std::str;
use tree_types::tree::{Goal, Program};

/// How deeply expressions may be nested, if no option says it: so deep they take 3 MB of stack at most.
const LEVELS: u32 = 200;

/// The bits of `extras`.
pub(crate) const LOC: u32 = 1;

pub(crate) const RANGE: u32 = 2;

pub(crate) const COMMENTS: u32 = 4;

pub(crate) const TOKENS: u32 = 8;

/// What is asked for. Of each number 0 is what is usual.
#[repr(C)]
#[derive(Clone, Copy)]
pub struct EcmaOptions {
    /// What the text is read as: what it is 0, a script 1, a module 2, a CommonJS module 3.
    pub goal: u32,
    /// How deeply expressions may be nested: 200 if it is 0. Each level takes at most 14,000 bytes of stack.
    pub levels: u32,
    /// What trees have beside their nodes, as a sum: lines and columns 1, places as pairs 2, comments 4, tokens 8.
    pub extras: u32,
    /// How many findings are listed at most; all if it is 0.
    pub most: u32,
    /// How wide lines of layouts are: 80 if it is 0, and otherwise 20 to 1000.
    pub width: u32,
    /// By how many columns they are indented more: 2 if it is 0, and 16 at most.
    pub indent: u32,
    /// Where commas are after last items: wherever they may be 0, in lists but not in arguments 1, nowhere 2.
    pub commas: u32,
}

/// Options that were found good.
#[derive(Clone, Copy)]
pub(crate) struct Asked {
    pub(crate) job: Job,
    pub(crate) extras: u32,
    pub(crate) most: usize,
    pub(crate) style: Style,
}

impl EcmaOptions {
    /// What is asked for, if each option has a value that it may have.
    pub(crate) fn asked(self) -> Option<Asked> {
        let goal = match self.goal {
            0 => None,
            1 => Some(Goal::Script),
            2 => Some(Goal::Module),
            3 => Some(Goal::CommonJs),
            _ => return None,
        };
        let commas = match self.commas {
            0 => Commas::All,
            1 => Commas::Lists,
            2 => Commas::None,
            _ => return None,
        };
        let (width, indent) = (or_usual(self.width, 80), or_usual(self.indent, 2));
        if !(20..=1000).contains(&width)
            || indent > 16
            || self.extras > LOC + RANGE + COMMENTS + TOKENS
        {
            return None;
        }
        Some(Asked {
            job: Job {
                goal,
                levels: or_usual(self.levels, LEVELS) as usize,
            },
            extras: self.extras,
            most: or_usual(self.most, u32::MAX) as usize,
            style: Style {
                width: width as usize,
                indent: indent as usize,
                commas,
            },
        })
    }
}

fn or_usual(number: u32, usual: u32) -> u32 {
    if number == 0 { usual } else { number }
}

/// What a call answers whose text and options are good; or what is wrong with these.
pub(crate) fn answer<F>(text: &[u8], options: EcmaOptions, answered: F) -> EcmaOutcome
where
    F: FnOnce(&str, Asked) -> Result<EcmaOutcome, AllocError>,
    requires { F.IsAlwaysCallable answered }
{
    let Some(asked) = options.asked() else {
        return EcmaOutcome::of(BAD_OPTION);
    };
    match str::from_utf8(text) {
        Ok(text) => answered(text, asked).unwrap_or(EcmaOutcome::of(OUT_OF_MEMORY)),
        Err(error) => {
            let at = u32::try_from(error.valid_up_to()).unwrap_or(u32::MAX);
            EcmaOutcome {
                lo: at,
                hi: at,
                ..EcmaOutcome::of(NOT_UTF8)
            }
        }
    }
}

/// The program of a text, or why it has none, a message of which is in the room then. Early errors are looked for where
/// that is asked for.
pub(crate) fn program_of(
    alloc: Global,
    text: &str,
    job: Job,
    room: &mut Room<'_>,
) -> Result<Result<Program, EcmaOutcome>, AllocError> {
    match read_program(alloc, text, job.goal, job.levels) {
        Ok(program) => Ok(Ok(program)),
        Err(NoProgram { refusal, goal }) => {
            let outcome = EcmaOutcome::refused(alloc, text, &refusal, job.levels, room)?;
            Ok(Err(EcmaOutcome {
                goal: number_of(goal),
                ..outcome
            }))
        }
    }
}

/// The program of a text that has no early error, or why it has none.
pub(crate) fn valid_program_of(
    alloc: Global,
    text: &str,
    job: Job,
    room: &mut Room<'_>,
) -> Result<Result<Program, EcmaOutcome>, AllocError> {
    let program = match program_of(alloc, text, job, room)? {
        Ok(program) => program,
        Err(outcome) => return Ok(Err(outcome)),
    };
    match early_errors(alloc, &program, text)?.first() {
        None => Ok(Ok(program)),
        Some(error) => {
            let outcome = early(alloc, text, error, room)?;
            Ok(Err(EcmaOutcome {
                goal: number_of(program.goal),
                ..outcome
            }))
        }
    }
}

/// The outcome of a text with an early error.
fn early(
    alloc: Global,
    text: &str,
    error: &EarlyError,
    room: &mut Room<'_>,
) -> Result<EcmaOutcome, AllocError> {
    let found = early_fault_of(alloc, text, error)?;
    room.put(found.message.as_str());
    let outcome = EcmaOutcome {
        needed: room.needed(),
        ..EcmaOutcome::of(crate::outcome::FAULT)
    };
    let place = Place::new(alloc, "", text.as_bytes())?;
    Ok(outcome.at(&place, found.span))
}
