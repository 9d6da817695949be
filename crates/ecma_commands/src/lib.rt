//! What the program `ecma` does: it checks, formats and takes apart ECMAScript programs, in files, folders and standard
//! input.
//!
//! Its statuses are those of `grep` and `diff`: `DONE`, `FOUND` and `FAILED`.
#![tactic(auto)]

mod arguments;
mod colour;
pub mod command;
mod estree;
pub mod faults;
mod files;
pub mod findings;
pub mod format;
pub mod goals;
mod help;
mod hints;
pub mod lint;
pub mod listing;
mod output;
mod parts;
mod pretty;
mod session;
mod source;

use crate::arguments::{asked_by, words_of};
use crate::command::Command;
use clap::error::ErrorKind;
use std::io;

/// The status where all is well.
pub const DONE: u8 = 0;

/// The status where something was found: a fault, a finding of `lint`, a file that `format --check` lists.
pub const FOUND: u8 = 1;

/// The status where the arguments are bad, where a file can't be read or written, or where memory runs out.
pub const FAILED: u8 = 2;

/// Which version the program is.
pub const VERSION: &str = "0.1.0, over the parser of swc_ecma_parser 0.148.1";

/// What comes of a run.
#[derive(Clone, Copy, PartialEq, Eq)]
pub enum Outcome {
    /// It is over, with the program's status.
    Status(u8),
    /// An editor is to be served.
    Serve,
}

/// Does what the words after the program's name ask for, but for `lsp`.
pub fn run(rt: &HostRuntime) -> Outcome {
    match run_asked(rt) {
        Ok(outcome) => outcome,
        Err(failure) => Outcome::Status(output::report_failure(rt, "ecma", &failure)),
    }
}

/// Does that. What fails is not of one file.
fn run_asked(rt: &HostRuntime) -> io::Result<Outcome> {
    let words = words_of(rt)?;
    match asked_by(rt.alloc(), &words) {
        Ok(asked) => {
            if asked.options.command == Command::Lsp {
                return Ok(Outcome::Serve);
            }
            let status = session::run_all(rt, asked.options, &asked.paths)?;
            Ok(Outcome::Status(status))
        }
        Err(told) => Ok(Outcome::Status(tell(rt, &told)?)),
    }
}

/// Writes help or the version, or says what is wrong with the words. Answers the status.
fn tell(rt: &HostRuntime, told: &clap::Error) -> io::Result<u8> {
    match told.kind() {
        ErrorKind::OutOfMemory => Err(io::Error::from(io::ErrorKind::OutOfMemory)),
        ErrorKind::DisplayHelp | ErrorKind::DisplayVersion => {
            let text = format!(in rt.alloc(); "{told}")?;
            output::say(rt, text.trim_end())
        }
        _ => {
            let _ = eprint!(rt; "{told}");
            Ok(FAILED)
        }
    }
}
