//! Reads each list of a few tokens by the parser, and compares what it reads with files that say which lists the
//! standard's productions derive, and with which trees.
//!
//! `lists FILE ..` reads the lists of each row of the files. Where they aren't as the row says, it writes the row after
//! a `-`, and what the parser reads after a `+`. Then it writes a line for each file, with the number of its rows. The
//! status is 1 if a row differs, and 3 if a row or a file can't be read.
//!
//! `lists show ROW` writes the lists of one row that the parser reads whole, each with its tree.
#![tactic(auto)]

mod check;
mod lists;
mod reading;
mod row;

use crate::check::{UNREAD, check_file, show_row};
use std::process::ExitCode;
use std::{env, io};

/// Shows a row, or compares the files: what the arguments say. Answers the program's status.
fn run(rt: &HostRuntime) -> io::Result<u8> {
    let mut status = 0;
    let mut is_shown = false;
    for argument in env::args(rt)?.skip(1) {
        if argument.as_str() == "show" {
            is_shown = true;
        } else if is_shown {
            status = show_row(rt, argument.as_str())?;
        } else {
            status = status.max(check_file(rt, argument.as_str())?);
        }
    }
    Ok(status)
}

fn main(rt: HostRuntime) -> ExitCode {
    match run(&rt) {
        Ok(status) => ExitCode::from(status),
        Err(failure) => {
            let _ = eprintln!(rt; "lists: {failure}");
            ExitCode::from(UNREAD)
        }
    }
}
