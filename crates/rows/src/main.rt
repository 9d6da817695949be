//! Answers rows of files: what calls of the parser, and of what it is built on, make of texts.
//!
//! The arguments are names of files. Each is read, and its rows are answered; then the lines that aren't as the file
//! has them are written, and how many there are. With no argument a file is read from standard input, and written with
//! its answers, each row before it is answered: so after a crash its row is the last line. With the argument `calls`
//! one row is read from standard input for a run in which a request for memory is refused (`parser_rows::refusing`).
//!
//! The status is 1 where a row isn't as its file has it, and 3 where something can't be read. A row that can't be read
//! is written on standard error.
#![tactic(auto)]

mod base;
mod clients;
mod file;
mod long;

use crate::file::{compare, write_answered};
use parser_rows::refusing::lines_of;
use std::io::{ErrorKind, Read, Write};
use std::process::ExitCode;
use std::{env, fs, io, str};

/// The status where a row isn't as its file has it.
const OTHERWISE: u8 = 1;

/// The status where a file or a row can't be read.
const UNREAD: u8 = 3;

/// What is on standard input.
fn input(rt: &HostRuntime) -> io::Result<Vec<u8>> {
    let mut text = Vec::new(rt.alloc());
    rt.reader().read_to_end(&mut text)?;
    Ok(text)
}

/// Answers the file on standard input.
fn answer_input(rt: &HostRuntime) -> io::Result<u8> {
    let bytes = input(rt)?;
    let text = str::from_utf8(&bytes).map_err(|_| io::Error::from(ErrorKind::InvalidData))?;
    write_answered(rt, text)?;
    Ok(0)
}

/// Makes the calls of the row on standard input.
fn make_calls(rt: &HostRuntime) -> io::Result<u8> {
    let row = input(rt)?;
    match lines_of(rt.alloc(), &row) {
        Some(lines) => io::writer(rt).write_all(lines.as_bytes())?,
        None => return Ok(UNREAD),
    }
    Ok(0)
}

/// Compares the file of the name with what it answers.
fn compare_file(rt: &HostRuntime, name: &str) -> io::Result<u8> {
    let text = fs::read_to_string(rt, name)?;
    let is_same = compare(rt, name, text.as_str())?;
    Ok(if is_same { 0 } else { OTHERWISE })
}

/// Compares each file that an argument names, or does what the arguments say otherwise.
fn run(rt: &HostRuntime) -> io::Result<u8> {
    let mut status = None;
    for name in env::args(rt)?.skip(1) {
        let found = match name.as_str() {
            "calls" => make_calls(rt)?,
            name => compare_file(rt, name)?,
        };
        status = Some(found.max(status.unwrap_or(0)));
    }
    match status {
        Some(status) => Ok(status),
        None => answer_input(rt),
    }
}

fn main(rt: HostRuntime) -> ExitCode {
    ExitCode::from(run(&rt).unwrap_or(UNREAD))
}
