// Files of rows, compared with what the parser reads.
use crate::lists::{Lists, lists_of};
use crate::row::row_of;
use std::alloc::{AllocError, Global};
use std::{fs, io};

/// The status where a row differs.
const DIFFERS: u8 = 1;

/// The status where a row can't be read, or a file.
pub(crate) const UNREAD: u8 = 3;

/// Writes the lists of a row that the parser reads whole, each with its tree. Answers the program's status.
pub(crate) fn show_row(rt: &HostRuntime, line: &str) -> io::Result<u8> {
    match lists_in(rt.alloc(), line)? {
        Some(lists) => {
            print!(rt; "{}", lists.lines)?;
            Ok(0)
        }
        None => unread(rt, "show", line),
    }
}

/// Says what can't be read.
fn unread(rt: &HostRuntime, name: &str, what: &str) -> io::Result<u8> {
    eprintln!(rt; "{name}: can't be read: {what}")?;
    Ok(UNREAD)
}

/// Compares the rows of a file, and writes how many there are. Answers the program's status.
pub(crate) fn check_file(rt: &HostRuntime, name: &str) -> io::Result<u8> {
    let Ok(text) = fs::read_to_string(rt, name) else {
        return unread(rt, name, "the file");
    };
    let mut status = 0;
    let mut count: usize = 0;
    for line in text.lines() {
        if line.contains(" | ") {
            status = status.max(check_row(rt, name, line)?);
            count = count.saturating_add(1);
        }
    }
    println!(rt; "{name}: {count} rows")?;
    Ok(status)
}

/// Compares a row, and writes how it differs.
fn check_row(rt: &HostRuntime, name: &str, line: &str) -> io::Result<u8> {
    let Some((front, answer)) = line.rsplit_once(" | ") else {
        return unread(rt, name, line);
    };
    let Some(lists) = lists_in(rt.alloc(), front)? else {
        return unread(rt, name, line);
    };
    let found = lists.summary(rt.alloc())?;
    if found.as_str() == answer {
        return Ok(0);
    }
    println!(rt; "{name}:\n- {front} | {answer}\n+ {front} | {found}")?;
    Ok(DIFFERS)
}

/// The lists of the row that the line has, if it has one.
fn lists_in(alloc: Global, line: &str) -> Result<Option<Lists>, AllocError> {
    match row_of(alloc, line)? {
        Some(row) => Ok(Some(lists_of(alloc, &row)?)),
        None => Ok(None),
    }
}
