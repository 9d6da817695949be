// Files of rows, written as they are read, with what is answered in place of what they say.
use crate::clients::{show_client, show_program};
use crate::long::show_long;
use lower_rows::row::{Row, UNREAD, unescaped};
use parser_rows::kinds::show_answers;
use std::alloc::{AllocError, Global};
use std::io;
use std::io::{ErrorKind, Write};

/// What comes before a row under a heading.
const INDENT: &str = "    ";

/// What comes before what is answered in another manner.
const OTHER: &str = "        ";

/// What the rows under a heading have in common.
#[derive(Clone, Copy)]
struct Heading<'a> {
    calls: &'a str,
    setting: &'a str,
}

/// What is before the first heading.
const NO_HEADING: Heading<'static> = Heading {
    calls: "",
    setting: "",
};

/// Writes the text of a file with what its rows answer now: each row before it is answered.
///
/// A line with no ` | ` is a note to the reader. One that ends with `:` is a heading, `calls | setting:`, and the lines
/// after it that are indented by four blanks are rows of it, `text | answer`. Any other line is a row by itself,
/// `calls | setting | text | answer`. What is answered in another manner, if it isn't the same, follows the row,
/// indented by eight.
///
/// A file of programs, each with its tree, has a line of `=` before each of them, and one of `-` before its tree.
pub(crate) fn write_answered(rt: &HostRuntime, text: &str) -> io::Result<()> {
    if text.starts_with(PROGRAM) {
        return write_trees(rt, text);
    }
    let mut out = String::new(rt.alloc());
    let mut heading = NO_HEADING;
    for line in text.lines() {
        if !is_other(line) {
            heading = heading_of(line).unwrap_or(heading);
            answer_line(rt, &mut out, heading, line, true)?;
        }
    }
    Ok(())
}

/// The line before a program, and that between it and its tree.
const PROGRAM: &str = "====\n";

const TREE: &str = "----\n";

/// Writes the text of a file of programs, each with its tree as it is now.
fn write_trees(rt: &HostRuntime, text: &str) -> io::Result<()> {
    let mut out = String::new(rt.alloc());
    for rest in text.split(PROGRAM).skip(1) {
        let (program, _) = rest.split_once(TREE).unwrap_or((rest, ""));
        write!(out, "{PROGRAM}{program}{TREE}")?;
        hand_on(rt, &mut out, true)?;
        show_program(rt.alloc(), &mut out, program)?;
        hand_on(rt, &mut out, true)?;
    }
    Ok(())
}

/// What is compared of a file.
#[derive(Drop)]
struct Comparison {
    /// What a row, or a program, is in the file, and what it is now.
    wanted: String,
    found: String,
    /// What is to be written.
    out: String,
    count: u32,
    is_same: bool,
}

impl Comparison {
    fn new(alloc: Global) -> Comparison {
        Comparison {
            wanted: String::new(alloc),
            found: String::new(alloc),
            out: String::new(alloc),
            count: 0,
            is_same: true,
        }
    }

    /// Counts a line.
    fn count_one(&mut self) {
        self.count = self.count.saturating_add(1);
    }

    /// Ends a row, or a program: its lines are written if they are others now.
    fn end(&mut self, name: &str) -> Result<(), AllocError> {
        if self.wanted != self.found {
            self.is_same = false;
            writeln!(self.out, "{name}:")?;
            push_lines(&mut self.out, "- ", self.wanted.as_str())?;
            push_lines(&mut self.out, "+ ", self.found.as_str())?;
        }
        self.wanted.clear();
        self.found.clear();
        Ok(())
    }
}

/// Writes the lines, each after the sign.
fn push_lines(out: &mut String, sign: &str, lines: &str) -> Result<(), AllocError> {
    for line in lines.lines() {
        writeln!(out, "{sign}{line}")?;
    }
    Ok(())
}

/// Writes each row of the file that is answered otherwise, after a `-`, and what it is now, after a `+`; and then how
/// many lines with a bar there are, or how many programs. Answers whether all is as the file has it.
pub(crate) fn compare(rt: &HostRuntime, name: &str, text: &str) -> io::Result<bool> {
    let mut file = Comparison::new(rt.alloc());
    if text.starts_with(PROGRAM) {
        compare_trees(rt.alloc(), &mut file, name, text)?;
    } else {
        compare_rows(rt, &mut file, name, text)?;
    }
    writeln!(file.out, "{name}: {} lines", file.count)?;
    io::writer(rt).write_all(file.out.as_bytes())?;
    Ok(file.is_same)
}

/// Compares the rows of a file.
fn compare_rows(rt: &HostRuntime, file: &mut Comparison, name: &str, text: &str) -> io::Result<()> {
    let mut heading = NO_HEADING;
    for line in text.lines() {
        if !is_other(line) {
            file.end(name)?;
            heading = heading_of(line).unwrap_or(heading);
            answer_line(rt, &mut file.found, heading, line, false)?;
        }
        writeln!(file.wanted, "{line}")?;
        if line.contains(" | ") {
            file.count_one();
        }
    }
    Ok(file.end(name)?)
}

/// Compares the trees of a file of programs.
fn compare_trees(
    alloc: Global,
    file: &mut Comparison,
    name: &str,
    text: &str,
) -> Result<(), AllocError> {
    for rest in text.split(PROGRAM).skip(1) {
        let (program, tree) = rest.split_once(TREE).unwrap_or((rest, ""));
        file.wanted.push_str(tree)?;
        show_program(alloc, &mut file.found, program)?;
        file.count_one();
        file.end(name)?;
    }
    Ok(())
}

/// Writes the line, with its answers if it is a row: before these are found, if it is to be written at once.
fn answer_line(
    rt: &HostRuntime,
    out: &mut String,
    heading: Heading<'_>,
    line: &str,
    is_written: bool,
) -> io::Result<()> {
    match row_of(heading, line) {
        Some(row) => {
            begin_row(out, line, row)?;
            hand_on(rt, out, is_written)?;
            answer(rt, out, row)?;
        }
        None => out.push_str(line)?,
    }
    out.push_str("\n")?;
    hand_on(rt, out, is_written)
}

/// Writes what is there on standard output, and empties it.
fn hand_on(rt: &HostRuntime, out: &mut String, is_written: bool) -> io::Result<()> {
    if is_written {
        io::writer(rt).write_all(out.as_bytes())?;
        out.clear();
    }
    Ok(())
}

/// Writes what the row answers. One that can't be read is written on standard error.
fn answer(rt: &HostRuntime, out: &mut String, row: Row<'_>) -> io::Result<()> {
    let found = answers(rt.alloc(), row)?;
    if let Some((_, why)) = found.as_str().split_once(UNREAD) {
        let Row {
            calls,
            setting,
            text,
        } = row;
        let line = format!(in rt.alloc(); "{why}: {calls} | {setting} | {text}\n")?;
        rt.stderr().write_all(line.as_bytes())?;
        return Err(ErrorKind::InvalidInput.into());
    }
    Ok(out.push_str(found.as_str())?)
}

/// What the row answers: of a client, of a long text, or of the parser.
fn answers(alloc: Global, row: Row<'_>) -> Result<String, AllocError> {
    let mut out = String::new(alloc);
    match row.calls.split_once(": ") {
        Some(("client", calls)) => {
            let text = unescaped(alloc, row.text)?;
            show_client(alloc, &mut out, Row { calls, ..row }, text.as_str())?;
        }
        Some(("long", calls)) => show_long(alloc, &mut out, Row { calls, ..row })?,
        _ => show_answers(alloc, &mut out, row)?,
    }
    Ok(out)
}

/// The heading that the line is, if it is one.
fn heading_of(line: &str) -> Option<Heading<'_>> {
    let (calls, setting) = line.strip_suffix(':')?.split_once(" | ")?;
    if line.starts_with(INDENT) || setting.contains(" | ") {
        return None;
    }
    Some(Heading { calls, setting })
}

/// Writes the row up to its answers, under its heading or by itself.
fn begin_row(out: &mut String, line: &str, row: Row<'_>) -> Result<(), AllocError> {
    if line.starts_with(INDENT) {
        write!(out, "{INDENT}{} | ", row.text)
    } else {
        write!(out, "{} | {} | {} | ", row.calls, row.setting, row.text)
    }
}

/// The row that the line is, if it is one.
fn row_of<'a>(heading: Heading<'a>, line: &'a str) -> Option<Row<'a>> {
    if heading_of(line).is_some() {
        return None;
    }
    if let Some(rest) = line.strip_prefix(INDENT) {
        let text = text_of(rest)?;
        let Heading { calls, setting } = heading;
        return Some(Row {
            calls,
            setting,
            text,
        });
    }
    let (calls, rest) = line.split_once(" | ")?;
    let (setting, rest) = rest.split_once(" | ")?;
    let text = text_of(rest)?;
    Some(Row {
        calls,
        setting,
        text,
    })
}

/// The text before the bar, after which there may be nothing.
fn text_of(rest: &str) -> Option<&str> {
    match rest.split_once(" | ") {
        Some((text, _)) => Some(text),
        None => rest.strip_suffix(" |"),
    }
}

/// Whether the line says what is answered in another manner.
fn is_other(line: &str) -> bool {
    line.starts_with(OTHER)
}
