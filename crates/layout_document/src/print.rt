// The text of a layout, made from its parts.
use crate::gaps::Part;
use crate::marks::{Group, LineGap, When};
use crate::measure::{Measured, columns_of, measure};
use crate::style::Style;
use std::alloc::{AllocError, Global};

/// No line is indented by more columns: so the layout of what is nested deeply stays short.
const MOST_INDENT: usize = 64;

/// How a group is.
#[derive(Clone, Copy, PartialEq, Eq)]
enum Mode {
    /// On one line, with all groups in it.
    Flat,
    /// Held together: its places are no lines, but for the last one, if the line there is indented more than the first.
    Held,
    /// Broken.
    Broken,
}

/// A group that is open.
#[derive(Clone, Copy)]
struct Frame {
    /// By how many columns the first line is indented.
    indent: usize,
    mode: Mode,
    /// A line of it was begun that is indented more than the first.
    is_entered: bool,
}

/// What is written of a layout.
#[derive(Drop)]
struct Printer<'a> {
    text: &'a str,
    style: Style,
    measured: Measured,
    out: String,
    column: usize,
    /// By how many columns the line is indented.
    line: usize,
    frame: Frame,
    /// The groups around that of the frame.
    outer: Vec<Frame>,
}

/// The text of the parts.
pub fn print(
    alloc: Global,
    text: &str,
    parts: &[Part],
    style: Style,
) -> Result<String, AllocError> {
    let frame = Frame {
        indent: 0,
        mode: Mode::Broken,
        is_entered: false,
    };
    let mut printer = Printer {
        text,
        style,
        measured: measure(alloc, text, parts)?,
        out: String::new(alloc),
        column: 0,
        line: 0,
        frame,
        outer: Vec::new(alloc),
    };
    for (number, part) in parts.iter().enumerate() {
        printer.put(number, *part)?;
    }
    Ok(printer.out)
}

impl Printer<'_> {
    /// Writes the part of the number.
    fn put(&mut self, number: usize, part: Part) -> Result<(), AllocError> {
        match part {
            Part::Line { line, has_empty } if self.is_line(number, line) => {
                self.frame.is_entered = line.is_deeper;
                return self.put_line(has_empty);
            }
            Part::SameLine => return self.put_line(false),
            Part::Comma if self.has_last_line() => {
                self.column = self.column.saturating_add(1);
                self.out.push_str(",")?;
            }
            Part::Text(lo, hi) | Part::Note(lo, hi) => self.put_text(lo, hi)?,
            Part::Lines(lo, hi) => {
                self.put_text(lo, hi)?;
                self.column = 0;
                self.line = blanks_at(self.text, hi);
            }
            Part::Line { line, .. } if line.is_blank => self.out.push_str(" ")?,
            Part::Blank => self.out.push_str(" ")?,
            Part::Semicolon => self.out.push_str(";")?,
            Part::Open(group) => self.open(number, group)?,
            Part::Close => self.frame = self.outer.pop().unwrap_or(self.frame),
            _ => {}
        }
        self.column = self.column.saturating_add(columns_of(self.text, part));
        Ok(())
    }

    /// Writes what is in the text between two places.
    fn put_text(&mut self, lo: usize, hi: usize) -> Result<(), AllocError> {
        self.out.push_str(self.text.get(lo..hi).unwrap_or(""))
    }

    /// Whether a place is a line.
    fn is_line(&self, number: usize, line: LineGap) -> bool {
        match (line.when, self.frame.mode) {
            (When::Always, _) => true,
            (_, Mode::Flat) => false,
            (_, Mode::Held) => !line.is_deeper && self.has_last_line(),
            (When::Broken, Mode::Broken) => true,
            (When::Needed, Mode::Broken) => {
                let next = self.measured.rests.get(number.saturating_add(1));
                let rest = next.map_or(0, |rest| rest.broken);
                let columns = rest.saturating_add(usize::from(line.is_blank));
                self.style.width < self.column.saturating_add(columns)
            }
        }
    }

    /// Whether the closing bracket of the group begins a line.
    fn has_last_line(&self) -> bool {
        match self.frame.mode {
            Mode::Flat => false,
            Mode::Held => self.frame.indent < self.line,
            Mode::Broken => true,
        }
    }

    /// Begins a line.
    fn put_line(&mut self, has_empty: bool) -> Result<(), AllocError> {
        let indent = self.indent_of(self.frame);
        self.out.push_str(if has_empty { "\n\n" } else { "\n" })?;
        for _ in 0..indent {
            self.out.push_str(" ")?;
        }
        self.column = indent;
        self.line = indent;
        Ok(())
    }

    /// By how many columns the next line of a group is indented.
    fn indent_of(&self, frame: Frame) -> usize {
        let more = if frame.is_entered {
            self.style.indent
        } else {
            0
        };
        frame.indent.saturating_add(more).min(MOST_INDENT)
    }

    /// Begins a group, with the part of the number.
    fn open(&mut self, number: usize, group: Group) -> Result<(), AllocError> {
        let around = self.frame;
        let indent = match group {
            Group::Hole | Group::Flat => self.line.min(MOST_INDENT),
            Group::Deeper => {
                let indent = self.indent_of(around);
                indent.saturating_add(self.style.indent).min(MOST_INDENT)
            }
            Group::Operand => self.indent_of(around).saturating_add(2).min(MOST_INDENT),
            _ => self.indent_of(around),
        };
        let mode = self.mode_of(number, group);
        self.outer.push(around)?;
        self.frame = Frame {
            indent,
            mode,
            is_entered: false,
        };
        Ok(())
    }

    /// How a group is that begins with the part of the number.
    fn mode_of(&self, number: usize, group: Group) -> Mode {
        let around = self.frame.mode;
        match group {
            Group::Flat => Mode::Flat,
            Group::Hole if self.fits(number) => Mode::Flat,
            Group::Hole => Mode::Broken,
            _ if around == Mode::Flat => Mode::Flat,
            Group::Nested | Group::Deeper => around,
            Group::Returned if around == Mode::Broken => Mode::Broken,
            Group::Chain {
                is_broken: true,
                ..
            } => Mode::Broken,
            _ if self.fits(number) => Mode::Flat,
            Group::Arguments if self.head_fits(number) => Mode::Held,
            Group::Chain {
                is_loose: false,
                ..
            } if self.holds_chain(number) => Mode::Held,
            _ => Mode::Broken,
        }
    }

    /// Whether a group goes on one line, with what is after it.
    fn fits(&self, number: usize) -> bool {
        let end = self.end_of(number);
        self.goes(self.column, number, end, self.rest_at(end))
    }

    /// Where a group closes.
    fn end_of(&self, number: usize) -> usize {
        self.measured.ends.get(number).copied().unwrap_or(0)
    }

    /// The place of a part.
    fn place_of(&self, number: usize) -> usize {
        self.measured.places.get(number).copied().unwrap_or(0)
    }

    /// How many columns there are from a part to the next place for a line.
    fn rest_at(&self, number: usize) -> usize {
        match self.measured.rests.get(number) {
            Some(rest) if self.frame.mode == Mode::Held => rest.held,
            Some(rest) => rest.broken,
            None => 0,
        }
    }

    /// Whether what is before the place of a group goes on one line.
    fn head_fits(&self, number: usize) -> bool {
        self.goes(self.column, number, self.place_of(number), 0)
    }

    /// Whether a chain that isn't on one line is held together. Its last part alone may have lines. Either what is before
    /// the first of these goes on the line of the chain; or that part doesn't go on a line of its own, but what is before
    /// the place of its arguments goes on the line of the chain. So a layout of the layout is held, too.
    fn holds_chain(&self, number: usize) -> bool {
        let (place, end) = (self.place_of(number), self.end_of(number));
        let sums = &self.measured.sums;
        let (Some(first), Some(part), Some(last)) = (
            sums.get(number),
            sums.get(place),
            sums.get(end),
        ) else {
            return false;
        };
        if first.lines < part.lines {
            return false;
        }
        let line = self.measured.lines.get(first.lines).copied().unwrap_or(0);
        let columns = line.saturating_sub(first.columns);
        if part.lines < last.lines && self.column.saturating_add(columns) <= self.style.width {
            return true;
        }
        let indent = self.indent_of(self.frame).saturating_add(self.style.indent);
        !self.goes(indent, place, end, self.rest_at(end))
            && self.goes(self.column, number, self.place_of(place), 0)
    }

    /// Whether what is between two parts goes on a line from a column on, with so many columns after it.
    fn goes(&self, column: usize, first: usize, last: usize, rest: usize) -> bool {
        match (self.measured.sums.get(first), self.measured.sums.get(last)) {
            (Some(first), Some(last)) => {
                let between = last.columns.saturating_sub(first.columns);
                let columns = column.saturating_add(between).saturating_add(rest);
                first.lines == last.lines && columns <= self.style.width
            }
            _ => false,
        }
    }
}

/// How many blanks the text has at a place.
fn blanks_at(text: &str, place: usize) -> usize {
    let rest = text.as_bytes().get(place..).unwrap_or(&[]);
    rest.iter()
        .position(|byte| *byte != b' ')
        .unwrap_or(rest.len())
}
