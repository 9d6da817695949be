// The positions of many places of a text.
use crate::places::{Position, Range, Units};
use std::alloc::{AllocError, Global};
use swc_ecma_parser::context::span::Span;

/// How many units a character is.
fn units_of(units: Units, letter: char) -> usize {
    match units {
        Units::Utf16 => letter.len_utf16(),
        Units::Utf8 => letter.len_utf8(),
    }
}

/// A place of a text whose position is known.
#[derive(Clone, Copy)]
struct Mark {
    at: usize,
    position: Position,
}

/// So many bytes lie between two marks at most, but for a character.
const STEP: usize = 512;

/// The positions of a text: known at the beginning of each line, and every few bytes of a long one.
#[derive(Drop)]
pub(crate) struct LineIndex<'a> {
    text: &'a str,
    marks: Vec<Mark>,
    units: Units,
}

impl<'a> LineIndex<'a> {
    /// The lines of a text. The only error is out of memory.
    pub(crate) fn new(
        alloc: Global,
        text: &'a str,
        units: Units,
    ) -> Result<LineIndex<'a>, AllocError> {
        let mut here = Mark {
            at: 0,
            position: Position {
                line: 0,
                character: 0,
            },
        };
        let mut marks = vec![in alloc; here]?;
        let mut before = ' ';
        let mut last = 0;
        for (at, letter) in text.char_indices() {
            here.at = at;
            let is_new = ends_line(before, letter);
            if is_new {
                here.position = next_line(here.position);
            }
            if is_new || at.saturating_sub(last) >= STEP {
                marks.push(here)?;
                last = at;
            }
            here.position.character = here
                .position
                .character
                .saturating_add(units_of(units, letter));
            before = letter;
        }
        if ends_line(before, ' ') {
            marks.push(Mark {
                at: text.len(),
                position: next_line(here.position),
            })?;
        }
        Ok(LineIndex { text, marks, units })
    }

    /// The position of a byte.
    pub(crate) fn position(&self, offset: usize) -> Position {
        let count = self.marks.partition_point(|mark| mark.at <= offset);
        let Some(mark) = self.mark_before(count) else {
            return Position {
                line: 0,
                character: 0,
            };
        };
        let mut position = mark.position;
        for letter in self.text.get(mark.at..offset).unwrap_or("").chars() {
            position.character = position
                .character
                .saturating_add(units_of(self.units, letter));
        }
        position
    }

    /// The last of the first marks.
    fn mark_before(&self, count: usize) -> Option<Mark> {
        self.marks.get(count.checked_sub(1)?).copied()
    }

    /// The positions of a span.
    pub(crate) fn range(&self, span: Span) -> Range {
        self.between(span.lo.0 as usize, span.hi.0 as usize)
    }

    /// The positions of two bytes.
    pub(crate) fn between(&self, start: usize, end: usize) -> Range {
        Range {
            start: self.position(start),
            end: self.position(end),
        }
    }

    /// How many units a part of the text is.
    pub(crate) fn width(&self, span: Span) -> usize {
        let mut width: usize = 0;
        let part = self.text.get(span.lo.0 as usize..span.hi.0 as usize);
        for letter in part.unwrap_or("").chars() {
            width = width.saturating_add(units_of(self.units, letter));
        }
        width
    }
}

/// Whether a line ends between two characters.
fn ends_line(before: char, letter: char) -> bool {
    before == '\n' || (before == '\r' && letter != '\n')
}

fn next_line(position: Position) -> Position {
    Position {
        line: position.line.saturating_add(1),
        character: 0,
    }
}
