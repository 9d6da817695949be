// Positions in UTF-16 units.
use std::alloc::{AllocError, Global};
use swc_context::span::BytePos;
use swc_lexer::lines::Lines;

/// The positions of a text, counted in UTF-16 units, as JavaScript counts them.
#[derive(Drop)]
pub(crate) struct Positions<'a> {
    /// None where the text is ASCII.
    lines: Option<Lines<'a>>,
}

impl<'a> Positions<'a> {
    pub(crate) fn new(alloc: Global, text: &'a str) -> Result<Positions<'a>, AllocError> {
        if text.is_ascii() {
            return Ok(Positions { lines: None });
        }
        let lines = Lines::new(alloc, text)?;
        Ok(Positions { lines: Some(lines) })
    }

    /// The same with lines also where the text is ASCII.
    pub(crate) fn with_lines(alloc: Global, text: &'a str) -> Result<Positions<'a>, AllocError> {
        let lines = Lines::new(alloc, text)?;
        Ok(Positions { lines: Some(lines) })
    }

    /// The line of a byte, counted from 1, and its column, counted from 0 in UTF-16 units.
    pub(crate) fn place(&self, at: BytePos) -> (usize, usize) {
        match &self.lines {
            Some(lines) => {
                let found = lines.position(at.0 as usize);
                (found.line, found.column.saturating_sub(1))
            }
            None => (1, at.0 as usize),
        }
    }

    /// How many UTF-16 units are before a byte of the text.
    pub(crate) fn at(&self, at: BytePos) -> u32 {
        match &self.lines {
            Some(lines) => u32::try_from(lines.utf16_offset(at.0 as usize)).unwrap_or(u32::MAX),
            None => at.0,
        }
    }
}
