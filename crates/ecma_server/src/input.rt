// Messages as they come: a header with the length, and JSON.
use std::alloc::{AllocError, Global};
use std::io;
use std::io::Read;

/// A message may have so many bytes, and its header so many.
const MOST: usize = 256 << 20;

const HEADER: usize = 64 << 10;

/// What the input begins with.
#[derive(Drop)]
pub(crate) enum Taken {
    /// A message.
    Message(Vec<u8>),
    /// What is no message, and why.
    Bad(&'static str),
    /// A part of a message, or nothing.
    Part,
}

/// The bytes that were read and not taken yet.
#[derive(Drop)]
pub(crate) struct Input {
    alloc: Global,
    bytes: Vec<u8>,
    /// Where what wasn't taken begins.
    start: usize,
    /// So many bytes to come are passed over.
    skipped: usize,
}

impl Input {
    pub(crate) fn new(alloc: Global) -> Input {
        Input {
            alloc,
            bytes: Vec::new(alloc),
            start: 0,
            skipped: 0,
        }
    }

    /// Reads more bytes. Says whether there were any.
    pub(crate) fn read<R: Read>(&mut self, reader: &mut R) -> io::Result<bool> {
        let mut room = [0; 16384];
        let count = reader.read(&mut room)?;
        let read = room.get(..count).unwrap_or(&[]);
        let passed = read.len().min(self.skipped);
        self.skipped = self.skipped.saturating_sub(passed);
        self.bytes
            .extend_from_slice(read.get(passed..).unwrap_or(&[]))?;
        Ok(count > 0)
    }

    /// Takes what comes next.
    pub(crate) fn take(&mut self) -> Result<Taken, AllocError> {
        let rest = self.bytes.get(self.start..).unwrap_or(&[]);
        let Some(end) = end_of_header(rest) else {
            if rest.len() > HEADER {
                self.bytes.clear();
                self.start = 0;
                return Ok(Taken::Bad("a header without an end"));
            }
            return Ok(Taken::Part);
        };
        let body = self.start.saturating_add(end);
        match length_in(rest.get(..end).unwrap_or(&[])) {
            None => {
                self.start = body;
                Ok(Taken::Bad("a header without a length"))
            }
            Some(length) if length > MOST => {
                self.pass(body, length);
                Ok(Taken::Bad("a message of more than 256 MB"))
            }
            Some(length) => self.message(body, length),
        }
    }

    /// Takes the message that begins there, if all of it was read.
    fn message(&mut self, body: usize, length: usize) -> Result<Taken, AllocError> {
        let end = body.saturating_add(length);
        let Some(found) = self.bytes.get(body..end) else {
            return Ok(Taken::Part);
        };
        let mut message = Vec::new(self.alloc);
        message.extend_from_slice(found)?;
        self.start = end;
        self.compact()?;
        Ok(Taken::Message(message))
    }

    /// Passes over so many bytes from there on, read or to come.
    fn pass(&mut self, from: usize, length: usize) {
        let end = from.saturating_add(length);
        self.skipped = end.saturating_sub(self.bytes.len());
        self.start = end.min(self.bytes.len());
    }

    /// Lets go what was taken.
    fn compact(&mut self) -> Result<(), AllocError> {
        if self.start >= self.bytes.len() {
            self.bytes = Vec::new(self.alloc);
            self.start = 0;
        } else if self.start > MOST / 16 {
            let mut rest = Vec::new(self.alloc);
            rest.extend_from_slice(self.bytes.get(self.start..).unwrap_or(&[]))?;
            self.bytes = rest;
            self.start = 0;
        }
        Ok(())
    }
}

/// After which bytes the header ends: an empty line.
fn end_of_header(bytes: &[u8]) -> Option<usize> {
    for (at, window) in bytes.windows(4).enumerate() {
        if window == b"\r\n\r\n".as_slice() {
            return Some(at.saturating_add(4));
        }
    }
    None
}

/// The length that a header says: after what is no message, the header of the next one is at its end.
fn length_in(header: &[u8]) -> Option<usize> {
    let name = b"content-length:".as_slice();
    let mut value = None;
    for (at, window) in header.windows(name.len()).enumerate() {
        if window.eq_ignore_ascii_case(name) {
            value = header.get(at.saturating_add(name.len())..);
        }
    }
    let line = value?.split(|byte: &u8| *byte == b'\r').next()?;
    let digits = std::str::from_utf8(line).ok()?;
    digits.trim().parse::<usize>().ok()
}
