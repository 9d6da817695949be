// A place in the text as it is shown to people: its line, and a line of marks below it.
ghost use Rattle.std.specs.Prelude.{◌≤◌, length};

use crate::error::Error;
use crate::span::Span;
use std::fmt;

/// How many characters of a line are shown at most.
const WIDTH: usize = 120;

/// How many of these are shown at most before the place.
const BEFORE: usize = 60;

/// Two lines, to be printed: the line of the text in which a place begins, and `^` below each character of the place,
/// or one `^` for an empty place. At most 120 characters of a line are shown, at most 60 of them before the place.
/// Lines end with LF, CR, CRLF, LS or PS (ECMA-262, 12.3). A tab is kept, and bytes that aren't UTF-8 and other control
/// characters are shown as U+FFFD.
#[derive(Clone, Copy)]
pub struct Frame<'a> {
    text: &'a [u8],
    span: Span,
}

impl<'a> Frame<'a> {
    /// The line of the text in which the place begins, or the last line if it begins after the text.
    pub fn new(text: &'a [u8], span: Span) -> Frame<'a> {
        Frame { text, span }
    }
}

impl Error {
    /// The line of the text in which the fault is, to be printed, with marks below the fault.
    pub fn frame<'a>(&self, text: &'a [u8]) -> Frame<'a> {
        Frame::new(text, self.span())
    }
}

impl fmt::Display for Frame<'_> {
    fn fmt<W: fmt::Write>(&self, f: &mut fmt::Formatter<W>) -> fmt::Result {
        let text = self.text;
        let span = self.span.in_order();
        let lo = text.len().min(span.lo.0 as usize);
        let start = window_start(text, lo);
        let end = window_end(text, start).max(lo);
        let hi = end.min(span.hi.0 as usize).max(lo);
        put(f, &text[start..end], Role::Text)?;
        f.write_str("\n")?;
        put(f, &text[start..lo], Role::Blank)?;
        if lo == hi {
            return f.write_str("^");
        }
        put(f, &text[lo..hi], Role::Mark)
    }
}

/// Where the line begins that the place is in, but at most `BEFORE` characters before the place.
fn window_start(text: &[u8], lo: usize) -> usize
    requires { lo ≤ length text.now }
    ensures { result ≤ lo }
{
    let mut start = lo;
    let mut left = BEFORE;
    while start > 0 && left > 0 && !ends_with_break(&text[..start]) {
        start -= 1;
        if !is_continuation(text[start]) {
            left -= 1;
        }
    }
    start
}

/// Where the line ends, but at most `WIDTH` characters after `start`.
fn window_end(text: &[u8], start: usize) -> usize
    requires { start ≤ length text.now }
    ensures from { start ≤ result }
    ensures to { result ≤ length text.now }
{
    let mut left = WIDTH;
    for end in start..text.len() {
        if starts_with_break(&text[end..]) {
            return end;
        }
        if !is_continuation(text[end]) {
            if left == 0 {
                return end;
            }
            left -= 1;
        }
    }
    text.len()
}

/// Whether a line ends where these bytes begin.
fn starts_with_break(rest: &[u8]) -> bool {
    matches!(rest, [b'\n' | b'\r', ..] | [0xe2, 0x80, 0xa8 | 0xa9, ..])
}

/// Whether a line ends where these bytes end.
fn ends_with_break(front: &[u8]) -> bool {
    matches!(front, [.., b'\n' | b'\r'] | [.., 0xe2, 0x80, 0xa8 | 0xa9])
}

/// Whether a byte goes on with a character that an earlier byte begins.
fn is_continuation(byte: u8) -> bool {
    matches!(byte, 0x80..=0xbf)
}

/// What is printed for characters of the text: themselves, blanks or marks.
#[derive(Clone, Copy)]
enum Role {
    Text,
    Blank,
    Mark,
}

impl Role {
    fn shown(self, c: char) -> char {
        match self {
            Role::Mark => '^',
            Role::Blank if c != '\t' => ' ',
            Role::Text if c != '\t' && c.is_control() => '\u{fffd}',
            _ => c,
        }
    }
}

/// Prints something for each character of the bytes.
fn put<W: fmt::Write>(f: &mut fmt::Formatter<W>, bytes: &[u8], role: Role) -> fmt::Result {
    for chunk in bytes.utf8_chunks() {
        put_text(f, chunk.valid(), role)?;
        if !chunk.invalid().is_empty() {
            f.write_char(role.shown('\u{fffd}'))?;
        }
    }
    Ok(())
}

fn put_text<W: fmt::Write>(f: &mut fmt::Formatter<W>, text: &str, role: Role) -> fmt::Result {
    for c in text.chars() {
        f.write_char(role.shown(c))?;
    }
    Ok(())
}
