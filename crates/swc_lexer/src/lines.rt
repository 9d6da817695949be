//! Lines and columns of a text.
ghost use Rattle.std.specs.Prelude.{◌≡◌, ◌+◌, ◌*◌, ◌≤◌, ◌<◌, length, IfOk};
ghost use Rattle.swc_lexer.specs.Lines as lines;

use std::alloc::{AllocError, Global};
use swc_context::span::LineColumn;
use swc_lexical::bytes::is_at;

/// What is known of a place of a text: how many lines end before it, where its line begins, and how many units of UTF-16
/// are before it.
#[derive(Clone, Copy, PartialEq, Eq, Debug)]
pub struct Point {
    lines: usize,
    start: usize,
    units: usize,
}

/// Whether LS or PS ends with this byte.
fn is_separator(text: &[u8], at: usize) -> bool
    ensures { result ≡ lines.is_separator text.now at }
{
    2 <= at
        && is_at(text, at - 2, 0xE2)
        && is_at(text, at - 1, 0x80)
        && (is_at(text, at, 0xA8) || is_at(text, at, 0xA9))
}

/// Whether a line ends with this byte.
fn ends_line(text: &[u8], at: usize) -> bool
    requires { at < length text.now }
    ensures { result ≡ lines.ends_line text.now at }
{
    is_at(text, at, b'\n')
        || is_at(text, at, b'\r') && !is_at(text, at + 1, b'\n')
        || is_separator(text, at)
}

/// Whether a character begins with this byte.
fn begins_char(text: &[u8], at: usize) -> bool
    ensures { result ≡ lines.begins_char text.now at }
{
    match text.get(at) {
        Some(byte) => *byte < 128 || 192 <= *byte,
        None => false,
    }
}

/// Whether a character begins with this byte that takes two units of UTF-16.
fn is_long(text: &[u8], at: usize) -> bool
    ensures { result ≡ lines.is_long text.now at }
{
    match text.get(at) {
        Some(byte) => 240 <= *byte,
        None => false,
    }
}

fn one_if(holds: bool) -> usize
    ensures value { result ≡ lines.one_if holds }
    ensures small { result ≤ 1 }
{
    if holds { 1 } else { 0 }
}

/// What is known one byte later.
fn step(point: Point, text: &[u8], at: usize) -> Point
    requires within { at < length text.now }
    requires lines { point.lines ≤ at }
    requires units { point.units ≤ 2 * at }
    ensures { result ≡ lines.step point text.now at }
{
    let ends = ends_line(text, at);
    Point {
        lines: point.lines + one_if(ends),
        start: if ends { at + 1 } else { point.start },
        units: point.units + one_if(begins_char(text, at)) + one_if(is_long(text, at)),
    }
}

/// What is known of a later place.
#[tactic(auto, using(crate::proofs::Counting::lines_most, crate::proofs::Counting::units_most))]
fn advance(begin: Point, text: &[u8], from: usize, to: usize) -> Point
    requires from { from ≤ to }
    requires to { to ≤ length text.now }
    requires begin { begin ≡ lines.point_of text.now from }
    ensures value { result ≡ lines.point_of text.now to }
    ensures small { result.lines ≤ to }
    ensures units { result.units ≤ 2 * to }
{
    let mut point = begin;
    let mut at = from;
    while at < to {
        point = step(point, text, at);
        at += 1;
    }
    point
}

/// How many bytes lie between two places that are marked.
const GAP: usize = 256;

/// What is known of every 256th place of the text.
fn marks_of(alloc: Global, text: &[u8]) -> Result<Vec<Point>, AllocError>
    ensures { IfOk result (λ marks. lines.AreMarks text.now marks.items) }
{
    let mut marks = Vec::new(alloc);
    let mut at = 0;
    let mut point = Point {
        lines: 0,
        start: 0,
        units: 0,
    };
    while GAP <= text.len() - at {
        marks.push(point)?;
        point = advance(point, text, at, at + GAP);
        at += GAP;
    }
    marks.push(point)?;
    Ok(marks)
}

/// The lines of a text, which end with LF, CR, CR and LF, LS or PS (ECMA-262, 12.3). A look takes a time that depends
/// neither on the length of the text nor on that of its lines.
#[derive(Drop)]
pub struct Lines<'t> {
    text: &'t [u8],
    marks: Vec<Point>,
    ghost marked: { lines.AreMarks text.now marks.items },
}

impl<'t> Lines<'t> {
    /// The lines of this text. Refused only when out of memory: it takes an eighth of the text.
    pub fn new(alloc: Global, text: &'t str) -> Result<Lines<'t>, AllocError>
        ensures { IfOk result (λ l. l.text.now ≡ text.now) }
    {
        let text = text.as_bytes();
        Ok(Lines {
            text,
            marks: marks_of(alloc, text)?,
        })
    }

    /// What is known of a place of the text.
    fn point(&self, at: usize) -> Point
        requires { at ≤ length self.now.text.now }
        ensures value { result ≡ lines.point_of self.now.text.now at }
        ensures small { result.lines ≤ at }
        ensures units { result.units ≤ 2 * at }
    {
        let mark = at / GAP;
        advance(self.marks[mark], self.text, mark * GAP, at)
    }

    /// The line and the column of a place, which is given in bytes. A place after the end counts as the end.
    #[tactic(auto, using(crate::proofs::Counting::start_most, crate::proofs::Counting::count_monotone))]
    pub fn position(&self, at: usize) -> LineColumn
        ensures { result ≡ lines.position_of self.now.text.now (lines.place_in self.now.text.now at) }
    {
        let at = at.min(self.text.len());
        let here = self.point(at);
        let start = self.point(here.start);
        LineColumn {
            line: here.lines + 1,
            column: here.units - start.units + 1,
        }
    }

    /// How many units of UTF-16 are before a place, in bytes. A place after the end counts as the end.
    pub fn utf16_offset(&self, at: usize) -> usize
        ensures { result ≡ lines.units self.now.text.now (lines.place_in self.now.text.now at) }
    {
        self.point(at.min(self.text.len())).units
    }
}
