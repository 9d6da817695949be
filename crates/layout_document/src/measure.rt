// How much there is in the parts of a layout, where all groups are on one line.
use crate::gaps::Part;
use crate::marks::{Group, LineGap, When};
use std::alloc::{AllocError, Global};

/// What there is before a part.
#[derive(Clone, Copy)]
pub(crate) struct Sum {
    /// How many columns, on all lines together.
    pub(crate) columns: usize,
    /// How many lines are always there.
    pub(crate) lines: usize,
}

/// What there is after a part.
#[derive(Clone, Copy)]
pub(crate) struct Rest {
    /// How many columns up to the next place for a line, where groups around it are broken.
    pub(crate) broken: usize,
    /// The same, where arguments that end before that are held together.
    pub(crate) held: usize,
}

/// What is measured of parts.
#[derive(Drop)]
pub(crate) struct Measured {
    /// Of each part and of the end.
    pub(crate) sums: Vec<Sum>,
    pub(crate) rests: Vec<Rest>,
    /// How many columns there are before each line that is always there.
    pub(crate) lines: Vec<usize>,
    /// Of each part that opens a group, where it closes.
    pub(crate) ends: Vec<usize>,
    /// Of each part that opens arguments or a chain, the place after which these may be broken; of the place of a chain,
    /// that of arguments after it, or where they have none, the place after their bracket; else `NOWHERE`.
    pub(crate) places: Vec<usize>,
}

/// No part has this number.
const NOWHERE: usize = usize::MAX;

/// Measures the parts.
pub(crate) fn measure(alloc: Global, text: &str, parts: &[Part]) -> Result<Measured, AllocError> {
    let mut measured = Measured {
        sums: sums_of(alloc, text, parts)?,
        rests: rests_of(alloc, text, parts)?,
        lines: lines_of(alloc, text, parts)?,
        ends: Vec::new(alloc),
        places: Vec::new(alloc),
    };
    measured.ends.resize(parts.len(), 0)?;
    measured.places.resize(parts.len(), NOWHERE)?;
    let mut open = Vec::new(alloc);
    for (number, part) in parts.iter().enumerate() {
        measure_group(&mut measured, &mut open, number, *part)?;
    }
    Ok(measured)
}

/// A group that is open where parts are measured.
#[derive(Clone, Copy)]
struct Open {
    /// The part that opens it.
    first: usize,
    /// It waits for the place after which it may be broken.
    waits: bool,
    is_chain: bool,
    /// A line that is always there is in it, and in no group in it.
    is_broken: bool,
}

/// Notes where a group closes, and its place.
fn measure_group(
    measured: &mut Measured,
    open: &mut Vec<Open>,
    number: usize,
    part: Part,
) -> Result<(), AllocError> {
    match part {
        Part::Open(group) => {
            if let Some(chain) = open.last().filter(|around| around.is_chain) {
                let place = measured.places.get(chain.first).copied();
                set_place(measured, place.unwrap_or(NOWHERE), number.saturating_add(2));
            }
            let is_chain = matches!(group, Group::Chain { .. });
            open.push(Open {
                first: number,
                waits: is_chain || group == Group::Arguments,
                is_chain,
                is_broken: false,
            })?
        }
        Part::Close => {
            if let Some(group) = open.pop() {
                close(measured, group, number);
            }
        }
        Part::Place => {
            let waiting = open.iter().rposition(|group| group.waits);
            let before = waiting.and_then(|at| at.checked_sub(1));
            let around = before.and_then(|at| open.get(at)).copied();
            if let Some(group) = waiting.and_then(|at| open.get_mut(at)) {
                group.waits = false;
                set_place(measured, group.first, number);
            }
            if let Some(chain) = around {
                let place = measured.places.get(chain.first).copied();
                set_place(measured, place.unwrap_or(NOWHERE), number);
            }
        }
        part if is_line(part) => {
            if let Some(group) = open.last_mut() {
                group.is_broken = true;
            }
        }
        _ => {}
    }
    Ok(())
}

/// Notes the place of a part, if there is such a part.
fn set_place(measured: &mut Measured, part: usize, number: usize) {
    if let Some(place) = measured.places.get_mut(part) {
        *place = number;
    }
}

/// Notes where a group closes. Where comments in it have lines of their own, it has no place.
fn close(measured: &mut Measured, group: Open, number: usize) {
    if let Some(end) = measured.ends.get_mut(group.first) {
        *end = number;
    }
    if group.is_broken {
        if let Some(place) = measured.places.get_mut(group.first) {
            *place = NOWHERE;
        }
    }
}

/// Whether a part breaks the groups around it.
fn breaks(part: Part) -> bool {
    is_line(part) || matches!(part, Part::Lines(..))
}

/// Whether a part is a line that is always there, or a comment before one.
fn is_line(part: Part) -> bool {
    match part {
        Part::SameLine | Part::Note(..) => true,
        Part::Line { line, .. } => line.when == When::Always,
        _ => false,
    }
}

fn sums_of(alloc: Global, text: &str, parts: &[Part]) -> Result<Vec<Sum>, AllocError> {
    let mut sums = Vec::new(alloc);
    let mut sum = Sum {
        columns: 0,
        lines: 0,
    };
    sums.push(sum)?;
    for part in parts {
        sum = Sum {
            columns: sum.columns.saturating_add(columns_of(text, *part)),
            lines: sum.lines.saturating_add(usize::from(breaks(*part))),
        };
        sums.push(sum)?;
    }
    Ok(sums)
}

fn lines_of(alloc: Global, text: &str, parts: &[Part]) -> Result<Vec<usize>, AllocError> {
    let mut lines = Vec::new(alloc);
    let mut columns = 0usize;
    for part in parts {
        if breaks(*part) {
            lines.push(columns)?;
        }
        columns = columns.saturating_add(columns_of(text, *part));
    }
    Ok(lines)
}

fn rests_of(alloc: Global, text: &str, parts: &[Part]) -> Result<Vec<Rest>, AllocError> {
    let mut rests = Vec::new(alloc);
    let mut rest = Rest { broken: 0, held: 0 };
    rests.push(rest)?;
    for part in parts.iter().rev() {
        rest = rest_before(rest, *part, columns_of(text, *part));
        rests.push(rest)?;
    }
    rests.reverse();
    Ok(rests)
}

/// What there is from a part of so many columns on. No comment after a semicolon that ends a statement breaks the lines
/// before it.
fn rest_before(rest: Rest, part: Part, columns: usize) -> Rest {
    let (broken, held) = match part {
        Part::Line {
            line: LineGap { is_tail: true, .. },
            ..
        } => (0, rest.held),
        Part::Line { .. } | Part::SameLine | Part::Lines(..) => (0, 0),
        Part::Semicolon => (1, 1),
        Part::Comma => (rest.broken.saturating_add(1), rest.held),
        _ => (
            rest.broken.saturating_add(columns),
            rest.held.saturating_add(columns),
        ),
    };
    Rest { broken, held }
}

/// How many columns a part takes on one line. A column is a character wide.
pub(crate) fn columns_of(text: &str, part: Part) -> usize {
    match part {
        Part::Text(lo, hi) => text.get(lo..hi).unwrap_or("").chars().count(),
        Part::Blank | Part::Semicolon => 1,
        Part::Line { line, .. } => usize::from(line.is_blank && line.when != When::Always),
        _ => 0,
    }
}
