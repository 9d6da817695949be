// What is noted at brackets and commas.
use crate::marks::{Gap, Group, LineGap, Marks, Shape, When, Whole};
use crate::units::Kind;
use std::alloc::{AllocError, Global};

/// A pair of brackets, by the numbers of its units.
#[derive(Clone, Copy)]
struct Pair {
    first: usize,
    last: usize,
}

/// Notes the groups that brackets are, by their shapes, and the lines in them: after the opening bracket, after each
/// comma, and before the closing bracket. Commas outside brackets are those of a group that all units of an expression
/// are; in a program a blank is after them.
pub fn mark_brackets(alloc: Global, text: &str, marks: &mut Marks) -> Result<(), AllocError> {
    let mut open: Vec<usize> = Vec::new(alloc);
    let mut is_list = false;
    for number in 0..marks.len() {
        match marks.kind(number) {
            kind if kind.opens() => open.push(number)?,
            Kind::Close => {
                let first = open.pop().unwrap_or(0);
                let last = number;
                mark_pair(marks, text, Pair { first, last });
            }
            Kind::Comma => {
                mark_comma(marks, number, open.last().copied());
                is_list |= open.is_empty();
            }
            _ => {}
        }
    }
    if is_list && marks.whole == Whole::Expr {
        let last = marks.len().saturating_sub(1);
        marks.add_group(0, last);
    }
    Ok(())
}

/// Notes the group of a pair of brackets.
fn mark_pair(marks: &mut Marks, text: &str, pair: Pair) {
    let Pair { first, last } = pair;
    let next = first.saturating_add(1);
    let shape = marks.shape_of(first);
    match marks.kind(first) {
        Kind::OpenBody => {}
        Kind::OpenHole => mark_hole(marks, pair, shape),
        _ if next == last => {}
        kind if shape.is_bare && !has_comment(marks, text, first) => {
            if kind == Kind::OpenBrace {
                marks.set(next, Gap::Blank);
                marks.set(last, Gap::Blank);
            }
        }
        kind => mark_items(marks, pair, shape, kind == Kind::OpenBrace),
    }
}

/// Notes the group of brackets that hold something.
fn mark_items(marks: &mut Marks, pair: Pair, shape: Shape, is_brace: bool) {
    let group = if shape.hugs {
        Group::Arguments
    } else {
        Group::Parts
    };
    marks.add_bracket(pair.first, pair.last, group);
    let when = if shape.is_broken {
        When::Always
    } else {
        When::Broken
    };
    let first = item_line(is_brace, when);
    marks.set(pair.first.saturating_add(1), first);
    let last = LineGap {
        is_blank: is_brace || shape.ends_blank,
        is_deeper: false,
        when: When::Broken,
        keeps_empty: false,
        is_tail: shape.hugs,
    };
    marks.set(pair.last, Gap::Line(last));
    let is_hole = marks.kind(pair.last.saturating_sub(1)) == Kind::Comma;
    if shape.has_comma && !is_hole {
        marks.set_comma(pair.last);
    }
}

/// A line before an item in brackets.
fn item_line(is_blank: bool, when: When) -> Gap {
    Gap::Line(LineGap {
        is_blank,
        is_deeper: true,
        when,
        keeps_empty: true,
        is_tail: false,
    })
}

/// Whether the unit of the number opens a body that holds something, whose lines are always there.
fn has_lines(marks: &Marks, number: usize) -> bool {
    marks.kind(number) == Kind::OpenBody && marks.kind(number.saturating_add(1)) != Kind::Close
}

/// Notes what is in `${` and `}` of a template.
fn mark_hole(marks: &mut Marks, pair: Pair, shape: Shape) {
    let Pair { first, last } = pair;
    let next = first.saturating_add(1);
    let breaks = (next..last.saturating_add(1)).any(|number| marks.is_at_line(number)
        || has_lines(marks, number));
    if !breaks {
        marks.add_bracket(first, last, Group::Flat);
        return;
    }
    marks.add_bracket(first, last, Group::Hole);
    if shape.has_lines {
        marks.set(next, Gap::line_when(false, true, When::Broken));
        marks.set(last, Gap::line(false, false));
    }
}

/// Notes what is after a comma in an opening bracket, or outside brackets.
fn mark_comma(marks: &mut Marks, number: usize, open: Option<usize>) {
    let next = number.saturating_add(1);
    let shape = match open {
        None if marks.whole == Whole::Expr => return marks.set(next, Gap::line(true, false)),
        Some(open) if marks.kind(open) != Kind::OpenBody => marks.shape_of(open),
        _ => return marks.set_blank(next),
    };
    if shape.is_bare {
        return marks.set(next, Gap::Blank);
    }
    let when = if shape.is_filled {
        When::Needed
    } else {
        When::Broken
    };
    marks.set(next, item_line(true, when));
}

/// Whether a comment is right after the unit of the number.
fn has_comment(marks: &Marks, text: &str, number: usize) -> bool {
    match (
        marks.units.get(number),
        marks.units.get(number.saturating_add(1)),
    ) {
        (Some(unit), Some(next)) => {
            let between = text.get(unit.hi..next.lo).unwrap_or("");
            !between.trim().is_empty()
        }
        _ => false,
    }
}
