// Comments and lines between statements.
use crate::gaps::{Between, Part, Space, push_comment, push_line};
use crate::marks::Gap;
use crate::units::Kind;
use std::alloc::AllocError;

/// Adds what is between two statements, after the `{` or before the `}` of a body, or at an end of a program: comments,
/// each on the line where the text has it, one line at least, and an empty line where the text has some, but none after
/// the `{`, before the `}`, and at the ends of a program.
///
/// Where the text has no line break, the line is before the first comment, but after the last before a `}`. Comments
/// alone in a body are on its line if the text has no line break there.
pub(crate) fn push_between(
    parts: &mut Vec<Part>,
    text: &str,
    between: &Between,
    gap: Gap,
) -> Result<(), AllocError> {
    let first = first_line(between, gap);
    let is_deeper = match gap {
        Gap::Statement { is_deeper } => is_deeper,
        _ => !between.is_last,
    };
    for (number, comment) in between.comments.iter().enumerate() {
        let space = space_at(between, number, comment.space, first);
        push_space(parts, number, between.is_first, space, is_deeper)?;
        push_comment(parts, text, comment)?;
    }
    let count = between.comments.len();
    match gap {
        Gap::Statement { .. } => {
            let space = space_at(between, count, between.end, first);
            push_space(parts, count, between.is_first, space, is_deeper)
        }
        _ => push_end(parts, between, first),
    }
}

/// The number of the comment before which a line begins even if the text has no line break there. What is after the
/// last comment has the next number.
fn first_line(between: &Between, gap: Gap) -> Option<usize> {
    let broken = first_break(between);
    match gap {
        _ if between.is_first => None,
        Gap::Statement { .. } => Some(broken.unwrap_or(0)),
        _ if is_after_body(between) => broken.map(|_| 0),
        _ => None,
    }
}

/// The number of the first comment, or of what is after the last, before which the text has a line break.
fn first_break(between: &Between) -> Option<usize> {
    let first = between
        .comments
        .iter()
        .position(|comment| comment.space.breaks);
    match first {
        None if between.end.breaks => Some(between.comments.len()),
        first => first,
    }
}

/// Whether it is after the `{` of a body.
fn is_after_body(between: &Between) -> bool {
    between.after == Some(Kind::OpenBody)
}

/// The space that is to be before a comment or what is after the last.
fn space_at(between: &Between, number: usize, space: Space, first: Option<usize>) -> Space {
    Space {
        breaks: space.breaks || first == Some(number),
        has_empty: space.has_empty && (0 < number || !is_after_body(between)),
    }
}

/// Adds a space, or nothing at the beginning of a program.
fn push_space(
    parts: &mut Vec<Part>,
    number: usize,
    is_first: bool,
    space: Space,
    is_deeper: bool,
) -> Result<(), AllocError> {
    if number == 0 && is_first {
        return Ok(());
    }
    if !space.breaks {
        parts.push(Part::Blank)?;
        return Ok(());
    }
    push_line(parts, is_deeper, space.has_empty)
}

/// Adds what is before the `}` of a body; nothing at the end of a program, and in a body that is empty.
fn push_end(
    parts: &mut Vec<Part>,
    between: &Between,
    first: Option<usize>,
) -> Result<(), AllocError> {
    let is_in_empty = is_after_body(between);
    if between.is_last || is_in_empty && between.comments.is_empty() {
        return Ok(());
    }
    if is_in_empty && first.is_none() {
        parts.push(Part::Blank)?;
        return Ok(());
    }
    push_line(parts, false, false)
}
