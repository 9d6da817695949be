// The parts of a layout: units and comments, and what is between them.
use crate::between::push_between;
use crate::marks::{Gap, Group, LineGap, Mark, Marks, Place, When};
use crate::units::{Kind, Unit};
use std::alloc::{AllocError, Global};
use swc_lexical::blank::{blank_len, comment_len, has_break, hashbang_len};
use swc_lexical::comment::line_len;

/// A part of a layout.
#[derive(Clone, Copy)]
pub enum Part {
    /// What is in the text between two places, on one line.
    Text(usize, usize),
    /// What is in the text between two places, through the last line break of a unit or a comment.
    Lines(usize, usize),
    /// A comment up to the end of the line: it takes no columns, and a line is after it.
    Note(usize, usize),
    /// A blank.
    Blank,
    /// A semicolon that ends a statement.
    Semicolon,
    /// A comma, if the closing bracket after it begins a line.
    Comma,
    /// A line that is always there, indented as the line before it in its group.
    SameLine,
    /// A place for a line, with an empty line before that.
    Line { line: LineGap, has_empty: bool },
    /// The place after which the group around it may be broken while what is before stays on one line.
    Place,
    /// A group begins.
    Open(Group),
    /// A group ends.
    Close,
}

/// A comment.
#[derive(Clone, Copy)]
pub(crate) struct Comment {
    pub(crate) lo: usize,
    pub(crate) hi: usize,
    pub(crate) space: Space,
    /// It begins with `/*`.
    is_block: bool,
}

/// What is in the text before a comment or a unit, after the one before.
#[derive(Clone, Copy)]
pub(crate) struct Space {
    /// A line break.
    pub(crate) breaks: bool,
    /// An empty line.
    pub(crate) has_empty: bool,
}

/// What is between two units, or before the first, or after the last.
#[derive(Drop)]
pub(crate) struct Between {
    pub(crate) comments: Vec<Comment>,
    /// What is after the last comment.
    pub(crate) end: Space,
    /// The opening bracket before it, if one is.
    pub(crate) after: Option<Kind>,
    /// Before a closing bracket.
    is_before_close: bool,
    /// Before a comma.
    is_before_comma: bool,
    /// Before the first unit.
    pub(crate) is_first: bool,
    /// After the last unit.
    pub(crate) is_last: bool,
    /// Lines are indented more than the first of the group.
    is_deeper: bool,
    /// Lines are indented as the one before.
    is_same: bool,
    /// Empty lines are kept.
    keeps_empty: bool,
}

/// The parts of a text, by what is noted at its units.
pub fn parts_of(alloc: Global, text: &str, marks: &Marks) -> Result<Vec<Part>, AllocError> {
    let mut parts = Vec::new(alloc);
    let mut last = None;
    let mut kept_to = 0;
    for (number, (unit, mark)) in marks.units.iter().zip(marks.marks.iter()).enumerate() {
        if kept_to <= number {
            if mark.has_comma {
                parts.push(Part::Comma)?;
            }
            push_gap(alloc, &mut parts, text, last, Some(*unit), mark.gap)?;
            push_opens(&mut parts, mark)?;
            kept_to = mark.kept_to;
            let last_kept = marks.units.get(kept_to.saturating_sub(1));
            let hi = last_kept.map_or(unit.hi, |last| last.hi).max(unit.hi);
            push_text(&mut parts, text, unit.lo, hi)?;
        } else {
            push_opens(&mut parts, mark)?;
        }
        push_closes(&mut parts, mark, kept_to <= number.saturating_add(1))?;
        last = Some(*unit);
    }
    push_gap(alloc, &mut parts, text, last, None, marks.end())?;
    Ok(parts)
}

/// Adds the groups that begin with a unit.
fn push_opens(parts: &mut Vec<Part>, mark: &Mark) -> Result<(), AllocError> {
    if mark.place == Place::Before {
        parts.push(Part::Place)?;
    }
    push_open(parts, mark.outer)?;
    for _ in 0..mark.opens {
        parts.push(Part::Open(Group::Parts))?;
    }
    push_open(parts, mark.chain)?;
    push_open(parts, mark.bracket)
}

fn push_open(parts: &mut Vec<Part>, group: Option<Group>) -> Result<(), AllocError> {
    if let Some(group) = group {
        parts.push(Part::Open(group))?;
    }
    Ok(())
}

/// Adds the ends of the groups that end with a unit, and the semicolon after it, unless it is kept as it is written.
fn push_closes(parts: &mut Vec<Part>, mark: &Mark, is_free: bool) -> Result<(), AllocError> {
    if mark.place == Place::After {
        parts.push(Part::Place)?;
    }
    for _ in 0..mark.closes {
        parts.push(Part::Close)?;
    }
    if mark.ends_statement && is_free {
        parts.push(Part::Semicolon)?;
    }
    Ok(())
}

/// Adds what is between two units, or before the first, or after the last, and the gap there.
fn push_gap(
    alloc: Global,
    parts: &mut Vec<Part>,
    text: &str,
    last: Option<Unit>,
    next: Option<Unit>,
    gap: Gap,
) -> Result<(), AllocError> {
    let lo = last.map_or(0, |unit| unit.hi);
    let hi = next.map_or(text.len(), |unit| unit.lo);
    let (comments, end) = comments_in(alloc, text.as_bytes(), lo, hi)?;
    let is_of_statements = matches!(gap, Gap::Statement { .. } | Gap::End);
    let after = last.map(|unit| unit.kind).filter(|kind| kind.opens());
    if comments.is_empty() && !is_of_statements {
        let has_empty = end.has_empty && after.is_none();
        return push_plain(parts, gap, meets(text.as_bytes(), last, next), has_empty);
    }
    let next = next.map(|unit| unit.kind);
    let is_before_close = next == Some(Kind::Close);
    let is_inner = last.is_some() && next.is_some();
    let between = Between {
        comments,
        end,
        after,
        is_before_close,
        is_before_comma: next == Some(Kind::Comma),
        is_first: last.is_none(),
        is_last: next.is_none(),
        is_deeper: is_before_close || is_deeper(gap, is_inner),
        is_same: matches!(gap, Gap::Word | Gap::Break),
        keeps_empty: matches!(gap, Gap::Line(line) if line.keeps_empty),
    };
    match between.after {
        _ if is_of_statements => push_between(parts, text, &between, gap),
        Some(kind) if between.is_before_close => push_alone(parts, text, &between, kind),
        _ => push_comments(parts, text, &between, gap),
    }
}

/// Whether lines of comments are indented more.
fn is_deeper(gap: Gap, is_inner: bool) -> bool {
    match gap {
        Gap::Line(line) => line.is_deeper,
        _ => is_inner,
    }
}

/// Adds what is in the text between two places.
fn push_text(parts: &mut Vec<Part>, text: &str, lo: usize, hi: usize) -> Result<(), AllocError> {
    let piece = text.get(lo..hi).unwrap_or("");
    match (piece.find('\n'), piece.rfind('\n')) {
        (Some(first), Some(last)) => {
            let first = lo.saturating_add(first);
            let last = lo.saturating_add(last).saturating_add(1);
            parts.push(Part::Text(lo, first))?;
            parts.push(Part::Lines(first, last))?;
            parts.push(Part::Text(last, hi))?;
        }
        _ => parts.push(Part::Text(lo, hi))?,
    }
    Ok(())
}

/// Adds a comment. Where each further line of a block comment begins with `*`, these lines are indented as the first.
pub(crate) fn push_comment(
    parts: &mut Vec<Part>,
    text: &str,
    comment: &Comment,
) -> Result<(), AllocError> {
    let piece = text.get(comment.lo..comment.hi).unwrap_or("");
    if !comment.is_block {
        let hi = comment.lo.saturating_add(piece.trim_end().len());
        parts.push(Part::Note(comment.lo, hi))?;
        return Ok(());
    }
    let has_stars = piece
        .split('\n')
        .skip(1)
        .all(|line| line.trim_start().starts_with('*'));
    if !has_stars || !piece.contains('\n') {
        return push_text(parts, text, comment.lo, comment.hi);
    }
    let mut lo = comment.lo;
    for line in piece.split('\n') {
        let first = lo.saturating_add(line.len().saturating_sub(line.trim_start().len()));
        if comment.lo < lo {
            parts.push(Part::SameLine)?;
            parts.push(Part::Blank)?;
        }
        parts.push(Part::Text(first, first.saturating_add(line.trim().len())))?;
        lo = lo.saturating_add(line.len()).saturating_add(1);
    }
    Ok(())
}

/// Adds a gap that has no comment.
fn push_plain(
    parts: &mut Vec<Part>,
    gap: Gap,
    meets: bool,
    has_empty: bool,
) -> Result<(), AllocError> {
    match gap {
        Gap::Nothing if !meets => {}
        Gap::Nothing | Gap::Blank | Gap::Word => parts.push(Part::Blank)?,
        Gap::Line(line) => {
            let is_blank = line.is_blank || meets;
            let has_empty = has_empty && line.keeps_empty;
            let line = LineGap { is_blank, ..line };
            parts.push(Part::Line { line, has_empty })?;
        }
        Gap::Break => parts.push(Part::SameLine)?,
        Gap::End => push_line(parts, false, false)?,
        Gap::Statement { is_deeper } => push_line(parts, is_deeper, false)?,
    }
    Ok(())
}

/// Adds a line that is always there.
pub(crate) fn push_line(
    parts: &mut Vec<Part>,
    is_deeper: bool,
    has_empty: bool,
) -> Result<(), AllocError> {
    let line = LineGap {
        is_blank: false,
        is_deeper,
        when: When::Always,
        keeps_empty: false,
        is_tail: false,
    };
    parts.push(Part::Line { line, has_empty })?;
    Ok(())
}

/// Adds the comments in brackets that hold nothing else, as a group.
fn push_alone(
    parts: &mut Vec<Part>,
    text: &str,
    between: &Between,
    kind: Kind,
) -> Result<(), AllocError> {
    let is_blank = kind == Kind::OpenBrace;
    let is_hole = kind == Kind::OpenHole;
    parts.push(Part::Open(if is_hole { Group::Flat } else { Group::Parts }))?;
    push_comments(parts, text, between, Gap::line(is_blank, true))?;
    push_gap_line(parts, Gap::line(is_blank, false), between.end.breaks, false)?;
    parts.push(Part::Close)?;
    Ok(())
}

/// Adds comments, and the line of the gap among them: after an opening bracket, before the first comment; before a
/// closing bracket, after the last one; otherwise where the text has its first line break, or before the first comment
/// if it has none.
fn push_comments(
    parts: &mut Vec<Part>,
    text: &str,
    between: &Between,
    gap: Gap,
) -> Result<(), AllocError> {
    let count = between.comments.len();
    let line = line_among(between, gap);
    for (number, comment) in between.comments.iter().enumerate() {
        let is_first = number == 0 && between.after.is_some();
        let keeps = between.keeps_empty || between.is_before_close;
        let has_empty = comment.space.has_empty && keeps && !is_first;
        if line == Some(number) {
            push_gap_line(parts, gap, comment.space.breaks, has_empty)?;
        } else if comment.space.breaks {
            push_comment_line(parts, between, has_empty)?;
        } else if 0 < number || between.after.is_none() && !between.is_first {
            parts.push(Part::Blank)?;
        }
        push_comment(parts, text, comment)?;
    }
    let has_empty = between.end.has_empty && between.keeps_empty;
    if line == Some(count) {
        push_gap_line(parts, gap, between.end.breaks, has_empty)
    } else {
        push_end(parts, between, has_empty)
    }
}

/// The number of the comment before which the line of the gap is; what is after the last has the next number.
fn line_among(between: &Between, gap: Gap) -> Option<usize> {
    let count = between.comments.len();
    let broken = between
        .comments
        .iter()
        .position(|comment| comment.space.breaks);
    match between.after {
        _ if !matches!(gap, Gap::Line(_) | Gap::Break) => None,
        Some(_) => Some(0),
        None if between.is_before_close => Some(count),
        None if between.end.breaks => Some(broken.unwrap_or(count)),
        None => Some(broken.unwrap_or(0)),
    }
}

/// Adds a line before or after a comment.
fn push_comment_line(
    parts: &mut Vec<Part>,
    between: &Between,
    has_empty: bool,
) -> Result<(), AllocError> {
    if between.is_same {
        parts.push(Part::SameLine)?;
        return Ok(());
    }
    push_line(parts, between.is_deeper, has_empty)
}

/// Adds what is after the last comment, where the line of the gap is before it or there is none.
fn push_end(parts: &mut Vec<Part>, between: &Between, has_empty: bool) -> Result<(), AllocError> {
    if between.is_last || between.is_before_close && between.after.is_some() {
        Ok(())
    } else if between.end.breaks {
        push_comment_line(parts, between, has_empty)
    } else if between.is_before_close || between.is_before_comma {
        Ok(())
    } else {
        parts.push(Part::Blank)?;
        Ok(())
    }
}

/// Adds the line of a gap.
fn push_gap_line(
    parts: &mut Vec<Part>,
    gap: Gap,
    is_forced: bool,
    has_empty: bool,
) -> Result<(), AllocError> {
    match gap {
        Gap::Line(line) => {
            let when = if is_forced { When::Always } else { line.when };
            let line = LineGap { when, ..line };
            parts.push(Part::Line { line, has_empty })?;
            Ok(())
        }
        Gap::Break => {
            parts.push(Part::SameLine)?;
            Ok(())
        }
        _ => Ok(()),
    }
}

/// The comments between two places, with a hashbang at the beginning, and what is after the last.
fn comments_in(
    alloc: Global,
    text: &[u8],
    lo: usize,
    hi: usize,
) -> Result<(Vec<Comment>, Space), AllocError> {
    let mut comments = Vec::new(alloc);
    let mut space = NO_SPACE;
    let mut is_at_line = false;
    let mut next = lo;
    for at in lo..hi.min(text.len()) {
        if at < next {
            continue;
        }
        let rest = &text[at..];
        let length = comment_at(rest, at);
        if 0 < length {
            let hi = at.saturating_add(length);
            let is_block = rest.get(1) == Some(&b'*');
            comments.push(Comment {
                lo: at,
                hi,
                space,
                is_block,
            })?;
            space = NO_SPACE;
            is_at_line = false;
            next = hi;
        } else {
            let length = blank_len(rest);
            let is_break = has_break(rest, length);
            space.has_empty |= is_break && is_at_line;
            space.breaks |= is_break;
            is_at_line = is_break || is_at_line && 0 < length;
            next = at.saturating_add(length.max(1));
        }
    }
    Ok((comments, space))
}

/// How long the comment is that begins at a place of the text between tokens, with a hashbang at the beginning, and
/// HTML-like comments (ECMA-262, B.1.1); 0 if none begins there.
fn comment_at(rest: &[u8], at: usize) -> usize {
    match comment_len(rest) {
        0 if at == 0 && 0 < hashbang_len(rest) => hashbang_len(rest),
        0 if rest.starts_with(b"<!--") || rest.starts_with(b"-->") => line_len(rest),
        length => length,
    }
}

/// No line break.
const NO_SPACE: Space = Space {
    breaks: false,
    has_empty: false,
};

/// Whether two units would be read as others if nothing were between them: two words or numbers, two signs, or a number
/// and a dot.
fn meets(text: &[u8], last: Option<Unit>, next: Option<Unit>) -> bool {
    let (Some(last), Some(next)) = (last, next) else {
        return false;
    };
    let before = text.get(last.hi.saturating_sub(1)).copied();
    let after = text.get(next.lo).copied();
    match (before, after) {
        _ if next.kind == Kind::OpenHole => false,
        (Some(b'+'), Some(b'+')) | (Some(b'-'), Some(b'-')) => true,
        (Some(_), Some(b'.')) => last.kind == Kind::Number,
        (Some(before), Some(after)) => is_of_word(before) && is_of_word(after),
        _ => false,
    }
}

/// Whether the byte may be one of a word or of a number.
fn is_of_word(byte: u8) -> bool {
    byte.is_ascii_alphanumeric() || matches!(byte, b'_' | b'$' | b'\\' | 128..=255)
}
