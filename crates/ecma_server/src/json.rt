// JSON of the protocol: what is found in a message, and what is made.
use crate::places::{Position, Range};
use serde_json::{Value, json};
use std::alloc::{AllocError, Global};

/// The text at a path of a value; none where there is no text.
pub(crate) fn text_at<'a>(value: &'a Value, path: &str) -> Option<&'a str> {
    value.pointer(path)?.as_str()
}

/// The number at a path.
pub(crate) fn number_at(value: &Value, path: &str) -> Option<usize> {
    let number = value.pointer(path)?.as_u64()?;
    Some(number.min(u32::MAX as u64) as usize)
}

/// Whether a path has `true`.
pub(crate) fn is_true_at(value: &Value, path: &str) -> bool {
    matches!(value.pointer(path), Some(Value::Bool(true)))
}

/// The items of a list at a path; none where there is no list.
pub(crate) fn list_at<'a>(value: &'a Value, path: &str) -> &'a [Value] {
    match value.pointer(path) {
        Some(Value::Array(items)) => items,
        _ => &[],
    }
}

/// A position.
pub(crate) fn position_in(value: &Value) -> Option<Position> {
    Some(Position {
        line: number_at(value, "/line")?,
        character: number_at(value, "/character")?,
    })
}

/// The position at a path.
pub(crate) fn position_at(value: &Value, path: &str) -> Option<Position> {
    position_in(value.pointer(path)?)
}

/// The range at a path.
pub(crate) fn range_at(value: &Value, path: &str) -> Option<Range> {
    let range = value.pointer(path)?;
    Some(Range {
        start: position_at(range, "/start")?,
        end: position_at(range, "/end")?,
    })
}

/// A position as JSON.
fn position_json(alloc: Global, place: Position) -> Result<Value, AllocError> {
    json!(in alloc; {"line": place.line as u64, "character": place.character as u64})
}

/// A range as JSON.
pub(crate) fn range_json(alloc: Global, place: Range) -> Result<Value, AllocError> {
    let start = position_json(alloc, place.start)?;
    let end = position_json(alloc, place.end)?;
    json!(in alloc; {"start": start, "end": end})
}

/// An edit: another text in place of a range.
pub(crate) fn edit(alloc: Global, place: Range, text: &str) -> Result<Value, AllocError> {
    let place = range_json(alloc, place)?;
    json!(in alloc; {"range": place, "newText": text})
}

/// Adds a value to a list.
pub(crate) fn add(list: &mut Vec<Value>, value: Value) -> Result<(), AllocError> {
    list.push(value)?;
    Ok(())
}
