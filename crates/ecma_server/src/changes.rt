// Changes of documents.
use crate::documents::Document;
use crate::edits::changed;
use crate::json::{range_at, text_at};
use crate::places::{Range, Units};
use serde_json::Value;
use std::alloc::{AllocError, Global};

/// Makes a change of a document: another text in place of a range, or of all. What has no text changes nothing.
pub(crate) fn change(
    alloc: Global,
    document: &mut Document,
    change: &Value,
    units: Units,
) -> Result<(), AllocError> {
    let Some(with) = text_at(change, "/text") else {
        return Ok(());
    };
    document.is_changed = true;
    match range_at(change, "/range") {
        None => document.text = String::from_str(alloc, with)?,
        Some(range) => {
            let new = changed(alloc, document.text.as_str(), in_order(range), with, units)?;
            if let Some(text) = new {
                document.text = text;
            }
        }
    }
    Ok(())
}

/// The range with the end that comes first as its start.
fn in_order(range: Range) -> Range {
    let (start, end) = (range.start, range.end);
    if (end.line, end.character) < (start.line, start.character) {
        return Range {
            start: end,
            end: start,
        };
    }
    range
}
