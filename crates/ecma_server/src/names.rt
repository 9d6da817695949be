// Names in a document: where they are bound, and who refers to them.
use crate::documents::Document;
use crate::json;
use crate::kinds::Kinds;
use crate::lines::LineIndex;
use crate::places::Position;
use crate::settings::Settings;
use ecma_commands::goals::{NoProgram, read_program};
use program_names::names::{Name, Use};
use serde_json::{Value, json};
use statement_trees::tree::Program;
use std::alloc::{AllocError, Global};

/// The program of a document.
pub(crate) fn program_of(
    alloc: Global,
    document: &Document,
    settings: Settings,
) -> Result<Program, NoProgram> {
    read_program(
        alloc,
        document.text.as_str(),
        document.goal,
        settings.levels,
    )
}

/// The number of the name at a byte: the one that it is in, or right after.
pub(crate) fn name_at(names: &[Name<'_>], at: usize) -> Option<usize> {
    let count = names.partition_point(|name| name.span.lo.0 as usize <= at);
    let number = count.checked_sub(1)?;
    let found = names.get(number)?;
    if at <= found.span.hi.0 as usize {
        Some(number)
    } else {
        None
    }
}

/// What is asked of the name at a position.
#[derive(Clone, Copy, PartialEq, Eq)]
pub(crate) enum Asked {
    Definition,
    References,
    /// The same without declarations.
    Uses,
    Highlights,
    Hover,
}

/// The answer of what is asked of the name at a position; null where there is no name.
pub(crate) fn answer(
    alloc: Global,
    document: &Document,
    position: Position,
    asked: Asked,
    settings: Settings,
) -> Result<Value, NoProgram> {
    let program = program_of(alloc, document, settings)?;
    let names = program_names::names::names(alloc, &program)?;
    let lines = document.lines(alloc, settings.units)?;
    let Some(number) = name_at(&names, document.place(position, settings.units)) else {
        return Ok(Value::Null);
    };
    let Some(name) = names.get(number) else {
        return Ok(Value::Null);
    };
    if asked == Asked::Hover {
        let kinds = Kinds::new(alloc, &program)?;
        return Ok(hover(alloc, name, &kinds, &lines)?);
    }
    let mut found = Vec::new(alloc);
    for other in &names {
        if name.is_same(other) && is_asked(name, other, asked) {
            json::add(&mut found, place(alloc, document, other, asked, &lines)?)?;
        }
    }
    Ok(Value::Array(found))
}

/// Whether a place of the name is asked for.
fn is_asked(name: &Name<'_>, other: &Name<'_>, asked: Asked) -> bool {
    match asked {
        Asked::Definition => name.declaration() == Some(other.span),
        Asked::Uses => other.how != Use::Bound,
        _ => true,
    }
}

/// A place of a name: a location, or a highlight with what is done there.
fn place(
    alloc: Global,
    document: &Document,
    name: &Name<'_>,
    asked: Asked,
    lines: &LineIndex<'_>,
) -> Result<Value, AllocError> {
    let range = json::range_json(alloc, lines.range(name.span))?;
    if asked == Asked::Highlights {
        let kind: u64 = if name.how == Use::Read { 2 } else { 3 };
        return json!(in alloc; {"range": range, "kind": kind});
    }
    let uri = document.uri.as_str();
    json!(in alloc; {"uri": uri, "range": range})
}

/// What a name is, and where it is bound.
fn hover(
    alloc: Global,
    name: &Name<'_>,
    kinds: &Kinds,
    lines: &LineIndex<'_>,
) -> Result<Value, AllocError> {
    let mut said = String::new(alloc);
    match name.declaration() {
        None => write!(said, "`{}`: free, bound nowhere in this file", name.text)?,
        Some(place) => {
            let at = lines.position(place.lo.0 as usize);
            let kind = kinds.of(place).map_or("name", |kind| kind.as_str());
            let (line, column) = (at.line.saturating_add(1), at.character.saturating_add(1));
            write!(said, "`{}`: {kind}, bound at {line}:{column}", name.text)?;
        }
    }
    let range = json::range_json(alloc, lines.range(name.span))?;
    let value = said.as_str();
    json!(in alloc; {"contents": {"kind": "markdown", "value": value}, "range": range})
}
