// Layouts of documents, and of the statements in a range.
use crate::documents::Document;
use crate::json;
use crate::places::Range;
use crate::settings::Settings;
use ecma_commands::command::{Command, Options};
use ecma_commands::faults::Job;
use ecma_commands::format::formatted;
use ecma_commands::goals::{NoProgram, read_program};
use serde_json::Value;
use statement_trees::tree::{Program, StatementId};
use std::alloc::{AllocError, Global};
use swc_ecma_parser::context::span::Span;

/// The edits that lay out a document: one at most. `indent` is by how many columns lines are indented more.
pub(crate) fn layout(
    alloc: Global,
    document: &Document,
    indent: usize,
    settings: Settings,
) -> Result<Vec<Value>, NoProgram> {
    let text = document.text.as_str();
    let new = formatted(
        alloc,
        text,
        options_for(indent, settings),
        job_of(document, settings),
    )?;
    Ok(changed(alloc, document, new.as_str(), settings)?)
}

/// The edits that lay out the statements of a document, outside of functions, that are in a range.
pub(crate) fn layout_range(
    alloc: Global,
    document: &Document,
    range: Range,
    indent: usize,
    settings: Settings,
) -> Result<Vec<Value>, NoProgram> {
    let text = document.text.as_str();
    let job = job_of(document, settings);
    let old = read_program(alloc, text, job.goal, job.levels)?;
    let laid_out = formatted(alloc, text, options_for(indent, settings), job)?;
    let new = read_program(alloc, laid_out.as_str(), Some(old.goal), job.levels)?;
    let lines = document.lines(alloc, settings.units)?;
    let (from, to) = (
        document.place(range.start, settings.units),
        document.place(range.end, settings.units),
    );
    let mut edits = Vec::new(alloc);
    for (before, after) in old.body.iter().zip(&new.body) {
        let (Some(was), Some(is)) = (place_of(&old, *before), place_of(&new, *after)) else {
            continue;
        };
        let is_within = (was.lo.0 as usize) < to.max(from.saturating_add(1))
            && from < was.hi.0 as usize;
        let with = part_of(laid_out.as_str(), is);
        if is_within && with != part_of(text, was) {
            json::add(&mut edits, json::edit(alloc, lines.range(was), with)?)?;
        }
    }
    Ok(edits)
}

/// Where a statement is.
fn place_of(program: &Program, id: StatementId) -> Option<Span> {
    Some(program.statement(id)?.span)
}

/// The part of a text.
fn part_of(text: &str, span: Span) -> &str {
    text.get(span.lo.0 as usize..span.hi.0 as usize)
        .unwrap_or("")
}

fn job_of(document: &Document, settings: Settings) -> Job {
    Job {
        goal: document.goal,
        levels: settings.levels,
    }
}

fn options_for(indent: usize, settings: Settings) -> Options {
    let mut options = Options::new(Command::Format);
    options.style.width = settings.width;
    options.style.indent = indent;
    options
}

/// The edit that makes a document another text, from the first line that is another one to the last.
fn changed(
    alloc: Global,
    document: &Document,
    new: &str,
    settings: Settings,
) -> Result<Vec<Value>, AllocError> {
    let old = document.text.as_str();
    let mut edits = Vec::new(alloc);
    if old == new {
        return Ok(edits);
    }
    let first = common_start(old, new);
    let (rest, new_rest) = (
        old.get(first..).unwrap_or(""),
        new.get(first..).unwrap_or(""),
    );
    let last = common_end(rest, new_rest);
    let lines = document.lines(alloc, settings.units)?;
    let range = Range {
        start: lines.position(first),
        end: lines.position(old.len().saturating_sub(last)),
    };
    let with = new_rest
        .get(..new_rest.len().saturating_sub(last))
        .unwrap_or("");
    edits.push(json::edit(alloc, range, with)?)?;
    Ok(edits)
}

/// How many bytes the lines have with which two texts begin alike, but for the last line of either.
fn common_start(one: &str, other: &str) -> usize {
    let most = one.len().min(other.len());
    let mut count: usize = 0;
    for (line, another) in one.split('\n').zip(other.split('\n')) {
        let more = count.saturating_add(line.len()).saturating_add(1);
        if line != another || more > most {
            break;
        }
        count = more;
    }
    count
}

/// How many bytes the lines have with which two texts end alike, but for the first line of either.
fn common_end(one: &str, other: &str) -> usize {
    let most = one.len().min(other.len());
    let mut count: usize = 0;
    for (line, another) in one.rsplit('\n').zip(other.rsplit('\n')) {
        let more = count.saturating_add(line.len()).saturating_add(1);
        if line != another || more > most {
            break;
        }
        count = more;
    }
    count.saturating_sub(1)
}
