// Calls of a parser over a hook that does otherwise at one of its calls.
use lower_rows::hooks::TestBodies;
use lower_rows::row::{Row, show_unread};
use lower_rows::settings::input_of;
use lower_rows::shown::{begin_part, show, show_faults, show_refusal};
use lower_rows::tokens::tokens_of;
use row_parser::parser::TestParser;
use std::alloc::{AllocError, Global};
use swc_context::span::Span;
use swc_input::tokens::Tokens;
use swc_print::print::PrintNodes;

/// Writes what the row's calls answer with the hook that is written before them; the faults recorded; the place of the
/// first token that is left, whether the source has failed or not; and whether another context is left.
pub(crate) fn show_hooked(alloc: Global, out: &mut String, row: Row<'_>) -> Result<(), AllocError> {
    let (hook, calls) = row.calls.split_once(": ").unwrap_or((row.calls, ""));
    match (
        TestBodies::of_name(alloc, hook),
        input_of(alloc, row, false),
    ) {
        (Some(hook), Some(source)) => {
            let before = source.ctx();
            let mut parser = TestParser::new(alloc, source, hook);
            make_each(out, &mut parser, calls)?;
            show_rest(out, &mut parser, row)?;
            if parser.context() != before {
                out.push_str(" | in another context")?;
            }
            Ok(())
        }
        _ => show_unread(out, "no such hook or setting, or no tokens"),
    }
}

/// Makes the calls, and writes what they answer: trees without their places.
fn make_each(out: &mut String, parser: &mut TestParser, calls: &str) -> Result<(), AllocError> {
    for (at, call) in calls.split("; ").enumerate() {
        begin_part(out, at, "; ")?;
        match call {
            "parse_expr_id" => show_tree(out, parser)?,
            "parse_pat_id" => show_pat_tree(out, parser)?,
            "at_end" => show(out, parser.at_end())?,
            _ => show_unread(out, "no such call")?,
        }
    }
    Ok(())
}

fn show_tree(out: &mut String, parser: &mut TestParser) -> Result<(), AllocError> {
    match parser.parse_expr_id() {
        Ok(id) if parser.nodes().has_expr(id) => show_text(out, parser.nodes().print_expr(id).ok()),
        Ok(_) => out.push_str("no expression"),
        Err(fault) => show_refusal(out, fault),
    }
}

fn show_pat_tree(out: &mut String, parser: &mut TestParser) -> Result<(), AllocError> {
    match parser.parse_pat_id() {
        Ok(id) if parser.nodes().has_pat(id) => show_text(out, parser.nodes().print_pat(id).ok()),
        Ok(_) => out.push_str("no pattern"),
        Err(fault) => show_refusal(out, fault),
    }
}

fn show_text(out: &mut String, text: Option<String>) -> Result<(), AllocError> {
    match text {
        Some(text) => out.push_str(text.as_str()),
        None => Err(AllocError),
    }
}

/// Writes the faults that were recorded, and the place of the first token that is left.
fn show_rest(out: &mut String, parser: &mut TestParser, row: Row<'_>) -> Result<(), AllocError> {
    let faults = parser.take_errors();
    if !faults.is_empty() {
        out.push_str(" | ")?;
        show_faults(out, &faults)?;
    }
    match first_left(*out.allocator(), parser, row) {
        Some(place) => write!(out, " | left {place}"),
        None => Ok(()),
    }
}

/// The place of the first token that wasn't consumed: the current one, or the one after those that the source gave.
fn first_left(alloc: Global, parser: &mut TestParser, row: Row<'_>) -> Option<Span> {
    let input = parser.buffer();
    if input.cur().is_some() {
        return Some(input.cur_span());
    }
    let given = input.input().notes.len();
    let tokens = tokens_of(alloc, row.text)?;
    Some(tokens.get(given)?.span)
}
