// Parsers, and rows of their calls.
use lower_rows::hooks::TestBodies;
use lower_rows::numbered::by_number;
use lower_rows::row::{Row, show_unread};
use lower_rows::settings::input_of;
use lower_rows::shown::{Shown, begin_part, show_faults, show_refusal};
use row_parser::parser::TestParser;
use std::alloc::{AllocError, Global};

/// How a row is run: as it is written, or with calls by number, and in a pedantic syntax or not.
#[derive(Clone, Copy)]
pub(crate) struct How {
    pub(crate) by_number: bool,
    pub(crate) is_pedantic: bool,
}

impl How {
    pub(crate) const PLAIN: How = How {
        by_number: false,
        is_pedantic: false,
    };
}

/// A parser of the row's text, in its setting.
pub(crate) fn parser_of(alloc: Global, row: Row<'_>, is_pedantic: bool) -> Option<TestParser> {
    let source = input_of(alloc, row, is_pedantic)?;
    Some(TestParser::new(alloc, source, TestBodies::of_setting(alloc, row.setting)))
}

/// Writes what the row's calls answer; after a bar the faults that are recorded, if there are any; and after another
/// one the place of the first token that is left, if one is.
pub(crate) fn show_parsed(
    alloc: Global,
    out: &mut String,
    row: Row<'_>,
    how: How,
) -> Result<(), AllocError> {
    match parser_of(alloc, row, how.is_pedantic) {
        Some(parser) => run(alloc, out, parser, row, how),
        None => show_unread(out, "no such setting, or no tokens"),
    }
}

/// Makes the row's calls. `next_parser` among them stands for another parser over the same buffer.
fn run(
    alloc: Global,
    out: &mut String,
    mut parser: TestParser,
    row: Row<'_>,
    how: How,
) -> Result<(), AllocError> {
    match row.calls.split_once("; next_parser; ") {
        Some((first, others)) => {
            make_each(out, &mut parser, first, how)?;
            let (count, mut next) = parser.next_parser(alloc);
            write!(out, "; {count}; ")?;
            make_each(out, &mut next, others, how)?;
            show_rest(out, &mut next)
        }
        None => {
            make_each(out, &mut parser, row.calls, how)?;
            show_rest(out, &mut parser)
        }
    }
}

/// Makes the calls, and writes what each answers.
pub(crate) fn make_each(
    out: &mut String,
    parser: &mut TestParser,
    calls: &str,
    how: How,
) -> Result<(), AllocError> {
    for (at, name) in calls.split("; ").enumerate() {
        begin_part(out, at, "; ")?;
        parser.call(out, if how.by_number { by_number(name) } else { name })?;
    }
    Ok(())
}

/// Writes the faults that were recorded, and the place of the first token that is left.
fn show_rest(out: &mut String, parser: &mut TestParser) -> Result<(), AllocError> {
    let faults = parser.take_errors();
    if !faults.is_empty() {
        out.push_str(" | ")?;
        show_faults(out, &faults)?;
    }
    show_left(out, parser)
}

/// Writes the place of the first token that is left, which is no `#`, if one is.
fn show_left(out: &mut String, parser: &mut TestParser) -> Result<(), AllocError> {
    let at_end = parser.at_end();
    if matches!(at_end, Ok(true)) {
        return Ok(());
    }
    out.push_str(" | left ")?;
    match at_end {
        Ok(_) => match parser.parse_private_name() {
            Ok(name) => name.show(out),
            Err(fault) => fault.span().show(out),
        },
        Err(fault) => show_refusal(out, fault),
    }
}
