// The calls of one row, for runs in which a request for memory is refused. What they answer is written into memory that
// was asked for before.
use crate::texts::show_text;
use lower_rows::hooks::TestBodies;
use lower_rows::lexed::show_lexed;
use lower_rows::row::{Row, UNREAD, show_unread};
use lower_rows::settings::input_of;
use lower_rows::shown::{NO_MEMORY, show, show_refusal};
use lower_rows::source::TestInput;
use lower_rows::tokens::tokens_of;
use lower_rows::trees::{TestExpr, show_id};
use row_parser::parser::TestParser;
use std::alloc::{AllocError, Global};
use std::str;
use swc_context::context::{Context, EsVersion};
use swc_context::error::Error;
use swc_ecma_parser::both_ways::ReadBy;
use swc_ecma_parser::parser::Parser;
use swc_ecma_parser::replaying::{ReadKeeping, ReadTwice, read_again};
use swc_input::capturing::Capturing;
use swc_input::token::{Token, TokenAndSpan};
use swc_input::tokens::Tokens;

/// How many bytes the lines of a row may have.
const ROOM: usize = 16384;

/// A line for what each of the row's calls answers, or nothing if the row can't be read or memory ran out before the
/// first call. The row is the setting, a line break, the calls, parted by `; `, a line break, and the text.
///
/// In a setting that ends with `slashes` an expression is read while its tokens are kept, and again of these, and then
/// the calls are made on each of the two parsers. After any other setting, and ` with `, there may be a hook and a
/// number: `NoBodies`, or the number of the call at which the hook does otherwise than `TokenBodies`.
///
/// With the calls `lexed: tokens` or the like it is such a row, whose text is written as there; and with
/// `text: parse_text_expr` or the like it is a row of a text.
pub fn lines_of(alloc: Global, row: &[u8]) -> Option<String> {
    let (words, rest) = str::from_utf8(row).ok()?.split_once('\n')?;
    let (calls, text) = rest.split_once('\n')?;
    let (setting, hook) = words
        .split_once(" with ")
        .unwrap_or((words, "TokenBodies 1"));
    let row = Row {
        calls,
        setting,
        text,
    };
    let mut lines = String::with_capacity(alloc, ROOM).ok()?;
    write_lines(alloc, &mut lines, row, hook)?;
    (!lines.as_str().contains(UNREAD)).then_some(lines)
}

fn write_lines(alloc: Global, out: &mut String, row: Row<'_>, hook: &str) -> Option<()> {
    if let Some(calls) = row.calls.strip_prefix("lexed: ") {
        show_lexed(alloc, out, Row { calls, ..row }).ok()?;
        return out.push_str("\n").ok();
    }
    if let Some(calls) = row.calls.strip_prefix("text: ") {
        show_text(alloc, out, Row { calls, ..row }, row.text).ok()?;
        return out.push_str("\n").ok();
    }
    if row.calls == "try_clone" {
        return show_copies(out, &tokens_of(alloc, row.text)?).ok();
    }
    let source = input_of(alloc, row, false)?;
    let hook = TestBodies::of_name(alloc, hook)?;
    if row.setting.ends_with("slashes") {
        let again = TestBodies::of_name(alloc, "TokenBodies 1")?;
        let context = source.ctx();
        let read = read_again(alloc, source, EsVersion::default(), hook, again, usize::MAX);
        return answer_twice(out, read, context, row.calls).ok();
    }
    if row.calls == "next" {
        let mut source = Capturing::new(alloc, source);
        return show_each_kept(out, &mut source, row.text.len().saturating_add(1)).ok();
    }
    let mut parser = TestParser::new(alloc, source, hook);
    answer_each(out, &mut parser, row.calls).ok()
}

/// Makes the calls on the parser, and writes a line for each.
fn answer_each(out: &mut String, parser: &mut TestParser, calls: &str) -> Result<(), AllocError> {
    for call in calls.split("; ") {
        let before = parser.context();
        answer(out, parser, call)?;
        end_line(out, parser.context() == before)?;
    }
    Ok(())
}

/// Ends the line of a call: says so where the context isn't the one from before.
fn end_line(out: &mut String, is_same_context: bool) -> Result<(), AllocError> {
    out.push_str(if is_same_context {
        "\n"
    } else {
        " in another context\n"
    })
}

/// Makes the call, and writes what it answers: a call that only such rows have, or one of any row.
fn answer(out: &mut String, parser: &mut TestParser, name: &str) -> Result<(), AllocError> {
    match name {
        "take_errors" => show_faults(out, &parser.take_errors()),
        "copy_errors" => show_copies_of(out, parser.take_errors()),
        "copy_refusal" => copy_refusal(out, parser),
        "set_ctx" => match parser.source().set_ctx(Context::module()) {
            Ok(()) => out.push_str("done"),
            Err(_) => out.push_str(NO_MEMORY),
        },
        "reparse_expr_as_pat" => parser.call(out, "reparse BindingPat"),
        "reparse_expr_as_pat_id" => parser.call(out, "reparse_id BindingPat"),
        "parse_paren_items_as_params" => parser.call(out, "params_of_items"),
        "make_object" => parser.call(out, "make_literal"),
        "make_pattern" => parser.call(out, "make_pattern 1"),
        _ => parser.call(out, name),
    }
}

/// Writes what was read while the tokens were kept, and what was read of these; and what the calls answer then.
fn answer_twice(
    out: &mut String,
    twice: ReadTwice<TestInput, TestBodies>,
    before: Context,
    calls: &str,
) -> Result<(), AllocError> {
    let ReadTwice { first, again } = twice;
    let begun = answer_first(out, first, before, calls);
    let written = answer_again(out, again, before, calls);
    begun.and(written)
}

fn answer_first(
    out: &mut String,
    first: ReadKeeping<TestInput, TestBodies>,
    before: Context,
    calls: &str,
) -> Result<(), AllocError> {
    let ReadKeeping {
        read,
        at_end,
        mut parser,
    } = first;
    show(out, read)?;
    end_line(out, parser.input().ctx() == before)?;
    show(out, at_end)?;
    end_line(out, parser.input().ctx() == before)?;
    answer_each_of(out, &mut parser, calls)
}

fn answer_again(
    out: &mut String,
    again: ReadBy<Box<TestExpr>, TestBodies>,
    before: Context,
    calls: &str,
) -> Result<(), AllocError> {
    let ReadBy { read, mut parser } = again;
    show(out, read)?;
    end_line(out, parser.input().ctx() == before)?;
    show(out, parser.at_end())?;
    end_line(out, parser.input().ctx() == before)?;
    answer_each_of(out, &mut parser, calls)
}

/// Makes the calls that are made on both parsers, and writes a line for each.
fn answer_each_of<I: Tokens>(
    out: &mut String,
    parser: &mut Parser<I, TestBodies>,
    calls: &str,
) -> Result<(), AllocError> {
    for call in calls.split("; ") {
        let before = parser.input().ctx();
        answer_of(out, parser, call)?;
        end_line(out, parser.input().ctx() == before)?;
    }
    Ok(())
}

fn answer_of<I: Tokens>(
    out: &mut String,
    parser: &mut Parser<I, TestBodies>,
    name: &str,
) -> Result<(), AllocError> {
    match name {
        "take_errors" => show_faults(out, &parser.take_errors()),
        "parse_expr" => show(out, parser.parse_expr()),
        "parse_pat" => show(out, parser.parse_pat()),
        "at_end" => show(out, parser.at_end()),
        _ => show_unread(out, "no such call"),
    }
}

/// Writes the faults, each with a `;` after it.
fn show_faults(out: &mut String, faults: &[Error]) -> Result<(), AllocError> {
    for fault in faults {
        write!(out, "{};", fault.brief())?;
    }
    Ok(())
}

/// Takes the tokens of the source, as many as said at most, and writes on a line for each which ones are kept then;
/// after the last one, whether the source failed.
fn show_each_kept(
    out: &mut String,
    source: &mut Capturing<TestInput>,
    most: usize,
) -> Result<(), AllocError> {
    for _ in 0..most {
        if source.next().is_none() {
            break;
        }
        show_places(out, source.tokens())?;
    }
    writeln!(out, "{}", source.failed())
}

fn show_places(out: &mut String, tokens: &[TokenAndSpan]) -> Result<(), AllocError> {
    for token in tokens {
        write!(out, "{};", token.span)?;
    }
    out.push_str("\n")
}

/// Reads an expression, and writes it; or its refusal, if copies of that are equal to it.
fn copy_refusal(out: &mut String, parser: &mut TestParser) -> Result<(), AllocError> {
    match parser.parse_expr_id() {
        Ok(id) => show_id(out, parser.nodes(), id),
        Err(fault) => show_copied(out, fault),
    }
}

/// Whether a copy of the fault, and one of its kind, are equal to it.
fn is_copied(fault: &Error) -> Result<bool, AllocError> {
    let copy = fault.try_clone()?;
    let kind = fault.kind().try_clone()?;
    Ok(copy == *fault && kind == *fault.kind())
}

/// Writes the fault, if its copies and those of its kind are equal to it.
fn show_copied(out: &mut String, fault: Error) -> Result<(), AllocError> {
    match is_copied(&fault) {
        Ok(true) => show_refusal(out, fault),
        Ok(false) => out.push_str("another"),
        Err(_) => out.push_str(NO_MEMORY),
    }
}

/// Writes the faults that were recorded, as `show_copied` does, each with a `;` after it.
fn show_copies_of(out: &mut String, faults: Vec<Error>) -> Result<(), AllocError> {
    for fault in faults {
        show_copied(out, fault)?;
        out.push_str(";")?;
    }
    Ok(())
}

/// Whether copies of the token and of its parts are equal to them.
fn are_equal(token: &TokenAndSpan) -> Result<bool, AllocError> {
    let are_equal = token.try_clone()? == *token && token.token.try_clone()? == token.token;
    match &token.token {
        Token::Word(word) => Ok(are_equal && word.try_clone()? == *word),
        Token::Num { raw } => Ok(are_equal && raw.try_clone()? == *raw),
        _ => Ok(are_equal),
    }
}

/// Writes of each token whether its copies are equal, with a `;` after it.
fn show_copies(out: &mut String, tokens: &[TokenAndSpan]) -> Result<(), AllocError> {
    for token in tokens {
        match are_equal(token) {
            Ok(are_equal) => write!(out, "{are_equal};")?,
            Err(_) => write!(out, "{NO_MEMORY};")?,
        }
    }
    out.push_str("\n")
}
