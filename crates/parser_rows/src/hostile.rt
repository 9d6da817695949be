// Calls over lists of tokens that no reader gives, and with hooks that do otherwise than they might.
use lower_rows::hooks::{Manner, TestBodies};
use lower_rows::row::{Row, UNREAD, show_unread};
use lower_rows::settings::{setting_of, test_input};
use lower_rows::source::TestInput;
use lower_rows::tokens::tokens_of;
use row_parser::parser::TestParser;
use std::alloc::{AllocError, Global};
use swc_context::error::{Error, SyntaxError};
use swc_context::span::Span;
use swc_input::buffer::Buffer;
use swc_input::token::{Token, TokenAndSpan};
use swc_input::tokens::Tokens;

/// What is wrong with a run that can't be made; the row can't be read then.
const NO_RUN: &str = "\0no such call or setting";

/// How many runs went as they have to; and those that didn't.
#[derive(Drop)]
struct Tally {
    runs: u32,
    wrong: String,
}

/// What is added to a setting: faults are recorded, and in two ways none is.
const LOUDNESS: [&str; 3] = ["", " no_early_errors", " ignore_error"];

/// The hooks, each hostile at one of its first calls.
const HOOKS: [&str; 12] = [
    "RefuseAt 1",
    "RefuseAt 2",
    "RefuseAt 3",
    "RecordAt 1",
    "RecordAt 2",
    "RecordAt 3",
    "ReadOnAt 1",
    "ReadOnAt 2",
    "ReadOnAt 3",
    "FailAt 1",
    "FailAt 2",
    "FailAt 3",
];

/// Writes how many runs of the row's call went as they have to, and those that didn't: each returns, keeps the context,
/// and leaves what comes after the token that was consumed last.
pub(crate) fn show_hostile(
    alloc: Global,
    out: &mut String,
    row: Row<'_>,
) -> Result<(), AllocError> {
    let Some(tokens) = tokens_of(alloc, row.text) else {
        return show_unread(out, "no tokens");
    };
    let mut tally = Tally {
        runs: 0,
        wrong: String::new(alloc),
    };
    let by_number = Row {
        calls: numbered(row.calls),
        ..row
    };
    count_call(alloc, &mut tally, row, &tokens)?;
    count_call(alloc, &mut tally, by_number, &tokens)?;
    write!(out, "{} runs{}", tally.runs, tally.wrong)
}

/// The call that reads what this one does, and answers the number of a node; for one on a part of an expression it
/// reads an expression.
fn numbered(call: &str) -> &'static str {
    match call {
        "parse_pat" => "parse_pat_id",
        _ => "parse_expr_id",
    }
}

/// Counts the runs of a call.
fn count_call(
    alloc: Global,
    tally: &mut Tally,
    row: Row<'_>,
    tokens: &[TokenAndSpan],
) -> Result<(), AllocError> {
    count_disordered(alloc, tally, row, tokens)?;
    count_cut(alloc, tally, row, tokens)?;
    count_hooked(alloc, tally, row, tokens)
}

/// Counts the runs over the tokens with a fault in place of each, and over those with their places turned round.
fn count_disordered(
    alloc: Global,
    tally: &mut Tally,
    row: Row<'_>,
    tokens: &[TokenAndSpan],
) -> Result<(), AllocError> {
    for at in 0..=tokens.len() {
        let list = disordered(alloc, tokens, at)?;
        let how = format!(in alloc; "fault {at}")?;
        count_loud(alloc, tally, row, &list, how.as_str())?;
    }
    Ok(())
}

/// Counts the runs over the list, however loud faults are.
fn count_loud(
    alloc: Global,
    tally: &mut Tally,
    row: Row<'_>,
    list: &[TokenAndSpan],
    how: &str,
) -> Result<(), AllocError> {
    for word in LOUDNESS {
        let setting = format!(in alloc; "{}{word}", row.setting)?;
        let row = Row {
            setting: setting.as_str(),
            ..row
        };
        count(alloc, tally, row, list, how)?;
    }
    Ok(())
}

/// Counts the runs over the first tokens, of each number of them.
fn count_cut(
    alloc: Global,
    tally: &mut Tally,
    row: Row<'_>,
    tokens: &[TokenAndSpan],
) -> Result<(), AllocError> {
    for at in 0..=tokens.len() {
        let how = format!(in alloc; "cut {at}")?;
        count(
            alloc,
            tally,
            row,
            &first_of(alloc, tokens, at)?,
            how.as_str(),
        )?;
    }
    Ok(())
}

/// Counts the runs with each hook.
fn count_hooked(
    alloc: Global,
    tally: &mut Tally,
    row: Row<'_>,
    tokens: &[TokenAndSpan],
) -> Result<(), AllocError> {
    for hook in HOOKS {
        count(alloc, tally, row, tokens, hook)?;
    }
    Ok(())
}

/// Counts a run over the tokens, or writes what is wrong with it. How the run is hostile may be the name of a hook.
fn count(
    alloc: Global,
    tally: &mut Tally,
    row: Row<'_>,
    tokens: &[TokenAndSpan],
    how: &str,
) -> Result<(), AllocError> {
    let fault = fault_of_run(alloc, row, tokens, how)?;
    if fault.is_empty() {
        tally.runs = tally.runs.saturating_add(1);
    } else if !tally.wrong.as_str().contains(UNREAD) {
        let Row { calls, setting, .. } = row;
        write!(tally.wrong, "; {fault} of {calls} in {setting}: {how}")?;
    }
    Ok(())
}

/// What is wrong with a run, or nothing.
fn fault_of_run(
    alloc: Global,
    row: Row<'_>,
    tokens: &[TokenAndSpan],
    how: &str,
) -> Result<&'static str, AllocError> {
    let Some(setting) = setting_of(row.setting, false) else {
        return Ok(NO_RUN);
    };
    let copy = first_of(alloc, tokens, tokens.len())?;
    let source = test_input(alloc, setting, copy, Vec::new(alloc));
    let mut parser = TestParser::new(alloc, source, hook_named(alloc, how));
    run(alloc, &mut parser, row.calls, tokens, how)
}

/// The hook of the name; where it is no hook's, one that reads.
fn hook_named(alloc: Global, name: &str) -> TestBodies {
    match TestBodies::of_name(alloc, name) {
        Some(hook) => hook,
        None => TestBodies::new(alloc, 0, Manner::Reads, Manner::Reads),
    }
}

/// Makes the call, and answers what is wrong then. What is left isn't looked at where there are faults among the
/// tokens, or where the source fails.
fn run(
    alloc: Global,
    parser: &mut TestParser,
    name: &str,
    tokens: &[TokenAndSpan],
    how: &str,
) -> Result<&'static str, AllocError> {
    let before = parser.context();
    let mut answer = String::new(alloc);
    parser.call(&mut answer, name)?;
    if answer.as_str().starts_with(UNREAD) {
        return Ok(NO_RUN);
    }
    if parser.context() != before {
        return Ok("another context");
    }
    if how.starts_with("fault") || how.starts_with("FailAt") {
        return Ok("");
    }
    fault_of_rest(alloc, parser.buffer(), tokens)
}

/// What is wrong with the tokens that are left: they have to be all that come after the token that was consumed last.
fn fault_of_rest(
    alloc: Global,
    input: &mut Buffer<TestInput>,
    tokens: &[TokenAndSpan],
) -> Result<&'static str, AllocError> {
    let last = input.prev_span();
    let left = take_left(alloc, input, tokens.len())?;
    if !input.had_line_break_before_cur() || input.knows_cur() {
        return Ok("too many tokens left");
    }
    if ends_with(tokens, &left) && is_last(tokens, left.len(), last) {
        Ok("")
    } else {
        Ok("other tokens left")
    }
}

/// Takes the tokens that are left out of the buffer, but no more than said.
fn take_left(
    alloc: Global,
    input: &mut Buffer<TestInput>,
    most: usize,
) -> Result<Vec<TokenAndSpan>, AllocError> {
    let mut left = Vec::new(alloc);
    for _ in 0..most {
        let had_line_break = input.had_line_break_before_cur();
        if !input.knows_cur() {
            return Ok(left);
        }
        let span = input.cur_span();
        let token = input.bump();
        left.push(TokenAndSpan {
            token,
            had_line_break,
            span,
        })?;
    }
    Ok(left)
}

/// Whether the list ends with the tokens that are left.
fn ends_with(tokens: &[TokenAndSpan], left: &[TokenAndSpan]) -> bool {
    let mut pairs = tokens.iter().rev().zip(left.iter().rev());
    left.len() <= tokens.len() && pairs.all(|(token, left)| token == left)
}

/// Whether this is the place of the token before those that are left; where there is none it is empty.
fn is_last(tokens: &[TokenAndSpan], left: usize, last: Span) -> bool {
    match tokens.iter().rev().nth(left) {
        Some(token) => token.span == last,
        None => last.lo == last.hi,
    }
}

/// The first tokens of a list, as many as said, or all.
fn first_of(
    alloc: Global,
    tokens: &[TokenAndSpan],
    count: usize,
) -> Result<Vec<TokenAndSpan>, AllocError> {
    let mut out = Vec::new(alloc);
    for token in tokens.iter().take(count) {
        out.push(token.try_clone()?)?;
    }
    Ok(out)
}

/// The tokens, with a fault in place of the one of this number; where there is none, each with the place of the one
/// that is as far from the other end.
fn disordered(
    alloc: Global,
    tokens: &[TokenAndSpan],
    at: usize,
) -> Result<Vec<TokenAndSpan>, AllocError> {
    let mut list = first_of(alloc, tokens, tokens.len())?;
    match list.get_mut(at) {
        Some(found) => found.token = Token::Error(Error::new(found.span, SyntaxError::Lex)),
        None => turn_places(&mut list, tokens),
    }
    Ok(list)
}

/// Gives each token the place of the one that is as far from the other end.
fn turn_places(list: &mut [TokenAndSpan], tokens: &[TokenAndSpan]) {
    for (found, other) in list.iter_mut().zip(tokens.iter().rev()) {
        found.span = other.span;
    }
}
