// Texts in their layout.
use crate::command::Options;
use crate::faults::Job;
use crate::goals::{NoProgram, read_program};
use crate::source::{MARK, without_mark};
use expr_layout::layout::layout;
use program_layout::layout::layout_of;
use reporting::expr::{read_expr_within, read_part};
use statement_trees::tree::Goal;
use std::alloc::{AllocError, Global};
use swc_ecma_parser::context::context::Context;
use swc_lexer::reader::End;

/// The text of a file in its layout. It ends with a line break, unless it is empty; line breaks are CR and LF where the
/// first one of the text is; a byte order mark stays.
pub fn formatted(
    alloc: Global,
    text: &str,
    options: Options,
    job: Job,
) -> Result<String, NoProgram> {
    let laid_out = laid_out(alloc, without_mark(text), options, job)?;
    let mut out = String::new(alloc);
    if text.starts_with(MARK) {
        out.push(MARK)?;
    }
    if laid_out.is_empty() {
        return Ok(out);
    }
    if has_crlf(text) {
        push_with_crlf(&mut out, laid_out.as_str())?;
        out.push_str("\r\n")?;
    } else {
        out.push_str(laid_out.as_str())?;
        out.push('\n')?;
    }
    Ok(out)
}

/// The layout of a program or an expression.
fn laid_out(alloc: Global, text: &str, options: Options, job: Job) -> Result<String, NoProgram> {
    let style = options.style;
    if options.expr {
        let context = match job.goal {
            Some(Goal::Module) => Context::module(),
            _ => Context::script(),
        };
        let (nodes, expr) = read_expr_within(alloc, text, context, job.levels)?;
        let part = read_part(alloc, text, 0, End::Whole, context)?;
        return Ok(layout(alloc, text, &part.tokens, &nodes, expr, style)?);
    }
    let program = read_program(alloc, text, job.goal, job.levels)?;
    Ok(layout_of(alloc, text, program, style)?)
}

/// Whether the first line of a text ends with CR and LF.
fn has_crlf(text: &str) -> bool {
    match text.split_once('\n') {
        Some((line, _)) => line.ends_with('\r'),
        None => false,
    }
}

/// Adds a text whose lines end with CR and LF instead of LF alone.
fn push_with_crlf(out: &mut String, text: &str) -> Result<(), AllocError> {
    let mut is_first = true;
    for line in text.split('\n') {
        if !is_first {
            out.push_str("\r\n")?;
        }
        out.push_str(line.strip_suffix('\r').unwrap_or(line))?;
        is_first = false;
    }
    Ok(())
}

/// Whether a layout stays as it is when it is laid out again.
pub fn is_settled(alloc: Global, laid_out: &str, options: Options, job: Job) -> bool {
    match formatted(alloc, laid_out, options, job) {
        Ok(again) => again.as_str() == laid_out,
        Err(_) => false,
    }
}
