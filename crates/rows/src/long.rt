// What the clients make of long texts, each a few pieces many times over.
use crate::clients::{laid_out, tree_of};
use lower_rows::row::{Row, unescaped};
use parser_rows::long;
use parser_rows::texts::show_refused;
use program_names::names::names;
use reporting::expr::read_expr;
use reporting::{LEVELS, Refusal};
use statement_trees::read_program;
use statement_trees::tree::Goal;
use std::alloc::{AllocError, Global};
use swc_ecma_parser::context::context::Context;
use template_pieces::template::{Template, parse};

/// Writes what is made of the long text of the row: by a client, or by the parser.
pub(crate) fn show_long(alloc: Global, out: &mut String, row: Row<'_>) -> Result<(), AllocError> {
    let text = long::long_text(alloc, unescaped(alloc, row.text)?.as_str())?;
    match row.calls {
        "names" => show_names(alloc, out, text.as_str()),
        "layout" => show_layout(alloc, out, text.as_str()),
        "statements" => show_length(out, tree_of(alloc, text.as_str(), Goal::Script)),
        "pieces" => show_pieces(out, &parse(alloc, text.as_str(), Context::script())?),
        _ => long::show_long(alloc, out, row),
    }
}

/// Writes how many names a program has.
fn show_names(alloc: Global, out: &mut String, text: &str) -> Result<(), AllocError> {
    match read_program(alloc, text, Goal::Script, LEVELS) {
        Ok(program) => write!(out, "{} names", names(alloc, &program)?.len()),
        Err(refusal) => show_refused(out, &refusal),
    }
}

/// Writes in how many lines an expression is laid out.
fn show_layout(alloc: Global, out: &mut String, text: &str) -> Result<(), AllocError> {
    let context = Context::script();
    match read_expr(alloc, text, context) {
        Ok((nodes, expr)) => {
            let laid_out = laid_out(alloc, text, &nodes, expr, context)?;
            write!(out, "{} lines", laid_out.split('\n').count())
        }
        Err(refusal) => show_refused(out, &refusal),
    }
}

/// Writes how long the tree of a program is.
fn show_length(out: &mut String, answer: Result<String, Refusal>) -> Result<(), AllocError> {
    match answer {
        Ok(tree) => write!(out, "{} bytes", tree.len()),
        Err(refusal) => show_refused(out, &refusal),
    }
}

/// Writes how many pieces and faults a template has, and its last fault.
fn show_pieces(out: &mut String, template: &Template) -> Result<(), AllocError> {
    write!(out, "{} pieces", template.pieces.len())?;
    if let Some(last) = template.faults.last() {
        write!(out, ", {} faults, the last ", template.faults.len())?;
        show_refused(out, last)?;
    }
    Ok(())
}
