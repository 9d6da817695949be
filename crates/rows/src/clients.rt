// What the clients make of texts.
use crate::base::show_base;
use expr_layout::layout::{Nodes, layout};
use layout_document::style::Style;
use lower_rows::row::{Row, show_unread};
use lower_rows::shown::begin_part;
use parser_rows::texts::show_refused;
use program_layout::layout::layout_of;
use program_names::names::{Use, names};
use reporting::expr::{parse_part, read_expr, read_part};
use reporting::input::context_named;
use reporting::{LEVELS, Refusal};
use statement_outline::outline_of;
use statement_trees::read_program;
use statement_trees::tree::{Goal, Program};
use std::alloc::{AllocError, Global};
use swc_ecma_parser::context::context::Context;
use swc_ecma_parser::nodes::node::ExprId;
use swc_ecma_parser::printing::print::PrintNodes;
use swc_lexer::reader::End;
use template_pieces::template::{Piece, Template, parse};

/// Writes what the client of the name makes of the text, in the context that the row's setting names.
pub(crate) fn show_client(
    alloc: Global,
    out: &mut String,
    row: Row<'_>,
    text: &str,
) -> Result<(), AllocError> {
    match context_named(row.setting) {
        Some(context) => show_made_of(alloc, out, row.calls, text, context),
        None => show_unread(out, "no such context"),
    }
}

/// Writes what the client of the name makes of the text: the layout of an expression, and whether that is read as the
/// same tree; its tree, where it begins at a place of the text; the pieces of a template; the names, the layout or the
/// tree of a program.
fn show_made_of(
    alloc: Global,
    out: &mut String,
    client: &str,
    text: &str,
    context: Context,
) -> Result<(), AllocError> {
    match client {
        "names" => show_names_of(alloc, out, text, Goal::Script),
        "module names" => show_names_of(alloc, out, text, Goal::Module),
        "CommonJS names" => show_names_of(alloc, out, text, Goal::CommonJs),
        "pieces" => show_pieces(out, &parse(alloc, text, context)?),
        "layout" => show_layout(alloc, out, text, context),
        "layout again" => show_whether_laid_out(alloc, out, text, context),
        "statements" => show_tree(out, tree_of(alloc, text, Goal::Script)),
        "modules" => show_tree(out, tree_of(alloc, text, Goal::Module)),
        "program layout" => show_program_layout(alloc, out, text, Goal::Script),
        "module layout" => show_program_layout(alloc, out, text, Goal::Module),
        "CommonJS" => show_tree(out, tree_of(alloc, text, Goal::CommonJs)),
        place => match place.parse() {
            Ok(start) => show_tree(out, expr_tree(alloc, text, start, context)),
            Err(_) => match show_base(alloc, out, client, text, context)? {
                Some(()) => Ok(()),
                None => show_unread(out, "no such client"),
            },
        },
    }
}

/// Writes the tree of the program, or its fault.
pub(crate) fn show_program(alloc: Global, out: &mut String, text: &str) -> Result<(), AllocError> {
    match tree_of(alloc, text, Goal::Script) {
        Ok(tree) => out.push_str(tree.as_str()),
        Err(refusal) => {
            show_refused(out, &refusal)?;
            out.push_str("\n")
        }
    }
}

fn show_tree(out: &mut String, answer: Result<String, Refusal>) -> Result<(), AllocError> {
    match answer {
        Ok(text) => show_lines(out, text.as_str()),
        Err(refusal) => show_refused(out, &refusal),
    }
}

/// Writes a text, with `\n` for a line break.
fn show_lines(out: &mut String, text: &str) -> Result<(), AllocError> {
    for (at, line) in text.split('\n').enumerate() {
        if at > 0 {
            out.push_str("\\n")?;
        }
        out.push_str(line)?;
    }
    Ok(())
}

/// The tree of the part of the text that begins at the place.
fn expr_tree(alloc: Global, text: &str, start: usize, context: Context) -> Result<String, Refusal> {
    let part = read_part(alloc, text, start, End::BeforeBrace, context)?;
    let (nodes, expr) = parse_part(alloc, part, context)?;
    Ok(nodes.print_expr(expr)?)
}

/// The tree of a program, as text.
pub(crate) fn tree_of(alloc: Global, text: &str, goal: Goal) -> Result<String, Refusal> {
    let program = read_program(alloc, text, goal, LEVELS)?;
    Ok(outline_of(alloc, &program)?)
}

/// The layout of a program.
fn program_laid_out(alloc: Global, text: &str, goal: Goal) -> Result<String, Refusal> {
    let program = read_program(alloc, text, goal, LEVELS)?;
    Ok(layout_of(alloc, text, program, Style::usual())?)
}

/// The layout of the expression of a text, which was read in the context.
pub(crate) fn laid_out(
    alloc: Global,
    text: &str,
    nodes: &Nodes,
    expr: ExprId,
    context: Context,
) -> Result<String, AllocError> {
    let part = read_part(alloc, text, 0, End::Whole, context)?;
    layout(alloc, text, &part.tokens, nodes, expr, Style::usual())
}

/// Writes the layout of the program, and a word more where that isn't laid out as itself.
fn show_program_layout(
    alloc: Global,
    out: &mut String,
    text: &str,
    goal: Goal,
) -> Result<(), AllocError> {
    match program_laid_out(alloc, text, goal) {
        Ok(first) => {
            show_lines(out, first.as_str())?;
            let second = program_laid_out(alloc, first.as_str(), goal).ok();
            if second == Some(first) {
                return Ok(());
            }
            out.push_str(" laid out otherwise")
        }
        Err(refusal) => show_refused(out, &refusal),
    }
}

/// Writes the layout of the text, and a word more where that isn't read as the same tree, or not laid out as itself.
fn show_layout(
    alloc: Global,
    out: &mut String,
    text: &str,
    context: Context,
) -> Result<(), AllocError> {
    match read_expr(alloc, text, context) {
        Ok((nodes, expr)) => {
            let first = laid_out(alloc, text, &nodes, expr, context)?;
            show_lines(out, first.as_str())?;
            let tree = nodes.print_expr(expr).ok();
            if is_laid_out(alloc, first.as_str(), tree, context)? {
                Ok(())
            } else {
                out.push_str(" read otherwise")
            }
        }
        Err(refusal) => show_refused(out, &refusal),
    }
}

/// Writes whether the layout of the text is read as the same tree, and is laid out as itself.
fn show_whether_laid_out(
    alloc: Global,
    out: &mut String,
    text: &str,
    context: Context,
) -> Result<(), AllocError> {
    match read_expr(alloc, text, context) {
        Ok((nodes, expr)) => {
            let first = laid_out(alloc, text, &nodes, expr, context)?;
            let tree = nodes.print_expr(expr).ok();
            let is_same = is_laid_out(alloc, first.as_str(), tree, context)?;
            out.push_str(if is_same {
                "read as the same tree"
            } else {
                "read otherwise"
            })
        }
        Err(refusal) => show_refused(out, &refusal),
    }
}

/// Whether the text is read as the tree, and laid out as itself.
fn is_laid_out(
    alloc: Global,
    text: &str,
    tree: Option<String>,
    context: Context,
) -> Result<bool, AllocError> {
    match read_expr(alloc, text, context) {
        Ok((nodes, expr)) => {
            let again = laid_out(alloc, text, &nodes, expr, context)?;
            Ok(again.as_str() == text && nodes.print_expr(expr).ok() == tree)
        }
        Err(_) => Ok(false),
    }
}

/// Writes the names of the program.
fn show_names_of(
    alloc: Global,
    out: &mut String,
    text: &str,
    goal: Goal,
) -> Result<(), AllocError> {
    match read_program(alloc, text, goal, LEVELS) {
        Ok(program) => show_names(alloc, out, &program),
        Err(refusal) => show_refused(out, &refusal),
    }
}

fn show_names(alloc: Global, out: &mut String, program: &Program) -> Result<(), AllocError> {
    let found = names(alloc, program)?;
    for (at, name) in found.iter().enumerate() {
        begin_part(out, at, "; ")?;
        let (text, how) = (name.text, name.how.as_str());
        write!(out, "{text} {} {how}", name.span)?;
        match (name.how, name.binding) {
            (Use::Bound, _) => {}
            (_, None) => out.push_str(" free")?,
            (_, Some(place)) => write!(out, " bound {place}")?,
        }
    }
    show_none(out, found.is_empty())
}

/// Writes the pieces, and after a bar the faults, if there are any.
fn show_pieces(out: &mut String, template: &Template) -> Result<(), AllocError> {
    for (at, piece) in template.pieces.iter().enumerate() {
        begin_part(out, at, "; ")?;
        match piece {
            Piece::Text(span) => write!(out, "text {span}")?,
            Piece::Hole(hole) => {
                let Ok(tree) = hole.nodes().print_expr(hole.expr()) else {
                    return Err(AllocError);
                };
                write!(out, "hole {tree}")?
            }
        }
    }
    show_none(out, template.pieces.is_empty())?;
    for (at, fault) in template.faults.iter().enumerate() {
        out.push_str(if at > 0 { "; " } else { " | " })?;
        show_refused(out, fault)?;
    }
    Ok(())
}

/// Says that there is none of what a row shows.
fn show_none(out: &mut String, is_none: bool) -> Result<(), AllocError> {
    if is_none {
        out.push_str("none")?;
    }
    Ok(())
}
