// Names, tokens and pieces of templates, a line each.
use crate::findings::Place;
use crate::output::Output;
use program_names::names::{Name, Use, names};
use program_tokens::texts::tokens_of;
use reporting::Refusal;
use statement_trees::tree::{Goal, Program};
use std::alloc::{AllocError, Global};
use swc_ecma_parser::context::context::Context;
use swc_ecma_parser::context::span::Span;
use swc_ecma_parser::input::token::{Token, TokenAndSpan};
use swc_ecma_parser::printing::print::PrintNodes;
use template_pieces::template::{Piece, parse_within};

/// Writes each name of a program: its place, how it is used, and where it is bound.
pub fn put_names(
    rt: &HostRuntime,
    place: &Place<'_>,
    program: &Program,
    output: &mut Output,
) -> Result<(), AllocError> {
    for name in &names(rt.alloc(), program)? {
        put_name(&mut output.text, place, name)?;
        if !output.pass(rt) {
            break;
        }
    }
    Ok(())
}

fn put_name(out: &mut String, place: &Place<'_>, name: &Name<'_>) -> Result<(), AllocError> {
    let (line, column) = place.at(name.span.lo);
    let (text, how) = (name.text, name.how.as_str());
    write!(out, "{line}:{column} {text} {how}")?;
    match (name.how, name.binding) {
        (Use::Bound, _) => out.push_str("\n"),
        (_, None) => out.push_str(" free\n"),
        (_, Some(binding)) => {
            let (line, column) = place.at(binding.lo);
            write!(out, " bound {line}:{column}\n")
        }
    }
}

/// Writes each token of a text: its place, what it is, and how it is written. A fault of the text is the refusal.
pub fn put_tokens(
    rt: &HostRuntime,
    place: &Place<'_>,
    text: &str,
    goal: Option<Goal>,
    output: &mut Output,
) -> Result<(), Refusal> {
    let tokens = tokens_of(rt.alloc(), text, goal == Some(Goal::Module))?;
    for token in &tokens {
        if let Token::Error(fault) = &token.token {
            return Err(Refusal::Fault(fault.try_clone()?));
        }
        put_token(&mut output.text, place, text, token)?;
        if !output.pass(rt) {
            break;
        }
    }
    Ok(())
}

fn put_token(
    out: &mut String,
    place: &Place<'_>,
    text: &str,
    token: &TokenAndSpan,
) -> Result<(), AllocError> {
    let (line, column) = place.at(token.span.lo);
    let (kind, written) = (kind_of(&token.token), text_at(text, token.span));
    write!(out, "{line}:{column} {kind} {written:?}\n")
}

/// What a token is.
pub fn kind_of(token: &Token) -> &'static str {
    match token {
        Token::Word(_) => "word",
        Token::Template { .. } => "template",
        Token::Str { .. } => "string",
        Token::Num { .. } => "number",
        Token::BigInt { .. } => "bigint",
        Token::Regex(_, _) => "regexp",
        _ => "sign",
    }
}

/// What is at a place of a text.
pub fn text_at(text: &str, at: Span) -> &str {
    text.get(at.lo.0 as usize..at.hi.0 as usize).unwrap_or("")
}

/// Writes each piece of a template. Answers what is wrong with its holes; then nothing is written.
pub fn put_template(
    alloc: Global,
    text: &str,
    goal: Option<Goal>,
    levels: usize,
    output: &mut Output,
) -> Result<Vec<Refusal>, AllocError> {
    let context = match goal {
        Some(Goal::Module) => Context::module(),
        _ => Context::script(),
    };
    let template = parse_within(alloc, text, context, levels)?;
    if template.faults.is_empty() {
        for piece in &template.pieces {
            put_piece(&mut output.text, text, piece)?;
        }
    }
    Ok(template.faults)
}

fn put_piece(out: &mut String, text: &str, piece: &Piece) -> Result<(), AllocError> {
    match piece {
        Piece::Text(at) => {
            let part = text_at(text, *at);
            write!(out, "text {part:?}\n")
        }
        Piece::Hole(hole) => {
            let Ok(tree) = hole.nodes().print_expr(hole.expr()) else {
                return Err(AllocError);
            };
            write!(out, "hole {tree}\n")
        }
    }
}
