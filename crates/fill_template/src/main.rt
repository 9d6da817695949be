//! Reads a template, as `Dear {{ name || "friend" }}`, and prints it with the values of its holes, which are texts:
//! `fill_template NAME=VALUE ..`. A hole may have names, strings, parentheses, `+` and `||`.
#![tactic(auto)]

use literal_values::string::string_text;
use reporting::report;
use std::alloc::{AllocError, Global};
use std::process::ExitCode;
use std::{env, io};
use swc_ecma_parser::prelude::*;
use template_pieces::template::{Hole, Piece, parse};

/// The value of a name, by the arguments; none where no argument has it.
fn meaning<'a>(arguments: &'a [String], name: &str) -> &'a str {
    for argument in arguments {
        if let Some((found, value)) = argument.as_str().split_once('=')
            && found == name
        {
            return value;
        }
    }
    ""
}

fn owned(alloc: Global, text: Option<&str>) -> Result<Option<String>, AllocError> {
    text.map(|text| String::from_str(alloc, text)).transpose()
}

/// The value of a hole, by those of its parts, which come before it; `None` where it has something else.
fn fill(alloc: Global, hole: &Hole, arguments: &[String]) -> Result<Option<String>, AllocError> {
    let mut values: Vec<Option<String>> = Vec::new(alloc);
    for number in 0..hole.nodes().len() {
        let at = |id: ExprId| Some(values.get(id.0)?.as_ref()?.as_str());
        let value = match hole.nodes().node(ExprId(number)) {
            Some(Node::Str(literal)) => string_text(alloc, literal.raw.as_str())?,
            Some(Node::Ident(name)) => owned(alloc, Some(meaning(arguments, name.sym.as_str())))?,
            Some(Node::Paren(paren)) => owned(alloc, at(paren.expr))?,
            Some(
                Node::Bin {
                    op,
                    left,
                    right,
                    ..
                },
            ) => match (op, at(*left), at(*right)) {
                (BinaryOp::LogicalOr, Some(""), right) => owned(alloc, right)?,
                (BinaryOp::LogicalOr, left, _) => owned(alloc, left)?,
                (BinaryOp::Add, Some(left), Some(right)) => Some(format!(in alloc;
                    "{left}{right}"
                )?),
                _ => None,
            },
            _ => None,
        };
        values.push(value)?;
    }
    Ok(values.into_iter().nth(hole.expr().0).flatten())
}

fn main(rt: HostRuntime) -> io::Result<ExitCode> {
    let text = io::read_to_string(rt.alloc(), rt.reader())?;
    let mut arguments = Vec::new(rt.alloc());
    for argument in env::args(&rt)?.skip(1) {
        arguments.push(argument)?;
    }
    let template = parse(rt.alloc(), text.as_str(), Context::script())?;
    if let Some(fault) = template.faults.first() {
        return Ok(ExitCode::from(report(&rt, text.as_bytes(), fault)));
    }
    for piece in &template.pieces {
        match piece {
            Piece::Text(span) => {
                let part = text.as_str().get(span.lo.0 as usize..span.hi.0 as usize);
                print!(rt; "{}", part.unwrap_or(""))?;
            }
            Piece::Hole(hole) => match fill(rt.alloc(), hole, &arguments)? {
                Some(filled) => print!(rt; "{filled}")?,
                None => {
                    let place = hole.span().line_column(text.as_bytes());
                    eprintln!(rt; "{place}: there is something else in this hole")?;
                    return Ok(ExitCode::from(1));
                }
            },
        }
    }
    Ok(ExitCode::SUCCESS)
}
