//! Reads a script, and reports each `==` and each call of `eval` in it, within functions too.
#![tactic(auto)]

use reporting::{LEVELS, report};
use statement_trees::read_program;
use statement_trees::tree::{Goal, Program};
use std::io;
use std::process::ExitCode;
use swc_ecma_parser::lexer::lines::Lines;
use swc_ecma_parser::prelude::*;

/// What is wrong with an expression, and where.
fn finding(program: &Program, text: &str, expr: ExprId) -> Option<(Span, &'static str)> {
    let nodes = &program.nodes;
    match nodes.node(expr)? {
        Node::Bin {
            op: BinaryOp::EqEq,
            ..
        } => Some((
            operator_span(nodes, text, expr)?,
            "`===` is safer than `==`",
        )),
        Node::Call {
            callee: Callee::Expr(callee),
            ..
        } => match nodes.node(*callee)? {
            Node::Ident(name) if name.sym.as_str() == "eval" => {
                Some((nodes.span_of(expr)?, "`eval` runs any text"))
            }
            _ => None,
        },
        _ => None,
    }
}

/// Reports what is wrong, in the order of the text. Answers the status.
fn lint(rt: &HostRuntime, program: &Program, text: &str) -> io::Result<u8> {
    let lines = Lines::new(rt.alloc(), text)?;
    let mut found = Vec::new(rt.alloc());
    for number in 0..program.nodes.len() {
        if let Some(wrong) = finding(program, text, ExprId(number)) {
            found.push(wrong)?;
        }
    }
    found.sort_by_key(|wrong: &(Span, &str)| wrong.0.lo.0)?;
    for (span, message) in &found {
        println!(rt; "{}: {message}", lines.position(span.lo.0 as usize))?;
    }
    Ok(if found.is_empty() { 0 } else { 1 })
}

fn main(rt: HostRuntime) -> io::Result<ExitCode> {
    let text = io::read_to_string(rt.alloc(), rt.reader())?;
    let status = match read_program(rt.alloc(), text.as_str(), Goal::Script, LEVELS) {
        Ok(program) => lint(&rt, &program, text.as_str())?,
        Err(refusal) => report(&rt, text.as_bytes(), &refusal),
    };
    Ok(ExitCode::from(status))
}
