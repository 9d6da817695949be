// What `lint` finds.
use crate::findings::Finding;
use statement_trees::tree::Program;
use std::alloc::{AllocError, Global};
use swc_ecma_parser::prelude::*;

/// What is wrong with an expression, and where: the rule, and what is said.
fn wrong(
    program: &Program,
    text: &str,
    expr: ExprId,
) -> Option<(Span, &'static str, &'static str)> {
    let nodes = &program.nodes;
    match nodes.node(expr)? {
        Node::Bin {
            op: BinaryOp::EqEq,
            ..
        } => Some((
            operator_span(nodes, text, expr)?,
            "eqeqeq",
            "`===` is safer than `==`",
        )),
        Node::Bin {
            op: BinaryOp::NotEq,
            ..
        } => Some((
            operator_span(nodes, text, expr)?,
            "eqeqeq",
            "`!==` is safer than `!=`",
        )),
        Node::Call {
            callee: Callee::Expr(callee),
            ..
        } => match nodes.node(*callee)? {
            Node::Ident(name) if name.sym.as_str() == "eval" => {
                Some((nodes.span_of(expr)?, "no-eval", "`eval` runs any text"))
            }
            _ => None,
        },
        _ => None,
    }
}

/// Adds what the rules find in a program to what is wrong with it, in the order of the text. The only error is out of
/// memory.
pub fn add_findings(
    alloc: Global,
    program: &Program,
    text: &str,
    found: &mut Vec<Finding>,
) -> Result<(), AllocError> {
    for number in 0..program.nodes.len() {
        if let Some((span, rule, message)) = wrong(program, text, ExprId(number)) {
            found.push(Finding::new(alloc, span, rule, message)?)?;
        }
    }
    found.sort_by_key(|finding: &Finding| finding.span.lo.0)
}
