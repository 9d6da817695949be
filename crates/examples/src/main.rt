//! Reads a text as an expression, and prints its tree, or what is wrong with it.
#![tactic(auto)]

use std::alloc::Global;
use std::io;
use swc_ecma_parser::prelude::*;

/// How deeply an expression may be nested, for a stack of 8 MB.
const LEVELS: usize = 800;

/// The tree of a text, or `None` where tokens are left after it. A recorded fault is an error, too.
fn tree_of(alloc: Global, text: &str) -> PResult<Option<String>> {
    let (context, syntax, target) = (Context::script(), Syntax::default(), EsVersion::default());
    let whole = parse_text_expr(alloc, text, context, syntax, target, NoBodies, LEVELS);
    let (expr, unread) = whole.read?;
    match whole.recorded.into_iter().next() {
        Some(fault) => Err(fault),
        None if unread => Ok(None),
        None => Ok(Some(whole.nodes.print_expr(expr)?)),
    }
}

fn main(rt: HostRuntime) -> io::Result<()> {
    let text = "f(x, {é, b: /[/]\\u0041/})";
    match tree_of(rt.alloc(), text) {
        Ok(Some(tree)) => println!(rt; "{tree}"),
        Ok(None) => println!(rt; "tokens are left"),
        Err(fault) => println!(rt; "{}: {fault}", fault.span().line_column(text.as_bytes())),
    }
}
