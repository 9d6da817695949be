// Which code is strict (ECMA-262, 11.2.1 and 11.2.2).
ghost use Rattle.std.specs.Prelude.{◌≡◌};
ghost use Rattle.early_errors.specs.Strictness as strictness;

use swc_context::span::Span;
use swc_nodes::node::ExprId;
use tree_types::tree::{Program, StatementId, StatementKind};

/// The place of an expression that there is.
fn place_of(program: &Program, expr: ExprId) -> Option<Span>
    ensures { result ≡ strictness.place_of program.now expr }
{
    if expr.0 < program.nodes.len() {
        program.nodes.span_of(expr)
    } else {
        None
    }
}

/// The place of the string that a statement is, if it is a directive.
pub(crate) fn directive(program: &Program, id: StatementId) -> Option<Span>
    ensures { result ≡ strictness.directive program.now id }
{
    match &program.statements.get(id.0)?.kind {
        StatementKind::Directive(expr) => place_of(program, *expr),
        _ => None,
    }
}

/// Whether the text of the place is `"use strict"`, in either quotes.
fn says_use_strict(text: &str, place: Span) -> bool
    ensures { result ≡ strictness.says_use_strict text.now place }
{
    match text
        .as_bytes()
        .get(place.lo.0 as usize..place.hi.0 as usize)
    {
        Some(raw) => raw == b"\"use strict\"".as_slice() || raw == b"'use strict'".as_slice(),
        None => false,
    }
}

/// The place of `"use strict"` in the prologue of statements. They are strict code if it has one.
pub(crate) fn use_strict(text: &str, program: &Program, statements: &[StatementId]) -> Option<Span>
    ensures { result ≡ strictness.use_strict text.now program.now statements.now }
{
    let mut at = 0;
    while at < statements.len() {
        let place = directive(program, statements[at])?;
        if says_use_strict(text, place) {
            return Some(place);
        }
        at += 1;
    }
    None
}
