// One expression with all bodies in it, as a program of one statement.
ghost use Rattle.std.specs.Prelude.{◌≡◌, ◌↔◌, IfOk, IfSome, IsSome};
ghost use Rattle.swc_ecma_parser.specs.TextList.{IsPart};
ghost use Rattle.statement_trees.specs.Passes.{InOrder};

use crate::program::{Form, Passes, tokens_from};
use reporting::Refusal;
use reporting::expr::position;
use std::alloc::Global;
use swc_ecma_parser::context::span::Span;
use swc_ecma_parser::text::part_of;
use swc_lexer::read::out_of_memory;
use swc_lexer::stack::Start;
use tree_types::tree::{Goal, Program};

/// Reads a part of a text, the bytes from `at` to `end`, as one expression (ECMA-262, 13.16), with all functions and
/// classes in it, as `read_program` reads a program: the program that is returned has one statement, the expression. Its
/// places are in the whole text, which isn't copied. `None` if `end` is before `at` or after the text's end, or either is
/// within a character.
///
/// The first fault is the refusal, as it is for `read_program`. So is a token that is left after the expression:
/// `swc_ecma_parser::text::parse_text_expr_at` tells where an expression ends.
pub fn read_expression(
    alloc: Global,
    text: &str,
    at: usize,
    end: usize,
    goal: Goal,
    levels: usize,
) -> Option<Result<Program, Refusal>>
    ensures found { IsSome result ↔ IsPart text.now at end }
    ensures order { IfSome result (λ read. IfOk read (λ program. InOrder program.bodies.items)) }
    ensures goal { IfSome result (λ read. IfOk read (λ program. program.goal ≡ goal)) }
{
    match part_of(text, at, end) {
        Some(front) => Some(expression_of(alloc, front, at, goal, levels)),
        None => None,
    }
}

/// Reads a text from a byte on as one expression.
fn expression_of(
    alloc: Global,
    text: &str,
    at: usize,
    goal: Goal,
    levels: usize,
) -> Result<Program, Refusal>
    ensures order { IfOk result (λ program. InOrder program.bodies.items) }
    ensures goal { IfOk result (λ program. program.goal ≡ goal) }
{
    let Ok((list, ending)) = tokens_from(alloc, text, at, Start::Operand, goal) else {
        return Err(Refusal::Fault(out_of_memory()));
    };
    let mut passes = Passes::new(alloc, list, goal, levels);
    let span = Span::new(position(at), position(text.len()));
    match passes.read(Form::Expression) {
        Ok(body) => Ok(passes.into_program(span, goal, body)),
        Err(Refusal::Fault(fault)) => Err(ending.refusal(fault, false)),
        Err(refusal) => Err(refusal),
    }
}
