// A text, or a part of one, read as one expression.
ghost use Rattle.std.specs.Prelude.{IfOk};
ghost use Rattle.swc_nodes.specs.{NodeParts.expr_part, GrowingNodes.From};
ghost use Rattle.swc_ecma_parser.specs.Calls.{nodes_of};

use crate::openers::{Ending, end_for};
use crate::{LEVELS, Refusal};
use std::alloc::{AllocError, Global};
use swc_ecma_parser::bodies::token_bodies::TokenBodies;
use swc_ecma_parser::context::context::{Context, EsVersion, Syntax};
use swc_ecma_parser::context::error::{Error, PResult, SyntaxError, Wanted};
use swc_ecma_parser::context::span::BytePos;
use swc_ecma_parser::input::listed::TokensInput;
use swc_ecma_parser::input::token::TokenAndSpan;
use swc_ecma_parser::nodes::node::ExprId;
use swc_ecma_parser::nodes::nodes::NodesOf;
use swc_ecma_parser::parser::Parser;
use swc_lexer::reader::{End, Reader, kind_in};
use swc_lexer::stack::Start;

/// The nodes of a text. Functions, classes and blocks in it are kept as their tokens.
pub type Nodes = NodesOf<TokenBodies>;

/// The tokens of a part of a text, and where it ends.
#[derive(Drop)]
pub struct Part {
    /// The tokens, with places in the whole text. A fault of the text is the last of them.
    pub tokens: Vec<TokenAndSpan>,
    /// Where the part begins, in bytes.
    pub start: usize,
    /// Where its last token ends, in bytes, or where the fault is looked for.
    pub end: usize,
}

/// The part of a text from a place on, in bytes, that is read as an expression is (`Start::Operand`), up to the end of
/// the text, or before a `}` whose `{` isn't in the part. The only error is out of memory.
pub fn read_part(
    alloc: Global,
    text: &str,
    start: usize,
    end: End,
    context: Context,
) -> Result<Part, AllocError> {
    let start = start.min(text.len());
    let mut tokens = Vec::new(alloc);
    let kind = kind_in(context);
    let mut reader = Reader::new(alloc, text.as_bytes(), start, Start::Operand, kind);
    // Each token but the text of a template takes a byte at least.
    for _ in 0..u64::MAX {
        if reader.at() > text.len() {
            break;
        }
        match reader.next(alloc, end, text)? {
            Some(token) => tokens.push(token)?,
            None => break,
        }
    }
    let end = reader.at();
    Ok(Part { tokens, start, end })
}

/// The nodes of a text that is one expression, and the number of this, as `parse_part` answers them.
pub fn read_expr(alloc: Global, text: &str, context: Context) -> Result<(Nodes, ExprId), Refusal>
    ensures stands { IfOk result (λ read. From 0 read.0 (expr_part read.1)) }
{
    read_expr_within(alloc, text, context, LEVELS)
}

/// The same, where what is nested deeper than so many levels is refused.
pub fn read_expr_within(
    alloc: Global,
    text: &str,
    context: Context,
    levels: usize,
) -> Result<(Nodes, ExprId), Refusal>
    ensures stands { IfOk result (λ read. From 0 read.0 (expr_part read.1)) }
{
    let part = read_part(alloc, text, 0, End::Whole, context)?;
    parse_part_within(alloc, part, context, levels)
}

/// The nodes of a part of a text that is one expression, and the number of this. All places are of the whole text.
///
/// The first fault is a refusal, also where it was recorded and a tree was read. A token that is left after the
/// expression is `Unexpected`, where a comma is wanted. What is nested deeper than `LEVELS` is refused. A fault at the
/// end of the part names the bracket that is open there. The number that is answered is one of the nodes'.
pub fn parse_part(alloc: Global, part: Part, context: Context) -> Result<(Nodes, ExprId), Refusal>
    ensures stands { IfOk result (λ read. From 0 read.0 (expr_part read.1)) }
{
    parse_part_within(alloc, part, context, LEVELS)
}

/// The same, where what is nested deeper than so many levels is refused.
pub fn parse_part_within(
    alloc: Global,
    part: Part,
    context: Context,
    levels: usize,
) -> Result<(Nodes, ExprId), Refusal>
    ensures stands { IfOk result (λ read. From 0 read.0 (expr_part read.1)) }
{
    let (start, syntax) = (position(part.start), Syntax::default());
    let ending = Ending::new(alloc, &part.tokens, start, context.strict)?;
    let tokens = part.tokens;
    let source = TokensInput::new_at(alloc, start, tokens, context, syntax, EsVersion::default());
    let mut parser = Parser::new_from(alloc, source, TokenBodies::new(alloc));
    parser.limit_nesting(levels);
    let read = read_to_end(&mut parser);
    let is_too_deep = parser.is_too_deep();
    let recorded = parser.take_errors().into_iter().next();
    let nodes = parser.into_nodes();
    match (recorded, read) {
        (None, Ok(expr)) => match ending.legacy() {
            None => Ok((nodes, expr)),
            Some(fault) => Err(Refusal::Fault(fault)),
        },
        (Some(fault), _) => Err(ending.refusal(fault, false)),
        (None, Err(fault)) => Err(ending.refusal(fault, is_too_deep)),
    }
}

/// Reads an expression, after which no token may be left.
fn read_to_end(parser: &mut Parser<TokensInput, TokenBodies>) -> PResult<ExprId>
    ensures stands { IfOk result (λ expr. From 0 (nodes_of parser.new) (expr_part expr)) }
{
    let expr = match parser.parse_expr_id() {
        Ok(expr) => expr,
        Err(fault) => return Err(at_end(parser, fault)),
    };
    if parser.at_end()? {
        return Ok(expr);
    }
    let left = parser.buffer().cur_span();
    Err(Error::new(left, SyntaxError::Unexpected(Wanted::Comma)))
}

/// The fault of the parser, which is the end of the text where an expression is wanted there.
fn at_end(parser: &mut Parser<TokensInput, TokenBodies>, fault: Error) -> Error {
    let input = parser.buffer();
    let end = match input.cur() {
        Some(_) => None,
        None => Some(input.last_pos()),
    };
    end_for(fault, end)
}

/// The position of a byte. A text in which it doesn't fit is refused by the lexer.
pub fn position(at: usize) -> BytePos {
    BytePos(u32::try_from(at).unwrap_or(u32::MAX))
}
