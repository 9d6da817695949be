// A template: a text with expressions in it.
ghost use Rattle.std.specs.Prelude.{◌≡◌, IfOk};
ghost use Rattle.swc_nodes.specs.{NodeParts.expr_part, GrowingNodes.From};

use reporting::expr::{Nodes, Part, parse_part_within, position, read_part};
use reporting::{LEVELS, Refusal};
use std::alloc::{AllocError, Global};
use swc_ecma_parser::context::context::Context;
use swc_ecma_parser::context::error::{Error, SyntaxError, Wanted};
use swc_ecma_parser::context::span::Span;
use swc_ecma_parser::nodes::node::ExprId;
use swc_lexer::reader::End;
use swc_lexical::blank::blanks_len;

/// A piece of a template.
#[derive(Drop)]
pub enum Piece {
    /// A text: what the source has at this place.
    Text(Span),
    /// An expression between `{{` and `}}`.
    Hole(Hole),
}

/// An expression in a template. Its places are in the whole text.
#[derive(Drop)]
pub struct Hole {
    nodes: Nodes,
    expr: ExprId,
    span: Span,
    ghost stands: { From 0 nodes (expr_part expr) },
}

impl Hole {
    /// The nodes of its tree. Functions, classes and blocks in it are kept as their tokens.
    pub fn nodes(&self) -> &Nodes
        ensures { result.now ≡ self.now.nodes }
    {
        &self.nodes
    }

    /// The number of the expression, which is one of the nodes'.
    pub fn expr(&self) -> ExprId
        ensures value { result ≡ self.now.expr }
        ensures stands { From 0 self.now.nodes (expr_part result) }
    {
        self.expr
    }

    /// From `{{` to `}}`, with both.
    pub fn span(&self) -> Span
        ensures { result ≡ self.now.span }
    {
        self.span
    }
}

/// The pieces of a text, in their order, and what is wrong with its holes.
#[derive(Drop)]
pub struct Template {
    pub pieces: Vec<Piece>,
    /// Why a hole isn't read, of each that isn't. Places are in the whole text.
    pub faults: Vec<Refusal>,
}

/// Where a hole ends.
#[derive(Clone, Copy)]
struct HoleEnd {
    /// What comes there: `}}`, `}`, or the end of the text.
    found: Span,
    /// What comes after that: where it is `}`, another is missing there.
    after: Span,
    /// Whether `found` is `}}`.
    closes: bool,
    /// Where the text goes on: after the next `}}`, or nowhere.
    goes_on: Option<usize>,
}

/// The template of a text. A hole goes from `{{` to `}}`, and the expression in it ends before a `}` whose `{` isn't in
/// it, as the lexer tells: so strings, regular expressions, templates and comments may have any braces. An expression
/// is read in the context.
///
/// `\{{` is the text `{{`, and opens no hole: the backslash is in no piece. `\\{{` is a backslash before a hole.
///
/// A hole that has a fault is left out, and the text goes on after the next `}}`, or is over if there is none: then the
/// fault tells where the hole opens. The only error is out of memory.
pub fn parse(alloc: Global, text: &str, context: Context) -> Result<Template, AllocError> {
    parse_within(alloc, text, context, LEVELS)
}

/// The same, where a hole that is nested deeper than so many levels has that fault.
pub fn parse_within(
    alloc: Global,
    text: &str,
    context: Context,
    levels: usize,
) -> Result<Template, AllocError> {
    let mut template = Template {
        pieces: Vec::new(alloc),
        faults: Vec::new(alloc),
    };
    let bytes = text.as_bytes();
    // What is before this place is in the pieces.
    let mut done = 0;
    for open in 0..bytes.len() {
        if done <= open && bytes[open..].starts_with(b"{{") {
            let slashes = slashes_before(&bytes[done..open]);
            push_text(&mut template, done, open.saturating_sub(slashes.min(1)))?;
            if slashes == 1 {
                done = open.saturating_add(2);
                push_text(&mut template, open, done)?;
            } else {
                done = push_hole(alloc, text, open, context, levels, &mut template)?;
            }
        }
    }
    push_text(&mut template, done, bytes.len())?;
    Ok(template)
}

/// How many backslashes a text ends with, but at most 2.
fn slashes_before(text: &[u8]) -> usize {
    match text {
        [.., b'\\', b'\\'] => 2,
        [.., b'\\'] => 1,
        _ => 0,
    }
}

/// Adds what is between two positions, if they aren't the same.
fn push_text(template: &mut Template, lo: usize, hi: usize) -> Result<(), AllocError> {
    if lo < hi {
        template.pieces.push(Piece::Text(span(lo, hi)))?;
    }
    Ok(())
}

/// Adds the hole that opens there, or its fault, and answers where the text goes on.
fn push_hole(
    alloc: Global,
    text: &str,
    open: usize,
    context: Context,
    levels: usize,
    template: &mut Template,
) -> Result<usize, AllocError> {
    let from = open.saturating_add(2);
    let part = read_part(alloc, text, from, End::BeforeBrace, context)?;
    let end = hole_end(text, part.end);
    match read_hole(alloc, part, end, context, levels) {
        Ok((nodes, expr)) => {
            let span = span(open, end.found.hi.0 as usize);
            template
                .pieces
                .push(Piece::Hole(Hole { nodes, expr, span }))?
        }
        Err(refusal) if end.goes_on.is_none() => {
            template.faults.push(refusal.with_opener(span(open, from)))?
        }
        Err(refusal) => template.faults.push(refusal)?,
    }
    Ok(end.goes_on.unwrap_or(text.len()))
}

/// The end of the hole whose last token ends there.
fn hole_end(text: &str, last: usize) -> HoleEnd {
    let rest = text.get(last..).unwrap_or("");
    let at = last.saturating_add(blanks_len(rest.as_bytes()));
    let rest = text.get(at..).unwrap_or("");
    let closing = rest.find("}}");
    let length = match closing {
        Some(0) => 2,
        _ => usize::from(!rest.is_empty()),
    };
    let hi = at.saturating_add(length);
    let next = text.get(hi..).and_then(|rest| rest.chars().next());
    HoleEnd {
        found: span(at, hi),
        after: span(
            hi,
            hi.saturating_add(next.map_or(0, |found| found.len_utf8())),
        ),
        closes: closing == Some(0),
        goes_on: closing.map(|length| at.saturating_add(length).saturating_add(2)),
    }
}

/// The tree of a hole's expression.
fn read_hole(
    alloc: Global,
    part: Part,
    end: HoleEnd,
    context: Context,
    levels: usize,
) -> Result<(Nodes, ExprId), Refusal>
    ensures stands { IfOk result (λ read. From 0 read.0 (expr_part read.1)) }
{
    let (nodes, expr) = match parse_part_within(alloc, part, context, levels) {
        Ok(read) => read,
        Err(refusal) => return Err(in_hole(refusal, end)),
    };
    if end.closes {
        return Ok((nodes, expr));
    }
    Err(Refusal::Fault(Error::new(end.after, SyntaxError::Expected(Wanted::RBrace))))
}

/// The refusal of a hole's expression: where this ends too early, but the text doesn't end, what comes there is no
/// expression.
fn in_hole(refusal: Refusal, end: HoleEnd) -> Refusal {
    if end.found.lo == end.found.hi || !refusal.is_end() {
        return refusal;
    }
    let fault = Error::new(end.found, SyntaxError::TS1109);
    match refusal.opener() {
        Some(opener) => Refusal::Unclosed { fault, opener },
        None => Refusal::Fault(fault),
    }
}

fn span(lo: usize, hi: usize) -> Span {
    Span::new(position(lo), position(hi))
}
