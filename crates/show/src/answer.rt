// What the parser makes of a source text.
ghost use Rattle.std.specs.Prelude.{◌≡◌, IfOk, IfErr};
ghost use Rattle.show.specs.Answers.{Answers, IsJudged, Shows, symbol_of};
ghost use Rattle.show.specs.Calls as calls;
ghost use Rattle.swc_context.specs.declared.error.SyntaxError.TheVariants.{OutOfMemory};
ghost use Rattle.swc_grammar.specs.Symbols.{Expr, Pat};
ghost use Rattle.swc_nodes.specs.{NodeParts.expr_part, NodeParts.pat_part, GrowingNodes.From};
ghost use Rattle.swc_tokens.specs.Inputs.{input_state, tokens_of};
ghost use Rattle.swc_ecma_parser.specs.WholeList.{IsHeeded};

use crate::counted::CountedBodies;
use std::alloc::{AllocError, Global};
use std::mem::forget;
use swc_context::context::{Context, EsVersion, Syntax};
use swc_context::error::{Error, PResult, SyntaxError};
use swc_context::span::{BytePos, Span};
use swc_ecma_parser::whole::{Whole, read_whole_expr, read_whole_pat};
use swc_nodes::node::{ExprId, PatId};
use swc_nodes::nodes::NodesOf;
use swc_print::print::PrintNodes;
use swc_tokens::input::AsciiInput;

/// What a text is read as.
#[derive(Clone, Copy)]
pub enum What {
    /// An expression.
    Expr,
    /// A binding pattern.
    Pat,
}

/// What a text is read as, in which context, and by which syntax.
#[derive(Clone, Copy)]
pub struct Asked {
    pub what: What,
    pub context: Context,
    pub syntax: Syntax,
}

/// A tree, printed.
#[derive(Drop)]
pub struct Shown {
    pub tree: String,
    /// Tokens are left after the tree.
    pub unread: bool,
}

/// What was read, or the refusal, and the faults that were recorded.
#[derive(Drop)]
pub struct Answer {
    pub shown: PResult<Shown>,
    pub recorded: Vec<Error>,
}

const CLEAN: u8 = 0;

const RECORDED: u8 = 1;

const REFUSED: u8 = 2;

impl Answer {
    /// The program's status: 0 where a tree was read and nothing recorded, 1 where something was, 2 for a refusal.
    pub fn status(&self) -> u8
        ensures { result ≡ calls.status self.now.shown self.now.recorded.items }
    {
        match &self.shown {
            Err(_) => REFUSED,
            Ok(_) if self.recorded.is_empty() => CLEAN,
            Ok(_) => RECORDED,
        }
    }
}

/// Reads the text as it is asked. A fault of the reader of tokens is a refusal, and so is what is nested deeper than so
/// many levels, as `OutOfMemory`.
pub fn answer_to(alloc: Global, text: Vec<u8>, asked: Asked, levels: usize) -> Answer
    ensures { IsHeeded asked.context asked.syntax
        → Answers (symbol_of asked.what) asked.context asked.syntax text.items result.shown result.recorded.items }
{
    let len = text.len();
    match AsciiInput::new(
        alloc,
        text,
        asked.context,
        asked.syntax,
        EsVersion::default(),
    ) {
        Ok(source) => {
            // It is asked for first: what is asked for after large blocks went back may not grow where it is.
            let room = room_for(alloc, len);
            match asked.what {
                What::Expr => answer_expr(alloc, source, room, levels),
                What::Pat => answer_pat(alloc, source, room, levels),
            }
        }
        Err(fault) => Answer {
            shown: Err(fault),
            recorded: Vec::new(alloc),
        },
    }
}

/// Room for a text of so many bytes. Refused when out of memory, by `OutOfMemory` at 0..0.
fn room_for(alloc: Global, len: usize) -> PResult<String>
    ensures { IfErr result (λ e. e.kind ≡ OutOfMemory) }
{
    let start = BytePos(0);
    let nowhere = Span {
        lo: start,
        hi: start,
    };
    match String::with_capacity(alloc, len) {
        Ok(room) => Ok(room),
        Err(AllocError) => Err(Error::new(nowhere, SyntaxError::OutOfMemory)),
    }
}

/// Reads all that the source gives as an expression, and prints it in the room.
fn answer_expr(alloc: Global, source: AsciiInput, room: PResult<String>, levels: usize) -> Answer
    requires { IfErr room (λ e. e.kind ≡ OutOfMemory) }
    ensures { IsJudged Expr (input_state source) (tokens_of source) result.shown result.recorded.items }
{
    let Whole {
        read,
        nodes,
        recorded,
        too_deep: _,
    } = read_whole_expr(alloc, source, CountedBodies::new(alloc), levels);
    let shown = show_expr(&nodes, read, room);
    // The program ends soon: its memory goes back as a whole, faster than a node at a time.
    forget(nodes);
    Answer { shown, recorded }
}

/// Reads all that the source gives as a binding pattern, and prints it in the room.
fn answer_pat(alloc: Global, source: AsciiInput, room: PResult<String>, levels: usize) -> Answer
    requires { IfErr room (λ e. e.kind ≡ OutOfMemory) }
    ensures { IsJudged Pat (input_state source) (tokens_of source) result.shown result.recorded.items }
{
    let Whole {
        read,
        nodes,
        recorded,
        too_deep: _,
    } = read_whole_pat(alloc, source, CountedBodies::new(alloc), levels);
    let shown = show_pat(&nodes, read, room);
    forget(nodes);
    Answer { shown, recorded }
}

/// An expression that was read, printed.
fn show_expr(
    nodes: &NodesOf<CountedBodies>,
    read: PResult<(ExprId, bool)>,
    room: PResult<String>,
) -> PResult<Shown>
    requires room { IfErr room (λ e. e.kind ≡ OutOfMemory) }
    requires read { IfOk read (λ r. From 0 nodes.now (expr_part r.0)) }
    ensures { Shows read result }
{
    let (expr, unread) = read?;
    let tree = nodes.append_expr(room?, expr)?;
    Ok(Shown { tree, unread })
}

/// A pattern that was read, printed.
fn show_pat(
    nodes: &NodesOf<CountedBodies>,
    read: PResult<(PatId, bool)>,
    room: PResult<String>,
) -> PResult<Shown>
    requires room { IfErr room (λ e. e.kind ≡ OutOfMemory) }
    requires read { IfOk read (λ r. From 0 nodes.now (pat_part r.0)) }
    ensures { Shows read result }
{
    let (pat, unread) = read?;
    let tree = nodes.append_pat(room?, pat)?;
    Ok(Shown { tree, unread })
}
