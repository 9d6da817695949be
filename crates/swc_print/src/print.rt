// Trees as text.
ghost use Rattle.std.specs.Prelude.{◌≡◌, ◌++◌, ◌<◌, [], OnOk, IfOk, IfErr, length, reverse};
ghost use Rattle.std.specs.Option.{option_to_list};
ghost use Rattle.swc_nodes.specs.GrowingNodes.{count};
ghost use Rattle.swc_nodes.specs.Weights.{ats};
ghost use Rattle.swc_print.specs.{Numbers.numbers, Numbers.shown, Memory.want_of_memory};

use crate::common::{Begun, put_common};
use crate::kinds::put_node;
use crate::pieces::{Owner, Piece, Pieces};
use std::alloc::AllocError;
use swc_ast::spanned::Spanned;
use swc_bodies::token_body::TokenBody;
use swc_context::error::{Error, PResult, SyntaxError};
use swc_context::span::{BytePos, Span};
use swc_nodes::node::{ExprId, Node, PatId};
use swc_nodes::nodes::Nodes;

/// A value of the hook, which is printed as the number of tokens that it kept.
pub trait Kept {
    /// The number of tokens that it kept.
    fn kept(&self) -> usize;
}

impl Kept for Span {
    fn kept(&self) -> usize {
        0
    }
}

impl Kept for TokenBody {
    fn kept(&self) -> usize
        ensures { result ≡ length self.now.tokens }
    {
        self.tokens.len()
    }
}

/// The texts of trees.
///
/// A node with parts is its name and the parts in parentheses, as `Bin(+, a, Call(f, [b]))`; names,
/// literals and `this` are as they are written; a hole, or a part that isn't there, is `-`.
pub trait PrintNodes {
    ghost use Rattle.swc_nodes.specs.{declared.node.ExprId.ExprId, declared.node.PatId.PatId};

    ghost has_expr: { Self → ExprId → Type 0 };

    ghost has_pat: { Self → PatId → Type 0 };

    /// The text of an expression. The only error is out of memory, `OutOfMemory` at 0..0.
    fn print_expr(&self, id: ExprId) -> PResult<String>
        requires { has_expr self.now id }
        ensures refused { IfErr result (λ e. e ≡ want_of_memory) };

    /// The text of a pattern, in the same form. The only error is out of memory, `OutOfMemory` at 0..0.
    fn print_pat(&self, id: PatId) -> PResult<String>
        requires { has_pat self.now id }
        ensures refused { IfErr result (λ e. e ≡ want_of_memory) };

    /// `text`, and after it that of an expression. The only error is out of memory, `OutOfMemory` at 0..0.
    fn append_expr(&self, text: String, id: ExprId) -> PResult<String>
        requires { has_expr self.now id }
        ensures refused { IfErr result (λ e. e ≡ want_of_memory) };

    /// `text`, and after it that of a pattern. The only error is out of memory, `OutOfMemory` at 0..0.
    fn append_pat(&self, text: String, id: PatId) -> PResult<String>
        requires { has_pat self.now id }
        ensures refused { IfErr result (λ e. e ≡ want_of_memory) };
}

impl<F: Spanned + Drop + Kept, C: Spanned + Drop + Kept, K: Spanned + Drop + Kept> PrintNodes
    for Nodes<F, C, K> {
    ghost use Rattle.swc_nodes.specs.{NodeParts.expr_part, NodeParts.pat_part, GrowingNodes.From};

    ghost has_expr = { λ ns id. From 0 ns (expr_part id) };

    ghost has_pat = { λ ns id. From 0 ns (pat_part id) };

    fn print_expr(&self, id: ExprId) -> PResult<String> {
        self.append_expr(String::new(self.allocator()), id)
    }

    fn print_pat(&self, id: PatId) -> PResult<String> {
        self.append_pat(String::new(self.allocator()), id)
    }

    fn append_expr(&self, text: String, id: ExprId) -> PResult<String> {
        print_node(self, text, id.0).map_err(out_of_memory)
    }

    fn append_pat(&self, text: String, id: PatId) -> PResult<String> {
        print_node(self, text, id.0).map_err(out_of_memory)
    }
}

fn out_of_memory(_error: AllocError) -> Error
    ensures { result ≡ want_of_memory }
{
    let start = BytePos(0);
    Error::new(
        Span {
            lo: start,
            hi: start,
        },
        SyntaxError::OutOfMemory,
    )
}

/// Appends the text of a node. What is left to print lies on a stack, the next piece on top.
fn print_node<F: Spanned + Drop + Kept, C: Spanned + Drop + Kept, K: Spanned + Drop + Kept>(
    nodes: &Nodes<F, C, K>,
    out: String,
    number: usize,
) -> Result<String, AllocError>
    requires { number < count nodes.now }
{
    let alloc = nodes.allocator();
    let mut stack = Vec::with_capacity(alloc, out.capacity() / 2)?;
    let mut pieces = Pieces {
        out,
        waiting: Vec::new(alloc),
    };
    let mut next = Some(number);
    while let Some(at) = next {
        next = put_next(&mut stack, &mut pieces, nodes.get(at))?;
    }
    Ok(pieces.out)
}

/// Writes the text of a node up to the next node, which is answered: its first part, or else one that is on the stack,
/// where what is left to print lies.
fn put_next<'a, F: Kept, C: Kept, K: Kept>(
    stack: &mut Vec<Piece<'a>>,
    pieces: &mut Pieces<'a>,
    node: &'a Node<F, C, K>,
) -> Result<Option<usize>, AllocError>
    requires { numbers pieces.old.waiting.items ≡ [] }
    ensures next { IfOk result (λ next. numbers stack.new.items ++ option_to_list next
        ≡ numbers stack.old.items ++ reverse (ats (shown node.now))) }
    ensures none { OnOk result (numbers pieces.new.waiting.items ≡ []) }
{
    match put_common(stack, &mut pieces.out, node)? {
        Begun::Part(first) => Ok(Some(first)),
        Begun::Whole => next_node(stack, &mut pieces.out),
        Begun::Nothing => {
            put_node(pieces, node)?;
            move_onto(stack, &mut pieces.waiting)?;
            next_node(stack, &mut pieces.out)
        }
    }
}

/// Writes the name of a property, which ends a member.
fn write_property(out: &mut String, owner: Owner, name: &str) -> Result<(), AllocError> {
    out.push_str(", .")?;
    out.push_str(name)?;
    out.push_str(owner.end())
}

/// Writes the texts on top of the stack, and takes out the node below them.
fn next_node(stack: &mut Vec<Piece>, out: &mut String) -> Result<Option<usize>, AllocError>
    ensures { IfOk result (λ found. numbers stack.old.items ≡ numbers stack.new.items ++ option_to_list found) }
{
    while let Some(piece) = stack.pop() {
        match piece {
            Piece::Text(text) => out.push_str(text),
            Piece::Count(count) => write!(out, "<{count}>"),
            Piece::Node(number) => return Ok(Some(number)),
            Piece::Next(number) => {
                out.push_str(", ")?;
                return Ok(Some(number));
            }
            Piece::Last(number) => {
                out.push_str(", ")?;
                stack.push(Piece::Text(")"))?;
                return Ok(Some(number));
            }
            Piece::Bracketed(owner, number) => {
                out.push_str(", [")?;
                stack.push(Piece::Text(owner.bracketed_end()))?;
                return Ok(Some(number));
            }
            Piece::Property(owner, name) => write_property(out, owner, name),
        }?;
    }
    Ok(None)
}

/// Moves pieces onto the stack, the first of them to its top.
fn move_onto<'a>(stack: &mut Vec<Piece<'a>>, pieces: &mut Vec<Piece<'a>>) -> Result<(), AllocError>
    ensures moved { OnOk result (numbers stack.new.items ≡ numbers stack.old.items
        ++ reverse (numbers pieces.old.items)) }
    ensures none { OnOk result (numbers pieces.new.items ≡ []) }
{
    while let Some(piece) = pieces.pop() {
        stack.push(piece)?;
    }
    Ok(())
}
