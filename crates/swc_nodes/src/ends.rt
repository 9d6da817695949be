// Where the tokens of a node begin and end.
ghost use Rattle.std.specs.Prelude.{◌≡◌};
ghost use Rattle.swc_nodes.specs.Operands.{left_operand, last_operand, own_start, own_end};
ghost use Rattle.swc_nodes.specs.NodeParts.{expr_part};
ghost use Rattle.swc_nodes.specs.GrowingNodes.{start_at, end_at, From};

use crate::node::{ExprId, Node};
use crate::nodes::Nodes;
use swc_ast::spanned::Spanned;
use swc_context::span::BytePos;

impl<F: Spanned + Drop, C: Spanned + Drop, K: Spanned + Drop> Nodes<F, C, K> {
    /// Where the first token of an expression begins. That is where its extent does, but for a binary operator whose
    /// first operand was refused: there the refused operand begins.
    pub fn start(&self, id: ExprId) -> BytePos
        requires { From 0 self.now (expr_part id) }
        ensures { result ≡ start_at self.now id.0 }
    {
        let mut first = id;
        loop {
            let node = self.get(first.0);
            match left_operand(node) {
                Some(operand) => first = operand,
                None => return refused_start(node).unwrap_or(self.extent(id).lo),
            }
        }
    }

    /// Where the last token of an expression ends. That is where its extent does, unless its last operand was refused:
    /// there the token before that ends.
    pub fn end(&self, id: ExprId) -> BytePos
        requires { From 0 self.now (expr_part id) }
        ensures { result ≡ end_at self.now id.0 }
    {
        let mut last = id;
        loop {
            let node = self.get(last.0);
            match last_operand(node) {
                Some(operand) => last = operand,
                None => return refused_end(node).unwrap_or(self.extent(id).hi),
            }
        }
    }
}

/// The operand with which a node begins, of those that begin where it does.
fn left_operand<F, C, K>(node: &Node<F, C, K>) -> Option<ExprId>
    ensures { result ≡ left_operand node.now }
{
    match node {
        Node::Bin { left, .. } => Some(*left),
        _ => None,
    }
}

/// The operand with which a node ends, of those that end where it does.
fn last_operand<F, C, K>(node: &Node<F, C, K>) -> Option<ExprId>
    ensures { result ≡ last_operand node.now }
{
    match node {
        Node::Unary { arg, .. } => Some(*arg),
        Node::Update { prefix, arg, .. } if *prefix => Some(*arg),
        Node::Bin { right, .. } => Some(*right),
        Node::Cond { alt, .. } => Some(*alt),
        _ => None,
    }
}

/// Where an operand that was refused begins.
fn refused_start<F, C, K>(node: &Node<F, C, K>) -> Option<BytePos>
    ensures { result ≡ own_start node.now }
{
    match node {
        Node::Invalid(refused) => Some(refused.first),
        _ => None,
    }
}

/// Where the token before an operand that was refused ends.
fn refused_end<F, C, K>(node: &Node<F, C, K>) -> Option<BytePos>
    ensures { result ≡ own_end node.now }
{
    match node {
        Node::Invalid(refused) => Some(refused.last),
        _ => None,
    }
}
