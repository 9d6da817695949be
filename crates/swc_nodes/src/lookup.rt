// What has a number among the nodes: its node, its place, its text, and how its operator is written. No call has a
// condition.
ghost use Rattle.std.specs.Prelude.{◌≡◌, ◌<◌, ◌≤◌, not, Some, None, IfSome, IsSome, MatchOption};
ghost use Rattle.std.specs.Str.{IsCharBoundary};
ghost use Rattle.swc_context.specs.Spans.{in_order};
ghost use Rattle.swc_ast.specs.Tree.{span_of as tree_span};
ghost use Rattle.swc_nodes.specs.NodeParts.{expr, form, view_ok};
ghost use Rattle.swc_nodes.specs.GrowingNodes.{count, tree_at, Stood};
ghost use Rattle.swc_nodes.specs.{Lookup.operator_of, Lookup.IsTextAt, Walking.part_of};

use crate::apart::PartId;
use crate::node::{ExprId, ForHeadId, Node, PatId, TargetNode};
use crate::nodes::Nodes;
use swc_ast::spanned::Spanned;
use swc_context::span::Span;

/// A number by which a node can be looked up: of an expression, of a pattern, or of either. No node may have it.
pub trait NodeNumber {
    ghost use Rattle.std.specs.Prelude.{ℕ};

    ghost at: { Self → ℕ };

    /// The number alone.
    fn node_number(self) -> usize
        ensures { result ≡ at self };
}

impl NodeNumber for usize {
    ghost at = { λ id. id };

    fn node_number(self) -> usize {
        self
    }
}

impl NodeNumber for ExprId {
    ghost at = { λ id. id.0 };

    fn node_number(self) -> usize {
        self.0
    }
}

impl NodeNumber for PatId {
    ghost at = { λ id. id.0 };

    fn node_number(self) -> usize {
        self.0
    }
}

impl NodeNumber for PartId {
    ghost at = { λ id. (part_of id).at };

    fn node_number(self) -> usize {
        self.number()
    }
}

impl NodeNumber for TargetNode {
    ghost use Rattle.swc_nodes.specs.NodeParts.{target_part};

    ghost at = { λ id. (target_part id).at };

    fn node_number(self) -> usize {
        match self {
            TargetNode::Simple(id) => id.0,
            TargetNode::Pat(id) => id.0,
        }
    }
}

impl NodeNumber for ForHeadId {
    ghost use Rattle.swc_nodes.specs.Lookup.{head_number};

    ghost at = { head_number };

    fn node_number(self) -> usize {
        match self {
            ForHeadId::Target(id) => id.0,
            ForHeadId::Expr(id) => id.0,
        }
    }
}

impl<F: Spanned + Drop, C: Spanned + Drop, K: Spanned + Drop> Nodes<F, C, K> {
    /// The node that has the number; `None` where there is none.
    pub fn node<N: NodeNumber>(&self, id: N) -> Option<&Node<F, C, K>>
        ensures { MatchOption result (count self.now ≤ N.at id) (λ node. Stood self.now (N.at id) node.now) }
    {
        let number = id.node_number();
        if number < self.len() {
            Some(self.get(number))
        } else {
            None
        }
    }

    /// The place of the expression or the pattern that has the number, in bytes, the smaller end first; `None` where no
    /// node has it.
    pub fn span_of<N: NodeNumber>(&self, id: N) -> Option<Span>
        ensures { MatchOption result (count self.now ≤ N.at id)
            (λ span. span ≡ in_order (tree_span (tree_at self.now (N.at id)))) }
    {
        let number = id.node_number();
        if number < self.len() {
            Some(self.place(number))
        } else {
            None
        }
    }

    /// The text of the expression or the pattern that has the number, as it is in the text that was parsed; `None`
    /// where no node has it, and where its place isn't one in that text.
    pub fn text_of<'a, N: NodeNumber>(&self, text: &'a str, id: N) -> Option<&'a str>
        ensures is { IfSome result (λ part. IsTextAt text.now
            (in_order (tree_span (tree_at self.now (N.at id)))) part.now) }
        ensures found { N.at id < count self.now
            → IsCharBoundary text.now (in_order (tree_span (tree_at self.now (N.at id)))).lo.0
            → IsCharBoundary text.now (in_order (tree_span (tree_at self.now (N.at id)))).hi.0 → IsSome result }
    {
        let span = self.span_of(id)?;
        text.get(span.lo.0 as usize..span.hi.0 as usize)
    }

    /// The place of what has the number.
    fn place(&self, number: usize) -> Span
        requires { number < count self.now }
        ensures { result ≡ in_order (tree_span (tree_at self.now number)) }
    {
        if is_pattern(self.get(number)) {
            self.pat_span(PatId(number))
        } else {
            self.span(ExprId(number))
        }
    }
}

/// Whether the node is a pattern.
fn is_pattern<F, C, K>(node: &Node<F, C, K>) -> bool
    ensures { result ≡ not (view_ok expr (form node.now)) }
{
    matches!(
        node,
        Node::PatIdent(_)
            | Node::PatArray { .. }
            | Node::PatObject { .. }
            | Node::PatRest { .. }
            | Node::PatAssign { .. }
            | Node::PatExpr(_)
            | Node::PatInvalid(_)
    )
}

impl<F, C, K> Node<F, C, K> {
    /// The operator of the node as it is written (ECMA-262, 13.4 to 13.15): of one of a binary, a prefix or an
    /// assignment operator, or of `++` or `--`; `None` of any other.
    pub fn operator(&self) -> Option<&'static str>
        ensures { MatchOption result (operator_of self.now ≡ None) (λ op. operator_of self.now ≡ Some op.now) }
    {
        match self {
            Node::Bin { op, .. } => Some(op.as_str()),
            Node::Assign { op, .. } => Some(op.as_str()),
            Node::Unary { op, .. } => Some(op.as_str()),
            Node::Update { op, .. } => Some(op.as_str()),
            _ => None,
        }
    }
}
