// As what an expression is checked that is to become a pattern, and what is told of it by its node.
ghost use Rattle.std.specs.Prelude.{◌≡◌};
ghost use Rattle.swc_grammar.specs.Cover.{is_assign};
ghost use Rattle.swc_cover.specs.Checking.{plain_op};
ghost use Rattle.swc_nodes.specs.{NodeParts.expr_part, GrowingNodes.tree_at, GrowingNodes.From};

use swc_ast::spanned::Spanned;
use swc_context::operator::AssignOp;
use swc_nodes::node::{ExprId, Node};
use swc_nodes::nodes::Nodes;

/// As what an expression is checked that is to become a pattern.
#[derive(Clone, Copy, Debug, PartialEq, Eq)]
pub enum Way {
    /// As what binds.
    Binding,
    /// As what is assigned to, in strict code or not.
    Target { strict: bool },
}

/// Whether the operator is `=`.
pub fn is_plain(op: AssignOp) -> bool
    ensures { result ≡ plain_op op }
{
    matches!(op, AssignOp::Assign)
}

/// Whether the expression is an assignment.
pub fn is_assignment<F: Spanned + Drop, C: Spanned + Drop, K: Spanned + Drop>(
    nodes: &Nodes<F, C, K>,
    id: ExprId,
) -> bool
    requires { From 0 nodes.now (expr_part id) }
    ensures { result ≡ is_assign (tree_at nodes.now id.0) }
{
    matches!(nodes.get(id.0), Node::Assign { .. })
}
