// As which kind of pattern an expression is refined.
ghost use Rattle.std.specs.Prelude.{◌≡◌};
ghost use Rattle.swc_cover.specs.Checking.{way_of};
ghost use Rattle.swc_cover.specs.PatTypes.{element_of, way_in, is_refined, stands_whole};
ghost use Rattle.swc_nodes.specs.{NodeParts.expr_part, GrowingNodes.tree_at, GrowingNodes.From};

use crate::checking::Way;
use swc_ast::spanned::Spanned;
use swc_nodes::node::{ExprId, Node};
use swc_nodes::nodes::Nodes;

/// As which kind of pattern an expression is refined.
#[derive(Clone, Copy, Debug, PartialEq, Eq)]
pub enum PatType {
    /// A pattern that binds.
    BindingPat,
    /// A part of a pattern that binds.
    BindingElement,
    /// A pattern that is assigned to.
    AssignPat,
    /// A part of a pattern that is assigned to.
    AssignElement,
}

impl PatType {
    /// As which kind of pattern the parts of such a pattern are refined.
    pub fn element(self) -> PatType
        ensures { result ≡ element_of self }
    {
        match self {
            PatType::BindingPat | PatType::BindingElement => PatType::BindingElement,
            PatType::AssignPat | PatType::AssignElement => PatType::AssignElement,
        }
    }

    /// As what an expression is checked, in strict code or not.
    pub(crate) fn way(self, strict: bool) -> Way
        ensures { way_of result ≡ way_in strict self }
    {
        match self {
            PatType::BindingPat | PatType::BindingElement => Way::Binding,
            PatType::AssignPat | PatType::AssignElement => Way::Target { strict },
        }
    }
}

/// Whether the expression isn't looked into: where it is assigned to, and is no array, no object and no `Invalid`.
pub(crate) fn stands_whole<F: Spanned + Drop, C: Spanned + Drop, K: Spanned + Drop>(
    nodes: &Nodes<F, C, K>,
    pat_type: PatType,
    id: ExprId,
) -> bool
    requires { From 0 nodes.now (expr_part id) }
    ensures { result ≡ stands_whole pat_type (tree_at nodes.now id.0) }
{
    match pat_type {
        PatType::AssignPat => !is_refined(nodes, id),
        _ => false,
    }
}

/// Whether the expression is an array, an object or `Invalid`.
fn is_refined<F: Spanned + Drop, C: Spanned + Drop, K: Spanned + Drop>(
    nodes: &Nodes<F, C, K>,
    id: ExprId,
) -> bool
    requires { From 0 nodes.now (expr_part id) }
    ensures { result ≡ is_refined (tree_at nodes.now id.0) }
{
    matches!(
        nodes.get(id.0),
        Node::Array { .. } | Node::Object { .. } | Node::Invalid(_)
    )
}
