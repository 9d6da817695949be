// What calls move out of the nodes.
ghost use Rattle.std.specs.Prelude.{◌≡◌, IfOk, OnOk};
ghost use Rattle.swc_nodes.specs.GrowingNodes.{count, seat_at, tree_at, bare_at, Apart, Left};
ghost use Rattle.swc_nodes.specs.{Commas.part_commas, Commas.Recalls, NumberedTrees.floor};
ghost use Rattle.swc_ecma_parser.specs.CoverNames.{parts_covers_left};

use crate::verifier::find_covers_left;
use std::alloc::{AllocError, Global};
use swc_ast::expr::{Expr, ExprOrSpread, Tpl};
use swc_ast::for_head::ForHead;
use swc_ast::function::Param;
use swc_ast::pat::{ObjectPatProp, Pat};
use swc_ast::prop::{PropName, PropOrSpread};
use swc_ast::spanned::Spanned;
use swc_context::span::Span;
use swc_nodes::commas::TrailingCommas;
use swc_nodes::node::{ExprId, ForHeadId, PatId, PatPropNode, PropNode};
use swc_nodes::nodes::Nodes;
use swc_steps::tokens::Listed;
use swc_trees::taking::{
    take_args, take_expr, take_for_head, take_key, take_params, take_pat, take_pat_prop, take_pats,
    take_prop, take_tpl,
};

/// A value with numbers of nodes, which can be moved into boxes.
pub(crate) trait Take<F: Spanned + Drop, C: Spanned + Drop, K: Spanned + Drop> {
    ghost use Rattle.std.specs.Prelude.{ℕ, List};
    ghost use Rattle.swc_ast.specs.Tree.{Tree};
    ghost use Rattle.swc_nodes.specs.NodeParts.{Part};

    /// What it is in boxes.
    type Whole;

    ghost parts: { Self → List Part };

    ghost by: { (ℕ → Tree F C K) → Self → Tree F C K };

    ghost tree: { Self.Whole → Tree F C K };

    /// Remembers the commas of the literals in it, or forgets what was remembered where they begin.
    fn remember(
        &self,
        nodes: &Nodes<F, C, K>,
        commas: &mut TrailingCommas,
    ) -> Result<(), AllocError>
        requires { Apart 0 nodes.now (parts self.now) }
        ensures { OnOk result (Recalls (part_commas (tree_at nodes.now) (parts self.now)) commas.old commas.new) };

    /// Moves it out, and drops all nodes after it.
    fn take(self, nodes: &mut Nodes<F, C, K>, alloc: Global) -> Result<Self::Whole, AllocError>
        requires { Apart 0 nodes.old (parts self) }
        ensures left { Left (floor (seat_at nodes.old) (count nodes.old) (parts self)) nodes.old nodes.new }
        ensures moved { IfOk result (λ y. tree y ≡ by (bare_at nodes.old) self) };
}

/// The result of a call in which no cover name may be left where the syntax is pedantic.
pub(crate) trait Covers<F: Spanned + Drop, C: Spanned + Drop, K: Spanned + Drop>: Take<F, C, K> {
    /// The places of the cover names that are left in it, in the order of the source.
    fn covers_left(&self, nodes: &Nodes<F, C, K>) -> Result<Vec<Span>, AllocError>
        requires { Apart 0 nodes.now (Self.parts self.now) }
        ensures { IfOk result (λ names. names.items ≡ parts_covers_left (tree_at nodes.now) (Self.parts self.now)) };
}

impl<F: Spanned + Drop, C: Spanned + Drop, K: Spanned + Drop> Take<F, C, K> for ExprId {
    ghost use Rattle.swc_ast.specs.TreeOf.{boxed_tree};
    ghost use Rattle.swc_nodes.specs.{NodeTree.expr_of, NodeParts.one_expr};

    type Whole = Box<Expr<F, C, K>>;

    ghost parts = { one_expr };

    ghost by = { expr_of F.place C.place K.place };

    ghost tree = { boxed_tree _ _ _ F.place C.place K.place };

    fn remember(
        &self,
        nodes: &Nodes<F, C, K>,
        commas: &mut TrailingCommas,
    ) -> Result<(), AllocError> {
        commas.remember_all(nodes, self)
    }

    fn take(self, nodes: &mut Nodes<F, C, K>, alloc: Global) -> Result<Self::Whole, AllocError> {
        take_expr(nodes, alloc, self)
    }
}

impl<F: Spanned + Drop, C: Spanned + Drop, K: Spanned + Drop> Take<F, C, K> for PropName<ExprId> {
    ghost use Rattle.swc_ast.specs.{Parts.prop_name_tree, TreeOf.boxed_tree};
    ghost use Rattle.swc_nodes.specs.{NodeTree.expr_of, NodeParts.key_parts};

    type Whole = PropName<Box<Expr<F, C, K>>>;

    ghost parts = { key_parts };

    ghost by = { λ at. prop_name_tree (expr_of F.place C.place K.place at) };

    ghost tree = { prop_name_tree (boxed_tree _ _ _ F.place C.place K.place) };

    fn remember(
        &self,
        nodes: &Nodes<F, C, K>,
        commas: &mut TrailingCommas,
    ) -> Result<(), AllocError> {
        commas.remember_all(nodes, self)
    }

    fn take(self, nodes: &mut Nodes<F, C, K>, alloc: Global) -> Result<Self::Whole, AllocError> {
        take_key(nodes, alloc, self)
    }
}

impl<F: Spanned + Drop, C: Spanned + Drop, K: Spanned + Drop> Take<F, C, K> for PropNode<K> {
    ghost use Rattle.swc_ast.specs.TreeOf.{prop_or_spread_tree};
    ghost use Rattle.swc_nodes.specs.{NodeTree.prop_of, NodeParts.prop_parts};

    type Whole = PropOrSpread<F, C, K>;

    ghost parts = { prop_parts };

    ghost by = { prop_of F.place C.place K.place };

    ghost tree = { prop_or_spread_tree _ _ _ F.place C.place K.place };

    fn remember(
        &self,
        nodes: &Nodes<F, C, K>,
        commas: &mut TrailingCommas,
    ) -> Result<(), AllocError> {
        commas.remember_all(nodes, self)
    }

    fn take(self, nodes: &mut Nodes<F, C, K>, alloc: Global) -> Result<Self::Whole, AllocError> {
        take_prop(nodes, alloc, self)
    }
}

impl<F: Spanned + Drop, C: Spanned + Drop, K: Spanned + Drop> Take<F, C, K>
    for Listed<ExprOrSpread<ExprId>> {
    ghost use Rattle.swc_ast.specs.{Parts.args_tree, TreeOf.boxed_tree};
    ghost use Rattle.swc_nodes.specs.{NodeTree.expr_of, NodeParts.args_parts};

    type Whole = Vec<ExprOrSpread<Box<Expr<F, C, K>>>>;

    ghost parts = { λ l. args_parts l.items };

    ghost by = { λ at l. args_tree (expr_of F.place C.place K.place at) l.items };

    ghost tree = { args_tree (boxed_tree _ _ _ F.place C.place K.place) };

    fn remember(
        &self,
        nodes: &Nodes<F, C, K>,
        commas: &mut TrailingCommas,
    ) -> Result<(), AllocError> {
        commas.remember_all(nodes, &self.items)
    }

    fn take(self, nodes: &mut Nodes<F, C, K>, alloc: Global) -> Result<Self::Whole, AllocError> {
        take_args(nodes, alloc, self.items)
    }
}

impl<F: Spanned + Drop, C: Spanned + Drop, K: Spanned + Drop> Take<F, C, K> for Tpl<ExprId> {
    ghost use Rattle.swc_ast.specs.{Parts.tpl_tree, TreeOf.boxed_tree};
    ghost use Rattle.swc_nodes.specs.{Lists.exprs_parts, NodeTree.expr_of};

    type Whole = Tpl<Box<Expr<F, C, K>>>;

    ghost parts = { λ t. exprs_parts t.exprs };

    ghost by = { λ at. tpl_tree (expr_of F.place C.place K.place at) };

    ghost tree = { tpl_tree (boxed_tree _ _ _ F.place C.place K.place) };

    fn remember(
        &self,
        nodes: &Nodes<F, C, K>,
        commas: &mut TrailingCommas,
    ) -> Result<(), AllocError> {
        commas.remember_all(nodes, &self.exprs)
    }

    fn take(self, nodes: &mut Nodes<F, C, K>, alloc: Global) -> Result<Self::Whole, AllocError> {
        take_tpl(nodes, alloc, self)
    }
}

impl<F: Spanned + Drop, C: Spanned + Drop, K: Spanned + Drop> Take<F, C, K> for PatId {
    ghost use Rattle.swc_ast.specs.TreeOf.{pat_tree};
    ghost use Rattle.swc_nodes.specs.{NodeTree.pat_of, NodeParts.one_pat};

    type Whole = Pat<F, C, K>;

    ghost parts = { one_pat };

    ghost by = { pat_of F.place C.place K.place };

    ghost tree = { pat_tree _ _ _ F.place C.place K.place };

    fn remember(
        &self,
        nodes: &Nodes<F, C, K>,
        commas: &mut TrailingCommas,
    ) -> Result<(), AllocError> {
        commas.remember_all(nodes, self)
    }

    fn take(self, nodes: &mut Nodes<F, C, K>, alloc: Global) -> Result<Self::Whole, AllocError> {
        take_pat(nodes, alloc, self)
    }
}

impl<F: Spanned + Drop, C: Spanned + Drop, K: Spanned + Drop> Take<F, C, K> for PatPropNode {
    ghost use Rattle.swc_ast.specs.TreeOf.{pat_prop_tree};
    ghost use Rattle.swc_nodes.specs.{NodeTree.pat_prop_of, NodeParts.pat_prop_parts};

    type Whole = ObjectPatProp<F, C, K>;

    ghost parts = { pat_prop_parts };

    ghost by = { pat_prop_of F.place C.place K.place };

    ghost tree = { pat_prop_tree _ _ _ F.place C.place K.place };

    fn remember(
        &self,
        nodes: &Nodes<F, C, K>,
        commas: &mut TrailingCommas,
    ) -> Result<(), AllocError> {
        commas.remember_all(nodes, self)
    }

    fn take(self, nodes: &mut Nodes<F, C, K>, alloc: Global) -> Result<Self::Whole, AllocError> {
        take_pat_prop(nodes, alloc, self)
    }
}

impl<F: Spanned + Drop, C: Spanned + Drop, K: Spanned + Drop> Take<F, C, K> for Vec<Param<PatId>> {
    ghost use Rattle.swc_ast.specs.TreeOf.{pat_tree};
    ghost use Rattle.swc_nodes.specs.{NodeTree.pat_of, NodeParts.flat, NodeParts.param_parts};
    ghost use Rattle.swc_ecma_parser.specs.Calls.{params_tree};

    type Whole = Vec<Param<Pat<F, C, K>>>;

    ghost parts = { λ ps. flat param_parts ps.items };

    ghost by = { λ at. params_tree (pat_of F.place C.place K.place at) };

    ghost tree = { params_tree (pat_tree _ _ _ F.place C.place K.place) };

    fn remember(
        &self,
        nodes: &Nodes<F, C, K>,
        commas: &mut TrailingCommas,
    ) -> Result<(), AllocError> {
        commas.remember_all(nodes, self)
    }

    fn take(self, nodes: &mut Nodes<F, C, K>, alloc: Global) -> Result<Self::Whole, AllocError> {
        take_params(nodes, alloc, self)
    }
}

impl<F: Spanned + Drop, C: Spanned + Drop, K: Spanned + Drop> Take<F, C, K> for Vec<PatId> {
    ghost use Rattle.swc_ast.specs.TreeOf.{pat_tree};
    ghost use Rattle.swc_nodes.specs.{Lists.pats_parts, NodeTree.pat_of};
    ghost use Rattle.swc_ecma_parser.specs.Calls.{pats_tree};

    type Whole = Vec<Pat<F, C, K>>;

    ghost parts = { pats_parts };

    ghost by = { λ at. pats_tree (pat_of F.place C.place K.place at) };

    ghost tree = { pats_tree (pat_tree _ _ _ F.place C.place K.place) };

    fn remember(
        &self,
        nodes: &Nodes<F, C, K>,
        commas: &mut TrailingCommas,
    ) -> Result<(), AllocError> {
        commas.remember_all(nodes, self)
    }

    fn take(self, nodes: &mut Nodes<F, C, K>, alloc: Global) -> Result<Self::Whole, AllocError> {
        take_pats(nodes, alloc, self)
    }
}

impl<F: Spanned + Drop, C: Spanned + Drop, K: Spanned + Drop> Take<F, C, K> for ForHeadId {
    ghost use Rattle.swc_nodes.specs.NodeParts.{for_head_parts};
    ghost use Rattle.swc_ecma_parser.specs.ForHeads.{boxed_head, coded, head_by};

    type Whole = ForHead<F, C, K>;

    ghost parts = { for_head_parts };

    ghost by = { λ at h. coded (head_by at h) };

    ghost tree = { λ h. coded (boxed_head F.place C.place K.place h) };

    fn remember(
        &self,
        nodes: &Nodes<F, C, K>,
        commas: &mut TrailingCommas,
    ) -> Result<(), AllocError> {
        match self {
            ForHeadId::Target(pat) => commas.remember_all(nodes, pat),
            ForHeadId::Expr(expr) => commas.remember_all(nodes, expr),
        }
    }

    fn take(self, nodes: &mut Nodes<F, C, K>, alloc: Global) -> Result<Self::Whole, AllocError> {
        take_for_head(nodes, alloc, self)
    }
}

impl<F: Spanned + Drop, C: Spanned + Drop, K: Spanned + Drop> Covers<F, C, K> for ExprId {
    fn covers_left(&self, nodes: &Nodes<F, C, K>) -> Result<Vec<Span>, AllocError> {
        find_covers_left(nodes, self)
    }
}

impl<F: Spanned + Drop, C: Spanned + Drop, K: Spanned + Drop> Covers<F, C, K> for PatId {
    fn covers_left(&self, nodes: &Nodes<F, C, K>) -> Result<Vec<Span>, AllocError> {
        find_covers_left(nodes, self)
    }
}

impl<F: Spanned + Drop, C: Spanned + Drop, K: Spanned + Drop> Covers<F, C, K>
    for Vec<Param<PatId>> {
    fn covers_left(&self, nodes: &Nodes<F, C, K>) -> Result<Vec<Span>, AllocError> {
        find_covers_left(nodes, self)
    }
}

impl<F: Spanned + Drop, C: Spanned + Drop, K: Spanned + Drop> Covers<F, C, K> for Vec<PatId> {
    fn covers_left(&self, nodes: &Nodes<F, C, K>) -> Result<Vec<Span>, AllocError> {
        find_covers_left(nodes, self)
    }
}

impl<F: Spanned + Drop, C: Spanned + Drop, K: Spanned + Drop> Covers<F, C, K>
    for Listed<ExprOrSpread<ExprId>> {
    fn covers_left(&self, nodes: &Nodes<F, C, K>) -> Result<Vec<Span>, AllocError> {
        find_covers_left(nodes, &self.items)
    }
}

impl<F: Spanned + Drop, C: Spanned + Drop, K: Spanned + Drop> Covers<F, C, K> for ForHeadId {
    fn covers_left(&self, nodes: &Nodes<F, C, K>) -> Result<Vec<Span>, AllocError> {
        match self {
            ForHeadId::Target(pat) => find_covers_left(nodes, pat),
            ForHeadId::Expr(expr) => find_covers_left(nodes, expr),
        }
    }
}
