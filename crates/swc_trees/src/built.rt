// Trees that were taken out, and wait for the node that they are parts of. Those of one node are in a list, in the
// order of its parts, and are taken from its end.
ghost use Rattle.std.specs.Prelude.{◌≡◌, ◌≢◌, ◌∷◌, [], MatchOption};
ghost use Rattle.swc_ast.specs.{Parts.or_hole, TreeOf.pat_tree, TreeOf.target_tree};
ghost use Rattle.swc_nodes.specs.NodeTree.{target_of};
ghost use Rattle.swc_nodes.specs.NodeParts.{if_some, one_expr, one_pat, target_part};
ghost use Rattle.swc_trees.specs.Building.{an_expr, a_pat, a_target, built_kind, Assembles, Offers, Assembled};
ghost use Rattle.swc_trees.specs.declared.built.Built.{Built as built};

use swc_ast::expr::{AssignTarget, Expr};
use swc_ast::pat::Pat;
use swc_ast::spanned::Spanned;
use swc_nodes::node::{ExprId, PatId, TargetNode};

/// A tree that was taken out.
#[derive(Drop)]
pub(crate) enum Built<F, C, K> {
    Expr(Box<Expr<F, C, K>>),
    Pat(Pat<F, C, K>),
    /// What is left of an assignment operator.
    Target(AssignTarget<F, C, K>),
}

impl<F: Spanned + Drop, C: Spanned + Drop, K: Spanned + Drop> Built<F, C, K> {
    /// The expression, if it is one.
    fn into_expr(self) -> Option<Box<Expr<F, C, K>>>
        ensures { MatchOption result (built_kind self ≢ an_expr) (λ v. self ≡ built.Expr v) }
    {
        match self {
            Built::Expr(expr) => Some(expr),
            _ => None,
        }
    }

    /// The pattern, if it is one.
    fn into_pat(self) -> Option<Pat<F, C, K>>
        ensures { MatchOption result (built_kind self ≢ a_pat) (λ v. self ≡ built.Pat v) }
    {
        match self {
            Built::Pat(pat) => Some(pat),
            _ => None,
        }
    }

    /// The target, if it is one.
    fn into_target(self) -> Option<AssignTarget<F, C, K>>
        ensures { MatchOption result (built_kind self ≢ a_target) (λ v. self ≡ built.Target v) }
    {
        match self {
            Built::Target(target) => Some(target),
            _ => None,
        }
    }
}

/// Takes the last tree, for the number of an expression.
pub(crate) fn pop_expr<F: Spanned + Drop, C: Spanned + Drop, K: Spanned + Drop>(
    built: &mut Vec<Built<F, C, K>>,
    id: ExprId,
) -> Box<Expr<F, C, K>>
    requires { Offers (one_expr id) built.old.items }
    ensures { Assembles F.place C.place K.place (one_expr id)
        (λ boxed number. boxed result ≡ number id) built.old.items built.new.items }
{
    built.pop().unwrap().into_expr().unwrap()
}

/// Takes the last tree for the number of an expression, if there is one.
pub(crate) fn pop_if_some<F: Spanned + Drop, C: Spanned + Drop, K: Spanned + Drop>(
    built: &mut Vec<Built<F, C, K>>,
    id: Option<ExprId>,
) -> Option<Box<Expr<F, C, K>>>
    requires { Offers (if_some one_expr id) built.old.items }
    ensures { Assembles F.place C.place K.place (if_some one_expr id)
        (λ boxed number. or_hole boxed result ≡ or_hole number id) built.old.items built.new.items }
{
    match id {
        None => None,
        Some(id) => Some(pop_expr(built, id)),
    }
}

/// Takes the last tree, for the number of a pattern.
pub(crate) fn pop_pat<F: Spanned + Drop, C: Spanned + Drop, K: Spanned + Drop>(
    built: &mut Vec<Built<F, C, K>>,
    id: PatId,
) -> Pat<F, C, K>
    requires { Offers (one_pat id) built.old.items }
    ensures { Assembled F.place C.place K.place (one_pat id)
        (λ at. pat_tree _ _ _ F.place C.place K.place result ≡ at id.0) built.old.items built.new.items }
{
    built.pop().unwrap().into_pat().unwrap()
}

/// Takes the last tree, for what is left of an assignment operator.
pub(crate) fn pop_target<F: Spanned + Drop, C: Spanned + Drop, K: Spanned + Drop>(
    built: &mut Vec<Built<F, C, K>>,
    target: TargetNode,
) -> AssignTarget<F, C, K>
    requires { Offers (target_part target ∷ []) built.old.items }
    ensures { Assembled F.place C.place K.place (target_part target ∷ []) (λ at. target_tree _ _ _ F.place C.place
        K.place result ≡ target_of F.place C.place K.place at target) built.old.items built.new.items }
{
    built.pop().unwrap().into_target().unwrap()
}
