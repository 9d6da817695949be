// Moving trees onto the end of a list, of what holds them: their places there are numbers, which stand for them.
ghost use Rattle.std.specs.Prelude.{◌≡◌, [], ◌∷◌, map};
ghost use Rattle.swc_ast.specs.Parts.{or_hole, item_tree, param_tree};
ghost use Rattle.swc_ast.specs.TreeOf.{boxed_tree, pat_tree, target_tree};
ghost use Rattle.swc_nodes.specs.NodeTree.{expr_of, pat_of, target_of};
ghost use Rattle.swc_nodes.specs.NodeParts.{flat, if_some, one_expr, one_pat, item_parts, param_parts, target_part};
ghost use Rattle.swc_trees.specs.Splitting.{SplitsTo, Splits};

use crate::built::Built;
use crate::moved::{no_pat, no_target, nothing};
use std::alloc::{AllocError, Global};
use std::mem;
use swc_ast::expr::{AssignTarget, Expr, ExprOrSpread};
use swc_ast::function::Param;
use swc_ast::pat::Pat;
use swc_ast::spanned::Spanned;
use swc_nodes::node::{ExprId, PatId, TargetNode};

/// Moves an expression onto the end of a list, and answers its place there.
pub(crate) fn place_expr<F: Spanned + Drop, C: Spanned + Drop, K: Spanned + Drop>(
    alloc: Global,
    built: &mut Vec<Built<F, C, K>>,
    expr: &mut Box<Expr<F, C, K>>,
) -> Result<ExprId, AllocError>
    ensures { Splits F.place C.place K.place one_expr (λ t n y. n.expr y ≡ t.boxed expr.old)
        built.old.items result built.new.items }
{
    let place = built.len();
    let left = Box::new(alloc, nothing())?;
    built.push(Built::Expr(mem::replace(expr, left)))?;
    Ok(ExprId(place))
}

/// Moves a pattern onto the end of a list, and answers its place there.
pub(crate) fn place_pat<F: Spanned + Drop, C: Spanned + Drop, K: Spanned + Drop>(
    built: &mut Vec<Built<F, C, K>>,
    pat: &mut Pat<F, C, K>,
) -> Result<PatId, AllocError>
    ensures { Splits F.place C.place K.place one_pat (λ t n y. n.pat y ≡ t.pat pat.old)
        built.old.items result built.new.items }
{
    let place = built.len();
    built.push(Built::Pat(mem::replace(pat, no_pat())))?;
    Ok(PatId(place))
}

/// Moves what is left of an assignment operator onto the end of a list, and answers its place there.
pub(crate) fn place_target<F: Spanned + Drop, C: Spanned + Drop, K: Spanned + Drop>(
    alloc: Global,
    built: &mut Vec<Built<F, C, K>>,
    target: &mut AssignTarget<F, C, K>,
) -> Result<TargetNode, AllocError>
    ensures { SplitsTo F.place C.place K.place (λ y. target_part y ∷ [])
        (λ at y. target_of F.place C.place K.place at y ≡ target_tree _ _ _ F.place C.place K.place target.old)
        built.old.items result built.new.items }
{
    let place = built.len();
    let number = match target {
        AssignTarget::Simple(_) => TargetNode::Simple(ExprId(place)),
        _ => TargetNode::Pat(PatId(place)),
    };
    built.push(Built::Target(mem::replace(target, no_target(alloc))))?;
    Ok(number)
}

/// What holds trees, in which numbers take their place.
pub(crate) trait Whole<F: Spanned, C: Spanned, K: Spanned> {
    ghost use Rattle.std.specs.Prelude.{ℕ, List};
    ghost use Rattle.swc_ast.specs.Tree.{Tree};
    ghost use Rattle.swc_nodes.specs.NodeParts.{Part};

    /// The same with numbers.
    type Numbered: Drop;

    ghost parts: { Self.Numbered → List Part };

    ghost of: { (ℕ → Tree F C K) → Self.Numbered → Tree F C K };

    ghost tree: { Self → Tree F C K };

    /// Moves its trees onto the end of a list.
    fn split(
        &mut self,
        alloc: Global,
        built: &mut Vec<Built<F, C, K>>,
    ) -> Result<Self::Numbered, AllocError>
        ensures { SplitsTo F.place C.place K.place parts (λ at y. of at y ≡ tree self.old)
            built.old.items result built.new.items };
}

/// Moves the trees of each item of a list onto the end of another.
pub(crate) fn split_all<F: Spanned + Drop, C: Spanned + Drop, K: Spanned + Drop, T: Whole<F, C, K>>(
    alloc: Global,
    built: &mut Vec<Built<F, C, K>>,
    items: &mut Vec<T>,
) -> Result<Vec<T::Numbered>, AllocError>
    ensures { SplitsTo F.place C.place K.place (λ y. flat T.parts y.items)
        (λ at y. map (T.of at) y.items ≡ map T.tree items.old.items)
        built.old.items result built.new.items }
{
    let mut numbered = Vec::new(alloc);
    for item in items.iter_mut() {
        numbered.push(item.split(alloc, built)?)?;
    }
    Ok(numbered)
}

impl<F: Spanned + Drop, C: Spanned + Drop, K: Spanned + Drop> Whole<F, C, K>
    for Box<Expr<F, C, K>> {
    type Numbered = ExprId;

    ghost parts = { one_expr };

    ghost of = { expr_of F.place C.place K.place };

    ghost tree = { boxed_tree _ _ _ F.place C.place K.place };

    fn split(
        &mut self,
        alloc: Global,
        built: &mut Vec<Built<F, C, K>>,
    ) -> Result<Self::Numbered, AllocError> {
        place_expr(alloc, built, self)
    }
}

impl<F: Spanned + Drop, C: Spanned + Drop, K: Spanned + Drop> Whole<F, C, K> for Pat<F, C, K> {
    type Numbered = PatId;

    ghost parts = { one_pat };

    ghost of = { pat_of F.place C.place K.place };

    ghost tree = { pat_tree _ _ _ F.place C.place K.place };

    fn split(
        &mut self,
        _alloc: Global,
        built: &mut Vec<Built<F, C, K>>,
    ) -> Result<Self::Numbered, AllocError> {
        place_pat(built, self)
    }
}

impl<F: Spanned + Drop, C: Spanned + Drop, K: Spanned + Drop> Whole<F, C, K>
    for ExprOrSpread<Box<Expr<F, C, K>>> {
    type Numbered = ExprOrSpread<ExprId>;

    ghost parts = { item_parts };

    ghost of = { λ at. item_tree (expr_of F.place C.place K.place at) };

    ghost tree = { item_tree (boxed_tree _ _ _ F.place C.place K.place) };

    fn split(
        &mut self,
        alloc: Global,
        built: &mut Vec<Built<F, C, K>>,
    ) -> Result<Self::Numbered, AllocError> {
        let expr = place_expr(alloc, built, &mut self.expr)?;
        let spread = self.spread;
        Ok(ExprOrSpread { spread, expr })
    }
}

impl<F: Spanned + Drop, C: Spanned + Drop, K: Spanned + Drop> Whole<F, C, K>
    for Param<Pat<F, C, K>> {
    type Numbered = Param<PatId>;

    ghost parts = { param_parts };

    ghost of = { λ at. param_tree (pat_of F.place C.place K.place at) };

    ghost tree = { param_tree (pat_tree _ _ _ F.place C.place K.place) };

    fn split(
        &mut self,
        _alloc: Global,
        built: &mut Vec<Built<F, C, K>>,
    ) -> Result<Self::Numbered, AllocError> {
        let pat = place_pat(built, &mut self.pat)?;
        let span = self.span;
        Ok(Param { span, pat })
    }
}

impl<F: Spanned + Drop, C: Spanned + Drop, K: Spanned + Drop, T: Whole<F, C, K>> Whole<F, C, K>
    for Option<T> {
    type Numbered = Option<T::Numbered>;

    ghost parts = { if_some T.parts };

    ghost of = { λ at. or_hole (T.of at) };

    ghost tree = { or_hole T.tree };

    fn split(
        &mut self,
        alloc: Global,
        built: &mut Vec<Built<F, C, K>>,
    ) -> Result<Self::Numbered, AllocError> {
        match self {
            None => Ok(None),
            Some(item) => Ok(Some(item.split(alloc, built)?)),
        }
    }
}
