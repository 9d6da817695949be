// Makes boxed trees of their parts.
ghost use Rattle.std.specs.Prelude.{◌≡◌, map, IfOk};
ghost use Rattle.swc_ast.specs.Tree.{object, node, trees};
ghost use Rattle.swc_ast.specs.TreeOf.{boxed_tree, prop_or_spread_tree};

use crate::refusable::boxed;
use std::alloc::{AllocError, Global};
use swc_ast::expr::Expr;
use swc_ast::prop::PropOrSpread;
use swc_ast::spanned::Spanned;
use swc_context::span::Span;

/// An object literal of its properties (ECMA-262, 13.2.5).
pub fn object_lit<F: Spanned + Drop, C: Spanned + Drop, K: Spanned + Drop>(
    alloc: Global,
    span: Span,
    props: Vec<PropOrSpread<F, C, K>>,
) -> Result<Box<Expr<F, C, K>>, AllocError>
    ensures { IfOk result (λ e. boxed_tree _ _ _ F.place C.place K.place e
        ≡ node object span (trees (map (prop_or_spread_tree _ _ _ F.place C.place K.place) props.items))) }
{
    boxed(alloc, Ok(Expr::Object { span, props }))
}
