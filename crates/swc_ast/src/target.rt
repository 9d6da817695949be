// Which expressions may be left of an operator that writes.
ghost use Rattle.std.specs.Prelude.{◌≡◌};
ghost use Rattle.swc_ast.specs.{Targets.is_target, TreeOf.expr_tree};

use crate::expr::Expr;
use crate::spanned::Spanned;

/// Tests on expressions, boxed or not.
pub trait ExprExt<F: Spanned, C: Spanned, K: Spanned> {
    ghost use Rattle.swc_ast.specs.declared.expr.Expr.{Expr as Inner};

    ghost inner: { Self → Inner F C K };

    /// The expression itself.
    fn as_expr(&self) -> &Expr<F, C, K>
        ensures { result.now ≡ inner self.now };

    /// Whether it may be left of an operator that writes, as `=` or `++`, and is no pattern (ECMA-262, 8.6.4).
    ///
    /// These may: an identifier, but in strict code neither `eval` nor `arguments`; a property of `super`; a member,
    /// unless its object is a link of an optional chain, or a member that may not itself; and any of these in
    /// parentheses.
    fn is_valid_simple_assignment_target(&self, strict: bool) -> bool
        ensures { result ≡ is_target strict (expr_tree _ _ _ F.place C.place K.place (inner self.now)) }
    {
        is_simple_target(self.as_expr(), strict)
    }
}

impl<F: Spanned, C: Spanned, K: Spanned> ExprExt<F, C, K> for Expr<F, C, K> {
    ghost inner = { λ e. e };

    fn as_expr(&self) -> &Expr<F, C, K> {
        self
    }
}

impl<F: Spanned, C: Spanned, K: Spanned> ExprExt<F, C, K> for Box<Expr<F, C, K>> {
    ghost inner = { λ b. b.value };

    fn as_expr(&self) -> &Expr<F, C, K> {
        self
    }
}

fn is_simple_target<F: Spanned, C: Spanned, K: Spanned>(expr: &Expr<F, C, K>, strict: bool) -> bool
    ensures { result ≡ is_target strict (expr_tree _ _ _ F.place C.place K.place expr.now) }
{
    match expr {
        Expr::Ident(i) => !(strict && i.sym.is_reserved_in_strict_bind()),
        Expr::Paren(p) => is_simple_target(&p.expr, strict),
        Expr::Member(m) => match &*m.obj {
            Expr::Member(_) => is_simple_target(&m.obj, strict),
            Expr::OptChain(_) => false,
            _ => true,
        },
        Expr::SuperProp(_) => true,
        _ => false,
    }
}
