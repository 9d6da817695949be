// Patterns.
use crate::expr::{Expr, Invalid};
use crate::ident::BindingIdent;
use crate::prop::PropName;
use crate::spanned::Spanned;
use swc_context::span::Span;

/// `...arg` in a pattern (ECMA-262, 14.3.3), whose argument is a `P`.
#[derive(Drop)]
pub struct RestPat<P> {
    pub span: Span,
    pub dot3_token: Span,
    pub arg: Box<P>,
}

/// A pattern: what is bound, or assigned to (ECMA-262, 14.3.3 and 13.15.5).
#[cycle(ast)]
#[derive(Drop)]
pub enum Pat<F, C, K> {
    /// An identifier.
    Ident(BindingIdent),
    /// `[a, , b]`, with a `None` for each hole.
    Array {
        span: Span,
        elems: Vec<Option<Pat<F, C, K>>>,
    },
    /// `{a, b: c}`
    Object {
        span: Span,
        props: Vec<ObjectPatProp<F, C, K>>,
    },
    /// `...arg`
    Rest(RestPat<Pat<F, C, K>>),
    /// `left = right`, a pattern with its default value.
    Assign {
        span: Span,
        left: Box<Pat<F, C, K>>,
        right: Box<Expr<F, C, K>>,
    },
    /// An expression that is assigned to, as `a.b`. Its place is that of the expression.
    Expr(Box<Expr<F, C, K>>),
    /// What was no pattern, where the fault was recorded.
    Invalid(Invalid),
}

/// An item of an object pattern (ECMA-262, 14.3.3 and 13.15.5).
#[cycle(ast)]
#[derive(Drop)]
pub enum ObjectPatProp<F, C, K> {
    /// `key: value`
    KeyValue {
        span: Span,
        key: PropName<Box<Expr<F, C, K>>>,
        value: Box<Pat<F, C, K>>,
    },
    /// `key` or `key = value`
    Assign {
        span: Span,
        key: BindingIdent,
        value: Option<Box<Expr<F, C, K>>>,
    },
    /// `...arg`
    Rest(RestPat<Pat<F, C, K>>),
}

impl<P> Spanned for RestPat<P> {
    ghost place = { λ r. r.span };

    fn span(&self) -> Span {
        self.span
    }
}

impl<F: Spanned, C: Spanned, K: Spanned> Spanned for Pat<F, C, K> {
    ghost use Rattle.swc_context.specs.Spans.{in_order};
    ghost use Rattle.swc_ast.specs.{Tree.span_of, TreeOf.pat_tree};

    ghost place = { λ p. in_order (span_of (pat_tree _ _ _ F.place C.place K.place p)) };

    fn span(&self) -> Span {
        let extent = match self {
            Pat::Ident(b) => b.id.span,
            Pat::Array { span, .. } | Pat::Object { span, .. } | Pat::Assign { span, .. } => *span,
            Pat::Rest(r) => r.span,
            Pat::Expr(e) => return e.span(),
            Pat::Invalid(i) => i.span,
        };
        extent.in_order()
    }
}

impl<F: Spanned, C: Spanned, K: Spanned> Spanned for ObjectPatProp<F, C, K> {
    ghost use Rattle.swc_ast.specs.{Tree.span_of, TreeOf.pat_prop_tree};

    ghost place = { λ p. span_of (pat_prop_tree _ _ _ F.place C.place K.place p) };

    fn span(&self) -> Span {
        match self {
            ObjectPatProp::KeyValue { span, .. } | ObjectPatProp::Assign { span, .. } => *span,
            ObjectPatProp::Rest(r) => r.span,
        }
    }
}
