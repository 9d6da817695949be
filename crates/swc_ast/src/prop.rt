// Property keys, and the properties of object literals.
use crate::expr::Expr;
use crate::function::Function;
use crate::ident::{Ident, IdentName};
use crate::lit::{BigInt, Num, Str};
use crate::pat::Pat;
use crate::spanned::Spanned;
use swc_context::span::Span;

/// A computed key with its brackets, `[expr]` (ECMA-262, 13.2.5 and 13.3).
#[derive(Drop)]
pub struct ComputedPropName<E> {
    pub span: Span,
    pub expr: E,
}

/// A property's key (`PropertyName`; ECMA-262, 13.2.5).
#[derive(Drop)]
pub enum PropName<E> {
    Ident(IdentName),
    Str(Str),
    Num(Num),
    BigInt(BigInt),
    Computed(ComputedPropName<E>),
}

/// `...expr` in an object literal (ECMA-262, 13.2.5): from the dots through the expression.
#[derive(Drop)]
pub struct SpreadElement<E> {
    pub span: Span,
    pub dot3_token: Span,
    pub expr: E,
}

/// `key = value`, which only a literal that turns out to be a pattern may hold
/// (`CoverInitializedName`; ECMA-262, 13.2.5).
#[derive(Drop)]
pub struct AssignProp<E> {
    pub span: Span,
    pub key: Ident,
    pub value: E,
}

/// An item of an object literal (`PropertyDefinition`; ECMA-262, 13.2.5).
#[cycle(ast)]
#[derive(Drop)]
pub enum PropOrSpread<F, C, K> {
    /// `...expr`
    Spread(SpreadElement<Box<Expr<F, C, K>>>),
    /// A property.
    Prop(Box<Prop<F, C, K>>),
}

/// A property of an object literal (ECMA-262, 13.2.5; its methods 15.4).
#[cycle(ast)]
#[derive(Drop)]
pub enum Prop<F, C, K> {
    /// `name`
    Shorthand(Ident),
    /// `key: value`
    KeyValue {
        span: Span,
        key: PropName<Box<Expr<F, C, K>>>,
        value: Box<Expr<F, C, K>>,
    },
    /// `key = value`
    Assign(AssignProp<Box<Expr<F, C, K>>>),
    /// `key() {}`, with `async` or `*` before it or not. Its place is that of the function.
    Method {
        key: PropName<Box<Expr<F, C, K>>>,
        function: Box<Function<Pat<F, C, K>, K>>,
    },
    /// `get key() {}`
    Getter {
        span: Span,
        key: PropName<Box<Expr<F, C, K>>>,
        body: K,
    },
    /// `set key(param) {}`
    Setter {
        span: Span,
        key: PropName<Box<Expr<F, C, K>>>,
        param: Box<Pat<F, C, K>>,
        body: K,
    },
}

impl<E> Spanned for ComputedPropName<E> {
    ghost place = { λ c. c.span };

    fn span(&self) -> Span {
        self.span
    }
}

impl<E> Spanned for PropName<E> {
    ghost use Rattle.swc_ast.specs.Spans.{prop_name_span};

    ghost place = { prop_name_span };

    fn span(&self) -> Span {
        match self {
            PropName::Ident(i) => i.span,
            PropName::Str(s) => s.span,
            PropName::Num(n) => n.span,
            PropName::BigInt(n) => n.span,
            PropName::Computed(c) => c.span,
        }
    }
}

impl<E> Spanned for SpreadElement<E> {
    ghost place = { λ s. s.span };

    fn span(&self) -> Span {
        self.span
    }
}

impl<E> Spanned for AssignProp<E> {
    ghost place = { λ p. p.span };

    fn span(&self) -> Span {
        self.span
    }
}

impl<F: Spanned, C: Spanned, K: Spanned> Spanned for Prop<F, C, K> {
    ghost use Rattle.swc_ast.specs.{Tree.span_of, TreeOf.prop_tree};

    ghost place = { λ p. span_of (prop_tree _ _ _ F.place C.place K.place p) };

    fn span(&self) -> Span {
        match self {
            Prop::Shorthand(i) => i.span,
            Prop::Assign(p) => p.span,
            Prop::Method { function, .. } => function.span,
            Prop::KeyValue { span, .. } | Prop::Getter { span, .. } | Prop::Setter { span, .. } => {
                *span
            }
        }
    }
}

impl<F: Spanned, C: Spanned, K: Spanned> Spanned for PropOrSpread<F, C, K> {
    ghost use Rattle.swc_ast.specs.{Tree.span_of, TreeOf.prop_or_spread_tree};

    ghost place = { λ p. span_of (prop_or_spread_tree _ _ _ F.place C.place K.place p) };

    fn span(&self) -> Span {
        match self {
            PropOrSpread::Spread(s) => s.span,
            PropOrSpread::Prop(p) => p.span(),
        }
    }
}
