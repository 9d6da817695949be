// Expressions.
ghost use Rattle.std.specs.Prelude.{◌≡◌, Bool, Some};
ghost use Rattle.std.specs.{declared.alloc.Global.Global, declared.boxed.Box.Box, declared.vec.Vec.Vec};
ghost use Rattle.swc_ast.specs.{declared.expr.BlockStmtOrExpr.BlockStmtOrExpr, declared.expr.Expr.Expr, declared.pat.Pat.Pat};
ghost use Rattle.swc_ast.specs.declared.expr.Expr.TheVariants as e;
ghost use Rattle.swc_context.specs.declared.span.Span.{Span};

use crate::ident::{BindingIdent, Ident, IdentName, PrivateName};
use crate::lit::Lit;
use crate::pat::{ObjectPatProp, Pat};
use crate::prop::{ComputedPropName, PropOrSpread};
use crate::spanned::Spanned;
use swc_context::atom::Atom;
use swc_context::operator::{AssignOp, BinaryOp, UnaryOp, UpdateOp};
use swc_context::span::Span;

/// Which meta-property it is (ECMA-262, 13.3.12).
#[derive(Drop)]
pub enum MetaPropKind {
    /// `new.target`
    NewTarget,
    /// `import.meta`
    ImportMeta,
}

/// When what is imported is evaluated.
#[derive(Drop)]
pub enum ImportPhase {
    /// `import(..)` (ECMA-262, 13.3.10).
    Evaluation,
    /// `import.source(..)`
    Source,
}

/// `this` (ECMA-262, 13.2.1).
#[derive(Drop)]
pub struct ThisExpr {
    pub span: Span,
}

/// `super` (ECMA-262, 13.3.7).
#[derive(Drop)]
pub struct Super {
    pub span: Span,
}

/// `import` as a callee (ECMA-262, 13.3.10).
#[derive(Drop)]
pub struct Import {
    pub span: Span,
    pub phase: ImportPhase,
}

/// What is in place of a part that could not be read, where the fault was recorded.
#[derive(Drop)]
pub struct Invalid {
    pub span: Span,
}

/// `new.target` or `import.meta` (ECMA-262, 13.3.12).
#[derive(Drop)]
pub struct MetaPropExpr {
    pub span: Span,
    pub kind: MetaPropKind,
}

/// A text of a template (ECMA-262, 12.9.6): as it is written, and with its escapes read; `cooked`
/// is `None` where an escape is bad.
#[derive(Drop)]
pub struct TplElement {
    pub span: Span,
    pub tail: bool,
    pub cooked: Option<Atom>,
    pub raw: Atom,
}

/// An item of arguments or of an array literal, with the place of its dots where it is a spread
/// (ECMA-262, 13.2.4 and 13.3.8).
///
/// Its place runs from its dots, if there are any, through the expression.
#[derive(Drop)]
pub struct ExprOrSpread<E> {
    pub spread: Option<Span>,
    pub expr: E,
}

/// What is after an object to name its member (ECMA-262, 13.3).
#[derive(Drop)]
pub enum MemberProp<E> {
    Ident(IdentName),
    PrivateName(PrivateName),
    Computed(ComputedPropName<E>),
}

/// What is after `super` to name its property (ECMA-262, 13.3.7).
#[derive(Drop)]
pub enum SuperProp<E> {
    Ident(IdentName),
    Computed(ComputedPropName<E>),
}

/// `(expr)` (ECMA-262, 13.2.9).
#[derive(Drop)]
pub struct ParenExpr<E> {
    pub span: Span,
    pub expr: E,
}

/// `obj.name`, `obj.#name` or `obj[expr]` (ECMA-262, 13.3.2).
#[derive(Drop)]
pub struct MemberExpr<E> {
    pub span: Span,
    pub obj: E,
    pub prop: MemberProp<E>,
}

/// `super.name` or `super[expr]` (ECMA-262, 13.3.7).
#[derive(Drop)]
pub struct SuperPropExpr<E> {
    pub span: Span,
    pub obj: Super,
    pub prop: SuperProp<E>,
}

/// A link of an optional chain (ECMA-262, 13.3.9). `optional` says whether this very link has the `?.`.
#[derive(Drop)]
pub struct OptChainExpr<E> {
    pub span: Span,
    pub optional: bool,
    pub base: Box<OptChainBase<E>>,
}

/// What a link of an optional chain does.
#[derive(Drop)]
pub enum OptChainBase<E> {
    Member(MemberExpr<E>),
    Call(OptCall<E>),
}

/// A call in an optional chain (ECMA-262, 13.3.9).
#[derive(Drop)]
pub struct OptCall<E> {
    pub span: Span,
    pub callee: E,
    pub args: Vec<ExprOrSpread<E>>,
}

/// What is called (ECMA-262, 13.3.6, 13.3.7 and 13.3.10).
#[derive(Drop)]
pub enum Callee<E> {
    Super(Super),
    Import(Import),
    Expr(E),
}

/// A template (ECMA-262, 13.2.8): the texts, and an expression between each two of them.
#[derive(Drop)]
pub struct Tpl<E> {
    pub span: Span,
    pub exprs: Vec<E>,
    pub quasis: Vec<TplElement>,
}

/// The body of an arrow function (ECMA-262, 15.3).
#[derive(Drop)]
pub enum BlockStmtOrExpr<E, K> {
    BlockStmt(K),
    Expr(E),
}

/// What may be left of an assignment operator and is no pattern (ECMA-262, 13.15).
#[derive(Drop)]
pub enum SimpleAssignTarget<E> {
    Ident(BindingIdent),
    Member(MemberExpr<E>),
    SuperProp(SuperPropExpr<E>),
    Paren(ParenExpr<E>),
    OptChain(OptChainExpr<E>),
}

/// An expression (ECMA-262, 13).
///
/// Letting one go takes a stack that grows with its nesting, and not with the length of a chain, as
/// `a + a + ..` or `a.b.b..`: its `drop` is a loop along chains. So another crate cannot take one
/// apart by a `match` on its value: it matches on a reference, moves parts out of a `&mut`
/// (`std::mem::replace`), or calls `fn_expr`, `class` or `arrow`.
#[cycle(ast)]
pub enum Expr<F, C, K> {
    /// `this`
    This(ThisExpr),
    /// `[a, , ...b]`, with a `None` for each hole (ECMA-262, 13.2.4).
    Array {
        span: Span,
        elems: Vec<Option<ExprOrSpread<Box<Expr<F, C, K>>>>>,
    },
    /// `{a, b: c}` (ECMA-262, 13.2.5).
    Object {
        span: Span,
        props: Vec<PropOrSpread<F, C, K>>,
    },
    /// A function (ECMA-262, 15.2).
    Fn(F),
    /// A class (ECMA-262, 15.7).
    Class(C),
    /// `op arg` (ECMA-262, 13.5).
    Unary {
        span: Span,
        op: UnaryOp,
        arg: Box<Expr<F, C, K>>,
    },
    /// `++arg` or `arg++`, and with `--` (ECMA-262, 13.4).
    Update {
        span: Span,
        op: UpdateOp,
        prefix: bool,
        arg: Box<Expr<F, C, K>>,
    },
    /// `left op right` (ECMA-262, 13.6 to 13.13).
    Bin {
        span: Span,
        op: BinaryOp,
        left: Box<Expr<F, C, K>>,
        right: Box<Expr<F, C, K>>,
    },
    /// `left op right`, which writes `left` (ECMA-262, 13.15).
    Assign {
        span: Span,
        op: AssignOp,
        left: AssignTarget<F, C, K>,
        right: Box<Expr<F, C, K>>,
    },
    /// `test ? cons : alt` (ECMA-262, 13.14).
    Cond {
        span: Span,
        test: Box<Expr<F, C, K>>,
        cons: Box<Expr<F, C, K>>,
        alt: Box<Expr<F, C, K>>,
    },
    /// `a, b` (ECMA-262, 13.16).
    Seq {
        span: Span,
        exprs: Vec<Box<Expr<F, C, K>>>,
    },
    /// `(expr)`
    Paren(ParenExpr<Box<Expr<F, C, K>>>),
    /// `obj.name`, `obj.#name` or `obj[expr]`
    Member(MemberExpr<Box<Expr<F, C, K>>>),
    /// `super.name` or `super[expr]`
    SuperProp(SuperPropExpr<Box<Expr<F, C, K>>>),
    /// `callee(args)` (ECMA-262, 13.3.6).
    Call {
        span: Span,
        callee: Callee<Box<Expr<F, C, K>>>,
        args: Vec<ExprOrSpread<Box<Expr<F, C, K>>>>,
    },
    /// `new callee(args)`, or `new callee` with `None` (ECMA-262, 13.3.5).
    New {
        span: Span,
        callee: Box<Expr<F, C, K>>,
        args: Option<Vec<ExprOrSpread<Box<Expr<F, C, K>>>>>,
    },
    /// A link of an optional chain.
    OptChain(OptChainExpr<Box<Expr<F, C, K>>>),
    /// A template.
    Tpl(Tpl<Box<Expr<F, C, K>>>),
    /// A template with a tag (ECMA-262, 13.3.11).
    TaggedTpl {
        span: Span,
        tag: Box<Expr<F, C, K>>,
        tpl: Box<Tpl<Box<Expr<F, C, K>>>>,
    },
    /// An arrow function (ECMA-262, 15.3 and 15.9).
    Arrow {
        span: Span,
        params: Vec<Pat<F, C, K>>,
        body: Box<BlockStmtOrExpr<Box<Expr<F, C, K>>, K>>,
        is_async: bool,
    },
    /// `await arg` (ECMA-262, 15.8).
    Await {
        span: Span,
        arg: Box<Expr<F, C, K>>,
    },
    /// `yield`, `yield arg`, or `yield* arg` where `delegate` (ECMA-262, 15.5).
    Yield {
        span: Span,
        arg: Option<Box<Expr<F, C, K>>>,
        delegate: bool,
    },
    /// `new.target` or `import.meta`
    MetaProp(MetaPropExpr),
    /// `#name`, which is left of `in` (ECMA-262, 13.10).
    PrivateName(PrivateName),
    /// An identifier.
    Ident(Ident),
    /// A literal.
    Lit(Lit),
    /// What could not be read, where the fault was recorded.
    Invalid(Invalid),
}

// Not derived: a loop along the part that may be a long chain. Operators of one level and links lean to the left; `**`,
// and what is after a prefix, `=`, `=>` or the `:` of a conditional, to the right. All else is nested.
impl<F: Drop, C: Drop, K: Drop> Drop for Expr<F, C, K> {
    #[cycle(ast)]
    fn drop(mut self) {
        loop {
            let next = match self {
                Expr::Unary {
                    span: _,
                    op: _,
                    arg,
                } => arg,
                Expr::Update {
                    span: _,
                    op: _,
                    prefix: _,
                    arg,
                } => arg,
                Expr::Bin {
                    span: _,
                    op: BinaryOp::Exp,
                    left: _left,
                    right,
                } => right,
                Expr::Bin {
                    span: _,
                    op: _,
                    left,
                    right: _right,
                } => left,
                Expr::Assign {
                    span: _,
                    op: _,
                    left: _left,
                    right,
                } => right,
                Expr::Cond {
                    span: _,
                    test: _test,
                    cons: _cons,
                    alt,
                } => alt,
                Expr::Paren(ParenExpr { span: _, expr }) => expr,
                Expr::Member(
                    MemberExpr {
                        span: _,
                        obj,
                        prop: _prop,
                    },
                ) => obj,
                Expr::Call {
                    span: _,
                    callee,
                    args: _args,
                } => match callee {
                    Callee::Expr(callee) => callee,
                    Callee::Super(_super) => return,
                    Callee::Import(_import) => return,
                },
                Expr::New {
                    span: _,
                    callee,
                    args: _args,
                } => callee,
                Expr::OptChain(
                    OptChainExpr {
                        span: _,
                        optional: _,
                        base,
                    },
                ) => match Box::into_inner(base) {
                    OptChainBase::Member(
                        MemberExpr {
                            span: _,
                            obj,
                            prop: _prop,
                        },
                    ) => obj,
                    OptChainBase::Call(
                        OptCall {
                            span: _,
                            callee,
                            args: _args,
                        },
                    ) => callee,
                },
                Expr::TaggedTpl {
                    span: _,
                    tag,
                    tpl: _tpl,
                } => tag,
                Expr::Arrow {
                    span: _,
                    params: _params,
                    body,
                    is_async: _,
                } => match Box::into_inner(body) {
                    BlockStmtOrExpr::Expr(expr) => expr,
                    BlockStmtOrExpr::BlockStmt(_block) => return,
                },
                Expr::Await { span: _, arg } => arg,
                Expr::Yield {
                    span: _,
                    arg,
                    delegate: _,
                } => match arg {
                    Some(arg) => arg,
                    None => return,
                },
                Expr::Array {
                    span: _,
                    elems: _elems,
                } => return,
                Expr::Object {
                    span: _,
                    props: _props,
                } => return,
                Expr::Seq {
                    span: _,
                    exprs: _exprs,
                } => return,
                Expr::Fn(_function) => return,
                Expr::Class(_class) => return,
                Expr::SuperProp(_prop) => return,
                Expr::Tpl(_tpl) => return,
                Expr::This(_this) => return,
                Expr::MetaProp(_meta) => return,
                Expr::PrivateName(_name) => return,
                Expr::Ident(_ident) => return,
                Expr::Lit(_lit) => return,
                Expr::Invalid(_invalid) => return,
            };
            self = Box::into_inner(next);
        }
    }
}

impl<F: Drop, C: Drop, K: Drop> Expr<F, C, K> {
    /// The function, if it is one.
    pub fn fn_expr(self) -> Option<F>
        ensures { (f : F) → self ≡ e.Fn f → result ≡ Some f }
    {
        match self {
            Expr::Fn(function) => Some(function),
            _ => None,
        }
    }

    /// The class, if it is one.
    pub fn class(self) -> Option<C>
        ensures { (c : C) → self ≡ e.Class c → result ≡ Some c }
    {
        match self {
            Expr::Class(class) => Some(class),
            _ => None,
        }
    }

    /// The parameters and the body of an arrow function, if it is one.
    pub fn arrow(
        self,
    ) -> Option<
        (
            Vec<Pat<F, C, K>>,
            Box<BlockStmtOrExpr<Box<Expr<F, C, K>>, K>>,
        ),
    >
        ensures { (s : Span) (ps : Vec (Pat F C K) Global) (a : Bool)
            (b : Box (BlockStmtOrExpr (Box (Expr F C K) Global) K) Global)
            → self ≡ e.Arrow s ps b a → result ≡ Some (ps, b) }
    {
        match self {
            Expr::Arrow {
                span: _,
                params,
                body,
                is_async: _,
            } => Some((params, body)),
            _ => None,
        }
    }
}

/// What is left of an assignment operator (ECMA-262, 13.15).
#[cycle(ast)]
#[derive(Drop)]
pub enum AssignTarget<F, C, K> {
    /// What is no pattern.
    Simple(SimpleAssignTarget<Box<Expr<F, C, K>>>),
    /// `[a, , b]`, a pattern (ECMA-262, 13.15.5), with a `None` for each hole.
    Array {
        span: Span,
        elems: Vec<Option<Pat<F, C, K>>>,
    },
    /// `{a, b: c}`, a pattern (ECMA-262, 13.15.5).
    Object {
        span: Span,
        props: Vec<ObjectPatProp<F, C, K>>,
    },
}

impl Spanned for ThisExpr {
    ghost place = { λ e. e.span };

    fn span(&self) -> Span {
        self.span
    }
}

impl Spanned for Super {
    ghost place = { λ s. s.span };

    fn span(&self) -> Span {
        self.span
    }
}

impl Spanned for Import {
    ghost place = { λ i. i.span };

    fn span(&self) -> Span {
        self.span
    }
}

impl Spanned for Invalid {
    ghost place = { λ i. i.span };

    fn span(&self) -> Span {
        self.span
    }
}

impl Spanned for MetaPropExpr {
    ghost place = { λ m. m.span };

    fn span(&self) -> Span {
        self.span
    }
}

impl Spanned for TplElement {
    ghost place = { λ q. q.span };

    fn span(&self) -> Span {
        self.span
    }
}

impl<E: Spanned> Spanned for ExprOrSpread<E> {
    ghost use Rattle.swc_ast.specs.Spans.{item_span};

    ghost place = { λ x. item_span x.spread (E.place x.expr) };

    fn span(&self) -> Span {
        let expr = self.expr.span();
        match self.spread {
            None => expr,
            Some(dots) => Span {
                lo: dots.lo,
                hi: expr.hi,
            },
        }
    }
}

impl<E> Spanned for MemberProp<E> {
    ghost use Rattle.swc_ast.specs.Spans.{member_prop_span};

    ghost place = { member_prop_span };

    fn span(&self) -> Span {
        match self {
            MemberProp::Ident(i) => i.span,
            MemberProp::PrivateName(p) => p.span,
            MemberProp::Computed(c) => c.span,
        }
    }
}

impl<E> Spanned for SuperProp<E> {
    ghost use Rattle.swc_ast.specs.Spans.{super_prop_span};

    ghost place = { super_prop_span };

    fn span(&self) -> Span {
        match self {
            SuperProp::Ident(i) => i.span,
            SuperProp::Computed(c) => c.span,
        }
    }
}

impl<E> Spanned for ParenExpr<E> {
    ghost place = { λ e. e.span };

    fn span(&self) -> Span {
        self.span
    }
}

impl<E> Spanned for MemberExpr<E> {
    ghost place = { λ e. e.span };

    fn span(&self) -> Span {
        self.span
    }
}

impl<E> Spanned for SuperPropExpr<E> {
    ghost place = { λ e. e.span };

    fn span(&self) -> Span {
        self.span
    }
}

impl<E> Spanned for OptChainExpr<E> {
    ghost place = { λ e. e.span };

    fn span(&self) -> Span {
        self.span
    }
}

impl<E> Spanned for OptChainBase<E> {
    ghost use Rattle.swc_ast.specs.Spans.{chain_base_span};

    ghost place = { chain_base_span };

    fn span(&self) -> Span {
        match self {
            OptChainBase::Member(m) => m.span,
            OptChainBase::Call(c) => c.span,
        }
    }
}

impl<E> Spanned for OptCall<E> {
    ghost place = { λ c. c.span };

    fn span(&self) -> Span {
        self.span
    }
}

impl<E: Spanned> Spanned for Callee<E> {
    ghost use Rattle.swc_ast.specs.Spans.{callee_span};

    ghost place = { callee_span E.place };

    fn span(&self) -> Span {
        match self {
            Callee::Super(s) => s.span,
            Callee::Import(i) => i.span,
            Callee::Expr(e) => e.span(),
        }
    }
}

impl<E> Spanned for Tpl<E> {
    ghost place = { λ t. t.span };

    fn span(&self) -> Span {
        self.span
    }
}

impl<E: Spanned, K: Spanned> Spanned for BlockStmtOrExpr<E, K> {
    ghost use Rattle.swc_ast.specs.Spans.{body_span};

    ghost place = { body_span E.place K.place };

    fn span(&self) -> Span {
        match self {
            BlockStmtOrExpr::BlockStmt(k) => k.span(),
            BlockStmtOrExpr::Expr(e) => e.span(),
        }
    }
}

impl<E> Spanned for SimpleAssignTarget<E> {
    ghost use Rattle.swc_ast.specs.Spans.{simple_target_span};

    ghost place = { simple_target_span };

    fn span(&self) -> Span {
        match self {
            SimpleAssignTarget::Ident(b) => b.id.span,
            SimpleAssignTarget::Member(m) => m.span,
            SimpleAssignTarget::SuperProp(p) => p.span,
            SimpleAssignTarget::Paren(p) => p.span,
            SimpleAssignTarget::OptChain(c) => c.span,
        }
    }
}

impl<F: Spanned, C: Spanned, K: Spanned> Spanned for AssignTarget<F, C, K> {
    ghost use Rattle.swc_ast.specs.{Tree.span_of, TreeOf.target_tree};

    ghost place = { λ t. span_of (target_tree _ _ _ F.place C.place K.place t) };

    fn span(&self) -> Span {
        match self {
            AssignTarget::Simple(s) => s.span(),
            AssignTarget::Array { span, .. } | AssignTarget::Object { span, .. } => *span,
        }
    }
}

impl<F: Spanned, C: Spanned, K: Spanned> Spanned for Expr<F, C, K> {
    ghost use Rattle.swc_context.specs.Spans.{in_order};
    ghost use Rattle.swc_ast.specs.{Tree.span_of, TreeOf.expr_tree};

    ghost place = { λ e. in_order (span_of (expr_tree _ _ _ F.place C.place K.place e)) };

    fn span(&self) -> Span {
        let extent = match self {
            Expr::Fn(f) => f.span(),
            Expr::Class(c) => c.span(),
            Expr::Array { span, .. }
            | Expr::Object { span, .. }
            | Expr::Unary { span, .. }
            | Expr::Update { span, .. }
            | Expr::Bin { span, .. }
            | Expr::Assign { span, .. }
            | Expr::Cond { span, .. }
            | Expr::Seq { span, .. }
            | Expr::Call { span, .. }
            | Expr::New { span, .. }
            | Expr::TaggedTpl { span, .. }
            | Expr::Arrow { span, .. }
            | Expr::Await { span, .. }
            | Expr::Yield { span, .. } => *span,
            Expr::This(e) => e.span,
            Expr::Paren(e) => e.span,
            Expr::Member(e) => e.span,
            Expr::SuperProp(e) => e.span,
            Expr::OptChain(e) => e.span,
            Expr::Tpl(e) => e.span,
            Expr::MetaProp(e) => e.span,
            Expr::PrivateName(e) => e.span,
            Expr::Ident(e) => e.span,
            Expr::Lit(e) => e.span(),
            Expr::Invalid(e) => e.span,
        };
        extent.in_order()
    }
}
