// The parts of a node that hold parts of their own: trees take the place of the numbers in them, the last first.
ghost use Rattle.std.specs.Prelude.{◌≡◌, ◌++◌};
ghost use Rattle.swc_ast.specs.Parts.{or_hole, paren_tree, member_tree, member_prop_tree, super_prop_tree, super_part_tree, chain_tree, base_tree, callee_tree, args_tree, tpl_tree, body_tree, prop_name_tree};
ghost use Rattle.swc_nodes.specs.NodeParts.{flat, if_some, one_expr, args_parts, key_parts, member_parts, super_parts, callee_parts, base_parts, body_parts};
ghost use Rattle.swc_trees.specs.Building.{Assembles, AssemblesIf, Offers};

use crate::built::{Built, pop_expr};
use crate::items::all;
use crate::refusable::boxed;
use std::alloc::{AllocError, Global};
use swc_ast::expr::{
    BlockStmtOrExpr, Callee, Expr, ExprOrSpread, MemberExpr, MemberProp, OptCall, OptChainBase,
    OptChainExpr, ParenExpr, SuperProp, SuperPropExpr, Tpl,
};
use swc_ast::prop::{ComputedPropName, PropName};
use swc_ast::spanned::Spanned;
use swc_nodes::node::ExprId;

/// An expression in parentheses.
pub(crate) fn paren<F: Spanned + Drop, C: Spanned + Drop, K: Spanned + Drop>(
    built: &mut Vec<Built<F, C, K>>,
    paren: ParenExpr<ExprId>,
) -> ParenExpr<Box<Expr<F, C, K>>>
    requires { Offers (one_expr paren.expr) built.old.items }
    ensures { Assembles F.place C.place K.place (one_expr paren.expr)
        (λ boxed number. paren_tree boxed result ≡ paren_tree number paren) built.old.items built.new.items }
{
    let expr = pop_expr(built, paren.expr);
    let span = paren.span;
    ParenExpr { span, expr }
}

/// An object and what names its member.
pub(crate) fn member<F: Spanned + Drop, C: Spanned + Drop, K: Spanned + Drop>(
    built: &mut Vec<Built<F, C, K>>,
    member: MemberExpr<ExprId>,
) -> MemberExpr<Box<Expr<F, C, K>>>
    requires { Offers (one_expr member.obj ++ member_parts member.prop) built.old.items }
    ensures { Assembles F.place C.place K.place (one_expr member.obj ++ member_parts member.prop)
        (λ boxed number. member_tree boxed result ≡ member_tree number member) built.old.items built.new.items }
{
    let MemberExpr { span, obj, prop } = member;
    let prop = member_prop(built, prop);
    let obj = pop_expr(built, obj);
    MemberExpr { span, obj, prop }
}

/// What names a member.
pub(crate) fn member_prop<F: Spanned + Drop, C: Spanned + Drop, K: Spanned + Drop>(
    built: &mut Vec<Built<F, C, K>>,
    prop: MemberProp<ExprId>,
) -> MemberProp<Box<Expr<F, C, K>>>
    requires { Offers (member_parts prop) built.old.items }
    ensures { Assembles F.place C.place K.place (member_parts prop)
        (λ boxed number. member_prop_tree boxed result ≡ member_prop_tree number prop) built.old.items built.new.items }
{
    match prop {
        MemberProp::Ident(i) => MemberProp::Ident(i),
        MemberProp::PrivateName(p) => MemberProp::PrivateName(p),
        MemberProp::Computed(c) => {
            let expr = pop_expr(built, c.expr);
            let span = c.span;
            MemberProp::Computed(ComputedPropName { span, expr })
        }
    }
}

/// A property of `super`.
pub(crate) fn super_prop<F: Spanned + Drop, C: Spanned + Drop, K: Spanned + Drop>(
    built: &mut Vec<Built<F, C, K>>,
    super_prop: SuperPropExpr<ExprId>,
) -> SuperPropExpr<Box<Expr<F, C, K>>>
    requires { Offers (super_parts super_prop.prop) built.old.items }
    ensures { Assembles F.place C.place K.place (super_parts super_prop.prop)
        (λ boxed number. super_prop_tree boxed result ≡ super_prop_tree number super_prop)
        built.old.items built.new.items }
{
    let SuperPropExpr { span, obj, prop } = super_prop;
    let prop = super_part(built, prop);
    SuperPropExpr { span, obj, prop }
}

/// What names a property of `super`.
pub(crate) fn super_part<F: Spanned + Drop, C: Spanned + Drop, K: Spanned + Drop>(
    built: &mut Vec<Built<F, C, K>>,
    prop: SuperProp<ExprId>,
) -> SuperProp<Box<Expr<F, C, K>>>
    requires { Offers (super_parts prop) built.old.items }
    ensures { Assembles F.place C.place K.place (super_parts prop)
        (λ boxed number. super_part_tree boxed result ≡ super_part_tree number prop) built.old.items built.new.items }
{
    match prop {
        SuperProp::Ident(i) => SuperProp::Ident(i),
        SuperProp::Computed(c) => {
            let expr = pop_expr(built, c.expr);
            let span = c.span;
            SuperProp::Computed(ComputedPropName { span, expr })
        }
    }
}

/// What is called.
pub(crate) fn pop_callee<F: Spanned + Drop, C: Spanned + Drop, K: Spanned + Drop>(
    built: &mut Vec<Built<F, C, K>>,
    callee: Callee<ExprId>,
) -> Callee<Box<Expr<F, C, K>>>
    requires { Offers (callee_parts callee) built.old.items }
    ensures { Assembles F.place C.place K.place (callee_parts callee)
        (λ boxed number. callee_tree boxed result ≡ callee_tree number callee) built.old.items built.new.items }
{
    match callee {
        Callee::Super(s) => Callee::Super(s),
        Callee::Import(i) => Callee::Import(i),
        Callee::Expr(id) => Callee::Expr(pop_expr(built, id)),
    }
}

/// A key.
pub(crate) fn key<F: Spanned + Drop, C: Spanned + Drop, K: Spanned + Drop>(
    built: &mut Vec<Built<F, C, K>>,
    key: PropName<ExprId>,
) -> PropName<Box<Expr<F, C, K>>>
    requires { Offers (key_parts key) built.old.items }
    ensures { Assembles F.place C.place K.place (key_parts key)
        (λ boxed number. prop_name_tree boxed result ≡ prop_name_tree number key) built.old.items built.new.items }
{
    match key {
        PropName::Ident(i) => PropName::Ident(i),
        PropName::Str(s) => PropName::Str(s),
        PropName::Num(n) => PropName::Num(n),
        PropName::BigInt(n) => PropName::BigInt(n),
        PropName::Computed(c) => {
            let expr = pop_expr(built, c.expr);
            let span = c.span;
            PropName::Computed(ComputedPropName { span, expr })
        }
    }
}

/// The body of an arrow function.
pub(crate) fn arrow_body<F: Spanned + Drop, C: Spanned + Drop, K: Spanned + Drop>(
    built: &mut Vec<Built<F, C, K>>,
    body: BlockStmtOrExpr<ExprId, K>,
) -> BlockStmtOrExpr<Box<Expr<F, C, K>>, K>
    requires { Offers (body_parts body) built.old.items }
    ensures { Assembles F.place C.place K.place (body_parts body)
        (λ boxed number. body_tree K.place boxed result ≡ body_tree K.place number body)
        built.old.items built.new.items }
{
    match body {
        BlockStmtOrExpr::BlockStmt(k) => BlockStmtOrExpr::BlockStmt(k),
        BlockStmtOrExpr::Expr(id) => BlockStmtOrExpr::Expr(pop_expr(built, id)),
    }
}

/// Arguments, if there are any.
pub(crate) fn args_if_some<F: Spanned + Drop, C: Spanned + Drop, K: Spanned + Drop>(
    alloc: Global,
    built: &mut Vec<Built<F, C, K>>,
    args: Option<Vec<ExprOrSpread<ExprId>>>,
) -> Result<Option<Vec<ExprOrSpread<Box<Expr<F, C, K>>>>>, AllocError>
    requires { Offers (if_some args_parts args) built.old.items }
    ensures { AssemblesIf F.place C.place K.place (if_some args_parts args)
        (λ boxed number y. or_hole (args_tree boxed) y ≡ or_hole (args_tree number) args)
        built.old.items result built.new.items }
{
    match args {
        None => Ok(None),
        Some(args) => Ok(Some(all(alloc, built, args)?)),
    }
}

/// A template.
pub(crate) fn template<F: Spanned + Drop, C: Spanned + Drop, K: Spanned + Drop>(
    alloc: Global,
    built: &mut Vec<Built<F, C, K>>,
    tpl: Tpl<ExprId>,
) -> Result<Tpl<Box<Expr<F, C, K>>>, AllocError>
    requires { Offers (flat one_expr tpl.exprs.items) built.old.items }
    ensures { AssemblesIf F.place C.place K.place (flat one_expr tpl.exprs.items)
        (λ boxed number y. tpl_tree boxed y ≡ tpl_tree number tpl) built.old.items result built.new.items }
{
    let Tpl {
        span,
        exprs,
        quasis,
    } = tpl;
    let exprs = all(alloc, built, exprs)?;
    Ok(Tpl {
        span,
        exprs,
        quasis,
    })
}

/// A link of an optional chain.
pub(crate) fn chain<F: Spanned + Drop, C: Spanned + Drop, K: Spanned + Drop>(
    alloc: Global,
    built: &mut Vec<Built<F, C, K>>,
    chain: OptChainExpr<ExprId>,
) -> Result<OptChainExpr<Box<Expr<F, C, K>>>, AllocError>
    requires { Offers (base_parts chain.base.value) built.old.items }
    ensures { AssemblesIf F.place C.place K.place (base_parts chain.base.value)
        (λ boxed number y. chain_tree boxed y ≡ chain_tree number chain) built.old.items result built.new.items }
{
    let OptChainExpr {
        span,
        optional,
        base,
    } = chain;
    let base = boxed(alloc, chain_base(alloc, built, Box::into_inner(base)))?;
    Ok(OptChainExpr {
        span,
        optional,
        base,
    })
}

/// What a link of an optional chain does.
pub(crate) fn chain_base<F: Spanned + Drop, C: Spanned + Drop, K: Spanned + Drop>(
    alloc: Global,
    built: &mut Vec<Built<F, C, K>>,
    base: OptChainBase<ExprId>,
) -> Result<OptChainBase<Box<Expr<F, C, K>>>, AllocError>
    requires { Offers (base_parts base) built.old.items }
    ensures { AssemblesIf F.place C.place K.place (base_parts base)
        (λ boxed number y. base_tree boxed y ≡ base_tree number base) built.old.items result built.new.items }
{
    match base {
        OptChainBase::Member(m) => Ok(OptChainBase::Member(member(built, m))),
        OptChainBase::Call(call) => {
            let OptCall { span, callee, args } = call;
            let args = all(alloc, built, args)?;
            let callee = pop_expr(built, callee);
            Ok(OptChainBase::Call(OptCall { span, callee, args }))
        }
    }
}
