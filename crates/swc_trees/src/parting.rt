// The parts of an expression, a pattern or a target that hold parts of their own: numbers, which are places in a list,
// take the place of the trees in them, the first first. What holds a value of the hook is moved out whole.
ghost use Rattle.std.specs.Prelude.{◌≡◌, ◌++◌};
ghost use Rattle.swc_ast.specs.Parts.{leaf, or_hole, binding_tree, paren_tree, member_tree, member_prop_tree, super_prop_tree, super_part_tree, chain_tree, chain_call_tree, base_tree, callee_tree, args_tree, tpl_tree, body_tree, prop_name_tree, computed_tree, function_tree, rest_tree, cover_tree, spread_tree};
ghost use Rattle.swc_ast.specs.Tree.{node, cons, nil, block, key_value, method, getter, setter, binding_prop};
ghost use Rattle.swc_ast.specs.TreeOf.{prop_or_spread_tree, pat_prop_tree};
ghost use Rattle.swc_nodes.specs.NodeTree.{prop_of, pat_prop_of};
ghost use Rattle.swc_nodes.specs.NodeParts.{flat, if_some, one_expr, args_parts, key_parts, member_parts, super_parts, callee_parts, base_parts, body_parts, param_parts, prop_parts, pat_prop_parts};
ghost use Rattle.swc_trees.specs.Splitting.{Splits, SplitsProp, SplitsPatProp};

use crate::built::Built;
use crate::moved::{
    no_prop, taken_big, taken_binding, taken_ident, taken_import, taken_name, taken_num,
    taken_private, taken_str,
};
use crate::placing::{Whole, place_expr, place_pat, split_all};
use crate::refusable::boxed;
use std::alloc::{AllocError, Global};
use std::mem;
use swc_ast::expr::{
    BlockStmtOrExpr, Callee, Expr, ExprOrSpread, MemberExpr, MemberProp, OptCall, OptChainBase,
    OptChainExpr, ParenExpr, Super, SuperProp, SuperPropExpr, Tpl,
};
use swc_ast::function::Function;
use swc_ast::ident::BindingIdent;
use swc_ast::pat::{ObjectPatProp, Pat, RestPat};
use swc_ast::prop::{AssignProp, ComputedPropName, Prop, PropName, PropOrSpread, SpreadElement};
use swc_ast::spanned::Spanned;
use swc_context::span::Span;
use swc_nodes::aside::Aside;
use swc_nodes::node::{ExprId, PatId, PatPart, PatPropNode, PropNode};

/// Splits what is in parentheses.
pub(crate) fn split_paren<F: Spanned + Drop, C: Spanned + Drop, K: Spanned + Drop>(
    alloc: Global,
    built: &mut Vec<Built<F, C, K>>,
    paren: &mut ParenExpr<Box<Expr<F, C, K>>>,
) -> Result<ParenExpr<ExprId>, AllocError>
    ensures { Splits F.place C.place K.place (λ y. one_expr y.expr) (λ t n y. paren_tree n.expr y ≡ paren_tree t.boxed
        paren.old) built.old.items result built.new.items }
{
    let expr = place_expr(alloc, built, &mut paren.expr)?;
    let span = paren.span;
    Ok(ParenExpr { span, expr })
}

/// Splits an object and what names its member.
pub(crate) fn split_member<F: Spanned + Drop, C: Spanned + Drop, K: Spanned + Drop>(
    alloc: Global,
    built: &mut Vec<Built<F, C, K>>,
    member: &mut MemberExpr<Box<Expr<F, C, K>>>,
) -> Result<MemberExpr<ExprId>, AllocError>
    ensures { Splits F.place C.place K.place (λ y. one_expr y.obj ++ member_parts y.prop) (λ t n y. member_tree n.expr
        y ≡ member_tree t.boxed member.old) built.old.items result built.new.items }
{
    let obj = place_expr(alloc, built, &mut member.obj)?;
    let prop = split_member_prop(alloc, built, &mut member.prop)?;
    let span = member.span;
    Ok(MemberExpr { span, obj, prop })
}

/// Splits what names a member.
fn split_member_prop<F: Spanned + Drop, C: Spanned + Drop, K: Spanned + Drop>(
    alloc: Global,
    built: &mut Vec<Built<F, C, K>>,
    prop: &mut MemberProp<Box<Expr<F, C, K>>>,
) -> Result<MemberProp<ExprId>, AllocError>
    ensures { Splits F.place C.place K.place member_parts (λ t n y. member_prop_tree n.expr y ≡ member_prop_tree
        t.boxed prop.old) built.old.items result built.new.items }
{
    match prop {
        MemberProp::Ident(i) => Ok(MemberProp::Ident(taken_name(alloc, i)?)),
        MemberProp::PrivateName(p) => Ok(MemberProp::PrivateName(taken_private(alloc, p)?)),
        MemberProp::Computed(c) => Ok(MemberProp::Computed(split_computed(alloc, built, c)?)),
    }
}

/// Splits a computed key.
fn split_computed<F: Spanned + Drop, C: Spanned + Drop, K: Spanned + Drop>(
    alloc: Global,
    built: &mut Vec<Built<F, C, K>>,
    key: &mut ComputedPropName<Box<Expr<F, C, K>>>,
) -> Result<ComputedPropName<ExprId>, AllocError>
    ensures { Splits F.place C.place K.place (λ y. one_expr y.expr) (λ t n y. computed_tree n.expr y ≡ computed_tree
        t.boxed key.old) built.old.items result built.new.items }
{
    let expr = place_expr(alloc, built, &mut key.expr)?;
    let span = key.span;
    Ok(ComputedPropName { span, expr })
}

/// Splits a property of `super`.
pub(crate) fn split_super_prop<F: Spanned + Drop, C: Spanned + Drop, K: Spanned + Drop>(
    alloc: Global,
    built: &mut Vec<Built<F, C, K>>,
    super_prop: &mut SuperPropExpr<Box<Expr<F, C, K>>>,
) -> Result<SuperPropExpr<ExprId>, AllocError>
    ensures { Splits F.place C.place K.place (λ y. super_parts y.prop) (λ t n y. super_prop_tree n.expr y ≡
        super_prop_tree t.boxed super_prop.old) built.old.items result built.new.items }
{
    let prop = split_super_part(alloc, built, &mut super_prop.prop)?;
    let span = super_prop.span;
    let obj = Super {
        span: super_prop.obj.span,
    };
    Ok(SuperPropExpr { span, obj, prop })
}

/// Splits what names a property of `super`.
fn split_super_part<F: Spanned + Drop, C: Spanned + Drop, K: Spanned + Drop>(
    alloc: Global,
    built: &mut Vec<Built<F, C, K>>,
    prop: &mut SuperProp<Box<Expr<F, C, K>>>,
) -> Result<SuperProp<ExprId>, AllocError>
    ensures { Splits F.place C.place K.place super_parts (λ t n y. super_part_tree n.expr y ≡ super_part_tree t.boxed
        prop.old) built.old.items result built.new.items }
{
    match prop {
        SuperProp::Ident(i) => Ok(SuperProp::Ident(taken_name(alloc, i)?)),
        SuperProp::Computed(c) => Ok(SuperProp::Computed(split_computed(alloc, built, c)?)),
    }
}

/// Splits a link of an optional chain.
pub(crate) fn split_chain<F: Spanned + Drop, C: Spanned + Drop, K: Spanned + Drop>(
    alloc: Global,
    built: &mut Vec<Built<F, C, K>>,
    chain: &mut OptChainExpr<Box<Expr<F, C, K>>>,
) -> Result<OptChainExpr<ExprId>, AllocError>
    ensures { Splits F.place C.place K.place (λ y. base_parts y.base.value) (λ t n y. chain_tree n.expr y ≡ chain_tree
        t.boxed chain.old) built.old.items result built.new.items }
{
    let base = boxed(alloc, split_base(alloc, built, &mut chain.base))?;
    let span = chain.span;
    let optional = chain.optional;
    Ok(OptChainExpr {
        span,
        optional,
        base,
    })
}

/// Splits what a link of an optional chain does.
fn split_base<F: Spanned + Drop, C: Spanned + Drop, K: Spanned + Drop>(
    alloc: Global,
    built: &mut Vec<Built<F, C, K>>,
    base: &mut OptChainBase<Box<Expr<F, C, K>>>,
) -> Result<OptChainBase<ExprId>, AllocError>
    ensures { Splits F.place C.place K.place base_parts (λ t n y. base_tree n.expr y ≡ base_tree t.boxed base.old)
        built.old.items result built.new.items }
{
    match base {
        OptChainBase::Member(m) => Ok(OptChainBase::Member(split_member(alloc, built, m)?)),
        OptChainBase::Call(c) => Ok(OptChainBase::Call(split_chain_call(alloc, built, c)?)),
    }
}

/// Splits a call in an optional chain.
fn split_chain_call<F: Spanned + Drop, C: Spanned + Drop, K: Spanned + Drop>(
    alloc: Global,
    built: &mut Vec<Built<F, C, K>>,
    call: &mut OptCall<Box<Expr<F, C, K>>>,
) -> Result<OptCall<ExprId>, AllocError>
    ensures { Splits F.place C.place K.place (λ y. one_expr y.callee ++ args_parts y.args) (λ t n y. chain_call_tree
        n.expr y ≡ chain_call_tree t.boxed call.old) built.old.items result built.new.items }
{
    let callee = place_expr(alloc, built, &mut call.callee)?;
    let args = split_all(alloc, built, &mut call.args)?;
    let span = call.span;
    Ok(OptCall { span, callee, args })
}

/// Splits what is called.
pub(crate) fn split_callee<F: Spanned + Drop, C: Spanned + Drop, K: Spanned + Drop>(
    alloc: Global,
    built: &mut Vec<Built<F, C, K>>,
    callee: &mut Callee<Box<Expr<F, C, K>>>,
) -> Result<Callee<ExprId>, AllocError>
    ensures { Splits F.place C.place K.place callee_parts (λ t n y. callee_tree n.expr y ≡ callee_tree t.boxed
        callee.old) built.old.items result built.new.items }
{
    match callee {
        Callee::Super(s) => Ok(Callee::Super(Super { span: s.span })),
        Callee::Import(i) => Ok(Callee::Import(taken_import(i))),
        Callee::Expr(e) => Ok(Callee::Expr(place_expr(alloc, built, e)?)),
    }
}

/// Splits a template.
pub(crate) fn split_tpl<F: Spanned + Drop, C: Spanned + Drop, K: Spanned + Drop>(
    alloc: Global,
    built: &mut Vec<Built<F, C, K>>,
    tpl: &mut Tpl<Box<Expr<F, C, K>>>,
) -> Result<Tpl<ExprId>, AllocError>
    ensures { Splits F.place C.place K.place (λ y. flat one_expr y.exprs.items) (λ t n y. tpl_tree n.expr y ≡ tpl_tree
        t.boxed tpl.old) built.old.items result built.new.items }
{
    let exprs = split_all(alloc, built, &mut tpl.exprs)?;
    let span = tpl.span;
    let quasis = mem::replace(&mut tpl.quasis, Vec::new(alloc));
    Ok(Tpl {
        span,
        exprs,
        quasis,
    })
}

/// Splits the body of an arrow function.
pub(crate) fn split_body<F: Spanned + Drop, C: Spanned + Drop, K: Spanned + Drop>(
    alloc: Global,
    built: &mut Vec<Built<F, C, K>>,
    body: BlockStmtOrExpr<Box<Expr<F, C, K>>, K>,
) -> Result<BlockStmtOrExpr<ExprId, K>, AllocError>
    ensures { Splits F.place C.place K.place body_parts (λ t n y. body_tree K.place n.expr y ≡ body_tree K.place
        t.boxed body) built.old.items result built.new.items }
{
    match body {
        BlockStmtOrExpr::BlockStmt(k) => Ok(BlockStmtOrExpr::BlockStmt(k)),
        BlockStmtOrExpr::Expr(mut e) => Ok(BlockStmtOrExpr::Expr(place_expr(
            alloc, built, &mut e,
        )?)),
    }
}

/// Splits arguments, if there are any.
pub(crate) fn split_new_args<F: Spanned + Drop, C: Spanned + Drop, K: Spanned + Drop>(
    alloc: Global,
    built: &mut Vec<Built<F, C, K>>,
    args: &mut Option<Vec<ExprOrSpread<Box<Expr<F, C, K>>>>>,
) -> Result<Option<Vec<ExprOrSpread<ExprId>>>, AllocError>
    ensures { Splits F.place C.place K.place (λ y. if_some args_parts y) (λ t n y. or_hole (args_tree n.expr) y ≡
        or_hole (args_tree t.boxed) args.old) built.old.items result built.new.items }
{
    match args {
        None => Ok(None),
        Some(item) => Ok(Some(split_all(alloc, built, item)?)),
    }
}

/// Splits a key.
fn split_key<F: Spanned + Drop, C: Spanned + Drop, K: Spanned + Drop>(
    alloc: Global,
    built: &mut Vec<Built<F, C, K>>,
    key: &mut PropName<Box<Expr<F, C, K>>>,
) -> Result<PropName<ExprId>, AllocError>
    ensures { Splits F.place C.place K.place key_parts (λ t n y. prop_name_tree n.expr y ≡ prop_name_tree t.boxed
        key.old) built.old.items result built.new.items }
{
    match key {
        PropName::Ident(i) => Ok(PropName::Ident(taken_name(alloc, i)?)),
        PropName::Str(s) => Ok(PropName::Str(taken_str(alloc, s)?)),
        PropName::Num(n) => Ok(PropName::Num(taken_num(alloc, n)?)),
        PropName::BigInt(n) => Ok(PropName::BigInt(taken_big(alloc, n)?)),
        PropName::Computed(c) => Ok(PropName::Computed(split_computed(alloc, built, c)?)),
    }
}

impl<F: Spanned + Drop, C: Spanned + Drop, K: Spanned + Drop> Whole<F, C, K>
    for PropOrSpread<F, C, K> {
    type Numbered = PropNode<K>;

    ghost parts = { prop_parts };

    ghost of = { prop_of F.place C.place K.place };

    ghost tree = { prop_or_spread_tree _ _ _ F.place C.place K.place };

    fn split(
        &mut self,
        alloc: Global,
        built: &mut Vec<Built<F, C, K>>,
    ) -> Result<Self::Numbered, AllocError> {
        match self {
            PropOrSpread::Spread(spread) => split_spread(alloc, built, spread),
            PropOrSpread::Prop(prop) => split_named(alloc, built, prop),
        }
    }
}

/// Splits a spread in an object.
fn split_spread<F: Spanned + Drop, C: Spanned + Drop, K: Spanned + Drop>(
    alloc: Global,
    built: &mut Vec<Built<F, C, K>>,
    spread: &mut SpreadElement<Box<Expr<F, C, K>>>,
) -> Result<PropNode<K>, AllocError>
    ensures { SplitsProp F.place C.place K.place (λ t. spread_tree t.boxed spread.old) built.old.items result
        built.new.items }
{
    let expr = place_expr(alloc, built, &mut spread.expr)?;
    let span = spread.span;
    let dot3_token = spread.dot3_token;
    Ok(PropNode::Spread(SpreadElement {
        span,
        dot3_token,
        expr,
    }))
}

/// Splits a property. It is moved out whole, since it may hold a value of the hook.
fn split_named<F: Spanned + Drop, C: Spanned + Drop, K: Spanned + Drop>(
    alloc: Global,
    built: &mut Vec<Built<F, C, K>>,
    prop: &mut Prop<F, C, K>,
) -> Result<PropNode<K>, AllocError>
    ensures { SplitsProp F.place C.place K.place (λ t. t.prop prop.old) built.old.items result built.new.items }
{
    match mem::replace(prop, no_prop(alloc)?) {
        Prop::Shorthand(i) => Ok(PropNode::Shorthand(i)),
        Prop::KeyValue { span, key, value } => {
            let mut key = Aside(key);
            let mut value = Aside(value);
            split_key_value(alloc, built, span, &mut key.0, &mut value.0)
        }
        Prop::Assign(p) => {
            let mut p = Aside(p);
            split_cover(alloc, built, &mut p.0)
        }
        Prop::Method { key, function } => {
            let mut key = Aside(key);
            split_method(alloc, built, &mut key.0, function)
        }
        Prop::Getter { span, key, body } => {
            let mut key = Aside(key);
            split_getter(alloc, built, span, &mut key.0, body)
        }
        Prop::Setter {
            span,
            key,
            mut param,
            body,
        } => {
            let mut key = Aside(key);
            split_setter(alloc, built, span, &mut key.0, &mut param, body)
        }
    }
}

/// Splits a property with its value.
fn split_key_value<F: Spanned + Drop, C: Spanned + Drop, K: Spanned + Drop>(
    alloc: Global,
    built: &mut Vec<Built<F, C, K>>,
    span: Span,
    key: &mut PropName<Box<Expr<F, C, K>>>,
    value: &mut Box<Expr<F, C, K>>,
) -> Result<PropNode<K>, AllocError>
    ensures { SplitsProp F.place C.place K.place (λ t. node key_value span (cons (prop_name_tree t.boxed key.old)
        (cons (t.boxed value.old) nil))) built.old.items result built.new.items }
{
    let key = split_key(alloc, built, key)?;
    let value = place_expr(alloc, built, value)?;
    Ok(PropNode::KeyValue { span, key, value })
}

/// Splits a property with a default value.
fn split_cover<F: Spanned + Drop, C: Spanned + Drop, K: Spanned + Drop>(
    alloc: Global,
    built: &mut Vec<Built<F, C, K>>,
    prop: &mut AssignProp<Box<Expr<F, C, K>>>,
) -> Result<PropNode<K>, AllocError>
    ensures { SplitsProp F.place C.place K.place (λ t. cover_tree t.boxed prop.old) built.old.items result
        built.new.items }
{
    let key = taken_ident(alloc, &mut prop.key)?;
    let value = place_expr(alloc, built, &mut prop.value)?;
    let span = prop.span;
    Ok(PropNode::Assign(AssignProp { span, key, value }))
}

/// Splits a method.
fn split_method<F: Spanned + Drop, C: Spanned + Drop, K: Spanned + Drop>(
    alloc: Global,
    built: &mut Vec<Built<F, C, K>>,
    key: &mut PropName<Box<Expr<F, C, K>>>,
    function: Box<Function<Pat<F, C, K>, K>>,
) -> Result<PropNode<K>, AllocError>
    ensures { SplitsProp F.place C.place K.place (λ t. node method function.value.span (cons (prop_name_tree t.boxed
        key.old) (cons (function_tree K.place t.pat function.value) nil))) built.old.items result built.new.items }
{
    let key = split_key(alloc, built, key)?;
    let function = split_function(alloc, built, function)?;
    Ok(PropNode::Method { key, function })
}

/// Splits a getter.
fn split_getter<F: Spanned + Drop, C: Spanned + Drop, K: Spanned + Drop>(
    alloc: Global,
    built: &mut Vec<Built<F, C, K>>,
    span: Span,
    key: &mut PropName<Box<Expr<F, C, K>>>,
    body: K,
) -> Result<PropNode<K>, AllocError>
    ensures { SplitsProp F.place C.place K.place (λ t. node getter span (cons (prop_name_tree t.boxed key.old) (cons
        (leaf (block body) (K.place body)) nil))) built.old.items result built.new.items }
{
    let key = split_key(alloc, built, key)?;
    Ok(PropNode::Getter { span, key, body })
}

/// Splits a setter.
fn split_setter<F: Spanned + Drop, C: Spanned + Drop, K: Spanned + Drop>(
    alloc: Global,
    built: &mut Vec<Built<F, C, K>>,
    span: Span,
    key: &mut PropName<Box<Expr<F, C, K>>>,
    param: &mut Box<Pat<F, C, K>>,
    body: K,
) -> Result<PropNode<K>, AllocError>
    ensures { SplitsProp F.place C.place K.place (λ t. node setter span (cons (prop_name_tree t.boxed key.old) (cons
        (t.pat param.old.value) (cons (leaf (block body) (K.place body)) nil)))) built.old.items result
        built.new.items }
{
    let key = split_key(alloc, built, key)?;
    let param = place_pat(built, param)?;
    Ok(PropNode::Setter {
        span,
        key,
        param,
        body,
    })
}

/// Splits the function of a method.
fn split_function<F: Spanned + Drop, C: Spanned + Drop, K: Spanned + Drop>(
    alloc: Global,
    built: &mut Vec<Built<F, C, K>>,
    function: Box<Function<Pat<F, C, K>, K>>,
) -> Result<Function<PatId, K>, AllocError>
    ensures { Splits F.place C.place K.place (λ y. flat param_parts y.params.items) (λ t n y. (function_tree K.place
        n.pat y ≡ function_tree K.place t.pat function.value) × (y.span ≡ function.value.span)) built.old.items result
        built.new.items }
{
    let Function {
        span,
        mut params,
        is_async,
        is_generator,
        body,
    } = Box::into_inner(function);
    let params = split_all(alloc, built, &mut params)?;
    Ok(Function {
        span,
        params,
        is_async,
        is_generator,
        body,
    })
}

impl<F: Spanned + Drop, C: Spanned + Drop, K: Spanned + Drop> Whole<F, C, K>
    for ObjectPatProp<F, C, K> {
    type Numbered = PatPropNode;

    ghost parts = { pat_prop_parts };

    ghost of = { pat_prop_of F.place C.place K.place };

    ghost tree = { pat_prop_tree _ _ _ F.place C.place K.place };

    fn split(
        &mut self,
        alloc: Global,
        built: &mut Vec<Built<F, C, K>>,
    ) -> Result<Self::Numbered, AllocError> {
        match self {
            ObjectPatProp::KeyValue { span, key, value } => {
                split_key_pat(alloc, built, *span, key, value)
            }
            ObjectPatProp::Assign { span, key, value } => {
                split_binding(alloc, built, *span, key, value)
            }
            ObjectPatProp::Rest(rest) => split_rest_prop(alloc, built, rest),
        }
    }
}

/// Splits a key with its pattern.
fn split_key_pat<F: Spanned + Drop, C: Spanned + Drop, K: Spanned + Drop>(
    alloc: Global,
    built: &mut Vec<Built<F, C, K>>,
    span: Span,
    key: &mut PropName<Box<Expr<F, C, K>>>,
    value: &mut Box<Pat<F, C, K>>,
) -> Result<PatPropNode, AllocError>
    ensures { SplitsPatProp F.place C.place K.place (λ t. node key_value span (cons (prop_name_tree t.boxed key.old)
        (cons (t.pat value.old.value) nil))) built.old.items result built.new.items }
{
    let key = split_key(alloc, built, key)?;
    let value = PatPart::Pat(place_pat(built, value)?);
    Ok(PatPropNode::KeyValue { span, key, value })
}

/// Splits a name that is bound, with its default value or without.
fn split_binding<F: Spanned + Drop, C: Spanned + Drop, K: Spanned + Drop>(
    alloc: Global,
    built: &mut Vec<Built<F, C, K>>,
    span: Span,
    key: &mut BindingIdent,
    value: &mut Option<Box<Expr<F, C, K>>>,
) -> Result<PatPropNode, AllocError>
    ensures { SplitsPatProp F.place C.place K.place (λ t. node binding_prop span (cons (binding_tree key.old) (cons
        (or_hole t.boxed value.old) nil))) built.old.items result built.new.items }
{
    let key = taken_binding(alloc, key)?;
    let value = value.split(alloc, built)?;
    Ok(PatPropNode::Assign { span, key, value })
}

/// Splits the rest of an object pattern.
fn split_rest_prop<F: Spanned + Drop, C: Spanned + Drop, K: Spanned + Drop>(
    alloc: Global,
    built: &mut Vec<Built<F, C, K>>,
    rest_pat: &mut RestPat<Pat<F, C, K>>,
) -> Result<PatPropNode, AllocError>
    ensures { SplitsPatProp F.place C.place K.place (λ t. rest_tree t.pat rest_pat.old) built.old.items result
        built.new.items }
{
    let arg = PatPart::Pat(place_pat(built, &mut rest_pat.arg)?);
    let span = rest_pat.span;
    let dot3_token = rest_pat.dot3_token;
    Ok(PatPropNode::Rest {
        span,
        dot3_token,
        arg,
    })
}
