// Moves the parts out of an expression, a pattern or a target, onto the end of a list, and answers its node, in which
// their places in the list stand for them. The first part is moved first, as in the source. What is moved leaves an
// empty tree after; no text and no value of the hook is copied.
ghost use Rattle.std.specs.Prelude.{◌≡◌, Bool, Some, map};
ghost use Rattle.std.specs.{declared.alloc.Global.Global, declared.boxed.Box.Box, declared.vec.Vec.Vec};
ghost use Rattle.swc_ast.specs.Parts.{or_hole, item_tree, item_trees, callee_tree, args_tree, tpl_tree, body_tree, rest_tree, simple_tree};
ghost use Rattle.swc_ast.specs.Tree.{node, cons, nil, unary, update, bin, cond, assign, call, new, tagged, arrow, await, yield, seq, default, array, object, trees};
ghost use Rattle.swc_ast.specs.{declared.expr.BlockStmtOrExpr.BlockStmtOrExpr, declared.expr.Expr.Expr, declared.pat.Pat.Pat};
ghost use Rattle.swc_ast.specs.declared.expr.Expr.TheVariants as e;
ghost use Rattle.swc_context.specs.declared.span.Span.{Span};
ghost use Rattle.swc_nodes.specs.NodeParts.{expr as as_expr, pat as as_pat, simple as as_simple, pattern as as_pattern};
ghost use Rattle.swc_trees.specs.Splitting.{SplitsNode, built_view, target_view};
ghost use Rattle.swc_trees.specs.Building.{built_tree};

use crate::built::Built;
use crate::moved::{
    lit_node, nothing, taken_binding, taken_ident, taken_lit, taken_meta, taken_private,
};
use crate::parting::{
    split_body, split_callee, split_chain, split_member, split_new_args, split_paren,
    split_super_prop, split_tpl,
};
use crate::placing::{Whole, place_expr, place_pat, place_target, split_all};
use crate::refusable::boxed;
use std::alloc::{AllocError, Global};
use std::mem;
use swc_ast::expr::{
    AssignTarget, BlockStmtOrExpr, Callee, Expr, ExprOrSpread, Invalid, SimpleAssignTarget,
    ThisExpr, Tpl,
};
use swc_ast::pat::{ObjectPatProp, Pat, RestPat};
use swc_ast::prop::PropOrSpread;
use swc_ast::spanned::Spanned;
use swc_context::operator::{AssignOp, BinaryOp, UnaryOp, UpdateOp};
use swc_context::span::Span;
use swc_nodes::node::{InvalidNode, Node, PatPart};
use swc_nodes::patterns::pat_elems;

/// The node of a tree, whose parts are moved out.
pub(crate) fn split<F: Spanned + Drop, C: Spanned + Drop, K: Spanned + Drop>(
    alloc: Global,
    built: &mut Vec<Built<F, C, K>>,
    tree: &mut Built<F, C, K>,
) -> Result<Node<F, C, K>, AllocError>
    ensures { SplitsNode F.place C.place K.place (built_view tree.old)
        (λ _. built_tree F.place C.place K.place tree.old)
        built.old.items result built.new.items }
{
    match tree {
        Built::Expr(expr) => split_expr(alloc, built, expr),
        Built::Pat(pat) => split_pat(alloc, built, pat),
        Built::Target(target) => split_target(alloc, built, target),
    }
}

/// The node of what is left of an assignment operator.
fn split_target<F: Spanned + Drop, C: Spanned + Drop, K: Spanned + Drop>(
    alloc: Global,
    built: &mut Vec<Built<F, C, K>>,
    target: &mut AssignTarget<F, C, K>,
) -> Result<Node<F, C, K>, AllocError>
    ensures { SplitsNode F.place C.place K.place (target_view target.old) (λ t. t.target target.old)
        built.old.items result built.new.items }
{
    match target {
        AssignTarget::Simple(s) => split_simple(alloc, built, s),
        AssignTarget::Array { span, elems } => split_array_pat(alloc, built, *span, elems),
        AssignTarget::Object { span, props } => split_object_pat(alloc, built, *span, props),
    }
}

/// The node of an expression. What may hold a value of the hook is moved out whole.
fn split_expr<F: Spanned + Drop, C: Spanned + Drop, K: Spanned + Drop>(
    alloc: Global,
    built: &mut Vec<Built<F, C, K>>,
    expr: &mut Expr<F, C, K>,
) -> Result<Node<F, C, K>, AllocError>
    ensures { SplitsNode F.place C.place K.place as_expr (λ t. t.expr expr.old) built.old.items result built.new.items }
{
    match expr {
        Expr::Fn(_) => Ok(Node::Fn(mem::replace(expr, nothing()).fn_expr().unwrap())),
        Expr::Class(_) => Ok(Node::Class(mem::replace(expr, nothing()).class().unwrap())),
        Expr::Arrow { .. } => {
            let (span, is_async) = arrow_head(expr).unwrap();
            let (mut params, body) = mem::replace(expr, nothing()).arrow().unwrap();
            split_arrow(alloc, built, span, &mut params, body, is_async)
        }
        Expr::This(e) => Ok(Node::This(ThisExpr { span: e.span })),
        Expr::MetaProp(m) => Ok(Node::MetaProp(taken_meta(m))),
        Expr::PrivateName(p) => Ok(Node::PrivateName(taken_private(alloc, p)?)),
        Expr::Ident(i) => Ok(Node::Ident(taken_ident(alloc, i)?)),
        Expr::Lit(l) => Ok(lit_node(taken_lit(l))),
        Expr::Invalid(i) => Ok(Node::Invalid(InvalidNode {
            span: i.span,
            first: i.span.lo,
            last: i.span.hi,
        })),
        Expr::Array { span, elems } => split_array(alloc, built, *span, elems),
        Expr::Object { span, props } => split_object(alloc, built, *span, props),
        Expr::Seq { span, exprs } => split_seq(alloc, built, *span, exprs),
        Expr::Paren(p) => Ok(Node::Paren(split_paren(alloc, built, p)?)),
        Expr::Member(m) => Ok(Node::Member(split_member(alloc, built, m)?)),
        Expr::SuperProp(p) => Ok(Node::SuperProp(split_super_prop(alloc, built, p)?)),
        Expr::OptChain(c) => Ok(Node::OptChain(split_chain(alloc, built, c)?)),
        Expr::Tpl(t) => Ok(Node::Tpl(boxed(alloc, split_tpl(alloc, built, t))?)),
        Expr::Unary { span, op, arg } => split_unary(alloc, built, *span, *op, arg),
        Expr::Update {
            span,
            op,
            prefix,
            arg,
        } => split_update(alloc, built, *span, *op, *prefix, arg),
        Expr::Await { span, arg } => split_await(alloc, built, *span, arg),
        Expr::Yield {
            span,
            arg,
            delegate,
        } => split_yield(alloc, built, *span, arg, *delegate),
        Expr::Bin {
            span,
            op,
            left,
            right,
        } => split_bin(alloc, built, *span, *op, left, right),
        Expr::Cond {
            span,
            test,
            cons,
            alt,
        } => split_cond(alloc, built, *span, test, cons, alt),
        Expr::Assign {
            span,
            op,
            left,
            right,
        } => split_assign(alloc, built, *span, *op, left, right),
        Expr::Call { span, callee, args } => split_call(alloc, built, *span, callee, args),
        Expr::New { span, callee, args } => split_new(alloc, built, *span, callee, args),
        Expr::TaggedTpl { span, tag, tpl } => split_tagged(alloc, built, *span, tag, tpl),
    }
}

/// The place of an arrow function and whether it is async, if it is one.
fn arrow_head<F, C, K>(expr: &Expr<F, C, K>) -> Option<(Span, bool)>
    ensures { (s : Span) (ps : Vec (Pat F C K) Global) (b : Box (BlockStmtOrExpr (Box (Expr F C K) Global) K) Global)
        (a : Bool) → expr.now ≡ e.Arrow s ps b a → result ≡ Some (s, a) }
{
    match expr {
        Expr::Arrow { span, is_async, .. } => Some((*span, *is_async)),
        _ => None,
    }
}

/// An array literal.
fn split_array<F: Spanned + Drop, C: Spanned + Drop, K: Spanned + Drop>(
    alloc: Global,
    built: &mut Vec<Built<F, C, K>>,
    span: Span,
    elems: &mut Vec<Option<ExprOrSpread<Box<Expr<F, C, K>>>>>,
) -> Result<Node<F, C, K>, AllocError>
    ensures { SplitsNode F.place C.place K.place as_expr (λ t. node array span (trees (map (or_hole (item_tree
        t.boxed)) elems.old.items))) built.old.items result built.new.items }
{
    let elems = split_all(alloc, built, elems)?;
    Ok(Node::Array {
        span,
        elems,
        trailing_comma: None,
    })
}

/// An object literal.
fn split_object<F: Spanned + Drop, C: Spanned + Drop, K: Spanned + Drop>(
    alloc: Global,
    built: &mut Vec<Built<F, C, K>>,
    span: Span,
    props: &mut Vec<PropOrSpread<F, C, K>>,
) -> Result<Node<F, C, K>, AllocError>
    ensures { SplitsNode F.place C.place K.place as_expr (λ t. node object span (trees (map t.prop_or_spread
        props.old.items))) built.old.items result built.new.items }
{
    let props = split_all(alloc, built, props)?;
    Ok(Node::Object {
        span,
        props,
        trailing_comma: None,
    })
}

/// Expressions in a sequence.
fn split_seq<F: Spanned + Drop, C: Spanned + Drop, K: Spanned + Drop>(
    alloc: Global,
    built: &mut Vec<Built<F, C, K>>,
    span: Span,
    exprs: &mut Vec<Box<Expr<F, C, K>>>,
) -> Result<Node<F, C, K>, AllocError>
    ensures { SplitsNode F.place C.place K.place as_expr (λ t. node seq span (trees (map t.boxed exprs.old.items)))
        built.old.items result built.new.items }
{
    let exprs = split_all(alloc, built, exprs)?;
    Ok(Node::Seq { span, exprs })
}

/// An operation with one operand.
fn split_unary<F: Spanned + Drop, C: Spanned + Drop, K: Spanned + Drop>(
    alloc: Global,
    built: &mut Vec<Built<F, C, K>>,
    span: Span,
    op: UnaryOp,
    arg: &mut Box<Expr<F, C, K>>,
) -> Result<Node<F, C, K>, AllocError>
    ensures { SplitsNode F.place C.place K.place as_expr (λ t. node (unary op) span (cons (t.boxed arg.old) nil))
        built.old.items result built.new.items }
{
    let arg = place_expr(alloc, built, arg)?;
    Ok(Node::Unary { span, op, arg })
}

/// An operation that writes its operand.
fn split_update<F: Spanned + Drop, C: Spanned + Drop, K: Spanned + Drop>(
    alloc: Global,
    built: &mut Vec<Built<F, C, K>>,
    span: Span,
    op: UpdateOp,
    prefix: bool,
    arg: &mut Box<Expr<F, C, K>>,
) -> Result<Node<F, C, K>, AllocError>
    ensures { SplitsNode F.place C.place K.place as_expr (λ t. node (update op prefix) span (cons (t.boxed arg.old)
        nil)) built.old.items result built.new.items }
{
    let arg = place_expr(alloc, built, arg)?;
    Ok(Node::Update {
        span,
        op,
        prefix,
        arg,
    })
}

/// `await`.
fn split_await<F: Spanned + Drop, C: Spanned + Drop, K: Spanned + Drop>(
    alloc: Global,
    built: &mut Vec<Built<F, C, K>>,
    span: Span,
    arg: &mut Box<Expr<F, C, K>>,
) -> Result<Node<F, C, K>, AllocError>
    ensures { SplitsNode F.place C.place K.place as_expr (λ t. node await span (cons (t.boxed arg.old) nil))
        built.old.items result built.new.items }
{
    let arg = place_expr(alloc, built, arg)?;
    Ok(Node::Await { span, arg })
}

/// `yield`, with an operand or without.
fn split_yield<F: Spanned + Drop, C: Spanned + Drop, K: Spanned + Drop>(
    alloc: Global,
    built: &mut Vec<Built<F, C, K>>,
    span: Span,
    arg: &mut Option<Box<Expr<F, C, K>>>,
    delegate: bool,
) -> Result<Node<F, C, K>, AllocError>
    ensures { SplitsNode F.place C.place K.place as_expr (λ t. node (yield delegate) span (cons (or_hole t.boxed
        arg.old) nil)) built.old.items result built.new.items }
{
    let arg = arg.split(alloc, built)?;
    Ok(Node::Yield {
        span,
        arg,
        delegate,
    })
}

/// An operation with two operands.
fn split_bin<F: Spanned + Drop, C: Spanned + Drop, K: Spanned + Drop>(
    alloc: Global,
    built: &mut Vec<Built<F, C, K>>,
    span: Span,
    op: BinaryOp,
    left: &mut Box<Expr<F, C, K>>,
    right: &mut Box<Expr<F, C, K>>,
) -> Result<Node<F, C, K>, AllocError>
    ensures { SplitsNode F.place C.place K.place as_expr (λ t. node (bin op) span (cons (t.boxed left.old) (cons
        (t.boxed right.old) nil))) built.old.items result built.new.items }
{
    let left = place_expr(alloc, built, left)?;
    let right = place_expr(alloc, built, right)?;
    Ok(Node::Bin {
        span,
        op,
        left,
        right,
    })
}

/// An operation with three operands.
fn split_cond<F: Spanned + Drop, C: Spanned + Drop, K: Spanned + Drop>(
    alloc: Global,
    built: &mut Vec<Built<F, C, K>>,
    span: Span,
    test: &mut Box<Expr<F, C, K>>,
    consequent: &mut Box<Expr<F, C, K>>,
    alt: &mut Box<Expr<F, C, K>>,
) -> Result<Node<F, C, K>, AllocError>
    ensures { SplitsNode F.place C.place K.place as_expr (λ t. node cond span (cons (t.boxed test.old) (cons (t.boxed
        consequent.old) (cons (t.boxed alt.old) nil)))) built.old.items result built.new.items }
{
    let test = place_expr(alloc, built, test)?;
    let cons = place_expr(alloc, built, consequent)?;
    let alt = place_expr(alloc, built, alt)?;
    Ok(Node::Cond {
        span,
        test,
        cons,
        alt,
    })
}

/// A call.
fn split_call<F: Spanned + Drop, C: Spanned + Drop, K: Spanned + Drop>(
    alloc: Global,
    built: &mut Vec<Built<F, C, K>>,
    span: Span,
    callee: &mut Callee<Box<Expr<F, C, K>>>,
    args: &mut Vec<ExprOrSpread<Box<Expr<F, C, K>>>>,
) -> Result<Node<F, C, K>, AllocError>
    ensures { SplitsNode F.place C.place K.place as_expr (λ t. node call span (cons (callee_tree t.boxed callee.old)
        (item_trees t.boxed args.old.items))) built.old.items result built.new.items }
{
    let callee = split_callee(alloc, built, callee)?;
    let args = split_all(alloc, built, args)?;
    Ok(Node::Call { span, callee, args })
}

/// `new`, with arguments or without.
fn split_new<F: Spanned + Drop, C: Spanned + Drop, K: Spanned + Drop>(
    alloc: Global,
    built: &mut Vec<Built<F, C, K>>,
    span: Span,
    callee: &mut Box<Expr<F, C, K>>,
    args: &mut Option<Vec<ExprOrSpread<Box<Expr<F, C, K>>>>>,
) -> Result<Node<F, C, K>, AllocError>
    ensures { SplitsNode F.place C.place K.place as_expr (λ t. node new span (cons (t.boxed callee.old) (cons (or_hole
        (args_tree t.boxed) args.old) nil))) built.old.items result built.new.items }
{
    let callee = place_expr(alloc, built, callee)?;
    let args = split_new_args(alloc, built, args)?;
    Ok(Node::New { span, callee, args })
}

/// A template with its tag.
fn split_tagged<F: Spanned + Drop, C: Spanned + Drop, K: Spanned + Drop>(
    alloc: Global,
    built: &mut Vec<Built<F, C, K>>,
    span: Span,
    tag: &mut Box<Expr<F, C, K>>,
    tpl: &mut Box<Tpl<Box<Expr<F, C, K>>>>,
) -> Result<Node<F, C, K>, AllocError>
    ensures { SplitsNode F.place C.place K.place as_expr (λ t. node tagged span (cons (t.boxed tag.old) (cons
        (tpl_tree t.boxed tpl.old.value) nil))) built.old.items result built.new.items }
{
    let tag = place_expr(alloc, built, tag)?;
    let tpl = boxed(alloc, split_tpl(alloc, built, tpl))?;
    Ok(Node::TaggedTpl { span, tag, tpl })
}

/// An assignment.
fn split_assign<F: Spanned + Drop, C: Spanned + Drop, K: Spanned + Drop>(
    alloc: Global,
    built: &mut Vec<Built<F, C, K>>,
    span: Span,
    op: AssignOp,
    left: &mut AssignTarget<F, C, K>,
    right: &mut Box<Expr<F, C, K>>,
) -> Result<Node<F, C, K>, AllocError>
    ensures { SplitsNode F.place C.place K.place as_expr (λ t. node (assign op) span (cons (t.target left.old) (cons
        (t.boxed right.old) nil))) built.old.items result built.new.items }
{
    let left = place_target(alloc, built, left)?;
    let right = place_expr(alloc, built, right)?;
    Ok(Node::Assign {
        span,
        op,
        left,
        right,
    })
}

/// An arrow function.
fn split_arrow<F: Spanned + Drop, C: Spanned + Drop, K: Spanned + Drop>(
    alloc: Global,
    built: &mut Vec<Built<F, C, K>>,
    span: Span,
    params: &mut Vec<Pat<F, C, K>>,
    body: Box<BlockStmtOrExpr<Box<Expr<F, C, K>>, K>>,
    is_async: bool,
) -> Result<Node<F, C, K>, AllocError>
    ensures { SplitsNode F.place C.place K.place as_expr (λ t. node (arrow is_async) span (cons (body_tree K.place
        t.boxed body.value) (trees (map t.pat params.old.items)))) built.old.items result built.new.items }
{
    let params = split_all(alloc, built, params)?;
    let body = boxed(alloc, split_body(alloc, built, Box::into_inner(body)))?;
    Ok(Node::Arrow {
        span,
        params,
        body,
        is_async,
    })
}

/// The node of a pattern, whose parts are put in.
fn split_pat<F: Spanned + Drop, C: Spanned + Drop, K: Spanned + Drop>(
    alloc: Global,
    built: &mut Vec<Built<F, C, K>>,
    pat: &mut Pat<F, C, K>,
) -> Result<Node<F, C, K>, AllocError>
    ensures { SplitsNode F.place C.place K.place as_pat (λ t. t.pat pat.old) built.old.items result built.new.items }
{
    match pat {
        Pat::Ident(b) => Ok(Node::PatIdent(taken_binding(alloc, b)?)),
        Pat::Array { span, elems } => split_array_pat(alloc, built, *span, elems),
        Pat::Object { span, props } => split_object_pat(alloc, built, *span, props),
        Pat::Rest(r) => split_rest(alloc, built, r),
        Pat::Assign { span, left, right } => split_default(alloc, built, *span, left, right),
        Pat::Expr(e) => Ok(Node::PatExpr(place_expr(alloc, built, e)?)),
        Pat::Invalid(i) => Ok(Node::PatInvalid(Invalid { span: i.span })),
    }
}

/// An array pattern.
fn split_array_pat<F: Spanned + Drop, C: Spanned + Drop, K: Spanned + Drop>(
    alloc: Global,
    built: &mut Vec<Built<F, C, K>>,
    span: Span,
    elems: &mut Vec<Option<Pat<F, C, K>>>,
) -> Result<Node<F, C, K>, AllocError>
    ensures { SplitsNode F.place C.place K.place as_pattern (λ t. node array span (trees (map (or_hole t.pat)
        elems.old.items))) built.old.items result built.new.items }
{
    let pats = split_all(alloc, built, elems)?;
    let elems = pat_elems(alloc, &pats)?;
    Ok(Node::PatArray { span, elems })
}

/// An object pattern.
fn split_object_pat<F: Spanned + Drop, C: Spanned + Drop, K: Spanned + Drop>(
    alloc: Global,
    built: &mut Vec<Built<F, C, K>>,
    span: Span,
    props: &mut Vec<ObjectPatProp<F, C, K>>,
) -> Result<Node<F, C, K>, AllocError>
    ensures { SplitsNode F.place C.place K.place as_pattern (λ t. node object span (trees (map t.pat_prop
        props.old.items))) built.old.items result built.new.items }
{
    let props = split_all(alloc, built, props)?;
    Ok(Node::PatObject { span, props })
}

/// The rest of a pattern.
fn split_rest<F: Spanned + Drop, C: Spanned + Drop, K: Spanned + Drop>(
    alloc: Global,
    built: &mut Vec<Built<F, C, K>>,
    rest_pat: &mut RestPat<Pat<F, C, K>>,
) -> Result<Node<F, C, K>, AllocError>
    ensures { SplitsNode F.place C.place K.place as_pat (λ t. rest_tree t.pat rest_pat.old) built.old.items result
        built.new.items }
{
    let arg = place_pat(built, &mut rest_pat.arg)?;
    let span = rest_pat.span;
    let dot3_token = rest_pat.dot3_token;
    Ok(Node::PatRest {
        span,
        dot3_token,
        arg,
    })
}

/// A pattern with its default value.
fn split_default<F: Spanned + Drop, C: Spanned + Drop, K: Spanned + Drop>(
    alloc: Global,
    built: &mut Vec<Built<F, C, K>>,
    span: Span,
    left: &mut Box<Pat<F, C, K>>,
    right: &mut Box<Expr<F, C, K>>,
) -> Result<Node<F, C, K>, AllocError>
    ensures { SplitsNode F.place C.place K.place as_pat (λ t. node default span (cons (t.pat left.old.value) (cons
        (t.boxed right.old) nil))) built.old.items result built.new.items }
{
    let left = PatPart::Pat(place_pat(built, left)?);
    let right = place_expr(alloc, built, right)?;
    Ok(Node::PatAssign { span, left, right })
}

/// The node of an expression that is assigned to, whose parts are put in.
fn split_simple<F: Spanned + Drop, C: Spanned + Drop, K: Spanned + Drop>(
    alloc: Global,
    built: &mut Vec<Built<F, C, K>>,
    target: &mut SimpleAssignTarget<Box<Expr<F, C, K>>>,
) -> Result<Node<F, C, K>, AllocError>
    ensures { SplitsNode F.place C.place K.place as_simple (λ t. simple_tree t.boxed target.old) built.old.items
        result built.new.items }
{
    match target {
        SimpleAssignTarget::Ident(b) => Ok(Node::Ident(taken_ident(alloc, &mut b.id)?)),
        SimpleAssignTarget::Member(m) => Ok(Node::Member(split_member(alloc, built, m)?)),
        SimpleAssignTarget::SuperProp(p) => Ok(Node::SuperProp(split_super_prop(alloc, built, p)?)),
        SimpleAssignTarget::Paren(p) => Ok(Node::Paren(split_paren(alloc, built, p)?)),
        SimpleAssignTarget::OptChain(c) => Ok(Node::OptChain(split_chain(alloc, built, c)?)),
    }
}
