// Makes an expression, a pattern or a target of a node and the trees of its parts, which are taken from the end of a
// list: the last part first.
// Where memory runs out, it is asked for before a tree is in hand, as far as that goes.
ghost use Rattle.std.specs.Prelude.{◌≡◌, ◌++◌, true, false, IfOk, MatchResult};
ghost use Rattle.swc_ast.specs.Tree.{node, cons, nil, cond};
ghost use Rattle.swc_ast.specs.TreeOf.{expr_tree, pat_tree, target_tree};
ghost use Rattle.swc_nodes.specs.NodeTree.{node_tree};
ghost use Rattle.swc_nodes.specs.NodeParts.{expr, pat, form, view_ok, slots, one_expr};
ghost use Rattle.swc_nodes.specs.declared.node.Node.{Node as nodes};
ghost use Rattle.swc_trees.specs.Building.{AssemblesExpr, Assembles, Offers, Assembled};
ghost use Rattle.swc_trees.specs.Kinds.{is_compound, is_operation, is_choice, is_call, is_target, is_chain, is_invalid, is_invalid_pat};

use crate::built::{Built, pop_expr, pop_if_some, pop_target};
use crate::items::{all, boxed_part, boxed_pat};
use crate::parts::both;
use crate::pieces::{
    args_if_some, arrow_body, chain, member, paren, pop_callee, super_prop, template,
};
use crate::refusable::boxed;
use std::alloc::{AllocError, Global};
use swc_ast::expr::{AssignTarget, Expr, Invalid, OptChainExpr, SimpleAssignTarget};
use swc_ast::ident::BindingIdent;
use swc_ast::lit::Lit;
use swc_ast::pat::{Pat, RestPat};
use swc_ast::spanned::Spanned;
use swc_context::span::Span;
use swc_nodes::node::{ExprId, InvalidNode, Node};

/// An expression, from its node.
pub(crate) fn assemble_expr<F: Spanned + Drop, C: Spanned + Drop, K: Spanned + Drop>(
    alloc: Global,
    built: &mut Vec<Built<F, C, K>>,
    node: Node<F, C, K>,
) -> Result<Expr<F, C, K>, AllocError>
    requires offers { Offers (slots node) built.old.items }
    requires expr { view_ok expr (form node) ≡ true }
    ensures { AssemblesExpr F.place C.place K.place node built.old.items result built.new.items }
{
    match node {
        Node::This(e) => Ok(Expr::This(e)),
        Node::Fn(f) => Ok(Expr::Fn(f)),
        Node::Class(c) => Ok(Expr::Class(c)),
        Node::MetaProp(m) => Ok(Expr::MetaProp(m)),
        Node::PrivateName(p) => Ok(Expr::PrivateName(p)),
        Node::Ident(i) => Ok(Expr::Ident(i)),
        Node::Str(s) => Ok(Expr::Lit(Lit::Str(s))),
        Node::Bool(b) => Ok(Expr::Lit(Lit::Bool(b))),
        Node::Null(l) => Ok(Expr::Lit(Lit::Null(l))),
        Node::Num(l) => Ok(Expr::Lit(Lit::Num(l))),
        Node::BigInt(l) => Ok(Expr::Lit(Lit::BigInt(l))),
        Node::Regex(r) => Ok(Expr::Lit(Lit::Regex(r))),
        node => assemble_compound(alloc, built, node),
    }
}

/// A literal of parts, a sequence, a link or what is in parentheses, or one of the nodes after it.
fn assemble_compound<F: Spanned + Drop, C: Spanned + Drop, K: Spanned + Drop>(
    alloc: Global,
    built: &mut Vec<Built<F, C, K>>,
    node: Node<F, C, K>,
) -> Result<Expr<F, C, K>, AllocError>
    requires offers { Offers (slots node) built.old.items }
    requires compound { is_compound node ≡ true }
    ensures { AssemblesExpr F.place C.place K.place node built.old.items result built.new.items }
{
    match node {
        Node::Array { span, elems, .. } => {
            let elems = all(alloc, built, elems)?;
            Ok(Expr::Array { span, elems })
        }
        Node::Object { span, props, .. } => {
            let props = all(alloc, built, props)?;
            Ok(Expr::Object { span, props })
        }
        Node::Seq { span, exprs } => {
            let exprs = all(alloc, built, exprs)?;
            Ok(Expr::Seq { span, exprs })
        }
        Node::Paren(p) => Ok(Expr::Paren(paren(built, p))),
        Node::Member(m) => Ok(Expr::Member(member(built, m))),
        Node::SuperProp(p) => Ok(Expr::SuperProp(super_prop(built, p))),
        Node::OptChain(c) => Ok(Expr::OptChain(chain(alloc, built, c)?)),
        Node::Tpl(t) => Ok(Expr::Tpl(template(alloc, built, Box::into_inner(t))?)),
        node => assemble_operation(alloc, built, node),
    }
}

/// An operation with one operand, or one of the nodes after it.
fn assemble_operation<F: Spanned + Drop, C: Spanned + Drop, K: Spanned + Drop>(
    alloc: Global,
    built: &mut Vec<Built<F, C, K>>,
    node: Node<F, C, K>,
) -> Result<Expr<F, C, K>, AllocError>
    requires offers { Offers (slots node) built.old.items }
    requires operation { is_operation node ≡ true }
    ensures { AssemblesExpr F.place C.place K.place node built.old.items result built.new.items }
{
    match node {
        Node::Unary { span, op, arg } => {
            let arg = pop_expr(built, arg);
            Ok(Expr::Unary { span, op, arg })
        }
        Node::Update {
            span,
            op,
            prefix,
            arg,
        } => {
            let arg = pop_expr(built, arg);
            Ok(Expr::Update {
                span,
                op,
                prefix,
                arg,
            })
        }
        Node::Await { span, arg } => {
            let arg = pop_expr(built, arg);
            Ok(Expr::Await { span, arg })
        }
        Node::Yield {
            span,
            arg,
            delegate,
        } => {
            let arg = pop_if_some(built, arg);
            Ok(Expr::Yield {
                span,
                arg,
                delegate,
            })
        }
        node => assemble_choice(alloc, built, node),
    }
}

/// An operation with two operands or three, or one of the nodes after it.
fn assemble_choice<F: Spanned + Drop, C: Spanned + Drop, K: Spanned + Drop>(
    alloc: Global,
    built: &mut Vec<Built<F, C, K>>,
    node: Node<F, C, K>,
) -> Result<Expr<F, C, K>, AllocError>
    requires offers { Offers (slots node) built.old.items }
    requires choice { is_choice node ≡ true }
    ensures { AssemblesExpr F.place C.place K.place node built.old.items result built.new.items }
{
    match node {
        Node::Bin {
            span,
            op,
            left,
            right,
        } => {
            let right = pop_expr(built, right);
            let left = pop_expr(built, left);
            Ok(Expr::Bin {
                span,
                op,
                left,
                right,
            })
        }
        Node::Assign {
            span,
            op,
            left,
            right,
        } => {
            let right = pop_expr(built, right);
            let left = pop_target(built, left);
            Ok(Expr::Assign {
                span,
                op,
                left,
                right,
            })
        }
        Node::Cond {
            span,
            test,
            cons,
            alt,
        } => Ok(conditional(built, span, test, cons, alt)),
        node => assemble_call(alloc, built, node),
    }
}

/// A conditional.
fn conditional<F: Spanned + Drop, C: Spanned + Drop, K: Spanned + Drop>(
    built: &mut Vec<Built<F, C, K>>,
    span: Span,
    test: ExprId,
    consequent: ExprId,
    alt: ExprId,
) -> Expr<F, C, K>
    requires { Offers (one_expr test ++ one_expr consequent ++ one_expr alt) built.old.items }
    ensures { Assembles F.place C.place K.place (one_expr test ++ one_expr consequent ++ one_expr alt)
        (λ boxed number. expr_tree _ _ _ F.place C.place K.place result ≡ node cond span (cons (number test)
        (cons (number consequent) (cons (number alt) nil)))) built.old.items built.new.items }
{
    let alt = pop_expr(built, alt);
    let cons = pop_expr(built, consequent);
    let test = pop_expr(built, test);
    Expr::Cond {
        span,
        test,
        cons,
        alt,
    }
}

/// A call, an arrow function, or an operand that was refused.
fn assemble_call<F: Spanned + Drop, C: Spanned + Drop, K: Spanned + Drop>(
    alloc: Global,
    built: &mut Vec<Built<F, C, K>>,
    node: Node<F, C, K>,
) -> Result<Expr<F, C, K>, AllocError>
    requires offers { Offers (slots node) built.old.items }
    requires call { is_call node ≡ true }
    ensures { AssemblesExpr F.place C.place K.place node built.old.items result built.new.items }
{
    match node {
        Node::Call { span, callee, args } => {
            let args = all(alloc, built, args)?;
            let callee = pop_callee(built, callee);
            Ok(Expr::Call { span, callee, args })
        }
        Node::New { span, callee, args } => {
            let args = args_if_some(alloc, built, args)?;
            let callee = pop_expr(built, callee);
            Ok(Expr::New { span, callee, args })
        }
        Node::TaggedTpl { span, tag, tpl } => {
            let tpl = boxed(alloc, template(alloc, built, Box::into_inner(tpl)))?;
            let tag = pop_expr(built, tag);
            Ok(Expr::TaggedTpl { span, tag, tpl })
        }
        Node::Arrow {
            span,
            params,
            body,
            is_async,
        } => {
            let body = boxed(alloc, Ok(arrow_body(built, Box::into_inner(body))));
            let params = all(alloc, built, params);
            let (params, body) = both(params, body)?;
            Ok(Expr::Arrow {
                span,
                params,
                body,
                is_async,
            })
        }
        node => {
            let span = into_invalid(node).unwrap().span;
            Ok(Expr::Invalid(Invalid { span }))
        }
    }
}

/// A pattern, from its node.
pub(crate) fn assemble_pat<F: Spanned + Drop, C: Spanned + Drop, K: Spanned + Drop>(
    alloc: Global,
    built: &mut Vec<Built<F, C, K>>,
    node: Node<F, C, K>,
) -> Result<Pat<F, C, K>, AllocError>
    requires offers { Offers (slots node) built.old.items }
    requires pat { view_ok pat (form node) ≡ true }
    ensures { IfOk result (λ y. Assembled F.place C.place K.place (slots node) (λ at. pat_tree _ _ _ F.place C.place
        K.place y ≡ node_tree F.place C.place K.place at node) built.old.items built.new.items) }
{
    match node {
        Node::PatIdent(b) => Ok(Pat::Ident(b)),
        Node::PatArray { span, elems } => {
            let elems = all(alloc, built, elems)?;
            Ok(Pat::Array { span, elems })
        }
        Node::PatObject { span, props } => {
            let props = all(alloc, built, props)?;
            Ok(Pat::Object { span, props })
        }
        Node::PatRest {
            span,
            dot3_token,
            arg,
        } => {
            let arg = boxed_pat(alloc, built, arg)?;
            Ok(Pat::Rest(RestPat {
                span,
                dot3_token,
                arg,
            }))
        }
        Node::PatAssign { span, left, right } => {
            let right = pop_expr(built, right);
            let left = boxed_part(alloc, built, left);
            let (left, right) = both(left, Ok(right))?;
            Ok(Pat::Assign { span, left, right })
        }
        Node::PatExpr(id) => Ok(Pat::Expr(pop_expr(built, id))),
        node => Ok(Pat::Invalid(into_invalid_pat(node).unwrap())),
    }
}

/// What is left of an assignment operator, from its node.
pub(crate) fn assemble_target<F: Spanned + Drop, C: Spanned + Drop, K: Spanned + Drop>(
    alloc: Global,
    built: &mut Vec<Built<F, C, K>>,
    node: Node<F, C, K>,
) -> Result<AssignTarget<F, C, K>, AllocError>
    requires offers { Offers (slots node) built.old.items }
    requires target { is_target (form node) ≡ true }
    ensures { IfOk result (λ y. Assembled F.place C.place K.place (slots node) (λ at. target_tree _ _ _ F.place C.place
        K.place y ≡ node_tree F.place C.place K.place at node) built.old.items built.new.items) }
{
    match node {
        Node::PatArray { span, elems } => {
            let elems = all(alloc, built, elems)?;
            Ok(AssignTarget::Array { span, elems })
        }
        Node::PatObject { span, props } => {
            let props = all(alloc, built, props)?;
            Ok(AssignTarget::Object { span, props })
        }
        Node::Ident(id) => Ok(AssignTarget::Simple(SimpleAssignTarget::Ident(BindingIdent { id }))),
        Node::Member(m) => Ok(AssignTarget::Simple(SimpleAssignTarget::Member(member(built, m)))),
        Node::SuperProp(p) => Ok(AssignTarget::Simple(SimpleAssignTarget::SuperProp(super_prop(
            built, p,
        )))),
        Node::Paren(p) => Ok(AssignTarget::Simple(SimpleAssignTarget::Paren(paren(built, p)))),
        node => {
            let chain = chain(alloc, built, into_chain(node).unwrap())?;
            Ok(AssignTarget::Simple(SimpleAssignTarget::OptChain(chain)))
        }
    }
}

/// The optional chain that a node is; a node of another kind comes back.
#[tactic(auto, using(crate::proofs::OtherKinds::not_chain))]
fn into_chain<F, C, K>(node: Node<F, C, K>) -> Result<OptChainExpr<ExprId>, Node<F, C, K>>
    ensures { MatchResult result (λ chain. node ≡ nodes.OptChain chain) (λ other. is_chain node ≡ false) }
{
    match node {
        Node::OptChain(chain) => Ok(chain),
        other => Err(other),
    }
}

/// The operand that was refused that a node is; a node of another kind comes back.
#[tactic(auto, using(crate::proofs::OtherKinds::not_invalid))]
fn into_invalid<F, C, K>(node: Node<F, C, K>) -> Result<InvalidNode, Node<F, C, K>>
    ensures { MatchResult result (λ invalid. node ≡ nodes.Invalid invalid) (λ other. is_invalid node ≡ false) }
{
    match node {
        Node::Invalid(invalid) => Ok(invalid),
        other => Err(other),
    }
}

/// The pattern that was refused that a node is; a node of another kind comes back.
#[tactic(auto, using(crate::proofs::OtherKinds::not_invalid_pat))]
fn into_invalid_pat<F, C, K>(node: Node<F, C, K>) -> Result<Invalid, Node<F, C, K>>
    ensures { MatchResult result (λ invalid. node ≡ nodes.PatInvalid invalid)
        (λ other. is_invalid_pat node ≡ false) }
{
    match node {
        Node::PatInvalid(invalid) => Ok(invalid),
        other => Err(other),
    }
}
