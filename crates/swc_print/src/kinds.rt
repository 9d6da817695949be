// The pieces of the text of a node, by its kind.
ghost use Rattle.std.specs.Prelude.{◌≡◌, ◌++◌, ◌∷◌, [], true, OnOk};
ghost use Rattle.swc_nodes.specs.NodeParts.{target_part};
ghost use Rattle.swc_print.specs.Numbers.{Lays, numbers, shown, is_operation, is_infix};

use crate::items::{put_list, put_pat_part};
use crate::links::{
    put_arrow, put_call, put_chain, put_member, put_new, put_super_prop, put_tagged, put_tpl,
    put_yield,
};
use crate::pieces::{Owner, Pieces, put_after, put_in, put_kept, put_named, put_text, put_two};
use crate::print::Kept;
use std::alloc::AllocError;
use swc_ast::expr::MetaPropKind;
use swc_ast::lit::Regex;
use swc_nodes::node::{Node, TargetNode};

/// Appends the pieces of the text of a node.
pub fn put_node<'a, F: Kept, C: Kept, K: Kept>(
    pieces: &mut Pieces<'a>,
    node: &'a Node<F, C, K>,
) -> Result<(), AllocError>
    ensures { Lays (shown node.now) pieces.old result pieces.new }
{
    match node {
        Node::Array { elems, .. } => put_list(pieces, "Array[", elems, "]"),
        Node::Object { props, .. } => put_list(pieces, "Object{", props, "}"),
        Node::Seq { exprs, .. } => put_list(pieces, "Seq(", exprs, ")"),
        Node::PatArray { elems, .. } => put_list(pieces, "Array[", elems, "]"),
        Node::PatObject { props, .. } => put_list(pieces, "Object{", props, "}"),
        Node::Member(m) => put_member(pieces, m, Owner::Other),
        Node::SuperProp(p) => put_super_prop(pieces, p),
        Node::Call { callee, args, .. } => put_call(pieces, callee, args),
        Node::New { callee, args, .. } => put_new(pieces, *callee, args),
        Node::OptChain(c) => put_chain(pieces, c.optional, &c.base),
        Node::Tpl(t) => put_tpl(pieces, t),
        Node::TaggedTpl { tag, tpl, .. } => put_tagged(pieces, *tag, tpl),
        Node::Arrow {
            params,
            body,
            is_async,
            ..
        } => put_arrow(pieces, params, body, *is_async),
        Node::Yield { arg, delegate, .. } => put_yield(pieces, arg, *delegate),
        Node::This(_)
        | Node::Fn(_)
        | Node::Class(_)
        | Node::MetaProp(_)
        | Node::PrivateName(_)
        | Node::Ident(_)
        | Node::Str(_)
        | Node::Bool(_)
        | Node::Null(_)
        | Node::Num(_)
        | Node::BigInt(_)
        | Node::Regex(_)
        | Node::Invalid(_)
        | Node::PatIdent(_)
        | Node::PatInvalid(_) => put_leaf(pieces, node),
        _ => put_operation(pieces, node),
    }
}

/// Appends the pieces of a node that has no parts.
fn put_leaf<'a, F: Kept, C: Kept, K>(
    pieces: &mut Pieces<'a>,
    node: &'a Node<F, C, K>,
) -> Result<(), AllocError>
    ensures { OnOk result (numbers pieces.new.waiting.items ≡ numbers pieces.old.waiting.items) }
{
    match node {
        Node::This(_) => put_text(pieces, "this"),
        Node::Fn(f) => put_kept(pieces, "Fn", f.kept()),
        Node::Class(c) => put_kept(pieces, "Class", c.kept()),
        Node::MetaProp(m) => put_text(pieces, meta_prop_text(&m.kind)),
        Node::PrivateName(p) => put_named(pieces, "#", p.name.as_str()),
        Node::Ident(i) => put_text(pieces, i.sym.as_str()),
        Node::PatIdent(b) => put_text(pieces, b.id.sym.as_str()),
        Node::Str(s) => put_text(pieces, s.raw.as_str()),
        Node::Bool(b) => put_text(pieces, if b.value { "true" } else { "false" }),
        Node::Null(_) => put_text(pieces, "null"),
        Node::Num(n) => put_text(pieces, n.raw.as_str()),
        Node::BigInt(n) => put_text(pieces, n.raw.as_str()),
        Node::Regex(r) => put_regex(pieces, r),
        _ => put_text(pieces, "Invalid"),
    }
}

/// Appends the pieces of a node with one to three parts, and names or words between them.
fn put_operation<'a, F, C, K>(
    pieces: &mut Pieces<'a>,
    node: &'a Node<F, C, K>,
) -> Result<(), AllocError>
    requires { is_operation node.now ≡ true }
    ensures { Lays (shown node.now) pieces.old result pieces.new }
{
    match node {
        Node::Unary { op, arg, .. } => put_operator(pieces, "Unary(", op.as_str(), arg.0),
        Node::Update {
            op,
            prefix,
            arg,
            ..
        } => {
            let open = if *prefix { "Prefix(" } else { "Postfix(" };
            put_operator(pieces, open, op.as_str(), arg.0)
        }
        Node::Paren(p) => put_in(pieces, "Paren(", p.expr.0),
        Node::Await { arg, .. } => put_in(pieces, "Await(", arg.0),
        Node::PatRest { arg, .. } => put_in(pieces, "Rest(", arg.0),
        Node::PatAssign { left, right, .. } => {
            put_text(pieces, "Assign(")?;
            put_pat_part(pieces, *left)?;
            put_in(pieces, ", ", right.0)
        }
        Node::PatExpr(e) => put_in(pieces, "Expr(", e.0),
        _ => put_infix(pieces, node),
    }
}

/// Appends the pieces of a binary operation, an assignment or a conditional.
fn put_infix<'a, F, C, K>(
    pieces: &mut Pieces<'a>,
    node: &'a Node<F, C, K>,
) -> Result<(), AllocError>
    requires { is_infix node.now ≡ true }
    ensures { Lays (shown node.now) pieces.old result pieces.new }
{
    match node {
        Node::Bin {
            op,
            left,
            right,
            ..
        } => {
            put_named(pieces, "Bin(", op.as_str())?;
            put_two(pieces, ", ", left.0, right.0)
        }
        Node::Assign {
            op,
            left,
            right,
            ..
        } => {
            put_named(pieces, "Assign(", op.as_str())?;
            put_two(pieces, ", ", target_number(left), right.0)
        }
        Node::Cond {
            test,
            cons,
            alt,
            ..
        } => {
            put_after(pieces, "Cond(", test.0)?;
            put_two(pieces, ", ", cons.0, alt.0)
        }
        _ => unreachable!(),
    }
}

fn put_operator<'a>(
    pieces: &mut Pieces<'a>,
    open: &'a str,
    op: &'a str,
    number: usize,
) -> Result<(), AllocError>
    ensures { OnOk result (numbers pieces.new.waiting.items ≡ numbers pieces.old.waiting.items ++ number ∷ []) }
{
    put_named(pieces, open, op)?;
    put_in(pieces, ", ", number)
}

fn put_regex<'a>(pieces: &mut Pieces<'a>, regex: &'a Regex) -> Result<(), AllocError>
    ensures { OnOk result (numbers pieces.new.waiting.items ≡ numbers pieces.old.waiting.items) }
{
    put_named(pieces, "/", regex.exp.as_str())?;
    put_named(pieces, "/", regex.flags.as_str())
}

pub(crate) fn target_number(target: &TargetNode) -> usize
    ensures { result ≡ (target_part target.now).at }
{
    match target {
        TargetNode::Simple(e) => e.0,
        TargetNode::Pat(p) => p.0,
    }
}

fn meta_prop_text(kind: &MetaPropKind) -> &'static str {
    match kind {
        MetaPropKind::NewTarget => "new.target",
        MetaPropKind::ImportMeta => "import.meta",
    }
}
