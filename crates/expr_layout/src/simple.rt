// Arguments that are simple enough for a chain of three calls or more to be on one line.
use crate::looks::{arguments_of, has_block, is_long_template, member_of, object_of};
use std::alloc::{AllocError, Global};
use swc_ast::expr::{ExprOrSpread, MemberProp};
use swc_ast::prop::PropName;
use swc_ast::spanned::Spanned;
use swc_context::operator::UnaryOp;
use swc_nodes::node::{ExprId, Node, PropNode};
use swc_nodes::nodes::Nodes;

/// In how many calls a call that is simple may be.
const CALLS: usize = 2;

/// A part that is to be simple, and in how many calls it is.
#[derive(Clone, Copy)]
struct Due {
    expr: ExprId,
    calls: usize,
}

/// Whether arguments are simple: names, literals, functions with blocks, and what is made of simple ones without other
/// functions.
pub(crate) fn are_simple<B: Spanned + Drop>(
    alloc: Global,
    nodes: &Nodes<B, B, B>,
    args: &[ExprOrSpread<ExprId>],
) -> Result<bool, AllocError> {
    let mut due = Vec::new(alloc);
    for arg in args {
        if arg.spread.is_some() {
            return Ok(false);
        }
        due.push(Due {
            expr: arg.expr,
            calls: 0,
        })?;
    }
    for _ in 0..nodes.len() {
        match due.pop() {
            Some(part) if !is_simple(nodes, part, &mut due)? => return Ok(false),
            Some(_) => {}
            None => break,
        }
    }
    Ok(true)
}

/// Whether a part may be simple. Adds its parts, which have to be, too.
fn is_simple<B: Spanned + Drop>(
    nodes: &Nodes<B, B, B>,
    part: Due,
    due: &mut Vec<Due>,
) -> Result<bool, AllocError> {
    let Some(node) = nodes.node(part.expr) else {
        return Ok(false);
    };
    match node {
        Node::Regex(regex) => Ok(regex.exp.as_str().len() <= 5),
        Node::Tpl(tpl) if !is_long_template(nodes, part.expr) => {
            push_all(due, &tpl.exprs, part.calls)?;
            Ok(true)
        }
        Node::Unary {
            op: UnaryOp::Bang | UnaryOp::Minus,
            arg,
            ..
        } => {
            push(due, *arg, part.calls)?;
            Ok(true)
        }
        Node::Array { elems, .. } => push_elems(due, elems, part.calls),
        Node::Object { props, .. } => push_props(due, props, part.calls),
        Node::New { callee, .. } => {
            push(due, *callee, part.calls)?;
            is_simple_call(due, node, part)
        }
        _ if object_of(node).is_some() => is_simple_link(due, node, part),
        _ => Ok(is_leaf(node) || has_block(nodes, part.expr)),
    }
}

/// Whether it is a name, a word or a literal.
fn is_leaf<B: Spanned + Drop>(node: &Node<B, B, B>) -> bool {
    matches!(
        node,
        Node::This(_)
            | Node::Ident(_)
            | Node::PrivateName(_)
            | Node::MetaProp(_)
            | Node::SuperProp(_)
            | Node::Str(_)
            | Node::Bool(_)
            | Node::Null(_)
            | Node::Num(_)
            | Node::BigInt(_)
    )
}

/// Whether a link of a chain may be simple.
fn is_simple_link<B: Spanned + Drop>(
    due: &mut Vec<Due>,
    node: &Node<B, B, B>,
    part: Due,
) -> Result<bool, AllocError> {
    if let Some(object) = object_of(node) {
        push(due, object, part.calls)?;
    }
    match member_of(node) {
        Some(MemberProp::Computed(key)) => push(due, key.expr, part.calls)?,
        Some(_) => {}
        None => return is_simple_call(due, node, part),
    }
    Ok(true)
}

fn is_simple_call<B: Spanned + Drop>(
    due: &mut Vec<Due>,
    node: &Node<B, B, B>,
    part: Due,
) -> Result<bool, AllocError> {
    match arguments_of(node) {
        Some(args) if part.calls < CALLS => { push_args(due, args, part.calls.saturating_add(1)) }
        Some(_) => Ok(false),
        None => Ok(matches!(node, Node::New { .. })),
    }
}

fn push(due: &mut Vec<Due>, expr: ExprId, calls: usize) -> Result<(), AllocError> {
    due.push(Due { expr, calls })?;
    Ok(())
}

fn push_all(due: &mut Vec<Due>, exprs: &[ExprId], calls: usize) -> Result<(), AllocError> {
    for expr in exprs {
        push(due, *expr, calls)?;
    }
    Ok(())
}

/// Adds arguments, unless one is spread. Answers whether none is.
fn push_args(
    due: &mut Vec<Due>,
    args: &[ExprOrSpread<ExprId>],
    calls: usize,
) -> Result<bool, AllocError> {
    for arg in args {
        if arg.spread.is_some() {
            return Ok(false);
        }
        push(due, arg.expr, calls)?;
    }
    Ok(true)
}

/// The same with the elements of an array.
fn push_elems(
    due: &mut Vec<Due>,
    elems: &[Option<ExprOrSpread<ExprId>>],
    calls: usize,
) -> Result<bool, AllocError> {
    for elem in elems {
        if let Some(elem) = elem {
            if elem.spread.is_some() {
                return Ok(false);
            }
            push(due, elem.expr, calls)?;
        }
    }
    Ok(true)
}

/// Adds the values of an object, unless one is spread, or a key is computed. Answers whether none is.
fn push_props<B: Spanned + Drop>(
    due: &mut Vec<Due>,
    props: &[PropNode<B>],
    calls: usize,
) -> Result<bool, AllocError> {
    for prop in props {
        match prop {
            PropNode::KeyValue {
                key: PropName::Computed(_),
                ..
            }
            | PropNode::Spread(_)
            | PropNode::Assign(_) => return Ok(false),
            PropNode::KeyValue { value, .. } => push(due, *value, calls)?,
            _ => {}
        }
    }
    Ok(true)
}
