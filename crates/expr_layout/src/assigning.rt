// What is noted at assignments, at variables and fields with values, and at values of properties.
use crate::arguments::is_import;
use crate::chains::chain_of;
use crate::looks::{
    arguments_at, arguments_of, is_broken_operator, is_long_template, is_member_of_name, is_name,
    is_require, member_of, object_of, width_of, without_prefix,
};
use layout_document::marks::{Gap, Group, LINE, Marks, When};
use layout_document::roles::{Lines, Role};
use std::alloc::{AllocError, Global};
use swc_ast::expr::{BlockStmtOrExpr, Callee};
use swc_ast::spanned::Spanned;
use swc_context::span::Span;
use swc_nodes::node::{ExprId, Node, PatId, PatPropNode, TargetNode};
use swc_nodes::nodes::Nodes;

/// What is after `=`, or after `:` in an object.
#[derive(Clone, Copy)]
pub struct Assigned {
    right: ExprId,
    /// How wide the key is, of a property.
    key: Option<usize>,
    /// The left side is a pattern that is broken rather than the right side.
    is_complex: bool,
    role: Role,
}

impl Assigned {
    /// The value of a property.
    pub(crate) fn value(key: Span, right: ExprId) -> Assigned {
        let width = (key.hi.0 as usize).saturating_sub(key.lo.0 as usize);
        Assigned {
            right,
            key: Some(width),
            is_complex: false,
            role: Role::Plain,
        }
    }

    /// The value of a field.
    pub fn field(right: ExprId) -> Assigned {
        Assigned {
            right,
            key: None,
            is_complex: false,
            role: Role::Right,
        }
    }

    /// The value of a variable, or of what is declared by a pattern.
    pub fn variable<B: Spanned + Drop>(
        nodes: &Nodes<B, B, B>,
        left: PatId,
        right: ExprId,
    ) -> Assigned {
        Assigned {
            is_complex: is_complex(nodes, left),
            ..Assigned::field(right)
        }
    }
}

/// Whether a pattern has more than two properties, and one of them has more than a name.
fn is_complex<B: Spanned + Drop>(nodes: &Nodes<B, B, B>, pat: PatId) -> bool {
    match nodes.node(pat) {
        Some(Node::PatObject { props, .. }) => {
            2 < props.len()
                && props.iter().any(|prop| match prop {
                    PatPropNode::KeyValue { .. } => true,
                    PatPropNode::Assign { value, .. } => value.is_some(),
                    PatPropNode::Rest { .. } => false,
                })
        }
        _ => false,
    }
}

/// Notes an assignment.
pub(crate) fn mark_assignment<B: Spanned + Drop>(
    alloc: Global,
    marks: &mut Marks,
    nodes: &Nodes<B, B, B>,
    assignment: ExprId,
    left: TargetNode,
    right: ExprId,
) -> Result<(), AllocError> {
    let role = marks.role(assignment);
    let (Some(place), Some(operand)) = (nodes.span_of(assignment), nodes.span_of(right)) else {
        return Ok(());
    };
    if let TargetNode::Simple(target) = left {
        marks.set_role(target, Role::Target);
    }
    let begins = role == Role::Statement && is_assignment_twice(nodes, right);
    if role == Role::Chained || begins {
        if begins {
            marks.add_group_at(place);
        }
        marks.set_operator(operand.lo, Gap::Blank, LINE);
        marks.set_role(right, chained_role(nodes, right));
        return Ok(());
    }
    let assigned = match left {
        TargetNode::Pat(pat) => Assigned {
            role: Role::Target,
            ..Assigned::variable(nodes, pat, right)
        },
        TargetNode::Simple(target) if is_name(nodes, target) => Assigned::field(right),
        TargetNode::Simple(_) => Assigned {
            role: Role::Target,
            ..Assigned::field(right)
        },
    };
    mark_assigned(alloc, marks, nodes, assigned)
}

/// Whether it is an assignment of an assignment.
fn is_assignment_twice<B: Spanned + Drop>(nodes: &Nodes<B, B, B>, expr: ExprId) -> bool {
    match nodes.node(expr) {
        Some(Node::Assign { right, .. }) => is_assignment(nodes, *right),
        _ => false,
    }
}

fn is_assignment<B: Spanned + Drop>(nodes: &Nodes<B, B, B>, expr: ExprId) -> bool {
    matches!(nodes.node(expr), Some(Node::Assign { .. }))
}

/// What the right side of an assignment in a chain of them is.
fn chained_role<B: Spanned + Drop>(nodes: &Nodes<B, B, B>, right: ExprId) -> Role {
    match nodes.node(right) {
        Some(Node::Assign { .. }) => Role::Chained,
        Some(Node::Bin { .. }) => Role::Lined(Lines::Level),
        _ => Role::Plain,
    }
}

/// Notes what is assigned: where it doesn't go on the line of what is before it, it begins a line, or is broken itself.
pub fn mark_assigned<B: Spanned + Drop>(
    alloc: Global,
    marks: &mut Marks,
    nodes: &Nodes<B, B, B>,
    assigned: Assigned,
) -> Result<(), AllocError> {
    let right = assigned.right;
    let Some(place) = nodes.span_of(right) else {
        return Ok(());
    };
    let before = match assigned.key {
        Some(_) => Gap::Nothing,
        None => Gap::Blank,
    };
    if is_curried(nodes, right) {
        marks.set_operator(place.lo, before, LINE);
        marks.add_signed(place, Group::Arguments);
        marks.set_role(right, Role::Curried);
        return Ok(());
    }
    let when = when_broken(alloc, marks, nodes, assigned)?;
    let after = when.map_or(Gap::Blank, |when| Gap::line_when(true, true, when));
    marks.set_operator(place.lo, before, after);
    if when.is_some() {
        let sign = marks.before(place.lo);
        marks.add_group(sign, marks.before(place.hi));
    }
    let role = match nodes.node(right) {
        Some(Node::Bin { .. }) => Role::Lined(Lines::Level),
        Some(node) if object_of(node).is_some() => assigned.role,
        _ => Role::Plain,
    };
    marks.set_role(right, role);
    Ok(())
}

/// Where what is assigned begins a line, if it may.
fn when_broken<B: Spanned + Drop>(
    alloc: Global,
    marks: &Marks,
    nodes: &Nodes<B, B, B>,
    assigned: Assigned,
) -> Result<Option<When>, AllocError> {
    let right = assigned.right;
    let inner = without_prefix(nodes, right);
    let is_key = assigned.key.is_some();
    let is_short =
        matches!(assigned.key, Some(width) if width < marks.style.indent.saturating_add(3));
    if assigned.is_complex || is_assignment(nodes, right) {
        return Ok(None);
    }
    if is_broken_operator(nodes, right) || is_broken_test(nodes, right) {
        return Ok(Some(When::Broken));
    }
    if matches!(nodes.node(inner), Some(Node::Str(_))) || is_member_of_name(nodes, inner) {
        return Ok(Some(When::Broken).filter(|_| !is_short));
    }
    let is_word = matches!(nodes.node(right), Some(Node::Ident(_) | Node::This(_)));
    let is_paren = !is_key && matches!(nodes.node(right), Some(Node::Paren(_)));
    if is_paren || is_short && is_word || stays(nodes, right) {
        return Ok(None);
    }
    if is_hardly_broken(alloc, marks, nodes, inner)? {
        return Ok(Some(When::Broken));
    }
    Ok(Some(When::Needed))
}

/// Whether it is a `?` after an operator that may begin a line.
fn is_broken_test<B: Spanned + Drop>(nodes: &Nodes<B, B, B>, expr: ExprId) -> bool {
    match nodes.node(expr) {
        Some(Node::Cond { test, .. }) => is_broken_operator(nodes, *test),
        _ => false,
    }
}

/// Whether it is never on a line of its own.
fn stays<B: Spanned + Drop>(nodes: &Nodes<B, B, B>, expr: ExprId) -> bool {
    match nodes.node(expr) {
        Some(
            Node::Tpl(_) | Node::TaggedTpl { .. } | Node::Num(_) | Node::Bool(_) | Node::Class(_),
        ) => true,
        Some(
            Node::Call {
                callee: Callee::Expr(callee),
                ..
            },
        ) => is_require(nodes, *callee),
        _ => false,
    }
}

/// Whether it is an arrow function that returns another one.
fn is_curried<B: Spanned + Drop>(nodes: &Nodes<B, B, B>, expr: ExprId) -> bool {
    match nodes.node(expr) {
        Some(Node::Arrow { body, .. }) => match &**body {
            BlockStmtOrExpr::Expr(body) => matches!(nodes.node(*body), Some(Node::Arrow { .. })),
            BlockStmtOrExpr::BlockStmt(_) => false,
        },
        _ => false,
    }
}

/// Whether it is a chain without places to break it: its calls have no arguments, or one that is short.
fn is_hardly_broken<B: Spanned + Drop>(
    alloc: Global,
    marks: &Marks,
    nodes: &Nodes<B, B, B>,
    expr: ExprId,
) -> Result<bool, AllocError> {
    let mut at = expr;
    let mut is_chain = false;
    for _ in 0..nodes.len() {
        let Some(node) = nodes.node(at) else {
            return Ok(false);
        };
        let is_short = match arguments_of(node) {
            Some(args) => match args.as_slice() {
                [] => true,
                [arg] if is_import(node) => matches!(nodes.node(arg.expr), Some(Node::Str(_))),
                [arg] => is_short_argument(marks, nodes, arg.expr),
                _ => false,
            },
            None => member_of(node).is_some(),
        };
        match object_of(node) {
            Some(object) if is_short => at = object,
            Some(_) => return Ok(false),
            None if is_import(node) && is_short => break,
            None if is_chain && matches!(node, Node::Ident(_) | Node::This(_)) => break,
            None => return Ok(false),
        }
        is_chain = true;
    }
    let ends_with_call = arguments_at(nodes, expr).is_some();
    Ok(!ends_with_call || !chain_of(alloc, marks, nodes, expr, Role::Plain)?.breaks())
}

/// Whether an argument is short: a word or a literal of at most a quarter of the line.
fn is_short_argument<B: Spanned + Drop>(
    marks: &Marks,
    nodes: &Nodes<B, B, B>,
    arg: ExprId,
) -> bool {
    let inner = match nodes.node(arg) {
        Some(Node::Unary { arg, .. }) => *arg,
        _ => arg,
    };
    let is_short = width_of(nodes, inner) <= marks.style.width / 4;
    match nodes.node(inner) {
        Some(Node::This(_) | Node::Num(_) | Node::Bool(_) | Node::Null(_) | Node::BigInt(_)) =>
            true,
        Some(Node::Ident(_) | Node::Str(_)) => is_short,
        Some(Node::Regex(regex)) => regex.exp.as_str().len() <= 5,
        Some(Node::Tpl(tpl)) => {
            is_short && tpl.exprs.is_empty() && !is_long_template(nodes, inner)
        }
        Some(Node::Object { props, .. }) => props.is_empty(),
        Some(Node::Array { elems, .. }) => elems.is_empty(),
        _ => false,
    }
}
