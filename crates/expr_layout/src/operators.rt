// What is noted at expressions: at operators, arrow functions and words, and by other modules at what else they are.
use crate::arguments::{is_open_template, mark_arguments};
use crate::assigning::mark_assignment;
use crate::chains::mark_chain;
use crate::lists::{
    mark_array, mark_object, mark_params, mark_pat_array, mark_pat_object, set_blanks,
};
use crate::looks::{
    arguments_of, bare, goes_on, is_bin, is_cond, is_inlined, is_logical, is_of_kind, member_of,
    object_of, operator_of,
};
use layout_document::marks::{BARE, Gap, Group, LINE, Marks, PLAIN, Place, Shape};
use layout_document::roles::{Lines, Role};
use layout_document::units::Kind;
use std::alloc::{AllocError, Global};
use swc_ast::expr::{BlockStmtOrExpr, MemberProp, Tpl};
use swc_ast::spanned::Spanned;
use swc_context::operator::{BinaryOp, UnaryOp};
use swc_context::span::{BytePos, Span};
use swc_nodes::node::{ExprId, Node, PatPart};
use swc_nodes::nodes::Nodes;
use swc_nodes::reached::reached;

/// Notes what is known of each node that is reached from the expression.
pub fn mark_nodes<B: Spanned + Drop>(
    alloc: Global,
    marks: &mut Marks,
    nodes: &Nodes<B, B, B>,
    expr: ExprId,
) -> Result<(), AllocError> {
    let found = reached(nodes, &expr)?;
    for part in found.iter().rev() {
        mark_node(alloc, marks, nodes, part.number())?;
    }
    Ok(())
}

/// Notes what is known of all nodes, of which each is after its parts.
pub fn mark_all_nodes<B: Spanned + Drop>(
    alloc: Global,
    marks: &mut Marks,
    nodes: &Nodes<B, B, B>,
) -> Result<(), AllocError> {
    for number in (0..nodes.len()).rev() {
        mark_node(alloc, marks, nodes, number)?;
    }
    Ok(())
}

/// Notes what is known of a node, which is noted before its parts.
fn mark_node<B: Spanned + Drop>(
    alloc: Global,
    marks: &mut Marks,
    nodes: &Nodes<B, B, B>,
    number: usize,
) -> Result<(), AllocError> {
    let expr = ExprId(number);
    let Some(node) = nodes.node(expr) else {
        return Ok(());
    };
    match node {
        Node::Assign { left, right, .. } => {
            mark_assignment(alloc, marks, nodes, expr, *left, *right)?
        }
        Node::Object { span, props, .. } if !props.is_empty() => {
            mark_object(alloc, marks, nodes, *span, props)?
        }
        Node::Array { span, elems, .. } if !elems.is_empty() => {
            mark_array(marks, nodes, expr, *span, elems)
        }
        Node::PatObject { span, props } if !props.is_empty() => {
            mark_pat_object(marks, nodes, expr, *span, props)
        }
        Node::PatArray { span, elems } if !elems.is_empty() => {
            mark_pat_array(marks, nodes, *span, elems)
        }
        Node::PatAssign {
            left: PatPart::Pat(left),
            ..
        } => {
            marks.set_role(ExprId(left.0), Role::Parameter);
            mark_operator(marks, nodes, expr, node)
        }
        _ if object_of(node).is_some() => mark_link(alloc, marks, nodes, expr, node)?,
        _ => mark_operator(marks, nodes, expr, node),
    }
    Ok(())
}

/// Notes a link of a chain, and the chain at its last link.
fn mark_link<B: Spanned + Drop>(
    alloc: Global,
    marks: &mut Marks,
    nodes: &Nodes<B, B, B>,
    expr: ExprId,
    node: &Node<B, B, B>,
) -> Result<(), AllocError> {
    if marks.role(expr) != Role::Link {
        mark_chain(alloc, marks, nodes, expr)?;
    }
    if let Some(args) = arguments_of(node) {
        mark_arguments(marks, nodes, node, args);
    }
    if let Node::TaggedTpl { tpl, .. } = node {
        mark_template(marks, nodes, tpl);
    }
    if let Some(MemberProp::Computed(key)) = member_of(node) {
        if matches!(nodes.node(key.expr), Some(Node::Num(_))) {
            marks.shape(marks.at(key.span.lo), BARE);
        }
    }
    Ok(())
}

/// Notes what is no assignment, list or link.
fn mark_operator<B: Spanned + Drop>(
    marks: &mut Marks,
    nodes: &Nodes<B, B, B>,
    expr: ExprId,
    node: &Node<B, B, B>,
) {
    match node {
        Node::Bin {
            op,
            left,
            right,
            ..
        } => mark_bin(marks, nodes, expr, *op, *left, *right),
        Node::Cond {
            test,
            cons,
            alt,
            ..
        } => mark_cond(marks, nodes, expr, *test, *cons, *alt),
        Node::Paren(paren) => mark_paren(marks, nodes, expr, paren.span, paren.expr),
        Node::Arrow {
            span,
            params,
            body,
            is_async,
        } => {
            if *is_async {
                marks.set(marks.at(span.lo).saturating_add(1), Gap::Blank);
            }
            mark_params(marks, nodes, span.lo, params);
            mark_arrow_body(marks, nodes, expr, body);
        }
        Node::Tpl(tpl) => mark_template(marks, nodes, tpl),
        _ => mark_words(marks, nodes, node),
    }
}

/// Notes the blanks of what has words or signs before an operand, and that of a default value.
fn mark_words<B: Spanned + Drop>(marks: &mut Marks, nodes: &Nodes<B, B, B>, node: &Node<B, B, B>) {
    match node {
        Node::Unary { op, arg, .. } => {
            if matches!(op, UnaryOp::TypeOf | UnaryOp::Void | UnaryOp::Delete) {
                set_blank(marks, nodes, *arg);
            }
            let inner = bare(nodes, *arg);
            if !is_bin(nodes, inner) && !is_cond(nodes, inner) {
                marks.set_role(*arg, Role::Operand);
            }
        }
        Node::Await { arg, .. } | Node::Yield { arg: Some(arg), .. } => {
            set_blank(marks, nodes, *arg)
        }
        Node::New { callee, .. } => {
            set_blank(marks, nodes, *callee);
            marks.set_role(*callee, Role::Target);
        }
        Node::PatAssign { right, .. } => set_blanks(marks, nodes, *right),
        _ => {}
    }
    if let Some(args) = arguments_of(node) {
        mark_arguments(marks, nodes, node, args);
    }
}

/// Notes a blank before an expression.
fn set_blank<B: Spanned + Drop>(marks: &mut Marks, nodes: &Nodes<B, B, B>, expr: ExprId) {
    if let Some(place) = nodes.span_of(expr) {
        marks.set_at(place.lo, Gap::Blank);
    }
}

/// Notes an operator of two operands: the line after it, the group of operands of the same precedence, and that of the
/// operator with its right operand, where these are alone.
fn mark_bin<B: Spanned + Drop>(
    marks: &mut Marks,
    nodes: &Nodes<B, B, B>,
    expr: ExprId,
    op: BinaryOp,
    left: ExprId,
    right: ExprId,
) {
    let (Some(place), Some(operand)) = (nodes.span_of(expr), nodes.span_of(right)) else {
        return;
    };
    let role = marks.role(expr);
    let (lines, is_within) = match role {
        Role::Lined(lines) => (lines, false),
        Role::Within(lines) => (lines, true),
        _ => (Lines::Deeper, false),
    };
    let logic = is_logical(op);
    let is_inlined = is_inlined(nodes, op, right);
    let is_under = role == Role::Under { is_logical: logic };
    let is_alone = !is_inlined && !is_within && !is_under && !(logic && lines == Lines::Test);
    let is_alone = is_alone && !is_of_kind(nodes, left, logic) && !is_of_kind(nodes, right, logic);
    let is_deeper = lines == Lines::Deeper || lines == Lines::Test && !is_alone;
    let after = if is_inlined {
        Gap::Blank
    } else {
        Gap::line(true, is_deeper)
    };
    marks.set_operator(operand.lo, Gap::Blank, after);
    if !is_within && lines != Lines::Test {
        marks.add_group_at(place);
    }
    if is_alone {
        let sign = marks.before(operand.lo);
        marks.add_group(sign, marks.before(operand.hi));
    }
    mark_operands(marks, nodes, op, lines, left, right);
}

/// Notes what the operands of an operator are.
fn mark_operands<B: Spanned + Drop>(
    marks: &mut Marks,
    nodes: &Nodes<B, B, B>,
    op: BinaryOp,
    lines: Lines,
    left: ExprId,
    right: ExprId,
) {
    let under = Role::Under {
        is_logical: is_logical(op),
    };
    let first = match operator_of(nodes, left) {
        Some(before) if goes_on(op, before) => Role::Within(lines),
        Some(_) => under,
        None => Role::Operand,
    };
    let second = if is_bin(nodes, right) {
        under
    } else {
        Role::Operand
    };
    marks.set_role(left, first);
    marks.set_role(right, second);
}

/// Notes `a ? b : c`.
fn mark_cond<B: Spanned + Drop>(
    marks: &mut Marks,
    nodes: &Nodes<B, B, B>,
    expr: ExprId,
    test: ExprId,
    cons: ExprId,
    alt: ExprId,
) {
    let Some(place) = nodes.span_of(expr) else {
        return;
    };
    let role = marks.role(expr);
    if role == Role::Nested {
        marks.add_outer_at(place, Group::Nested);
    } else {
        marks.add_group_at(place);
    }
    let tested = match role {
        _ if !is_bin(nodes, test) => Role::Operand,
        Role::Result | Role::Argument => Role::Plain,
        _ => Role::Lined(Lines::Level),
    };
    marks.set_role(test, tested);
    mark_branch(marks, nodes, cons);
    mark_branch(marks, nodes, alt);
}

/// Notes `? b` or `: c`.
fn mark_branch<B: Spanned + Drop>(marks: &mut Marks, nodes: &Nodes<B, B, B>, branch: ExprId) {
    let Some(place) = nodes.span_of(branch) else {
        return;
    };
    marks.set_operator(place.lo, LINE, Gap::Blank);
    if is_cond(nodes, branch) {
        return marks.set_role(branch, Role::Nested);
    }
    marks.add_outer_at(place, Group::Operand);
    if is_bin(nodes, branch) {
        marks.set_role(branch, Role::Lined(Lines::Level));
    }
}

/// Notes parentheses: those of an operand, and those around other brackets, are no group.
fn mark_paren<B: Spanned + Drop>(
    marks: &mut Marks,
    nodes: &Nodes<B, B, B>,
    expr: ExprId,
    place: Span,
    inner: ExprId,
) {
    let role = marks.role(expr);
    let holds_brackets = matches!(
        nodes.node(inner),
        Some(
            Node::Object { .. }
                | Node::Array { .. }
                | Node::Arrow { .. }
                | Node::Fn(_)
                | Node::Class(_)
                | Node::Paren(_)
                | Node::Assign { .. }
        )
    );
    if role == Role::Operand || holds_brackets {
        marks.shape(marks.at(place.lo), BARE);
        if role == Role::Statement && !is_bin(nodes, inner) {
            marks.set_role(inner, Role::Statement);
        }
    } else if is_bin(nodes, inner) {
        marks.set_role(inner, Role::Lined(Lines::Level));
    }
}

/// Notes the body of an arrow function: it begins a line, unless it is a block, a list, another arrow function, or a
/// long template.
fn mark_arrow_body<B: Spanned + Drop>(
    marks: &mut Marks,
    nodes: &Nodes<B, B, B>,
    arrow: ExprId,
    body: &BlockStmtOrExpr<ExprId, B>,
) {
    let is_curried = marks.role(arrow) == Role::Curried;
    let expr = match body {
        BlockStmtOrExpr::BlockStmt(block) => {
            if is_curried {
                mark_curried_end(marks, block.span().lo);
            }
            return marks.set_operator(block.span().lo, Gap::Blank, Gap::Blank);
        }
        BlockStmtOrExpr::Expr(expr) => *expr,
    };
    let Some(place) = nodes.span_of(expr) else {
        return;
    };
    if is_curried && matches!(nodes.node(expr), Some(Node::Arrow { .. })) {
        marks.set_role(expr, Role::Curried);
        return marks.set_operator(place.lo, Gap::Blank, LINE);
    }
    if is_curried {
        mark_curried_end(marks, place.lo);
    }
    let inner = bare(nodes, expr);
    let is_list = matches!(
        nodes.node(inner),
        Some(Node::Object { .. } | Node::Array { .. } | Node::Arrow { .. })
    );
    if is_list || is_open_template(marks, nodes, expr) {
        marks.set_operator(place.lo, Gap::Blank, Gap::Blank);
    } else {
        marks.set_operator(place.lo, Gap::Blank, LINE);
        let group = if is_curried {
            Group::Returned
        } else {
            Group::Parts
        };
        marks.add_signed(place, group);
    }
    if is_bin(nodes, expr) {
        marks.set_role(expr, Role::Lined(Lines::Level));
    }
}

/// Notes where the signatures of arrow functions end that return one another: after the last `=>`, or the `{` after it.
fn mark_curried_end(marks: &mut Marks, body: BytePos) {
    let first = marks.at(body);
    let last = if marks.kind(first) == Kind::OpenBody {
        first
    } else {
        first.saturating_sub(1)
    };
    marks.set_place(last, Place::After);
}

/// Notes which expressions of a template begin lines, where the text has line breaks around them.
fn mark_template<B: Spanned + Drop>(marks: &mut Marks, nodes: &Nodes<B, B, B>, tpl: &Tpl<ExprId>) {
    for expr in &tpl.exprs {
        let has_lines = match nodes.node(*expr) {
            Some(Node::Bin { .. } | Node::Cond { .. } | Node::Seq { .. }) => true,
            Some(node) => member_of(node).is_some(),
            None => false,
        };
        if let Some(place) = nodes.span_of(*expr).filter(|_| has_lines) {
            let shape = Shape { has_lines, ..PLAIN };
            marks.shape(marks.before(place.lo), shape);
        }
        if is_bin(nodes, *expr) {
            marks.set_role(*expr, Role::Lined(Lines::Level));
        }
    }
}
