// What is noted at arrays, objects and parameters, and at what is in them.
use crate::arguments::is_of_numbers;
use crate::assigning::{Assigned, mark_assigned};
use crate::inner_bodies::body_of;
use layout_document::marks::{BARE, Gap, Marks, PLAIN, Shape};
use layout_document::roles::Role;
use layout_document::units::Kind;
use std::alloc::{AllocError, Global};
use swc_ast::expr::ExprOrSpread;
use swc_ast::prop::PropName;
use swc_ast::spanned::Spanned;
use swc_context::span::{BytePos, Span};
use swc_nodes::node::{ExprId, Node, PatElem, PatId, PatPart, PatPropNode, PropNode};
use swc_nodes::nodes::Nodes;

/// Notes an array that holds something.
pub(crate) fn mark_array<B: Spanned + Drop>(
    marks: &mut Marks,
    nodes: &Nodes<B, B, B>,
    array: ExprId,
    place: Span,
    elems: &[Option<ExprOrSpread<ExprId>>],
) {
    let ends_full = matches!(elems.last(), Some(Some(_)));
    let shape = Shape {
        has_comma: ends_full && marks.takes_commas(),
        is_filled: is_of_numbers(nodes, array),
        is_broken: are_rows(nodes, elems),
        ..PLAIN
    };
    marks.shape(marks.at(place.lo), shape);
}

/// Whether elements are two or more, each an object, or each an array, that holds two things or more.
fn are_rows<B: Spanned + Drop>(
    nodes: &Nodes<B, B, B>,
    elems: &[Option<ExprOrSpread<ExprId>>],
) -> bool {
    let (mut objects, mut arrays) = (0usize, 0usize);
    for elem in elems.iter().flatten() {
        match nodes.node(elem.expr) {
            Some(Node::Object { props, .. }) if elem.spread.is_none() && 1 < props.len() => {
                objects = objects.saturating_add(1)
            }
            Some(Node::Array { elems, .. }) if elem.spread.is_none() && 1 < elems.len() => {
                arrays = arrays.saturating_add(1)
            }
            _ => {}
        }
    }
    1 < elems.len() && (objects == elems.len() || arrays == elems.len())
}

/// Notes an object that holds something: one that is broken after `{` in the text stays so.
pub(crate) fn mark_object<B: Spanned + Drop>(
    alloc: Global,
    marks: &mut Marks,
    nodes: &Nodes<B, B, B>,
    place: Span,
    props: &[PropNode<B>],
) -> Result<(), AllocError> {
    let first = marks.at(place.lo);
    let shape = Shape {
        has_comma: marks.takes_commas(),
        is_broken: marks.is_at_line(first.saturating_add(1)),
        ..PLAIN
    };
    marks.shape(first, shape);
    for prop in props {
        mark_prop(alloc, marks, nodes, prop)?;
    }
    Ok(())
}

/// Notes a property.
fn mark_prop<B: Spanned + Drop>(
    alloc: Global,
    marks: &mut Marks,
    nodes: &Nodes<B, B, B>,
    prop: &PropNode<B>,
) -> Result<(), AllocError> {
    match prop {
        PropNode::KeyValue { key, value, .. } => {
            mark_key(marks, key);
            mark_assigned(alloc, marks, nodes, Assigned::value(key.span(), *value))?;
        }
        PropNode::Assign(prop) => set_blanks(marks, nodes, prop.value),
        PropNode::Getter { key, .. } => mark_word(marks, key, 0),
        PropNode::Setter { key, param, .. } => {
            mark_word(marks, key, 0);
            mark_params(marks, nodes, key.span().lo, &[*param]);
        }
        PropNode::Method { key, function } => {
            if function.is_async {
                mark_word(marks, key, usize::from(function.is_generator));
            }
            mark_key(marks, key);
            let mut params = Vec::new(alloc);
            for param in &function.params {
                params.push(param.pat)?;
            }
            mark_params(marks, nodes, key.span().lo, &params);
        }
        _ => {}
    }
    if let Some(body) = body_of(prop) {
        marks.set_at(body.lo, Gap::Blank);
    }
    Ok(())
}

/// Notes a blank between a word and a key, with so many signs before it.
fn mark_word(marks: &mut Marks, key: &PropName<ExprId>, signs: usize) {
    let number = marks.at(key.span().lo).saturating_sub(signs);
    marks.set(number, Gap::Blank);
    mark_key(marks, key);
}

/// Notes that the brackets of a key are no group.
pub fn mark_key(marks: &mut Marks, key: &PropName<ExprId>) {
    if let PropName::Computed(key) = key {
        marks.shape(marks.at(key.span.lo), BARE);
    }
}

/// Notes a pattern of an array that holds something.
pub(crate) fn mark_pat_array<B: Spanned + Drop>(
    marks: &mut Marks,
    nodes: &Nodes<B, B, B>,
    place: Span,
    elems: &[Option<PatElem>],
) {
    let ends_full = match elems.last() {
        Some(Some(PatElem::Item(part))) => !is_rest(nodes, *part),
        _ => false,
    };
    let shape = Shape {
        has_comma: ends_full && marks.takes_commas(),
        ..PLAIN
    };
    marks.shape(marks.at(place.lo), shape);
}

fn is_rest<B: Spanned + Drop>(nodes: &Nodes<B, B, B>, part: PatPart) -> bool {
    match part {
        PatPart::Pat(pat) => matches!(nodes.node(pat), Some(Node::PatRest { .. })),
        PatPart::Expr(_) => false,
    }
}

/// Notes a pattern of an object that holds something.
pub(crate) fn mark_pat_object<B: Spanned + Drop>(
    marks: &mut Marks,
    nodes: &Nodes<B, B, B>,
    pat: ExprId,
    place: Span,
    props: &[PatPropNode],
) {
    let ends_rest = matches!(props.last(), Some(PatPropNode::Rest { .. }));
    let is_broken = marks.role(pat) != Role::Parameter
        && props.iter().any(|prop| has_pattern(nodes, prop));
    let shape = Shape {
        is_broken,
        has_comma: !ends_rest && marks.takes_commas(),
        ..PLAIN
    };
    marks.shape(marks.at(place.lo), shape);
    for prop in props {
        match prop {
            PatPropNode::KeyValue { key, .. } => {
                marks.set(marks.at(key.span().hi).saturating_add(1), Gap::Blank);
                mark_key(marks, key);
            }
            PatPropNode::Assign {
                value: Some(value),
                ..
            } => set_blanks(marks, nodes, *value),
            _ => {}
        }
    }
}

/// Whether the value of a property is a pattern with brackets, and has no default.
fn has_pattern<B: Spanned + Drop>(nodes: &Nodes<B, B, B>, prop: &PatPropNode) -> bool {
    match prop {
        PatPropNode::KeyValue {
            value: PatPart::Pat(value),
            ..
        } => matches!(
            nodes.node(*value),
            Some(Node::PatObject { .. } | Node::PatArray { .. })
        ),
        _ => false,
    }
}

/// Notes the parameters of a function that begins at the position. An arrow function may have one without brackets.
pub fn mark_params<B: Spanned + Drop>(
    marks: &mut Marks,
    nodes: &Nodes<B, B, B>,
    start: BytePos,
    params: &[PatId],
) {
    let (Some(first), Some(last)) = (params.first(), params.last()) else {
        return;
    };
    for param in params {
        marks.set_role(ExprId(param.0), Role::Parameter);
    }
    let Some(place) = nodes.span_of(*first) else {
        return;
    };
    let bracket = marks.before(place.lo);
    if marks.at(start) <= bracket && marks.kind(bracket) == Kind::OpenParen {
        let is_bare = params.len() == 1 && is_hugged(nodes, *first);
        let has_comma = marks.takes_all_commas() && !is_rest(nodes, PatPart::Pat(*last));
        marks.shape(
            bracket,
            Shape {
                is_bare,
                has_comma,
                ..PLAIN
            },
        );
    }
}

/// Whether a parameter that is the only one is a pattern whose brackets stay at those of the parameters.
fn is_hugged<B: Spanned + Drop>(nodes: &Nodes<B, B, B>, param: PatId) -> bool {
    match nodes.node(param) {
        Some(Node::PatObject { .. } | Node::PatArray { .. }) => true,
        Some(
            Node::PatAssign {
                left: PatPart::Pat(left),
                right,
                ..
            },
        ) => {
            let is_pattern = matches!(
                nodes.node(*left),
                Some(Node::PatObject { .. } | Node::PatArray { .. })
            );
            is_pattern && is_short_default(nodes, *right)
        }
        _ => false,
    }
}

fn is_short_default<B: Spanned + Drop>(nodes: &Nodes<B, B, B>, expr: ExprId) -> bool {
    match nodes.node(expr) {
        Some(Node::Ident(_)) => true,
        Some(Node::Object { props, .. }) => props.is_empty(),
        Some(Node::Array { elems, .. }) => elems.is_empty(),
        _ => false,
    }
}

/// Notes a blank on each side of an operator.
pub(crate) fn set_blanks<B: Spanned + Drop>(
    marks: &mut Marks,
    nodes: &Nodes<B, B, B>,
    operand: ExprId,
) {
    if let Some(place) = nodes.span_of(operand) {
        marks.set_operator(place.lo, Gap::Blank, Gap::Blank);
    }
}
