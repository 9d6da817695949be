// What is noted at arguments.
use crate::looks::{
    bare, has_block, is_call, is_cond, is_full, is_function, is_long_template, is_number,
    is_require,
};
use layout_document::marks::{BARE, Marks, PLAIN, Place, Shape};
use layout_document::roles::Role;
use layout_document::units::Kind;
use swc_ast::expr::{BlockStmtOrExpr, Callee, ExprOrSpread};
use swc_ast::spanned::Spanned;
use swc_context::span::{BytePos, Span};
use swc_nodes::node::{ExprId, Node};
use swc_nodes::nodes::Nodes;

/// Notes the arguments of a call.
pub(crate) fn mark_arguments<B: Spanned + Drop>(
    marks: &mut Marks,
    nodes: &Nodes<B, B, B>,
    call: &Node<B, B, B>,
    args: &[ExprOrSpread<ExprId>],
) {
    let Some(start) = args.first().and_then(|arg| start_of(nodes, arg)) else {
        return;
    };
    let bracket = marks.before(start);
    let is_import = is_import(call);
    if is_loading(nodes, call, args) {
        return marks.shape(bracket, BARE);
    }
    let is_broken = !is_import && are_functions(nodes, args);
    let hugged = if is_broken {
        None
    } else {
        hugged(marks, nodes, args)
    };
    if let Some((unit, place)) = hugged {
        marks.set_place(unit, place);
    }
    marks.shape(
        bracket,
        Shape {
            has_comma: marks.takes_all_commas() && !is_import,
            hugs: hugged.is_some(),
            is_broken,
            ..PLAIN
        },
    );
    for arg in args {
        marks.set_role(arg.expr, Role::Argument);
    }
}

/// Whether a node is `import(..)`.
pub(crate) fn is_import<B: Spanned + Drop>(node: &Node<B, B, B>) -> bool {
    matches!(
        node,
        Node::Call {
            callee: Callee::Import(_),
            ..
        }
    )
}

/// Where an argument begins.
fn start_of<B: Spanned + Drop>(
    nodes: &Nodes<B, B, B>,
    arg: &ExprOrSpread<ExprId>,
) -> Option<BytePos> {
    match arg.spread {
        Some(dots) => Some(dots.lo),
        None => Some(nodes.span_of(arg.expr)?.lo),
    }
}

/// Whether it is `require("a")` or `import("a")`.
fn is_loading<B: Spanned + Drop>(
    nodes: &Nodes<B, B, B>,
    call: &Node<B, B, B>,
    args: &[ExprOrSpread<ExprId>],
) -> bool {
    let loads = match call {
        Node::Call {
            callee: Callee::Import(_),
            ..
        } => true,
        Node::Call {
            callee: Callee::Expr(callee),
            ..
        } => is_require(nodes, *callee),
        _ => false,
    };
    match args {
        [arg] if loads => matches!(nodes.node(arg.expr), Some(Node::Str(_))),
        _ => false,
    }
}

/// Whether two arguments or more are functions, or one is a call that has one.
fn are_functions<B: Spanned + Drop>(nodes: &Nodes<B, B, B>, args: &[ExprOrSpread<ExprId>]) -> bool {
    let functions = args
        .iter()
        .filter(|arg| is_plain_function(nodes, arg))
        .count();
    1 < args.len() && (1 < functions || args.iter().any(|arg| calls_with_function(nodes, arg)))
}

fn is_plain_function<B: Spanned + Drop>(
    nodes: &Nodes<B, B, B>,
    arg: &ExprOrSpread<ExprId>,
) -> bool {
    arg.spread.is_none() && is_function(nodes, arg.expr)
}

fn calls_with_function<B: Spanned + Drop>(
    nodes: &Nodes<B, B, B>,
    arg: &ExprOrSpread<ExprId>,
) -> bool {
    match nodes.node(arg.expr) {
        Some(
            Node::Call {
                callee: Callee::Expr(_),
                args,
                ..
            }
            | Node::New {
                args: Some(args),
                ..
            },
        ) => arg.spread.is_none() && args.iter().any(|arg| is_plain_function(nodes, arg)),
        _ => false,
    }
}

/// What kind of argument can be broken while others stay on the line.
#[derive(Clone, Copy, PartialEq, Eq)]
enum Huggable {
    Object,
    Array,
    Function,
    Arrow,
}

/// What kind of argument it is, if it can be broken while others stay on the line.
fn huggable_as<B: Spanned + Drop>(
    nodes: &Nodes<B, B, B>,
    arg: &ExprOrSpread<ExprId>,
) -> Option<Huggable> {
    if arg.spread.is_some() {
        return None;
    }
    match nodes.node(arg.expr)? {
        Node::Object { props, .. } if !props.is_empty() => Some(Huggable::Object),
        Node::Array { elems, .. } if !elems.is_empty() => Some(Huggable::Array),
        Node::Fn(_) => Some(Huggable::Function),
        Node::Arrow { body, .. } if has_open_body(nodes, body) => Some(Huggable::Arrow),
        _ => None,
    }
}

/// Whether the body of an arrow function can be broken.
fn has_open_body<B: Spanned + Drop>(
    nodes: &Nodes<B, B, B>,
    body: &BlockStmtOrExpr<ExprId, B>,
) -> bool {
    let BlockStmtOrExpr::Expr(expr) = body else {
        return true;
    };
    match nodes.node(bare(nodes, *expr)) {
        Some(Node::Arrow { .. } | Node::Object { .. } | Node::Array { .. } | Node::Cond { .. }) => {
            true
        }
        Some(node) => is_call(node),
        None => false,
    }
}

/// The place after which the one argument can be broken that may be so while the others stay on the line: the last, or
/// a function before another that can't.
fn hugged<B: Spanned + Drop>(
    marks: &Marks,
    nodes: &Nodes<B, B, B>,
    args: &[ExprOrSpread<ExprId>],
) -> Option<(usize, Place)> {
    let (first, last) = (args.first()?, args.last()?);
    let is_alone = args.len() == 1;
    let is_pair = args.len() == 2;
    let before = args
        .len()
        .checked_sub(2)
        .and_then(|number| args.get(number));
    match huggable_as(nodes, last) {
        _ if is_alone && is_open_template(marks, nodes, last.expr) => {
            template_place(marks, nodes, last.expr)
        }
        Some(_) if is_like_last(nodes, before, last) => None,
        Some(Huggable::Array) if is_pair && is_arrow(nodes, first.expr) => {
            place_of(marks, nodes, first.expr).filter(|_| is_effect(nodes, first, last))
        }
        Some(Huggable::Array) if !is_alone && is_of_numbers(nodes, last.expr) => None,
        Some(_) => place_of(marks, nodes, last.expr),
        None if is_pair && is_first_hugged(nodes, first, last) => {
            place_of(marks, nodes, first.expr)
        }
        None => None,
    }
}

/// Whether the argument before the last, if there is one, is of its kind.
fn is_like_last<B: Spanned + Drop>(
    nodes: &Nodes<B, B, B>,
    before: Option<&ExprOrSpread<ExprId>>,
    last: &ExprOrSpread<ExprId>,
) -> bool {
    let Some(before) = before.filter(|before| before.spread.is_none()) else {
        return false;
    };
    match (nodes.node(before.expr), nodes.node(last.expr)) {
        (Some(Node::Object { .. }), Some(Node::Object { .. }))
        | (Some(Node::Array { .. }), Some(Node::Array { .. }))
        | (Some(Node::Fn(_)), Some(Node::Fn(_)))
        | (Some(Node::Arrow { .. }), Some(Node::Arrow { .. })) => true,
        _ => false,
    }
}

fn is_arrow<B: Spanned + Drop>(nodes: &Nodes<B, B, B>, expr: ExprId) -> bool {
    matches!(nodes.node(expr), Some(Node::Arrow { .. }))
}

/// Whether arguments are as in `useEffect(() => {..}, [a, b])`.
fn is_effect<B: Spanned + Drop>(
    nodes: &Nodes<B, B, B>,
    first: &ExprOrSpread<ExprId>,
    last: &ExprOrSpread<ExprId>,
) -> bool {
    let is_plain = match nodes.node(first.expr) {
        Some(Node::Arrow { params, .. }) => params.is_empty() && has_block(nodes, first.expr),
        _ => false,
    };
    match nodes.node(last.expr) {
        Some(Node::Array { elems, .. }) => {
            is_plain
                && elems.iter().all(|elem| match elem {
                    Some(elem) => huggable_as(nodes, elem).is_none(),
                    None => false,
                })
        }
        _ => false,
    }
}

/// Whether an array holds two numbers or more, and nothing else.
pub(crate) fn is_of_numbers<B: Spanned + Drop>(nodes: &Nodes<B, B, B>, expr: ExprId) -> bool {
    match nodes.node(expr) {
        Some(Node::Array { elems, .. }) => {
            1 < elems.len()
                && elems.iter().all(|elem| match elem {
                    Some(elem) => elem.spread.is_none() && is_number(nodes, elem.expr),
                    None => false,
                })
        }
        _ => false,
    }
}

/// Whether the first of two arguments is a function with a block, and the second is nothing that can be broken.
fn is_first_hugged<B: Spanned + Drop>(
    nodes: &Nodes<B, B, B>,
    first: &ExprOrSpread<ExprId>,
    second: &ExprOrSpread<ExprId>,
) -> bool {
    first.spread.is_none()
        && has_block(nodes, first.expr)
        && huggable_as(nodes, second).is_none()
        && !is_function(nodes, second.expr)
        && !is_cond(nodes, second.expr)
}

/// Whether a template has a line break in its text, and begins on the line of what is before it.
pub(crate) fn is_open_template<B: Spanned + Drop>(
    marks: &Marks,
    nodes: &Nodes<B, B, B>,
    expr: ExprId,
) -> bool {
    match nodes.span_of(expr) {
        Some(span) => is_long_template(nodes, expr) && !marks.is_at_line(marks.at(span.lo)),
        None => false,
    }
}

/// The place after the first sign of a template.
fn template_place<B: Spanned + Drop>(
    marks: &Marks,
    nodes: &Nodes<B, B, B>,
    expr: ExprId,
) -> Option<(usize, Place)> {
    match nodes.node(expr)? {
        Node::Tpl(tpl) | Node::TaggedTpl { tpl, .. } => {
            Some((marks.at(tpl.span.lo), Place::After))
        }
        _ => None,
    }
}

/// The place after which an argument can be broken.
fn place_of<B: Spanned + Drop>(
    marks: &Marks,
    nodes: &Nodes<B, B, B>,
    arg: ExprId,
) -> Option<(usize, Place)> {
    let mut at = arg;
    for _ in 0..nodes.len() {
        let span = nodes.span_of(at)?;
        let body = match nodes.node(at)? {
            Node::Fn(function) => return Some(body_place(marks, function.span())),
            Node::Arrow { body, .. } => &**body,
            _ => return Some((marks.at(span.lo), Place::After)),
        };
        let expr = match body {
            BlockStmtOrExpr::BlockStmt(block) => return Some(body_place(marks, block.span())),
            BlockStmtOrExpr::Expr(expr) => *expr,
        };
        let inner = bare(nodes, expr);
        if !is_full(nodes, inner) && !is_arrow(nodes, inner) {
            return Some((marks.before(nodes.span_of(expr)?.lo), Place::After));
        }
        at = inner;
    }
    None
}

/// The place after the `{` of a function or a block; before it where that is one unit.
fn body_place(marks: &Marks, place: Span) -> (usize, Place) {
    let first = marks.at(place.lo);
    for number in first..marks.at(place.hi) {
        if marks.kind(number) == Kind::OpenBody {
            return (number, Place::After);
        }
    }
    (first, Place::Before)
}
