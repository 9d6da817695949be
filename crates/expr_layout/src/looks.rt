// What nodes look like, as far as layouts depend on it.
use swc_ast::expr::{BlockStmtOrExpr, Callee, ExprOrSpread, MemberProp, OptChainBase, Tpl};
use swc_ast::spanned::Spanned;
use swc_context::operator::BinaryOp;
use swc_nodes::node::{ExprId, Node};
use swc_nodes::nodes::Nodes;

/// An expression without the parentheses around it.
pub(crate) fn bare<B: Spanned + Drop>(nodes: &Nodes<B, B, B>, expr: ExprId) -> ExprId {
    let mut bare = expr;
    for _ in 0..nodes.len() {
        match nodes.node(bare) {
            Some(Node::Paren(paren)) => bare = paren.expr,
            _ => break,
        }
    }
    bare
}

/// An expression without the words and signs before it.
pub(crate) fn without_prefix<B: Spanned + Drop>(nodes: &Nodes<B, B, B>, expr: ExprId) -> ExprId {
    let mut inner = expr;
    for _ in 0..nodes.len() {
        match nodes.node(inner) {
            Some(
                Node::Unary { arg, .. }
                | Node::Await { arg, .. }
                | Node::Yield { arg: Some(arg), .. },
            ) => inner = *arg,
            _ => break,
        }
    }
    inner
}

/// Whether it is `&&`, `||` or `??`.
pub(crate) fn is_logical(op: BinaryOp) -> bool {
    op.precedence() <= BinaryOp::LogicalAnd.precedence()
}

/// The operator of an expression of two operands.
pub(crate) fn operator_of<B: Spanned + Drop>(
    nodes: &Nodes<B, B, B>,
    expr: ExprId,
) -> Option<BinaryOp> {
    match nodes.node(expr) {
        Some(Node::Bin { op, .. }) => Some(*op),
        _ => None,
    }
}

/// Whether an operator is one of such a kind, if parentheses around it don't count.
pub(crate) fn is_of_kind<B: Spanned + Drop>(
    nodes: &Nodes<B, B, B>,
    expr: ExprId,
    is_of_logic: bool,
) -> bool {
    match operator_of(nodes, bare(nodes, expr)) {
        Some(op) => is_logical(op) == is_of_logic,
        None => false,
    }
}

/// Whether an operator goes on with the group of the one that it is the left operand of.
pub(crate) fn goes_on(op: BinaryOp, left: BinaryOp) -> bool {
    let is_same = op == left;
    match left {
        BinaryOp::EqEq | BinaryOp::NotEq | BinaryOp::EqEqEq | BinaryOp::NotEqEq => false,
        BinaryOp::LShift | BinaryOp::RShift | BinaryOp::ZeroFillRShift | BinaryOp::Exp => false,
        BinaryOp::Mul | BinaryOp::Div | BinaryOp::Mod => is_same,
        _ => op.precedence() == left.precedence(),
    }
}

/// Whether an operator is `&&`, `||` or `??` before an object or an array that holds something.
pub(crate) fn is_inlined<B: Spanned + Drop>(
    nodes: &Nodes<B, B, B>,
    op: BinaryOp,
    right: ExprId,
) -> bool {
    is_logical(op) && is_full(nodes, right)
}

/// Whether it is an object or an array that holds something.
pub(crate) fn is_full<B: Spanned + Drop>(nodes: &Nodes<B, B, B>, expr: ExprId) -> bool {
    match nodes.node(expr) {
        Some(Node::Object { props, .. }) => !props.is_empty(),
        Some(Node::Array { elems, .. }) => !elems.is_empty(),
        _ => false,
    }
}

/// Whether it is an operator that may begin a line after what is before it.
pub(crate) fn is_broken_operator<B: Spanned + Drop>(nodes: &Nodes<B, B, B>, expr: ExprId) -> bool {
    match nodes.node(expr) {
        Some(Node::Bin { op, right, .. }) => !is_inlined(nodes, *op, *right),
        _ => false,
    }
}

pub(crate) fn is_bin<B: Spanned + Drop>(nodes: &Nodes<B, B, B>, expr: ExprId) -> bool {
    operator_of(nodes, expr).is_some()
}

pub(crate) fn is_cond<B: Spanned + Drop>(nodes: &Nodes<B, B, B>, expr: ExprId) -> bool {
    matches!(nodes.node(expr), Some(Node::Cond { .. }))
}

/// Whether it is a number, with a sign or without.
pub(crate) fn is_number<B: Spanned + Drop>(nodes: &Nodes<B, B, B>, expr: ExprId) -> bool {
    match nodes.node(expr) {
        Some(Node::Num(_)) => true,
        Some(Node::Unary { arg, .. }) => matches!(nodes.node(*arg), Some(Node::Num(_))),
        _ => false,
    }
}

/// Whether it is a function, or an arrow function with a block.
pub(crate) fn has_block<B: Spanned + Drop>(nodes: &Nodes<B, B, B>, expr: ExprId) -> bool {
    match nodes.node(expr) {
        Some(Node::Fn(_)) => true,
        Some(Node::Arrow { body, .. }) => matches!(**body, BlockStmtOrExpr::BlockStmt(_)),
        _ => false,
    }
}

pub(crate) fn is_function<B: Spanned + Drop>(nodes: &Nodes<B, B, B>, expr: ExprId) -> bool {
    matches!(nodes.node(expr), Some(Node::Fn(_) | Node::Arrow { .. }))
}

/// Whether one of the texts of a template, which may have a tag, has a line break.
pub(crate) fn is_long_template<B: Spanned + Drop>(nodes: &Nodes<B, B, B>, expr: ExprId) -> bool {
    match nodes.node(expr) {
        Some(Node::Tpl(tpl) | Node::TaggedTpl { tpl, .. }) => has_break(tpl),
        _ => false,
    }
}

fn has_break(tpl: &Tpl<ExprId>) -> bool {
    tpl.quasis
        .iter()
        .any(|text| text.raw.as_str().contains('\n'))
}

/// The arguments of a call, if it is one; those of `new`, too.
pub(crate) fn arguments_of<B: Spanned + Drop>(
    node: &Node<B, B, B>,
) -> Option<&Vec<ExprOrSpread<ExprId>>> {
    match node {
        Node::Call { args, .. }
        | Node::New {
            args: Some(args),
            ..
        } => Some(args),
        Node::OptChain(chain) => match &*chain.base {
            OptChainBase::Call(call) => Some(&call.args),
            OptChainBase::Member(_) => None,
        },
        _ => None,
    }
}

/// What a node is a link of.
pub(crate) fn object_of<B: Spanned + Drop>(node: &Node<B, B, B>) -> Option<ExprId> {
    match node {
        Node::Member(member) => Some(member.obj),
        Node::Call {
            callee: Callee::Expr(callee),
            ..
        } => Some(*callee),
        Node::TaggedTpl { tag, .. } => Some(*tag),
        Node::OptChain(chain) => match &*chain.base {
            OptChainBase::Member(member) => Some(member.obj),
            OptChainBase::Call(call) => Some(call.callee),
        },
        _ => None,
    }
}

/// The member that a node is, if it is one.
pub(crate) fn member_of<B: Spanned + Drop>(node: &Node<B, B, B>) -> Option<&MemberProp<ExprId>> {
    match node {
        Node::Member(member) => Some(&member.prop),
        Node::OptChain(chain) => match &*chain.base {
            OptChainBase::Member(member) => Some(&member.prop),
            OptChainBase::Call(_) => None,
        },
        _ => None,
    }
}

/// Whether a node is a call of something; of `new`, `super` and `import` it isn't.
pub(crate) fn is_call<B: Spanned + Drop>(node: &Node<B, B, B>) -> bool {
    arguments_of(node).is_some() && object_of(node).is_some()
}

/// Whether it is a name.
pub(crate) fn is_name<B: Spanned + Drop>(nodes: &Nodes<B, B, B>, expr: ExprId) -> bool {
    matches!(nodes.node(expr), Some(Node::Ident(_)))
}

/// Whether it is the name `require`.
pub(crate) fn is_require<B: Spanned + Drop>(nodes: &Nodes<B, B, B>, expr: ExprId) -> bool {
    match nodes.node(expr) {
        Some(Node::Ident(name)) => name.sym.as_str() == "require",
        _ => false,
    }
}

/// Whether it is a member of a name, or a member of such a one.
pub(crate) fn is_member_of_name<B: Spanned + Drop>(nodes: &Nodes<B, B, B>, expr: ExprId) -> bool {
    let mut at = expr;
    for _ in 0..nodes.len() {
        match nodes.node(at) {
            Some(node) if member_of(node).is_some() => match object_of(node) {
                Some(object) if is_name(nodes, object) => return true,
                Some(object) => at = object,
                None => return false,
            },
            _ => return false,
        }
    }
    false
}

/// How many columns an expression takes on one line.
pub(crate) fn width_of<B: Spanned + Drop>(nodes: &Nodes<B, B, B>, expr: ExprId) -> usize {
    match nodes.span_of(expr) {
        Some(span) => (span.hi.0 as usize).saturating_sub(span.lo.0 as usize),
        None => 0,
    }
}

/// The arguments of a call that has the number.
pub(crate) fn arguments_at<B: Spanned + Drop>(
    nodes: &Nodes<B, B, B>,
    expr: ExprId,
) -> Option<&Vec<ExprOrSpread<ExprId>>> {
    match nodes.node(expr) {
        Some(node) => arguments_of(node),
        None => None,
    }
}

/// The member that the link that has the number is.
pub(crate) fn member_at<B: Spanned + Drop>(
    nodes: &Nodes<B, B, B>,
    expr: ExprId,
) -> Option<&MemberProp<ExprId>> {
    match nodes.node(expr) {
        Some(node) => member_of(node),
        None => None,
    }
}
