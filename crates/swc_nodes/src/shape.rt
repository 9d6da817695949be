// Where a node is, and what form it has.
ghost use Rattle.std.specs.Prelude.{◌≡◌, not, true, false, MatchOption, ℕ};
ghost use Rattle.swc_context.specs.Spans.{in_order};
ghost use Rattle.swc_ast.specs.Targets as targets;
ghost use Rattle.swc_ast.specs.{Tree.span_of, Tree.Tree, Trees.left_ok};
ghost use Rattle.swc_ast.specs.Trees as trees;
ghost use Rattle.swc_nodes.specs.Lists.{has_cover, is_object, IsObject};
ghost use Rattle.swc_nodes.specs.NodeParts.{expr_part, pat_part, target_part, part_parts, form, view_ok, expr};
ghost use Rattle.swc_nodes.specs.{declared.node.TargetNode.TargetNode as target, NodeTree.marked_tree, NodeTree.part_tree};
ghost use Rattle.swc_nodes.specs.GrowingNodes.{tree_at, From, Apart};

use crate::node::{ExprId, Node, PatId, PatPart, PropNode};
use crate::nodes::Nodes;
use swc_ast::spanned::Spanned;
use swc_context::operator::BinaryOp;
use swc_context::span::Span;

impl<F: Spanned + Drop, C: Spanned + Drop, K: Spanned + Drop> Nodes<F, C, K> {
    /// The place of an expression, the smaller end first.
    pub fn span(&self, id: ExprId) -> Span
        requires { From 0 self.now (expr_part id) }
        ensures { result ≡ in_order (span_of (tree_at self.now id.0)) }
    {
        self.extent(id).in_order()
    }

    /// Where an expression lies, as its tokens have it: from where the first one begins to where the last one ends.
    /// Where a source gives tokens out of order, the end may be the smaller one.
    pub fn extent(&self, id: ExprId) -> Span
        requires { From 0 self.now (expr_part id) }
        ensures { result ≡ span_of (tree_at self.now id.0) }
    {
        place_of(self.get(id.0))
    }

    /// The place of a pattern, the smaller end first.
    pub fn pat_span(&self, id: PatId) -> Span
        requires { From 0 self.now (pat_part id) }
        ensures { result ≡ in_order (span_of (tree_at self.now id.0)) }
    {
        self.pat_extent(id).in_order()
    }

    /// Where a pattern lies, as its tokens have it, like `extent`. An expression that is assigned to lies there itself.
    pub fn pat_extent(&self, id: PatId) -> Span
        requires { From 0 self.now (pat_part id) }
        ensures { result ≡ span_of (tree_at self.now id.0) }
    {
        match self.get(id.0) {
            Node::PatArray { span, .. }
            | Node::PatObject { span, .. }
            | Node::PatRest { span, .. }
            | Node::PatAssign { span, .. } => *span,
            Node::PatIdent(name) => name.id.span,
            Node::PatExpr(expr) => self.extent(*expr),
            Node::PatInvalid(missing) => missing.span,
            _ => unreachable!(),
        }
    }

    /// Whether the expression is an identifier.
    pub fn is_ident(&self, id: ExprId) -> bool
        requires { From 0 self.now (expr_part id) }
        ensures { result ≡ trees.is_ident (tree_at self.now id.0) }
    {
        matches!(self.get(id.0), Node::Ident(_))
    }

    /// Whether the pattern is an identifier.
    pub fn is_ident_pat(&self, id: PatId) -> bool
        requires { From 0 self.now (pat_part id) }
        ensures { result ≡ trees.is_ident (tree_at self.now id.0) }
    {
        matches!(self.get(id.0), Node::PatIdent(_))
    }

    /// Whether the part of a pattern is an identifier.
    pub fn is_ident_part(&self, part: PatPart) -> bool
        requires { Apart 0 self.now (part_parts part) }
        ensures { result ≡ trees.is_ident (part_tree (tree_at self.now) part) }
    {
        match part {
            PatPart::Pat(pat) => self.is_ident_pat(pat),
            PatPart::Expr(_) => false,
        }
    }

    /// Whether the pattern is a rest.
    pub fn is_rest_pat(&self, id: PatId) -> bool
        requires { From 0 self.now (pat_part id) }
        ensures { result ≡ trees.is_rest (tree_at self.now id.0) }
    {
        matches!(self.get(id.0), Node::PatRest { .. })
    }

    /// Whether the expression is one of a prefix operator or of `await`.
    pub fn is_unary(&self, id: ExprId) -> bool
        requires { From 0 self.now (expr_part id) }
        ensures { result ≡ trees.is_unary (tree_at self.now id.0) }
    {
        matches!(self.get(id.0), Node::Unary { .. } | Node::Await { .. })
    }

    /// Whether the expression is a member or a call of an optional chain (ECMA-262, 13.3.9).
    pub fn is_opt_chain(&self, id: ExprId) -> bool
        requires { From 0 self.now (expr_part id) }
        ensures { result ≡ trees.is_chain (tree_at self.now id.0) }
    {
        matches!(self.get(id.0), Node::OptChain(_))
    }

    /// Whether the expression is an operation, which no operator that writes follows: one of a binary operator, of a
    /// prefix operator, or of `++` or `--`.
    pub fn is_operation(&self, id: ExprId) -> bool
        requires { From 0 self.now (expr_part id) }
        ensures { result ≡ trees.is_operation (tree_at self.now id.0) }
    {
        matches!(
            self.get(id.0),
            Node::Bin { .. } | Node::Unary { .. } | Node::Update { .. }
        )
    }

    /// Whether the expression may be left of an operator that writes, and is no pattern (ECMA-262, 8.6.4); in strict
    /// code or not. That may what `is_valid_simple_assignment_target` of swc_ast says of trees in boxes.
    pub fn is_simple_target(&self, id: ExprId, strict: bool) -> bool
        requires { From 0 self.now (expr_part id) }
        ensures { result ≡ targets.is_target strict (tree_at self.now id.0) }
    {
        let mut expr = id;
        loop {
            expr = match self.get(expr.0) {
                Node::Ident(ident) => return !(strict && ident.sym.is_reserved_in_strict_bind()),
                Node::Paren(paren) => paren.expr,
                Node::Member(member) if self.is_member(member.obj) => member.obj,
                Node::Member(member) => return !self.is_opt_chain(member.obj),
                Node::SuperProp(_) => return true,
                _ => return false,
            };
        }
    }

    /// Whether the expression is an array or an object literal, which may be assigned to as a pattern, and not as it
    /// is.
    pub fn is_array_or_object(&self, id: ExprId) -> bool
        requires { From 0 self.now (expr_part id) }
        ensures { result ≡ true → From 0 self.now (target_part (target.Simple id)) → ⊥ }
    {
        matches!(self.get(id.0), Node::Array { .. } | Node::Object { .. })
    }

    /// Whether the expression is a member, of no optional chain.
    pub fn is_member(&self, id: ExprId) -> bool
        requires { From 0 self.now (expr_part id) }
        ensures { result ≡ targets.is_member (tree_at self.now id.0) }
    {
        matches!(self.get(id.0), Node::Member(_))
    }

    /// Whether the expression is one of `||` or `&&`.
    pub fn is_logical(&self, id: ExprId) -> bool
        requires { From 0 self.now (expr_part id) }
        ensures { result ≡ trees.is_logical (tree_at self.now id.0) }
    {
        match self.get(id.0) {
            Node::Bin { op, .. } => is_logical_op(*op),
            _ => false,
        }
    }

    /// The properties of an object literal, of which there may be none; nothing of any other expression.
    pub fn props(&self, id: ExprId) -> Option<&Vec<PropNode<K>>>
        requires { From 0 self.now (expr_part id) }
        ensures is { MatchOption result (is_object (tree_at self.now id.0) ≡ false)
            (λ props. IsObject self.now id.0 props.now) }
        ensures covers { MatchOption result (trees.no_cover_in (tree_at self.now id.0) ≡ true)
            (λ props. trees.no_cover_in (tree_at self.now id.0) ≡ not (has_cover props.now.items)) }
    {
        match self.get(id.0) {
            Node::Object { props, .. } => Some(props),
            _ => None,
        }
    }

    /// Whether the expression is one of `??`.
    pub fn is_nullish(&self, id: ExprId) -> bool
        requires { From 0 self.now (expr_part id) }
        ensures { result ≡ trees.is_nullish (tree_at self.now id.0) }
    {
        match self.get(id.0) {
            Node::Bin { op, .. } => is_nullish_op(*op),
            _ => false,
        }
    }

    /// Whether the expression is one of `||` or `&&` with one of `??` on its left.
    pub fn has_nullish_left(&self, id: ExprId) -> bool
        requires { From 0 self.now (expr_part id) }
        ensures { result ≡ not (left_ok (tree_at self.now id.0)) }
    {
        match self.get(id.0) {
            Node::Bin { op, left, .. } => is_logical_op(*op) && self.is_nullish(*left),
            _ => false,
        }
    }
}

fn is_logical_op(op: BinaryOp) -> bool
    ensures { result ≡ trees.is_logical_op op }
{
    matches!(op, BinaryOp::LogicalAnd | BinaryOp::LogicalOr)
}

/// Whether the operator is `??`.
pub fn is_nullish_op(op: BinaryOp) -> bool
    ensures { result ≡ trees.is_nullish_op op }
{
    matches!(op, BinaryOp::NullishCoalescing)
}

/// Where the node of an expression lies.
pub(crate) fn place_of<F: Spanned, C: Spanned, K: Spanned>(node: &Node<F, C, K>) -> Span
    requires { view_ok expr (form node.now) ≡ true }
    ensures { (at : ℕ → Tree F C K) → result ≡ span_of (marked_tree F.place C.place K.place at node.now) }
{
    match node {
        Node::Fn(f) => f.span(),
        Node::Class(c) => c.span(),
        Node::Array { span, .. }
        | Node::Object { span, .. }
        | Node::Unary { span, .. }
        | Node::Update { span, .. }
        | Node::Bin { span, .. }
        | Node::Assign { span, .. }
        | Node::Cond { span, .. }
        | Node::Seq { span, .. }
        | Node::Call { span, .. }
        | Node::New { span, .. }
        | Node::TaggedTpl { span, .. }
        | Node::Arrow { span, .. }
        | Node::Await { span, .. }
        | Node::Yield { span, .. } => *span,
        Node::This(e) => e.span,
        Node::Paren(e) => e.span,
        Node::Member(e) => e.span,
        Node::SuperProp(e) => e.span,
        Node::OptChain(e) => e.span,
        Node::Tpl(e) => e.span,
        Node::MetaProp(e) => e.span,
        Node::PrivateName(e) => e.span,
        Node::Ident(e) => e.span,
        Node::Str(e) => e.span,
        Node::Bool(e) => e.span,
        Node::Null(e) => e.span,
        Node::Num(e) => e.span,
        Node::BigInt(e) => e.span,
        Node::Regex(e) => e.span,
        Node::Invalid(e) => e.span,
        _ => unreachable!(),
    }
}
