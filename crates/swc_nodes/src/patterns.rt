// Makes the nodes of patterns, of formal parameters and of assignments to patterns, and says where they are.
ghost use Rattle.std.specs.Prelude.{◌≡◌, ℕ, ◌+◌, ◌++◌, None, IfOk, map};
ghost use Rattle.swc_context.specs.{Spans.from_to, declared.operator.AssignOp.AssignOp as assign_op};
ghost use Rattle.swc_ast.specs.Parts.{leaf, binding_tree, prop_name_tree, param_tree};
ghost use Rattle.swc_ast.specs.Spans.{prop_name_span};
ghost use Rattle.swc_ast.specs.Tree.{node, nil, cons, dots as dots_kind, invalid, param as param_kind, span_of};
ghost use Rattle.swc_ast.specs.Patterns as patterns;
ghost use Rattle.swc_ast.specs.Trees as trees;
ghost use Rattle.swc_nodes.specs.Lists.{pat_elem_parts, pat_elem_trees, pat_props_parts, pat_props_trees, first_param_pat, pat_elem};
ghost use Rattle.swc_nodes.specs.NodeParts.{expr_part, pat_part, one_expr, one_pat, key_parts, pat_prop_parts, param_parts, target_part};
ghost use Rattle.swc_nodes.specs.GrowingNodes.{count, tree_at, first_at, end_at, Apart, From, Grows, Made};
ghost use Rattle.swc_nodes.specs.{NodeTree.pat_prop_of, declared.node.PatPropNode.PatPropNode as pat_prop, declared.node.TargetNode.TargetNode as target};

use crate::node::{ExprId, Node, PatElem, PatId, PatPart, PatPropNode, TargetNode};
use crate::nodes::Nodes;
use std::alloc::{AllocError, Global};
use swc_ast::expr::Invalid;
use swc_ast::function::Param;
use swc_ast::ident::BindingIdent;
use swc_ast::prop::PropName;
use swc_ast::spanned::Spanned;
use swc_context::operator::AssignOp;
use swc_context::span::{BytePos, Span};

impl<F: Spanned + Drop, C: Spanned + Drop, K: Spanned + Drop> Nodes<F, C, K> {
    /// An identifier that is bound (ECMA-262, 14.3.3).
    pub fn ident_pat(&mut self, ident: BindingIdent) -> Result<PatId, AllocError>
        ensures grows { Grows self.old self.new }
        ensures made { IfOk result (λ id. Made (count self.old) self.new (pat_part id) (binding_tree ident)) }
    {
        Ok(PatId(self.push(Node::PatIdent(ident))?))
    }

    /// An array pattern (ECMA-262, 14.3.3) from `start` to `end`, positions in bytes, with a `None` for each hole.
    ///
    /// The elements are taken as they are: holes at the end are dropped before. All that is reached from an element
    /// lies after the element before it (`are_pat_elems_apart`).
    pub fn array_pat(
        &mut self,
        start: BytePos,
        end: BytePos,
        elems: Vec<Option<PatId>>,
    ) -> Result<PatId, AllocError>
        requires apart { Apart 0 self.old (pat_elem_parts elems) }
        ensures grows { Grows self.old self.new }
        ensures made { IfOk result (λ id. (k : ℕ) → Apart k self.old (pat_elem_parts elems)
            → Made k self.new (pat_part id)
            (patterns.array_p (from_to start end) (pat_elem_trees (tree_at self.old) elems))) }
    {
        let span = Span { lo: start, hi: end };
        let elems = pat_elems(self.allocator(), &elems)?;
        Ok(PatId(self.push(Node::PatArray { span, elems })?))
    }

    /// An object pattern (ECMA-262, 14.3.3) from `start` to `end`, positions in bytes.
    ///
    /// All that is reached from a part of a property lies after the part before it (`are_pat_props_apart`).
    pub fn object_pat(
        &mut self,
        start: BytePos,
        end: BytePos,
        props: Vec<PatPropNode>,
    ) -> Result<PatId, AllocError>
        requires apart { Apart 0 self.old (pat_props_parts props) }
        ensures grows { Grows self.old self.new }
        ensures made { IfOk result (λ id. (k : ℕ) → Apart k self.old (pat_props_parts props)
            → Made k self.new (pat_part id)
            (patterns.object_p (from_to start end)
            (pat_props_trees F.place C.place K.place (tree_at self.old) props))) }
    {
        let span = Span { lo: start, hi: end };
        Ok(PatId(self.push(Node::PatObject { span, props })?))
    }

    /// A pattern with its initialiser (ECMA-262, 14.3.3) from `start`, a position in bytes, to where the last token of
    /// `value` ends.
    ///
    /// All that is reached from `value` lies after `left`.
    pub fn default_pat(
        &mut self,
        start: BytePos,
        left: PatId,
        value: ExprId,
    ) -> Result<PatId, AllocError>
        requires left { From 0 self.old (pat_part left) }
        requires right { From (left.0 + 1) self.old (expr_part value) }
        ensures grows { Grows self.old self.new }
        ensures made { IfOk result (λ id. Made (first_at self.old left.0) self.new (pat_part id)
            (patterns.default_p (from_to start (end_at self.old value.0))
            (tree_at self.old left.0) (tree_at self.old value.0))) }
    {
        let span = Span {
            lo: start,
            hi: self.end(value),
        };
        Ok(PatId(self.push(Node::PatAssign {
            span,
            left: PatPart::Pat(left),
            right: value,
        })?))
    }

    /// A rest (ECMA-262, 14.3.3 and 15.1): dots, and the pattern after them.
    pub fn rest_pat(&mut self, dots: Span, arg: PatId) -> Result<PatId, AllocError>
        requires { From 0 self.old (pat_part arg) }
        ensures grows { Grows self.old self.new }
        ensures made { IfOk result (λ id. Made (first_at self.old arg.0) self.new (pat_part id)
            (patterns.rest_p (trees.to dots (span_of (tree_at self.old arg.0))) (leaf dots_kind dots)
            (tree_at self.old arg.0))) }
    {
        let span = Span {
            lo: dots.lo,
            hi: self.pat_extent(arg).hi,
        };
        Ok(PatId(self.push(Node::PatRest {
            span,
            dot3_token: dots,
            arg,
        })?))
    }

    /// An assignment to an array or object pattern (ECMA-262, 13.15.5; `has_target` tells). It ends with the last token
    /// of `value`.
    ///
    /// All that is reached from `value` lies after `left`.
    pub fn assign_pat_expr(&mut self, left: PatId, value: ExprId) -> Result<ExprId, AllocError>
        requires left { From 0 self.old (target_part (target.Pat left)) }
        requires right { From (left.0 + 1) self.old (expr_part value) }
        ensures grows { Grows self.old self.new }
        ensures made { IfOk result
            (λ id. Made (first_at self.old left.0) self.new (expr_part id)
            (trees.assign_e (from_to (span_of (tree_at self.old left.0)).lo (end_at self.old value.0)) assign_op.Assign
            (tree_at self.old left.0) (tree_at self.old value.0))) }
    {
        let span = Span {
            lo: self.pat_extent(left).lo,
            hi: self.end(value),
        };
        Ok(ExprId(self.push(Node::Assign {
            span,
            op: AssignOp::Assign,
            left: TargetNode::Pat(left),
            right: value,
        })?))
    }

    /// What stands in for a pattern that is missing.
    pub fn invalid_pat(&mut self, span: Span) -> Result<PatId, AllocError>
        ensures grows { Grows self.old self.new }
        ensures made { IfOk result (λ id. Made (count self.old) self.new (pat_part id) (leaf invalid span)) }
    {
        Ok(PatId(self.push(Node::PatInvalid(Invalid { span }))?))
    }

    /// A property of an object pattern: a key, and the pattern after its colon (ECMA-262, 14.3.3).
    pub fn key_pat_prop(&self, key: PropName<ExprId>, value: PatId) -> PatPropNode
        requires { From 0 self.now (pat_part value) }
        ensures tree { pat_prop_of F.place C.place K.place (tree_at self.now) result
            ≡ trees.key_value_e (trees.to (prop_name_span key) (span_of (tree_at self.now value.0)))
            (prop_name_tree (λ e. tree_at self.now e.0) key) (tree_at self.now value.0) }
        ensures parts { pat_prop_parts result ≡ key_parts key ++ one_pat value }
    {
        let span = Span {
            lo: key.span().lo,
            hi: self.pat_extent(value).hi,
        };
        PatPropNode::KeyValue {
            span,
            key,
            value: PatPart::Pat(value),
        }
    }

    /// A property of an object pattern: a name, and the initialiser after its `=` (ECMA-262, 14.3.3). It ends with the
    /// last token of that.
    pub fn default_pat_prop(&self, name: BindingIdent, value: ExprId) -> PatPropNode
        requires { From 0 self.now (expr_part value) }
        ensures tree { pat_prop_of F.place C.place K.place (tree_at self.now) result
            ≡ patterns.name_p (from_to name.id.span.lo (end_at self.now value.0)) (binding_tree name)
            (tree_at self.now value.0) }
        ensures parts { pat_prop_parts result ≡ one_expr value }
    {
        let span = Span {
            lo: name.id.span.lo,
            hi: self.end(value),
        };
        let value = Some(value);
        PatPropNode::Assign {
            span,
            key: name,
            value,
        }
    }

    /// The rest of an object pattern (ECMA-262, 14.3.3): dots, and the pattern after them.
    pub fn rest_pat_prop(&self, dots: Span, arg: PatId) -> PatPropNode
        requires { From 0 self.now (pat_part arg) }
        ensures tree { pat_prop_of F.place C.place K.place (tree_at self.now) result
            ≡ patterns.rest_p (trees.to dots (span_of (tree_at self.now arg.0))) (leaf dots_kind dots)
            (tree_at self.now arg.0) }
        ensures parts { pat_prop_parts result ≡ one_pat arg }
    {
        let span = Span {
            lo: dots.lo,
            hi: self.pat_extent(arg).hi,
        };
        PatPropNode::Rest {
            span,
            dot3_token: dots,
            arg: PatPart::Pat(arg),
        }
    }

    /// A parameter (ECMA-262, 15.1): a pattern, at its place.
    pub fn param(&self, pat: PatId) -> Param<PatId>
        requires { From 0 self.now (pat_part pat) }
        ensures tree { param_tree (λ p. tree_at self.now p.0) result
            ≡ node param_kind (span_of (tree_at self.now pat.0)) (cons (tree_at self.now pat.0) nil) }
        ensures parts { param_parts result ≡ one_pat pat }
    {
        let span = self.pat_extent(pat);
        Param { span, pat }
    }
}

/// The elements of an array pattern, of patterns and holes.
pub fn pat_elems(
    alloc: Global,
    pats: &Vec<Option<PatId>>,
) -> Result<Vec<Option<PatElem>>, AllocError>
    ensures { IfOk result (λ elems. elems.items ≡ map pat_elem pats.now.items) }
{
    let mut elems = Vec::new(alloc);
    for pat in pats {
        elems.push(as_elem(pat))?;
    }
    Ok(elems)
}

/// A pattern or a hole, as an element.
fn as_elem(pat: &Option<PatId>) -> Option<PatElem>
    ensures { result ≡ pat_elem pat.now }
{
    match pat {
        Some(pat) => Some(PatElem::Item(PatPart::Pat(*pat))),
        None => None,
    }
}

/// The pattern of the first parameter, if there is one: a setter has that one alone (ECMA-262, 15.4).
pub fn first_param_pat(params: &Vec<Param<PatId>>) -> Option<PatId>
    ensures { result ≡ first_param_pat params.now.items }
{
    match params.first() {
        Some(param) => Some(param.pat),
        None => None,
    }
}

/// A property of an object pattern: a name alone, which is bound itself (ECMA-262, 14.3.3).
pub fn name_pat_prop(name: BindingIdent) -> PatPropNode
    ensures { result ≡ pat_prop.Assign name.id.span name None }
{
    let (span, value) = (name.id.span, None);
    PatPropNode::Assign {
        span,
        key: name,
        value,
    }
}
