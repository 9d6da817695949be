// Makes the nodes of productions, and says where they are.
ghost use Rattle.std.specs.Prelude.{◌≡◌, ℕ, ◌+◌, ◌≤◌, true, false, ◌++◌, length, map, IfOk};
ghost use Rattle.swc_context.specs.Spans.{from_to};
ghost use Rattle.swc_ast.specs.Parts.{leaf, ident_tree, lit_tree, item_trees, member_prop_tree, base_tree, callee_tree, super_part_tree};
ghost use Rattle.swc_ast.specs.Spans.{chain_base_span};
ghost use Rattle.swc_ast.specs.Tree.{node, nil, cons, invalid, super, super_prop, tpl, span_of};
ghost use Rattle.swc_ast.specs.Trees as trees;
ghost use Rattle.swc_nodes.specs.Lists.{elem_parts, elem_trees, props_parts, props_trees, exprs_parts, expr_trees, tpl_trees, seq_between};
ghost use Rattle.swc_nodes.specs.NodeParts.{expr_part, one_expr, member_parts, args_parts, base_parts, callee_parts, super_parts, target_part};
ghost use Rattle.swc_nodes.specs.declared.node.TargetNode.{TargetNode as target};
ghost use Rattle.swc_nodes.specs.GrowingNodes.{count, tree_at, first_at, start_at, end_at, first_start, last_end, Apart, From, Grows, Made};

use crate::node::{ExprId, InvalidNode, Node, PropNode, TargetNode};
use crate::nodes::Nodes;
use std::alloc::{AllocError, Global};
use swc_ast::expr::{
    Callee, ExprOrSpread, MemberExpr, MemberProp, MetaPropExpr, MetaPropKind, OptCall,
    OptChainBase, OptChainExpr, ParenExpr, Super, SuperProp, SuperPropExpr, ThisExpr, Tpl,
    TplElement,
};
use swc_ast::ident::{Ident, IdentName, PrivateName};
use swc_ast::lit::Lit;
use swc_ast::spanned::Spanned;
use swc_context::operator::{AssignOp, BinaryOp, UnaryOp, UpdateOp};
use swc_context::span::{BytePos, Span};

impl<F: Spanned + Drop, C: Spanned + Drop, K: Spanned + Drop> Nodes<F, C, K> {
    /// An identifier (ECMA-262, 13.1).
    pub fn ident_expr(&mut self, ident: Ident) -> Result<ExprId, AllocError>
        ensures grows { Grows self.old self.new }
        ensures made { IfOk result (λ id. Made (count self.old) self.new (expr_part id) (ident_tree ident)) }
    {
        Ok(ExprId(self.push(Node::Ident(ident))?))
    }

    /// `this` (ECMA-262, 13.2.1).
    pub fn this_expr(&mut self, span: Span) -> Result<ExprId, AllocError>
        ensures grows { Grows self.old self.new }
        ensures made { IfOk result (λ id. Made (count self.old) self.new (expr_part id) (trees.this_e span)) }
    {
        Ok(ExprId(self.push(Node::This(ThisExpr { span }))?))
    }

    /// A literal (ECMA-262, 13.2.3).
    pub fn lit(&mut self, lit: Lit) -> Result<ExprId, AllocError>
        ensures grows { Grows self.old self.new }
        ensures made { IfOk result (λ id. Made (count self.old) self.new (expr_part id) (lit_tree lit)) }
    {
        let node = match lit {
            Lit::Str(s) => Node::Str(s),
            Lit::Bool(b) => Node::Bool(b),
            Lit::Null(n) => Node::Null(n),
            Lit::Num(n) => Node::Num(n),
            Lit::BigInt(n) => Node::BigInt(n),
            Lit::Regex(r) => Node::Regex(r),
        };
        Ok(ExprId(self.push(node)?))
    }

    /// An array literal (ECMA-262, 13.2.4) from `start` to `end`, positions in bytes, with a `None` for each hole.
    ///
    /// `trailing_comma` is the place of a comma after the last element, which is no hole. All that is reached from an
    /// element lies after the element before it (`are_elems_apart`).
    pub fn array_lit(
        &mut self,
        start: BytePos,
        end: BytePos,
        elems: Vec<Option<ExprOrSpread<ExprId>>>,
        trailing_comma: Option<Span>,
    ) -> Result<ExprId, AllocError>
        requires apart { Apart 0 self.old (elem_parts elems) }
        ensures grows { Grows self.old self.new }
        ensures made { IfOk result (λ id. (k : ℕ) → Apart k self.old (elem_parts elems) → Made k self.new (expr_part id)
            (trees.array_e trailing_comma (from_to start end) (elem_trees (tree_at self.old) elems))) }
    {
        let span = Span { lo: start, hi: end };
        Ok(ExprId(self.push(Node::Array {
            span,
            elems,
            trailing_comma,
        })?))
    }

    /// An object literal (ECMA-262, 13.2.5) from `start` to `end`, positions in bytes.
    ///
    /// `trailing_comma` is the place of a comma after the last property. All that is reached from a part of a property
    /// lies after the part before it (`are_props_apart`).
    pub fn object_lit(
        &mut self,
        start: BytePos,
        end: BytePos,
        props: Vec<PropNode<K>>,
        trailing_comma: Option<Span>,
    ) -> Result<ExprId, AllocError>
        requires apart { Apart 0 self.old (props_parts props) }
        ensures grows { Grows self.old self.new }
        ensures made { IfOk result (λ id. (k : ℕ) → Apart k self.old (props_parts props)
            → Made k self.new (expr_part id)
            (trees.object_e trailing_comma (from_to start end)
            (props_trees F.place C.place K.place (tree_at self.old) props))) }
    {
        let span = Span { lo: start, hi: end };
        Ok(ExprId(self.push(Node::Object {
            span,
            props,
            trailing_comma,
        })?))
    }

    /// A function expression (ECMA-262, 15.2, 15.5, 15.6 and 15.8), as the hook read it.
    pub fn fn_expr(&mut self, function: F) -> Result<ExprId, AllocError>
        ensures grows { Grows self.old self.new }
        ensures made { IfOk result (λ id. Made (count self.old) self.new (expr_part id)
            (trees.fn_e (F.place function) function)) }
    {
        Ok(ExprId(self.push(Node::Fn(function))?))
    }

    /// A class expression (ECMA-262, 15.7), as the hook read it.
    pub fn class_expr(&mut self, class: C) -> Result<ExprId, AllocError>
        ensures grows { Grows self.old self.new }
        ensures made { IfOk result (λ id. Made (count self.old) self.new (expr_part id)
            (trees.class_e (C.place class) class)) }
    {
        Ok(ExprId(self.push(Node::Class(class))?))
    }

    /// An expression in parentheses (ECMA-262, 13.2.9).
    pub fn paren_expr(
        &mut self,
        start: BytePos,
        end: BytePos,
        expr: ExprId,
    ) -> Result<ExprId, AllocError>
        requires { From 0 self.old (expr_part expr) }
        ensures grows { Grows self.old self.new }
        ensures made { IfOk result (λ id. Made (first_at self.old expr.0) self.new (expr_part id)
            (trees.paren_e (from_to start end) (tree_at self.old expr.0))) }
    {
        let span = Span { lo: start, hi: end };
        Ok(ExprId(self.push(Node::Paren(ParenExpr { span, expr }))?))
    }

    /// A member of `obj` (ECMA-262, 13.3.2), to `end`, a position in bytes.
    ///
    /// Where it is `optional`, after `?.`, or `obj` is of an optional chain, it is of one (13.3.9). All that is
    /// reached from an expression in brackets lies after `obj`.
    pub fn member_expr(
        &mut self,
        obj: ExprId,
        prop: MemberProp<ExprId>,
        end: BytePos,
        optional: bool,
    ) -> Result<ExprId, AllocError>
        requires from { From 0 self.old (expr_part obj) }
        requires apart { Apart 0 self.old (one_expr obj ++ member_parts prop) }
        ensures grows { Grows self.old self.new }
        ensures made { IfOk result (λ id. (k : ℕ) → Apart k self.old (one_expr obj ++ member_parts prop)
            → Made k self.new (expr_part id) (trees.link_e optional (tree_at self.old obj.0)
            (trees.member_e (from_to (span_of (tree_at self.old obj.0)).lo end) (tree_at self.old obj.0)
            (member_prop_tree (λ e. tree_at self.old e.0) prop)))) }
    {
        let span = Span {
            lo: self.extent(obj).lo,
            hi: end,
        };
        if optional || self.is_opt_chain(obj) {
            let member = MemberExpr { span, obj, prop };
            return self.opt_chain(span, optional, OptChainBase::Member(member));
        }
        Ok(ExprId(self.push(Node::Member(MemberExpr { span, obj, prop }))?))
    }

    /// A call of `callee` (ECMA-262, 13.3.6), to `end`, a position in bytes.
    ///
    /// Where it is `optional`, after `?.`, or `callee` is of an optional chain, it is of one (13.3.9). All that is
    /// reached from an argument lies after the one before it, and after `callee`.
    pub fn call_expr(
        &mut self,
        callee: ExprId,
        args: Vec<ExprOrSpread<ExprId>>,
        end: BytePos,
        optional: bool,
    ) -> Result<ExprId, AllocError>
        requires from { From 0 self.old (expr_part callee) }
        requires apart { Apart 0 self.old (one_expr callee ++ args_parts args) }
        ensures grows { Grows self.old self.new }
        ensures made { IfOk result (λ id. (k : ℕ) → Apart k self.old (one_expr callee ++ args_parts args)
            → Made k self.new (expr_part id) (trees.link_e optional (tree_at self.old callee.0)
            (trees.call_e (from_to (span_of (tree_at self.old callee.0)).lo end) (tree_at self.old callee.0)
            (item_trees (λ e. tree_at self.old e.0) args.items)))) }
    {
        let span = Span {
            lo: self.extent(callee).lo,
            hi: end,
        };
        if optional || self.is_opt_chain(callee) {
            let call = OptCall { span, callee, args };
            return self.opt_chain(span, optional, OptChainBase::Call(call));
        }
        let callee = Callee::Expr(callee);
        Ok(ExprId(self.push(Node::Call { span, callee, args })?))
    }

    /// A node of an optional chain (ECMA-262, 13.3.9), at the place of the member or call in it.
    fn opt_chain(
        &mut self,
        span: Span,
        optional: bool,
        base: OptChainBase<ExprId>,
    ) -> Result<ExprId, AllocError>
        requires place { span ≡ chain_base_span base }
        requires apart { Apart 0 self.old (base_parts base) }
        ensures grows { Grows self.old self.new }
        ensures made { IfOk result (λ id. (k : ℕ) → Apart k self.old (base_parts base)
            → Made k self.new (expr_part id)
            (trees.chain_e optional (base_tree (λ e. tree_at self.old e.0) base))) }
    {
        let base = Box::new(self.allocator(), base)?;
        let chain = OptChainExpr {
            span,
            optional,
            base,
        };
        Ok(ExprId(self.push(Node::OptChain(chain))?))
    }

    /// A call of what may be `super` or `import` (ECMA-262, 13.3.7 and 13.3.10), from `start` to `end`, positions in
    /// bytes.
    ///
    /// All that is reached from an argument lies after the one before it, and after an expression that is called.
    pub fn callee_call(
        &mut self,
        start: BytePos,
        callee: Callee<ExprId>,
        args: Vec<ExprOrSpread<ExprId>>,
        end: BytePos,
    ) -> Result<ExprId, AllocError>
        requires apart { Apart 0 self.old (callee_parts callee ++ args_parts args) }
        ensures grows { Grows self.old self.new }
        ensures made { IfOk result (λ id. (k : ℕ) → Apart k self.old (callee_parts callee ++ args_parts args)
            → Made k self.new (expr_part id)
            (trees.call_e (from_to start end) (callee_tree (λ e. tree_at self.old e.0) callee)
            (item_trees (λ e. tree_at self.old e.0) args.items))) }
    {
        let span = Span { lo: start, hi: end };
        Ok(ExprId(self.push(Node::Call { span, callee, args })?))
    }

    /// A property of `super` (ECMA-262, 13.3.7), to `end`, a position in bytes.
    ///
    /// An expression in brackets is one of the nodes (`has_expr` tells).
    pub fn super_prop_expr(
        &mut self,
        obj: Super,
        prop: SuperProp<ExprId>,
        end: BytePos,
    ) -> Result<ExprId, AllocError>
        requires apart { Apart 0 self.old (super_parts prop) }
        ensures grows { Grows self.old self.new }
        ensures made { IfOk result (λ id. (k : ℕ) → Apart k self.old (super_parts prop)
            → Made k self.new (expr_part id)
            (node super_prop (from_to obj.span.lo end) (cons (leaf super obj.span)
            (cons (super_part_tree (λ e. tree_at self.old e.0) prop) nil)))) }
    {
        let span = Span {
            lo: obj.span.lo,
            hi: end,
        };
        Ok(ExprId(self.push(Node::SuperProp(SuperPropExpr { span, obj, prop }))?))
    }

    /// `new` with arguments (ECMA-262, 13.3.5), from `start` to `end`, positions in bytes.
    ///
    /// All that is reached from an argument lies after the one before it, and after `callee`.
    pub fn new_expr(
        &mut self,
        start: BytePos,
        callee: ExprId,
        args: Vec<ExprOrSpread<ExprId>>,
        end: BytePos,
    ) -> Result<ExprId, AllocError>
        requires apart { Apart 0 self.old (one_expr callee ++ args_parts args) }
        ensures grows { Grows self.old self.new }
        ensures made { IfOk result (λ id. (k : ℕ) → Apart k self.old (one_expr callee ++ args_parts args)
            → Made k self.new (expr_part id)
            (trees.new_e (from_to start end) (tree_at self.old callee.0)
            (item_trees (λ e. tree_at self.old e.0) args.items))) }
    {
        let span = Span { lo: start, hi: end };
        let args = Some(args);
        Ok(ExprId(self.push(Node::New { span, callee, args })?))
    }

    /// `new` without arguments (ECMA-262, 13.3.5), from `start`, a position in bytes, to the end of `callee`.
    pub fn bare_new_expr(&mut self, start: BytePos, callee: ExprId) -> Result<ExprId, AllocError>
        requires { From 0 self.old (expr_part callee) }
        ensures grows { Grows self.old self.new }
        ensures made { IfOk result (λ id. Made (first_at self.old callee.0) self.new (expr_part id)
            (trees.bare_new_e (from_to start (span_of (tree_at self.old callee.0)).hi) (tree_at self.old callee.0))) }
    {
        let span = Span {
            lo: start,
            hi: self.extent(callee).hi,
        };
        let args = None;
        Ok(ExprId(self.push(Node::New { span, callee, args })?))
    }

    /// `new.target` or `import.meta` (ECMA-262, 13.3.12).
    pub fn meta_prop(&mut self, span: Span, kind: MetaPropKind) -> Result<ExprId, AllocError>
        ensures grows { Grows self.old self.new }
        ensures made { IfOk result (λ id. Made (count self.old) self.new (expr_part id) (trees.meta_e span kind)) }
    {
        Ok(ExprId(self.push(Node::MetaProp(MetaPropExpr { span, kind }))?))
    }

    /// A template (ECMA-262, 13.2.8) from `start` to `end`, positions in bytes: its texts, and the expressions between
    /// them.
    ///
    /// All that is reached from an expression lies after the one before it.
    pub fn tpl(
        &mut self,
        start: BytePos,
        end: BytePos,
        quasis: Vec<TplElement>,
        exprs: Vec<ExprId>,
    ) -> Result<ExprId, AllocError>
        requires apart { Apart 0 self.old (exprs_parts exprs) }
        ensures grows { Grows self.old self.new }
        ensures made { IfOk result (λ id. (k : ℕ) → Apart k self.old (exprs_parts exprs)
            → Made k self.new (expr_part id)
            (node tpl (from_to start end) (tpl_trees (tree_at self.old) quasis exprs))) }
    {
        let tpl = Tpl {
            span: Span { lo: start, hi: end },
            exprs,
            quasis,
        };
        let tpl = Box::new(self.allocator(), tpl)?;
        Ok(ExprId(self.push(Node::Tpl(tpl))?))
    }

    /// A template with a tag (ECMA-262, 13.3.11): the template goes from `start` to `end`, positions in bytes.
    ///
    /// All that is reached from an expression lies after the one before it, and after `tag`.
    pub fn tagged_tpl(
        &mut self,
        tag: ExprId,
        start: BytePos,
        end: BytePos,
        quasis: Vec<TplElement>,
        exprs: Vec<ExprId>,
    ) -> Result<ExprId, AllocError>
        requires from { From 0 self.old (expr_part tag) }
        requires apart { Apart 0 self.old (one_expr tag ++ exprs_parts exprs) }
        ensures grows { Grows self.old self.new }
        ensures made { IfOk result (λ id. (k : ℕ) → Apart k self.old (one_expr tag ++ exprs_parts exprs)
            → Made k self.new (expr_part id)
            (trees.tagged_e (from_to (span_of (tree_at self.old tag.0)).lo end) (tree_at self.old tag.0)
            (node tpl (from_to start end) (tpl_trees (tree_at self.old) quasis exprs)))) }
    {
        let span = Span {
            lo: self.extent(tag).lo,
            hi: end,
        };
        let tpl = Tpl {
            span: Span { lo: start, hi: end },
            exprs,
            quasis,
        };
        let tpl = Box::new(self.allocator(), tpl)?;
        Ok(ExprId(self.push(Node::TaggedTpl { span, tag, tpl })?))
    }

    /// `++` or `--` and its operand, which is after it (ECMA-262, 13.4); from `start`, a position in bytes.
    pub fn update_prefix(
        &mut self,
        start: BytePos,
        op: UpdateOp,
        arg: ExprId,
    ) -> Result<ExprId, AllocError>
        requires { From 0 self.old (expr_part arg) }
        ensures grows { Grows self.old self.new }
        ensures made { IfOk result (λ id. Made (first_at self.old arg.0) self.new (expr_part id)
            (trees.update_e (from_to start (span_of (tree_at self.old arg.0)).hi) op true (tree_at self.old arg.0))) }
    {
        let span = Span {
            lo: start,
            hi: self.extent(arg).hi,
        };
        let prefix = true;
        Ok(ExprId(self.push(Node::Update {
            span,
            op,
            prefix,
            arg,
        })?))
    }

    /// `++` or `--` and its operand, which is before it (ECMA-262, 13.4); to `end`, a position in bytes.
    pub fn update_postfix(
        &mut self,
        op: UpdateOp,
        arg: ExprId,
        end: BytePos,
    ) -> Result<ExprId, AllocError>
        requires { From 0 self.old (expr_part arg) }
        ensures grows { Grows self.old self.new }
        ensures made { IfOk result (λ id. Made (first_at self.old arg.0) self.new (expr_part id)
            (trees.update_e (from_to (span_of (tree_at self.old arg.0)).lo end) op false (tree_at self.old arg.0))) }
    {
        let span = Span {
            lo: self.extent(arg).lo,
            hi: end,
        };
        let prefix = false;
        Ok(ExprId(self.push(Node::Update {
            span,
            op,
            prefix,
            arg,
        })?))
    }

    /// `await` and its operand (ECMA-262, 15.8), from `start`, a position in bytes.
    pub fn await_expr(&mut self, start: BytePos, arg: ExprId) -> Result<ExprId, AllocError>
        requires { From 0 self.old (expr_part arg) }
        ensures grows { Grows self.old self.new }
        ensures made { IfOk result (λ id. Made (first_at self.old arg.0) self.new (expr_part id)
            (trees.await_e (from_to start (end_at self.old arg.0)) (tree_at self.old arg.0))) }
    {
        let span = Span {
            lo: start,
            hi: self.end(arg),
        };
        Ok(ExprId(self.push(Node::Await { span, arg })?))
    }

    /// A prefix operator and its operand (ECMA-262, 13.5).
    pub fn unary_op(
        &mut self,
        start: BytePos,
        op: UnaryOp,
        arg: ExprId,
    ) -> Result<ExprId, AllocError>
        requires { From 0 self.old (expr_part arg) }
        ensures grows { Grows self.old self.new }
        ensures made { IfOk result (λ id. Made (first_at self.old arg.0) self.new (expr_part id)
            (trees.unary_e (from_to start (span_of (tree_at self.old arg.0)).hi) op (tree_at self.old arg.0))) }
    {
        let span = Span {
            lo: start,
            hi: self.extent(arg).hi,
        };
        Ok(ExprId(self.push(Node::Unary { span, op, arg })?))
    }

    /// A binary operator and its operands (ECMA-262, 13.6 to 13.13).
    ///
    /// All that is reached from the right one lies after the left one: its `first` is above the left one's number.
    pub fn bin_op(
        &mut self,
        op: BinaryOp,
        left: ExprId,
        right: ExprId,
    ) -> Result<ExprId, AllocError>
        requires left { From 0 self.old (expr_part left) }
        requires right { From (left.0 + 1) self.old (expr_part right) }
        ensures grows { Grows self.old self.new }
        ensures made { IfOk result
            (λ id. Made (first_at self.old left.0) self.new (expr_part id)
            (trees.bin_e (trees.to (span_of (tree_at self.old left.0)) (span_of (tree_at self.old right.0))) op
            (tree_at self.old left.0) (tree_at self.old right.0))) }
    {
        let span = Span {
            lo: self.extent(left).lo,
            hi: self.extent(right).hi,
        };
        Ok(ExprId(self.push(Node::Bin {
            span,
            op,
            left,
            right,
        })?))
    }

    /// A conditional (ECMA-262, 13.14): what it tests, what it is where that holds, and what else.
    ///
    /// All that is reached from one of them lies after the one before it.
    pub fn cond_expr(
        &mut self,
        test: ExprId,
        cons: ExprId,
        alt: ExprId,
    ) -> Result<ExprId, AllocError>
        requires test { From 0 self.old (expr_part test) }
        requires then { From (test.0 + 1) self.old (expr_part cons) }
        requires other { From (cons.0 + 1) self.old (expr_part alt) }
        ensures grows { Grows self.old self.new }
        ensures made { IfOk result
            (λ id. Made (first_at self.old test.0) self.new (expr_part id)
            (trees.cond_e (from_to (start_at self.old test.0) (span_of (tree_at self.old alt.0)).hi)
            (tree_at self.old test.0) (tree_at self.old cons.0) (tree_at self.old alt.0))) }
    {
        let span = Span {
            lo: self.start(test),
            hi: self.extent(alt).hi,
        };
        Ok(ExprId(self.push(Node::Cond {
            span,
            test,
            cons,
            alt,
        })?))
    }

    /// An assignment (ECMA-262, 13.15) of `value` to what may be assigned to as it is (`has_target`).
    ///
    /// All that is reached from `value` lies after `left`.
    pub fn assign_expr(
        &mut self,
        op: AssignOp,
        left: ExprId,
        value: ExprId,
    ) -> Result<ExprId, AllocError>
        requires left { From 0 self.old (target_part (target.Simple left)) }
        requires right { From (left.0 + 1) self.old (expr_part value) }
        ensures grows { Grows self.old self.new }
        ensures made { IfOk result
            (λ id. Made (first_at self.old left.0) self.new (expr_part id)
            (trees.assign_e (from_to (span_of (tree_at self.old left.0)).lo (end_at self.old value.0)) op
            (tree_at self.old left.0) (tree_at self.old value.0))) }
    {
        let span = Span {
            lo: self.extent(left).lo,
            hi: self.end(value),
        };
        Ok(ExprId(self.push(Node::Assign {
            span,
            op,
            left: TargetNode::Simple(left),
            right: value,
        })?))
    }

    /// `yield` without an operand (ECMA-262, 15.5).
    pub fn yield_alone(&mut self, span: Span) -> Result<ExprId, AllocError>
        ensures grows { Grows self.old self.new }
        ensures made { IfOk result (λ id. Made (count self.old) self.new (expr_part id)
            (trees.yield_e span false trees.hole_e)) }
    {
        let (arg, delegate) = (None, false);
        Ok(ExprId(self.push(Node::Yield {
            span,
            arg,
            delegate,
        })?))
    }

    /// `yield`, with a `*` after it where it is to `delegate`, and its operand (ECMA-262, 15.5); from `start`, a
    /// position in bytes.
    pub fn yield_expr(
        &mut self,
        start: BytePos,
        delegate: bool,
        arg: ExprId,
    ) -> Result<ExprId, AllocError>
        requires { From 0 self.old (expr_part arg) }
        ensures grows { Grows self.old self.new }
        ensures made { IfOk result (λ id. Made (first_at self.old arg.0) self.new (expr_part id)
            (trees.yield_e (from_to start (end_at self.old arg.0)) delegate (tree_at self.old arg.0))) }
    {
        let span = Span {
            lo: start,
            hi: self.end(arg),
        };
        let arg = Some(arg);
        Ok(ExprId(self.push(Node::Yield {
            span,
            arg,
            delegate,
        })?))
    }

    /// Expressions with commas between them (ECMA-262, 13.16), of which there is one at least; one alone is itself.
    ///
    /// All that is reached from an expression lies after the one before it.
    pub fn seq_expr(&mut self, exprs: Vec<ExprId>) -> Result<ExprId, AllocError>
        requires some { 1 ≤ length exprs.items }
        requires apart { Apart 0 self.old (exprs_parts exprs) }
        ensures grows { Grows self.old self.new }
        ensures made { IfOk result (λ id. (k : ℕ) → Apart k self.old (exprs_parts exprs)
            → Made k self.new (expr_part id)
            (seq_between (first_start self.old exprs.items) (last_end self.old exprs.items)
            (expr_trees (tree_at self.old) exprs))) }
    {
        let (first, last) = (exprs[0], exprs[exprs.len() - 1]);
        if exprs.len() == 1 {
            return Ok(first);
        }
        let span = Span {
            lo: self.start(first),
            hi: self.end(last),
        };
        Ok(ExprId(self.push(Node::Seq { span, exprs })?))
    }

    /// Expressions in parentheses as a list has them: what its items hold, one alone or a sequence.
    pub fn seq_of_items(&mut self, items: Vec<ExprOrSpread<ExprId>>) -> Result<ExprId, AllocError>
        requires some { 1 ≤ length items.items }
        requires apart { Apart 0 self.old (args_parts items) }
        ensures grows { Grows self.old self.new }
        ensures made { IfOk result (λ id. (k : ℕ) → Apart k self.old (args_parts items)
            → Made k self.new (expr_part id)
            (seq_between (first_start self.old (map (λ item. item.expr) items.items))
            (last_end self.old (map (λ item. item.expr) items.items))
            (trees.held_exprs (item_trees (λ e. tree_at self.old e.0) items.items)))) }
    {
        let exprs = held_exprs(self.allocator(), &items)?;
        self.seq_expr(exprs)
    }

    /// `#` and a name (ECMA-262, 13.10.1), from the `#` on.
    pub fn private_expr(&mut self, start: BytePos, name: IdentName) -> Result<ExprId, AllocError>
        ensures grows { Grows self.old self.new }
        ensures made { IfOk result (λ id. Made (count self.old) self.new (expr_part id)
            (trees.private_e (from_to start name.span.hi) name.sym)) }
    {
        let span = Span {
            lo: start,
            hi: name.span.hi,
        };
        let name = name.sym;
        Ok(ExprId(self.push(Node::PrivateName(PrivateName { span, name }))?))
    }

    /// What stands in for an operand that was refused, which begins at `first`, and before which a token ends at
    /// `last`.
    pub fn invalid(
        &mut self,
        span: Span,
        first: BytePos,
        last: BytePos,
    ) -> Result<ExprId, AllocError>
        ensures grows { Grows self.old self.new }
        ensures made { IfOk result (λ id. Made (count self.old) self.new (expr_part id) (leaf invalid span)) }
        ensures start { IfOk result (λ id. start_at self.new id.0 ≡ first) }
        ensures end { IfOk result (λ id. end_at self.new id.0 ≡ last) }
    {
        Ok(ExprId(self.push(Node::Invalid(InvalidNode { span, first, last }))?))
    }
}

/// The expressions that items hold, in their order.
fn held_exprs(alloc: Global, items: &Vec<ExprOrSpread<ExprId>>) -> Result<Vec<ExprId>, AllocError>
    ensures { IfOk result (λ exprs. exprs.items ≡ map (λ item. item.expr) items.now.items) }
{
    let mut exprs = Vec::new(alloc);
    for item in items {
        exprs.push(item.expr)?;
    }
    Ok(exprs)
}
