// Expressions and patterns (ECMA-262, 13).
use crate::collector::Collector;
use crate::names::{Spelling, Use};
use crate::scope::{Home, Role, ScopeKind};
use std::alloc::AllocError;
use swc_ast::expr::BlockStmtOrExpr;
use swc_ast::prop::PropName;
use swc_ast::spanned::Spanned;
use swc_context::operator::AssignOp;
use swc_context::span::Span;
use swc_nodes::node::{ExprId, Node, PatElem, PatId, PatPropNode, PropNode, TargetNode};

type AnyNode = Node<Span, Span, Span>;

impl<'a> Collector<'a> {
    /// Adds the names of expressions and patterns, and the scopes of arrow functions and methods among them. Each
    /// node tells its parts what is done with them, so it comes before them.
    pub(crate) fn add_names(&mut self) -> Result<(), AllocError> {
        let program = self.program;
        for number in (0..program.nodes.len()).rev() {
            let role = self.roles.get(number).copied();
            if let (Some(node), Some(role)) = (program.nodes.node(number), role) {
                self.add_names_of(node, role)?;
                self.add_scopes_of(node)?;
                self.tell_parts(node, role);
            }
        }
        Ok(())
    }

    /// Adds the names of a node.
    fn add_names_of(&mut self, node: &'a AnyNode, role: Role) -> Result<(), AllocError> {
        match node {
            // `async` before a list in parentheses was read as a name: its node stays, though no part is there.
            Node::Ident(name) if self.async_arrows.contains(&name.span.lo.0) => Ok(()),
            Node::Ident(name) => self.add_name(name, role),
            Node::PatIdent(name) => self.add_name(&name.id, role),
            Node::Object { props, .. } => self.add_shorthands(props),
            Node::PatObject { props, .. } => self.add_pat_shorthands(props, role),
            _ => Ok(()),
        }
    }

    /// Adds the names that are properties of an object literal by themselves.
    fn add_shorthands(&mut self, props: &'a [PropNode<Span>]) -> Result<(), AllocError> {
        for prop in props {
            if let PropNode::Shorthand(name) = prop {
                self.add_spelled(name, Role::Used(Use::Read), Spelling::Property)?;
            }
        }
        Ok(())
    }

    /// Adds the names that are properties of an object pattern by themselves, with a default value or without.
    fn add_pat_shorthands(
        &mut self,
        props: &'a [PatPropNode],
        role: Role,
    ) -> Result<(), AllocError> {
        for prop in props {
            if let PatPropNode::Assign { key, .. } = prop {
                self.add_spelled(&key.id, role, Spelling::Property)?;
            }
        }
        Ok(())
    }

    /// Adds the scopes of an arrow function, or of the methods of an object literal.
    fn add_scopes_of(&mut self, node: &AnyNode) -> Result<(), AllocError> {
        match node {
            Node::Arrow {
                span,
                params,
                body,
                is_async,
            } => {
                if *is_async && self.async_arrows.insert(span.lo.0).is_err() {
                    return Err(AllocError);
                }
                let block = match &**body {
                    BlockStmtOrExpr::BlockStmt(block) => Some(*block),
                    BlockStmtOrExpr::Expr(_) => None,
                };
                self.add_arrow(*span, params, block)
            }
            Node::Object { props, .. } => self.add_methods(props),
            _ => Ok(()),
        }
    }

    fn add_arrow(
        &mut self,
        span: Span,
        params: &[PatId],
        block: Option<Span>,
    ) -> Result<(), AllocError> {
        let role = self.add_parameters(span, block)?;
        for param in params {
            self.tell(param.0, role);
        }
        Ok(())
    }

    fn add_methods(&mut self, props: &[PropNode<Span>]) -> Result<(), AllocError> {
        for prop in props {
            self.add_method(prop)?;
        }
        Ok(())
    }

    /// Adds the scopes of a property, if it is a method.
    fn add_method(&mut self, prop: &PropNode<Span>) -> Result<(), AllocError> {
        match prop {
            PropNode::Method { key, function } => {
                let role = self.add_keyed(key, function.span, function.body)?;
                for param in &function.params {
                    self.tell(param.pat.0, role);
                }
            }
            PropNode::Getter { span, key, body } => {
                self.add_keyed(key, *span, *body)?;
            }
            PropNode::Setter {
                span,
                key,
                param,
                body,
            } => {
                let role = self.add_keyed(key, *span, *body)?;
                self.tell(param.0, role);
            }
            _ => {}
        }
        Ok(())
    }

    /// Adds the scopes of a method that has the key. Answers the role of its parameters.
    fn add_keyed(
        &mut self,
        key: &PropName<ExprId>,
        place: Span,
        body: Span,
    ) -> Result<Role, AllocError> {
        let span = Span::new(key.span().hi, place.hi);
        self.add_around(span, place)?;
        self.add_parameters(span, Some(body))
    }

    /// Tells what a node does with its parts, where that isn't reading them.
    fn tell_parts(&mut self, node: &AnyNode, role: Role) {
        match node {
            Node::Assign { op, left, .. } => self.tell_assigned(*left, *op),
            Node::Update { arg, .. } => self.tell(arg.0, Role::Used(Use::ReadAndWritten)),
            Node::Paren(paren) => self.tell(paren.expr.0, role),
            Node::PatArray { elems, .. } => self.tell_elems(elems, role),
            Node::PatObject { props, .. } => self.tell_props(props, role),
            Node::PatRest { arg, .. } => self.tell(arg.0, role),
            Node::PatAssign { left, .. } => {
                self.note_expression(role);
                self.tell(left.number(), role);
            }
            Node::PatExpr(expr) => self.tell(expr.0, role),
            _ => {}
        }
    }

    /// Tells what is left of an assignment operator that it is written. Operators other than `=` read it too.
    fn tell_assigned(&mut self, target: TargetNode, op: AssignOp) {
        let how = match op {
            AssignOp::Assign => Use::Written,
            _ => Use::ReadAndWritten,
        };
        match target {
            TargetNode::Simple(expr) => self.tell(expr.0, Role::Used(how)),
            TargetNode::Pat(pat) => self.tell(pat.0, Role::Used(how)),
        }
    }

    fn tell_elems(&mut self, elems: &[Option<PatElem>], role: Role) {
        for elem in elems.iter().flatten() {
            let (PatElem::Item(part) | PatElem::Rest { arg: part, .. }) = elem;
            self.tell(part.number(), role);
        }
    }

    fn tell_props(&mut self, props: &[PatPropNode], role: Role) {
        for prop in props {
            self.tell_prop(prop, role);
        }
    }

    fn tell_prop(&mut self, prop: &PatPropNode, role: Role) {
        match prop {
            PatPropNode::KeyValue { key, value, .. } => {
                if matches!(key, PropName::Computed(_)) {
                    self.note_expression(role);
                }
                self.tell(value.number(), role);
            }
            PatPropNode::Assign { value, .. } => {
                if value.is_some() {
                    self.note_expression(role);
                }
            }
            PatPropNode::Rest { arg, .. } => self.tell(arg.number(), role),
        }
    }

    /// Notes that a pattern has an expression: where it is one of parameters, their function's block has names of its
    /// own.
    fn note_expression(&mut self, role: Role) {
        if let Role::Bound(Home::Parameters(body)) = role {
            if let Some(scope) = self.scopes.get_mut(body.0) {
                scope.kind = ScopeKind::Function;
            }
        }
    }
}
