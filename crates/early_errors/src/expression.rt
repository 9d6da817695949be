// Expressions, and patterns that are assigned to (ECMA-262, 13).
use crate::fault::EarlyErrorKind;
use crate::task::Task;
use crate::text::{ends_with_word, has_word};
use crate::walk::Walk;
use regex_patterns::pattern::check_pattern;
use std::alloc::AllocError;
use swc_ast::expr::{Callee, MemberProp, MetaPropExpr, MetaPropKind, OptChainBase};
use swc_ast::ident::Ident;
use swc_ast::lit::Regex;
use swc_context::operator::UnaryOp;
use swc_context::span::{BytePos, Span};
use swc_nodes::apart::Parts;
use swc_nodes::node::{ExprId, Node, PatPart, PatPropNode};

type AnyNode = Node<Span, Span, Span>;

/// What is deleted, without parentheses.
#[derive(Clone, Copy)]
enum Deleted {
    Name,
    Private,
    Other,
}

impl<'a> Walk<'a> {
    /// An expression, or a pattern that is assigned to.
    pub(crate) fn part(&mut self, number: usize) -> Result<(), AllocError> {
        let program = self.program;
        let Some(node) = program.nodes.node(number) else {
            return Ok(());
        };
        match node {
            Node::Fn(place) => self.function(*place, false),
            Node::Class(place) => self.class(*place, false),
            Node::Object { props, .. } => self.object(props),
            Node::Arrow {
                span,
                params,
                body,
                is_async,
            } => self.arrow(*span, params, body, *is_async),
            _ => {
                self.check_node(node)?;
                self.put_parts(node)
            }
        }
    }

    /// Puts off the parts of a node.
    fn put_parts(&mut self, node: &AnyNode) -> Result<(), AllocError> {
        node.list(&mut self.parts)?;
        for _ in 0..self.parts.len() {
            if let Some(part) = self.parts.pop() {
                self.put(Task::Part(part.number()))?;
            }
        }
        Ok(())
    }

    /// Notes what is wrong with a node by itself.
    fn check_node(&mut self, node: &AnyNode) -> Result<(), AllocError> {
        match node {
            Node::Ident(name) => self.check_reference(name),
            Node::PatIdent(name) => self.check_target(&name.id),
            Node::PatObject { props, .. } => self.check_targets(props),
            Node::PrivateName(name) => self.check_private(name),
            Node::Member(member) => self.check_member(&member.prop),
            Node::OptChain(chain) => match &*chain.base {
                OptChainBase::Member(member) => self.check_member(&member.prop),
                OptChainBase::Call(_) => Ok(()),
            },
            Node::Unary {
                span,
                op: UnaryOp::Delete,
                arg,
            } => self.check_deleted(*span, *arg),
            Node::Regex(regex) => self.check_regex(regex),
            _ => self.check_place(node),
        }
    }

    /// Notes that a node can't be in the code that it is in.
    fn check_place(&mut self, node: &AnyNode) -> Result<(), AllocError> {
        match node {
            Node::Yield { span, .. } if self.code.in_parameters => {
                self.fault(EarlyErrorKind::YieldInParameters, *span)
            }
            Node::Await { span, .. } if self.code.in_parameters => {
                self.fault(EarlyErrorKind::AwaitInParameters, *span)
            }
            Node::Await { span, .. } if !self.code.awaits => {
                self.fault(EarlyErrorKind::AwaitOutside, *span)
            }
            Node::SuperProp(part) if !self.code.super_property => {
                self.fault(EarlyErrorKind::SuperProperty, part.obj.span)
            }
            Node::Call {
                callee: Callee::Super(word),
                ..
            } if !self.code.super_call => self.fault(EarlyErrorKind::SuperCall, word.span),
            Node::MetaProp(meta) => self.check_meta(meta),
            _ => Ok(()),
        }
    }

    /// `new.target` or `import.meta`
    fn check_meta(&mut self, meta: &MetaPropExpr) -> Result<(), AllocError> {
        let (first, last) = match meta.kind {
            MetaPropKind::NewTarget => ("new", "target"),
            MetaPropKind::ImportMeta => ("import", "meta"),
        };
        let is_plain = has_word(self.text, meta.span.lo, first);
        if !is_plain || !ends_with_word(self.text, meta.span, last) {
            return self.fault(EarlyErrorKind::EscapedWord, meta.span);
        }
        if meta.kind == MetaPropKind::NewTarget && !self.code.new_target {
            return self.fault(EarlyErrorKind::NewTarget, meta.span);
        }
        Ok(())
    }

    /// A name whose value is taken.
    pub(crate) fn check_reference(&mut self, name: &Ident) -> Result<(), AllocError> {
        if name.sym.as_str() == "arguments" && !self.code.arguments {
            return self.fault(EarlyErrorKind::ArgumentsInClass, name.span);
        }
        self.check_name(name)
    }

    /// The names that are properties of a pattern by themselves, and are assigned to; and its rest.
    fn check_targets(&mut self, props: &[PatPropNode]) -> Result<(), AllocError> {
        for prop in props {
            match prop {
                PatPropNode::Assign { key, .. } => self.check_target(&key.id)?,
                PatPropNode::Rest {
                    span,
                    arg: PatPart::Pat(pat),
                    ..
                } => {
                    let node = self.program.nodes.node(*pat);
                    if matches!(node, Some(Node::PatArray { .. } | Node::PatObject { .. })) {
                        self.fault(EarlyErrorKind::RestPattern, *span)?;
                    }
                }
                _ => {}
            }
        }
        Ok(())
    }

    /// The private name of a link, if it has one.
    fn check_member(&mut self, prop: &MemberProp<ExprId>) -> Result<(), AllocError> {
        match prop {
            MemberProp::PrivateName(name) => self.check_private(name),
            _ => Ok(()),
        }
    }

    /// What is deleted, without parentheses.
    fn deleted(&self, arg: ExprId) -> Deleted {
        let nodes = &self.program.nodes;
        let mut at = arg;
        for _ in 0..nodes.len() {
            match nodes.node(at) {
                Some(Node::Paren(paren)) => at = paren.expr,
                Some(Node::Ident(_)) => return Deleted::Name,
                Some(Node::Member(member)) => return deleted_member(&member.prop),
                Some(Node::OptChain(chain)) => {
                    return match &*chain.base {
                        OptChainBase::Member(member) => deleted_member(&member.prop),
                        OptChainBase::Call(_) => Deleted::Other,
                    };
                }
                _ => return Deleted::Other,
            }
        }
        Deleted::Other
    }

    /// Notes what must not be deleted.
    fn check_deleted(&mut self, span: Span, arg: ExprId) -> Result<(), AllocError> {
        match self.deleted(arg) {
            Deleted::Name if self.code.strict => self.fault(EarlyErrorKind::StrictDelete, span),
            Deleted::Private => self.fault(EarlyErrorKind::PrivateDeleted, span),
            _ => Ok(()),
        }
    }

    /// Notes what is wrong with a regular expression.
    fn check_regex(&mut self, regex: &Regex) -> Result<(), AllocError> {
        let found = check_pattern(self.alloc, regex.exp.as_str(), regex.flags.as_str())?;
        let Some((fault, at)) = found else {
            return Ok(());
        };
        let at = u32::try_from(at).unwrap_or(0);
        let lo = BytePos(regex.span.lo.0.saturating_add(1).saturating_add(at));
        let place = Span::new(lo, BytePos(lo.0.saturating_add(1)));
        self.fault(EarlyErrorKind::Pattern(fault), place)
    }
}

/// Whether a link has a private name.
fn deleted_member(prop: &MemberProp<ExprId>) -> Deleted {
    match prop {
        MemberProp::PrivateName(_) => Deleted::Private,
        _ => Deleted::Other,
    }
}
