// Functions and classes (ECMA-262, 15).
use crate::collector::Collector;
use crate::scope::{Home, Role, ScopeId, ScopeKind};
use std::alloc::AllocError;
use swc_ast::ident::Ident;
use swc_context::span::Span;
use swc_nodes::node::Node;
use tree_types::tree::{Class, Function, Member, MemberKind};

/// The part of a function or a class after its name.
fn after_name(name: &Option<Ident>, span: Span) -> Span {
    let start = name.as_ref().map_or(span.lo, |name| name.span.hi);
    Span::new(start, span.hi)
}

impl<'a> Collector<'a> {
    /// Adds the scopes of functions and classes that are expressions, with what they bind.
    pub(crate) fn add_expressions(&mut self) -> Result<(), AllocError> {
        let program = self.program;
        for number in 0..program.nodes.len() {
            match program.nodes.node(number) {
                Some(Node::Fn(place)) => self.add_function_expression(*place)?,
                Some(Node::Class(place)) => self.add_class_expression(*place)?,
                _ => {}
            }
        }
        Ok(())
    }

    /// Adds a function, which binds its name around itself (15.2.5).
    fn add_function_expression(&mut self, place: Span) -> Result<(), AllocError> {
        let Some(function) = self.program.function(place) else {
            return Ok(());
        };
        let around = self.add_function(function, place)?;
        match &function.name {
            Some(name) => self.add_name(name, Role::Bound(Home::Scope(around))),
            None => Ok(()),
        }
    }

    /// Adds a function, whose name is bound in the scope that it is in (8.2).
    pub(crate) fn add_declared_function(&mut self, place: Span) -> Result<(), AllocError> {
        let Some(function) = self.program.function(place) else {
            return Ok(());
        };
        self.add_function(function, place)?;
        match &function.name {
            Some(name) => self.add_name(name, Role::Bound(Home::Innermost)),
            None => Ok(()),
        }
    }

    /// Adds a class, which binds its name within itself (15.7.14).
    fn add_class_expression(&mut self, place: Span) -> Result<(), AllocError> {
        let Some(class) = self.program.class(place) else {
            return Ok(());
        };
        let within = self.add_class(class)?;
        match &class.name {
            Some(name) => self.add_name(name, Role::Bound(Home::Scope(within))),
            None => Ok(()),
        }
    }

    /// Adds a class, whose name is bound in the scope that it is in (15.7.15), and within the class too (15.7.14).
    pub(crate) fn add_declared_class(&mut self, place: Span) -> Result<(), AllocError> {
        let Some(class) = self.program.class(place) else {
            return Ok(());
        };
        let within = self.add_class(class)?;
        let Some(name) = &class.name else {
            return Ok(());
        };
        self.add_binding(name.sym.as_str(), name.span, Home::Scope(within))?;
        self.add_name(name, Role::Bound(Home::Innermost))
    }

    /// Adds the scopes of a function. `place` is where its `arguments` are bound. Answers the scope around it.
    fn add_function(&mut self, function: &Function, place: Span) -> Result<ScopeId, AllocError> {
        let span = after_name(&function.name, function.span);
        let around = self.add_around(span, place)?;
        let role = self.add_parameters(span, Some(function.body))?;
        for param in &function.params {
            self.tell(param.0, role);
        }
        Ok(around)
    }

    /// Adds the scope around a function that isn't an arrow function, with `arguments`.
    pub(crate) fn add_around(&mut self, span: Span, place: Span) -> Result<ScopeId, AllocError> {
        let around = self.add_scope(span, ScopeKind::Block)?;
        self.add_binding("arguments", place, Home::Scope(around))?;
        Ok(around)
    }

    /// Adds the scope of a function's parameters and variables, and that of its block, if it has one. Answers the
    /// role of its parameters.
    pub(crate) fn add_parameters(
        &mut self,
        span: Span,
        block: Option<Span>,
    ) -> Result<Role, AllocError> {
        let parameters = self.add_scope(span, ScopeKind::Function)?;
        let body = match block {
            Some(block) => self.add_scope(block, ScopeKind::Nothing)?,
            None => parameters,
        };
        Ok(Role::Bound(Home::Parameters(body)))
    }

    /// Adds the scope of a class, and those of its members. Answers the first.
    fn add_class(&mut self, class: &Class) -> Result<ScopeId, AllocError> {
        let span = after_name(&class.name, class.span);
        let within = self.add_scope(span, ScopeKind::Block)?;
        for member in &class.members {
            self.add_member(member)?;
        }
        Ok(within)
    }

    /// Adds the scopes of a member of a class.
    fn add_member(&mut self, member: &Member) -> Result<(), AllocError> {
        match &member.kind {
            MemberKind::Method { function, .. } => {
                self.add_function(function, member.span)?;
            }
            MemberKind::StaticBlock(place) => {
                self.add_scope(*place, ScopeKind::Function)?;
            }
            MemberKind::Field { .. } => {}
        }
        Ok(())
    }
}
