// What is found in a program: its scopes, what they bind, and its names.
use crate::names::{Name, Spelling, Use};
use crate::scope::{Binding, Home, Role, Scope, ScopeId, ScopeKind};
use std::alloc::{AllocError, Global};
use std::collections::BTreeSet;
use swc_ast::ident::Ident;
use swc_context::span::Span;
use tree_types::tree::Program;

/// What was found so far. The parts of the program come in any order, but a node after all that says what is done
/// with it.
#[derive(Drop)]
pub(crate) struct Collector<'a> {
    pub(crate) program: &'a Program,
    /// What is done with each expression and each pattern.
    pub(crate) roles: Vec<Role>,
    /// Where asynchronous arrow functions begin.
    pub(crate) async_arrows: BTreeSet<u32>,
    pub(crate) scopes: Vec<Scope>,
    pub(crate) bindings: Vec<Binding<'a>>,
    pub(crate) names: Vec<Name<'a>>,
}

impl<'a> Collector<'a> {
    /// The scope of the program. All expressions are read, until something else is said of them.
    pub(crate) fn new(alloc: Global, program: &'a Program) -> Result<Collector<'a>, AllocError> {
        let mut roles = Vec::new(alloc);
        roles.resize(program.nodes.len(), Role::Used(Use::Read))?;
        let mut scopes = Vec::new(alloc);
        scopes.push(Scope {
            span: program.span,
            kind: ScopeKind::Function,
        })?;
        Ok(Collector {
            program,
            roles,
            async_arrows: BTreeSet::new(alloc),
            scopes,
            bindings: Vec::new(alloc),
            names: Vec::new(alloc),
        })
    }

    /// Adds a scope.
    pub(crate) fn add_scope(&mut self, span: Span, kind: ScopeKind) -> Result<ScopeId, AllocError> {
        let id = ScopeId(self.scopes.len());
        self.scopes.push(Scope { span, kind })?;
        Ok(id)
    }

    /// Adds the scope of a block.
    pub(crate) fn add_block(&mut self, span: Span) -> Result<(), AllocError> {
        self.add_scope(span, ScopeKind::Block)?;
        Ok(())
    }

    /// Adds what a scope binds.
    pub(crate) fn add_binding(
        &mut self,
        text: &'a str,
        place: Span,
        home: Home,
    ) -> Result<(), AllocError> {
        self.bindings.push(Binding { text, place, home })?;
        Ok(())
    }

    /// Adds a name that is written by itself, with which this is done.
    pub(crate) fn add_name(&mut self, name: &'a Ident, role: Role) -> Result<(), AllocError> {
        self.add_spelled(name, role, Spelling::Plain)
    }

    /// Adds a name, which is written so, with which this is done.
    pub(crate) fn add_spelled(
        &mut self,
        name: &'a Ident,
        role: Role,
        spelling: Spelling,
    ) -> Result<(), AllocError> {
        let (text, span) = (name.sym.as_str(), name.span);
        let how = match role {
            Role::Used(how) => how,
            Role::Bound(home) => {
                self.add_binding(text, span, home)?;
                Use::Bound
            }
        };
        self.names.push(Name {
            text,
            span,
            how,
            spelling,
            binding: None,
            first: None,
        })?;
        Ok(())
    }

    /// Notes what is done with the expression or the pattern that has the number.
    pub(crate) fn tell(&mut self, number: usize, role: Role) {
        if let Some(noted) = self.roles.get_mut(number) {
            *noted = role;
        }
    }
}
