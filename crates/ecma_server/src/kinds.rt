// What names are: variables, functions, classes, parameters and imports.
use statement_trees::tree::{
    ForInit, ForTarget, Function, MemberKind, Program, StatementKind, VariableDeclaration,
    VariableKind,
};
use std::alloc::{AllocError, Global};
use swc_ecma_parser::context::span::Span;
use swc_ecma_parser::nodes::node::{ExprId, Node, PatId, PropNode};

/// What a name is bound by.
#[derive(Clone, Copy, PartialEq, Eq)]
pub(crate) enum Kind {
    Variable(VariableKind),
    Function,
    Class,
    Parameter,
    Import,
    Caught,
}

impl Kind {
    /// The kind, in words.
    pub(crate) fn as_str(self) -> &'static str {
        match self {
            Kind::Variable(VariableKind::Var) => "var",
            Kind::Variable(VariableKind::Let) => "let",
            Kind::Variable(VariableKind::Const) => "const",
            Kind::Function => "function",
            Kind::Class => "class",
            Kind::Parameter => "parameter",
            Kind::Import => "import",
            Kind::Caught => "catch parameter",
        }
    }
}

/// Where names are declared, and what they are there.
#[derive(Drop)]
pub(crate) struct Kinds {
    places: Vec<(Span, Kind)>,
}

impl Kinds {
    /// The declarations of a program. The only error is out of memory.
    pub(crate) fn new(alloc: Global, program: &Program) -> Result<Kinds, AllocError> {
        let mut kinds = Kinds {
            places: Vec::new(alloc),
        };
        for statement in &program.statements {
            kinds.add_statement(program, &statement.kind)?;
        }
        for place in &program.bodies {
            kinds.add_body(program, *place)?;
        }
        for number in 0..program.nodes.len() {
            kinds.add_node(program, ExprId(number))?;
        }
        kinds
            .places
            .sort_by_key(|(place, _): &(Span, Kind)| place.lo.0)?;
        Ok(kinds)
    }

    /// What the name is that is declared there: by the last declaration that begins before it and holds it.
    pub(crate) fn of(&self, place: Span) -> Option<Kind> {
        let count = self
            .places
            .partition_point(|(declared, _)| declared.lo.0 <= place.lo.0);
        let before = self.places.get(..count).unwrap_or(&[]);
        for (declared, kind) in before.iter().rev().take(256) {
            if declared.hi.0 >= place.hi.0 {
                return Some(*kind);
            }
        }
        None
    }

    fn add(&mut self, place: Option<Span>, kind: Kind) -> Result<(), AllocError> {
        if let Some(place) = place {
            self.places.push((place, kind))?;
        }
        Ok(())
    }

    fn add_statement(&mut self, program: &Program, kind: &StatementKind) -> Result<(), AllocError> {
        match kind {
            StatementKind::Variables(variables) => self.add_variables(program, variables),
            StatementKind::For {
                init: Some(ForInit::Variables(variables)),
                ..
            } => self.add_variables(program, variables),
            StatementKind::ForIn {
                left: ForTarget::Variables(variables),
                ..
            } => self.add_variables(program, variables),
            StatementKind::ForOf {
                left: ForTarget::Variables(variables),
                ..
            } => self.add_variables(program, variables),
            StatementKind::Try {
                handler: Some(clause),
                ..
            } => match clause.param {
                Some(param) => self.add(program.nodes.span_of(param), Kind::Caught),
                None => Ok(()),
            },
            StatementKind::Import(import) => {
                for specifier in &import.specifiers {
                    self.add(Some(specifier.local.span), Kind::Import)?;
                }
                Ok(())
            }
            _ => Ok(()),
        }
    }

    fn add_variables(
        &mut self,
        program: &Program,
        variables: &VariableDeclaration,
    ) -> Result<(), AllocError> {
        for declarator in &variables.declarators {
            let place = program.nodes.span_of(declarator.id);
            self.add(place, Kind::Variable(variables.kind))?;
        }
        Ok(())
    }

    /// Adds the names of a function or a class, and of parameters.
    fn add_body(&mut self, program: &Program, place: Span) -> Result<(), AllocError> {
        if let Some(function) = program.function(place) {
            if let Some(name) = &function.name {
                self.add(Some(name.span), Kind::Function)?;
            }
            self.add_function(program, function)?;
        }
        if let Some(class) = program.class(place) {
            if let Some(name) = &class.name {
                self.add(Some(name.span), Kind::Class)?;
            }
            for member in &class.members {
                if let MemberKind::Method { function, .. } = &member.kind {
                    self.add_function(program, function)?;
                }
            }
        }
        Ok(())
    }

    fn add_function(&mut self, program: &Program, function: &Function) -> Result<(), AllocError> {
        for param in &function.params {
            self.add_param(program, *param)?;
        }
        Ok(())
    }

    fn add_param(&mut self, program: &Program, param: PatId) -> Result<(), AllocError> {
        self.add(program.nodes.span_of(param), Kind::Parameter)
    }

    /// Adds the parameters of arrow functions and of methods of object literals.
    fn add_node(&mut self, program: &Program, expr: ExprId) -> Result<(), AllocError> {
        match program.nodes.node(expr) {
            Some(Node::Arrow { params, .. }) => {
                for param in params {
                    self.add_param(program, *param)?;
                }
                Ok(())
            }
            Some(Node::Object { props, .. }) => {
                for prop in props {
                    self.add_prop(program, prop)?;
                }
                Ok(())
            }
            _ => Ok(()),
        }
    }

    fn add_prop(&mut self, program: &Program, prop: &PropNode<Span>) -> Result<(), AllocError> {
        match prop {
            PropNode::Method { function, .. } => {
                for param in &function.params {
                    self.add_param(program, param.pat)?;
                }
                Ok(())
            }
            PropNode::Setter { param, .. } => self.add_param(program, *param),
            _ => Ok(()),
        }
    }
}
