// Statements and declarations, and items of modules (ECMA-262, 14 and 16).
use crate::collector::Collector;
use crate::names::{Spelling, Use};
use crate::scope::{Home, Role};
use std::alloc::AllocError;
use swc_ast::ident::ModuleExportName;
use swc_context::span::Span;
use tree_types::tree::{
    CatchClause, DefaultExport, ForInit, ForTarget, ImportKind, ImportSpecifier, NamedExports,
    Statement, StatementId, StatementKind, SwitchCase, VariableDeclaration, VariableKind,
};

impl<'a> Collector<'a> {
    /// Adds the scopes of statements and declarations, and the names that are parts of these. Tells their patterns
    /// what is done with them.
    pub(crate) fn add_statements(&mut self) -> Result<(), AllocError> {
        let program = self.program;
        for statement in &program.statements {
            self.add_statement(statement)?;
        }
        Ok(())
    }

    /// Adds what is in one statement, but for the statements in it, which come by themselves.
    fn add_statement(&mut self, statement: &'a Statement) -> Result<(), AllocError> {
        let span = statement.span;
        match &statement.kind {
            StatementKind::Block(_) => self.add_block(span),
            StatementKind::If {
                consequent,
                alternate,
                ..
            } => {
                self.add_part(*consequent)?;
                match alternate {
                    Some(part) => self.add_part(*part),
                    None => Ok(()),
                }
            }
            StatementKind::For { init, .. } => {
                self.tell_init(init);
                self.add_block(span)
            }
            StatementKind::ForIn { left, .. } | StatementKind::ForOf { left, .. } => {
                self.tell_target(left);
                self.add_block(span)
            }
            StatementKind::Switch { cases, .. } => self.add_cases(cases, span),
            StatementKind::Try { handler, .. } => self.add_handler(handler),
            StatementKind::Variables(variables) => {
                self.tell_variables(variables);
                Ok(())
            }
            StatementKind::Function(place) => self.add_declared_function(*place),
            StatementKind::Class(place) => self.add_declared_class(*place),
            StatementKind::Import(import) => self.add_imports(&import.specifiers),
            StatementKind::ExportNamed(exports) => self.add_exports(exports),
            StatementKind::ExportDefault(exported) => self.add_default(*exported),
            _ => Ok(()),
        }
    }

    /// Adds the scope of a part of an `if`, where that is a function.
    fn add_part(&mut self, part: StatementId) -> Result<(), AllocError> {
        match self.program.statement(part) {
            Some(
                Statement {
                    span,
                    kind: StatementKind::Function(_),
                },
            ) => self.add_block(*span),
            _ => Ok(()),
        }
    }

    /// Adds the scope of the clauses of a `switch` that ends where the span does.
    fn add_cases(&mut self, cases: &[SwitchCase], span: Span) -> Result<(), AllocError> {
        match cases.first() {
            Some(case) => self.add_block(Span::new(case.span.lo, span.hi)),
            None => Ok(()),
        }
    }

    fn add_handler(&mut self, handler: &Option<CatchClause>) -> Result<(), AllocError> {
        let Some(clause) = handler else {
            return Ok(());
        };
        if let Some(param) = clause.param {
            self.tell(param.0, Role::Bound(Home::Innermost));
        }
        self.add_block(clause.span)
    }

    fn tell_init(&mut self, init: &Option<ForInit>) {
        if let Some(ForInit::Variables(variables)) = init {
            self.tell_variables(variables);
        }
    }

    fn tell_target(&mut self, target: &ForTarget) {
        match target {
            ForTarget::Variables(variables) => self.tell_variables(variables),
            ForTarget::Pat(pat) => self.tell(pat.0, Role::Used(Use::Written)),
        }
    }

    fn tell_variables(&mut self, variables: &VariableDeclaration) {
        let home = match variables.kind {
            VariableKind::Var => Home::Function,
            VariableKind::Let | VariableKind::Const => Home::Innermost,
        };
        for declarator in &variables.declarators {
            self.tell(declarator.id.0, Role::Bound(home));
        }
    }

    fn add_imports(&mut self, specifiers: &'a [ImportSpecifier]) -> Result<(), AllocError> {
        for specifier in specifiers {
            let spelling = match specifier.kind {
                ImportKind::Named(None) => Spelling::Import,
                _ => Spelling::Plain,
            };
            self.add_spelled(&specifier.local, Role::Bound(Home::Innermost), spelling)?;
        }
        Ok(())
    }

    /// Adds the names that a module exports of its own.
    fn add_exports(&mut self, exports: &'a NamedExports) -> Result<(), AllocError> {
        if exports.source.is_some() {
            return Ok(());
        }
        for specifier in &exports.specifiers {
            if let ModuleExportName::Ident(name) = &specifier.local {
                let spelling = match specifier.exported {
                    None => Spelling::Export,
                    Some(_) => Spelling::Plain,
                };
                self.add_spelled(name, Role::Used(Use::Read), spelling)?;
            }
        }
        Ok(())
    }

    fn add_default(&mut self, exported: DefaultExport) -> Result<(), AllocError> {
        match exported {
            DefaultExport::Function(place) => self.add_declared_function(place),
            DefaultExport::Class(place) => self.add_declared_class(place),
            DefaultExport::Expr(_) => Ok(()),
        }
    }
}
