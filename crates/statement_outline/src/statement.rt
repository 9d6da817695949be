// Statements as lines of text.
use crate::lines::Line;
use crate::outline::Outline;
use swc_ast::ident::Ident;
use swc_ast::lit::Str;
use swc_context::span::BytePos;
use swc_nodes::node::ExprId;
use tree_types::tree::{
    CatchClause, DefaultExport, ForInit, ForTarget, ImportAttribute, ImportKind, ImportSpecifier,
    NamedExports, Statement, StatementId, StatementKind, SwitchCase, VariableDeclaration,
    VariableKind,
};

/// The lines that are still to be written, each with its depth, the next one last.
pub(crate) type Lines<'a> = Vec<(Line<'a>, usize)>;

/// The word of a declaration.
fn word_of(kind: VariableKind) -> &'static str {
    match kind {
        VariableKind::Var => "var",
        VariableKind::Let => "let",
        VariableKind::Const => "const",
    }
}

impl<'a> Outline<'a> {
    /// Puts off a line.
    pub(crate) fn push(&mut self, lines: &mut Lines<'a>, line: Line<'a>, depth: usize) {
        self.failed |= lines.push((line, depth)).is_err();
    }

    /// Writes the first line of a statement, and puts off what is below it.
    pub(crate) fn put_statement(
        &mut self,
        lines: &mut Lines<'a>,
        statement: &'a Statement,
        depth: usize,
    ) {
        let end = statement.span.hi;
        match &statement.kind {
            StatementKind::Block(items) => {
                self.begin(depth, "block\n");
                self.put_off(lines, items, depth.saturating_add(1));
            }
            StatementKind::If {
                test,
                consequent,
                alternate,
            } => {
                self.put_off_else(lines, *alternate, depth);
                self.put_tested(lines, "if", *test, *consequent, depth);
            }
            StatementKind::While { test, body } => {
                self.put_tested(lines, "while", *test, *body, depth)
            }
            StatementKind::With { object, body } => {
                self.put_tested(lines, "with", *object, *body, depth)
            }
            StatementKind::DoWhile { body, test } => {
                self.put_do(lines, *body, Line::While(*test, end), depth)
            }
            StatementKind::Labeled { label, body } => self.put_labeled(lines, label, *body, depth),
            StatementKind::Switch {
                discriminant,
                cases,
            } => self.put_switch(lines, *discriminant, cases, end, depth),
            StatementKind::Try {
                block,
                handler,
                finalizer,
            } => {
                self.begin(depth, "try\n");
                self.put_try(lines, *block, *handler, *finalizer, depth);
            }
            StatementKind::For { body, .. }
            | StatementKind::ForIn { body, .. }
            | StatementKind::ForOf { body, .. } => {
                self.put_for(lines, &statement.kind, *body, depth)
            }
            kind => {
                self.begin(depth, "");
                self.put_simple(kind);
                self.end_line(end);
            }
        }
    }

    /// Writes a word and what is tested, and puts off a part.
    fn put_tested(
        &mut self,
        lines: &mut Lines<'a>,
        word: &str,
        test: ExprId,
        body: StatementId,
        depth: usize,
    ) {
        self.begin(depth, word);
        self.put_expr(test);
        let start = self.start_of(body);
        self.end_line(start);
        self.push(lines, Line::Statement(body), depth.saturating_add(1));
    }

    /// Writes a label, and puts off the statement that it is of.
    fn put_labeled(
        &mut self,
        lines: &mut Lines<'a>,
        label: &Ident,
        body: StatementId,
        depth: usize,
    ) {
        self.begin(depth, "label");
        self.put_name(label);
        self.put("\n");
        self.push(lines, Line::Statement(body), depth.saturating_add(1));
    }

    /// Writes the line of a `switch`, which ends at `end`, and puts off its clauses.
    fn put_switch(
        &mut self,
        lines: &mut Lines<'a>,
        discriminant: ExprId,
        cases: &'a [SwitchCase],
        end: BytePos,
        depth: usize,
    ) {
        self.begin(depth, "switch");
        self.put_expr(discriminant);
        self.end_line(cases.first().map_or(end, |case| case.span.lo));
        for case in cases.iter().rev() {
            self.push(lines, Line::Case(case), depth.saturating_add(1));
        }
    }

    /// Writes the line of a `do`, and puts off its body and the line after that.
    fn put_do(&mut self, lines: &mut Lines<'a>, body: StatementId, last: Line<'a>, depth: usize) {
        self.begin(depth, "do\n");
        self.push(lines, last, depth);
        self.push(lines, Line::Statement(body), depth.saturating_add(1));
    }

    /// Puts off what is after the `else` of an `if`, if it has one.
    fn put_off_else(
        &mut self,
        lines: &mut Lines<'a>,
        alternate: Option<StatementId>,
        depth: usize,
    ) {
        if let Some(part) = alternate {
            self.push(lines, Line::Else(part), depth);
        }
    }

    /// Writes the line of a `for`, and puts off its body.
    fn put_for(
        &mut self,
        lines: &mut Lines<'a>,
        kind: &StatementKind,
        body: StatementId,
        depth: usize,
    ) {
        self.begin(depth, "for");
        self.put_for_head(kind);
        let start = self.start_of(body);
        self.end_line(start);
        self.push(lines, Line::Statement(body), depth.saturating_add(1));
    }

    /// Puts off what is in a `try`.
    fn put_try(
        &mut self,
        lines: &mut Lines<'a>,
        block: StatementId,
        handler: Option<CatchClause>,
        finalizer: Option<StatementId>,
        depth: usize,
    ) {
        if let Some(block) = finalizer {
            self.push(lines, Line::Finally(block), depth);
        }
        if let Some(clause) = handler {
            self.push(lines, Line::Catch(clause), depth);
        }
        self.put_off_block(lines, block, depth.saturating_add(1));
    }

    /// Writes the head of a `for`.
    fn put_for_head(&mut self, kind: &StatementKind) {
        match kind {
            StatementKind::For {
                init,
                test,
                update,
                ..
            } => {
                match init {
                    None => {}
                    Some(ForInit::Variables(variables)) => {
                        self.put(" ");
                        self.put_variables(variables);
                    }
                    Some(ForInit::Expr(expr)) => self.put_expr(*expr),
                }
                self.put(";");
                self.put_expr_if(*test);
                self.put(";");
                self.put_expr_if(*update);
            }
            StatementKind::ForIn { left, right, .. } => {
                self.put_target(left);
                self.put(" in");
                self.put_expr(*right);
            }
            StatementKind::ForOf {
                is_await,
                left,
                right,
                ..
            } => {
                self.put_if(*is_await, "await");
                self.put_target(left);
                self.put(" of");
                self.put_expr(*right);
            }
            _ => {}
        }
    }

    /// Writes what a `for` assigns to.
    fn put_target(&mut self, left: &ForTarget) {
        match left {
            ForTarget::Variables(variables) => {
                self.put(" ");
                self.put_variables(variables);
            }
            ForTarget::Pat(pat) => self.put_pat(*pat),
        }
    }

    /// Writes a declaration of variables.
    fn put_variables(&mut self, variables: &VariableDeclaration) {
        self.put(word_of(variables.kind));
        let mut sign = "";
        for declarator in &variables.declarators {
            self.put(sign);
            self.put_pat(declarator.id);
            self.put_value(declarator.init);
            sign = ",";
        }
    }

    /// Writes a statement that takes one line.
    fn put_simple(&mut self, kind: &StatementKind) {
        match kind {
            StatementKind::Empty => self.put("empty"),
            StatementKind::Debugger => self.put("debugger"),
            StatementKind::Expr(expr) | StatementKind::Directive(expr) => {
                self.put("expr");
                self.put_expr(*expr);
            }
            StatementKind::Continue(label) => {
                self.put("continue");
                self.put_name_if(label);
            }
            StatementKind::Break(label) => {
                self.put("break");
                self.put_name_if(label);
            }
            StatementKind::Return(expr) => {
                self.put("return");
                self.put_expr_if(*expr);
            }
            StatementKind::Throw(expr) => {
                self.put("throw");
                self.put_expr(*expr);
            }
            StatementKind::Variables(variables) => self.put_variables(variables),
            StatementKind::Function(_) => self.put("function"),
            StatementKind::Class(_) => self.put("class"),
            kind => self.put_module_item(kind),
        }
    }

    /// Writes an item of a module.
    fn put_module_item(&mut self, kind: &StatementKind) {
        match kind {
            StatementKind::Import(import) => {
                self.put("import");
                self.put_specifiers(&import.specifiers);
                self.put_source(&import.source, &import.attributes);
            }
            StatementKind::ExportAll(exports) => {
                self.put("export *");
                if let Some(name) = &exports.exported {
                    self.put(" as");
                    self.put_export(name);
                }
                self.put_source(&exports.source, &exports.attributes);
            }
            StatementKind::ExportNamed(exports) => self.put_named(exports),
            StatementKind::ExportDeclaration(id) => {
                self.put("export ");
                if let Some(statement) = self.program.statement(*id) {
                    self.put_declared(&statement.kind);
                }
            }
            StatementKind::ExportDefault(exported) => {
                self.put("export default");
                match exported {
                    DefaultExport::Expr(expr) => self.put_expr(*expr),
                    DefaultExport::Function(_) => self.put(" function"),
                    DefaultExport::Class(_) => self.put(" class"),
                }
            }
            _ => {}
        }
    }

    /// Writes a declaration that is exported.
    fn put_declared(&mut self, kind: &StatementKind) {
        match kind {
            StatementKind::Variables(variables) => self.put_variables(variables),
            StatementKind::Function(_) => self.put("function"),
            StatementKind::Class(_) => self.put("class"),
            _ => {}
        }
    }

    /// Writes names that are imported.
    fn put_specifiers(&mut self, specifiers: &Vec<ImportSpecifier>) {
        for specifier in specifiers {
            match &specifier.kind {
                ImportKind::Default => self.put(" default as"),
                ImportKind::Namespace => self.put(" * as"),
                ImportKind::Named(None) => {}
                ImportKind::Named(Some(name)) => {
                    self.put_export(name);
                    self.put(" as");
                }
            }
            self.put_name(&specifier.local);
            self.put(",");
        }
    }

    /// Writes names that are exported, and from where.
    fn put_named(&mut self, exports: &NamedExports) {
        self.put("export");
        for specifier in &exports.specifiers {
            self.put_export(&specifier.local);
            if let Some(name) = &specifier.exported {
                self.put(" as");
                self.put_export(name);
            }
            self.put(",");
        }
        if let Some(source) = &exports.source {
            self.put_source(source, &exports.attributes);
        }
    }

    /// Writes from where something is imported.
    fn put_source(&mut self, source: &Str, attributes: &Vec<ImportAttribute>) {
        self.put(" from");
        self.put_word(source.raw.as_str());
        for attribute in attributes {
            self.put(" with");
            self.put_export(&attribute.key);
            self.put(":");
            self.put_word(attribute.value.raw.as_str());
        }
    }
}
