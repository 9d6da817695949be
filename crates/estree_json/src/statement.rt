// Statements and declarations.
use crate::piece::Piece;
use crate::pieces::Pieces;
use swc_ast::ident::Ident;
use swc_context::span::Span;
use swc_nodes::node::{ExprId, Node};
use tree_types::tree::{
    CatchClause, ForInit, ForTarget, Statement, StatementId, StatementKind, SwitchCase,
    VariableDeclaration, VariableKind,
};

impl<'a> Pieces<'a> {
    /// The statement that has the number.
    pub(crate) fn statement(&mut self, id: StatementId) {
        let program = self.program;
        match program.statement(id) {
            Some(statement) => self.plain_statement(statement),
            None => self.missing(),
        }
    }

    fn plain_statement(&mut self, statement: &'a Statement) {
        let span = statement.span;
        match &statement.kind {
            StatementKind::Expr(expr) => {
                self.open("ExpressionStatement", span);
                self.part("expression", expr.0);
                self.close();
            }
            StatementKind::Directive(expr) => self.directive(span, *expr),
            StatementKind::Variables(declaration) => self.variables(declaration),
            StatementKind::Return(argument) => {
                self.open("ReturnStatement", span);
                self.opt_part("argument", *argument);
                self.close();
            }
            StatementKind::Function(place) => self.function_at("FunctionDeclaration", *place),
            StatementKind::Class(place) => self.class_at("ClassDeclaration", *place),
            StatementKind::Block(ids) => {
                self.open("BlockStatement", span);
                self.statements("body", ids);
                self.close();
            }
            StatementKind::Empty => self.leaf("EmptyStatement", span),
            StatementKind::Debugger => self.leaf("DebuggerStatement", span),
            StatementKind::Throw(argument) => self.wrapped("ThrowStatement", span, argument.0),
            _ => self.branch(statement),
        }
    }

    /// A string that is a directive, which is named again without its quotes.
    fn directive(&mut self, span: Span, expr: ExprId) {
        let nodes = &self.program.nodes;
        self.open("ExpressionStatement", span);
        self.part("expression", expr.0);
        if expr.0 < nodes.len() {
            if let Node::Str(string) = nodes.get(expr.0) {
                let raw = string.raw.as_str();
                let end = raw.len().saturating_sub(1);
                self.word("directive", raw.get(1..end).unwrap_or(""));
            }
        }
        self.close();
    }

    /// A statement that has statements, or leaves some.
    fn branch(&mut self, statement: &'a Statement) {
        let span = statement.span;
        match &statement.kind {
            StatementKind::If {
                test,
                consequent,
                alternate,
            } => {
                self.open("IfStatement", span);
                self.part("test", test.0);
                self.body("consequent", *consequent);
                self.opt_body("alternate", *alternate);
                self.close();
            }
            StatementKind::Switch {
                discriminant,
                cases,
            } => self.switch(span, *discriminant, cases),
            StatementKind::Try {
                block,
                handler,
                finalizer,
            } => self.try_statement(span, *block, *handler, *finalizer),
            StatementKind::Labeled { label, body } => {
                self.open("LabeledStatement", span);
                self.body("body", *body);
                self.field("label");
                self.name(label.span, label.sym.as_str());
                self.close();
            }
            StatementKind::Break(label) => self.jump("BreakStatement", span, label),
            StatementKind::Continue(label) => self.jump("ContinueStatement", span, label),
            _ => self.counted(statement),
        }
    }

    fn jump(&mut self, kind: &'static str, span: Span, label: &'a Option<Ident>) {
        self.open(kind, span);
        self.opt_name("label", label);
        self.close();
    }

    fn try_statement(
        &mut self,
        span: Span,
        block: StatementId,
        handler: Option<CatchClause>,
        finalizer: Option<StatementId>,
    ) {
        self.open("TryStatement", span);
        self.body("block", block);
        self.field("handler");
        match handler {
            Some(clause) => self.catch_clause(clause),
            None => self.missing(),
        }
        self.opt_body("finalizer", finalizer);
        self.close();
    }

    /// A `for`, also with `in` or `of`.
    fn counted(&mut self, statement: &'a Statement) {
        let span = statement.span;
        match &statement.kind {
            StatementKind::For {
                init,
                test,
                update,
                body,
            } => {
                self.open("ForStatement", span);
                self.for_init(init);
                self.opt_part("test", *test);
                self.opt_part("update", *update);
                self.body("body", *body);
                self.close();
            }
            StatementKind::ForIn { left, right, body } => {
                self.open("ForInStatement", span);
                self.for_each(left, *right, *body);
            }
            StatementKind::ForOf {
                is_await,
                left,
                right,
                body,
            } => {
                self.open("ForOfStatement", span);
                self.flag("await", *is_await);
                self.for_each(left, *right, *body);
            }
            _ => self.tested(statement),
        }
    }

    /// A loop with a condition alone, or `with`.
    fn tested(&mut self, statement: &'a Statement) {
        let span = statement.span;
        match &statement.kind {
            StatementKind::While { test, body } => {
                self.open("WhileStatement", span);
                self.part("test", test.0);
                self.body("body", *body);
                self.close();
            }
            StatementKind::DoWhile { body, test } => {
                self.open("DoWhileStatement", span);
                self.body("body", *body);
                self.part("test", test.0);
                self.close();
            }
            StatementKind::With { object, body } => {
                self.open("WithStatement", span);
                self.part("object", object.0);
                self.body("body", *body);
                self.close();
            }
            _ => self.module_item(statement),
        }
    }

    /// What the head of a `for` begins with, before its first semicolon.
    fn for_init(&mut self, init: &'a Option<ForInit>) {
        self.field("init");
        match init {
            Some(ForInit::Variables(declaration)) => self.variables(declaration),
            Some(ForInit::Expr(expr)) => self.put(Piece::Node(expr.0)),
            None => self.missing(),
        }
    }

    /// The parts of a `for` with `in` or `of`, and its end.
    fn for_each(&mut self, left: &'a ForTarget, right: ExprId, body: StatementId) {
        self.field("left");
        match left {
            ForTarget::Variables(declaration) => self.variables(declaration),
            ForTarget::Pat(pat) => self.put(Piece::Node(pat.0)),
        }
        self.part("right", right.0);
        self.body("body", body);
        self.close();
    }

    fn variables(&mut self, declaration: &'a VariableDeclaration) {
        self.open("VariableDeclaration", declaration.span);
        self.open_list("declarations");
        for (index, declarator) in declaration.declarators.iter().enumerate() {
            self.comma(index);
            self.open("VariableDeclarator", declarator.span);
            self.part("id", declarator.id.0);
            self.opt_part("init", declarator.init);
            self.close();
        }
        self.close_list();
        self.word("kind", variable_kind(declaration.kind));
        self.close();
    }

    fn switch(&mut self, span: Span, discriminant: ExprId, cases: &'a [SwitchCase]) {
        self.open("SwitchStatement", span);
        self.part("discriminant", discriminant.0);
        self.open_list("cases");
        for (index, case) in cases.iter().enumerate() {
            self.comma(index);
            self.open("SwitchCase", case.span);
            self.statements("consequent", &case.consequent);
            self.opt_part("test", case.test);
            self.close();
        }
        self.close_list();
        self.close();
    }

    fn catch_clause(&mut self, clause: CatchClause) {
        self.open("CatchClause", clause.span);
        self.opt_pat("param", clause.param);
        self.body("body", clause.body);
        self.close();
    }
}

/// The word that a declaration begins with.
fn variable_kind(kind: VariableKind) -> &'static str {
    match kind {
        VariableKind::Var => "var",
        VariableKind::Let => "let",
        VariableKind::Const => "const",
    }
}
