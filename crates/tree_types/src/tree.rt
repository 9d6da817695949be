//! The tree of a program, as values (ECMA-262, 14 to 16).
use swc_ast::ident::{Ident, ModuleExportName, PrivateName};
use swc_ast::lit::Str;
use swc_ast::prop::PropName;
use swc_context::span::Span;
use swc_nodes::node::{ExprId, PatId};
use swc_nodes::nodes::Nodes;

/// What a text is read as.
#[derive(Clone, Copy, Debug, PartialEq, Eq)]
pub enum Goal {
    /// A script (ECMA-262, 16.1).
    Script,
    /// A module (16.2): strict code, in which `import`, `export` and `await` are allowed.
    Module,
    /// The body of a function, as Node.js reads a CommonJS module: a script in which `return` and `new.target` are
    /// allowed.
    CommonJs,
}

impl Goal {
    /// What the word names, `script`, `module` or `commonjs`, which programs have as an argument.
    pub fn named(word: &str) -> Option<Goal> {
        match word {
            "script" => Some(Goal::Script),
            "module" => Some(Goal::Module),
            "commonjs" => Some(Goal::CommonJs),
            _ => None,
        }
    }

    /// Whether it is a module, whose words are read otherwise: `await` is a keyword, and no comment is HTML-like.
    pub fn is_module(self) -> bool {
        matches!(self, Goal::Module)
    }
}

/// A program that was read.
///
/// Statements and expressions are in vectors, and name their parts by numbers. Functions, classes and blocks that are
/// bodies of functions are named by their places, as in the nodes of expressions.
pub struct Program {
    /// From the beginning of the text to its end.
    pub span: Span,
    pub goal: Goal,
    /// The statements of the program itself.
    pub body: Vec<StatementId>,
    /// All expressions and patterns.
    pub nodes: Nodes<Span, Span, Span>,
    /// All statements. Each is after its parts.
    pub statements: Vec<Statement>,
    /// All functions, classes and blocks of functions, in the order in which they begin.
    pub functions: Vec<Function>,
    pub classes: Vec<Class>,
    pub blocks: Vec<Block>,
    /// The places of all of these, in the order in which they begin.
    pub bodies: Vec<Span>,
}

// Not derived: so dropping a program is a call, and is proved here alone.
impl Drop for Program {
    fn drop(self) {
        let Program {
            span: _,
            goal: _,
            body: _,
            nodes: _,
            statements: _,
            functions: _,
            classes: _,
            blocks: _,
            bodies: _,
        } = self;
    }
}

impl Program {
    /// The statement that has the number.
    pub fn statement(&self, id: StatementId) -> Option<&Statement> {
        self.statements.get(id.0)
    }

    /// The function at the place, which a statement or a node names.
    pub fn function(&self, place: Span) -> Option<&Function> {
        let index = self
            .functions
            .partition_point(|function| function.span.lo < place.lo);
        self.functions
            .get(index)
            .filter(|function| function.span == place)
    }

    /// The class at the place, which a statement or a node names.
    pub fn class(&self, place: Span) -> Option<&Class> {
        let index = self
            .classes
            .partition_point(|class| class.span.lo < place.lo);
        self.classes.get(index).filter(|class| class.span == place)
    }

    /// The block of a function at the place, which a function, a member of a class or a node names.
    pub fn block(&self, place: Span) -> Option<&Block> {
        let index = self
            .blocks
            .partition_point(|block| block.span.lo < place.lo);
        self.blocks.get(index).filter(|block| block.span == place)
    }
}

/// The number of a statement among those of a program.
#[derive(Clone, Copy, Debug, PartialEq, Eq)]
pub struct StatementId(pub usize);

/// A statement, a declaration, or an item of a module, and its place: from its first token to its last, a semicolon
/// included.
#[derive(Drop)]
pub struct Statement {
    pub span: Span,
    pub kind: StatementKind,
}

/// What a statement is. Functions, classes and blocks of functions are named by their places, by which
/// `Program::function`, `Program::class` and `Program::block` find them.
#[derive(Drop)]
pub enum StatementKind {
    /// `{ .. }` (14.2)
    Block(Vec<StatementId>),
    /// `;` (14.4)
    Empty,
    /// An expression (14.5).
    Expr(ExprId),
    /// A string at the beginning of a program or the body of a function (11.2.1), which may be `"use strict"`.
    Directive(ExprId),
    /// `debugger` (14.16)
    Debugger,
    /// `if (test) consequent else alternate` (14.6)
    If {
        test: ExprId,
        consequent: StatementId,
        alternate: Option<StatementId>,
    },
    /// `do body while (test)` (14.7.2)
    DoWhile {
        body: StatementId,
        test: ExprId,
    },
    /// `while (test) body` (14.7.3)
    While {
        test: ExprId,
        body: StatementId,
    },
    /// `for (init; test; update) body` (14.7.4)
    For {
        init: Option<ForInit>,
        test: Option<ExprId>,
        update: Option<ExprId>,
        body: StatementId,
    },
    /// `for (left in right) body` (14.7.5)
    ForIn {
        left: ForTarget,
        right: ExprId,
        body: StatementId,
    },
    /// `for (left of right) body`, or `for await` (14.7.5)
    ForOf {
        is_await: bool,
        left: ForTarget,
        right: ExprId,
        body: StatementId,
    },
    /// `continue label` (14.8)
    Continue(Option<Ident>),
    /// `break label` (14.9)
    Break(Option<Ident>),
    /// `return argument` (14.10)
    Return(Option<ExprId>),
    /// `with (object) body` (14.11)
    With {
        object: ExprId,
        body: StatementId,
    },
    /// `switch (discriminant) { .. }` (14.12)
    Switch {
        discriminant: ExprId,
        cases: Vec<SwitchCase>,
    },
    /// `label: body` (14.13)
    Labeled {
        label: Ident,
        body: StatementId,
    },
    /// `throw argument` (14.14)
    Throw(ExprId),
    /// `try block catch .. finally ..` (14.15). The block and the finalizer are blocks.
    Try {
        block: StatementId,
        handler: Option<CatchClause>,
        finalizer: Option<StatementId>,
    },
    /// `var`, `let` or `const` (14.3)
    Variables(VariableDeclaration),
    /// A function (15.2, 15.5, 15.6 and 15.8), at this place.
    Function(Span),
    /// A class (15.7), at this place.
    Class(Span),
    /// `import .. from source` (16.2.2), or `import source`, which has no clause.
    Import(ImportDeclaration),
    /// `export { .. }`, or `export { .. } from source` (16.2.3)
    ExportNamed(NamedExports),
    /// `export * from source`, or `export * as name from source` (16.2.3)
    ExportAll(AllExports),
    /// `export` with a declaration (16.2.3): of variables, a function or a class.
    ExportDeclaration(StatementId),
    /// `export default` (16.2.3)
    ExportDefault(DefaultExport),
}

/// `var`, `let` or `const` (14.3)
#[derive(Clone, Copy, Debug, PartialEq, Eq)]
pub enum VariableKind {
    Var,
    Let,
    Const,
}

/// A declaration of variables (14.3), from its word to its semicolon; in the head of a `for`, to its last declarator.
#[derive(Drop)]
pub struct VariableDeclaration {
    pub span: Span,
    pub kind: VariableKind,
    pub declarators: Vec<Declarator>,
}

/// A name or a pattern that is declared, and its value, or `None`.
#[derive(Clone, Copy)]
pub struct Declarator {
    pub span: Span,
    pub id: PatId,
    pub init: Option<ExprId>,
}

/// What the head of a `for` begins with, before its first semicolon (14.7.4).
#[derive(Drop)]
pub enum ForInit {
    Variables(VariableDeclaration),
    Expr(ExprId),
}

/// What each turn of a `for` assigns to (14.7.5): one declarator, or a pattern. An expression, as `a.b`, is a pattern
/// of the kind `PatExpr`.
#[derive(Drop)]
pub enum ForTarget {
    Variables(VariableDeclaration),
    Pat(PatId),
}

/// A clause of a `switch` (14.12): from `case` or `default` to its last statement. `default` has no test.
#[derive(Drop)]
pub struct SwitchCase {
    pub span: Span,
    pub test: Option<ExprId>,
    pub consequent: Vec<StatementId>,
}

/// What handles a `try` (14.15): from `catch` to the end of its block. The body is a block.
#[derive(Clone, Copy)]
pub struct CatchClause {
    pub span: Span,
    pub param: Option<PatId>,
    pub body: StatementId,
}

/// A function (15.2, 15.5, 15.6 and 15.8): from `function`, or from `async`, to the `}` of its body. The function of a
/// method of a class has no name, and begins with the `(` of its parameters.
///
/// An arrow function, and a method of an object literal, is a node of its expression: of these the blocks are bodies of
/// their own.
#[derive(Drop)]
pub struct Function {
    pub span: Span,
    pub name: Option<Ident>,
    pub params: Vec<PatId>,
    /// The place of its block, by which `Program::block` finds it.
    pub body: Span,
    pub is_async: bool,
    pub is_generator: bool,
}

/// The block of a function, a method, an arrow function or a `static` block of a class: from `{` to `}`.
#[derive(Drop)]
pub struct Block {
    pub span: Span,
    pub statements: Vec<StatementId>,
}

/// A class (15.7): from `class` to its last `}`.
#[derive(Drop)]
pub struct Class {
    pub span: Span,
    pub name: Option<Ident>,
    pub heritage: Option<ExprId>,
    /// From the `{` of the class to its `}`.
    pub body_span: Span,
    pub members: Vec<Member>,
}

/// A member of a class (15.7), from its first token to its last: of a field, the semicolon if there is one.
#[derive(Drop)]
pub struct Member {
    pub span: Span,
    pub is_static: bool,
    pub kind: MemberKind,
}

/// What a member of a class is.
#[derive(Drop)]
pub enum MemberKind {
    Method {
        kind: MethodKind,
        key: MemberKey,
        function: Function,
    },
    Field {
        key: MemberKey,
        value: Option<ExprId>,
    },
    /// The place of the block of a `static` block, by which `Program::block` finds it.
    StaticBlock(Span),
}

/// What kind of method a member is. A constructor is no static one, and its key is the name or the string
/// `constructor`.
#[derive(Clone, Copy, Debug, PartialEq, Eq)]
pub enum MethodKind {
    Constructor,
    Method,
    Get,
    Set,
}

/// The key of a member of a class.
#[derive(Drop)]
pub enum MemberKey {
    /// A name, a string, a number, or `[computed]`.
    Prop(PropName<ExprId>),
    /// `#name`, whose place has the `#`.
    Private(PrivateName),
}

/// `import` (16.2.2)
#[derive(Drop)]
pub struct ImportDeclaration {
    pub specifiers: Vec<ImportSpecifier>,
    pub source: Str,
    pub attributes: Vec<ImportAttribute>,
}

/// A name that is imported.
#[derive(Drop)]
pub struct ImportSpecifier {
    pub span: Span,
    pub local: Ident,
    pub kind: ImportKind,
}

/// What a name is imported as.
#[derive(Drop)]
pub enum ImportKind {
    /// `import local`
    Default,
    /// `import * as local`
    Namespace,
    /// `import { local }`, or `import { name as local }`, which has the name.
    Named(Option<ModuleExportName>),
}

/// An attribute after `with` (16.2.2): its key is a name or a string.
#[derive(Drop)]
pub struct ImportAttribute {
    pub span: Span,
    pub key: ModuleExportName,
    pub value: Str,
}

/// `export { .. }` (16.2.3). Without a source, each local name is an identifier.
#[derive(Drop)]
pub struct NamedExports {
    pub specifiers: Vec<ExportSpecifier>,
    pub source: Option<Str>,
    pub attributes: Vec<ImportAttribute>,
}

/// `local`, or `local as exported`.
#[derive(Drop)]
pub struct ExportSpecifier {
    pub span: Span,
    pub local: ModuleExportName,
    pub exported: Option<ModuleExportName>,
}

/// `export * from source` (16.2.3)
#[derive(Drop)]
pub struct AllExports {
    pub exported: Option<ModuleExportName>,
    pub source: Str,
    pub attributes: Vec<ImportAttribute>,
}

/// What `export default` exports (16.2.3). A function and a class need no name, and are named by their places.
#[derive(Clone, Copy)]
pub enum DefaultExport {
    Expr(ExprId),
    Function(Span),
    Class(Span),
}
