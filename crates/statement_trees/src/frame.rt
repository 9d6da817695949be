// What is begun and not ended.
use swc_ecma_parser::ast::ident::Ident;
use swc_ecma_parser::context::span::BytePos;
use swc_ecma_parser::nodes::node::{ExprId, PatId};
use tree_types::tree::{CatchClause, ForInit, ForTarget, StatementId, SwitchCase};

/// What is to be done next.
#[derive(Drop)]
pub(crate) enum Frame {
    /// A statement is to be read that is a part of another one.
    Body,
    /// A list goes on, before its next statement.
    List(List),
    /// A list goes on, after the statement that was read last.
    Item(List),
    /// A statement that began there goes on, after its part.
    Part(BytePos, Part),
}

/// A list of statements.
#[derive(Drop)]
pub(crate) struct List {
    pub(crate) owner: Owner,
    pub(crate) items: Vec<StatementId>,
}

/// What a list of statements is in.
#[derive(Drop)]
pub(crate) enum Owner {
    /// A program.
    Program,
    /// The block of a function. Its `}` isn't consumed.
    Function,
    /// A static block of a class. Its `}` isn't consumed.
    StaticBlock,
    /// A block that began there.
    Block(BytePos),
    /// A clause of a `switch`.
    Clause(Switch, Clause),
}

/// A `switch` whose clauses are read.
#[derive(Drop)]
pub(crate) struct Switch {
    pub(crate) start: BytePos,
    pub(crate) discriminant: ExprId,
    pub(crate) cases: Vec<SwitchCase>,
}

/// The beginning of a clause of a `switch`.
#[derive(Clone, Copy)]
pub(crate) struct Clause {
    pub(crate) start: BytePos,
    pub(crate) test: Option<ExprId>,
}

/// A statement with a part that is read next.
#[derive(Drop)]
pub(crate) enum Part {
    /// `if`, before its first part.
    If(ExprId),
    /// `if`, before the part after `else`.
    Else(ExprId, StatementId),
    /// `do`
    Do,
    /// `while`
    While(ExprId),
    /// `with`
    With(ExprId),
    /// `for`
    For(ForHead),
    /// A label.
    Label(Ident),
    /// `try`, before its block.
    Try,
    /// `try`, before the block of `catch`, which began there.
    Catch {
        block: StatementId,
        start: BytePos,
        param: Option<PatId>,
    },
    /// `try`, before the block of `finally`.
    Finally {
        block: StatementId,
        handler: Option<CatchClause>,
    },
}

/// The head of a `for`.
#[derive(Drop)]
pub(crate) enum ForHead {
    /// `for (init; test; update)`
    Three {
        init: Option<ForInit>,
        test: Option<ExprId>,
        update: Option<ExprId>,
    },
    /// `for (left in right)`
    In {
        left: ForTarget,
        right: ExprId,
    },
    /// `for (left of right)`, or `for await`
    Of {
        is_await: bool,
        left: ForTarget,
        right: ExprId,
    },
}
