// A walk over a program.
use crate::parts::{Child, parts_of};
use std::alloc::{AllocError, Global};
use swc_context::span::Span;
use swc_nodes::node::{ExprId, PatId};
pub use swc_nodes::walk::Step;
use tree_types::tree::{Program, StatementId};

/// A part of a program. Functions, classes and blocks are named by their places, as in the tree.
#[derive(Clone, Copy, Debug, PartialEq, Eq)]
pub enum Part {
    /// A statement, a declaration or an item of a module.
    Statement(StatementId),
    Expr(ExprId),
    Pat(PatId),
    /// A function, whose parameters and block are parts of it (`Program::function`). That of a method is none: its
    /// parameters and block are parts of the member, or of the object literal.
    Function(Span),
    /// A class, whose heritage and members are parts of it (`Program::class`).
    Class(Span),
    /// The member with this index, of the class at this place.
    Member { class: Span, index: usize },
    /// The block of a function, a method, an arrow function, or a `static` block (`Program::block`).
    Block(Span),
}

/// A visit of a part: before what is in it, or after that.
#[derive(Clone, Copy)]
pub struct Visit {
    pub step: Step,
    pub part: Part,
    pub span: Span,
}

/// A walk: each part is entered, then what is in it is visited, and then it is left.
#[derive(Drop)]
pub struct Walk<'a> {
    alloc: Global,
    program: &'a Program,
    /// The visits that are due, the next one last.
    due: Vec<Visit>,
    /// What was entered and isn't left, the innermost last, but for what the last visit entered.
    around: Vec<Part>,
    /// What the last visit entered, whose parts aren't due yet.
    entered: Option<Visit>,
}

impl<'a> Walk<'a> {
    /// A walk over all statements of a program. The only error is out of memory.
    pub fn new(alloc: Global, program: &'a Program) -> Result<Walk<'a>, AllocError> {
        let mut found = Vec::new(alloc);
        for id in &program.body {
            found.push(Part::Statement(*id))?;
        }
        Walk::over(alloc, program, &found)
    }

    /// A walk over these parts of a program, one after another. One that the program doesn't have is left out. The only
    /// error is out of memory.
    pub fn over(
        alloc: Global,
        program: &'a Program,
        parts: &[Part],
    ) -> Result<Walk<'a>, AllocError> {
        let mut walk = Walk {
            alloc,
            program,
            due: Vec::new(alloc),
            around: Vec::new(alloc),
            entered: None,
        };
        for part in parts.iter().rev() {
            walk.put_off(*part)?;
        }
        Ok(walk)
    }

    /// The next visit; `None` at the end. The only error is out of memory.
    pub fn next(&mut self) -> Result<Option<Visit>, AllocError> {
        if let Some(entered) = self.entered.take() {
            self.open(entered)?;
        }
        let Some(visit) = self.due.pop() else {
            return Ok(None);
        };
        match visit.step {
            Step::Enter => self.entered = Some(visit),
            Step::Leave => {
                self.around.pop();
            }
        }
        Ok(Some(visit))
    }

    /// Goes over nothing that is in the part that was entered last: it is left next. Does nothing after a part was left.
    /// The only error is out of memory.
    pub fn skip(&mut self) -> Result<(), AllocError> {
        if let Some(entered) = self.entered.take() {
            self.leave_next(entered)?;
        }
        Ok(())
    }

    /// The parts around the one that was visited last, the innermost last.
    pub fn around(&self) -> &[Part] {
        &self.around
    }

    /// The innermost part around the one that was visited last; `None` where the walk began with that.
    pub fn parent(&self) -> Option<Part> {
        self.around.last().copied()
    }

    /// Has a part entered next, if the program has it.
    fn put_off(&mut self, part: Part) -> Result<(), AllocError> {
        if let Some(span) = span_of(self.program, part) {
            self.due.push(Visit {
                step: Step::Enter,
                part,
                span,
            })?;
        }
        Ok(())
    }

    fn leave_next(&mut self, entered: Visit) -> Result<(), AllocError> {
        self.due.push(Visit {
            step: Step::Leave,
            ..entered
        })?;
        self.around.push(entered.part)?;
        Ok(())
    }

    /// Has what is in a part entered, in the order of the text, and then the part left.
    fn open(&mut self, entered: Visit) -> Result<(), AllocError> {
        self.leave_next(entered)?;
        let mut found = parts_of(self.alloc, self.program, entered.part)?;
        found.sort_by_key(|child: &Child| child.span.lo.0)?;
        for child in found.iter().rev() {
            self.due.push(Visit {
                step: Step::Enter,
                part: child.part,
                span: child.span,
            })?;
        }
        Ok(())
    }
}

/// The place of a part; `None` where the program has none.
pub fn span_of(program: &Program, part: Part) -> Option<Span> {
    match part {
        Part::Statement(id) => Some(program.statement(id)?.span),
        Part::Expr(id) => program.nodes.span_of(id),
        Part::Pat(id) => program.nodes.span_of(id),
        Part::Function(place) => Some(program.function(place)?.span),
        Part::Class(place) => Some(program.class(place)?.span),
        Part::Member { class, index } => Some(program.class(class)?.members.get(index)?.span),
        Part::Block(place) => Some(program.block(place)?.span),
    }
}
