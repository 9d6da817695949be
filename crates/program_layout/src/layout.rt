// The layout of a program as a text.
use crate::ends::without_ends;
use expr_layout::assigning::{Assigned, mark_assigned};
use expr_layout::operators::mark_all_nodes;
use layout_document::brackets::mark_brackets;
use layout_document::gaps::{Part, parts_of};
use layout_document::marks::{Gap, LINE, Marks, Whole};
use layout_document::print::print;
use layout_document::roles::{Lines, Role};
use layout_document::style::Style;
use layout_document::units::{Unit, units_of};
use program_tokens::texts::tokens_of;
use std::alloc::{AllocError, Global};
use swc_context::span::{BytePos, Span};
use swc_nodes::node::{ExprId, Node};
use tree_types::tree::{Goal, Program, StatementId};

/// What is noted at the units of a program.
#[derive(Drop)]
pub(crate) struct ProgramMarks<'a> {
    alloc: Global,
    pub(crate) program: &'a Program,
    pub(crate) marks: Marks,
}

/// The layout of the program of a text, in a style. It doesn't end with a line break. The program goes back as soon as it
/// is done with.
///
/// All tokens and comments are written as they are in the text, in their order. Only these change:
///
/// - blanks and line breaks outside templates, strings and comments, and those before `*` in comments;
/// - semicolons: each statement and each field of a class that one may end has one, right after its last token, and
///   there are none between the members of a class;
/// - commas before closing brackets, by the rules of `expr_layout`.
///
/// So the layout, read again, gives the same tree, but for places, and is its own layout.
///
/// **Lines.** Each statement, member of a class and clause of a `switch` begins a line, and so does the `}` after them,
/// but in `{}`. Lines in braces, and statements of a clause, are indented by one step more; a block that is alone in a
/// clause is on the line of that. One empty line is between them where the text has one or more, but none at the ends
/// of braces and of the program. `else`, `catch`, `finally` and the `while` of a `do` are on the line of a `}` before
/// them.
///
/// A body of `if`, `else`, a loop or `with` that is no block is on the line of its head if both go on one line, and
/// otherwise on a line of its own, indented by one step more.
///
/// **Expressions** and what is in brackets are laid out by the rules of `expr_layout`, but that functions, classes and
/// blocks in them are laid out too. Declarators after the first begin lines if one has a value. They, and expressions of
/// a list that is a statement, are indented by one step more.
///
/// **Comments** stay on their lines: one after a statement on its line, and one before a statement on lines of its own.
/// Comments alone in braces are on the line of these if the text has no line break there.
///
/// Takes time almost in proportion to the text, and doesn't recur over statements, functions and classes. The only error
/// is out of memory.
pub fn layout_of(
    alloc: Global,
    text: &str,
    program: Program,
    style: Style,
) -> Result<String, AllocError> {
    let parts = program_parts(alloc, text, program, style)?;
    print(alloc, text, &parts, style)
}

/// The units of a program's text. Its tokens go back at once.
fn program_units(alloc: Global, text: &str, goal: Goal) -> Result<Vec<Unit>, AllocError> {
    let tokens = tokens_of(alloc, text, goal.is_module())?;
    units_of(alloc, &tokens, &[])
}

/// The parts of the layout of the program of a text: what is noted at its units goes back, and so does the program. The
/// only error is out of memory.
fn program_parts(
    alloc: Global,
    text: &str,
    whole: Program,
    style: Style,
) -> Result<Vec<Part>, AllocError> {
    let program = &whole;
    let units = program_units(alloc, text, program.goal)?;
    let all = Marks::new(alloc, Whole::Program, style, units, 0)?;
    let marks = without_ends(alloc, all, program)?;
    let mut noted = ProgramMarks {
        alloc,
        program,
        marks,
    };
    noted.mark_program()?;
    mark_all_nodes(alloc, &mut noted.marks, &program.nodes)?;
    mark_brackets(alloc, text, &mut noted.marks)?;
    noted.mark_ignored(text);
    parts_of(alloc, text, &noted.marks)
}

impl ProgramMarks<'_> {
    /// Notes what is between statements and in them, and at functions and classes.
    fn mark_program(&mut self) -> Result<(), AllocError> {
        let program = self.program;
        self.mark_list(&program.body, false);
        for statement in &program.statements {
            self.mark_statement(statement)?;
        }
        for place in &program.bodies {
            self.mark_place(*place)?;
        }
        Ok(())
    }

    /// Notes that statements begin lines.
    pub(crate) fn mark_list(&mut self, list: &[StatementId], is_deeper: bool) {
        for id in list {
            if let Some(statement) = self.program.statement(*id) {
                self.marks
                    .set_at(statement.span.lo, Gap::Statement { is_deeper });
            }
        }
    }

    /// The number of the last unit of what is at the place.
    pub(crate) fn last_of(&self, place: Span) -> usize {
        self.marks.at(place.hi).saturating_sub(1)
    }

    /// Notes that a semicolon is after what is at the place.
    pub(crate) fn end_statement(&mut self, place: Span) {
        let last = self.last_of(place);
        self.marks.end_statement(last);
    }

    /// Notes a body, from its `{` to its `}`.
    pub(crate) fn mark_braces(&mut self, first: usize, last: usize) {
        self.marks.add_group(first, last);
        self.marks.set(last, Gap::End);
    }

    /// Where an expression begins, if it is one of the nodes, as each of a program is.
    pub(crate) fn start_of(&self, expr: ExprId) -> Option<BytePos> {
        let span = self.program.nodes.span_of(expr)?;
        Some(span.lo)
    }

    /// Notes what is before an expression.
    pub(crate) fn set_expr(&mut self, expr: ExprId, gap: Gap) {
        if let Some(start) = self.start_of(expr) {
            self.marks.set_at(start, gap);
        }
    }

    /// Notes a blank before an operator or a word, and one after it, before an expression.
    pub(crate) fn set_operand(&mut self, expr: ExprId) {
        if let Some(start) = self.start_of(expr) {
            self.marks.set_operator(start, Gap::Blank, Gap::Blank);
        }
    }

    /// Notes what a variable, a field or a property of a pattern is set to.
    pub(crate) fn mark_assigned(&mut self, assigned: Assigned) -> Result<(), AllocError> {
        let program = self.program;
        mark_assigned(self.alloc, &mut self.marks, &program.nodes, assigned)
    }

    /// Notes what an expression is to its statement, and the lines of a list of expressions, `a, b`, outside brackets.
    pub(crate) fn mark_whole(&mut self, expr: ExprId, role: Role) {
        let program = self.program;
        if let Some(Node::Seq { span, exprs }) = program.nodes.node(expr) {
            self.marks.add_group_at(*span);
            for part in exprs.iter().skip(1) {
                self.set_expr(*part, LINE);
            }
        } else {
            self.marks.set_role(expr, role);
        }
    }

    /// Notes that an expression is the test of a statement.
    pub(crate) fn mark_test(&mut self, expr: ExprId) {
        if let Some(Node::Bin { .. }) = self.program.nodes.node(expr) {
            self.marks.set_role(expr, Role::Lined(Lines::Test));
        }
    }
}
