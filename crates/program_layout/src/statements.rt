// What is noted at statements (ECMA-262, 14).
use crate::ends::{is_ended, switch_brace};
use crate::layout::ProgramMarks;
use layout_document::marks::{Gap, LINE};
use layout_document::roles::Role;
use std::alloc::AllocError;
use swc_context::span::{BytePos, Span};
use swc_nodes::node::ExprId;
use tree_types::tree::{CatchClause, Statement, StatementId, StatementKind, SwitchCase};

impl ProgramMarks<'_> {
    /// Notes what is in a statement, but for the statements in it.
    pub(crate) fn mark_statement(&mut self, statement: &Statement) -> Result<(), AllocError> {
        let place = statement.span;
        if is_ended(&statement.kind) {
            self.end_statement(place);
        }
        match &statement.kind {
            StatementKind::Block(items) => self.mark_block(place, items),
            StatementKind::Expr(expr) => self.mark_whole(*expr, Role::Statement),
            StatementKind::Return(Some(expr)) | StatementKind::Throw(expr) => {
                self.set_expr(*expr, Gap::Blank);
                self.mark_whole(*expr, Role::Result);
            }
            StatementKind::Labeled { body, .. } => self.set_body(*body, Gap::Blank),
            StatementKind::Variables(variables) => self.mark_declaration(variables)?,
            StatementKind::For { body, .. }
            | StatementKind::ForIn { body, .. }
            | StatementKind::ForOf { body, .. } => self.mark_for(place, &statement.kind, *body)?,
            kind => self.mark_compound(place, kind),
        }
        Ok(())
    }

    /// Notes what is in a statement that ends with another one, or has words between others; or an item of a module.
    fn mark_compound(&mut self, place: Span, kind: &StatementKind) {
        match kind {
            StatementKind::If {
                test,
                consequent,
                alternate,
            } => {
                self.mark_test(*test);
                self.mark_if(place, *consequent, *alternate);
            }
            StatementKind::DoWhile { body, test } => {
                self.mark_test(*test);
                self.mark_do(place, *body);
            }
            StatementKind::While { test, body } => {
                self.mark_test(*test);
                self.mark_headed(place, 1, *body);
            }
            StatementKind::With { body, .. } => self.mark_headed(place, 1, *body),
            StatementKind::Switch {
                discriminant,
                cases,
            } => {
                self.mark_test(*discriminant);
                self.mark_switch(place, cases);
            }
            StatementKind::Try {
                block,
                handler,
                finalizer,
            } => self.mark_try(*block, *handler, *finalizer),
            kind => self.mark_item(place, kind),
        }
    }

    fn mark_for(
        &mut self,
        place: Span,
        kind: &StatementKind,
        body: StatementId,
    ) -> Result<(), AllocError> {
        let words = match kind {
            StatementKind::ForOf { is_await: true, .. } => 2,
            _ => 1,
        };
        let bracket = self.marks.at(place.lo).saturating_add(words);
        self.mark_for_head(kind, bracket)?;
        self.mark_headed(place, words, body);
        Ok(())
    }

    /// Notes the braces and the statements of a block.
    pub(crate) fn mark_block(&mut self, place: Span, items: &[StatementId]) {
        let first = self.marks.at(place.lo);
        let last = self.last_of(place);
        self.mark_braces(first, last);
        self.mark_list(items, true);
    }

    /// Notes a statement that is so many words, something in parentheses, and another statement, as `while (a) b`.
    fn mark_headed(&mut self, place: Span, words: usize, body: StatementId) {
        let first = self.marks.at(place.lo);
        self.marks.set(first.saturating_add(1), Gap::Blank);
        self.marks.set(first.saturating_add(words), Gap::Blank);
        self.mark_clause(first, body);
    }

    /// Notes a statement that another one ends with, whose head begins with the unit of the number: they are a group.
    fn mark_clause(&mut self, first: usize, body: StatementId) {
        self.set_body(body, LINE);
        if let Some(statement) = self.program.statement(body) {
            if !matches!(
                statement.kind,
                StatementKind::Block(_) | StatementKind::Empty
            ) {
                let last = self.last_of(statement.span);
                self.marks.add_group(first, last);
            }
        }
    }

    /// Notes what is before a statement that another one ends with: before a block, a blank; before a semicolon alone,
    /// nothing; and otherwise the gap.
    fn set_body(&mut self, body: StatementId, gap: Gap) {
        if let Some(statement) = self.program.statement(body) {
            let gap = match statement.kind {
                StatementKind::Block(_) => Gap::Word,
                StatementKind::Empty => Gap::Nothing,
                _ => gap,
            };
            self.marks.set_at(statement.span.lo, gap);
        }
    }

    /// The place of a statement, if it is one of the program, as each is that another one names.
    fn place_of(&self, id: StatementId) -> Option<Span> {
        let statement = self.program.statement(id)?;
        Some(statement.span)
    }

    /// Whether the statement is a block.
    fn is_block(&self, id: StatementId) -> bool {
        match self.program.statement(id) {
            Some(statement) => matches!(statement.kind, StatementKind::Block(_)),
            None => false,
        }
    }

    /// Whether the statement is an `if`.
    fn is_if(&self, id: StatementId) -> bool {
        match self.program.statement(id) {
            Some(statement) => matches!(statement.kind, StatementKind::If { .. }),
            None => false,
        }
    }

    fn mark_if(&mut self, place: Span, consequent: StatementId, alternate: Option<StatementId>) {
        self.mark_headed(place, 1, consequent);
        let Some((id, part)) = alternate.and_then(|id| Some((id, self.place_of(id)?))) else {
            return;
        };
        let gap = if self.is_block(consequent) {
            Gap::Word
        } else {
            Gap::Break
        };
        let word = self.marks.before(part.lo);
        self.marks.set(word, gap);
        if self.is_if(id) {
            self.set_body(id, Gap::Blank);
        } else {
            self.mark_clause(word, id);
        }
    }

    fn mark_do(&mut self, place: Span, body: StatementId) {
        self.set_body(body, LINE);
        if let Some(part) = self.place_of(body) {
            let word = self.marks.at(part.hi);
            let gap = if self.is_block(body) {
                Gap::Word
            } else {
                Gap::line(true, false)
            };
            self.marks.set(word, gap);
            self.marks.set(word.saturating_add(1), Gap::Blank);
        }
        self.marks.add_group_at(place);
    }

    fn mark_try(
        &mut self,
        block: StatementId,
        handler: Option<CatchClause>,
        finalizer: Option<StatementId>,
    ) {
        self.set_body(block, Gap::Blank);
        if let Some(clause) = handler {
            let word = self.marks.at(clause.span.lo);
            self.marks.set(word, Gap::Word);
            self.marks.set(word.saturating_add(1), Gap::Blank);
            self.set_body(clause.body, Gap::Blank);
            if let Some(param) = clause.param {
                self.marks.set_role(ExprId(param.0), Role::Parameter);
            }
        }
        if let Some(part) = finalizer.and_then(|block| self.place_of(block)) {
            let first = self.marks.at(part.lo);
            self.marks.set(first, Gap::Word);
            self.marks.set(first.saturating_sub(1), Gap::Word);
        }
    }

    fn mark_switch(&mut self, place: Span, cases: &[SwitchCase]) {
        let first = self.marks.at(place.lo);
        let brace = switch_brace(&self.marks, place, cases);
        self.marks.set(first.saturating_add(1), Gap::Blank);
        self.marks.set(brace, Gap::Word);
        self.mark_braces(brace, self.last_of(place));
        for case in cases {
            self.mark_case(case);
        }
    }

    /// Notes a clause of a `switch`, whose statements are a body.
    fn mark_case(&mut self, case: &SwitchCase) {
        self.set_line(case.span.lo);
        if let Some(test) = case.test {
            self.set_expr(test, Gap::Blank);
            self.mark_whole(test, Role::Plain);
        }
        match case.consequent.as_slice() {
            [] => {}
            [block] if self.is_block(*block) => self.set_body(*block, Gap::Blank),
            items => {
                let first = self.marks.at(case.span.lo);
                let last = self.last_of(case.span);
                self.marks.add_group(first, last);
                self.mark_list(items, true);
            }
        }
    }

    /// Notes that a clause or a member begins a line.
    pub(crate) fn set_line(&mut self, place: BytePos) {
        self.marks.set_at(place, Gap::Statement { is_deeper: true });
    }
}
