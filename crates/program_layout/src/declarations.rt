// What is noted at declarations of variables, and at heads of `for` (ECMA-262, 14.3 and 14.7).
use crate::layout::ProgramMarks;
use expr_layout::assigning::Assigned;
use layout_document::marks::{BARE, Gap, Group, LINE, PLAIN, Shape, When};
use std::alloc::AllocError;
use swc_nodes::node::ExprId;
use tree_types::tree::{ForInit, ForTarget, StatementKind, VariableDeclaration};

impl ProgramMarks<'_> {
    /// Notes a declaration that is a statement: its declarators are a group, which is broken if one has a value.
    pub(crate) fn mark_declaration(
        &mut self,
        variables: &VariableDeclaration,
    ) -> Result<(), AllocError> {
        let has_value = variables
            .declarators
            .iter()
            .any(|declarator| declarator.init.is_some());
        let gap = if has_value {
            Gap::line_when(true, true, When::Always)
        } else {
            LINE
        };
        if 1 < variables.declarators.len() {
            self.marks.add_group_at(variables.span);
            if let (true, Some(first)) = (has_value, variables.declarators.first()) {
                self.marks.add_outer_at(first.span, Group::Deeper);
            }
        }
        self.mark_variables(variables, gap)
    }

    /// Notes what is in a declaration, with the gap before each declarator but the first.
    fn mark_variables(
        &mut self,
        variables: &VariableDeclaration,
        gap: Gap,
    ) -> Result<(), AllocError> {
        let program = self.program;
        let mut before = Gap::Blank;
        for declarator in &variables.declarators {
            self.marks.set_at(declarator.span.lo, before);
            if let Some(init) = declarator.init {
                self.mark_assigned(Assigned::variable(&program.nodes, declarator.id, init))?;
            }
            before = gap;
        }
        Ok(())
    }

    /// Notes what is in the head of a `for`, whose `(` is the unit of the number.
    pub(crate) fn mark_for_head(
        &mut self,
        kind: &StatementKind,
        bracket: usize,
    ) -> Result<(), AllocError> {
        match kind {
            StatementKind::For {
                init,
                test,
                update,
                ..
            } => {
                if let Some(ForInit::Variables(variables)) = init {
                    self.mark_variables(variables, LINE)?;
                }
                self.set_part(*test);
                self.set_part(*update);
                let is_full = init.is_some() || test.is_some();
                let ends_blank = is_full && update.is_none();
                self.marks.shape(
                    bracket,
                    Shape {
                        ends_blank,
                        ..PLAIN
                    },
                );
            }
            StatementKind::ForIn { left, right, .. } | StatementKind::ForOf { left, right, .. } => {
                if let ForTarget::Variables(variables) = left {
                    self.mark_variables(variables, LINE)?;
                }
                self.set_operand(*right);
                self.marks.shape(bracket, BARE);
            }
            _ => {}
        }
        Ok(())
    }

    /// Notes a line before a part of the head, if it is there.
    fn set_part(&mut self, part: Option<ExprId>) {
        if let Some(expr) = part {
            self.set_expr(expr, LINE);
        }
    }
}
