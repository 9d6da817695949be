// What is noted at functions and classes (ECMA-262, 15).
use crate::layout::ProgramMarks;
use expr_layout::assigning::Assigned;
use expr_layout::lists::{mark_key, mark_params};
use layout_document::marks::Gap;
use std::alloc::AllocError;
use swc_ast::spanned::Spanned;
use swc_context::span::{BytePos, Span};
use tree_types::tree::{Class, Function, Member, MemberKey, MemberKind};

impl ProgramMarks<'_> {
    /// Notes a function, a class or the block of a function, at its place.
    pub(crate) fn mark_place(&mut self, place: Span) -> Result<(), AllocError> {
        let program = self.program;
        if let Some(function) = program.function(place) {
            self.mark_function(function);
        } else if let Some(class) = program.class(place) {
            self.mark_class(class)?;
        } else if let Some(block) = program.block(place) {
            self.mark_block(place, &block.statements);
        }
        Ok(())
    }

    /// Notes a blank after the words of a function, before its name or its parameters, and one before its block.
    fn mark_function(&mut self, function: &Function) {
        let words = usize::from(function.is_async).saturating_add(1);
        let signs = usize::from(function.is_generator);
        let first = self.marks.at(function.span.lo);
        let next = first.saturating_add(words).saturating_add(signs);
        self.marks.set(next, Gap::Blank);
        self.mark_parameters(function);
    }

    /// Notes the parameters of a function, and the blank before its block.
    fn mark_parameters(&mut self, function: &Function) {
        let program = self.program;
        let start = function.span.lo;
        mark_params(&mut self.marks, &program.nodes, start, &function.params);
        self.marks.set_at(function.body.lo, Gap::Word);
    }

    fn mark_class(&mut self, class: &Class) -> Result<(), AllocError> {
        if let Some(heritage) = class.heritage {
            self.set_operand(heritage);
        }
        self.marks.set_at(class.body_span.lo, Gap::Word);
        let first = self.marks.at(class.body_span.lo);
        self.mark_braces(first, self.last_of(class.body_span));
        for member in &class.members {
            self.mark_member(member)?;
        }
        Ok(())
    }

    fn mark_member(&mut self, member: &Member) -> Result<(), AllocError> {
        match &member.kind {
            MemberKind::StaticBlock(place) => self.marks.set_at(place.lo, Gap::Word),
            MemberKind::Field { key, value } => {
                self.set_key(key, 0);
                if let Some(value) = value {
                    self.mark_assigned(Assigned::field(*value))?;
                }
                self.end_statement(member.span);
            }
            MemberKind::Method { key, function, .. } => {
                self.set_key(key, usize::from(function.is_generator));
                self.mark_parameters(function);
            }
        }
        self.set_line(member.span.lo);
        Ok(())
    }

    /// Notes a blank before a key, with so many signs before it.
    fn set_key(&mut self, key: &MemberKey, signs: usize) {
        let number = self.marks.at(key_start(key)).saturating_sub(signs);
        self.marks.set(number, Gap::Blank);
        if let MemberKey::Prop(name) = key {
            mark_key(&mut self.marks, name);
        }
    }
}

/// Where a key begins.
fn key_start(key: &MemberKey) -> BytePos {
    match key {
        MemberKey::Prop(name) => name.span().lo,
        MemberKey::Private(name) => name.span.lo,
    }
}
