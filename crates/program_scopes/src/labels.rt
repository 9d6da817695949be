// Which labels are around a statement (ECMA-262, 14.13).
ghost use Rattle.std.specs.Prelude.{[], ◌∷◌, IfOk};
ghost use Rattle.program_scopes.specs.Layers as layers;
ghost use Rattle.program_scopes.specs.Labels as labels;
ghost use Rattle.program_scopes.specs.Labels.{AreAround, Changes, Tells};

use crate::layers::Layers;
use std::alloc::{AllocError, Global};
use swc_context::span::Span;

/// A label.
#[derive(Clone, Copy)]
pub struct Label {
    pub place: Span,
    /// Whether its statement is a loop.
    pub is_loop: bool,
}

/// What a `continue` is to that has a label.
#[derive(Clone, Copy, PartialEq, Eq)]
pub enum Target {
    Loop,
    /// A statement that is no loop, whose label is at the place.
    OtherStatement(Span),
    /// There is no such label.
    Nothing,
}

/// The labels around a statement, function by function.
#[derive(Drop)]
pub struct Labels<'a> {
    labels: Layers<'a, Label>,
}

impl<'a> Labels<'a> {
    /// No labels, in a program. Takes no memory.
    pub fn new(alloc: Global) -> Labels<'a>
        ensures { AreAround result ([] ∷ []) }
    {
        Labels {
            labels: Layers::new(alloc),
        }
    }

    /// Begins a function, around whose statements are no labels yet. The only error is out of memory.
    pub fn begin_function(&mut self) -> Result<(), AllocError>
        ensures { IfOk result (λ _. Changes self.old self.new layers.begun) }
    {
        self.labels.begin()
    }

    /// Ends the innermost function.
    pub fn end_function(&mut self)
        ensures { Changes self.old self.new layers.ended }
    {
        self.labels.end();
    }

    /// Begins the statement of a label. Answers the place of the same label around it. The only error is out of memory.
    pub fn begin(
        &mut self,
        name: &'a str,
        place: Span,
        is_loop: bool,
    ) -> Result<Option<Span>, AllocError>
        ensures twice { IfOk result (λ first. Tells self.old (labels.place name.now) first) }
        ensures begun { IfOk result (λ _. Changes self.old self.new (labels.begun name.now place is_loop)) }
    {
        let first = match self.labels.find(name) {
            Some(label) => Some(label.place),
            None => None,
        };
        self.labels.push(name, Label { place, is_loop })?;
        Ok(first)
    }

    /// Ends the statement of the last label.
    pub fn end(&mut self)
        ensures { Changes self.old self.new layers.taken }
    {
        self.labels.pop();
    }

    /// Whether a `break` may have the label.
    pub fn breaks(&self, name: &str) -> bool
        ensures { Tells self.now (labels.breaks name.now) result }
    {
        self.labels.find(name).is_some()
    }

    /// What a `continue` is to that has the label.
    pub fn continues(&self, name: &str) -> Target
        ensures { Tells self.now (labels.continues name.now) result }
    {
        match self.labels.find(name) {
            Some(label) if label.is_loop => Target::Loop,
            Some(label) => Target::OtherStatement(label.place),
            None => Target::Nothing,
        }
    }
}
