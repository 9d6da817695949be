// The names of programs.
use crate::scopes::Scopes;
use std::alloc::{AllocError, Global};
use swc_context::span::Span;
use tree_types::tree::Program;

/// What is done with a name.
#[derive(Clone, Copy, Debug, PartialEq, Eq)]
pub enum Use {
    /// Its value is taken.
    Read,
    /// It is assigned to.
    Written,
    /// Its value is taken, and it is assigned to.
    ReadAndWritten,
    /// It is declared.
    Bound,
}

impl Use {
    /// What is done, in words.
    pub fn as_str(self) -> &'static str {
        match self {
            Use::Read => "read",
            Use::Written => "written",
            Use::ReadAndWritten => "read and written",
            Use::Bound => "bound",
        }
    }
}

/// How a name is written where it stands for something else too, which tells what comes in its place when it is
/// renamed.
#[derive(Clone, Copy, Debug, PartialEq, Eq)]
pub enum Spelling {
    /// By itself.
    Plain,
    /// A shorthand property of a literal or a pattern, as in `{ a }` or `{ a = 1 }`: `{ a: b }`.
    Property,
    /// `import { a }`: `import { a as b }`.
    Import,
    /// `export { a }`: `export { b as a }`.
    Export,
}

/// A name, where it is, and what is done with it there.
#[derive(Drop)]
pub struct Name<'a> {
    pub text: &'a str,
    pub span: Span,
    pub how: Use,
    pub spelling: Spelling,
    /// The place of the declaration that it refers to; none if it is a declaration, or if it is free.
    pub binding: Option<Span>,
    /// Of a declaration after another one of its name in its scope, the first one.
    pub first: Option<Span>,
}

impl Name<'_> {
    /// The place of the first declaration of what it means: its own, if it is that; none if it is free.
    pub fn declaration(&self) -> Option<Span> {
        match self.how {
            Use::Bound => Some(self.first.unwrap_or(self.span)),
            _ => self.binding,
        }
    }

    /// Whether both mean the same: they have one declaration, or are free and have one text.
    pub fn is_same(&self, other: &Name<'_>) -> bool {
        match (self.declaration(), other.declaration()) {
            (Some(place), Some(another)) => place == another,
            (None, None) => self.text == other.text,
            _ => false,
        }
    }

    /// What comes in its place, so that it has the new text, and a property, an import or an export keeps its own.
    pub fn renamed(&self, alloc: Global, new: &str) -> Result<String, AllocError> {
        let old = self.text;
        match self.spelling {
            Spelling::Plain => String::from_str(alloc, new),
            Spelling::Property => format!(in alloc; "{old}: {new}"),
            Spelling::Import => format!(in alloc; "{old} as {new}"),
            Spelling::Export => format!(in alloc; "{new} as {old}"),
        }
    }
}

/// The names that a program reads, writes and binds, in the order of the text. The only error is out of memory. Takes
/// time in proportion to `n log n`, by the size of the program.
pub fn names<'a>(alloc: Global, program: &'a Program) -> Result<Vec<Name<'a>>, AllocError> {
    Ok(Scopes::new(alloc, program)?.into_names())
}
