// The scopes of a program, of which one can ask what names mean.
use crate::binding::{Known, bind};
use crate::collector::Collector;
use crate::names::Name;
use crate::scope::Scope;
use std::alloc::{AllocError, Global};
use swc_context::span::{BytePos, Span};
use tree_types::tree::Program;

/// What a text means in a scope.
#[derive(Clone, Copy)]
pub struct Meaning<'a> {
    pub text: &'a str,
    /// The place of the first declaration; of `arguments`, that of the function.
    pub place: Span,
    /// The part of the text in which it is meant, but for scopes within that bind the same text.
    pub scope: Span,
    /// Of scopes that begin at one place, the inner one has the greater number.
    number: usize,
}

/// Why a declaration can't have another name.
#[derive(Clone, Copy, Debug, PartialEq, Eq)]
pub enum Conflict {
    /// Its scope declares that name too, at this place.
    Declared(Span),
    /// The name there, which means the declaration, would mean another one.
    Captured { name: Span, by: Span },
    /// The name there, which means another declaration or is free, would mean this one.
    Captures(Span),
}

/// The scopes of a program, and its names.
///
/// Positions are in bytes. One that is outside of the text is in no scope, but for the text's end, which is in that of
/// the program.
#[derive(Drop)]
pub struct Scopes<'a> {
    names: Vec<Name<'a>>,
    /// Sorted by text.
    meanings: Vec<Meaning<'a>>,
}

impl Meaning<'_> {
    fn is_meant_at(&self, at: u32) -> bool {
        let is_program = self.number == 0;
        self.scope.lo.0 <= at && (at < self.scope.hi.0 || is_program && at == self.scope.hi.0)
    }

    /// Whether its scope is within that of the other, where both have a place in common.
    fn is_within(&self, other: &Meaning<'_>) -> bool {
        (self.scope.lo.0, self.number) > (other.scope.lo.0, other.number)
    }
}

impl<'a> Scopes<'a> {
    /// The scopes of a program, or of an expression that was read as one (`statement_trees::read_expression`). The only
    /// error is out of memory. Takes time in proportion to `n log n`, by the size of the program.
    pub fn new(alloc: Global, program: &'a Program) -> Result<Scopes<'a>, AllocError> {
        let mut collector = Collector::new(alloc, program)?;
        collector.add_expressions()?;
        collector.add_statements()?;
        collector.add_names()?;
        let Collector {
            program: _,
            roles: _,
            async_arrows: _,
            scopes,
            bindings,
            mut names,
        } = collector;
        names.sort_by_key(|name: &Name| name.span.lo.0)?;
        let known = bind(alloc, &scopes, &bindings, &mut names)?;
        let meanings = meanings_of(alloc, &scopes, &known)?;
        Ok(Scopes { names, meanings })
    }

    /// All names, in the order of the text.
    pub fn names(&self) -> &[Name<'a>] {
        &self.names
    }

    /// The same, owned.
    pub fn into_names(self) -> Vec<Name<'a>> {
        self.names
    }

    /// What all scopes declare, sorted by the texts of names.
    pub fn meanings(&self) -> &[Meaning<'a>] {
        &self.meanings
    }

    /// The name that is at a byte, or ends there.
    pub fn name_at(&self, at: BytePos) -> Option<&Name<'a>> {
        let after = self.names.partition_point(|name| name.span.lo.0 <= at.0);
        let name = self.names.get(after.checked_sub(1)?)?;
        if at.0 <= name.span.hi.0 {
            Some(name)
        } else {
            None
        }
    }

    /// What a name of this text means at a byte, whether one is there or not; `None` where it would be free.
    pub fn meaning(&self, text: &str, at: BytePos) -> Option<&Meaning<'a>> {
        let mut innermost = None;
        for meaning in self.of_text(text) {
            if meaning.is_meant_at(at.0) && is_inner(meaning, innermost) {
                innermost = Some(meaning);
            }
        }
        innermost
    }

    /// What the text means in all scopes that declare it.
    fn of_text(&self, text: &str) -> &[Meaning<'a>] {
        let from = self.meanings.partition_point(|meaning| meaning.text < text);
        let rest = &self.meanings[from..];
        let count = rest.partition_point(|meaning| meaning.text == text);
        &rest[..count]
    }

    /// The names that mean what is declared first at a place, declarations included, in the order of the text. The only
    /// error is out of memory.
    pub fn references(
        &self,
        alloc: Global,
        declaration: Span,
    ) -> Result<Vec<&Name<'a>>, AllocError> {
        let mut found = Vec::new(alloc);
        for name in &self.names {
            if name.declaration() == Some(declaration) {
                found.push(name)?;
            }
        }
        Ok(found)
    }

    /// Why what is declared first at a place can't have the new name: the first reason in the order of the text, one in
    /// its own scope before others; `None` where it can, and where nothing is declared there. That the new name is a
    /// valid one isn't looked at, and neither are `with` and `eval`.
    pub fn conflict(&self, declaration: Span, new: &str) -> Option<Conflict> {
        if self
            .of_text(new)
            .iter()
            .any(|meaning| meaning.place == declaration)
        {
            return None;
        }
        self.declared_too(declaration, new)
            .or(self.caught(declaration, new))
    }

    /// The declaration of the name in a scope that has the other declaration.
    fn declared_too(&self, declaration: Span, new: &str) -> Option<Conflict> {
        for own in &self.meanings {
            if own.place == declaration
                && let Some(other) = self.in_scope(new, own.number)
            {
                return Some(Conflict::Declared(other.place));
            }
        }
        None
    }

    /// What the text means in the scope that has the number, if that declares it.
    fn in_scope(&self, text: &str, number: usize) -> Option<&Meaning<'a>> {
        self.of_text(text)
            .iter()
            .find(|meaning| meaning.number == number)
    }

    /// The first name that would mean something else.
    fn caught(&self, declaration: Span, new: &str) -> Option<Conflict> {
        for name in &self.names {
            let found = if name.declaration() == Some(declaration) {
                self.captured(name, new)
            } else if name.text == new {
                self.captures(name, declaration)
            } else {
                None
            };
            if found.is_some() {
                return found;
            }
        }
        None
    }

    /// Whether a name that has the new text would mean another declaration than it does.
    fn captured(&self, name: &Name<'a>, new: &str) -> Option<Conflict> {
        let own = self.meaning(name.text, name.span.lo)?;
        let other = self.meaning(new, name.span.lo)?;
        if other.is_within(own) {
            Some(Conflict::Captured {
                name: name.span,
                by: other.place,
            })
        } else {
            None
        }
    }

    /// Whether a name would mean what is declared first at the place, if that had the name's text.
    fn captures(&self, name: &Name<'a>, declaration: Span) -> Option<Conflict> {
        let found = self.meaning(name.text, name.span.lo);
        for own in &self.meanings {
            if own.place == declaration && own.is_meant_at(name.span.lo.0) && is_inner(own, found) {
                return Some(Conflict::Captures(name.span));
            }
        }
        None
    }
}

/// Whether a meaning is within the scope of another, or there is no other.
fn is_inner(meaning: &Meaning<'_>, other: Option<&Meaning<'_>>) -> bool {
    match other {
        Some(other) => meaning.is_within(other),
        None => true,
    }
}

/// What scopes declare, sorted by text: of more than one declaration of a text in a scope the first.
fn meanings_of<'a>(
    alloc: Global,
    scopes: &[Scope],
    known: &[Known<'a>],
) -> Result<Vec<Meaning<'a>>, AllocError> {
    let mut meanings = Vec::new(alloc);
    for binding in known {
        if let Some(scope) = scopes.get(binding.scope) {
            meanings.push(Meaning {
                text: binding.text,
                place: binding.place,
                scope: scope.span,
                number: binding.scope,
            })?;
        }
    }
    // The order within a scope is that of the text, and stays.
    meanings.sort_by(|one: &Meaning, other: &Meaning| {
        (one.text, one.number).cmp(&(other.text, other.number))
    })?;
    meanings.dedup_by(|next: &mut Meaning, first: &mut Meaning| {
        next.text == first.text && next.number == first.number
    });
    Ok(meanings)
}
