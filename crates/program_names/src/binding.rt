// What names refer to. The text is gone over twice, from its beginning to its end: for the scopes of the bindings, and
// for what the names refer to.
use crate::names::{Name, Use};
use crate::scope::{Binding, Home, Scope, ScopeId, ScopeKind};
use std::alloc::{AllocError, Global};
use std::collections::HashMap;
use swc_context::span::Span;

/// What happens at a position, in this order where more than one thing does.
#[derive(Clone, Copy, PartialEq, Eq, PartialOrd, Ord)]
enum What {
    /// A scope ends, or a binding is known no more.
    Ends,
    /// A scope begins, or a binding is known from there on.
    Begins,
    /// A binding is declared, or a name is used.
    Comes,
}

/// What happens at a position, of what has the number.
#[derive(Clone, Copy)]
struct Event {
    at: u32,
    what: What,
    number: usize,
}

fn event_at(at: u32, what: What, number: usize) -> Event {
    Event { at, what, number }
}

/// A binding whose scope was found.
#[derive(Clone, Copy)]
pub(crate) struct Known<'a> {
    pub(crate) text: &'a str,
    pub(crate) place: Span,
    pub(crate) scope: usize,
}

/// Finds the bindings that names refer to: the first one in the innermost scope around the name that binds its text.
/// Answers the bindings by their scopes, and within one in the order of the text.
pub(crate) fn bind<'a>(
    alloc: Global,
    scopes: &[Scope],
    bindings: &[Binding<'a>],
    names: &mut [Name<'a>],
) -> Result<Vec<Known<'a>>, AllocError> {
    let known = known_of(alloc, scopes, bindings)?;
    let mut open: HashMap<&'a str, Vec<Known<'a>>> = HashMap::new(alloc);
    let mut again = Vec::new(alloc);
    for event in name_events(alloc, scopes, &known, names)? {
        match event.what {
            What::Begins => {
                if let Some(begun) = known.get(event.number) {
                    let same = open.entry(begun.text)?.or_insert(Vec::new(alloc));
                    let first = first_of(same.last(), *begun);
                    again.push((begun.place.lo.0, first.place))?;
                    same.push(first)?;
                }
            }
            What::Ends => {
                if let Some(ended) = known.get(event.number) {
                    open.entry(ended.text)?.or_insert(Vec::new(alloc)).pop();
                }
            }
            What::Comes => {
                if let Some(name) = names.get_mut(event.number) {
                    let same = open.entry(name.text)?.or_insert(Vec::new(alloc));
                    name.binding = same.last().map(|known| known.place);
                }
            }
        }
    }
    for (at, first) in again {
        note_first(names, at, first);
    }
    Ok(known)
}

/// Notes the first declaration of the name that is declared there, if that is another one.
fn note_first(names: &mut [Name<'_>], at: u32, first: Span) {
    let number = names.partition_point(|name| name.span.lo.0 < at);
    if let Some(name) = names.get_mut(number)
        && name.how == Use::Bound
        && name.span.lo.0 == at
        && first.lo.0 != at
    {
        name.first = Some(first);
    }
}

/// The one that counts of the last binding of a text and the next: of two of one scope the first.
fn first_of<'a>(last: Option<&Known<'a>>, next: Known<'a>) -> Known<'a> {
    match last {
        Some(last) if last.scope == next.scope => *last,
        _ => next,
    }
}

/// Where bindings are known, and where names are used, in the order of the text.
fn name_events(
    alloc: Global,
    scopes: &[Scope],
    known: &[Known<'_>],
    names: &[Name<'_>],
) -> Result<Vec<Event>, AllocError> {
    let mut events = Vec::new(alloc);
    for (number, binding) in known.iter().enumerate() {
        if let Some(scope) = scopes.get(binding.scope) {
            push_scope(&mut events, scope, number)?;
        }
    }
    for (number, name) in names.iter().enumerate() {
        if name.how != Use::Bound {
            events.push(event_at(name.span.lo.0, What::Comes, number))?;
        }
    }
    sort(&mut events)?;
    Ok(events)
}

fn push_scope(events: &mut Vec<Event>, scope: &Scope, number: usize) -> Result<(), AllocError> {
    events.push(event_at(scope.span.lo.0, What::Begins, number))?;
    events.push(event_at(scope.span.hi.0, What::Ends, number))?;
    Ok(())
}

/// Puts events in the order of the text. What is equal in it keeps its order.
fn sort(events: &mut Vec<Event>) -> Result<(), AllocError> {
    events.sort_by_key(|event: &Event| (event.at, event.what))
}

/// The bindings with their scopes: sorted by scope, and within a scope in the order of the text.
fn known_of<'a>(
    alloc: Global,
    scopes: &[Scope],
    bindings: &[Binding<'a>],
) -> Result<Vec<Known<'a>>, AllocError> {
    let mut open = OpenScopes {
        all: Vec::new(alloc),
        functions: Vec::new(alloc),
    };
    let mut known = Vec::new(alloc);
    for event in scope_events(alloc, scopes, bindings)? {
        match event.what {
            What::Begins => open.begin(scopes, event.number)?,
            What::Ends => open.end(scopes, event.number),
            What::Comes => {
                if let Some(binding) = bindings.get(event.number) {
                    known.push(open.known(*binding))?;
                }
            }
        }
    }
    known.sort_by_key(|known: &Known| known.scope)?;
    Ok(known)
}

/// Where scopes begin and end, and where bindings are declared, in the order of the text.
fn scope_events(
    alloc: Global,
    scopes: &[Scope],
    bindings: &[Binding<'_>],
) -> Result<Vec<Event>, AllocError> {
    let mut events = Vec::new(alloc);
    for (number, scope) in scopes.iter().enumerate() {
        if scope.kind != ScopeKind::Nothing {
            push_scope(&mut events, scope, number)?;
        }
    }
    for (number, binding) in bindings.iter().enumerate() {
        events.push(event_at(binding.place.lo.0, What::Comes, number))?;
    }
    sort(&mut events)?;
    Ok(events)
}

/// The scopes that are open at a position, by their numbers, the innermost last.
#[derive(Drop)]
struct OpenScopes {
    all: Vec<usize>,
    /// Those that bind variables.
    functions: Vec<usize>,
}

impl OpenScopes {
    fn begin(&mut self, scopes: &[Scope], number: usize) -> Result<(), AllocError> {
        self.all.push(number)?;
        if binds_variables(scopes, number) {
            self.functions.push(number)?;
        }
        Ok(())
    }

    fn end(&mut self, scopes: &[Scope], number: usize) {
        self.all.pop();
        if binds_variables(scopes, number) {
            self.functions.pop();
        }
    }

    /// A binding that is declared here, with its scope. With no scope around it that is the program's.
    fn known<'a>(&self, binding: Binding<'a>) -> Known<'a> {
        let scope = match binding.home {
            Home::Scope(ScopeId(number)) => Some(number),
            Home::Function => self.functions.last().copied(),
            Home::Innermost | Home::Parameters(_) => self.all.last().copied(),
        };
        Known {
            text: binding.text,
            place: binding.place,
            scope: scope.unwrap_or(0),
        }
    }
}

fn binds_variables(scopes: &[Scope], number: usize) -> bool {
    matches!(scopes.get(number), Some(scope) if scope.kind == ScopeKind::Function)
}
