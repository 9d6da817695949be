// Things that have names, one on the other.
ghost use Rattle.std.specs.Prelude.{◌≡◌, ℕ, List, [], ◌∷◌, IfOk, drop, length, ◌-◌, OnErr, IsSome};
ghost use Rattle.program_scopes.specs.Stacks.{found, since};
ghost use Rattle.program_scopes.specs.Linked.{place_in, Notes};
ghost use Rattle.program_scopes.specs.Layers.{last};

use std::alloc::{AllocError, Global};
use std::collections::HashMap;
use std::marker::Model;

/// Of each name, how many things are under the topmost that has it.
type Last<'a> = HashMap<&'a str, Option<usize>>;

/// How many things are under the topmost that has the name.
fn place_of(last: &Last<'_>, name: &str) -> Option<usize>
    ensures { result ≡ place_in last.now name.now }
{
    last.get(name).copied().flatten()
}

/// Notes how many things are under the topmost that has the name.
fn note<'a>(last: &mut Last<'a>, name: &'a str, place: Option<usize>) -> Result<(), AllocError>
    ensures noted { IfOk result (λ _. Notes (place_in last.old) (place_in last.new) name.now place) }
    ensures same { OnErr result ((q : List ℕ) → place_in last.new q ≡ place_in last.old q) }
{
    match last.insert(name, place) {
        Ok(_) => Ok(()),
        Err(_) => Err(AllocError),
    }
}

/// Notes it of a name that some thing has.
fn note_again(last: &mut Last<'_>, name: &str, place: Option<usize>)
    ensures { IsSome (place_in last.old name.now) → Notes (place_in last.old) (place_in last.new) name.now place }
{
    if let Some(known) = last.get_mut(name) {
        *known = place;
    }
}

/// What was found, if at least so many things are under it.
pub(crate) fn since<T: Copy>(found: Option<(usize, T)>, count: usize) -> Option<T>
    ensures { result ≡ since count found }
{
    match found {
        Some((index, value)) if count <= index => Some(value),
        _ => None,
    }
}

/// A thing, and how many things are under the next one below that has its name.
#[derive(Clone, Copy)]
struct Item<'a, T: Copy> {
    name: &'a str,
    value: T,
    below: Option<usize>,
}

/// Things that have names, one on the other. The topmost of a name is found by one look into a table.
#[derive(Drop)]
pub struct NameStack<'a, T: Copy> {
    items: Vec<Item<'a, T>>,
    last: Last<'a>,
}

impl<'a, T: Copy> Model for NameStack<'a, T> {
    ghost use Rattle.std.specs.Prelude.{List, ℕ, reverse};
    ghost use Rattle.program_scopes.specs.Linked.{named, place_in, AreLinked};

    ghost Value = { List (List ℕ × T) };

    ghost view = { λ s. named (reverse s.items.items) };

    ghost invariant = { λ s. AreLinked (reverse s.items.items) (place_in s.last) };
}

impl<'a, T: Copy> NameStack<'a, T> {
    /// No things. Takes no memory.
    pub fn new(alloc: Global) -> NameStack<'a, T>
        ensures { result ≡ [] }
    {
        NameStack {
            items: Vec::new(alloc),
            last: HashMap::new(alloc),
        }
    }

    /// How many things there are.
    pub fn len(&self) -> usize
        ensures { result ≡ length self.now }
    {
        self.items.len()
    }

    /// The topmost thing that has the name, and how many are under it.
    pub fn find(&self, name: &str) -> Option<(usize, T)>
        ensures { result ≡ found name.now self.now }
    {
        let index = place_of(&self.last, name)?;
        match self.items.get(index) {
            Some(item) => Some((index, item.value)),
            None => None,
        }
    }

    /// Puts a thing on top. The only error is out of memory.
    pub fn push(&mut self, name: &'a str, value: T) -> Result<(), AllocError>
        ensures { IfOk result (λ _. self.new ≡ (name.now, value) ∷ self.old) }
    {
        let index = self.items.len();
        let below = place_of(&self.last, name);
        self.items.push(Item { name, value, below })?;
        match note(&mut self.last, name, Some(index)) {
            Ok(()) => Ok(()),
            Err(error) => {
                self.items.pop();
                Err(error)
            }
        }
    }

    /// Puts a thing on top. Answers the topmost one before it that has its name. The only error is out of memory.
    pub fn replace(&mut self, name: &'a str, value: T) -> Result<Option<T>, AllocError>
        ensures last { IfOk result (λ before. before ≡ last name.now self.old) }
        ensures pushed { IfOk result (λ _. self.new ≡ (name.now, value) ∷ self.old) }
    {
        let before = since(self.find(name), 0);
        self.push(name, value)?;
        Ok(before)
    }

    /// Takes the topmost thing away.
    pub fn pop(&mut self)
        ensures { self.new ≡ drop 1 self.old }
    {
        if let Some(item) = self.items.pop() {
            note_again(&mut self.last, item.name, item.below);
        }
    }

    /// Takes things away until so many are left.
    pub fn truncate(&mut self, count: usize)
        ensures { self.new ≡ drop (length self.old - count) self.old }
    {
        while self.len() > count {
            self.pop();
        }
    }
}
