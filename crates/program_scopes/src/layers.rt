// Things that have names, in layers: those of a function, say, on those of the functions around it.
ghost use Rattle.std.specs.Prelude.{[], ◌∷◌, IfOk};
ghost use Rattle.program_scopes.specs.Layers as layers;
ghost use Rattle.program_scopes.specs.Layers.{AreLayers, Changes, Tells};

use crate::name_stack::{NameStack, since};
use std::alloc::{AllocError, Global};

/// Things that have names, in layers. There is always one layer.
#[derive(Drop)]
pub struct Layers<'a, T: Copy> {
    things: NameStack<'a, T>,
    /// How many things are under the topmost layer.
    under: usize,
    /// How many are under each layer below it.
    lower: Vec<usize>,
}

impl<'a, T: Copy> Layers<'a, T> {
    /// A layer with nothing in it. Takes no memory.
    pub fn new(alloc: Global) -> Layers<'a, T>
        ensures { AreLayers result ([] ∷ []) }
    {
        Layers {
            things: NameStack::new(alloc),
            under: 0,
            lower: Vec::new(alloc),
        }
    }

    /// Begins a layer. The only error is out of memory.
    pub fn begin(&mut self) -> Result<(), AllocError>
        ensures { IfOk result (λ _. Changes self.old self.new layers.begun) }
    {
        self.lower.push(self.under)?;
        self.under = self.things.len();
        Ok(())
    }

    /// Ends the topmost layer, if it is not the last.
    pub fn end(&mut self)
        ensures { Changes self.old self.new layers.ended }
    {
        match self.lower.pop() {
            Some(under) => {
                self.things.truncate(self.under);
                self.under = under;
            }
            None => {}
        }
    }

    /// The topmost thing that has the name, if it is in the topmost layer.
    pub fn find(&self, name: &str) -> Option<T>
        ensures { Tells self.now (layers.topmost name.now) result }
    {
        since(self.things.find(name), self.under)
    }

    /// Whether a thing of any layer has the name.
    pub fn has(&self, name: &str) -> bool
        ensures { Tells self.now (layers.is_in_any name.now) result }
    {
        self.things.find(name).is_some()
    }

    /// Puts a thing on the topmost layer. The only error is out of memory.
    pub fn push(&mut self, name: &'a str, thing: T) -> Result<(), AllocError>
        ensures { IfOk result (λ _. Changes self.old self.new (layers.put name.now thing)) }
    {
        self.things.push(name, thing)?;
        Ok(())
    }

    /// Takes the last thing from the topmost layer, if it has one.
    pub fn pop(&mut self)
        ensures { Changes self.old self.new layers.taken }
    {
        if self.things.len() > self.under {
            self.things.pop();
        }
    }
}
