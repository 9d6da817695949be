// Private names of classes (ECMA-262, 15.7).
ghost use Rattle.std.specs.Prelude.{◌≡◌, [], ◌∷◌, IfOk};
ghost use Rattle.program_scopes.specs.Layers as layers;
ghost use Rattle.program_scopes.specs.Private as private;
ghost use Rattle.program_scopes.specs.Private.{AreAround, Changes, Tells};

use crate::layers::Layers;
use std::alloc::{AllocError, Global};
use swc_context::span::Span;

/// What declares a private name.
#[derive(Clone, Copy, PartialEq, Eq)]
pub enum Form {
    Getter,
    Setter,
    /// A field or a method.
    Other,
}

/// A declaration of a private name in a class.
#[derive(Clone, Copy)]
pub struct Declaration {
    pub form: Form,
    pub is_static: bool,
    pub place: Span,
    /// Whether it is the first one of its name in the class.
    pub is_first: bool,
}

/// The private names that the classes around declare, class by class.
#[derive(Drop)]
pub struct PrivateNames<'a> {
    names: Layers<'a, Declaration>,
}

/// Whether one of two forms is a getter and the other a setter.
fn are_two(one: Form, other: Form) -> bool
    ensures { result ≡ private.are_two one other }
{
    matches!(
        (one, other),
        (Form::Getter, Form::Setter) | (Form::Setter, Form::Getter)
    )
}

impl Declaration {
    /// Whether another one of its name may be beside it: if one is a getter and the other a setter, both static or
    /// neither, and there is no third.
    fn makes_pair(self, form: Form, is_static: bool) -> bool
        ensures { result ≡ private.makes_pair form is_static self }
    {
        self.is_first && self.is_static == is_static && are_two(self.form, form)
    }
}

impl<'a> PrivateNames<'a> {
    /// No names, outside of all classes. Takes no memory.
    pub fn new(alloc: Global) -> PrivateNames<'a>
        ensures { AreAround result ([] ∷ []) }
    {
        PrivateNames {
            names: Layers::new(alloc),
        }
    }

    /// Begins a class. The only error is out of memory.
    pub fn begin(&mut self) -> Result<(), AllocError>
        ensures { IfOk result (λ _. Changes self.old self.new layers.begun) }
    {
        self.names.begin()
    }

    /// The innermost class declares a name. Answers the place of a declaration that it must not be beside. The only
    /// error is out of memory.
    pub fn declare(
        &mut self,
        name: &'a str,
        form: Form,
        is_static: bool,
        place: Span,
    ) -> Result<Option<Span>, AllocError>
        ensures against { IfOk result (λ first. Tells self.old (private.against form is_static name.now) first) }
        ensures declared { IfOk result (λ _. Changes self.old self.new (private.declared name.now form is_static place)) }
    {
        let last = self.names.find(name);
        let is_first = last.is_none();
        self.names.push(
            name,
            Declaration {
                form,
                is_static,
                place,
                is_first,
            },
        )?;
        Ok(match last {
            Some(last) if last.makes_pair(form, is_static) => None,
            Some(last) => Some(last.place),
            None => None,
        })
    }

    /// Ends the innermost class: its names are known no more.
    pub fn end(&mut self)
        ensures { Changes self.old self.new layers.ended }
    {
        self.names.end();
    }

    /// Whether a class around declares the name.
    pub fn has(&self, name: &str) -> bool
        ensures { Tells self.now (layers.is_in_any name.now) result }
    {
        self.names.has(name)
    }
}
