// The hook of a program: functions, classes and blocks wait for passes of their own.
ghost use Rattle.std.specs.Prelude.{◌≡◌, ◌++◌, ◌∷◌, [], false, true, MatchOption};
ghost use Rattle.swc_bodies.specs.Deferred.{waiting};
ghost use Rattle.swc_bodies.specs.Readings.{at_function, is_brace, is_class};
ghost use Rattle.swc_input.specs.{Buffer.current, Kinds.at_token};
ghost use Rattle.program_tokens.specs.Passing.{PassesOver};

use crate::source::ProgramInput;
use std::alloc::Global;
use swc_bodies::bodies::{Bodies, BodyForms};
use swc_bodies::deferred::{DeferredBodies, Waiting};
use swc_context::context::Context;
use swc_context::error::PResult;
use swc_context::span::{BytePos, Span};
use swc_input::buffer::Buffer;

/// The hook that keeps the places of functions, classes and blocks, with their contexts, and passes over what is in
/// their braces.
#[derive(Drop)]
pub struct ProgramBodies {
    kept: DeferredBodies,
    /// Where the last body begins whose braces aren't in the list, and its context.
    unclosed: Option<(BytePos, Context)>,
}

impl ProgramBodies {
    /// A hook with which no body waits.
    pub fn new(alloc: Global) -> ProgramBodies
        ensures { waiting result.kept ≡ [] }
    {
        ProgramBodies {
            kept: DeferredBodies::new(alloc),
            unclosed: None,
        }
    }

    /// Takes out the body that was kept last; or answers nothing, where none waits.
    pub fn pop(&mut self) -> Option<Waiting>
        ensures { MatchOption result
            ((waiting self.old.kept ≡ []) × (waiting self.new.kept ≡ []))
            (λ last. waiting self.old.kept ≡ waiting self.new.kept ++ last ∷ []) }
    {
        self.kept.pop()
    }

    /// Takes out where the last body begins whose braces aren't in the list, and its context. The body was refused.
    pub fn take_unclosed(&mut self) -> Option<(BytePos, Context)>
        ensures kept { self.new.kept ≡ self.old.kept }
    {
        self.unclosed.take()
    }

    /// Passes over what is in the braces of the body that begins with the current token, or notes that they aren't
    /// in the list.
    fn pass_over(&mut self, input: &mut Buffer<ProgramInput>)
        ensures passes { PassesOver input.old input.new }
        ensures kept { self.new.kept ≡ self.old.kept }
    {
        let start = input.cur_span().lo;
        if !input.input().pass_over(start) {
            self.unclosed = Some((start, input.get_ctx()));
        }
    }
}

impl BodyForms for ProgramBodies {
    ghost use Rattle.swc_bodies.specs.Deferred.{place_forms};

    type Fun = Span;

    type Class = Span;

    type Block = Span;

    ghost forms = { place_forms };
}

impl Bodies<ProgramInput> for ProgramBodies {
    ghost use Rattle.swc_bodies.specs.Deferred.{place_forms_read};

    ghost is_faithful = { false };

    fn fun(&mut self, input: &mut Buffer<ProgramInput>) -> PResult<Span> {
        self.pass_over(input);
        self.kept.fun(input)
    }

    fn class(&mut self, input: &mut Buffer<ProgramInput>) -> PResult<Span> {
        self.pass_over(input);
        self.kept.class(input)
    }

    fn block(&mut self, input: &mut Buffer<ProgramInput>) -> PResult<Span> {
        self.pass_over(input);
        self.kept.block(input)
    }

    ghost lawful = { place_forms_read };
}
