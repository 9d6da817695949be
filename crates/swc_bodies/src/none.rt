// The hook that reads nothing.
ghost use Rattle.std.specs.Prelude.{◌≡◌, ◌<◌, true, IsSome};
ghost use Rattle.swc_input.specs.{Buffer.current, Buffer.to_come, Kinds.at_token};
ghost use Rattle.swc_bodies.specs.Readings.{Hooked, Faithful, no_reading, at_function, is_class, is_brace};
ghost use Rattle.swc_bodies.specs.Steps.{Declines};

use crate::bodies::{Bodies, BodyForms, ReplayBodies};
use swc_context::error::{Error, PResult, SyntaxError, Wanted};
use swc_context::span::Span;
use swc_input::buffer::Buffer;
use swc_input::tokens::Tokens;

/// The hook that reads no function, class or block: each call consumes the current token and
/// refuses it, as `Unexpected` with `{`.
#[derive(Clone, Copy, PartialEq, Eq, Debug)]
pub struct NoBodies;

impl BodyForms for NoBodies {
    ghost use Rattle.swc_bodies.specs.Readings.{no_forms};

    type Fun = Span;

    type Class = Span;

    type Block = Span;

    ghost forms = { no_forms };
}

/// Consumes the current token and refuses it.
fn refuse_body<I: Tokens>(input: &mut Buffer<I>) -> PResult<Span>
    requires { IsSome (current input.old) }
    ensures declines { Declines I.model input.old result input.new }
    ensures falls { to_come I.model input.new < to_come I.model input.old }
{
    let span = input.cur_span();
    let _ = input.bump();
    Err(Error::new(span, SyntaxError::Unexpected(Wanted::LBrace)))
}

impl<I: Tokens> Bodies<I> for NoBodies {
    ghost use Rattle.swc_bodies.specs.Readings.{no_forms_read};

    ghost is_faithful = { true };

    fn fun(&mut self, input: &mut Buffer<I>) -> PResult<Span>
        requires { at_function (current input.old) ≡ true }
        ensures hooked { Hooked I.model no_reading input.old result input.new }
        ensures faithful { Faithful I.model no_reading input.old result input.new }
        ensures declines { Declines I.model input.old result input.new }
    {
        refuse_body(input)
    }

    fn class(&mut self, input: &mut Buffer<I>) -> PResult<Span>
        requires { at_token is_class (current input.old) ≡ true }
        ensures hooked { Hooked I.model no_reading input.old result input.new }
        ensures faithful { Faithful I.model no_reading input.old result input.new }
        ensures declines { Declines I.model input.old result input.new }
    {
        refuse_body(input)
    }

    fn block(&mut self, input: &mut Buffer<I>) -> PResult<Span>
        requires { at_token is_brace (current input.old) ≡ true }
        ensures hooked { Hooked I.model no_reading input.old result input.new }
        ensures faithful { Faithful I.model no_reading input.old result input.new }
        ensures declines { Declines I.model input.old result input.new }
    {
        refuse_body(input)
    }

    ghost lawful = { no_forms_read (λ s. s) (λ s. s) (λ s. s) };
}

impl ReplayBodies for NoBodies {
    ghost use Rattle.swc_bodies.specs.{Readings.no_forms_read, Replaying.no_forms_replay};

    ghost lawful = { no_forms_read (λ s. s) (λ s. s) (λ s. s) };

    ghost replays = { no_forms_replay };
}
