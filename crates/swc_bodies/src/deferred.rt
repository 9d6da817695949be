// The hook that keeps bodies for passes of their own.
ghost use Rattle.std.specs.Prelude.{◌≡◌, ◌∷◌, ◌++◌, ◌↔◌, [], true, IsTrue, IfErr, MatchOption, MatchResult, length};
ghost use Rattle.swc_input.specs.{Buffer.current, Buffer.last_position, Kinds.at_token, Recording.no_memory};
ghost use Rattle.swc_bodies.specs.Deferred.{waiting, in_context, place_forms, Waits};
ghost use Rattle.swc_bodies.specs.Readings.{Hooked, Faithful, at_function, is_class, is_brace};
ghost use Rattle.swc_bodies.specs.{Steps.NoBody, Steps.Quiet, Taking.token_forms};

use crate::bodies::{Bodies, BodyForms, ReplayBodies};
use crate::token_bodies::TokenBodies;
use crate::token_body::TokenBody;
use std::alloc::Global;
use swc_context::context::Context;
use swc_context::error::PResult;
use swc_context::span::Span;
use swc_input::buffer::Buffer;
use swc_input::tokens::Tokens;

/// A function, a class or a block that waits for a pass of its own, with the context that the buffer had where it
/// begins.
///
/// For a block that is the context of the body, as the parser has set it. For a function and a class it is the context
/// around them, from which `Context::function_params` and its like make those within.
#[derive(Drop)]
pub struct Waiting {
    /// The context that the body is in.
    pub context: Context,
    /// The body's place and its tokens.
    pub body: TokenBody,
}

/// The hook that keeps the tokens of functions, classes and blocks for passes of their own, and has their places alone
/// in the tree.
///
/// Each call takes the tokens that `TokenBodies` takes, and puts the body after those that wait. It answers the body's
/// place: from where its first token begins to where its last one ends. It refuses what `TokenBodies` refuses, in the
/// same way. Where there is no memory to keep the body, it is dropped, and the refusal is `OutOfMemory`, an empty span
/// where the token consumed last ends. No refusal changes which bodies wait. The hook records no fault itself.
///
/// `pop` hands out the body that was read last first. A client reads each with a parser of its own, over the body's
/// tokens and in the context that comes with it. Where that parser has this hook too, what is within the body is
/// put after the bodies that still wait: so a loop that ends when `pop` answers `None` reads all, however deep they
/// are.
///
/// Tokens are moved, and none is copied. Over all these passes a token is moved once for each body that it is in: at
/// most as many times as bodies are nested there.
#[derive(Drop)]
pub struct DeferredBodies {
    taker: TokenBodies,
    waiting: Vec<Waiting>,
}

impl DeferredBodies {
    /// A hook with which no body waits. It keeps tokens in memory of the allocator, and takes no memory itself.
    pub fn new(alloc: Global) -> DeferredBodies
        ensures { waiting result ≡ [] }
    {
        DeferredBodies {
            taker: TokenBodies::new(alloc),
            waiting: Vec::new(alloc),
        }
    }

    /// How many bodies wait.
    pub fn len(&self) -> usize
        ensures { result ≡ length (waiting self.now) }
    {
        self.waiting.len()
    }

    /// Whether no body waits.
    pub fn is_empty(&self) -> bool
        ensures { IsTrue result ↔ (waiting self.now ≡ []) }
    {
        self.waiting.is_empty()
    }

    /// Takes out the body that was kept last, with its context; or answers nothing, where none waits.
    pub fn pop(&mut self) -> Option<Waiting>
        ensures { MatchOption result
            ((waiting self.old ≡ []) × (waiting self.new ≡ []))
            (λ last. waiting self.old ≡ waiting self.new ++ last ∷ []) }
    {
        self.waiting.pop()
    }

    /// Puts a body after those that wait, and answers its place.
    fn keep<I: Tokens>(
        &mut self,
        context: Context,
        body: TokenBody,
        input: &Buffer<I>,
    ) -> PResult<Span>
        ensures answer { MatchResult result
            (λ place. place ≡ body.span)
            (λ e. e ≡ no_memory (last_position input.now)) }
        ensures kept { MatchResult result
            (λ place. waiting self.new ≡ waiting self.old ++ in_context context body ∷ [])
            (λ e. waiting self.new ≡ waiting self.old) }
    {
        let place = body.span;
        match self.waiting.push(Waiting { context, body }) {
            Ok(()) => Ok(place),
            Err(_) => Err(input.out_of_memory()),
        }
    }
}

impl BodyForms for DeferredBodies {
    type Fun = Span;

    type Class = Span;

    type Block = Span;

    ghost forms = { place_forms };
}

impl<I: Tokens> Bodies<I> for DeferredBodies {
    ghost use Rattle.swc_bodies.specs.Deferred.{place_forms_read};

    ghost is_faithful = { true };

    fn fun(&mut self, input: &mut Buffer<I>) -> PResult<Span>
        requires { at_function (current input.old) ≡ true }
        ensures hooked { Hooked I.model place_forms.fun input.old result input.new }
        ensures faithful { Faithful I.model place_forms.fun input.old result input.new }
        ensures kept { MatchResult result
            (λ place. Waits I.model token_forms.fun self.old input.old place self.new input.new)
            (λ e. waiting self.new ≡ waiting self.old) }
        ensures refused { IfErr result (λ e. NoBody I.model e input.new) }
        ensures quiet { Quiet I.model input.old input.new }
    {
        let context = input.get_ctx();
        let body = self.taker.fun(input)?;
        self.keep(context, body, input)
    }

    fn class(&mut self, input: &mut Buffer<I>) -> PResult<Span>
        requires { at_token is_class (current input.old) ≡ true }
        ensures hooked { Hooked I.model place_forms.class input.old result input.new }
        ensures faithful { Faithful I.model place_forms.class input.old result input.new }
        ensures kept { MatchResult result
            (λ place. Waits I.model token_forms.class self.old input.old place self.new input.new)
            (λ e. waiting self.new ≡ waiting self.old) }
        ensures refused { IfErr result (λ e. NoBody I.model e input.new) }
        ensures quiet { Quiet I.model input.old input.new }
    {
        let context = input.get_ctx();
        let body = self.taker.class(input)?;
        self.keep(context, body, input)
    }

    fn block(&mut self, input: &mut Buffer<I>) -> PResult<Span>
        requires { at_token is_brace (current input.old) ≡ true }
        ensures hooked { Hooked I.model place_forms.block input.old result input.new }
        ensures faithful { Faithful I.model place_forms.block input.old result input.new }
        ensures kept { MatchResult result
            (λ place. Waits I.model token_forms.block self.old input.old place self.new input.new)
            (λ e. waiting self.new ≡ waiting self.old) }
        ensures refused { IfErr result (λ e. NoBody I.model e input.new) }
        ensures quiet { Quiet I.model input.old input.new }
    {
        let context = input.get_ctx();
        let body = self.taker.block(input)?;
        self.keep(context, body, input)
    }

    ghost lawful = { place_forms_read };
}

impl ReplayBodies for DeferredBodies {
    ghost use Rattle.swc_bodies.specs.Deferred.{place_forms_read, place_forms_replay};

    ghost lawful = { place_forms_read };

    ghost replays = { place_forms_replay };
}
