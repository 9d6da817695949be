// Functions, classes and blocks, of which the tokens are counted.
ghost use Rattle.std.specs.Prelude.{◌≡◌, true};
ghost use Rattle.swc_input.specs.{Buffer.current, Kinds.at_token};
ghost use Rattle.swc_bodies.specs.Readings.{Hooked, Faithful, at_function, is_class, is_brace};
ghost use Rattle.show.specs.Counts.{counted_answer, counted_forms};

use std::alloc::Global;
use swc_ast::spanned::Spanned;
use swc_bodies::bodies::{Bodies, BodyForms, ReplayBodies};
use swc_bodies::token_bodies::TokenBodies;
use swc_bodies::token_body::TokenBody;
use swc_context::error::PResult;
use swc_context::span::Span;
use swc_input::buffer::Buffer;
use swc_input::tokens::Tokens;
use swc_print::print::Kept;

/// A function, a class or a block, as its place and the number of its tokens: all that is printed of it.
#[derive(Drop)]
pub struct Counted {
    /// The place, in bytes, as `TokenBody` has it.
    pub span: Span,
    /// The number of the tokens that `TokenBodies` keeps of it.
    pub tokens: usize,
}

impl Spanned for Counted {
    ghost place = { λ c. c.span };

    fn span(&self) -> Span {
        self.span
    }
}

impl Kept for Counted {
    fn kept(&self) -> usize
        ensures { result ≡ self.now.tokens }
    {
        self.tokens
    }
}

/// The hook that takes and refuses what `TokenBodies` does, and lets the tokens of a body go once they are counted.
#[derive(Drop)]
pub struct CountedBodies {
    taker: TokenBodies,
}

impl CountedBodies {
    /// A hook that has tokens in memory of the allocator while it reads a body. Takes no memory itself.
    pub fn new(alloc: Global) -> CountedBodies {
        CountedBodies {
            taker: TokenBodies::new(alloc),
        }
    }
}

impl BodyForms for CountedBodies {
    type Fun = Counted;

    type Class = Counted;

    type Block = Counted;

    ghost forms = { counted_forms };
}

/// A body that was read, counted; or the refusal.
fn count(read: PResult<TokenBody>) -> PResult<Counted>
    ensures { result ≡ counted_answer read }
{
    let body = read?;
    Ok(Counted {
        span: body.span,
        tokens: body.tokens.len(),
    })
}

impl<I: Tokens> Bodies<I> for CountedBodies {
    ghost use Rattle.show.specs.Counts.{counted_forms_read};

    ghost is_faithful = { true };

    #[tactic(auto, using(crate::proofs::Counting::counted_hooked))]
    fn fun(&mut self, input: &mut Buffer<I>) -> PResult<Counted>
        requires { at_function (current input.old) ≡ true }
        ensures hooked { Hooked I.model counted_forms.fun input.old result input.new }
        ensures faithful { Faithful I.model counted_forms.fun input.old result input.new }
    {
        count(self.taker.fun(input))
    }

    #[tactic(auto, using(crate::proofs::Counting::counted_hooked))]
    fn class(&mut self, input: &mut Buffer<I>) -> PResult<Counted>
        requires { at_token is_class (current input.old) ≡ true }
        ensures hooked { Hooked I.model counted_forms.class input.old result input.new }
        ensures faithful { Faithful I.model counted_forms.class input.old result input.new }
    {
        count(self.taker.class(input))
    }

    #[tactic(auto, using(crate::proofs::Counting::counted_hooked))]
    fn block(&mut self, input: &mut Buffer<I>) -> PResult<Counted>
        requires { at_token is_brace (current input.old) ≡ true }
        ensures hooked { Hooked I.model counted_forms.block input.old result input.new }
        ensures faithful { Faithful I.model counted_forms.block input.old result input.new }
    {
        count(self.taker.block(input))
    }

    ghost lawful = { counted_forms_read };
}

impl ReplayBodies for CountedBodies {
    ghost use Rattle.show.specs.Counts.{counted_forms_read, counted_forms_replay};

    ghost lawful = { counted_forms_read };

    ghost replays = { counted_forms_replay };
}
