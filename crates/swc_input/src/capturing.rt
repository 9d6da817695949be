// A source that keeps the tokens that it gives.
ghost use Rattle.std.specs.Prelude.{◌≡◌, [], false, MatchOption, OnOk, OnErr, map};
ghost use Rattle.swc_input.specs.Capturing.{within, tokens_kept, has_lost};
ghost use Rattle.swc_input.specs.{Kept.kept, Plain.plain};

use crate::keeping::keep;
use crate::token::TokenAndSpan;
use crate::tokens::{Tokens, ask};
use std::alloc::{AllocError, Global};
use swc_context::context::{Context, EsVersion, Syntax, TokenContexts};
use swc_context::error::Error;
use swc_context::span::BytePos;

/// A source that gives what another source gives, and keeps a copy of each token.
///
/// Before a token is kept, those kept at the end that end after its start, in bytes, are dropped: so of a slash and the
/// regular expression that begins there, the latter is kept. Where each token begins where the one before it ends, or
/// after, all are kept, and empty ones too, as the text of a template may be.
///
/// A token of which no copy could be kept, when out of memory, isn't handed on: the source has failed then, gives
/// nothing any more, and asks for nothing. Every other call is that of the source within, and leaves what is kept.
pub struct Capturing<I> {
    inner: I,
    kept: Vec<TokenAndSpan>,
    /// A token was lost, since no copy of it could be kept.
    lost: bool,
}

// Not derived: so dropping it is a call, and is proved here alone.
impl<I: Drop> Drop for Capturing<I> {
    fn drop(self) {
        let Capturing {
            inner: _,
            kept: _,
            lost: _,
        } = self;
    }
}

impl<I: Tokens> Capturing<I> {
    /// A source that gives what the other gives from now on, and keeps its tokens in memory of the allocator. Takes no
    /// memory itself, and asks for no token.
    pub fn new(alloc: Global, input: I) -> Capturing<I>
        ensures source { within result ≡ input }
        ensures nothing_kept { tokens_kept result ≡ [] }
        ensures none_lost { has_lost result ≡ false }
    {
        Capturing {
            inner: input,
            kept: Vec::new(alloc),
            lost: false,
        }
    }

    /// The tokens that are kept, in the order in which they were given, with their places in bytes.
    pub fn tokens(&self) -> &[TokenAndSpan]
        ensures { result.now ≡ tokens_kept self.now }
    {
        self.kept.as_slice()
    }

    /// Hands out the tokens that are kept, as `tokens` has them, and keeps none of them: what is given from then on is
    /// kept from the start. As `source.take()` is `Iterator::take`, write `Capturing::take(&mut source)`.
    pub fn take(&mut self) -> Vec<TokenAndSpan>
        ensures taken { result.items ≡ tokens_kept self.old }
        ensures emptied { tokens_kept self.new ≡ [] }
        ensures source { within self.new ≡ within self.old }
        ensures lost { has_lost self.new ≡ has_lost self.old }
    {
        let alloc = *self.kept.allocator();
        std::mem::replace(&mut self.kept, Vec::new(alloc))
    }
}

/// Keeps a copy of the token. Refused only when out of memory, and then nothing changes.
#[tactic(auto, using(crate::proofs::Kept::copy_kept))]
fn keep_copy(tokens: &mut Vec<TokenAndSpan>, token: &TokenAndSpan) -> Result<(), AllocError>
    ensures kept { OnOk result (map plain tokens.new.items ≡ kept (map plain tokens.old.items) (plain token.now)) }
    ensures unchanged { OnErr result (tokens.new.items ≡ tokens.old.items) }
{
    let copy = token.try_clone()?;
    keep(tokens, copy)
}

/// Keeps a copy of the token and hands it on; where there is no memory to keep it, nothing changes, and it is dropped.
fn hand_on(tokens: &mut Vec<TokenAndSpan>, token: TokenAndSpan) -> Option<TokenAndSpan>
    ensures { MatchOption result (tokens.new.items ≡ tokens.old.items)
        (λ x. (x ≡ token) × (map plain tokens.new.items ≡ kept (map plain tokens.old.items) (plain token))) }
{
    match keep_copy(tokens, &token) {
        Ok(()) => Some(token),
        Err(AllocError) => None,
    }
}

impl<I: Tokens> Iterator for Capturing<I> {
    ghost use Rattle.std.specs.Iterator.{at_most};
    ghost use Rattle.swc_input.specs.{Source.Asked, Capturing.capturing_model};

    type Item = TokenAndSpan;

    ghost next_gives = { Asked (capturing_model I.model) };

    ghost remaining = { λ s. at_most (I.model.state s.inner).bound };

    fn next(&mut self) -> Option<TokenAndSpan> {
        if self.lost {
            return None;
        }
        let token = ask(&mut self.inner)?;
        let given = hand_on(&mut self.kept, token);
        self.lost = given.is_none();
        given
    }
}

impl<I: Tokens> Tokens for Capturing<I> {
    ghost use Rattle.std.proofs.Common.{refl};
    ghost use Rattle.swc_input.specs.Capturing.{capturing_model, with_contexts, capturing_laws, capturing_unmoved};

    ghost model = { capturing_model I.model };

    ghost with_contexts = { with_contexts I.with_contexts };

    ghost laws = { capturing_laws I.laws };

    ghost unmoved = { capturing_unmoved I.laws I.with_contexts I.unmoved };

    ghost may_ask = { λ s. tt };

    ghost ends = { λ s. refl };

    ghost asked = { λ s r t h. h };

    fn set_ctx(&mut self, ctx: Context) -> Result<(), AllocError> {
        self.inner.set_ctx(ctx)
    }

    fn ctx(&self) -> Context {
        self.inner.ctx()
    }

    fn syntax(&self) -> Syntax {
        self.inner.syntax()
    }

    fn target(&self) -> EsVersion {
        self.inner.target()
    }

    fn start_pos(&self) -> BytePos {
        self.inner.start_pos()
    }

    fn set_expr_allowed(&mut self, allow: bool) {
        self.inner.set_expr_allowed(allow);
    }

    fn set_next_regexp(&mut self, start: Option<BytePos>) {
        self.inner.set_next_regexp(start);
    }

    fn token_context(&self) -> &TokenContexts {
        self.inner.token_context()
    }

    fn token_context_mut(&mut self) -> &mut TokenContexts {
        self.inner.token_context_mut()
    }

    fn set_token_context(&mut self, contexts: TokenContexts) {
        self.inner.set_token_context(contexts);
    }

    fn add_error(&mut self, error: Error) -> Result<(), AllocError> {
        self.inner.add_error(error)
    }

    fn add_module_mode_error(&mut self, error: Error) -> Result<(), AllocError> {
        self.inner.add_module_mode_error(error)
    }

    fn take_errors(&mut self) -> Vec<Error> {
        self.inner.take_errors()
    }

    fn failed(&self) -> bool {
        self.lost || self.inner.failed()
    }
}
