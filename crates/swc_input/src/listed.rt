// A list of tokens as a source.
ghost use Rattle.std.specs.Prelude.{◌≡◌, true, vec_len};

use crate::token::TokenAndSpan;
use crate::tokens::Tokens;
use std::alloc::{AllocError, Global};
use std::collections::VecDeque;
use swc_context::context::{Context, EsVersion, Syntax, TokenContexts};
use swc_context::error::Error;
use swc_context::span::BytePos;

/// A source that gives the tokens of a list.
pub struct TokensInput {
    rest: VecDeque<TokenAndSpan>,
    context: Context,
    syntax: Syntax,
    target: EsVersion,
    start: BytePos,
    contexts: TokenContexts,
    errors: Vec<Error>,
    module_errors: Vec<Error>,
    ghost none_waits: { context.module ≡ true → vec_len module_errors ≡ 0 },
}

// Not derived: so dropping a list's source is a call, and is proved here alone.
impl Drop for TokensInput {
    fn drop(self) {
        let TokensInput {
            rest: _,
            context: _,
            syntax: _,
            target: _,
            start: _,
            contexts: _,
            errors: _,
            module_errors: _,
        } = self;
    }
}

impl TokensInput {
    ghost use Rattle.swc_input.specs.Listed.{listed_state, new_state, begins_at, first_place, origin};

    /// A source of these tokens, in which no fault was recorded. It begins where the first token does, or at 0. Takes
    /// no memory.
    pub fn new(
        alloc: Global,
        tokens: Vec<TokenAndSpan>,
        context: Context,
        syntax: Syntax,
        target: EsVersion,
    ) -> TokensInput
        ensures state { listed_state result ≡ new_state tokens.items context syntax target }
        ensures begins { begins_at result ≡ first_place origin tokens.items }
    {
        TokensInput::new_at(alloc, BytePos(0), tokens, context, syntax, target)
    }

    /// A source of these tokens, as `new` makes it, that begins at `start`, a position in bytes, where there is none:
    /// so the end of an empty part of a text lies in that part.
    pub fn new_at(
        alloc: Global,
        start: BytePos,
        tokens: Vec<TokenAndSpan>,
        context: Context,
        syntax: Syntax,
        target: EsVersion,
    ) -> TokensInput
        ensures state { listed_state result ≡ new_state tokens.items context syntax target }
        ensures begins { begins_at result ≡ first_place start tokens.items }
    {
        let start = match tokens.first() {
            Some(token) => token.span.lo,
            None => start,
        };
        TokensInput {
            rest: VecDeque::from(tokens),
            context,
            syntax,
            target,
            start,
            contexts: TokenContexts,
            errors: Vec::new(alloc),
            module_errors: Vec::new(alloc),
        }
    }
}

impl Iterator for TokensInput {
    ghost use Rattle.std.specs.{Iterator.at_most, Prelude.length};
    ghost use Rattle.swc_input.specs.Listed.{NextListed};

    type Item = TokenAndSpan;

    ghost next_gives = { NextListed };

    ghost remaining = { λ s. at_most (length s.rest.items) };

    fn next(&mut self) -> Option<TokenAndSpan> {
        self.rest.pop_front()
    }
}

impl Tokens for TokensInput {
    ghost use Rattle.std.proofs.Common.{refl};
    ghost use Rattle.swc_input.specs.Listed.{listed_model, with_contexts, listed_laws, listed_unmoved, listed_asked};

    ghost model = { listed_model };

    ghost with_contexts = { with_contexts };

    ghost laws = { listed_laws };

    ghost unmoved = { listed_unmoved };

    ghost may_ask = { λ s. tt };

    ghost ends = { λ s. refl };

    ghost asked = { listed_asked };

    fn set_ctx(&mut self, ctx: Context) -> Result<(), AllocError> {
        if ctx.module {
            self.errors.append(&mut self.module_errors)?;
        }
        self.context = ctx;
        Ok(())
    }

    fn ctx(&self) -> Context {
        self.context
    }

    fn syntax(&self) -> Syntax {
        self.syntax
    }

    fn target(&self) -> EsVersion {
        self.target
    }

    fn start_pos(&self) -> BytePos {
        self.start
    }

    fn set_expr_allowed(&mut self, _allow: bool) {}

    fn set_next_regexp(&mut self, _start: Option<BytePos>) {}

    fn token_context(&self) -> &TokenContexts {
        &self.contexts
    }

    fn token_context_mut(&mut self) -> &mut TokenContexts {
        &mut self.contexts
    }

    fn set_token_context(&mut self, contexts: TokenContexts) {
        self.contexts = contexts;
    }

    fn add_error(&mut self, error: Error) -> Result<(), AllocError> {
        self.errors.push(error)?;
        Ok(())
    }

    fn add_module_mode_error(&mut self, error: Error) -> Result<(), AllocError> {
        if self.context.module {
            self.errors.push(error)?;
        } else {
            self.module_errors.push(error)?;
        }
        Ok(())
    }

    fn take_errors(&mut self) -> Vec<Error> {
        let alloc = *self.errors.allocator();
        std::mem::replace(&mut self.errors, Vec::new(alloc))
    }

    fn failed(&self) -> bool {
        false
    }
}
