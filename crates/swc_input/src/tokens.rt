// Where the parser's tokens come from.
ghost use Rattle.std.specs.Prelude.{◌≡◌, [], Option, OnOk, OnErr};
ghost use Rattle.std.specs.{Borrow.sem, Borrow.follows, Iterator.at_most};
ghost use Rattle.swc_context.specs.{declared.context.TokenContexts.TokenContexts, contracts.context.TokenContexts.the_row as contexts_row};
ghost use Rattle.swc_input.specs.declared.token.TokenAndSpan.{TokenAndSpan};
ghost use Rattle.swc_input.specs.Source.{Model, Laws, Asked, HeldBack, Hinted, Unmoved, expression, regexp, with_context, with_error, with_module_error};

use crate::token::TokenAndSpan;
use std::alloc::AllocError;
use swc_context::context::{Context, EsVersion, Syntax, TokenContexts};
use swc_context::error::Error;
use swc_context::span::BytePos;

/// A source of tokens, which also keeps the context and the faults that were recorded.
///
/// `next` gives the tokens. A `None` of a source that has `failed` is out of memory and not the
/// end; any other `None` is the end, and stays.
pub trait Tokens: Iterator<Item = TokenAndSpan> {
    /// What contracts see of a source: its states, and which tokens calls gave between two of them.
    ghost model: { Model Self };

    /// The source with another stack of contexts.
    ghost with_contexts: { Self → TokenContexts → Self };

    /// Sets the context. If it is a module's, the faults that waited for a module are recorded. The only error is out
    /// of memory for these, and then nothing changes.
    fn set_ctx(&mut self, ctx: Context) -> Result<(), AllocError>
        ensures gave { model.gives self.old [] self.new }
        ensures set { OnOk result (model.state self.new ≡ with_context ctx (model.state self.old)) }
        ensures unchanged { OnErr result (model.state self.new ≡ model.state self.old) }
        ensures refused { OnErr result (HeldBack ctx (model.state self.old)) };

    /// The context.
    fn ctx(&self) -> Context
        ensures { result ≡ (model.state self.now).context };

    /// Which forms of the language are read.
    fn syntax(&self) -> Syntax
        ensures { result ≡ (model.state self.now).syntax };

    /// The edition of the standard, for lexers.
    fn target(&self) -> EsVersion
        ensures { result ≡ (model.state self.now).target };

    /// Where the source begins, in bytes.
    fn start_pos(&self) -> BytePos {
        BytePos(0)
    }

    /// Hints to a lexer whether an expression may begin here.
    fn set_expr_allowed(&mut self, allow: bool)
        ensures told { model.told self.old (expression allow) self.new }
        ensures gave { model.gives self.old [] self.new }
        ensures state { model.state self.new ≡ model.state self.old };

    /// Hints to a lexer that a regular expression begins at the slash that it gave last, which may then come once
    /// more, as part of a regular expression; or, by `None`, that none begins: that brings no token.
    fn set_next_regexp(&mut self, start: Option<BytePos>)
        ensures told { model.told self.old (regexp start) self.new }
        ensures gave { model.gives self.old [] self.new }
        ensures state { Hinted start (model.state self.old) (model.state self.new) };

    /// A lexer's stack of contexts.
    fn token_context(&self) -> &TokenContexts;

    /// A lexer's stack of contexts, to be changed. Whatever is written to it, nothing else changes.
    fn token_context_mut(&mut self) -> &mut TokenContexts
        ensures* lent { sem 𝓛 (follows Self.row contexts_row self.entry.ghost_name result.ghost_name
            (with_contexts self.old)) };

    /// Replaces a lexer's stack of contexts.
    fn set_token_context(&mut self, contexts: TokenContexts)
        ensures gave { model.gives self.old [] self.new }
        ensures state { model.state self.new ≡ model.state self.old };

    /// Records a fault. Refused only when out of memory, and then nothing changes.
    fn add_error(&mut self, error: Error) -> Result<(), AllocError>
        ensures gave { model.gives self.old [] self.new }
        ensures added { OnOk result (model.state self.new ≡ with_error error (model.state self.old)) }
        ensures unchanged { OnErr result (model.state self.new ≡ model.state self.old) };

    /// Records a fault that is one in modules alone: outside a module it waits. Refused only when out of memory, and
    /// then nothing changes.
    fn add_module_mode_error(&mut self, error: Error) -> Result<(), AllocError>
        ensures gave { model.gives self.old [] self.new }
        ensures added { OnOk result (model.state self.new ≡ with_module_error error (model.state self.old)) }
        ensures unchanged { OnErr result (model.state self.new ≡ model.state self.old) };

    /// Hands out the faults that were recorded, never those that wait, and empties their list.
    fn take_errors(&mut self) -> Vec<Error>
        ensures gave { model.gives self.old [] self.new }
        ensures taken { result.items ≡ (model.state self.old).errors }
        ensures emptied { model.state self.new ≡ record (model.state self.old) { errors = [] } };

    /// Whether the source ran out of memory.
    fn failed(&self) -> bool
        ensures { result ≡ (model.state self.now).failed };

    /// Puts the next token in a place, as `next` answers it. A source may write it there, where it would be moved.
    fn fill(&mut self, place: &mut Option<TokenAndSpan>)
        ensures { Asked model self.old place.new self.new }
    {
        *place = self.next();
    }

    ghost laws: { Laws model };

    ghost unmoved: { (s : Self) (contexts : TokenContexts) → Unmoved model s (with_contexts s contexts) };

    ghost may_ask: { (s : Self) → Self.can_next s };

    ghost ends: { (s : Self) → Self.remaining s ≡ at_most (model.state s).bound };

    ghost asked: { (s : Self) (r : Option TokenAndSpan) (t : Self) → Self.next_gives s r t → Asked model s r t };
}

/// The next token of a source.
pub(crate) fn ask<I: Tokens>(source: &mut I) -> Option<TokenAndSpan>
    ensures { Asked I.model source.old result source.new }
{
    source.next()
}
