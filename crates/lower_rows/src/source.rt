// The source of tokens of all rows.
ghost use Rattle.std.specs.Prelude.{◌≡◌, ◌≤◌};
ghost use Rattle.lower_rows.specs.Source.{NextFrom, NextGiven, StillOpen, hinted_tokens};
ghost use Rattle.swc_input.specs.Source.{hint_brings};

use std::alloc::{AllocError, Global};
use swc_context::context::{Context, EsVersion, Syntax, TokenContexts};
use swc_context::error::Error;
use swc_context::span::{BytePos, Span};
use swc_input::listed::TokensInput;
use swc_input::token::TokenAndSpan;
use swc_input::tokens::Tokens;

/// A source that gives the tokens of a list.
///
/// It may have regular expressions beside them: after a hint that one begins at a place, it gives the one that begins
/// there, and then the tokens after that. It notes the context in which it was asked for each token. And it may fail:
/// when it is asked for one token more than it may give.
pub struct TestInput {
    pub list: TokensInput,
    /// The regular expressions that may be given in place of what the list has.
    pub regexes: Vec<TokenAndSpan>,
    /// The one that a hint was given for, which comes next.
    pub hinted: Option<TokenAndSpan>,
    /// The tokens of the list that begin before this place are left out.
    pub past: BytePos,
    /// How many tokens may be given before the source fails.
    pub left: usize,
    /// The end was given.
    pub ended: bool,
    pub failed: bool,
    pub notes: Vec<Note>,
}

// Not derived: so dropping a source is a call, and is proved once.
impl Drop for TestInput {
    fn drop(self) {
        let TestInput {
            list: _,
            regexes: _,
            hinted: _,
            past: _,
            left: _,
            ended: _,
            failed: _,
            notes: _,
        } = self;
    }
}

/// Where a token lies, and the context in which a source was asked for it.
#[derive(Clone, Copy)]
pub struct Note {
    pub span: Span,
    pub context: Context,
}

impl TestInput {
    /// A source that gives the tokens of this list, and each of these regular expressions where a hint says that it
    /// begins; it fails where it is asked for more tokens than may be given.
    pub(crate) fn new(
        alloc: Global,
        list: TokensInput,
        regexes: Vec<TokenAndSpan>,
        left: usize,
    ) -> TestInput {
        TestInput {
            list,
            regexes,
            hinted: None,
            past: BytePos(0),
            left,
            ended: false,
            failed: false,
            notes: Vec::new(alloc),
        }
    }

    /// The regular expression that a hint was given for, or the next token of the list.
    fn take_next(&mut self) -> Option<TokenAndSpan>
        ensures given { NextGiven self.old result self.new }
        ensures open { StillOpen self.old self.new }
    {
        if let Some(regex) = self.hinted.take() {
            self.past = regex.span.hi;
            return Some(regex);
        }
        next_from(&mut self.list, self.past)
    }
}

/// The first token of the list that doesn't begin before the place. Those before it are dropped.
fn next_from(list: &mut TokensInput, past: BytePos) -> Option<TokenAndSpan>
    ensures { NextFrom list.old result list.new }
{
    while let Some(token) = list.next() {
        if token.span.lo.0 >= past.0 {
            return Some(token);
        }
    }
    None
}

/// Notes where the token lies, and the context. A note for which there is no memory is left out.
fn make_note(notes: &mut Vec<Note>, token: &TokenAndSpan, context: Context) {
    let _ = notes.push(Note {
        span: token.span,
        context,
    });
}

/// Takes the token that begins at the place out of the tokens.
fn take_at(tokens: &mut Vec<TokenAndSpan>, start: Option<BytePos>) -> Option<TokenAndSpan>
    ensures { hinted_tokens result ≤ hint_brings start }
{
    let start = start?;
    let index = tokens.iter().position(|token| token.span.lo.0 == start.0)?;
    Some(tokens.remove(index))
}

impl Iterator for TestInput {
    ghost use Rattle.std.specs.Iterator.{at_most};
    ghost use Rattle.lower_rows.specs.Source.{Answered, tokens_left};

    type Item = TokenAndSpan;

    ghost next_gives = { Answered };

    ghost remaining = { λ s. at_most (tokens_left s) };

    fn next(&mut self) -> Option<TokenAndSpan> {
        if self.failed || self.left == 0 {
            self.failed = true;
            return None;
        }
        if self.ended {
            return None;
        }
        let token = self.take_next();
        match &token {
            Some(token) => {
                self.left = self.left.saturating_sub(1);
                make_note(&mut self.notes, token, self.list.ctx());
            }
            None => self.ended = true,
        }
        token
    }
}

impl Tokens for TestInput {
    ghost use Rattle.std.proofs.Common.{refl};
    ghost use Rattle.lower_rows.specs.Source.{test_model, with_contexts, test_laws, test_unmoved, test_asked};

    ghost model = { test_model };

    ghost with_contexts = { with_contexts };

    ghost laws = { test_laws };

    ghost unmoved = { test_unmoved };

    ghost may_ask = { λ s. tt };

    ghost ends = { λ s. refl };

    ghost asked = { test_asked };

    #[tactic(auto, using(crate::specs::Source::list_called))]
    fn set_ctx(&mut self, ctx: Context) -> Result<(), AllocError> {
        self.list.set_ctx(ctx)
    }

    fn ctx(&self) -> Context {
        self.list.ctx()
    }

    fn syntax(&self) -> Syntax {
        self.list.syntax()
    }

    fn target(&self) -> EsVersion {
        self.list.target()
    }

    fn start_pos(&self) -> BytePos {
        self.list.start_pos()
    }

    /// `false` makes the source fail when it is asked for the next token: so a hook can do that. The parser gives no
    /// such hint.
    #[tactic(auto, using(crate::specs::Source::stays))]
    fn set_expr_allowed(&mut self, allow: bool) {
        if !allow {
            self.left = 0;
        }
    }

    #[tactic(auto, using(crate::specs::Source::stays))]
    fn set_next_regexp(&mut self, start: Option<BytePos>) {
        self.hinted = take_at(&mut self.regexes, start);
    }

    fn token_context(&self) -> &TokenContexts {
        self.list.token_context()
    }

    fn token_context_mut(&mut self) -> &mut TokenContexts {
        self.list.token_context_mut()
    }

    #[tactic(auto, using(crate::specs::Source::list_called))]
    fn set_token_context(&mut self, contexts: TokenContexts) {
        self.list.set_token_context(contexts);
    }

    #[tactic(auto, using(crate::specs::Source::list_called))]
    fn add_error(&mut self, error: Error) -> Result<(), AllocError> {
        self.list.add_error(error)
    }

    #[tactic(auto, using(crate::specs::Source::list_called))]
    fn add_module_mode_error(&mut self, error: Error) -> Result<(), AllocError> {
        self.list.add_module_mode_error(error)
    }

    #[tactic(auto, using(crate::specs::Source::list_called))]
    fn take_errors(&mut self) -> Vec<Error> {
        self.list.take_errors()
    }

    fn failed(&self) -> bool {
        self.failed
    }
}
