//! A text in ASCII as a source of the parser.
ghost use Rattle.std.specs.Prelude.{◌≡◌, ◌+◌, ◌-◌, ◌<◌, ◌≤◌, ◌^◌, ◌∷◌, ◌++◌, [], nat_lt, length, slice_get, string_bytes, IfOk, IfErr, IfSome};
ghost use Rattle.std.specs.{List.position, Str.IsAscii};
ghost use Rattle.swc_input.specs.Listed.{new_state};
ghost use Rattle.swc_tokens.specs.{Faults.IsRefusal, Moved.AreTokensOf};
ghost use Rattle.swc_tokens.specs.Faults as faults;

use crate::find_tokens;
use crate::found::Found;
use crate::making::{Source, put};
use std::alloc::{AllocError, Global};
use swc_context::context::{Context, EsVersion, Syntax, TokenContexts};
use swc_context::error::{Error, PResult};
use swc_context::span::BytePos;
use swc_input::listed::TokensInput;
use swc_input::token::TokenAndSpan;
use swc_input::tokens::Tokens;

/// A source that gives the tokens of a text that `read_tokens` reads. Where each is and what it is, is found when the
/// source is made, in 12 bytes, which go back as tokens are given; a token is made when it is asked for. So it takes far
/// less memory than their list. It owns its text, and fails only when it is out of memory.
#[derive(Drop)]
pub struct AsciiInput {
    alloc: Global,
    text: String,
    /// The tokens that weren't given yet, the next one last.
    found: Vec<Found>,
    /// Where the first token begins; 0 where there is none.
    start: BytePos,
    /// The context, and the faults that were recorded.
    notes: TokensInput,
    failed: bool,
    ghost short: { length (string_bytes text) < 2 ^ 32 },
    ghost ascii: { IsAscii (string_bytes text) },
}

impl AsciiInput {
    ghost use Rattle.swc_tokens.specs.Inputs.{input_state, tokens_of};

    /// A source of the tokens of this text, which it keeps, and doesn't copy; a text that `read_tokens` refuses is
    /// refused so.
    pub fn new(
        alloc: Global,
        text: Vec<u8>,
        context: Context,
        syntax: Syntax,
        target: EsVersion,
    ) -> PResult<AsciiInput>
        ensures too_long { 4294967295 < length text.items → result ≡ Err (faults.lex_fault (faults.between 0 0)) }
        ensures beyond_ascii { length text.items ≤ 4294967295
            → IfSome (position (λ byte. nat_lt 127 byte) text.items) (λ at. result
            ≡ Err (faults.lex_fault (faults.between at (at + 1)))) }
        ensures refused { length text.items ≤ 4294967295 → IfErr result (IsRefusal text.items) }
        ensures tokens { IfOk result (λ s. AreTokensOf text.items (tokens_of s)) }
        ensures state { IfOk result (λ s. input_state s ≡ new_state (tokens_of s) context syntax target) }
    {
        let mut found = find_tokens(alloc, &text)?;
        let start = start_of(&found);
        found.reverse();
        Ok(AsciiInput {
            alloc,
            text: owned_text(text),
            found,
            start,
            notes: TokensInput::new(alloc, Vec::new(alloc), context, syntax, target),
            failed: false,
        })
    }
}

/// Where the first token begins, or 0 where there is none.
fn start_of(found: &[Found]) -> BytePos {
    match found.first() {
        Some(first) => first.span.lo,
        None => BytePos(0),
    }
}

/// The text that ASCII bytes are.
fn owned_text(bytes: Vec<u8>) -> String
    requires { IsAscii bytes.items }
    ensures { string_bytes result ≡ bytes.items }
{
    match String::from_utf8(bytes) {
        Ok(text) => text,
        Err(_) => unreachable!(),
    }
}

/// Takes out the last one. Where half of the room is empty, it goes back: each is moved once at most.
fn drop_last(found: &mut Vec<Found>)
    ensures { IfSome (slice_get found.old.items (length found.old.items - 1))
        (λ last. found.old.items ≡ found.new.items ++ last ∷ []) }
{
    let _ = found.pop();
    if found.len() <= found.capacity() / 2 {
        found.shrink_to_fit();
    }
}

impl Iterator for AsciiInput {
    ghost use Rattle.std.specs.Iterator.{at_most};
    ghost use Rattle.swc_input.specs.Source.{Asked};
    ghost use Rattle.swc_tokens.specs.Inputs.{input_model, left};

    type Item = TokenAndSpan;

    ghost next_gives = { Asked input_model };

    ghost remaining = { λ s. at_most (left s) };

    fn next(&mut self) -> Option<TokenAndSpan> {
        if self.failed {
            return None;
        }
        let found = *self.found.last()?;
        match Source::new(self.alloc, self.text.as_str()).make(found) {
            Ok(token) => {
                drop_last(&mut self.found);
                Some(token)
            }
            Err(AllocError) => {
                self.failed = true;
                None
            }
        }
    }
}

impl Tokens for AsciiInput {
    ghost use Rattle.std.proofs.Common.{refl};
    ghost use Rattle.swc_tokens.specs.Inputs.{input_model, with_contexts, input_laws, input_unmoved};

    ghost model = { input_model };

    ghost with_contexts = { with_contexts };

    ghost laws = { input_laws };

    ghost unmoved = { input_unmoved };

    ghost may_ask = { λ s. tt };

    ghost ends = { λ s. refl };

    ghost asked = { λ s r t h. h };

    #[tactic(auto, using(crate::specs::Inputs::notes_called))]
    fn set_ctx(&mut self, ctx: Context) -> Result<(), AllocError> {
        self.notes.set_ctx(ctx)
    }

    fn ctx(&self) -> Context {
        self.notes.ctx()
    }

    fn syntax(&self) -> Syntax {
        self.notes.syntax()
    }

    fn target(&self) -> EsVersion {
        self.notes.target()
    }

    fn start_pos(&self) -> BytePos {
        self.start
    }

    #[tactic(auto, using(crate::specs::Inputs::untouched))]
    fn set_expr_allowed(&mut self, _allow: bool) {}

    #[tactic(auto, using(crate::specs::Inputs::untouched))]
    fn set_next_regexp(&mut self, _start: Option<BytePos>) {}

    fn token_context(&self) -> &TokenContexts {
        self.notes.token_context()
    }

    fn token_context_mut(&mut self) -> &mut TokenContexts {
        self.notes.token_context_mut()
    }

    #[tactic(auto, using(crate::specs::Inputs::notes_called))]
    fn set_token_context(&mut self, contexts: TokenContexts) {
        self.notes.set_token_context(contexts);
    }

    #[tactic(auto, using(crate::specs::Inputs::notes_called))]
    fn add_error(&mut self, error: Error) -> Result<(), AllocError> {
        self.notes.add_error(error)
    }

    #[tactic(auto, using(crate::specs::Inputs::notes_called))]
    fn add_module_mode_error(&mut self, error: Error) -> Result<(), AllocError> {
        self.notes.add_module_mode_error(error)
    }

    #[tactic(auto, using(crate::specs::Inputs::notes_called))]
    fn take_errors(&mut self) -> Vec<Error> {
        self.notes.take_errors()
    }

    fn failed(&self) -> bool {
        self.failed
    }

    #[tactic(auto, using(crate::specs::Inputs::asked_given, crate::specs::Inputs::asked_over, crate::specs::Inputs::asked_failed))]
    fn fill(&mut self, place: &mut Option<TokenAndSpan>) {
        if self.failed {
            put(place, None);
            return;
        }
        match self.found.last() {
            None => put(place, None),
            Some(found) => {
                let found = *found;
                match Source::new(self.alloc, self.text.as_str()).put(found, place) {
                    Ok(()) => drop_last(&mut self.found),
                    Err(AllocError) => {
                        self.failed = true;
                        put(place, None);
                    }
                }
            }
        }
    }
}
