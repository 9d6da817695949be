//! A text as a source of the parser, which reads its tokens as they are asked for.
ghost use Rattle.std.specs.Prelude.{◌≡◌, ◌≤◌, false, length, List, ℕ, OnOk, OnErr, Some, None, string_bytes};
ghost use Rattle.swc_input.specs.Listed.{listed_state};
ghost use Rattle.swc_lexer.specs.Legacy.{noted};

use crate::legacy::legacy_fault;
use crate::reader::{End, MAX_LEN, Reader, kind_in};
use crate::stack::Start;
use std::alloc::{AllocError, Global};
use swc_context::context::{Context, EsVersion, Syntax, TokenContexts};
use swc_context::error::Error;
use swc_context::span::BytePos;
use swc_input::listed::TokensInput;
use swc_input::token::TokenAndSpan;
use swc_input::tokens::Tokens;

/// What is or has a text.
pub trait SourceText: Drop {
    ghost use Rattle.std.specs.Prelude.{◌↔◌, take, IsSome, IfSome};
    ghost use Rattle.std.specs.Str.{IsCharBoundary};

    ghost bytes: { Self → List ℕ };

    fn as_text(&self) -> &str
        ensures { result.now ≡ bytes self.now };

    /// The text up to a byte; `None` where that is after its end or within a character.
    fn up_to(self, end: usize) -> Option<Self>
        ensures found { IsSome result ↔ IsCharBoundary (bytes self) end }
        ensures front { IfSome result (λ front. bytes front ≡ take end (bytes self)) };
}

impl SourceText for &str {
    ghost bytes = { λ text. text.now };

    fn as_text(&self) -> &str {
        self
    }

    fn up_to(self, end: usize) -> Option<Self> {
        match self.split_at_checked(end) {
            Some((front, _)) => Some(front),
            None => None,
        }
    }
}

impl SourceText for String {
    ghost bytes = { string_bytes };

    fn as_text(&self) -> &str {
        self.as_str()
    }

    fn up_to(mut self, end: usize) -> Option<Self> {
        if !self.as_str().is_char_boundary(end) {
            return None;
        }
        self.truncate(end);
        Some(self)
    }
}

/// A source that gives the tokens of a text as they are asked for. It holds no list of them, and has the text or borrows it. A
/// fault
/// of the text is an error token, after which nothing comes. A number or an escape of old scripts, as `010` or `"\1"`,
/// is recorded where it is read in strict code or a module, and elsewhere waits for the text to turn out a module. The
/// source fails only when it is out of memory.
#[derive(Drop)]
pub struct TextInput<T: SourceText> {
    alloc: Global,
    text: T,
    end: End,
    begin: usize,
    reader: Reader,
    /// The context, and the faults that were recorded.
    notes: TokensInput,
    failed: bool,
    /// A token with a fault of strict code was given.
    legacy: bool,
    /// The token that wasn't given, since there was no memory to record its fault.
    held: Option<TokenAndSpan>,
    ghost within: { reader.at ≤ length (T.bytes text) },
    ghost none_held: { failed ≡ false → held ≡ None },
}

/// Records a fault of strict code, or has it wait outside of it. The only error is out of memory, and then nothing
/// changes.
fn note(notes: &mut TokensInput, fault: Error) -> Result<(), AllocError>
    ensures noted { OnOk result (listed_state notes.new ≡ noted (Some fault) (listed_state notes.old)) }
    ensures unchanged { OnErr result (listed_state notes.new ≡ listed_state notes.old) }
{
    if notes.ctx().strict {
        notes.add_error(fault)
    } else {
        notes.add_module_mode_error(fault)
    }
}

impl<T: SourceText> TextInput<T> {
    ghost use Rattle.swc_lexer.specs.Inputs as inputs;

    /// A source of the tokens of this text, of a program or of an expression. Takes no memory.
    pub fn new(
        alloc: Global,
        text: T,
        start: Start,
        end: End,
        context: Context,
        syntax: Syntax,
        target: EsVersion,
    ) -> TextInput<T>
        ensures state { inputs.text_state result
            ≡ inputs.new_state end 0 start (T.bytes text) context syntax target }
        ensures coming { inputs.coming result ≡ inputs.all_of end 0 start (T.bytes text) context }
    {
        TextInput::new_at(alloc, text, 0, start, end, context, syntax, target)
    }

    /// A source of the tokens of a part of this text, as `new` makes it: from the byte `at` on, as far as `end` says.
    /// The places of tokens are in the whole text. A hashbang is read at the beginning of the whole text alone.
    pub fn new_at(
        alloc: Global,
        text: T,
        at: usize,
        start: Start,
        end: End,
        context: Context,
        syntax: Syntax,
        target: EsVersion,
    ) -> TextInput<T>
        requires { at ≤ length (T.bytes text) }
        ensures state { inputs.text_state result
            ≡ inputs.new_state end at start (T.bytes text) context syntax target }
        ensures coming { inputs.coming result ≡ inputs.all_of end at start (T.bytes text) context }
    {
        let reader = Reader::new(
            alloc,
            text.as_text().as_bytes(),
            at,
            start,
            kind_in(context),
        );
        TextInput {
            alloc,
            end,
            begin: at,
            reader,
            notes: TokensInput::new(alloc, Vec::new(alloc), context, syntax, target),
            failed: false,
            legacy: false,
            held: None,
            text,
        }
    }

    /// Gives the token, whose fault of strict code, if it has one, is recorded. Where there is no memory to record it,
    /// the source fails.
    #[tactic(auto, using(crate::specs::Inputs::hands_none, crate::specs::Inputs::hands_some, crate::specs::Inputs::hands_lost))]
    fn hand(&mut self, token: TokenAndSpan) -> Option<TokenAndSpan>
        requires { self.old.failed ≡ false }
        ensures same { inputs.SameText self.old self.new }
        ensures reading { inputs.reading self.new ≡ inputs.reading self.old }
        ensures hands { inputs.Hands self.old.legacy (inputs.notes_of self.old) token result self.new }
    {
        match legacy_fault(&token) {
            None => Some(token),
            Some(fault) => match note(&mut self.notes, fault) {
                Ok(()) => {
                    self.legacy = true;
                    Some(token)
                }
                Err(AllocError) => {
                    self.failed = true;
                    self.held = Some(token);
                    None
                }
            },
        }
    }

    /// How far the text was read, in bytes. After the end this is where it ended.
    pub fn at(&self) -> usize
        ensures { result ≡ self.now.reader.at }
    {
        self.reader.at()
    }
}

impl<T: SourceText> Iterator for TextInput<T> {
    ghost use Rattle.std.specs.Iterator.{at_most};
    ghost use Rattle.swc_lexer.specs.Inputs.{NextText, left};

    type Item = TokenAndSpan;

    ghost next_gives = { NextText };

    ghost remaining = { λ s. at_most (left s) };

    #[tactic(auto, using(crate::specs::Inputs::next_handed, crate::specs::Inputs::next_stopped, crate::specs::Inputs::next_failed))]
    fn next(&mut self) -> Option<TokenAndSpan> {
        if self.failed {
            return None;
        }
        match self.reader.next(self.alloc, self.end, self.text.as_text()) {
            Ok(Some(token)) => self.hand(token),
            Ok(None) => None,
            Err(AllocError) => {
                self.failed = true;
                None
            }
        }
    }
}

impl<T: SourceText> Tokens for TextInput<T> {
    ghost use Rattle.std.proofs.Common.{refl};
    ghost use Rattle.swc_lexer.specs.Inputs.{text_model, with_contexts, text_laws, text_unmoved, text_asked};

    ghost model = { text_model };

    ghost with_contexts = { with_contexts };

    ghost laws = { text_laws };

    ghost unmoved = { text_unmoved };

    ghost may_ask = { λ s. tt };

    ghost ends = { λ s. refl };

    ghost asked = { text_asked };

    #[tactic(auto, using(crate::specs::Inputs::notes_called))]
    fn set_ctx(&mut self, ctx: Context) -> Result<(), AllocError> {
        self.notes.set_ctx(ctx)
    }

    fn ctx(&self) -> Context {
        self.notes.ctx()
    }

    fn syntax(&self) -> Syntax {
        self.notes.syntax()
    }

    fn target(&self) -> EsVersion {
        self.notes.target()
    }

    fn start_pos(&self) -> BytePos {
        if self.begin <= MAX_LEN {
            BytePos(self.begin as u32)
        } else {
            BytePos(0)
        }
    }

    #[tactic(auto, using(crate::specs::Inputs::untouched))]
    fn set_expr_allowed(&mut self, _allow: bool) {}

    #[tactic(auto, using(crate::specs::Inputs::untouched))]
    fn set_next_regexp(&mut self, _start: Option<BytePos>) {}

    fn token_context(&self) -> &TokenContexts {
        self.notes.token_context()
    }

    fn token_context_mut(&mut self) -> &mut TokenContexts {
        self.notes.token_context_mut()
    }

    #[tactic(auto, using(crate::specs::Inputs::notes_called))]
    fn set_token_context(&mut self, contexts: TokenContexts) {
        self.notes.set_token_context(contexts);
    }

    #[tactic(auto, using(crate::specs::Inputs::notes_called))]
    fn add_error(&mut self, error: Error) -> Result<(), AllocError> {
        self.notes.add_error(error)
    }

    #[tactic(auto, using(crate::specs::Inputs::notes_called))]
    fn add_module_mode_error(&mut self, error: Error) -> Result<(), AllocError> {
        self.notes.add_module_mode_error(error)
    }

    #[tactic(auto, using(crate::specs::Inputs::notes_called))]
    fn take_errors(&mut self) -> Vec<Error> {
        self.notes.take_errors()
    }

    fn failed(&self) -> bool {
        self.failed
    }
}
