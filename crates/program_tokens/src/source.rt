// The tokens of a program as a source, which passes over the bodies of functions and classes.
ghost use Rattle.std.specs.Prelude.{◌≡◌, ◌<◌, ◌≤◌, length};

use crate::brackets::Bracketed;
use std::alloc::{AllocError, Global};
use swc_context::atom::Atom;
use swc_context::context::{Context, EsVersion, Syntax, TokenContexts};
use swc_context::error::Error;
use swc_context::span::{BytePos, Span};
use swc_context::word::{Keyword, Word};
use swc_input::listed::TokensInput;
use swc_input::token::{Token, TokenAndSpan};
use swc_input::tokens::Tokens;
use swc_lexer::legacy::legacy_fault;

/// A source that gives copies of the tokens of a list, from any of them on.
///
/// `pass_over` leaves out what is in the braces of a function, a class or a block, in a step, however much that is.
#[derive(Drop)]
pub struct ProgramInput {
    alloc: Global,
    list: Bracketed,
    /// The number of the next token.
    at: usize,
    /// The number of the token after the next one, where that isn't the next number.
    jump: Option<usize>,
    ended: bool,
    failed: bool,
    /// The context, and the faults that were recorded.
    notes: TokensInput,
    /// How many faults of modules wait.
    waiting: usize,
    /// How many of these were recorded before the first one that was in strict code.
    strict: Option<usize>,
    /// The numbers and escapes of old scripts that were given in strict code.
    legacy: Vec<Error>,
}

impl ProgramInput {
    ghost use Rattle.program_tokens.specs.Source.{program_state, tokens_left, StillOpen};

    /// A source of these tokens. Takes no memory.
    pub fn new(alloc: Global, list: Bracketed, context: Context, syntax: Syntax) -> ProgramInput
        ensures context { (program_state result).context ≡ context }
    {
        let target = EsVersion::default();
        ProgramInput {
            alloc,
            list,
            at: 0,
            jump: None,
            ended: false,
            failed: false,
            notes: TokensInput::new(alloc, Vec::new(alloc), context, syntax, target),
            waiting: 0,
            strict: None,
            legacy: Vec::new(alloc),
        }
    }

    /// The same source, which gives from now on the tokens that begin at the place or after it.
    pub fn from_start(self, start: BytePos) -> ProgramInput
        ensures context { (program_state result).context ≡ (program_state self).context }
    {
        ProgramInput {
            at: self.list.index_of(start.0),
            jump: None,
            ended: false,
            ..self
        }
    }

    /// Leaves out the rest of the function, the class or the block whose first token begins at the place, and was given
    /// already: from now on only its braces come. Does nothing if the braces aren't in the list, or if a token after
    /// the `{` was given. Says whether they are in the list; if not, no token comes any more.
    pub fn pass_over(&mut self, start: BytePos) -> bool
        ensures still { StillOpen self.old self.new }
        ensures lower { tokens_left self.new ≤ tokens_left self.old }
    {
        let first = self.list.index_of(start.0);
        let Some((open, close)) = self.list.braces(first) else {
            self.at = self.list.len();
            self.jump = None;
            return false;
        };
        if self.at <= open {
            self.at = open;
            self.jump = Some(close);
        } else if self.at <= close && self.at - open == 1 {
            self.at = close;
        }
        true
    }

    /// Whether `static` is before the first token that begins at the place or after it: so the block that begins there
    /// is one of a class (ECMA-262, 15.7), and the body of no function.
    pub fn is_after_static(&self, start: BytePos) -> bool {
        self.list.is_after_static(self.list.index_of(start.0))
    }

    /// Whether `await` is before the first token that begins at the place or after it.
    pub fn is_after_await(&self, start: BytePos) -> bool {
        self.list.is_after_await(self.list.index_of(start.0))
    }

    /// The place of the word before the first token that begins at the place or after it, if that word means a keyword
    /// and is a name because it is written with an escape.
    pub fn escaped_before(&self, start: BytePos) -> Option<Span> {
        self.list.escaped_before(self.list.index_of(start.0))
    }

    /// The place of the token that is where the name would be of the function or the class that begins there; `None` if
    /// it has a name.
    pub fn missing_name(&self, start: BytePos) -> Option<Span> {
        self.list.missing_name(self.list.index_of(start.0))
    }

    /// Notes a number or an escape of old scripts (ECMA-262, 12.9.3.1 and 12.9.4.1), which strict code must not have.
    fn note_legacy(&mut self, token: &TokenAndSpan) -> Result<(), AllocError>
        ensures { self.new ≡ record self.old { legacy = self.new.legacy } }
    {
        if self.notes.ctx().strict {
            if let Some(fault) = legacy_fault(token) {
                self.legacy.push(fault)?;
            }
        }
        Ok(())
    }

    /// Goes on to the next token.
    fn step(&mut self)
        requires { self.old.at < length self.old.list.tokens.items }
        ensures still { StillOpen self.old self.new }
        ensures lower { tokens_left self.new < tokens_left self.old }
    {
        let next = self.at.saturating_add(1);
        self.at = match self.jump.take() {
            Some(at) => at.max(next),
            None => next,
        };
    }

    /// Takes out the faults of strict code: the numbers and escapes of old scripts, and then the faults that were
    /// recorded in strict code and wait for a module, each in the order of the text. The only error is out of memory.
    pub fn take_strict_faults(&mut self) -> Result<Vec<Error>, AllocError> {
        let mut faults = std::mem::replace(&mut self.legacy, Vec::new(self.alloc));
        let Some(index) = self.strict.take() else {
            return Ok(faults);
        };
        let context = self.notes.ctx();
        let module = Context {
            module: true,
            ..context
        };
        let _ = self.notes.set_ctx(module);
        let waiting = self.notes.take_errors();
        let _ = self.notes.set_ctx(context);
        for fault in waiting.into_iter().skip(index) {
            faults.push(fault)?;
        }
        Ok(faults)
    }
}

/// A copy of the token. Where `await` is no operator (13.1), it is a name like others.
fn named(
    alloc: Global,
    context: Context,
    token: &TokenAndSpan,
) -> Result<TokenAndSpan, AllocError> {
    let is_operator = context.in_async || context.module || context.in_static_block;
    match token.token {
        Token::Word(Word::Keyword(Keyword::Await)) if !is_operator => Ok(TokenAndSpan {
            token: Token::Word(Word::Ident(Atom::new(alloc, "await")?)),
            had_line_break: token.had_line_break,
            span: token.span,
        }),
        _ => token.try_clone(),
    }
}

impl Iterator for ProgramInput {
    ghost use Rattle.std.specs.Iterator.{at_most};
    ghost use Rattle.program_tokens.specs.Source.{Answered, tokens_left};

    type Item = TokenAndSpan;

    ghost next_gives = { Answered };

    ghost remaining = { λ s. at_most (tokens_left s) };

    fn next(&mut self) -> Option<TokenAndSpan> {
        if self.failed || self.ended {
            return None;
        }
        let (alloc, context) = (self.alloc, self.notes.ctx());
        let Some(token) = self.list.get(self.at) else {
            self.ended = true;
            return None;
        };
        match named(alloc, context, token) {
            Ok(copy) => {
                if self.note_legacy(&copy).is_err() {
                    self.failed = true;
                    return None;
                }
                self.step();
                Some(copy)
            }
            Err(AllocError) => {
                self.failed = true;
                None
            }
        }
    }
}

impl Tokens for ProgramInput {
    ghost use Rattle.std.proofs.Common.{refl};
    ghost use Rattle.program_tokens.specs.Source.{program_model, with_contexts, program_laws, program_unmoved, program_asked};

    ghost model = { program_model };

    ghost with_contexts = { with_contexts };

    ghost laws = { program_laws };

    ghost unmoved = { program_unmoved };

    ghost may_ask = { λ s. tt };

    ghost ends = { λ s. refl };

    ghost asked = { program_asked };

    #[tactic(auto, using(crate::specs::Source::notes_called))]
    fn set_ctx(&mut self, ctx: Context) -> Result<(), AllocError> {
        self.notes.set_ctx(ctx)
    }

    fn ctx(&self) -> Context {
        self.notes.ctx()
    }

    fn syntax(&self) -> Syntax {
        self.notes.syntax()
    }

    fn target(&self) -> EsVersion {
        self.notes.target()
    }

    #[tactic(auto, using(crate::specs::Source::stays))]
    fn set_expr_allowed(&mut self, _allow: bool) {}

    #[tactic(auto, using(crate::specs::Source::stays))]
    fn set_next_regexp(&mut self, _start: Option<BytePos>) {}

    fn token_context(&self) -> &TokenContexts {
        self.notes.token_context()
    }

    fn token_context_mut(&mut self) -> &mut TokenContexts {
        self.notes.token_context_mut()
    }

    #[tactic(auto, using(crate::specs::Source::notes_called))]
    fn set_token_context(&mut self, contexts: TokenContexts) {
        self.notes.set_token_context(contexts);
    }

    #[tactic(auto, using(crate::specs::Source::notes_called))]
    fn add_error(&mut self, error: Error) -> Result<(), AllocError> {
        self.notes.add_error(error)
    }

    #[tactic(auto, using(crate::specs::Source::stays, crate::specs::Source::notes_called))]
    /// Notes too where the first one is that was recorded in strict code.
    fn add_module_mode_error(&mut self, error: Error) -> Result<(), AllocError> {
        let context = self.notes.ctx();
        self.notes.add_module_mode_error(error)?;
        if context.strict && self.strict.is_none() {
            self.strict = Some(self.waiting);
        }
        self.waiting = self.waiting.saturating_add(1);
        Ok(())
    }

    #[tactic(auto, using(crate::specs::Source::notes_called))]
    fn take_errors(&mut self) -> Vec<Error> {
        self.notes.take_errors()
    }

    fn failed(&self) -> bool {
        self.failed
    }
}
