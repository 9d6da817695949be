// Faults that are recorded, refusals, and out of memory.
ghost use Rattle.std.specs.Prelude.{◌≡◌, ◌≢◌, ◌≤◌, ◌<◌, not, true, false, List, [], ◌∷◌, ◌++◌, None, IsSome, IsOk, OnOk, IfOk, IfErr};
ghost use Rattle.swc_context.specs.declared.error.SyntaxError.TheVariants.{OutOfMemory, ParserFailed, Eof};
ghost use Rattle.swc_input.specs.declared.token.TokenAndSpan.{TokenAndSpan};
ghost use Rattle.swc_input.specs.Source.{with_error, with_module_error, IsFault};
ghost use Rattle.swc_input.specs.Buffer.{source, last_position, context, current, state_of, to_come, with_source, Read, ReadSome, Lives, Looked};
ghost use Rattle.swc_input.specs.Calls.{recorded, Checked, Fits, Loud, Refuses, Tries};
ghost use Rattle.swc_input.specs.Recording.{is_silent, is_some, no_memory, counted, error_in, error_here, error_list, error_token, unfit, is_fit, refusal, Recorded, Refused, Seen};

use crate::buffer::Buffer;
use crate::token::Token;
use crate::tokens::Tokens;
use std::alloc::AllocError;
use swc_context::error::{Error, PResult, SyntaxError};
use swc_context::span::Span;

/// The error of a token as the parser takes it: `OutOfMemory` and `ParserFailed`, which are the parser's own, become
/// `Lex`.
pub fn counted_error(error: Error) -> Error
    ensures { result ≡ counted error }
{
    let span = error.span();
    match error.kind() {
        SyntaxError::OutOfMemory | SyntaxError::ParserFailed => Error::new(span, SyntaxError::Lex),
        _ => error,
    }
}

/// The error that a token holds.
fn error_of(token: Token) -> Option<Error>
    ensures { result ≡ error_in token }
{
    match token {
        Token::Error(error) => Some(counted_error(error)),
        _ => None,
    }
}

/// Drops an error. It is a function of its own, so that callers' proofs don't have a case for each kind.
fn let_go(_error: Error) {}

fn let_kind_go(_kind: SyntaxError) {}

impl<I: Tokens> Buffer<I> {
    /// The refusal when out of memory, at the end of the token consumed last.
    pub fn out_of_memory(&self) -> Error
        ensures { result ≡ no_memory (last_position self.now) }
    {
        let last = self.last_pos();
        Error::new(Span { lo: last, hi: last }, SyntaxError::OutOfMemory)
    }

    /// Whether there is a current token; false at the end. If there is none since the source has failed, the error is
    /// `OutOfMemory`, at the end of the token consumed last.
    pub fn has_cur(&mut self) -> PResult<bool>
        ensures looked { Looked I.model self.old self.new }
        ensures lives { OnOk result (Lives I.model self.old self.new) }
        ensures seen { IfOk result (λ r. Seen I.model self.old r self.new) }
        ensures refused { IfErr result (λ e. (e ≡ no_memory (last_position self.new)) × Looked I.model self.old self.new
            × (current self.new ≡ None) × ((state_of I.model self.new).failed ≡ true)) }
    {
        let _ = self.had_line_break_before_cur();
        if self.knows_cur() {
            return Ok(true);
        }
        if self.failed() {
            return Err(self.out_of_memory());
        }
        Ok(false)
    }

    /// Records a fault, whatever is current.
    #[tactic(auto, using(crate::proofs::Emits::keeps_one, crate::specs::Laws::keeps_same))]
    fn record(&mut self, error: Error) -> PResult<()>
        requires { IsFault error }
        ensures read { Read I.model self.old [] self.new }
        ensures rest { self.new ≡ with_source (source self.new) self.old }
        ensures recorded { OnOk result (state_of I.model self.new ≡ with_error error (state_of I.model self.old)) }
        ensures refused { IfErr result (λ e. (e ≡ no_memory (last_position self.old))
            × (state_of I.model self.new ≡ state_of I.model self.old)) }
    {
        match self.iter.add_error(error) {
            Ok(()) => Ok(()),
            Err(AllocError) => Err(self.out_of_memory()),
        }
    }

    fn is_silent(&self) -> bool
        ensures { result ≡ is_silent (state_of I.model self.now) }
    {
        self.iter.ctx().ignore_error || !self.iter.syntax().early_errors
    }

    fn is_error(&self) -> bool
        ensures { result ≡ is_some (error_here (current self.now)) }
    {
        match &self.cur {
            Some(token) => matches!(&token.token, Token::Error(_)),
            None => false,
        }
    }

    /// Consumes the current token where it holds an error, and gives the error.
    fn take_error(&mut self) -> Option<Error>
        ensures here { result ≡ error_here (current self.old) }
        ensures read { Read I.model self.old (error_token (current self.old)) self.new }
        ensures same { source self.new ≡ source self.old }
        ensures kept { result ≡ None → current self.new ≡ current self.old }
    {
        if !self.is_error() {
            return None;
        }
        let token = self.bump();
        error_of(token)
    }

    /// Records a fault, after the error of a current error token, which is consumed; any other current token stays.
    /// Nothing is done where the context ignores errors, or the syntax has no early errors. The only error is
    /// `OutOfMemory`, at the end of the token consumed last: where a fault can't be recorded, or the source has failed.
    pub fn emit_error(&mut self, error: Error) -> PResult<()>
        requires { IsFault error }
        ensures silent { is_silent (state_of I.model self.old) ≡ true → IsOk result × (self.new ≡ self.old) }
        ensures recorded { is_silent (state_of I.model self.old) ≡ false
            → OnOk result (Recorded I.model self.old error self.new) }
        ensures refused { IfErr result (λ e. (xs : List TokenAndSpan) × Read I.model self.old xs self.new
            × (e ≡ no_memory (last_position self.new))) }
        ensures read { ReadSome I.model self.old self.new }
        ensures kept { is_fit (current self.old) ≡ true → current self.new ≡ current self.old }
    {
        if self.is_silent() {
            let_go(error);
            return Ok(());
        }
        match self.has_cur() {
            Ok(_) => self.emit_here(error),
            Err(memory) => {
                let_go(error);
                Err(memory)
            }
        }
    }

    /// Records a fault as `emit_error` does where faults are recorded. The current token is known, or none is left.
    fn emit_here(&mut self, error: Error) -> PResult<()>
        requires { IsFault error }
        ensures errors { OnOk result ((state_of I.model self.new).errors
            ≡ (state_of I.model self.old).errors ++ (error_list (error_here (current self.old)) ++ error ∷ [])) }
        ensures waiting { OnOk result ((state_of I.model self.new).waiting ≡ (state_of I.model self.old).waiting) }
        ensures read { Read I.model self.old (error_token (current self.old)) self.new }
        ensures refused { IfErr result (λ e. e ≡ no_memory (last_position self.new)) }
        ensures lives { OnOk result (Lives I.model self.old self.new) }
        ensures kept { error_here (current self.old) ≡ None → current self.new ≡ current self.old }
    {
        match self.take_error() {
            None => self.record(error),
            Some(found) => match self.record(found) {
                Ok(()) => self.record(error),
                Err(refusal) => {
                    let_go(error);
                    Err(refusal)
                }
            },
        }
    }

    /// Records a fault of the kind at the place, as `emit_error` does.
    pub fn emit_err(&mut self, span: Span, kind: SyntaxError) -> PResult<()>
        requires { kind ≢ OutOfMemory }
        ensures silent { is_silent (state_of I.model self.old) ≡ true → IsOk result × (self.new ≡ self.old) }
        ensures recorded { is_silent (state_of I.model self.old) ≡ false
            → OnOk result (Recorded I.model self.old (record { span = span; kind = kind }) self.new) }
        ensures refused { IfErr result (λ e. (xs : List TokenAndSpan) × Read I.model self.old xs self.new
            × (e ≡ no_memory (last_position self.new))) }
        ensures read { ReadSome I.model self.old self.new }
        ensures kept { is_fit (current self.old) ≡ true → current self.new ≡ current self.old }
        ensures tries { Tries I.model self.old result self.new }
        ensures notes { Loud I.model self.old → OnOk result (recorded I.model self.old < recorded I.model self.new) }
        ensures falls { to_come I.model self.new ≤ to_come I.model self.old }
    {
        self.emit_error(Error::new(span, kind))
    }

    /// Records a fault of strict code. It is one in modules alone, and waits outside them. Nothing
    /// is recorded, and nothing waits, where the context ignores errors.
    pub fn emit_strict_mode_err(&mut self, span: Span, kind: SyntaxError) -> PResult<()>
        requires { kind ≢ OutOfMemory }
        ensures read { Read I.model self.old [] self.new }
        ensures rest { self.new ≡ with_source (source self.new) self.old }
        ensures silent { (state_of I.model self.old).context.ignore_error ≡ true → IsOk result × (self.new ≡ self.old) }
        ensures recorded { (state_of I.model self.old).context.ignore_error ≡ false
            → OnOk result (state_of I.model self.new
            ≡ with_module_error (record { span = span; kind = kind }) (state_of I.model self.old)) }
        ensures refused { IfErr result (λ e. (e ≡ no_memory (last_position self.old))
            × (state_of I.model self.new ≡ state_of I.model self.old)) }
        ensures checks { Checked I.model (not (context I.model self.old).module) self.old result self.new }
        ensures falls { to_come I.model self.new ≤ to_come I.model self.old }
    {
        let error = Error::new(span, kind);
        if self.get_ctx().ignore_error {
            let_go(error);
            return Ok(());
        }
        self.record_for_modules(error)
    }

    /// Records a fault that is one in modules alone, or lets it wait.
    fn record_for_modules(&mut self, error: Error) -> PResult<()>
        requires { IsFault error }
        ensures read { Read I.model self.old [] self.new }
        ensures rest { self.new ≡ with_source (source self.new) self.old }
        ensures recorded { OnOk result (state_of I.model self.new
            ≡ with_module_error error (state_of I.model self.old)) }
        ensures refused { IfErr result (λ e. (e ≡ no_memory (last_position self.old))
            × (state_of I.model self.new ≡ state_of I.model self.old)) }
    {
        match self.iter.add_module_mode_error(error) {
            Ok(()) => Ok(()),
            Err(AllocError) => Err(self.out_of_memory()),
        }
    }

    /// A refusal of the kind at the place, unless an error token is current: that is consumed, and
    /// its error is the refusal. Where the source has failed, it is out of memory.
    pub fn syntax_error(&mut self, span: Span, kind: SyntaxError) -> Error
        ensures refused { Refused I.model self.old (λ here. record { span = span; kind = kind }) result self.new }
        ensures refuses { kind ≢ ParserFailed → Refuses I.model self.old result self.new }
        ensures falls { to_come I.model self.new ≤ to_come I.model self.old }
    {
        let _ = self.had_line_break_before_cur();
        self.refuse(Error::new(span, kind))
    }

    /// The refusal of the current token: of the kind, at that token. At the end it is `Eof`, where
    /// the token consumed last ends. An error token and a failed source are refused as by
    /// `syntax_error`.
    pub fn unexpected(&mut self, kind: SyntaxError) -> Error
        ensures refused { Refused I.model self.old (λ here. unfit (current here) (last_position here) kind) result
            self.new }
        ensures refuses { kind ≢ ParserFailed → Refuses I.model self.old result self.new }
        ensures falls { to_come I.model self.new ≤ to_come I.model self.old }
    {
        let _ = self.had_line_break_before_cur();
        let error = self.unfit(kind);
        self.refuse(error)
    }

    /// Asks that a token is current. The end is refused as `Eof`, and an error token as its error, which is consumed.
    pub fn require_cur(&mut self) -> PResult<()>
        ensures found { OnOk result (Looked I.model self.old self.new × IsSome (current self.new)
            × (error_here (current self.new) ≡ None)) }
        ensures refused { IfErr result (λ e. (r : Refused I.model self.old
            (λ here. unfit (current here) (last_position here) Eof) e self.new) × (is_fit (current r.here) ≡ false)) }
        ensures fits { Fits I.model self.old result self.new }
        ensures falls { to_come I.model self.new ≤ to_come I.model self.old }
    {
        let _ = self.had_line_break_before_cur();
        if self.knows_cur() && !self.is_error() {
            return Ok(());
        }
        let error = self.unfit(SyntaxError::Eof);
        Err(self.refuse(error))
    }

    /// A fault of the kind at the current token, or `Eof` where none is left.
    fn unfit(&self, kind: SyntaxError) -> Error
        ensures { result ≡ unfit (current self.now) (last_position self.now) kind }
    {
        match &self.cur {
            Some(token) => Error::new(token.span, kind),
            None => {
                let_kind_go(kind);
                let last = self.last_pos();
                Error::new(Span { lo: last, hi: last }, SyntaxError::Eof)
            }
        }
    }

    /// The refusal in place of this one: out of memory, where the source has failed and no token is current; the error
    /// of a current error token, which is consumed; otherwise this one. The current token is known, or none is left.
    fn refuse(&mut self, error: Error) -> Error
        ensures answer { result
            ≡ refusal (current self.old) (state_of I.model self.old).failed (last_position self.old) error }
        ensures read { Read I.model self.old (error_token (current self.old)) self.new }
        ensures lives { Lives I.model self.old self.new }
        ensures same { source self.new ≡ source self.old }
    {
        if !self.knows_cur() && self.failed() {
            let_go(error);
            return self.out_of_memory();
        }
        match self.take_error() {
            Some(found) => {
                let_go(error);
                found
            }
            None => error,
        }
    }
}
