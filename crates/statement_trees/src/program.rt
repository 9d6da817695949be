// Whole programs, whose bodies are read in passes.
ghost use Rattle.std.specs.Prelude.{◌≡◌, [], IfOk, OnOk};
ghost use Rattle.statement_trees.specs.Contexts.{kept_bodies};
ghost use Rattle.statement_trees.specs.Passes.{InOrder, Collected, Passed, AllRead, Spans};

use crate::frame::Owner;
use crate::reader::Reader;
use program_tokens::brackets::Bracketed;
use program_tokens::hook::ProgramBodies;
use program_tokens::source::ProgramInput;
use program_tokens::texts;
use reporting::Refusal;
use reporting::expr::position;
use reporting::openers::{Ending, end_for};
use std::alloc::{AllocError, Global};
use swc_ecma_parser::bodies::deferred::Waiting;
use swc_ecma_parser::context::context::{Context, ExpressionContext, Syntax};
use swc_ecma_parser::context::error::{Error, PResult, SyntaxError, Wanted};
use swc_ecma_parser::context::span::{BytePos, Span};
use swc_ecma_parser::input::buffer::Buffer;
use swc_ecma_parser::input::token::TokenAndSpan;
use swc_ecma_parser::parser::Parser;
use swc_lexer::read::out_of_memory;
use swc_lexer::stack::Start;
use tree_types::tree::{Goal, Program, StatementId};

/// The context of a program.
fn context_of(goal: Goal) -> Context {
    match goal {
        Goal::Script => Context::script(),
        Goal::Module => Context {
            in_async: true,
            ..Context::module()
        },
        Goal::CommonJs => Context::script().function_block(false, false),
    }
}

/// Which forms are read.
fn syntax() -> Syntax {
    Syntax {
        import_attributes: true,
        pedantic: true,
        ..Syntax::default()
    }
}

/// What a text is read as: a program, or one expression.
#[derive(Clone, Copy, PartialEq, Eq)]
pub(crate) enum Form {
    Program,
    Expression,
}

/// The tokens of the text with its brackets, and how they end.
pub(crate) fn tokens_of(
    alloc: Global,
    text: &str,
    goal: Goal,
) -> Result<(Bracketed, Ending), AllocError> {
    tokens_from(alloc, text, 0, Start::Statements, goal)
}

/// The tokens of the text from a byte on.
pub(crate) fn tokens_from(
    alloc: Global,
    text: &str,
    at: usize,
    start: Start,
    goal: Goal,
) -> Result<(Bracketed, Ending), AllocError> {
    let tokens = texts::tokens_from(alloc, text, at, start, goal.is_module())?;
    let ending = Ending::new(alloc, &tokens, position(at), false)?;
    Ok((Bracketed::new(alloc, tokens)?, ending))
}

/// A program that is read in passes: one over its own statements, and one over each body.
#[derive(Drop)]
pub(crate) struct Passes {
    /// The pass that goes on, and what was read so far.
    pub(crate) reader: Reader,
    /// The places of the bodies that were read, in the order in which they begin.
    pub(crate) bodies: Vec<Span>,
    /// The bodies that wait, the first one last.
    pub(crate) waiting: Vec<Waiting>,
    /// Where the body begins that is refused because its braces aren't closed, and its context.
    pub(crate) unclosed: Option<(BytePos, Context)>,
    /// The faults that were recorded beside trees, if they are kept. Where they aren't, the first one is a refusal.
    pub(crate) recorded: Option<Vec<Error>>,
}

/// Reads a program (ECMA-262, 16): the text is UTF-8, and is read by the lexical grammar (12), which `swc_lexer`
/// follows. Positions are in bytes.
///
/// The first fault is the refusal, also where it was recorded beside a tree, and so is a fault that is one in
/// strict code alone, where the code is strict. Expressions and patterns that are nested deeper than `levels` are
/// refused; statements, functions and classes may be nested as deeply as they are. A fault at the end of the text
/// names the bracket that is open there. Memory that runs out is refused as `OutOfMemory`.
pub fn read_program(
    alloc: Global,
    text: &str,
    goal: Goal,
    levels: usize,
) -> Result<Program, Refusal>
    ensures order { IfOk result (λ program. InOrder program.bodies.items) }
    ensures goal { IfOk result (λ program. program.goal ≡ goal) }
    ensures span { IfOk result (λ program. Spans text.now program.span) }
{
    let Ok((list, ending)) = tokens_of(alloc, text, goal) else {
        return Err(Refusal::Fault(out_of_memory()));
    };
    let mut passes = Passes::new(alloc, list, goal, levels);
    match passes.read(Form::Program) {
        Ok(body) => Ok(passes.into_program(span_of(text), goal, body)),
        Err(Refusal::Fault(fault)) => Err(ending.refusal(fault, false)),
        Err(refusal) => Err(refusal),
    }
}

/// The place of the whole text.
pub(crate) fn span_of(text: &str) -> Span
    ensures { Spans text.now result }
{
    Span {
        lo: BytePos(0),
        hi: BytePos(text.len().min(u32::MAX as usize) as u32),
    }
}

impl Passes {
    /// What has read nothing yet of a program. Takes no memory.
    pub(crate) fn new(alloc: Global, list: Bracketed, goal: Goal, levels: usize) -> Passes
        ensures first { result.bodies.items ≡ [] }
    {
        Passes {
            reader: Reader::new(alloc, list, goal, levels),
            bodies: Vec::new(alloc),
            waiting: Vec::new(alloc),
            unclosed: None,
            recorded: None,
        }
    }

    /// Reads the program or the expression with all its bodies, and answers its statements. The refusal is the first
    /// fault of the text.
    pub(crate) fn read(&mut self, form: Form) -> Result<Vec<StatementId>, Refusal>
        requires first { self.old.bodies.items ≡ [] }
        ensures order { OnOk result (InOrder self.new.bodies.items) }
    {
        match self.in_order(form) {
            Ok(body) => Ok(body),
            Err(fault) => Err(self.earliest(fault)),
        }
    }

    /// Reads the program or the expression, and then its bodies, in the order in which they begin, up to the first pass
    /// that is refused.
    pub(crate) fn in_order(&mut self, form: Form) -> Result<Vec<StatementId>, Refusal>
        requires first { self.old.bodies.items ≡ [] }
        ensures order { OnOk result (InOrder self.new.bodies.items) }
    {
        let body = match form {
            Form::Program => self.program()?,
            Form::Expression => self.expression()?,
        };
        self.read_all()?;
        Ok(body)
    }

    /// The fault that is first in the text: that of the pass that was refused, or of one of the bodies before it that
    /// this pass has met. Other bodies before it were read already. Where a pass was refused at a body that isn't
    /// closed, the fault of this body counts instead.
    fn earliest(&mut self, fault: Refusal) -> Refusal {
        let mut first = fault;
        let mut is_known = self.unclosed.is_none();
        // Each turn reads a body that begins after the one before it.
        for _ in 0..u64::MAX {
            if first.is_failure() {
                break;
            }
            let end = if is_known {
                first.span().lo
            } else {
                BytePos(u32::MAX)
            };
            let Some((start, context)) = self.next_before(end) else {
                break;
            };
            if let Err(found) = self.body_at(start, context) {
                if found.is_failure() || self.unclosed.is_none() && found.span().lo.0 < end.0 {
                    first = found;
                    is_known = true;
                }
            }
        }
        first
    }

    /// The next body that was met and not read, before the position: where it begins, and its context.
    fn next_before(&mut self, end: BytePos) -> Option<(BytePos, Context)> {
        let waits = self.waiting.last().map(|body| place_of(body).lo.0);
        let is_unclosed = match (self.unclosed, waits) {
            (Some((start, _)), Some(waits)) => start.0 < waits,
            (unclosed, _) => unclosed.is_some(),
        };
        let next = if is_unclosed {
            self.unclosed.take()
        } else {
            let body = self.waiting.pop()?;
            Some((place_of(&body).lo, body.context))
        };
        next.filter(|next| next.0.0 < end.0)
    }

    /// Reads the statements of the program itself, to its end.
    pub(crate) fn program(&mut self) -> Result<Vec<StatementId>, Refusal>
        ensures none { OnOk result (kept_bodies self.new.reader ≡ []) }
        ensures read { self.new.bodies ≡ self.old.bodies }
    {
        let answer = self.reader.list(Owner::Program);
        let body = self.end_pass(answer)?;
        if self.reader.parser.buffer().cur().is_some() {
            let left = self.reader.parser.buffer().unexpected(SyntaxError::TS1109);
            return Err(Refusal::Fault(left));
        }
        Ok(body)
    }

    /// Reads an expression, to the end of the text, as the one statement.
    fn expression(&mut self) -> Result<Vec<StatementId>, Refusal>
        ensures none { OnOk result (kept_bodies self.new.reader ≡ []) }
        ensures read { self.new.bodies ≡ self.old.bodies }
    {
        let answer = self.reader.only_expression();
        let body = self.end_pass(answer)?;
        if self.reader.parser.buffer().cur().is_some() {
            let comma = SyntaxError::Unexpected(Wanted::Comma);
            let left = self.reader.parser.buffer().unexpected(comma);
            return Err(Refusal::Fault(left));
        }
        Ok(body)
    }

    /// Reads all bodies that wait, and those within them, in the order in which they begin.
    fn read_all(&mut self) -> Result<(), Refusal>
        requires none { kept_bodies self.old.reader ≡ [] }
        requires first { self.old.bodies.items ≡ [] }
        ensures all { OnOk result (AllRead self.old self.new) }
        ensures order { OnOk result (InOrder self.new.bodies.items) }
    {
        let mut past = 0u64;
        while let Some(next) = self.waiting.pop() {
            let place = place_of(&next);
            let start = u64::from(place.lo.0);
            if start < past {
                return Err(Refusal::Fault(out_of_order(place)));
            }
            past = start + 1;
            let pushed = self.bodies.push(place);
            self.reader.kept(pushed)?;
            self.pass(next)?;
        }
        Ok(())
    }

    /// Reads a body that waited, in its context. The body itself is in the head of no `for`. It ends where it did when
    /// it was passed over.
    pub(crate) fn pass(&mut self, next: Waiting) -> Result<(), Refusal>
        ensures passed { OnOk result (Passed self.old self.new) }
        ensures read { self.new.bodies ≡ self.old.bodies }
    {
        let place = next.body.span;
        self.body_at(place.lo, next.context)?;
        if self.reader.parser.buffer().last_pos() != place.hi {
            return Err(Refusal::Fault(out_of_order(place)));
        }
        Ok(())
    }

    /// Reads a body that begins there, in its context.
    pub(crate) fn body_at(&mut self, start: BytePos, context: Context) -> Result<(), Refusal>
        ensures passed { OnOk result (Passed self.old self.new) }
        ensures read { self.new.bodies ≡ self.old.bodies }
    {
        self.reader.frames = Vec::new(self.reader.alloc);
        self.reader.go_to(start);
        self.reader.set_context(Context {
            include_in_expr: true,
            expr_ctx: ExpressionContext::default(),
            ..context
        });
        let answer = self.reader.body_of_pass();
        self.end_pass(answer)
    }

    /// Refuses the first fault that was recorded, or that is one in strict code, or keeps these. The bodies that the
    /// pass has met wait from now on.
    fn end_pass<T: Drop>(&mut self, answer: PResult<T>) -> Result<T, Refusal>
        ensures collected { OnOk result (Collected self.old self.new) }
        ensures read { self.new.bodies ≡ self.old.bodies }
    {
        let recorded = self.reader.parser.take_errors();
        let strict = self.reader.parser.input().take_strict_faults();
        let unclosed = self.reader.parser.bodies().take_unclosed();
        self.collect()?;
        self.keep(recorded)?;
        self.keep(strict?)?;
        match answer {
            Ok(value) => Ok(value),
            Err(fault) => {
                self.unclosed = unclosed;
                Err(self.refusal(fault))
            }
        }
    }

    /// Keeps faults that were recorded beside a tree, if they are kept; otherwise the first one is the refusal.
    fn keep(&mut self, faults: Vec<Error>) -> Result<(), Refusal>
        ensures waiting { self.new.waiting ≡ self.old.waiting }
        ensures read { self.new.bodies ≡ self.old.bodies }
        ensures none { self.new.reader ≡ self.old.reader }
    {
        let Some(kept) = self.recorded.take() else {
            return match faults.into_iter().next() {
                Some(fault) => Err(Refusal::Fault(fault)),
                None => Ok(()),
            };
        };
        self.recorded = Some(joined(kept, faults)?);
        Ok(())
    }

    /// The refusal for a fault of the parser. Where an expression is wanted and the text ends, the end is the fault.
    fn refusal(&mut self, fault: Error) -> Refusal
        ensures read { self.new.bodies ≡ self.old.bodies }
    {
        let fault = self.reader.explained(fault);
        let is_too_deep = self.reader.parser.is_too_deep();
        let input = self.reader.parser.buffer();
        let end = match input.cur() {
            Some(_) => None,
            None => Some(input.last_pos()),
        };
        Refusal::new(end_for(fault, end), is_too_deep)
    }

    /// Puts the bodies that the hook has kept on those that wait, the first one last.
    fn collect(&mut self) -> PResult<()>
        ensures collected { OnOk result (Collected self.old self.new) }
        ensures read { self.new.bodies ≡ self.old.bodies }
    {
        while let Some(body) = self.reader.parser.bodies().pop() {
            let pushed = self.waiting.push(body);
            self.reader.kept(pushed)?;
        }
        Ok(())
    }

    /// The program, where all of it was read.
    pub(crate) fn into_program(self, span: Span, goal: Goal, body: Vec<StatementId>) -> Program
        ensures bodies { result.bodies ≡ self.bodies }
        ensures goal { result.goal ≡ goal }
        ensures span { result.span ≡ span }
    {
        let Passes {
            reader,
            bodies,
            waiting: _,
            unclosed: _,
            recorded: _,
        } = self;
        Program {
            span,
            goal,
            body,
            nodes: reader.parser.into_nodes(),
            statements: reader.statements,
            functions: reader.functions,
            classes: reader.classes,
            blocks: reader.blocks,
            bodies,
        }
    }
}

impl Reader {
    /// A reader that has read nothing. Takes no memory.
    fn new(alloc: Global, list: Bracketed, goal: Goal, levels: usize) -> Reader {
        let source = ProgramInput::new(alloc, list, context_of(goal), syntax());
        let mut parser = Parser::new_from(alloc, source, ProgramBodies::new(alloc));
        parser.limit_nesting(levels);
        Reader {
            alloc,
            parser,
            frames: Vec::new(alloc),
            last: StatementId(0),
            list: Vec::new(alloc),
            statements: Vec::new(alloc),
            functions: Vec::new(alloc),
            classes: Vec::new(alloc),
            blocks: Vec::new(alloc),
        }
    }

    /// The fault. Where `await` was read as a name and an operand is after it, that `await` is no operator there; where
    /// a keyword with an escape in it was read as a name, the escape.
    fn explained(&mut self, fault: Error) -> Error {
        let is_other_token = matches!(
            fault.kind(),
            SyntaxError::Expected(_) | SyntaxError::Unexpected(_)
        );
        let span = fault.span();
        if is_other_token && self.parser.input().is_after_await(span.lo) {
            return Error::new(span, SyntaxError::AwaitInFunction);
        }
        match self.parser.input().escaped_before(span.lo) {
            Some(word) if is_other_token => Error::new(word, SyntaxError::EscapeInReservedWord),
            _ => fault,
        }
    }

    /// Goes on with the tokens that begin at the place or after it.
    fn go_to(&mut self, start: BytePos) {
        let none = ProgramInput::new(
            self.alloc,
            Bracketed::empty(self.alloc),
            Context::script(),
            syntax(),
        );
        let source = std::mem::replace(self.parser.input(), none);
        let _ = std::mem::replace(self.parser.buffer(), Buffer::new(source.from_start(start)));
    }
}

/// The faults, and after them more.
fn joined(mut faults: Vec<Error>, more: Vec<Error>) -> Result<Vec<Error>, AllocError> {
    for fault in more {
        faults.push(fault)?;
    }
    Ok(faults)
}

/// The place of a body that waits.
pub(crate) fn place_of(body: &Waiting) -> Span
    ensures { result ≡ body.now.body.span }
{
    body.body.span
}

/// The refusal of a body that doesn't begin after the one before it, or doesn't end where its braces do.
fn out_of_order(place: Span) -> Error {
    Error::new(place, SyntaxError::ParserFailed)
}
