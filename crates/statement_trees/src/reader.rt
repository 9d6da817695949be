// What all forms take: tokens, words, names, expressions, and the statements that were read.
#![tactic(auto, unfolding(crate::specs::Contexts::effort))]

ghost use Rattle.std.specs.Prelude.{◌≡◌, ◌+◌, ◌<◌, ◌≤◌, true, IsOk, IsSome, OnOk};
ghost use Rattle.statement_trees.specs.Contexts.{context_of, work, Takes};

use crate::frame::{Frame, Part};
use program_tokens::hook::ProgramBodies;
use program_tokens::source::ProgramInput;
use std::alloc::Global;
use swc_ecma_parser::context::context::Context;
use swc_ecma_parser::context::error::{Error, PResult, SyntaxError, Wanted};
use swc_ecma_parser::context::span::{BytePos, Span};
use swc_ecma_parser::context::word::{Keyword, Word};
use swc_ecma_parser::input::token::Token;
use swc_ecma_parser::nodes::node::{ExprId, Node};
use swc_ecma_parser::parser::Parser;
use tree_types::tree::{Block, Class, Function, Statement, StatementId, StatementKind};

/// What reads a program: the pass that goes on, and what was read so far.
///
/// Each call keeps the context (`context`), and adds nothing to what is left to do (`lower`), unless its name says so.
#[derive(Drop)]
pub(crate) struct Reader {
    pub(crate) alloc: Global,
    pub(crate) parser: Parser<ProgramInput, ProgramBodies>,
    /// What is begun and not ended, the innermost last.
    pub(crate) frames: Vec<Frame>,
    /// The statement that was read last.
    pub(crate) last: StatementId,
    /// The statements of the list that was read last in this pass.
    pub(crate) list: Vec<StatementId>,
    pub(crate) statements: Vec<Statement>,
    pub(crate) functions: Vec<Function>,
    pub(crate) classes: Vec<Class>,
    pub(crate) blocks: Vec<Block>,
}

impl Reader {
    /// Whether the token is current.
    pub(crate) fn at(&mut self, token: &Token) -> bool
        ensures context { context_of self.new ≡ context_of self.old }
        ensures lower { work self.new ≤ work self.old }
    {
        self.parser.buffer().is(token)
    }

    /// Consumes the token where it is current, and says whether it was.
    pub(crate) fn eat(&mut self, token: &Token) -> bool
        ensures context { context_of self.new ≡ context_of self.old }
        ensures lower { work self.new ≤ work self.old }
        ensures takes { result ≡ true → Takes self.old self.new }
    {
        self.parser.buffer().eat(token)
    }

    /// Consumes the token; another one is refused.
    pub(crate) fn expect(&mut self, token: &Token, wanted: Wanted) -> PResult<()>
        ensures context { context_of self.new ≡ context_of self.old }
        ensures lower { work self.new ≤ work self.old }
        ensures takes { OnOk result (Takes self.old self.new) }
    {
        if self.eat(token) {
            return Ok(());
        }
        Err(self.wants(wanted))
    }

    /// The refusal of the current token, where another one is wanted.
    pub(crate) fn wants(&mut self, wanted: Wanted) -> Error
        ensures context { context_of self.new ≡ context_of self.old }
        ensures lower { work self.new ≤ work self.old }
    {
        let input = self.parser.buffer();
        input.unexpected(SyntaxError::Expected(wanted))
    }

    /// The keyword that is current.
    pub(crate) fn keyword(&mut self) -> Option<Keyword>
        ensures context { context_of self.new ≡ context_of self.old }
        ensures lower { work self.new ≤ work self.old }
    {
        match self.parser.buffer().cur() {
            Some(Token::Word(Word::Keyword(keyword))) => Some(*keyword),
            _ => None,
        }
    }

    /// Consumes the keyword where it is current, and says whether it was.
    pub(crate) fn eat_keyword(&mut self, keyword: Keyword) -> bool
        ensures context { context_of self.new ≡ context_of self.old }
        ensures lower { work self.new ≤ work self.old }
        ensures takes { result ≡ true → Takes self.old self.new }
    {
        self.eat(&Token::Word(Word::Keyword(keyword)))
    }

    /// Consumes the keyword; another token is refused.
    pub(crate) fn expect_keyword(&mut self, keyword: Keyword) -> PResult<()>
        ensures context { context_of self.new ≡ context_of self.old }
        ensures lower { work self.new ≤ work self.old }
        ensures takes { OnOk result (Takes self.old self.new) }
    {
        self.expect(
            &Token::Word(Word::Keyword(keyword)),
            Wanted::Keyword(keyword),
        )
    }

    /// Whether a list of statements ends here.
    pub(crate) fn at_end(&mut self) -> bool
        ensures context { context_of self.new ≡ context_of self.old }
        ensures lower { work self.new ≤ work self.old }
    {
        let is_clause = matches!(self.keyword(), Some(Keyword::Case | Keyword::Default_));
        is_clause || self.at(&Token::RBrace) || self.parser.buffer().cur().is_none()
    }

    /// Whether a statement may end here (ECMA-262, 12.10).
    pub(crate) fn at_semicolon(&mut self) -> bool
        ensures context { context_of self.new ≡ context_of self.old }
        ensures lower { work self.new ≤ work self.old }
    {
        let at_sign = self.at(&Token::Semi) || self.at(&Token::RBrace);
        at_sign || self.parser.buffer().had_line_break_before_cur()
    }

    /// Ends a statement: by a semicolon, or where one may be left out.
    pub(crate) fn end_statement(&mut self) -> PResult<()>
        ensures context { context_of self.new ≡ context_of self.old }
        ensures lower { work self.new ≤ work self.old }
    {
        if !self.eat(&Token::Semi) && !self.at_semicolon() {
            return Err(self.wants(Wanted::Semi));
        }
        Ok(())
    }

    /// Where the current token begins.
    pub(crate) fn start(&mut self) -> BytePos
        ensures context { context_of self.new ≡ context_of self.old }
        ensures lower { work self.new ≤ work self.old }
    {
        self.parser.buffer().cur_pos()
    }

    /// From there to where the token that was consumed last ends.
    pub(crate) fn span_from(&mut self, start: BytePos) -> Span
        ensures context { context_of self.new ≡ context_of self.old }
        ensures lower { work self.new ≤ work self.old }
    {
        Span {
            lo: start,
            hi: self.parser.buffer().last_pos(),
        }
    }

    /// The context.
    pub(crate) fn context(&mut self) -> Context
        ensures value { result ≡ context_of self.old }
        ensures context { context_of self.new ≡ context_of self.old }
        ensures lower { work self.new ≤ work self.old }
    {
        self.parser.buffer().get_ctx()
    }

    /// Sets the context, but for the kind of text, a script or a module, which stays: so it is never refused. Answers
    /// the one from before.
    pub(crate) fn set_context(&mut self, mut context: Context) -> Context
        ensures before { result ≡ context_of self.old }
        ensures kind { (context_of self.new).module ≡ (context_of self.old).module }
        ensures set { context.module ≡ (context_of self.old).module → context_of self.new ≡ context }
        ensures lower { work self.new ≤ work self.old }
    {
        let before = self.context();
        context.module = before.module;
        let _ = self.parser.buffer().set_ctx(context);
        before
    }

    /// Refuses what could not be kept, as out of memory.
    pub(crate) fn kept<E: Drop>(&mut self, pushed: Result<(), E>) -> PResult<()>
        ensures kept { OnOk result (IsOk pushed) }
        ensures same { OnOk result (self.new ≡ self.old) }
        ensures context { context_of self.new ≡ context_of self.old }
        ensures lower { work self.new ≤ work self.old }
    {
        match pushed {
            Ok(()) => Ok(()),
            Err(_) => Err(self.parser.buffer().out_of_memory()),
        }
    }

    /// Whether the expression is a string by itself.
    pub(crate) fn is_string(&self, expr: ExprId) -> bool {
        self.raw_string(expr).is_some()
    }

    /// Whether the expression is the string with which strict code begins, written without an escape.
    pub(crate) fn is_use_strict(&self, expr: ExprId) -> bool {
        matches!(
            self.raw_string(expr),
            Some("\"use strict\"" | "'use strict'")
        )
    }

    /// How the string is written that the expression is.
    fn raw_string(&self, expr: ExprId) -> Option<&str> {
        let nodes = self.parser.nodes();
        if expr.0 >= nodes.len() {
            return None;
        }
        match nodes.get(expr.0) {
            Node::Str(string) => Some(string.raw.as_str()),
            _ => None,
        }
    }

    /// Reads an expression in parentheses.
    pub(crate) fn parens(&mut self) -> PResult<ExprId>
        ensures context { context_of self.new ≡ context_of self.old }
        ensures lower { work self.new ≤ work self.old }
        ensures takes { OnOk result (Takes self.old self.new) }
    {
        self.expect(&Token::LParen, Wanted::LParen)?;
        let expr = self.expr()?;
        self.expect(&Token::RParen, Wanted::RParen)?;
        Ok(expr)
    }

    /// Puts off a frame, until what comes next was read.
    pub(crate) fn put_off(&mut self, frame: Frame) -> PResult<()>
        ensures context { context_of self.new ≡ context_of self.old }
        ensures adds { work self.new ≤ work self.old + 1 }
    {
        let pushed = self.frames.push(frame);
        self.kept(pushed)
    }

    /// Puts off the rest of a statement, until its next part was read.
    pub(crate) fn put_off_part(&mut self, start: BytePos, part: Part) -> PResult<()>
        ensures context { context_of self.new ≡ context_of self.old }
        ensures adds { work self.new ≤ work self.old + 2 }
    {
        self.put_off(Frame::Part(start, part))?;
        self.put_off(Frame::Body)
    }

    /// Takes what was put off last.
    pub(crate) fn next_frame(&mut self) -> Option<Frame>
        ensures context { context_of self.new ≡ context_of self.old }
        ensures falls { IsSome result → work self.new < work self.old }
    {
        self.frames.pop()
    }

    /// Whether a list in braces ends after an item. Consumes a comma, if there is one, and the `}` at the end of the
    /// list; any other token after the item is refused.
    pub(crate) fn ends_braces(&mut self) -> PResult<bool>
        ensures context { context_of self.new ≡ context_of self.old }
        ensures lower { work self.new ≤ work self.old }
        ensures takes { OnOk result (Takes self.old self.new) }
    {
        if self.eat(&Token::Comma) {
            return Ok(self.eat(&Token::RBrace));
        }
        self.expect(&Token::RBrace, Wanted::RBrace)?;
        Ok(true)
    }

    /// Reads an expression as the one statement of a list.
    pub(crate) fn only_expression(&mut self) -> PResult<Vec<StatementId>> {
        let start = self.start();
        let expr = self.expr()?;
        self.finish(start, StatementKind::Expr(expr))?;
        let mut list = Vec::new(self.alloc);
        let pushed = list.push(self.last);
        self.kept(pushed)?;
        Ok(list)
    }

    /// Ends a statement that began there.
    pub(crate) fn finish(&mut self, start: BytePos, kind: StatementKind) -> PResult<()>
        ensures context { context_of self.new ≡ context_of self.old }
        ensures lower { work self.new ≤ work self.old }
    {
        let span = self.span_from(start);
        self.last = StatementId(self.statements.len());
        let pushed = self.statements.push(Statement { span, kind });
        self.kept(pushed)
    }
}
