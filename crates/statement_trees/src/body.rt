// Functions and classes, each of which is read in a pass of its own (ECMA-262, 15).
ghost use Rattle.std.specs.Prelude.{◌≡◌, ◌≤◌, OnOk};
ghost use Rattle.statement_trees.specs.Contexts.{context_of, work};

use crate::frame::Owner;
use crate::reader::Reader;
use swc_ecma_parser::ast::ident::Ident;
use swc_ecma_parser::context::context::Context;
use swc_ecma_parser::context::error::{PResult, Wanted};
use swc_ecma_parser::context::operator::BinOpToken;
use swc_ecma_parser::context::span::{BytePos, Span};
use swc_ecma_parser::context::word::Keyword;
use swc_ecma_parser::input::token::Token;
use swc_ecma_parser::nodes::node::{ExprId, PatId};
use tree_types::tree::{Block, Class, Function};

/// The sign of a generator.
pub(crate) const STAR: Token = Token::BinOp(BinOpToken::Mul);

impl Reader {
    /// What begins here: the block of a function, a class, or a function.
    pub(crate) fn body_of_pass(&mut self) -> PResult<()>
        ensures context { context_of self.new ≡ context_of self.old }
    {
        if self.at(&Token::LBrace) {
            self.block()
        } else if self.keyword() == Some(Keyword::Class) {
            self.class()
        } else {
            self.function()
        }
    }

    /// The block of a function, or a static block of a class.
    fn block(&mut self) -> PResult<()>
        ensures context { context_of self.new ≡ context_of self.old }
    {
        let start = self.start();
        let is_static = self.is_after_static(start);
        self.expect(&Token::LBrace, Wanted::LBrace)?;
        let owner = if is_static {
            Owner::StaticBlock
        } else {
            Owner::Function
        };
        let statements = self.list(owner)?;
        self.expect(&Token::RBrace, Wanted::RBrace)?;
        let span = self.span_from(start);
        let pushed = self.blocks.push(Block { span, statements });
        self.kept(pushed)
    }

    /// Whether a block that begins there is a static block of a class.
    fn is_after_static(&mut self, start: BytePos) -> bool
        ensures context { context_of self.new ≡ context_of self.old }
    {
        self.parser.input().is_after_static(start)
    }

    /// A function (15.2, 15.5, 15.6 and 15.8).
    fn function(&mut self) -> PResult<()>
        ensures context { context_of self.new ≡ context_of self.old }
    {
        let start = self.start();
        let is_async = self.eat_modifier("async");
        self.expect_keyword(Keyword::Function)?;
        let is_generator = self.eat(&STAR);
        let name = if self.at(&Token::LParen) {
            None
        } else {
            Some(self.function_name()?)
        };
        let context = self.context();
        let params = self.params_in(context.function_params(is_async, is_generator))?;
        let body = self.block_in(context.function_block(is_async, is_generator))?;
        let function = Function {
            span: self.span_from(start),
            name,
            params,
            body,
            is_async,
            is_generator,
        };
        let pushed = self.functions.push(function);
        self.kept(pushed)
    }

    /// The name of a function. Whether it may be `await` or `yield` depends on whether the function is a declaration,
    /// which isn't known here: so that is no fault here, but an early error.
    fn function_name(&mut self) -> PResult<Ident>
        ensures context { context_of self.new ≡ context_of self.old }
        ensures lower { work self.new ≤ work self.old }
    {
        let before = self.context();
        self.set_context(Context {
            in_async: false,
            in_generator: false,
            in_static_block: false,
            ..before
        });
        let name = self.name();
        self.set_context(before);
        name
    }

    /// Parameters (15.1) with their parentheses, read in the context; that from before is put back.
    pub(crate) fn params_in(&mut self, context: Context) -> PResult<Vec<PatId>>
        ensures context { context_of self.new ≡ context_of self.old }
        ensures lower { work self.new ≤ work self.old }
    {
        let before = self.set_context(context);
        let answer = self.params();
        self.set_context(before);
        answer
    }

    fn params(&mut self) -> PResult<Vec<PatId>>
        ensures context { context_of self.new ≡ context_of self.old }
        ensures lower { work self.new ≤ work self.old }
    {
        self.expect(&Token::LParen, Wanted::LParen)?;
        let params = self.formal_params()?;
        self.expect(&Token::RParen, Wanted::RParen)?;
        let mut pats = Vec::new(self.alloc);
        for param in &params {
            let pushed = pats.push(param.pat);
            self.kept(pushed)?;
        }
        Ok(pats)
    }

    /// A block that waits for its pass, in the context; that from before is put back. Answers its place.
    pub(crate) fn block_in(&mut self, context: Context) -> PResult<Span>
        ensures context { context_of self.new ≡ context_of self.old }
        ensures lower { work self.new ≤ work self.old }
    {
        let before = self.set_context(context);
        let answer = self.read_block();
        self.set_context(before);
        answer
    }

    /// A class (15.7). What is after its name is read in a context of its own.
    fn class(&mut self) -> PResult<()>
        ensures context { context_of self.new ≡ context_of self.old }
    {
        let start = self.start();
        self.expect_keyword(Keyword::Class)?;
        let name = if self.at(&Token::LBrace) || self.keyword() == Some(Keyword::Extends) {
            None
        } else {
            Some(self.name()?)
        };
        let context = self.context();
        self.set_context(context.class());
        let answer = self.class_tail();
        self.set_context(context);
        let (heritage, body_span, members) = answer?;
        let span = self.span_from(start);
        let pushed = self.classes.push(Class {
            span,
            name,
            heritage,
            body_span,
            members,
        });
        self.kept(pushed)
    }

    /// What a class extends, or nothing.
    pub(crate) fn heritage(&mut self) -> PResult<Option<ExprId>>
        ensures context { context_of self.new ≡ context_of self.old }
        ensures lower { work self.new ≤ work self.old }
    {
        if !self.eat_keyword(Keyword::Extends) {
            return Ok(None);
        }
        Ok(Some(self.lhs_expr()?))
    }
}
