// What is after a part of a statement (ECMA-262, 14).
ghost use Rattle.std.specs.Prelude.{◌≡◌, ◌≤◌, OnOk};
ghost use Rattle.statement_trees.specs.Contexts.{context_of, work};

use crate::frame::{ForHead, Frame, Part};
use crate::reader::Reader;
use swc_ecma_parser::context::error::{PResult, Wanted};
use swc_ecma_parser::context::span::BytePos;
use swc_ecma_parser::context::word::Keyword;
use swc_ecma_parser::input::token::Token;
use swc_ecma_parser::nodes::node::{ExprId, PatId};
use tree_types::tree::{CatchClause, StatementId, StatementKind};

/// A `for` with its part.
fn for_kind(head: ForHead, body: StatementId) -> StatementKind {
    match head {
        ForHead::Three { init, test, update } => StatementKind::For {
            init,
            test,
            update,
            body,
        },
        ForHead::In { left, right } => StatementKind::ForIn { left, right, body },
        ForHead::Of {
            is_await,
            left,
            right,
        } => StatementKind::ForOf {
            is_await,
            left,
            right,
            body,
        },
    }
}

impl Reader {
    /// Goes on with a statement that began there, after its part, which was read last.
    pub(crate) fn after_part(&mut self, start: BytePos, part: Part) -> PResult<()>
        ensures context { context_of self.new ≡ context_of self.old }
        ensures lower { OnOk result (work self.new ≤ work self.old) }
    {
        let body = self.last;
        let kind = match part {
            Part::If(test) => return self.after_if(start, test),
            Part::Else(test, consequent) => StatementKind::If {
                test,
                consequent,
                alternate: Some(body),
            },
            Part::Do => return self.after_do(start),
            Part::While(test) => StatementKind::While { test, body },
            Part::With(object) => StatementKind::With { object, body },
            Part::For(head) => for_kind(head, body),
            Part::Label(label) => StatementKind::Labeled { label, body },
            Part::Try => return self.after_try(start),
            Part::Catch {
                block,
                start: from,
                param,
            } => {
                let handler = CatchClause {
                    span: self.span_from(from),
                    param,
                    body,
                };
                return self.after_handler(start, block, Some(handler));
            }
            Part::Finally { block, handler } => StatementKind::Try {
                block,
                handler,
                finalizer: Some(body),
            },
        };
        self.finish(start, kind)
    }

    /// `else` and its part, or the end of an `if`.
    fn after_if(&mut self, start: BytePos, test: ExprId) -> PResult<()>
        ensures context { context_of self.new ≡ context_of self.old }
        ensures lower { OnOk result (work self.new ≤ work self.old) }
    {
        let consequent = self.last;
        if self.eat_keyword(Keyword::Else) {
            return self.put_off_part(start, Part::Else(test, consequent));
        }
        let kind = StatementKind::If {
            test,
            consequent,
            alternate: None,
        };
        self.finish(start, kind)
    }

    /// `while` and its test, with a semicolon or none.
    fn after_do(&mut self, start: BytePos) -> PResult<()>
        ensures context { context_of self.new ≡ context_of self.old }
        ensures lower { OnOk result (work self.new ≤ work self.old) }
    {
        let body = self.last;
        self.expect_keyword(Keyword::While)?;
        let test = self.parens()?;
        let _ = self.eat(&Token::Semi);
        self.finish(start, StatementKind::DoWhile { body, test })
    }

    /// `catch` up to its block, or `finally`.
    fn after_try(&mut self, start: BytePos) -> PResult<()>
        ensures context { context_of self.new ≡ context_of self.old }
        ensures lower { OnOk result (work self.new ≤ work self.old) }
    {
        let block = self.last;
        let from = self.start();
        if self.eat_keyword(Keyword::Catch) {
            let param = self.catch_param()?;
            let part = Part::Catch {
                block,
                start: from,
                param,
            };
            self.put_off(Frame::Part(start, part))?;
            return self.open_block();
        }
        if self.keyword() == Some(Keyword::Finally) {
            return self.after_handler(start, block, None);
        }
        Err(self.wants(Wanted::Keyword(Keyword::Catch)))
    }

    /// The parameter of `catch`, or nothing.
    fn catch_param(&mut self) -> PResult<Option<PatId>>
        ensures context { context_of self.new ≡ context_of self.old }
        ensures lower { work self.new ≤ work self.old }
    {
        if !self.eat(&Token::LParen) {
            return Ok(None);
        }
        let param = self.pat()?;
        self.expect(&Token::RParen, Wanted::RParen)?;
        Ok(Some(param))
    }

    /// `finally` up to its block, or the end of a `try`.
    fn after_handler(
        &mut self,
        start: BytePos,
        block: StatementId,
        handler: Option<CatchClause>,
    ) -> PResult<()>
        ensures context { context_of self.new ≡ context_of self.old }
        ensures lower { OnOk result (work self.new ≤ work self.old) }
    {
        if self.eat_keyword(Keyword::Finally) {
            self.put_off(Frame::Part(start, Part::Finally { block, handler }))?;
            return self.open_block();
        }
        let kind = StatementKind::Try {
            block,
            handler,
            finalizer: None,
        };
        self.finish(start, kind)
    }
}
