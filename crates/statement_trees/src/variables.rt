// Declarations of variables, and heads of `for` (ECMA-262, 14.3 and 14.7).
ghost use Rattle.std.specs.Prelude.{◌≡◌, ◌≤◌, OnOk};
ghost use Rattle.statement_trees.specs.Contexts.{context_of, work, Takes};

use crate::frame::ForHead;
use crate::reader::Reader;
use swc_ecma_parser::context::context::Context;
use swc_ecma_parser::context::error::{PResult, Wanted};
use swc_ecma_parser::context::operator::AssignOp;
use swc_ecma_parser::context::word::Keyword;
use swc_ecma_parser::input::token::Token;
use swc_ecma_parser::nodes::node::{ExprId, ForHeadId};
use tree_types::tree::{Declarator, ForInit, ForTarget, VariableDeclaration, VariableKind};

/// What the head of a `for` begins with.
enum HeadStart {
    /// A part before the first semicolon, or nothing.
    Init(Option<ForInit>),
    /// What is before `of` or `in`.
    Target(ForTarget),
}

/// The word of a declaration.
fn word_of(kind: VariableKind) -> Keyword {
    match kind {
        VariableKind::Var => Keyword::Var,
        VariableKind::Let => Keyword::Let,
        VariableKind::Const => Keyword::Const,
    }
}

impl Reader {
    /// `var`, `let` or `const`, with names and their values (14.3). In the head of a `for`, a single name or pattern
    /// without a value may be before `of` or `in`: the second answer says whether it is.
    pub(crate) fn variables(
        &mut self,
        kind: VariableKind,
        in_head: bool,
    ) -> PResult<(VariableDeclaration, bool)>
        ensures context { context_of self.new ≡ context_of self.old }
        ensures lower { work self.new ≤ work self.old }
        ensures takes { OnOk result (Takes self.old self.new) }
    {
        let start = self.start();
        self.expect_keyword(word_of(kind))?;
        let mut declarators = Vec::new(self.alloc);
        let mut is_alone = in_head;
        loop {
            let declarator = self.declarator(kind, &mut is_alone)?;
            let pushed = declarators.push(declarator);
            self.kept(pushed)?;
            if is_alone || !self.eat(&Token::Comma) {
                break;
            }
        }
        let span = self.span_from(start);
        let variables = VariableDeclaration {
            span,
            kind,
            declarators,
        };
        Ok((variables, is_alone))
    }

    /// A name or a pattern that is declared, and its value or nothing. `is_alone` says whether it may be a single one
    /// before `of` or `in`, and afterwards whether it is. In sloppy code one of `var` may have a value before `in`
    /// (B.3.5).
    fn declarator(&mut self, kind: VariableKind, is_alone: &mut bool) -> PResult<Declarator>
        ensures context { context_of self.new ≡ context_of self.old }
        ensures lower { work self.new ≤ work self.old }
    {
        let start = self.start();
        let is_name = !self.at(&Token::LBracket) && !self.at(&Token::LBrace);
        let id = self.pat()?;
        let is_of = self.at_word("of");
        let is_sloppy_var = kind == VariableKind::Var && is_name && !self.context().strict;
        let may_have_value = *is_alone && is_sloppy_var;
        *is_alone = *is_alone && (is_of || self.keyword() == Some(Keyword::In));
        let init = if *is_alone {
            None
        } else {
            self.value(!is_name || kind == VariableKind::Const)?
        };
        *is_alone |= may_have_value && init.is_some() && self.keyword() == Some(Keyword::In);
        let span = self.span_from(start);
        Ok(Declarator { span, id, init })
    }

    /// `=` and a value, or nothing where there need be none.
    pub(crate) fn value(&mut self, needs_value: bool) -> PResult<Option<ExprId>>
        ensures context { context_of self.new ≡ context_of self.old }
        ensures lower { work self.new ≤ work self.old }
    {
        if self.eat(&Token::AssignOp(AssignOp::Assign)) {
            return Ok(Some(self.assignment_expr()?));
        }
        if needs_value {
            return Err(self.wants(Wanted::Assign));
        }
        Ok(None)
    }

    /// The head of a `for` (14.7.4 and 14.7.5), after that word. `await` is in async code alone.
    pub(crate) fn for_head(&mut self) -> PResult<ForHead>
        ensures context { context_of self.new ≡ context_of self.old }
        ensures lower { work self.new ≤ work self.old }
    {
        let context = self.context();
        let is_await = context.in_async && self.eat_keyword(Keyword::Await);
        self.expect(&Token::LParen, Wanted::LParen)?;
        self.set_context(Context {
            include_in_expr: false,
            ..context
        });
        let start = self.head_start(is_await);
        self.set_context(context);
        let head = match start? {
            HeadStart::Target(left) => self.for_each(left, is_await)?,
            HeadStart::Init(init) if !is_await => self.three_parts(init)?,
            HeadStart::Init(_) => return Err(self.wants(Wanted::Of)),
        };
        self.expect(&Token::RParen, Wanted::RParen)?;
        Ok(head)
    }

    /// What the head begins with.
    fn head_start(&mut self, is_await: bool) -> PResult<HeadStart>
        ensures context { context_of self.new ≡ context_of self.old }
        ensures lower { work self.new ≤ work self.old }
    {
        let kind = match self.keyword() {
            Some(Keyword::Var) => Some(VariableKind::Var),
            Some(Keyword::Let) if self.at_let() => Some(VariableKind::Let),
            Some(Keyword::Const) => Some(VariableKind::Const),
            _ => None,
        };
        if let Some(kind) = kind {
            let (variables, is_alone) = self.variables(kind, true)?;
            if is_alone {
                return Ok(HeadStart::Target(ForTarget::Variables(variables)));
            }
            return Ok(HeadStart::Init(Some(ForInit::Variables(variables))));
        }
        if self.at(&Token::Semi) {
            return Ok(HeadStart::Init(None));
        }
        match self.head_expr(is_await)? {
            ForHeadId::Target(pat) => Ok(HeadStart::Target(ForTarget::Pat(pat))),
            ForHeadId::Expr(expr) => Ok(HeadStart::Init(Some(ForInit::Expr(expr)))),
        }
    }

    /// `of` or `in`, and what is gone through.
    fn for_each(&mut self, left: ForTarget, is_await: bool) -> PResult<ForHead>
        ensures context { context_of self.new ≡ context_of self.old }
        ensures lower { work self.new ≤ work self.old }
    {
        if !is_await && self.eat_keyword(Keyword::In) {
            let right = self.expr()?;
            return Ok(ForHead::In { left, right });
        }
        if !self.eat_word("of") {
            return Err(self.wants(Wanted::Of));
        }
        let right = self.assignment_expr()?;
        Ok(ForHead::Of {
            is_await,
            left,
            right,
        })
    }

    /// The two semicolons, and the expressions after them or none.
    fn three_parts(&mut self, init: Option<ForInit>) -> PResult<ForHead>
        ensures context { context_of self.new ≡ context_of self.old }
        ensures lower { work self.new ≤ work self.old }
    {
        let test = self.head_part(&Token::Semi)?;
        let update = self.head_part(&Token::RParen)?;
        Ok(ForHead::Three { init, test, update })
    }

    /// `;` and an expression, or none where the token follows.
    fn head_part(&mut self, end: &Token) -> PResult<Option<ExprId>>
        ensures context { context_of self.new ≡ context_of self.old }
        ensures lower { work self.new ≤ work self.old }
    {
        self.expect(&Token::Semi, Wanted::Semi)?;
        if self.at(end) {
            return Ok(None);
        }
        Ok(Some(self.expr()?))
    }
}
