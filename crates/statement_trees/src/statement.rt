// Statements (ECMA-262, 14). What is begun and not ended is on a stack: so statements in one another take no recursion.
// Reading ends, since each step takes a frame from the stack, and puts off two at most where it consumes a token.
ghost use Rattle.std.specs.Prelude.{◌≡◌, ◌+◌, ◌≤◌, OnOk};
ghost use Rattle.statement_trees.specs.Contexts.{context_of, work, Takes, SameModule};

use crate::frame::{Clause, Frame, List, Owner, Part, Switch};
use crate::reader::Reader;
use swc_ecma_parser::ast::ident::Ident;
use swc_ecma_parser::context::context::Context;
use swc_ecma_parser::context::error::{Error, PResult, SyntaxError, Wanted};
use swc_ecma_parser::context::span::{BytePos, Span};
use swc_ecma_parser::context::word::Keyword;
use swc_ecma_parser::input::token::Token;
use swc_ecma_parser::nodes::node::ExprId;
use tree_types::tree::{StatementId, StatementKind, SwitchCase, VariableKind};

impl Reader {
    /// Reads statements, up to `}`, `case`, `default` or the end of the tokens. After `"use strict"` in the prologue
    /// the rest of the list is strict code. Then the context from before is put back.
    pub(crate) fn list(&mut self, owner: Owner) -> PResult<Vec<StatementId>>
        ensures context { context_of self.new ≡ context_of self.old }
    {
        let before = self.context();
        let answer = self.rest_of_list(owner);
        self.set_context(before);
        answer?;
        Ok(std::mem::replace(&mut self.list, Vec::new(self.alloc)))
    }

    /// Reads statements as `list` does, but leaves the context, which may be strict then.
    fn rest_of_list(&mut self, owner: Owner) -> PResult<()>
        ensures module { SameModule self.old self.new }
    {
        let items = match owner {
            Owner::StaticBlock => Vec::new(self.alloc),
            _ => self.prologue()?,
        };
        self.put_off(Frame::List(List { owner, items }))?;
        while let Some(frame) = self.next_frame() {
            self.step(frame)?;
        }
        Ok(())
    }

    /// Reads the directives with which a program or a body begins, and an expression after them that begins with a
    /// string (ECMA-262, 11.2.1). After `"use strict"` the code is strict.
    fn prologue(&mut self) -> PResult<Vec<StatementId>>
        ensures module { SameModule self.old self.new }
        ensures lower { work self.new ≤ work self.old }
    {
        let mut items = Vec::new(self.alloc);
        let mut goes_on = true;
        while goes_on && self.at_string() {
            let start = self.start();
            let expr = self.expr()?;
            self.end_statement()?;
            goes_on = self.is_string(expr);
            let kind = if goes_on {
                StatementKind::Directive(expr)
            } else {
                StatementKind::Expr(expr)
            };
            if self.is_use_strict(expr) {
                self.make_strict();
            }
            self.finish(start, kind)?;
            let pushed = items.push(self.last);
            self.kept(pushed)?;
        }
        Ok(items)
    }

    /// Makes the code strict that is read from now on.
    fn make_strict(&mut self)
        ensures module { SameModule self.old self.new }
        ensures lower { work self.new ≤ work self.old }
    {
        let context = self.context();
        self.set_context(Context {
            strict: true,
            ..context
        });
    }

    /// Goes on with what was put off last.
    fn step(&mut self, frame: Frame) -> PResult<()>
        ensures context { context_of self.new ≡ context_of self.old }
        ensures lower { OnOk result (work self.new ≤ work self.old) }
    {
        match frame {
            Frame::Body => self.body(),
            Frame::List(list) => self.next_item(list),
            Frame::Item(mut list) => {
                let pushed = list.items.push(self.last);
                self.kept(pushed)?;
                self.next_item(list)
            }
            Frame::Part(start, part) => self.after_part(start, part),
        }
    }

    /// Reads a statement that is a part of another one. A declaration by `class`, `const` or `let` is refused: `{` is
    /// wanted.
    fn body(&mut self) -> PResult<()>
        ensures context { context_of self.new ≡ context_of self.old }
        ensures falls { OnOk result (work self.new + 3 ≤ work self.old) }
    {
        match self.keyword() {
            Some(Keyword::Class | Keyword::Const) => Err(self.wants(Wanted::LBrace)),
            Some(Keyword::Let) if self.at_let() && !self.at_let_alone() => {
                Err(self.wants(Wanted::LBrace))
            }
            Some(Keyword::Let) => {
                let start = self.start();
                self.other_statement(start)
            }
            _ => self.statement(),
        }
    }

    /// Reads the next statement of a list, or ends it.
    fn next_item(&mut self, list: List) -> PResult<()>
        ensures context { context_of self.new ≡ context_of self.old }
        ensures lower { OnOk result (work self.new ≤ work self.old) }
    {
        if self.at_end() {
            return self.end_list(list);
        }
        let is_module = matches!(list.owner, Owner::Program) && self.context().module;
        self.put_off(Frame::Item(list))?;
        if is_module {
            return self.module_item();
        }
        self.statement()
    }

    /// Ends a list.
    fn end_list(&mut self, list: List) -> PResult<()>
        ensures context { context_of self.new ≡ context_of self.old }
        ensures lower { OnOk result (work self.new ≤ work self.old) }
    {
        let List { owner, items } = list;
        match owner {
            Owner::Program | Owner::Function | Owner::StaticBlock => {
                self.list = items;
                Ok(())
            }
            Owner::Block(start) => {
                self.expect(&Token::RBrace, Wanted::RBrace)?;
                self.finish(start, StatementKind::Block(items))
            }
            Owner::Clause(mut switch, clause) => {
                let case = SwitchCase {
                    span: self.span_from(clause.start),
                    test: clause.test,
                    consequent: items,
                };
                let pushed = switch.cases.push(case);
                self.kept(pushed)?;
                self.next_clause(switch)
            }
        }
    }

    /// Reads the beginning of the next clause of a `switch`, or ends it.
    fn next_clause(&mut self, switch: Switch) -> PResult<()>
        ensures context { context_of self.new ≡ context_of self.old }
        ensures lower { OnOk result (work self.new ≤ work self.old) }
    {
        if self.eat(&Token::RBrace) {
            let kind = StatementKind::Switch {
                discriminant: switch.discriminant,
                cases: switch.cases,
            };
            return self.finish(switch.start, kind);
        }
        let clause = self.clause()?;
        self.put_off(Frame::List(List {
            owner: Owner::Clause(switch, clause),
            items: Vec::new(self.alloc),
        }))
    }

    /// What a clause of a `switch` begins with, up to its `:`.
    fn clause(&mut self) -> PResult<Clause>
        ensures context { context_of self.new ≡ context_of self.old }
        ensures lower { work self.new ≤ work self.old }
        ensures takes { OnOk result (Takes self.old self.new) }
    {
        let start = self.start();
        let test = if self.eat_keyword(Keyword::Case) {
            Some(self.expr()?)
        } else if self.eat_keyword(Keyword::Default_) {
            None
        } else {
            return Err(self.wants(Wanted::Keyword(Keyword::Case)));
        };
        self.expect(&Token::Colon, Wanted::Colon)?;
        Ok(Clause { start, test })
    }

    /// Reads a statement, up to its first part.
    pub(crate) fn statement(&mut self) -> PResult<()>
        ensures context { context_of self.new ≡ context_of self.old }
        ensures falls { OnOk result (work self.new + 3 ≤ work self.old) }
    {
        let start = self.start();
        match self.keyword() {
            Some(Keyword::If | Keyword::While | Keyword::With) => self.tested(start),
            Some(Keyword::Do | Keyword::For) => self.repeated(start),
            Some(Keyword::Switch) => self.switch(start),
            Some(Keyword::Try) => self.try_block(start),
            Some(
                Keyword::Break
                | Keyword::Continue
                | Keyword::Return
                | Keyword::Throw
                | Keyword::Debugger,
            ) => self.simple(start),
            Some(Keyword::Var | Keyword::Const | Keyword::Class) => self.declaration(start),
            Some(Keyword::Let) if self.at_let() => self.declaration(start),
            _ => self.other_statement(start),
        }
    }

    /// `if`, `while` or `with`, up to its first part.
    fn tested(&mut self, start: BytePos) -> PResult<()>
        ensures context { context_of self.new ≡ context_of self.old }
        ensures falls { OnOk result (work self.new + 3 ≤ work self.old) }
    {
        if self.eat_keyword(Keyword::If) {
            let test = self.parens()?;
            return self.put_off_part(start, Part::If(test));
        }
        if self.eat_keyword(Keyword::While) {
            let test = self.parens()?;
            return self.put_off_part(start, Part::While(test));
        }
        self.expect_keyword(Keyword::With)?;
        let object = self.parens()?;
        self.put_off_part(start, Part::With(object))
    }

    /// `do` or `for`, up to its part.
    fn repeated(&mut self, start: BytePos) -> PResult<()>
        ensures context { context_of self.new ≡ context_of self.old }
        ensures falls { OnOk result (work self.new + 3 ≤ work self.old) }
    {
        if self.eat_keyword(Keyword::Do) {
            return self.put_off_part(start, Part::Do);
        }
        self.expect_keyword(Keyword::For)?;
        let head = self.for_head()?;
        self.put_off_part(start, Part::For(head))
    }

    /// `switch`, up to its first clause.
    fn switch(&mut self, start: BytePos) -> PResult<()>
        ensures context { context_of self.new ≡ context_of self.old }
        ensures falls { OnOk result (work self.new + 3 ≤ work self.old) }
    {
        self.expect_keyword(Keyword::Switch)?;
        let discriminant = self.parens()?;
        self.expect(&Token::LBrace, Wanted::LBrace)?;
        self.next_clause(Switch {
            start,
            discriminant,
            cases: Vec::new(self.alloc),
        })
    }

    /// `try`, up to its block.
    fn try_block(&mut self, start: BytePos) -> PResult<()>
        ensures context { context_of self.new ≡ context_of self.old }
        ensures falls { OnOk result (work self.new + 3 ≤ work self.old) }
    {
        self.expect_keyword(Keyword::Try)?;
        self.put_off(Frame::Part(start, Part::Try))?;
        self.open_block()
    }

    /// `{`, and the statements after it are put off.
    pub(crate) fn open_block(&mut self) -> PResult<()>
        ensures context { context_of self.new ≡ context_of self.old }
        ensures falls { OnOk result (work self.new + 3 ≤ work self.old) }
    {
        let start = self.start();
        self.expect(&Token::LBrace, Wanted::LBrace)?;
        self.put_off(Frame::List(List {
            owner: Owner::Block(start),
            items: Vec::new(self.alloc),
        }))
    }

    /// `break`, `continue`, `return`, `throw` or `debugger`.
    fn simple(&mut self, start: BytePos) -> PResult<()>
        ensures context { context_of self.new ≡ context_of self.old }
        ensures falls { OnOk result (work self.new + 3 ≤ work self.old) }
    {
        let kind = if self.eat_keyword(Keyword::Break) {
            StatementKind::Break(self.target()?)
        } else if self.eat_keyword(Keyword::Continue) {
            StatementKind::Continue(self.target()?)
        } else if self.eat_keyword(Keyword::Return) {
            StatementKind::Return(self.returned()?)
        } else if self.eat_keyword(Keyword::Throw) {
            StatementKind::Throw(self.thrown()?)
        } else {
            self.expect_keyword(Keyword::Debugger)?;
            StatementKind::Debugger
        };
        self.end_statement()?;
        self.finish(start, kind)
    }

    /// `var`, `let`, `const` or `class`.
    pub(crate) fn declaration(&mut self, start: BytePos) -> PResult<()>
        ensures context { context_of self.new ≡ context_of self.old }
        ensures falls { OnOk result (work self.new + 3 ≤ work self.old) }
    {
        let kind = match self.keyword() {
            Some(Keyword::Class) => {
                let class = self.read_class()?;
                self.check_name(class)?;
                return self.finish(start, StatementKind::Class(class));
            }
            Some(Keyword::Let) => VariableKind::Let,
            Some(Keyword::Const) => VariableKind::Const,
            _ => VariableKind::Var,
        };
        let mut variables = self.variables(kind, false)?.0;
        self.end_statement()?;
        variables.span = self.span_from(start);
        self.finish(start, StatementKind::Variables(variables))
    }

    /// Refuses a declaration of a function or a class without a name, as `ExpectedIdent` at what is in its place.
    pub(crate) fn check_name(&mut self, place: Span) -> PResult<()>
        ensures context { context_of self.new ≡ context_of self.old }
        ensures lower { work self.new ≤ work self.old }
    {
        match self.parser.input().missing_name(place.lo) {
            Some(span) => Err(Error::new(span, SyntaxError::ExpectedIdent)),
            None => Ok(()),
        }
    }

    /// A statement that begins with no keyword of its own, up to its first part.
    fn other_statement(&mut self, start: BytePos) -> PResult<()>
        ensures context { context_of self.new ≡ context_of self.old }
        ensures falls { OnOk result (work self.new + 3 ≤ work self.old) }
    {
        if self.at(&Token::LBrace) {
            return self.open_block();
        }
        if self.eat(&Token::Semi) {
            return self.finish(start, StatementKind::Empty);
        }
        if self.at_function() {
            let function = self.read_fun()?;
            self.check_name(function)?;
            return self.finish(start, StatementKind::Function(function));
        }
        if self.at_label() {
            let label = self.label()?;
            self.expect(&Token::Colon, Wanted::Colon)?;
            return self.put_off_part(start, Part::Label(label));
        }
        let expr = self.expr()?;
        self.end_statement()?;
        self.finish(start, StatementKind::Expr(expr))
    }

    /// What is returned, or nothing. Outside functions the word is refused.
    #[tactic(auto, unfolding(crate::specs::Contexts::effort))]
    fn returned(&mut self) -> PResult<Option<ExprId>>
        ensures context { context_of self.new ≡ context_of self.old }
        ensures lower { work self.new ≤ work self.old }
    {
        if !self.context().in_function {
            let span = self.parser.buffer().prev_span();
            let wanted = Wanted::Keyword(Keyword::Function);
            return Err(Error::new(span, SyntaxError::Unexpected(wanted)));
        }
        if self.at_semicolon() {
            return Ok(None);
        }
        Ok(Some(self.expr()?))
    }

    /// What is thrown. After a line break the current token is refused, as `TS1109`.
    #[tactic(auto, unfolding(crate::specs::Contexts::effort))]
    fn thrown(&mut self) -> PResult<ExprId>
        ensures context { context_of self.new ≡ context_of self.old }
        ensures lower { work self.new ≤ work self.old }
    {
        if self.parser.buffer().had_line_break_before_cur() {
            return Err(self.parser.buffer().unexpected(SyntaxError::TS1109));
        }
        self.expr()
    }

    /// The label after `break` or `continue`, or nothing.
    fn target(&mut self) -> PResult<Option<Ident>>
        ensures context { context_of self.new ≡ context_of self.old }
        ensures lower { work self.new ≤ work self.old }
    {
        if self.at_semicolon() {
            return Ok(None);
        }
        Ok(Some(self.label()?))
    }
}
