// Programs as text: their statements, and then their functions, classes and blocks.
use crate::outline::Outline;
use crate::statement::Lines;
use std::alloc::{AllocError, Global};
use swc_context::span::{BytePos, Span};
use swc_nodes::node::ExprId;
use tree_types::tree::{
    CatchClause, Class, Function, Member, MemberKind, MethodKind, Program, Statement, StatementId,
    StatementKind, SwitchCase,
};

/// What is still to be written of statements.
#[derive(Clone, Copy)]
pub(crate) enum Line<'a> {
    /// A statement.
    Statement(StatementId),
    /// `else`, and its part.
    Else(StatementId),
    /// The `while` of a `do`, which ends there.
    While(ExprId, BytePos),
    /// `catch`, and its statements.
    Catch(CatchClause),
    /// `finally`, and its statements.
    Finally(StatementId),
    /// A clause of a `switch`, and its statements.
    Case(&'a SwitchCase),
}

/// The tree of a program as text (ECMA-262, 14 to 16): a line for each statement, clause and member. The only error is out of memory.
pub fn outline_of(alloc: Global, program: &Program) -> Result<String, AllocError> {
    let mut outline = Outline {
        alloc,
        program,
        text: String::new(alloc),
        failed: false,
        named: Vec::new(alloc),
        past: 0,
    };
    outline.put("program\n");
    outline.put_list(&program.body, 1);
    for at in 0..program.bodies.len() {
        if at >= outline.named.len() {
            break;
        }
        let place = outline.named[at];
        outline.put_body(place);
    }
    if outline.failed {
        return Err(AllocError);
    }
    Ok(outline.text)
}

impl<'a> Outline<'a> {
    /// Writes a body that a line named: a function, a class or a block.
    fn put_body(&mut self, place: Span) {
        self.put("\nat");
        self.put_span(place);
        self.go_after(place.lo);
        let program = self.program;
        if let Some(function) = program.function(place) {
            self.put_function(function);
        } else if let Some(class) = program.class(place) {
            self.put_class(class);
        } else if let Some(block) = program.block(place) {
            self.put(" block\n");
            self.put_list(&block.statements, 1);
        }
    }

    fn put_function(&mut self, function: &'a Function) {
        self.put_if(function.is_async, "async");
        self.put(" function");
        self.put_if(function.is_generator, "*");
        self.put_name_if(&function.name);
        self.put_params(&function.params);
        self.end_line(function.body.lo);
        self.go_after(function.body.lo);
        if let Some(block) = self.program.block(function.body) {
            self.put_list(&block.statements, 1);
        }
    }

    fn put_class(&mut self, class: &'a Class) {
        self.put(" class");
        self.put_name_if(&class.name);
        if let Some(heritage) = class.heritage {
            self.put(" extends");
            self.put_expr(heritage);
        }
        self.end_line(class.body_span.lo);
        for member in &class.members {
            self.put_member(member);
            self.end_line(member.span.hi);
        }
    }

    fn put_member(&mut self, member: &'a Member) {
        self.put("  member");
        self.put_if(member.is_static, "static");
        match &member.kind {
            MemberKind::StaticBlock(_) => {}
            MemberKind::Field { key, value } => {
                self.put_key(key);
                self.put_value(*value);
            }
            MemberKind::Method {
                kind,
                key,
                function,
            } => {
                self.put_if(function.is_async, "async");
                self.put_if(function.is_generator, "*");
                self.put_if(*kind == MethodKind::Get, "get");
                self.put_if(*kind == MethodKind::Set, "set");
                self.put_key(key);
                self.put_params(&function.params);
            }
        }
    }

    /// Writes `=` and a value, or nothing.
    pub(crate) fn put_value(&mut self, value: Option<ExprId>) {
        if let Some(value) = value {
            self.put(" =");
            self.put_expr(value);
        }
    }

    /// Writes statements, each below those before it.
    fn put_list(&mut self, list: &'a Vec<StatementId>, depth: usize) {
        let mut lines = Vec::new(self.alloc);
        self.put_off(&mut lines, list, depth);
        // Each line has a token of its own.
        for _ in 0..self.program.span.hi.0 {
            let Some((line, depth)) = lines.pop() else {
                break;
            };
            self.put_line(&mut lines, line, depth);
        }
    }

    /// Puts off statements, the first of them on top.
    pub(crate) fn put_off(
        &mut self,
        lines: &mut Lines<'a>,
        list: &'a Vec<StatementId>,
        depth: usize,
    ) {
        for item in list.iter().rev() {
            self.push(lines, Line::Statement(*item), depth);
        }
    }

    /// Puts off the statements of a block.
    pub(crate) fn put_off_block(
        &mut self,
        lines: &mut Lines<'a>,
        block: StatementId,
        depth: usize,
    ) {
        if let Some(
            Statement {
                kind: StatementKind::Block(items),
                ..
            },
        ) = self.program.statement(block)
        {
            self.put_off(lines, items, depth);
        }
    }

    /// Writes a line, and puts off what is below it.
    fn put_line(&mut self, lines: &mut Lines<'a>, line: Line<'a>, depth: usize) {
        let inside = depth.saturating_add(1);
        match line {
            Line::Statement(id) => {
                if let Some(statement) = self.program.statement(id) {
                    self.put_statement(lines, statement, depth);
                }
            }
            Line::Else(part) => {
                self.begin(depth, "else\n");
                self.push(lines, Line::Statement(part), inside);
            }
            Line::While(test, end) => {
                self.begin(depth, "while");
                self.put_expr(test);
                self.end_line(end);
            }
            Line::Catch(clause) => self.put_catch(lines, clause, depth),
            Line::Finally(block) => {
                self.begin(depth, "finally\n");
                self.put_off_block(lines, block, inside);
            }
            Line::Case(case) => self.put_case(lines, case, depth),
        }
    }

    /// Writes the line of a `catch`, and puts off its block.
    fn put_catch(&mut self, lines: &mut Lines<'a>, clause: CatchClause, depth: usize) {
        self.begin(depth, "catch");
        if let Some(param) = clause.param {
            self.put_pat(param);
        }
        let start = self.start_of(clause.body);
        self.end_line(start);
        self.put_off_block(lines, clause.body, depth.saturating_add(1));
    }

    /// Writes the line of a `case` or of `default`, and puts off its statements.
    fn put_case(&mut self, lines: &mut Lines<'a>, case: &'a SwitchCase, depth: usize) {
        let word = if case.test.is_some() {
            "case"
        } else {
            "default"
        };
        self.begin(depth, word);
        self.put_expr_if(case.test);
        let end = match case.consequent.first() {
            Some(first) => self.start_of(*first),
            None => case.span.hi,
        };
        self.end_line(end);
        self.put_off(lines, &case.consequent, depth.saturating_add(1));
    }

    /// Where a statement begins.
    pub(crate) fn start_of(&self, id: StatementId) -> BytePos {
        match self.program.statement(id) {
            Some(statement) => statement.span.lo,
            None => BytePos(0),
        }
    }
}
