// Lines of text, one for each part of a tree.
use std::alloc::{AllocError, Global};
use swc_ast::ident::{Ident, ModuleExportName};
use swc_ast::prop::PropName;
use swc_context::error::PResult;
use swc_context::span::{BytePos, Span};
use swc_nodes::node::{ExprId, PatId};
use swc_print::print::PrintNodes;
use tree_types::tree::{MemberKey, Program};

/// Lines deeper than this are indented no further, and begin with their depth.
const DEEPEST: usize = 40;

/// A tree as text: a line for each of its nodes, indented by two blanks for each node that it is in.
///
/// Out of memory is remembered, and told at the end: so nothing that is written can be refused.
#[derive(Drop)]
pub(crate) struct Outline<'a> {
    pub(crate) alloc: Global,
    pub(crate) program: &'a Program,
    pub(crate) text: String,
    pub(crate) failed: bool,
    /// The places of bodies that are written after the program, in the order in which lines name them.
    pub(crate) named: Vec<Span>,
    /// How many of all bodies begin before what is to be written.
    pub(crate) past: usize,
}

/// Of bodies in the order in which they begin, those from a number on that begin before the place and are in no other;
/// and how many begin before it. The only error is out of memory.
fn bodies_before(
    alloc: Global,
    bodies: &[Span],
    from: usize,
    end: BytePos,
) -> Result<(Vec<Span>, usize), AllocError> {
    let mut found = Vec::new(alloc);
    let mut at = from;
    while let Some(body) = bodies.get(at) {
        if body.lo >= end {
            break;
        }
        found.push(*body)?;
        let after = bodies.partition_point(|inner| inner.lo < body.hi);
        at = after.max(at + 1);
    }
    Ok((found, at))
}

impl Outline<'_> {
    /// Writes a text in the current line.
    pub(crate) fn put(&mut self, text: &str) {
        self.failed |= self.text.push_str(text).is_err();
    }

    /// Writes a text in the current line, after a blank.
    pub(crate) fn put_word(&mut self, text: &str) {
        self.put(" ");
        self.put(text);
    }

    /// Writes a text in the current line, after a blank, if it is to be there.
    pub(crate) fn put_if(&mut self, is_there: bool, text: &str) {
        if is_there {
            self.put_word(text);
        }
    }

    /// Writes a name in the current line, after a blank.
    pub(crate) fn put_name(&mut self, name: &Ident) {
        self.put_word(name.sym.as_str());
    }

    /// Writes a name in the current line, after a blank, if there is one.
    pub(crate) fn put_name_if(&mut self, name: &Option<Ident>) {
        if let Some(name) = name {
            self.put_name(name);
        }
    }

    /// Writes a name that a module exports in the current line, after a blank.
    pub(crate) fn put_export(&mut self, name: &ModuleExportName) {
        match name {
            ModuleExportName::Ident(name) => self.put_name(name),
            ModuleExportName::Str(string) => self.put_word(string.raw.as_str()),
        }
    }

    /// Goes back to the first body that begins after the place.
    pub(crate) fn go_after(&mut self, place: BytePos) {
        self.past = self.program.bodies.partition_point(|body| body.lo <= place);
    }

    /// Writes a place in the current line.
    pub(crate) fn put_span(&mut self, span: Span) {
        self.failed |= write!(self.text, " {span}").is_err();
    }

    /// Writes a text that was made in the current line, after a blank.
    fn put_made(&mut self, made: PResult<String>) {
        match made {
            Ok(text) => self.put_word(text.as_str()),
            Err(_) => self.failed = true,
        }
    }

    /// Writes an expression in the current line, after a blank, if it is one of the nodes, as each of a program is.
    pub(crate) fn put_expr(&mut self, expr: ExprId) {
        let nodes = &self.program.nodes;
        if nodes.has_expr(expr) {
            let made = nodes.print_expr(expr);
            self.put_made(made);
        }
    }

    /// Writes an expression in the current line, after a blank, if there is one.
    pub(crate) fn put_expr_if(&mut self, expr: Option<ExprId>) {
        if let Some(expr) = expr {
            self.put_expr(expr);
        }
    }

    /// Writes a pattern in the current line, after a blank, if it is one of the nodes, as each of a program is.
    pub(crate) fn put_pat(&mut self, pat: PatId) {
        let nodes = &self.program.nodes;
        if nodes.has_pat(pat) {
            let made = nodes.print_pat(pat);
            self.put_made(made);
        }
    }

    /// Writes parameters in the current line, in parentheses.
    pub(crate) fn put_params(&mut self, params: &Vec<PatId>) {
        let nodes = &self.program.nodes;
        let mut sign = "(";
        for param in params {
            self.put(sign);
            if nodes.has_pat(*param) {
                match nodes.print_pat(*param) {
                    Ok(text) => self.put(text.as_str()),
                    Err(_) => self.failed = true,
                }
            }
            sign = ", ";
        }
        self.put(if params.is_empty() { "()" } else { ")" });
    }

    /// Writes the key of a member in the current line.
    pub(crate) fn put_key(&mut self, key: &MemberKey) {
        match key {
            MemberKey::Private(name) => {
                self.put(" #");
                self.put(name.name.as_str());
            }
            MemberKey::Prop(PropName::Ident(name)) => self.put_word(name.sym.as_str()),
            MemberKey::Prop(PropName::Str(string)) => self.put_word(string.raw.as_str()),
            MemberKey::Prop(PropName::Num(number)) => self.put_word(number.raw.as_str()),
            MemberKey::Prop(PropName::BigInt(number)) => self.put_word(number.raw.as_str()),
            MemberKey::Prop(PropName::Computed(computed)) => {
                self.put(" computed");
                self.put_expr(computed.expr);
            }
        }
    }

    /// Begins a line.
    pub(crate) fn begin(&mut self, depth: usize, word: &str) {
        for _ in 0..depth.min(DEEPEST) {
            self.put("  ");
        }
        if depth > DEEPEST {
            self.failed |= write!(self.text, "[{depth}] ").is_err();
        }
        self.put(word);
    }

    /// Ends a line, with the places of the bodies in it: those that begin before the place, and are in no other.
    pub(crate) fn end_line(&mut self, end: BytePos) {
        let before = bodies_before(self.alloc, &self.program.bodies, self.past, end);
        let Ok((bodies, past)) = before else {
            self.failed = true;
            return;
        };
        self.past = past;
        let mut sign = " with";
        for body in &bodies {
            self.put(sign);
            self.put_span(*body);
            self.failed |= self.named.push(*body).is_err();
            sign = ",";
        }
        self.put("\n");
    }
}
