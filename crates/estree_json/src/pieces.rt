// The pieces of a node.
use crate::piece::Piece;
use swc_context::span::{BytePos, Span};
use swc_nodes::node::{ExprId, PatId};
use tree_types::tree::{Goal, Program, StatementId};

/// The pieces of the JSON of a node, in their order.
///
/// Out of memory is remembered: so no piece that is added can be refused.
#[derive(Drop)]
pub(crate) struct Pieces<'a> {
    pub(crate) source: &'a str,
    pub(crate) program: &'a Program,
    pub(crate) parts: Vec<Piece<'a>>,
    pub(crate) failed: bool,
}

impl<'a> Pieces<'a> {
    /// The program.
    pub(crate) fn whole(&mut self) {
        let program = self.program;
        self.open("Program", program.span);
        self.statements("body", &program.body);
        let kind = match program.goal {
            Goal::Module => "module",
            Goal::Script | Goal::CommonJs => "script",
        };
        self.word("sourceType", kind);
        self.put(Piece::Comments);
        self.close();
    }

    /// Adds a piece.
    pub(crate) fn put(&mut self, piece: Piece<'a>) {
        self.failed |= self.parts.push(piece).is_err();
    }

    /// Begins a node.
    pub(crate) fn open(&mut self, kind: &'static str, span: Span) {
        self.put(Piece::Open(kind, span));
    }

    /// Ends a node.
    pub(crate) fn close(&mut self) {
        self.put(Piece::Text("}"));
    }

    /// Begins a field.
    pub(crate) fn field(&mut self, name: &'static str) {
        self.put(Piece::Field(name));
    }

    /// Adds a field that is a string.
    pub(crate) fn word(&mut self, name: &'static str, text: &'a str) {
        self.field(name);
        self.put(Piece::Word(text));
    }

    /// Adds a field that is true or false.
    pub(crate) fn flag(&mut self, name: &'static str, is_set: bool) {
        self.field(name);
        self.put(Piece::Text(if is_set { "true" } else { "false" }));
    }

    /// Adds a field that is null.
    pub(crate) fn null(&mut self, name: &'static str) {
        self.field(name);
        self.put(Piece::Text("null"));
    }

    /// Adds a field that is a node.
    pub(crate) fn part(&mut self, name: &'static str, number: usize) {
        self.field(name);
        self.put(Piece::Node(number));
    }

    /// Adds a field that is an expression, or null.
    pub(crate) fn opt_part(&mut self, name: &'static str, expr: Option<ExprId>) {
        match expr {
            Some(expr) => self.part(name, expr.0),
            None => self.null(name),
        }
    }

    /// Adds a field that is a pattern, or null.
    pub(crate) fn opt_pat(&mut self, name: &'static str, pat: Option<PatId>) {
        match pat {
            Some(pat) => self.part(name, pat.0),
            None => self.null(name),
        }
    }

    /// Adds a field that is a statement.
    pub(crate) fn body(&mut self, name: &'static str, id: StatementId) {
        self.field(name);
        self.put(Piece::Statement(id));
    }

    /// Adds a field that is a statement, or null.
    pub(crate) fn opt_body(&mut self, name: &'static str, id: Option<StatementId>) {
        match id {
            Some(id) => self.body(name, id),
            None => self.null(name),
        }
    }

    /// Begins a field that is a list.
    pub(crate) fn open_list(&mut self, name: &'static str) {
        self.field(name);
        self.put(Piece::Text("["));
    }

    /// Ends a list.
    pub(crate) fn close_list(&mut self) {
        self.put(Piece::Text("]"));
    }

    /// Adds what is before an item of a list: a comma, unless it is the first.
    pub(crate) fn comma(&mut self, index: usize) {
        if index > 0 {
            self.put(Piece::Text(","));
        }
    }

    /// Adds a field that is a list of statements.
    pub(crate) fn statements(&mut self, name: &'static str, ids: &[StatementId]) {
        self.open_list(name);
        for (index, id) in ids.iter().enumerate() {
            self.comma(index);
            self.put(Piece::Statement(*id));
        }
        self.close_list();
    }

    /// Adds a field that is a list of expressions.
    pub(crate) fn exprs(&mut self, name: &'static str, exprs: &[ExprId]) {
        self.open_list(name);
        for (index, expr) in exprs.iter().enumerate() {
            self.comma(index);
            self.put(Piece::Node(expr.0));
        }
        self.close_list();
    }

    /// Adds a field that is a list of patterns.
    pub(crate) fn pats(&mut self, name: &'static str, pats: &[PatId]) {
        self.open_list(name);
        for (index, pat) in pats.iter().enumerate() {
            self.comma(index);
            self.put(Piece::Node(pat.0));
        }
        self.close_list();
    }

    /// Adds an identifier, as a node.
    pub(crate) fn name(&mut self, span: Span, name: &'a str) {
        self.named("Identifier", span, name);
    }

    /// Adds a node that has a name alone.
    pub(crate) fn named(&mut self, kind: &'static str, span: Span, name: &'a str) {
        self.open(kind, span);
        self.word("name", name);
        self.close();
    }

    /// Where the first `(` is after a position, outside comments.
    pub(crate) fn paren_after(&self, from: BytePos) -> BytePos {
        let rest = self.source.get(from.0 as usize..).unwrap_or("");
        let skipped = u32::try_from(before_paren(rest)).unwrap_or(0);
        BytePos(from.0.saturating_add(skipped))
    }
}

/// Where the character that was read last is.
#[derive(Clone, Copy, PartialEq, Eq)]
enum Within {
    /// In no comment.
    Blanks,
    /// The first slash, with which a comment begins.
    Slash,
    /// In a comment up to the end of its line.
    Line,
    /// In a comment up to a star and a slash.
    Comment,
    /// Such a star.
    Star,
}

/// How many bytes are before the first `(` that is in no comment.
fn before_paren(rest: &str) -> usize {
    let mut within = Within::Blanks;
    for (at, letter) in rest.char_indices() {
        within = match (within, letter) {
            (Within::Blanks, '(') => return at,
            (Within::Blanks, '/') => Within::Slash,
            (Within::Slash, '/') => Within::Line,
            (Within::Slash, '*') => Within::Comment,
            (Within::Line, '\n' | '\r' | '\u{2028}' | '\u{2029}') => Within::Blanks,
            (Within::Comment | Within::Star, '*') => Within::Star,
            (Within::Star, '/') => Within::Blanks,
            (Within::Star, _) => Within::Comment,
            (same, _) => same,
        };
    }
    0
}
