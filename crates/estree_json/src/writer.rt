// Writes a tree piece by piece.
use crate::output::Output;
use crate::piece::Piece;
use crate::pieces::Pieces;
use crate::positions::Positions;
use program_tokens::texts::{program_comments, tokens_of};
use std::alloc::{AllocError, Global};
use swc_context::span::{BytePos, Span};
use swc_input::token::TokenAndSpan;
use swc_lexer::comments::{Comment, CommentKind};
use tree_types::tree::Program;

/// A block has at least so many bytes, unless it is the last one.
const BLOCK: usize = 1 << 16;

/// What is written beside the nodes.
#[derive(Clone, Copy)]
pub struct Extras {
    /// The field `loc` of each node: lines, and columns in UTF-16 units.
    pub loc: bool,
    /// The field `range` of each node.
    pub range: bool,
    /// The field `comments` of the program.
    pub comments: bool,
    /// The field `tokens` of the program, as ESLint's parser has it.
    pub tokens: bool,
}

/// Writes the JSON of a program block by block.
///
/// No call recurs over the tree: what is to be written yet is a list of pieces. So a tree may be as deep as it is.
#[derive(Drop)]
pub struct TreeWriter<'a> {
    pub(crate) extras: Extras,
    comments: Vec<Comment>,
    pub(crate) tokens: Vec<TokenAndSpan>,
    pub(crate) positions: Positions<'a>,
    pub(crate) out: Output,
    /// What is to be written yet, the next piece last.
    due: Vec<Piece<'a>>,
    /// The pieces of what is written now.
    pub(crate) pieces: Pieces<'a>,
}

impl<'a> TreeWriter<'a> {
    /// A writer of a program that was read from the source. The only error is out of memory.
    pub fn new(
        alloc: Global,
        source: &'a str,
        program: &'a Program,
    ) -> Result<TreeWriter<'a>, AllocError> {
        let extras = Extras {
            loc: false,
            range: false,
            comments: false,
            tokens: false,
        };
        TreeWriter::with(alloc, source, program, extras)
    }

    /// The same, with what acorn writes by `locations`, `ranges` and `onComment`, and with tokens. The only error is out
    /// of memory.
    pub fn with(
        alloc: Global,
        source: &'a str,
        program: &'a Program,
        extras: Extras,
    ) -> Result<TreeWriter<'a>, AllocError> {
        let tokens = if extras.comments || extras.tokens {
            tokens_of(alloc, source, program.goal.is_module())?
        } else {
            Vec::new(alloc)
        };
        let comments = if extras.comments {
            program_comments(alloc, source, &tokens)?
        } else {
            Vec::new(alloc)
        };
        let positions = if extras.loc {
            Positions::with_lines(alloc, source)?
        } else {
            Positions::new(alloc, source)?
        };
        Ok(TreeWriter {
            extras,
            comments,
            tokens,
            positions,
            out: Output {
                alloc,
                text: String::new(alloc),
                failed: false,
            },
            due: vec![in alloc; Piece::Program]?,
            pieces: Pieces {
                source,
                program,
                parts: Vec::new(alloc),
                failed: false,
            },
        })
    }

    /// Writes the next block in place of the last one, and says whether there is one. After an error, which is out of
    /// memory, each call answers an error.
    pub fn fill(&mut self) -> Result<bool, AllocError> {
        self.out.text.clear();
        for _ in 0..u64::MAX {
            if self.out.text.len() >= BLOCK {
                break;
            }
            match self.due.pop() {
                Some(piece) => self.write(piece),
                None => break,
            }
        }
        if self.out.failed || self.pieces.failed {
            Err(AllocError)
        } else {
            Ok(!self.out.text.is_empty())
        }
    }

    /// The block that was written last.
    pub fn block(&self) -> &str {
        self.out.text.as_str()
    }

    /// Writes a piece, or puts its own pieces before all that is due.
    fn write(&mut self, piece: Piece<'a>) {
        if self.write_leaf(piece) {
            return;
        }
        match piece {
            Piece::Program => self.pieces.whole(),
            Piece::Node(number) => self.pieces.numbered(number),
            Piece::Link(number) => self.pieces.linked(number),
            Piece::Statement(id) => self.pieces.statement(id),
            Piece::Block(place) => self.pieces.block_at(place),
            _ => {}
        }
        self.turn();
    }

    /// Writes a piece that has no parts, and says whether it is one.
    fn write_leaf(&mut self, piece: Piece<'a>) -> bool {
        match piece {
            Piece::Text(text) => self.out.put(text),
            Piece::Open(kind, span) => self.write_head(kind, span),
            Piece::Field(name) => {
                self.out.put(",\"");
                self.out.put(name);
                self.out.put("\":");
            }
            Piece::Word(text) => self.out.put_string(text),
            Piece::Number(raw) => self.out.put_number(raw),
            Piece::BigInt(raw) => self.out.put_big_int(raw),
            Piece::Value(string) => self.out.put_value(string),
            Piece::Regex(regex) => {
                self.out.put("\"/");
                self.out.put_quoted(regex.exp.as_str());
                self.out.put("/");
                self.out.put_quoted(regex.flags.as_str());
                self.out.put("\"");
            }
            Piece::Cooked(quasi) => self.out.put_cooked(quasi),
            Piece::Comments => {
                self.write_comments();
                self.write_tokens();
            }
            _ => return false,
        }
        true
    }

    /// Writes the type and the place of a node.
    fn write_head(&mut self, kind: &str, span: Span) {
        let (start, end) = (self.positions.at(span.lo), self.positions.at(span.hi));
        self.out.put("{\"type\":\"");
        self.out.put(kind);
        self.out.put("\",\"start\":");
        self.out.put_position(start);
        self.out.put(",\"end\":");
        self.out.put_position(end);
        self.write_extras(span, start, end);
    }

    /// Writes the other forms of a place that are asked for.
    pub(crate) fn write_extras(&mut self, span: Span, start: u32, end: u32) {
        if self.extras.loc {
            self.write_point(",\"loc\":{\"start\":", span.lo);
            self.write_point(",\"end\":", span.hi);
            self.out.put("}");
        }
        if self.extras.range {
            self.out.put(",\"range\":[");
            self.out.put_position(start);
            self.out.put(",");
            self.out.put_position(end);
            self.out.put("]");
        }
    }

    /// Writes a line and a column.
    fn write_point(&mut self, before: &str, at: BytePos) {
        let (line, column) = self.positions.place(at);
        self.out.put(before);
        self.out.failed |= write!(
            self.out.text,
            "{{\"line\":{line},\"column\":{column}}}"
        ).is_err();
    }

    /// Writes the comments, if they are asked for.
    fn write_comments(&mut self) {
        if !self.extras.comments {
            return;
        }
        self.out.put(",\"comments\":[");
        for number in 0..self.comments.len() {
            if number > 0 {
                self.out.put(",");
            }
            if let Some(comment) = self.comments.get(number).copied() {
                self.write_comment(comment);
            }
        }
        self.out.put("]");
    }

    /// Writes a comment: what acorn has of it.
    fn write_comment(&mut self, comment: Comment) {
        let Span { lo, hi } = comment.span;
        let (start, end) = (self.positions.at(lo), self.positions.at(hi));
        let place = lo.0 as usize;
        let (kind, sign, cut) = match comment.kind {
            CommentKind::Block => ("Block", 2, 2),
            CommentKind::Line | CommentKind::Hashbang => ("Line", 2, 0),
            CommentKind::Html if self.pieces.source.as_bytes().get(place) == Some(&b'<') => (
                "Line", 4, 0,
            ),
            CommentKind::Html => ("Line", 3, 0),
        };
        let (first, last) = (
            place.saturating_add(sign),
            (hi.0 as usize).saturating_sub(cut),
        );
        self.out.put("{\"type\":\"");
        self.out.put(kind);
        self.out.put("\",\"value\":");
        self.out
            .put_string(self.pieces.source.get(first..last).unwrap_or(""));
        self.out.put(",\"start\":");
        self.out.put_position(start);
        self.out.put(",\"end\":");
        self.out.put_position(end);
        self.write_extras(comment.span, start, end);
        self.out.put("}");
    }

    /// Moves the pieces of what is written now before all that is due.
    fn turn(&mut self) {
        for _ in 0..self.pieces.parts.len() {
            if let Some(piece) = self.pieces.parts.pop() {
                self.out.failed |= self.due.push(piece).is_err();
            }
        }
    }
}
