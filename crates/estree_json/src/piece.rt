// The pieces of the JSON of a tree.
use swc_ast::expr::TplElement;
use swc_ast::lit::{Regex, Str};
use swc_context::span::Span;
use tree_types::tree::StatementId;

/// A piece of the JSON of a tree.
#[derive(Clone, Copy)]
pub(crate) enum Piece<'a> {
    /// The program.
    Program,
    /// The fields of the comments and the tokens, where they are asked for.
    Comments,
    /// A text as it is.
    Text(&'static str),
    /// What begins a node: its type and its place.
    Open(&'static str, Span),
    /// What begins a field after another one: its name.
    Field(&'static str),
    /// A text, as a JSON string.
    Word(&'a str),
    /// The value of a number that is written so.
    Number(&'a str),
    /// The digits of a big integer that is written so, as a JSON string.
    BigInt(&'a str),
    /// The value of a string literal.
    Value(&'a Str),
    /// A regular expression, as it is written.
    Regex(&'a Regex),
    /// What a text of a template means, or null.
    Cooked(&'a TplElement),
    /// The expression or the pattern that has the number.
    Node(usize),
    /// The same, where a link of an optional chain is after it, of which it is a part.
    Link(usize),
    /// The statement that has the number.
    Statement(StatementId),
    /// The block of a function at the place.
    Block(Span),
}
