// Tokens (ECMA-262, 12).
ghost use Rattle.std.specs.Prelude.{◌≡◌, IfOk};
ghost use Rattle.swc_input.specs.Plain.{plain, plain_token, plain_cooked};

use std::alloc::AllocError;
use swc_context::atom::Atom;
use swc_context::error::Error;
use swc_context::operator::{AssignOp, BinOpToken};
use swc_context::span::Span;
use swc_context::word::Word;

/// A token. There is none for `?.`, which is `?` and then `.`; the signs `+ - * / <` are binary
/// operators, and `=` and `/=` are assignment operators.
#[derive(PartialEq, Eq, Drop)]
pub enum Token {
    /// A word.
    Word(Word),
    /// `=>`
    Arrow,
    /// `#`
    Hash,
    /// `@`
    At,
    /// `.`
    Dot,
    /// `...`
    DotDotDot,
    /// `!`
    Bang,
    /// `(`
    LParen,
    /// `)`
    RParen,
    /// `[`
    LBracket,
    /// `]`
    RBracket,
    /// `{`
    LBrace,
    /// `}`
    RBrace,
    /// `;`
    Semi,
    /// `,`
    Comma,
    /// A backquote.
    BackQuote,
    /// `:`
    Colon,
    /// `${`
    DollarLBrace,
    /// `?`
    QuestionMark,
    /// `++`
    PlusPlus,
    /// `--`
    MinusMinus,
    /// `~`
    Tilde,
    /// A binary operator that is no word.
    BinOp(BinOpToken),
    /// An assignment operator.
    AssignOp(AssignOp),
    /// A text of a template. `cooked` is what it means, or the fault of a bad escape.
    Template {
        raw: Atom,
        cooked: Result<Atom, Error>,
    },
    /// A string; `raw` has its quotes.
    Str {
        value: Atom,
        raw: Atom,
    },
    /// A number.
    Num {
        raw: Atom,
    },
    /// A big integer; `raw` has its `n`.
    BigInt {
        raw: Atom,
    },
    /// The text of a regular expression, between its slashes, and its flags.
    Regex(Atom, Atom),
    /// A fault of the reader.
    Error(Error),
}

/// A token, its place, and whether a line break is before it.
#[derive(PartialEq, Eq, Drop)]
pub struct TokenAndSpan {
    pub token: Token,
    pub had_line_break: bool,
    pub span: Span,
}

/// An equal value of `cooked` of its own.
fn clone_cooked(cooked: &Result<Atom, Error>) -> Result<Result<Atom, Error>, AllocError>
    ensures { IfOk result (λ copy. plain_cooked copy ≡ plain_cooked cooked.now) }
{
    match cooked {
        Ok(text) => Ok(Ok(text.try_clone()?)),
        Err(error) => Ok(Err(error.try_clone()?)),
    }
}

impl Token {
    /// An equal token of its own. The only error is out of memory.
    pub fn try_clone(&self) -> Result<Token, AllocError>
        ensures { IfOk result (λ t. plain_token t ≡ plain_token self.now) }
    {
        match self {
            Token::Word(word) => Ok(Token::Word(word.try_clone()?)),
            Token::Arrow => Ok(Token::Arrow),
            Token::Hash => Ok(Token::Hash),
            Token::At => Ok(Token::At),
            Token::Dot => Ok(Token::Dot),
            Token::DotDotDot => Ok(Token::DotDotDot),
            Token::Bang => Ok(Token::Bang),
            Token::LParen => Ok(Token::LParen),
            Token::RParen => Ok(Token::RParen),
            Token::LBracket => Ok(Token::LBracket),
            Token::RBracket => Ok(Token::RBracket),
            Token::LBrace => Ok(Token::LBrace),
            Token::RBrace => Ok(Token::RBrace),
            Token::Semi => Ok(Token::Semi),
            Token::Comma => Ok(Token::Comma),
            Token::BackQuote => Ok(Token::BackQuote),
            Token::Colon => Ok(Token::Colon),
            Token::DollarLBrace => Ok(Token::DollarLBrace),
            Token::QuestionMark => Ok(Token::QuestionMark),
            Token::PlusPlus => Ok(Token::PlusPlus),
            Token::MinusMinus => Ok(Token::MinusMinus),
            Token::Tilde => Ok(Token::Tilde),
            Token::BinOp(operator) => Ok(Token::BinOp(*operator)),
            Token::AssignOp(operator) => Ok(Token::AssignOp(*operator)),
            Token::Template { raw, cooked } => Ok(Token::Template {
                raw: raw.try_clone()?,
                cooked: clone_cooked(cooked)?,
            }),
            Token::Str { value, raw } => Ok(Token::Str {
                value: value.try_clone()?,
                raw: raw.try_clone()?,
            }),
            Token::Num { raw } => Ok(Token::Num {
                raw: raw.try_clone()?,
            }),
            Token::BigInt { raw } => Ok(Token::BigInt {
                raw: raw.try_clone()?,
            }),
            Token::Regex(text, flags) => Ok(Token::Regex(text.try_clone()?, flags.try_clone()?)),
            Token::Error(error) => Ok(Token::Error(error.try_clone()?)),
        }
    }
}

impl TokenAndSpan {
    /// An equal token of its own. The only error is out of memory.
    pub fn try_clone(&self) -> Result<TokenAndSpan, AllocError>
        ensures { IfOk result (λ t. plain t ≡ plain self.now) }
    {
        Ok(TokenAndSpan {
            token: self.token.try_clone()?,
            had_line_break: self.had_line_break,
            span: self.span,
        })
    }
}
