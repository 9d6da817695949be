// Tokens that were found in a text: what each is, and where. What it means is read when the token is made.
ghost use Rattle.std.specs.Prelude.{◌≡◌};
ghost use Rattle.swc_tokens.specs.Found as found;

use swc_context::operator::{AssignOp, BinOpToken};
use swc_context::span::Span;
use swc_input::token::Token;

/// A sign or an operator (ECMA-262, 12.8), or one of those of templates (12.9.6).
#[derive(Clone, Copy)]
pub(crate) enum Sign {
    Arrow,
    Hash,
    At,
    Dot,
    DotDotDot,
    Bang,
    LParen,
    RParen,
    LBracket,
    RBracket,
    LBrace,
    RBrace,
    Semi,
    Comma,
    BackQuote,
    Colon,
    DollarLBrace,
    QuestionMark,
    PlusPlus,
    MinusMinus,
    Tilde,
    BinOp(BinOpToken),
    AssignOp(AssignOp),
}

/// What a token is.
#[derive(Clone, Copy)]
pub(crate) enum Shape {
    Word,
    Number,
    /// A number with its `n`
    Big,
    String,
    Regexp,
    /// A text of a template
    Text,
    Sign(Sign),
}

/// What a token is to templates.
#[derive(Clone, Copy)]
pub(crate) enum Part {
    Text,
    Backquote,
    /// `${`
    Substitution,
    OpenBrace,
    CloseBrace,
    Other,
}

/// A token that was found: what it is, and its place.
#[derive(Clone, Copy)]
pub(crate) struct Found {
    pub(crate) shape: Shape,
    pub(crate) had_line_break: bool,
    pub(crate) span: Span,
}

impl Sign {
    /// The token.
    pub(crate) fn token(self) -> Token
        ensures { result ≡ found.sign_token self }
    {
        match self {
            Sign::Arrow => Token::Arrow,
            Sign::Hash => Token::Hash,
            Sign::At => Token::At,
            Sign::Dot => Token::Dot,
            Sign::DotDotDot => Token::DotDotDot,
            Sign::Bang => Token::Bang,
            Sign::LParen => Token::LParen,
            Sign::RParen => Token::RParen,
            Sign::LBracket => Token::LBracket,
            Sign::RBracket => Token::RBracket,
            Sign::LBrace => Token::LBrace,
            Sign::RBrace => Token::RBrace,
            Sign::Semi => Token::Semi,
            Sign::Comma => Token::Comma,
            Sign::BackQuote => Token::BackQuote,
            Sign::Colon => Token::Colon,
            Sign::DollarLBrace => Token::DollarLBrace,
            Sign::QuestionMark => Token::QuestionMark,
            Sign::PlusPlus => Token::PlusPlus,
            Sign::MinusMinus => Token::MinusMinus,
            Sign::Tilde => Token::Tilde,
            Sign::BinOp(operator) => Token::BinOp(operator),
            Sign::AssignOp(operator) => Token::AssignOp(operator),
        }
    }
}

impl Shape {
    /// What the token is to templates.
    pub(crate) fn part(self) -> Part
        ensures { result ≡ found.part_of_shape self }
    {
        match self {
            Shape::Text => Part::Text,
            Shape::Sign(Sign::BackQuote) => Part::Backquote,
            Shape::Sign(Sign::DollarLBrace) => Part::Substitution,
            Shape::Sign(Sign::LBrace) => Part::OpenBrace,
            Shape::Sign(Sign::RBrace) => Part::CloseBrace,
            _ => Part::Other,
        }
    }

    /// Whether an operand may end with this token, which is no word.
    pub(crate) fn ends_operand(self) -> bool {
        match self {
            Shape::Number | Shape::Big | Shape::String | Shape::Regexp | Shape::Text => true,
            Shape::Sign(sign) => matches!(
                sign,
                Sign::RParen
                    | Sign::RBracket
                    | Sign::RBrace
                    | Sign::PlusPlus
                    | Sign::MinusMinus
                    | Sign::BackQuote
            ),
            Shape::Word => false,
        }
    }
}
