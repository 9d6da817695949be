// Where in a body the tokens taken so far end.
ghost use Rattle.std.specs.Prelude.{◌≡◌, ◌<◌, false};
ghost use Rattle.swc_bodies.specs.Taking.{sign_of, on_line, most_open, is_full, is_end, after, before, inside};

use swc_context::word::{Keyword, Word};
use swc_input::token::Token;

/// What a token is to a body that is taken.
#[derive(Clone, Copy)]
pub(crate) enum Sign {
    /// `function`
    Function,
    /// `(` or `[`
    Open,
    /// `${`
    Hole,
    /// `{`
    Brace,
    /// `)` or `]`
    Close,
    /// `}`
    CloseBrace,
    /// A fault of the reader.
    Fault,
    /// Any other token.
    Other,
}

/// Where in a body the tokens taken so far end.
#[derive(Clone, Copy)]
pub(crate) enum Place {
    /// After `async`, where `function` is wanted.
    Async,
    /// Before the body's brace, within as many brackets.
    Head(u64),
    /// Within the body's brace, and within as many more.
    Inside(u64),
    /// After the brace that closes the body.
    End,
}

/// What the token is to a body.
pub(crate) fn sign_of(token: &Token) -> Sign
    ensures { result ≡ sign_of token.now }
{
    match token {
        Token::Word(Word::Keyword(Keyword::Function)) => Sign::Function,
        Token::LParen | Token::LBracket => Sign::Open,
        Token::DollarLBrace => Sign::Hole,
        Token::LBrace => Sign::Brace,
        Token::RParen | Token::RBracket => Sign::Close,
        Token::RBrace => Sign::CloseBrace,
        Token::Error(_) => Sign::Fault,
        _ => Sign::Other,
    }
}

/// What the token is to a body, after a line break or not: `function` is wanted on the line of `async` alone.
pub(crate) fn sign_at(token: &Token, had_line_break: bool) -> Sign
    ensures { result ≡ on_line had_line_break (sign_of token.now) }
{
    match sign_of(token) {
        Sign::Function if had_line_break => Sign::Other,
        sign => sign,
    }
}

/// After a token before the body's brace.
fn before(depth: u64, sign: Sign) -> Option<Place>
    requires { depth < most_open }
    ensures { result ≡ before depth sign }
{
    match sign {
        Sign::Open | Sign::Hole => Some(Place::Head(depth + 1)),
        Sign::Brace if depth == 0 => Some(Place::Inside(0)),
        Sign::Brace => Some(Place::Head(depth + 1)),
        Sign::Close | Sign::CloseBrace => Some(Place::Head(depth.checked_sub(1)?)),
        Sign::Function | Sign::Other => Some(Place::Head(depth)),
        Sign::Fault => None,
    }
}

/// After a token within the body's brace.
fn inside(depth: u64, sign: Sign) -> Option<Place>
    requires { depth < most_open }
    ensures { result ≡ inside depth sign }
{
    match sign {
        Sign::Brace | Sign::Hole => Some(Place::Inside(depth + 1)),
        Sign::CloseBrace if depth == 0 => Some(Place::End),
        Sign::CloseBrace => Some(Place::Inside(depth - 1)),
        Sign::Fault => None,
        _ => Some(Place::Inside(depth)),
    }
}

impl Place {
    /// No more brackets can be counted.
    pub(crate) fn is_full(self) -> bool
        ensures { result ≡ is_full self }
    {
        matches!(self, Place::Head(u64::MAX) | Place::Inside(u64::MAX))
    }

    /// The body was taken.
    pub(crate) fn is_end(self) -> bool
        ensures { result ≡ is_end self }
    {
        matches!(self, Place::End)
    }

    /// The place after a token, if it may be here.
    pub(crate) fn after(self, sign: Sign) -> Option<Place>
        requires { is_full self ≡ false }
        ensures { result ≡ after self sign }
    {
        match self {
            Place::Async => match sign {
                Sign::Function => Some(Place::Head(0)),
                _ => None,
            },
            Place::Head(depth) => before(depth, sign),
            Place::Inside(depth) => inside(depth, sign),
            Place::End => None,
        }
    }
}
