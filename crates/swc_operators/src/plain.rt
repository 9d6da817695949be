// Operands that begin with a name, a literal or `this` (ECMA-262, 13.1, 13.2.1 and 13.2.3). No prefix operator is
// before one, and mostly nothing goes on after it.
ghost use Rattle.std.specs.Prelude.{◌≡◌};
ghost use Rattle.swc_input.specs.Kinds.{at_token};
ghost use Rattle.swc_operators.specs.Operands.{is_plain, goes_on};
ghost use Rattle.swc_steps.specs.Parsing.{seen};

use swc_context::word::{Keyword, Word};
use swc_input::buffer::Buffer;
use swc_input::token::Token;
use swc_input::tokens::Tokens;

/// Whether a name, a literal or `this` is current, or another word that is no keyword.
pub fn begins_plain<I: Tokens>(input: &Buffer<I>) -> bool
    ensures { result ≡ at_token is_plain (seen input.now) }
{
    match input.cur_debug() {
        Some(token) => is_plain(token),
        None => false,
    }
}

/// Whether the token is one of these.
fn is_plain(token: &Token) -> bool
    ensures { result ≡ is_plain token.now }
{
    match token {
        Token::Word(Word::Keyword(word)) => matches!(word, Keyword::This),
        Token::Word(_) | Token::Num { .. } | Token::BigInt { .. } | Token::Str { .. } => true,
        _ => false,
    }
}

/// Whether a token is current with which an operand may go on: one that begins a link (ECMA-262, 13.3), `++` or `--`.
pub fn may_go_on<I: Tokens>(input: &Buffer<I>) -> bool
    ensures { result ≡ at_token goes_on (seen input.now) }
{
    match input.cur_debug() {
        Some(token) => goes_on(token),
        None => false,
    }
}

/// Whether the token is one of these.
fn goes_on(token: &Token) -> bool
    ensures { result ≡ goes_on token.now }
{
    matches!(
        token,
        Token::Dot
            | Token::LBracket
            | Token::LParen
            | Token::BackQuote
            | Token::QuestionMark
            | Token::PlusPlus
            | Token::MinusMinus
    )
}
