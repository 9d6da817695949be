// Tokens moved from a part of a text to where they are in the whole.
ghost use Rattle.std.specs.{Prelude.◌≡◌, Prelude.map, List.All};
ghost use Rattle.swc_tokens.specs.Moved.{HasRoom, MayMove, MayMoveError, MayMoveWithin};
ghost use Rattle.swc_tokens.specs.Moved as moved;

use swc_context::error::{Error, SyntaxError};
use swc_context::span::{BytePos, Span};
use swc_input::token::{Token, TokenAndSpan};

/// The place, `by` bytes further on.
fn moved_span(span: Span, by: u32) -> Span
    requires { HasRoom by span }
    ensures { result ≡ moved.moved_span by span }
{
    Span {
        lo: BytePos(span.lo.0 + by),
        hi: BytePos(span.hi.0 + by),
    }
}

/// The fault of the reader, `by` bytes further on.
pub(crate) fn moved_fault(fault: &Error, by: u32) -> Error
    requires { MayMoveError by fault.now }
    ensures { result ≡ moved.moved_error by fault.now }
{
    let span = moved_span(fault.span(), by);
    match fault.kind() {
        SyntaxError::OutOfMemory => Error::new(span, SyntaxError::OutOfMemory),
        _ => Error::new(span, SyntaxError::Lex),
    }
}

/// Moves what a token holds `by` bytes on.
#[tactic(auto, unfolding(crate::specs::Moved::MayMoveWithin))]
fn move_within(token: &mut Token, by: u32)
    requires { MayMoveWithin by token.old }
    ensures { token.new ≡ moved.moved_within by token.old }
{
    match token {
        Token::Template {
            cooked: Err(fault),
            ..
        } => *fault = moved_fault(fault, by),
        Token::Error(fault) => *fault = moved_fault(fault, by),
        _ => {}
    }
}

/// Moves a token `by` bytes on.
fn move_token(token: &mut TokenAndSpan, by: u32)
    requires { MayMove by token.old }
    ensures { token.new ≡ moved.moved_token by token.old }
{
    token.span = moved_span(token.span, by);
    move_within(&mut token.token, by);
}

/// Moves tokens `by` bytes on.
pub(crate) fn move_tokens(tokens: &mut Vec<TokenAndSpan>, by: u32)
    requires { All (MayMove by) tokens.old.items }
    ensures { tokens.new.items ≡ map (moved.moved_token by) tokens.old.items }
{
    for token in tokens.iter_mut() {
        move_token(token, by);
    }
}
