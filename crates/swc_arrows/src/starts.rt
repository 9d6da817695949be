// What an assignment expression begins with, where it may be an arrow function (ECMA-262, 15.3 and 15.9).
ghost use Rattle.std.specs.Prelude.{◌≡◌, ◌≤◌, OnOk, IfOk, IsSome, MatchOption, None, Some};
ghost use Rattle.swc_grammar.specs.Clean.{second};
ghost use Rattle.swc_input.specs.Buffer.{current, peeked, context, to_come, Peeked};
ghost use Rattle.swc_steps.specs.Parsing.{seen, Tells};
ghost use Rattle.swc_arrows.specs.Starts.{first_kind, word_kind, next_kind, next_token, start_kind, name_head, async_head, begins_head};

use swc_context::context::Context;
use swc_context::error::PResult;
use swc_context::word::{Keyword, Word};
use swc_input::buffer::Buffer;
use swc_input::token::Token;
use swc_input::tokens::Tokens;

/// What an assignment expression begins with, as far as two tokens tell.
#[derive(Clone, Copy)]
pub enum StartKind {
    /// A name, and `=>` on its line: an arrow function (ECMA-262, 15.3).
    Name,
    /// `async`, and a word that may be bound on its line: an async arrow function (ECMA-262, 15.9), but for `of` in the
    /// head of a `for`.
    AsyncName,
    /// A list in parentheses, or `async` and such a list on its line: the token after it tells.
    List { is_async: bool },
    /// No arrow function.
    Other,
}

/// What the first token is, to an arrow function.
#[derive(Clone, Copy)]
pub enum FirstKind {
    /// `(`
    Paren,
    /// `async`
    Async,
    /// A name that may be before `=>` by itself.
    Word,
    /// Another token, or none.
    Other,
}

/// What is after the first token, on its line.
#[derive(Clone, Copy)]
pub enum NextKind {
    /// `=>`
    Arrow,
    /// `(`
    Paren,
    /// A word that isn't reserved.
    Word,
    /// Another token, none, or one on another line.
    Other,
}

/// What the assignment expression begins with whose first token is current. Consumes nothing, and is refused only for
/// out of memory.
#[inline(never)]
pub fn start_kind<I: Tokens>(input: &mut Buffer<I>) -> PResult<StartKind>
    requires { IsSome (current input.old) }
    ensures tells { Tells I.model (start_kind (context I.model input.old)) input.old result input.new }
    ensures begins { IfOk result (λ k. begins_head (context I.model input.old) k (seen input.new)) }
    ensures falls { OnOk result (to_come I.model input.new ≤ to_come I.model input.old) }
{
    match first_kind(input) {
        FirstKind::Paren => Ok(StartKind::List { is_async: false }),
        FirstKind::Async => {
            let next = next_kind(input)?;
            Ok(async_head(next))
        }
        FirstKind::Word => {
            let next = next_kind(input)?;
            Ok(name_head(next))
        }
        FirstKind::Other => Ok(StartKind::Other),
    }
}

/// What `async` begins, and a name that may be before `=>`, by what is after it.
fn async_head(next: NextKind) -> StartKind
    ensures { result ≡ async_head next }
{
    match next {
        NextKind::Arrow => StartKind::Name,
        NextKind::Paren => StartKind::List { is_async: true },
        NextKind::Word => StartKind::AsyncName,
        NextKind::Other => StartKind::Other,
    }
}

fn name_head(next: NextKind) -> StartKind
    ensures { result ≡ name_head next }
{
    match next {
        NextKind::Arrow => StartKind::Name,
        _ => StartKind::Other,
    }
}

/// What the current token is.
fn first_kind<I: Tokens>(input: &Buffer<I>) -> FirstKind
    ensures { result ≡ first_kind (context I.model input.now) (seen input.now) }
{
    match input.cur_debug() {
        Some(Token::LParen) => FirstKind::Paren,
        Some(Token::Word(word)) => word_kind(input.get_ctx(), word),
        _ => FirstKind::Other,
    }
}

/// The same of a word.
fn word_kind(ctx: Context, word: &Word) -> FirstKind
    ensures { result ≡ word_kind ctx word.now }
{
    match word {
        Word::Ident(name) if name.is_word("async") => FirstKind::Async,
        Word::Ident(_) | Word::Keyword(Keyword::Yield) if !ctx.is_reserved(word) => FirstKind::Word,
        _ => FirstKind::Other,
    }
}

/// What is after the current token, on its line. Refused only when out of memory.
fn next_kind<I: Tokens>(input: &mut Buffer<I>) -> PResult<NextKind>
    requires { IsSome (current input.old) }
    ensures tells { Tells I.model (λ ts. next_kind (context I.model input.old) (second ts)) input.old result input.new }
    ensures current { current input.new ≡ current input.old }
    ensures falls { to_come I.model input.new ≤ to_come I.model input.old }
{
    let ctx = input.get_ctx();
    match peek_kind(input, ctx) {
        Some(kind) => {
            if input.has_linebreak_between_cur_and_peeked() {
                return Ok(NextKind::Other);
            }
            Ok(kind)
        }
        None => {
            if input.failed() {
                return Err(input.out_of_memory());
            }
            Ok(NextKind::Other)
        }
    }
}

/// What the token after the current one is, on whatever line; nothing where there is none.
fn peek_kind<I: Tokens>(input: &mut Buffer<I>, ctx: Context) -> Option<NextKind>
    requires { IsSome (current input.old) }
    ensures peeked { Peeked I.model input.old input.new }
    ensures value { MatchOption (peeked input.new) (result ≡ None) (λ t. result ≡ Some (next_token ctx t.token)) }
{
    match input.peek() {
        Some(token) => Some(next_token(ctx, token)),
        None => None,
    }
}

/// What a token is after the first one.
fn next_token(ctx: Context, token: &Token) -> NextKind
    ensures { result ≡ next_token ctx token.now }
{
    match token {
        Token::Arrow => NextKind::Arrow,
        Token::LParen => NextKind::Paren,
        Token::Word(word) if !ctx.is_reserved(word) => NextKind::Word,
        _ => NextKind::Other,
    }
}
