// Calls of the buffer, of its source, and of the hooks.
ghost use Rattle.std.specs.Prelude.{◌≡◌, ◌≢◌, true, Some, IsSome};
ghost use Rattle.swc_context.specs.{declared.error.SyntaxError.TheVariants.OutOfMemory, declared.operator.BinOpToken.TheVariants.LShift};
ghost use Rattle.swc_bodies.specs.Readings.{at_function, is_brace, is_class};
ghost use Rattle.swc_input.specs.{declared.token.Token.TheVariants.BinOp, Buffer.current, Buffer.token_of, Kinds.at_token};

use crate::row::{Row, show_unread};
use crate::settings::{list_of, setting_of};
use crate::shown::{Shown, begin_part, show, show_faults, show_refusal};
use crate::tokens::{fault_of, kind_of, last_token};
use std::alloc::{AllocError, Global};
use swc_ast::spanned::Spanned;
use swc_bodies::bodies::Bodies;
use swc_bodies::none::NoBodies;
use swc_bodies::token_bodies::TokenBodies;
use swc_bodies::token_body::TokenBody;
use swc_context::context::{Context, EsVersion, Syntax};
use swc_context::error::{Error, PResult, SyntaxError};
use swc_context::operator::BinOpToken;
use swc_context::span::{BytePos, Span};
use swc_context::word::{Keyword, Word};
use swc_input::buffer::Buffer;
use swc_input::listed::TokensInput;
use swc_input::token::Token;
use swc_input::tokens::Tokens;
use swc_print::print::Kept;

type Tested = Buffer<TokensInput>;

/// Writes what the calls of a buffer over the row's tokens answer; and after a bar the faults that are recorded, if
/// there are any.
pub fn show_called(alloc: Global, out: &mut String, row: Row<'_>) -> Result<(), AllocError> {
    match list_of(alloc, row) {
        Some(list) => {
            let mut buffer = Buffer::new(list);
            if row.calls.starts_with("store") {
                buffer.store(Token::Comma);
            }
            call_each(out, buffer, row.calls)
        }
        None => show_unread(out, "no such setting, or no tokens"),
    }
}

/// Makes the calls of the buffer.
fn call_each(out: &mut String, mut buffer: Tested, calls: &str) -> Result<(), AllocError> {
    for (at, call) in calls.split("; ").enumerate() {
        begin_part(out, at, "; ")?;
        answer(out, &mut buffer, call)?;
    }
    let faults = buffer.input().take_errors();
    if faults.is_empty() {
        return Ok(());
    }
    out.push_str(" | ")?;
    show_faults(out, &faults)
}

fn answer(out: &mut String, buffer: &mut Tested, call: &str) -> Result<(), AllocError> {
    match call {
        "cur" => show_token(out, buffer.cur()),
        "cur_debug" => show_token(out, buffer.cur_debug()),
        "peek" if buffer.knows_cur() => show_token(out, buffer.peek()),
        "bump" if buffer.knows_cur() => show_bumped(out, buffer),
        "next" => show_next(out, buffer),
        "knows_cur" => buffer.knows_cur().show(out),
        "has_cur" => show(out, buffer.has_cur()),
        "require_cur" => show(out, buffer.require_cur()),
        "had_line_break_before_cur" => buffer.had_line_break_before_cur().show(out),
        "has_linebreak_between_cur_and_peeked" if buffer.knows_cur() => {
            buffer.has_linebreak_between_cur_and_peeked().show(out)
        }
        "failed" => buffer.failed().show(out),
        "store" => ().show(out),
        _ => tell_place(out, buffer, call),
    }
}

fn show_bumped(out: &mut String, buffer: &mut Tested) -> Result<(), AllocError>
    requires { IsSome (current buffer.old) }
{
    let token = buffer.bump();
    show_token(out, Some(&token))
}

fn show_next(out: &mut String, buffer: &mut Tested) -> Result<(), AllocError> {
    match buffer.input().next() {
        Some(next) => show_token(out, Some(&next.token)),
        None => show_token(out, None),
    }
}

fn show_token(out: &mut String, token: Option<&Token>) -> Result<(), AllocError> {
    match token {
        None => out.push_str("none"),
        Some(Token::Word(word)) => out.push_str(word.as_str()),
        Some(Token::BinOp(BinOpToken::Add)) => out.push_str("+"),
        Some(Token::BinOp(BinOpToken::LShift)) => out.push_str("<<"),
        Some(Token::BinOp(BinOpToken::Lt)) => out.push_str("<"),
        Some(Token::Comma) => out.push_str(","),
        Some(Token::LBrace) => out.push_str("{"),
        Some(_) => out.push_str("another token"),
    }
}

/// Tells places.
fn tell_place(out: &mut String, buffer: &mut Tested, call: &str) -> Result<(), AllocError> {
    match call {
        "start_pos" => buffer.input().start_pos().0.show(out),
        "last_pos" => buffer.last_pos().0.show(out),
        "cur_pos" => buffer.cur_pos().0.show(out),
        "prev_span" => buffer.prev_span().show(out),
        "cur_span" => buffer.cur_span().show(out),
        _ => change(out, buffer, call),
    }
}

/// Changes what is current, and reads with the hook.
fn change(out: &mut String, buffer: &mut Tested, call: &str) -> Result<(), AllocError> {
    match call {
        "cut_lshift" if is_at_lshift(buffer) => {
            buffer.cut_lshift();
            ().show(out)
        }
        "fun" if is_at_function(buffer) => show(out, NoBodies.fun(buffer)),
        "class" if is_at_class(buffer) => show(out, NoBodies.class(buffer)),
        "block" if is_at_brace(buffer) => show(out, NoBodies.block(buffer)),
        "keep_fun" | "keep_class" | "keep_block" => keep(out, buffer, call),
        "take_errors" => show_faults(out, &buffer.input().take_errors()),
        "out_of_memory" => show_refusal(out, buffer.out_of_memory()),
        "has_defaults" => has_defaults(buffer).show(out),
        "hint" => hint(buffer).show(out),
        _ => {
            let (name, argument) = call.split_once(' ').unwrap_or((call, ""));
            compare(out, buffer, name, argument)
        }
    }
}

/// Reads with the hook that keeps tokens.
fn keep(out: &mut String, buffer: &mut Tested, call: &str) -> Result<(), AllocError> {
    let mut hook = TokenBodies::new(*out.allocator());
    match call {
        "keep_fun" if is_at_function(buffer) => show_body(out, "Fn", hook.fun(buffer)),
        "keep_class" if is_at_class(buffer) => show_body(out, "Class", hook.class(buffer)),
        "keep_block" if is_at_brace(buffer) => show_body(out, "Block", hook.block(buffer)),
        _ => show_unread(out, "no such call"),
    }
}

/// Writes how many tokens were kept of the body, and its place; or the refusal.
fn show_body(out: &mut String, name: &str, answer: PResult<TokenBody>) -> Result<(), AllocError> {
    match answer {
        Ok(body) => write!(out, "{name}<{}> {}", body.kept(), body.span()),
        Err(fault) => show_refusal(out, fault),
    }
}

fn is_at_lshift(buffer: &Tested) -> bool
    ensures { result ≡ true → token_of (current buffer.now) ≡ Some (BinOp LShift) }
{
    matches!(buffer.cur_debug(), Some(Token::BinOp(BinOpToken::LShift)))
}

fn is_at_function(buffer: &Tested) -> bool
    ensures { result ≡ true → at_function (current buffer.now) ≡ true }
{
    match buffer.cur_debug() {
        Some(Token::Word(Word::Ident(name))) => name.as_str() == "async",
        Some(Token::Word(word)) => matches!(word, Word::Keyword(Keyword::Function)),
        _ => false,
    }
}

fn is_at_class(buffer: &Tested) -> bool
    ensures { result ≡ true → at_token is_class (current buffer.now) ≡ true }
{
    match buffer.cur_debug() {
        Some(Token::Word(word)) => matches!(word, Word::Keyword(Keyword::Class)),
        _ => false,
    }
}

fn is_at_brace(buffer: &Tested) -> bool
    ensures { result ≡ true → at_token is_brace (current buffer.now) ≡ true }
{
    matches!(buffer.cur_debug(), Some(Token::LBrace))
}

/// Whether buffer and source have the default syntax and edition.
fn has_defaults(buffer: &mut Tested) -> bool {
    let (syntax, target) = (Syntax::default(), EsVersion::default());
    let held = buffer.syntax() == syntax && buffer.target() == target;
    let input = buffer.input();
    held && input.syntax() == syntax && input.target() == target
}

/// Gives each hint for lexers, none of which changes anything here.
fn hint(buffer: &mut Tested) {
    buffer.set_next_regexp(Some(BytePos(0)));
    let input = buffer.input();
    input.set_expr_allowed(true);
    input.set_next_regexp(None);
    let contexts = *input.token_context();
    input.set_token_context(contexts);
    let _ = input.token_context_mut();
}

/// Compares the current token with another, refuses it, or sets the context.
fn compare(
    out: &mut String,
    buffer: &mut Tested,
    call: &str,
    said: &str,
) -> Result<(), AllocError> {
    match (call, last_token(*out.allocator(), said)) {
        ("is", Some(token)) => buffer.is(&token).show(out),
        ("eat", Some(token)) => buffer.eat(&token).show(out),
        ("unexpected", _) => show_refusal(out, buffer.unexpected(kind_of(said))),
        ("set_ctx", _) => match setting_of(said, false) {
            Some(setting) => sets(buffer, setting.context)?.show(out),
            None => show_unread(out, "no such setting"),
        },
        _ => match fault_of(said) {
            Some((span, kind)) => record(out, buffer, call, span, kind),
            None => show_unread(out, "no such call"),
        },
    }
}

/// Sets the context, and says whether buffer and source have it.
fn sets(buffer: &mut Tested, context: Context) -> Result<bool, AllocError> {
    buffer.set_ctx(context)?;
    Ok(buffer.get_ctx() == context && buffer.input().ctx() == context)
}

/// Records a fault, or refuses.
fn record(
    out: &mut String,
    buffer: &mut Tested,
    call: &str,
    span: Span,
    kind: SyntaxError,
) -> Result<(), AllocError>
    requires { kind ≢ OutOfMemory }
{
    match call {
        "emit_error" => show(out, buffer.emit_error(Error::new(span, kind))),
        "emit_err" => show(out, buffer.emit_err(span, kind)),
        "emit_strict_mode_err" => show(out, buffer.emit_strict_mode_err(span, kind)),
        "syntax_error" => show_refusal(out, buffer.syntax_error(span, kind)),
        "add_error" => {
            buffer.input().add_error(Error::new(span, kind))?;
            ().show(out)
        }
        "add_module_mode_error" => {
            let fault = Error::new(span, kind);
            buffer.input().add_module_mode_error(fault)?;
            ().show(out)
        }
        _ => show_unread(out, "no such call"),
    }
}
