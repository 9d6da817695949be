// Names that are parameters of arrow functions by themselves (ECMA-262, 15.3 and 15.9).
ghost use Rattle.std.specs.Prelude.{◌≡◌, ◌<◌, ◌≤◌, true, not, Some, None, IfOk, OnOk, IsSome, MatchOption};
ghost use Rattle.swc_bodies.specs.Readings.{is_async};
ghost use Rattle.swc_grammar.specs.{Arrows.is_arrow, Arrows.is_of, Clean.second, Tokens.may_be_reference};
ghost use Rattle.swc_input.specs.Buffer.{context, current, last_position, peeked, to_come, Peeked};
ghost use Rattle.swc_input.specs.Kinds.{at_token};
ghost use Rattle.swc_nodes.specs.GrowingNodes.{count};
ghost use Rattle.swc_patterns.specs.Answers.{Leaves};
ghost use Rattle.swc_input.specs.Calls.{Checked};
ghost use Rattle.swc_steps.specs.Parsing.{seen, ident_spelling, ContinuesAlone, Tells};
ghost use Rattle.swc_arrows.specs.Answers.{beginning_of, beginning_behind, HearsBase, IsArrow, IsBase, OneParam, Opens};
ghost use Rattle.swc_arrows.specs.Readers.{name_arrow, async_arrow, async_base, async_of, name_ok, of_alone, of_base, arrow_on_line};

use swc_ast::ident::{BindingIdent, Ident};
use swc_bodies::bodies::Bodies;
use swc_context::error::{PResult, SyntaxError};
use swc_context::span::{BytePos, Span};
use swc_context::word::Word;
use swc_input::buffer::Buffer;
use swc_input::token::Token;
use swc_input::tokens::Tokens;
use swc_nodes::node::{ExprId, PatId};
use swc_patterns::pat::{made, parse_plain_pat};
use swc_primary::primary::parse_reference;
use swc_steps::productions::Productions;
use swc_steps::tokens::{Sign, expect, is_after_line_break, is_sign, look};

/// What an arrow function begins with (ECMA-262, 15.3 and 15.9), up to its `=>`.
#[derive(Drop)]
pub struct ArrowHead {
    /// Where it begins, in bytes.
    pub start: BytePos,
    /// Whether `async` is before its parameters.
    pub is_async: bool,
    /// Whether its parameters are in parentheses.
    pub in_parens: bool,
    /// Its parameters.
    pub params: Vec<PatId>,
}

/// What an assignment expression begins with, where it may be an arrow function.
#[derive(Drop)]
pub enum Beginning {
    /// An arrow function, up to its `=>`.
    Arrow(ArrowHead),
    /// An operand, which links may follow.
    Base(ExprId),
}

/// A name, which is current, and `=>` after it (ECMA-262, 15.3). In strict code `eval` and `arguments` are recorded
/// for modules.
#[inline(never)]
pub fn parse_arrow_name<I: Tokens, B: Bodies<I>>(p: &mut Productions<I, B>) -> PResult<Beginning>
    requires { at_token (may_be_reference (context I.model p.old.input)) (seen p.old.input) ≡ true }
    ensures leaves { Leaves I.model B.is_faithful beginning_of (name_arrow B.forms) (beginning_behind B.forms)
        (count p.old.nodes) p.old result p.new }
    ensures arrow { IfOk result (λ b. IsArrow b) }
    ensures less { OnOk result (to_come I.model p.new.input < to_come I.model p.old.input) }
{
    let ident = parse_reference(p.alloc, &mut p.input)?;
    expect(&mut p.input, Sign::Arrow)?;
    check_arrow_name(&mut p.input, &ident)?;
    let start = ident.span.lo;
    let node = p.nodes.ident_pat(BindingIdent { id: ident });
    let param = made(&p.input, node)?;
    one_param(p, start, false, param)
}

/// `async`, which is current, a name that is bound, and `=>` (ECMA-262, 15.9). Where the syntax is pedantic, a line
/// break before `=>` is refused as `LineBreakBeforeArrow`, from `async` through the name. Where the name is `of` in the
/// head of a `for`, and no `=>` is after it, `async` is an identifier, and the rest stays: that is recorded as
/// `TS1106`, at `async`, but in the head of a `for await` (14.7.5).
#[inline(never)]
pub fn parse_async_name<I: Tokens, B: Bodies<I>>(p: &mut Productions<I, B>) -> PResult<Beginning>
    requires { at_token is_async (seen p.old.input) ≡ true }
    ensures leaves { Leaves I.model B.is_faithful beginning_of (async_arrow B.forms) (beginning_behind B.forms)
        (count p.old.nodes) p.old result p.new }
    ensures base { IfOk result (λ b. HearsBase I.model B.is_faithful async_base p.new.nodes b p.old.input p.new.input) }
    ensures opens { IfOk result (λ b. Opens I.model B.is_faithful (async_arrow B.forms)
        (beginning_behind B.forms p.new.nodes b) p.old.input p.new.input) }
    ensures less { OnOk result (to_come I.model p.new.input < to_come I.model p.old.input) }
{
    let name = parse_reference(p.alloc, &mut p.input)?;
    if is_of_alone(&mut p.input)? {
        return async_of(p, name);
    }
    let start = name.span.lo;
    let param = parse_plain_pat(p)?;
    refuse_arrow_line(&mut p.input, start)?;
    expect(&mut p.input, Sign::Arrow)?;
    one_param(p, start, true, param)
}

/// Refuses `=>` after a line break, where the syntax is pedantic, from `start` through the token consumed last. Any
/// other token may be there.
fn refuse_arrow_line<I: Tokens>(input: &mut Buffer<I>, start: BytePos) -> PResult<()>
    ensures continues { ContinuesAlone I.model (λ u. u) arrow_on_line input.old result input.new }
    ensures falls { OnOk result (to_come I.model input.new ≤ to_come I.model input.old) }
{
    let syntax = input.syntax();
    if !syntax.pedantic {
        return Ok(());
    }
    if is_after_line_break(input)? && is_sign(input, Sign::Arrow) {
        let span = Span::new(start, input.last_pos());
        return Err(input.syntax_error(span, SyntaxError::LineBreakBeforeArrow));
    }
    Ok(())
}

/// The beginning of an arrow function from `start` on, in bytes, with one parameter. Refused only when out of memory.
fn one_param<I: Tokens, B: Bodies<I>>(
    p: &Productions<I, B>,
    start: BytePos,
    is_async: bool,
    param: PatId,
) -> PResult<Beginning>
    ensures { OneParam start is_async param (last_position p.now.input) result }
{
    let mut params = Vec::new(p.alloc);
    p.add(&mut params, param)?;
    Ok(Beginning::Arrow(ArrowHead {
        start,
        is_async,
        in_parens: false,
        params,
    }))
}

/// `async` as an identifier, before `of` in the head of a `for`.
fn async_of<I: Tokens, B: Bodies<I>>(p: &mut Productions<I, B>, name: Ident) -> PResult<Beginning>
    ensures leaves { Leaves I.model B.is_faithful beginning_of (async_of B.forms (ident_spelling name))
        (beginning_behind B.forms) (count p.old.nodes) p.old result p.new }
    ensures base { IfOk result (λ b. IsBase I.model B.is_faithful (of_base (ident_spelling name)) p.new.nodes b
        p.old.input p.new.input) }
{
    check_async_of(&mut p.input, name.span)?;
    let node = p.nodes.ident_expr(name);
    let base = p.made(node)?;
    Ok(Beginning::Base(base))
}

/// Records `async` before `of`, but in the head of a `for await`.
fn check_async_of<I: Tokens>(input: &mut Buffer<I>, at: Span) -> PResult<()>
    ensures checks { Checked I.model (context I.model input.old).expr_ctx.for_await_loop_init
        input.old result input.new }
    ensures falls { OnOk result (to_come I.model input.new ≤ to_come I.model input.old) }
{
    let ctx = input.get_ctx();
    if ctx.expr_ctx.for_await_loop_init {
        return Ok(());
    }
    input.emit_err(at, SyntaxError::TS1106)
}

/// Records, for modules, a parameter of strict code that is `eval` or `arguments`.
fn check_arrow_name<I: Tokens>(input: &mut Buffer<I>, name: &Ident) -> PResult<()>
    ensures checks { Checked I.model (name_ok (context I.model input.old) (ident_spelling name.now))
        input.old result input.new }
    ensures falls { OnOk result (to_come I.model input.new ≤ to_come I.model input.old) }
{
    let ctx = input.get_ctx();
    if !ctx.strict {
        return Ok(());
    }
    if !name.sym.is_reserved_in_strict_bind() {
        return Ok(());
    }
    input.emit_strict_mode_err(name.span, SyntaxError::EvalAndArgumentsInStrict)
}

/// Whether the word `of` is current, in the head of a `for`, and no `=>` after it. Consumes nothing, and is refused
/// only when out of memory.
fn is_of_alone<I: Tokens>(input: &mut Buffer<I>) -> PResult<bool>
    ensures tells { ContinuesAlone I.model (λ b. b) of_alone input.old result input.new }
    ensures falls { OnOk result (to_come I.model input.new ≤ to_come I.model input.old) }
{
    let ctx = input.get_ctx();
    if !ctx.expr_ctx.for_loop_init {
        return Ok(false);
    }
    look(input)?;
    if !is_of(input) {
        return Ok(false);
    }
    is_no_arrow_next(input)
}

/// Whether the word `of` is current.
fn is_of<I: Tokens>(input: &Buffer<I>) -> bool
    ensures value { result ≡ at_token is_of (seen input.now) }
    ensures some { result ≡ true → IsSome (current input.now) }
{
    match input.cur_debug() {
        Some(Token::Word(Word::Ident(name))) => name.as_str() == "of",
        _ => false,
    }
}

/// Whether no `=>` is after the current token. Refused only when out of memory.
fn is_no_arrow_next<I: Tokens>(input: &mut Buffer<I>) -> PResult<bool>
    requires { IsSome (current input.old) }
    ensures tells { Tells I.model (λ ts. not (at_token is_arrow (second ts))) input.old result input.new }
    ensures current { current input.new ≡ current input.old }
    ensures falls { to_come I.model input.new ≤ to_come I.model input.old }
{
    match peek_arrow(input) {
        Some(is_arrow) => Ok(!is_arrow),
        None => {
            if input.failed() {
                return Err(input.out_of_memory());
            }
            Ok(true)
        }
    }
}

/// Whether the token after the current one is `=>`; nothing where there is none.
fn peek_arrow<I: Tokens>(input: &mut Buffer<I>) -> Option<bool>
    requires { IsSome (current input.old) }
    ensures peeked { Peeked I.model input.old input.new }
    ensures value { MatchOption (peeked input.new) (result ≡ None) (λ t. result ≡ Some (is_arrow t.token)) }
{
    match input.peek() {
        Some(token) => Some(matches!(token, Token::Arrow)),
        None => None,
    }
}
