// Expressions (ECMA-262, 13).
ghost use Rattle.std.specs.Prelude.{◌≡◌, ◌<◌, ◌≤◌, true, not, ◌&&◌, None, Some, OnOk, IsSome, Bool};
ghost use Rattle.swc_input.specs.{Buffer.current, Buffer.to_come, Plain.plain_token, Kinds.at_token, Recording.is_some};
ghost use Rattle.swc_grammar.specs.Tokens.{begins_regex, is_slash, is_regex};
ghost use Rattle.swc_grammar.specs.{Parts.is_flag, Parts.flags_ok, Words.rest};
ghost use Rattle.swc_nodes.specs.GrowingNodes.{count};
ghost use Rattle.swc_input.specs.Calls.{Checked};
ghost use Rattle.swc_steps.specs.Parsing.{seen, ParsesAlone, Produces, itself, tree_of, Heard};
ghost use Rattle.swc_steps.specs.Regexes.{regex_expr, regex_in, regex_alone, regex_text};
ghost use Rattle.swc_context.specs.declared.span.Span.{Span};
ghost use Rattle.swc_grammar.specs.Parts as parts;
ghost use Rattle.swc_steps.specs.Regexes as regexes;

use crate::productions::Productions;
use crate::tokens::{end_hint, look, skip_slash};
use swc_ast::lit::{Lit, Regex};
use swc_bodies::bodies::Bodies;
use swc_context::error::{PResult, SyntaxError};
use swc_context::operator::{AssignOp, BinOpToken};
use swc_context::span::{BytePos, Span};
use swc_input::buffer::Buffer;
use swc_input::token::Token;
use swc_input::tokens::Tokens;
use swc_nodes::node::ExprId;

/// A regular expression (ECMA-262, 13.2.7), at the slash with which it begins, or at a whole one. Where a slash is
/// current, a lexer is told that a regular expression begins there. Flags that no regular expression has are
/// recorded, and one that comes twice.
pub fn parse_regex<I: Tokens, B: Bodies<I>>(p: &mut Productions<I, B>) -> PResult<ExprId>
    requires { at_token begins_regex (seen p.old.input) ≡ true }
    ensures { Produces I.model B.is_faithful itself tree_of regex_expr
        (count p.old.nodes) p.old result p.new }
{
    let regex = parse_regex_text(&mut p.input)?;
    check_flags(&mut p.input, &regex)?;
    let node = p.nodes.lit(Lit::Regex(regex));
    p.made(node)
}

/// Whether `/` or `/=` is current.
fn is_slash<I: Tokens>(input: &Buffer<I>) -> bool
    ensures value { result ≡ at_token is_slash (seen input.now) }
    ensures some { result ≡ true → IsSome (current input.now) }
{
    matches!(
        input.cur_debug(),
        Some(Token::BinOp(BinOpToken::Div) | Token::AssignOp(AssignOp::DivAssign))
    )
}

/// Whether a whole regular expression is current.
fn is_regex<I: Tokens>(input: &Buffer<I>) -> bool
    ensures value { result ≡ at_token is_regex (seen input.now) }
    ensures some { result ≡ true → IsSome (current input.now) }
{
    matches!(input.cur_debug(), Some(Token::Regex(..)))
}

/// A regular expression, whatever its flags: from the slash that is current, or a whole one.
fn parse_regex_text<I: Tokens>(input: &mut Buffer<I>) -> PResult<Regex>
    requires { at_token begins_regex (seen input.old) ≡ true }
    ensures parses { ParsesAlone I.model (λ r. r) regex_text input.old result input.new }
    ensures falls { OnOk result (to_come I.model input.new < to_come I.model input.old) }
{
    if is_slash(input) {
        return parse_slash_regex(input);
    }
    Ok(bump_regex(input))
}

/// A regular expression from the slash that is current: a lexer is told that one begins there, and gives what is
/// after the slash, which is refused where it is none.
fn parse_slash_regex<I: Tokens>(input: &mut Buffer<I>) -> PResult<Regex>
    requires { at_token is_slash (seen input.old) ≡ true }
    ensures parses { ParsesAlone I.model (λ r. r) regex_text input.old result input.new }
    ensures falls { OnOk result (to_come I.model input.new < to_come I.model input.old) }
{
    let slash = input.cur_span();
    skip_slash(input);
    look(input)?;
    if !is_regex(input) {
        return Err(input.syntax_error(slash, SyntaxError::TS1109));
    }
    end_hint(input);
    let regex = bump_regex(input);
    Ok(from_slash(slash.lo, regex))
}

/// The regular expression, which begins at the slash.
fn from_slash(start: BytePos, regex: Regex) -> Regex
    ensures { (slash : Span) → slash.lo ≡ start → result ≡ regexes.from_slash slash regex }
{
    Regex {
        span: Span {
            lo: start,
            hi: regex.span.hi,
        },
        exp: regex.exp,
        flags: regex.flags,
    }
}

/// Consumes the regular expression that is current.
fn bump_regex<I: Tokens>(input: &mut Buffer<I>) -> Regex
    requires { at_token is_regex (seen input.old) ≡ true }
    ensures heard { (sure : Bool) → Heard I.model sure regex_alone result input.old input.new }
    ensures falls { to_come I.model input.new < to_come I.model input.old }
{
    let token = input.bump();
    let span = input.prev_span();
    regex_of(token, span)
}

/// The regular expression that a token is.
fn regex_of(token: Token, span: Span) -> Regex
    requires { is_regex token ≡ true }
    ensures { regex_in (plain_token token) span ≡ Some result }
{
    match token {
        Token::Regex(exp, flags) => Regex { span, exp, flags },
        _ => unreachable!(),
    }
}

/// Records flags that no regular expression has, and one that comes twice, at the literal.
fn check_flags<I: Tokens>(input: &mut Buffer<I>, regex: &Regex) -> PResult<()>
    ensures checks { Checked I.model (flags_ok regex.now.flags) input.old result input.new }
    ensures falls { OnOk result (to_come I.model input.new ≤ to_come I.model input.old) }
{
    let flags = regex.flags.as_str().as_bytes();
    let span = regex.span.in_order();
    check_known(input, span, flags)?;
    check_once(input, span, flags)
}

/// Records flags that no regular expression has.
fn check_known<I: Tokens>(input: &mut Buffer<I>, span: Span, flags: &[u8]) -> PResult<()>
    ensures checks { Checked I.model (not (parts.has_unknown flags.now)) input.old result input.new }
    ensures falls { OnOk result (to_come I.model input.new ≤ to_come I.model input.old) }
{
    if !has_unknown(flags) {
        return Ok(());
    }
    input.emit_err(span, SyntaxError::UnknownRegExpFlags)
}

/// Records the first flag that comes twice.
fn check_once<I: Tokens>(input: &mut Buffer<I>, span: Span, flags: &[u8]) -> PResult<()>
    ensures checks { Checked I.model (not (is_some (parts.repeated flags.now))) input.old result input.new }
    ensures falls { OnOk result (to_come I.model input.new ≤ to_come I.model input.old) }
{
    match repeated(flags) {
        None => Ok(()),
        Some(flag) => {
            let kind = SyntaxError::DuplicatedRegExpFlags(char::from(flag));
            input.emit_err(span, kind)
        }
    }
}

/// Whether a flag is none that a regular expression may have.
fn has_unknown(flags: &[u8]) -> bool
    ensures { result ≡ parts.has_unknown flags.now }
{
    flags.iter().any(|flag| !is_flag(*flag))
}

/// Whether a regular expression may have the flag.
fn is_flag(flag: u8) -> bool
    ensures { result ≡ is_flag flag }
{
    matches!(flag, b'd' | b'g' | b'i' | b'm' | b's' | b'u' | b'v' | b'y')
}

/// The first flag, in their order, that comes once more.
#[tactic(auto, using(crate::proofs::Regexes::repeated_steps))]
fn repeated(flags: &[u8]) -> Option<u8>
    ensures { result ≡ parts.repeated flags.now }
{
    let mut rest = flags;
    while let Some((flag, behind)) = rest.split_first() {
        if is_flag(*flag) && behind.contains(flag) {
            return Some(*flag);
        }
        rest = behind;
    }
    None
}
