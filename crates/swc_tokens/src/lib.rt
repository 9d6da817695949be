//! The reader of ECMAScript source text (ECMA-262, 12), in ASCII.
//!
//! Read are blanks and comments, words without escapes, numbers without separators, strings without
//! escapes by number and without continued lines, templates, regular expressions, signs and
//! operators. The other forms are faults; in templates an escape by number, and a continued line,
//! is one of its text alone.
#![tactic(auto)]

ghost use Rattle.std.specs.Prelude.{◌≡◌, ◌+◌, ◌<◌, ◌≤◌, ◌^◌, ◌∷◌, [], ◌++◌, length, IsFalse, IfOk, OnOk, IfErr, IfSome, IsNone, slice_get, nat_lt};
ghost use Rattle.std.specs.{List.All, List.position, Str.IsAscii};
ghost use Rattle.swc_tokens.specs.{Faults.IsRefusal, Found.all_made, Blanks.MarksLineBreaks, Blanks.OnlyBlanksBetween, Nesting.AreNested, Order.InOrder, Order.is_error, Spelling.Spells};
ghost use Rattle.swc_tokens.specs.Moved.{moved_error, AreTokensAt, AreTokensOf, IsRefusalAt};
ghost use Rattle.swc_tokens.specs.Faults as faults;

mod fault;
mod found;
pub mod input;
mod making;
mod moving;
mod profile;
mod reader;
mod sign;
mod template;

use crate::fault::{lex_fault, out_of_memory};
use crate::found::Found;
use crate::making::Source;
use crate::moving::{move_tokens, moved_fault};
use crate::reader::Reader;
use crate::template::Templates;
use std::alloc::{AllocError, Global};
use std::str;
use swc_context::error::PResult;
use swc_context::span::BytePos;
use swc_input::token::TokenAndSpan;

/// The length of the longest text that can be read, in bytes.
pub const MAX_LEN: usize = 4_294_967_295;

/// The tokens of a text (ECMA-262, 12).
///
/// Read are blanks and comments (12.2 to 12.4), which are no tokens, words without escapes (12.7),
/// signs and operators (12.8), numbers (12.9.3), strings (12.9.4), regular expressions (12.9.5) and
/// templates (12.9.6). A token is marked as after a line break where one is between it and the
/// token before it, also one within a comment.
///
/// A template is a `BackQuote`, a `Template` and either a `BackQuote` or a `DollarLBrace`; after
/// this come tokens up to the `RBrace` that closes it, and then a `Template` again. The text of a
/// `Template` may be empty, as no other token may. Its `raw` is as it is written, an LF included,
/// and its `cooked` is what it means, or `Lex` at the backslash of its first escape that isn't read:
/// the rest of the text is read all the same.
///
/// A slash begins a regular expression, which is one token with its flags, unless an operand may end
/// with the token before it: a word that is no keyword, `this`, `super`, a number, a string, a
/// regular expression, `)`, `]`, `}`, `++`, `--` or the backquote that closes a template. It then
/// divides.
///
/// Positions count bytes from 0. A text longer than `MAX_LEN` is refused at 0..0, and then one with
/// a byte above 127 at the first such byte, before all else. Out of memory is refused at 0..0. Any
/// other fault is `Lex`, and the first one in the text refuses it:
///
/// - at a byte with which no token begins, as a backslash;
/// - at the letter of an exponent, or of a base, without a digit after it;
/// - at a letter, a digit, a `$` or a `_` right after a number, and so at a digit after a leading
///   0;
/// - at a line break in a string or in a regular expression, and at a CR in the text of a template;
/// - at the backslash of an escape by number (a digit, `x` or `u` after it) or of a line that is
///   continued (CR or LF after it), in a string;
/// - at the end of the text, with an empty span, where a string, a regular expression, a template or
///   a `/*` comment is open.
pub fn read_tokens(alloc: Global, text: &[u8]) -> PResult<Vec<TokenAndSpan>>
    ensures too_long { MAX_LEN < length text.now → result ≡ Err (faults.lex_fault (faults.between 0 0)) }
    ensures beyond_ascii { length text.now ≤ MAX_LEN
        → IfSome (position (λ byte. nat_lt 127 byte) text.now) (λ at. result
        ≡ Err (faults.lex_fault (faults.between at (at + 1)))) }
    ensures refused { length text.now ≤ MAX_LEN → IfErr result (IsRefusal text.now) }

    ensures ascii { OnOk result (All (λ byte. byte < 128) text.now) }
    ensures spans { IfOk result (λ tokens. InOrder 0 tokens.items (length text.now)) }
    ensures blanks { IfOk result (λ tokens. OnlyBlanksBetween text.now 0 tokens.items (length text.now)) }
    ensures marks { IfOk result (λ tokens. MarksLineBreaks text.now tokens.items) }
    ensures first { IfOk result (λ tokens. IfSome (slice_get tokens.items 0) (λ t. IsFalse t.had_line_break)) }
    ensures no_errors { IfOk result (λ tokens. All (λ t. IsFalse (is_error t.token)) tokens.items) }
    ensures nested { IfOk result (λ tokens. AreNested tokens.items) }
    ensures spells { IfOk result
        (λ tokens. All (λ t. Spells text.now t.span.lo.0 t.span.hi.0 t.token) tokens.items) }
{
    let found = find_tokens(alloc, text)?;
    make_tokens(alloc, ascii_text(text), &found)
}

/// The tokens of a part of a text, as `read_tokens` reads it by itself (ECMA-262, 12), with their places
/// in the whole text, where the part begins at `start`.
///
/// Each position is that of `read_tokens` and `start` more: those of the tokens, those of a fault that a
/// `Template` has as its `cooked`, and those of a refusal. So out of memory is refused at start..start.
/// A part that would end after position `MAX_LEN` is refused as one that is too long, by `Lex` at
/// start..start, before all else: no position is above `MAX_LEN`.
pub fn read_tokens_at(alloc: Global, text: &[u8], start: BytePos) -> PResult<Vec<TokenAndSpan>>
    ensures too_long { MAX_LEN < start.0 + length text.now
        → result ≡ Err (faults.lex_fault (faults.between start.0 start.0)) }
    ensures beyond_ascii { start.0 + length text.now ≤ MAX_LEN
        → IfSome (position (λ byte. nat_lt 127 byte) text.now) (λ at. result
        ≡ Err (moved_error start.0 (faults.lex_fault (faults.between at (at + 1))))) }
    ensures refused { start.0 + length text.now ≤ MAX_LEN → IfErr result (IsRefusalAt start.0 text.now) }
    ensures tokens { IfOk result (λ tokens. AreTokensAt start.0 text.now tokens.items) }
    ensures spans { IfOk result (λ tokens. InOrder start.0 tokens.items (start.0 + length text.now)) }
{
    let at = start.0 as usize;
    if text.len() > MAX_LEN - at {
        return Err(lex_fault(at, at));
    }
    match read_tokens(alloc, text) {
        Ok(mut tokens) => {
            move_tokens(&mut tokens, start.0);
            Ok(tokens)
        }
        Err(fault) => Err(moved_fault(&fault, start.0)),
    }
}

/// Where the first byte above 127 is. Most texts have none, which a look at several bytes at once tells.
#[tactic(auto, using(crate::proofs::Ascii::none_beyond))]
fn first_beyond_ascii(text: &[u8]) -> Option<usize>
    ensures value { result ≡ position (λ byte. nat_lt 127 byte) text.now }
    ensures inside { IfSome result (λ at. at < length text.now) }
    ensures ascii { IsNone result → IsAscii text.now }
{
    if text.is_ascii() {
        return None;
    }
    text.iter().position(|byte| *byte > 127)
}

/// Finds the tokens that `read_tokens` reads, and refuses what it refuses.
fn find_tokens(alloc: Global, text: &[u8]) -> PResult<Vec<Found>>
    ensures too_long { MAX_LEN < length text.now → result ≡ Err (faults.lex_fault (faults.between 0 0)) }
    ensures beyond_ascii { length text.now ≤ MAX_LEN
        → IfSome (position (λ byte. nat_lt 127 byte) text.now) (λ at. result
        ≡ Err (faults.lex_fault (faults.between at (at + 1)))) }
    ensures refused { length text.now ≤ MAX_LEN → IfErr result (IsRefusal text.now) }
    ensures short { OnOk result (length text.now ≤ MAX_LEN) }
    ensures ascii { OnOk result (All (λ byte. byte < 128) text.now) }
    ensures tokens { IfOk result (λ found. AreTokensOf text.now (all_made text.now found.items)) }
{
    if text.len() > MAX_LEN {
        return Err(lex_fault(0, 0));
    }
    match first_beyond_ascii(text) {
        Some(at) => Err(lex_fault(at, at + 1)),
        None => find_all(alloc, text),
    }
}

/// The text that ASCII bytes are.
fn ascii_text(bytes: &[u8]) -> &str
    requires { IsAscii bytes.now }
    ensures { result.now ≡ bytes.now }
{
    str::from_utf8(bytes).unwrap()
}

/// Finds the tokens of an ASCII text that isn't too long.
fn find_all(alloc: Global, text: &[u8]) -> PResult<Vec<Found>>
    requires short { length text.now ≤ MAX_LEN }
    requires ascii { IsAscii text.now }
    ensures refused { IfErr result (IsRefusal text.now) }
    ensures tokens { IfOk result (λ found. AreTokensOf text.now (all_made text.now found.items)) }
{
    let mut reader = Reader::new(text);
    let mut templates = Templates::new(alloc);
    let mut tokens = Vec::new(alloc);
    while let Some(found) = reader.read_next(templates.next, tokens.last())? {
        templates.pass(found.shape.part())?;
        push(&mut tokens, found)?;
    }
    if templates.is_open() {
        return Err(reader.fault());
    }
    Ok(tokens)
}

/// Adds a token.
fn push<T: Drop>(tokens: &mut Vec<T>, token: T) -> PResult<()>
    ensures added { OnOk result (tokens.new.items ≡ tokens.old.items ++ token ∷ []) }
    ensures refused { IfErr result (λ e. e ≡ faults.out_of_memory) }
{
    match tokens.push(token) {
        Ok(()) => Ok(()),
        Err(_) => Err(out_of_memory()),
    }
}

/// Makes the tokens that were found in an ASCII text that isn't too long.
fn make_tokens(alloc: Global, text: &str, found: &[Found]) -> PResult<Vec<TokenAndSpan>>
    requires short { length text.now < 2 ^ 32 }
    requires ascii { IsAscii text.now }
    ensures tokens { IfOk result (λ tokens. tokens.items ≡ all_made text.now found.now) }
    ensures refused { IfErr result (λ e. e ≡ faults.out_of_memory) }
{
    let source = Source::new(alloc, text);
    let mut tokens = Vec::new(alloc);
    for place in found {
        match source.make(*place) {
            Ok(token) => push(&mut tokens, token)?,
            Err(AllocError) => return Err(out_of_memory()),
        }
    }
    Ok(tokens)
}
