// Words, where a name is wanted: their faults, their refusals, and their texts.
ghost use Rattle.std.specs.Prelude.{◌≡◌, ◌≢◌, true, ◌&&◌, [], ◌∷◌, MatchResult, codes};
ghost use Rattle.swc_context.specs.{Texts.is_text, Words.word_text, declared.error.SyntaxError.TheVariants.InvalidIdentInStrict, declared.error.SyntaxError.TheVariants.OutOfMemory};
ghost use Rattle.swc_input.specs.Buffer.{current, previous, last_position, Bumped, context};
ghost use Rattle.swc_input.specs.{declared.token.Token.Token as token, Recording.no_memory, Kinds.at_token, Kinds.is_hash};
ghost use Rattle.swc_ident.specs.Naming.{Spoken, Unnamed};
ghost use Rattle.swc_ident.specs.Steps.{faults_of, word_faults, Noting};
ghost use Rattle.swc_ident.specs.Verdicts.{now, in_modules, name_verdict, await_refusal, ident_verdict, binding_faults, name_of_any, is_word, is_str};

use std::alloc::Global;
use swc_ast::lit::Str;
use swc_context::atom::Atom;
use swc_context::context::Context;
use swc_context::error::{PResult, SyntaxError};
use swc_context::span::Span;
use swc_context::word::{Keyword, Word};
use swc_input::buffer::Buffer;
use swc_input::token::Token;
use swc_input::tokens::Tokens;

/// What is wrong with a word that is taken as an identifier.
#[derive(Clone, Copy)]
pub(crate) enum Mark {
    /// Nothing.
    Clean,
    /// It is reserved in all code.
    Reserved,
    /// It is reserved in strict code.
    Strict,
    /// It is `arguments` in a class field.
    Arguments,
}

/// What is wrong with the word as an identifier.
pub(crate) fn mark_of(ctx: Context, word: &Word) -> Mark
    ensures { faults_of result (word_text word.now) ≡ word_faults ctx word.now }
{
    match word {
        Word::Ident(name) => mark_of_name(ctx, name),
        Word::Keyword(Keyword::Let | Keyword::Yield) => Mark::Strict,
        _ => Mark::Clean,
    }
}

/// What is wrong with a word that is no keyword.
fn mark_of_name(ctx: Context, name: &Atom) -> Mark
    ensures { faults_of result name.now ≡ (name_verdict ctx name.now).faults }
{
    if name.is_word("enum") {
        return Mark::Reserved;
    }
    if name.is_strict_name() {
        return Mark::Strict;
    }
    if ctx.in_class_field && name.as_str() == "arguments" {
        return Mark::Arguments;
    }
    Mark::Clean
}

/// Why the word is no identifier, if it isn't.
pub(crate) fn refusal_of(
    ctx: Context,
    word: &Word,
    incl_yield: bool,
    incl_await: bool,
) -> Option<SyntaxError>
    ensures { result ≡ (ident_verdict incl_yield incl_await ctx word.now).refusal }
{
    match word {
        Word::Ident(_) | Word::Keyword(Keyword::Let) => None,
        Word::Keyword(Keyword::Yield) if incl_yield => None,
        Word::Keyword(Keyword::Await) => refusal_of_await(ctx, incl_await),
        _ => Some(SyntaxError::ExpectedIdent),
    }
}

/// Why `await` is no identifier, if it isn't.
fn refusal_of_await(ctx: Context, included: bool) -> Option<SyntaxError>
    ensures { result ≡ await_refusal ctx included }
{
    if ctx.in_static_block {
        return Some(SyntaxError::ExpectedIdent);
    }
    if ctx.module || ctx.in_async {
        return Some(SyntaxError::InvalidIdentInAsync);
    }
    if included {
        None
    } else {
        Some(SyntaxError::ExpectedIdent)
    }
}

/// Notes what is wrong with the word at the place.
pub(crate) fn note_mark<I: Tokens>(
    alloc: Global,
    input: &mut Buffer<I>,
    at: Span,
    mark: Mark,
    word: &Word,
) -> PResult<()>
    ensures { Noting I.model at (faults_of mark (word_text word.now)) input.old result input.new }
{
    match mark {
        Mark::Clean => Ok(()),
        Mark::Reserved => {
            let kind = invalid_in_strict(alloc, input, word)?;
            note_now(input, at, kind)
        }
        Mark::Strict => {
            let kind = invalid_in_strict(alloc, input, word)?;
            note_in_modules(input, at, kind)
        }
        Mark::Arguments => note_now(input, at, SyntaxError::ArgumentsInClassField),
    }
}

/// Notes at the place what is wrong with a name that is bound.
pub(crate) fn note_binding<I: Tokens>(input: &mut Buffer<I>, at: Span, name: &Atom) -> PResult<()>
    ensures { Noting I.model at (binding_faults (context I.model input.old) name.now) input.old result input.new }
{
    if name.is_reserved_in_strict_bind() {
        return note_in_modules(input, at, SyntaxError::EvalAndArgumentsInStrict);
    }
    if is_yield_of_generator(input.get_ctx(), name) {
        return note_now(input, at, SyntaxError::ExpectedIdent);
    }
    Ok(())
}

/// Whether the name is `yield`, in a generator.
fn is_yield_of_generator(ctx: Context, name: &Atom) -> bool
    ensures { result ≡ (ctx.in_generator && is_text name.now (codes "yield")) }
{
    ctx.in_generator && name.as_str() == "yield"
}

/// The kind of a strict word as an identifier, with the word.
fn invalid_in_strict<I: Tokens>(
    alloc: Global,
    input: &Buffer<I>,
    word: &Word,
) -> PResult<SyntaxError>
    ensures { MatchResult result (λ k. k ≡ InvalidIdentInStrict (word_text word.now))
        (λ e. e ≡ no_memory (last_position input.now)) }
{
    match Atom::new(alloc, word.as_str()) {
        Ok(name) => Ok(SyntaxError::InvalidIdentInStrict(name)),
        Err(_) => Err(input.out_of_memory()),
    }
}

/// Records a fault at once.
fn note_now<I: Tokens>(input: &mut Buffer<I>, at: Span, kind: SyntaxError) -> PResult<()>
    requires { kind ≢ OutOfMemory }
    ensures { Noting I.model at (now kind ∷ []) input.old result input.new }
{
    input.emit_err(at, kind)
}

/// Records a fault in a module; elsewhere it waits.
fn note_in_modules<I: Tokens>(input: &mut Buffer<I>, at: Span, kind: SyntaxError) -> PResult<()>
    requires { kind ≢ OutOfMemory }
    ensures { Noting I.model at (in_modules kind ∷ []) input.old result input.new }
{
    input.emit_strict_mode_err(at, kind)
}

/// Reads a word, whichever it is.
pub(crate) fn take_word<I: Tokens>(input: &mut Buffer<I>) -> PResult<Word>
    ensures { MatchResult result (λ w. Spoken I.model input.old w (previous input.new) input.new)
        (λ e. Unnamed I.model name_of_any input.old e input.new) }
{
    input.require_cur()?;
    if is_at_word(input) {
        return Ok(input.bump_word());
    }
    let at = input.cur_span();
    Err(input.syntax_error(at, SyntaxError::ExpectedIdent))
}

/// Consumes the current `#`.
pub(crate) fn bump_hash<I: Tokens>(input: &mut Buffer<I>)
    requires { at_token is_hash (current input.old) ≡ true }
    ensures { Bumped I.model input.old token.Hash input.new }
{
    match input.bump() {
        Token::Hash => {}
        _ => unreachable!(),
    }
}

/// Consumes the current string.
pub(crate) fn bump_str<I: Tokens>(input: &mut Buffer<I>) -> Str
    requires { at_token is_str (current input.old) ≡ true }
    ensures took { Bumped I.model input.old (token.Str result.value result.raw) input.new }
    ensures place { result.span ≡ previous input.new }
{
    match input.bump() {
        Token::Str { value, raw } => Str {
            span: input.prev_span(),
            value,
            raw,
        },
        _ => unreachable!(),
    }
}

/// The text of a word.
pub(crate) fn text_of<I: Tokens>(alloc: Global, input: &Buffer<I>, word: Word) -> PResult<Atom>
    ensures { MatchResult result (λ text. text ≡ word_text word) (λ e. e ≡ no_memory (last_position input.now)) }
{
    match word {
        Word::Ident(name) => Ok(name),
        word => match Atom::new(alloc, word.as_str()) {
            Ok(name) => Ok(name),
            Err(_) => Err(input.out_of_memory()),
        },
    }
}

/// Drops a word. It is a function of its own, so that callers' proofs don't have a case for each kind of word.
pub(crate) fn let_go(_word: Word) {}

pub(crate) fn is_at_word<I: Tokens>(input: &Buffer<I>) -> bool
    ensures { result ≡ at_token is_word (current input.now) }
{
    matches!(input.cur_debug(), Some(Token::Word(_)))
}

pub(crate) fn is_at_hash<I: Tokens>(input: &Buffer<I>) -> bool
    ensures { result ≡ at_token is_hash (current input.now) }
{
    matches!(input.cur_debug(), Some(Token::Hash))
}

pub(crate) fn is_at_str<I: Tokens>(input: &Buffer<I>) -> bool
    ensures { result ≡ at_token is_str (current input.now) }
{
    matches!(input.cur_debug(), Some(Token::Str { .. }))
}
