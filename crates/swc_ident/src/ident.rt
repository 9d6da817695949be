// Names (ECMA-262, 12.7, 13.1 and 16.2).
ghost use Rattle.std.specs.Prelude.{◌≡◌, MatchResult};
ghost use Rattle.swc_input.specs.Buffer.{current, context, ReadSome};
ghost use Rattle.swc_input.specs.Kinds.{at_token};
ghost use Rattle.swc_ident.specs.Naming.{Identifies, Binds, Spells, SpellsPrivate, SpellsEither, Exports, BindsIfBindable, Hashed, Unprivate};
ghost use Rattle.swc_ident.specs.Verdicts.{ident_verdict, reference_verdict, binding_verdict, name_of_any, is_bindable};

use crate::words::{
    bump_hash, bump_str, is_at_hash, is_at_str, is_at_word, let_go, mark_of, note_binding,
    note_mark, refusal_of, take_word, text_of,
};
use either::Either;
use std::alloc::Global;
use swc_ast::ident::{BindingIdent, Ident, IdentName, ModuleExportName, PrivateName};
use swc_context::error::{PResult, SyntaxError, Wanted};
use swc_context::span::Span;
use swc_input::buffer::Buffer;
use swc_input::token::Token;
use swc_input::tokens::Tokens;

/// A private name where a `#` is current, and else a name of any word (ECMA-262, 12.7).
///
/// `Left` holds what `parse_private_name` reads, and `Right` what `parse_ident_name` does; each is
/// refused as it is by that call.
pub fn parse_maybe_private_name<I: Tokens>(
    alloc: Global,
    input: &mut Buffer<I>,
) -> PResult<Either<PrivateName, IdentName>>
    ensures either { SpellsEither I.model input.old result input.new }
    ensures read { ReadSome I.model input.old input.new }
{
    input.has_cur()?;
    if is_at_hash(input) {
        let name = parse_private_name(alloc, input)?;
        return Ok(Either::Left(name));
    }
    let name = parse_ident_name(alloc, input)?;
    Ok(Either::Right(name))
}

/// A private name: a `#`, and a word that begins where the `#` ends (PrivateIdentifier; ECMA-262, 12.7).
///
/// The answer's text is without the `#`, and its place is from the `#` to the word's end. Refused are, beside what
/// `parse_ident_name` refuses after the `#`:
///
/// - another token than `#`: `Expected`, which holds `#`, at that token; at the end `Eof`;
/// - what begins later than where the `#` ends: `SpaceBetweenHashAndIdent`, at the `#`, which was consumed.
pub fn parse_private_name<I: Tokens>(alloc: Global, input: &mut Buffer<I>) -> PResult<PrivateName>
    ensures private { SpellsPrivate I.model input.old result input.new }
    ensures read { ReadSome I.model input.old input.new }
{
    let hash = parse_hash(input)?;
    input.has_cur()?;
    if input.cur_pos().0 != hash.hi.0 {
        let at = Span::new(hash.lo, hash.hi);
        return Err(input.syntax_error(at, SyntaxError::SpaceBetweenHashAndIdent));
    }
    let name = parse_ident_name(alloc, input)?;
    Ok(PrivateName {
        span: Span {
            lo: hash.lo,
            hi: name.span.hi,
        },
        name: name.sym,
    })
}

/// A `#`, of which the place is answered. Another token is refused as by `parse_private_name`.
fn parse_hash<I: Tokens>(input: &mut Buffer<I>) -> PResult<Span>
    ensures { MatchResult result (λ at. Hashed I.model input.old at input.new)
        (λ e. Unprivate I.model input.old e input.new) }
{
    input.has_cur()?;
    if !is_at_hash(input) {
        return Err(input.unexpected(SyntaxError::Expected(Wanted::Hash)));
    }
    bump_hash(input);
    Ok(input.prev_span())
}

/// An identifier that stands for a value (IdentifierReference; ECMA-262, 13.1).
///
/// As `parse_ident`, where `yield` is included outside generators, and `await` outside async code.
pub fn parse_ident_ref<I: Tokens>(alloc: Global, input: &mut Buffer<I>) -> PResult<Ident>
    ensures names { Identifies I.model reference_verdict input.old result input.new }
    ensures read { ReadSome I.model input.old input.new }
{
    let ctx = input.get_ctx();
    parse_ident(alloc, input, !ctx.in_generator, !ctx.in_async)
}

/// An identifier that is a label (LabelIdentifier; ECMA-262, 13.1).
///
/// As `parse_ident`, where `yield` is included outside generators, and `await` outside async code.
pub fn parse_label_ident<I: Tokens>(alloc: Global, input: &mut Buffer<I>) -> PResult<Ident>
    ensures names { Identifies I.model reference_verdict input.old result input.new }
    ensures read { ReadSome I.model input.old input.new }
{
    parse_ident_ref(alloc, input)
}

/// A name that may be any word, as after a dot (IdentifierName; ECMA-262, 12.7).
///
/// The answer holds the word's text and place. Records no fault. Refused are a token that is no
/// word, as `ExpectedIdent` at that token, and the end, as `Eof`.
pub fn parse_ident_name<I: Tokens>(alloc: Global, input: &mut Buffer<I>) -> PResult<IdentName>
    ensures names { Spells I.model name_of_any input.old result input.new }
    ensures read { ReadSome I.model input.old input.new }
{
    let word = take_word(input)?;
    let span = input.prev_span();
    let sym = text_of(alloc, input, word)?;
    Ok(IdentName { span, sym })
}

/// A name under which a module exports something: a string, or any word (ModuleExportName; ECMA-262, 16.2).
///
/// The answer holds the string's value and how it is written, or the word's text, and its place.
/// Records no fault. Refused is another token, as `Unexpected`, which holds `identifier or string`,
/// at that token; the end as `Eof`.
pub fn parse_module_export_name<I: Tokens>(
    alloc: Global,
    input: &mut Buffer<I>,
) -> PResult<ModuleExportName>
    ensures export { Exports I.model input.old result input.new }
    ensures read { ReadSome I.model input.old input.new }
{
    input.has_cur()?;
    if is_at_str(input) {
        return Ok(ModuleExportName::Str(bump_str(input)));
    }
    if is_at_word(input) {
        let name = parse_ident_name(alloc, input)?;
        return Ok(ModuleExportName::Ident(Ident {
            span: name.span,
            sym: name.sym,
        }));
    }
    Err(input.unexpected(SyntaxError::Unexpected(Wanted::IdentOrStr)))
}

/// An identifier (Identifier; ECMA-262, 12.7 and 13.1.1). `incl_yield` and `incl_await` say whether `yield` and `await`
/// are included: may be identifiers.
///
/// The answer holds the word's text and place. A word is taken with a fault, which is recorded at the word as by
/// `Buffer::emit_err`, where it is
///
/// - `enum`: `InvalidIdentInStrict`, which holds the word;
/// - `arguments` in a class field: `ArgumentsInClassField`.
///
/// `let`, `yield`, `static`, `implements`, `interface`, `package`, `private`, `protected` and `public` have the fault
/// `InvalidIdentInStrict`, which holds the word, at the word. It is one in modules, and waits elsewhere, as by
/// `Buffer::emit_strict_mode_err`.
///
/// Refused are a token that is no word, as `ExpectedIdent` at that token, and the end, as `Eof`.
/// These words are refused at the word, which was consumed, and after their faults:
///
/// - `await` in a static block: `ExpectedIdent`;
/// - else `await` in a module or in async code: `InvalidIdentInAsync`;
/// - `yield` or `await` where it isn't included, and every other keyword, `null`, `true` and `false`: `ExpectedIdent`.
pub fn parse_ident<I: Tokens>(
    alloc: Global,
    input: &mut Buffer<I>,
    incl_yield: bool,
    incl_await: bool,
) -> PResult<Ident>
    ensures names { Identifies I.model (ident_verdict incl_yield incl_await) input.old result input.new }
    ensures read { ReadSome I.model input.old input.new }
{
    let ctx = input.get_ctx();
    let word = take_word(input)?;
    let span = input.prev_span();
    let mark = mark_of(ctx, &word);
    if let Err(error) = note_mark(alloc, input, span, mark, &word) {
        let_go(word);
        return Err(error);
    }
    if let Some(kind) = refusal_of(ctx, &word, incl_yield, incl_await) {
        let_go(word);
        return Err(input.syntax_error(span, kind));
    }
    let sym = text_of(alloc, input, word)?;
    Ok(Ident { span, sym })
}

/// An identifier that is bound (BindingIdentifier; ECMA-262, 13.1).
///
/// As `parse_ident`, where `yield` and `await` are included. A word that is taken has a further
/// fault at the word, where it is
///
/// - `eval` or `arguments`: `EvalAndArgumentsInStrict`, which is one in modules, and waits elsewhere;
/// - `yield` in a generator: `ExpectedIdent`, which is recorded as by `Buffer::emit_err`.
pub fn parse_binding_ident<I: Tokens>(alloc: Global, input: &mut Buffer<I>) -> PResult<BindingIdent>
    ensures names { Binds I.model binding_verdict input.old result input.new }
    ensures read { ReadSome I.model input.old input.new }
{
    let id = parse_ident(alloc, input, true, true)?;
    note_binding(input, id.span, &id.sym)?;
    Ok(BindingIdent { id })
}

/// A word that is bound, if one is current that `Context::is_reserved` doesn't reserve (ECMA-262, 13.1).
///
/// Such a word is read as by `parse_binding_ident`. Before any other token, an error token too, and
/// at the end the answer is `None`, and nothing is consumed: there only out of memory is refused.
pub fn parse_opt_binding_ident<I: Tokens>(
    alloc: Global,
    input: &mut Buffer<I>,
) -> PResult<Option<BindingIdent>>
    ensures optional { BindsIfBindable I.model input.old result input.new }
    ensures read { ReadSome I.model input.old input.new }
{
    input.has_cur()?;
    if !is_at_bindable(input) {
        return Ok(None);
    }
    let name = parse_binding_ident(alloc, input)?;
    Ok(Some(name))
}

/// Whether a word is current that may be bound where it is.
fn is_at_bindable<I: Tokens>(input: &Buffer<I>) -> bool
    ensures { result ≡ at_token (is_bindable (context I.model input.now)) (current input.now) }
{
    let ctx = input.get_ctx();
    match input.cur_debug() {
        Some(Token::Word(word)) => !ctx.is_reserved(word),
        _ => false,
    }
}
