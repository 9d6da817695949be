// The steps that productions take, on a buffer.
ghost use Rattle.std.specs.Prelude.{◌≡◌, ◌≢◌, ◌<◌, ◌≤◌, true, false, not, None, IfErr, IfOk, OnOk, IsSome, Ok, Some, MatchOption};
ghost use Rattle.swc_context.specs.declared.error.SyntaxError.TheVariants.{OutOfMemory, ParserFailed};
ghost use Rattle.swc_input.specs.Buffer.{current, peeked, last_position, state_of, to_come, Bumped, Peeked, context, Still, Lives};
ghost use Rattle.swc_input.specs.{declared.token.Token.Token, Recording.no_memory, Kinds.at_token};
ghost use Rattle.swc_bodies.specs.Readings.{at_function, is_async, is_function, is_function_here};
ghost use Rattle.swc_grammar.specs.{Words.rest};
ghost use Rattle.swc_input.specs.Calls.{recorded, Loud, Tries, Looks};
ghost use Rattle.swc_steps.specs.Parsing.{is_memory, private_spelling, seen, Moves, ParsesAlone, ContinuesAlone, Eats, Tells, begins_async, breaks_at};
ghost use Rattle.swc_steps.specs.Lists.{is_named, is_sign_token, separated, closed};
ghost use Rattle.swc_steps.specs.{Keys.expected, Args.hash_name, Regexes.SkipsSlash};

use std::alloc::Global;
use swc_ast::ident::PrivateName;
use swc_context::atom::Atom;
use swc_context::context::Context;
use swc_context::error::{Error, Note, PResult, SyntaxError, Wanted};
use swc_context::operator::{AssignOp, BinOpToken};
use swc_context::span::{BytePos, Span};
use swc_context::word::{Keyword, Word};
use swc_ident::ident;
use swc_input::buffer::Buffer;
use swc_input::token::Token;
use swc_input::tokens::Tokens;

/// Looks at the current token: whether there is one, and not the end. Refused only when out of memory.
pub fn look<I: Tokens>(input: &mut Buffer<I>) -> PResult<bool>
    ensures looks { Looks I.model input.old result input.new }
    ensures token { IfOk result (λ r. r ≡ true → IsSome (current input.new)) }
    ensures end { IfOk result
        (λ r. r ≡ false → (current input.new ≡ None) × ((state_of I.model input.new).ended ≡ true)) }
    ensures falls { to_come I.model input.new ≤ to_come I.model input.old }
{
    input.has_cur()
}

/// Where the current token begins, in bytes; at the end, where the token consumed last ends. Refused
/// only when out of memory.
pub fn cur_pos<I: Tokens>(input: &mut Buffer<I>) -> PResult<BytePos>
    ensures looks { Looks I.model input.old result input.new }
    ensures falls { to_come I.model input.new ≤ to_come I.model input.old }
{
    if look(input)? {
        Ok(input.cur_span().lo)
    } else {
        Ok(input.last_pos())
    }
}

/// Whether a line break is before the current token; true at the end. Refused only when out of memory.
pub fn is_after_line_break<I: Tokens>(input: &mut Buffer<I>) -> PResult<bool>
    ensures looks { Looks I.model input.old result input.new }
    ensures value { IfOk result (λ r. r ≡ breaks_at (seen input.new)) }
    ensures falls { to_come I.model input.new ≤ to_come I.model input.old }
{
    Ok(!look(input)? || input.had_line_break_before_cur())
}

/// Whether `async` is current, and after it, on the same line, `function`. Refused only when out of memory.
pub fn is_async_function<I: Tokens>(input: &mut Buffer<I>) -> PResult<bool>
    ensures tells { Tells I.model begins_async input.old result input.new }
    ensures begins { IfOk result (λ r. r ≡ true → at_function (current input.new) ≡ true) }
    ensures falls { to_come I.model input.new ≤ to_come I.model input.old }
{
    if !is_async(input) {
        return Ok(false);
    }
    is_function_behind(input)
}

/// Whether `async` is current.
pub fn is_async<I: Tokens>(input: &Buffer<I>) -> bool
    ensures value { result ≡ at_token is_async (seen input.now) }
    ensures begins { result ≡ true → at_function (current input.now) ≡ true }
    ensures some { result ≡ true → IsSome (current input.now) }
{
    match input.cur_debug() {
        Some(Token::Word(Word::Ident(name))) => name.is_word("async"),
        _ => false,
    }
}

/// Whether `function` is after the current token, on the same line. Refused only when out of memory.
fn is_function_behind<I: Tokens>(input: &mut Buffer<I>) -> PResult<bool>
    requires { IsSome (current input.old) }
    ensures tells { Tells I.model (λ ts. is_function_here (rest ts)) input.old result input.new }
    ensures current { current input.new ≡ current input.old }
    ensures falls { to_come I.model input.new ≤ to_come I.model input.old }
{
    match peek_function(input) {
        Some(true) => Ok(!input.has_linebreak_between_cur_and_peeked()),
        Some(false) => Ok(false),
        None => {
            if input.failed() {
                return Err(input.out_of_memory());
            }
            Ok(false)
        }
    }
}

/// Whether the token after the current one is `function`; nothing where there is none.
fn peek_function<I: Tokens>(input: &mut Buffer<I>) -> Option<bool>
    requires { IsSome (current input.old) }
    ensures peeked { Peeked I.model input.old input.new }
    ensures value { MatchOption (peeked input.new) (result ≡ None) (λ t. result ≡ Some (is_function t.token)) }
{
    match input.peek() {
        Some(token) => Some(is_function(token)),
        None => None,
    }
}

fn is_function(token: &Token) -> bool
    ensures { result ≡ is_function token.now }
{
    matches!(token, Token::Word(Word::Keyword(Keyword::Function)))
}

/// Consumes the current token and drops it.
#[inline(never)]
pub fn skip<I: Tokens>(input: &mut Buffer<I>)
    requires { IsSome (current input.old) }
    ensures took { (t : Token) × Bumped I.model input.old t input.new }
    ensures falls { to_come I.model input.new < to_come I.model input.old }
{
    input.pass();
}

/// Consumes the slash that is current, with the hint to a lexer that a regular expression begins there. What comes then
/// isn't known from before: the slash may be given once more, within the regular expression.
pub(crate) fn skip_slash<I: Tokens>(input: &mut Buffer<I>)
    requires { IsSome (current input.old) }
    ensures skips { SkipsSlash I.model input.old input.new }
    ensures falls { to_come I.model input.new ≤ to_come I.model input.old }
{
    let start = input.cur_span().lo;
    skip(input);
    input.set_next_regexp(Some(start));
}

/// Tells a lexer that no regular expression begins any more. Nothing that is seen changes.
pub(crate) fn end_hint<I: Tokens>(input: &mut Buffer<I>)
    ensures still { Still I.model input.old input.new }
    ensures current { current input.new ≡ current input.old }
    ensures lives { Lives I.model input.old input.new }
    ensures falls { to_come I.model input.new ≤ to_come I.model input.old }
{
    input.set_next_regexp(None);
}

/// Records a refusal as a fault, unless it is out of memory, which is passed on.
pub fn record_refusal<I: Tokens>(input: &mut Buffer<I>, error: Error) -> PResult<()>
    requires { error.kind ≢ ParserFailed }
    ensures tries { Tries I.model input.old result input.new }
    ensures notes { Loud I.model input.old → OnOk result (recorded I.model input.old < recorded I.model input.new) }
    ensures memory { OnOk result (error.kind ≢ OutOfMemory) }
    ensures falls { to_come I.model input.new ≤ to_come I.model input.old }
{
    if is_out_of_memory(&error) {
        return Err(error);
    }
    input.emit_error(error)
}

/// Sets a context of the same kind of text, a module or a script, which can't be refused, and answers the one from
/// before.
pub fn replace_ctx<I: Tokens>(input: &mut Buffer<I>, ctx: Context) -> Context
    requires { ctx.module ≡ (state_of I.model input.old).context.module }
    ensures before { result ≡ context I.model input.old }
    ensures moves { Moves I.model input.old input.new }
    ensures context { (state_of I.model input.new).context ≡ ctx }
    ensures current { current input.new ≡ current input.old }
    ensures state { ((state_of I.model input.new).failed ≡ (state_of I.model input.old).failed)
        × ((state_of I.model input.new).ended ≡ (state_of I.model input.old).ended) }
    ensures stays { to_come I.model input.new ≡ to_come I.model input.old }
{
    let before = input.get_ctx();
    if input.set_ctx(ctx).is_err() {
        unreachable!()
    }
    before
}

/// A private name, and where it ends, in bytes.
pub fn parse_private_name<I: Tokens>(
    alloc: Global,
    input: &mut Buffer<I>,
) -> PResult<(PrivateName, BytePos)>
    ensures parses { ParsesAlone I.model (λ p. (private_spelling p.0, p.1)) hash_name input.old result input.new }
    ensures falls { OnOk result (to_come I.model input.new < to_come I.model input.old) }
{
    let name = ident::parse_private_name(alloc, input)?;
    let end = input.last_pos();
    Ok((name, end))
}

/// What a hook answered, or, where the source has failed, out of memory in its place: so a hook needn't report that.
pub fn answered<I: Tokens, T: Drop>(input: &Buffer<I>, answer: PResult<T>) -> PResult<T>
    ensures runs { (state_of I.model input.now).failed ≡ false → result ≡ answer }
    ensures fails { (state_of I.model input.now).failed ≡ true → result ≡ Err (no_memory (last_position input.now)) }
{
    if !input.failed() {
        return answer;
    }
    Err(input.out_of_memory())
}

/// A copy of the text. Refused only when out of memory.
pub fn copy_of<I: Tokens>(input: &Buffer<I>, text: &Atom) -> PResult<Atom>
    ensures refused { IfErr result (λ e. e ≡ no_memory (last_position input.now)) }
{
    match text.try_clone() {
        Ok(copy) => Ok(copy),
        Err(_) => Err(input.out_of_memory()),
    }
}

/// Whether the error is out of memory.
pub fn is_out_of_memory(error: &Error) -> bool
    ensures { result ≡ is_memory error.now.kind }
{
    matches!(error.kind(), SyntaxError::OutOfMemory)
}

/// A sign that productions look for.
#[derive(Clone, Copy)]
pub enum Sign {
    /// `,`
    Comma,
    /// `...`
    DotDotDot,
    /// `(`
    LParen,
    /// `)`
    RParen,
    /// `[`
    LBracket,
    /// `]`
    RBracket,
    /// `{`
    LBrace,
    /// `}`
    RBrace,
    /// `=`
    Assign,
    /// `:`
    Colon,
    /// `*`
    Star,
    /// `async`
    Async,
    /// `get`
    Get,
    /// `set`
    Set,
    /// `?`
    Question,
    /// `.`
    Dot,
    /// `target`
    Target,
    /// `#`
    Hash,
    /// `new`
    New,
    /// `super`
    Super,
    /// `import`
    Import,
    /// `meta`
    Meta,
    /// `source`
    Source,
    /// A backquote.
    BackQuote,
    /// `${`
    DollarLBrace,
    /// `=>`
    Arrow,
    /// `function`
    Function,
    /// `class`
    Class,
}

/// Whether the current token is the sign.
pub fn is_sign<I: Tokens>(input: &Buffer<I>, sign: Sign) -> bool
    ensures value { result ≡ at_token (is_sign_token sign) (seen input.now) }
    ensures some { result ≡ true → IsSome (current input.now) }
{
    match input.cur_debug() {
        Some(token) => spells(sign, token),
        None => false,
    }
}

/// Whether the token is the sign.
fn spells(sign: Sign, token: &Token) -> bool
    ensures { result ≡ is_sign_token sign token.now }
{
    match sign {
        Sign::Comma => matches!(token, Token::Comma),
        Sign::DotDotDot => matches!(token, Token::DotDotDot),
        Sign::LParen => matches!(token, Token::LParen),
        Sign::RParen => matches!(token, Token::RParen),
        Sign::LBracket => matches!(token, Token::LBracket),
        Sign::RBracket => matches!(token, Token::RBracket),
        Sign::LBrace => matches!(token, Token::LBrace),
        Sign::RBrace => matches!(token, Token::RBrace),
        Sign::Assign => matches!(token, Token::AssignOp(AssignOp::Assign)),
        Sign::Colon => matches!(token, Token::Colon),
        Sign::Star => matches!(token, Token::BinOp(BinOpToken::Mul)),
        Sign::Async => is_name(token, "async"),
        Sign::Get => is_name(token, "get"),
        Sign::Set => is_name(token, "set"),
        Sign::Question => matches!(token, Token::QuestionMark),
        Sign::Dot => matches!(token, Token::Dot),
        Sign::Target => is_name(token, "target"),
        Sign::Hash => matches!(token, Token::Hash),
        Sign::New => matches!(token, Token::Word(Word::Keyword(Keyword::New))),
        Sign::Super => matches!(token, Token::Word(Word::Keyword(Keyword::Super))),
        Sign::Import => matches!(token, Token::Word(Word::Keyword(Keyword::Import))),
        Sign::Meta => is_name(token, "meta"),
        Sign::Source => is_name(token, "source"),
        Sign::BackQuote => matches!(token, Token::BackQuote),
        Sign::DollarLBrace => matches!(token, Token::DollarLBrace),
        Sign::Arrow => matches!(token, Token::Arrow),
        Sign::Function => matches!(token, Token::Word(Word::Keyword(Keyword::Function))),
        Sign::Class => matches!(token, Token::Word(Word::Keyword(Keyword::Class))),
    }
}

/// Whether the token is the word, which is no keyword.
fn is_name(token: &Token, name: &str) -> bool
    ensures { result ≡ is_named name.now token.now }
{
    match token {
        Token::Word(Word::Ident(word)) => word.as_str() == name,
        _ => false,
    }
}

/// Consumes the sign where it is current, and answers its place. Refused only when out of memory.
pub fn eat<I: Tokens>(input: &mut Buffer<I>, sign: Sign) -> PResult<Option<Span>>
    ensures eats { Eats I.model (is_sign_token sign) input.old result input.new }
    ensures falls { OnOk result (to_come I.model input.new ≤ to_come I.model input.old) }
    ensures ate { IfOk result (λ r. IsSome r → to_come I.model input.new < to_come I.model input.old) }
{
    look(input)?;
    if !is_sign(input, sign) {
        return Ok(None);
    }
    let span = input.cur_span();
    skip(input);
    Ok(Some(span))
}

/// What is wanted where the sign is.
fn wanted(sign: Sign) -> Wanted {
    match sign {
        Sign::Comma => Wanted::Comma,
        Sign::DotDotDot => Wanted::DotDotDot,
        Sign::LParen => Wanted::LParen,
        Sign::RParen => Wanted::RParen,
        Sign::LBracket => Wanted::LBracket,
        Sign::RBracket => Wanted::RBracket,
        Sign::LBrace => Wanted::LBrace,
        Sign::RBrace => Wanted::RBrace,
        Sign::Assign => Wanted::Assign,
        Sign::Colon => Wanted::Colon,
        Sign::Star => Wanted::Star,
        Sign::Async => Wanted::Async,
        Sign::Get => Wanted::Get,
        Sign::Set => Wanted::Set,
        Sign::Question => Wanted::QuestionMark,
        Sign::Dot => Wanted::Dot,
        Sign::Target => Wanted::Target,
        Sign::Hash => Wanted::Hash,
        Sign::New => Wanted::Keyword(Keyword::New),
        Sign::Super => Wanted::Keyword(Keyword::Super),
        Sign::Import => Wanted::Keyword(Keyword::Import),
        Sign::Meta => Wanted::Meta,
        Sign::Source => Wanted::Source,
        Sign::BackQuote => Wanted::BackQuote,
        Sign::DollarLBrace => Wanted::DollarLBrace,
        Sign::Arrow => Wanted::Arrow,
        Sign::Function => Wanted::Keyword(Keyword::Function),
        Sign::Class => Wanted::Keyword(Keyword::Class),
    }
}

/// Consumes the sign, and answers its place. Where another token is current, that is refused as `Expected` with the
/// sign, at that token, and the end as `Eof`.
pub fn expect<I: Tokens>(input: &mut Buffer<I>, sign: Sign) -> PResult<Span>
    ensures expects { ParsesAlone I.model (λ s. s) (expected (is_sign_token sign)) input.old result input.new }
    ensures falls { OnOk result (to_come I.model input.new < to_come I.model input.old) }
{
    expect_or(input, sign, SyntaxError::Expected(wanted(sign)))
}

/// Consumes the sign, and answers its place. Where another token is current, that is refused by the kind, at that
/// token, and the end as `Eof`.
pub fn expect_or<I: Tokens>(input: &mut Buffer<I>, sign: Sign, kind: SyntaxError) -> PResult<Span>
    requires { kind ≢ ParserFailed }
    ensures expects { ParsesAlone I.model (λ s. s) (expected (is_sign_token sign)) input.old result input.new }
    ensures falls { OnOk result (to_come I.model input.new < to_come I.model input.old) }
{
    match eat(input, sign)? {
        Some(span) => Ok(span),
        None => Err(input.unexpected(kind)),
    }
}

/// The items of a list, the place of a comma after the last one, and that of the sign that closes the list.
#[derive(Drop)]
pub struct Listed<T> {
    pub items: Vec<T>,
    pub trailing_comma: Option<Span>,
    pub end: Span,
}

/// Consumes what is after an item of a list: a comma, whose place is answered, or nothing where the sign that
/// closes the list is current.
pub fn separate<I: Tokens>(input: &mut Buffer<I>, close: Sign) -> PResult<Option<Span>>
    ensures separates { ContinuesAlone I.model (λ s. s) (separated (is_sign_token close)) input.old result input.new }
    ensures falls { OnOk result (to_come I.model input.new ≤ to_come I.model input.old) }
{
    match eat(input, Sign::Comma)? {
        Some(comma) => Ok(Some(comma)),
        None => {
            require_close(input, close)?;
            Ok(None)
        }
    }
}

/// Asks that the sign that closes a list is current; refused as a comma that is missing.
fn require_close<I: Tokens>(input: &mut Buffer<I>, close: Sign) -> PResult<()>
    ensures closes { ContinuesAlone I.model (λ u. u) (closed (is_sign_token close)) input.old result input.new }
    ensures falls { OnOk result (to_come I.model input.new ≤ to_come I.model input.old) }
{
    look(input)?;
    if !is_sign(input, close) {
        return Err(input.unexpected(SyntaxError::Expected(Wanted::Comma)));
    }
    Ok(())
}

/// The refusal of what is after dots, labelled with their place; out of memory stays as it is.
#[inline(never)]
pub fn label_spread<I: Tokens>(
    alloc: Global,
    input: &Buffer<I>,
    spread: Option<Span>,
    error: Error,
) -> Error
    requires { error.kind ≢ ParserFailed }
    ensures kind { result.kind ≢ ParserFailed }
    ensures memory { error.kind ≡ OutOfMemory → result.kind ≡ OutOfMemory }
{
    match spread {
        Some(span) if !is_out_of_memory(&error) => {
            labelled(alloc, input, span, Note::ExprAfterDots, error)
        }
        _ => error,
    }
}

/// The refusal of an operand of `yield`, labelled with the place of that, and of a `*` after it; out of memory stays
/// as it is.
#[inline(never)]
pub fn label_yield<I: Tokens>(alloc: Global, input: &Buffer<I>, span: Span, error: Error) -> Error
    requires { error.kind ≢ ParserFailed }
    ensures kind { result.kind ≢ ParserFailed }
    ensures memory { error.kind ≡ OutOfMemory → result.kind ≡ OutOfMemory }
{
    if is_out_of_memory(&error) {
        return error;
    }
    labelled(alloc, input, span, Note::YieldArgument, error)
}

/// The error, with a note on what is at the place.
fn labelled<I: Tokens>(
    alloc: Global,
    input: &Buffer<I>,
    span: Span,
    note: Note,
    error: Error,
) -> Error
    ensures kind { result.kind ≢ ParserFailed }
{
    let at = error.span();
    match Box::new(alloc, error) {
        Ok(inner) => Error::new(at, SyntaxError::WithLabel { inner, span, note }),
        Err(_) => input.out_of_memory(),
    }
}
