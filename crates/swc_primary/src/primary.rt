// Expressions (ECMA-262, 13).
ghost use Rattle.std.specs.Prelude.{ℕ, ◌≡◌, ◌<◌, ◌≤◌, true, false, not, ◌&&◌, Some, map, OnOk, IfOk, IsSome};
ghost use Rattle.swc_ast.specs.Trees.{private_e};
ghost use Rattle.swc_input.specs.Buffer.{current, to_come, context, state_of};
ghost use Rattle.swc_input.specs.{Plain.plain_token, Kinds.at_token, Kinds.is_hash};
ghost use Rattle.swc_input.specs.declared.token.Token.TheVariants as token;
ghost use Rattle.swc_grammar.specs.Tokens.{is_in, is_this, may_be_reference};
ghost use Rattle.swc_grammar.specs.Clean.{sym, run, is_lit};
ghost use Rattle.swc_grammar.specs.{Symbols.Primary, Symbols.Literal, Names.may_refer, Words.word};
ghost use Rattle.swc_bodies.specs.Readings.{at_function, is_class};
ghost use Rattle.swc_grammar.specs.Grammar as grammar;
ghost use Rattle.swc_nodes.specs.NodeParts.{args_parts};
ghost use Rattle.swc_nodes.specs.GrowingNodes.{count, first_start, last_end, Apart};
ghost use Rattle.swc_steps.specs.Args.{paren_from, paren_closed};
ghost use Rattle.swc_steps.specs.Readers.{by_production, named_expr, private_operand};
ghost use Rattle.swc_context.specs.{declared.atom.Atom.Atom, declared.error.SyntaxError.TheVariants.InvalidIdentInStrict};
ghost use Rattle.swc_input.specs.Source.{with_module_error};
ghost use Rattle.swc_input.specs.Calls.{Here, Checked, Refuses};
ghost use Rattle.swc_steps.specs.Parsing.{lit_in, seen, ParsesAlone, Produces, GoesOn, ContinuesAlone, TookLiteral, Parses, by_hook, itself, tree_of, args_at, ident_spelling};
ghost use Rattle.swc_primary.specs.Openings.{in_comes, primary_kind, literal, BeginsPlain};
ghost use Rattle.swc_primary.specs.{declared.primary.PrimaryKind.TheVariants.Plain, declared.primary.PlainKind.TheVariants.Function, declared.primary.PlainKind.TheVariants.Class};

use crate::parens::{check_paren_items, refuse_arrow};
use std::alloc::Global;
use swc_ast::expr::ExprOrSpread;
use swc_ast::ident::{Ident, IdentName, PrivateName};
use swc_ast::lit::{BigInt, Bool, Lit, Null, Num, Str};
use swc_bodies::bodies::Bodies;
use swc_context::context::Context;
use swc_context::error::{Error, PResult, SyntaxError, Wanted};
use swc_context::operator::{AssignOp, BinOpToken};
use swc_context::span::Span;
use swc_context::word::{Keyword, Word};
use swc_ident::ident;
use swc_input::buffer::Buffer;
use swc_input::token::Token;
use swc_input::tokens::Tokens;
use swc_nodes::node::ExprId;
use swc_steps::productions::{Productions, is_identifier_word, is_strict_word};
use swc_steps::regex::parse_regex;
use swc_steps::tokens::{
    Listed, Sign, answered, copy_of, is_async_function, is_sign, look, parse_private_name, skip,
};

/// An element of an array literal, or a hole.
pub type Elem = Option<ExprOrSpread<ExprId>>;

/// A primary expression (ECMA-262, 13.2), by the token that begins it, if other expressions are in it.
#[derive(Clone, Copy)]
pub enum PrimaryKind {
    /// `(`: expressions in parentheses (ECMA-262, 13.2.9).
    Paren,
    /// `[`: an array literal (ECMA-262, 13.2.4).
    Array,
    /// `{`: an object literal (ECMA-262, 13.2.5).
    Object,
    /// A backquote: a template (ECMA-262, 13.2.8).
    Template,
    /// Another token, or none.
    Plain,
}

/// Which primary expression the current token begins.
pub fn primary_kind<I: Tokens>(input: &Buffer<I>) -> PrimaryKind
    ensures { result ≡ primary_kind (seen input.now) }
{
    match input.cur_debug() {
        Some(Token::LParen) => PrimaryKind::Paren,
        Some(Token::LBracket) => PrimaryKind::Array,
        Some(Token::LBrace) => PrimaryKind::Object,
        Some(Token::BackQuote) => PrimaryKind::Template,
        _ => PrimaryKind::Plain,
    }
}

/// A primary expression in which no other is (ECMA-262, 13.2), by the token that begins it.
#[derive(Clone, Copy)]
pub enum PlainKind {
    /// `this` (ECMA-262, 13.2.1).
    This,
    /// `async`, with which a function may begin (ECMA-262, 15.8).
    Async,
    /// `function` (ECMA-262, 15.2).
    Function,
    /// A literal that is no regular expression (ECMA-262, 13.2.3).
    Literal,
    /// `class` (ECMA-262, 15.7).
    Class,
    /// An identifier reference (ECMA-262, 13.1).
    Name,
    /// `#`, after which a private name comes (ECMA-262, 13.10.1).
    Private,
    /// A regular expression, or the slash that begins one (ECMA-262, 13.2.7).
    Regex,
    /// Another token, or none.
    Other,
}

/// Which primary expression in which no other is the current token begins.
fn plain_kind<I: Tokens>(input: &Buffer<I>) -> PlainKind
    ensures begins { BeginsPlain (context I.model input.now) (λ f. at_token f (seen input.now)) result }
    ensures function { result ≡ Function → at_function (current input.now) ≡ true }
    ensures class { result ≡ Class → at_token is_class (current input.now) ≡ true }
{
    match input.cur_debug() {
        Some(Token::Word(word)) => word_kind(input.get_ctx(), word),
        Some(Token::Num { .. } | Token::BigInt { .. } | Token::Str { .. }) => PlainKind::Literal,
        Some(Token::Hash) => PlainKind::Private,
        Some(Token::BinOp(BinOpToken::Div) | Token::AssignOp(AssignOp::DivAssign)) =>
            PlainKind::Regex,
        Some(Token::Regex { .. }) => PlainKind::Regex,
        _ => PlainKind::Other,
    }
}

/// The same of a word.
fn word_kind(ctx: Context, word: &Word) -> PlainKind
    ensures { BeginsPlain ctx (λ f. f (token.Word word.now)) result }
{
    match word {
        Word::Null | Word::True | Word::False => PlainKind::Literal,
        Word::Keyword(Keyword::This) => PlainKind::This,
        Word::Keyword(Keyword::Function) => PlainKind::Function,
        Word::Keyword(Keyword::Class) => PlainKind::Class,
        Word::Ident(name) if name.is_word("async") => PlainKind::Async,
        _ if is_identifier_word(ctx, word) => PlainKind::Name,
        _ => PlainKind::Other,
    }
}

/// A primary expression in which no other is (ECMA-262, 13.2): `this`, a function, a literal, a class, an
/// identifier, `#` and a name, or a regular expression. Another token is refused as `TS1109`, at that token. `async`
/// is an identifier, unless `function` is after it on its line. Where the syntax is pedantic, `#` and a name are
/// recorded as `PrivateNameNotLeftOfIn`.
#[inline(never)]
pub fn parse_plain_primary<I: Tokens, B: Bodies<I>>(p: &mut Productions<I, B>) -> PResult<ExprId>
    requires looked { Here I.model p.old.input p.old.input }
    requires plain { primary_kind (seen p.old.input) ≡ Plain }
    ensures { Produces I.model B.is_faithful itself tree_of (run B.forms (sym Primary))
        (count p.old.nodes) p.old result p.new }
{
    match plain_kind(&p.input) {
        PlainKind::This => parse_this_expr(p),
        PlainKind::Async => {
            if is_async_function(&mut p.input)? {
                parse_fn_expr(p)
            } else {
                parse_ident_expr(p)
            }
        }
        PlainKind::Function => parse_fn_expr(p),
        PlainKind::Literal => {
            let lit = parse_lit(p)?;
            let node = p.nodes.lit(lit);
            p.made(node)
        }
        PlainKind::Class => parse_class_expr(p),
        PlainKind::Name => parse_ident_expr(p),
        PlainKind::Private => parse_private_expr(p),
        PlainKind::Regex => parse_regex(p),
        PlainKind::Other => Err(no_primary(&mut p.input)),
    }
}

/// The refusal of a token that begins no primary expression, at that token.
fn no_primary<I: Tokens>(input: &mut Buffer<I>) -> Error
    ensures refuses { Refuses I.model input.old result input.new }
    ensures falls { to_come I.model input.new ≤ to_come I.model input.old }
{
    let span = input.cur_span();
    input.syntax_error(span, SyntaxError::TS1109)
}

/// `this` (ECMA-262, 13.2.1).
pub fn parse_this_expr<I: Tokens, B: Bodies<I>>(p: &mut Productions<I, B>) -> PResult<ExprId>
    requires { at_token is_this (seen p.old.input) ≡ true }
    ensures { Produces I.model B.is_faithful itself tree_of (by_production B.forms (λ c. grammar.this-expr))
        (count p.old.nodes) p.old result p.new }
{
    skip(&mut p.input);
    let span = p.prev_span();
    let node = p.nodes.this_expr(span);
    p.made(node)
}

/// A function, which the hook reads (ECMA-262, 13.2.6): at `function`, or at `async` with `function` after it.
pub fn parse_fn_expr<I: Tokens, B: Bodies<I>>(p: &mut Productions<I, B>) -> PResult<ExprId>
    requires { at_function (current p.old.input) ≡ true }
    ensures { Produces I.model B.is_faithful itself tree_of (by_production B.forms (λ c. grammar.fn-expr))
        (count p.old.nodes) p.old result p.new }
{
    let answer = p.bodies.fun(&mut p.input);
    let function = answered(&p.input, answer)?;
    let node = p.nodes.fn_expr(function);
    p.made(node)
}

/// A class, which the hook reads (ECMA-262, 15.7).
pub fn parse_class_expr<I: Tokens, B: Bodies<I>>(p: &mut Productions<I, B>) -> PResult<ExprId>
    requires { at_token is_class (current p.old.input) ≡ true }
    ensures { Produces I.model B.is_faithful itself tree_of (by_production B.forms (λ c. grammar.class-expr))
        (count p.old.nodes) p.old result p.new }
{
    let answer = p.bodies.class(&mut p.input);
    let class = answered(&p.input, answer)?;
    let node = p.nodes.class_expr(class);
    p.made(node)
}

/// A function, which the hook reads, where a statement is (ECMA-262, 15.2, 15.5, 15.6 and 15.8). Another token than
/// `function`, and `async` with `function` after it, is refused as `Expected`.
pub fn parse_function<I: Tokens, B: Bodies<I>>(p: &mut Productions<I, B>) -> PResult<B::Fun>
    ensures reads { Parses I.model B.is_faithful (λ v. v) (by_hook B.forms.fun) p.old.input result p.new.input }
    ensures falls { OnOk result (to_come I.model p.new.input < to_come I.model p.old.input) }
    ensures nodes { p.new.nodes ≡ p.old.nodes }
{
    look(&mut p.input)?;
    if is_sign(&p.input, Sign::Function) {
        return function_here(p);
    }
    if is_async_function(&mut p.input)? {
        return function_here(p);
    }
    let wanted = Wanted::Keyword(Keyword::Function);
    Err(p.input.unexpected(SyntaxError::Expected(wanted)))
}

/// A function that begins here, which the hook reads.
fn function_here<I: Tokens, B: Bodies<I>>(p: &mut Productions<I, B>) -> PResult<B::Fun>
    requires { at_function (current p.old.input) ≡ true }
    ensures reads { Parses I.model B.is_faithful (λ v. v) (by_hook B.forms.fun) p.old.input result p.new.input }
    ensures nodes { p.new.nodes ≡ p.old.nodes }
{
    let answer = p.bodies.fun(&mut p.input);
    answered(&p.input, answer)
}

/// A class, which the hook reads, where a statement is (ECMA-262, 15.7). Another token than `class` is refused as
/// `Expected`.
pub fn parse_class<I: Tokens, B: Bodies<I>>(p: &mut Productions<I, B>) -> PResult<B::Class>
    ensures reads { Parses I.model B.is_faithful (λ v. v) (by_hook B.forms.class) p.old.input result p.new.input }
    ensures falls { OnOk result (to_come I.model p.new.input < to_come I.model p.old.input) }
    ensures nodes { p.new.nodes ≡ p.old.nodes }
{
    look(&mut p.input)?;
    if !is_sign(&p.input, Sign::Class) {
        let wanted = Wanted::Keyword(Keyword::Class);
        return Err(p.input.unexpected(SyntaxError::Expected(wanted)));
    }
    let answer = p.bodies.class(&mut p.input);
    answered(&p.input, answer)
}

/// An identifier reference as an expression (ECMA-262, 13.1), at a word that may be one.
pub fn parse_ident_expr<I: Tokens, B: Bodies<I>>(p: &mut Productions<I, B>) -> PResult<ExprId>
    requires { at_token (may_be_reference (context I.model p.old.input)) (seen p.old.input) ≡ true }
    ensures { Produces I.model B.is_faithful itself tree_of named_expr (count p.old.nodes) p.old result p.new }
{
    let ident = parse_reference(p.alloc, &mut p.input)?;
    let node = p.nodes.ident_expr(ident);
    p.made(node)
}

/// An identifier reference (ECMA-262, 13.1), at a word that may be one. A word of strict code is recorded, for modules.
pub fn parse_reference<I: Tokens>(alloc: Global, input: &mut Buffer<I>) -> PResult<Ident>
    requires { at_token (may_be_reference (context I.model input.old)) (seen input.old) ≡ true }
    ensures parses { ParsesAlone I.model ident_spelling (word may_refer) input.old result input.new }
    ensures falls { OnOk result (to_come I.model input.new < to_come I.model input.old) }
{
    let is_strict = is_strict_word(input);
    let ident = ident::parse_ident_ref(alloc, input)?;
    check_strict_word(input, is_strict, &ident)?;
    Ok(ident)
}

/// `#` and a name, as an expression (ECMA-262, 13.10.1). Where the syntax is pedantic, they are no expression: they are
/// recorded as `PrivateNameNotLeftOfIn`, from the `#` through the name; or, where the name doesn't begin where the `#`
/// ends, refused as `SpaceBetweenHashAndIdent`, at the `#`, which alone is consumed.
pub fn parse_private_expr<I: Tokens, B: Bodies<I>>(p: &mut Productions<I, B>) -> PResult<ExprId>
    requires { at_token is_hash (seen p.old.input) ≡ true }
    ensures { Produces I.model B.is_faithful itself tree_of (by_production B.forms (λ c. grammar.private-expr))
        (count p.old.nodes) p.old result p.new }
{
    let syntax = p.input.syntax();
    if syntax.pedantic {
        return parse_lone_private(p);
    }
    let start = p.cur_span().lo;
    skip(&mut p.input);
    let name = ident::parse_ident_name(p.alloc, &mut p.input)?;
    let node = p.nodes.private_expr(start, name);
    p.made(node)
}

/// The same where the syntax is pedantic, so that a fault is recorded or refused.
#[inline(never)]
fn parse_lone_private<I: Tokens, B: Bodies<I>>(p: &mut Productions<I, B>) -> PResult<ExprId>
    requires { (state_of I.model p.old.input).syntax.pedantic ≡ true }
    ensures { Produces I.model B.is_faithful itself tree_of (by_production B.forms (λ c. grammar.private-expr))
        (count p.old.nodes) p.old result p.new }
{
    let (name, _end) = parse_private_name(p.alloc, &mut p.input)?;
    emit_lone_private(&mut p.input, name.span)?;
    private_node(p, name)
}

/// Whether `#` is current, the syntax is pedantic, and no operator before it takes what it begins: then a private name
/// is read as the left operand of an `in`.
pub fn begins_private<I: Tokens>(input: &Buffer<I>, is_free: bool) -> bool
    ensures value { result ≡ (is_free && ((state_of I.model input.now).syntax.pedantic
        && at_token is_hash (seen input.now))) }
    ensures hash { result ≡ true → at_token is_hash (seen input.now) ≡ true }
{
    if !is_free {
        return false;
    }
    let syntax = input.syntax();
    syntax.pedantic && is_sign(input, Sign::Hash)
}

/// `#` and a name as the left operand of `in` (ECMA-262, 13.10.1), which stays. Where another token is after them,
/// or `in` is no operator, they are recorded as `PrivateNameNotLeftOfIn`, from the `#` through the name; where the name
/// doesn't begin where the `#` ends, refused as `SpaceBetweenHashAndIdent`, at the `#`, which alone is consumed.
#[inline(never)]
pub fn parse_private_operand<I: Tokens, B: Bodies<I>>(p: &mut Productions<I, B>) -> PResult<ExprId>
    requires { at_token is_hash (seen p.old.input) ≡ true }
    ensures { Produces I.model B.is_faithful itself tree_of (private_operand B.forms)
        (count p.old.nodes) p.old result p.new }
{
    let (name, _end) = parse_private_name(p.alloc, &mut p.input)?;
    check_before_in(&mut p.input, name.span)?;
    private_node(p, name)
}

/// Records the private name at the place `name`, unless `in` is current and an operator.
fn check_before_in<I: Tokens>(input: &mut Buffer<I>, name: Span) -> PResult<()>
    ensures checks { ContinuesAlone I.model (λ u. u) in_comes input.old result input.new }
    ensures falls { OnOk result (to_come I.model input.new ≤ to_come I.model input.old) }
{
    look(input)?;
    if is_in_operator(input) {
        return Ok(());
    }
    emit_lone_private(input, name)
}

/// Whether `in` is current, and an operator.
fn is_in_operator<I: Tokens>(input: &Buffer<I>) -> bool
    ensures { result ≡ ((context I.model input.now).include_in_expr && at_token is_in (seen input.now)) }
{
    match input.cur_debug() {
        Some(Token::Word(Word::Keyword(Keyword::In))) => input.get_ctx().include_in_expr,
        _ => false,
    }
}

/// Records the private name at the place `name`, which is no left operand of `in`.
fn emit_lone_private<I: Tokens>(input: &mut Buffer<I>, name: Span) -> PResult<()>
    ensures checks { Checked I.model false input.old result input.new }
    ensures falls { OnOk result (to_come I.model input.new ≤ to_come I.model input.old) }
{
    input.emit_err(name.in_order(), SyntaxError::PrivateNameNotLeftOfIn)
}

/// The node of a private name.
fn private_node<I: Tokens, B: Bodies<I>>(
    p: &mut Productions<I, B>,
    name: PrivateName,
) -> PResult<ExprId>
    ensures { GoesOn I.model B.is_faithful itself tree_of (λ c ts. Some (private_e name.span name.name, ts))
        (count p.old.nodes) p.old result p.new }
{
    let PrivateName { span, name: sym } = name;
    let node = p.nodes.private_expr(span.lo, IdentName { span, sym });
    p.made(node)
}

/// What is in parentheses, of a list from the one at `start` on: one expression by itself, or a sequence. A `=>`
/// after the list is refused first. An object literal among the items with a property `name = value` is recorded,
/// unless the syntax is pedantic. A comma after the last item is recorded; an empty list is refused, and so is an
/// expression after dots.
#[inline(never)]
pub fn paren_items<I: Tokens, B: Bodies<I>>(
    p: &mut Productions<I, B>,
    start: Span,
    list: Listed<ExprOrSpread<ExprId>>,
) -> PResult<ExprId>
    requires apart { Apart 0 p.old.nodes (args_parts list.items) }
    ensures { (k : ℕ) → Apart k p.old.nodes (args_parts list.items) → GoesOn I.model B.is_faithful itself tree_of
        (λ c ts. paren_closed (paren_from (first_start p.old.nodes (map (λ item. item.expr) list.items.items))
        (last_end p.old.nodes (map (λ item. item.expr) list.items.items)) c start
        (args_at p.old.nodes list)) ts) k p.old result p.new }
{
    refuse_arrow(&mut p.input, Span::new(start.lo, list.end.hi))?;
    check_paren_items::<I, B>(&mut p.input, &p.nodes, start, &list)?;
    let end = list.end.hi;
    let node = p.nodes.seq_of_items(list.items);
    let expr = p.made(node)?;
    let node = p.nodes.paren_expr(start.lo, end, expr);
    p.made(node)
}

/// Whether a literal is current that is no regular expression.
fn is_lit<I: Tokens>(input: &Buffer<I>) -> bool
    ensures value { result ≡ at_token is_lit (seen input.now) }
    ensures some { result ≡ true → IsSome (current input.now) }
{
    match input.cur_debug() {
        Some(Token::Word(Word::Null | Word::True | Word::False)) => true,
        Some(Token::Num { .. } | Token::BigInt { .. } | Token::Str { .. }) => true,
        _ => false,
    }
}

/// The literal that a token is.
fn lit_of(token: Token, span: Span) -> Lit
    requires { is_lit token ≡ true }
    ensures { literal (plain_token token) span ≡ Some result }
{
    match token {
        Token::Word(Word::Null) => Lit::Null(Null { span }),
        Token::Word(Word::True) => Lit::Bool(Bool { span, value: true }),
        Token::Word(Word::False) => Lit::Bool(Bool { span, value: false }),
        Token::Num { raw } => Lit::Num(Num { span, raw }),
        Token::BigInt { raw } => Lit::BigInt(BigInt { span, raw }),
        Token::Str { value, raw } => Lit::Str(Str { span, value, raw }),
        _ => unreachable!(),
    }
}

/// A literal that is no regular expression (ECMA-262, 13.2.3).
pub fn parse_lit<I: Tokens, B: Bodies<I>>(p: &mut Productions<I, B>) -> PResult<Lit>
    ensures parses { ParsesAlone I.model (lit_in p.old.nodes)
        (run B.forms (sym Literal)) p.old.input result p.new.input }
    ensures literal { IfOk result
        (λ l. TookLiteral I.model (lit_in p.old.nodes l) p.old.input p.new.input) }
    ensures falls { OnOk result (to_come I.model p.new.input < to_come I.model p.old.input) }
    ensures nodes { p.new.nodes ≡ p.old.nodes }
{
    p.input.require_cur()?;
    if !is_lit(&p.input) {
        return Err(no_primary(&mut p.input));
    }
    let token = p.input.bump();
    let span = p.prev_span();
    Ok(lit_of(token, span))
}

/// Records, for modules, an identifier that is a word of strict code.
fn check_strict_word<I: Tokens>(
    input: &mut Buffer<I>,
    is_strict: bool,
    ident: &Ident,
) -> PResult<()>
    ensures checks { Checked I.model
        (not ((context I.model input.old).module && is_strict)) input.old result input.new }
    ensures waits { (context I.model input.old).ignore_error ≡ false → is_strict ≡ true
        → OnOk result ((sym : Atom) × (state_of I.model input.new
        ≡ with_module_error (record { span = ident.now.span; kind = InvalidIdentInStrict sym })
        (state_of I.model input.old))) }
    ensures falls { OnOk result (to_come I.model input.new ≤ to_come I.model input.old) }
{
    if !is_strict {
        return Ok(());
    }
    let sym = copy_of(input, &ident.sym)?;
    input.emit_strict_mode_err(ident.span, SyntaxError::InvalidIdentInStrict(sym))
}
