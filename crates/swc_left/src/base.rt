// What left-hand sides begin with (ECMA-262, 13.3): `super`, `import`, and primary expressions.
ghost use Rattle.std.specs.Prelude.{ℕ, ◌≡◌, ◌<◌, ◌≤◌, ◌++◌, not, OnOk, IsSome};
ghost use Rattle.swc_input.specs.Buffer.{context, current, to_come};
ghost use Rattle.swc_ast.specs.{Parts.callee_tree, Trees.import_e};
ghost use Rattle.swc_grammar.specs.Tokens.{super_ok};
ghost use Rattle.swc_nodes.specs.NodeParts.{args_parts, callee_parts, expr_part};
ghost use Rattle.swc_nodes.specs.GrowingNodes.{count, first_at, Apart, From};
ghost use Rattle.swc_left.specs.Bases.{super_head, super_here, super_name_tail, super_close, callee_node, import_head, import_member, import_callee, import_node, import_meta_node};
ghost use Rattle.swc_input.specs.Calls.{Checked, Refuses};
ghost use Rattle.swc_steps.specs.Parsing.{scope, ContinuesAlone, ParsesAlone, Produces, GoesOn, Acts, itself, tree_of, args_at};
ghost use Rattle.swc_steps.specs.Readers.{nothing};

use crate::args::check_import_args;
use crate::left::{chain_behind, parse_member_name};
use std::alloc::Global;
use swc_ast::expr::{Callee, ExprOrSpread, Import, ImportPhase, MetaPropKind, Super, SuperProp};
use swc_ast::prop::ComputedPropName;
use swc_bodies::bodies::Bodies;
use swc_context::error::{Error, PResult, SyntaxError, Wanted};
use swc_context::span::{BytePos, Span};
use swc_ident::ident;
use swc_input::buffer::Buffer;
use swc_input::tokens::Tokens;
use swc_nodes::node::ExprId;
use swc_steps::productions::Productions;
use swc_steps::tokens::{Listed, Sign, eat, expect, is_sign, look, parse_private_name, skip};

/// What is after `super` (ECMA-262, 13.3.7), by its first tokens, which were consumed.
#[derive(Clone, Copy)]
pub enum SuperHead {
    /// `.`: a property, by its name.
    Name,
    /// `[`, which is at the place: a property, by an expression.
    Computed(Span),
    /// `(`: a call.
    Call,
    /// Neither a property nor a call: nothing was consumed.
    Other,
}

/// A link of an optional chain after `super`, which may have none, by its first tokens, which were consumed.
#[derive(Clone, Copy)]
pub enum SuperChain {
    /// `?.`, and neither a bracket nor a parenthesis.
    Name,
    /// `?.` and `[`.
    Computed,
    /// `?.` and `(`.
    Call,
}

/// What `import` begins, up to the arguments of a call.
#[derive(Drop)]
pub enum ImportHead {
    /// `import.meta` (ECMA-262, 13.3.12), at the place.
    Meta(Span),
    /// A call of `import` (13.3.10), after its parenthesis.
    Call(Import),
}

/// A property of `super` at `start` (ECMA-262, 13.3.7), by its name, after the `.`. Where `super` may have none,
/// that is refused as `InvalidSuper`, at the name. A private name is refused there too: as `InvalidSuperCall`,
/// where `super` may have properties.
pub fn parse_super_name<I: Tokens, B: Bodies<I>>(
    p: &mut Productions<I, B>,
    start: Span,
) -> PResult<ExprId>
    ensures { Produces I.model B.is_faithful itself tree_of (super_name_tail start)
        (count p.old.nodes) p.old result p.new }
{
    look(&mut p.input)?;
    if is_sign(&p.input, Sign::Hash) {
        parse_private_name(p.alloc, &mut p.input)?;
        return Err(refuse_super_link(&mut p.input, true));
    }
    let name = ident::parse_ident_name(p.alloc, &mut p.input)?;
    require_super(&mut p.input)?;
    let end = name.span.hi;
    let prop = SuperProp::Ident(name);
    let obj = Super { span: start };
    let node = p.nodes.super_prop_expr(obj, prop, end);
    p.made(node)
}

/// A property of `super` at `start` (ECMA-262, 13.3.7), by `expr`, which is after the bracket at `bracket`: the
/// bracket that closes it. Where `super` may have none, that is refused as `InvalidSuper`, at that bracket.
pub fn super_computed<I: Tokens, B: Bodies<I>>(
    p: &mut Productions<I, B>,
    start: Span,
    bracket: Span,
    expr: ExprId,
) -> PResult<ExprId>
    requires { From 0 p.old.nodes (expr_part expr) }
    ensures { Produces I.model B.is_faithful itself tree_of
        (super_close start bracket (tree_of p.old.nodes expr))
        (first_at p.old.nodes expr.0) p.old result p.new }
{
    let end = expect(&mut p.input, Sign::RBracket)?;
    require_super(&mut p.input)?;
    let span = Span {
        lo: bracket.lo,
        hi: end.hi,
    };
    let prop = SuperProp::Computed(ComputedPropName { span, expr });
    let obj = Super { span: start };
    let node = p.nodes.super_prop_expr(obj, prop, end.hi);
    p.made(node)
}

/// A call of `super` or `import` (ECMA-262, 13.3.7 and 13.3.10), which begins at `start`, after its arguments.
/// Consumes nothing, and is refused only when out of memory.
#[inline(never)]
pub fn callee_call<I: Tokens, B: Bodies<I>>(
    p: &mut Productions<I, B>,
    start: Span,
    callee: Callee<ExprId>,
    list: Listed<ExprOrSpread<ExprId>>,
) -> PResult<ExprId>
    requires { Apart 0 p.old.nodes (callee_parts callee ++ args_parts list.items) }
    ensures { (k : ℕ) → Apart k p.old.nodes (callee_parts callee ++ args_parts list.items)
        → GoesOn I.model B.is_faithful itself tree_of
        (callee_node start (callee_tree (tree_of p.old.nodes) callee) (args_at p.old.nodes list))
        k p.old result p.new }
{
    let end = list.end.hi;
    let node = p.nodes.callee_call(start.lo, callee, list.items, end);
    p.made(node)
}

/// A call of `import` (ECMA-262, 13.3.10), which begins at `start`, after its arguments, whose parenthesis opens at
/// `open`. Where the syntax is pedantic, arguments that are none, too many or a spread are recorded. Consumes nothing,
/// and is refused only when out of memory.
#[inline(never)]
pub fn import_call<I: Tokens, B: Bodies<I>>(
    p: &mut Productions<I, B>,
    start: Span,
    import: Import,
    open: BytePos,
    list: Listed<ExprOrSpread<ExprId>>,
) -> PResult<ExprId>
    requires { Apart 0 p.old.nodes (args_parts list.items) }
    ensures { (k : ℕ) → Apart k p.old.nodes (args_parts list.items)
        → GoesOn I.model B.is_faithful itself tree_of
        (import_node start (import_e import.span import.phase) (args_at p.old.nodes list))
        k p.old result p.new }
{
    check_import_args(&mut p.input, open, &list, true)?;
    callee_call(p, start, Callee::Import(import), list)
}

/// Refuses a name after `super` and `?.`, as `InvalidSuper`, and where `super` may have properties, with `no_call`
/// as `InvalidSuperCall`.
pub fn refuse_super_name<I: Tokens, B: Bodies<I>>(
    p: &mut Productions<I, B>,
    no_call: bool,
) -> PResult<ExprId>
    ensures { Produces I.model B.is_faithful itself tree_of nothing
        (count p.old.nodes) p.old result p.new }
{
    parse_member_name(p)?;
    Err(refuse_super_link(&mut p.input, no_call))
}

/// What begins with `import`, which is at `start` and was consumed, up to the arguments of a call: these are left. With
/// `no_call`, a call is refused.
#[inline(never)]
pub fn import_head<I: Tokens, B: Bodies<I>>(
    p: &mut Productions<I, B>,
    start: Span,
    no_call: bool,
) -> PResult<ImportHead>
    ensures parses { ParsesAlone I.model (λ h. h) (import_head (not no_call) start)
        p.old.input result p.new.input }
    ensures nodes { p.new.nodes ≡ p.old.nodes }
    ensures falls { OnOk result (to_come I.model p.new.input < to_come I.model p.old.input) }
{
    match eat(&mut p.input, Sign::Dot)? {
        Some(_) => {
            p.found_module_item = true;
            import_member(p.alloc, &mut p.input, start, no_call)
        }
        None => {
            let phase = ImportPhase::Evaluation;
            import_callee(&mut p.input, Import { span: start, phase }, no_call)
        }
    }
}

/// The same after the `.`. Another word there is consumed, and the token after it refused.
fn import_member<I: Tokens>(
    alloc: Global,
    input: &mut Buffer<I>,
    start: Span,
    no_call: bool,
) -> PResult<ImportHead>
    ensures parses { ParsesAlone I.model (λ h. h) (import_member (not no_call) start)
        input.old result input.new }
    ensures falls { OnOk result (to_come I.model input.new < to_come I.model input.old) }
{
    match eat(input, Sign::Meta)? {
        Some(end) => {
            let span = Span {
                lo: start.lo,
                hi: end.hi,
            };
            check_import_meta(input, span)?;
            return Ok(ImportHead::Meta(span));
        }
        None => {}
    }
    match eat(input, Sign::Source)? {
        Some(end) => {
            let span = Span {
                lo: start.lo,
                hi: end.hi,
            };
            let phase = ImportPhase::Source;
            import_callee(input, Import { span, phase }, no_call)
        }
        None => {
            ident::parse_ident_name(alloc, input)?;
            Err(input.unexpected(SyntaxError::Unexpected(Wanted::Meta)))
        }
    }
}

/// `import.meta` (ECMA-262, 13.3.12), which is at `span`. Consumes nothing, and is refused only when out of
/// memory.
pub fn import_meta<I: Tokens, B: Bodies<I>>(
    p: &mut Productions<I, B>,
    span: Span,
) -> PResult<ExprId>
    ensures { GoesOn I.model B.is_faithful itself tree_of (import_meta_node span)
        (count p.old.nodes) p.old result p.new }
{
    let node = p.nodes.meta_prop(span, MetaPropKind::ImportMeta);
    p.made(node)
}

/// What is after `super`, by the first tokens of it.
pub fn super_head<I: Tokens>(input: &mut Buffer<I>, no_call: bool) -> PResult<SuperHead>
    ensures continues { ContinuesAlone I.model (λ h. h) (super_head (not no_call)) input.old result input.new }
    ensures falls { OnOk result (to_come I.model input.new ≤ to_come I.model input.old) }
{
    match eat(input, Sign::Dot)? {
        Some(_) => return Ok(SuperHead::Name),
        None => {}
    }
    match eat(input, Sign::LBracket)? {
        Some(bracket) => return Ok(SuperHead::Computed(bracket)),
        None => {}
    }
    if no_call {
        return Ok(SuperHead::Other);
    }
    match eat(input, Sign::LParen)? {
        Some(_) => Ok(SuperHead::Call),
        None => Ok(SuperHead::Other),
    }
}

/// The first tokens of a link of an optional chain after `super`, up to what is in it. Any other token is refused: as
/// `InvalidSuper`, and with `no_call` as `InvalidSuperCall`.
pub fn super_chain<I: Tokens>(input: &mut Buffer<I>, no_call: bool) -> PResult<SuperChain>
    ensures acts { Acts I.model input.old result input.new }
    ensures falls { OnOk result (to_come I.model input.new ≤ to_come I.model input.old) }
{
    look(input)?;
    if !is_sign(input, Sign::Question) {
        return Err(refuse_super_token(input, no_call));
    }
    match chain_behind(input)? {
        Some(_) => super_chain_link(input),
        None => Err(refuse_super_token(input, no_call)),
    }
}

/// The same from its `?` on, which is current.
fn super_chain_link<I: Tokens>(input: &mut Buffer<I>) -> PResult<SuperChain>
    requires { IsSome (current input.old) }
    ensures acts { Acts I.model input.old result input.new }
    ensures falls { OnOk result (to_come I.model input.new ≤ to_come I.model input.old) }
{
    skip(input);
    expect(input, Sign::Dot)?;
    match eat(input, Sign::LParen)? {
        Some(_) => return Ok(SuperChain::Call),
        None => {}
    }
    match eat(input, Sign::LBracket)? {
        Some(_) => Ok(SuperChain::Computed),
        None => Ok(SuperChain::Name),
    }
}

/// What is called, and the parenthesis after it (ECMA-262, 13.3.10). With `no_call`, a call is refused.
fn import_callee<I: Tokens>(
    input: &mut Buffer<I>,
    import: Import,
    no_call: bool,
) -> PResult<ImportHead>
    ensures parses { ParsesAlone I.model (λ h. h) (import_callee (not no_call) import) input.old result input.new }
    ensures falls { OnOk result (to_come I.model input.new < to_come I.model input.old) }
{
    if no_call {
        return Err(refuse_import(input));
    }
    expect(input, Sign::LParen)?;
    Ok(ImportHead::Call(import))
}

/// Whether `super` may have properties here.
fn super_allowed<I: Tokens>(input: &Buffer<I>) -> bool
    ensures { result ≡ super_ok (scope I.model input.now) }
{
    let ctx = input.get_ctx();
    let syntax = input.syntax();
    ctx.allow_direct_super || syntax.allow_super_outside_method
}

/// Asks that `super` may have properties here; refused as `InvalidSuper`, at the token consumed last.
fn require_super<I: Tokens>(input: &mut Buffer<I>) -> PResult<()>
    ensures passes { ContinuesAlone I.model (λ u. u) super_here input.old result input.new }
    ensures falls { OnOk result (to_come I.model input.new ≤ to_come I.model input.old) }
{
    if super_allowed(input) {
        return Ok(());
    }
    let span = input.prev_span();
    Err(input.syntax_error(span, SyntaxError::InvalidSuper))
}

/// Refuses what is after `super` at the token consumed last: as `InvalidSuper`, and where `super` may have
/// properties, with `no_call` as `InvalidSuperCall`.
fn refuse_super_link<I: Tokens>(input: &mut Buffer<I>, no_call: bool) -> Error
    ensures { Refuses I.model input.old result input.new }
{
    let span = input.prev_span();
    if no_call && super_allowed(input) {
        return input.syntax_error(span, SyntaxError::InvalidSuperCall);
    }
    input.syntax_error(span, SyntaxError::InvalidSuper)
}

/// Refuses brackets after `super` and `?.`, after the expression in them: as `InvalidSuper`, and where `super` may
/// have properties, with `no_call` as `InvalidSuperCall`; another token than the one that closes them where that is
/// expected.
pub fn refuse_super_brackets<I: Tokens>(input: &mut Buffer<I>, no_call: bool) -> Error
    ensures { Refuses I.model input.old result input.new }
{
    match expect(input, Sign::RBracket) {
        Ok(_) => refuse_super_link(input, no_call),
        Err(error) => error,
    }
}

/// Refuses arguments after `super` and `?.`, at the token consumed last: as `SuperCallOptional`.
pub fn refuse_super_args<I: Tokens>(input: &mut Buffer<I>) -> Error
    ensures { Refuses I.model input.old result input.new }
{
    let span = input.prev_span();
    input.syntax_error(span, SyntaxError::SuperCallOptional)
}

/// Refuses the current token after `super`: as `InvalidSuper`, and with `no_call` as `InvalidSuperCall`.
fn refuse_super_token<I: Tokens>(input: &mut Buffer<I>, no_call: bool) -> Error
    ensures { Refuses I.model input.old result input.new }
{
    let span = input.cur_span();
    if no_call {
        return input.syntax_error(span, SyntaxError::InvalidSuperCall);
    }
    input.syntax_error(span, SyntaxError::InvalidSuper)
}

/// Records that there is no `import.meta` to give, as in scripts (ECMA-262, 13.3.1.1).
fn check_import_meta<I: Tokens>(input: &mut Buffer<I>, span: Span) -> PResult<()>
    ensures checks { Checked I.model (context I.model input.old).can_be_module input.old result input.new }
    ensures falls { OnOk result (to_come I.model input.new ≤ to_come I.model input.old) }
{
    let ctx = input.get_ctx();
    if ctx.can_be_module {
        return Ok(());
    }
    input.emit_err(span.in_order(), SyntaxError::ImportMetaInScript)
}

/// Refuses a call of `import`: a parenthesis as `InvalidImport`, and another token where one is expected.
fn refuse_import<I: Tokens>(input: &mut Buffer<I>) -> Error
    ensures { Refuses I.model input.old result input.new }
{
    match look(input) {
        Ok(_) => {}
        Err(error) => return error,
    }
    if is_sign(input, Sign::LParen) {
        let span = input.cur_span();
        return input.syntax_error(span, SyntaxError::InvalidImport);
    }
    input.unexpected(SyntaxError::Expected(Wanted::LParen))
}
