// What methods are made of after their keys (ECMA-262, 15.4 to 15.6 and 15.8): parameters, blocks, and properties.
ghost use Rattle.std.specs.Option.{is_some};
ghost use Rattle.std.specs.Prelude.{ℕ, ◌≡◌, ◌≢◌, ◌<◌, ◌≤◌, true, not, ◌||◌, IfOk, OnOk};
ghost use Rattle.swc_context.specs.{Contexts.method_params, declared.error.SyntaxError.TheVariants.ParserFailed};
ghost use Rattle.swc_input.specs.Buffer.{to_come};
ghost use Rattle.swc_nodes.specs.GrowingNodes.{count, Apart, Grows};
ghost use Rattle.swc_nodes.specs.{Lists.first_param_pat, NodeParts.flat, NodeParts.param_parts};
ghost use Rattle.swc_steps.specs.Params.{params_of, params_at};
ghost use Rattle.swc_steps.specs.Keys.{method_body};
ghost use Rattle.swc_input.specs.Calls.{Checked, Tries};
ghost use Rattle.swc_steps.specs.Parsing.{GoesOn, Parses, by_hook, shell_at};
ghost use Rattle.swc_primary.specs.Methods.{async_in, generator_in, accessor_ok, just_one, begins_rest, misses_param, method_function_of, method_shell, method_close, method_node, method_behind, getter_behind, setter_behind};

use crate::modifiers::MethodKind;
use swc_ast::function::{Function, Param};
use swc_ast::prop::PropName;
use swc_ast::spanned::Spanned;
use swc_bodies::bodies::Bodies;
use swc_context::context::Context;
use swc_context::error::{PResult, SyntaxError, Wanted};
use swc_context::span::{BytePos, Span};
use swc_input::buffer::Buffer;
use swc_input::tokens::Tokens;
use swc_nodes::node::{ExprId, PatId, PropNode};
use swc_nodes::nodes::NodesOf;
use swc_nodes::patterns::first_param_pat;
use swc_steps::productions::Productions;
use swc_steps::tokens::{Sign, answered, expect, is_sign, look, replace_ctx};

/// What a token is refused as that is where a method's parameters begin.
pub fn without_params(kind: Option<MethodKind>) -> SyntaxError
    ensures { result ≢ ParserFailed }
{
    match kind {
        Some(_) => SyntaxError::Expected(Wanted::LParen),
        None => SyntaxError::Unexpected(Wanted::Ident),
    }
}

/// The function of a method (ECMA-262, 15.4), after its parameters, whose parenthesis is at `start`: that which closes
/// them, and a block, which the hook reads in the context of the method's body. It spans what was read, so without the
/// key, which is at `key`.
///
/// Parameters of a getter are recorded, at the key, and so is a setter without exactly one; of a setter without any
/// that is recorded once more after the block, and what stands in for the missing one is put among its function's
/// parameters. A rest in a setter is recorded at its place, where it is the first.
///
/// A missing `)` or `{` is refused as `Expected`, at the current token, and the end as `Eof`; what the hook refuses is
/// passed on. The context is that from before, also after a refusal.
pub fn close_method<I: Tokens, B: Bodies<I>>(
    p: &mut Productions<I, B>,
    kind: Option<MethodKind>,
    key: Span,
    start: Span,
    params: Vec<Param<PatId>>,
) -> PResult<Function<PatId, B::Block>>
    requires params { params_of 0 p.old.nodes params }
    ensures { (k : ℕ) → params_of k p.old.nodes params → GoesOn I.model B.is_faithful (method_shell kind) shell_at
        (method_close B.forms B.Block.place kind start (params_at p.old.nodes params)) k p.old result p.new }
{
    check_params::<I, B>(&mut p.input, &p.nodes, kind, key, &params)?;
    expect(&mut p.input, Sign::RParen)?;
    let body = parse_method_block(p, is_async(kind), is_generator(kind))?;
    if misses_param(kind, &params) {
        let params = missing_param(p, key)?;
        return Ok(function_of(kind, start, params, body));
    }
    Ok(function_of(kind, start, params, body))
}

/// Records what is wrong with the parameters of a getter or of a setter, by the kind of the method (ECMA-262, 15.4).
fn check_params<I: Tokens, B: Bodies<I>>(
    input: &mut Buffer<I>,
    nodes: &NodesOf<B>,
    kind: Option<MethodKind>,
    key: Span,
    params: &Vec<Param<PatId>>,
) -> PResult<()>
    requires params { params_of 0 nodes.now params.now }
    ensures checks { Checked I.model (accessor_ok kind (params_at nodes.now params.now)) input.old result input.new }
    ensures falls { OnOk result (to_come I.model input.new ≤ to_come I.model input.old) }
{
    match kind {
        Some(MethodKind::Getter) => check_getter(input, key, params),
        Some(MethodKind::Setter) => check_setter::<I, B>(input, nodes, key, params),
        _ => Ok(()),
    }
}

/// Records parameters of a getter.
fn check_getter<I: Tokens>(
    input: &mut Buffer<I>,
    key: Span,
    params: &Vec<Param<PatId>>,
) -> PResult<()>
    ensures checks { Checked I.model (not (is_some (first_param_pat params.now.items))) input.old result input.new }
    ensures falls { OnOk result (to_come I.model input.new ≤ to_come I.model input.old) }
{
    match first_param_pat(params) {
        Some(_) => input.emit_err(key.in_order(), SyntaxError::GetterParam),
        None => Ok(()),
    }
}

/// Records that a setter doesn't have exactly one parameter, and a first one that is a rest.
fn check_setter<I: Tokens, B: Bodies<I>>(
    input: &mut Buffer<I>,
    nodes: &NodesOf<B>,
    key: Span,
    params: &Vec<Param<PatId>>,
) -> PResult<()>
    requires params { params_of 0 nodes.now params.now }
    ensures checks { Checked I.model (not (not (just_one params.now.items) || begins_rest nodes.now params.now.items))
        input.old result input.new }
    ensures falls { OnOk result (to_come I.model input.new ≤ to_come I.model input.old) }
{
    check_count(input, key, params)?;
    check_rest::<I, B>(input, nodes, params)
}

/// Records that a setter doesn't have exactly one parameter.
fn check_count<I: Tokens>(
    input: &mut Buffer<I>,
    key: Span,
    params: &Vec<Param<PatId>>,
) -> PResult<()>
    ensures checks { Checked I.model (not (not (just_one params.now.items))) input.old result input.new }
    ensures falls { OnOk result (to_come I.model input.new ≤ to_come I.model input.old) }
{
    if params.len() == 1 {
        return Ok(());
    }
    input.emit_err(key.in_order(), SyntaxError::SetterParam)
}

/// Records a first parameter that is a rest.
fn check_rest<I: Tokens, B: Bodies<I>>(
    input: &mut Buffer<I>,
    nodes: &NodesOf<B>,
    params: &Vec<Param<PatId>>,
) -> PResult<()>
    requires params { params_of 0 nodes.now params.now }
    ensures checks { Checked I.model (not (begins_rest nodes.now params.now.items)) input.old result input.new }
    ensures falls { OnOk result (to_come I.model input.new ≤ to_come I.model input.old) }
{
    match first_param_pat(params) {
        Some(pat) => {
            if !nodes.is_rest_pat(pat) {
                return Ok(());
            }
            input.emit_err(nodes.pat_span(pat), SyntaxError::RestPatInSetter)
        }
        None => Ok(()),
    }
}

/// Whether a method of the kind is a setter without a parameter.
fn misses_param(kind: Option<MethodKind>, params: &Vec<Param<PatId>>) -> bool
    ensures { result ≡ misses_param kind params.now.items }
{
    match (kind, first_param_pat(params)) {
        (Some(MethodKind::Setter), None) => true,
        _ => false,
    }
}

/// What stands in for the parameter of a setter that has none, which is recorded at the setter's key.
fn missing_param<I: Tokens, B: Bodies<I>>(
    p: &mut Productions<I, B>,
    key: Span,
) -> PResult<Vec<Param<PatId>>>
    ensures tries { Tries I.model p.old.input result p.new.input }
    ensures grows { Grows p.old.nodes p.new.nodes }
    ensures from { IfOk result (λ r. Apart (count p.old.nodes) p.new.nodes (flat param_parts r.items)) }
    ensures some { IfOk result (λ r. is_some (first_param_pat r.items) ≡ true) }
{
    p.input.emit_err(key.in_order(), SyntaxError::SetterParam)?;
    let span = Span::new(BytePos(0), BytePos(0));
    let pat = match p.nodes.invalid_pat(span) {
        Ok(pat) => pat,
        Err(_) => return Err(p.input.out_of_memory()),
    };
    let mut params = Vec::new(p.alloc);
    p.add(&mut params, Param { span, pat })?;
    Ok(params)
}

/// The function of a method of the kind, whose parameters begin at `start`, up to the end of its block.
fn function_of<K: Spanned>(
    kind: Option<MethodKind>,
    start: Span,
    params: Vec<Param<PatId>>,
    body: K,
) -> Function<PatId, K>
    ensures { result ≡ method_function_of K.place kind start params body }
{
    let span = Span {
        lo: start.lo,
        hi: body.span().hi,
    };
    Function {
        span,
        params,
        is_async: is_async(kind),
        is_generator: is_generator(kind),
        body,
    }
}

/// Whether the function of a method of the kind is async.
fn is_async(kind: Option<MethodKind>) -> bool
    ensures { result ≡ async_in kind }
{
    match kind {
        Some(kind) => kind.is_async(),
        None => false,
    }
}

/// Whether the function of a method of the kind is a generator.
fn is_generator(kind: Option<MethodKind>) -> bool
    ensures { result ≡ generator_in kind }
{
    match kind {
        Some(kind) => kind.is_generator(),
        None => false,
    }
}

/// The block of a method, in the context of its body.
fn parse_method_block<I: Tokens, B: Bodies<I>>(
    p: &mut Productions<I, B>,
    is_async: bool,
    is_generator: bool,
) -> PResult<B::Block>
    ensures reads { Parses I.model B.is_faithful (λ v. v) (method_body B.forms is_async is_generator)
        p.old.input result p.new.input }
    ensures nodes { p.new.nodes ≡ p.old.nodes }
{
    let ctx = p.get_ctx().method_block(is_async, is_generator);
    let before = replace_ctx(&mut p.input, ctx);
    let block = parse_block(p);
    let _ = replace_ctx(&mut p.input, before);
    block
}

/// A block, which the hook reads.
pub fn parse_block<I: Tokens, B: Bodies<I>>(p: &mut Productions<I, B>) -> PResult<B::Block>
    ensures reads { Parses I.model B.is_faithful (λ v. v) (by_hook B.forms.block)
        p.old.input result p.new.input }
    ensures falls { OnOk result (to_come I.model p.new.input < to_come I.model p.old.input) }
    ensures nodes { p.new.nodes ≡ p.old.nodes }
{
    look(&mut p.input)?;
    if !is_sign(&p.input, Sign::LBrace) {
        return Err(p.input.unexpected(SyntaxError::Expected(Wanted::LBrace)));
    }
    let answer = p.bodies.block(&mut p.input);
    answered(&p.input, answer)
}

/// The context of the parameters of a method of the kind.
pub fn method_params(kind: Option<MethodKind>, ctx: Context) -> Context
    ensures { result ≡ method_params (async_in kind) (generator_in kind) ctx }
{
    ctx.method_params(is_async(kind), is_generator(kind))
}

/// A method of the kind, which begins at the place. A setter has the pattern of its function's first parameter.
pub fn method_of<K>(
    kind: Option<MethodKind>,
    start: Span,
    key: PropName<ExprId>,
    function: Function<PatId, K>,
) -> PropNode<K>
    ensures { result ≡ method_node kind start key function }
{
    match kind {
        Some(MethodKind::Getter) => getter_prop(start, key, function),
        Some(MethodKind::Setter) => match first_param_pat(&function.params) {
            Some(param) => setter_prop(start, key, param, function),
            None => method_prop(start, key, function),
        },
        _ => method_prop(start, key, function),
    }
}

/// A method that begins at the place: its function spans all of it.
fn method_prop<K>(start: Span, key: PropName<ExprId>, function: Function<PatId, K>) -> PropNode<K>
    ensures { result ≡ method_behind start key function }
{
    let mut function = function;
    function.span = Span {
        lo: start.lo,
        hi: function.span.hi,
    };
    PropNode::Method { key, function }
}

/// A getter that begins at the place: of its function it has the block.
fn getter_prop<K>(start: Span, key: PropName<ExprId>, function: Function<PatId, K>) -> PropNode<K>
    ensures { result ≡ getter_behind start key function }
{
    let span = Span {
        lo: start.lo,
        hi: function.span.hi,
    };
    let body = function.body;
    PropNode::Getter { span, key, body }
}

/// A setter that begins at the place: of its function it has the block.
fn setter_prop<K>(
    start: Span,
    key: PropName<ExprId>,
    param: PatId,
    function: Function<PatId, K>,
) -> PropNode<K>
    ensures { result ≡ setter_behind start key param function }
{
    let span = Span {
        lo: start.lo,
        hi: function.span.hi,
    };
    let body = function.body;
    PropNode::Setter {
        span,
        key,
        param,
        body,
    }
}
