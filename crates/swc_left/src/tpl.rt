// Templates, with a tag and without (ECMA-262, 13.2.8 and 13.3.11).
ghost use Rattle.std.specs.Prelude.{◌≡◌, ◌<◌, ◌≤◌, ◌++◌, true, not, None, Some, Err, OnOk, IfOk, IfErr, IsSome};
ghost use Rattle.swc_context.specs.declared.error.Error.{Error};
ghost use Rattle.swc_input.specs.{Buffer.current, Buffer.to_come, Kinds.at_token, Recording.counted, declared.token.Token.Token as tok};
ghost use Rattle.swc_ast.specs.Trees.{is_chain};
ghost use Rattle.swc_grammar.specs.{Parts.cooked_of, Symbols.Template};
ghost use Rattle.swc_nodes.specs.GrowingNodes.{first_at, Apart, From};
ghost use Rattle.swc_nodes.specs.{Lists.exprs_parts, NodeParts.expr_part, NodeParts.one_expr};
ghost use Rattle.swc_input.specs.Calls.{Checked};
ghost use Rattle.swc_steps.specs.Parsing.{seen, ParsesAlone, GoesOn, itself, tree_of};
ghost use Rattle.swc_left.specs.Templates.{is_template, tpl_element, tpl_end, tagged_node, tpl_parts_at};

use swc_ast::expr::TplElement;
use swc_bodies::bodies::Bodies;
use swc_context::atom::Atom;
use swc_context::error::{Error, PResult, SyntaxError, Wanted};
use swc_context::span::{BytePos, Span};
use swc_input::buffer::Buffer;
use swc_input::recording::counted_error;
use swc_input::token::Token;
use swc_input::tokens::Tokens;
use swc_nodes::node::ExprId;
use swc_nodes::nodes::NodesOf;
use swc_steps::productions::Productions;
use swc_steps::tokens::{Sign, eat, expect, is_sign, look};

/// What is between the backquotes of a template: its texts, an expression between each two of them, and the place
/// of the backquote that closes it.
#[derive(Drop)]
pub struct TplParts {
    pub quasis: Vec<TplElement>,
    pub exprs: Vec<ExprId>,
    pub end: Span,
}

/// The node of a template with the tag `tag` (ECMA-262, 13.3.11), after its `parts`; the backquote that opens it is
/// at `start`. A tag that is an optional chain is recorded. Refused only when out of memory.
pub fn tagged_tpl<I: Tokens, B: Bodies<I>>(
    p: &mut Productions<I, B>,
    tag: ExprId,
    start: Span,
    parts: TplParts,
) -> PResult<ExprId>
    requires { Apart 0 p.old.nodes (one_expr tag ++ exprs_parts parts.exprs) }
    ensures { GoesOn I.model B.is_faithful itself tree_of
        (tagged_node start (tree_of p.old.nodes tag) (tpl_parts_at p.old.nodes parts))
        (first_at p.old.nodes tag.0) p.old result p.new }
{
    let end = parts.end.hi;
    check_tag::<I, B>(&mut p.input, &p.nodes, tag, end)?;
    let node = p
        .nodes
        .tagged_tpl(tag, start.lo, end, parts.quasis, parts.exprs);
    p.made(node)
}

/// A text of a template (ECMA-262, 12.9.6), the last one where a backquote is after it. Without a tag a bad
/// escape in it is refused.
pub fn parse_tpl_element<I: Tokens>(input: &mut Buffer<I>, is_tagged: bool) -> PResult<TplElement>
    ensures parses { ParsesAlone I.model (λ quasi. quasi) (tpl_element is_tagged) input.old result input.new }
    ensures falls { OnOk result (to_come I.model input.new < to_come I.model input.old) }
{
    look(input)?;
    if !is_template(input) {
        let kind = SyntaxError::Unexpected(Wanted::TplToken);
        return Err(input.unexpected(kind));
    }
    let token = input.bump();
    let span = input.prev_span();
    let (raw, cooked) = template_of(token);
    let cooked = cooked_text(cooked, is_tagged)?;
    look(input)?;
    let tail = is_sign(input, Sign::BackQuote);
    Ok(TplElement {
        span,
        tail,
        cooked,
        raw,
    })
}

/// Consumes what is after a text of a template: the backquote that closes the template, whose place is answered,
/// or the `${` of an expression.
pub fn eat_tpl_end<I: Tokens>(input: &mut Buffer<I>) -> PResult<Option<Span>>
    ensures ends { ParsesAlone I.model (λ o. o) tpl_end input.old result input.new }
    ensures falls { OnOk result (to_come I.model input.new < to_come I.model input.old) }
{
    match eat(input, Sign::BackQuote)? {
        Some(end) => Ok(Some(end)),
        None => {
            expect(input, Sign::DollarLBrace)?;
            Ok(None)
        }
    }
}

/// Whether a text of a template is current.
fn is_template<I: Tokens>(input: &Buffer<I>) -> bool
    ensures value { result ≡ at_token is_template (seen input.now) }
    ensures some { result ≡ true → IsSome (current input.now) }
{
    matches!(input.cur_debug(), Some(Token::Template { .. }))
}

/// The text of a template that a token is: as it is written, and what it means.
fn template_of(token: Token) -> (Atom, Result<Atom, Error>)
    requires { is_template token ≡ true }
    ensures { token ≡ tok.Template result.0 result.1 }
{
    match token {
        Token::Template { raw, cooked } => (raw, cooked),
        _ => unreachable!(),
    }
}

/// What a text of a template means. With a tag a bad escape means nothing; without one it is refused.
fn cooked_text(cooked: Result<Atom, Error>, is_tagged: bool) -> PResult<Option<Atom>>
    ensures means { IfOk result (λ text. cooked_of is_tagged cooked ≡ Some text) }
    ensures bad { IfErr result (λ e. cooked_of is_tagged cooked ≡ None) }
    ensures refused { IfErr result (λ e. (x : Error) × (cooked ≡ Err x) × (e ≡ counted x)) }
{
    match cooked {
        Ok(text) => Ok(Some(text)),
        Err(_) if is_tagged => Ok(None),
        Err(error) => Err(counted_error(error)),
    }
}

/// Records a tag that is an optional chain, at the place of the whole template, which ends at `end`.
fn check_tag<I: Tokens, B: Bodies<I>>(
    input: &mut Buffer<I>,
    nodes: &NodesOf<B>,
    tag: ExprId,
    end: BytePos,
) -> PResult<()>
    requires { From 0 nodes.now (expr_part tag) }
    ensures checks { Checked I.model (not (is_chain (tree_of nodes.now tag))) input.old result input.new }
    ensures falls { OnOk result (to_come I.model input.new ≤ to_come I.model input.old) }
{
    if !nodes.is_opt_chain(tag) {
        return Ok(());
    }
    let span = Span::new(nodes.extent(tag).lo, end);
    input.emit_err(span, SyntaxError::TaggedTplInOptChain)
}
