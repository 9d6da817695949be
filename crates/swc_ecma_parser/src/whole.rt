// All that a source gives, read as one expression, or as one binding pattern.
ghost use Rattle.std.specs.Prelude.{◌≡◌, List, [], true, false, IfOk};
ghost use Rattle.swc_input.specs.declared.token.TokenAndSpan.{TokenAndSpan};
ghost use Rattle.swc_grammar.specs.Symbols.{Expr, Pat};
ghost use Rattle.swc_nodes.specs.{NodeParts.expr_part, NodeParts.pat_part, GrowingNodes.From};
ghost use Rattle.swc_steps.specs.Params.{pat_at};
ghost use Rattle.swc_steps.specs.Parsing.{tree_of};
ghost use Rattle.swc_ecma_parser.specs.Calls.{has_failed, nodes_of, wants_memory};
ghost use Rattle.swc_ecma_parser.specs.WholeList.{plain_list, IsHeeded, Headline, Lists, ReadsFront, ReadsGiven, Tries};

use crate::parser::Parser;
use std::alloc::Global;
use swc_bodies::bodies::{Bodies, BodyForms};
use swc_context::context::{Context, EsVersion, Syntax};
use swc_context::error::{Error, PResult};
use swc_input::listed::TokensInput;
use swc_input::token::TokenAndSpan;
use swc_input::tokens::Tokens;
use swc_nodes::node::{ExprId, PatId};
use swc_nodes::nodes::NodesOf;

/// The result of reading a whole source.
#[derive(Drop)]
pub struct Whole<N, B: BodyForms> {
    /// The number of the expression or pattern, and whether tokens are left after it; or the refusal.
    pub read: PResult<(N, bool)>,
    /// The nodes of its tree.
    pub nodes: NodesOf<B>,
    /// The faults that were recorded.
    pub recorded: Vec<Error>,
    /// Whether the source is nested more deeply than `levels` allows, which is refused as `OutOfMemory`.
    pub too_deep: bool,
}

/// Reads a list of tokens as one expression (ECMA-262, 13.16), with a parser of its own, which `levels` bounds
/// (`Parser::limit_nesting`; `usize::MAX` is no bound).
///
/// Refuses as `Parser::parse_expr` does, and when out of memory. Where early errors are on and not ignored
/// (`headline`): a tree returned with no token left after it and no fault recorded is one that the written grammar
/// derives from the list, and the only one; and with a faithful hook each tree that it derives from the list is
/// returned so, unless memory runs out. Where the syntax is pedantic, this holds for trees in which no property
/// `name = value` of an object literal is left (ECMA-262, 13.2.5.1).
pub fn parse_whole_expr<B: Bodies<TokensInput>>(
    alloc: Global,
    tokens: Vec<TokenAndSpan>,
    ctx: Context,
    syntax: Syntax,
    target: EsVersion,
    bodies: B,
    levels: usize,
) -> Whole<ExprId, B>
    ensures stands { IfOk result.read (λ r. From 0 result.nodes (expr_part r.0)) }
    ensures headline { IsHeeded ctx syntax
        → Headline B.is_faithful B.forms Expr tree_of ctx syntax (plain_list tokens.items)
        result.read result.nodes result.recorded.items }
    ensures front { IsHeeded ctx syntax → IfOk result.read (λ r. result.recorded.items ≡ []
        → ReadsFront B.forms Expr ctx syntax (plain_list tokens.items) r.1 (tree_of result.nodes r.0)) }
    ensures deep { wants_memory result.read ≡ false → result.too_deep ≡ false }
    ensures unbounded { levels ≡ usize.MAX → result.too_deep ≡ false }
{
    let source = TokensInput::new(alloc, tokens, ctx, syntax, target);
    read_whole_expr(alloc, source, bodies, levels)
}

/// Reads all that a source gives as one expression, in the source's context and by its syntax, as `parse_whole_expr`
/// reads a list. Over a listed source that has recorded nothing (`Lists`) it promises what that call does, of the
/// source's tokens.
pub fn read_whole_expr<I: Tokens, B: Bodies<I>>(
    alloc: Global,
    source: I,
    bodies: B,
    levels: usize,
) -> Whole<ExprId, B>
    ensures stands { IfOk result.read (λ r. From 0 result.nodes (expr_part r.0)) }
    ensures headline { (ts : List TokenAndSpan) → Lists ts (I.model.state source)
        → IsHeeded (I.model.state source).context (I.model.state source).syntax
        → Headline B.is_faithful B.forms Expr tree_of (I.model.state source).context (I.model.state source).syntax ts
        result.read result.nodes result.recorded.items }
    ensures front { IsHeeded (I.model.state source).context (I.model.state source).syntax
        → IfOk result.read (λ r. result.recorded.items ≡ (I.model.state source).errors
        → ReadsGiven I.model B.forms Expr source r.1 (tree_of result.nodes r.0)) }
    ensures deep { wants_memory result.read ≡ false → result.too_deep ≡ false }
    ensures unbounded { levels ≡ usize.MAX → result.too_deep ≡ false }
{
    let mut parser = Parser::new_from(alloc, source, bodies);
    parser.limit_nesting(levels);
    let read = try_whole_expr(&mut parser);
    let recorded = parser.take_errors();
    let too_deep = parser.is_too_deep();
    let nodes = parser.into_nodes();
    Whole {
        read,
        nodes,
        recorded,
        too_deep,
    }
}

/// Reads one expression: its number, and whether tokens are left after it.
fn try_whole_expr<I: Tokens, B: Bodies<I>>(parser: &mut Parser<I, B>) -> PResult<(ExprId, bool)>
    requires { has_failed parser.old ≡ false }
    ensures stands { IfOk result (λ r. From 0 (nodes_of parser.new) (expr_part r.0)) }
    ensures tries { Tries I.model B.is_faithful B.forms tree_of expr_part Expr parser.old result parser.new }
{
    let expr = parser.parse_expr_id()?;
    let at_end = parser.at_end()?;
    Ok((expr, !at_end))
}

/// Reads a list of tokens as one binding pattern (ECMA-262, 14.3.3), with a parser of its own, which `levels` bounds
/// (`Parser::limit_nesting`; `usize::MAX` is no bound).
///
/// Refuses as `Parser::parse_pat` does, and when out of memory. What it answers is judged (`headline`) as by
/// `parse_whole_expr`.
pub fn parse_whole_pat<B: Bodies<TokensInput>>(
    alloc: Global,
    tokens: Vec<TokenAndSpan>,
    ctx: Context,
    syntax: Syntax,
    target: EsVersion,
    bodies: B,
    levels: usize,
) -> Whole<PatId, B>
    ensures stands { IfOk result.read (λ r. From 0 result.nodes (pat_part r.0)) }
    ensures headline { IsHeeded ctx syntax
        → Headline B.is_faithful B.forms Pat pat_at ctx syntax (plain_list tokens.items)
        result.read result.nodes result.recorded.items }
    ensures front { IsHeeded ctx syntax → IfOk result.read (λ r. result.recorded.items ≡ []
        → ReadsFront B.forms Pat ctx syntax (plain_list tokens.items) r.1 (pat_at result.nodes r.0)) }
    ensures deep { wants_memory result.read ≡ false → result.too_deep ≡ false }
    ensures unbounded { levels ≡ usize.MAX → result.too_deep ≡ false }
{
    let source = TokensInput::new(alloc, tokens, ctx, syntax, target);
    read_whole_pat(alloc, source, bodies, levels)
}

/// Reads all that a source gives as one binding pattern, in the source's context and by its syntax, as
/// `parse_whole_pat` reads a list. It promises what `read_whole_expr` does.
pub fn read_whole_pat<I: Tokens, B: Bodies<I>>(
    alloc: Global,
    source: I,
    bodies: B,
    levels: usize,
) -> Whole<PatId, B>
    ensures stands { IfOk result.read (λ r. From 0 result.nodes (pat_part r.0)) }
    ensures headline { (ts : List TokenAndSpan) → Lists ts (I.model.state source)
        → IsHeeded (I.model.state source).context (I.model.state source).syntax
        → Headline B.is_faithful B.forms Pat pat_at (I.model.state source).context (I.model.state source).syntax ts
        result.read result.nodes result.recorded.items }
    ensures front { IsHeeded (I.model.state source).context (I.model.state source).syntax
        → IfOk result.read (λ r. result.recorded.items ≡ (I.model.state source).errors
        → ReadsGiven I.model B.forms Pat source r.1 (pat_at result.nodes r.0)) }
    ensures deep { wants_memory result.read ≡ false → result.too_deep ≡ false }
    ensures unbounded { levels ≡ usize.MAX → result.too_deep ≡ false }
{
    let mut parser = Parser::new_from(alloc, source, bodies);
    parser.limit_nesting(levels);
    let read = try_whole_pat(&mut parser);
    let recorded = parser.take_errors();
    let too_deep = parser.is_too_deep();
    let nodes = parser.into_nodes();
    Whole {
        read,
        nodes,
        recorded,
        too_deep,
    }
}

/// Reads one pattern: its number, and whether tokens are left after it.
fn try_whole_pat<I: Tokens, B: Bodies<I>>(parser: &mut Parser<I, B>) -> PResult<(PatId, bool)>
    requires { has_failed parser.old ≡ false }
    ensures stands { IfOk result (λ r. From 0 (nodes_of parser.new) (pat_part r.0)) }
    ensures tries { Tries I.model B.is_faithful B.forms pat_at pat_part Pat parser.old result parser.new }
{
    let pat = parser.parse_pat_id()?;
    let at_end = parser.at_end()?;
    Ok((pat, !at_end))
}
