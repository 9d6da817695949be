// What the head of a `for` begins with, where that is no declaration.
ghost use Rattle.std.specs.Prelude.{◌≡◌, IfOk};
ghost use Rattle.swc_input.specs.{Buffer.context, Kinds.at_token};
ghost use Rattle.swc_nodes.specs.GrowingNodes.{count};
ghost use Rattle.swc_steps.specs.Parsing.{itself, seen, tree_of, Produces};
ghost use Rattle.swc_grammar.specs.{ForHead.for_context, ForHeadClean.for_head};
ghost use Rattle.swc_ecma_parser.specs.ForHeads.{for_head_at, for_head_of, head_expr, own_head_expr, is_each_word, is_target_id};

use swc_bodies::bodies::Bodies;
use swc_context::context::{Context, ExpressionContext};
use swc_context::error::PResult;
use swc_context::word::{Keyword, Word};
use swc_cover::pat_type::PatType;
use swc_cover::refining::reparse_expr_as_pat;
use swc_input::buffer::Buffer;
use swc_input::token::Token;
use swc_input::tokens::Tokens;
use swc_nodes::node::{ExprId, ForHeadId};
use swc_productions::ring::parse_expr;
use swc_steps::productions::Productions;
use swc_steps::tokens::{look, replace_ctx};

/// What the head of a `for`, or of a `for await`, begins with (ECMA-262, 14.7.4 and 14.7.5), where that is no
/// declaration: an expression, which becomes a pattern that is assigned to (13.15.5) where `of` or `in` is current
/// after it.
pub(crate) fn parse_for_head<I: Tokens, B: Bodies<I>>(
    p: &mut Productions<I, B>,
    room: usize,
    is_await: bool,
) -> PResult<ForHeadId>
    ensures produces { Produces I.model B.is_faithful for_head_of for_head_at (for_head B.forms is_await)
        (count p.old.nodes) p.old result p.new }
    ensures which { IfOk result (λ h. is_target_id h ≡ at_token is_each_word (seen p.new.input)) }
{
    let expr = parse_head_expr(p, room, is_await)?;
    look(&mut p.input)?;
    if is_each(&p.input) {
        let target = reparse_expr_as_pat(p, PatType::AssignPat, expr)?;
        Ok(ForHeadId::Target(target))
    } else {
        Ok(ForHeadId::Expr(expr))
    }
}

/// The expression in the head of a `for`, or of a `for await`: `in` is no operator there. The context is that from
/// before, also after a refusal.
pub(crate) fn parse_head_expr<I: Tokens, B: Bodies<I>>(
    p: &mut Productions<I, B>,
    room: usize,
    is_await: bool,
) -> PResult<ExprId>
    ensures produces { Produces I.model B.is_faithful itself tree_of (head_expr B.forms is_await)
        (count p.old.nodes) p.old result p.new }
    ensures own { is_await ≡ (context I.model p.old.input).expr_ctx.for_await_loop_init
        → Produces I.model B.is_faithful itself tree_of (own_head_expr B.forms) (count p.old.nodes) p.old result p.new }
{
    let ctx = head_context(p.get_ctx(), is_await);
    let before = replace_ctx(&mut p.input, ctx);
    let expr = parse_expr(p, room);
    let _ = replace_ctx(&mut p.input, before);
    expr
}

/// The context in the head of a `for`, or of a `for await`.
fn head_context(ctx: Context, is_await: bool) -> Context
    ensures { result ≡ for_context is_await ctx }
{
    Context {
        include_in_expr: false,
        expr_ctx: ExpressionContext {
            for_loop_init: true,
            for_await_loop_init: is_await,
        },
        ..ctx
    }
}

/// Whether `of` or `in` is current.
fn is_each<I: Tokens>(input: &Buffer<I>) -> bool
    ensures { result ≡ at_token is_each_word (seen input.now) }
{
    match input.cur_debug() {
        Some(Token::Word(Word::Ident(name))) => name.as_str() == "of",
        Some(Token::Word(Word::Keyword(Keyword::In))) => true,
        _ => false,
    }
}
