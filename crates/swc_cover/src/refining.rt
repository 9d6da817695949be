// Expressions that were read become patterns: what is wrong of them is recorded, and their nodes become those of
// patterns.
ghost use Rattle.std.specs.Prelude.{◌≡◌, ◌≢◌, ◌≤◌, ◌&&◌, true, false, IfOk, IfErr, OnOk};
ghost use Rattle.swc_context.specs.declared.error.SyntaxError.TheVariants.{OutOfMemory};
ghost use Rattle.swc_cover.specs.Noting.{names_bound, JudgesBy, JudgesParams};
ghost use Rattle.swc_cover.specs.Refining.{Refined, Unrefined, RefinedItems, UnrefinedItems, items_at, pats_at};
ghost use Rattle.swc_cover.specs.{Clear.is_clear, Faults.params_verdict, ReservedNames.names_ok, Items.want_items, PatTypes.verdict_as};
ghost use Rattle.swc_grammar.specs.Clean.{no_error};
ghost use Rattle.swc_input.specs.Kinds.{at_token};
ghost use Rattle.swc_input.specs.Buffer.{context, current, to_come};
ghost use Rattle.swc_input.specs.Calls.{Checks};
ghost use Rattle.swc_steps.specs.Parsing.{seen};
ghost use Rattle.swc_nodes.specs.NodeParts.{expr_part, flat, item_parts};
ghost use Rattle.swc_nodes.specs.GrowingNodes.{tree_at, Apart, From};

use crate::items::refine_items;
use crate::noting::{check_items, check_pat};
use crate::param_names::check_param_names;
use crate::pat_type::PatType;
use crate::patterns::refine_pat;
use swc_ast::expr::ExprOrSpread;
use swc_bodies::bodies::Bodies;
use swc_context::error::PResult;
use swc_context::span::Span;
use swc_input::tokens::Tokens;
use swc_nodes::node::{ExprId, PatId};
use swc_steps::productions::Productions;

/// Makes a pattern of an expression, and records what is wrong of it. Nodes with numbers below all that is reached from
/// the expression stay; those after it are dropped.
pub fn reparse_expr_as_pat<I: Tokens, B: Bodies<I>>(
    p: &mut Productions<I, B>,
    pat_type: PatType,
    id: ExprId,
) -> PResult<PatId>
    requires { From 0 p.old.nodes (expr_part id) }
    ensures refined { IfOk result (λ pat. Refined I.model pat_type id p.old pat p.new) }
    ensures unrefined { IfErr result (λ e. Unrefined I.model pat_type id p.old e p.new) }
    ensures exact { OnOk result (Checks I.model (is_clear (verdict_as (context I.model p.old.input).strict pat_type
        (tree_at p.old.nodes id.0))) p.old.input p.new.input) }
    ensures unclear { IfErr result (λ e. e.kind ≢ OutOfMemory
        → is_clear (verdict_as (context I.model p.old.input).strict pat_type (tree_at p.old.nodes id.0)) ≡ false) }
    ensures judges { JudgesBy I.model
        (verdict_as (context I.model p.old.input).strict pat_type (tree_at p.old.nodes id.0))
        p.old.input result p.new.input }
    ensures kept { OnOk result
        (at_token no_error (seen p.old.input) ≡ true → current p.new.input ≡ current p.old.input) }
    ensures falls { OnOk result (to_come I.model p.new.input ≤ to_come I.model p.old.input) }
{
    check_pat::<I, B>(&mut p.input, &p.nodes, pat_type, id)?;
    match refine_pat(&mut p.nodes, p.alloc, pat_type, id) {
        Ok(pat) => Ok(pat),
        Err(_) => Err(p.input.out_of_memory()),
    }
}

/// Makes parameters of the items in parentheses, with a comma after the last or not, and records what is wrong of
/// them.
pub fn parse_paren_items_as_params<I: Tokens, B: Bodies<I>>(
    p: &mut Productions<I, B>,
    items: &Vec<ExprOrSpread<ExprId>>,
    trailing_comma: Option<Span>,
) -> PResult<Vec<PatId>>
    requires { Apart 0 p.old.nodes (flat item_parts items.now.items) }
    ensures refined { IfOk result
        (λ pats. RefinedItems I.model items.now.items trailing_comma p.old pats.items p.new) }
    ensures unrefined { IfErr result
        (λ e. UnrefinedItems I.model items.now.items trailing_comma p.old e p.new) }
    ensures exact { IfOk result (λ pats. Checks I.model
        (is_clear (params_verdict trailing_comma (items_at p.old.nodes items.now.items))
        && names_ok (context I.model p.old.input) (pats_at p.new.nodes pats.items)) p.old.input p.new.input) }
    ensures unclear { IfErr result (λ e. e.kind ≢ OutOfMemory
        → is_clear (params_verdict trailing_comma (items_at p.old.nodes items.now.items)) ≡ false) }
    ensures judges { JudgesParams I.model (params_verdict trailing_comma (items_at p.old.nodes items.now.items))
        (names_bound (context I.model p.old.input) (want_items (items_at p.old.nodes items.now.items)))
        p.old.input result p.new.input }
    ensures falls { OnOk result (to_come I.model p.new.input ≤ to_come I.model p.old.input) }
{
    check_items::<I, B>(&mut p.input, &p.nodes, items, trailing_comma)?;
    match refine_items(&mut p.nodes, p.alloc, items) {
        Ok(pats) => {
            check_param_names::<I, B>(&mut p.input, &p.nodes, &pats)?;
            Ok(pats)
        }
        Err(_) => Err(p.input.out_of_memory()),
    }
}
