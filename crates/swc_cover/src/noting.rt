// Records in the buffer what is wrong of what becomes a pattern.
ghost use Rattle.std.specs.Prelude.{◌≡◌, ◌≢◌, ◌≤◌, true, false, None, IfErr, IsSome, OnOk};
ghost use Rattle.swc_context.specs.declared.error.SyntaxError.TheVariants.{OutOfMemory};
ghost use Rattle.swc_ast.specs.Trees.{is_valid, are_valid};
ghost use Rattle.swc_cover.specs.Noting.{errors_of, kind_is, JudgesBy};
ghost use Rattle.swc_cover.specs.Refining.{ChecksWhole, Unfitting, items_at};
ghost use Rattle.swc_cover.specs.{Faults.params_verdict, Fits.Binding, Fits.elems_fit, ReservedNames.has_none, PatTypes.fits_as, PatTypes.verdict_as, Clear.is_clear};
ghost use Rattle.swc_input.specs.Buffer.{context, current, to_come};
ghost use Rattle.swc_input.specs.{Kinds.at_token, Recordings.NotesAll};
ghost use Rattle.swc_grammar.specs.Clean.{no_error};
ghost use Rattle.swc_nodes.specs.NodeParts.{expr_part, flat, item_parts};
ghost use Rattle.swc_nodes.specs.GrowingNodes.{tree_at, Apart, From};
ghost use Rattle.swc_input.specs.Calls.{Checked, Checks, Refuses};
ghost use Rattle.swc_steps.specs.Parsing.{seen};

use crate::faults::{Fault, FaultKind, find_faults, find_item_faults};
use crate::pat_type::PatType;
use swc_ast::expr::ExprOrSpread;
use swc_bodies::bodies::Bodies;
use swc_context::error::{PResult, SyntaxError};
use swc_context::span::Span;
use swc_input::buffer::Buffer;
use swc_input::tokens::Tokens;
use swc_nodes::node::ExprId;
use swc_nodes::nodes::NodesOf;

/// Records what is wrong where the expression becomes a pattern, in its order, and refuses a method.
pub fn check_pat<I: Tokens, B: Bodies<I>>(
    input: &mut Buffer<I>,
    nodes: &NodesOf<B>,
    pat_type: PatType,
    id: ExprId,
) -> PResult<()>
    requires { From 0 nodes.now (expr_part id) }
    ensures checks { OnOk result (ChecksWhole I.model (is_valid (tree_at nodes.now id.0))
        (fits_as (context I.model input.old).strict pat_type (tree_at nodes.now id.0)) input.old input.new) }
    ensures refuses { IfErr result (λ e. Unfitting I.model
        (fits_as (context I.model input.old).strict pat_type (tree_at nodes.now id.0)) input.old e input.new) }
    ensures exact { OnOk result (Checks I.model
        (is_clear (verdict_as (context I.model input.old).strict pat_type (tree_at nodes.now id.0)))
        input.old input.new) }
    ensures unclear { IfErr result (λ e. e.kind ≢ OutOfMemory
        → is_clear (verdict_as (context I.model input.old).strict pat_type (tree_at nodes.now id.0)) ≡ false) }
    ensures judges { JudgesBy I.model (verdict_as (context I.model input.old).strict pat_type (tree_at nodes.now id.0))
        input.old result input.new }
    ensures kept { OnOk result (at_token no_error (seen input.old) ≡ true → current input.new ≡ current input.old) }
    ensures falls { OnOk result (to_come I.model input.new ≤ to_come I.model input.old) }
{
    let mut faults = Vec::new(nodes.allocator());
    let strict = input.get_ctx().strict;
    match find_faults(&mut faults, nodes, strict, pat_type, id) {
        Ok(refused) => record_found(input, &faults, refused),
        Err(_) => Err(input.out_of_memory()),
    }
}

/// The same of items in parentheses that become parameters, with a comma after the last or not.
pub fn check_items<I: Tokens, B: Bodies<I>>(
    input: &mut Buffer<I>,
    nodes: &NodesOf<B>,
    items: &Vec<ExprOrSpread<ExprId>>,
    trailing_comma: Option<Span>,
) -> PResult<()>
    requires { Apart 0 nodes.now (flat item_parts items.now.items) }
    ensures checks { OnOk result (ChecksWhole I.model (are_valid (items_at nodes.now items.now.items))
        (elems_fit Binding trailing_comma (items_at nodes.now items.now.items)) input.old input.new) }
    ensures refuses { IfErr result (λ e. Unfitting I.model
        (elems_fit Binding trailing_comma (items_at nodes.now items.now.items)) input.old e input.new) }
    ensures exact { OnOk result (Checks I.model
        (is_clear (params_verdict trailing_comma (items_at nodes.now items.now.items))) input.old input.new) }
    ensures unclear { IfErr result (λ e. e.kind ≢ OutOfMemory
        → is_clear (params_verdict trailing_comma (items_at nodes.now items.now.items)) ≡ false) }
    ensures judges { JudgesBy I.model (params_verdict trailing_comma (items_at nodes.now items.now.items))
        input.old result input.new }
    ensures kept { OnOk result (at_token no_error (seen input.old) ≡ true → current input.new ≡ current input.old) }
    ensures falls { OnOk result (to_come I.model input.new ≤ to_come I.model input.old) }
{
    let mut faults = Vec::new(nodes.allocator());
    match find_item_faults(&mut faults, nodes, items, trailing_comma) {
        Ok(refused) => record_found(input, &faults, refused),
        Err(_) => Err(input.out_of_memory()),
    }
}

/// Records the faults, one after another, and refuses the property at the place, if there is one.
fn record_found<I: Tokens>(
    input: &mut Buffer<I>,
    faults: &Vec<Fault>,
    refused: Option<Span>,
) -> PResult<()>
    ensures checks { OnOk result ((refused ≡ None)
        × Checks I.model (has_none faults.now.items) input.old input.new) }
    ensures refuses { IfErr result (λ e. Refuses I.model input.old e input.new
        × (e.kind ≢ OutOfMemory → IsSome refused)) }
    ensures judges { JudgesBy I.model (record { faults = faults.now.items; refused = refused })
        input.old result input.new }
    ensures kept { OnOk result (at_token no_error (seen input.old) ≡ true → current input.new ≡ current input.old) }
    ensures falls { OnOk result (to_come I.model input.new ≤ to_come I.model input.old) }
{
    record_all(input, faults)?;
    match refused {
        Some(span) => Err(input.syntax_error(span.in_order(), SyntaxError::InvalidPat)),
        None => Ok(()),
    }
}

/// Records the faults, one after another, and no others.
fn record_all<I: Tokens>(input: &mut Buffer<I>, faults: &Vec<Fault>) -> PResult<()>
    ensures checks { Checked I.model (has_none faults.now.items) input.old result input.new }
    ensures notes { OnOk result (NotesAll I.model (errors_of faults.now.items) input.old input.new) }
    ensures kept { OnOk result (at_token no_error (seen input.old) ≡ true → current input.new ≡ current input.old) }
    ensures falls { OnOk result (to_come I.model input.new ≤ to_come I.model input.old) }
{
    for fault in faults {
        input.emit_err(fault.span.in_order(), kind_of(fault.kind))?;
    }
    Ok(())
}

/// As what the fault is recorded.
fn kind_of(kind: FaultKind) -> SyntaxError
    ensures is { result ≡ kind_is kind }
    ensures fault { result ≢ OutOfMemory }
{
    match kind {
        FaultKind::NotSimpleAssign => SyntaxError::NotSimpleAssign,
        FaultKind::TS2406 => SyntaxError::TS2406,
        FaultKind::InvalidPat => SyntaxError::InvalidPat,
        FaultKind::NonLastRestParam => SyntaxError::NonLastRestParam,
        FaultKind::CommaAfterRestElement => SyntaxError::CommaAfterRestElement,
        FaultKind::TS1014 => SyntaxError::TS1014,
        FaultKind::TS1048 => SyntaxError::TS1048,
        FaultKind::DotsWithoutIdentifier => SyntaxError::DotsWithoutIdentifier,
    }
}
