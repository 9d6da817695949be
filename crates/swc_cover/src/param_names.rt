// The names `eval` and `arguments` that parameters bind, which in strict code they may not (ECMA-262, 13.1.1 and
// 15.3.1).
ghost use Rattle.std.specs.Prelude.{◌≡◌, ◌++◌, ◌≤◌, not, ◌||◌, map, IfOk, OnOk};
ghost use Rattle.swc_ast.specs.Tree.{trees};
ghost use Rattle.swc_cover.specs.Below.{PatElemFrom, PatPropFrom, PatElemsBelow, PatPropsBelow, PatPartFrom};
ghost use Rattle.swc_cover.specs.ReservedNames.{name_spans, reserved_spans, all_reserved, prop_reserved, props_reserved, has_none, names_ok};
ghost use Rattle.swc_cover.specs.Noting.{name_error, names_bound, NotesStrict};
ghost use Rattle.swc_input.specs.Buffer.{context, to_come};
ghost use Rattle.swc_nodes.specs.NodeParts.{pat_part, one_pat, flat};
ghost use Rattle.swc_nodes.specs.GrowingNodes.{tree_at, Apart, From};
ghost use Rattle.swc_nodes.specs.Lists.{pat_props_trees, held_elem_tree, held_elem_trees};
ghost use Rattle.swc_nodes.specs.NodeTree.{pat_prop_of, part_tree};
ghost use Rattle.swc_input.specs.Calls.{Checked};

use std::alloc::AllocError;
use swc_ast::ident::BindingIdent;
use swc_ast::spanned::Spanned;
use swc_bodies::bodies::Bodies;
use swc_context::error::{PResult, SyntaxError};
use swc_context::span::Span;
use swc_input::buffer::Buffer;
use swc_input::tokens::Tokens;
use swc_nodes::node::{Node, PatElem, PatId, PatPart, PatPropNode};
use swc_nodes::nodes::{Nodes, NodesOf};

/// Records each name `eval` and `arguments` that parameters bind in strict code, in a module; elsewhere these faults
/// wait.
pub fn check_param_names<I: Tokens, B: Bodies<I>>(
    input: &mut Buffer<I>,
    nodes: &NodesOf<B>,
    pats: &Vec<PatId>,
) -> PResult<()>
    requires { Apart 0 nodes.now (flat one_pat pats.now.items) }
    ensures checks { Checked I.model
        (names_ok (context I.model input.old) (trees (map (λ p. tree_at nodes.now p.0) pats.now.items)))
        input.old result input.new }
    ensures notes { OnOk result (NotesStrict I.model
        (names_bound (context I.model input.old) (trees (map (λ p. tree_at nodes.now p.0) pats.now.items)))
        input.old input.new) }
    ensures falls { OnOk result (to_come I.model input.new ≤ to_come I.model input.old) }
{
    if !input.get_ctx().strict {
        return Ok(());
    }
    let mut spans = Vec::new(nodes.allocator());
    match add_param_names(&mut spans, nodes, pats) {
        Ok(()) => record_names(input, &spans),
        Err(_) => Err(input.out_of_memory()),
    }
}

/// Records a name that may not be bound in strict code, at each of the places.
fn record_names<I: Tokens>(input: &mut Buffer<I>, spans: &Vec<Span>) -> PResult<()>
    ensures checks { Checked I.model
        (not (context I.model input.old).module || has_none spans.now.items) input.old result input.new }
    ensures notes { OnOk result (NotesStrict I.model (map name_error spans.now.items) input.old input.new) }
    ensures falls { OnOk result (to_come I.model input.new ≤ to_come I.model input.old) }
{
    for span in spans {
        input.emit_strict_mode_err(*span, SyntaxError::EvalAndArgumentsInStrict)?;
    }
    Ok(())
}

/// Adds where parameters bind such names.
fn add_param_names<F: Spanned + Drop, C: Spanned + Drop, K: Spanned + Drop>(
    spans: &mut Vec<Span>,
    nodes: &Nodes<F, C, K>,
    pats: &Vec<PatId>,
) -> Result<(), AllocError>
    requires { Apart 0 nodes.now (flat one_pat pats.now.items) }
    ensures { IfOk result (λ _. spans.new.items
        ≡ spans.old.items ++ all_reserved (trees (map (λ p. tree_at nodes.now p.0) pats.now.items))) }
{
    for i in 0..pats.len() {
        add_names(spans, nodes, pats[i])?;
    }
    Ok(())
}

/// Adds where a pattern binds such names.
#[cycle(names)]
fn add_names<F: Spanned + Drop, C: Spanned + Drop, K: Spanned + Drop>(
    spans: &mut Vec<Span>,
    nodes: &Nodes<F, C, K>,
    id: PatId,
) -> Result<(), AllocError>
    requires { From 0 nodes.now (pat_part id) }
    ensures { IfOk result (λ _. spans.new.items ≡ spans.old.items ++ reserved_spans (tree_at nodes.now id.0)) }
{
    match nodes.get(id.0) {
        Node::PatIdent(name) => add_name(spans, name),
        Node::PatArray { elems, .. } => add_elems_names(spans, nodes, id, elems),
        Node::PatObject { props, .. } => add_props_names(spans, nodes, id, props),
        Node::PatAssign { left, .. } => add_part_names(spans, nodes, *left),
        Node::PatRest { arg, .. } => add_names(spans, nodes, *arg),
        _ => Ok(()),
    }
}

/// The same of the elements of the array pattern with the number `id`.
#[cycle(names)]
fn add_elems_names<F: Spanned + Drop, C: Spanned + Drop, K: Spanned + Drop>(
    spans: &mut Vec<Span>,
    nodes: &Nodes<F, C, K>,
    id: PatId,
    elems: &Vec<Option<PatElem>>,
) -> Result<(), AllocError>
    requires { PatElemsBelow nodes.now id.0 elems.now.items }
    ensures { IfOk result (λ _. spans.new.items
        ≡ spans.old.items ++ all_reserved (held_elem_trees (tree_at nodes.now) elems.now)) }
{
    for i in 0..elems.len() {
        add_elem_names(spans, nodes, elems[i])?;
    }
    Ok(())
}

/// The same of the properties of the object pattern with the number `id`.
#[cycle(names)]
fn add_props_names<F: Spanned + Drop, C: Spanned + Drop, K: Spanned + Drop>(
    spans: &mut Vec<Span>,
    nodes: &Nodes<F, C, K>,
    id: PatId,
    props: &Vec<PatPropNode>,
) -> Result<(), AllocError>
    requires { PatPropsBelow nodes.now id.0 props.now.items }
    ensures { IfOk result (λ _. spans.new.items
        ≡ spans.old.items ++ props_reserved (pat_props_trees F.place C.place K.place (tree_at nodes.now) props.now)) }
{
    for i in 0..props.len() {
        add_prop_names(spans, nodes, &props[i])?;
    }
    Ok(())
}

/// The same of an element of an array pattern.
#[cycle(names)]
fn add_elem_names<F: Spanned + Drop, C: Spanned + Drop, K: Spanned + Drop>(
    spans: &mut Vec<Span>,
    nodes: &Nodes<F, C, K>,
    elem: Option<PatElem>,
) -> Result<(), AllocError>
    requires { PatElemFrom nodes.now elem }
    ensures { IfOk result (λ _. spans.new.items
        ≡ spans.old.items ++ reserved_spans (held_elem_tree (tree_at nodes.now) elem)) }
{
    match elem {
        None => Ok(()),
        Some(PatElem::Item(part)) => add_part_names(spans, nodes, part),
        Some(PatElem::Rest { arg, .. }) => add_part_names(spans, nodes, arg),
    }
}

/// The same of a part of a pattern.
#[cycle(names)]
fn add_part_names<F: Spanned + Drop, C: Spanned + Drop, K: Spanned + Drop>(
    spans: &mut Vec<Span>,
    nodes: &Nodes<F, C, K>,
    part: PatPart,
) -> Result<(), AllocError>
    requires { PatPartFrom nodes.now part }
    ensures { IfOk result (λ _. spans.new.items
        ≡ spans.old.items ++ reserved_spans (part_tree (tree_at nodes.now) part)) }
{
    match part {
        PatPart::Pat(pat) => add_names(spans, nodes, pat),
        PatPart::Expr(_) => Ok(()),
    }
}

/// The same of a property of an object pattern.
#[cycle(names)]
fn add_prop_names<F: Spanned + Drop, C: Spanned + Drop, K: Spanned + Drop>(
    spans: &mut Vec<Span>,
    nodes: &Nodes<F, C, K>,
    prop: &PatPropNode,
) -> Result<(), AllocError>
    requires { PatPropFrom nodes.now prop.now }
    ensures { IfOk result (λ _. spans.new.items
        ≡ spans.old.items ++ prop_reserved (pat_prop_of F.place C.place K.place (tree_at nodes.now) prop.now)) }
{
    match prop {
        PatPropNode::KeyValue { value, .. } => add_part_names(spans, nodes, *value),
        PatPropNode::Assign { key, .. } => add_name(spans, key),
        PatPropNode::Rest { arg, .. } => add_part_names(spans, nodes, *arg),
    }
}

/// Adds where the name is, if it may not be bound in strict code.
fn add_name(spans: &mut Vec<Span>, name: &BindingIdent) -> Result<(), AllocError>
    ensures { IfOk result (λ _. spans.new.items ≡ spans.old.items ++ name_spans name.now.id.sym name.now.id.span) }
{
    if name.id.sym.is_reserved_in_strict_bind() {
        spans.push(name.id.span)?;
    }
    Ok(())
}
