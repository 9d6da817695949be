// What is recorded where an expression becomes a pattern, in its order.
ghost use Rattle.std.specs.Prelude.{◌≡◌, ◌++◌, true, None, IfOk};
ghost use Rattle.swc_cover.specs.Faults.{again, all_again, prop_again, props_again, own_faults, own_kind, kind_faults, left_faults, one, one_if, spread_faults, rest_faults, comma_faults, plain_assignment, may_rest, Recorded, param_faults, param_verdict, params_verdict, verdict, elem_verdict, elems_verdict, held_verdict, prop_verdict, props_verdict, recorded};
ghost use Rattle.swc_cover.specs.Below.{ElemFrom, PropFrom, PatElemFrom, PatPropFrom, ElemsBelow, PropsBelow, PatElemsBelow, PatPropsBelow, PatPartFrom};
ghost use Rattle.swc_cover.specs.{Checking.way_of, PatTypes.verdict_as};
ghost use Rattle.swc_nodes.specs.Turning.{kind_of};
ghost use Rattle.swc_cover.specs.Fits as cover;
ghost use Rattle.swc_ast.specs.Parts.{item_tree, item_trees};
ghost use Rattle.swc_nodes.specs.Lists.{elem_tree, elem_trees, props_trees, pat_props_trees, held_elem_tree, held_elem_trees};
ghost use Rattle.swc_nodes.specs.NodeTree.{prop_of, pat_prop_of, part_tree};
ghost use Rattle.swc_nodes.specs.NodeParts.{expr_part, pat_part, flat, item_parts};
ghost use Rattle.swc_nodes.specs.GrowingNodes.{tree_at, Apart, From};

use crate::checking::{Way, is_assignment, is_plain};
use crate::pat_type::{PatType, stands_whole};
use std::alloc::AllocError;
use swc_ast::expr::ExprOrSpread;
use swc_ast::spanned::Spanned;
use swc_context::span::Span;
use swc_nodes::node::{ExprId, Node, PatElem, PatId, PatPart, PatPropNode, PropNode, TargetNode};
use swc_nodes::nodes::Nodes;

/// What is wrong of an expression that is to become a pattern.
#[derive(Clone, Copy, Debug, PartialEq, Eq)]
pub(crate) enum FaultKind {
    /// It cannot be assigned to.
    NotSimpleAssign,
    /// It cannot be assigned to as it is.
    TS2406,
    /// It is no pattern.
    InvalidPat,
    /// A rest that isn't the last.
    NonLastRestParam,
    /// A comma after a rest.
    CommaAfterRestElement,
    /// A parameter that is a rest and isn't the last.
    TS1014,
    /// A rest with a default value.
    TS1048,
    /// An object's rest that holds no identifier.
    DotsWithoutIdentifier,
}

/// A fault, and where it is.
#[derive(Clone, Copy, Debug, PartialEq, Eq)]
pub(crate) struct Fault {
    pub(crate) kind: FaultKind,
    pub(crate) span: Span,
}

/// Finds what is wrong where the expression becomes a pattern, and answers the place of the property at which that is
/// refused, if it is.
pub(crate) fn find_faults<F: Spanned + Drop, C: Spanned + Drop, K: Spanned + Drop>(
    faults: &mut Vec<Fault>,
    nodes: &Nodes<F, C, K>,
    strict: bool,
    pat_type: PatType,
    id: ExprId,
) -> Result<Option<Span>, AllocError>
    requires { From 0 nodes.now (expr_part id) }
    ensures { IfOk result (λ refused. Recorded faults.old.items
        (verdict_as strict pat_type (tree_at nodes.now id.0)) faults.new.items refused) }
{
    if stands_whole(nodes, pat_type, id) {
        let is_target = nodes.is_simple_target(id, strict);
        record_if(faults, !is_target, FaultKind::TS2406, nodes.extent(id))?;
        return Ok(None);
    }
    check_expr(faults, nodes, pat_type.way(strict), id)
}

/// The same of items in parentheses that become parameters, with a comma after the last or not.
pub(crate) fn find_item_faults<F: Spanned + Drop, C: Spanned + Drop, K: Spanned + Drop>(
    faults: &mut Vec<Fault>,
    nodes: &Nodes<F, C, K>,
    items: &Vec<ExprOrSpread<ExprId>>,
    trailing_comma: Option<Span>,
) -> Result<Option<Span>, AllocError>
    requires { Apart 0 nodes.now (flat item_parts items.now.items) }
    ensures { IfOk result (λ refused. Recorded faults.old.items
        (params_verdict trailing_comma (item_trees (λ e. tree_at nodes.now e.0) items.now.items))
        faults.new.items refused) }
{
    let len = items.len();
    for i in 0..len {
        let refused = check_item(faults, nodes, &items[i], i + 1 == len, trailing_comma)?;
        if refused.is_some() {
            return Ok(refused);
        }
    }
    Ok(None)
}

fn check_item<F: Spanned + Drop, C: Spanned + Drop, K: Spanned + Drop>(
    faults: &mut Vec<Fault>,
    nodes: &Nodes<F, C, K>,
    item: &ExprOrSpread<ExprId>,
    is_last: bool,
    trailing_comma: Option<Span>,
) -> Result<Option<Span>, AllocError>
    requires { From 0 nodes.now (expr_part item.now.expr) }
    ensures { IfOk result (λ refused. Recorded faults.old.items
        (param_verdict is_last trailing_comma (item_tree (λ e. tree_at nodes.now e.0) item.now))
        faults.new.items refused) }
{
    match item.spread {
        None => check_expr(faults, nodes, Way::Binding, item.expr),
        Some(dots) => {
            record_param(faults, nodes, dots, item.expr, is_last, trailing_comma)?;
            if !is_last {
                return Ok(None);
            }
            check_expr(faults, nodes, Way::Binding, item.expr)
        }
    }
}

/// Records what is wrong of a spread among items, but for what it holds.
fn record_param<F: Spanned + Drop, C: Spanned + Drop, K: Spanned + Drop>(
    faults: &mut Vec<Fault>,
    nodes: &Nodes<F, C, K>,
    dots: Span,
    held: ExprId,
    is_last: bool,
    trailing_comma: Option<Span>,
) -> Result<(), AllocError>
    requires { From 0 nodes.now (expr_part held) }
    ensures { IfOk result (λ _. faults.new.items
        ≡ faults.old.items ++ param_faults is_last trailing_comma dots (tree_at nodes.now held.0)) }
{
    if is_last {
        return record_spread(faults, nodes, dots, held, true, trailing_comma);
    }
    let span = Span {
        lo: dots.lo,
        hi: nodes.extent(held).hi,
    };
    record(faults, FaultKind::TS1014, span)
}

/// Records what is wrong of the expression and its parts.
#[cycle(check)]
fn check_expr<F: Spanned + Drop, C: Spanned + Drop, K: Spanned + Drop>(
    faults: &mut Vec<Fault>,
    nodes: &Nodes<F, C, K>,
    way: Way,
    id: ExprId,
) -> Result<Option<Span>, AllocError>
    requires { From 0 nodes.now (expr_part id) }
    ensures { IfOk result (λ refused. Recorded faults.old.items
        (verdict (way_of way) (tree_at nodes.now id.0)) faults.new.items refused) }
{
    match nodes.get(id.0) {
        Node::Invalid(_) => Ok(None),
        Node::Array {
            elems,
            trailing_comma,
            ..
        } => check_elems(faults, nodes, way, id, elems, *trailing_comma),
        Node::Object {
            props,
            trailing_comma,
            ..
        } => check_props(faults, nodes, way, id, props, *trailing_comma),
        Node::Assign { op, left, .. } => {
            if !is_plain(*op) {
                record_own(faults, nodes, way, id)?;
                return Ok(None);
            }
            match *left {
                TargetNode::Simple(left) => check_expr(faults, nodes, way, left),
                TargetNode::Pat(left) => check_left(faults, nodes, way, left),
            }
        }
        _ => {
            record_own(faults, nodes, way, id)?;
            Ok(None)
        }
    }
}

/// The same of the elements of the array with the number `id`.
#[cycle(check)]
fn check_elems<F: Spanned + Drop, C: Spanned + Drop, K: Spanned + Drop>(
    faults: &mut Vec<Fault>,
    nodes: &Nodes<F, C, K>,
    way: Way,
    id: ExprId,
    elems: &Vec<Option<ExprOrSpread<ExprId>>>,
    trailing_comma: Option<Span>,
) -> Result<Option<Span>, AllocError>
    requires { ElemsBelow nodes.now id.0 elems.now.items }
    ensures { IfOk result (λ refused. Recorded faults.old.items
        (elems_verdict (way_of way) trailing_comma (elem_trees (tree_at nodes.now) elems.now))
        faults.new.items refused) }
{
    let len = elems.len();
    for i in 0..len {
        let is_last = i + 1 == len;
        let refused = check_elem(faults, nodes, way, &elems[i], is_last, trailing_comma)?;
        if refused.is_some() {
            return Ok(refused);
        }
    }
    Ok(None)
}

/// The same of the properties of the object with the number `id`.
#[cycle(check)]
fn check_props<F: Spanned + Drop, C: Spanned + Drop, K: Spanned + Drop>(
    faults: &mut Vec<Fault>,
    nodes: &Nodes<F, C, K>,
    way: Way,
    id: ExprId,
    props: &Vec<PropNode<K>>,
    trailing_comma: Option<Span>,
) -> Result<Option<Span>, AllocError>
    requires { PropsBelow nodes.now id.0 props.now.items }
    ensures { IfOk result (λ refused. Recorded faults.old.items
        (props_verdict (way_of way) trailing_comma
        (props_trees F.place C.place K.place (tree_at nodes.now) props.now)) faults.new.items refused) }
{
    let len = props.len();
    for i in 0..len {
        let is_last = i + 1 == len;
        let refused = check_prop(faults, nodes, way, &props[i], is_last, trailing_comma)?;
        if refused.is_some() {
            return Ok(refused);
        }
    }
    Ok(None)
}

/// The same of an element of an array. What a spread holds that isn't the last is not looked at.
#[cycle(check)]
fn check_elem<F: Spanned + Drop, C: Spanned + Drop, K: Spanned + Drop>(
    faults: &mut Vec<Fault>,
    nodes: &Nodes<F, C, K>,
    way: Way,
    elem: &Option<ExprOrSpread<ExprId>>,
    is_last: bool,
    trailing_comma: Option<Span>,
) -> Result<Option<Span>, AllocError>
    requires { ElemFrom nodes.now elem.now }
    ensures { IfOk result (λ refused. Recorded faults.old.items
        (elem_verdict (way_of way) is_last trailing_comma (elem_tree (tree_at nodes.now) elem.now))
        faults.new.items refused) }
{
    match elem {
        None => Ok(None),
        Some(item) => match item.spread {
            None => check_expr(faults, nodes, way, item.expr),
            Some(dots) => {
                record_spread(faults, nodes, dots, item.expr, is_last, trailing_comma)?;
                if !is_last {
                    return Ok(None);
                }
                check_expr(faults, nodes, way, item.expr)
            }
        },
    }
}

/// The same of a property of an object. A method is refused.
#[cycle(check)]
fn check_prop<F: Spanned + Drop, C: Spanned + Drop, K: Spanned + Drop>(
    faults: &mut Vec<Fault>,
    nodes: &Nodes<F, C, K>,
    way: Way,
    prop: &PropNode<K>,
    is_last: bool,
    trailing_comma: Option<Span>,
) -> Result<Option<Span>, AllocError>
    requires { PropFrom nodes.now prop.now }
    ensures { IfOk result (λ refused. Recorded faults.old.items
        (prop_verdict (way_of way) is_last trailing_comma
        (prop_of F.place C.place K.place (tree_at nodes.now) prop.now)) faults.new.items refused) }
{
    match prop {
        PropNode::Shorthand(_) => Ok(None),
        PropNode::Assign(_) => Ok(None),
        PropNode::KeyValue { value, .. } => check_expr(faults, nodes, way, *value),
        PropNode::Spread(spread) => {
            record_rest(faults, spread.span, is_last, trailing_comma)?;
            check_held(faults, nodes, way, spread.span, spread.expr)
        }
        PropNode::Method { function, .. } => Ok(Some(function.span)),
        PropNode::Getter { span, .. } => Ok(Some(*span)),
        PropNode::Setter { span, .. } => Ok(Some(*span)),
    }
}

/// The same of what an object's rest with the place `span` holds.
#[cycle(check)]
fn check_held<F: Spanned + Drop, C: Spanned + Drop, K: Spanned + Drop>(
    faults: &mut Vec<Fault>,
    nodes: &Nodes<F, C, K>,
    way: Way,
    span: Span,
    held: ExprId,
) -> Result<Option<Span>, AllocError>
    requires { From 0 nodes.now (expr_part held) }
    ensures { IfOk result (λ refused. Recorded faults.old.items
        (held_verdict (way_of way) span (tree_at nodes.now held.0)
        (verdict (way_of way) (tree_at nodes.now held.0))) faults.new.items refused) }
{
    match way {
        Way::Binding => {
            if !nodes.is_ident(held) {
                record(faults, FaultKind::DotsWithoutIdentifier, span)?;
            }
            Ok(None)
        }
        Way::Target { .. } => {
            let refused = check_expr(faults, nodes, way, held)?;
            if refused.is_some() {
                return Ok(refused);
            }
            if is_plain_assignment(nodes, held) {
                record(faults, FaultKind::TS1048, span)?;
            }
            Ok(None)
        }
    }
}

/// Records a fault.
fn record(faults: &mut Vec<Fault>, kind: FaultKind, span: Span) -> Result<(), AllocError>
    ensures { IfOk result (λ _. faults.new.items ≡ faults.old.items ++ one kind span) }
{
    faults.push(Fault { kind, span })?;
    Ok(())
}

/// Records a fault where it is one.
fn record_if(
    faults: &mut Vec<Fault>,
    is_fault: bool,
    kind: FaultKind,
    span: Span,
) -> Result<(), AllocError>
    ensures { IfOk result (λ _. faults.new.items ≡ faults.old.items ++ one_if is_fault kind span) }
{
    if is_fault {
        return record(faults, kind, span);
    }
    Ok(())
}

/// Records a comma after the last element or property, which is a rest.
fn record_comma(faults: &mut Vec<Fault>, comma: Option<Span>) -> Result<(), AllocError>
    ensures { IfOk result (λ _. faults.new.items ≡ faults.old.items ++ comma_faults comma) }
{
    match comma {
        None => Ok(()),
        Some(span) => record(faults, FaultKind::CommaAfterRestElement, span),
    }
}

/// Records what is wrong of an array's spread, but for what it holds.
fn record_spread<F: Spanned + Drop, C: Spanned + Drop, K: Spanned + Drop>(
    faults: &mut Vec<Fault>,
    nodes: &Nodes<F, C, K>,
    dots: Span,
    held: ExprId,
    is_last: bool,
    trailing_comma: Option<Span>,
) -> Result<(), AllocError>
    requires { From 0 nodes.now (expr_part held) }
    ensures { IfOk result (λ _. faults.new.items
        ≡ faults.old.items ++ spread_faults is_last trailing_comma dots (tree_at nodes.now held.0)) }
{
    let span = Span {
        lo: dots.lo,
        hi: nodes.extent(held).hi,
    };
    if !is_last {
        return record(faults, FaultKind::NonLastRestParam, span);
    }
    record_if(faults, is_assignment(nodes, held), FaultKind::TS1048, span)?;
    record_comma(faults, trailing_comma)
}

/// Records what is wrong of where an object's spread is.
fn record_rest(
    faults: &mut Vec<Fault>,
    span: Span,
    is_last: bool,
    trailing_comma: Option<Span>,
) -> Result<(), AllocError>
    ensures { IfOk result (λ _. faults.new.items ≡ faults.old.items ++ rest_faults is_last trailing_comma span) }
{
    if !is_last {
        return record(faults, FaultKind::NonLastRestParam, span);
    }
    record_comma(faults, trailing_comma)
}

/// Whether the expression is an assignment by `=`.
fn is_plain_assignment<F: Spanned + Drop, C: Spanned + Drop, K: Spanned + Drop>(
    nodes: &Nodes<F, C, K>,
    id: ExprId,
) -> bool
    requires { From 0 nodes.now (expr_part id) }
    ensures { result ≡ plain_assignment (tree_at nodes.now id.0) }
{
    match nodes.get(id.0) {
        Node::Assign { op, .. } => is_plain(*op),
        _ => false,
    }
}

/// Records what is wrong of an expression that is no array, no object, no assignment by `=` and no `Invalid`.
fn record_own<F: Spanned + Drop, C: Spanned + Drop, K: Spanned + Drop>(
    faults: &mut Vec<Fault>,
    nodes: &Nodes<F, C, K>,
    way: Way,
    id: ExprId,
) -> Result<(), AllocError>
    requires { From 0 nodes.now (expr_part id) }
    ensures { IfOk result (λ _. faults.new.items
        ≡ faults.old.items ++ own_faults (way_of way) (tree_at nodes.now id.0)) }
{
    match way {
        Way::Binding => record_if(
            faults,
            !nodes.is_ident(id),
            FaultKind::InvalidPat,
            nodes.extent(id),
        ),
        Way::Target { strict } => record_target(faults, nodes, strict, id),
    }
}

fn record_target<F: Spanned + Drop, C: Spanned + Drop, K: Spanned + Drop>(
    faults: &mut Vec<Fault>,
    nodes: &Nodes<F, C, K>,
    strict: bool,
    id: ExprId,
) -> Result<(), AllocError>
    requires { From 0 nodes.now (expr_part id) }
    ensures { IfOk result (λ _. faults.new.items
        ≡ faults.old.items ++ own_faults (cover.Target strict) (tree_at nodes.now id.0)) }
{
    let span = nodes.extent(id);
    match kind(nodes, id) {
        OwnKind::Held => record_if(
            faults,
            !nodes.is_simple_target(id, strict),
            FaultKind::NotSimpleAssign,
            span,
        ),
        OwnKind::Assignment => record(faults, FaultKind::InvalidPat, span),
        OwnKind::Other => {
            record(faults, FaultKind::InvalidPat, span)?;
            record(faults, FaultKind::InvalidPat, span)
        }
    }
}

/// What is recorded of an expression that is assigned to.
#[derive(Clone, Copy, Debug, PartialEq, Eq)]
enum OwnKind {
    /// What cannot be assigned to.
    Held,
    /// One fault.
    Assignment,
    /// Two faults.
    Other,
}

fn kind<F: Spanned + Drop, C: Spanned + Drop, K: Spanned + Drop>(
    nodes: &Nodes<F, C, K>,
    id: ExprId,
) -> OwnKind
    requires { From 0 nodes.now (expr_part id) }
    ensures { result ≡ own_kind (kind_of (tree_at nodes.now id.0)) }
{
    match nodes.get(id.0) {
        Node::Ident(_)
        | Node::Member(_)
        | Node::SuperProp(_)
        | Node::Call { .. }
        | Node::New { .. }
        | Node::Fn(_)
        | Node::Class(_)
        | Node::Paren(_)
        | Node::Tpl(_)
        | Node::Str(_)
        | Node::Bool(_)
        | Node::Null(_)
        | Node::Num(_)
        | Node::BigInt(_)
        | Node::Regex(_) => OwnKind::Held,
        Node::Assign { .. } => OwnKind::Assignment,
        _ => OwnKind::Other,
    }
}

/// The same of a pattern that is left of a `=` already.
fn check_left<F: Spanned + Drop, C: Spanned + Drop, K: Spanned + Drop>(
    faults: &mut Vec<Fault>,
    nodes: &Nodes<F, C, K>,
    way: Way,
    id: PatId,
) -> Result<Option<Span>, AllocError>
    requires { From 0 nodes.now (pat_part id) }
    ensures { IfOk result (λ refused. Recorded faults.old.items
        (recorded (left_faults (way_of way) (tree_at nodes.now id.0))) faults.new.items refused) }
{
    match way {
        Way::Binding => {
            record_again(faults, nodes, id)?;
            Ok(None)
        }
        Way::Target { .. } => Ok(None),
    }
}

/// Records what is wrong of a pattern, as one that binds.
#[cycle(again)]
fn record_again<F: Spanned + Drop, C: Spanned + Drop, K: Spanned + Drop>(
    faults: &mut Vec<Fault>,
    nodes: &Nodes<F, C, K>,
    id: PatId,
) -> Result<(), AllocError>
    requires { From 0 nodes.now (pat_part id) }
    ensures { IfOk result (λ _. faults.new.items ≡ faults.old.items ++ again (tree_at nodes.now id.0)) }
{
    match nodes.get(id.0) {
        Node::PatArray { elems, .. } => again_elems(faults, nodes, id, elems),
        Node::PatObject { props, .. } => again_props(faults, nodes, id, props),
        Node::PatAssign { left, .. } => again_part(faults, nodes, *left),
        Node::PatRest { arg, .. } => record_again(faults, nodes, *arg),
        Node::PatExpr(_) => record(faults, FaultKind::InvalidPat, nodes.pat_extent(id)),
        _ => Ok(()),
    }
}

/// The same of the elements of the array pattern with the number `id`.
#[cycle(again)]
fn again_elems<F: Spanned + Drop, C: Spanned + Drop, K: Spanned + Drop>(
    faults: &mut Vec<Fault>,
    nodes: &Nodes<F, C, K>,
    id: PatId,
    elems: &Vec<Option<PatElem>>,
) -> Result<(), AllocError>
    requires { PatElemsBelow nodes.now id.0 elems.now.items }
    ensures { IfOk result (λ _. faults.new.items
        ≡ faults.old.items ++ all_again (held_elem_trees (tree_at nodes.now) elems.now)) }
{
    for i in 0..elems.len() {
        again_elem(faults, nodes, elems[i])?;
    }
    Ok(())
}

/// The same of the properties of the object pattern with the number `id`.
#[cycle(again)]
fn again_props<F: Spanned + Drop, C: Spanned + Drop, K: Spanned + Drop>(
    faults: &mut Vec<Fault>,
    nodes: &Nodes<F, C, K>,
    id: PatId,
    props: &Vec<PatPropNode>,
) -> Result<(), AllocError>
    requires { PatPropsBelow nodes.now id.0 props.now.items }
    ensures { IfOk result (λ _. faults.new.items
        ≡ faults.old.items ++ props_again (pat_props_trees F.place C.place K.place (tree_at nodes.now) props.now)) }
{
    for i in 0..props.len() {
        again_prop(faults, nodes, &props[i])?;
    }
    Ok(())
}

/// The same of an element of an array pattern.
#[cycle(again)]
fn again_elem<F: Spanned + Drop, C: Spanned + Drop, K: Spanned + Drop>(
    faults: &mut Vec<Fault>,
    nodes: &Nodes<F, C, K>,
    elem: Option<PatElem>,
) -> Result<(), AllocError>
    requires { PatElemFrom nodes.now elem }
    ensures { IfOk result (λ _. faults.new.items
        ≡ faults.old.items ++ again (held_elem_tree (tree_at nodes.now) elem)) }
{
    match elem {
        None => Ok(()),
        Some(PatElem::Item(part)) => again_part(faults, nodes, part),
        Some(PatElem::Rest { arg, .. }) => again_part(faults, nodes, arg),
    }
}

/// The same of a part of a pattern.
#[cycle(again)]
fn again_part<F: Spanned + Drop, C: Spanned + Drop, K: Spanned + Drop>(
    faults: &mut Vec<Fault>,
    nodes: &Nodes<F, C, K>,
    part: PatPart,
) -> Result<(), AllocError>
    requires { PatPartFrom nodes.now part }
    ensures { IfOk result (λ _. faults.new.items
        ≡ faults.old.items ++ again (part_tree (tree_at nodes.now) part)) }
{
    match part {
        PatPart::Pat(pat) => record_again(faults, nodes, pat),
        PatPart::Expr(expr) => record(faults, FaultKind::InvalidPat, nodes.extent(expr)),
    }
}

/// The same of a property of an object pattern.
#[cycle(again)]
fn again_prop<F: Spanned + Drop, C: Spanned + Drop, K: Spanned + Drop>(
    faults: &mut Vec<Fault>,
    nodes: &Nodes<F, C, K>,
    prop: &PatPropNode,
) -> Result<(), AllocError>
    requires { PatPropFrom nodes.now prop.now }
    ensures { IfOk result (λ _. faults.new.items
        ≡ faults.old.items ++ prop_again (pat_prop_of F.place C.place K.place (tree_at nodes.now) prop.now)) }
{
    match prop {
        PatPropNode::KeyValue { value, .. } => again_part(faults, nodes, *value),
        PatPropNode::Assign { .. } => Ok(()),
        PatPropNode::Rest { span, arg, .. } => record_if(
            faults,
            !is_rest(nodes, *arg),
            FaultKind::DotsWithoutIdentifier,
            *span,
        ),
    }
}

/// Whether an object's rest may hold the part: an identifier, or what is recorded of itself.
fn is_rest<F: Spanned + Drop, C: Spanned + Drop, K: Spanned + Drop>(
    nodes: &Nodes<F, C, K>,
    part: PatPart,
) -> bool
    requires { PatPartFrom nodes.now part }
    ensures { result ≡ may_rest (part_tree (tree_at nodes.now) part) }
{
    match part {
        PatPart::Pat(id) => matches!(nodes.get(id.0), Node::PatIdent(_) | Node::PatInvalid(_)),
        PatPart::Expr(_) => false,
    }
}
