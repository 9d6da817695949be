// What a node becomes that is to become a pattern, and what its parts are to become.
ghost use Rattle.std.specs.Prelude.{◌≡◌, ℕ, ◌<◌, ◌≤◌, true, false, [], ◌∷◌, ◌++◌, IfOk, drop, length, map};
ghost use Rattle.swc_context.specs.declared.span.Span.{Span};
ghost use Rattle.swc_nodes.specs.Lists.{elem_parts, props_parts};
ghost use Rattle.swc_nodes.specs.NodeParts.{form, flat, one_expr, prop_parts, slots, target_part};
ghost use Rattle.swc_nodes.specs.Recasting.{all_none, bare_part, bare_prop, bare_some, elems_for, item_for, left_for, part_for, prop_for, props_for};
ghost use Rattle.swc_nodes.specs.Roles.{again_dues, array_dues, becomes_as, default_dues, dues_of, elem_dues, item_dues, keep, left_due, left_role, object_dues, part_dues, pat_elem_dues, pat_prop_dues, prop_dues, ready};
ghost use Rattle.swc_nodes.specs.Roles as roles;
ghost use Rattle.swc_nodes.specs.Turning.{bare_tree, is_made, is_placed, node_at, own_place, place_in, IsAgain, IsRecast, PartsIn, RecastIn};
ghost use Rattle.swc_nodes.specs.declared.node.Node.{Node as n};
ghost use Rattle.swc_nodes.specs.declared.role.Becomes.{Becomes as to};
ghost use Rattle.swc_nodes.specs.declared.role.Role.{Role as AnyRole};

use crate::apart::{PartId, Parts, parts_of};
use crate::node::{ExprId, Node, PatElem, PatId, PatPart, PatPropNode, PropNode, TargetNode};
use crate::role::{Becomes, Duty, Role, how, of_expr, of_rest};
use crate::shape::place_of;
use std::alloc::{AllocError, Global};
use swc_ast::expr::{ExprOrSpread, Invalid};
use swc_ast::ident::BindingIdent;
use swc_ast::prop::{AssignProp, SpreadElement};
use swc_ast::spanned::Spanned;
use swc_context::span::Span;

/// Puts that all parts are kept after what is due.
pub(crate) fn add_kept<T: Parts>(
    due: &mut Vec<Duty>,
    alloc: Global,
    item: &T,
) -> Result<(), AllocError>
    ensures { IfOk result (λ _. map roles.due due.new.items
        ≡ map roles.due due.old.items ++ map keep (T.parts item.now)) }
{
    let parts = parts_of(alloc, item)?;
    for part in &parts {
        due.push(Duty {
            part: *part,
            role: Role::Keep,
        })?;
    }
    Ok(())
}

/// What the node becomes, and puts what its parts are to become after what is due. The nodes of its parts are among
/// `nodes`, as they were.
pub(crate) fn recast<F: Spanned + Drop, C: Spanned + Drop, K: Spanned + Drop>(
    nodes: &Vec<Node<F, C, K>>,
    due: &mut Vec<Duty>,
    alloc: Global,
    becomes: Becomes,
    role: Role,
    node: Node<F, C, K>,
) -> Result<Node<F, C, K>, AllocError>
    requires how { becomes ≡ becomes_as role node }
    requires made { is_made becomes ≡ true }
    requires ready { ready role (form node) ≡ true }
    requires parts { PartsIn nodes.now.items (slots node) }
    ensures node { IfOk result (RecastIn F.place C.place K.place nodes.now.items becomes role node) }
    ensures dues { IfOk result (λ _. map roles.due due.new.items ≡ map roles.due due.old.items ++ dues_of role node) }
{
    match becomes {
        Becomes::Ident => Ok(to_ident(node)),
        Becomes::Array => to_array(nodes, due, alloc, role, node),
        Becomes::Object => to_object(nodes, due, alloc, role, node),
        Becomes::Default => to_default(nodes, due, role, node),
        Becomes::Instead(span) => Ok(Node::PatInvalid(Invalid { span })),
        Becomes::Nothing => Ok(to_nothing(nodes, &node)),
        _ => Ok(node),
    }
}

/// What takes the place of a pattern, where there is none: a fault was recorded.
fn to_nothing<F: Spanned, C: Spanned, K: Spanned>(
    nodes: &Vec<Node<F, C, K>>,
    node: &Node<F, C, K>,
) -> Node<F, C, K>
    requires placed { is_placed node.now ≡ true }
    requires parts { PartsIn nodes.now.items (slots node.now) }
    ensures { result ≡ n.PatInvalid (record {
      span = own_place F.place C.place K.place (bare_tree F.place C.place K.place nodes.now.items) node.now;
    }) }
{
    let span = match node {
        Node::PatExpr(expr) => place_of(&nodes[expr.0]),
        _ => place_of(node),
    };
    Node::PatInvalid(Invalid { span })
}

/// An identifier, as a pattern. What is none stays.
fn to_ident<F: Drop, C: Drop, K: Drop>(node: Node<F, C, K>) -> Node<F, C, K>
    ensures { (at : ℕ → n F C K) (place : ℕ → Span) (own : n F C K → Span) (r : AnyRole) →
        IsRecast at place own to.Ident r node result }
{
    match node {
        Node::Ident(id) => Node::PatIdent(BindingIdent { id }),
        node => node,
    }
}

/// What is held of an expression that is to become a pattern.
fn part_for<F, C, K>(nodes: &Vec<Node<F, C, K>>, role: Role, id: ExprId) -> PatPart
    requires { id.0 < length nodes.now.items }
    ensures { result ≡ part_for (node_at nodes.now.items) role id }
{
    match how(role, &nodes[id.0]) {
        Becomes::Held => PatPart::Expr(id),
        _ => PatPart::Pat(PatId(id.0)),
    }
}

/// The pattern and the default value of an assignment. What is none stays.
fn to_default<F: Spanned + Drop, C: Spanned + Drop, K: Spanned + Drop>(
    nodes: &Vec<Node<F, C, K>>,
    due: &mut Vec<Duty>,
    role: Role,
    node: Node<F, C, K>,
) -> Result<Node<F, C, K>, AllocError>
    requires { PartsIn nodes.now.items (slots node) }
    ensures node { IfOk result (RecastIn F.place C.place K.place nodes.now.items to.Default role node) }
    ensures dues { IfOk result (λ _. map roles.due due.new.items
        ≡ map roles.due due.old.items ++ default_dues role node) }
{
    match node {
        Node::Assign {
            span,
            left,
            right,
            ..
        } => {
            let left = to_left(nodes, due, role, left)?;
            due.push(Duty {
                part: PartId::Expr(right),
                role: Role::Keep,
            })?;
            Ok(Node::PatAssign { span, left, right })
        }
        node => Ok(node),
    }
}

/// What is left of a `=`, which may be a pattern already.
fn to_left<F, C, K>(
    nodes: &Vec<Node<F, C, K>>,
    due: &mut Vec<Duty>,
    role: Role,
    left: TargetNode,
) -> Result<PatPart, AllocError>
    requires { (target_part left).at < length nodes.now.items }
    ensures part { IfOk result (λ part. part ≡ left_for (node_at nodes.now.items) role left) }
    ensures dues { IfOk result (λ _. map roles.due due.new.items
        ≡ map roles.due due.old.items ++ left_due role left ∷ []) }
{
    match left {
        TargetNode::Simple(id) => {
            due.push(Duty {
                part: PartId::Expr(id),
                role,
            })?;
            Ok(part_for(nodes, role, id))
        }
        TargetNode::Pat(id) => {
            due.push(Duty {
                part: PartId::Pat(id),
                role: left_role(role),
            })?;
            Ok(PatPart::Pat(id))
        }
    }
}

/// What a pattern that is left of a `=` is to become: it was refined, and isn't entered again, unless it is to bind.
fn left_role(role: Role) -> Role
    ensures { result ≡ left_role role }
{
    match role {
        Role::Bind => Role::Rebind,
        _ => Role::Keep,
    }
}

/// An array pattern of an array. What is none stays.
fn to_array<F: Spanned + Drop, C: Spanned + Drop, K: Spanned + Drop>(
    nodes: &Vec<Node<F, C, K>>,
    due: &mut Vec<Duty>,
    alloc: Global,
    role: Role,
    node: Node<F, C, K>,
) -> Result<Node<F, C, K>, AllocError>
    requires { PartsIn nodes.now.items (slots node) }
    ensures node { IfOk result (RecastIn F.place C.place K.place nodes.now.items to.Array role node) }
    ensures dues { IfOk result (λ _. map roles.due due.new.items
        ≡ map roles.due due.old.items ++ array_dues role node) }
{
    match node {
        Node::Array { span, elems, .. } => {
            let elems = to_elems(nodes, due, alloc, role, &elems)?;
            Ok(Node::PatArray { span, elems })
        }
        node => Ok(node),
    }
}

/// The elements of an array pattern, of those of an array: holes that are after all others are none of them.
fn to_elems<F: Spanned, C: Spanned, K: Spanned>(
    nodes: &Vec<Node<F, C, K>>,
    due: &mut Vec<Duty>,
    alloc: Global,
    role: Role,
    elems: &Vec<Option<ExprOrSpread<ExprId>>>,
) -> Result<Vec<Option<PatElem>>, AllocError>
    requires { PartsIn nodes.now.items (elem_parts elems.now) }
    ensures elems { IfOk result (λ pats. pats.items
        ≡ elems_for (node_at nodes.now.items) (place_in F.place C.place K.place nodes.now.items) role elems.now.items) }
    ensures dues { IfOk result (λ _. map roles.due due.new.items
        ≡ map roles.due due.old.items ++ elem_dues role elems.now.items) }
{
    let mut pats = Vec::new(alloc);
    for i in 0..without_holes(elems) {
        match &elems[i] {
            None => pats.push(None)?,
            Some(item) => add_item(nodes, due, &mut pats, role, item, i + 1 == elems.len())?,
        }
    }
    Ok(pats)
}

/// How many elements there are before the holes at the end.
fn without_holes(elems: &Vec<Option<ExprOrSpread<ExprId>>>) -> usize
    ensures within { result ≤ length elems.now.items }
    ensures after { all_none (drop result elems.now.items) ≡ true }
    ensures before { (i : ℕ) → i < result → all_none (drop i elems.now.items) ≡ false }
{
    let mut len = elems.len();
    while len > 0 && elems[len - 1].is_none() {
        len -= 1;
    }
    len
}

/// Puts the pattern of an item after others: a spread becomes a rest where it is the last, and is dropped elsewhere.
fn add_item<F: Spanned, C: Spanned, K: Spanned>(
    nodes: &Vec<Node<F, C, K>>,
    due: &mut Vec<Duty>,
    pats: &mut Vec<Option<PatElem>>,
    role: Role,
    item: &ExprOrSpread<ExprId>,
    is_last: bool,
) -> Result<(), AllocError>
    requires { PartsIn nodes.now.items (one_expr item.now.expr) }
    ensures items { IfOk result (λ _. pats.new.items ≡ pats.old.items
        ++ item_for (node_at nodes.now.items) (place_in F.place C.place K.place nodes.now.items) role is_last
        item.now.spread item.now.expr) }
    ensures dues { IfOk result (λ _. map roles.due due.new.items
        ≡ map roles.due due.old.items ++ item_dues role is_last item.now.spread item.now.expr) }
{
    let arg = part_for(nodes, role, item.expr);
    let elem = match item.spread {
        None => PatElem::Item(arg),
        Some(_) if !is_last => return Ok(()),
        Some(dot3_token) => PatElem::Rest {
            span: place_of(&nodes[item.expr.0]),
            dot3_token,
            arg,
        },
    };
    due.push(Duty {
        part: PartId::Expr(item.expr),
        role,
    })?;
    pats.push(Some(elem))?;
    Ok(())
}

/// An object pattern of an object. What is none stays.
fn to_object<F: Spanned + Drop, C: Spanned + Drop, K: Spanned + Drop>(
    nodes: &Vec<Node<F, C, K>>,
    due: &mut Vec<Duty>,
    alloc: Global,
    role: Role,
    node: Node<F, C, K>,
) -> Result<Node<F, C, K>, AllocError>
    requires { PartsIn nodes.now.items (slots node) }
    ensures node { IfOk result (RecastIn F.place C.place K.place nodes.now.items to.Object role node) }
    ensures dues { IfOk result (λ _. map roles.due due.new.items
        ≡ map roles.due due.old.items ++ object_dues role node) }
{
    match node {
        Node::Object { span, props, .. } => {
            let props = to_props(nodes, due, alloc, role, props)?;
            Ok(Node::PatObject { span, props })
        }
        node => Ok(node),
    }
}

/// The properties of an object pattern, of those of an object, whose methods are dropped.
fn to_props<F, C, K: Drop>(
    nodes: &Vec<Node<F, C, K>>,
    due: &mut Vec<Duty>,
    alloc: Global,
    role: Role,
    props: Vec<PropNode<K>>,
) -> Result<Vec<PatPropNode>, AllocError>
    requires { PartsIn nodes.now.items (props_parts props) }
    ensures props { IfOk result (λ pats. pats.items ≡ props_for (node_at nodes.now.items) role props.items) }
    ensures dues { IfOk result (λ _. map roles.due due.new.items
        ≡ map roles.due due.old.items ++ flat (prop_dues role) props.items) }
{
    let mut pats = Vec::new(alloc);
    for prop in props {
        add_prop(due, alloc, role, &prop)?;
        if let Some(pat) = to_prop(nodes, role, prop) {
            pats.push(pat)?;
        }
    }
    Ok(pats)
}

/// Puts what the parts of a property are to become after what is due.
fn add_prop<K>(
    due: &mut Vec<Duty>,
    alloc: Global,
    role: Role,
    prop: &PropNode<K>,
) -> Result<(), AllocError>
    ensures { IfOk result (λ _. map roles.due due.new.items ≡ map roles.due due.old.items ++ prop_dues role prop.now) }
{
    match prop {
        PropNode::Spread(spread) => {
            due.push(Duty {
                part: PartId::Expr(spread.expr),
                role: of_rest(role, spread.span),
            })?;
            Ok(())
        }
        PropNode::KeyValue { key, value, .. } => {
            add_kept(due, alloc, key)?;
            due.push(Duty {
                part: PartId::Expr(*value),
                role,
            })?;
            Ok(())
        }
        PropNode::Assign(prop) => add_kept(due, alloc, &prop.value),
        _ => Ok(()),
    }
}

/// What a property becomes; a method becomes none.
fn to_prop<F, C, K: Drop>(
    nodes: &Vec<Node<F, C, K>>,
    role: Role,
    prop: PropNode<K>,
) -> Option<PatPropNode>
    requires { PartsIn nodes.now.items (prop_parts prop) }
    ensures { result ≡ prop_for (node_at nodes.now.items) role prop }
{
    match prop {
        PropNode::Spread(
            SpreadElement {
                span,
                dot3_token,
                expr,
            },
        ) => Some(PatPropNode::Rest {
            span,
            dot3_token,
            arg: part_for(nodes, of_rest(role, span), expr),
        }),
        PropNode::Shorthand(id) => Some(PatPropNode::Assign {
            span: id.span,
            key: BindingIdent { id },
            value: None,
        }),
        PropNode::KeyValue { span, key, value } => Some(PatPropNode::KeyValue {
            span,
            key,
            value: part_for(nodes, role, value),
        }),
        PropNode::Assign(AssignProp { span, key, value }) => Some(PatPropNode::Assign {
            span,
            key: BindingIdent { id: key },
            value: Some(value),
        }),
        _ => None,
    }
}

/// Has the parts of a pattern become what they are to, where it binds, and puts that after what is due.
pub(crate) fn rebind<F, C, K>(
    due: &mut Vec<Duty>,
    alloc: Global,
    node: &mut Node<F, C, K>,
) -> Result<(), AllocError>
    ensures node { IfOk result (λ _. IsAgain node.old node.new) }
    ensures dues { IfOk result (λ _. map roles.due due.new.items ≡ map roles.due due.old.items ++ again_dues node.old) }
{
    match node {
        Node::PatArray { elems, .. } => rebind_elems(due, elems),
        Node::PatObject { props, .. } => rebind_props(due, alloc, props),
        Node::PatAssign { left, right, .. } => {
            rebind_part(due, Role::Rebind, left)?;
            add_kept(due, alloc, right)
        }
        Node::PatRest { arg, .. } => {
            due.push(Duty {
                part: PartId::Pat(*arg),
                role: Role::Rebind,
            })?;
            Ok(())
        }
        _ => Ok(()),
    }
}

fn rebind_elems(due: &mut Vec<Duty>, elems: &mut Vec<Option<PatElem>>) -> Result<(), AllocError>
    ensures elems { IfOk result (λ _. elems.new.items ≡ map bare_some elems.old.items) }
    ensures dues { IfOk result (λ _. map roles.due due.new.items
        ≡ map roles.due due.old.items ++ flat pat_elem_dues elems.old.items) }
{
    for elem in elems.iter_mut() {
        rebind_elem(due, elem)?;
    }
    Ok(())
}

fn rebind_elem(due: &mut Vec<Duty>, elem: &mut Option<PatElem>) -> Result<(), AllocError>
    ensures elem { IfOk result (λ _. elem.new ≡ bare_some elem.old) }
    ensures dues { IfOk result (λ _. map roles.due due.new.items
        ≡ map roles.due due.old.items ++ pat_elem_dues elem.old) }
{
    match elem {
        None => Ok(()),
        Some(PatElem::Item(part)) => rebind_part(due, Role::Rebind, part),
        Some(PatElem::Rest { arg, .. }) => rebind_part(due, Role::Rebind, arg),
    }
}

fn rebind_props(
    due: &mut Vec<Duty>,
    alloc: Global,
    props: &mut Vec<PatPropNode>,
) -> Result<(), AllocError>
    ensures props { IfOk result (λ _. props.new.items ≡ map bare_prop props.old.items) }
    ensures dues { IfOk result (λ _. map roles.due due.new.items
        ≡ map roles.due due.old.items ++ flat pat_prop_dues props.old.items) }
{
    for prop in props.iter_mut() {
        rebind_prop(due, alloc, prop)?;
    }
    Ok(())
}

fn rebind_prop(due: &mut Vec<Duty>, alloc: Global, prop: &mut PatPropNode) -> Result<(), AllocError>
    ensures prop { IfOk result (λ _. prop.new ≡ bare_prop prop.old) }
    ensures dues { IfOk result (λ _. map roles.due due.new.items
        ≡ map roles.due due.old.items ++ pat_prop_dues prop.old) }
{
    match prop {
        PatPropNode::KeyValue { key, value, .. } => {
            add_kept(due, alloc, key)?;
            rebind_part(due, Role::Rebind, value)
        }
        PatPropNode::Assign { value, .. } => add_kept(due, alloc, value),
        PatPropNode::Rest { span, arg, .. } => rebind_part(due, Role::RebindRest(*span), arg),
    }
}

/// An expression that is assigned to binds nothing: it becomes no pattern.
fn rebind_part(due: &mut Vec<Duty>, role: Role, part: &mut PatPart) -> Result<(), AllocError>
    ensures part { IfOk result (λ _. part.new ≡ bare_part part.old) }
    ensures dues { IfOk result (λ _. map roles.due due.new.items
        ≡ map roles.due due.old.items ++ part_dues role part.old) }
{
    match *part {
        PatPart::Pat(id) => {
            due.push(Duty {
                part: PartId::Pat(id),
                role,
            })?;
        }
        PatPart::Expr(id) => {
            due.push(Duty {
                part: PartId::Expr(id),
                role: of_expr(role),
            })?;
            *part = PatPart::Pat(PatId(id.0));
        }
    }
    Ok(())
}
