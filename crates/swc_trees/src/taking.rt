// Moves boxed trees out of the nodes, by two loops: one takes the nodes out, the last part of each first, and one makes
// the trees, each from the trees of its parts. So no recursion goes as deep as a tree.
ghost use Rattle.std.specs.Prelude.{◌≡◌, true, [], map, reverse, IfOk};
ghost use Rattle.swc_ast.specs.Parts.{prop_name_tree, args_tree, param_tree, tpl_tree};
ghost use Rattle.swc_nodes.specs.NodeParts.{form, view_ok, slots, expr_part, pat_part, key_parts, prop_parts, args_parts, flat, for_head_parts, param_parts, pat_prop_parts};
ghost use Rattle.swc_nodes.specs.GrowingNodes.{count, seat_at, bare_at, first_at, Apart, From, Left};
ghost use Rattle.swc_nodes.specs.{Lists.exprs_parts, Lists.pats_parts, NodeTree.node_tree, NumberedTrees.floor, Walking.part_of};
ghost use Rattle.swc_trees.specs.Building.{part_kind, built_kind, built_tree, AreFor, Offers, Assembled};
ghost use Rattle.swc_trees.specs.Lifting.{Reads};
ghost use Rattle.swc_trees.specs.Moving.{TakesOut, boxed_in, pat_in, prop_or_spread_in, prop_node_as, pat_prop_in, pat_prop_node_as, IsHead};

use crate::assembling::{assemble_expr, assemble_pat, assemble_target};
use crate::built::{Built, pop_expr, pop_pat};
use crate::items::{Item, all};
use crate::pieces::template;
use crate::refusable::boxed;
use std::alloc::{AllocError, Global};
use swc_ast::expr::{Expr, ExprOrSpread, Tpl};
use swc_ast::for_head::ForHead;
use swc_ast::function::Param;
use swc_ast::pat::{ObjectPatProp, Pat};
use swc_ast::prop::{ComputedPropName, PropName, PropOrSpread};
use swc_ast::spanned::Spanned;
use swc_nodes::apart::{PartId, Parts, parts_of};
use swc_nodes::aside::Aside;
use swc_nodes::node::{ExprId, ForHeadId, Node, PatId, PatPropNode, PropNode};
use swc_nodes::nodes::Nodes;

/// A node that was taken out, and the part that it was taken for.
#[derive(Drop)]
pub(crate) struct Lifted<F, C, K> {
    part: PartId,
    node: Node<F, C, K>,
}

/// Moves an expression out of the nodes, and drops all after it.
pub fn take_expr<F: Spanned + Drop, C: Spanned + Drop, K: Spanned + Drop>(
    nodes: &mut Nodes<F, C, K>,
    alloc: Global,
    id: ExprId,
) -> Result<Box<Expr<F, C, K>>, AllocError>
    requires { From 0 nodes.old (expr_part id) }
    ensures left { Left (first_at nodes.old id.0) nodes.old nodes.new }
    ensures moved { IfOk result (λ e. boxed_in nodes.old e ≡ bare_at nodes.old id.0) }
{
    let parts = parts_of(alloc, &id)?;
    let mut built = take_all(nodes, alloc, parts)?;
    Ok(pop_expr(&mut built, id))
}

/// Moves a pattern out of the nodes, and drops all after it.
pub fn take_pat<F: Spanned + Drop, C: Spanned + Drop, K: Spanned + Drop>(
    nodes: &mut Nodes<F, C, K>,
    alloc: Global,
    id: PatId,
) -> Result<Pat<F, C, K>, AllocError>
    requires { From 0 nodes.old (pat_part id) }
    ensures left { Left (first_at nodes.old id.0) nodes.old nodes.new }
    ensures moved { IfOk result (λ p. pat_in nodes.old p ≡ bare_at nodes.old id.0) }
{
    let parts = parts_of(alloc, &id)?;
    let mut built = take_all(nodes, alloc, parts)?;
    Ok(pop_pat(&mut built, id))
}

/// Moves what the head of a `for` begins with out of the nodes, and drops all after it.
pub fn take_for_head<F: Spanned + Drop, C: Spanned + Drop, K: Spanned + Drop>(
    nodes: &mut Nodes<F, C, K>,
    alloc: Global,
    head: ForHeadId,
) -> Result<ForHead<F, C, K>, AllocError>
    requires { Apart 0 nodes.old (for_head_parts head) }
    ensures left { Left (floor (seat_at nodes.old) (count nodes.old) (for_head_parts head)) nodes.old nodes.new }
    ensures moved { IfOk result (λ h. IsHead nodes.old head h) }
{
    match head {
        ForHeadId::Target(pat) => {
            let target = boxed(alloc, take_pat(nodes, alloc, pat))?;
            Ok(ForHead::Target(target))
        }
        ForHeadId::Expr(expr) => Ok(ForHead::Expr(take_expr(nodes, alloc, expr)?)),
    }
}

/// Moves what a key holds out of the nodes, and drops all after it. Other keys than expressions hold none.
pub fn take_key<F: Spanned + Drop, C: Spanned + Drop, K: Spanned + Drop>(
    nodes: &mut Nodes<F, C, K>,
    alloc: Global,
    key: PropName<ExprId>,
) -> Result<PropName<Box<Expr<F, C, K>>>, AllocError>
    requires { Apart 0 nodes.old (key_parts key) }
    ensures left { Left (floor (seat_at nodes.old) (count nodes.old) (key_parts key)) nodes.old nodes.new }
    ensures moved { IfOk result (λ k. prop_name_tree (boxed_in nodes.old) k
        ≡ prop_name_tree (λ id. bare_at nodes.old id.0) key) }
{
    match key {
        PropName::Ident(name) => Ok(PropName::Ident(name)),
        PropName::Str(text) => Ok(PropName::Str(text)),
        PropName::Num(num) => Ok(PropName::Num(num)),
        PropName::BigInt(num) => Ok(PropName::BigInt(num)),
        PropName::Computed(ComputedPropName { span, expr }) => {
            let expr = take_expr(nodes, alloc, expr)?;
            Ok(PropName::Computed(ComputedPropName { span, expr }))
        }
    }
}

/// Moves a property of an object literal out of the nodes, and drops all after it.
pub fn take_prop<F: Spanned + Drop, C: Spanned + Drop, K: Spanned + Drop>(
    nodes: &mut Nodes<F, C, K>,
    alloc: Global,
    prop: PropNode<K>,
) -> Result<PropOrSpread<F, C, K>, AllocError>
    requires { Apart 0 nodes.old (prop_parts prop) }
    ensures left { Left (floor (seat_at nodes.old) (count nodes.old) (prop_parts prop)) nodes.old nodes.new }
    ensures moved { IfOk result
        (λ p. prop_or_spread_in nodes.old p ≡ prop_node_as nodes.old (bare_at nodes.old) prop) }
{
    let prop = Aside(prop);
    let parts = parts_of(alloc, &prop.0)?;
    let mut built = take_all(nodes, alloc, parts)?;
    prop.into_inner().assemble(alloc, &mut built)
}

/// Moves a property of an object pattern out of the nodes, and drops all after it.
pub fn take_pat_prop<F: Spanned + Drop, C: Spanned + Drop, K: Spanned + Drop>(
    nodes: &mut Nodes<F, C, K>,
    alloc: Global,
    prop: PatPropNode,
) -> Result<ObjectPatProp<F, C, K>, AllocError>
    requires { Apart 0 nodes.old (pat_prop_parts prop) }
    ensures left { Left (floor (seat_at nodes.old) (count nodes.old) (pat_prop_parts prop)) nodes.old nodes.new }
    ensures moved { IfOk result
        (λ p. pat_prop_in nodes.old p ≡ pat_prop_node_as nodes.old (bare_at nodes.old) prop) }
{
    let parts = parts_of(alloc, &prop)?;
    let mut built = take_all(nodes, alloc, parts)?;
    prop.assemble(alloc, &mut built)
}

/// Moves formal parameters out of the nodes, and drops all after them.
pub fn take_params<F: Spanned + Drop, C: Spanned + Drop, K: Spanned + Drop>(
    nodes: &mut Nodes<F, C, K>,
    alloc: Global,
    params: Vec<Param<PatId>>,
) -> Result<Vec<Param<Pat<F, C, K>>>, AllocError>
    requires { Apart 0 nodes.old (flat param_parts params.items) }
    ensures left { Left (floor (seat_at nodes.old) (count nodes.old) (flat param_parts params.items))
        nodes.old nodes.new }
    ensures moved { IfOk result (λ ps. map (param_tree (pat_in nodes.old)) ps.items
        ≡ map (param_tree (λ id. bare_at nodes.old id.0)) params.items) }
{
    let parts = parts_of(alloc, &params)?;
    let mut built = take_all(nodes, alloc, parts)?;
    all(alloc, &mut built, params)
}

/// Moves patterns, as the parameters of an arrow function, out of the nodes, and drops all after them.
pub fn take_pats<F: Spanned + Drop, C: Spanned + Drop, K: Spanned + Drop>(
    nodes: &mut Nodes<F, C, K>,
    alloc: Global,
    pats: Vec<PatId>,
) -> Result<Vec<Pat<F, C, K>>, AllocError>
    requires { Apart 0 nodes.old (pats_parts pats) }
    ensures left { Left (floor (seat_at nodes.old) (count nodes.old) (pats_parts pats)) nodes.old nodes.new }
    ensures moved { IfOk result (λ ps. map (pat_in nodes.old) ps.items
        ≡ map (λ id. bare_at nodes.old id.0) pats.items) }
{
    let parts = parts_of(alloc, &pats)?;
    let mut built = take_all(nodes, alloc, parts)?;
    all(alloc, &mut built, pats)
}

/// Moves arguments of a call out of the nodes, and drops all after them.
pub fn take_args<F: Spanned + Drop, C: Spanned + Drop, K: Spanned + Drop>(
    nodes: &mut Nodes<F, C, K>,
    alloc: Global,
    args: Vec<ExprOrSpread<ExprId>>,
) -> Result<Vec<ExprOrSpread<Box<Expr<F, C, K>>>>, AllocError>
    requires { Apart 0 nodes.old (args_parts args) }
    ensures left { Left (floor (seat_at nodes.old) (count nodes.old) (args_parts args)) nodes.old nodes.new }
    ensures moved { IfOk result (λ xs. args_tree (boxed_in nodes.old) xs
        ≡ args_tree (λ id. bare_at nodes.old id.0) args) }
{
    let parts = parts_of(alloc, &args)?;
    let mut built = take_all(nodes, alloc, parts)?;
    all(alloc, &mut built, args)
}

/// Moves what a template holds out of the nodes, and drops all after it.
pub fn take_tpl<F: Spanned + Drop, C: Spanned + Drop, K: Spanned + Drop>(
    nodes: &mut Nodes<F, C, K>,
    alloc: Global,
    tpl: Tpl<ExprId>,
) -> Result<Tpl<Box<Expr<F, C, K>>>, AllocError>
    requires { Apart 0 nodes.old (exprs_parts tpl.exprs) }
    ensures left { Left (floor (seat_at nodes.old) (count nodes.old) (exprs_parts tpl.exprs)) nodes.old nodes.new }
    ensures moved { IfOk result (λ t. tpl_tree (boxed_in nodes.old) t
        ≡ tpl_tree (λ id. bare_at nodes.old id.0) tpl) }
{
    let parts = parts_of(alloc, &tpl.exprs)?;
    let mut built = take_all(nodes, alloc, parts)?;
    template(alloc, &mut built, tpl)
}

/// Takes out parts of a node, and all that they hold: first the nodes, of which then the trees are made.
fn take_all<F: Spanned + Drop, C: Spanned + Drop, K: Spanned + Drop>(
    nodes: &mut Nodes<F, C, K>,
    alloc: Global,
    parts: Vec<PartId>,
) -> Result<Vec<Built<F, C, K>>, AllocError>
    requires { Apart 0 nodes.old (map part_of parts.items) }
    ensures { TakesOut (map part_of parts.items)
        (λ at y. AreFor F.place C.place K.place at (map part_of parts.items) y.items) nodes.old result nodes.new }
{
    let mut lifted = lift(nodes, alloc, parts)?;
    let mut built = Vec::new(alloc);
    while let Some(Lifted { part, node }) = lifted.pop() {
        let tree = assemble(alloc, &mut built, part, node)?;
        built.push(tree)?;
    }
    Ok(built)
}

/// Takes nodes out for parts, and for the parts of those nodes, the last first, until none is due. So each node is
/// before those of its parts, and from the last node on each finds the trees of its parts made.
fn lift<F: Spanned + Drop, C: Spanned + Drop, K: Spanned + Drop>(
    nodes: &mut Nodes<F, C, K>,
    alloc: Global,
    parts: Vec<PartId>,
) -> Result<Vec<Lifted<F, C, K>>, AllocError>
    requires { Apart 0 nodes.old (map part_of parts.items) }
    ensures left { Left (floor (seat_at nodes.old) (count nodes.old) (map part_of parts.items)) nodes.old nodes.new }
    ensures lifted { IfOk result (λ v. Reads F.place C.place K.place (bare_at nodes.old) (reverse v.items) []
        (map part_of parts.items)) }
{
    let mut due = parts;
    let mut lifted = Vec::new(alloc);
    while let Some(part) = due.pop() {
        let node = Aside(nodes.pop_at(part.number()));
        node.0.list(&mut due)?;
        lifted.push(Lifted {
            part,
            node: node.into_inner(),
        })?;
    }
    Ok(lifted)
}

/// Makes a tree of a node and of the trees of its parts, which are the last of a list.
fn assemble<F: Spanned + Drop, C: Spanned + Drop, K: Spanned + Drop>(
    alloc: Global,
    built: &mut Vec<Built<F, C, K>>,
    part: PartId,
    node: Node<F, C, K>,
) -> Result<Built<F, C, K>, AllocError>
    requires offers { Offers (slots node) built.old.items }
    requires view { view_ok (part_of part).view (form node) ≡ true }
    ensures kind { IfOk result (λ y. built_kind y ≡ part_kind (part_of part)) }
    ensures tree { IfOk result (λ y. Assembled F.place C.place K.place (slots node) (λ at. built_tree F.place C.place
        K.place y ≡ node_tree F.place C.place K.place at node) built.old.items built.new.items) }
{
    match part {
        PartId::Expr(_) => {
            let expr = boxed(alloc, assemble_expr(alloc, built, node))?;
            Ok(Built::Expr(expr))
        }
        PartId::Pat(_) => Ok(Built::Pat(assemble_pat(alloc, built, node)?)),
        PartId::Target(_) => Ok(Built::Target(assemble_target(alloc, built, node)?)),
    }
}
