// Moves boxed trees into the nodes, after all that there are, by two loops, so that a tree may be as deep as it likes.
// The first makes a node of each tree, the last tree first, in which the places of its parts in a list stand for them.
// The second puts those nodes in, the last made first: so the parts of a node go in before it, the first part first, as
// in the source. No text and no value of the hook is copied.
ghost use Rattle.std.specs.Prelude.{◌≡◌, [], ◌∷◌, map, reverse, IfOk};
ghost use Rattle.swc_ast.specs.Parts.{args_tree};
ghost use Rattle.swc_nodes.specs.NodeParts.{expr_part, pat_part, args_parts};
ghost use Rattle.swc_nodes.specs.GrowingNodes.{count, tree_at, Apart, Grows, Made};
ghost use Rattle.swc_trees.specs.Moving.{PutsIn, boxed_in, pat_in};
ghost use Rattle.swc_trees.specs.{Building.built_tree, Shells.Reads, Splitting.built_view, Splitting.numbered};

use crate::built::Built;
use crate::placing::split_all;
use crate::splitting::split;
use std::alloc::{AllocError, Global};
use swc_ast::expr::{Expr, ExprOrSpread};
use swc_ast::pat::Pat;
use swc_ast::spanned::Spanned;
use swc_nodes::aside::Aside;
use swc_nodes::node::{ExprId, Node, PatId};
use swc_nodes::nodes::Nodes;
use swc_nodes::renumbering::{Numbers, renumber_items};

/// Moves an expression into the nodes, and answers its number.
pub fn put_expr<F: Spanned + Drop, C: Spanned + Drop, K: Spanned + Drop>(
    nodes: &mut Nodes<F, C, K>,
    alloc: Global,
    expr: Box<Expr<F, C, K>>,
) -> Result<ExprId, AllocError>
    ensures grows { Grows nodes.old nodes.new }
    ensures made { IfOk result (λ id. Made (count nodes.old) nodes.new (expr_part id) (boxed_in nodes.old expr)) }
{
    Ok(ExprId(put_whole(nodes, alloc, Built::Expr(expr))?))
}

/// Moves a pattern into the nodes, and answers its number.
pub fn put_pat<F: Spanned + Drop, C: Spanned + Drop, K: Spanned + Drop>(
    nodes: &mut Nodes<F, C, K>,
    alloc: Global,
    pat: Pat<F, C, K>,
) -> Result<PatId, AllocError>
    ensures grows { Grows nodes.old nodes.new }
    ensures made { IfOk result (λ id. Made (count nodes.old) nodes.new (pat_part id) (pat_in nodes.old pat)) }
{
    Ok(PatId(put_whole(nodes, alloc, Built::Pat(pat))?))
}

/// Moves the items of a list in parentheses into the nodes, in their order, and answers them by their numbers.
pub fn put_args<F: Spanned + Drop, C: Spanned + Drop, K: Spanned + Drop>(
    nodes: &mut Nodes<F, C, K>,
    alloc: Global,
    args: Vec<ExprOrSpread<Box<Expr<F, C, K>>>>,
) -> Result<Vec<ExprOrSpread<ExprId>>, AllocError>
    ensures grows { Grows nodes.old nodes.new }
    ensures apart { IfOk result (λ xs. Apart (count nodes.old) nodes.new (args_parts xs)) }
    ensures moved { IfOk result
        (λ xs. args_tree (λ id. tree_at nodes.new id.0) xs ≡ args_tree (boxed_in nodes.old) args) }
{
    let mut args = Aside(args);
    let mut parts = Vec::new(alloc);
    let mut items = split_all(alloc, &mut parts, &mut args.0)?;
    let ids = put_all(nodes, alloc, parts)?;
    renumber_items::<F, C, K>(&mut items, &Numbers { from: 0, ids });
    Ok(items)
}

/// Puts in a tree.
fn put_whole<F: Spanned + Drop, C: Spanned + Drop, K: Spanned + Drop>(
    nodes: &mut Nodes<F, C, K>,
    alloc: Global,
    tree: Built<F, C, K>,
) -> Result<usize, AllocError>
    ensures { PutsIn (λ i. numbered (built_view tree ∷ []) (i ∷ []))
        (λ at i. at i ≡ built_tree F.place C.place K.place tree) nodes.old result nodes.new }
{
    let mut trees = Vec::new(alloc);
    trees.push(tree)?;
    let ids = put_all(nodes, alloc, trees)?;
    Ok(ids[0])
}

/// Puts in the trees of a list, and answers their numbers. A node whose turn comes finds the numbers of its parts where
/// the parts had been, and its own takes their place.
fn put_all<F: Spanned + Drop, C: Spanned + Drop, K: Spanned + Drop>(
    nodes: &mut Nodes<F, C, K>,
    alloc: Global,
    trees: Vec<Built<F, C, K>>,
) -> Result<Vec<usize>, AllocError>
    ensures { PutsIn (λ y. numbered (map built_view trees.items) y.items)
        (λ at y. map at y.items ≡ map (built_tree F.place C.place K.place) trees.items) nodes.old result nodes.new }
{
    let mut shells = shells_of(alloc, trees)?;
    let ids = Vec::new(alloc);
    let mut numbers = Numbers { from: 0, ids };
    while let Some(shell) = shells.pop() {
        let Shell { mut node, from } = shell;
        node.renumber(&numbers);
        numbers.ids.truncate(from);
        let number = nodes.push(node)?;
        numbers.ids.push(number)?;
    }
    Ok(numbers.ids)
}

/// A node whose parts were moved to the end of a list, from the place `from` on: it holds them by their places.
#[derive(Drop)]
struct Shell<F, C, K> {
    node: Node<F, C, K>,
    from: usize,
}

/// The nodes of the trees of a list and of all their parts, each before those of its parts. The list holds what is due:
/// the last tree leaves it, and its parts take its place.
fn shells_of<F: Spanned + Drop, C: Spanned + Drop, K: Spanned + Drop>(
    alloc: Global,
    mut due: Vec<Built<F, C, K>>,
) -> Result<Vec<Shell<F, C, K>>, AllocError>
    ensures { IfOk result (λ shells. Reads F.place C.place K.place (reverse shells.items) [] due.items) }
{
    let mut shells = Vec::new(alloc);
    while let Some(tree) = due.pop() {
        let mut tree = Aside(tree);
        let from = due.len();
        let node = split(alloc, &mut due, &mut tree.0)?;
        shells.push(Shell { node, from })?;
    }
    Ok(shells)
}
