// All nodes that are reached from a node, or from a piece of one.
ghost use Rattle.std.specs.Prelude.{◌<◌, ◌≤◌, All, IfOk, length, map};
ghost use Rattle.swc_nodes.specs.Reached.{HasReached, NumbersRise, PartsFirst};
ghost use Rattle.swc_nodes.specs.{GrowingNodes.count, GrowingNodes.Apart, Walking.part_of};

use crate::apart::{PartId, Parts, parts_of};
use crate::nodes::Nodes;
use std::alloc::AllocError;
use swc_ast::spanned::Spanned;

/// All that is reached from an item: its parts, their nodes' parts, and so on, each after the parts of its own node.
/// An `ExprId` or a `PatId` is its one part itself, and so comes last. Beside them `Nodes` may hold others, as after a
/// recorded fault, which nothing reaches: so use this for the nodes of one tree.
///
/// What no node has the number of is left out. Where the item's parts lie apart, as those of each node do, and what the
/// parser answers, the numbers rise, and so none comes twice; so they do from one part, whichever it is. Takes time and
/// memory in proportion to how many there are, goes without recursion, and is refused only when out of memory.
pub fn reached<T: Parts, F: Spanned + Drop, C: Spanned + Drop, K: Spanned + Drop>(
    nodes: &Nodes<F, C, K>,
    item: &T,
) -> Result<Vec<PartId>, AllocError>
    ensures has { IfOk result (λ found. HasReached nodes.now (T.parts item.now) (map part_of found.items)) }
    ensures parts_first { IfOk result (λ found. PartsFirst nodes.now (map part_of found.items)) }
    ensures numbers { IfOk result (λ found. All (λ part. (part_of part).at < count nodes.now) found.items) }
    ensures rising { Apart 0 nodes.now (T.parts item.now) → IfOk result (λ found. NumbersRise found.items) }
    ensures rising_from_one { length (T.parts item.now) ≤ 1 → IfOk result (λ found. NumbersRise found.items) }
{
    let mut due = parts_of(nodes.allocator(), item)?;
    let mut found = Vec::new(nodes.allocator());
    while let Some(part) = due.pop() {
        if part.number() < nodes.len() {
            nodes.get(part.number()).list(&mut due)?;
            found.push(part)?;
        }
    }
    found.reverse();
    Ok(found)
}
