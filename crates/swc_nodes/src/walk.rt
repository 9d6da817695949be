// A walk over all that an expression or a pattern reaches, in the order of the source.
ghost use Rattle.std.specs.Prelude.{◌≡◌, ◌<◌, ◌≤◌, ℕ, List, [], ◌∷◌, ◌++◌, All, OnOk, IfOk, length, map, reverse, MatchOption};
ghost use Rattle.swc_nodes.specs.GrowingNodes.{count, parts_at, Apart};
ghost use Rattle.swc_nodes.specs.{NodeParts.Part, Reached.HasReached, Reached.NumbersRise, Visits.left_in, Visits.Walked, Walking.part_of};
ghost use Rattle.swc_nodes.specs.Visits as visiting;

use crate::apart::{PartId, Parts, parts_of};
use crate::nodes::Nodes;
use std::alloc::AllocError;
use swc_ast::spanned::Spanned;

/// Whether a visit of a node comes before those of its parts, or after them.
#[derive(Clone, Copy, PartialEq, Eq, Debug)]
pub enum Step {
    Enter,
    Leave,
}

/// A visit of a node: before its parts, or after them.
#[derive(Clone, Copy)]
pub struct Visit {
    pub step: Step,
    /// What is visited.
    pub part: PartId,
    /// What it is a part of; `None` of what the walk begins with.
    pub parent: Option<PartId>,
}

/// What was left and isn't entered yet, by a walk that goes backwards.
#[derive(Clone, Copy)]
struct Open {
    part: PartId,
    /// How many parts are due after its own.
    rest: usize,
}

/// All visits of what is reached from an item, in the order of the source: each node is entered, then its parts are
/// visited, and then it is left (`walked`). What is left is what `reached` lists, in the same order (`has`, `rising`):
/// so each node is entered once and left once.
///
/// `Nodes::node` gives the node of a visit. Takes time and memory in proportion to how many nodes there are, goes
/// without recursion, and is refused only when out of memory.
pub fn walk<T: Parts, F: Spanned + Drop, C: Spanned + Drop, K: Spanned + Drop>(
    nodes: &Nodes<F, C, K>,
    item: &T,
) -> Result<Vec<Visit>, AllocError>
    ensures walked { IfOk result (λ all. Walked (parts_at nodes.now) (T.parts item.now) all.items []) }
    ensures has { IfOk result (λ all. HasReached nodes.now (T.parts item.now) (map part_of (left_in all.items))) }
    ensures numbers { IfOk result (λ all. All (λ part. (part_of part).at < count nodes.now) (left_in all.items)) }
    ensures rising { Apart 0 nodes.now (T.parts item.now) → IfOk result (λ all. NumbersRise (left_in all.items)) }
{
    let mut due = parts_of(nodes.allocator(), item)?;
    let mut around = Vec::new(nodes.allocator());
    let mut visits = Vec::new(nodes.allocator());
    while let Some(part) = due.pop() {
        turn(nodes, part, &mut due, &mut around, &mut visits)?;
        enter_all(&mut visits, &mut around, due.len())?;
    }
    visits.reverse();
    Ok(visits)
}

/// The innermost node around.
fn innermost(around: &[Open]) -> Option<PartId>
    ensures { result ≡ visiting.innermost (visiting.opened around.now) }
{
    let inner = around.last()?;
    Some(inner.part)
}

/// Leaves a part, where a node has its number, before which the node's parts are due; others are left out.
fn turn<F: Spanned + Drop, C: Spanned + Drop, K: Spanned + Drop>(
    nodes: &Nodes<F, C, K>,
    part: PartId,
    due: &mut Vec<PartId>,
    around: &mut Vec<Open>,
    visits: &mut Vec<Visit>,
) -> Result<(), AllocError>
    ensures { OnOk result (visiting.Turns nodes.now part due.old.items around.old.items visits.old.items
        due.new.items around.new.items visits.new.items) }
{
    let at = part.number();
    if nodes.len() <= at {
        return Ok(());
    }
    let rest = due.len();
    leave(visits, around, part, rest)?;
    nodes.get(at).list(due)?;
    Ok(())
}

/// Leaves a part.
fn leave(
    visits: &mut Vec<Visit>,
    around: &mut Vec<Open>,
    part: PartId,
    rest: usize,
) -> Result<(), AllocError>
    ensures visits { OnOk result (visits.new.items
        ≡ visits.old.items ++ visiting.leaving part (visiting.opened around.old.items) ∷ []) }
    ensures around { OnOk result (around.new.items ≡ around.old.items ++ visiting.opening part rest ∷ []) }
{
    visits.push(Visit {
        step: Step::Leave,
        part,
        parent: innermost(around),
    })?;
    around.push(Open { part, rest })?;
    Ok(())
}

/// Enters those nodes around that have no part that is due any more.
fn enter_all(visits: &mut Vec<Visit>, around: &mut Vec<Open>, due: usize) -> Result<(), AllocError>
    ensures goes { OnOk result ((at : ℕ → List Part) (ps ds : List Part) → length ds ≡ due
        → visiting.Goes at ps ds visits.old.items around.old.items
        → visiting.Goes at ps ds visits.new.items around.new.items) }
    ensures left { OnOk result (left_in (reverse visits.new.items) ≡ left_in (reverse visits.old.items)) }
    ensures ready { OnOk result (visiting.IsReady due (reverse around.new.items)) }
{
    while let Some(inner) = take_done(around, due)? {
        enter(visits, inner, around)?;
    }
    Ok(())
}

/// Takes the innermost node, if it has no part that is due any more.
fn take_done(around: &mut Vec<Open>, due: usize) -> Result<Option<Open>, AllocError>
    ensures { IfOk result (λ inner. MatchOption inner
        ((around.new.items ≡ around.old.items) × visiting.IsReady due (reverse around.new.items))
        (λ o. (due ≤ o.rest) × (around.old.items ≡ around.new.items ++ o ∷ []))) }
{
    match around.pop() {
        None => Ok(None),
        Some(inner) if due <= inner.rest => Ok(Some(inner)),
        Some(inner) => {
            around.push(inner)?;
            Ok(None)
        }
    }
}

/// Enters a node, after which those around are the innermost.
fn enter(visits: &mut Vec<Visit>, inner: Open, around: &[Open]) -> Result<(), AllocError>
    ensures { OnOk result (visits.new.items
        ≡ visits.old.items ++ visiting.entering inner.part (visiting.opened around.now) ∷ []) }
{
    visits.push(Visit {
        step: Step::Enter,
        part: inner.part,
        parent: innermost(around),
    })?;
    Ok(())
}
