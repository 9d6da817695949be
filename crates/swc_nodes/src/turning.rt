// Makes patterns of expressions where they are: each node becomes one node, under its number.
ghost use Rattle.std.specs.Prelude.{◌≡◌, ◌<◌, ◌≤◌, ◌+◌, ◌-◌, ◌⊎◌, true, IfOk, length, map, take};
ghost use Rattle.swc_nodes.specs.NodeParts.{form, slots};
ghost use Rattle.swc_nodes.specs.Onward.{cleared, AllDone, AllKept, AllReady, RootReady, RootTurned, Stays, TurnedOne};
ghost use Rattle.swc_nodes.specs.Roles.{ready};
ghost use Rattle.swc_nodes.specs.Roles as roles;
ghost use Rattle.swc_nodes.specs.Settled.{DroppedFrom};
ghost use Rattle.swc_nodes.specs.Turning.{node_at, PartsIn};
ghost use Rattle.swc_nodes.specs.Turning as turning;

use crate::node::Node;
use crate::recasting::{add_kept, rebind, recast};
use crate::role::{Becomes, Duty, Role, how};
use std::alloc::{AllocError, Global};
use std::mem;
use swc_ast::expr::Invalid;
use swc_ast::spanned::Spanned;
use swc_context::span::{BytePos, Span};

/// Nodes with numbers from `first` to `last`, from which none below `first` is reached: those of a pattern that was
/// made of an expression.
#[derive(Clone, Copy)]
pub(crate) struct Settled {
    pub(crate) first: usize,
    pub(crate) last: usize,
}

/// Makes of the parts what they are to become, which lie apart, in their order, and drops all after the last. What
/// isn't reached from them, between the first number that is reached and the last, becomes a node without parts. When
/// out of memory, drops what isn't done. Where there is no part, nothing changes.
pub(crate) fn turn_all<F: Spanned + Drop, C: Spanned + Drop, K: Spanned + Drop>(
    nodes: &mut Vec<Node<F, C, K>>,
    settled: &mut Vec<Settled>,
    alloc: Global,
    roots: Vec<Duty>,
) -> Result<(), AllocError>
    requires { AllReady F.place C.place K.place nodes.old.items (map roles.due roots.items) settled.old.items }
    ensures kept { AllKept F.place C.place K.place nodes.old.items (map roles.due roots.items)
        nodes.new.items settled.new.items }
    ensures turned { IfOk result (λ _.
        AllDone F.place C.place K.place nodes.old.items (map roles.due roots.items) nodes.new.items) }
{
    let mut roots = roots;
    let mut turned = Vec::new(alloc);
    let Some(last) = roots.last() else {
        return Ok(());
    };
    let mut end = last.part.number() + 1;
    nodes.truncate(end);
    while let Some(root) = roots.pop() {
        let last = root.part.number();
        clear(nodes, last + 1, end);
        drop_settled(settled, last + 1);
        let first = turn_root(nodes, settled, alloc, root)?;
        end = first;
        if let Err(error) = turned.push(Settled { first, last }) {
            nodes.truncate(first);
            return Err(error.into());
        }
    }
    while let Some(block) = turned.pop() {
        settled.push(block)?;
    }
    Ok(())
}

/// Makes of one part what it is to become, and answers the smallest number that is reached then. Goes from the last
/// number down, so that each node is seen after the one that holds it. A settled pattern that is kept isn't entered.
fn turn_root<F: Spanned + Drop, C: Spanned + Drop, K: Spanned + Drop>(
    nodes: &mut Vec<Node<F, C, K>>,
    settled: &mut Vec<Settled>,
    alloc: Global,
    root: Duty,
) -> Result<usize, AllocError>
    requires { RootReady F.place C.place K.place nodes.old.items (roles.due root) settled.old.items }
    ensures { RootTurned F.place C.place K.place nodes.old.items (roles.due root) result
        nodes.new.items settled.new.items }
{
    let mut first = root.part.number() + 1;
    let mut due = Vec::new(alloc);
    if let Err(error) = due.push(root) {
        let_go(nodes, settled, root.part.number());
        return Err(error.into());
    }
    while let Some(duty) = due.pop() {
        let number = duty.part.number();
        clear(nodes, number + 1, first);
        match turn_one(nodes, settled, &mut due, alloc, number, duty.role) {
            Ok(reached) => first = reached,
            Err(error) => {
                let_go(nodes, settled, number);
                return Err(error);
            }
        }
    }
    drop_settled(settled, first);
    Ok(first)
}

/// Makes of the node with the number what it is to become, and puts what its parts are to become after what is due.
/// Answers the smallest number that is done then.
fn turn_one<F: Spanned + Drop, C: Spanned + Drop, K: Spanned + Drop>(
    nodes: &mut Vec<Node<F, C, K>>,
    settled: &mut Vec<Settled>,
    due: &mut Vec<Duty>,
    alloc: Global,
    number: usize,
    role: Role,
) -> Result<usize, AllocError>
    requires within { number < length nodes.old.items }
    requires ready { ready role (form (node_at nodes.old.items number)) ≡ true }
    requires parts { PartsIn (take number nodes.old.items) (slots (node_at nodes.old.items number)) }
    ensures kept { take number nodes.new.items ≡ take number nodes.old.items }
    ensures settled { DroppedFrom (number + 1) settled.old.items settled.new.items }
    ensures turned { IfOk result (λ reached.
        ((reached ≡ number) × TurnedOne F.place C.place K.place nodes.old.items nodes.new.items number role
        (map roles.due due.old.items) (map roles.due due.new.items))
        ⊎ Stays F.place C.place K.place nodes.old.items nodes.new.items number role
        (map roles.due due.old.items) (map roles.due due.new.items) settled.new.items reached) }
{
    drop_settled(settled, number + 1);
    match (role, settled.last()) {
        (Role::Keep, Some(block)) if block.last == number => return Ok(block.first),
        _ => {}
    }
    match how(role, &nodes[number]) {
        Becomes::Same | Becomes::Held => add_kept(due, alloc, &nodes[number])?,
        Becomes::Again => rebind(due, alloc, &mut nodes[number])?,
        becomes => {
            let node = mem::replace(&mut nodes[number], no_node());
            nodes[number] = recast(nodes, due, alloc, becomes, role, node)?;
        }
    }
    Ok(number)
}

/// Drops all nodes from a number on.
fn let_go<F: Drop, C: Drop, K: Drop>(
    nodes: &mut Vec<Node<F, C, K>>,
    settled: &mut Vec<Settled>,
    from: usize,
)
    ensures nodes { nodes.new.items ≡ take from nodes.old.items }
    ensures settled { DroppedFrom from settled.old.items settled.new.items }
{
    drop_settled(settled, from);
    nodes.truncate(from);
}

/// Drops what was settled with a last number from `from` on.
pub(crate) fn drop_settled(settled: &mut Vec<Settled>, from: usize)
    ensures { DroppedFrom from settled.old.items settled.new.items }
{
    let mut len = settled.len();
    while len > 0 && settled[len - 1].last >= from {
        len -= 1;
    }
    settled.truncate(len);
}

/// Puts nodes without parts in place of those from one number to before another.
fn clear<F: Drop, C: Drop, K: Drop>(nodes: &mut Vec<Node<F, C, K>>, from: usize, to: usize)
    requires order { from ≤ to }
    requires within { to ≤ length nodes.old.items }
    ensures { nodes.new.items ≡ cleared from (to - from) nodes.old.items }
{
    for number in from..to {
        nodes[number] = no_node();
    }
}

/// A node without parts, that nothing holds.
fn no_node<F, C, K>() -> Node<F, C, K>
    ensures { result ≡ turning.no_node }
{
    let nowhere = BytePos(0);
    Node::PatInvalid(Invalid {
        span: Span {
            lo: nowhere,
            hi: nowhere,
        },
    })
}
