// Where commas are after the last parts of literals.
ghost use Rattle.std.specs.Prelude.{◌≡◌, ◌++◌, ℕ, None, IfOk, OnOk, OnErr, map};
ghost use Rattle.swc_nodes.specs.Commas.{comma_at, Remembers, Recalls, node_comma, outer_parts, part_commas};
ghost use Rattle.swc_nodes.specs.{GrowingNodes.tree_at, GrowingNodes.Apart, Marking.Marks, Walking.part_of};

use crate::apart::{PartId, Parts, parts_of};
use crate::node::Node;
use crate::nodes::Nodes;
use std::alloc::{AllocError, Global};
use std::collections::BTreeMap;
use swc_ast::spanned::Spanned;
use swc_context::span::{BytePos, Span};

/// The places of commas after the last element of an array literal, or the last property of an object literal
/// (ECMA-262, 13.2.4 and 13.2.5), by the places where the literals begin. Trees in boxes don't hold them.
pub struct TrailingCommas {
    by_start: BTreeMap<u32, Span>,
}

// Not derived: so dropping the places is a call, and is proved here alone.
impl Drop for TrailingCommas {
    fn drop(self) {
        let TrailingCommas { by_start: _ } = self;
    }
}

impl TrailingCommas {
    /// None so far. Takes no memory.
    pub fn new(alloc: Global) -> TrailingCommas
        ensures { (start : ℕ) → comma_at result start ≡ None }
    {
        TrailingCommas {
            by_start: BTreeMap::new(alloc),
        }
    }

    /// The place of the comma of a literal that begins at `start`, a position in bytes.
    pub fn get(&self, start: BytePos) -> Option<Span>
        ensures { result ≡ comma_at self.now start.0 }
    {
        self.by_start.get(&start.0).copied()
    }

    /// Remembers the comma of a literal that begins at `start`, a position in bytes; or forgets one that was there
    /// before.
    pub fn remember(
        &mut self,
        start: BytePos,
        trailing_comma: Option<Span>,
    ) -> Result<(), AllocError>
        ensures remembers { OnOk result (Remembers start.0 trailing_comma self.old self.new) }
        ensures kept { OnErr result ((at : ℕ) → comma_at self.new at ≡ comma_at self.old at) }
    {
        match trailing_comma {
            Some(comma) => match self.by_start.insert(start.0, comma) {
                Ok(_) => Ok(()),
                Err(_) => Err(AllocError),
            },
            None => {
                self.by_start.remove(&start.0);
                Ok(())
            }
        }
    }

    /// Remembers the commas of all literals that are reached from the parts of an item, which lie apart, but for those
    /// in the bodies of arrow functions: each at the place where the literal begins, or forgets what was there where it
    /// has none; so it does of array and object patterns, which have none. Goes without recursion, and is refused only
    /// when out of memory.
    ///
    /// A node comes before its parts, and of these the last one first. Where several begin at one place, as in no text,
    /// that of the last one is remembered.
    pub fn remember_all<T: Parts, F: Spanned + Drop, C: Spanned + Drop, K: Spanned + Drop>(
        &mut self,
        nodes: &Nodes<F, C, K>,
        item: &T,
    ) -> Result<(), AllocError>
        requires { Apart 0 nodes.now (T.parts item.now) }
        ensures recalls { OnOk result
            (Recalls (part_commas (tree_at nodes.now) (T.parts item.now)) self.old self.new) }
    {
        let mut due = parts_of(nodes.allocator(), item)?;
        while let Some(part) = due.pop() {
            let node = nodes.get(part.number());
            self.remember_node(node)?;
            list_outer(node, &mut due)?;
        }
        Ok(())
    }

    /// Marks the array and object literals that have numbers from `from` on: each with the comma that is remembered
    /// where it begins, or with none. So trees that were put in get their marks, for which boxes have no place.
    pub fn mark<F: Spanned + Drop, C: Spanned + Drop, K: Spanned + Drop>(
        &self,
        nodes: &mut Nodes<F, C, K>,
        from: usize,
    )
        ensures { Marks (comma_at self.now) from nodes.old nodes.new }
    {
        nodes.mark_from(from, self);
    }

    /// Remembers the comma of a literal, and forgets what was there of one without, and of a pattern.
    fn remember_node<F, C, K>(&mut self, node: &Node<F, C, K>) -> Result<(), AllocError>
        ensures { OnOk result (Recalls (node_comma node.now) self.old self.new) }
    {
        match node {
            Node::Array {
                span,
                trailing_comma,
                ..
            }
            | Node::Object {
                span,
                trailing_comma,
                ..
            } => self.remember(span.lo, *trailing_comma),
            Node::PatArray { span, .. } | Node::PatObject { span, .. } => {
                self.remember(span.lo, None)
            }
            _ => Ok(()),
        }
    }
}

/// Puts the parts of a node after those of a list, but for the body of an arrow function.
fn list_outer<F: Spanned + Drop, C: Spanned + Drop, K: Spanned + Drop>(
    node: &Node<F, C, K>,
    due: &mut Vec<PartId>,
) -> Result<(), AllocError>
    ensures { IfOk result (λ _. map part_of due.new.items ≡ map part_of due.old.items ++ outer_parts node.now) }
{
    match node {
        Node::Arrow { params, .. } => params.list(due),
        _ => node.list(due),
    }
}
