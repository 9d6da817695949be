// The nodes of trees, in one vector.
ghost use Rattle.std.specs.Prelude.{◌≡◌, ℕ, ◌<◌, ◌≤◌, ◌↔◌, true, length, IfOk, IsTrue, [], map};
ghost use Rattle.swc_nodes.specs.{NumberedTrees.ordered, Settled.SettledIn, Settled.settled-prop};
ghost use Rattle.swc_nodes.specs.NodeParts.{form, view_ok, expr, simple, pattern};

use crate::commas::TrailingCommas;
use crate::marking::mark_all;
use crate::node::{ExprId, Node, PatId, TargetNode};
use crate::role::Duty;
use crate::turning::{Settled, drop_settled, turn_all};
use std::alloc::{AllocError, Global};
use swc_ast::spanned::Spanned;
use swc_bodies::bodies::BodyForms;

/// The nodes of trees, each after its parts. What is reached from one part of a node lies after
/// the part before it, in the order of the source, so no node is a part of two.
///
/// A number keeps its tree as nodes are appended. Dropping nodes takes no recursion over trees.
pub struct Nodes<F: Spanned, C: Spanned, K: Spanned> {
    nodes: Vec<Node<F, C, K>>,
    settled: Vec<Settled>,
    ghost in_order: { ordered F.place C.place K.place [] nodes.items ≡ true },
    ghost in_ranges: { SettledIn F.place C.place K.place nodes.items settled.items } by { settled-prop F.place C.place
        K.place nodes.items settled.items },
}

// Not derived: so dropping nodes is a call, and is proved here alone.
impl<F: Spanned + Drop, C: Spanned + Drop, K: Spanned + Drop> Drop for Nodes<F, C, K> {
    fn drop(self) {
        let Nodes {
            nodes: _,
            settled: _,
        } = self;
    }
}

/// Nodes over a hook's values.
pub type NodesOf<B> = Nodes<
    <B as BodyForms>::Fun,
    <B as BodyForms>::Class,
    <B as BodyForms>::Block,
>;

impl<F: Spanned + Drop, C: Spanned + Drop, K: Spanned + Drop> Nodes<F, C, K> {
    ghost use Rattle.swc_nodes.specs.NodeParts.{slots, expr_part, pat_part, target_part};
    ghost use Rattle.swc_nodes.specs.GrowingNodes.{count, Apart, From, Grows, Added, Stood, Popped, CutTo};
    ghost use Rattle.swc_nodes.specs.{Commas.comma_at, Marking.Marks, Roles.due, Roles.suit};
    ghost use Rattle.swc_nodes.specs.Turning.{AllTurned, DuesApart, KeptBelow};

    /// No nodes. Takes no memory.
    pub fn new(alloc: Global) -> Self
        ensures { count result ≡ 0 }
    {
        Nodes {
            nodes: Vec::new(alloc),
            settled: Vec::new(alloc),
        }
    }

    /// How many nodes there are: the number that the next one gets.
    pub fn len(&self) -> usize
        ensures { result ≡ count self.now }
    {
        self.nodes.len()
    }

    /// Whether there is no node.
    pub fn is_empty(&self) -> bool
        ensures { IsTrue result ↔ (count self.now ≡ 0) }
    {
        self.nodes.is_empty()
    }

    /// What the nodes take their memory from: so does what is made of them.
    pub fn allocator(&self) -> Global {
        *self.nodes.allocator()
    }

    /// Whether an expression has the number.
    pub fn has_expr(&self, id: ExprId) -> bool
        ensures has { result ≡ true → From 0 self.now (expr_part id) }
        ensures all { From 0 self.now (expr_part id) → result ≡ true }
    {
        id.0 < self.len() && is_expr(self.get(id.0))
    }

    /// Whether a pattern has the number.
    pub fn has_pat(&self, id: PatId) -> bool
        ensures has { result ≡ true → From 0 self.now (pat_part id) }
        ensures all { From 0 self.now (pat_part id) → result ≡ true }
    {
        id.0 < self.len() && !is_expr(self.get(id.0))
    }

    /// Whether what may be assigned to has the number, as it is or as a pattern.
    pub fn has_target(&self, target: TargetNode) -> bool
        ensures has { result ≡ true → From 0 self.now (target_part target) }
        ensures all { From 0 self.now (target_part target) → result ≡ true }
    {
        match target {
            TargetNode::Simple(id) => id.0 < self.len() && is_target(self.get(id.0)),
            TargetNode::Pat(id) => id.0 < self.len() && is_target_pat(self.get(id.0)),
        }
    }

    /// The node that has the number.
    pub fn get(&self, id: usize) -> &Node<F, C, K>
        requires { id < count self.now }
        ensures { Stood self.now id result.now }
    {
        &self.nodes[id]
    }

    /// Appends a node whose parts lie apart (`is_apart`), and answers its number.
    pub fn push(&mut self, node: Node<F, C, K>) -> Result<usize, AllocError>
        requires { Apart 0 self.old (slots node) }
        ensures grows { Grows self.old self.new }
        ensures added { IfOk result (λ id. Added self.old self.new id node) }
    {
        let id = self.nodes.len();
        self.nodes.push(node)?;
        Ok(id)
    }

    /// Takes out the node that has the number, and drops all after it.
    pub fn pop_at(&mut self, id: usize) -> Node<F, C, K>
        requires { id < count self.old }
        ensures { Popped self.old id result self.new }
    {
        drop_settled(&mut self.settled, id);
        self.nodes.truncate(id + 1);
        self.nodes.remove(id)
    }

    /// Puts commas after the last parts of the array and object literals that have numbers from `from` on, where
    /// `commas` has one for where the literal begins, and takes those away that are after others.
    pub(crate) fn mark_from(&mut self, from: usize, commas: &TrailingCommas)
        ensures { Marks (comma_at commas.now) from self.old self.new }
    {
        mark_all(&mut self.nodes, from, commas);
    }

    /// Makes of parts that lie apart what they are to become, each node where it is, and drops all after the last.
    /// Nodes with numbers below all that is reached from them stay. When out of memory, drops what isn't done.
    ///
    /// Takes time in proportion to how many nodes there are between, but for those of patterns that were made before,
    /// which aren't entered again.
    pub fn turn(&mut self, alloc: Global, roots: Vec<Duty>) -> Result<(), AllocError>
        requires apart { DuesApart 0 self.old (map due roots.items) }
        requires suit { suit (map due roots.items) ≡ true }
        ensures kept { (k : ℕ) → DuesApart k self.old (map due roots.items) → KeptBelow k self.old self.new }
        ensures turned { IfOk result (λ _. (k : ℕ) → DuesApart k self.old (map due roots.items) →
            AllTurned k self.old (map due roots.items) self.new) }
    {
        turn_all(&mut self.nodes, &mut self.settled, alloc, roots)
    }

    /// Drops all nodes from a number on.
    pub fn cut(&mut self, from: usize)
        ensures { CutTo from self.old self.new }
    {
        drop_settled(&mut self.settled, from);
        self.nodes.truncate(from);
    }
}

/// Whether the node is an expression.
fn is_expr<F, C, K>(node: &Node<F, C, K>) -> bool
    ensures { result ≡ view_ok expr (form node.now) }
{
    match node {
        Node::PatIdent(_)
        | Node::PatArray { .. }
        | Node::PatObject { .. }
        | Node::PatRest { .. }
        | Node::PatAssign { .. }
        | Node::PatExpr(_)
        | Node::PatInvalid(_) => false,
        _ => true,
    }
}

/// Whether the node is an expression that may be assigned to as it is.
fn is_target<F, C, K>(node: &Node<F, C, K>) -> bool
    ensures { result ≡ view_ok simple (form node.now) }
{
    matches!(
        node,
        Node::Ident(_) | Node::Member(_) | Node::SuperProp(_) | Node::Paren(_) | Node::OptChain(_)
    )
}

/// Whether the node is an array or object pattern.
fn is_target_pat<F, C, K>(node: &Node<F, C, K>) -> bool
    ensures { result ≡ view_ok pattern (form node.now) }
{
    matches!(node, Node::PatArray { .. } | Node::PatObject { .. })
}
