// Puts the commas that are remembered into array and object literals.
ghost use Rattle.std.specs.Prelude.{◌≡◌};
ghost use Rattle.swc_nodes.specs.{Commas.comma_at, Marking.marked_from, Marking.marked_node};

use crate::commas::TrailingCommas;
use crate::node::Node;

/// Marks the nodes from the place `from` on.
pub(crate) fn mark_all<F, C, K>(
    nodes: &mut Vec<Node<F, C, K>>,
    from: usize,
    commas: &TrailingCommas,
)
    ensures { nodes.new.items ≡ marked_from (comma_at commas.now) from nodes.old.items }
{
    for i in from..nodes.len() {
        mark_node(&mut nodes[i], commas);
    }
}

/// Puts the comma that is remembered of a literal after its last part, or takes away what was there.
fn mark_node<F, C, K>(node: &mut Node<F, C, K>, commas: &TrailingCommas)
    ensures { node.new ≡ marked_node (comma_at commas.now) node.old }
{
    match node {
        Node::Array {
            span,
            trailing_comma,
            ..
        } => *trailing_comma = commas.get(span.lo),
        Node::Object {
            span,
            trailing_comma,
            ..
        } => *trailing_comma = commas.get(span.lo),
        _ => {}
    }
}
