// Where operators are in the text that was parsed.
ghost use Rattle.std.specs.Prelude.{◌≡◌, IfSome};
ghost use Rattle.swc_nodes.specs.Lookup.{IsTextAt};
ghost use Rattle.swc_nodes.specs.GrowingNodes.{tree_at};
ghost use Rattle.swc_ecma_parser.specs.Places.{BehindBlanks, IsOperatorAt};
ghost use Rattle.swc_ecma_parser.specs.Places as places;

use swc_ast::spanned::Spanned;
use swc_context::span::{BytePos, Span};
use swc_lexical::blank::blanks_len;
use swc_nodes::lookup::NodeNumber;
use swc_nodes::node::Node;
use swc_nodes::nodes::Nodes;

/// The span of a node's operator in the text that was parsed: of a binary, prefix or assignment operator, `++` or `--`
/// (ECMA-262, 13.4 to 13.15). Nodes don't store it. It is searched for in the text after the left operand, blanks and
/// comments.
///
/// `None` where the number is of no such node, or the operator isn't there in the text, as in a text that isn't the one
/// parsed. At the place that is answered the text has the operator (`written`).
pub fn operator_span<N: NodeNumber, F: Spanned + Drop, C: Spanned + Drop, K: Spanned + Drop>(
    nodes: &Nodes<F, C, K>,
    text: &str,
    id: N,
) -> Option<Span>
    ensures written { IfSome result (λ span. IsOperatorAt nodes.now (N.at id) text.now span) }
{
    let node = nodes.node(id)?;
    let operator = node.operator()?;
    let from = operator_from(nodes, node)?;
    find_word(text.as_bytes(), from.0 as usize, operator.as_bytes())
}

/// The position after which the operator of a node comes, with blanks and comments before it.
fn operator_from<F: Spanned + Drop, C: Spanned + Drop, K: Spanned + Drop>(
    nodes: &Nodes<F, C, K>,
    node: &Node<F, C, K>,
) -> Option<BytePos>
    ensures { IfSome result (λ from. from.0 ≡ places.operator_from (tree_at nodes.now) node.now) }
{
    let from = match node {
        Node::Bin { left, .. } => nodes.span_of(*left)?.hi,
        Node::Assign { left, .. } => nodes.span_of(*left)?.hi,
        Node::Update {
            prefix: false,
            arg,
            ..
        } => nodes.span_of(*arg)?.hi,
        Node::Update { span, .. } | Node::Unary { span, .. } => span.lo,
        _ => return None,
    };
    Some(from)
}

/// The place of the word in the text, where it comes after the position, with blanks and comments before it.
fn find_word(text: &[u8], from: usize, word: &[u8]) -> Option<Span>
    ensures text { IfSome result (λ span. IsTextAt text.now span word.now) }
    ensures first { IfSome result (λ span. BehindBlanks text.now from span) }
{
    let rest = text.get(from..)?;
    let lo = from + blanks_len(rest);
    let hi = lo.checked_add(word.len())?;
    let span = Span {
        lo: BytePos(u32::try_from(lo).ok()?),
        hi: BytePos(u32::try_from(hi).ok()?),
    };
    if text.get(lo..hi)? == word {
        Some(span)
    } else {
        None
    }
}
