// Array and object literals (ECMA-262, 13.2.4 and 13.2.5), after their lists.
ghost use Rattle.std.specs.Prelude.{ℕ, Some};
ghost use Rattle.swc_nodes.specs.{Lists.elem_parts, Lists.props_parts, GrowingNodes.Apart};
ghost use Rattle.swc_steps.specs.Parsing.{GoesOn, itself, tree_of, elems_at, props_at};
ghost use Rattle.swc_primary.specs.Openings.{array_from, object_from};

use crate::primary::Elem;
use swc_bodies::bodies::Bodies;
use swc_context::error::PResult;
use swc_context::span::BytePos;
use swc_input::tokens::Tokens;
use swc_nodes::node::{ExprId, PropNode};
use swc_steps::productions::Productions;
use swc_steps::tokens::Listed;

/// The array literal (ECMA-262, 13.2.4) that begins at `start`, after its elements and its closing bracket. Refused
/// only when out of memory.
pub fn array_lit<I: Tokens, B: Bodies<I>>(
    p: &mut Productions<I, B>,
    start: BytePos,
    list: Listed<Elem>,
) -> PResult<ExprId>
    requires apart { Apart 0 p.old.nodes (elem_parts list.items) }
    ensures { (k : ℕ) → Apart k p.old.nodes (elem_parts list.items) → GoesOn I.model B.is_faithful itself tree_of
        (λ c ts. Some (array_from start (elems_at p.old.nodes list), ts)) k p.old result p.new }
{
    let end = list.end.hi;
    let node = p
        .nodes
        .array_lit(start, end, list.items, list.trailing_comma);
    p.made(node)
}

/// The object literal (ECMA-262, 13.2.5) that begins at `start`, after its properties and its closing brace. Refused
/// only when out of memory.
pub fn object_lit<I: Tokens, B: Bodies<I>>(
    p: &mut Productions<I, B>,
    start: BytePos,
    list: Listed<PropNode<B::Block>>,
) -> PResult<ExprId>
    requires apart { Apart 0 p.old.nodes (props_parts list.items) }
    ensures { (k : ℕ) → Apart k p.old.nodes (props_parts list.items) → GoesOn I.model B.is_faithful itself tree_of
        (λ c ts. Some (object_from start (props_at p.old.nodes list), ts)) k p.old result p.new }
{
    let end = list.end.hi;
    let node = p
        .nodes
        .object_lit(start, end, list.items, list.trailing_comma);
    p.made(node)
}
