// Cover names: properties `name = value` of object literals (ECMA-262, 13.2.5). They are grammar for patterns alone, so
// one that is left over in a finished expression is a fault (13.2.5.1).
ghost use Rattle.std.specs.Prelude.{◌≡◌, ◌++◌, true, false, map, List, IfOk, IfErr, IsOk, OnOk};
ghost use Rattle.swc_input.specs.Buffer.{Read, ReadSome, Lives, Known, last_position, current, state_of};
ghost use Rattle.swc_input.specs.Recording.{is_silent, is_fit, no_memory};
ghost use Rattle.swc_input.specs.{Recordings.RecordsAll, declared.token.TokenAndSpan.TokenAndSpan};
ghost use Rattle.swc_nodes.specs.GrowingNodes.{tree_at, Apart, From};
ghost use Rattle.swc_nodes.specs.NodeParts.{expr_part, flat};
ghost use Rattle.swc_ecma_parser.specs.CoverNames.{cover_names, parts_covers_left};
ghost use Rattle.swc_ecma_parser.specs.Dues.{due_of, node_dues, prop_dues, part_dues, names_due, AreWithin};
ghost use Rattle.swc_ecma_parser.specs.Faults.{cover_faults, Appends, begins_fit};

use std::alloc::AllocError;
use swc_ast::spanned::Spanned;
use swc_context::error::{PResult, SyntaxError};
use swc_context::span::Span;
use swc_input::buffer::Buffer;
use swc_input::tokens::Tokens;
use swc_nodes::apart::{PartId, Parts, parts_of};
use swc_nodes::node::{ExprId, Node, PropNode};
use swc_nodes::nodes::Nodes;

/// What a walk over a tree has yet to do: to go through a part, or to note the place of a cover name.
#[derive(Clone, Copy)]
enum Due {
    Part(PartId),
    Name(Span),
}

/// The places of the cover names in an expression, as its nodes have them, in the order of the source.
///
/// The walk goes into keys, into parameters of methods and setters, and into patterns. It goes into no arrow function,
/// neither its parameters nor its body, and not after a cover name, into its value. Functions, classes and blocks are
/// the hook's, and are never gone into. It takes no recursion, and is refused only when out of memory.
pub(crate) fn find_cover_names<F: Spanned + Drop, C: Spanned + Drop, K: Spanned + Drop>(
    nodes: &Nodes<F, C, K>,
    expr: ExprId,
) -> Result<Vec<Span>, AllocError>
    requires { From 0 nodes.now (expr_part expr) }
    ensures { IfOk result (λ names. names.items ≡ cover_names (tree_at nodes.now expr.0)) }
{
    let due = vec![in nodes.allocator(); Due::Part(PartId::Expr(expr))]?;
    find_due(nodes, due, false)
}

/// The places of all cover names in an item, as an expression, a pattern, a key or a list of these, as its nodes have
/// them, in the order of the source: those that `find_cover_names` finds, and those in arrow functions.
///
/// Of arrow functions the walk goes into the parameters, and then into the body. A property of an object literal is no
/// item: it may be a cover name itself, and not only have some among its parts.
pub(crate) fn find_covers_left<T: Parts, F: Spanned + Drop, C: Spanned + Drop, K: Spanned + Drop>(
    nodes: &Nodes<F, C, K>,
    item: &T,
) -> Result<Vec<Span>, AllocError>
    requires { Apart 0 nodes.now (T.parts item.now) }
    ensures { IfOk result (λ names. names.items ≡ parts_covers_left (tree_at nodes.now) (T.parts item.now)) }
{
    let mut due = Vec::new(nodes.allocator());
    list_parts(item, &mut due)?;
    find_due(nodes, due, true)
}

/// Records an `AssignProperty` at each of the places, in their order, as `Buffer::emit_err` records a fault: each after
/// the error of an error token that is current, which is consumed. Where the context ignores errors, or early errors
/// are off, nothing is done. It is refused only when out of memory.
pub(crate) fn record_cover_names<I: Tokens>(input: &mut Buffer<I>, names: &[Span]) -> PResult<()>
    ensures silent { is_silent (state_of I.model input.old) ≡ true → IsOk result × (input.new ≡ input.old) }
    ensures recorded { is_silent (state_of I.model input.old) ≡ false
        → OnOk result (RecordsAll I.model (cover_faults names.now) input.old input.new) }
    ensures refused { IfErr result (λ e. (xs : List TokenAndSpan) × Read I.model input.old xs input.new
        × (e ≡ no_memory (last_position input.new))) }
    ensures read { ReadSome I.model input.old input.new }
    ensures lives { OnOk result (Lives I.model input.old input.new) }

    // Where a token is current, and holds no error, and where the first token that a listed source gives holds none, or
    // it gives none: the faults are recorded, and no others, and nothing is consumed.
    ensures current { is_silent (state_of I.model input.old) ≡ false → is_fit (current input.old) ≡ true
        → OnOk result (Appends I.model (cover_faults names.now) input.old input.new) }
    ensures listed { is_silent (state_of I.model input.old) ≡ false → (ts : List TokenAndSpan)
        → Known I.model input.old ts → begins_fit ts ≡ true
        → OnOk result (Appends I.model (cover_faults names.now) input.old input.new) }
{
    for name in names {
        input.emit_err(name.in_order(), SyntaxError::AssignProperty)?;
    }
    Ok(())
}

/// The places of the cover names that are found by what is due, in the order of the source, with those in arrow
/// functions or without them.
fn find_due<F: Spanned + Drop, C: Spanned + Drop, K: Spanned + Drop>(
    nodes: &Nodes<F, C, K>,
    mut due: Vec<Due>,
    in_arrows: bool,
) -> Result<Vec<Span>, AllocError>
    requires { AreWithin nodes.now (map due_of due.items) }
    ensures { IfOk result (λ names. names.items ≡ names_due in_arrows (tree_at nodes.now) (map due_of due.items)) }
{
    let mut names = Vec::new(nodes.allocator());
    // From the last one on.
    while let Some(last) = due.pop() {
        match last {
            Due::Name(span) => names.push(span)?,
            Due::Part(part) => list_node(nodes.get(part.number()), in_arrows, &mut due)?,
        }
    }
    names.reverse();
    Ok(names)
}

/// Puts what is due of a node after that of a list. Of an arrow function that is its parts, or nothing.
fn list_node<F: Spanned + Drop, C: Spanned + Drop, K: Spanned + Drop>(
    node: &Node<F, C, K>,
    in_arrows: bool,
    due: &mut Vec<Due>,
) -> Result<(), AllocError>
    ensures { IfOk result (λ _. map due_of due.new.items ≡
        map due_of due.old.items ++ node_dues in_arrows node.now) }
{
    match node {
        Node::Object { props, .. } => list_props(props, due),
        Node::Arrow { .. } if !in_arrows => Ok(()),
        _ => list_parts(node, due),
    }
}

/// The same of the properties of an object literal.
fn list_props<K>(props: &[PropNode<K>], due: &mut Vec<Due>) -> Result<(), AllocError>
    ensures { IfOk result (λ _. map due_of due.new.items ≡ map due_of due.old.items ++ flat prop_dues props.now) }
{
    for prop in props {
        list_prop(prop, due)?;
    }
    Ok(())
}

/// The same of a property: of a cover name its place alone.
fn list_prop<K>(prop: &PropNode<K>, due: &mut Vec<Due>) -> Result<(), AllocError>
    ensures { IfOk result (λ _. map due_of due.new.items ≡ map due_of due.old.items ++ prop_dues prop.now) }
{
    match prop {
        PropNode::Assign(cover) => {
            due.push(Due::Name(cover.span))?;
            Ok(())
        }
        _ => list_parts(prop, due),
    }
}

/// The same of all parts that there are.
fn list_parts<T: Parts>(item: &T, due: &mut Vec<Due>) -> Result<(), AllocError>
    ensures { IfOk result (λ _. map due_of due.new.items ≡ map due_of due.old.items ++ part_dues (T.parts item.now)) }
{
    let parts = parts_of(*due.allocator(), item)?;
    for part in &parts {
        due.push(Due::Part(*part))?;
    }
    Ok(())
}
