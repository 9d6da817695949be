// Items in parentheses that become parameters of an arrow function.
ghost use Rattle.std.specs.Prelude.{◌≡◌, ◌++◌, map, IfOk};
ghost use Rattle.swc_ast.specs.Parts.{item_trees};
ghost use Rattle.swc_cover.specs.Items.{item_due, listed, last_rest, want_items, AllMade};
ghost use Rattle.swc_cover.specs.Moving.{KeptTo};
ghost use Rattle.swc_nodes.specs.GrowingNodes.{count, tree_at, seat_at, Apart};
ghost use Rattle.swc_nodes.specs.{NumberedTrees.floor, NodeParts.flat, NodeParts.item_parts, Roles.due};

use std::alloc::{AllocError, Global};
use swc_ast::expr::ExprOrSpread;
use swc_ast::spanned::Spanned;
use swc_context::span::Span;
use swc_nodes::apart::PartId;
use swc_nodes::node::{ExprId, Node, PatId};
use swc_nodes::nodes::Nodes;
use swc_nodes::role::{Duty, Role};

/// What a spread holds, and where its dots are.
#[derive(Clone, Copy)]
pub struct Dotted {
    pub dots: Span,
    pub held: ExprId,
}

/// Makes patterns of items, where they are, and drops all after them. A spread that is the last becomes a rest,
/// which is appended; any other is dropped.
pub fn refine_items<F: Spanned + Drop, C: Spanned + Drop, K: Spanned + Drop>(
    nodes: &mut Nodes<F, C, K>,
    alloc: Global,
    items: &Vec<ExprOrSpread<ExprId>>,
) -> Result<Vec<PatId>, AllocError>
    requires { Apart 0 nodes.old (flat item_parts items.now.items) }
    ensures kept { KeptTo (floor (seat_at nodes.old) (count nodes.old) (flat item_parts items.now.items))
        nodes.old nodes.new }
    ensures made { IfOk result (λ pats. AllMade
        (floor (seat_at nodes.old) (count nodes.old) (flat item_parts items.now.items)) nodes.new pats.items
        (want_items (item_trees (λ e. tree_at nodes.old e.0) items.now.items))) }
{
    let roots = item_roots(alloc, items)?;
    nodes.turn(alloc, roots)?;
    let mut pats = plain_items(alloc, items)?;
    match last_item(items) {
        None => Ok(pats),
        Some(last) => {
            let arg = PatId(last.held.0);
            let rest = Node::PatRest {
                span: nodes.pat_extent(arg),
                dot3_token: last.dots,
                arg,
            };
            let id = nodes.push(rest)?;
            pats.push(PatId(id))?;
            Ok(pats)
        }
    }
}

/// What is due of the items.
fn item_roots(alloc: Global, items: &Vec<ExprOrSpread<ExprId>>) -> Result<Vec<Duty>, AllocError>
    ensures { IfOk result (λ roots. map due roots.items ≡ map (item_due Role.Bind) items.now.items) }
{
    let mut roots = Vec::new(alloc);
    for item in items {
        roots.push(Duty {
            part: PartId::Expr(item.expr),
            role: Role::Bind,
        })?;
    }
    Ok(roots)
}

/// The patterns of the items that are no spreads.
fn plain_items(alloc: Global, items: &Vec<ExprOrSpread<ExprId>>) -> Result<Vec<PatId>, AllocError>
    ensures { IfOk result (λ pats. pats.items ≡ flat listed items.now.items) }
{
    let mut pats = Vec::new(alloc);
    for item in items {
        add_plain(&mut pats, item)?;
    }
    Ok(pats)
}

fn add_plain(pats: &mut Vec<PatId>, item: &ExprOrSpread<ExprId>) -> Result<(), AllocError>
    ensures { IfOk result (λ _. pats.new.items ≡ pats.old.items ++ listed item.now) }
{
    match item.spread {
        None => {
            pats.push(PatId(item.expr.0))?;
            Ok(())
        }
        Some(_) => Ok(()),
    }
}

/// The last item, where it is a spread.
fn last_item(items: &Vec<ExprOrSpread<ExprId>>) -> Option<Dotted>
    ensures { result ≡ last_rest items.now.items }
{
    if items.is_empty() {
        return None;
    }
    let item = &items[items.len() - 1];
    match item.spread {
        None => None,
        Some(dots) => Some(Dotted {
            dots,
            held: item.expr,
        }),
    }
}
