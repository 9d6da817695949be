// Expressions that become patterns (ECMA-262, 13.15.5 and 15.3).
ghost use Rattle.std.specs.Prelude.{◌≡◌, true, IfOk};
ghost use Rattle.swc_ast.specs.Tree.{pat_expr, node, nil, cons, span_of};
ghost use Rattle.swc_cover.specs.{Moving.KeptTo, PatTypes.role_for, PatTypes.want_as, Roles.refines, Roles.sought};
ghost use Rattle.swc_nodes.specs.NodeParts.{expr_part, pat_part};
ghost use Rattle.swc_nodes.specs.GrowingNodes.{tree_at, first_at, From, Grows, Made};

use crate::pat_type::{PatType, stands_whole};
use std::alloc::{AllocError, Global};
use swc_ast::spanned::Spanned;
use swc_nodes::apart::PartId;
use swc_nodes::node::{ExprId, Node, PatId};
use swc_nodes::nodes::Nodes;
use swc_nodes::role::{Duty, Role};

/// Makes a pattern of an expression, where it is, and drops all after it. Nodes with numbers below all that is
/// reached from the expression stay.
pub fn refine_pat<F: Spanned + Drop, C: Spanned + Drop, K: Spanned + Drop>(
    nodes: &mut Nodes<F, C, K>,
    alloc: Global,
    pat_type: PatType,
    id: ExprId,
) -> Result<PatId, AllocError>
    requires { From 0 nodes.old (expr_part id) }
    ensures kept { KeptTo (first_at nodes.old id.0) nodes.old nodes.new }
    ensures made { IfOk result (λ p. Made (first_at nodes.old id.0) nodes.new (pat_part p)
        (want_as pat_type (tree_at nodes.old id.0))) }
{
    if stands_whole(nodes, pat_type, id) && !nodes.is_ident(id) {
        return hold_expr(nodes, id);
    }
    refine(nodes, alloc, id, role(pat_type))
}

/// Makes a pattern of an expression, where it is, and drops all after it. Nodes with numbers below all that is
/// reached from the expression stay.
fn refine<F: Spanned + Drop, C: Spanned + Drop, K: Spanned + Drop>(
    nodes: &mut Nodes<F, C, K>,
    alloc: Global,
    id: ExprId,
    role: Role,
) -> Result<PatId, AllocError>
    requires from { From 0 nodes.old (expr_part id) }
    requires role { refines role ≡ true }
    ensures kept { KeptTo (first_at nodes.old id.0) nodes.old nodes.new }
    ensures made { IfOk result (λ p. Made (first_at nodes.old id.0) nodes.new (pat_part p)
        (sought role (tree_at nodes.old id.0))) }
{
    let mut roots = Vec::new(alloc);
    roots.push(Duty {
        part: PartId::Expr(id),
        role,
    })?;
    nodes.turn(alloc, roots)?;
    if nodes.has_expr(id) {
        return hold_expr(nodes, id);
    }
    Ok(PatId(id.0))
}

/// What a node is to become.
fn role(pat_type: PatType) -> Role
    ensures { result ≡ role_for pat_type }
{
    match pat_type {
        PatType::BindingPat | PatType::BindingElement => Role::Bind,
        PatType::AssignPat | PatType::AssignElement => Role::Assign,
    }
}

/// A pattern that is an expression which is assigned to as it is.
fn hold_expr<F: Spanned + Drop, C: Spanned + Drop, K: Spanned + Drop>(
    nodes: &mut Nodes<F, C, K>,
    id: ExprId,
) -> Result<PatId, AllocError>
    requires { From 0 nodes.old (expr_part id) }
    ensures grows { Grows nodes.old nodes.new }
    ensures made { IfOk result (λ p. Made (first_at nodes.old id.0) nodes.new (pat_part p)
        (node pat_expr (span_of (tree_at nodes.old id.0)) (cons (tree_at nodes.old id.0) nil))) }
{
    Ok(PatId(nodes.push(Node::PatExpr(id))?))
}
