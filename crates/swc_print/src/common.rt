// The common kinds of nodes, which are written at once.
ghost use Rattle.std.specs.Prelude.{◌≡◌, ◌∷◌, [], IfOk};
ghost use Rattle.swc_nodes.specs.{NodeParts.flat, NodeParts.item_parts, NodeParts.member_parts, Weights.ats};
ghost use Rattle.swc_print.specs.Numbers.{Begins, numbers, shown};
ghost use Rattle.swc_print.specs.declared.common.Begun.TheVariants.{Whole};

use crate::kinds::target_number;
use crate::pieces::{Owner, Piece};
use std::alloc::AllocError;
use swc_ast::expr::{Callee, ExprOrSpread, MemberProp};
use swc_nodes::node::{ExprId, Node};

/// What was written of a node.
#[derive(Clone, Copy)]
pub(crate) enum Begun {
    /// All that is before its first part, which has the number.
    Part(usize),
    /// The whole node, which has no parts.
    Whole,
    /// Nothing: it is of another kind.
    Nothing,
}

/// Writes a node of a common kind up to its first part, and puts the rest on the stack.
#[inline(always)]
pub(crate) fn put_common<'a, F, C, K>(
    stack: &mut Vec<Piece<'a>>,
    out: &mut String,
    node: &'a Node<F, C, K>,
) -> Result<Begun, AllocError>
    ensures { IfOk result (λ begun. Begins (ats (shown node.now)) stack.old.items begun stack.new.items) }
{
    match node {
        Node::Ident(i) => put_whole(out, i.sym.as_str()),
        Node::Num(n) => put_whole(out, n.raw.as_str()),
        Node::Str(s) => put_whole(out, s.raw.as_str()),
        Node::This(_) => put_whole(out, "this"),
        Node::Unary { op, arg, .. } => {
            put_operator(out, "Unary(", op.as_str())?;
            put_open(stack, arg.0, Piece::Text(")"))
        }
        Node::Paren(p) => {
            out.push_str("Paren(")?;
            put_open(stack, p.expr.0, Piece::Text(")"))
        }
        Node::Member(m) => put_member(stack, out, m.obj.0, &m.prop),
        Node::Call {
            callee: Callee::Expr(callee),
            args,
            ..
        } => put_call(stack, out, callee.0, args),
        _ => put_infix(stack, out, node),
    }
}

/// Writes a binary operation, an assignment or a conditional up to its first part, and puts the rest on the stack.
#[inline(always)]
fn put_infix<'a, F, C, K>(
    stack: &mut Vec<Piece<'a>>,
    out: &mut String,
    node: &'a Node<F, C, K>,
) -> Result<Begun, AllocError>
    ensures { IfOk result (λ begun. Begins (ats (shown node.now)) stack.old.items begun stack.new.items) }
{
    match node {
        Node::Bin {
            op,
            left,
            right,
            ..
        } => {
            put_operator(out, "Bin(", op.as_str())?;
            put_open(stack, left.0, Piece::Last(right.0))
        }
        Node::Assign {
            op,
            left,
            right,
            ..
        } => {
            put_operator(out, "Assign(", op.as_str())?;
            put_open(stack, target_number(left), Piece::Last(right.0))
        }
        Node::Cond {
            test,
            cons,
            alt,
            ..
        } => {
            out.push_str("Cond(")?;
            put_cond(stack, test.0, cons.0, alt.0)
        }
        _ => Ok(Begun::Nothing),
    }
}

/// Writes a node that is a text.
#[inline(always)]
fn put_whole(out: &mut String, text: &str) -> Result<Begun, AllocError>
    ensures { IfOk result (λ begun. begun ≡ Whole) }
{
    out.push_str(text)?;
    Ok(Begun::Whole)
}

/// Writes what a node with an operator begins with.
#[inline(always)]
fn put_operator(out: &mut String, open: &str, op: &str) -> Result<(), AllocError> {
    out.push_str(open)?;
    out.push_str(op)?;
    out.push_str(", ")
}

/// Puts what follows the first part of a node on the stack.
#[inline(always)]
#[tactic(auto, using(crate::proofs::Added::part_first))]
fn put_open<'a>(
    stack: &mut Vec<Piece<'a>>,
    first: usize,
    rest: Piece<'a>,
) -> Result<Begun, AllocError>
    ensures { IfOk result (λ begun. Begins (first ∷ numbers (rest.entry ∷ [])) stack.old.items begun stack.new.items) }
{
    stack.push(rest)?;
    Ok(Begun::Part(first))
}

/// Puts what follows the first part of a conditional on the stack.
#[inline(always)]
#[tactic(auto, using(crate::proofs::Added::third_part))]
fn put_cond(
    stack: &mut Vec<Piece>,
    test: usize,
    cons: usize,
    alt: usize,
) -> Result<Begun, AllocError>
    ensures { IfOk result (λ begun. Begins (test ∷ cons ∷ alt ∷ []) stack.old.items begun stack.new.items) }
{
    stack.push(Piece::Last(alt))?;
    stack.push(Piece::Next(cons))?;
    Ok(Begun::Part(test))
}

/// Writes a member up to its object.
#[inline(always)]
fn put_member<'a>(
    stack: &mut Vec<Piece<'a>>,
    out: &mut String,
    obj: usize,
    prop: &'a MemberProp<ExprId>,
) -> Result<Begun, AllocError>
    ensures { IfOk result (λ begun. Begins (obj ∷ ats (member_parts prop.now)) stack.old.items begun stack.new.items) }
{
    let rest = match prop {
        MemberProp::Ident(i) => Piece::Property(Owner::Other, i.sym.as_str()),
        MemberProp::Computed(c) => Piece::Bracketed(Owner::Other, c.expr.0),
        MemberProp::PrivateName(_) => return Ok(Begun::Nothing),
    };
    out.push_str("Member(")?;
    put_open(stack, obj, rest)
}

/// Writes a call with at most one argument up to what is called.
#[inline(always)]
fn put_call<'a>(
    stack: &mut Vec<Piece<'a>>,
    out: &mut String,
    callee: usize,
    args: &'a [ExprOrSpread<ExprId>],
) -> Result<Begun, AllocError>
    ensures { IfOk result (λ begun. Begins (callee ∷ ats (flat item_parts args.now)) stack.old.items begun
        stack.new.items) }
{
    let rest = match args {
        [] => Piece::Text(", [])"),
        [ExprOrSpread { spread: None, expr }] => Piece::Bracketed(Owner::Other, expr.0),
        _ => return Ok(Begun::Nothing),
    };
    out.push_str("Call(")?;
    put_open(stack, callee, rest)
}
