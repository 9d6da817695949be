// What a node is to become, where an expression becomes a pattern, or a pattern that was assigned to one that binds.
ghost use Rattle.std.specs.Prelude.{◌≡◌};
ghost use Rattle.swc_nodes.specs.Roles.{becomes_as, bound_as, assigned_as, rebound_as, rest_as, again_as, rest_role, expr_role};

use crate::apart::PartId;
use crate::node::Node;
use swc_context::operator::AssignOp;
use swc_context::span::Span;

/// What a node is to become.
#[derive(Clone, Copy, Debug, PartialEq, Eq)]
pub enum Role {
    /// What it is.
    Keep,
    /// A pattern that binds, of an expression.
    Bind,
    /// A pattern that is assigned to, of an expression.
    Assign,
    /// A pattern that binds, of a pattern.
    Rebind,
    /// What an object's rest with this place holds, where it binds, of an expression.
    BindRest(Span),
    /// The same, of a pattern.
    RebindRest(Span),
    /// No pattern, of an expression: a fault was recorded.
    Nothing,
    /// The same, with this place.
    NothingAt(Span),
}

/// How a node becomes that.
#[derive(Clone, Copy, Debug, PartialEq, Eq)]
pub enum Becomes {
    /// As it is.
    Same,
    /// A pattern, as it is, whose parts become what they are to.
    Again,
    /// An expression, as it is: what holds it says that it is assigned to, as `a.b`.
    Held,
    /// An identifier.
    Ident,
    /// An array pattern.
    Array,
    /// An object pattern.
    Object,
    /// A pattern with its default value.
    Default,
    /// None, with the node's place: a fault was recorded.
    Nothing,
    /// None, with this place: a fault was recorded.
    Instead(Span),
}

/// A part, and what it is to become.
#[derive(Clone, Copy)]
pub struct Duty {
    pub part: PartId,
    pub role: Role,
}

/// How a node becomes what it is to.
pub(crate) fn how<F, C, K>(role: Role, node: &Node<F, C, K>) -> Becomes
    ensures { result ≡ becomes_as role node.now }
{
    match role {
        Role::Keep => Becomes::Same,
        Role::Bind => bound(node),
        Role::Assign => assigned(node),
        Role::Rebind => rebound(node),
        Role::BindRest(span) => bound_rest(node, span),
        Role::RebindRest(span) => rebound_rest(node, span),
        Role::Nothing => Becomes::Nothing,
        Role::NothingAt(span) => Becomes::Instead(span),
    }
}

fn bound<F, C, K>(node: &Node<F, C, K>) -> Becomes
    ensures { result ≡ bound_as node.now }
{
    match node {
        Node::Ident(_) => Becomes::Ident,
        Node::Array { .. } => Becomes::Array,
        Node::Object { .. } => Becomes::Object,
        Node::Assign {
            op: AssignOp::Assign,
            ..
        } => Becomes::Default,
        _ => Becomes::Nothing,
    }
}

fn assigned<F, C, K>(node: &Node<F, C, K>) -> Becomes
    ensures { result ≡ assigned_as node.now }
{
    match node {
        Node::Ident(_) => Becomes::Ident,
        Node::Array { .. } => Becomes::Array,
        Node::Object { .. } => Becomes::Object,
        Node::Assign {
            op: AssignOp::Assign,
            ..
        } => Becomes::Default,
        Node::Member(_)
        | Node::SuperProp(_)
        | Node::Call { .. }
        | Node::New { .. }
        | Node::Fn(_)
        | Node::Class(_)
        | Node::Paren(_)
        | Node::Tpl(_)
        | Node::Str(_)
        | Node::Bool(_)
        | Node::Null(_)
        | Node::Num(_)
        | Node::BigInt(_)
        | Node::Regex(_) => Becomes::Held,
        _ => Becomes::Nothing,
    }
}

fn rebound<F, C, K>(node: &Node<F, C, K>) -> Becomes
    ensures { result ≡ rebound_as node.now }
{
    match node {
        Node::PatIdent(_) | Node::PatInvalid(_) => Becomes::Same,
        Node::PatArray { .. }
        | Node::PatObject { .. }
        | Node::PatRest { .. }
        | Node::PatAssign { .. } => Becomes::Again,
        _ => Becomes::Nothing,
    }
}

fn bound_rest<F, C, K>(node: &Node<F, C, K>, span: Span) -> Becomes
    ensures { result ≡ rest_as span node.now }
{
    match node {
        Node::Ident(_) => Becomes::Ident,
        _ => Becomes::Instead(span),
    }
}

fn rebound_rest<F, C, K>(node: &Node<F, C, K>, span: Span) -> Becomes
    ensures { result ≡ again_as span node.now }
{
    match node {
        Node::PatIdent(_) | Node::PatInvalid(_) => Becomes::Same,
        _ => Becomes::Instead(span),
    }
}

/// What an object's rest holds is to become.
pub(crate) fn of_rest(role: Role, span: Span) -> Role
    ensures { result ≡ rest_role role span }
{
    match role {
        Role::Bind => Role::BindRest(span),
        Role::Rebind => Role::RebindRest(span),
        _ => role,
    }
}

/// What an expression that is assigned to is to become, where what holds it is to become that: no pattern, since it
/// binds nothing.
pub(crate) fn of_expr(role: Role) -> Role
    ensures { result ≡ expr_role role }
{
    match role {
        Role::RebindRest(span) => Role::NothingAt(span),
        _ => Role::Nothing,
    }
}
