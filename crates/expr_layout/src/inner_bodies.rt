// The functions, classes and blocks in an expression, which are units of its layout as a whole.
use crate::layout::Nodes;
use std::alloc::{AllocError, Global};
use swc_ast::expr::BlockStmtOrExpr;
use swc_ast::spanned::Spanned;
use swc_bodies::token_body::TokenBody;
use swc_context::span::Span;
use swc_nodes::node::{ExprId, Node, PropNode};
use swc_nodes::reached::reached;

/// The places of all functions, classes and blocks of an expression, in the order of the text.
pub fn bodies_of(alloc: Global, nodes: &Nodes, expr: ExprId) -> Result<Vec<Span>, AllocError> {
    let mut bodies = Vec::new(alloc);
    for part in &reached(nodes, &expr)? {
        if part.number() < nodes.len() {
            push_bodies(&mut bodies, nodes.get(part.number()))?;
        }
    }
    bodies.sort_by_key(|span: &Span| span.lo.0)?;
    Ok(bodies)
}

fn push_bodies(
    bodies: &mut Vec<Span>,
    node: &Node<TokenBody, TokenBody, TokenBody>,
) -> Result<(), AllocError> {
    match node {
        Node::Fn(body) | Node::Class(body) => bodies.push(body.span)?,
        Node::Arrow { body, .. } => {
            if let BlockStmtOrExpr::BlockStmt(block) = &**body {
                bodies.push(block.span)?;
            }
        }
        Node::Object { props, .. } => {
            for prop in props {
                if let Some(body) = body_of(prop) {
                    bodies.push(body)?;
                }
            }
        }
        _ => {}
    }
    Ok(())
}

/// The place of the block that a property ends with.
pub fn body_of<B: Spanned>(prop: &PropNode<B>) -> Option<Span> {
    match prop {
        PropNode::Method { function, .. } => Some(function.body.span()),
        PropNode::Getter { body, .. } | PropNode::Setter { body, .. } => Some(body.span()),
        _ => None,
    }
}
