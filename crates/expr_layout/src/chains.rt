// What is noted at chains of members and calls, as `a.b().c()`.
use crate::looks::{arguments_at, is_call, is_function, member_at, member_of, object_of};
use crate::simple::are_simple;
use layout_document::marks::{DOT, Gap, Group, Marks, Place, When};
use layout_document::roles::Role;
use std::alloc::{AllocError, Global};
use swc_ast::expr::MemberProp;
use swc_ast::spanned::Spanned;
use swc_nodes::node::{ExprId, Node};
use swc_nodes::nodes::Nodes;

/// A link of a chain.
#[derive(Clone, Copy)]
struct Link {
    expr: ExprId,
    is_call: bool,
    is_member: bool,
    /// `[0]`, or `["a"]`.
    is_literal: bool,
    /// The unit of the dot of a member, or that of its `?`.
    dot: Option<usize>,
}

/// A chain, from its head on.
#[derive(Drop)]
pub(crate) struct Chain {
    head: ExprId,
    links: Vec<Link>,
    /// How many links there are through the last call.
    end: usize,
    /// The links with which parts begin that each end with calls. What is before the first is the head.
    starts: Vec<usize>,
    /// The first part stays on the line of the head.
    merges: bool,
}

impl Chain {
    /// Whether it has parts enough to be broken before them.
    pub(crate) fn breaks(&self) -> bool {
        let most = if self.merges { 2 } else { 1 };
        most < self.starts.len()
            && self.starts.iter().all(|start| match self.links.get(*start) {
                Some(link) => link.dot.is_some(),
                None => false,
            })
    }

    /// The last call.
    fn last_call(&self) -> Option<Link> {
        self.links.get(self.end.saturating_sub(1)).copied()
    }
}

/// The chain that ends with an expression.
pub(crate) fn chain_of<B: Spanned + Drop>(
    alloc: Global,
    marks: &Marks,
    nodes: &Nodes<B, B, B>,
    expr: ExprId,
    role: Role,
) -> Result<Chain, AllocError> {
    let mut links = Vec::new(alloc);
    let mut head = expr;
    for _ in 0..nodes.len() {
        match nodes.node(head) {
            Some(node) => match object_of(node) {
                Some(object) => {
                    links.push(link_of(marks, nodes, node, head))?;
                    head = object;
                }
                None => break,
            },
            None => break,
        }
    }
    links.reverse();
    let calls = links.iter().rposition(|link| link.is_call);
    let end = calls.map_or(0, |last| last.saturating_add(1));
    let length = head_length(&links, end);
    let merges = match length.checked_sub(1).and_then(|last| links.get(last)) {
        Some(link) => is_factory_member(nodes, link.expr),
        None => is_short_head(marks, nodes, head, role),
    };
    let starts = starts_of(alloc, &links, length, end)?;
    Ok(Chain {
        head,
        links,
        end,
        starts,
        merges,
    })
}

fn link_of<B: Spanned + Drop>(
    marks: &Marks,
    nodes: &Nodes<B, B, B>,
    node: &Node<B, B, B>,
    expr: ExprId,
) -> Link {
    let member = member_of(node);
    let name = match member {
        Some(MemberProp::Ident(name)) => Some(name.span.lo),
        Some(MemberProp::PrivateName(name)) => Some(name.span.lo),
        _ => None,
    };
    let is_literal = match member {
        Some(MemberProp::Computed(key)) => {
            matches!(nodes.node(key.expr), Some(Node::Num(_) | Node::Str(_)))
        }
        _ => false,
    };
    let signs = match node {
        Node::OptChain(chain) if chain.optional => 2,
        _ => 1,
    };
    Link {
        expr,
        is_call: is_call(node),
        is_member: member.is_some(),
        is_literal,
        dot: name.map(|name| marks.at(name).saturating_sub(signs)),
    }
}

/// How many links the head of a chain has: calls and members with literals, or members before the first that is called.
fn head_length(links: &[Link], end: usize) -> usize {
    let mut length = 0usize;
    for link in links.iter().take(end) {
        if !link.is_call && !link.is_literal && link.is_member {
            break;
        }
        length = length.saturating_add(1);
    }
    if 0 < length && matches!(links.first(), Some(link) if link.is_call) {
        return length;
    }
    for number in length..end.saturating_sub(1) {
        match (links.get(number), links.get(number.saturating_add(1))) {
            (Some(link), Some(next)) if link.is_member && next.is_member => {
                length = number.saturating_add(1)
            }
            _ => break,
        }
    }
    length
}

/// The links with which parts begin: the first after the head, and each member after a call.
fn starts_of(
    alloc: Global,
    links: &[Link],
    length: usize,
    end: usize,
) -> Result<Vec<usize>, AllocError> {
    let mut starts = Vec::new(alloc);
    let mut is_called = false;
    for (number, link) in links.iter().enumerate().take(end).skip(length) {
        if starts.is_empty() || is_called && link.dot.is_some() {
            starts.push(number)?;
            is_called = false;
        }
        is_called |= link.is_call;
    }
    Ok(starts)
}

/// Whether a name is that of what makes things: it begins with a capital letter, or has no letters.
fn is_factory(name: &str) -> bool {
    let is_sign = |byte: u8| matches!(byte, b'$' | b'_');
    match name.as_bytes().first() {
        Some(first) => {
            first.is_ascii_uppercase() || name.as_bytes().iter().all(|byte| is_sign(*byte))
        }
        None => false,
    }
}

/// Whether a link is a member whose name is that of what makes things.
fn is_factory_member<B: Spanned + Drop>(nodes: &Nodes<B, B, B>, link: ExprId) -> bool {
    match member_at(nodes, link) {
        Some(MemberProp::Ident(name)) => is_factory(name.sym.as_str()),
        _ => false,
    }
}

/// Whether the head of a chain is so short that the first call stays on its line.
fn is_short_head<B: Spanned + Drop>(
    marks: &Marks,
    nodes: &Nodes<B, B, B>,
    head: ExprId,
    role: Role,
) -> bool {
    match nodes.node(head) {
        Some(Node::This(_)) => true,
        Some(Node::Ident(name)) => {
            let name = name.sym.as_str();
            is_factory(name) || role == Role::Statement && name.len() <= marks.style.indent
        }
        _ => false,
    }
}

/// Notes a chain that ends with an expression.
pub(crate) fn mark_chain<B: Spanned + Drop>(
    alloc: Global,
    marks: &mut Marks,
    nodes: &Nodes<B, B, B>,
    expr: ExprId,
) -> Result<(), AllocError> {
    let role = marks.role(expr);
    let chain = chain_of(alloc, marks, nodes, expr, role)?;
    for link in &chain.links {
        marks.set_role(link.expr, Role::Link);
    }
    marks.set_role(chain.head, Role::Callee);
    if chain.breaks() {
        mark_parts(alloc, marks, nodes, &chain)?;
    }
    if !is_inline(nodes, &chain, role) {
        mark_tail(marks, nodes, &chain);
    }
    Ok(())
}

/// Notes the group of a chain, and the lines before its parts.
fn mark_parts<B: Spanned + Drop>(
    alloc: Global,
    marks: &mut Marks,
    nodes: &Nodes<B, B, B>,
    chain: &Chain,
) -> Result<(), AllocError> {
    let Some(last) = chain.last_call() else {
        return Ok(());
    };
    let (Some(head), Some(place)) = (nodes.span_of(chain.head), nodes.span_of(last.expr)) else {
        return Ok(());
    };
    let group = Group::Chain {
        is_broken: is_long(alloc, nodes, chain)?,
        is_loose: has_function_before(nodes, chain),
    };
    marks.add_chain(marks.at(head.lo), marks.before(place.hi), group);
    for start in chain.starts.iter().skip(usize::from(chain.merges)) {
        if let Some(dot) = chain.links.get(*start).and_then(|link| link.dot) {
            marks.set(dot, DOT);
        }
    }
    let last_part = chain
        .starts
        .last()
        .and_then(|start| chain.links.get(*start));
    if let Some(dot) = last_part.and_then(|link| link.dot) {
        marks.set_place(dot, Place::Before);
    }
    Ok(())
}

/// Whether there are three calls or more, and one has arguments that aren't simple.
fn is_long<B: Spanned + Drop>(
    alloc: Global,
    nodes: &Nodes<B, B, B>,
    chain: &Chain,
) -> Result<bool, AllocError> {
    if chain.links.iter().filter(|link| link.is_call).count() <= 2 {
        return Ok(false);
    }
    for link in &chain.links {
        if let Some(args) = arguments_at(nodes, link.expr) {
            if !are_simple(alloc, nodes, args)? {
                return Ok(true);
            }
        }
    }
    Ok(false)
}

/// Whether a call before the last has a function among its arguments.
fn has_function_before<B: Spanned + Drop>(nodes: &Nodes<B, B, B>, chain: &Chain) -> bool {
    let before = chain.end.saturating_sub(1);
    chain
        .links
        .iter()
        .take(before)
        .any(|link| match arguments_at(nodes, link.expr) {
            Some(args) => args.iter().any(|arg| is_function(nodes, arg.expr)),
            None => false,
        })
}

/// Whether no line may be before the members after the last call.
fn is_inline<B: Spanned + Drop>(nodes: &Nodes<B, B, B>, chain: &Chain, role: Role) -> bool {
    let is_one = chain.links.len() == chain.end.saturating_add(1);
    let is_word = matches!(nodes.node(chain.head), Some(Node::Ident(_) | Node::This(_)));
    match chain.last_call().filter(|_| 0 < chain.end) {
        _ if role == Role::Target => true,
        None => is_one && is_word,
        Some(last) => match arguments_at(nodes, last.expr) {
            Some(args) => role == Role::Right && is_one && !args.is_empty(),
            None => false,
        },
    }
}

/// Notes the lines before the members after the last call.
fn mark_tail<B: Spanned + Drop>(marks: &mut Marks, nodes: &Nodes<B, B, B>, chain: &Chain) {
    let Some(last) = chain.links.last().filter(|link| link.is_member) else {
        return;
    };
    let (Some(head), Some(place)) = (nodes.span_of(chain.head), nodes.span_of(last.expr)) else {
        return;
    };
    let is_word = matches!(nodes.node(chain.head), Some(Node::Ident(_) | Node::This(_)));
    let skipped = usize::from(chain.end == 0 && is_word);
    let mut is_group = false;
    for link in chain.links.iter().skip(chain.end.max(skipped)) {
        if let Some(dot) = link.dot {
            marks.set(dot, Gap::line_when(false, true, When::Needed));
            is_group = true;
        }
    }
    if is_group {
        marks.add_group(marks.at(head.lo), marks.before(place.hi));
    }
}
