// Trees, by number and in boxes.
use crate::numbered::Numbered;
use crate::shown::{NO_MEMORY, Shown};
use std::alloc::{AllocError, Global};
use std::mem::forget;
use swc_ast::expr::{Expr, ExprOrSpread, Tpl};
use swc_ast::for_head::ForHead;
use swc_ast::function::Param;
use swc_ast::lit::Lit;
use swc_ast::pat::{ObjectPatProp, Pat};
use swc_ast::prop::{ComputedPropName, Prop, PropName, PropOrSpread};
use swc_ast::spanned::Spanned;
use swc_bodies::token_body::TokenBody;
use swc_context::error::PResult;
use swc_context::span::Span;
use swc_nodes::node::{ExprId, Node, PatId};
use swc_nodes::nodes::Nodes;
use swc_print::print::PrintNodes;
use swc_trees::putting::{put_args, put_expr, put_pat};

/// The nodes of all rows, whose bodies are kept as tokens.
pub type TestNodes = Nodes<TokenBody, TokenBody, TokenBody>;

pub type TestExpr = Expr<TokenBody, TokenBody, TokenBody>;

pub type TestPat = Pat<TokenBody, TokenBody, TokenBody>;

/// A property of an object pattern.
pub type PatProp = ObjectPatProp<TokenBody, TokenBody, TokenBody>;

/// The text after which a tree is printed: a row sees where it is lost.
const BEFORE: &str = "tree ";

/// Writes the printed tree, without the text before it, and its place.
fn show_tree(out: &mut String, tree: PResult<String>, span: Span) -> Result<(), AllocError> {
    match tree {
        Ok(text) => match text.as_str().strip_prefix(BEFORE) {
            Some(tree) => write!(out, "{tree} {span}"),
            None => out.push_str("the text before the tree is lost"),
        },
        Err(_) => out.push_str(NO_MEMORY),
    }
}

/// Writes the expression of that number, and its place.
pub fn show_id(out: &mut String, nodes: &TestNodes, id: ExprId) -> Result<(), AllocError> {
    if !nodes.has_expr(id) {
        return out.push_str("no expression");
    }
    match BEFORE.to_string(*out.allocator()) {
        Ok(before) => show_tree(out, nodes.append_expr(before, id), nodes.span(id)),
        Err(AllocError) => out.push_str(NO_MEMORY),
    }
}

/// Writes the pattern of that number, and its place.
pub fn show_pat_id(out: &mut String, nodes: &TestNodes, id: PatId) -> Result<(), AllocError> {
    if !nodes.has_pat(id) {
        return out.push_str("no pattern");
    }
    match BEFORE.to_string(*out.allocator()) {
        Ok(before) => show_tree(out, nodes.append_pat(before, id), nodes.pat_span(id)),
        Err(AllocError) => out.push_str(NO_MEMORY),
    }
}

/// A boxed tree is moved into nodes, and shown as they are.
impl Shown for Box<TestExpr> {
    fn show(self, out: &mut String) -> Result<(), AllocError> {
        let alloc = *out.allocator();
        let mut nodes = Nodes::new(alloc);
        match put_expr(&mut nodes, alloc, self) {
            Ok(id) => show_id(out, &nodes, id),
            Err(_) => out.push_str(NO_MEMORY),
        }
    }
}

/// A key, with the tree in its brackets.
impl Shown for PropName<Box<TestExpr>> {
    fn show(self, out: &mut String) -> Result<(), AllocError> {
        match self {
            PropName::Ident(name) => name.show(out),
            PropName::Str(text) => Lit::Str(text).show(out),
            PropName::Num(number) => Lit::Num(number).show(out),
            PropName::BigInt(number) => Lit::BigInt(number).show(out),
            PropName::Computed(ComputedPropName { span, expr }) => {
                let opened = out.push_str("[");
                expr.show(out)?;
                opened?;
                write!(out, "] {span}")
            }
        }
    }
}

/// What kind of property it is, and its place.
impl Shown for PropOrSpread<TokenBody, TokenBody, TokenBody> {
    fn show(self, out: &mut String) -> Result<(), AllocError> {
        let kind = match &self {
            PropOrSpread::Spread(_) => "Spread",
            PropOrSpread::Prop(prop) => kind_of(prop),
        };
        let span = self.span();
        write!(out, "{kind} {span}")
    }
}

fn kind_of(prop: &Prop<TokenBody, TokenBody, TokenBody>) -> &'static str {
    match prop {
        Prop::Shorthand(_) => "Shorthand",
        Prop::KeyValue { .. } => "KeyValue",
        Prop::Assign(_) => "Assign",
        Prop::Method { .. } => "Method",
        Prop::Getter { .. } => "Getter",
        Prop::Setter { .. } => "Setter",
    }
}

/// A boxed pattern is moved into nodes, and shown as they are.
impl Shown for TestPat {
    fn show(self, out: &mut String) -> Result<(), AllocError> {
        let alloc = *out.allocator();
        let mut nodes = Nodes::new(alloc);
        match put_pat(&mut nodes, alloc, self) {
            Ok(id) => show_pat_id(out, &nodes, id),
            Err(_) => out.push_str(NO_MEMORY),
        }
    }
}

/// What the head of a `for` begins with, and which of the two it is.
impl Shown for ForHead<TokenBody, TokenBody, TokenBody> {
    fn show(self, out: &mut String) -> Result<(), AllocError> {
        match self {
            ForHead::Target(pat) => {
                let begun = out.push_str("Target ");
                let written = Box::into_inner(pat).show(out);
                begun.and(written)
            }
            ForHead::Expr(expr) => {
                let begun = out.push_str("Expr ");
                let written = expr.show(out);
                begun.and(written)
            }
        }
    }
}

/// A property of an object pattern is shown as an object of it alone, at its place.
impl Shown for PatProp {
    fn show(self, out: &mut String) -> Result<(), AllocError> {
        let span = self.span();
        let mut props = Vec::new(*out.allocator());
        if push_prop(&mut props, self) {
            return Pat::Object { span, props }.show(out);
        }
        out.push_str(NO_MEMORY)
    }
}

/// Adds the property to the others, if there is memory. Otherwise it is forgotten, so that no tree is dropped here.
pub fn push_prop(props: &mut Vec<PatProp>, prop: PatProp) -> bool {
    let pushed = props.push(prop);
    let is_pushed = pushed.is_ok();
    forget(pushed);
    is_pushed
}

/// The pattern of each parameter, and its place.
impl Shown for Vec<Param<TestPat>> {
    fn show(self, out: &mut String) -> Result<(), AllocError> {
        let alloc = *out.allocator();
        let mut nodes = Nodes::new(alloc);
        match put_params(&mut nodes, alloc, self) {
            Ok(ids) => ids.show_in(out, &nodes),
            Err(_) => out.push_str(NO_MEMORY),
        }
    }
}

/// Each pattern, and its place.
impl Shown for Vec<TestPat> {
    fn show(self, out: &mut String) -> Result<(), AllocError> {
        let alloc = *out.allocator();
        let mut nodes = Nodes::new(alloc);
        match put_pats(&mut nodes, alloc, self) {
            Ok(ids) => ids.show_in(out, &nodes),
            Err(_) => out.push_str(NO_MEMORY),
        }
    }
}

/// Each argument, with its dots and the place of its expression.
impl Shown for Vec<ExprOrSpread<Box<TestExpr>>> {
    fn show(self, out: &mut String) -> Result<(), AllocError> {
        let alloc = *out.allocator();
        let mut nodes = Nodes::new(alloc);
        match put_args(&mut nodes, alloc, self) {
            Ok(args) => show_args(out, &nodes, &args),
            Err(_) => out.push_str(NO_MEMORY),
        }
    }
}

/// The items of a list, and the comma after the last one.
impl Shown for (Vec<ExprOrSpread<Box<TestExpr>>>, Option<Span>) {
    fn show(self, out: &mut String) -> Result<(), AllocError> {
        let (items, comma) = self;
        let written = items.show(out);
        let after = match comma {
            Some(span) => write!(out, " comma {span}"),
            None => Ok(()),
        };
        written.and(after)
    }
}

/// A template's expressions are moved into nodes, and it is shown as theirs.
impl Shown for Tpl<Box<TestExpr>> {
    fn show(self, out: &mut String) -> Result<(), AllocError> {
        let alloc = *out.allocator();
        let mut nodes = Nodes::new(alloc);
        match put_tpl(&mut nodes, alloc, self) {
            Ok(Some(id)) => show_id(out, &nodes, id),
            Ok(None) => out.push_str("no template"),
            Err(_) => out.push_str(NO_MEMORY),
        }
    }
}

/// Writes the arguments.
fn show_args(
    out: &mut String,
    nodes: &TestNodes,
    args: &[ExprOrSpread<ExprId>],
) -> Result<(), AllocError> {
    if args.is_empty() {
        return out.push_str("none");
    }
    for (at, ExprOrSpread { spread, expr }) in args.iter().enumerate() {
        let sign = if at > 0 { ", " } else { "" };
        let dots = if spread.is_some() { "..." } else { "" };
        write!(out, "{sign}{dots}")?;
        show_id(out, nodes, *expr)?;
    }
    Ok(())
}

/// Moves patterns into nodes, in their order.
fn put_pats(
    nodes: &mut TestNodes,
    alloc: Global,
    mut pats: Vec<TestPat>,
) -> Result<Vec<PatId>, AllocError> {
    let mut ids = Ok(Vec::new(alloc));
    pats.reverse();
    while let Some(pat) = pats.pop() {
        let id = put_pat(nodes, alloc, pat);
        ids = with_pat(ids, id);
    }
    ids
}

/// Moves the patterns of parameters into nodes, in their order.
fn put_params(
    nodes: &mut TestNodes,
    alloc: Global,
    mut params: Vec<Param<TestPat>>,
) -> Result<Vec<PatId>, AllocError> {
    let mut ids = Ok(Vec::new(alloc));
    params.reverse();
    while let Some(Param { pat, .. }) = params.pop() {
        let id = put_pat(nodes, alloc, pat);
        ids = with_pat(ids, id);
    }
    ids
}

/// The numbers and one more.
fn with_pat(
    ids: Result<Vec<PatId>, AllocError>,
    id: Result<PatId, AllocError>,
) -> Result<Vec<PatId>, AllocError> {
    let mut ids = ids?;
    ids.push(id?)?;
    Ok(ids)
}

/// Makes a node of the template, whose expressions are moved in first.
fn put_tpl(
    nodes: &mut TestNodes,
    alloc: Global,
    tpl: Tpl<Box<TestExpr>>,
) -> Result<Option<ExprId>, AllocError> {
    let Tpl {
        span,
        exprs,
        quasis,
    } = tpl;
    let exprs = put_exprs(nodes, alloc, exprs)?;
    let tpl = Tpl {
        span,
        exprs,
        quasis,
    };
    let node = Node::Tpl(Box::new(alloc, tpl)?);
    if nodes.is_apart(&node) {
        return Ok(Some(ExprId(nodes.push(node)?)));
    }
    forget(node);
    Ok(None)
}

/// Moves expressions into nodes, in their order.
fn put_exprs(
    nodes: &mut TestNodes,
    alloc: Global,
    mut exprs: Vec<Box<TestExpr>>,
) -> Result<Vec<ExprId>, AllocError> {
    let mut ids = Ok(Vec::new(alloc));
    exprs.reverse();
    while let Some(expr) = exprs.pop() {
        let id = put_expr(nodes, alloc, expr);
        ids = with_id(ids, id);
    }
    ids
}

fn with_id(
    ids: Result<Vec<ExprId>, AllocError>,
    id: Result<ExprId, AllocError>,
) -> Result<Vec<ExprId>, AllocError> {
    let mut ids = ids?;
    ids.push(id?)?;
    Ok(ids)
}
