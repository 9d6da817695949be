// What the parser makes of a list.
use crate::row::{Row, Symbol};
use std::alloc::Global;
use swc_ast::function::Param;
use swc_bodies::token_bodies::TokenBodies;
use swc_context::context::EsVersion;
use swc_ecma_parser::parser::Parser;
use swc_input::listed::TokensInput;
use swc_nodes::node::{ExprId, ForHeadId, PatId};
use swc_nodes::nodes::NodesOf;
use swc_print::print::PrintNodes;
use swc_tokens::read_tokens;

type ListParser = Parser<TokensInput, TokenBodies>;

/// What the parser makes of a list.
#[derive(Drop)]
pub(crate) struct Found {
    /// The tree, where the list is read whole, with no fault recorded.
    pub(crate) tree: Option<String>,
    /// Up to where the parser asked for the text: where the first token begins that it didn't ask for, or the end.
    pub(crate) seen: usize,
}

/// What the parser makes of the text of a list. A text that has no tokens, as an open template, may be the beginning of
/// one that has.
pub(crate) fn read_list(alloc: Global, row: &Row, text: &str) -> Found {
    let Ok(tokens) = read_tokens(alloc, text.as_bytes()) else {
        return Found {
            tree: None,
            seen: text.len(),
        };
    };
    let (context, syntax) = (row.mode.context, row.mode.syntax);
    let source = TokensInput::new(alloc, tokens, context, syntax, EsVersion::default());
    let mut parser = Parser::new_from(alloc, source, TokenBodies::new(alloc));
    let tree = tree_of(alloc, &mut parser, row.symbol, text);
    let seen = match parser.input().next() {
        Some(token) => token.span.lo.0 as usize,
        None => text.len(),
    };
    Found { tree, seen }
}

/// The tree of the list, where it is read whole, with no fault recorded.
fn tree_of(alloc: Global, parser: &mut ListParser, symbol: Symbol, text: &str) -> Option<String> {
    let tree = match symbol {
        Symbol::Whole => read_expr(parser)?,
        Symbol::Pattern => read_pat(parser)?,
        Symbol::Parameters => read_params(alloc, parser)?,
        Symbol::ForHead => read_head(alloc, parser, false)?,
        Symbol::ForAwaitHead => read_head(alloc, parser, true)?,
    };
    let start = parser.buffer().cur_pos();
    let left = text.get(start.0 as usize..).unwrap_or("").trim();
    if parser.take_errors().is_empty() && may_be_left(symbol, tree.as_str(), left) {
        Some(tree)
    } else {
        None
    }
}

/// Whether what is left of a list may be left where the tree was read.
fn may_be_left(symbol: Symbol, tree: &str, left: &str) -> bool {
    match symbol {
        Symbol::Whole | Symbol::Pattern => left.is_empty(),
        Symbol::Parameters => left == ")",
        Symbol::ForHead | Symbol::ForAwaitHead => match left {
            "of" | "in" => tree.starts_with("Target"),
            _ => matches!(left, "" | ";" | ")") && tree.starts_with("Expr"),
        },
    }
}

fn read_expr(parser: &mut ListParser) -> Option<String> {
    let id = parser.parse_expr_id().ok()?;
    expr_text(parser.nodes(), id)
}

fn read_pat(parser: &mut ListParser) -> Option<String> {
    let id = parser.parse_pat_id().ok()?;
    pat_text(parser.nodes(), id)
}

fn read_params(alloc: Global, parser: &mut ListParser) -> Option<String> {
    let params = parser.parse_formal_params_id().ok()?;
    params_text(alloc, parser.nodes(), &params)
}

/// What the head of a `for` begins with, after which of the two it is.
fn read_head(alloc: Global, parser: &mut ListParser, is_await: bool) -> Option<String> {
    match parser.parse_for_head_id(is_await).ok()? {
        ForHeadId::Target(id) => {
            let target = pat_text(parser.nodes(), id)?;
            format!(in alloc; "Target {target}").ok()
        }
        ForHeadId::Expr(id) => {
            let expr = expr_text(parser.nodes(), id)?;
            format!(in alloc; "Expr {expr}").ok()
        }
    }
}

fn expr_text(nodes: &NodesOf<TokenBodies>, id: ExprId) -> Option<String> {
    if nodes.has_expr(id) {
        nodes.print_expr(id).ok()
    } else {
        None
    }
}

fn pat_text(nodes: &NodesOf<TokenBodies>, id: PatId) -> Option<String> {
    if nodes.has_pat(id) {
        nodes.print_pat(id).ok()
    } else {
        None
    }
}

/// The patterns of the parameters, as `[a, b]`.
fn params_text(
    alloc: Global,
    nodes: &NodesOf<TokenBodies>,
    params: &[Param<PatId>],
) -> Option<String> {
    let mut out = String::from_str(alloc, "[").ok()?;
    for (at, param) in params.iter().enumerate() {
        if at > 0 {
            out.push_str(", ").ok()?;
        }
        out.push_str(pat_text(nodes, param.pat)?.as_str()).ok()?;
    }
    out.push_str("]").ok()?;
    Some(out)
}
