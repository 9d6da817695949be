// What is in lists: the items of arrays and arguments, parameters and properties.
ghost use Rattle.std.specs.Prelude.{◌≡◌, ◌++◌, ◌∷◌, [], OnOk};
ghost use Rattle.swc_nodes.specs.NodeParts.{one_expr, one_pat, if_some, item_parts, param_parts, prop_parts, pat_prop_parts, key_parts, flat, part_parts, pat_elem_part};
ghost use Rattle.swc_nodes.specs.Weights.{ats};
ghost use Rattle.swc_print.specs.Numbers.{Lays, numbers};

use crate::pieces::{
    Piece, Pieces, put_after, put_computed, put_in, put_kept_last, put_part, put_text,
};
use crate::print::Kept;
use std::alloc::AllocError;
use swc_ast::expr::ExprOrSpread;
use swc_ast::function::{Function, Param};
use swc_ast::prop::PropName;
use swc_context::span::Span;
use swc_nodes::node::{ExprId, PatElem, PatId, PatPart, PatPropNode, PropNode};

/// An item of a list.
pub trait Item {
    ghost use Rattle.std.specs.Prelude.{List};
    ghost use Rattle.swc_nodes.specs.NodeParts.{Part};

    ghost parts: { Self → List Part };

    /// Appends the pieces of its text.
    fn put<'a>(&'a self, pieces: &mut Pieces<'a>) -> Result<(), AllocError>
        ensures { Lays (parts self.now) pieces.old result pieces.new };
}

/// Appends the pieces of a list, with a comma between each two items.
pub fn put_list<'a, T: Item>(
    pieces: &mut Pieces<'a>,
    open: &'a str,
    items: &'a [T],
    close: &'a str,
) -> Result<(), AllocError>
    ensures { Lays (flat T.parts items.now) pieces.old result pieces.new }
{
    put_text(pieces, open)?;
    for (i, item) in items.iter().enumerate() {
        put_text(pieces, if i == 0 { "" } else { ", " })?;
        item.put(pieces)?;
    }
    put_text(pieces, close)
}

impl Item for ExprId {
    ghost parts = { one_expr };

    fn put<'a>(&'a self, pieces: &mut Pieces<'a>) -> Result<(), AllocError> {
        put_part(pieces, Piece::Node(self.0))
    }
}

impl Item for PatId {
    ghost parts = { one_pat };

    fn put<'a>(&'a self, pieces: &mut Pieces<'a>) -> Result<(), AllocError> {
        put_part(pieces, Piece::Node(self.0))
    }
}

impl<T: Item> Item for Option<T> {
    ghost parts = { if_some T.parts };

    fn put<'a>(&'a self, pieces: &mut Pieces<'a>) -> Result<(), AllocError> {
        match self {
            None => put_text(pieces, "-"),
            Some(item) => item.put(pieces),
        }
    }
}

impl Item for ExprOrSpread<ExprId> {
    ghost parts = { item_parts };

    fn put<'a>(&'a self, pieces: &mut Pieces<'a>) -> Result<(), AllocError> {
        put_after(pieces, spread_text(&self.spread), self.expr.0)
    }
}

impl Item for Param<PatId> {
    ghost parts = { param_parts };

    fn put<'a>(&'a self, pieces: &mut Pieces<'a>) -> Result<(), AllocError> {
        self.pat.put(pieces)
    }
}

impl<K: Kept> Item for PropNode<K> {
    ghost parts = { prop_parts };

    fn put<'a>(&'a self, pieces: &mut Pieces<'a>) -> Result<(), AllocError> {
        match self {
            PropNode::Spread(s) => put_after(pieces, "...", s.expr.0),
            PropNode::Shorthand(i) => put_text(pieces, i.sym.as_str()),
            PropNode::KeyValue { key, value, .. } => put_key_value(pieces, key, value.0),
            PropNode::Assign(p) => put_default(pieces, p.key.sym.as_str(), p.value.0),
            PropNode::Method { key, function } => put_method(pieces, key, function),
            PropNode::Getter { key, body, .. } => {
                put_text(pieces, "Getter(")?;
                put_key(pieces, key)?;
                put_kept_last(pieces, ", ", body.kept())
            }
            PropNode::Setter {
                key,
                param,
                body,
                ..
            } => {
                put_text(pieces, "Setter(")?;
                put_key(pieces, key)?;
                put_after(pieces, ", ", param.0)?;
                put_kept_last(pieces, ", ", body.kept())
            }
        }
    }
}

impl Item for PatElem {
    ghost parts = { pat_elem_part };

    fn put<'a>(&'a self, pieces: &mut Pieces<'a>) -> Result<(), AllocError> {
        match self {
            PatElem::Item(part) => put_pat_part(pieces, *part),
            PatElem::Rest { arg, .. } => put_rest(pieces, *arg),
        }
    }
}

/// Appends the pieces of a part of a pattern.
pub fn put_pat_part<'a>(pieces: &mut Pieces<'a>, part: PatPart) -> Result<(), AllocError>
    ensures { Lays (part_parts part) pieces.old result pieces.new }
{
    match part {
        PatPart::Pat(pat) => put_part(pieces, Piece::Node(pat.0)),
        PatPart::Expr(expr) => put_in(pieces, "Expr(", expr.0),
    }
}

/// Appends the pieces of a rest.
fn put_rest<'a>(pieces: &mut Pieces<'a>, arg: PatPart) -> Result<(), AllocError>
    ensures { Lays (part_parts arg) pieces.old result pieces.new }
{
    put_text(pieces, "Rest(")?;
    put_pat_part(pieces, arg)?;
    put_text(pieces, ")")
}

impl Item for PatPropNode {
    ghost parts = { pat_prop_parts };

    fn put<'a>(&'a self, pieces: &mut Pieces<'a>) -> Result<(), AllocError> {
        match self {
            PatPropNode::KeyValue { key, value, .. } => put_key_part(pieces, key, *value),
            PatPropNode::Assign { key, value, .. } => match value {
                None => put_text(pieces, key.id.sym.as_str()),
                Some(e) => put_default(pieces, key.id.sym.as_str(), e.0),
            },
            PatPropNode::Rest { arg, .. } => put_rest(pieces, *arg),
        }
    }
}

fn spread_text(spread: &Option<Span>) -> &'static str {
    if spread.is_some() { "..." } else { "" }
}

/// Appends a name and its default value.
fn put_default<'a>(pieces: &mut Pieces<'a>, name: &'a str, value: usize) -> Result<(), AllocError>
    ensures { OnOk result (numbers pieces.new.waiting.items ≡ numbers pieces.old.waiting.items ++ value ∷ []) }
{
    put_text(pieces, name)?;
    put_after(pieces, " = ", value)
}

fn put_key<'a>(pieces: &mut Pieces<'a>, key: &'a PropName<ExprId>) -> Result<(), AllocError>
    ensures { Lays (key_parts key.now) pieces.old result pieces.new }
{
    match key {
        PropName::Ident(i) => put_text(pieces, i.sym.as_str()),
        PropName::Str(s) => put_text(pieces, s.raw.as_str()),
        PropName::Num(n) => put_text(pieces, n.raw.as_str()),
        PropName::BigInt(n) => put_text(pieces, n.raw.as_str()),
        PropName::Computed(c) => put_computed(pieces, "[", c.expr.0),
    }
}

fn put_key_value<'a>(
    pieces: &mut Pieces<'a>,
    key: &'a PropName<ExprId>,
    value: usize,
) -> Result<(), AllocError>
    ensures { OnOk result (numbers pieces.new.waiting.items
        ≡ (numbers pieces.old.waiting.items ++ ats (key_parts key.now)) ++ value ∷ []) }
{
    put_key(pieces, key)?;
    put_after(pieces, ": ", value)
}

fn put_key_part<'a>(
    pieces: &mut Pieces<'a>,
    key: &'a PropName<ExprId>,
    part: PatPart,
) -> Result<(), AllocError>
    ensures { Lays (key_parts key.now ++ part_parts part) pieces.old result pieces.new }
{
    put_key(pieces, key)?;
    put_text(pieces, ": ")?;
    put_pat_part(pieces, part)
}

fn put_method<'a, K: Kept>(
    pieces: &mut Pieces<'a>,
    key: &'a PropName<ExprId>,
    function: &'a Function<PatId, K>,
) -> Result<(), AllocError>
    ensures { Lays (key_parts key.now ++ flat param_parts function.now.params.items) pieces.old result pieces.new }
{
    put_text(
        pieces,
        method_text(function.is_async, function.is_generator),
    )?;
    put_key(pieces, key)?;
    put_list(pieces, ", [", &function.params, "], ")?;
    put_kept_last(pieces, "", function.body.kept())
}

fn method_text(is_async: bool, is_generator: bool) -> &'static str {
    match (is_async, is_generator) {
        (false, false) => "Method(",
        (true, false) => "AsyncMethod(",
        (false, true) => "GeneratorMethod(",
        (true, true) => "AsyncGeneratorMethod(",
    }
}
