// The items of lists, and the lists: trees take the place of the numbers in them, the last first.
ghost use Rattle.std.specs.Prelude.{◌≡◌, ◌++◌, map, IfOk, IsOkAnd};
ghost use Rattle.swc_ast.specs.Parts.{or_hole, item_tree, param_tree, function_tree};
ghost use Rattle.swc_ast.specs.TreeOf.{boxed_tree, pat_tree, pat_prop_tree, prop_tree, prop_or_spread_tree};
ghost use Rattle.swc_nodes.specs.NodeTree.{expr_of, pat_of, prop_of, pat_prop_of, part_tree, pat_elem_of};
ghost use Rattle.swc_nodes.specs.NodeParts.{flat, if_some, one_expr, one_pat, key_parts, item_parts, param_parts, prop_parts, pat_prop_parts, part_parts, pat_elem_part};
ghost use Rattle.swc_nodes.specs.declared.node.PropNode.{PropNode as n};
ghost use Rattle.swc_trees.specs.Building.{Offers, Assembled, AssemblesProp};

use crate::built::{Built, pop_expr, pop_if_some, pop_pat};
use crate::pieces::key;
use crate::refusable::boxed;
use std::alloc::{AllocError, Global};
use swc_ast::expr::{Expr, ExprOrSpread};
use swc_ast::function::{Function, Param};
use swc_ast::pat::{ObjectPatProp, Pat, RestPat};
use swc_ast::prop::{AssignProp, Prop, PropName, PropOrSpread, SpreadElement};
use swc_ast::spanned::Spanned;
use swc_context::span::Span;
use swc_nodes::node::{ExprId, PatElem, PatId, PatPart, PatPropNode, PropNode};

/// An item of a list, in which trees take the place of numbers.
pub(crate) trait Item<F: Spanned, C: Spanned, K: Spanned> {
    ghost use Rattle.std.specs.Prelude.{ℕ, List};
    ghost use Rattle.swc_ast.specs.Tree.{Tree};
    ghost use Rattle.swc_nodes.specs.NodeParts.{Part};

    /// The item with its trees.
    type Whole: Drop;

    ghost parts: { Self → List Part };

    ghost of: { (ℕ → Tree F C K) → Self → Tree F C K };

    ghost tree: { Self.Whole → Tree F C K };

    /// Puts the last trees in place of the numbers.
    fn assemble(
        self,
        alloc: Global,
        built: &mut Vec<Built<F, C, K>>,
    ) -> Result<Self::Whole, AllocError>
        requires { Offers (parts self) built.old.items }
        ensures { IfOk result (λ y. Assembled F.place C.place K.place (parts self)
            (λ at. tree y ≡ of at self) built.old.items built.new.items) };
}

/// The items of a list, each with its trees.
pub(crate) fn all<F: Spanned + Drop, C: Spanned + Drop, K: Spanned + Drop, T: Item<F, C, K> + Drop>(
    alloc: Global,
    built: &mut Vec<Built<F, C, K>>,
    mut items: Vec<T>,
) -> Result<Vec<T::Whole>, AllocError>
    requires { Offers (flat T.parts items.items) built.old.items }
    ensures { IfOk result (λ y. Assembled F.place C.place K.place (flat T.parts items.items)
        (λ at. map T.tree y.items ≡ map (T.of at) items.items) built.old.items built.new.items) }
{
    let mut whole = Vec::with_capacity(alloc, items.len())?;
    while let Some(item) = items.pop() {
        whole.push(item.assemble(alloc, built)?)?;
    }
    whole.reverse();
    Ok(whole)
}

impl<F: Spanned + Drop, C: Spanned + Drop, K: Spanned + Drop> Item<F, C, K> for ExprId {
    type Whole = Box<Expr<F, C, K>>;

    ghost parts = { one_expr };

    ghost of = { expr_of F.place C.place K.place };

    ghost tree = { boxed_tree _ _ _ F.place C.place K.place };

    fn assemble(
        self,
        _alloc: Global,
        built: &mut Vec<Built<F, C, K>>,
    ) -> Result<Self::Whole, AllocError> {
        Ok(pop_expr(built, self))
    }
}

impl<F: Spanned + Drop, C: Spanned + Drop, K: Spanned + Drop> Item<F, C, K> for PatId {
    type Whole = Pat<F, C, K>;

    ghost parts = { one_pat };

    ghost of = { pat_of F.place C.place K.place };

    ghost tree = { pat_tree _ _ _ F.place C.place K.place };

    fn assemble(
        self,
        _alloc: Global,
        built: &mut Vec<Built<F, C, K>>,
    ) -> Result<Self::Whole, AllocError> {
        Ok(pop_pat(built, self))
    }
}

impl<F: Spanned + Drop, C: Spanned + Drop, K: Spanned + Drop> Item<F, C, K>
    for ExprOrSpread<ExprId> {
    type Whole = ExprOrSpread<Box<Expr<F, C, K>>>;

    ghost parts = { item_parts };

    ghost of = { λ at. item_tree (expr_of F.place C.place K.place at) };

    ghost tree = { item_tree (boxed_tree _ _ _ F.place C.place K.place) };

    fn assemble(
        self,
        _alloc: Global,
        built: &mut Vec<Built<F, C, K>>,
    ) -> Result<Self::Whole, AllocError> {
        let expr = pop_expr(built, self.expr);
        let spread = self.spread;
        Ok(ExprOrSpread { spread, expr })
    }
}

impl<F: Spanned + Drop, C: Spanned + Drop, K: Spanned + Drop> Item<F, C, K> for Param<PatId> {
    type Whole = Param<Pat<F, C, K>>;

    ghost parts = { param_parts };

    ghost of = { λ at. param_tree (pat_of F.place C.place K.place at) };

    ghost tree = { param_tree (pat_tree _ _ _ F.place C.place K.place) };

    fn assemble(
        self,
        _alloc: Global,
        built: &mut Vec<Built<F, C, K>>,
    ) -> Result<Self::Whole, AllocError> {
        let pat = pop_pat(built, self.pat);
        let span = self.span;
        Ok(Param { span, pat })
    }
}

impl<F: Spanned + Drop, C: Spanned + Drop, K: Spanned + Drop, T: Item<F, C, K>> Item<F, C, K>
    for Option<T> {
    type Whole = Option<T::Whole>;

    ghost parts = { if_some T.parts };

    ghost of = { λ at. or_hole (T.of at) };

    ghost tree = { or_hole T.tree };

    fn assemble(
        self,
        alloc: Global,
        built: &mut Vec<Built<F, C, K>>,
    ) -> Result<Self::Whole, AllocError> {
        match self {
            None => Ok(None),
            Some(item) => Ok(Some(item.assemble(alloc, built)?)),
        }
    }
}

impl<F: Spanned + Drop, C: Spanned + Drop, K: Spanned + Drop> Item<F, C, K> for PropNode<K> {
    type Whole = PropOrSpread<F, C, K>;

    ghost parts = { prop_parts };

    ghost of = { prop_of F.place C.place K.place };

    ghost tree = { prop_or_spread_tree _ _ _ F.place C.place K.place };

    fn assemble(
        self,
        alloc: Global,
        built: &mut Vec<Built<F, C, K>>,
    ) -> Result<Self::Whole, AllocError> {
        match self {
            PropNode::Spread(s) => {
                let expr = pop_expr(built, s.expr);
                let SpreadElement {
                    span,
                    dot3_token,
                    ..
                } = s;
                Ok(PropOrSpread::Spread(SpreadElement {
                    span,
                    dot3_token,
                    expr,
                }))
            }
            PropNode::Shorthand(i) => named(alloc, Ok(Prop::Shorthand(i))),
            PropNode::KeyValue { span, key, value } => {
                named(alloc, Ok(key_value(built, span, key, value)))
            }
            PropNode::Assign(p) => {
                let AssignProp { span, key, value } = p;
                let value = pop_expr(built, value);
                named(alloc, Ok(Prop::Assign(AssignProp { span, key, value })))
            }
            PropNode::Method { key, function } => named(alloc, method(alloc, built, key, function)),
            PropNode::Getter { span, key, body } => {
                named(alloc, Ok(getter(built, span, key, body)))
            }
            PropNode::Setter {
                span,
                key,
                param,
                body,
            } => named(alloc, setter(alloc, built, span, key, param, body)),
        }
    }
}

impl<F: Spanned + Drop, C: Spanned + Drop, K: Spanned + Drop> Item<F, C, K> for PatPropNode {
    type Whole = ObjectPatProp<F, C, K>;

    ghost parts = { pat_prop_parts };

    ghost of = { pat_prop_of F.place C.place K.place };

    ghost tree = { pat_prop_tree _ _ _ F.place C.place K.place };

    fn assemble(
        self,
        alloc: Global,
        built: &mut Vec<Built<F, C, K>>,
    ) -> Result<Self::Whole, AllocError> {
        match self {
            PatPropNode::KeyValue {
                span,
                key: name,
                value,
            } => {
                let value = boxed_part(alloc, built, value)?;
                let key = key(built, name);
                Ok(ObjectPatProp::KeyValue { span, key, value })
            }
            PatPropNode::Assign { span, key, value } => {
                let value = pop_if_some(built, value);
                Ok(ObjectPatProp::Assign { span, key, value })
            }
            PatPropNode::Rest {
                span,
                dot3_token,
                arg,
            } => {
                let arg = boxed_part(alloc, built, arg)?;
                Ok(ObjectPatProp::Rest(RestPat {
                    span,
                    dot3_token,
                    arg,
                }))
            }
        }
    }
}

impl<F: Spanned + Drop, C: Spanned + Drop, K: Spanned + Drop> Item<F, C, K> for PatElem {
    type Whole = Pat<F, C, K>;

    ghost parts = { pat_elem_part };

    ghost of = { pat_elem_of };

    ghost tree = { pat_tree _ _ _ F.place C.place K.place };

    fn assemble(
        self,
        alloc: Global,
        built: &mut Vec<Built<F, C, K>>,
    ) -> Result<Self::Whole, AllocError> {
        match self {
            PatElem::Item(part) => Ok(pop_part(built, part)),
            PatElem::Rest {
                span,
                dot3_token,
                arg,
            } => {
                let arg = boxed_part(alloc, built, arg)?;
                Ok(Pat::Rest(RestPat {
                    span,
                    dot3_token,
                    arg,
                }))
            }
        }
    }
}

/// A part of a pattern.
fn pop_part<F: Spanned + Drop, C: Spanned + Drop, K: Spanned + Drop>(
    built: &mut Vec<Built<F, C, K>>,
    part: PatPart,
) -> Pat<F, C, K>
    requires { Offers (part_parts part) built.old.items }
    ensures { Assembled F.place C.place K.place (part_parts part)
        (λ at. pat_tree _ _ _ F.place C.place K.place result ≡ part_tree at part)
        built.old.items built.new.items }
{
    match part {
        PatPart::Pat(id) => pop_pat(built, id),
        PatPart::Expr(id) => Pat::Expr(pop_expr(built, id)),
    }
}

/// A part of a pattern in a box.
pub(crate) fn boxed_part<F: Spanned + Drop, C: Spanned + Drop, K: Spanned + Drop>(
    alloc: Global,
    built: &mut Vec<Built<F, C, K>>,
    part: PatPart,
) -> Result<Box<Pat<F, C, K>>, AllocError>
    requires { Offers (part_parts part) built.old.items }
    ensures { IfOk result (λ y. Assembled F.place C.place K.place (part_parts part)
        (λ at. pat_tree _ _ _ F.place C.place K.place y.value ≡ part_tree at part)
        built.old.items built.new.items) }
{
    boxed(alloc, Ok(pop_part(built, part)))
}

/// A pattern in a box.
pub(crate) fn boxed_pat<F: Spanned + Drop, C: Spanned + Drop, K: Spanned + Drop>(
    alloc: Global,
    built: &mut Vec<Built<F, C, K>>,
    id: PatId,
) -> Result<Box<Pat<F, C, K>>, AllocError>
    requires { Offers (one_pat id) built.old.items }
    ensures { IfOk result (λ y. Assembled F.place C.place K.place (one_pat id)
        (λ at. pat_tree _ _ _ F.place C.place K.place y.value ≡ at id.0) built.old.items built.new.items) }
{
    boxed(alloc, Ok(pop_pat(built, id)))
}

/// A property, which is no spread, as an item.
fn named<F: Spanned + Drop, C: Spanned + Drop, K: Spanned + Drop>(
    alloc: Global,
    prop: Result<Prop<F, C, K>, AllocError>,
) -> Result<PropOrSpread<F, C, K>, AllocError>
    ensures { IfOk result (λ y. IsOkAnd prop (λ p. prop_or_spread_tree _ _ _ F.place C.place K.place y ≡ prop_tree _ _ _
        F.place C.place K.place p)) }
{
    Ok(PropOrSpread::Prop(boxed(alloc, prop)?))
}

/// A property with its value.
fn key_value<F: Spanned + Drop, C: Spanned + Drop, K: Spanned + Drop>(
    built: &mut Vec<Built<F, C, K>>,
    span: Span,
    name: PropName<ExprId>,
    value: ExprId,
) -> Prop<F, C, K>
    requires { Offers (key_parts name ++ one_expr value) built.old.items }
    ensures { AssemblesProp F.place C.place K.place (n.KeyValue span name value) built.old.items result
        built.new.items }
{
    let value = pop_expr(built, value);
    let key = key(built, name);
    Prop::KeyValue { span, key, value }
}

/// A method.
fn method<F: Spanned + Drop, C: Spanned + Drop, K: Spanned + Drop>(
    alloc: Global,
    built: &mut Vec<Built<F, C, K>>,
    name: PropName<ExprId>,
    function: Function<PatId, K>,
) -> Result<Prop<F, C, K>, AllocError>
    requires { Offers (key_parts name ++ flat param_parts function.params.items) built.old.items }
    ensures { IfOk result (λ y. AssemblesProp F.place C.place K.place (n.Method name function) built.old.items y
        built.new.items) }
{
    let function = boxed(alloc, method_function(alloc, built, function))?;
    let key = key(built, name);
    Ok(Prop::Method { key, function })
}

/// A getter.
fn getter<F: Spanned + Drop, C: Spanned + Drop, K: Spanned + Drop>(
    built: &mut Vec<Built<F, C, K>>,
    span: Span,
    name: PropName<ExprId>,
    body: K,
) -> Prop<F, C, K>
    requires { Offers (key_parts name) built.old.items }
    ensures { AssemblesProp F.place C.place K.place (n.Getter span name body) built.old.items result built.new.items }
{
    let key = key(built, name);
    Prop::Getter { span, key, body }
}

/// A setter.
fn setter<F: Spanned + Drop, C: Spanned + Drop, K: Spanned + Drop>(
    alloc: Global,
    built: &mut Vec<Built<F, C, K>>,
    span: Span,
    name: PropName<ExprId>,
    param: PatId,
    body: K,
) -> Result<Prop<F, C, K>, AllocError>
    requires { Offers (key_parts name ++ one_pat param) built.old.items }
    ensures { IfOk result (λ y. AssemblesProp F.place C.place K.place (n.Setter span name param body) built.old.items y
        built.new.items) }
{
    let param = boxed_pat(alloc, built, param)?;
    let key = key(built, name);
    Ok(Prop::Setter {
        span,
        key,
        param,
        body,
    })
}

/// The function of a method.
fn method_function<F: Spanned + Drop, C: Spanned + Drop, K: Spanned + Drop>(
    alloc: Global,
    built: &mut Vec<Built<F, C, K>>,
    function: Function<PatId, K>,
) -> Result<Function<Pat<F, C, K>, K>, AllocError>
    requires { Offers (flat param_parts function.params.items) built.old.items }
    ensures { IfOk result
        (λ y. Assembled F.place C.place K.place (flat param_parts function.params.items)
        (λ at. (function_tree K.place (pat_tree _ _ _ F.place C.place K.place) y ≡ function_tree K.place
        (pat_of F.place C.place K.place at) function) × (y.span ≡ function.span)) built.old.items built.new.items) }
{
    let Function {
        span,
        params,
        is_async,
        is_generator,
        body,
    } = function;
    let params = all(alloc, built, params)?;
    Ok(Function {
        span,
        params,
        is_async,
        is_generator,
        body,
    })
}
