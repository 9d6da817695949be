// Renumbering: new numbers take the place of those by which parts are held. A number that has no new one stays.
ghost use Rattle.std.specs.Prelude.{◌≡◌, ◌++◌, ◌∷◌, [], true, map};
ghost use Rattle.swc_ast.specs.Parts.{or_hole, prop_name_tree, member_prop_tree, super_part_tree, callee_tree, args_tree, base_tree, body_tree, param_tree, item_tree, member_tree, tpl_tree};
ghost use Rattle.swc_ast.specs.Tree.{args, node, no_span, trees};
ghost use Rattle.swc_nodes.specs.NodeTree.{expr_of, pat_of, target_of, prop_of, pat_prop_of, marked_tree, part_tree, pat_elem_of};
ghost use Rattle.swc_nodes.specs.NodeParts.{slots, form, flat, if_some, one_expr, one_pat, target_part, item_parts, key_parts, member_parts, super_parts, callee_parts, base_parts, body_parts, args_parts, param_parts, prop_parts, pat_prop_parts, part_parts, pat_elem_part};
ghost use Rattle.swc_nodes.specs.{Renumbering.given, Renumbering.Renumbered, Walking.is_operation};

use crate::node::{ExprId, Node, PatElem, PatId, PatPart, PatPropNode, PropNode, TargetNode};
use swc_ast::expr::{
    BlockStmtOrExpr, Callee, ExprOrSpread, MemberExpr, MemberProp, OptChainBase, SuperProp, Tpl,
};
use swc_ast::function::Param;
use swc_ast::prop::PropName;
use swc_ast::spanned::Spanned;

/// What holds its parts by their numbers.
trait Numbered<F: Spanned, C: Spanned, K: Spanned> {
    ghost use Rattle.std.specs.Prelude.{ℕ, List};
    ghost use Rattle.swc_ast.specs.Tree.{Tree};
    ghost use Rattle.swc_nodes.specs.NodeParts.{Part};

    ghost parts: { Self → List Part };

    ghost of: { (ℕ → Tree F C K) → Self → Tree F C K };

    /// Puts the new numbers in place of those that it holds.
    fn renumber(&mut self, ids: &Numbers)
        ensures { Renumbered parts of ids.now self.old self.new };
}

/// New numbers in place of old ones: the k-th of `ids` in place of the k-th from `from` on.
#[derive(Drop)]
pub struct Numbers {
    pub from: usize,
    pub ids: Vec<usize>,
}

impl Numbers {
    /// The new number of an old one; the old one, where it has none.
    pub fn get(&self, old: usize) -> usize
        ensures { result ≡ given self.now old }
    {
        if old < self.from {
            return old;
        }
        self.ids.get(old - self.from).copied().unwrap_or(old)
    }
}

impl<F: Spanned, C: Spanned, K: Spanned> Numbered<F, C, K> for ExprId {
    ghost parts = { one_expr };

    ghost of = { expr_of F.place C.place K.place };

    fn renumber(&mut self, ids: &Numbers) {
        self.0 = ids.get(self.0);
    }
}

impl<F: Spanned, C: Spanned, K: Spanned> Numbered<F, C, K> for PatId {
    ghost parts = { one_pat };

    ghost of = { pat_of F.place C.place K.place };

    fn renumber(&mut self, ids: &Numbers) {
        self.0 = ids.get(self.0);
    }
}

impl<F: Spanned, C: Spanned, K: Spanned, T: Numbered<F, C, K>> Numbered<F, C, K> for Option<T> {
    ghost parts = { if_some T.parts };

    ghost of = { λ at. or_hole (T.of at) };

    fn renumber(&mut self, ids: &Numbers) {
        if let Some(item) = self {
            item.renumber(ids);
        }
    }
}

impl<F: Spanned, C: Spanned, K: Spanned, T: Numbered<F, C, K>> Numbered<F, C, K> for Vec<T> {
    ghost parts = { λ items. flat T.parts items.items };

    ghost of = { λ at items. node args no_span (trees (map (T.of at) items.items)) };

    fn renumber(&mut self, ids: &Numbers) {
        for item in self.iter_mut() {
            item.renumber(ids);
        }
    }
}

impl<F: Spanned, C: Spanned, K: Spanned> Numbered<F, C, K> for ExprOrSpread<ExprId> {
    ghost parts = { item_parts };

    ghost of = { λ at. item_tree (expr_of F.place C.place K.place at) };

    fn renumber(&mut self, ids: &Numbers) {
        <_ as Numbered<F, C, K>>::renumber(&mut self.expr, ids);
    }
}

impl<F: Spanned, C: Spanned, K: Spanned> Numbered<F, C, K> for PropName<ExprId> {
    ghost parts = { key_parts };

    ghost of = { λ at. prop_name_tree (expr_of F.place C.place K.place at) };

    fn renumber(&mut self, ids: &Numbers) {
        if let PropName::Computed(name) = self {
            <_ as Numbered<F, C, K>>::renumber(&mut name.expr, ids);
        }
    }
}

impl<F: Spanned, C: Spanned, K: Spanned> Numbered<F, C, K> for MemberProp<ExprId> {
    ghost parts = { member_parts };

    ghost of = { λ at. member_prop_tree (expr_of F.place C.place K.place at) };

    fn renumber(&mut self, ids: &Numbers) {
        if let MemberProp::Computed(name) = self {
            <_ as Numbered<F, C, K>>::renumber(&mut name.expr, ids);
        }
    }
}

impl<F: Spanned, C: Spanned, K: Spanned> Numbered<F, C, K> for SuperProp<ExprId> {
    ghost parts = { super_parts };

    ghost of = { λ at. super_part_tree (expr_of F.place C.place K.place at) };

    fn renumber(&mut self, ids: &Numbers) {
        if let SuperProp::Computed(name) = self {
            <_ as Numbered<F, C, K>>::renumber(&mut name.expr, ids);
        }
    }
}

impl<F: Spanned, C: Spanned, K: Spanned> Numbered<F, C, K> for Callee<ExprId> {
    ghost parts = { callee_parts };

    ghost of = { λ at. callee_tree (expr_of F.place C.place K.place at) };

    fn renumber(&mut self, ids: &Numbers) {
        if let Callee::Expr(expr) = self {
            <_ as Numbered<F, C, K>>::renumber(expr, ids);
        }
    }
}

impl<F: Spanned, C: Spanned, K: Spanned> Numbered<F, C, K> for MemberExpr<ExprId> {
    ghost parts = { λ member. one_expr member.obj ++ member_parts member.prop };

    ghost of = { λ at. member_tree (expr_of F.place C.place K.place at) };

    fn renumber(&mut self, ids: &Numbers) {
        <_ as Numbered<F, C, K>>::renumber(&mut self.obj, ids);
        <_ as Numbered<F, C, K>>::renumber(&mut self.prop, ids);
    }
}

impl<F: Spanned, C: Spanned, K: Spanned> Numbered<F, C, K> for OptChainBase<ExprId> {
    ghost parts = { base_parts };

    ghost of = { λ at. base_tree (expr_of F.place C.place K.place at) };

    fn renumber(&mut self, ids: &Numbers) {
        match self {
            OptChainBase::Member(member) => <_ as Numbered<F, C, K>>::renumber(member, ids),
            OptChainBase::Call(call) => {
                <_ as Numbered<F, C, K>>::renumber(&mut call.callee, ids);
                <_ as Numbered<F, C, K>>::renumber(&mut call.args, ids);
            }
        }
    }
}

impl<F: Spanned, C: Spanned, K: Spanned> Numbered<F, C, K> for Tpl<ExprId> {
    ghost parts = { λ tpl. flat one_expr tpl.exprs.items };

    ghost of = { λ at. tpl_tree (expr_of F.place C.place K.place at) };

    fn renumber(&mut self, ids: &Numbers) {
        <_ as Numbered<F, C, K>>::renumber(&mut self.exprs, ids);
    }
}

impl<F: Spanned, C: Spanned, K: Spanned> Numbered<F, C, K> for BlockStmtOrExpr<ExprId, K> {
    ghost parts = { body_parts };

    ghost of = { λ at. body_tree K.place (expr_of F.place C.place K.place at) };

    fn renumber(&mut self, ids: &Numbers) {
        if let BlockStmtOrExpr::Expr(expr) = self {
            <_ as Numbered<F, C, K>>::renumber(expr, ids);
        }
    }
}

impl<F: Spanned, C: Spanned, K: Spanned> Numbered<F, C, K> for Param<PatId> {
    ghost parts = { param_parts };

    ghost of = { λ at. param_tree (pat_of F.place C.place K.place at) };

    fn renumber(&mut self, ids: &Numbers) {
        <_ as Numbered<F, C, K>>::renumber(&mut self.pat, ids);
    }
}

impl<F: Spanned, C: Spanned, K: Spanned> Numbered<F, C, K> for PropNode<K> {
    ghost parts = { prop_parts };

    ghost of = { prop_of F.place C.place K.place };

    fn renumber(&mut self, ids: &Numbers) {
        match self {
            PropNode::Spread(spread) => {
                <_ as Numbered<F, C, K>>::renumber(&mut spread.expr, ids)
            }
            PropNode::Shorthand(_) => {}
            PropNode::KeyValue { key, value, .. } => {
                <_ as Numbered<F, C, K>>::renumber(key, ids);
                <_ as Numbered<F, C, K>>::renumber(value, ids);
            }
            PropNode::Assign(prop) => <_ as Numbered<F, C, K>>::renumber(&mut prop.value, ids),
            PropNode::Method { key, function } => {
                <_ as Numbered<F, C, K>>::renumber(key, ids);
                <_ as Numbered<F, C, K>>::renumber(&mut function.params, ids);
            }
            PropNode::Getter { key, .. } => <_ as Numbered<F, C, K>>::renumber(key, ids),
            PropNode::Setter { key, param, .. } => {
                <_ as Numbered<F, C, K>>::renumber(key, ids);
                <_ as Numbered<F, C, K>>::renumber(param, ids);
            }
        }
    }
}

impl<F: Spanned, C: Spanned, K: Spanned> Numbered<F, C, K> for PatPart {
    ghost parts = { part_parts };

    ghost of = { part_tree };

    fn renumber(&mut self, ids: &Numbers) {
        match self {
            PatPart::Pat(pat) => <_ as Numbered<F, C, K>>::renumber(pat, ids),
            PatPart::Expr(expr) => <_ as Numbered<F, C, K>>::renumber(expr, ids),
        }
    }
}

impl<F: Spanned, C: Spanned, K: Spanned> Numbered<F, C, K> for PatElem {
    ghost parts = { pat_elem_part };

    ghost of = { pat_elem_of };

    fn renumber(&mut self, ids: &Numbers) {
        match self {
            PatElem::Item(part) => <_ as Numbered<F, C, K>>::renumber(part, ids),
            PatElem::Rest { arg, .. } => <_ as Numbered<F, C, K>>::renumber(arg, ids),
        }
    }
}

impl<F: Spanned, C: Spanned, K: Spanned> Numbered<F, C, K> for PatPropNode {
    ghost parts = { pat_prop_parts };

    ghost of = { pat_prop_of F.place C.place K.place };

    fn renumber(&mut self, ids: &Numbers) {
        match self {
            PatPropNode::KeyValue { key, value, .. } => {
                <_ as Numbered<F, C, K>>::renumber(key, ids);
                <_ as Numbered<F, C, K>>::renumber(value, ids);
            }
            PatPropNode::Assign { value, .. } => <_ as Numbered<F, C, K>>::renumber(value, ids),
            PatPropNode::Rest { arg, .. } => <_ as Numbered<F, C, K>>::renumber(arg, ids),
        }
    }
}

impl<F: Spanned, C: Spanned, K: Spanned> Numbered<F, C, K> for TargetNode {
    ghost parts = { λ target. target_part target ∷ [] };

    ghost of = { target_of F.place C.place K.place };

    fn renumber(&mut self, ids: &Numbers) {
        match self {
            TargetNode::Simple(expr) => <_ as Numbered<F, C, K>>::renumber(expr, ids),
            TargetNode::Pat(pat) => <_ as Numbered<F, C, K>>::renumber(pat, ids),
        }
    }
}

impl<F: Spanned, C: Spanned, K: Spanned> Numbered<F, C, K> for Node<F, C, K> {
    ghost parts = { slots };

    ghost of = { marked_tree F.place C.place K.place };

    fn renumber(&mut self, ids: &Numbers)
        ensures renumbered { Renumbered slots (marked_tree F.place C.place K.place) ids.now self.old self.new }
        ensures form { form self.new ≡ form self.old }
    {
        match self {
            Node::Array { elems, .. } => <_ as Numbered<F, C, K>>::renumber(elems, ids),
            Node::Object { props, .. } => <_ as Numbered<F, C, K>>::renumber(props, ids),
            Node::Seq { exprs, .. } => <_ as Numbered<F, C, K>>::renumber(exprs, ids),
            Node::PatArray { elems, .. } => <_ as Numbered<F, C, K>>::renumber(elems, ids),
            Node::PatObject { props, .. } => <_ as Numbered<F, C, K>>::renumber(props, ids),
            Node::Member(member) => <_ as Numbered<F, C, K>>::renumber(member, ids),
            Node::SuperProp(member) => <_ as Numbered<F, C, K>>::renumber(&mut member.prop, ids),
            Node::Call { callee, args, .. } => renumber_both::<F, C, K, _, _>(callee, args, ids),
            Node::New { callee, args, .. } => renumber_both::<F, C, K, _, _>(callee, args, ids),
            Node::OptChain(link) => <_ as Numbered<F, C, K>>::renumber(&mut *link.base, ids),
            Node::Tpl(tpl) => <_ as Numbered<F, C, K>>::renumber(&mut **tpl, ids),
            Node::TaggedTpl { tag, tpl, .. } => {
                renumber_both::<F, C, K, _, _>(tag, &mut **tpl, ids)
            }
            Node::Arrow { params, body, .. } => {
                renumber_both::<F, C, K, _, _>(params, &mut **body, ids)
            }
            Node::Yield { arg, .. } => <_ as Numbered<F, C, K>>::renumber(arg, ids),
            Node::This(_)
            | Node::Fn(_)
            | Node::Class(_)
            | Node::MetaProp(_)
            | Node::PrivateName(_)
            | Node::Ident(_)
            | Node::Str(_)
            | Node::Bool(_)
            | Node::Null(_)
            | Node::Num(_)
            | Node::BigInt(_)
            | Node::Regex(_)
            | Node::Invalid(_)
            | Node::PatIdent(_)
            | Node::PatInvalid(_) => {}
            _ => renumber_operation(self, ids),
        }
    }
}

/// Renumbers two things, as what is called and its arguments.
fn renumber_both<F: Spanned, C: Spanned, K: Spanned, T: Numbered<F, C, K>, U: Numbered<F, C, K>>(
    first: &mut T,
    second: &mut U,
    ids: &Numbers,
)
    ensures first { Renumbered T.parts T.of ids.now first.old first.new }
    ensures second { Renumbered U.parts U.of ids.now second.old second.new }
{
    first.renumber(ids);
    second.renumber(ids);
}

/// Renumbers the operands of an operation, or the parts of a pattern that is a plain one with something before or
/// after it.
fn renumber_operation<F: Spanned, C: Spanned, K: Spanned>(node: &mut Node<F, C, K>, ids: &Numbers)
    requires { is_operation node.old ≡ true }
    ensures renumbered { Renumbered slots (marked_tree F.place C.place K.place) ids.now node.old node.new }
    ensures form { form node.new ≡ form node.old }
{
    match node {
        Node::Unary { arg, .. } => <_ as Numbered<F, C, K>>::renumber(arg, ids),
        Node::Update { arg, .. } => <_ as Numbered<F, C, K>>::renumber(arg, ids),
        Node::Bin { left, right, .. } => {
            <_ as Numbered<F, C, K>>::renumber(left, ids);
            <_ as Numbered<F, C, K>>::renumber(right, ids);
        }
        Node::Assign { left, right, .. } => {
            <_ as Numbered<F, C, K>>::renumber(left, ids);
            <_ as Numbered<F, C, K>>::renumber(right, ids);
        }
        Node::Cond {
            test,
            cons,
            alt,
            ..
        } => {
            <_ as Numbered<F, C, K>>::renumber(test, ids);
            <_ as Numbered<F, C, K>>::renumber(cons, ids);
            <_ as Numbered<F, C, K>>::renumber(alt, ids);
        }
        Node::Paren(paren) => <_ as Numbered<F, C, K>>::renumber(&mut paren.expr, ids),
        Node::Await { arg, .. } => <_ as Numbered<F, C, K>>::renumber(arg, ids),
        Node::PatRest { arg, .. } => <_ as Numbered<F, C, K>>::renumber(arg, ids),
        Node::PatAssign { left, right, .. } => {
            <_ as Numbered<F, C, K>>::renumber(left, ids);
            <_ as Numbered<F, C, K>>::renumber(right, ids);
        }
        Node::PatExpr(expr) => <_ as Numbered<F, C, K>>::renumber(expr, ids),
        _ => unreachable!(),
    }
}

impl<F: Spanned + Drop, C: Spanned + Drop, K: Spanned + Drop> Node<F, C, K> {
    /// Puts the new numbers in place of those that the node's parts are named by; a part that has no new one keeps its
    /// own.
    pub fn renumber(&mut self, ids: &Numbers)
        ensures renumbered { Renumbered slots (marked_tree F.place C.place K.place) ids.now self.old self.new }
        ensures form { form self.new ≡ form self.old }
    {
        <_ as Numbered<F, C, K>>::renumber(self, ids)
    }
}

/// Puts the new numbers in place of those that the items of a list hold; one that has no new number stays.
pub fn renumber_items<F: Spanned, C: Spanned, K: Spanned>(
    items: &mut Vec<ExprOrSpread<ExprId>>,
    ids: &Numbers,
)
    ensures { Renumbered args_parts (λ at. args_tree (expr_of F.place C.place K.place at)) ids.now
        items.old items.new }
{
    <_ as Numbered<F, C, K>>::renumber(items, ids)
}
