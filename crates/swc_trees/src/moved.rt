// What holds no tree, moved out of a tree; and what is left there.
ghost use Rattle.std.specs.Prelude.{◌≡◌, ℕ, [], IfOk};
ghost use Rattle.swc_ast.specs.{Parts.lit_tree, Tree.Tree};
ghost use Rattle.swc_nodes.specs.NodeTree.{marked_tree};
ghost use Rattle.swc_nodes.specs.NodeParts.{other_expr, form, slots};

use std::alloc::{AllocError, Global};
use std::mem;
use swc_ast::expr::{AssignTarget, Expr, Import, ImportPhase, Invalid, MetaPropExpr, MetaPropKind};
use swc_ast::ident::{BindingIdent, Ident, IdentName, PrivateName};
use swc_ast::lit::{BigInt, Lit, Null, Num, Str};
use swc_ast::pat::Pat;
use swc_ast::prop::Prop;
use swc_ast::spanned::Spanned;
use swc_context::atom::Atom;
use swc_context::span::{BytePos, Span};
use swc_nodes::node::Node;

/// No place.
fn nowhere() -> Span {
    let lo = BytePos(0);
    Span { lo, hi: lo }
}

/// What is left of an expression that is moved out.
pub(crate) fn nothing<F, C, K>() -> Expr<F, C, K> {
    Expr::Invalid(Invalid { span: nowhere() })
}

/// What is left of a pattern that is moved out.
pub(crate) fn no_pat<F, C, K>() -> Pat<F, C, K> {
    Pat::Invalid(Invalid { span: nowhere() })
}

/// What is left of a target that is moved out.
pub(crate) fn no_target<F, C, K>(alloc: Global) -> AssignTarget<F, C, K> {
    let elems = Vec::new(alloc);
    AssignTarget::Array {
        span: nowhere(),
        elems,
    }
}

/// What is left of a property that is moved out.
pub(crate) fn no_prop<F, C, K>(alloc: Global) -> Result<Prop<F, C, K>, AllocError> {
    let sym = Atom::new(alloc, "")?;
    Ok(Prop::Shorthand(Ident {
        span: nowhere(),
        sym,
    }))
}

/// The text, which is moved out. An empty one is left, which takes no memory.
fn taken(alloc: Global, text: &mut Atom) -> Result<Atom, AllocError>
    ensures { IfOk result (λ a. a ≡ text.old) }
{
    Ok(mem::replace(text, Atom::new(alloc, "")?))
}

/// The identifier, which is moved out.
pub(crate) fn taken_ident(alloc: Global, ident: &mut Ident) -> Result<Ident, AllocError>
    ensures { IfOk result (λ i. i ≡ ident.old) }
{
    let span = ident.span;
    let sym = taken(alloc, &mut ident.sym)?;
    Ok(Ident { span, sym })
}

/// The bound identifier, which is moved out.
pub(crate) fn taken_binding(
    alloc: Global,
    binding: &mut BindingIdent,
) -> Result<BindingIdent, AllocError>
    ensures { IfOk result (λ b. b ≡ binding.old) }
{
    let id = taken_ident(alloc, &mut binding.id)?;
    Ok(BindingIdent { id })
}

/// The name, which is moved out.
pub(crate) fn taken_name(alloc: Global, name: &mut IdentName) -> Result<IdentName, AllocError>
    ensures { IfOk result (λ n. n ≡ name.old) }
{
    let span = name.span;
    let sym = taken(alloc, &mut name.sym)?;
    Ok(IdentName { span, sym })
}

/// The private name, which is moved out.
pub(crate) fn taken_private(
    alloc: Global,
    private: &mut PrivateName,
) -> Result<PrivateName, AllocError>
    ensures { IfOk result (λ p. p ≡ private.old) }
{
    let span = private.span;
    let name = taken(alloc, &mut private.name)?;
    Ok(PrivateName { span, name })
}

/// The string, which is moved out.
pub(crate) fn taken_str(alloc: Global, text: &mut Str) -> Result<Str, AllocError>
    ensures { IfOk result (λ s. s ≡ text.old) }
{
    let span = text.span;
    let value = taken(alloc, &mut text.value)?;
    let raw = taken(alloc, &mut text.raw)?;
    Ok(Str { span, value, raw })
}

/// The number, which is moved out.
pub(crate) fn taken_num(alloc: Global, num: &mut Num) -> Result<Num, AllocError>
    ensures { IfOk result (λ n. n ≡ num.old) }
{
    let span = num.span;
    let raw = taken(alloc, &mut num.raw)?;
    Ok(Num { span, raw })
}

/// The big integer, which is moved out.
pub(crate) fn taken_big(alloc: Global, num: &mut BigInt) -> Result<BigInt, AllocError>
    ensures { IfOk result (λ n. n ≡ num.old) }
{
    let span = num.span;
    let raw = taken(alloc, &mut num.raw)?;
    Ok(BigInt { span, raw })
}

/// The literal, which is moved out.
pub(crate) fn taken_lit(lit: &mut Lit) -> Lit
    ensures { result ≡ lit.old }
{
    mem::replace(lit, Lit::Null(Null { span: nowhere() }))
}

/// `new.target` or `import.meta`, which is moved out.
pub(crate) fn taken_meta(meta: &mut MetaPropExpr) -> MetaPropExpr
    ensures { result ≡ meta.old }
{
    let span = nowhere();
    let kind = MetaPropKind::NewTarget;
    mem::replace(meta, MetaPropExpr { span, kind })
}

/// `import`, which is moved out.
pub(crate) fn taken_import(import: &mut Import) -> Import
    ensures { result ≡ import.old }
{
    let span = nowhere();
    let phase = ImportPhase::Evaluation;
    mem::replace(import, Import { span, phase })
}

/// The node of a literal.
pub(crate) fn lit_node<F: Spanned + Drop, C: Spanned + Drop, K: Spanned + Drop>(
    lit: Lit,
) -> Node<F, C, K>
    ensures slots { slots result ≡ [] }
    ensures form { form result ≡ other_expr }
    ensures tree { (at : ℕ → Tree F C K) → marked_tree F.place C.place K.place at result ≡ lit_tree lit }
{
    match lit {
        Lit::Str(s) => Node::Str(s),
        Lit::Bool(b) => Node::Bool(b),
        Lit::Null(n) => Node::Null(n),
        Lit::Num(n) => Node::Num(n),
        Lit::BigInt(n) => Node::BigInt(n),
        Lit::Regex(r) => Node::Regex(r),
    }
}
