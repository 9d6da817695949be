// The pieces of members, calls, templates, arrow functions and `yield`.
ghost use Rattle.std.specs.Prelude.{◌++◌, slice_get};
ghost use Rattle.swc_nodes.specs.NodeParts.{one_expr, one_pat, if_some, flat, item_parts, args_parts, member_parts, super_parts, callee_parts, base_parts, body_parts};
ghost use Rattle.swc_print.specs.Numbers.{Lays, tpl_shown};

use crate::items::put_list;
use crate::pieces::{
    Owner, Piece, Pieces, put_after, put_computed, put_in, put_kept_last, put_named, put_part,
    put_property, put_text,
};
use crate::print::Kept;
use std::alloc::AllocError;
use swc_ast::expr::{
    BlockStmtOrExpr, Callee, ExprOrSpread, ImportPhase, MemberExpr, MemberProp, OptChainBase,
    SuperProp, SuperPropExpr, Tpl,
};
use swc_nodes::node::{ExprId, PatId};

/// Appends the pieces of a member.
pub fn put_member<'a>(
    pieces: &mut Pieces<'a>,
    member: &'a MemberExpr<ExprId>,
    owner: Owner,
) -> Result<(), AllocError>
    ensures { Lays (one_expr member.now.obj ++ member_parts member.now.prop) pieces.old result pieces.new }
{
    put_after(pieces, "Member(", member.obj.0)?;
    match &member.prop {
        MemberProp::Ident(i) => put_property(pieces, owner, i.sym.as_str()),
        MemberProp::PrivateName(p) => {
            put_named(pieces, ", .#", p.name.as_str())?;
            put_text(pieces, owner.end())
        }
        MemberProp::Computed(c) => put_part(pieces, Piece::Bracketed(owner, c.expr.0)),
    }
}

/// Appends the pieces of a property of `super`.
pub fn put_super_prop<'a>(
    pieces: &mut Pieces<'a>,
    super_prop: &'a SuperPropExpr<ExprId>,
) -> Result<(), AllocError>
    ensures { Lays (super_parts super_prop.now.prop) pieces.old result pieces.new }
{
    put_text(pieces, "SuperProp(")?;
    match &super_prop.prop {
        SuperProp::Ident(i) => put_named(pieces, ".", i.sym.as_str())?,
        SuperProp::Computed(c) => put_computed(pieces, "[", c.expr.0)?,
    }
    put_text(pieces, ")")
}

fn put_args<'a>(
    pieces: &mut Pieces<'a>,
    args: &'a [ExprOrSpread<ExprId>],
    owner: Owner,
) -> Result<(), AllocError>
    ensures { Lays (flat item_parts args.now) pieces.old result pieces.new }
{
    match args {
        [ExprOrSpread { spread: None, expr }] => put_part(pieces, Piece::Bracketed(owner, expr.0)),
        _ => put_list(pieces, ", [", args, owner.bracketed_end()),
    }
}

fn put_callee<'a>(pieces: &mut Pieces<'a>, callee: &Callee<ExprId>) -> Result<(), AllocError>
    ensures { Lays (callee_parts callee.now) pieces.old result pieces.new }
{
    match callee {
        Callee::Super(_) => put_text(pieces, "Call(super"),
        Callee::Import(i) => put_named(pieces, "Call(", import_text(&i.phase)),
        Callee::Expr(e) => put_after(pieces, "Call(", e.0),
    }
}

/// Appends the pieces of a call.
pub fn put_call<'a>(
    pieces: &mut Pieces<'a>,
    callee: &Callee<ExprId>,
    args: &'a [ExprOrSpread<ExprId>],
) -> Result<(), AllocError>
    ensures { Lays (callee_parts callee.now ++ flat item_parts args.now) pieces.old result pieces.new }
{
    put_callee(pieces, callee)?;
    put_args(pieces, args, Owner::Other)
}

/// Appends the pieces of a call by `new`.
pub fn put_new<'a>(
    pieces: &mut Pieces<'a>,
    callee: ExprId,
    args: &'a Option<Vec<ExprOrSpread<ExprId>>>,
) -> Result<(), AllocError>
    ensures { Lays (one_expr callee ++ if_some args_parts args.now) pieces.old result pieces.new }
{
    put_after(pieces, "New(", callee.0)?;
    match args {
        None => put_text(pieces, ", -)"),
        Some(args) => put_args(pieces, args, Owner::Other),
    }
}

/// Appends the pieces of a link of an optional chain.
pub fn put_chain<'a>(
    pieces: &mut Pieces<'a>,
    optional: bool,
    base: &'a OptChainBase<ExprId>,
) -> Result<(), AllocError>
    ensures { Lays (base_parts base.now) pieces.old result pieces.new }
{
    put_text(
        pieces,
        if optional {
            "OptChain(true, "
        } else {
            "OptChain(false, "
        },
    )?;
    match base {
        OptChainBase::Call(c) => {
            put_after(pieces, "Call(", c.callee.0)?;
            put_args(pieces, &c.args, Owner::Chain)
        }
        OptChainBase::Member(m) => put_member(pieces, m, Owner::Chain),
    }
}

/// Appends the pieces of a template: its texts, and an expression after each of them as far as there are any.
pub fn put_tpl<'a>(pieces: &mut Pieces<'a>, tpl: &'a Tpl<ExprId>) -> Result<(), AllocError>
    ensures { Lays (tpl_shown tpl.now) pieces.old result pieces.new }
{
    put_text(pieces, "Tpl(")?;
    for (i, quasi) in tpl.quasis.iter().enumerate() {
        put_named(pieces, if i == 0 { "`" } else { ", `" }, quasi.raw.as_str())?;
        put_text(pieces, "`")?;
        put_nth(pieces, &tpl.exprs, i)?;
    }
    put_text(pieces, ")")
}

fn put_nth<'a>(pieces: &mut Pieces<'a>, exprs: &[ExprId], index: usize) -> Result<(), AllocError>
    ensures { Lays (if_some one_expr (slice_get exprs.now index)) pieces.old result pieces.new }
{
    match exprs.get(index) {
        None => Ok(()),
        Some(expr) => put_after(pieces, ", ", expr.0),
    }
}

/// Appends the pieces of a template with a tag.
pub fn put_tagged<'a>(
    pieces: &mut Pieces<'a>,
    tag: ExprId,
    tpl: &'a Tpl<ExprId>,
) -> Result<(), AllocError>
    ensures { Lays (one_expr tag ++ tpl_shown tpl.now) pieces.old result pieces.new }
{
    put_after(pieces, "Tagged(", tag.0)?;
    put_text(pieces, ", ")?;
    put_tpl(pieces, tpl)?;
    put_text(pieces, ")")
}

/// Appends the pieces of an arrow function.
pub fn put_arrow<'a, K: Kept>(
    pieces: &mut Pieces<'a>,
    params: &'a [PatId],
    body: &BlockStmtOrExpr<ExprId, K>,
    is_async: bool,
) -> Result<(), AllocError>
    ensures { Lays (flat one_pat params.now ++ body_parts body.now) pieces.old result pieces.new }
{
    let open = if is_async { "AsyncArrow([" } else { "Arrow([" };
    put_list(pieces, open, params, "], ")?;
    put_body(pieces, body)
}

fn put_body<'a, K: Kept>(
    pieces: &mut Pieces<'a>,
    body: &BlockStmtOrExpr<ExprId, K>,
) -> Result<(), AllocError>
    ensures { Lays (body_parts body.now) pieces.old result pieces.new }
{
    match body {
        BlockStmtOrExpr::BlockStmt(k) => put_kept_last(pieces, "", k.kept()),
        BlockStmtOrExpr::Expr(e) => put_in(pieces, "", e.0),
    }
}

/// Appends the pieces of an expression of `yield`.
pub fn put_yield<'a>(
    pieces: &mut Pieces<'a>,
    arg: &Option<ExprId>,
    delegate: bool,
) -> Result<(), AllocError>
    ensures { Lays (if_some one_expr arg.now) pieces.old result pieces.new }
{
    let open = if delegate { "YieldStar(" } else { "Yield(" };
    match arg {
        None => put_named(pieces, open, "-)"),
        Some(e) => put_in(pieces, open, e.0),
    }
}

fn import_text(phase: &ImportPhase) -> &'static str {
    match phase {
        ImportPhase::Evaluation => "import",
        ImportPhase::Source => "import.source",
    }
}
