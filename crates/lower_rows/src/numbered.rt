// Answers by number, shown as those in boxes are.
use crate::shown::{Shown, show_refusal};
use crate::trees::{TestNodes, show_id, show_pat_id};
use std::alloc::AllocError;
use swc_ast::function::Param;
use swc_ast::lit::Lit;
use swc_ast::prop::{ComputedPropName, PropName};
use swc_context::error::PResult;
use swc_nodes::node::{ExprId, ForHeadId, PatId};

/// The call by number of one that answers boxes, where there is one.
pub fn by_number(call: &str) -> &str {
    match call {
        "parse_expr" => "parse_expr_id",
        "parse_lhs_expr" => "parse_lhs_expr_id",
        "parse_prop_name" => "parse_prop_name_id",
        "parse_pat" => "parse_pat_id",
        "parse_binding_element" => "parse_binding_element_id",
        "parse_formal_params" => "parse_formal_params_id",
        "parse_arrow_params" => "parse_arrow_params_id",
        "parse_for_head(false)" => "parse_for_head_id(false)",
        "parse_for_head(true)" => "parse_for_head_id(true)",
        "reparse BindingPat" => "reparse_id BindingPat",
        "reparse BindingElement" => "reparse_id BindingElement",
        "reparse AssignPat" => "reparse_id AssignPat",
        "reparse AssignElement" => "reparse_id AssignElement",
        _ => call,
    }
}

/// What a call answers, whose trees are among the nodes: a text, as a row has it.
pub trait Numbered {
    fn show_in(self, out: &mut String, nodes: &TestNodes) -> Result<(), AllocError>;
}

/// Writes what was read, or the refusal.
pub fn show_in<T: Numbered>(
    out: &mut String,
    nodes: &TestNodes,
    answer: PResult<T>,
) -> Result<(), AllocError> {
    match answer {
        Ok(read) => read.show_in(out, nodes),
        Err(fault) => show_refusal(out, fault),
    }
}

impl Numbered for ExprId {
    fn show_in(self, out: &mut String, nodes: &TestNodes) -> Result<(), AllocError> {
        show_id(out, nodes, self)
    }
}

impl Numbered for PatId {
    fn show_in(self, out: &mut String, nodes: &TestNodes) -> Result<(), AllocError> {
        show_pat_id(out, nodes, self)
    }
}

/// A key, with the tree in its brackets.
impl Numbered for PropName<ExprId> {
    fn show_in(self, out: &mut String, nodes: &TestNodes) -> Result<(), AllocError> {
        match self {
            PropName::Ident(name) => name.show(out),
            PropName::Str(text) => Lit::Str(text).show(out),
            PropName::Num(number) => Lit::Num(number).show(out),
            PropName::BigInt(number) => Lit::BigInt(number).show(out),
            PropName::Computed(ComputedPropName { span, expr }) => {
                out.push_str("[")?;
                show_id(out, nodes, expr)?;
                write!(out, "] {span}")
            }
        }
    }
}

/// Writes a pattern, which is at that place of a list.
fn show_listed(
    out: &mut String,
    nodes: &TestNodes,
    at: usize,
    pat: PatId,
) -> Result<(), AllocError> {
    if at > 0 {
        out.push_str(", ")?;
    }
    show_pat_id(out, nodes, pat)
}

/// Each pattern, and its place.
impl Numbered for Vec<PatId> {
    fn show_in(self, out: &mut String, nodes: &TestNodes) -> Result<(), AllocError> {
        if self.is_empty() {
            return out.push_str("none");
        }
        for (at, pat) in self.iter().enumerate() {
            show_listed(out, nodes, at, *pat)?;
        }
        Ok(())
    }
}

/// The pattern of each parameter, and its place.
impl Numbered for Vec<Param<PatId>> {
    fn show_in(self, out: &mut String, nodes: &TestNodes) -> Result<(), AllocError> {
        if self.is_empty() {
            return out.push_str("none");
        }
        for (at, param) in self.iter().enumerate() {
            show_listed(out, nodes, at, param.pat)?;
        }
        Ok(())
    }
}

/// What the head of a `for` begins with, and which of the two it is.
impl Numbered for ForHeadId {
    fn show_in(self, out: &mut String, nodes: &TestNodes) -> Result<(), AllocError> {
        match self {
            ForHeadId::Target(pat) => {
                out.push_str("Target ")?;
                show_pat_id(out, nodes, pat)
            }
            ForHeadId::Expr(expr) => {
                out.push_str("Expr ")?;
                show_id(out, nodes, expr)
            }
        }
    }
}
