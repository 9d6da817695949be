// Calls of the parser, by their names.
use crate::parser::TestParser;
use crate::reaching::show_all;
use lower_rows::hooks::{TestBodies, consume};
use lower_rows::kept::call_source;
use lower_rows::numbered::{Numbered, show_in};
use lower_rows::shown::{Shown, show, show_faults, show_label, show_refusal};
use lower_rows::source::TestInput;
use lower_rows::tokens::span_of;
use lower_rows::trees::{show_id, show_pat_id};
use std::alloc::AllocError;
use swc_ast::target::ExprExt;
use swc_context::error::PResult;
use swc_context::span::BytePos;
use swc_input::buffer::Buffer;
use swc_nodes::node::{ExprId, PatId};

impl TestParser {
    /// Makes the call, and writes what it answers.
    pub fn call(&mut self, out: &mut String, call: &str) -> Result<(), AllocError> {
        let parser = &mut self.inner;
        match call {
            "parse_expr" => show(out, parser.parse_expr()),
            "parse_pat" => show(out, parser.parse_pat()),
            "parse_assignment_expr" => show(out, parser.parse_assignment_expr()),
            "parse_bin_expr" => show(out, parser.parse_bin_expr()),
            "parse_unary_expr" => show(out, parser.parse_unary_expr()),
            "parse_lhs_expr" => show(out, parser.parse_lhs_expr()),
            "parse_for_head_prefix" => show(out, parser.parse_for_head_prefix()),
            "parse_for_head(false)" => show(out, parser.parse_for_head(false)),
            "parse_for_head(true)" => show(out, parser.parse_for_head(true)),
            "parse_args(false)" => show(out, parser.parse_args(false)),
            "parse_args(true)" => show(out, parser.parse_args(true)),
            "parse_args_or_pats" => show(out, parser.parse_args_or_pats()),
            "parse_tpl(false)" => show(out, parser.parse_tpl(false)),
            "parse_tpl(true)" => show(out, parser.parse_tpl(true)),
            "parse_prop_name" => show(out, parser.parse_prop_name()),
            "parse_binding_pat_or_ident" => show(out, parser.parse_binding_pat_or_ident()),
            "parse_binding_element" => show(out, parser.parse_binding_element()),
            "parse_formal_params" => show(out, parser.parse_formal_params()),
            "parse_unique_formal_params" => show(out, parser.parse_unique_formal_params()),
            "parse_arrow_params" => show(out, parser.parse_arrow_params()),
            "parse_lit" => show(out, parser.parse_lit()),
            "parse_ident(false, false)" => show(out, parser.parse_ident(false, false)),
            "parse_ident(true, false)" => show(out, parser.parse_ident(true, false)),
            "parse_ident(false, true)" => show(out, parser.parse_ident(false, true)),
            "parse_ident(true, true)" => show(out, parser.parse_ident(true, true)),
            "parse_ident_ref" => show(out, parser.parse_ident_ref()),
            "parse_label_ident" => show(out, parser.parse_label_ident()),
            "parse_ident_name" => show(out, parser.parse_ident_name()),
            "parse_binding_ident" => show(out, parser.parse_binding_ident()),
            "parse_opt_binding_ident" => show(out, parser.parse_opt_binding_ident()),
            "parse_module_export_name" => show(out, parser.parse_module_export_name()),
            "parse_private_name" => show(out, parser.parse_private_name()),
            "parse_maybe_private_name" => show(out, parser.parse_maybe_private_name()),
            "read_fun" => show(out, parser.read_fun()),
            "read_class" => show(out, parser.read_class()),
            "read_block" => show(out, parser.read_block()),
            "at_end" => show(out, parser.at_end()),
            "take_errors" => show_faults(out, &parser.take_errors()),
            "found_module_item" => parser.found_module_item().show(out),
            "bump" => bump(out, parser.buffer()),
            "count_nodes" => write!(out, "{}", parser.nodes().len()),
            "clear_nodes" => {
                parser.clear_nodes();
                ().show(out)
            }
            _ => self.call_by_number(out, call),
        }
    }

    /// Makes a call that answers numbers of nodes, or one that only rows have.
    fn call_by_number(&mut self, out: &mut String, call: &str) -> Result<(), AllocError> {
        match call {
            "parse_expr_id" => {
                let answer = self.inner.parse_expr_id();
                self.show_in(out, answer)
            }
            "parse_lhs_expr_id" => {
                let answer = self.inner.parse_lhs_expr_id();
                self.show_in(out, answer)
            }
            "parse_prop_name_id" => {
                let answer = self.inner.parse_prop_name_id();
                self.show_in(out, answer)
            }
            "parse_pat_id" => {
                let answer = self.inner.parse_pat_id();
                self.show_in(out, answer)
            }
            "parse_binding_element_id" => {
                let answer = self.inner.parse_binding_element_id();
                self.show_in(out, answer)
            }
            "parse_formal_params_id" => {
                let answer = self.inner.parse_formal_params_id();
                self.show_in(out, answer)
            }
            "parse_arrow_params_id" => {
                let answer = self.inner.parse_arrow_params_id();
                self.show_in(out, answer)
            }
            "parse_for_head_id(false)" => {
                let answer = self.inner.parse_for_head_id(false);
                self.show_in(out, answer)
            }
            "parse_for_head_id(true)" => {
                let answer = self.inner.parse_for_head_id(true);
                self.show_in(out, answer)
            }
            "reached" => {
                let answer = self.inner.parse_expr_id();
                show_all(out, self.nodes(), answer)
            }
            "reached_pat" => {
                let answer = self.inner.parse_pat_id();
                show_all(out, self.nodes(), answer)
            }
            "reached_params" => {
                let answer = self.inner.parse_formal_params_id();
                show_all(out, self.nodes(), answer)
            }
            "label_of_refusal" => self.show_refused_label(out),
            "is_target(false)" => self.show_is_target(out, false),
            "is_target(true)" => self.show_is_target(out, true),
            "parse_object_prop" => self.parse_object_prop(out),
            "parse_object_pat_prop" => self.parse_object_pat_prop(out),
            "make_object" => self.make_object(out, None),
            "make_literal" => self.make_literal(out),
            "params_of_items" => self.params_of_items(out, None),
            "verify" => self.verify(out),
            "verify_expr" => self.verify_expr(out),
            _ => self.call_with(out, call),
        }
    }

    /// Makes a call that is given a place, a number, a kind of pattern, a text, a hook or a fault.
    fn call_with(&mut self, out: &mut String, call: &str) -> Result<(), AllocError> {
        match call.split_once(' ') {
            Some(("make_object", at)) => self.make_object(out, span_of(at)),
            Some(("make_pattern", said)) => self.make_pattern(out, said),
            Some(("reparse", kind)) => self.reparse(out, kind),
            Some(("reparse_id", kind)) => self.reparse_id(out, kind),
            Some(("reparse_other", said)) => self.reparse_other(out, said),
            Some(("reparse_invalid", kind)) => self.reparse_invalid(out, kind),
            Some(("params_of_items", at)) => self.params_of_items(out, span_of(at)),
            Some(("verify_other", text)) => self.verify_other(out, text),
            Some(("trailing_comma", at)) => {
                let start = BytePos(at.parse().unwrap_or(0));
                self.inner.trailing_comma(start).show(out)
            }
            Some(("set_hook", word)) => {
                *self.inner.bodies() = TestBodies::of_setting(*out.allocator(), word);
                ().show(out)
            }
            Some(("node", at)) => show_id(out, self.nodes(), ExprId(at.parse().unwrap_or(0))),
            Some(("pat", at)) => show_pat_id(out, self.nodes(), PatId(at.parse().unwrap_or(0))),
            _ => call_source(self.inner.input(), out, call),
        }
    }

    /// Writes what was read by its number, or the refusal.
    pub(crate) fn show_in<T: Numbered>(
        &mut self,
        out: &mut String,
        answer: PResult<T>,
    ) -> Result<(), AllocError> {
        show_in(out, self.nodes(), answer)
    }

    /// Writes whether an expression that is read may be assigned to by itself, in strict code or not.
    fn show_is_target(&mut self, out: &mut String, is_strict: bool) -> Result<(), AllocError> {
        match self.inner.parse_expr() {
            Ok(expr) => {
                let is_target = expr.is_valid_simple_assignment_target(is_strict);
                let is_same = expr.as_expr().is_valid_simple_assignment_target(is_strict)
                    == is_target;
                out.push_str(if is_same {
                    ""
                } else {
                    "out of its box otherwise: "
                })?;
                is_target.show(out)
            }
            Err(fault) => show_refusal(out, fault),
        }
    }

    /// Writes the label of the refusal that `parse_expr_id` answers.
    fn show_refused_label(&mut self, out: &mut String) -> Result<(), AllocError> {
        match self.inner.parse_expr_id() {
            Ok(_) => out.push_str("no refusal"),
            Err(fault) => show_label(out, &fault),
        }
    }
}

/// Consumes the current token by the buffer, and writes its place; or refuses the end, or an error token, as the buffer
/// does.
fn bump(out: &mut String, buffer: &mut Buffer<TestInput>) -> Result<(), AllocError> {
    match buffer.require_cur() {
        Ok(()) => consume(buffer).show(out),
        Err(fault) => show_refusal(out, fault),
    }
}
