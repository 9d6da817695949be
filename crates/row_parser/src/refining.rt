// Calls that make patterns of expressions, and those that look for names with values left over in them.
use crate::parser::TestParser;
use lower_rows::hooks::TestBodies;
use lower_rows::shown::{NO_MEMORY, show, show_faults, show_refusal};
use lower_rows::tokens::tokens_of;
use lower_rows::trees::TestExpr;
use std::alloc::{AllocError, Global};
use std::mem::forget;
use swc_ast::expr::{Expr, Invalid};
use swc_context::context::{Context, EsVersion, Syntax};
use swc_context::error::PResult;
use swc_context::span::{BytePos, Span};
use swc_ecma_parser::PatType;
use swc_ecma_parser::parser::Parser;
use swc_input::listed::TokensInput;

/// The kind of pattern that has the name; of another name, that of a binding.
fn pat_type_of(name: &str) -> PatType {
    match name {
        "BindingElement" => PatType::BindingElement,
        "AssignPat" => PatType::AssignPat,
        "AssignElement" => PatType::AssignElement,
        _ => PatType::BindingPat,
    }
}

/// What another parser reads, in the context, of a text.
fn read_other(alloc: Global, context: Context, text: &str) -> PResult<Box<TestExpr>> {
    let tokens = tokens_of(alloc, text).unwrap_or_else(|| Vec::new(alloc));
    let (syntax, target) = (Syntax::default(), EsVersion::default());
    let source = TokensInput::new(alloc, tokens, context, syntax, target);
    let mut other = Parser::new_from(alloc, source, TestBodies::of_setting(alloc, ""));
    other.parse_expr()
}

impl TestParser {
    /// Reads an expression, and makes a pattern of it.
    pub(crate) fn reparse(&mut self, out: &mut String, kind: &str) -> Result<(), AllocError> {
        let read = self.inner.parse_expr();
        self.reparse_as(out, kind, read)
    }

    /// Makes a pattern of the kind of an expression that was read, or writes its refusal.
    fn reparse_as(
        &mut self,
        out: &mut String,
        kind: &str,
        read: PResult<Box<TestExpr>>,
    ) -> Result<(), AllocError> {
        match read {
            Ok(expr) => show(out, self.inner.reparse_expr_as_pat(pat_type_of(kind), expr)),
            Err(fault) => show_refusal(out, fault),
        }
    }

    /// Reads an expression by its number, and makes a pattern of the kind of it, in place.
    pub(crate) fn reparse_id(&mut self, out: &mut String, kind: &str) -> Result<(), AllocError> {
        match self.inner.parse_expr_id() {
            Ok(id) => {
                if !self.inner.nodes().has_expr(id) {
                    return out.push_str("no expression");
                }
                let answer = self.inner.reparse_expr_as_pat_id(pat_type_of(kind), id);
                self.show_in(out, answer)
            }
            Err(fault) => show_refusal(out, fault),
        }
    }

    /// Makes a pattern of an expression that another parser reads, in the same context, of the text after the kind.
    pub(crate) fn reparse_other(&mut self, out: &mut String, said: &str) -> Result<(), AllocError> {
        let (kind, text) = said.split_once(' ').unwrap_or((said, ""));
        let read = read_other(*out.allocator(), self.context(), text);
        self.reparse_as(out, kind, read)
    }

    /// Makes a pattern of an `Invalid`.
    pub(crate) fn reparse_invalid(
        &mut self,
        out: &mut String,
        kind: &str,
    ) -> Result<(), AllocError> {
        let span = Span::new(BytePos(3), BytePos(5));
        match Box::new(*out.allocator(), Expr::Invalid(Invalid { span })) {
            Ok(expr) => self.reparse_as(out, kind, Ok(expr)),
            Err(refused) => {
                forget(refused);
                out.push_str(NO_MEMORY)
            }
        }
    }

    /// Reads an expression into boxes, moves it in among the nodes and out again, as what is assigned to, and lets all go.
    /// The error is that of reading.
    pub fn refine_boxed(&mut self) -> PResult<()> {
        let expr = self.inner.parse_expr()?;
        let _ = self.inner.reparse_expr_as_pat(PatType::AssignPat, expr);
        Ok(())
    }

    /// Reads a list in parentheses, and makes parameters of it, with the comma after it that is said, or its own.
    pub(crate) fn params_of_items(
        &mut self,
        out: &mut String,
        said: Option<Span>,
    ) -> Result<(), AllocError> {
        match self.inner.parse_args_or_pats() {
            Ok((items, comma)) => {
                let comma = said.or(comma);
                show(out, self.inner.parse_paren_items_as_params(items, comma))
            }
            Err(fault) => show_refusal(out, fault),
        }
    }

    /// Reads an expression, takes out what was recorded, and looks for the names that are left over.
    pub(crate) fn verify(&mut self, out: &mut String) -> Result<(), AllocError> {
        match self.inner.parse_expr() {
            Ok(expr) => {
                show_faults(out, &self.inner.take_errors())?;
                out.push_str(" then ")?;
                show(out, self.inner.verify_expr(expr))
            }
            Err(fault) => show_refusal(out, fault),
        }
    }

    /// Reads an expression, and looks for the names that are left over.
    pub(crate) fn verify_expr(&mut self, out: &mut String) -> Result<(), AllocError> {
        let read = self.inner.parse_expr();
        self.show_verified(out, read)
    }

    /// Looks for the names that are left over in an expression that another parser reads.
    pub(crate) fn verify_other(&mut self, out: &mut String, text: &str) -> Result<(), AllocError> {
        let read = read_other(*out.allocator(), self.context(), text);
        self.show_verified(out, read)
    }

    fn show_verified(
        &mut self,
        out: &mut String,
        read: PResult<Box<TestExpr>>,
    ) -> Result<(), AllocError> {
        match read {
            Ok(expr) => show(out, self.inner.verify_expr(expr)),
            Err(fault) => show_refusal(out, fault),
        }
    }
}
