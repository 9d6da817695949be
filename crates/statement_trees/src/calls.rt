// The calls of the parser that make parts of a tree.
ghost use Rattle.std.specs.Prelude.{◌≡◌, ◌≤◌, OnOk};
ghost use Rattle.statement_trees.specs.Contexts.{context_of, work, Takes};

use crate::reader::Reader;
use swc_ecma_parser::ast::function::Param;
use swc_ecma_parser::ast::ident::{Ident, ModuleExportName, PrivateName};
use swc_ecma_parser::ast::lit::Lit;
use swc_ecma_parser::ast::prop::PropName;
use swc_ecma_parser::context::error::PResult;
use swc_ecma_parser::context::span::Span;
use swc_ecma_parser::nodes::node::{ExprId, ForHeadId, PatId};

impl Reader {
    /// Reads an expression.
    pub(crate) fn expr(&mut self) -> PResult<ExprId>
        ensures context { context_of self.new ≡ context_of self.old }
        ensures lower { work self.new ≤ work self.old }
        ensures takes { OnOk result (Takes self.old self.new) }
    {
        self.parser.parse_expr_id()
    }

    /// Reads an assignment expression.
    pub(crate) fn assignment_expr(&mut self) -> PResult<ExprId>
        ensures context { context_of self.new ≡ context_of self.old }
        ensures lower { work self.new ≤ work self.old }
        ensures takes { OnOk result (Takes self.old self.new) }
    {
        self.parser.parse_assignment_expr_id()
    }

    /// Reads what a class extends.
    pub(crate) fn lhs_expr(&mut self) -> PResult<ExprId>
        ensures context { context_of self.new ≡ context_of self.old }
        ensures lower { work self.new ≤ work self.old }
        ensures takes { OnOk result (Takes self.old self.new) }
    {
        self.parser.parse_lhs_expr_id()
    }

    /// Reads a literal.
    pub(crate) fn literal(&mut self) -> PResult<Lit>
        ensures context { context_of self.new ≡ context_of self.old }
        ensures lower { work self.new ≤ work self.old }
    {
        self.parser.parse_lit()
    }

    /// Reads a binding pattern.
    pub(crate) fn pat(&mut self) -> PResult<PatId>
        ensures context { context_of self.new ≡ context_of self.old }
        ensures lower { work self.new ≤ work self.old }
        ensures takes { OnOk result (Takes self.old self.new) }
    {
        self.parser.parse_pat_id()
    }

    /// Reads formal parameters, up to the `)` after them.
    pub(crate) fn formal_params(&mut self) -> PResult<Vec<Param<PatId>>>
        ensures context { context_of self.new ≡ context_of self.old }
        ensures lower { work self.new ≤ work self.old }
    {
        self.parser.parse_formal_params_id()
    }

    /// Reads what the head of a `for` begins with, where that is no declaration.
    pub(crate) fn head_expr(&mut self, is_await: bool) -> PResult<ForHeadId>
        ensures context { context_of self.new ≡ context_of self.old }
        ensures lower { work self.new ≤ work self.old }
    {
        self.parser.parse_for_head_id(is_await)
    }

    /// Reads a key.
    pub(crate) fn prop_name(&mut self) -> PResult<PropName<ExprId>>
        ensures context { context_of self.new ≡ context_of self.old }
        ensures lower { work self.new ≤ work self.old }
        ensures takes { OnOk result (Takes self.old self.new) }
    {
        self.parser.parse_prop_name_id()
    }

    /// Reads a private name.
    pub(crate) fn private_name(&mut self) -> PResult<PrivateName>
        ensures context { context_of self.new ≡ context_of self.old }
        ensures lower { work self.new ≤ work self.old }
        ensures takes { OnOk result (Takes self.old self.new) }
    {
        self.parser.parse_private_name()
    }

    /// Reads a name that is bound.
    pub(crate) fn name(&mut self) -> PResult<Ident>
        ensures context { context_of self.new ≡ context_of self.old }
        ensures lower { work self.new ≤ work self.old }
    {
        let name = self.parser.parse_binding_ident()?;
        Ok(name.id)
    }

    /// Reads a label.
    pub(crate) fn label(&mut self) -> PResult<Ident>
        ensures context { context_of self.new ≡ context_of self.old }
        ensures lower { work self.new ≤ work self.old }
    {
        self.parser.parse_label_ident()
    }

    /// Reads a name under which a module exports something.
    pub(crate) fn export_name(&mut self) -> PResult<ModuleExportName>
        ensures context { context_of self.new ≡ context_of self.old }
        ensures lower { work self.new ≤ work self.old }
    {
        self.parser.parse_module_export_name()
    }

    /// Reads the place of a function, which waits for its pass.
    pub(crate) fn read_fun(&mut self) -> PResult<Span>
        ensures context { context_of self.new ≡ context_of self.old }
        ensures lower { work self.new ≤ work self.old }
        ensures takes { OnOk result (Takes self.old self.new) }
    {
        self.parser.read_fun()
    }

    /// Reads the place of a class, which waits for its pass.
    pub(crate) fn read_class(&mut self) -> PResult<Span>
        ensures context { context_of self.new ≡ context_of self.old }
        ensures lower { work self.new ≤ work self.old }
        ensures takes { OnOk result (Takes self.old self.new) }
    {
        self.parser.read_class()
    }

    /// Reads the place of a block, which waits for its pass.
    pub(crate) fn read_block(&mut self) -> PResult<Span>
        ensures context { context_of self.new ≡ context_of self.old }
        ensures lower { work self.new ≤ work self.old }
        ensures takes { OnOk result (Takes self.old self.new) }
    {
        self.parser.read_block()
    }
}
