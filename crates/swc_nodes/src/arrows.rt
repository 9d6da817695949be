// Makes the nodes of arrow functions, and says where these end.
ghost use Rattle.std.specs.Prelude.{◌≡◌, ℕ, true, ◌++◌, IfOk};
ghost use Rattle.swc_context.specs.Spans.{from_to};
ghost use Rattle.swc_ast.specs.Parts.{body_tree};
ghost use Rattle.swc_ast.specs.Trees as trees;
ghost use Rattle.swc_nodes.specs.GrowingNodes.{tree_at, body_end, Apart, Grows, Made};
ghost use Rattle.swc_nodes.specs.{Lists.pats_parts, Lists.pat_trees, NodeParts.expr_part, NodeParts.body_parts};

use crate::apart::Parts;
use crate::node::{ExprId, Node, PatId};
use crate::nodes::Nodes;
use std::alloc::AllocError;
use swc_ast::expr::BlockStmtOrExpr;
use swc_ast::spanned::Spanned;
use swc_context::span::{BytePos, Span};

impl<F: Spanned + Drop, C: Spanned + Drop, K: Spanned + Drop> Nodes<F, C, K> {
    /// An arrow function (ECMA-262, 15.3 and 15.9) from `start`, a position in bytes, to where its body ends: an
    /// expression with its last token, a block where the hook has it.
    ///
    /// All that is reached from a parameter lies after the one before it, and all that is reached from the body after
    /// them (`is_arrow_apart`).
    pub fn arrow_expr(
        &mut self,
        start: BytePos,
        is_async: bool,
        params: Vec<PatId>,
        body: BlockStmtOrExpr<ExprId, K>,
    ) -> Result<ExprId, AllocError>
        requires apart { Apart 0 self.old (pats_parts params ++ body_parts body) }
        ensures grows { Grows self.old self.new }
        ensures made { IfOk result (λ id. (k : ℕ) → Apart k self.old (pats_parts params ++ body_parts body)
            → Made k self.new (expr_part id)
            (trees.arrow_e (from_to start (body_end self.old body)) is_async
            (body_tree K.place (λ e. tree_at self.old e.0) body) (pat_trees (tree_at self.old) params))) }
    {
        let span = Span {
            lo: start,
            hi: self.body_end(&body),
        };
        let body = Box::new(self.allocator(), body)?;
        Ok(ExprId(self.push(Node::Arrow {
            span,
            params,
            body,
            is_async,
        })?))
    }

    /// Where the body of an arrow function ends (ECMA-262, 15.3): an expression with its last token, a block where the
    /// hook has it.
    pub fn body_end(&self, body: &BlockStmtOrExpr<ExprId, K>) -> BytePos
        requires { Apart 0 self.now (body_parts body.now) }
        ensures { result ≡ body_end self.now body.now }
    {
        match body {
            BlockStmtOrExpr::BlockStmt(block) => block.span().hi,
            BlockStmtOrExpr::Expr(expr) => self.end(*expr),
        }
    }

    /// Whether an arrow function may have the parameters and the body: whether these are there, and lie apart, in this
    /// order.
    pub fn is_arrow_apart(&self, params: &Vec<PatId>, body: &BlockStmtOrExpr<ExprId, K>) -> bool
        ensures is { result ≡ true → Apart 0 self.now (pats_parts params.now ++ body_parts body.now) }
        ensures all { Apart 0 self.now (pats_parts params.now ++ body_parts body.now) → result ≡ true }
    {
        body.walk(self, params.walk(self, Some(0))).is_some()
    }
}
