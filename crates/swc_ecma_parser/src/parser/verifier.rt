// Names with values that are left over in finished expressions, as a call of a parser.
ghost use Rattle.std.specs.Prelude.{◌≡◌};
ghost use Rattle.swc_nodes.specs.GrowingNodes.{tree_at, From, Grows};
ghost use Rattle.swc_nodes.specs.NodeParts.{expr_part};
ghost use Rattle.swc_ecma_parser.specs.{CoverNames.cover_names, Faults.cover_faults};
ghost use Rattle.swc_ecma_parser.specs.Calls.{buffer_of, nodes_of, commas_of, has_failed, standing, tree_by, with_buffer};
ghost use Rattle.swc_ecma_parser.specs.Verification.{LooksThrough, TriesFaults, VerifiesExpr};

use crate::parser::Parser;
use crate::verifier::{find_cover_names, record_cover_names};
use swc_bodies::bodies::{Bodies, ExprOf};
use swc_context::error::PResult;
use swc_input::tokens::Tokens;
use swc_nodes::node::ExprId;
use swc_trees::putting::put_expr;

impl<I: Tokens, B: Bodies<I>> Parser<I, B> {
    /// Checks that a finished expression has no property `name = value` left over in an object literal (ECMA-262,
    /// 13.2.5.1), and answers the expression as it was given. Such a property is grammar for patterns alone, as in
    /// `[{a = 1}] = b`. Each one is recorded as `AssignProperty`, at the property's place in bytes, in the order of the
    /// source; `parse_expr` doesn't do it where the syntax isn't pedantic, but for a literal in parentheses
    /// by itself.
    ///
    /// Looked through are all parts of the expression, keys, parameters of methods and patterns too; but no arrow
    /// function, neither its parameters nor its body, nor what the hook has read: functions, classes and blocks. The
    /// value of a property that is recorded is not looked through for further ones.
    ///
    /// Nothing is read, but for an error token that is current where a fault is recorded: its error is recorded before
    /// the fault, and it is consumed. Where the context ignores errors, or early errors are off, nothing is recorded.
    /// A call is refused only when out of memory, as `OutOfMemory` at the end of the token consumed last, or after that
    /// as `ParserFailed` at the token consumed last; it then drops the expression.
    pub fn verify_expr(&mut self, expr: Box<ExprOf<B>>) -> PResult<Box<ExprOf<B>>>
        ensures { VerifiesExpr I.model expr self.old result self.new }
    {
        let start = self.begin()?;
        let answer = self.look_through(expr);
        let answer = self.lift_out(start, answer);
        self.finish(answer)
    }

    /// Puts the expression after all nodes, and records the names that are left over in it.
    fn look_through(&mut self, expr: Box<ExprOf<B>>) -> PResult<ExprId>
        ensures looks { LooksThrough I.model (tree_by B.Fun.place B.Class.place B.Block.place expr)
            self.old result self.new }
        ensures grows { Grows (nodes_of self.old) (nodes_of self.new) }
        ensures commas { commas_of self.new ≡ commas_of self.old }
        ensures runs { standing self.new ≡ standing self.old }
    {
        match put_expr(&mut self.productions.nodes, self.productions.alloc, expr) {
            Ok(id) => {
                self.record_names(id)?;
                Ok(id)
            }
            Err(_) => Err(self.productions.input.out_of_memory()),
        }
    }

    /// Records the names that are left over in an expression among the nodes.
    fn record_names(&mut self, id: ExprId) -> PResult<()>
        requires { From 0 (nodes_of self.old) (expr_part id) }
        ensures tries { TriesFaults I.model (cover_faults (cover_names (tree_at (nodes_of self.old) id.0)))
            (buffer_of self.old) result (buffer_of self.new) }
        ensures rest { self.new ≡ with_buffer (buffer_of self.new) self.old }
    {
        match find_cover_names(&self.productions.nodes, id) {
            Ok(names) => record_cover_names(&mut self.productions.input, &names),
            Err(_) => Err(self.productions.input.out_of_memory()),
        }
    }
}
