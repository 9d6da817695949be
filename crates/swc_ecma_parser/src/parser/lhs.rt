// Left-hand sides, as calls of a parser.
ghost use Rattle.std.specs.Prelude.{true};
ghost use Rattle.swc_grammar.specs.Symbols.{Lhs};
ghost use Rattle.swc_ecma_parser.specs.Promise.{Promised, in_boxes, by_number};

use crate::parser::Parser;
use swc_bodies::bodies::{Bodies, ExprOf};
use swc_context::error::PResult;
use swc_input::tokens::Tokens;
use swc_nodes::node::ExprId;
use swc_productions::ring::parse_lhs_expr;

impl<I: Tokens, B: Bodies<I>> Parser<I, B> {
    /// A left-hand side, as `parse_lhs_expr` reads it: its number among the nodes, which keeps its tree until they are
    /// dropped.
    pub fn parse_lhs_expr_id(&mut self) -> PResult<ExprId>
        ensures promised { Promised I.model B.is_faithful B.forms by_number (Lhs true) self.old result self.new }
    {
        let start = self.begin()?;
        let answer = parse_lhs_expr(&mut self.productions, self.room);
        self.keep_checked(start, answer)
    }

    /// A left-hand side (LeftHandSideExpression; ECMA-262, 13.3), as the heritage of a class is one (15.7): a primary
    /// expression, `new`, `super` or `import`, with its links, as in `parse_unary_expr`. No prefix operator, no `++`
    /// and `--`, no binary operator and no arrow function is read.
    ///
    /// Is refused, and has faults recorded, as an operand of `parse_unary_expr` without a prefix operator. A tree that
    /// the grammar derives is answered (`complete`) before what is no link of it and no `=>`, as the `{` with which a
    /// class's body begins.
    pub fn parse_lhs_expr(&mut self) -> PResult<Box<ExprOf<B>>>
        ensures promised { Promised I.model B.is_faithful B.forms in_boxes (Lhs true) self.old result self.new }
    {
        let start = self.begin()?;
        let answer = parse_lhs_expr(&mut self.productions, self.room);
        self.move_out_checked(start, answer)
    }
}
