// Heads of `for`, as calls of a parser.
ghost use Rattle.swc_ecma_parser.specs.ForHeads.{PromisedHead, PromisedPrefix, head_in_boxes, head_by_number};

use crate::for_heads::{parse_for_head, parse_head_expr};
use crate::parser::{ForHeadOf, Parser};
use swc_bodies::bodies::{Bodies, ExprOf};
use swc_context::error::PResult;
use swc_input::tokens::Tokens;
use swc_nodes::node::ForHeadId;

impl<I: Tokens, B: Bodies<I>> Parser<I, B> {
    /// What the head of a `for` begins with, where that is no declaration (ECMA-262, 14.7.4 and 14.7.5): an
    /// expression, as `parse_expr` reads it, but that `in` is no operator outside brackets, and that `async` before
    /// `of`, where no `=>` is after that, is an identifier: it is recorded as `TS1106`, at `async`, unless the
    /// context says that the head is one of `for await` (`for_await_loop_init`). The context is put back. `let` at the
    /// start is an identifier.
    ///
    /// Is refused, and has faults recorded, as `parse_expr`.
    pub fn parse_for_head_prefix(&mut self) -> PResult<Box<ExprOf<B>>>
        ensures { PromisedPrefix I.model B.is_faithful B.forms self.old result self.new }
    {
        let start = self.begin()?;
        let ctx = self.productions.get_ctx();
        let answer = parse_head_expr(
            &mut self.productions,
            self.room,
            ctx.expr_ctx.for_await_loop_init,
        );
        self.move_out_checked(start, answer)
    }

    /// What the head of a `for` begins with, as `parse_for_head` reads it: by its number among the nodes, which keeps
    /// its tree until they are dropped.
    pub fn parse_for_head_id(&mut self, is_await: bool) -> PResult<ForHeadId>
        ensures { PromisedHead I.model B.is_faithful B.forms head_by_number is_await self.old result self.new }
    {
        let start = self.begin()?;
        let answer = parse_for_head(&mut self.productions, self.room, is_await);
        self.keep_checked(start, answer)
    }

    /// What the head of a `for`, or of a `for await`, begins with, where that is no declaration (ECMA-262, 14.7.4 and
    /// 14.7.5): the expression that `parse_for_head_prefix` reads in a head of that kind, whatever the context says.
    /// Where `of` or `in` is current after it, it becomes a pattern that each turn assigns to, as
    /// `reparse_expr_as_pat` makes an `AssignPat`: `ForHead::Target`. Elsewhere it stays what it is: `ForHead::Expr`.
    /// The word isn't consumed. The context is put back. `let` at the start is an identifier.
    ///
    /// Is refused, and has faults recorded, as `parse_expr`; and before `of` or `in` as `reparse_expr_as_pat`: what is
    /// neither an array nor an object literal and can't be written to is recorded as `TS2406`, at its place, and stays
    /// what it is (`Pat::Expr`).
    pub fn parse_for_head(&mut self, is_await: bool) -> PResult<ForHeadOf<B>>
        ensures { PromisedHead I.model B.is_faithful B.forms head_in_boxes is_await self.old result self.new }
    {
        let start = self.begin()?;
        let answer = parse_for_head(&mut self.productions, self.room, is_await);
        self.move_out_checked(start, answer)
    }
}
