// Finished expressions become patterns, as calls of a parser.
ghost use Rattle.std.specs.Prelude.{◌≡◌, IfOk};
ghost use Rattle.swc_ast.specs.Trees.{is_valid, are_valid};
ghost use Rattle.swc_cover.specs.{Faults.params_verdict, Items.want_items, Noting.JudgesBy, Noting.JudgesParams, PatTypes.want_as, Refining.pats_at};
ghost use Rattle.swc_nodes.specs.{Lists.pats_parts, GrowingNodes.count, GrowingNodes.first_at, GrowingNodes.Apart, GrowingNodes.CutTo, GrowingNodes.From};
ghost use Rattle.swc_nodes.specs.NodeParts.{expr_part, one_pat, pat_part};
ghost use Rattle.swc_steps.specs.Params.{pat_at};
ghost use Rattle.swc_ecma_parser.specs.Calls.{buffer_of, nodes_of, commas_of, has_failed, standing, tree_by, MovesOut};
ghost use Rattle.swc_ecma_parser.specs.Refinement.{boxed_items, marked_expr, marked_items, params_of, pattern_of, names_of, verdict_of, Recasts, RefinesExpr, RefinesItems, RefinesNumber};

use crate::parser::{Parser, PatOf};
use crate::taking::Take;
use swc_ast::expr::ExprOrSpread;
use swc_bodies::bodies::{Bodies, ExprOf};
use swc_context::error::PResult;
use swc_context::span::Span;
use swc_cover::pat_type::PatType;
use swc_cover::refining::{parse_paren_items_as_params, reparse_expr_as_pat};
use swc_input::tokens::Tokens;
use swc_nodes::node::{ExprId, PatId};
use swc_trees::putting::{put_args, put_expr};

/// Expressions in boxes, as items of a list in parentheses, over a hook's values.
pub type ItemsOf<B> = Vec<ExprOrSpread<Box<ExprOf<B>>>>;

impl<I: Tokens, B: Bodies<I>> Parser<I, B> {
    /// A finished expression as a pattern: one that binds (`BindingPat`), or what is written to by `=` (`AssignPat`;
    /// ECMA-262, 13.15.5), or a part of such a pattern (`BindingElement`, `AssignElement`). The commas that are
    /// remembered where its literals begin (`trailing_comma`) count as theirs, and stay remembered. Nothing is read. A
    /// call that is refused drops the expression.
    ///
    /// As `AssignPat`, what is neither an array nor an object literal stays what it is (`Pat::Expr`; an identifier is
    /// one), with `TS2406` recorded unless it is a valid simple target. Else an identifier, an array or object literal
    /// and an assignment by `=` become the pattern of that form, and their parts, outside initialisers and keys, parts
    /// of that pattern; as `AssignElement`, what may be written to as it is stays what it is. Other expressions
    /// have `NotSimpleAssign` recorded as `AssignElement`, if they are of the forms of 13.3 that can't be written to,
    /// and `InvalidPat` otherwise, and `Invalid` stands in for them; but a method, a getter or a setter is refused as
    /// `InvalidPat`. `Invalid` stays, and has no fault recorded.
    ///
    /// Holes after the last element of an array are dropped. A spread becomes a rest. One that isn't the last is
    /// recorded as `NonLastRestParam`, and in an array it is dropped; the comma after a last one is recorded as
    /// `CommaAfterRestElement`, at the comma, and an initialiser in it as `TS1048`. In a pattern that binds the rest of
    /// an object over anything but an identifier is recorded as `DotsWithoutIdentifier`, and holds `Invalid`. Where a
    /// pattern is on the left of an assignment already, it is looked at again as one that binds: what is written to in
    /// it is recorded as `InvalidPat`, and rests of objects as above.
    ///
    /// The call takes stack by how deeply the expression is nested. An expression that this parser read is no deeper
    /// than its bound (`limit_nesting`). One that a caller built may be.
    pub fn reparse_expr_as_pat(
        &mut self,
        pat_type: PatType,
        expr: Box<ExprOf<B>>,
    ) -> PResult<PatOf<B>>
        ensures { RefinesExpr I.model pat_type expr self.old result self.new }
    {
        let start = self.begin()?;
        let answer = self.recast_expr(pat_type, expr);
        let answer = self.lift_out(start, answer);
        self.finish(answer)
    }

    /// As `reparse_expr_as_pat`, of an expression by its number, as `parse_expr_id` returns it. Its nodes become those
    /// of the pattern, in place: the number that is returned takes the place of the expression's. Nodes below all nodes
    /// of the expression stay, with their numbers (ECMA-262, 13.15.5). Commas are those of the nodes; what is
    /// remembered of them (`trailing_comma`) stays.
    ///
    /// The expression and its parts have to be among the nodes: no node of theirs was moved out or dropped since. After
    /// a call that is refused, the number has no expression any more.
    pub fn reparse_expr_as_pat_id(&mut self, pat_type: PatType, id: ExprId) -> PResult<PatId>
        requires { From 0 (nodes_of self.old) (expr_part id) }
        ensures promised { RefinesNumber I.model pat_type id self.old result self.new }
        ensures placed { IfOk result
            (λ pat. From (first_at (nodes_of self.old) id.0) (nodes_of self.new) (pat_part pat)) }
    {
        self.begin()?;
        let answer = reparse_expr_as_pat(&mut self.productions, pat_type, id);
        self.finish(answer)
    }

    /// The items of a list in parentheses (`parse_args_or_pats`), with the place of the comma after the last one or
    /// none, as the parameters of an arrow function (ECMA-262, 15.3): each as `reparse_expr_as_pat` has it of a
    /// `BindingElement`. Nothing is read. A call that is refused drops the items.
    ///
    /// A spread becomes a rest. One that isn't the last is recorded as `TS1014`, and dropped; the comma after a last
    /// one is recorded as `CommaAfterRestElement`, at the comma, and an initialiser in it as `TS1048`. In strict code
    /// `eval` and `arguments`, where they are bound, are recorded as `EvalAndArgumentsInStrict` in modules, and wait
    /// elsewhere. The call takes stack by how deeply the items are nested, as `reparse_expr_as_pat` does.
    pub fn parse_paren_items_as_params(
        &mut self,
        items: ItemsOf<B>,
        trailing_comma: Option<Span>,
    ) -> PResult<Vec<PatOf<B>>>
        ensures { RefinesItems I.model items.items trailing_comma self.old result self.new }
    {
        let start = self.begin()?;
        let answer = self.recast_items(items, trailing_comma);
        let answer = self.lift_out(start, answer);
        self.finish(answer)
    }

    /// Moves the answer out of the nodes, and cuts off those that were made for it. What is remembered of commas stays.
    pub(super) fn lift_out<T: Take<B::Fun, B::Class, B::Block> + Drop>(
        &mut self,
        start: usize,
        answer: PResult<T>,
    ) -> PResult<T::Whole>
        requires { IfOk answer (λ x. Apart start (nodes_of self.old) (T.parts x)) }
        ensures moved { MovesOut T.by T.tree self.old answer result }
        ensures commas { commas_of self.new ≡ commas_of self.old }
        ensures nodes { CutTo start (nodes_of self.old) (nodes_of self.new) }
        ensures buffer { buffer_of self.new ≡ buffer_of self.old }
        ensures runs { standing self.new ≡ standing self.old }
    {
        match answer {
            Ok(numbers) => {
                let whole = numbers.take(&mut self.productions.nodes, self.productions.alloc);
                self.productions.nodes.cut(start);
                match whole {
                    Ok(whole) => Ok(whole),
                    Err(_) => Err(self.productions.input.out_of_memory()),
                }
            }
            Err(error) => {
                self.productions.nodes.cut(start);
                Err(error)
            }
        }
    }

    /// Puts the expression after all nodes, and makes a pattern of it.
    fn recast_expr(&mut self, pat_type: PatType, expr: Box<ExprOf<B>>) -> PResult<PatId>
        ensures recasts { Recasts I.model (is_valid (tree_by B.Fun.place B.Class.place B.Block.place expr))
            (pattern_of I.model pat_type expr self.old) (want_as pat_type (marked_expr self.old expr))
            pat_at one_pat (count (nodes_of self.old)) self.old result self.new }
        ensures judges { JudgesBy I.model (verdict_of I.model pat_type expr self.old)
            (buffer_of self.old) result (buffer_of self.new) }
        ensures commas { commas_of self.new ≡ commas_of self.old }
        ensures runs { standing self.new ≡ standing self.old }
    {
        let start = self.productions.nodes.len();
        match put_expr(&mut self.productions.nodes, self.productions.alloc, expr) {
            Ok(id) => {
                self.commas.mark(&mut self.productions.nodes, start);
                reparse_expr_as_pat(&mut self.productions, pat_type, id)
            }
            Err(_) => Err(self.productions.input.out_of_memory()),
        }
    }

    /// Puts the items after all nodes, and makes parameters of them.
    fn recast_items(
        &mut self,
        items: ItemsOf<B>,
        trailing_comma: Option<Span>,
    ) -> PResult<Vec<PatId>>
        ensures recasts { Recasts I.model (are_valid (boxed_items B.Fun.place B.Class.place B.Block.place items.items))
            (params_of I.model items.items trailing_comma self.old) (want_items (marked_items self.old items.items))
            (λ ns v. pats_at ns v.items) pats_parts (count (nodes_of self.old)) self.old result self.new }
        ensures judges { JudgesParams I.model (params_verdict trailing_comma (marked_items self.old items.items))
            (names_of I.model items.items self.old) (buffer_of self.old) result (buffer_of self.new) }
        ensures commas { commas_of self.new ≡ commas_of self.old }
        ensures runs { standing self.new ≡ standing self.old }
    {
        let start = self.productions.nodes.len();
        match put_args(&mut self.productions.nodes, self.productions.alloc, items) {
            Ok(items) => {
                self.commas.mark(&mut self.productions.nodes, start);
                parse_paren_items_as_params(&mut self.productions, &items, trailing_comma)
            }
            Err(_) => Err(self.productions.input.out_of_memory()),
        }
    }
}
