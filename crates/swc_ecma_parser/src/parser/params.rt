// Formal parameters, and those of arrow functions, as calls of a parser.
ghost use Rattle.std.specs.Prelude.{◌≡◌, false};
ghost use Rattle.swc_ast.specs.TreeOf.{pat_tree};
ghost use Rattle.swc_grammar.specs.Symbols.{ArrowParams};
ghost use Rattle.swc_steps.specs.Params.{pat_at};
ghost use Rattle.swc_ecma_parser.specs.Calls.{buffer_of, nodes_of, has_failed, pats_tree};
ghost use Rattle.swc_ecma_parser.specs.Promise.{BoundItems, Promised, PromisedParams, arrow_params_in_boxes, arrow_params_by_number, params_in_boxes, params_by_number};

use crate::arrow_params::parse_arrow_params;
use crate::parser::{Parser, PatOf};
use swc_ast::function::Param;
use swc_bodies::bodies::Bodies;
use swc_context::error::PResult;
use swc_input::tokens::Tokens;
use swc_nodes::node::PatId;
use swc_productions::ring::parse_formal_params;

impl<I: Tokens, B: Bodies<I>> Parser<I, B> {
    /// Parameters none of which is there twice (UniqueFormalParameters; ECMA-262, 15.1). As `parse_formal_params`: that
    /// a name is bound twice isn't looked at.
    pub fn parse_unique_formal_params(&mut self) -> PResult<Vec<Param<PatOf<B>>>>
        ensures { PromisedParams I.model B.is_faithful B.forms params_in_boxes self.old result self.new }
    {
        self.parse_formal_params()
    }

    /// Formal parameters (ECMA-262, 15.1): binding elements, as `parse_binding_element` reads them, with commas between
    /// them, and the last one may be a rest, over a pattern. A comma may come after the last one. They end before
    /// `)`, which stays, or at the end where a parameter could begin.
    ///
    /// A rest that another parameter is after is recorded as `TS1014`, at the rest, once for each that does. The
    /// initialiser of a rest is recorded as `TS1048`, at the pattern after the dots, and the comma after a last rest
    /// as `CommaAfterRestElement`, at the comma. What follows a parameter and is neither `,` nor `)` is refused as
    /// `Expected`, at the current token, and the end there as `Eof`, where the token consumed last ends.
    pub fn parse_formal_params(&mut self) -> PResult<Vec<Param<PatOf<B>>>>
        ensures { PromisedParams I.model B.is_faithful B.forms params_in_boxes self.old result self.new }
    {
        let start = self.begin()?;
        let answer = parse_formal_params(&mut self.productions, self.room);
        self.move_out_checked(start, answer)
    }

    /// Formal parameters, as `parse_formal_params` reads them: each with the number of its pattern among the nodes.
    pub fn parse_formal_params_id(&mut self) -> PResult<Vec<Param<PatId>>>
        ensures { PromisedParams I.model B.is_faithful B.forms params_by_number self.old result self.new }
    {
        let start = self.begin()?;
        let answer = parse_formal_params(&mut self.productions, self.room);
        self.keep_checked(start, answer)
    }

    /// The parameters of an arrow function, as `parse_arrow_params` reads them: the numbers of their patterns among the
    /// nodes.
    pub fn parse_arrow_params_id(&mut self) -> PResult<Vec<PatId>>
        ensures promised { Promised I.model B.is_faithful B.forms arrow_params_by_number ArrowParams
            self.old result self.new }
        ensures binds { has_failed self.old ≡ false
            → BoundItems I.model (pats_tree (pat_at (nodes_of self.new)))
            (buffer_of self.old) result (buffer_of self.new) }
    {
        let start = self.begin()?;
        let answer = parse_arrow_params(&mut self.productions, self.room);
        self.keep_checked(start, answer)
    }

    /// The parameters of an arrow function, from `(` through the `)` that closes them (ArrowFormalParameters; ECMA-262,
    /// 15.3), as their cover grammar has them (13.2.9): a list in parentheses as `parse_args_or_pats` reads it, in
    /// which `in` is an operator, and the parameters that `parse_paren_items_as_params` makes of it. The rest of a list
    /// has the place of what is after its dots. After the last parameter, but a rest, a comma may come; the
    /// comma isn't remembered. That a name is bound twice isn't looked at, nor is what follows the `)`.
    ///
    /// What is no `(` where they begin is refused as `Expected`, at the current token, and so is what follows an item
    /// and is neither `,` nor `)`; the end as `Eof`, where the token consumed last ends. A refusal after `...` is
    /// labelled with the place of the dots (`WithLabel`). Once its `)` was consumed, the list has the faults that
    /// `parse_paren_items_as_params` records: what is no pattern is recorded as `InvalidPat`, at its place, and
    /// `Invalid` stands in for it; a spread that isn't the last as `TS1014`, at the spread, and it is dropped; the
    /// comma after a last one as `CommaAfterRestElement`, at the comma, and an initialiser in it as `TS1048`, at the
    /// spread; and in strict code `eval` and `arguments`, where they are bound, as `EvalAndArgumentsInStrict`, at the
    /// word: in modules that is recorded, and it waits elsewhere. Parts of patterns have the faults that
    /// `reparse_expr_as_pat` records of a `BindingElement`; a method, a getter or a setter in one is refused as
    /// `InvalidPat`, at the property.
    pub fn parse_arrow_params(&mut self) -> PResult<Vec<PatOf<B>>>
        ensures promised { Promised I.model B.is_faithful B.forms arrow_params_in_boxes ArrowParams
            self.old result self.new }
        ensures binds { has_failed self.old ≡ false
            → BoundItems I.model (pats_tree (pat_tree _ _ _ B.Fun.place B.Class.place B.Block.place))
            (buffer_of self.old) result (buffer_of self.new) }
    {
        let start = self.begin()?;
        let answer = parse_arrow_params(&mut self.productions, self.room);
        self.move_out_checked(start, answer)
    }
}
