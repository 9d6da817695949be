// Binding patterns, as calls of a parser.
ghost use Rattle.std.specs.Prelude.{◌≡◌, false};
ghost use Rattle.swc_ast.specs.TreeOf.{pat_tree};
ghost use Rattle.swc_grammar.specs.Symbols.{Pat, Element};
ghost use Rattle.swc_steps.specs.Params.{pat_at};
ghost use Rattle.swc_ecma_parser.specs.Calls.{buffer_of, nodes_of, has_failed};
ghost use Rattle.swc_ecma_parser.specs.Promise.{Promised, Bound, pat_in_boxes, pat_by_number};

use crate::parser::{Parser, PatOf};
use swc_bodies::bodies::Bodies;
use swc_context::error::PResult;
use swc_input::tokens::Tokens;
use swc_nodes::node::PatId;
use swc_productions::ring::{parse_binding_element, parse_pat};

impl<I: Tokens, B: Bodies<I>> Parser<I, B> {
    /// A binding pattern, as `parse_pat` reads it: its number among the nodes, which keeps its tree until they are let
    /// go.
    ///
    /// The nodes that were made are appended to those that there were. After a refusal the nodes are those from
    /// before.
    pub fn parse_pat_id(&mut self) -> PResult<PatId>
        ensures promised { Promised I.model B.is_faithful B.forms pat_by_number Pat self.old result self.new }
        ensures binds { has_failed self.old ≡ false
            → Bound I.model (pat_at (nodes_of self.new)) (buffer_of self.old) result (buffer_of self.new) }
    {
        let start = self.begin()?;
        let answer = parse_pat(&mut self.productions, self.room);
        self.keep_checked(start, answer)
    }

    /// A binding pattern (ECMA-262, 14.3.3): an identifier that is bound (13.1), or an array or object pattern.
    ///
    /// The elements of an array pattern have commas between them; each is a binding element, as
    /// `parse_binding_element` reads it, or a hole, and the last one may be a rest, over a pattern. An object pattern
    /// has properties, as `parse_object_prop` reads them, with commas between them, and the last one may be a rest,
    /// over an identifier. After the last one of either a comma may come, if it is no rest.
    ///
    /// Another token than a word, `[` and `{` is refused as `Unexpected`, at that token, and the end as `Eof`, where
    /// the token consumed last ends; a word as `parse_binding_ident` refuses it, and has the faults that it has there.
    /// A rest of an array pattern is recorded as `NonLastRestParam`, at the rest, for each element after it, and the
    /// comma after a last one as `CommaAfterRestElement`, at the comma. The rests of an object pattern are recorded
    /// and refused as `make_object` does it, once its brace was read. What follows an element and is neither `,` nor
    /// `]`, and what follows a property and is neither `,` nor `}`, is refused as `Expected`, at the current token, and
    /// the end there as `Eof`.
    pub fn parse_pat(&mut self) -> PResult<PatOf<B>>
        ensures promised { Promised I.model B.is_faithful B.forms pat_in_boxes Pat self.old result self.new }
        ensures binds { has_failed self.old ≡ false
            → Bound I.model (pat_tree _ _ _ B.Fun.place B.Class.place B.Block.place)
            (buffer_of self.old) result (buffer_of self.new) }
    {
        let start = self.begin()?;
        let answer = parse_pat(&mut self.productions, self.room);
        self.move_out_checked(start, answer)
    }

    /// A binding pattern (ECMA-262, 14.3.3), as `parse_pat` reads it.
    pub fn parse_binding_pat_or_ident(&mut self) -> PResult<PatOf<B>>
        ensures promised { Promised I.model B.is_faithful B.forms pat_in_boxes Pat self.old result self.new }
        ensures binds { has_failed self.old ≡ false
            → Bound I.model (pat_tree _ _ _ B.Fun.place B.Class.place B.Block.place)
            (buffer_of self.old) result (buffer_of self.new) }
    {
        self.parse_pat()
    }

    /// A binding element, as `parse_binding_element` reads it: its number among the nodes, which keeps its tree until
    /// they are dropped.
    pub fn parse_binding_element_id(&mut self) -> PResult<PatId>
        ensures promised { Promised I.model B.is_faithful B.forms pat_by_number Element self.old result self.new }
        ensures binds { has_failed self.old ≡ false
            → Bound I.model (pat_at (nodes_of self.new)) (buffer_of self.old) result (buffer_of self.new) }
    {
        let start = self.begin()?;
        let answer = parse_binding_element(&mut self.productions, self.room);
        self.keep_checked(start, answer)
    }

    /// A binding pattern, and `=` and its initialiser after it or none (BindingElement; ECMA-262, 14.3.3): an
    /// assignment expression, in which `in` is an operator.
    ///
    /// The pattern is refused, and has faults recorded, as `parse_pat` does it, the initialiser as
    /// `parse_assignment_expr`.
    pub fn parse_binding_element(&mut self) -> PResult<PatOf<B>>
        ensures promised { Promised I.model B.is_faithful B.forms pat_in_boxes Element self.old result self.new }
        ensures binds { has_failed self.old ≡ false
            → Bound I.model (pat_tree _ _ _ B.Fun.place B.Class.place B.Block.place)
            (buffer_of self.old) result (buffer_of self.new) }
    {
        let start = self.begin()?;
        let answer = parse_binding_element(&mut self.productions, self.room);
        self.move_out_checked(start, answer)
    }
}
