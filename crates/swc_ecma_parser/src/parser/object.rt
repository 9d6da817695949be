// Keys, and the properties of object literals, as calls of a parser.
ghost use Rattle.std.specs.Option.{is_some};
ghost use Rattle.std.specs.Prelude.{◌≡◌, None, map, IfSome, OnOk};
ghost use Rattle.swc_ast.specs.{Patterns.holds_ident, Tree.trees, TreeOf.pat_prop_tree};
ghost use Rattle.swc_grammar.specs.Symbols.{Key, Prop};
ghost use Rattle.swc_nodes.specs.Commas.{Remembers};
ghost use Rattle.swc_input.specs.Recordings.{Judges};
ghost use Rattle.swc_patterns.specs.Objects.{is_rest, props_stage, rests_checked};
ghost use Rattle.swc_patterns.specs.RestFaults.{rest_at, rests_faults, rests_refused};
ghost use Rattle.swc_steps.specs.Parsing.{ContinuesAlone};
ghost use Rattle.swc_ecma_parser.specs.Calls.{buffer_of, nodes_of, commas_of, has_failed, standing, MakesObject, MakesPattern, Patterns};
ghost use Rattle.swc_ecma_parser.specs.Promise.{Promised, PromisedPatProp, key_in_boxes, key_by_number, prop_in_boxes};

use crate::parser::{Parser, PatOf};
use swc_ast::pat::{ObjectPatProp, Pat};
use swc_ast::prop::{PropName, PropOrSpread};
use swc_ast::spanned::Spanned;
use swc_bodies::bodies::{Bodies, BodyForms, ExprOf};
use swc_context::error::{Error, PResult};
use swc_context::span::Span;
use swc_input::buffer::Buffer;
use swc_input::tokens::Tokens;
use swc_nodes::node::ExprId;
use swc_patterns::object::{RestProp, check_earlier_rest, check_last_rest};
use swc_productions::args::parse_key;
use swc_productions::ring::{parse_object_pat_prop, parse_object_prop};
use swc_trees::making::object_lit;

/// What object literals and object patterns (ECMA-262, 13.2.5 and 14.3.3) are read as, a property at
/// a time.
pub trait ParseObject<Obj> {
    ghost use Rattle.std.specs.Prelude.{List, Option, Result};
    ghost use Rattle.swc_context.specs.{declared.error.Error.Error, declared.span.Span.Span};

    /// What is between the braces.
    type Prop;

    ghost makes: { Self → Span → List Self.Prop → Option Span → Result Obj Error → Self → Type 0 };

    ghost reads: { Self → Result Self.Prop Error → Self → Type 0 };

    /// The object of the properties, at the place. The place of a comma after the last is given too.
    fn make_object(
        &mut self,
        span: Span,
        props: Vec<Self::Prop>,
        trailing_comma: Option<Span>,
    ) -> PResult<Obj>
        ensures { makes self.old span props.items trailing_comma result self.new };

    /// A property.
    fn parse_object_prop(&mut self) -> PResult<Self::Prop>
        ensures { reads self.old result self.new };
}

impl<I: Tokens, B: Bodies<I>> Parser<I, B> {
    /// A property's key, as `parse_prop_name` reads it: an expression in it by its number among the nodes.
    pub fn parse_prop_name_id(&mut self) -> PResult<PropName<ExprId>>
        ensures promised { Promised I.model B.is_faithful B.forms key_by_number Key self.old result self.new }
    {
        let start = self.begin()?;
        let answer = parse_key(&mut self.productions, self.room);
        let answer = self.keep(start, answer);
        self.finish(answer)
    }

    /// A property's key (ECMA-262, 13.2.5): any word, a string, a number, a big integer, or an
    /// expression in brackets, in which `in` is an operator.
    ///
    /// Another token is refused as `Unexpected`, at that token, and the end as `Eof`, where the token
    /// consumed last ends; what follows the expression and is no `]` as `Expected`.
    pub fn parse_prop_name(&mut self) -> PResult<PropName<Box<ExprOf<B>>>>
        ensures promised { Promised I.model B.is_faithful B.forms key_in_boxes Key self.old result self.new }
    {
        let start = self.begin()?;
        let answer = parse_key(&mut self.productions, self.room);
        self.hand_out(start, answer)
    }
}

impl<I: Tokens, B: Bodies<I>> Parser<I, B> {
    /// An object literal of the properties, whose comma is remembered. Refused only when out of memory.
    fn make_literal(
        &mut self,
        span: Span,
        props: Vec<PropOrSpread<B::Fun, B::Class, B::Block>>,
        trailing_comma: Option<Span>,
    ) -> PResult<Box<ExprOf<B>>>
        ensures makes { MakesObject B.Fun.place B.Class.place B.Block.place span props.items
            (buffer_of self.old) result (buffer_of self.new) }
        ensures remembers { OnOk result
            (Remembers span.lo.0 trailing_comma (commas_of self.old) (commas_of self.new)) }
        ensures nodes { nodes_of self.new ≡ nodes_of self.old }
        ensures runs { standing self.new ≡ standing self.old }
    {
        match self.commas.remember(span.lo, trailing_comma) {
            Ok(()) => match object_lit(self.productions.alloc, span, props) {
                Ok(object) => Ok(object),
                Err(_) => Err(self.productions.input.out_of_memory()),
            },
            Err(_) => Err(self.productions.input.out_of_memory()),
        }
    }
}

impl<I: Tokens, B: Bodies<I>> ParseObject<Box<ExprOf<B>>> for Parser<I, B> {
    ghost use Rattle.swc_grammar.specs.Symbols.{Prop};
    ghost use Rattle.swc_ecma_parser.specs.{Calls.Makes, Promise.Promised, Promise.prop_in_boxes};

    type Prop = PropOrSpread<B::Fun, B::Class, B::Block>;

    ghost makes = { λ p span props comma. Makes span props comma p };

    ghost reads = { Promised I.model B.is_faithful B.forms prop_in_boxes Prop };

    /// An object literal of the properties. Nothing is recorded. The comma after the last is remembered at the
    /// literal's start, or that there is none (`Parser::trailing_comma`).
    fn make_object(
        &mut self,
        span: Span,
        props: Vec<PropOrSpread<B::Fun, B::Class, B::Block>>,
        trailing_comma: Option<Span>,
    ) -> PResult<Box<ExprOf<B>>>
        ensures { Makes span props.items trailing_comma self.old result self.new }
    {
        self.begin()?;
        let answer = self.make_literal(span, props, trailing_comma);
        self.finish(answer)
    }

    /// A property of an object literal (ECMA-262, 13.2.5 and 15.4), up to the `,` or `}` after it, which stays.
    fn parse_object_prop(&mut self) -> PResult<PropOrSpread<B::Fun, B::Class, B::Block>>
        ensures { Promised I.model B.is_faithful B.forms prop_in_boxes Prop self.old result self.new }
    {
        let start = self.begin()?;
        let answer = parse_object_prop(&mut self.productions, self.room);
        self.hand_out(start, answer)
    }
}

/// A property of an object pattern, over a hook's values.
pub type PatPropOf<B> = ObjectPatProp<
    <B as BodyForms>::Fun,
    <B as BodyForms>::Class,
    <B as BodyForms>::Block,
>;

/// The rest that a property is.
fn rest_of<F: Spanned, C: Spanned, K: Spanned>(prop: &ObjectPatProp<F, C, K>) -> Option<RestProp>
    ensures rest { is_some result ≡ is_rest (pat_prop_tree _ _ _ F.place C.place K.place prop.now) }
    ensures name { IfSome result
        (λ r. r.is_name ≡ holds_ident (pat_prop_tree _ _ _ F.place C.place K.place prop.now)) }
    ensures is { result ≡ rest_at (pat_prop_tree _ _ _ F.place C.place K.place prop.now) }
{
    match prop {
        ObjectPatProp::Rest(rest) => Some(RestProp {
            span: rest.span,
            is_name: matches!(&*rest.arg, Pat::Ident(_)),
        }),
        _ => None,
    }
}

/// Records and refuses the rests that aren't last, over an identifier, with no comma after them, in their order.
fn check_rests<I: Tokens, F: Spanned, C: Spanned, K: Spanned>(
    input: &mut Buffer<I>,
    props: &Vec<ObjectPatProp<F, C, K>>,
    trailing_comma: Option<Span>,
) -> PResult<()>
    ensures checks { ContinuesAlone I.model (λ u. u) (rests_checked (props_stage
        (trees (map (pat_prop_tree _ _ _ F.place C.place K.place) props.now.items)) trailing_comma))
        input.old result input.new }
    ensures judges { Judges I.model
        (rests_faults (trees (map (pat_prop_tree _ _ _ F.place C.place K.place) props.now.items)) trailing_comma)
        (rests_refused (trees (map (pat_prop_tree _ _ _ F.place C.place K.place) props.now.items)))
        input.old result input.new }
{
    let mut last = None;
    for prop in props {
        check_earlier_rest(input, last)?;
        last = rest_of(prop);
    }
    check_last_rest(input, last, trailing_comma)
}

impl<I: Tokens, B: Bodies<I>> Parser<I, B> {
    /// An object pattern of the properties, whose rests were checked, and at whose start no comma is remembered any
    /// more.
    fn make_pattern(
        &mut self,
        span: Span,
        props: Vec<PatPropOf<B>>,
        trailing_comma: Option<Span>,
    ) -> PResult<PatOf<B>>
        ensures makes { MakesPattern I.model B.Fun.place B.Class.place B.Block.place span props.items trailing_comma
            (buffer_of self.old) result (buffer_of self.new) }
        ensures remembers { OnOk result (Remembers span.lo.0 None (commas_of self.old) (commas_of self.new)) }
        ensures nodes { nodes_of self.new ≡ nodes_of self.old }
        ensures runs { standing self.new ≡ standing self.old }
    {
        match check_rests(&mut self.productions.input, &props, trailing_comma) {
            Ok(()) => match self.commas.remember(span.lo, None) {
                Ok(()) => Ok(Pat::Object { span, props }),
                Err(_) => Err(self.productions.input.out_of_memory()),
            },
            Err(error) => Err(error),
        }
    }
}

impl<I: Tokens, B: Bodies<I>> ParseObject<PatOf<B>> for Parser<I, B> {
    ghost use Rattle.swc_ecma_parser.specs.{Calls.Patterns, Promise.PromisedPatProp};

    type Prop = PatPropOf<B>;

    ghost makes = { λ p span props comma. Patterns I.model span props comma p };

    ghost reads = { PromisedPatProp I.model B.is_faithful B.forms };

    /// An object pattern of the properties (ECMA-262, 14.3.3). No comma is remembered at its start any more.
    ///
    /// A rest that another property is after is recorded as `NonLastRestParam`, at the rest. A last one over no
    /// identifier is refused as `DotsWithoutIdentifier`, at the rest, and what was given is dropped; the comma after
    /// one over an identifier is recorded as `CommaAfterRestElement`, at the comma.
    fn make_object(
        &mut self,
        span: Span,
        props: Vec<PatPropOf<B>>,
        trailing_comma: Option<Span>,
    ) -> PResult<PatOf<B>>
        ensures { Patterns I.model span props.items trailing_comma self.old result self.new }
    {
        self.begin()?;
        let answer = self.make_pattern(span, props, trailing_comma);
        self.finish(answer)
    }

    /// A property of an object pattern (BindingProperty; ECMA-262, 14.3.3), up to what is after it, which stays: a
    /// key and, after a `:`, a binding element; a name, which is bound, and, after a `=`, its initialiser or none; or
    /// `...` and a pattern (BindingRestProperty).
    ///
    /// Where a rest is among the properties, and that it is over an identifier, isn't looked at (`make_object`). A
    /// name that is bound without an initialiser and is reserved is recorded as `ReservedWordInObjShorthandOrPat`, at
    /// the name. After a key that is no name, what is no `:` is refused as `Unexpected`, at the current token, and the
    /// end as `Eof`, where the token consumed last ends; the key, the element, the initialiser and the pattern as
    /// `parse_prop_name`, `parse_binding_element`, `parse_assignment_expr` and `parse_pat` refuse them.
    fn parse_object_prop(&mut self) -> PResult<PatPropOf<B>>
        ensures { PromisedPatProp I.model B.is_faithful B.forms self.old result self.new }
    {
        let start = self.begin()?;
        let answer = parse_object_pat_prop(&mut self.productions, self.room);
        self.hand_out(start, answer)
    }
}
