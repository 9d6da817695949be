// Arguments and templates, as calls of a parser.
ghost use Rattle.std.specs.Prelude.{◌≡◌, false, Ok, Err, IfOk, MatchResult};
ghost use Rattle.swc_grammar.specs.Symbols.{Arguments, Template};
ghost use Rattle.swc_ecma_parser.specs.Promise.{Promised, args_in_boxes, list_in_boxes, tpl_in_boxes};

use crate::parser::Parser;
use swc_ast::expr::{ExprOrSpread, Tpl};
use swc_bodies::bodies::{Bodies, ExprOf};
use swc_context::error::PResult;
use swc_context::span::Span;
use swc_input::tokens::Tokens;
use swc_nodes::node::ExprId;
use swc_productions::args::{parse_arguments, parse_template};
use swc_steps::tokens::Listed;

/// A list in parentheses, over a hook's values, and the place of the comma after its last item.
pub type ArgsOrPatsOf<B> = (Vec<ExprOrSpread<Box<ExprOf<B>>>>, Option<Span>);

impl<I: Tokens, B: Bodies<I>> Parser<I, B> {
    /// Arguments (ECMA-262, 13.3.8), from `(` through the `)` that closes them: expressions, and spreads, in which
    /// `in` is an operator. A comma may come after the last one, and isn't remembered. With `is_dynamic_import` they
    /// are those of `import` (13.3.10): how many there are isn't looked at, unless the syntax is pedantic. Then others
    /// than one, or with import attributes one or two, none of them a spread, are recorded as `ImportArguments`, from
    /// the `(` through the `)`.
    ///
    /// What is no `(` where they begin is refused as `Expected`, at the current token, and so is what follows an
    /// argument and is neither `,` nor `)`; the end as `Eof`, where the token consumed last ends. A refusal after
    /// `...` is labelled with the place of the dots (`WithLabel`). The last comma of the arguments of `import` is
    /// refused as `TrailingCommaInsideImport`, from the `(` through the comma, where the syntax has no import
    /// attributes.
    pub fn parse_args(
        &mut self,
        is_dynamic_import: bool,
    ) -> PResult<Vec<ExprOrSpread<Box<ExprOf<B>>>>>
        ensures promised { Promised I.model B.is_faithful B.forms args_in_boxes (Arguments is_dynamic_import)
            self.old result self.new }
    {
        let start = self.begin()?;
        let answer = parse_arguments(&mut self.productions, self.room, is_dynamic_import);
        self.move_out_checked(start, answer)
    }

    /// A list in parentheses, from `(` through the `)` that closes it, with the place of a comma after the last item:
    /// expressions, and spreads, in which `in` is an operator. It is read as arguments are, and is what parameters of
    /// an arrow function, an expression in parentheses (ECMA-262, 13.2.9) and arguments of a call of `async` have in
    /// common; none of what these forbid is looked at.
    ///
    /// It refuses what `parse_args` does.
    pub fn parse_args_or_pats(&mut self) -> PResult<ArgsOrPatsOf<B>>
        ensures promised { Promised I.model B.is_faithful B.forms list_in_boxes (Arguments false)
            self.old result self.new }
    {
        let start = self.begin()?;
        let answer = parse_arguments(&mut self.productions, self.room, false);
        let comma = last_comma(&answer);
        let answer = self.move_out(start, answer);
        let answer = with_comma(answer, comma);
        self.finish(answer)
    }

    /// A template (ECMA-262, 13.2.8), from its backquote through the one that closes it: texts, and between each two
    /// of them an expression in `${` and `}`, in which `in` is an operator. Where it `is_tagged` (13.3.11), a text may
    /// have a bad escape: `cooked` is none then.
    ///
    /// What is no backquote where it begins is refused as `Expected`, at the current token, and so is what follows an
    /// expression and is no `}`; what follows a text and is neither `${` nor a backquote too; what is no text where
    /// one is wanted as `Unexpected`; the end as `Eof`, where the token consumed last ends. Where it isn't tagged, a
    /// bad escape is refused by the error that its text has, at that error's place, once the text was consumed.
    pub fn parse_tpl(&mut self, is_tagged: bool) -> PResult<Tpl<Box<ExprOf<B>>>>
        ensures promised { Promised I.model B.is_faithful B.forms tpl_in_boxes (Template is_tagged)
            self.old result self.new }
    {
        let start = self.begin()?;
        let answer = parse_template(&mut self.productions, self.room, is_tagged);
        self.hand_out(start, answer)
    }
}

/// The place of the comma after the last item of a list that was read.
fn last_comma(answer: &PResult<Listed<ExprOrSpread<ExprId>>>) -> Option<Span>
    ensures { IfOk answer.now (λ l. result ≡ l.trailing_comma) }
{
    match answer {
        Ok(list) => list.trailing_comma,
        Err(_) => None,
    }
}

/// A list, with the place of a comma beside it.
fn with_comma<T>(answer: PResult<T>, comma: Option<Span>) -> PResult<(T, Option<Span>)>
    ensures { MatchResult answer (λ t. result ≡ Ok (t, comma)) (λ e. result ≡ Err e) }
{
    match answer {
        Ok(list) => Ok((list, comma)),
        Err(error) => Err(error),
    }
}
