// The names of a text, as calls of a parser: each reads by the call of swc_ident that has its name.
ghost use Rattle.swc_ident.specs.Naming.{Identifies, Binds, Spells, SpellsPrivate, SpellsEither, Exports, BindsIfBindable};
ghost use Rattle.swc_ident.specs.Verdicts.{ident_verdict, reference_verdict, binding_verdict, name_of_any};
ghost use Rattle.swc_grammar.specs.Names.{Reference, Binding, Name, Private as private_kind, ReadsName};
ghost use Rattle.swc_steps.specs.Parsing.{ident_spelling, name_spelling, private_spelling, binding_spelling};
ghost use Rattle.swc_ecma_parser.specs.{Promise.RefersIfFree, Promise.PromisedName, Calls.Called, Calls.ReadsAName};

use crate::parser::Parser;
use either::Either;
use swc_ast::ident::{BindingIdent, Ident, IdentName, ModuleExportName, PrivateName};
use swc_bodies::bodies::Bodies;
use swc_context::error::PResult;
use swc_ident::ident;
use swc_input::tokens::Tokens;

impl<I: Tokens, B: Bodies<I>> Parser<I, B> {
    /// A private name at `#`, and any other name elsewhere (ECMA-262, 12.7). As
    /// `parse_private_name` and `parse_ident_name`.
    pub fn parse_maybe_private_name(&mut self) -> PResult<Either<PrivateName, IdentName>>
        ensures { Called (ReadsAName I.model (SpellsEither I.model)) self.old result self.new }
    {
        self.begin()?;
        let answer = ident::parse_maybe_private_name(
            self.productions.alloc,
            &mut self.productions.input,
        );
        self.finish(answer)
    }

    /// A private name: `#`, and a name that begins where it ends (PrivateIdentifier; ECMA-262, 12.7).
    ///
    /// A token that is no `#` is refused as `Expected`, at that token; a name that begins elsewhere
    /// as `SpaceBetweenHashAndIdent`, at the `#`.
    pub fn parse_private_name(&mut self) -> PResult<PrivateName>
        ensures { Called (PromisedName I.model (SpellsPrivate I.model)
            (ReadsName private_kind) private_kind private_spelling) self.old result self.new }
    {
        self.begin()?;
        let answer = ident::parse_private_name(self.productions.alloc, &mut self.productions.input);
        self.finish(answer)
    }

    /// An identifier that is an expression (IdentifierReference; ECMA-262, 13.1).
    ///
    /// As `parse_ident`, where `yield` is included outside generators, and `await` outside async code.
    pub fn parse_ident_ref(&mut self) -> PResult<Ident>
        ensures { Called (PromisedName I.model
            (Identifies I.model reference_verdict) RefersIfFree Reference ident_spelling) self.old result self.new }
    {
        self.begin()?;
        let answer = ident::parse_ident_ref(self.productions.alloc, &mut self.productions.input);
        self.finish(answer)
    }

    /// An identifier that is a label (LabelIdentifier; ECMA-262, 13.1). As `parse_ident_ref`.
    pub fn parse_label_ident(&mut self) -> PResult<Ident>
        ensures { Called (ReadsAName I.model (Identifies I.model reference_verdict)) self.old result self.new }
    {
        self.begin()?;
        let answer = ident::parse_label_ident(self.productions.alloc, &mut self.productions.input);
        self.finish(answer)
    }

    /// A name that may be any word, as after a dot (IdentifierName; ECMA-262, 12.7).
    ///
    /// A token that is no word is refused as `ExpectedIdent` at that token, and the end as `Eof`.
    pub fn parse_ident_name(&mut self) -> PResult<IdentName>
        ensures { Called (PromisedName I.model (Spells I.model name_of_any) (ReadsName Name) Name name_spelling)
            self.old result self.new }
    {
        self.begin()?;
        let answer = ident::parse_ident_name(self.productions.alloc, &mut self.productions.input);
        self.finish(answer)
    }

    /// A name under which a module exports something: a string, or any word (ModuleExportName; ECMA-262, 16.2).
    ///
    /// Another token is refused as `Unexpected`, at that token, and the end as `Eof`.
    pub fn parse_module_export_name(&mut self) -> PResult<ModuleExportName>
        ensures { Called (ReadsAName I.model (Exports I.model)) self.old result self.new }
    {
        self.begin()?;
        let answer = ident::parse_module_export_name(
            self.productions.alloc,
            &mut self.productions.input,
        );
        self.finish(answer)
    }

    /// An identifier, where `yield` and `await` are included or not (ECMA-262, 13.1).
    ///
    /// Which words are taken, with which faults, and which are refused, is the table
    /// `ident_verdict` of swc_ident: a fault and a refusal lie at the word, which is consumed. A
    /// token that is no word is refused as `ExpectedIdent` at that token, and the end as `Eof`.
    pub fn parse_ident(&mut self, incl_yield: bool, incl_await: bool) -> PResult<Ident>
        ensures { Called (ReadsAName I.model (Identifies I.model (ident_verdict incl_yield incl_await))) self.old result
            self.new }
    {
        self.begin()?;
        let answer = ident::parse_ident(
            self.productions.alloc,
            &mut self.productions.input,
            incl_yield,
            incl_await,
        );
        self.finish(answer)
    }

    /// An identifier that is bound (BindingIdentifier; ECMA-262, 13.1).
    ///
    /// As `parse_ident` with `yield` and `await` included. What strict code doesn't bind is a fault
    /// of modules (`EvalAndArgumentsInStrict`), and `yield` in a generator is recorded
    /// (`ExpectedIdent`).
    pub fn parse_binding_ident(&mut self) -> PResult<BindingIdent>
        ensures { Called (PromisedName I.model (Binds I.model binding_verdict)
            (ReadsName Binding) Binding binding_spelling) self.old result self.new }
    {
        self.begin()?;
        let answer = ident::parse_binding_ident(
            self.productions.alloc,
            &mut self.productions.input,
        );
        self.finish(answer)
    }

    /// An identifier that is bound, if a word is current that isn't reserved (ECMA-262, 13.1).
    /// Before anything else `None`, and nothing is consumed.
    pub fn parse_opt_binding_ident(&mut self) -> PResult<Option<BindingIdent>>
        ensures { Called (ReadsAName I.model (BindsIfBindable I.model)) self.old result self.new }
    {
        self.begin()?;
        let answer = ident::parse_opt_binding_ident(
            self.productions.alloc,
            &mut self.productions.input,
        );
        self.finish(answer)
    }
}
