// The tokens of a function, a class or a block.
use std::alloc::Global;
use std::marker::Model;
use swc_ast::spanned::Spanned;
use swc_context::span::Span;
use swc_input::token::TokenAndSpan;

/// A function, a class or a block, as the tokens that were kept of it. Contracts see the tokens as `plain`.
#[derive(Drop)]
pub struct TokenBody {
    /// The place, from where the first token that was taken begins to where the last one ends, as they are.
    pub span: Span,
    /// The tokens that were kept, in the order in which they were taken.
    pub tokens: Vec<TokenAndSpan>,
}

impl Model for TokenBody {
    ghost use Rattle.std.specs.{Prelude.map, Coded.codes};
    ghost use Rattle.swc_input.specs.Plain.{plain};
    ghost use Rattle.swc_context.specs.contracts.error.SyntaxError as kind;
    ghost use Rattle.swc_bodies.specs.Body.{Body};

    ghost Value = { Body };

    ghost coded = { Prim.hlevel (codes, kind.the_row.coded) };

    ghost view = { λ b. record { span = b.span; tokens = map plain b.tokens.items } };
}

impl Spanned for TokenBody {
    ghost place = { λ b. b.span };

    fn span(&self) -> Span {
        self.span
    }
}
