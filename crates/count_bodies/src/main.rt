//! Reads an expression, and prints how many tokens it has, and how many functions, classes and blocks are in it that are
//! in no other: with a source and a hook of its own, each over one of the library's.
#![tactic(auto)]

ghost use Rattle.std.specs.Prelude.{true};
ghost use Rattle.swc_bodies.specs.Deferred.{place_forms};

use reporting::{LEVELS, Refusal, report};
use std::alloc::AllocError;
use std::io;
use std::process::ExitCode;
use swc_ecma_parser::bodies::bodies::{Bodies, BodyForms};
use swc_ecma_parser::bodies::deferred::DeferredBodies;
use swc_ecma_parser::context::context::TokenContexts;
use swc_ecma_parser::input::buffer::Buffer;
use swc_ecma_parser::input::token::TokenAndSpan;
use swc_ecma_parser::input::tokens::Tokens;
use swc_ecma_parser::lexer::input::TextInput;
use swc_ecma_parser::lexer::reader::End;
use swc_ecma_parser::lexer::stack::Start;
use swc_ecma_parser::prelude::*;

/// A source that counts the tokens of another one.
#[derive(Drop)]
struct Counted<I: Tokens> {
    inner: I,
    count: usize,
}

impl<I: Tokens> Iterator for Counted<I> {
    ghost use Rattle.std.specs.Iterator.{at_most};
    ghost use Rattle.swc_input.specs.Source.{Asked};

    type Item = TokenAndSpan;

    ghost next_gives = { λ s r t. Asked I.model s.inner r t.inner };

    ghost remaining = { λ s. at_most (I.model.state s.inner).bound };

    fn next(&mut self) -> Option<TokenAndSpan> {
        let token = self.inner.next();
        self.count = self.count.saturating_add(usize::from(token.is_some()));
        token
    }
}

/// All that contracts say of it is said of the source within.
impl<I: Tokens> Tokens for Counted<I> {
    ghost use Rattle.std.proofs.Common.{refl};

    ghost model = { record {
      state = λ s. I.model.state s.inner;
      gives = λ s xs t. I.model.gives s.inner xs t.inner;
      told = λ s h t. I.model.told s.inner h t.inner;
    } };

    ghost with_contexts = { λ s contexts. record s { inner = I.with_contexts s.inner contexts } };

    ghost laws = { record {
      lawful = λ s. I.laws.lawful s.inner;
      none = λ s. I.laws.none s.inner;
      joins = λ s t u xs ys p q. I.laws.joins s.inner t.inner u.inner xs ys p q;
      gave = λ s t xs a. I.laws.gave s.inner t.inner xs a;
    } };

    ghost unmoved = { λ s contexts. let u = I.unmoved s.inner contexts in record { gave = u.gave; state = u.state } };

    ghost may_ask = { λ s. tt };

    ghost ends = { λ s. refl };

    ghost asked = { λ s r t h. record { gave = h.gave; token = h.token } };

    fn set_ctx(&mut self, ctx: Context) -> Result<(), AllocError> {
        self.inner.set_ctx(ctx)
    }

    fn ctx(&self) -> Context {
        self.inner.ctx()
    }

    fn syntax(&self) -> Syntax {
        self.inner.syntax()
    }

    fn target(&self) -> EsVersion {
        self.inner.target()
    }

    fn set_expr_allowed(&mut self, allow: bool) {
        self.inner.set_expr_allowed(allow)
    }

    fn set_next_regexp(&mut self, start: Option<BytePos>) {
        self.inner.set_next_regexp(start)
    }

    fn token_context(&self) -> &TokenContexts {
        self.inner.token_context()
    }

    fn token_context_mut(&mut self) -> &mut TokenContexts {
        self.inner.token_context_mut()
    }

    fn set_token_context(&mut self, contexts: TokenContexts) {
        self.inner.set_token_context(contexts)
    }

    fn add_error(&mut self, error: Error) -> Result<(), AllocError> {
        self.inner.add_error(error)
    }

    fn add_module_mode_error(&mut self, error: Error) -> Result<(), AllocError> {
        self.inner.add_module_mode_error(error)
    }

    fn take_errors(&mut self) -> Vec<Error> {
        self.inner.take_errors()
    }

    fn failed(&self) -> bool {
        self.inner.failed()
    }
}

/// A hook that counts what it reads, and has its places in the tree.
#[derive(Drop)]
struct CountBodies {
    inner: DeferredBodies,
    counts: [usize; 3],
}

impl BodyForms for CountBodies {
    type Fun = Span;

    type Class = Span;

    type Block = Span;

    ghost forms = { place_forms };
}

impl<I: Tokens> Bodies<I> for CountBodies {
    ghost use Rattle.swc_bodies.specs.Deferred.{place_forms_read};

    ghost is_faithful = { true };

    ghost lawful = { place_forms_read };

    fn fun(&mut self, input: &mut Buffer<I>) -> PResult<Span> {
        self.counts[0] = self.counts[0].saturating_add(1);
        self.inner.fun(input)
    }

    fn class(&mut self, input: &mut Buffer<I>) -> PResult<Span> {
        self.counts[1] = self.counts[1].saturating_add(1);
        self.inner.class(input)
    }

    fn block(&mut self, input: &mut Buffer<I>) -> PResult<Span> {
        self.counts[2] = self.counts[2].saturating_add(1);
        self.inner.block(input)
    }
}

fn main(rt: HostRuntime) -> io::Result<ExitCode> {
    let (alloc, text) = (rt.alloc(), io::read_to_string(rt.alloc(), rt.reader())?);
    let (context, syntax) = (Context::script(), Syntax::default());
    let (start, end, target) = (Start::Operand, End::Whole, EsVersion::default());
    let inner = TextInput::new(alloc, text.as_str(), start, end, context, syntax, target);
    let source = Counted { inner, count: 0 };
    let bodies = CountBodies {
        inner: DeferredBodies::new(alloc),
        counts: [0; 3],
    };
    let mut parser = Parser::new_from(alloc, source, bodies);
    parser.limit_nesting(LEVELS);
    if let Err(fault) = parser.parse_expr_id().and_then(|_| parser.at_end()) {
        let refusal = Refusal::new(fault, parser.is_too_deep());
        return Ok(ExitCode::from(report(&rt, text.as_bytes(), &refusal)));
    }
    let [functions, classes, blocks] = parser.bodies().counts;
    let tokens = parser.input().count;
    println!(rt; "{tokens} tokens, {functions} functions, {classes} classes, {blocks} blocks")?;
    Ok(ExitCode::SUCCESS)
}
