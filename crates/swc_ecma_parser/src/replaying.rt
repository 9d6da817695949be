// An expression that is read while its tokens are kept, and what is kept of these read again.
ghost use Rattle.swc_ecma_parser.specs.Replaying.{HandsOut, ReadsKeeping, ReadsKept, ReadsTwice, ReplayLaw};
ghost use Rattle.swc_ecma_parser.specs.WholeList.{plain_list};

use crate::both_ways::ReadBy;
use crate::parser::Parser;
use std::alloc::Global;
use swc_bodies::bodies::{Bodies, ExprOf, ReplayBodies};
use swc_context::context::{Context, EsVersion, Syntax};
use swc_context::error::PResult;
use swc_input::capturing::Capturing;
use swc_input::listed::TokensInput;
use swc_input::token::TokenAndSpan;
use swc_input::tokens::Tokens;

/// An expression that was read over a source that keeps its tokens, and the parser that read it.
#[derive(Drop)]
pub struct ReadKeeping<I: Tokens, B: Bodies<Capturing<I>>> {
    /// The answer of `Parser::parse_expr`.
    pub read: PResult<Box<ExprOf<B>>>,
    /// The answer of `Parser::at_end` after it.
    pub at_end: PResult<bool>,
    /// The parser after both: it has the faults that were recorded, and reads on after what was read.
    pub parser: Parser<Capturing<I>, B>,
}

/// An expression that was read while its tokens were kept, and what was read of those kept.
#[derive(Drop)]
pub struct ReadTwice<I: Tokens, B: Bodies<Capturing<I>> + Bodies<TokensInput>> {
    /// From the source. The tokens that were kept have been handed out, and none of them is kept any more.
    pub first: ReadKeeping<I, B>,
    /// From the tokens that were kept.
    pub again: ReadBy<Box<ExprOf<B>>, B>,
}

/// Reads an expression (ECMA-262, 13.16) from a source while its tokens are kept, by `Capturing`, and then reads what
/// was kept again, as a list (`twice`). Each parser is new; the second one reads in the context and the syntax of the
/// source; and both hooks are of one type, so that they read the same. What the calls refuse is in the answer. `levels`
/// bounds both parsers (`Parser::limit_nesting`; `usize::MAX` is no bound), which tell whether it was met
/// (`Parser::is_too_deep`).
///
/// The law of replay (`replay`). Let early errors be on and not ignored, the first call answer a tree with no token
/// left after it, and no fault be recorded. Then the grammar derives the tree from the tokens that the source gave up
/// to its end. With a hook that is faithful over lists the second call answers the same tree, places included, with no
/// fault recorded and no token left, or memory ran out:
///
/// - where each token begins where the one before it ends, or after (`all_kept`);
/// - and where some regular expressions are after the slashes at which they were found. Each of them begins where
///   its slash does, has the slash's mark of a line break, and ends no earlier than it begins; no such slash is empty;
///   and each was read after its slash (12.9.5), so that none of these slashes is an operator (13.7 and 13.15). That
///   may be known of a derivation (`joined`). Or the tokens show it (`wanted`): each such slash comes first, or not
///   after a literal, a closing sign, `++`, `--`, a name, or a word but for `delete`, `in`, `instanceof`, `new`,
///   `typeof` and `void`. Then what the hook reads has to end with one of those.
pub fn read_again<I: Tokens, B: Bodies<Capturing<I>> + Bodies<TokensInput> + ReplayBodies>(
    alloc: Global,
    source: I,
    target: EsVersion,
    bodies: B,
    again: B,
    levels: usize,
) -> ReadTwice<I, B>
    ensures twice { ReadsTwice I.model ⟦<B as Bodies<Capturing<I>>>⟧.is_faithful
        ⟦<B as Bodies<TokensInput>>⟧.is_faithful B.forms source result.first.read result.first.at_end
        result.first.parser result.again.read result.again.parser }
    ensures replay { ReplayLaw I.model ⟦<B as Bodies<TokensInput>>⟧.is_faithful B.forms source
        result.first.read result.first.at_end result.first.parser result.again.read result.again.parser }
{
    let mut first = read_keeping(alloc, source, bodies, levels);
    let (tokens, ctx, syntax) = hand_out(&mut first.parser);
    let again = read_kept(alloc, tokens, ctx, syntax, target, again, levels);
    ReadTwice { first, again }
}

/// Reads an expression while its tokens are kept, with a parser of its own, and looks whether a token is left.
fn read_keeping<I: Tokens, B: Bodies<Capturing<I>>>(
    alloc: Global,
    source: I,
    bodies: B,
    levels: usize,
) -> ReadKeeping<I, B>
    ensures { ReadsKeeping I.model B.is_faithful B.forms source result.read result.at_end result.parser }
{
    let mut parser = Parser::new_from(alloc, Capturing::new(alloc, source), bodies);
    parser.limit_nesting(levels);
    let read = parser.parse_expr();
    let at_end = parser.at_end();
    ReadKeeping {
        read,
        at_end,
        parser,
    }
}

/// The tokens that the parser's source kept, and the source's context and syntax. None of the tokens is kept any more.
fn hand_out<I: Tokens, B: Bodies<Capturing<I>>>(
    parser: &mut Parser<Capturing<I>, B>,
) -> (Vec<TokenAndSpan>, Context, Syntax)
    ensures { HandsOut I.model result.0.items result.1 result.2 parser.old parser.new }
{
    let source = parser.input();
    let ctx = source.ctx();
    let syntax = source.syntax();
    (Capturing::take(source), ctx, syntax)
}

/// Reads an expression from tokens that were kept, with a parser of its own.
fn read_kept<B: Bodies<TokensInput>>(
    alloc: Global,
    tokens: Vec<TokenAndSpan>,
    ctx: Context,
    syntax: Syntax,
    target: EsVersion,
    bodies: B,
    levels: usize,
) -> ReadBy<Box<ExprOf<B>>, B>
    ensures { ReadsKept B.is_faithful B.forms ctx syntax (plain_list tokens.items) result.read result.parser }
{
    let source = TokensInput::new(alloc, tokens, ctx, syntax, target);
    let mut parser = Parser::new_from(alloc, source, bodies);
    parser.limit_nesting(levels);
    let read = parser.parse_expr();
    ReadBy { read, parser }
}
