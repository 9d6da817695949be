// A list in parentheses, read in both ways: as expressions that become the parameters of an arrow function, and as
// formal parameters.
ghost use Rattle.std.specs.Prelude.{◌≡◌, IfOk};
ghost use Rattle.swc_grammar.specs.Words.{rest};
ghost use Rattle.swc_ecma_parser.specs.BothWays.{ConverseLaw, CoverLaw, ReadsArrow, ReadsFormal};
ghost use Rattle.swc_ecma_parser.specs.WholeList.{plain_list};

use crate::parser::{Parser, PatOf};
use std::alloc::{AllocError, Global};
use swc_ast::function::Param;
use swc_bodies::bodies::Bodies;
use swc_context::context::{Context, EsVersion, Syntax};
use swc_context::error::PResult;
use swc_input::listed::TokensInput;
use swc_input::token::TokenAndSpan;

/// The result of a call, and the parser after it, which has the recorded faults.
#[derive(Drop)]
pub struct ReadBy<T, B: Bodies<TokensInput>> {
    /// The answer of the call.
    pub read: PResult<T>,
    /// The parser after it.
    pub parser: Parser<TokensInput, B>,
}

/// A list in parentheses, read in both ways.
#[derive(Drop)]
pub struct BothWays<B: Bodies<TokensInput>> {
    /// By way of expressions, as `Parser::parse_arrow_params` reads it.
    pub arrow: ReadBy<Vec<PatOf<B>>, B>,
    /// Directly, as `Parser::parse_formal_params` reads what is after the parenthesis.
    pub formal: ReadBy<Vec<Param<PatOf<B>>>, B>,
}

/// Reads a list of tokens that begins with `(` in both ways (ECMA-262, 15.3 and 15.1): from the parenthesis on as the
/// parameters of an arrow function (`arrow`), and from the token after it on as formal parameters (`formal`). Each
/// parser is new, and both hooks are of one type, so that they read the same. `levels` bounds both parsers
/// (`Parser::limit_nesting`; `usize::MAX` is no bound), which tell whether it was met (`Parser::is_too_deep`).
/// The call is refused only when out of memory; what the calls refuse is in the answer.
///
/// The law of the cover grammar (`cover`). In a script or a strict module, where early errors are on and not ignored:
/// if the first call reads parameters with no fault recorded, the second reads the same patterns, apart from spans,
/// with none, or memory runs out. The second parser is then before the `)`, and the rest is what the first left. The
/// hook must be faithful, no identifier token may spell a keyword (in a generator `yield` as such a token is a
/// reference, but isn't bound), and in a static block no pattern may bind `await`.
///
/// The converse (`converse`). If formal parameters after a `(` are read up to a `)` with no fault recorded, and bind no
/// word that some mode reserves, nor `await`, `yield`, `eval` or `arguments`, the first call reads the same patterns,
/// apart from spans, with none, or memory runs out.
pub fn read_both_ways<B: Bodies<TokensInput>>(
    alloc: Global,
    tokens: Vec<TokenAndSpan>,
    ctx: Context,
    syntax: Syntax,
    target: EsVersion,
    bodies: B,
    again: B,
    levels: usize,
) -> Result<BothWays<B>, AllocError>
    ensures arrow { IfOk result (λ w. ReadsArrow B.is_faithful B.forms ctx syntax (plain_list tokens.items)
        w.arrow.read w.arrow.parser) }
    ensures formal { IfOk result (λ w. ReadsFormal B.is_faithful B.forms ctx syntax (rest (plain_list tokens.items))
        w.formal.read w.formal.parser) }
    ensures cover { IfOk result (λ w. CoverLaw B.is_faithful ctx syntax (plain_list tokens.items)
        w.arrow.read w.arrow.parser w.formal.read w.formal.parser) }
    ensures converse { IfOk result (λ w. ConverseLaw B.is_faithful ctx syntax (plain_list tokens.items)
        w.arrow.read w.arrow.parser w.formal.read w.formal.parser) }
{
    let behind = after_first(alloc, &tokens)?;
    let arrow = read_arrow_params(alloc, tokens, ctx, syntax, target, bodies, levels);
    let formal = read_formal_params(alloc, behind, ctx, syntax, target, again, levels);
    Ok(BothWays { arrow, formal })
}

/// The tokens after the first one, each an equal one of its own.
fn after_first(alloc: Global, tokens: &[TokenAndSpan]) -> Result<Vec<TokenAndSpan>, AllocError>
    ensures { IfOk result (λ v. plain_list v.items ≡ rest (plain_list tokens.now)) }
{
    match tokens.split_first() {
        Some((_, behind)) => copies(alloc, behind),
        None => Ok(Vec::new(alloc)),
    }
}

/// Equal tokens of their own.
fn copies(alloc: Global, tokens: &[TokenAndSpan]) -> Result<Vec<TokenAndSpan>, AllocError>
    ensures { IfOk result (λ v. plain_list v.items ≡ plain_list tokens.now) }
{
    let mut copied = Vec::new(alloc);
    for token in tokens {
        copied.push(token.try_clone()?)?;
    }
    Ok(copied)
}

/// Reads the parameters of an arrow function, with a parser of its own.
fn read_arrow_params<B: Bodies<TokensInput>>(
    alloc: Global,
    tokens: Vec<TokenAndSpan>,
    ctx: Context,
    syntax: Syntax,
    target: EsVersion,
    bodies: B,
    levels: usize,
) -> ReadBy<Vec<PatOf<B>>, B>
    ensures { ReadsArrow B.is_faithful B.forms ctx syntax (plain_list tokens.items) result.read result.parser }
{
    let source = TokensInput::new(alloc, tokens, ctx, syntax, target);
    let mut parser = Parser::new_from(alloc, source, bodies);
    parser.limit_nesting(levels);
    let read = parser.parse_arrow_params();
    ReadBy { read, parser }
}

/// Reads formal parameters, with a parser of its own.
fn read_formal_params<B: Bodies<TokensInput>>(
    alloc: Global,
    tokens: Vec<TokenAndSpan>,
    ctx: Context,
    syntax: Syntax,
    target: EsVersion,
    bodies: B,
    levels: usize,
) -> ReadBy<Vec<Param<PatOf<B>>>, B>
    ensures { ReadsFormal B.is_faithful B.forms ctx syntax (plain_list tokens.items) result.read result.parser }
{
    let source = TokensInput::new(alloc, tokens, ctx, syntax, target);
    let mut parser = Parser::new_from(alloc, source, bodies);
    parser.limit_nesting(levels);
    let read = parser.parse_formal_params();
    ReadBy { read, parser }
}
