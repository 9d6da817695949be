// Expressions and patterns, as texts of their own.
ghost use Rattle.std.specs.Prelude.{IfOk};
ghost use Rattle.swc_nodes.specs.{NodeParts.expr_part, NodeParts.pat_part, GrowingNodes.From};

use crate::command::{Command, Options};
use crate::output::Output;
use reporting::Refusal;
use show::counted::CountedBodies;
use statement_trees::tree::Goal;
use std::alloc::Global;
use swc_ecma_parser::context::context::{Context, EsVersion, Syntax};
use swc_ecma_parser::context::error::{Error, PResult};
use swc_ecma_parser::nodes::node::{ExprId, PatId};
use swc_ecma_parser::printing::print::PrintNodes;
use swc_ecma_parser::text::{parse_text_expr, parse_text_pat};
use swc_ecma_parser::whole::Whole;

/// The context that is asked for.
fn context_of(options: Options) -> Context {
    let context = match options.goal {
        Some(Goal::Module) => Context::module(),
        _ if options.strict => Context::strict(),
        _ => Context::script(),
    };
    if options.generator || options.asynchronous {
        context.function_block(options.asynchronous, options.generator)
    } else {
        context
    }
}

/// Writes the tree of a text that is one expression or one pattern, and `unread` if tokens are left after it. Answers
/// the faults that were recorded. The refusal is that of the parser.
pub fn put_part(
    alloc: Global,
    text: &str,
    options: Options,
    levels: usize,
    output: &mut Output,
) -> Result<Vec<Error>, Refusal> {
    let syntax = Syntax {
        pedantic: options.pedantic,
        ..Syntax::default()
    };
    let (context, target) = (context_of(options), EsVersion::default());
    let bodies = CountedBodies::new(alloc);
    if options.command == Command::Pat {
        let whole = parse_text_pat(alloc, text, context, syntax, target, bodies, levels);
        put_pat(whole, output)
    } else {
        let whole = parse_text_expr(alloc, text, context, syntax, target, bodies, levels);
        put_expr(whole, output)
    }
}

fn put_expr(whole: Whole<ExprId, CountedBodies>, output: &mut Output) -> Result<Vec<Error>, Refusal>
    requires { IfOk whole.read (λ r. From 0 whole.nodes (expr_part r.0)) }
{
    let Whole {
        read,
        nodes,
        recorded,
        too_deep,
    } = whole;
    let shown = match read {
        Ok((expr, unread)) => Ok((nodes.print_expr(expr), unread)),
        Err(fault) => Err(fault),
    };
    put(shown, recorded, too_deep, output)
}

fn put_pat(whole: Whole<PatId, CountedBodies>, output: &mut Output) -> Result<Vec<Error>, Refusal>
    requires { IfOk whole.read (λ r. From 0 whole.nodes (pat_part r.0)) }
{
    let Whole {
        read,
        nodes,
        recorded,
        too_deep,
    } = whole;
    let shown = match read {
        Ok((pat, unread)) => Ok((nodes.print_pat(pat), unread)),
        Err(fault) => Err(fault),
    };
    put(shown, recorded, too_deep, output)
}

/// Writes a tree that was printed, and whether tokens are left.
fn put(
    shown: PResult<(PResult<String>, bool)>,
    recorded: Vec<Error>,
    too_deep: bool,
    output: &mut Output,
) -> Result<Vec<Error>, Refusal> {
    match shown {
        Ok((tree, unread)) => {
            output.put(tree?.as_str());
            output.put(if unread { "\nunread\n" } else { "\n" });
            Ok(recorded)
        }
        Err(fault) => Err(Refusal::new(fault, too_deep)),
    }
}
