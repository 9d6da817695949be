// Programs as ESTree.
use crate::command::Options;
use crate::output::Output;
use crate::pretty::Pretty;
use estree_json::writer::{Extras, TreeWriter};
use statement_trees::tree::Program;
use std::alloc::AllocError;

/// Writes the tree of a program, in a line or over lines.
pub fn write_tree(
    rt: &HostRuntime,
    options: Options,
    text: &str,
    program: &Program,
    output: &mut Output,
) -> Result<(), AllocError> {
    let extras = Extras {
        loc: options.trees.loc,
        range: options.trees.range,
        comments: options.trees.comments,
        tokens: options.trees.tokens,
    };
    let mut pretty = Pretty::new();
    let mut tree = TreeWriter::with(rt.alloc(), text, program, extras)?;
    for _ in 0..u64::MAX {
        if !tree.fill()? {
            break;
        }
        if options.trees.pretty {
            pretty.put(tree.block(), &mut output.text)?;
        } else {
            output.put(tree.block());
        }
        if !output.pass(rt) {
            break;
        }
    }
    output.put("\n");
    Ok(())
}
