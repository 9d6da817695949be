// Programs as ESTree.
use crate::outcome::EcmaOutcome;
use crate::reading::{Asked, COMMENTS, EcmaOptions, LOC, RANGE, TOKENS, answer, valid_program_of};
use crate::room::Room;
use estree_json::writer::{Extras, TreeWriter};
use std::alloc::{AllocError, Global};

/// Writes the tree of a program.
pub(crate) fn estree(
    alloc: Global,
    text: &[u8],
    options: EcmaOptions,
    room: &mut Room<'_>,
) -> EcmaOutcome {
    answer(
        text,
        options,
        |text, asked| put_tree(alloc, text, asked, room),
    )
}

fn put_tree(
    alloc: Global,
    text: &str,
    asked: Asked,
    room: &mut Room<'_>,
) -> Result<EcmaOutcome, AllocError> {
    let program = match valid_program_of(alloc, text, asked.job, room)? {
        Ok(program) => program,
        Err(outcome) => return Ok(outcome),
    };
    let extras = Extras {
        loc: asked.extras & LOC != 0,
        range: asked.extras & RANGE != 0,
        comments: asked.extras & COMMENTS != 0,
        tokens: asked.extras & TOKENS != 0,
    };
    let mut tree = TreeWriter::with(alloc, text, &program, extras)?;
    for _ in 0..u64::MAX {
        if !tree.fill()? {
            break;
        }
        room.put(tree.block());
    }
    Ok(EcmaOutcome::written(Some(program.goal), room))
}
