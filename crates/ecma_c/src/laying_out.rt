// Programs in their layout.
use crate::outcome::EcmaOutcome;
use crate::reading::{Asked, EcmaOptions, answer, program_of};
use crate::room::Room;
use program_layout::layout::layout_of;
use std::alloc::{AllocError, Global};

/// Writes the layout of a program, with a line break in the end, unless it is empty.
pub(crate) fn format(
    alloc: Global,
    text: &[u8],
    options: EcmaOptions,
    room: &mut Room<'_>,
) -> EcmaOutcome {
    answer(
        text,
        options,
        |text, asked| put_layout(alloc, text, asked, room),
    )
}

fn put_layout(
    alloc: Global,
    text: &str,
    asked: Asked,
    room: &mut Room<'_>,
) -> Result<EcmaOutcome, AllocError> {
    let program = match program_of(alloc, text, asked.job, room)? {
        Ok(program) => program,
        Err(outcome) => return Ok(outcome),
    };
    let goal = program.goal;
    let laid_out = layout_of(alloc, text, program, asked.style)?;
    room.put(laid_out.as_str());
    if !laid_out.is_empty() {
        room.put("\n");
    }
    Ok(EcmaOutcome::written(Some(goal), room))
}
