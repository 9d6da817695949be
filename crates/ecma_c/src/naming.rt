// The names of programs.
use crate::outcome::EcmaOutcome;
use crate::reading::{Asked, EcmaOptions, answer, program_of};
use crate::room::Room;
use ecma_commands::findings::{Place, put_quoted};
use program_names::names::{Name, names};
use std::alloc::{AllocError, Global};

/// Writes the names of a program.
pub(crate) fn names_of(
    alloc: Global,
    text: &[u8],
    options: EcmaOptions,
    room: &mut Room<'_>,
) -> EcmaOutcome {
    answer(
        text,
        options,
        |text, asked| put_names(alloc, text, asked, room),
    )
}

fn put_names(
    alloc: Global,
    text: &str,
    asked: Asked,
    room: &mut Room<'_>,
) -> Result<EcmaOutcome, AllocError> {
    let program = match program_of(alloc, text, asked.job, room)? {
        Ok(program) => program,
        Err(outcome) => return Ok(outcome),
    };
    let place = Place::new(alloc, "", text.as_bytes())?;
    room.put("[");
    for (number, name) in names(alloc, &program)?.iter().enumerate() {
        let mut item = String::new(alloc);
        if number > 0 {
            item.push_str(",")?;
        }
        put_name(&mut item, &place, name)?;
        room.put(item.as_str());
    }
    room.put("]");
    Ok(EcmaOutcome::written(Some(program.goal), room))
}

/// Writes a name: how it is used, and where it is bound, if it is.
fn put_name(out: &mut String, place: &Place<'_>, name: &Name<'_>) -> Result<(), AllocError> {
    out.push_str("{\"name\":")?;
    put_quoted(out, name.text)?;
    let (start, end) = (place.units(name.span.lo), place.units(name.span.hi));
    let how = name.how.as_str();
    write!(
        out,
        ",\"start\":{start},\"end\":{end},\"use\":\"{how}\",\"binding\":"
    )?;
    match name.binding {
        Some(bound) => {
            let (start, end) = (place.units(bound.lo), place.units(bound.hi));
            write!(out, "[{start},{end}]}}")
        }
        None => out.push_str("null}"),
    }
}
