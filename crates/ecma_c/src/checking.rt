// What is wrong with programs.
use crate::outcome::{EcmaOutcome, FAULT};
use crate::reading::{Asked, EcmaOptions, answer};
use crate::room::Room;
use ecma_commands::faults::{Faults, faults_in};
use ecma_commands::findings::{Finding, Place, put_quoted};
use std::alloc::{AllocError, Global};

/// Writes what is wrong with a program.
pub(crate) fn check(
    alloc: Global,
    text: &[u8],
    options: EcmaOptions,
    room: &mut Room<'_>,
) -> EcmaOutcome {
    answer(
        text,
        options,
        |text, asked| put_findings(alloc, text, asked, room),
    )
}

fn put_findings(
    alloc: Global,
    text: &str,
    asked: Asked,
    room: &mut Room<'_>,
) -> Result<EcmaOutcome, AllocError> {
    let place = Place::new(alloc, "", text.as_bytes())?;
    let Faults { program, found } = match faults_in(alloc, &place, text, asked.job) {
        Ok(faults) => faults,
        Err(refusal) => {
            return EcmaOutcome::refused(alloc, text, &refusal, asked.job.levels, room);
        }
    };
    room.put("[");
    for (number, finding) in found.iter().take(asked.most).enumerate() {
        let mut item = String::new(alloc);
        if number > 0 {
            item.push_str(",")?;
        }
        put_finding(&mut item, &place, finding)?;
        room.put(item.as_str());
    }
    room.put("]");
    let goal = program.as_ref().map(|program| program.goal);
    let outcome = EcmaOutcome::written(goal, room);
    match found.first() {
        Some(first) => Ok(EcmaOutcome {
            status: outcome.status.max(FAULT),
            ..outcome.at(&place, first.span)
        }),
        None => Ok(outcome),
    }
}

/// Writes a finding: its place, what is said of it, and another place, if it has one.
fn put_finding(out: &mut String, place: &Place<'_>, finding: &Finding) -> Result<(), AllocError> {
    let span = finding.span;
    let (start, end) = (place.units(span.lo), place.units(span.hi));
    let ((line, column), (end_line, end_column)) = (place.at(span.lo), place.at(span.hi));
    write!(
        out,
        "{{\"start\":{start},\"end\":{end},\"line\":{line},\"column\":{column}"
    )?;
    write!(
        out,
        ",\"endLine\":{end_line},\"endColumn\":{end_column},\"message\":"
    )?;
    put_quoted(out, finding.message.as_str())?;
    if let Some((_, first)) = finding.first {
        let (line, column) = place.at(first.lo);
        write!(out, ",\"firstLine\":{line},\"firstColumn\":{column}")?;
    }
    out.push_str("}")
}
