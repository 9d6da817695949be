// All faults of a text.
use crate::findings::{Finding, Place, early_fault_of, fault_of};
use crate::goals::{NoProgram, read_program};
use crate::hints::hint_at;
use early_errors::early_errors;
use reporting::Refusal;
use statement_trees::faults::{Read, read_with_faults};
use statement_trees::tree::{Goal, Program};
use std::alloc::{AllocError, Global};
use swc_ecma_parser::context::error::Error;
use swc_ecma_parser::context::span::Span;

/// What is wrong with a text, in its order, and its program, if all of it has a tree.
#[derive(Drop)]
pub struct Faults {
    pub program: Option<Program>,
    pub found: Vec<Finding>,
}

/// How a text is read.
#[derive(Clone, Copy)]
pub struct Job {
    /// What it is read as; none: what it is.
    pub goal: Option<Goal>,
    /// How deeply expressions may be nested.
    pub levels: usize,
}

/// All faults of a text: those that leave it, or a body in it, without a tree, or otherwise those that were recorded
/// beside its tree, and its early errors. The refusal is out of memory, or is nested too deeply.
pub fn faults_in(
    alloc: Global,
    place: &Place<'_>,
    text: &str,
    job: Job,
) -> Result<Faults, Refusal> {
    match read_program(alloc, text, job.goal, job.levels) {
        Ok(program) => Ok(with_early(alloc, place, text, program, Vec::new(alloc))?),
        Err(none) => faults_of_none(alloc, place, text, none, job.levels),
    }
}

/// The faults of a text that `statement_trees::read_program` refuses.
fn faults_of_none(
    alloc: Global,
    place: &Place<'_>,
    text: &str,
    none: NoProgram,
    levels: usize,
) -> Result<Faults, Refusal> {
    let NoProgram { refusal, goal } = none;
    if refusal.is_failure() || matches!(refusal, Refusal::TooDeep(_)) {
        return Err(refusal);
    }
    match read_with_faults(alloc, text, goal, levels)? {
        Read::Program { program, recorded } => {
            Ok(with_early(alloc, place, text, program, recorded)?)
        }
        Read::Refused(refusals) => {
            let mut found = Vec::new(alloc);
            for refusal in &refusals {
                if refusal.is_failure() {
                    return Err(Refusal::from(AllocError));
                }
                let hint = hint_at(text, refusal.span(), goal);
                push(&mut found, fault_of(alloc, place, refusal, levels, hint)?)?;
            }
            Ok(Faults {
                program: None,
                found,
            })
        }
    }
}

/// The faults of a program: those that were recorded beside its tree, and its early errors.
fn with_early(
    alloc: Global,
    place: &Place<'_>,
    text: &str,
    program: Program,
    recorded: Vec<Error>,
) -> Result<Faults, AllocError> {
    let mut found = Vec::new(alloc);
    for fault in recorded {
        found.push(fault_of(alloc, place, &Refusal::Fault(fault), 0, "")?)?;
    }
    found.sort_by_key(|finding: &Finding| finding.span.lo.0)?;
    let count = found.len();
    for error in &early_errors(alloc, &program, text)? {
        if !is_recorded(&found[..count.min(found.len())], error.span) {
            found.push(early_fault_of(alloc, text, error)?)?;
        }
    }
    found.sort_by_key(|finding: &Finding| finding.span.lo.0)?;
    Ok(Faults {
        program: Some(program),
        found,
    })
}

/// Whether one of the faults, which are in the order of the text, begins in a place: the parser and the search for early
/// errors may find the same one.
fn is_recorded(faults: &[Finding], place: Span) -> bool {
    let first = faults.partition_point(|fault| fault.span.lo.0 < place.lo.0);
    match faults.get(first) {
        Some(fault) => fault.span.lo.0 == place.lo.0 || fault.span.lo.0 < place.hi.0,
        None => false,
    }
}

/// Adds a finding, unless one with the same message is at its place.
fn push(found: &mut Vec<Finding>, finding: Finding) -> Result<(), AllocError> {
    let is_told = match found.last() {
        Some(last) => {
            last.span.lo.0 == finding.span.lo.0 && last.message.as_str() == finding.message.as_str()
        }
        None => false,
    };
    if !is_told {
        found.push(finding)?;
    }
    Ok(())
}
