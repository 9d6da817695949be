// All faults of a text, where its brackets pair.
use crate::program::{Form, Passes, place_of, read_program, span_of, tokens_of};
use reporting::Refusal;
use std::alloc::{AllocError, Global};
use swc_ecma_parser::context::error::{Error, SyntaxError};
use tree_types::tree::{Goal, Program};

/// What a text is, as `read_with_faults` tells.
#[derive(Drop)]
pub enum Read {
    /// A program, and the faults that were recorded beside its tree, as `delete a` in strict code.
    Program {
        program: Program,
        recorded: Vec<Error>,
    },
    /// No program, for these reasons, in the order of the text. There is one at least.
    Refused(Vec<Refusal>),
}

/// What is wrong with the parts of a text.
#[derive(Drop)]
struct Wrong {
    faults: Vec<Refusal>,
}

/// Reads a program, as `read_program` does, and goes on after a fault.
///
/// Faults that the parser records beside a tree refuse nothing. Where each bracket of the text closes the last one that
/// is open, each body, and the program around the bodies, tells its first fault that leaves it without a tree. Otherwise
/// the first fault of the text is the only one. The only error is out of memory.
pub fn read_with_faults(
    alloc: Global,
    text: &str,
    goal: Goal,
    levels: usize,
) -> Result<Read, AllocError> {
    let (list, _) = tokens_of(alloc, text, goal)?;
    let are_paired = list.are_paired(alloc)?;
    let mut passes = Passes::new(alloc, list, goal, levels);
    passes.recorded = Some(Vec::new(alloc));
    match passes.in_order(Form::Program) {
        Ok(body) => {
            let recorded = passes.recorded.take().unwrap_or(Vec::new(alloc));
            if recorded.iter().any(|fault: &Error| leaves_no_tree(fault)) {
                return Ok(Read::Refused(faults_of(alloc, text, goal, levels)?));
            }
            let program = passes.into_program(span_of(text), goal, body);
            Ok(Read::Program { program, recorded })
        }
        Err(refusal) if are_paired && !refusal.is_failure() => {
            Ok(Read::Refused(faults_of(alloc, text, goal, levels)?))
        }
        Err(refusal) => Ok(Read::Refused(first_fault(alloc, text, goal, levels, refusal)?)),
    }
}

/// Whether a fault that is recorded beside a tree leaves a part of it out, so that what comes after it may be no fault.
fn leaves_no_tree(fault: &Error) -> bool {
    matches!(
        fault.kind(),
        SyntaxError::TS1109
            | SyntaxError::Expected(_)
            | SyntaxError::Unexpected(_)
            | SyntaxError::ExpectedIdent
    )
}

/// The first fault of a text.
fn first_fault(
    alloc: Global,
    text: &str,
    goal: Goal,
    levels: usize,
    refusal: Refusal,
) -> Result<Vec<Refusal>, AllocError> {
    let first = match read_program(alloc, text, goal, levels) {
        Ok(_) => refusal,
        Err(first) => first,
    };
    Ok(vec![in alloc; first]?)
}

/// The faults of all parts of a text, in its order.
fn faults_of(
    alloc: Global,
    text: &str,
    goal: Goal,
    levels: usize,
) -> Result<Vec<Refusal>, AllocError> {
    let (list, ending) = tokens_of(alloc, text, goal)?;
    let mut passes = Passes::new(alloc, list, goal, levels);
    passes.recorded = Some(Vec::new(alloc));
    let mut wrong = Wrong {
        faults: Vec::new(alloc),
    };
    let answer = passes.program();
    wrong.note_pass(&mut passes, answer)?;
    // Each turn reads a body that begins after the one around it.
    for _ in 0..u64::MAX {
        let Some(next) = passes.waiting.pop() else {
            break;
        };
        let answer = passes.pass(next);
        wrong.note_pass(&mut passes, answer)?;
    }
    let mut faults = wrong.faults;
    faults.sort_by_key(|fault: &Refusal| fault.span().lo.0)?;
    // The last fault alone may be at the end of the text.
    match faults.pop() {
        Some(Refusal::Fault(fault)) => faults.push(ending.refusal(fault, false))?,
        Some(other) => faults.push(other)?,
        None => {}
    }
    Ok(faults)
}

impl Wrong {
    /// Notes what is wrong in a pass: what was recorded, and why it was refused. Where it was refused at a body whose
    /// braces aren't there, the fault of this body counts instead.
    fn note_pass<T: Drop>(
        &mut self,
        passes: &mut Passes,
        answer: Result<T, Refusal>,
    ) -> Result<(), AllocError> {
        let mut faults = Vec::new(passes.reader.alloc);
        if let Some(recorded) = passes.recorded.replace(Vec::new(passes.reader.alloc)) {
            for fault in recorded {
                faults.push(Refusal::Fault(fault))?;
            }
        }
        if let Err(refusal) = answer {
            let fault = match passes.unclosed.take() {
                Some((start, context)) => passes.body_at(start, context).err(),
                None => None,
            };
            faults.push(fault.unwrap_or(refusal))?;
        }
        self.note_first(faults)
    }

    /// Notes the faults of a pass, up to the first that leaves it without a tree.
    fn note_first(&mut self, mut faults: Vec<Refusal>) -> Result<(), AllocError> {
        faults.sort_by_key(|fault: &Refusal| fault.span().lo.0)?;
        for fault in faults {
            let is_last = match &fault {
                Refusal::Fault(fault) => leaves_no_tree(fault),
                _ => true,
            };
            self.faults.push(fault)?;
            if is_last {
                break;
            }
        }
        Ok(())
    }
}
