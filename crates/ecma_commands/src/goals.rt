// What a text is read as.
use reporting::Refusal;
use statement_trees::tree::{Goal, Program};
use std::alloc::{AllocError, Global};
use swc_ecma_parser::context::span::Span;

/// What the name of a file says: a `.mjs` is a module, a `.cjs` a CommonJS module.
pub fn goal_of(name: &str) -> Option<Goal> {
    if name.ends_with(".mjs") {
        Some(Goal::Module)
    } else if name.ends_with(".cjs") {
        Some(Goal::CommonJs)
    } else {
        None
    }
}

/// Why a text is no program, and what it was read as.
#[derive(Drop)]
pub struct NoProgram {
    pub refusal: Refusal,
    pub goal: Goal,
}

impl From<Refusal> for NoProgram {
    /// The refusal of an expression.
    fn from(refusal: Refusal) -> NoProgram {
        NoProgram {
            refusal,
            goal: Goal::Module,
        }
    }
}

impl From<AllocError> for NoProgram {
    fn from(failure: AllocError) -> NoProgram {
        NoProgram::from(Refusal::from(failure))
    }
}

/// The program of a text. Where there is no goal, it is read as a script; a script that is refused at an `import` or an
/// `export` is read as a module, and one that is refused at a `return` as a CommonJS module: then that verdict counts.
/// One that is refused at an `await` is read as a module, too, if it is one.
pub fn read_program(
    alloc: Global,
    text: &str,
    goal: Option<Goal>,
    levels: usize,
) -> Result<Program, NoProgram> {
    match goal {
        Some(goal) => read_as(alloc, text, goal, levels),
        None => read_any(alloc, text, levels),
    }
}

/// The program of a text that has a goal.
fn read_as(alloc: Global, text: &str, goal: Goal, levels: usize) -> Result<Program, NoProgram> {
    match statement_trees::read_program(alloc, text, goal, levels) {
        Ok(program) => Ok(program),
        Err(refusal) => Err(NoProgram { refusal, goal }),
    }
}

/// The program of a text that has no goal.
fn read_any(alloc: Global, text: &str, levels: usize) -> Result<Program, NoProgram> {
    match read_as(alloc, text, Goal::Script, levels) {
        Ok(program) => Ok(program),
        Err(none) => match goal_after(text, none.refusal.span()) {
            Some(goal) => read_as(alloc, text, goal, levels),
            None if is_at_await(text, none.refusal.span()) => {
                read_as(alloc, text, Goal::Module, levels).or(Err(none))
            }
            None => Err(none),
        },
    }
}

/// Whether a fault is at an `await`, or after it.
fn is_at_await(text: &str, fault: Span) -> bool {
    let at = fault.lo.0 as usize;
    let before = text.get(..at).unwrap_or("").trim_end();
    is_word(text.get(at..).unwrap_or(""), "await") || before.ends_with("await")
}

/// What a text that is no script may be, by the word at the fault or before it.
pub fn goal_after(text: &str, fault: Span) -> Option<Goal> {
    let at = fault.lo.0 as usize;
    let rest = text.get(at..).unwrap_or("");
    let before = text.get(..at).unwrap_or("").trim_end();
    if is_word(rest, "export") || is_word(rest, "import") || before.ends_with("import") {
        return Some(Goal::Module);
    }
    if is_word(rest, "return") {
        return Some(Goal::CommonJs);
    }
    None
}

/// Whether a text begins with the word.
pub fn is_word(text: &str, word: &str) -> bool {
    match text.strip_prefix(word) {
        Some(rest) => !rest.starts_with(|letter: char| letter.is_alphanumeric()
            || letter == '_'
            || letter == '$'),
        None => false,
    }
}
