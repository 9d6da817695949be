//! Reads a script, and prints it with another name in place of one: `rename_name OLD NEW`. Where the name is declared
//! more than once, the first declaration is meant, with all names that mean it.
#![tactic(auto)]

use program_names::scopes::Scopes;
use reporting::{LEVELS, Refusal, report};
use statement_trees::read_program;
use statement_trees::tree::Goal;
use std::alloc::Global;
use std::process::ExitCode;
use std::{env, io};
use text_edits::edit::{Edit, edited};

/// The text with the new name, or why there is none; or why the text is refused.
fn rename(
    alloc: Global,
    text: &str,
    old: &str,
    new: &str,
) -> Result<Result<String, &'static str>, Refusal> {
    let program = read_program(alloc, text, Goal::Script, LEVELS)?;
    let scopes = Scopes::new(alloc, &program)?;
    let mut names = scopes.names().iter();
    let Some(place) = names.find_map(|name| name.declaration().filter(|_| name.text == old)) else {
        return Ok(Err("the old name is declared nowhere"));
    };
    if scopes.conflict(place, new).is_some() {
        return Ok(Err("the new name is in the way of another"));
    }
    let mut edits = Vec::new(alloc);
    for name in scopes.references(alloc, place)? {
        let text = name.renamed(alloc, new)?;
        edits.push(Edit::new(name.span.lo.0 as usize, name.span.hi.0 as usize, text))?;
    }
    match edited(alloc, text, &edits) {
        Ok(text) => match read_program(alloc, text.as_str(), Goal::Script, LEVELS) {
            Ok(_) => Ok(Ok(text)),
            Err(_) => Ok(Err("the new name is a word of the language")),
        },
        Err(_) => Ok(Err("the names aren't apart")),
    }
}

fn main(rt: HostRuntime) -> io::Result<ExitCode> {
    let text = io::read_to_string(rt.alloc(), rt.reader())?;
    let mut arguments = env::args(&rt)?.skip(1);
    let old = arguments.next().unwrap_or(String::new(rt.alloc()));
    let new = arguments.next().unwrap_or(String::new(rt.alloc()));
    match rename(rt.alloc(), text.as_str(), old.as_str(), new.as_str()) {
        Ok(Ok(text)) => print!(rt; "{text}")?,
        Ok(Err(why)) => eprintln!(rt; "{why}")?,
        Err(refusal) => return Ok(ExitCode::from(report(&rt, text.as_bytes(), &refusal))),
    }
    Ok(ExitCode::SUCCESS)
}
