//! Reads a script, and prints each string literal in it: where it is, and what it means.
#![tactic(auto)]

use literal_values::string::string_text;
use program_tokens::texts::tokens_of;
use reporting::{LEVELS, report};
use statement_trees::read_program;
use statement_trees::tree::Goal;
use std::io;
use std::process::ExitCode;
use swc_ecma_parser::input::token::Token;
use swc_ecma_parser::lexer::lines::Lines;

/// Prints the strings among the tokens of a text.
fn print_strings(rt: &HostRuntime, text: &str) -> io::Result<()> {
    let lines = Lines::new(rt.alloc(), text)?;
    for found in &tokens_of(rt.alloc(), text, false)? {
        if let Token::Str { raw, .. } = &found.token {
            let place = lines.position(found.span.lo.0 as usize);
            match string_text(rt.alloc(), raw.as_str())? {
                Some(value) => println!(rt; "{place} {value:?}")?,
                None => println!(rt; "{place} {raw}, which no text is")?,
            }
        }
    }
    Ok(())
}

fn main(rt: HostRuntime) -> io::Result<ExitCode> {
    let text = io::read_to_string(rt.alloc(), rt.reader())?;
    match read_program(rt.alloc(), text.as_str(), Goal::Script, LEVELS) {
        Ok(_) => print_strings(&rt, text.as_str())?,
        Err(refusal) => return Ok(ExitCode::from(report(&rt, text.as_bytes(), &refusal))),
    }
    Ok(ExitCode::SUCCESS)
}
