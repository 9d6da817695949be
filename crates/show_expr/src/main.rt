//! Shows what the parser makes of an expression on standard input.
#![tactic(auto)]

use show::levels::levels;
use show::run::run;
use std::alloc::AllocError;
use std::process::ExitCode;
use std::{env, io};

/// The arguments after the program's name.
fn arguments(rt: &HostRuntime) -> io::Result<Vec<String>> {
    let mut all = Vec::new(rt.alloc());
    for argument in env::args(rt)?.skip(1) {
        all.push(argument)?;
    }
    Ok(all)
}

fn texts<'a>(rt: &HostRuntime, arguments: &'a [String]) -> Result<Vec<&'a str>, AllocError> {
    let mut all = Vec::new(rt.alloc());
    for argument in arguments {
        all.push(argument.as_str())?;
    }
    Ok(all)
}

/// Arguments that can't be read, for example because they aren't UTF-8, are bad arguments: `run` is then called with
/// none, and writes the usage.
fn main(rt: HostRuntime) -> ExitCode {
    let arguments = arguments(&rt).unwrap_or_else(|_| Vec::new(rt.alloc()));
    let texts = texts(&rt, &arguments).unwrap_or_else(|_| Vec::new(rt.alloc()));
    let mut input = rt.reader();
    let mut output = io::writer(&rt);
    let mut complaints = rt.stderr();
    let status = run(
        rt.alloc(),
        &texts,
        levels(&rt),
        &mut input,
        &mut output,
        &mut complaints,
    );
    ExitCode::from(status)
}
