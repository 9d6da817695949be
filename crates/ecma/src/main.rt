//! Checks, formats and takes apart ECMAScript programs (`ecma_commands`), and serves editors (`ecma_server`). `ecma --help`
//! says how it is called.
#![tactic(auto)]

use ecma_commands::Outcome;
use std::process::ExitCode;

fn main(rt: HostRuntime) -> ExitCode {
    ExitCode::from(match ecma_commands::run(&rt) {
        Outcome::Status(status) => status,
        Outcome::Serve => ecma_server::server::serve(&rt),
    })
}
