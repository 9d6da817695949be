// What a program reads: its argument, and standard input.
use crate::{FAILED, REFUSED, read_text};
use std::{env, io, str};
use swc_ecma_parser::context::context::Context;
use swc_ecma_parser::context::span::Span;

/// The text on standard input, and the context that the program's one argument names: `script`, `module`, `strict`,
/// `generator` or `async`. With no argument it is a script's. Where the arguments are bad, or the text isn't UTF-8,
/// that is said on standard error, and the program's status is answered.
pub fn read_input(rt: &HostRuntime) -> io::Result<Result<(String, Context), u8>> {
    let Some(context) = asked_context(rt)? else {
        eprintln!(rt; "the argument may be script, module, strict, generator or async")?;
        return Ok(Err(FAILED));
    };
    let bytes = read_text(rt)?;
    match str::from_utf8(&bytes) {
        Ok(text) => Ok(Ok((String::from_str(rt.alloc(), text)?, context))),
        Err(error) => {
            let at = crate::expr::position(error.valid_up_to());
            let place = Span::new(at, at).line_column(&bytes);
            eprintln!(rt; "{place}: this isn't UTF-8")?;
            Ok(Err(REFUSED))
        }
    }
}

/// The context that the arguments name; none where they are bad.
fn asked_context(rt: &HostRuntime) -> io::Result<Option<Context>> {
    let mut asked = Some(Context::script());
    for (index, name) in env::args(rt)?.skip(1).enumerate() {
        asked = match index {
            0 => context_named(name.as_str()),
            _ => None,
        };
    }
    Ok(asked)
}

/// The context of the name: `script`, `module`, `strict`, `generator` or `async`. `None` for any other.
pub fn context_named(name: &str) -> Option<Context> {
    match name {
        "script" => Some(Context::script()),
        "module" => Some(Context::module()),
        "strict" => Some(Context::strict()),
        "generator" => Some(Context::generator()),
        "async" => Some(Context::asynchronous()),
        _ => None,
    }
}
