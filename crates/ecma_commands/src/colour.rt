// Colours, for a terminal alone.
use std::env;
use std::io::IsTerminal;

/// How a finding is written.
#[derive(Clone, Copy)]
pub struct Colours {
    /// What begins the place.
    pub place: &'static str,
    /// What begins the message.
    pub message: &'static str,
    /// What ends either.
    pub end: &'static str,
}

/// No colours.
pub const PLAIN: Colours = Colours {
    place: "",
    message: "",
    end: "",
};

/// Bold places, red messages.
const BRIGHT: Colours = Colours {
    place: "\u{1b}[1m",
    message: "\u{1b}[31m",
    end: "\u{1b}[0m",
};

/// The colours of what is written to standard output, or to standard error: none if that is no terminal, or if the
/// environment has a `NO_COLOR` that isn't empty.
pub fn colours_for(rt: &HostRuntime, is_output: bool) -> Colours {
    let is_terminal = if is_output {
        rt.stdout().is_terminal()
    } else {
        rt.stderr().is_terminal()
    };
    let is_refused = match env::var(rt, "NO_COLOR") {
        Ok(value) => !value.is_empty(),
        Err(_) => false,
    };
    if is_terminal && !is_refused {
        BRIGHT
    } else {
        PLAIN
    }
}
