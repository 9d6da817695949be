//! What programs over the parser share: reading their argument and standard input, reading a text as an expression, and
//! saying what is wrong with a text, and where.
#![tactic(auto)]

pub mod expr;
pub mod input;
pub mod openers;

use std::alloc::{AllocError, AllocFailed};
use std::io::Read;
use std::{fmt, io, str};
use swc_ecma_parser::context::error::{Error, SyntaxError};
use swc_ecma_parser::context::frame::Frame;
use swc_ecma_parser::context::span::{LineColumn, Span};

/// How deeply an expression may be nested (`Parser::limit_nesting`). So deep it takes at most two thirds of a stack of
/// 8 MB (docs/SPEED.md).
pub const LEVELS: usize = 800;

/// The status of a program that did what it was asked to.
pub const DONE: u8 = 0;

/// The status where the text is refused.
pub const REFUSED: u8 = 1;

/// The status where memory runs out, where standard input or output fails, and where the arguments are bad.
pub const FAILED: u8 = 3;

/// Why a text isn't read.
#[derive(Drop)]
pub enum Refusal {
    /// It has this fault, or memory ran out.
    Fault(Error),
    /// It is nested too deeply, there.
    TooDeep(Span),
    /// It has this fault, and what opens there isn't closed.
    Unclosed { fault: Error, opener: Span },
}

impl From<Error> for Refusal {
    fn from(fault: Error) -> Refusal {
        Refusal::Fault(fault)
    }
}

// So that `?` refuses where the memory for a caller's own value is refused.

impl From<AllocError> for Refusal {
    fn from(failure: AllocError) -> Refusal {
        Refusal::Fault(Error::from(failure))
    }
}

impl<T: Drop> From<AllocFailed<T>> for Refusal {
    fn from(failure: AllocFailed<T>) -> Refusal {
        Refusal::Fault(Error::from(failure))
    }
}

/// What is wrong, without its place: `span` tells that. A place that is named is in bytes.
impl fmt::Display for Refusal {
    fn fmt<W: fmt::Write>(&self, f: &mut fmt::Formatter<W>) -> fmt::Result {
        match self {
            Refusal::Fault(fault) => write!(f, "{fault}"),
            Refusal::TooDeep(_) => f.write_str("nested too deeply"),
            Refusal::Unclosed { fault, opener } => {
                write!(f, "{fault}; what opens at {opener} isn't closed")
            }
        }
    }
}

impl Refusal {
    /// The refusal of a parser, which `is_too_deep` or has met a fault.
    pub fn new(fault: Error, is_too_deep: bool) -> Refusal {
        if is_too_deep {
            Refusal::TooDeep(fault.span())
        } else {
            Refusal::Fault(fault)
        }
    }

    /// Where it is.
    pub fn span(&self) -> Span {
        match self {
            Refusal::Fault(fault) | Refusal::Unclosed { fault, .. } => fault.span(),
            Refusal::TooDeep(span) => *span,
        }
    }

    /// Whether memory ran out, so that the text has no fault.
    pub fn is_failure(&self) -> bool {
        match self {
            Refusal::Fault(fault) | Refusal::Unclosed { fault, .. } => is_failure(fault.kind()),
            Refusal::TooDeep(_) => false,
        }
    }

    /// Whether the text ends too early.
    pub fn is_end(&self) -> bool {
        match self {
            Refusal::Fault(fault) | Refusal::Unclosed { fault, .. } => {
                matches!(fault.kind(), SyntaxError::Eof)
            }
            Refusal::TooDeep(_) => false,
        }
    }

    /// The refusal that also tells what isn't closed. One that already does, or is `TooDeep`, stays as it is.
    pub fn with_opener(self, opener: Span) -> Refusal {
        match self {
            Refusal::Fault(fault) => Refusal::Unclosed { fault, opener },
            other => other,
        }
    }

    /// Where what isn't closed opens, if the refusal tells of that.
    pub fn opener(&self) -> Option<Span> {
        match self {
            Refusal::Unclosed { opener, .. } => Some(*opener),
            _ => None,
        }
    }
}

/// Standard input, whole.
pub fn read_text(rt: &HostRuntime) -> io::Result<Vec<u8>> {
    let mut bytes = Vec::new(rt.alloc());
    rt.reader().read_to_end(&mut bytes)?;
    Ok(bytes)
}

/// Says on standard error what is wrong with the text, as `line:column: message`, and shows the line with marks below
/// the fault. Answers the program's status. Where memory ran out, that has no place in the text: then standard error
/// has the message alone.
pub fn report(rt: &HostRuntime, text: &[u8], refusal: &Refusal) -> u8 {
    let opener = refusal.opener().map(|span| span.line_column(text));
    report_at(rt, text, refusal.span().line_column(text), opener, refusal)
}

/// Says on standard error what is wrong at a place, as `report` does, by the places of the fault and of what isn't
/// closed.
pub fn report_at(
    rt: &HostRuntime,
    text: &[u8],
    place: LineColumn,
    opener: Option<LineColumn>,
    refusal: &Refusal,
) -> u8 {
    if refusal.is_failure() {
        let _ = eprintln!(rt; "out of memory");
        return FAILED;
    }
    let _ = eprint!(rt; "{place}: ");
    let _ = match refusal {
        Refusal::Fault(fault) | Refusal::Unclosed { fault, .. } => {
            let explained = fault.explain(text);
            eprint!(rt; "{explained}")
        }
        Refusal::TooDeep(_) => eprint!(rt; "nested too deeply"),
    };
    if let (Some(place), Some(opener)) = (opener, refusal.opener()) {
        let sign = text_at(text, opener);
        let _ = eprint!(rt; "; '{sign}' at {place} isn't closed");
    }
    let frame = Frame::new(text, refusal.span());
    let _ = eprintln!(rt; "\n{frame}");
    REFUSED
}

/// What is in a text at a place; nothing, if that isn't UTF-8.
fn text_at(text: &[u8], place: Span) -> &str {
    let bytes = text.get(place.lo.0 as usize..place.hi.0 as usize);
    str::from_utf8(bytes.unwrap_or(&[])).unwrap_or("")
}

/// Says on standard error why a program failed that has no fault of the text to tell: memory runs out, or standard
/// input or output fails. Answers its status.
pub fn report_failure(rt: &HostRuntime, failure: &io::Error) -> u8 {
    let _ = eprintln!(rt; "{failure}");
    FAILED
}

/// Whether memory ran out, so that the text has no fault.
pub fn is_failure(kind: &SyntaxError) -> bool {
    matches!(kind, SyntaxError::OutOfMemory | SyntaxError::ParserFailed)
}
