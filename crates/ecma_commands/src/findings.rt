// What is said of places in a text.
use crate::colour::Colours;
use crate::source::MARK;
use early_errors::fault::EarlyError;
use reporting::Refusal;
use std::alloc::{AllocError, Global};
use std::str;
use swc_ecma_parser::context::frame::Frame;
use swc_ecma_parser::context::span::{BytePos, Span};
use swc_lexer::lines::Lines;

/// What is said of a place.
#[derive(Drop)]
pub struct Finding {
    pub span: Span,
    /// The rule of `lint`; empty for a fault.
    pub rule: &'static str,
    pub message: String,
    /// Another place, where what is there twice is the first time, and what is said before it.
    pub first: Option<(&'static str, Span)>,
    /// Whether the line of the place is shown.
    pub is_shown: bool,
}

impl Finding {
    /// A finding that has this message.
    pub fn new(
        alloc: Global,
        span: Span,
        rule: &'static str,
        message: &str,
    ) -> Result<Finding, AllocError> {
        let message = String::from_str(alloc, message)?;
        Ok(Finding {
            span,
            rule,
            message,
            first: None,
            is_shown: true,
        })
    }
}

/// A text with its name and its lines.
#[derive(Drop)]
pub struct Place<'a> {
    pub name: &'a str,
    pub text: &'a [u8],
    lines: Lines<'a>,
    /// Whether the text begins with a byte order mark, which has no column.
    has_mark: bool,
}

impl<'a> Place<'a> {
    /// The lines of the part of a file that is UTF-8. The only error is out of memory.
    pub fn new(alloc: Global, name: &'a str, bytes: &'a [u8]) -> Result<Place<'a>, AllocError> {
        let text = match str::from_utf8(bytes) {
            Ok(text) => text,
            Err(error) => str::from_utf8(&bytes[..error.valid_up_to()]).unwrap_or(""),
        };
        Ok(Place {
            name,
            text: bytes,
            lines: Lines::new(alloc, text)?,
            has_mark: text.starts_with(MARK),
        })
    }

    /// The line and the column of a place, both counted from 1, the column in UTF-16 units.
    pub fn at(&self, at: BytePos) -> (usize, usize) {
        let found = self.lines.position(at.0 as usize);
        let is_marked = self.has_mark && found.line == 1 && found.column > 1;
        (
            found.line,
            found.column.saturating_sub(usize::from(is_marked)),
        )
    }

    /// How many UTF-16 units are before a place.
    pub fn units(&self, at: BytePos) -> usize {
        self.lines.utf16_offset(at.0 as usize)
    }

    /// The line of a place, with marks below the place. A byte order mark isn't shown.
    fn frame(&self, span: Span) -> Frame<'a> {
        match self.text.strip_prefix("\u{feff}".as_bytes()) {
            Some(rest) => Frame::new(rest, before_mark(span)),
            None => Frame::new(self.text, span),
        }
    }
}

/// Where a place is in a text without its byte order mark.
fn before_mark(span: Span) -> Span {
    let Span { lo, hi } = span;
    Span {
        lo: BytePos(lo.0.saturating_sub(3)),
        hi: BytePos(hi.0.saturating_sub(3)),
    }
}

/// What is wrong with a text, in words.
///
/// `hint` is the option that may read it.
pub fn fault_of(
    alloc: Global,
    place: &Place<'_>,
    refusal: &Refusal,
    levels: usize,
    hint: &'static str,
) -> Result<Finding, AllocError> {
    let mut message = String::new(alloc);
    put_refusal(&mut message, place, refusal, levels)?;
    message.push_str(hint)?;
    Ok(Finding {
        span: refusal.span(),
        rule: "",
        message,
        first: None,
        is_shown: true,
    })
}

/// An early error in words.
pub fn early_fault_of(
    alloc: Global,
    text: &str,
    error: &EarlyError,
) -> Result<Finding, AllocError> {
    let explained = error.explain(text);
    let mut message = String::new(alloc);
    write!(message, "{explained}")?;
    let words = error.kind.first_words();
    Ok(Finding {
        span: error.span,
        rule: "",
        message,
        first: error.first.map(|place| (words, place)),
        is_shown: true,
    })
}

fn put_refusal(
    message: &mut String,
    place: &Place<'_>,
    refusal: &Refusal,
    levels: usize,
) -> Result<(), AllocError> {
    match refusal {
        Refusal::Fault(fault) | Refusal::Unclosed { fault, .. } => {
            let explained = fault.explain(place.text);
            write!(message, "{explained}")?;
        }
        Refusal::TooDeep(_) => write!(
            message,
            "nested too deeply: the stack has room for {levels} levels (`ulimit -s` raises it)"
        )?,
    }
    match refusal.opener() {
        Some(opener) => put_opener(message, place, opener),
        None => Ok(()),
    }
}

/// Tells of what isn't closed.
fn put_opener(message: &mut String, place: &Place<'_>, opener: Span) -> Result<(), AllocError> {
    let bytes = place.text.get(opener.lo.0 as usize..opener.hi.0 as usize);
    let sign = str::from_utf8(bytes.unwrap_or(&[])).unwrap_or("");
    let (line, column) = place.at(opener.lo);
    write!(message, "; '{sign}' at {line}:{column} isn't closed")
}

/// Writes a finding as people read it: `FILE:LINE:COLUMN: message`, the other place in a line, and the line of the text
/// with marks below the place.
pub fn put_words(
    out: &mut String,
    place: &Place<'_>,
    finding: &Finding,
    colours: Colours,
) -> Result<(), AllocError> {
    let (line, column) = place.at(finding.span.lo);
    let (name, message) = (place.name, &finding.message);
    let Colours {
        place: bold,
        message: red,
        end,
    } = colours;
    write!(
        out,
        "{bold}{name}:{line}:{column}:{end} {red}{message}{end}"
    )?;
    if !finding.rule.is_empty() {
        let rule = finding.rule;
        write!(out, " [{rule}]")?;
    }
    if let Some((words, first)) = finding.first {
        let (line, column) = place.at(first.lo);
        write!(out, "\n  {words} {name}:{line}:{column}")?;
    }
    if !finding.is_shown {
        return out.push_str("\n");
    }
    let frame = place.frame(finding.span);
    write!(out, "\n{frame}\n")
}

/// Writes a finding as a line of JSON.
pub fn put_json(out: &mut String, place: &Place<'_>, finding: &Finding) -> Result<(), AllocError> {
    let (line, column) = place.at(finding.span.lo);
    let (end_line, end_column) = place.at(finding.span.hi);
    out.push_str("{\"file\":")?;
    put_quoted(out, place.name)?;
    write!(out, ",\"line\":{line},\"column\":{column}")?;
    write!(out, ",\"endLine\":{end_line},\"endColumn\":{end_column}")?;
    if !finding.rule.is_empty() {
        out.push_str(",\"rule\":")?;
        put_quoted(out, finding.rule)?;
    }
    out.push_str(",\"message\":")?;
    put_quoted(out, finding.message.as_str())?;
    if let Some((_, first)) = finding.first {
        let (line, column) = place.at(first.lo);
        write!(out, ",\"firstLine\":{line},\"firstColumn\":{column}")?;
    }
    out.push_str("}\n")
}

/// Writes that so many more findings aren't told of a file: in words, or as a line of JSON.
pub fn put_more(out: &mut String, name: &str, more: usize, json: bool) -> Result<(), AllocError> {
    if !json {
        return write!(out, "{name}: and {more} more\n");
    }
    out.push_str("{\"file\":")?;
    put_quoted(out, name)?;
    write!(out, ",\"more\":{more}}}\n")
}

/// Writes a text as a JSON string.
pub fn put_quoted(out: &mut String, text: &str) -> Result<(), AllocError> {
    out.push_str("\"")?;
    for letter in text.chars() {
        match letter {
            '"' => out.push_str("\\\"")?,
            '\\' => out.push_str("\\\\")?,
            '\0'..='\u{1f}' => {
                let code = letter as u32;
                write!(out, "\\u{code:04x}")?;
            }
            _ => out.push(letter)?,
        }
    }
    out.push_str("\"")
}
