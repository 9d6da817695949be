// Strings and templates (ECMA-262, 12.9.4 and 12.9.6).
use std::alloc::{AllocError, Global};
use swc_lexical::bytes::{first_char, is_at, terminator_len};
use swc_lexical::escape::{Meaning, string_escape};
use swc_lexical::string::string_len;
use swc_lexical::template::good_len;

/// The first code that takes two units.
const LONG: u32 = 0x10000;

/// The first unit of the first and of the second half of a pair.
const FIRST: u32 = 0xD800;

const SECOND: u32 = 0xDC00;

/// The value of a string literal, with its quotes, in units of UTF-16: so a half of a pair by itself, as in `"\uD800"`,
/// is a unit. `None` where the text is no such literal. The only error is out of memory.
pub fn string_units(alloc: Global, raw: &str) -> Result<Option<Vec<u16>>, AllocError> {
    match inside(raw) {
        Some(text) => Ok(Some(units_of(alloc, text.as_bytes())?)),
        None => Ok(None),
    }
}

/// The value of a string literal, with its quotes. `None` where the text is no such literal, or a half of a pair is by
/// itself in it. The only error is out of memory.
pub fn string_text(alloc: Global, raw: &str) -> Result<Option<String>, AllocError> {
    match inside(raw) {
        Some(text) => text_of(alloc, &units_of(alloc, text.as_bytes())?),
        None => Ok(None),
    }
}

/// The value of a text of a template, between its marks (`TplElement::raw`), in units of UTF-16: the cooked one. `None`
/// where an escape is bad, or the text has a mark of a template. The only error is out of memory.
pub fn template_units(alloc: Global, raw: &str) -> Result<Option<Vec<u16>>, AllocError> {
    if is_template_text(raw) {
        Ok(Some(units_of(alloc, raw.as_bytes())?))
    } else {
        Ok(None)
    }
}

/// The value of a text of a template as `template_units` has it. `None` also where a half of a pair is by itself in it.
pub fn template_text(alloc: Global, raw: &str) -> Result<Option<String>, AllocError> {
    if is_template_text(raw) {
        text_of(alloc, &units_of(alloc, raw.as_bytes())?)
    } else {
        Ok(None)
    }
}

/// The text that units of UTF-16 are. `None` where a half of a pair is by itself. The only error is out of memory.
pub fn text_of(alloc: Global, units: &[u16]) -> Result<Option<String>, AllocError> {
    let mut text = String::new(alloc);
    let mut half = None;
    for unit in units {
        let code = u32::from(*unit);
        let (first, whole) = match half {
            Some(first) if is_second(code) => (None, joined(first, code)),
            None if is_first(code) => (Some(code), None),
            None => (None, char::from_u32(code)),
            Some(_) => return Ok(None),
        };
        half = first;
        match (first, whole) {
            (_, Some(letter)) => text.push(letter)?,
            (None, None) => return Ok(None),
            (Some(_), None) => {}
        }
    }
    Ok(half.is_none().then_some(text))
}

/// What is within the quotes of a string literal.
fn inside(raw: &str) -> Option<&str> {
    let text = match raw.as_bytes().first()? {
        quote @ (b'\'' | b'"') => {
            let rest = raw.get(1..)?;
            rest.get(..string_len(*quote, rest.as_bytes())?)?
        }
        _ => return None,
    };
    (text.len().saturating_add(2) == raw.len()).then_some(text)
}

/// Whether a text of a template has no bad escape and no mark.
fn is_template_text(raw: &str) -> bool {
    good_len(raw.as_bytes()) == raw.len()
}

fn is_first(code: u32) -> bool {
    (FIRST..SECOND).contains(&code)
}

fn is_second(code: u32) -> bool {
    (SECOND..0xE000).contains(&code)
}

/// The character of a pair.
fn joined(first: u32, second: u32) -> Option<char> {
    let high = first.saturating_sub(FIRST).saturating_mul(1024);
    char::from_u32(
        high.saturating_add(second.saturating_sub(SECOND))
            .saturating_add(LONG),
    )
}

/// The units of what a text means, with its escapes, of which no one is bad.
fn units_of(alloc: Global, text: &[u8]) -> Result<Vec<u16>, AllocError> {
    let mut units = Vec::new(alloc);
    let mut rest = text;
    // Each turn takes a byte at least.
    for _ in 0..text.len() {
        let Some((found, after)) = next_of(rest) else {
            break;
        };
        if let Meaning::Code(code) = found {
            push_code(&mut units, code)?;
        }
        rest = after;
    }
    Ok(units)
}

/// What bytes begin with, and what is after that.
fn next_of(rest: &[u8]) -> Option<(Meaning, &[u8])> {
    let (found, len) = if rest.is_empty() {
        return None;
    } else if is_at(rest, 0, b'\\') {
        string_escape(rest)?
    } else if is_at(rest, 0, b'\r') {
        (Meaning::Code(10), terminator_len(rest))
    } else {
        let (letter, len) = first_char(rest)?;
        (Meaning::Code(u32::from(letter)), len)
    };
    Some((found, rest.get(len..)?))
}

/// Adds the units of a code.
fn push_code(units: &mut Vec<u16>, code: u32) -> Result<(), AllocError> {
    if code < LONG {
        units.push(code as u16)?;
    } else {
        let rest = code - LONG;
        units.push((FIRST + rest / 1024 % 1024) as u16)?;
        units.push((SECOND + rest % 1024) as u16)?;
    }
    Ok(())
}
