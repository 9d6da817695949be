// Edits, and the text that they make.
ghost use Rattle.std.specs.Prelude.{◌≡◌, ◌-◌, IfOk, IfErr, take, drop};
ghost use Rattle.std.specs.String.{string_bytes};
ghost use Rattle.text_edits.specs.Edits.{spliced, Wrong, WrongAt};

use std::alloc::Global;

/// Another text in place of a part of a text.
#[derive(Drop)]
pub struct Edit {
    /// The byte with which the part begins.
    pub start: usize,
    /// The byte before which it ends. Where that is its start, the other text is put in there.
    pub end: usize,
    pub text: String,
}

impl Edit {
    /// The text in place of the bytes from `start` to before `end`.
    pub fn new(start: usize, end: usize, text: String) -> Edit
        ensures { result ≡ record { start = start; end = end; text = text } }
    {
        Edit { start, end, text }
    }
}

/// Why no text comes of edits: the number of the first edit that can't be made, from 0, or out of memory.
#[derive(Clone, Copy, Debug, PartialEq, Eq)]
pub enum BadEdit {
    /// It ends before it begins, or after the text.
    Outside(usize),
    /// It begins before the one before it ends.
    Overlaps(usize),
    /// It begins or ends within a character.
    WithinCharacter(usize),
    OutOfMemory,
}

/// The text in which each edit is made. The edits are in the order of their places, and none begins before the one before it
/// ends; what is outside of them stays (`spliced`). Takes time in proportion to what is read and written.
pub fn edited(alloc: Global, text: &str, edits: &[Edit]) -> Result<String, BadEdit>
    ensures spliced { IfOk result (λ new. string_bytes new ≡ spliced text.now 0 edits.now) }
    ensures refused { IfErr result (λ fault. Wrong text.now edits.now fault) }
{
    let mut out = String::new(alloc);
    let (mut at, mut number) = (0, 0);
    while number < edits.len() {
        let edit = &edits[number];
        let part = match kept(text, at, edit, number) {
            Ok(part) => part,
            Err(fault) => return Err(fault),
        };
        if out.push_str(part).is_err() || out.push_str(edit.text.as_str()).is_err() {
            return Err(BadEdit::OutOfMemory);
        }
        at = edit.end;
        number += 1;
    }
    let Some(rest) = text.get(at..) else {
        return Err(BadEdit::WithinCharacter(number.saturating_sub(1)));
    };
    if out.push_str(rest).is_err() {
        return Err(BadEdit::OutOfMemory);
    }
    Ok(out)
}

/// What is kept of the text before an edit, from a byte on.
fn kept<'a>(text: &'a str, at: usize, edit: &Edit, number: usize) -> Result<&'a str, BadEdit>
    ensures kept { IfOk result (λ part. part.now ≡ take (edit.now.start - at) (drop at text.now)) }
    ensures refused { IfErr result (λ fault. WrongAt text.now at edit.now fault) }
{
    if edit.start < at {
        return Err(BadEdit::Overlaps(number));
    }
    if edit.end < edit.start || edit.end > text.len() {
        return Err(BadEdit::Outside(number));
    }
    match text.get(at..edit.start) {
        Some(part) => Ok(part),
        None => Err(BadEdit::WithinCharacter(number)),
    }
}
