// The units of a pattern: its characters, or where neither `u` nor `v` is a flag, its UTF-16 code units.
ghost use Rattle.std.specs.Prelude.{◌≡◌, ◌++◌, IfOk};
ghost use Rattle.std.specs.Str.{chars};
ghost use Rattle.regex_patterns.specs.Units as written;

use std::alloc::{AllocError, Global};

/// The units of a character, after others.
fn push_units(units: &mut Vec<u32>, ch: char, are_characters: bool) -> Result<(), AllocError>
    ensures { IfOk result (λ u. units.new.items ≡ units.old.items ++ written.unit_of are_characters ch) }
{
    let value = u32::from(ch);
    if are_characters || value < 0x1_0000 {
        units.push(value)?;
    } else {
        units.push(0xD800 + (value - 0x1_0000) / 0x400)?;
        units.push(0xDC00 + (value - 0x1_0000) % 0x400)?;
    }
    Ok(())
}

/// The units of a text.
pub(crate) fn units_of(
    alloc: Global,
    text: &str,
    are_characters: bool,
) -> Result<Vec<u32>, AllocError>
    ensures { IfOk result (λ v. v.items ≡ written.units are_characters (chars text.now)) }
{
    let mut units = Vec::new(alloc);
    let mut rest = text.chars();
    while let Some(ch) = rest.next() {
        push_units(&mut units, ch, are_characters)?;
    }
    Ok(units)
}

/// At which byte of a text its unit begins that has the number; the end of the text, if there is none.
pub(crate) fn place_of(text: &str, are_characters: bool, unit: usize) -> usize {
    let mut before = 0usize;
    for (at, ch) in text.char_indices() {
        let len = if are_characters { 1 } else { ch.len_utf16() };
        before = before.saturating_add(len);
        if unit < before {
            return at;
        }
    }
    text.len()
}
