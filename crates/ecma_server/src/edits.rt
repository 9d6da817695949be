// Edits of a text.
ghost use Rattle.std.specs.Prelude.{◌≡◌, ◌++◌, ⊤, IfOk, MatchOption, take, drop};
ghost use Rattle.std.specs.String.{string_bytes};
ghost use Rattle.ecma_server.specs.Places.{place_of};

use crate::places::{Range, Units, place_in};
use std::alloc::{AllocError, Global};

/// The text with another one in place of the bytes from one place up to another; `None` where these are no places of the
/// text, in their order, or lie within a character.
fn spliced(
    alloc: Global,
    text: &str,
    from: usize,
    to: usize,
    with: &str,
) -> Result<Option<String>, AllocError>
    ensures splices { IfOk result (λ o. MatchOption o ⊤
        (λ s. string_bytes s ≡ take from text.now ++ (with.now ++ drop to text.now))) }
{
    if from > to {
        return Ok(None);
    }
    match (text.get(..from), text.get(to..)) {
        (Some(before), Some(after)) => {
            let mut out = String::new(alloc);
            out.push_str(before)?;
            out.push_str(with)?;
            out.push_str(after)?;
            Ok(Some(out))
        }
        _ => Ok(None),
    }
}

/// The text with another one in place of a range, as the protocol counts; `None` where the range ends before it begins.
pub(crate) fn changed(
    alloc: Global,
    text: &str,
    range: Range,
    with: &str,
    units: Units,
) -> Result<Option<String>, AllocError>
    ensures changes { IfOk result (λ o. MatchOption o ⊤ (λ s. string_bytes s
        ≡ take (place_of units text.now range.start) text.now
        ++ (with.now ++ drop (place_of units text.now range.end) text.now))) }
{
    let bytes = text.as_bytes();
    let from = place_in(bytes, range.start, units);
    let to = place_in(bytes, range.end, units);
    spliced(alloc, text, from, to, with)
}
