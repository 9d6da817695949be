//! Single bytes, and line terminators.
ghost use Rattle.std.specs.Prelude.{◌≡◌, ◌≤◌, ◌<◌, length, slice_get, true, IfSome};
ghost use Rattle.swc_lexical.specs.Runs as runs;
ghost use Rattle.swc_lexical.specs.Chars as chars;

/// Whether this byte is there.
pub fn is_at(rest: &[u8], at: usize, byte: u8) -> bool
    ensures value { result ≡ runs.is_at rest.now at byte }
    ensures within { result ≡ true → at < length rest.now }
{
    match rest.get(at) {
        Some(found) => *found == byte,
        None => false,
    }
}

/// How many bytes the line terminator takes that is here; 0 where none does.
pub fn terminator_len(rest: &[u8]) -> usize
    ensures value { result ≡ chars.terminator_len rest.now }
    ensures within { result ≤ length rest.now }
{
    if is_at(rest, 0, b'\r') {
        if is_at(rest, 1, b'\n') { 2 } else { 1 }
    } else if is_at(rest, 0, b'\n') {
        1
    } else if is_at(rest, 0, 0xE2)
        && is_at(rest, 1, 0x80)
        && (is_at(rest, 2, 0xA8) || is_at(rest, 2, 0xA9))
    {
        3
    } else {
        0
    }
}

/// The character that the bytes begin with, and how many bytes it takes.
#[tactic(auto, using(crate::proofs::Chars::found, crate::proofs::Chars::none_found, crate::proofs::Chars::empty_found, crate::proofs::Chars::long_found))]
pub fn first_char(rest: &[u8]) -> Option<(char, usize)>
    ensures value { result ≡ chars.first_char rest.now }
    ensures within { IfSome result (λ r. (0 < r.1) × (r.1 ≤ length rest.now)) }
{
    let (found, size) = bstr::decode_utf8(rest);
    match found {
        None => None,
        Some(ch) => {
            if size == 0 {
                return None;
            }
            if rest.len() < size {
                return None;
            }
            Some((ch, size))
        }
    }
}

/// A byte that is no line terminator.
pub fn plain_len(rest: &[u8]) -> usize
    ensures value { result ≡ chars.plain_len rest.now }
    ensures within { result ≤ length rest.now }
{
    match rest.get(0) {
        None => 0,
        Some(byte) if b'\r' < *byte && *byte < 0xE2 => 1,
        Some(_) => { if terminator_len(rest) == 0 { 1 } else { 0 } }
    }
}
