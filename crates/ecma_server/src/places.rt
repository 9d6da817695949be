// Positions as the protocol has them: a line ends with LF, CR, or CR and LF. The contracts say at which byte a position is.
ghost use Rattle.std.specs.Prelude.{◌≡◌, ◌<◌, ◌≤◌, length, suc};
ghost use Rattle.ecma_server.specs.Places as places;

/// What the characters of a position count.
#[derive(Clone, Copy, PartialEq, Eq)]
pub(crate) enum Units {
    Utf16,
    Utf8,
}

/// A line and a character in it, both counted from 0.
#[derive(Clone, Copy, PartialEq, Eq)]
pub(crate) struct Position {
    pub(crate) line: usize,
    pub(crate) character: usize,
}

/// From one position up to another.
#[derive(Clone, Copy)]
pub(crate) struct Range {
    pub(crate) start: Position,
    pub(crate) end: Position,
}

/// A byte of a text; 0 after its end.
fn byte_at(bytes: &[u8], at: usize) -> u8
    ensures { result ≡ places.byte_at bytes.now at }
{
    match bytes.get(at) {
        Some(byte) => *byte,
        None => 0,
    }
}

/// Whether a line ends with this byte: a CR before an LF ends none.
fn ends_line(bytes: &[u8], at: usize) -> bool
    requires { at < length bytes.now }
    ensures { result ≡ places.ends_line bytes.now at }
{
    let byte = byte_at(bytes, at);
    byte == b'\n' || (byte == b'\r' && byte_at(bytes, at + 1) != b'\n')
}

/// How many units the character is that begins with the byte; none begins with one that continues another.
fn width(units: Units, byte: u8) -> usize
    ensures { result ≡ places.width units byte }
{
    match units {
        Units::Utf16 => {
            if byte < 128 {
                1
            } else if byte < 192 {
                0
            } else if byte < 240 {
                1
            } else {
                2
            }
        }
        Units::Utf8 => {
            if byte < 128 {
                1
            } else if byte < 192 {
                0
            } else if byte < 224 {
                2
            } else if byte < 240 {
                3
            } else {
                4
            }
        }
    }
}

/// Whether the position is at this byte.
fn stops(units: Units, bytes: &[u8], position: Position, at: usize) -> bool
    ensures { result ≡ places.stops units bytes.now position at }
{
    let byte = byte_at(bytes, at);
    let is_break = byte == b'\n' || byte == b'\r';
    position.line == 0 && (is_break || position.character < width(units, byte))
}

/// What is still to be passed over after this byte.
fn passed(units: Units, bytes: &[u8], position: Position, at: usize) -> Position
    requires { at < length bytes.now }
    ensures { result ≡ places.passed units bytes.now position at }
{
    let line = if ends_line(bytes, at) {
        position.line.saturating_sub(1)
    } else {
        position.line
    };
    let character = if position.line == 0 {
        let width = width(units, byte_at(bytes, at));
        position.character.saturating_sub(width)
    } else {
        position.character
    };
    Position { line, character }
}

/// The byte at a position. After the end of a line that is its end, and after the last line the end of the text.
pub(crate) fn place_in(bytes: &[u8], position: Position, units: Units) -> usize
    ensures { result ≡ places.place_of units bytes.now position }
{
    let mut left = position;
    let mut at = 0;
    while at < bytes.len() {
        if stops(units, bytes, left, at) {
            return at;
        }
        left = passed(units, bytes, left, at);
        at += 1;
    }
    at
}
