// How deeply expressions may be nested on the stack that the program has.
use std::io::Read;
use std::{fs, io, str};

/// How many bytes of stack a level takes at most, in any build.
const BYTES: usize = 14_000;

/// How many bytes are left for all else.
const REST: usize = 256 << 10;

/// The stack of a process, in bytes, where the system doesn't say.
const USUAL: usize = 8 << 20;

/// The table of limits takes fewer bytes.
const ROOM: usize = 4096;

/// The levels on a stack that has no limit.
const MOST: usize = 100_000;

/// How many levels fit on the stack. Takes no memory.
pub fn levels(rt: &HostRuntime) -> usize {
    let mut room = [0u8; ROOM];
    match read_limits(rt, &mut room) {
        Ok(len) => levels_by(&room[..len.min(ROOM)]),
        Err(_) => levels_in(USUAL),
    }
}

/// Reads what the system says of the limits of the process. Answers how many bytes that is.
fn read_limits(rt: &HostRuntime, room: &mut [u8]) -> io::Result<usize> {
    let mut file = fs::File::open(rt, "/proc/self/limits")?;
    file.read(room)
}

/// How many levels fit on the stack of which the table of limits tells.
fn levels_by(limits: &[u8]) -> usize {
    match stack_word(limits) {
        Some("unlimited") => MOST,
        Some(digits) => levels_in(usize::from_str_radix(digits, 10).unwrap_or(USUAL)),
        None => levels_in(USUAL),
    }
}

/// How many levels fit on a stack of so many bytes.
fn levels_in(bytes: usize) -> usize {
    (bytes.saturating_sub(REST) / BYTES).clamp(1, MOST)
}

/// What the system's table says of the stack: a number or `unlimited`.
fn stack_word(limits: &[u8]) -> Option<&str> {
    let text = str::from_utf8(limits).ok()?;
    let (_, rest) = text.split_once("Max stack size")?;
    rest.trim_start().split(' ').next()
}
