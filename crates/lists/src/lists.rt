// The lists of a row: each list of its tokens, up to a length, that the parser reads whole.
use crate::reading::{Found, read_list};
use crate::row::Row;
use std::alloc::{AllocError, Global};

/// The lists that the parser reads whole.
#[derive(Drop)]
pub(crate) struct Lists {
    /// How many there are of no token, of one, of two and so on.
    counts: Vec<usize>,
    /// Each list with its tree, as `a + a = Bin(+, a, a)`, on a line of its own.
    pub(crate) lines: String,
}

impl Lists {
    /// The counts, and the CRC-32 of the lines.
    pub(crate) fn summary(&self, alloc: Global) -> Result<String, AllocError> {
        let mut out = String::new(alloc);
        for count in &self.counts {
            write!(out, "{count} ")?;
        }
        write!(out, "{:08x}", checksum(self.lines.as_bytes()))?;
        Ok(out)
    }

    /// Adds a list, and its tree.
    fn add(&mut self, row: &Row, list: &[usize], tree: &str) -> Result<(), AllocError> {
        if let Some(count) = self.counts.get_mut(list.len()) {
            *count = count.saturating_add(1);
        }
        for number in list {
            write!(self.lines, "{} ", token(row, *number))?;
        }
        write!(self.lines, "= {tree}\n")
    }
}

/// The lists of the row. One comes before those that begin with it, and otherwise they are in the order of the
/// row's tokens.
pub(crate) fn lists_of(alloc: Global, row: &Row) -> Result<Lists, AllocError> {
    let mut lists = Lists {
        counts: vec![in alloc; 0; row.longest.saturating_add(1)]?,
        lines: String::new(alloc),
    };
    let mut list = Vec::new(alloc);
    for _ in 0..u64::MAX {
        let text = text_of(alloc, row, &list)?;
        let Found { tree, seen } = read_list(alloc, row, text.as_str());
        if let Some(tree) = tree {
            lists.add(row, &list, tree.as_str())?;
        }
        if seen == text.len() && list.len() < row.longest {
            list.push(0)?;
        } else if !go_past(alloc, row, &mut list, text.get(..seen).unwrap_or(""))? {
            return Ok(lists);
        }
    }
    Ok(lists)
}

/// Makes the list the next one that doesn't begin with it. Answers whether there is one.
///
/// Where the parser saw no part of the last token, it makes the same of each list that begins with the tokens before
/// that one, and so these are passed over.
fn go_past(
    alloc: Global,
    row: &Row,
    list: &mut Vec<usize>,
    seen: &str,
) -> Result<bool, AllocError> {
    let before = list.len().saturating_sub(1);
    let front = text_of(alloc, row, list.get(..before).unwrap_or(&[]))?;
    if seen.trim_end().len() <= front.trim_end().len() {
        list.truncate(before);
    }
    for _ in 0..list.len() {
        let next = list.pop().unwrap_or(0).saturating_add(1);
        if next < row.tokens.len() {
            list.push(next)?;
            return Ok(true);
        }
    }
    Ok(false)
}

/// The token of this number, as the row writes it.
fn token(row: &Row, number: usize) -> &str {
    match row.tokens.get(number) {
        Some(token) => token.as_str(),
        None => "",
    }
}

/// The text of a list. A token that begins with `\r` has a line break before it, and `\|` is `|`. There is a blank
/// after each token but `#`, since a name follows that at once.
fn text_of(alloc: Global, row: &Row, list: &[usize]) -> Result<String, AllocError> {
    let mut text = String::new(alloc);
    for number in list {
        let token = token(row, *number);
        match token {
            "#" => text.push_str("#")?,
            "\\|" => text.push_str("| ")?,
            _ => match token.strip_prefix("\\r") {
                Some(rest) => write!(text, "\r{rest} ")?,
                None => write!(text, "{token} ")?,
            },
        }
    }
    Ok(text)
}

/// The CRC-32 of the bytes.
fn checksum(bytes: &[u8]) -> u32 {
    let mut sum = u32::MAX;
    for byte in bytes {
        sum = with_byte(sum, *byte);
    }
    !sum
}

/// The sum with one more byte.
fn with_byte(sum: u32, byte: u8) -> u32 {
    let mut rest = sum ^ u32::from(byte);
    for _ in 0..8 {
        let is_odd = rest & 1 == 1;
        rest >>= 1;
        if is_odd {
            rest ^= 0xedb8_8320;
        }
    }
    rest
}
