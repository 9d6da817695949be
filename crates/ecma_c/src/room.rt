// Room of the caller's, in which an answer is written as far as it goes.

/// The room, and how much was written or would have been.
#[derive(Drop)]
pub(crate) struct Room<'a> {
    bytes: &'a mut [u8],
    needed: usize,
}

impl<'a> Room<'a> {
    pub(crate) fn new(bytes: &'a mut [u8]) -> Room<'a> {
        Room { bytes, needed: 0 }
    }

    /// Writes a text, or as many bytes of it as there is room for.
    pub(crate) fn put(&mut self, text: &str) {
        let free = self.bytes.get_mut(self.needed..).unwrap_or(&mut []);
        for (to, from) in free.iter_mut().zip(text.as_bytes()) {
            *to = *from;
        }
        self.needed = self.needed.saturating_add(text.len());
    }

    /// How many bytes the whole answer takes.
    pub(crate) fn needed(&self) -> usize {
        self.needed
    }

    /// Whether the whole answer is there.
    pub(crate) fn is_enough(&self) -> bool {
        self.needed <= self.bytes.len()
    }
}
