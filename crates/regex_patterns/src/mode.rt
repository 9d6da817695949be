// How a pattern is read.

/// What the flags, and the groups of a pattern, say of how it is read.
#[derive(Clone, Copy)]
pub(crate) struct Mode {
    /// `u` or `v`: no forms of old scripts.
    pub(crate) unicode: bool,
    /// `v`: classes of sets.
    pub(crate) sets: bool,
    /// `\k` is a reference: with `unicode`, and where a group has a name.
    pub(crate) named: bool,
}
