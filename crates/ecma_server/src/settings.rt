// How documents are looked at.
use crate::places::Units;

/// How documents are looked at.
#[derive(Clone, Copy)]
pub(crate) struct Settings {
    /// How deeply expressions may be nested.
    pub(crate) levels: usize,
    pub(crate) units: Units,
    /// Whether the rules of `lint` are looked for.
    pub(crate) lint: bool,
    /// How many columns a line of a layout has.
    pub(crate) width: usize,
}
