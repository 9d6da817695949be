// How wide lines are, how far they are indented, and where commas are.

/// Where a comma is after the last item, where the closing bracket begins a line.
#[derive(Clone, Copy, PartialEq, Eq)]
pub enum Commas {
    /// Nowhere.
    None,
    /// In arrays, objects, imports and exports.
    Lists,
    /// In arguments and parameters, too.
    All,
}

/// A style of layouts.
#[derive(Clone, Copy)]
pub struct Style {
    /// How many columns a line has, if it can be broken.
    pub width: usize,
    /// By how many columns a line is indented more.
    pub indent: usize,
    pub commas: Commas,
}

impl Style {
    /// Lines of 80 columns, indented by 2, and commas wherever they may be.
    pub fn usual() -> Style {
        Style {
            width: 80,
            indent: 2,
            commas: Commas::All,
        }
    }
}
