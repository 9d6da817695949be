//! Documents, as the layout of a program is one: texts, places for lines, and groups around them.
//!
//! Three rules make the layout of a document. A group is flat if it fits, and broken otherwise; a line that is always
//! there breaks the groups around it; and arguments and chains may be held together instead, so that only what is after a
//! marked place in them is broken.
//!
//! The steps are, in their order: `units`, the tokens of a text; what is noted at them (`marks`, where crates above note
//! what they know of the language, and then `brackets`); parts (`gaps`), which have the comments, too; and text
//! (`measure`, `print`). Each takes linear time.
#![tactic(auto)]

mod between;
pub mod brackets;
pub mod gaps;
pub mod marks;
mod measure;
pub mod print;
pub mod roles;
pub mod style;
pub mod units;
