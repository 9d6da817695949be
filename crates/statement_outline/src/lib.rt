//! Programs as text: a line for each statement, clause and member (ECMA-262, 14 to 16).
//!
//! What a line holds is below it, two blanks deeper. Expressions and patterns are written as swc_print writes them.
//! After `with` a line names the places of the functions, classes and blocks in it, in their order, and each of these
//! is written after the program, below a line that begins with `at` and its place.
#![tactic(auto)]

mod lines;
mod outline;
mod statement;

pub use crate::lines::outline_of;
