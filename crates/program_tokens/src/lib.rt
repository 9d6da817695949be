//! The tokens of a program as a source, and a hook that passes over functions, classes and blocks, which wait for
//! passes of their own.
//!
//! A parser over `ProgramInput` with the hook `ProgramBodies` reads a body's braces alone where the body is in an
//! expression, in one step, however long the body is. `ProgramBodies::pop` hands out the bodies that were passed over,
//! and `ProgramInput::from_start` begins again at one of them: so each token is read once, but for the heads of
//! functions and classes that are in other such heads.
#![tactic(auto)]

pub mod brackets;
pub mod hook;
pub mod source;
pub mod texts;
