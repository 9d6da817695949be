//! What productions are on: the parser's state, steps over the buffer, and regular expressions.
#![tactic(auto)]

pub mod productions;
pub mod regex;
pub mod tokens;
