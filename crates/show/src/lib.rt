//! The program `show_expr` as a function: reads source text, and writes what the parser makes of it.
#![tactic(auto)]

pub mod answer;
mod arguments;
pub mod counted;
pub mod levels;
pub mod run;
pub mod streams;
