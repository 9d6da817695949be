//! Where the parser's tokens come from: tokens, their sources, and the buffer over a source.
#![tactic(auto)]

pub mod buffer;
pub mod capturing;
pub mod keeping;
pub mod listed;
pub mod recording;
pub mod token;
pub mod tokens;
