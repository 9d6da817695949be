//! The parser of rows, as a type of its own. Its calls write what the parser answers, and promise nothing: so what is
//! written over it is proved without a word of sources, hooks and boxed trees.
#![tactic(auto)]

mod calls;
mod objects;
pub mod parser;
mod reaching;
mod refining;
