//! The tokens of the parser, made of the lexemes of a text.
#![tactic(auto)]

mod after;
mod after_word;
pub mod comments;
pub mod input;
pub mod legacy;
pub mod lines;
pub mod mark;
pub mod place;
pub mod read;
pub mod reader;
pub mod sign;
pub mod stack;
pub mod token;
