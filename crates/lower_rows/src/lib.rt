//! What rows of tests answer that are about what the parser is built on: buffers, lexers, contexts, words and faults.
//! And what rows of the parser are read with and shown by: settings, sources and hooks, and trees as texts.
//!
//! A crate below the parser, so that it is proved beside the productions.
#![tactic(auto)]

pub mod buffers;
pub mod contexts;
pub mod faults;
pub mod flags;
pub mod hooks;
pub mod kept;
pub mod lexed;
pub mod lexer;
pub mod numbered;
pub mod row;
pub mod settings;
pub mod shown;
mod slashes;
pub mod source;
pub mod tokens;
pub mod trees;
pub mod words;
