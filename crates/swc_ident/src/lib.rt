//! The names of a text, read from a buffer.
//!
//! Each call of `ident` reads one name from its first token on. Beside what it says of itself, it
//! may be refused when out of memory (`OutOfMemory`, where the token consumed last ends). A refusal
//! is made as by `Buffer::syntax_error`: where an error token is current, also after a word that
//! was consumed, that token is consumed, and its error is the refusal. The context is kept, and no
//! fault that was recorded is taken out.
#![tactic(auto)]

pub mod ident;
mod words;
