//! The hook by which the parser reads functions, classes and blocks, into which it doesn't look.
#![tactic(auto)]

pub mod bodies;
pub mod deferred;
pub mod none;
mod place;
pub mod token_bodies;
pub mod token_body;
