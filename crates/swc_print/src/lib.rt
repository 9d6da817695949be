//! Trees of nodes as text.
#![tactic(auto)]

mod common;
mod items;
mod kinds;
mod links;
mod pieces;
pub mod print;
