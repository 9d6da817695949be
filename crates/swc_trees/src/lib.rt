//! Moves boxed trees out of the nodes, and into them. Moving a tree doesn't change it.
#![tactic(auto)]

mod assembling;
mod built;
mod items;
pub mod making;
mod moved;
mod parting;
pub mod parts;
mod pieces;
mod placing;
pub mod putting;
mod refusable;
mod splitting;
pub mod taking;
