//! What arrow functions (ECMA-262, 15.3 and 15.9) begin and end with, and what is checked in them.
#![tactic(auto)]

pub mod bodies;
pub mod lists;
pub mod names;
pub mod starts;
