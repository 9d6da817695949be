//! What binding patterns and formal parameters (ECMA-262, 14.3.3 and 15.1) begin and end with, and what is checked in
//! them.
#![tactic(auto)]

pub mod object;
pub mod params;
pub mod pat;
pub mod rest;
