//! What left-hand sides, arguments and templates (ECMA-262, 13.3 and 13.2.8) begin and end with, and what is checked
//! in them.
#![tactic(auto)]

pub mod args;
pub mod base;
pub mod left;
pub mod tpl;
