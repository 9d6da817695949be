//! What operators and assignments (ECMA-262, 13.4 to 13.16, 15.5 and 15.8) begin and end with, and what is checked in
//! them.
#![tactic(auto)]

pub mod assign;
pub mod ops;
pub mod plain;
pub mod prefix;
pub mod within;
