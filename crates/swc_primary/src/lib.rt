//! What primary expressions (ECMA-262, 13.2) begin and end with, and what is checked in them.
#![tactic(auto)]

pub mod literals;
pub mod methods;
pub mod modifiers;
pub mod object;
pub mod parens;
pub mod primary;
