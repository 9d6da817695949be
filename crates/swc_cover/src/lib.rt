//! Expressions that become patterns (ECMA-262, 13.15.5 and 15.3): what is recorded of them, and what their nodes
//! become.
#![tactic(auto)]

mod checking;
mod faults;
pub mod items;
pub mod noting;
pub mod param_names;
pub mod pat_type;
pub mod patterns;
pub mod refining;
