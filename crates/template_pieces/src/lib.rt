//! Texts with expressions in them, as `Hello {{ user.name }}!`: their pieces, and what is wrong with them.
#![tactic(auto)]

pub mod template;
