//! Laws between what is in parentheses and what is bound: a list that `=>` makes parameters of is derived as
//! parameters too, and what is derived as parameters, by names that are free to be bound anywhere, is derived as such a
//! list.
#![tactic(auto)]

pub mod laws;
