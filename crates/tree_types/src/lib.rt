//! The types of the trees of whole programs, over nodes of expressions.
//!
//! statement_trees reads programs into them. What goes over a program, as a writer or a finder of names, needs these types
//! alone, and neither a parser nor a text.
#![tactic(auto)]

pub mod tree;
