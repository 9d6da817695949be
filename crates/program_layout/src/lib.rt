//! Whole ECMAScript programs as texts, in a layout of their own.
//!
//! `layout` reads a program by `statement_trees`, and notes at its tokens what is between statements, in their heads,
//! and around functions and classes. What is in expressions is noted by `expr_layout`, which makes the text too.
#![tactic(auto)]

mod bodies;
mod declarations;
mod ends;
mod ignored;
pub mod layout;
mod modules;
mod statements;
