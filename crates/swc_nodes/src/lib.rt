//! The syntax tree in one vector of nodes: each expression and each pattern is a node, which holds
//! its parts by their numbers.
//!
//! What a number stands for is `tree_at`, of `specs/GrowingNodes.antt`: a tree of the same kind as a
//! boxed tree of swc_ast stands for.
#![tactic(auto)]

pub mod apart;
pub mod arrows;
pub mod aside;
pub mod commas;
pub mod ends;
pub mod lookup;
pub mod making;
mod marking;
pub mod node;
pub mod nodes;
pub mod patterns;
pub mod pending;
pub mod reached;
mod recasting;
pub mod renumbering;
pub mod role;
pub mod shape;
mod turning;
pub mod walk;
