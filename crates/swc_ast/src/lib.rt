//! The syntax tree of ECMAScript's expressions and patterns: its types, its spans, and which parts
//! of it may be assigned to.
//!
//! All types with parts are generic over three types that a caller brings: `F` for functions, `C`
//! for classes and `K` for the blocks of functions. What a tree stands for in contracts is one
//! uniform tree, of `specs/Tree.antt`, that `specs/TreeOf.antt` gives; `specs/Trees.antt` has its
//! nodes as the grammar writes them, and the early errors that look at such a tree alone;
//! `specs/Patterns.antt` has those of patterns.
#![tactic(auto)]

pub mod expr;
pub mod for_head;
pub mod function;
pub mod ident;
pub mod lit;
pub mod pat;
pub mod prop;
pub mod spanned;
pub mod target;
