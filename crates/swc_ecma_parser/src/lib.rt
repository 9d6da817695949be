//! The expressions and patterns of ECMAScript: from tokens to a tree with spans and a list of
//! recorded faults, or a refusal.
#![tactic(auto)]

pub use swc_ast as ast;
pub use swc_bodies as bodies;
pub use swc_context as context;
pub use swc_cover::pat_type::PatType;
pub use swc_ident as ident;
pub use swc_input as input;
pub use swc_laws::laws;
pub use swc_lexer as lexer;
pub use swc_lexical as lexical;
pub use swc_nodes as nodes;
pub use swc_print as printing;
pub use swc_tokens as tokens;
pub use swc_trees as trees;

mod arrow_params;
pub mod both_ways;
mod finishing;
mod for_heads;
pub mod parser;
pub mod places;
pub mod prelude;
pub mod replaying;
mod taking;
pub mod text;
mod verifier;
pub mod whole;
