//! Whole ECMAScript programs, read over the expression parser, as values.
//!
//! `read_program` reads a script, a module or a CommonJS module (ECMA-262, 14, 15 and 16): all statements,
//! declarations, functions, classes, imports and exports. The types of the tree are those of the crate tree_types: statements in one
//! vector, and expressions and patterns among the nodes of one `Nodes`. The crate statement_outline writes them as
//! text.
//!
//!     let program = read_program(alloc, "let a = () => { return b }", Goal::Script, 800)?;
//!     for id in &program.body {
//!         if let Some(statement) = program.statement(*id) {
//!             println!(rt; "{}", statement.span)?;
//!         }
//!     }
//!
//! A function, a class, and the block of a method or an arrow function is read in a pass of its own. In a statement or
//! a node it is named by its place, by which `Program::function`, `Program::class` and `Program::block` find it. The
//! source of a program passes over what is in its braces in one step, so functions in one another take linear time.
//!
//! It isn't promised that these trees are those of ECMA-262. A program is refused at the first fault of its text. Early
//! errors, as names that are declared twice, are no faults here, but for those that the parser has: the crate
//! early_errors looks for the rest.
#![tactic(auto)]

mod body;
mod calls;
mod expression;
pub mod faults;
mod frame;
mod member;
mod module;
mod part;
mod program;
mod reader;
mod statement;
mod variables;
mod words;

pub use expression::read_expression;
pub use program::read_program;
pub use tree_types::tree;
