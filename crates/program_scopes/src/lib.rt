//! Which names, labels and private names a program has declared at the place that a walk over it has reached
//! (ECMA-262, 8.2, 8.3 and 15.7).
//!
//! A walk begins and ends scopes in the order of the text, and says what is declared in them. Each declaration is
//! answered with the place of an earlier one that it must not be beside:
//!
//!     let mut names = Names::new(alloc);
//!     names.begin_function()?;
//!     names.declare_in_block("a", first, Lexical::Plain)?;
//!     let earlier = names.declare_in_function("a", second)?;
//!     assert!(earlier == Some(first));
#![tactic(auto)]

pub mod labels;
mod layers;
pub mod name_stack;
pub mod names;
pub mod private;
