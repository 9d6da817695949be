//! Walks over whole programs: their statements, functions, classes and expressions, in the order of the text.
//!
//!     let mut walk = Walk::new(alloc, &program)?;
//!     for _ in 0..u64::MAX {
//!         let Some(visit) = walk.next()? else {
//!             break;
//!         };
//!         if visit.step == Step::Enter
//!             && let Part::Statement(id) = visit.part
//!         {
//!             println!(rt; "{} {}", walk.around().len(), visit.span)?;
//!         }
//!     }
//!
//! The loop counts, so that a proof sees its end.
//!
//! A walk goes over what the program reaches, and so not over nodes that a fault left unreached. It takes no recursion, and
//! memory in proportion to how deeply the program is nested and how long its lists are.
#![tactic(auto)]

pub mod functions;
mod parts;
pub mod walk;
