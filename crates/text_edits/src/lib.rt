//! Edits of a text: other texts in place of parts of it, all at once.
//!
//!     let edits = vec![in alloc; Edit::new(4, 9, String::from_str(alloc, "sum")?)]?;
//!     assert_eq!(edited(alloc, "let total", &edits)?.as_str(), "let sum");
#![tactic(auto)]

pub mod edit;
