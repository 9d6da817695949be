//! What literals mean: numbers, big integers, strings and templates, by the texts that the nodes have of them (`raw`).
//!
//!     assert_eq!(integer("0xFF"), Some(255));
//!     assert_eq!(number(alloc, "1_0.5e1")?, Some(105.0));
//!     assert_eq!(number_text(alloc, 1e21)?.as_str(), "1e+21");
//!     assert_eq!(string_text(alloc, "'\\x41\\n'")?, Some("A\n"));
//!
//! A text that is no such literal has no value: each function returns `None` then.
#![tactic(auto)]

pub mod integer;
pub mod number;
pub mod string;
