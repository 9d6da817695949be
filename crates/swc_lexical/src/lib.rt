//! The written lexical grammar of ECMAScript (ECMA-262, 12), and scanners over bytes which give what it says.
#![tactic(auto)]

pub mod blank;
pub mod bytes;
pub mod comment;
pub mod escape;
pub mod fault;
pub mod lexeme;
pub mod meaning;
pub mod name;
pub mod number;
pub mod quoted;
pub mod scan;
pub mod sign;
pub mod string;
pub mod template;
