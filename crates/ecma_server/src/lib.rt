//! A server of the Language Server Protocol (3.17) for ECMAScript: faults, layouts, symbols and names, for editors.
//!
//! `serve` reads messages from standard input, one after another, and answers on standard output. Nothing that a client
//! sends ends it but `exit` and the end of input. Positions are in UTF-16 units, or in bytes where the client offers
//! UTF-8.
#![tactic(auto)]

mod answers;
mod batch;
mod changes;
mod diagnostics;
mod documents;
mod edits;
mod input;
mod json;
mod kinds;
mod layouts;
mod lines;
mod names;
mod outline;
mod places;
mod rename;
mod selection;
pub mod server;
mod settings;
mod tokens;
