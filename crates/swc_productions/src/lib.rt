//! The productions: what calls itself back, over what comes before and after these calls in crates below.
#![tactic(auto)]

/// What is read in a context of its own; after it the context is that from before, also after a refusal.
macro_rules! within {
    ($p:ident, $ctx:expr, $read:expr) => {{
        let ctx = $ctx;
        let before = tokens::replace_ctx(&mut $p.input, ctx);
        let read = $read;
        let _ = tokens::replace_ctx(&mut $p.input, before);
        read
    }};
}

pub mod args;
pub mod ring;
mod room;
