// Messages that were read together: what comes later may decide what becomes of a request.
use crate::answers::Code;
use crate::json::text_at;
use serde_json::Value;
use std::alloc::{AllocError, Global};

/// A message, or why it is none.
#[derive(Drop)]
pub(crate) enum Letter {
    Message(Value),
    Bad(Code, &'static str),
}

impl Letter {
    /// What the bytes of a message say.
    pub(crate) fn of(alloc: Global, bytes: &[u8]) -> Letter {
        match Value::from_slice(alloc, bytes) {
            Ok(message) => Letter::Message(message),
            Err(error) if error.is_memory() => Letter::Bad(Code::InternalError, "out of memory"),
            Err(_) => Letter::Bad(Code::ParseError, "this isn't JSON"),
        }
    }
}

/// What becomes of a message, by those that were read with it.
#[derive(Clone, Copy, PartialEq, Eq)]
pub(crate) enum Fate {
    /// It is answered.
    Answered,
    /// A `$/cancelRequest` comes after it.
    Cancelled,
    /// A change of its document comes after it.
    Outdated,
}

/// What becomes of each message, the last one first.
pub(crate) fn fates(alloc: Global, letters: &[Letter]) -> Result<Vec<Fate>, AllocError> {
    let mut fates = Vec::new(alloc);
    let mut cancelled = Vec::new(alloc);
    let mut changed = Vec::new(alloc);
    for letter in letters.iter().rev() {
        let Letter::Message(message) = letter else {
            fates.push(Fate::Answered)?;
            continue;
        };
        let uri = text_at(message, "/params/textDocument/uri");
        match text_at(message, "/method") {
            Some("$/cancelRequest") => cancelled.push(message.pointer("/params/id"))?,
            Some("textDocument/didChange") => changed.push(uri)?,
            _ => {}
        }
        let id = message.get("id");
        fates.push(if id.is_none() {
            Fate::Answered
        } else if cancelled.contains(&id) {
            Fate::Cancelled
        } else if uri.is_some() && changed.contains(&uri) {
            Fate::Outdated
        } else {
            Fate::Answered
        })?;
    }
    Ok(fates)
}
