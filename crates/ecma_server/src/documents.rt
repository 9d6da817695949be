// The documents that are open.
use crate::lines::LineIndex;
use crate::places::{Position, Units, place_in};
use statement_trees::tree::Goal;
use std::alloc::{AllocError, Global};

/// A document that is open.
#[derive(Drop)]
pub(crate) struct Document {
    pub(crate) uri: String,
    pub(crate) version: i64,
    pub(crate) text: String,
    /// What its name says that it is.
    pub(crate) goal: Option<Goal>,
    /// Whether its faults are still to be told.
    pub(crate) is_changed: bool,
}

impl Document {
    /// The byte at a position.
    pub(crate) fn place(&self, position: Position, units: Units) -> usize {
        place_in(self.text.as_bytes(), position, units)
    }

    /// The lines of the document.
    pub(crate) fn lines(&self, alloc: Global, units: Units) -> Result<LineIndex<'_>, AllocError> {
        LineIndex::new(alloc, self.text.as_str(), units)
    }
}

/// The documents, in the order in which they were opened.
#[derive(Drop)]
pub(crate) struct Documents {
    pub(crate) open: Vec<Document>,
}

impl Documents {
    /// The number of a document.
    pub(crate) fn find(&self, uri: &str) -> Option<usize> {
        self.open
            .iter()
            .position(|document| document.uri.as_str() == uri)
    }

    /// A document.
    pub(crate) fn get(&self, uri: &str) -> Option<&Document> {
        self.open.get(self.find(uri)?)
    }

    /// Opens a document, or puts it in the place of the one with its name.
    pub(crate) fn put(&mut self, document: Document) -> Result<(), AllocError> {
        self.close(document.uri.as_str());
        self.open.push(document)?;
        Ok(())
    }

    /// Closes a document. Says whether it was open.
    pub(crate) fn close(&mut self, uri: &str) -> bool {
        match self.find(uri) {
            Some(at) if at < self.open.len() => {
                let _ = self.open.remove(at);
                true
            }
            _ => false,
        }
    }
}
