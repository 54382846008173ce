//! What is told of a fault beside its place.

use std::alloc::{AllocError, Global};

/// Lines below the first one of a report, and what may be meant.
#[derive(Drop)]
pub struct Hints {
    pub lines: Vec<u8>,
    /// The word that is nearest to the one at fault, if one is near.
    pub near: Option<Vec<u8>>,
}

impl Hints {
    /// Nothing is told yet.
    pub fn new(alloc: Global) -> Hints {
        Hints {
            lines: Vec::new(alloc),
            near: None,
        }
    }

    /// Keeps the word as the one that is nearest, where none is kept. The one error is that memory was refused.
    pub fn keep_near(&mut self, alloc: Global, word: &[u8]) -> Result<(), AllocError> {
        if self.near.is_none() {
            self.near = Some(Vec::from_slice(alloc, word)?);
        }
        Ok(())
    }
}
