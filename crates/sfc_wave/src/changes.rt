//! The changes of signals that are kept for a picture.

use std::alloc::{AllocError, Global};

/// How many changes a picture has at the most.
const MOST: usize = 1_048_576;

/// A signal that reads something else from an instant on.
#[derive(Clone, Copy, Debug)]
pub struct Change {
    /// The number of the signal.
    pub signal: usize,
    /// The instant, in microseconds.
    pub instant: i64,
    /// What it reads: bits, or where its text begins.
    pub bits: u64,
    /// How many bytes its text has.
    pub count: usize,
}

/// Changes in the order in which they came.
#[derive(Drop)]
pub struct Changes {
    /// All of them.
    pub list: Vec<Change>,
    /// What texts read, one behind the other.
    pub texts: Vec<u8>,
    /// Whether there were more than a picture has.
    pub is_over: bool,
}

impl Changes {
    /// None.
    pub fn new(alloc: Global) -> Changes {
        Changes {
            list: Vec::new(alloc),
            texts: Vec::new(alloc),
            is_over: false,
        }
    }

    /// One more, if there is room for it. The one error is that memory was refused.
    pub fn push(&mut self, change: Change) -> Result<(), AllocError> {
        if self.list.len() < MOST {
            self.list.push(change)?;
        } else {
            self.is_over = true;
        }
        Ok(())
    }

    /// A text that a signal reads from now on. The one error is that memory was refused.
    pub fn push_text(
        &mut self,
        signal: usize,
        instant: i64,
        text: &[u8],
    ) -> Result<(), AllocError> {
        let bits = self.texts.len() as u64;
        self.texts.extend_from_slice(text)?;
        self.push(Change {
            signal,
            instant,
            bits,
            count: text.len(),
        })
    }

    /// The text of a change.
    pub fn text_of(&self, change: Change) -> &[u8] {
        let begin = change.bits as usize;
        match self.texts.get(begin..begin.saturating_add(change.count)) {
            Some(text) => text,
            None => b"",
        }
    }
}
