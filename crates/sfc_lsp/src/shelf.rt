//! Files that no client has open.

use std::alloc::AllocError;

/// Files, by their paths.
pub trait Shelf {
    /// The bytes of a file; None where it can't be read. The one error is that memory was refused.
    fn read(&mut self, path: &str) -> Result<Option<Vec<u8>>, AllocError>;
}
