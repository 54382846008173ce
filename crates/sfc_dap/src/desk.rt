//! Where charts and scripts come from, and where scripts are kept.

use sfc_prompt::archive::Archive;
use std::alloc::AllocError;

/// Where charts and scripts come from, by the names of their files, and where scripts are kept.
pub trait Desk: Archive {
    /// The bytes of a file; None where it can't be read. The one error is that memory was refused.
    fn read(&mut self, path: &str) -> Result<Option<Vec<u8>>, AllocError>;
}
