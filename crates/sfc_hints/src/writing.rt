//! Text that is put together. The one error of each call is that memory was refused.

use std::alloc::AllocError;

/// Adds a text and the end of a line.
pub fn add_line(text: &mut Vec<u8>, line: &[u8]) -> Result<(), AllocError> {
    text.extend_from_slice(line)?;
    text.extend_from_slice(b"\n")
}

/// Adds a text as often as this.
pub fn add_repeated(text: &mut Vec<u8>, more: &[u8], count: usize) -> Result<(), AllocError> {
    for _ in 0..count {
        text.extend_from_slice(more)?;
    }
    Ok(())
}

/// Adds what stands before the place of a list of so many: nothing, a comma or `or`.
pub fn add_joint(text: &mut Vec<u8>, place: usize, count: usize) -> Result<(), AllocError> {
    if place == 0 {
        return Ok(());
    }
    if place.saturating_add(1) == count {
        text.extend_from_slice(b" or ")
    } else {
        text.extend_from_slice(b", ")
    }
}
