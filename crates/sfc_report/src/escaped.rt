//! Texts in a page.

use sfc_drawing::part::{Part, append_parts};
use std::alloc::AllocError;

/// Puts a text into a page, in which no byte of it is markup. The one error is that memory was refused; then a front of it may stand there.
pub fn append_text(out: &mut Vec<u8>, text: &[u8]) -> Result<(), AllocError> {
    append_parts(out, &[Part::Said(text)])
}

/// Puts an element with a text. The one error is that memory was refused; then a front of it may stand there.
pub fn append_element(
    out: &mut Vec<u8>,
    head: &'static [u8],
    text: &[u8],
    end: &'static [u8],
) -> Result<(), AllocError> {
    append_parts(
        out,
        &[Part::Markup(head), Part::Said(text), Part::Markup(end)],
    )
}

/// Puts a number in decimal digits between two pieces of markup. The one error is that memory was refused; then a front of it may stand there.
pub fn append_count(
    out: &mut Vec<u8>,
    head: &'static [u8],
    number: u64,
    end: &'static [u8],
) -> Result<(), AllocError> {
    append_parts(
        out,
        &[Part::Markup(head), Part::Number(number), Part::Markup(end)],
    )
}
