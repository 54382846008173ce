//! Pieces of text in labels of Graphviz.

use sfc_page::append::append;
use std::alloc::AllocError;

/// How many bytes of a condition a label shows.
const SHOWN: usize = 40;

// A byte, where a mark of HTML stands as its entity.
fn append_byte(out: &mut Vec<u8>, byte: u8) -> Result<(), AllocError> {
    match byte {
        b'<' => append(out, b"&lt;"),
        b'>' => append(out, b"&gt;"),
        b'&' => append(out, b"&amp;"),
        b'"' => append(out, b"&quot;"),
        _ => append(out, &[byte]),
    }
}

/// Puts a text into a label or a quoted attribute, with the marks of HTML as entities. The one error is that memory was refused; then a
/// front of it may stand there.
pub fn append_escaped(out: &mut Vec<u8>, text: &[u8]) -> Result<(), AllocError> {
    for byte in text {
        append_byte(out, *byte)?;
    }
    Ok(())
}

/// Puts a text into a label, cut with `..` behind 40 bytes where it is longer. The one error is that memory was refused; then a front of
/// it may stand there.
pub fn append_cut(out: &mut Vec<u8>, text: &[u8]) -> Result<(), AllocError> {
    if text.len() <= SHOWN {
        return append_escaped(out, text);
    }
    let mut left = SHOWN;
    for byte in text {
        if left == 0 {
            break;
        }
        left -= 1;
        append_byte(out, *byte)?;
    }
    append(out, b" ..")
}
