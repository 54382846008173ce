//! Versions, files and their sums.

use crate::contents::{Contents, Source};
use crate::escaped::{append_count, append_element, append_text};
use sfc_page::append::append;
use sha2::{Digest, Sha256};
use std::alloc::AllocError;

const DIGITS: &[u8; 16] = b"0123456789abcdef";

// Puts the SHA-256 of a file in hexadecimal digits.
fn append_sum(out: &mut Vec<u8>, text: &[u8]) -> Result<(), AllocError> {
    let sum = Sha256::digest(text);
    for byte in sum {
        let high = DIGITS[usize::from(byte >> 4)];
        let low = DIGITS[usize::from(byte & 15)];
        append(out, &[high, low])?;
    }
    Ok(())
}

// Puts a file: what it is, its name, size and sum.
fn append_file(
    out: &mut Vec<u8>,
    kind: &'static [u8],
    source: &Source<'_>,
) -> Result<(), AllocError> {
    append_element(out, b"<tr><th scope=\"row\">", kind, b"</th><td>")?;
    append_text(out, source.name.as_bytes())?;
    append_count(
        out,
        b"</td><td>",
        source.text.len() as u64,
        b" bytes</td><td><code>",
    )?;
    append_sum(out, source.text)?;
    append(out, b"</code></td></tr>\n")
}

// Puts files of a kind.
fn append_files(
    out: &mut Vec<u8>,
    kind: &'static [u8],
    sources: &[Source<'_>],
) -> Result<(), AllocError> {
    for source in sources {
        append_file(out, kind, source)?;
    }
    Ok(())
}

/// Puts the table of versions, files and their sums (SHA-256). The one error is that memory was refused; then a front of it may stand there.
pub fn append_facts(out: &mut Vec<u8>, contents: &Contents<'_>) -> Result<(), AllocError> {
    append(out, b"<table class=\"facts\">\n")?;
    append_element(
        out,
        b"<tr><th scope=\"row\">program</th><td colspan=\"3\">sfcmon ",
        contents.version.as_bytes(),
        b"</td></tr>\n",
    )?;
    append_file(out, b"chart", &contents.chart)?;
    append_files(out, b"script", contents.scripts)?;
    append_files(out, b"tests", contents.tests)?;
    append(out, b"</table>\n")
}
