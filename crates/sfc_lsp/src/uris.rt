//! The names of documents (RFC 3986), and those of files beside them.

use std::alloc::{AllocError, Global};

// The value of a digit of a base of 16.
fn digit_of(byte: u8) -> Option<u8> {
    match byte {
        b'0'..=b'9' => Some(byte - b'0'),
        b'a'..=b'f' => Some(byte - b'a' + 10),
        b'A'..=b'F' => Some(byte - b'A' + 10),
        _ => None,
    }
}

// The byte that two digits behind a percent sign are.
fn byte_of(first: u8, second: u8) -> Option<u8> {
    let high = digit_of(first)?;
    let low = digit_of(second)?;
    high.checked_mul(16)?.checked_add(low)
}

// A text without its percent signs; one that isn't followed by two digits stays.
fn decoded(alloc: Global, text: &[u8]) -> Result<Vec<u8>, AllocError> {
    let mut bytes = Vec::new(alloc);
    let mut rest = text;
    'all: while let Some((first, behind)) = rest.split_first() {
        rest = behind;
        if let (b'%', [high, low, after @ ..]) = (*first, behind) {
            if let Some(byte) = byte_of(*high, *low) {
                bytes.push(byte)?;
                rest = after;
                continue;
            }
        }
        bytes.push(*first)?;
    }
    Ok(bytes)
}

/// The path of the file that a name stands for; None where it stands for none. The one error is that memory was refused.
pub fn path_of(alloc: Global, uri: &str) -> Result<Option<String>, AllocError> {
    let Some(path) = uri.as_bytes().strip_prefix(b"file://") else {
        return Ok(None);
    };
    match str::from_utf8(&decoded(alloc, path)?) {
        Ok(path) => Ok(Some(String::from_str(alloc, path)?)),
        Err(_) => Ok(None),
    }
}

// How many bytes stand before the last point of a name, or all where none stands in its last part.
fn stem_length(name: &[u8]) -> usize {
    match name.iter().rposition(|byte| matches!(*byte, b'.' | b'/')) {
        Some(place) if name.get(place) == Some(&b'.') => place,
        _ => name.len(),
    }
}

/// The name with another ending in place of its own. The one error is that memory was refused.
pub fn with_ending(alloc: Global, name: &str, ending: &str) -> Result<String, AllocError> {
    let bytes = name.as_bytes();
    let stem = bytes.get(..stem_length(bytes)).unwrap_or(bytes);
    let mut other = match str::from_utf8(stem) {
        Ok(stem) => String::from_str(alloc, stem)?,
        Err(_) => String::new(alloc),
    };
    other.push_str(ending)?;
    Ok(other)
}
