//! The lines of a text: each ends with a LF byte.

// How many LF bytes there are.
fn line_feeds(bytes: &[u8]) -> u32 {
    let mut count = 0u32;
    for byte in bytes {
        if *byte == b'\n' {
            count = count.saturating_add(1);
        }
    }
    count
}

/// The line after all LF bytes of the text.
pub fn last_line(text: &[u8]) -> u32 {
    line_feeds(text).saturating_add(1)
}

/// The line of a byte of a text: one more than the number of LF bytes before it.
pub fn line_at(text: &[u8], place: u32) -> u32 {
    last_line(text.get(..place as usize).unwrap_or(text))
}
