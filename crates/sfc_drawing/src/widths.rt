//! How wide texts are: all characters of a monospaced font have one width.

/// The width of so many characters of text, in pixels.
pub fn wide(characters: u32) -> u32 {
    tenths(characters.saturating_mul(73))
}

/// The width of so many characters of small text, in pixels.
pub fn small(characters: u32) -> u32 {
    tenths(characters.saturating_mul(61))
}

// So many tenths, rounded up.
fn tenths(count: u32) -> u32 {
    (count / 10).saturating_add(u32::from(count % 10 != 0))
}

/// How many characters of a text are shown, where at most so many are.
pub fn shown(text: &[u8], most: u32) -> u32 {
    match u32::try_from(text.len()) {
        Ok(count) => count.min(most),
        Err(_) => most,
    }
}

/// How many decimal digits a number has.
pub fn digits(number: u64) -> u32 {
    number
        .checked_ilog10()
        .map_or(1, |power| power.saturating_add(1))
}
