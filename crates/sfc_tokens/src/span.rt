//! Bytes of a text.

/// The bytes of a text from one place up to another one, which is left out. Where both are one, there is no byte between.
#[derive(Clone, Copy, Debug, PartialEq, Eq)]
pub struct Span {
    pub from: u32,
    pub to: u32,
}

/// No bytes, at the front of a text.
pub const NOWHERE: Span = Span { from: 0, to: 0 };

// The place in a text behind which so many bytes are left; a text has at most 1,048,576.
fn place_before(text: &[u8], left: usize) -> u32 {
    u32::try_from(text.len().saturating_sub(left)).unwrap_or(u32::MAX)
}

/// The bytes of a text from where so many are left up to where so many are.
pub fn span_of(text: &[u8], left: usize, behind: usize) -> Span {
    Span {
        from: place_before(text, left),
        to: place_before(text, behind),
    }
}

/// The end of a text, which is no byte of it.
pub fn end_of(text: &[u8]) -> Span {
    span_of(text, 0, 0)
}
