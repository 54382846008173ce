//! Which hits of a breakpoint count.

/// Which hits of a breakpoint count.
#[derive(Clone, Copy, Debug, PartialEq, Eq)]
pub enum HitCondition {
    /// Each one.
    Each,
    /// Those from the one with this number on.
    From(u64),
    /// The one with this number.
    Only(u64),
    /// Each whose number is a multiple of this one.
    Multiple(u64),
}

// The number that a text is, of at most 18 digits; None where it is none, or 0.
fn number_of(text: &str) -> Option<u64> {
    let text = text.trim();
    if text.is_empty() || text.len() > 18 {
        return None;
    }
    let mut number: u64 = 0;
    for byte in text.as_bytes() {
        if !byte.is_ascii_digit() {
            return None;
        }
        number = number
            .saturating_mul(10)
            .saturating_add(u64::from(byte.saturating_sub(b'0')));
    }
    if number == 0 { None } else { Some(number) }
}

impl HitCondition {
    /// What a text says: a number, or `>=` and a number: from that hit on; `=` or `==` and a number: that hit alone; `%` and a number: each
    /// that is a multiple of it. An empty one says nothing of hits. None where it says none of these.
    pub fn of(text: &str) -> Option<HitCondition> {
        let text = text.trim();
        if text.is_empty() {
            return Some(HitCondition::Each);
        }
        if let Some(rest) = text.strip_prefix(">=") {
            return Some(HitCondition::From(number_of(rest)?));
        }
        if let Some(rest) = text.strip_prefix("==") {
            return Some(HitCondition::Only(number_of(rest)?));
        }
        if let Some(rest) = text.strip_prefix("=") {
            return Some(HitCondition::Only(number_of(rest)?));
        }
        if let Some(rest) = text.strip_prefix("%") {
            return Some(HitCondition::Multiple(number_of(rest)?));
        }
        Some(HitCondition::From(number_of(text)?))
    }

    /// Whether the hit with this number counts, from 1.
    pub fn counts(self, hit: u64) -> bool {
        match self {
            HitCondition::Each => true,
            HitCondition::From(number) => hit >= number,
            HitCondition::Only(number) => hit == number,
            HitCondition::Multiple(number) => number != 0 && hit % number == 0,
        }
    }
}
