//! Sizes of what is drawn, in pixels, and limits of the drawing.

/// The height of a line of text.
pub const LINE: u32 = 15;

/// The height of a row of an action block.
pub const ROW: u32 = 20;

/// The height of the box of a step.
pub const BOX: u32 = 34;

/// Half the width of the bar of a transition.
pub const BAR: u32 = 15;

/// What the box of a transition has above its bar, and below it.
pub const BESIDE: u32 = 6;

/// Between two columns.
pub const GAP: u32 = 18;

/// Beside the line of a loop.
pub const LANE: u32 = 12;

/// What a double line has beyond its branches.
pub const OVER: u32 = 10;

/// The way into a first step.
pub const STUB: u32 = 28;

/// A loop that is no higher is a line, else a jump.
pub const SHORT: u32 = 900;

/// A line leaves at most so many open selections, else it is a jump.
pub const NESTED: usize = 2;

/// A branch of more columns that never meets the others again is a network of its own.
pub const BROAD: usize = 24;

/// Networks stand side by side up to this width.
pub const PAGE: u32 = 1400;

/// The tenths of a pixel that a character of small text takes.
const SMALL: u32 = 61;

/// The width of so many characters of small text.
pub fn small(characters: u32) -> u32 {
    (characters.saturating_mul(SMALL) / 10).saturating_add(u32::from(characters % 10 != 0))
}

/// How many decimal digits a number has.
pub fn digits(number: usize) -> u32 {
    number
        .checked_ilog10()
        .map_or(1, |power| power.saturating_add(1))
}
