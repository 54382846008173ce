//! A signal as a row of a picture: levels, or values between bars.

use crate::changes::{Change, Changes};
use crate::signal::Signal;
use sfc_base::var_type::VarType;
use sfc_page::append::{append, append_number, append_signed, append_time};
use std::alloc::{AllocError, Global};

/// How many pixels a row of a picture is wide, from the first instant to the last.
pub const WIDE: u64 = 900;

/// How high a signal rises above its base.
const LEVEL: u64 = 14;

/// How many pixels a value has at the least that stands apart, and how many a character takes, in tenths.
const NARROW: u64 = 4;

const CHARACTER: u64 = 67;

/// How many edges a pixel has at the most.
const EDGES: u32 = 2;

/// Where a picture's rows begin, and the time that they show.
#[derive(Clone, Copy, Debug)]
pub struct Frame {
    /// The left end of the rows.
    pub left: u64,
    /// The last instant, in microseconds.
    pub last: u64,
}

impl Frame {
    /// The pixel of an instant.
    pub fn at(self, instant: u64) -> u64 {
        let offset = instant.saturating_mul(WIDE) / self.last.max(1);
        self.left.saturating_add(offset.min(WIDE))
    }

    // The pixel of the instant of a change.
    fn at_change(self, change: Change) -> u64 {
        self.at(change.instant.max(0).cast_unsigned())
    }

    // The right end of the rows.
    fn right(self) -> u64 {
        self.left.saturating_add(WIDE)
    }
}

// A letter of a path with a number.
fn append_move(out: &mut Vec<u8>, letter: &[u8], number: u64) -> Result<(), AllocError> {
    append(out, letter)?;
    append_number(out, number)
}

// The height of a bit.
fn level_of(base: u64, bits: u64) -> u64 {
    if bits == 0 {
        base
    } else {
        base.saturating_sub(LEVEL)
    }
}

// A line of levels as it is drawn.
#[derive(Drop)]
struct Level {
    x: u64,
    y: u64,
    edges: u32,
}

impl Level {
    // The line goes on to a pixel.
    fn go_to(&mut self, out: &mut Vec<u8>, x: u64, y: u64) -> Result<(), AllocError> {
        if x <= self.x {
            return Ok(());
        }
        if self.y != y {
            append_move(out, b"V", y)?;
            self.y = y;
        }
        self.x = x;
        self.edges = 0;
        append_move(out, b"H", x)
    }

    // The line goes up or down, where it hasn't done so as often as can be seen.
    fn turn(&mut self, out: &mut Vec<u8>, y: u64) -> Result<(), AllocError> {
        if self.edges >= EDGES || self.y == y {
            return Ok(());
        }
        self.edges = self.edges.saturating_add(1);
        self.y = y;
        append_move(out, b"V", y)
    }
}

// The line of a signal of one bit, above this base.
fn append_levels(
    out: &mut Vec<u8>,
    frame: Frame,
    base: u64,
    changes: &[Change],
) -> Result<(), AllocError> {
    let first = match changes.first() {
        Some(change) => level_of(base, change.bits),
        None => base,
    };
    let mut y = first;
    let mut level = Level {
        x: frame.left,
        y: first,
        edges: EDGES,
    };
    append(out, b"<path class=\"w\" d=\"M")?;
    append_number(out, frame.left)?;
    append_move(out, b" ", first)?;
    for change in changes {
        level.go_to(out, frame.at_change(*change), y)?;
        y = level_of(base, change.bits);
        level.turn(out, y)?;
    }
    level.go_to(out, frame.right(), y)?;
    append(out, b"\"/>\n")
}

// What a signal reads from a change on.
fn append_reading(
    out: &mut Vec<u8>,
    signal: Signal,
    changes: &Changes,
    change: Change,
) -> Result<(), AllocError> {
    match signal {
        Signal::Steps(_) => append(out, changes.text_of(change)),
        Signal::Elapsed(_, _) | Signal::Variable(_, VarType::Time) => {
            append_time(out, change.bits.cast_signed())
        }
        _ => append_signed(out, change.bits.cast_signed()),
    }
}

// A rectangle from one pixel to another, above this base.
fn append_band(
    out: &mut Vec<u8>,
    class: &[u8],
    base: u64,
    begin: u64,
    end: u64,
) -> Result<(), AllocError> {
    append(out, b"<rect class=\"")?;
    append(out, class)?;
    append(out, b"\" x=\"")?;
    append_number(out, begin)?;
    append(out, b"\" y=\"")?;
    append_number(out, base.saturating_sub(LEVEL))?;
    append(out, b"\" width=\"")?;
    append_number(out, end.saturating_sub(begin))?;
    append(out, b"\" height=\"14\"/>\n")
}

// A text in a rectangle of this width, where it has room.
fn append_within(
    out: &mut Vec<u8>,
    said: &[u8],
    base: u64,
    begin: u64,
    width: u64,
) -> Result<(), AllocError> {
    let room = width.saturating_sub(8).saturating_mul(10) / CHARACTER;
    if (said.len() as u64) > room {
        return Ok(());
    }
    append(out, b"<text x=\"")?;
    append_number(out, begin.saturating_add(4))?;
    append(out, b"\" y=\"")?;
    append_number(out, base.saturating_sub(3))?;
    append(out, b"\">")?;
    append(out, said)?;
    append(out, b"</text>\n")
}

// A row of values as it is drawn.
#[derive(Clone, Copy)]
struct Values<'a> {
    alloc: Global,
    frame: Frame,
    base: u64,
    signal: Signal,
    changes: &'a Changes,
}

impl Values<'_> {
    // What the signal reads from a change on, up to a pixel.
    fn append_value(&self, out: &mut Vec<u8>, change: Change, end: u64) -> Result<(), AllocError> {
        let begin = self.frame.at_change(change);
        let mut said = Vec::new(self.alloc);
        append_reading(&mut said, self.signal, self.changes, change)?;
        append_band(out, b"v", self.base, begin, end)?;
        append_within(out, &said, self.base, begin, end.saturating_sub(begin))
    }

    // The values that are too short to stand apart, from one pixel to another.
    fn append_busy(&self, out: &mut Vec<u8>, begin: u64, end: u64) -> Result<(), AllocError> {
        if begin < end {
            append_band(out, b"b", self.base, begin, end)?;
        }
        Ok(())
    }

    // All values.
    fn append(&self, out: &mut Vec<u8>, own: &[Change]) -> Result<(), AllocError> {
        let mut busy = self.frame.left;
        for place in 0..own.len() {
            let change = own[place];
            let begin = self.frame.at_change(change);
            let end = match own.get(place.saturating_add(1)) {
                Some(next) => self.frame.at_change(*next),
                None => self.frame.right(),
            };
            if end >= begin.saturating_add(NARROW) {
                self.append_busy(out, busy, begin)?;
                self.append_value(out, change, end)?;
                busy = end;
            }
        }
        self.append_busy(out, busy, self.frame.right())
    }
}

// The changes of a signal.
fn changes_of(alloc: Global, changes: &Changes, number: usize) -> Result<Vec<Change>, AllocError> {
    let mut own = Vec::new(alloc);
    for change in changes.list.as_slice() {
        if change.signal == number {
            own.push(*change)?;
        }
    }
    Ok(own)
}

/// Puts the row of a signal, above this base. The one error is that memory was refused; then a front of it may stand there.
pub fn append_row(
    out: &mut Vec<u8>,
    alloc: Global,
    frame: Frame,
    base: u64,
    row: (usize, Signal, &Changes),
) -> Result<(), AllocError> {
    let (number, signal, changes) = row;
    let own = changes_of(alloc, changes, number)?;
    if signal.width() == 1 && !signal.is_text() {
        return append_levels(out, frame, base, &own);
    }
    let values = Values {
        alloc,
        frame,
        base,
        signal,
        changes,
    };
    values.append(out, &own)
}
