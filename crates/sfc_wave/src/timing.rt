//! The picture of a run: a row for each signal over a line of time, as SVG.

use crate::asked::Asked;
use crate::changes::Changes;
use crate::named::append_whole_name;
use crate::row::{Frame, WIDE, append_row};
use crate::sfc_core::resource::Resource;
use crate::signals::Signals;
use crate::view::in_turn;
use crate::waveform::Waveform;
use sfc_page::append::{append, append_number, append_time};
use std::alloc::{AllocError, Global};

/// How many rows a picture has at the most.
const MOST: usize = 256;

/// How high a row is, where the first one's base stands, and what is below the last one.
const HIGH: u64 = 26;

const FIRST: u64 = 30;

const BELOW: u64 = 30;

/// How many instants are marked at the most, but for the first.
const MARKS: u64 = 10;

// The style of a picture, in light and dark.
const STYLE: &[u8] = b"<style>\n\
    .paper{fill:#fff}text{fill:#1f2328;font:11px \"DejaVu Sans Mono\",Menlo,Consolas,\"Liberation Mono\",monospace}.end{text-anchor:end}.mid{text-anchor:middle}\n\
    .g{stroke:#d0d7de}.w{fill:none;stroke:#0969da;stroke-width:1.4}.v{fill:#ddf4ff;stroke:#0969da}.b{fill:#0969da}\n\
    @media (prefers-color-scheme:dark){.paper{fill:#0d1117}text{fill:#e6edf3}.g{stroke:#30363d}.w,.v{stroke:#58a6ff}.v{fill:#0c2d6b}.b{fill:#58a6ff}}\n\
    </style>\n";

// The whole names of signals, one behind the other, and where each ends.
#[derive(Drop)]
struct Labels {
    text: Vec<u8>,
    ends: Vec<usize>,
}

impl Labels {
    // Those of these signals.
    fn of_signals(
        alloc: Global,
        resource: &Resource,
        signals: &Signals,
        numbers: &[usize],
    ) -> Result<Labels, AllocError> {
        let mut labels = Labels {
            text: Vec::new(alloc),
            ends: Vec::new(alloc),
        };
        for number in numbers {
            append_whole_name(&mut labels.text, resource, signals, *number)?;
            labels.ends.push(labels.text.len())?;
        }
        Ok(labels)
    }

    // The one at a place.
    fn at(&self, place: usize) -> &[u8] {
        let begin = match place.checked_sub(1) {
            Some(before) => self.ends.get(before).copied().unwrap_or(0),
            None => 0,
        };
        let end = self.ends.get(place).copied().unwrap_or(begin);
        self.text.get(begin..end).unwrap_or(b"")
    }

    // How many bytes the longest has.
    fn longest(&self) -> usize {
        let mut longest = 0;
        for place in 0..self.ends.len() {
            longest = self.at(place).len().max(longest);
        }
        longest
    }
}

// The steps from one marked instant to the next: 1, 2, 5, 10 and so on, so that few are marked.
fn mark_step(last: u64) -> u64 {
    let mut step = 1u64;
    for turn in 0..60u32 {
        if last / step.max(1) <= MARKS {
            break;
        }
        step = if turn % 3 == 1 {
            step.saturating_mul(5) / 2
        } else {
            step.saturating_mul(2)
        };
    }
    step.max(1)
}

// A marked instant: a line through all rows, and the instant below it.
fn append_mark(
    out: &mut Vec<u8>,
    frame: Frame,
    instant: u64,
    bottom: u64,
) -> Result<(), AllocError> {
    let x = frame.at(instant);
    append(out, b"<path class=\"g\" d=\"M")?;
    append_number(out, x)?;
    append(out, b" 10V")?;
    append_number(out, bottom.saturating_add(4))?;
    append(out, b"\"/>\n<text class=\"mid\" x=\"")?;
    append_number(out, x)?;
    append(out, b"\" y=\"")?;
    append_number(out, bottom.saturating_add(18))?;
    append(out, b"\">")?;
    append_time(out, instant.cast_signed())?;
    append(out, b"</text>\n")
}

// All marked instants.
fn append_marks(out: &mut Vec<u8>, frame: Frame, bottom: u64) -> Result<(), AllocError> {
    let step = mark_step(frame.last);
    let mut instant = 0u64;
    for _ in 0..=MARKS {
        if instant > frame.last {
            break;
        }
        append_mark(out, frame, instant, bottom)?;
        instant = instant.saturating_add(step);
    }
    Ok(())
}

// How the picture begins: its size and its style.
fn append_head(out: &mut Vec<u8>, width: u64, height: u64) -> Result<(), AllocError> {
    append(out, b"<svg xmlns=\"http://www.w3.org/2000/svg\" width=\"")?;
    append_number(out, width)?;
    append(out, b"\" height=\"")?;
    append_number(out, height)?;
    append(out, b"\" viewBox=\"0 0 ")?;
    append_number(out, width)?;
    append(out, b" ")?;
    append_number(out, height)?;
    append(out, b"\">\n")?;
    append(out, STYLE)?;
    append(
        out,
        b"<rect class=\"paper\" width=\"100%\" height=\"100%\"/>\n",
    )
}

// The name of a row, at its left.
fn append_label(out: &mut Vec<u8>, frame: Frame, base: u64, name: &[u8]) -> Result<(), AllocError> {
    append(out, b"<text class=\"end\" x=\"")?;
    append_number(out, frame.left.saturating_sub(8))?;
    append(out, b"\" y=\"")?;
    append_number(out, base.saturating_sub(3))?;
    append(out, b"\">")?;
    append(out, name)?;
    append(out, b"</text>\n")
}

// The rows of these signals.
fn append_rows(
    out: &mut Vec<u8>,
    frame: Frame,
    waveform: &Waveform,
    changes: &Changes,
    rows: (&[usize], &Labels),
) -> Result<(), AllocError> {
    let (numbers, labels) = rows;
    let mut base = FIRST;
    for place in 0..numbers.len() {
        append_label(out, frame, base, labels.at(place))?;
        if let Some(signal) = waveform.signals.list.get(numbers[place]) {
            let row = (numbers[place], *signal, changes);
            append_row(out, waveform.alloc(), frame, base, row)?;
        }
        base = base.saturating_add(HIGH);
    }
    Ok(())
}

// The last instant that is shown: a little behind that of the last command.
fn last_instant(waveform: &Waveform) -> u64 {
    let last = waveform.dump.instant().max(0).cast_unsigned();
    last.saturating_add((last / 40).max(1))
}

// The picture of these signals.
fn append_picture(
    out: &mut Vec<u8>,
    resource: &Resource,
    waveform: &Waveform,
    changes: &Changes,
    numbers: &[usize],
) -> Result<(), AllocError> {
    let labels = Labels::of_signals(waveform.alloc(), resource, &waveform.signals, numbers)?;
    let left = (labels.longest() as u64).saturating_mul(67) / 10;
    let frame = Frame {
        left: left.saturating_add(20),
        last: last_instant(waveform),
    };
    let rows = (numbers.len() as u64).saturating_mul(HIGH);
    let bottom = FIRST.saturating_add(rows).saturating_sub(HIGH);
    let width = frame.left.saturating_add(WIDE).saturating_add(40);
    append_head(out, width, bottom.saturating_add(BELOW))?;
    append_marks(out, frame, bottom)?;
    append_rows(out, frame, waveform, changes, (numbers, &labels))?;
    append(out, b"</svg>\n")
}

/// Puts the picture of a run: of the first 256 of the signals that are wanted, in the order in which they were asked for. Where there are more
/// changes than a picture has, nothing is put. The one error is that memory was refused; then a front of it may stand there.
pub fn append_timing(
    out: &mut Vec<u8>,
    resource: &Resource,
    waveform: &Waveform,
    asked: Asked<'_>,
) -> Result<(), AllocError> {
    let Some(changes) = waveform.dump.kept() else {
        return Ok(());
    };
    if changes.is_over {
        return Ok(());
    }
    let picked = waveform.dump.picked();
    let mut numbers = in_turn(waveform.alloc(), resource, &waveform.signals, picked, asked)?;
    numbers.truncate(MOST);
    append_picture(out, resource, waveform, changes, &numbers)
}
