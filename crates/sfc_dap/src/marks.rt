//! All breakpoints that a client asked for in a chart.

use crate::mark::Mark;
use sfc_debug::breakpoint::Breakpoint;
use sfc_editing::points::{break_at, set_by, unbreak_at};
use sfc_prompt::prompt::Prompt;
use sfc_replay::sfc_script::point::Place;
use std::alloc::{AllocError, Global};

/// All breakpoints that a client asked for in a chart.
#[derive(Drop)]
pub struct Marks {
    /// Those by lines.
    pub lines: Vec<Mark>,
    /// Those by names.
    pub names: Vec<Mark>,
    /// Each point that was ever set for the client.
    pub ever: Vec<Place>,
    /// The number of the next one.
    pub next: u64,
}

// Whether a breakpoint is set at a point.
fn is_set(set: &[Breakpoint], place: Place) -> bool {
    set.iter()
        .any(|point| point.is_at(place.program, place.point))
}

// Whether one of the marks is at a point, and may be set.
fn wants(marks: &[Mark], place: Place) -> bool {
    marks
        .iter()
        .any(|mark| mark.reason.is_empty() && mark.is_at(place))
}

// The first line of what was told, without a semicolon in front.
fn first_line(told: &[u8]) -> &[u8] {
    let line = match told.split(|byte| *byte == b'\n').next() {
        Some(line) => line,
        None => told,
    };
    match line.strip_prefix(b"; ") {
        Some(rest) => rest,
        None => line,
    }
}

// Sets the points of a mark that aren't set.
fn set_mark(
    alloc: Global,
    prompt: &mut Prompt,
    mark: &mut Mark,
    ever: &mut Vec<Place>,
    out: &mut Vec<u8>,
) -> Result<(), AllocError> {
    for number in 0..mark.spots.len() {
        let Some(spot) = mark.spots.get(number).copied() else {
            break;
        };
        if spot.at == 0 && mark.reason.is_empty() {
            let begin = out.len();
            let condition = mark.condition.as_str().trim().as_bytes();
            if break_at(alloc, prompt, spot.place, condition, out)? {
                ever.push(spot.place)?;
                let at = prompt.session().rows().len();
                if let Some(spot) = mark.spots.get_mut(number) {
                    spot.at = at;
                }
            } else {
                mark.refuse(first_line(out.get(begin..).unwrap_or(b"")))?;
            }
        }
    }
    Ok(())
}

// Sets the points of marks that aren't set.
fn set_marks(
    alloc: Global,
    prompt: &mut Prompt,
    marks: &mut Vec<Mark>,
    ever: &mut Vec<Place>,
    out: &mut Vec<u8>,
) -> Result<(), AllocError> {
    for mark in marks.iter_mut() {
        set_mark(alloc, prompt, mark, ever, out)?;
    }
    Ok(())
}

// A mark takes over what was set for one before it, at the same points and with the same condition.
fn take_over(mark: &mut Mark, old: &Mark) {
    if mark.condition.as_str() != old.condition.as_str() {
        return;
    }
    for spot in mark.spots.iter_mut() {
        for other in &old.spots {
            if other.place == spot.place && spot.at == 0 {
                spot.at = other.at;
            }
        }
    }
}

/// Marks take over what was set for others before them, at the same points and with the same condition.
pub fn take_all_over(marks: &mut Vec<Mark>, old: &[Mark]) {
    for mark in marks.iter_mut() {
        for other in old {
            take_over(mark, other);
        }
    }
}

impl Marks {
    /// There are none.
    pub fn new(alloc: Global) -> Marks {
        Marks {
            lines: Vec::new(alloc),
            names: Vec::new(alloc),
            ever: Vec::new(alloc),
            next: 1,
        }
    }

    /// The number of a breakpoint more.
    pub fn number(&mut self) -> u64 {
        let number = self.next;
        self.next = number.saturating_add(1);
        number
    }

    // Takes away what was set for the client and is asked for no more.
    fn take_away(
        &self,
        alloc: Global,
        prompt: &mut Prompt,
        out: &mut Vec<u8>,
    ) -> Result<(), AllocError> {
        let set = set_by(alloc, prompt.session().rows())?;
        for place in &self.ever {
            if is_set(&set, *place) && !wants(&self.lines, *place) && !wants(&self.names, *place) {
                let _ = unbreak_at(alloc, prompt, *place, out)?;
            }
        }
        Ok(())
    }

    /// Takes the points away that were set for the client and are asked for no more, and sets those that are asked for and aren't set. What
    /// is told is put at the end of `out`. The one error is that memory was refused; then the prompt is of no more use.
    pub fn set(
        &mut self,
        alloc: Global,
        prompt: &mut Prompt,
        out: &mut Vec<u8>,
    ) -> Result<(), AllocError> {
        self.take_away(alloc, prompt, out)?;
        set_marks(alloc, prompt, &mut self.lines, &mut self.ever, out)?;
        set_marks(alloc, prompt, &mut self.names, &mut self.ever, out)
    }

    /// What came behind so many accepted commands is gone.
    pub fn go_back(&mut self, accepted: usize) {
        for mark in self.lines.iter_mut() {
            mark.go_back(accepted);
        }
        for mark in self.names.iter_mut() {
            mark.go_back(accepted);
        }
    }
}
