//! What is told of scans that were made one after the other.

ghost use Rattle.std.specs.Prelude.{◌≡◌, ◌<◌, ◌-◌, ◌^◌};
ghost use Rattle.sfc_c.specs.Advancing as advancing;

use crate::scanning::{Scan, is_out_of_turn};
use sfc_events::command::Answer;
use sfc_events::refusal::Refusal;

/// No scan comes up to the instant.
pub const REACHED: i32 = 0;
/// The latest scan hit a breakpoint.
pub const HIT: i32 = 1;
/// The latest scan ended that of a program with a fault.
pub const FAULT: i32 = 2;
/// More scans come.
pub const GOES_ON: i32 = 3;

/// What is told of scans that were made one after the other: `sfc_advanced_t` of `sfc.h`.
#[repr(C)]
#[derive(Clone, Copy)]
pub struct Advanced {
    /// How many were made.
    pub scans: u64,
    /// The raw instant of the latest, in microseconds; -1 before the first.
    pub instant: i64,
    /// One bit for each program instance that the latest ended with a fault, the lowest for the first.
    pub faulted: u64,
    /// The task of the latest; -1 before the first.
    pub task: i32,
    /// Why no more were made: 0 to 3 as above, or the number of what the next is refused for.
    pub end: i32,
}

/// Before the first.
pub const NOTHING: Advanced = Advanced {
    scans: 0,
    instant: -1,
    faulted: 0,
    task: -1,
    end: GOES_ON,
};

// Why no more scans are made behind one that hit a breakpoint, or ended these programs' scans with a fault.
fn end_by(hits: bool, faulted: u64) -> i32
    ensures { result ≡ advancing.end_by hits faulted }
{
    if hits {
        HIT
    } else if faulted == 0 {
        GOES_ON
    } else {
        FAULT
    }
}

// Why no more are made where the next is refused.
fn end_of(refusal: Refusal) -> i32
    ensures { result ≡ advancing.end_of refusal }
{
    if is_out_of_turn(Err(refusal)) {
        REACHED
    } else {
        i32::from(refusal.number())
    }
}

impl Advanced {
    // Behind one more that was answered so.
    fn behind(self, made: Scan) -> Advanced
        requires { self.scans < 2 ^ 64 - 1 }
        ensures { result ≡ advancing.behind self (advancing.scan_of made.task.0 made.raw) made.answer }
    {
        match made.answer {
            Ok(Answer::Scanned { faulted, hit, .. }) => Advanced {
                scans: self.scans + 1,
                instant: made.raw,
                faulted: faulted.bits,
                task: i32::from(made.task.0),
                end: end_by(hit, faulted.bits),
            },
            Ok(Answer::Done) | Ok(Answer::Value(_)) => Advanced {
                scans: self.scans + 1,
                end: GOES_ON,
                ..self
            },
            Err(refusal) => Advanced {
                end: end_of(refusal),
                ..self
            },
        }
    }

    /// Behind the scan that comes next, if one does.
    pub fn behind_next(self, made: Option<Scan>) -> Advanced
        requires { self.scans < 2 ^ 64 - 1 }
        ensures { result ≡ advancing.behind_made self made }
    {
        match made {
            Some(made) => self.behind(made),
            None => Advanced {
                end: REACHED,
                ..self
            },
        }
    }

    /// 0, or where nothing was scanned the number of what the next scan is refused for.
    pub fn code(self) -> i32
        ensures { result ≡ advancing.code_of self }
    {
        if self.scans != 0 || self.end <= GOES_ON {
            return 0;
        }
        self.end
    }
}
