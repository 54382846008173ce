//! How long the scans of a run took.
//!
//! Nothing here is promised: it is what the thread of each task measured, by the clock of the run.

use sfc_page::append::{append, append_number};
use sfc_plant::names::task_name;
use sfc_plant::plant::Plant;
use std::alloc::{AllocError, Global};
use std::sync::atomic::{AtomicI64, Ordering};

/// How long the longest scan of a task took. Its thread begins it where the clock is read for a call, under the lock, and ends it behind the
/// call.
#[derive(Drop)]
pub struct Stopwatch {
    begun: AtomicI64,
    // In microseconds; -1 where no scan was measured.
    longest: AtomicI64,
}

impl Stopwatch {
    // No scan was measured yet.
    fn new() -> Stopwatch {
        Stopwatch {
            begun: AtomicI64::new(0),
            longest: AtomicI64::new(-1),
        }
    }

    /// A call begins at this reading of the clock, in microseconds.
    pub fn begin(&self, now: i64) {
        self.begun.store(now, Ordering::SeqCst);
    }

    /// The call that was begun last was a scan, and has ended.
    pub fn end(&self, now: i64) {
        let took = now.saturating_sub(self.begun.load(Ordering::SeqCst));
        if self.longest.load(Ordering::SeqCst) < took {
            self.longest.store(took, Ordering::SeqCst);
        }
    }

    // How many microseconds the longest scan took; `None` where none was measured.
    fn longest(&self) -> Option<u64> {
        let longest = self.longest.load(Ordering::SeqCst);
        if longest < 0 {
            return None;
        }
        Some(longest.unsigned_abs())
    }
}

/// A stopwatch for each task. The one error is that memory was refused.
pub fn stopwatches(alloc: Global, plant: &Plant) -> Result<Vec<Stopwatch>, AllocError> {
    let mut watches = Vec::new(alloc);
    for _ in 0..plant.tasks().len() {
        watches.push(Stopwatch::new())?;
    }
    Ok(watches)
}

// The line of a task, where a scan was measured.
fn append_task(out: &mut Vec<u8>, name: &[u8], watch: &Stopwatch) -> Result<(), AllocError> {
    let Some(micros) = watch.longest() else {
        return Ok(());
    };
    append(out, b"the longest scan of ")?;
    append(out, name)?;
    append(out, b" took ")?;
    append_number(out, micros)?;
    append(out, b" microseconds\n")
}

/// Puts a line for each task of which a scan was measured at the end. The one error is that memory was refused; then a front of them may
/// stand there.
pub fn append_longest(
    out: &mut Vec<u8>,
    plant: &Plant,
    watches: &[Stopwatch],
) -> Result<(), AllocError> {
    for (place, watch) in watches.iter().enumerate() {
        append_task(out, task_name(plant.tasks(), place), watch)?;
    }
    Ok(())
}
