//! How late the scans of a run were.
//!
//! A scan is late by how long it came behind the first activation that it served: that is the first multiple of the task's interval behind
//! the scan before (2.7.2). Instants are run instants, so that a halt isn't lateness. Nothing here is promised: it is what was measured.

use crate::overruns::task_of;
use sfc_events::command::{Answer, Command, TraceRow};
use sfc_page::append::{append, append_number, append_signed};
use sfc_plant::names::task_name;
use sfc_plant::plant::Plant;
use sfc_plant::task::Task;
use std::alloc::{AllocError, Global};

/// From where on it isn't counted by how much a scan was late, in microseconds.
const LATE: usize = 65_536;

/// How late the scans of a task were.
#[derive(Drop)]
struct TaskTiming {
    interval: i64,
    last: i64,
    scans: u64,
    overruns: u64,
    least: i64,
    greatest: i64,
    counts: Vec<u64>,
}

/// How late the scans of each task were, where that is measured.
#[derive(Drop)]
pub struct Timing {
    tasks: Vec<TaskTiming>,
}

// The interval by which a task's lateness is measured, in microseconds; 0 where it has none, or is activated by an edge too.
fn interval_of(task: &Task) -> i64 {
    match task.single {
        Some(_) => 0,
        None => task.interval,
    }
}

// A scan at this run instant is so late behind one at the other, -1 where there was none.
fn lateness(last: i64, t: i64, interval: i64) -> i64 {
    let Some(behind) = last.checked_rem_euclid(interval) else {
        return 0;
    };
    let served = last.saturating_sub(behind).saturating_add(interval);
    t.saturating_sub(served)
}

impl TaskTiming {
    // Nothing was scanned yet.
    fn new(alloc: Global, task: &Task) -> Result<TaskTiming, AllocError> {
        let interval = interval_of(task);
        let mut counts = Vec::new(alloc);
        if 0 < interval {
            counts.resize(LATE, 0u64)?;
        }
        Ok(TaskTiming {
            interval,
            last: -1,
            scans: 0,
            overruns: 0,
            least: i64::MAX,
            greatest: 0,
            counts,
        })
    }

    // A scan was so late.
    fn count(&mut self, late: i64) {
        self.least = self.least.min(late);
        self.greatest = self.greatest.max(late);
        let place = (late.max(0) as u64 as usize).min(LATE - 1);
        if let Some(count) = self.counts.get_mut(place) {
            *count = count.saturating_add(1);
        }
    }

    // A scan at this run instant: of a worker, or by SINGLE, which is not late.
    fn note(&mut self, t: i64, overruns: u64, is_own: bool) {
        self.scans = self.scans.saturating_add(1);
        self.overruns = overruns;
        if is_own && 0 < self.interval {
            self.count(lateness(self.last, t, self.interval));
        }
        self.last = t;
    }

    // How many scans were counted.
    fn counted(&self) -> u64 {
        let mut sum = 0u64;
        for count in &self.counts {
            sum = sum.saturating_add(*count);
        }
        sum
    }

    // By how much so many of a hundred scans were late at most.
    fn within(&self, percent: u64) -> usize {
        let wanted = self.counted().saturating_mul(percent).div_ceil(100);
        let mut sum = 0u64;
        for (late, count) in self.counts.iter().enumerate() {
            sum = sum.saturating_add(*count);
            if wanted <= sum {
                return late;
            }
        }
        LATE - 1
    }
}

// A lateness of which it is known up to where it was counted.
fn append_late(out: &mut Vec<u8>, late: usize) -> Result<(), AllocError> {
    if LATE - 1 <= late {
        append(out, b"over ")?;
    }
    append_number(out, late as u64)
}

// Behind how many scans there were, by how much they were late.
fn append_lateness(out: &mut Vec<u8>, task: &TaskTiming) -> Result<(), AllocError> {
    append(out, b", late by ")?;
    append_signed(out, task.least)?;
    append(out, b" least, ")?;
    append_late(out, task.within(50))?;
    append(out, b" median, ")?;
    append_late(out, task.within(99))?;
    append(out, b" of 99 %, ")?;
    append_signed(out, task.greatest)?;
    append(out, b" greatest microseconds")
}

// The line of a task.
fn append_task(out: &mut Vec<u8>, name: &[u8], task: &TaskTiming) -> Result<(), AllocError> {
    append(out, name)?;
    append(out, b" had ")?;
    append_number(out, task.scans)?;
    append(out, b" scans, ")?;
    append_number(out, task.overruns)?;
    append(out, b" overruns")?;
    if 0 < task.counted() {
        append_lateness(out, task)?;
    }
    append(out, b"\n")
}

impl Timing {
    /// Nothing is measured.
    pub fn none(alloc: Global) -> Timing {
        Timing {
            tasks: Vec::new(alloc),
        }
    }

    /// It is measured of each task. The one error is that memory was refused.
    pub fn of(alloc: Global, plant: &Plant) -> Result<Timing, AllocError> {
        let mut tasks = Vec::new(alloc);
        for task in plant.tasks() {
            tasks.push(TaskTiming::new(alloc, task)?)?;
        }
        Ok(Timing { tasks })
    }

    /// Takes the next row of the feed.
    pub fn note(&mut self, row: TraceRow) {
        let Answer::Scanned { overruns, .. } = row.answer else {
            return;
        };
        let Some(task) = task_of(row.command) else {
            return;
        };
        let is_own = matches!(row.command, Command::Scan(_));
        if let Some(task) = self.tasks.get_mut(task.0 as usize) {
            task.note(row.t, overruns, is_own);
        }
    }

    /// Puts a line of each task that is measured at the end. The one error is that memory was refused; then a front of them may stand there.
    pub fn append_text(&self, out: &mut Vec<u8>, plant: &Plant) -> Result<(), AllocError> {
        for (place, timing) in self.tasks.iter().enumerate() {
            append_task(out, task_name(plant.tasks(), place), timing)?;
        }
        Ok(())
    }
}
