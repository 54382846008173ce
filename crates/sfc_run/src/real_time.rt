//! The clock of a run.

ghost use Rattle.std.specs.Prelude.{◌≡◌};
ghost use Rattle.std.specs.Time.{instant_nanos};
ghost use Rattle.std.specs.Duration.{as_nanos};
ghost use Rattle.sfc_run.specs.RealTime.{micros_between, nanos_of, nanos_until};

use crate::stopwatch::Stopwatch;
use sfc_control::clock::Clock;
use std::time;
use std::time::{Duration, Instant};

/// A clock that counts microseconds from its start, by the runtime's monotonic clock. Where that can't be read, the reading is 2^63 - 1,
/// past each instant that a command may have. That of a task's thread has a stopwatch, which its readings begin.
#[derive(Drop)]
pub struct RealTime<'a, R: time::Clock> {
    rt: &'a R,
    start: Option<Instant>,
    watch: Option<&'a Stopwatch>,
}

// The microseconds from one reading to another, at most 2^63 - 1; 0 where the clock went back.
fn micros_from(start: Instant, now: Instant) -> i64
    ensures { result ≡ micros_between (instant_nanos start) (instant_nanos now) }
{
    let micros = now.duration_since(start).as_micros();
    if micros < i64::MAX as u128 {
        micros as i64
    } else {
        i64::MAX
    }
}

// A time in nanoseconds, at most 2^63 - 1.
fn nanos_of(time: Duration) -> i64
    ensures { result ≡ nanos_of (as_nanos time) }
{
    let nanos = time.as_nanos();
    if nanos < i64::MAX as u128 {
        nanos as i64
    } else {
        i64::MAX
    }
}

// The nanoseconds from one reading up to another; below 0 where that has passed.
fn nanos_until(now: Instant, then: Instant) -> i64
    ensures { result ≡ nanos_until (instant_nanos now) (instant_nanos then) }
{
    nanos_of(then.duration_since(now)) - nanos_of(now.duration_since(then))
}

impl<'a, R: time::Clock> RealTime<'a, R> {
    /// A clock that starts now.
    pub fn start(rt: &'a R) -> RealTime<'a, R> {
        RealTime {
            rt,
            start: Instant::now(rt).ok(),
            watch: None,
        }
    }

    /// How many nanoseconds it is up to a reading in microseconds; below 0 where that has passed, and 0 where the clock can't be read.
    pub fn left_until(&self, raw: i64) -> i64 {
        let micros = Duration::from_micros(raw.max(0).unsigned_abs());
        match (self.start, Instant::now(self.rt)) {
            (Some(start), Ok(now)) => match start.checked_add(micros) {
                Some(then) => nanos_until(now, then),
                None => i64::MAX,
            },
            _ => 0,
        }
    }

    /// Another clock with the same start.
    pub fn another(&self) -> RealTime<'a, R>
        ensures { result ≡ self.now }
    {
        RealTime {
            rt: self.rt,
            start: self.start,
            watch: self.watch,
        }
    }

    /// Another clock with the same start, and this stopwatch.
    pub fn with_watch(&self, watch: Option<&'a Stopwatch>) -> RealTime<'a, R> {
        RealTime {
            rt: self.rt,
            start: self.start,
            watch,
        }
    }

    /// The runtime.
    pub fn runtime(&self) -> &'a R {
        self.rt
    }

    // The reading now.
    fn reading(&self) -> i64 {
        match (self.start, Instant::now(self.rt)) {
            (Some(start), Ok(now)) => micros_from(start, now),
            _ => i64::MAX,
        }
    }

    /// The call for which the clock was read last was a scan, and has ended: the stopwatch stops.
    pub fn end_scan(&self) {
        if let Some(watch) = self.watch {
            watch.end(self.reading());
        }
    }
}

impl<'a, R: time::Clock> Clock for RealTime<'a, R> {
    ghost reads = { λ old raw new. new ≡ old };

    fn now(&mut self) -> i64 {
        let now = self.reading();
        if let Some(watch) = self.watch {
            watch.begin(now);
        }
        now
    }
}
