//! The gate of a worker that scans as long as it may.

use crate::real_time::RealTime;
use sfc_base::ids::TaskId;
use sfc_control::bells::Bells;
use sfc_control::gate::{Gate, Turn};
use std::hint::spin_loop;
use std::sync::Wait;
use std::time;
use std::time::Duration;

/// How many milliseconds a worker waits at most before it asks again, whether its bell is rung or not.
pub const LONG: u64 = 100;

/// The same in nanoseconds, for a wait that is to end at a release.
const LONG_NANOS: i64 = 100_000_000;

/// How many nanoseconds before a release a wait is to end at most.
const MOST_EARLY: i64 = 80_000;

/// So many nanoseconds earlier the next wait is to end after one that ended behind its release.
const EARLIER: i64 = 500;

/// So many later after one that ended before it.
const LATER: i64 = 2_000;

/// How often the clock is looked at for what is left of a wait.
const LOOKS: u32 = 10_000;

/// The gate of a worker that scans as long as it may. Where no release of its task waits it sleeps up to the next one. Its bell wakes it
/// before: where another task went first and its own may go now, where the SINGLE of its task has changed, and behind GO and END.
///
/// A sleep ends later than it is asked to, by the slack of the system's timers and by what it takes to wake. So it is asked to end
/// earlier, by what four of five sleeps took too long; of the fifth, what is left is spent looking at the clock.
#[derive(Drop)]
pub struct Pace<'a, R: Wait + time::Clock> {
    rt: &'a R,
    // That of the worker, with its stopwatch.
    clock: RealTime<'a, R>,
    bells: &'a Bells,
    task: TaskId,
    // By how many nanoseconds a sleep is asked to end before the release.
    early: i64,
}

impl<'a, R: Wait + time::Clock> Pace<'a, R> {
    /// The gate of the task's worker, by the clock of the run with the stopwatch of the task.
    pub fn new(clock: RealTime<'a, R>, bells: &'a Bells, task: TaskId) -> Pace<'a, R> {
        Pace {
            rt: clock.runtime(),
            clock,
            bells,
            task,
            early: 0,
        }
    }

    // Waits until the bell is rung, and not long.
    fn wait(&self) {
        self.bells
            .wait(self.rt, self.task, Duration::from_millis(LONG));
    }

    // Sleeps up to the raw instant, or until the bell is rung: how many nanoseconds are left then. `None` where it didn't sleep, or the
    // instant is far and is to be asked for again.
    fn sleep_until(&self, raw: i64) -> Option<i64> {
        let asleep = self.clock.left_until(raw).saturating_sub(self.early);
        if asleep <= 0 {
            return None;
        }
        if asleep > LONG_NANOS {
            self.wait();
            return None;
        }
        let long = Duration::from_nanos(asleep.unsigned_abs());
        self.bells.wait(self.rt, self.task, long);
        Some(self.clock.left_until(raw))
    }

    // So many nanoseconds were left when a sleep ended that was to end `early` of them before its release. Where more are left the bell was
    // rung, and nothing is to be learned.
    fn learn(&mut self, left: i64) {
        if left > self.early {
            return;
        }
        let early = if left < 0 {
            self.early.saturating_add(EARLIER)
        } else {
            self.early.saturating_sub(LATER)
        };
        self.early = early.max(0).min(MOST_EARLY);
    }

    // Looks at the clock up to the raw instant, unless it is far.
    fn look_until(&self, raw: i64) {
        'looks: for _ in 0..LOOKS {
            let left = self.clock.left_until(raw);
            if left <= 0 || left > MOST_EARLY {
                return;
            }
            spin_loop();
        }
    }

    // Waits up to the raw instant, or until the bell is rung, and not long.
    fn wait_until(&mut self, raw: i64) {
        if let Some(left) = self.sleep_until(raw) {
            self.learn(left);
        }
        self.look_until(raw);
    }
}

impl<'a, R: Wait + time::Clock> Gate for Pace<'a, R> {
    ghost use Rattle.std.specs.Prelude.{false};

    ghost is_shut = { λ _. false };

    fn turn(&mut self, last: Turn) -> bool {
        match last {
            Turn::First => {}
            Turn::Done(_) => self.clock.end_scan(),
            Turn::Waits(Some(raw)) => self.wait_until(raw),
            Turn::Waits(None) | Turn::Yielded(_) | Turn::Halted => self.wait(),
        }
        true
    }

    fn shut(&self) -> bool {
        false
    }
}
