//! Which steps of a program instance are active, and their times (2.6.2).

ghost use Rattle.std.specs.Prelude.{◌≡◌, ◌<◌, ◌≤ℤ◌, ◌^◌, pos, length, slice_index_or};
ghost use Rattle.sfc_base.specs.Instants.{AreInstants};

use sfc_base::instants::time_since;
use sfc_base::references::StepId;
use sfc_flags::flags::Flags;

/// Which steps are active, and by the steps' numbers when each was last activated and the time that it kept when it was left, as they are
/// read at an instant: in microseconds, and instants from 0 to 2^62.
#[derive(Clone, Copy)]
pub struct StepReadings<'a> {
    pub active: &'a Flags,
    pub since: &'a [i64],
    pub held_times: &'a [i64],
    pub at: i64,
    ghost low: { pos 0 ≤ℤ at },
    ghost high: { at ≤ℤ pos (2 ^ 62) },
    ghost instants: { AreInstants since.now },
    ghost since_len: { length since.now ≡ length active.now },
    ghost held_times_len: { length held_times.now ≡ length active.now },
}

// The time that the step kept when it was left.
fn kept_time(held_times: &[i64], step: usize) -> i64
    requires { step < length held_times.now }
    ensures { result ≡ slice_index_or held_times.now step (pos 0) }
{
    held_times[step]
}

impl<'a> StepReadings<'a> {
    ghost use Rattle.std.specs.Prelude.{◌≡◌, pos, slice_index_or};
    ghost use Rattle.sfc_flags.specs.Flags.{flag};
    ghost use Rattle.sfc_image.specs.StepTimes.{times_of};

    /// Whether the step is active; a step that isn't there is not.
    pub fn is_active(&self, step: StepId) -> bool
        ensures { result ≡ flag self.now.active.now step.0 }
    {
        let s = step.0 as usize;
        s < self.active.count() && self.active.get(s)
    }

    /// The time of the step in microseconds: since it was last activated, or what it kept when it was left (2.6.2); 0 of a step that isn't
    /// there.
    pub fn time_of(&self, step: StepId) -> i64
        ensures { result ≡ slice_index_or (times_of self.now) step.0 (pos 0) }
    {
        let s = step.0 as usize;
        if s >= self.active.count() {
            return 0;
        }
        if self.active.get(s) {
            time_since(self.since[s], self.at)
        } else {
            kept_time(self.held_times, s)
        }
    }
}
