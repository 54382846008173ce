//! On-delay timers (2.5.2.3.4).

ghost use Rattle.std.specs.Prelude.{◌≡◌, ◌^◌, ◌-ℤ◌, pos, ◌≤ℤ◌, int_le, false};

use sfc_base::ticks::Ticks;

/// Is on when its input has been TRUE for the time PT that it took as the input rose. A PT of 0 or less ends at once
/// (our choice), and a change of PT while the input is TRUE has no effect (our choice).
#[derive(Clone, Copy)]
pub struct OnDelay {
    is_running: bool,
    start: i64,
    preset: i64,
    ghost start_low: { pos 0 ≤ℤ start },
    ghost start_high: { start ≤ℤ pos (2 ^ 62) },
    // All that don't run are the same.
    ghost no_start: { is_running ≡ false → start ≡ pos 0 },
    ghost no_preset: { is_running ≡ false → preset ≡ pos 0 },
}

#[tactic(auto, unfolding(crate::specs::Agreement::OnDelayAgrees))]
impl OnDelay {
    ghost use Rattle.std.specs.Prelude.{◌≡◌, ◌^◌, List, [], ◌∷◌, pos, ◌≤ℤ◌, is_some};
    ghost use Rattle.sfc_base.specs.Ticks.{Within};
    ghost use Rattle.sfc_timers.specs.Timers.{Reading, has_elapsed};
    ghost use Rattle.sfc_timers.specs.Agreement.{OnDelayAgrees};
    ghost use Rattle.sfc_timers.specs.Past.{on_delay_in};

    /// A timer that has seen no call.
    pub fn new() -> Self
        ensures { OnDelayAgrees result [] }
    {
        OnDelay {
            is_running: false,
            start: 0,
            preset: 0,
        }
    }

    /// Takes the input, the time PT and the instant `t` of one more call, both in microseconds, and answers whether
    /// the time has elapsed. Instants are from 0 to 2^62, and none is before the one of the call before.
    pub fn step(&mut self, input: bool, pt: i64, t: i64, ticks: &mut Ticks) -> bool
        requires low { pos 0 ≤ℤ t }
        requires high { t ≤ℤ pos (2 ^ 62) }
        ensures agrees { (h : List Reading) → OnDelayAgrees self.old h → OnDelayAgrees self.new ((input, pt, t) ∷ h) }
        ensures answer { (h : List Reading) → OnDelayAgrees self.old h → result ≡ has_elapsed ((input, pt, t) ∷ h) }
        ensures ticks { Within 1 ticks.old ticks.new }
    {
        ticks.tick();
        if !input {
            self.is_running = false;
            self.start = 0;
            self.preset = 0;
            return false;
        }
        if !self.is_running {
            self.is_running = true;
            self.start = t;
            self.preset = pt;
        }
        has_waited(self.start, self.preset, t)
    }

    /// Whether the input of the newest call was TRUE: its time runs, or has elapsed. FALSE before the first call.
    #[tactic(auto, unfolding(crate::specs::Past::on_delay_in))]
    pub fn is_running(&self) -> bool
        ensures { result ≡ is_some (on_delay_in self.now) }
    {
        self.is_running
    }

    /// Takes over what the other has seen.
    pub fn copy_from(&mut self, other: &OnDelay)
        ensures { (h : List Reading) → OnDelayAgrees other.now h → OnDelayAgrees self.new h }
    {
        self.is_running = other.is_running;
        self.start = other.start;
        self.preset = other.preset;
    }
}

// Whether the time from `start` to `t` is at least `preset`.
fn has_waited(start: i64, preset: i64, t: i64) -> bool
    requires low { pos 0 ≤ℤ t }
    requires high { t ≤ℤ pos (2 ^ 62) }
    requires start_low { pos 0 ≤ℤ start }
    requires start_high { start ≤ℤ pos (2 ^ 62) }
    ensures { result ≡ int_le preset (t -ℤ start) }
{
    t - start >= preset
}
