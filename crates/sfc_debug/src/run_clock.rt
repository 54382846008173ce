//! The run clock, which stands still while the resource is halted.

ghost use Rattle.std.specs.Prelude.{◌≡◌, ◌≤ℤ◌, ◌<ℤ◌, ◌+ℤ◌, ◌^◌, None, pos, IfSome, IfOk, IsOk};
ghost use Rattle.sfc_core.specs.Verdict.{instant_refusal};
ghost use Rattle.sfc_debug.specs.RunClock as rules;
ghost use Rattle.sfc_debug.specs.Private.Ranges.{IsInRange, granted};
ghost use Rattle.sfc_debug.specs.States.{clock_after};
ghost use Rattle.sfc_debug.specs.Verdict.{mode_refusal, range_refusal, run_refusal, clock_refusal};

use crate::mode::Mode;
use sfc_events::command::Command;
use sfc_events::refusal::Refusal;

// The last instant.
const LATEST: i64 = 1 << 62;

/// The mode after a command, the command's run instant, and its raw instant, in microseconds.
#[derive(Clone, Copy, Debug, PartialEq, Eq)]
pub struct RunClock {
    pub mode: Mode,
    pub instant: i64,
    pub raw: i64,
}

// By a raw instant, after one at `last`.
fn refuse_raw(last: i64, raw: i64) -> Option<Refusal>
    ensures value { result ≡ instant_refusal last raw }
    ensures low { result ≡ None → pos 0 ≤ℤ raw }
    ensures high { result ≡ None → raw ≤ℤ pos (2 ^ 62) }
    ensures later { result ≡ None → last ≤ℤ raw }
{
    if raw < 0 || raw > LATEST {
        Some(Refusal::InstantRange)
    } else if raw < last {
        Some(Refusal::ClockBack)
    } else {
        None
    }
}

// By the mode.
fn refuse_mode(mode: Mode, command: Command) -> Option<Refusal>
    ensures { result ≡ mode_refusal mode command }
{
    match (mode, command) {
        (Mode::Stopped, Command::Scan(_)) => Some(Refusal::Stopped),
        (Mode::Stopped, Command::Stop) => Some(Refusal::NotRunning),
        (Mode::Running, Command::Go | Command::Single(_, _)) => Some(Refusal::NotStopped),
        _ => None,
    }
}

// What a command lets pass itself.
fn delta_of(command: Command) -> i64
    ensures { result ≡ rules.delta_of command }
{
    match command {
        Command::Single(_, delta) => delta,
        _ => 0,
    }
}

// What is spent of the stretch between two raw instants.
fn running_time(mode: Mode, since: i64, raw: i64) -> i64
    requires since { pos 0 ≤ℤ since }
    requires later { since ≤ℤ raw }
    ensures value { result ≡ rules.running_time mode since raw }
    ensures low { pos 0 ≤ℤ result }
    ensures high { result ≤ℤ raw }
{
    match mode {
        Mode::Running => raw - since,
        Mode::Stopped | Mode::Ended => 0,
    }
}

// The instant that is later by two stretches of time, where it is not above the last one.
fn later_by(instant: i64, passed: i64, delta: i64) -> Option<i64>
    requires instant_low { pos 0 ≤ℤ instant }
    requires instant_high { instant ≤ℤ pos (2 ^ 62) }
    requires passed_low { pos 0 ≤ℤ passed }
    requires passed_high { passed ≤ℤ pos (2 ^ 62) }
    requires delta_low { pos 0 ≤ℤ delta }
    ensures sum { IfSome result (λ t. t ≡ (instant +ℤ passed +ℤ delta)) }
    ensures low { IfSome result (λ t. pos 0 ≤ℤ t) }
    ensures high { IfSome result (λ t. t ≤ℤ pos (2 ^ 62)) }
    ensures none { result ≡ None → pos (2 ^ 62) <ℤ (instant +ℤ passed +ℤ delta) }
{
    if passed > LATEST - instant {
        return None;
    }
    let now = instant + passed;
    if delta > LATEST - now {
        return None;
    }
    Some(now + delta)
}

// The same, or that it is refused.
fn instant_after(instant: i64, passed: i64, delta: i64) -> Result<i64, Refusal>
    requires instant_low { pos 0 ≤ℤ instant }
    requires instant_high { instant ≤ℤ pos (2 ^ 62) }
    requires passed_low { pos 0 ≤ℤ passed }
    requires passed_high { passed ≤ℤ pos (2 ^ 62) }
    ensures value { result ≡ granted (range_refusal delta (instant +ℤ passed +ℤ delta)) (instant +ℤ passed +ℤ delta) }
    ensures low { IfOk result (λ t. pos 0 ≤ℤ t) }
    ensures high { IfOk result (λ t. t ≤ℤ pos (2 ^ 62)) }
{
    if delta < 0 {
        return Err(Refusal::InstantRange);
    }
    match later_by(instant, passed, delta) {
        Some(t) => Ok(t),
        None => Err(Refusal::InstantRange),
    }
}

impl RunClock {
    // The run instant, or that it is out of range.
    fn run_instant(self, command: Command, raw: i64) -> Result<i64, Refusal>
        requires range { IsInRange self }
        requires later { self.raw ≤ℤ raw }
        requires high { raw ≤ℤ pos (2 ^ 62) }
        ensures value { result ≡ granted (run_refusal command (rules.run_instant self command raw)) (rules.run_instant self command raw) }
        ensures low { IfOk result (λ t. pos 0 ≤ℤ t) }
        ensures high { IfOk result (λ t. t ≤ℤ pos (2 ^ 62)) }
    {
        let passed = running_time(self.mode, self.raw, raw);
        let delta = delta_of(command);
        instant_after(self.instant, passed, delta)
    }

    /// The run instant of the command at the raw instant, or why it may not happen then: by the raw instant, by the mode, and by the
    /// run instant.
    pub fn at(self, command: Command, raw: i64) -> Result<i64, Refusal>
        requires range { IsInRange self }
        ensures value { result ≡ granted (clock_refusal self command raw) (rules.run_instant self command raw) }
        ensures low { IfOk result (λ t. pos 0 ≤ℤ t) }
        ensures high { IfOk result (λ t. t ≤ℤ pos (2 ^ 62)) }
        ensures raw_low { IsOk result → pos 0 ≤ℤ raw }
        ensures raw_high { IsOk result → raw ≤ℤ pos (2 ^ 62) }
    {
        if let Some(refusal) = refuse_raw(self.raw, raw) {
            return Err(refusal);
        }
        if let Some(refusal) = refuse_mode(self.mode, command) {
            return Err(refusal);
        }
        self.run_instant(command, raw)
    }

    /// After a command with these instants that hit a breakpoint, or not.
    pub fn after(self, command: Command, raw: i64, t: i64, hit: bool) -> RunClock
        ensures { result ≡ clock_after command raw t hit self }
    {
        let mode = match command {
            Command::Stop => Mode::Stopped,
            Command::Go => Mode::Running,
            Command::End => Mode::Ended,
            Command::Scan(_) if hit => Mode::Stopped,
            _ => self.mode,
        };
        RunClock {
            mode,
            instant: t,
            raw,
        }
    }
}
