//! What came before, in place of the commands.

ghost use Rattle.std.specs.Prelude.{◌≡◌, ◌≤ℤ◌, ◌^◌, pos};

use crate::breakpoints::Breakpoints;
use crate::debugger::Debugger;
use crate::mode::Mode;
use crate::run_clock::RunClock;
use sfc_core::opening::Opening;
use std::alloc::{AllocError, Global};

/// What a list of commands leaves for later ones: the mode, the instants of the latest command, the breakpoints with their
/// conditions, how many commands were accepted, and what the resource's events leave. It is used with the plant and the table of
/// conditions of the debugger that it was made for.
pub struct DebugOpening {
    pub(crate) resource: Opening,
    pub(crate) points: Breakpoints,
    pub(crate) clock: RunClock,
    pub(crate) accepted: u64,
    ghost instant_low: { pos 0 ≤ℤ clock.instant },
    ghost instant_high: { clock.instant ≤ℤ pos (2 ^ 62) },
    ghost raw_low: { pos 0 ≤ℤ clock.raw },
    ghost raw_high: { clock.raw ≤ℤ pos (2 ^ 62) },
}

// By hand, so that a caller that drops one proves one call.
impl Drop for DebugOpening {
    fn drop(self) {
        let DebugOpening {
            resource: _,
            points: _,
            clock: _,
            accepted: _,
        } = self;
    }
}

#[tactic(auto, unfolding(crate::specs::Openings::IsOpeningFor, crate::specs::Openings::past_of, crate::specs::States::state_of, crate::specs::Agreement::plant_of, crate::specs::Agreement::table_of))]
impl DebugOpening {
    ghost use Rattle.std.specs.Prelude.{[], IfOk};
    ghost use Rattle.sfc_debug.specs.Agreement.{plant_of, table_of};
    ghost use Rattle.sfc_debug.specs.Openings.{IsOpeningFor, past_of};
    ghost use Rattle.sfc_debug.specs.Past.{debug_past};

    /// That of no command: a debugger that is restored from it is as a new one, its trace apart. All memory is taken here;
    /// the one error is that memory was refused.
    pub fn new(alloc: Global, debugger: &Debugger) -> Result<DebugOpening, AllocError>
        ensures sizes { IfOk result (λ opening. IsOpeningFor (plant_of debugger.now) opening) }
        ensures empty { IfOk result (λ opening.
            past_of (plant_of debugger.now) opening ≡ debug_past (plant_of debugger.now) (table_of debugger.now) []) }
    {
        let resource = Opening::new(alloc, debugger.resource().plant())?;
        let points = Breakpoints::new(alloc)?;
        let clock = RunClock {
            mode: Mode::Running,
            instant: 0,
            raw: 0,
        };
        Ok(DebugOpening {
            resource,
            points,
            clock,
            accepted: 0,
        })
    }
}
