//! A debugger that is told a command, where an epoch is kept.

ghost use Rattle.std.specs.Prelude.{◌≡◌, OnOk, OnErr, ◌∷◌};
ghost use Rattle.sfc_base.specs.Ticks.{Within};
ghost use Rattle.sfc_debug.specs.Agreement.{Agrees, plant_of, table_of, mask_of};
ghost use Rattle.sfc_debug.specs.Histories.{CommandHistory};
ghost use Rattle.sfc_debug.specs.Openings.{IsOpeningFor};
ghost use Rattle.sfc_debug.specs.States.{state_of};
ghost use Rattle.sfc_debug.specs.Verdict.{verdict};
ghost use Rattle.sfc_debug.specs.Work.{command_work};
ghost use Rattle.sfc_control.specs.Private.Saving.{IsSaved};

use sfc_base::ticks::Ticks;
use sfc_debug::debugger::Debugger;
use sfc_debug::opening::DebugOpening;
use sfc_events::command::{Answer, Command};
use sfc_events::refusal::Refusal;

/// What the debugger answers. What came before an accepted epoch is in the opening then, and any other command leaves the opening
/// as it was. After a refusal both are as they were.
pub fn tell(
    debugger: &mut Debugger,
    opening: &mut DebugOpening,
    command: Command,
    raw: i64,
    ticks: &mut Ticks,
) -> Result<Answer, Refusal>
    requires sizes { IsOpeningFor (plant_of debugger.old) opening.old }
    requires some { ∥ ((h : CommandHistory) × Agrees debugger.old h) ∥₁ }
    ensures plant { plant_of debugger.new ≡ plant_of debugger.old }
    ensures table { table_of debugger.new ≡ table_of debugger.old }
    ensures mask { mask_of debugger.new ≡ mask_of debugger.old }
    ensures sizes { IsOpeningFor (plant_of debugger.old) opening.new }
    ensures answer { (h : CommandHistory) → Agrees debugger.old h →
        result ≡ verdict (plant_of debugger.old) (table_of debugger.old) h command raw }
    ensures ok { OnOk result ((h : CommandHistory) → Agrees debugger.old h → Agrees debugger.new ((command, raw) ∷ h)) }
    ensures saved { OnOk result ((h : CommandHistory) → Agrees debugger.old h →
        IsSaved (plant_of debugger.old) (table_of debugger.old) h command opening.old opening.new) }
    ensures err { OnErr result (debugger.new ≡ debugger.old) }
    ensures kept { OnErr result (opening.new ≡ opening.old) }
    ensures ticks { (h : CommandHistory) → Agrees debugger.old h →
        Within (command_work (plant_of debugger.old) (table_of debugger.old)
        (state_of (plant_of debugger.old) (table_of debugger.old) h).points command) ticks.old ticks.new }
{
    match command {
        Command::Epoch => {
            if let Err(refusal) = debugger.epoch_answer(raw) {
                return Err(refusal);
            }
            debugger.save(opening);
            debugger.command(command, raw, ticks)
        }
        _ => debugger.command(command, raw, ticks),
    }
}
