//! What holds of a script that is played with breakpoints.

ghost use Rattle.std.specs.Prelude.{◌≡◌, ℤ, true, false, List, ◌∷◌};
ghost use Rattle.sfc_base.specs.declared.ids.TaskId.{TaskId};
ghost use Rattle.sfc_debug.specs.declared.break_condition.BreakCondition.{BreakCondition};
ghost use Rattle.sfc_debug.specs.declared.mode.Mode.TheVariants.{Running};
ghost use Rattle.sfc_debug.specs.Histories.{CommandHistory};
ghost use Rattle.sfc_debug.specs.Meaning.{hits_at};
ghost use Rattle.sfc_debug.specs.States.{state_of};
ghost use Rattle.sfc_events.specs.declared.command.Command.{Command};
ghost use Rattle.sfc_events.specs.declared.command.Command.TheVariants.{Go, Scan};
ghost use Rattle.sfc_plant.specs.Plants.{PlantData};
ghost use Rattle.sfc_dap.specs.Alike.{AreAlike};

/// A hit that is let go at once changes nothing but breakpoints: where a resource that runs stood alike with and without a breakpoint, a scan
/// that hits it and GO at the same raw instant leave it as the scan alone does that hits none. So does each command that hits neither time.
pub fn hit_and_go()
    ensures go { (plant : PlantData) (table : List BreakCondition) (h g : CommandHistory) (task : TaskId) (raw : ℤ) →
        AreAlike plant table h g → (state_of plant table h).clock.mode ≡ Running →
        hits_at plant table (state_of plant table h) (Scan task) raw ≡ false →
        hits_at plant table (state_of plant table g) (Scan task) raw ≡ true →
        AreAlike plant table ((Scan task, raw) ∷ h) ((Go, raw) ∷ (Scan task, raw) ∷ g) }
    ensures other { (plant : PlantData) (table : List BreakCondition) (h g : CommandHistory) (command : Command) (raw : ℤ) →
        AreAlike plant table h g → hits_at plant table (state_of plant table h) command raw ≡ false →
        hits_at plant table (state_of plant table g) command raw ≡ false →
        AreAlike plant table ((command, raw) ∷ h) ((command, raw) ∷ g) }
{}
