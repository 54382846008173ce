//! What holds of what a run has recorded.

ghost use Rattle.std.specs.Prelude.{◌≡◌, ℕ, List, [], Option};
ghost use Rattle.sfc_plant.specs.Plants.{PlantData};
ghost use Rattle.sfc_control.specs.sfc_debug.Histories.{CommandHistory};
ghost use Rattle.sfc_events.specs.declared.command.TraceRow.{TraceRow};
ghost use Rattle.sfc_replay.specs.sfc_load.Accepted.{IsAccepted};
ghost use Rattle.sfc_run.specs.Alarms.{AreTold, rows_heard};
ghost use Rattle.sfc_run.specs.Following.{steered_in};
ghost use Rattle.sfc_run.specs.Records.{IsRecordOf, opened_on};
ghost use Rattle.sfc_run.specs.declared.alarms.Alarms.{Alarms};

/// What was recorded of the rows of a run on a chart, from its first command on, is a script of which a replay on the chart answers each
/// command as the run answered it, wherever it is cut behind a line: as long as recording goes on it says all of them, in order, and else
/// a front of them.
pub fn recorded()
    ensures { (chart : List ℕ) (plant : PlantData) (old new : Alarms) (heard : List (Option TraceRow)) (behind : CommandHistory) (text shown kept : List ℕ)
        → IsAccepted chart plant → steered_in old.follower ≡ opened_on plant → AreTold old new heard [] behind text shown kept
        → IsRecordOf chart plant new.recording (rows_heard heard) kept }
{}
