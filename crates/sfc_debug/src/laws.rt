//! What holds of the definitions themselves. Each law is a function whose contract is the law; a body, where there is
//! one, cites another law.

ghost use Rattle.std.specs.Prelude.{◌≡◌, ◌↔◌, ◌+◌, ◌+ℤ◌, ◌≤◌, ◌≤ℤ◌, ◌^◌, ℤ, pos, Bool, true, Ok, Some};
ghost use Rattle.std.specs.Prelude.{List, [], ◌∷◌, ◌++◌, length, All};
ghost use Rattle.sfc_base.specs.declared.ids.ProgId.{ProgId};
ghost use Rattle.sfc_base.specs.declared.ids.TaskId.{TaskId};
ghost use Rattle.sfc_base.specs.declared.ids.VarId.{VarId};
ghost use Rattle.sfc_plant.specs.Plants.{PlantData};
ghost use Rattle.sfc_plant.specs.Sound.{IsPlant};
ghost use Rattle.sfc_debug.specs.Histories.{TimedCommand, CommandHistory};
ghost use Rattle.sfc_debug.specs.Longer.{IsNamedWithin, NamesWithin};
ghost use Rattle.sfc_debug.specs.Modes.{mode_after};
ghost use Rattle.sfc_debug.specs.Meaning.{halts, IsAccepted, IsInTime, stands_in, breakpoint_at, latest_at, hits_at};
ghost use Rattle.sfc_debug.specs.Meaning.{paused, later_by, IsFrom, IsPause, plain, answers_of, event_answers};
ghost use Rattle.sfc_debug.specs.Agreement.{Agrees, plant_of, table_of};
ghost use Rattle.sfc_debug.specs.Openings.{kept_in};
ghost use Rattle.sfc_debug.specs.Past.{debug_past};
ghost use Rattle.sfc_debug.specs.declared.debugger.Debugger.{Debugger};
ghost use Rattle.sfc_debug.specs.RunClock.{run_instant, delta_of};
ghost use Rattle.sfc_debug.specs.States as rules;
ghost use Rattle.sfc_debug.specs.States.{state_of, hits};
ghost use Rattle.sfc_debug.specs.Sums.{running_stretches, single_deltas, wanted_rows, nodes_of_points};
ghost use Rattle.sfc_debug.specs.Tracing.{row_of, with_row};
ghost use Rattle.sfc_debug.specs.Verdict.{verdict, after_all};
ghost use Rattle.sfc_debug.specs.Work.{command_work};
ghost use Rattle.sfc_core.specs.Work.{event_work};
ghost use Rattle.sfc_debug.specs.declared.break_condition.BreakCondition.{BreakCondition};
ghost use Rattle.sfc_debug.specs.declared.mode.Mode.{Mode};
ghost use Rattle.sfc_debug.specs.declared.mode.Mode.TheVariants.{Stopped};
ghost use Rattle.sfc_debug.specs.declared.run_clock.RunClock.{RunClock};
ghost use Rattle.sfc_debug.specs.declared.trace_mask.TraceMask.{TraceMask};
ghost use Rattle.sfc_events.specs.declared.command.Answer.{Answer};
ghost use Rattle.sfc_events.specs.declared.command.Answer.TheVariants.{Done};
ghost use Rattle.sfc_events.specs.declared.command.Command.{Command};
ghost use Rattle.sfc_events.specs.declared.command.Command.TheVariants.{Scan, Read, Stop, Go};
ghost use Rattle.sfc_events.specs.declared.command.Point.{Point};
ghost use Rattle.sfc_events.specs.declared.event.Event.{Event};
ghost use Rattle.sfc_events.specs.declared.event.Event.TheVariants as events;
ghost use Rattle.sfc_events.specs.Commands.{event_of};

use crate::sfc_instance::laws as instance;

/// While halted the run instant stands still, but for what a single scan lets pass.
pub fn halted()
    ensures { (clock : RunClock) (command : Command) (raw : ℤ) → clock.mode ≡ Stopped →
        run_instant clock command raw ≡ (clock.instant +ℤ delta_of command) }
{}

/// The run instant after accepted commands is the sum of the stretches of raw time from command to command, the first from 0, behind
/// which command the mode is Running, and of the deltas of all single scans.
pub fn run_time()
    ensures { (plant : PlantData) (table : List BreakCondition) (h : CommandHistory) →
        (state_of plant table h).clock.instant ≡ running_stretches plant table h +ℤ single_deltas h }
{}

/// A debugger that agrees with one list of commands and keeps the rows that are wanted of it, keeps those that are wanted behind one
/// command more: so the n-th of its rows is the n-th newest of the wanted ones.
pub fn rows()
    ensures none { (plant : PlantData) (table : List BreakCondition) (mask : TraceMask) → wanted_rows plant table mask [] ≡ [] }
    ensures more { (plant : PlantData) (table : List BreakCondition) (mask : TraceMask) (h : CommandHistory) (command : Command) (raw : ℤ)
        (answer : Answer) → verdict plant table h command raw ≡ Ok answer → wanted_rows plant table mask ((command, raw) ∷ h) ≡
        with_row mask (row_of plant table h command raw answer) (wanted_rows plant table mask h) }
{}

/// A scan of a debugger handles at most 64 things more than the resource's own scan, one for each breakpoint, and the nodes of their
/// conditions.
pub fn scan_work()
    ensures { (plant : PlantData) (table : List BreakCondition) (h : CommandHistory) (task : TaskId) → IsAccepted plant table h →
        command_work plant table (state_of plant table h).points (Scan task) ≤
        event_work plant (events.Scan task) + 64 + nodes_of_points table (state_of plant table h).points }
{}

/// After an accepted command all is halted exactly where the command was a scan that hit a breakpoint, or Stop, or
/// where it was halted before and the command is neither Go nor End. So a scan that hits leaves it halted.
pub fn hits_stop()
    ensures mode { (command : Command) (hit : Bool) (mode : Mode) →
        (mode_after command hit mode ≡ Stopped) ↔ (halts command hit mode ≡ true) }
    ensures scan { (plant : PlantData) (table : List BreakCondition) (h : CommandHistory) (task : TaskId) (raw : ℤ) →
        hits plant table (Scan task) (run_instant (state_of plant table h).clock (Scan task) raw)
        (state_of plant table h).points (state_of plant table h).events ≡ true →
        (state_of plant table ((Scan task, raw) ∷ h)).clock.mode ≡ Stopped }
{}

/// Whatever commands come, the history that they leave has only commands that were accepted after those before them.
pub fn accepted_commands()
    ensures { (plant : PlantData) (table : List BreakCondition) (commands : List TimedCommand) →
        IsAccepted plant table (after_all plant table [] commands) }
{}

/// After accepted commands at most 64 breakpoints are set, and each is at a point of its program instance's chart.
pub fn points()
    ensures count { (plant : PlantData) (table : List BreakCondition) (h : CommandHistory) →
        IsAccepted plant table h → length (state_of plant table h).points ≤ 64 }
    ensures there { (plant : PlantData) (table : List BreakCondition) (h : CommandHistory) →
        IsAccepted plant table h →
        All (λ breakpoint. stands_in plant breakpoint ≡ true) (state_of plant table h).points }
{}

/// The breakpoint that is set at a point is the one that the latest Break, BreakIf or Unbreak of that point sets: none
/// where that is an Unbreak, or where there was none of them.
pub fn latest()
    ensures { (plant : PlantData) (table : List BreakCondition) (h : CommandHistory) (p : ProgId) (point : Point) →
        breakpoint_at p point (state_of plant table h).points ≡ latest_at p point h }
{}

/// A pause changes nothing but raw instants. The mode was Running, and all was halted at r and let go d microseconds
/// later: each of the commands from then on, given d later, has the verdict that it would have had without the pause,
/// refused ones among them, and happens at the same run instant; and the resource was told the same. The pause itself
/// is accepted where its instants are in range.
pub fn pause()
    ensures verdict { (plant : PlantData) (table : List BreakCondition) (h : CommandHistory)
        (later : List TimedCommand) (r d : ℤ) (command : Command) (raw : ℤ) →
        IsPause plant table h later r d → IsFrom r d raw →
        verdict plant table (after_all plant table h later) command raw ≡
        verdict plant table (after_all plant table (paused r d h) (later_by d later)) command (raw +ℤ d) }
    ensures instant { (plant : PlantData) (table : List BreakCondition) (h : CommandHistory)
        (later : List TimedCommand) (r d : ℤ) (command : Command) (raw : ℤ) →
        IsPause plant table h later r d → r ≤ℤ raw →
        run_instant (state_of plant table (after_all plant table h later)).clock command raw ≡
        run_instant (state_of plant table (after_all plant table (paused r d h) (later_by d later))).clock
        command (raw +ℤ d) }
    ensures told { (plant : PlantData) (table : List BreakCondition) (h : CommandHistory) (later : List TimedCommand)
        (r d : ℤ) → IsPause plant table h later r d →
        rules.erasure plant table (after_all plant table h later) ≡
        rules.erasure plant table (after_all plant table (paused r d h) (later_by d later)) }
    ensures stop { (plant : PlantData) (table : List BreakCondition) (h : CommandHistory) (r d : ℤ) →
        IsPause plant table h [] r d → IsFrom r d r →
        run_instant (state_of plant table h).clock Stop r ≤ℤ pos (2 ^ 62) → verdict plant table h Stop r ≡ Ok Done }
    ensures go { (plant : PlantData) (table : List BreakCondition) (h : CommandHistory) (r d : ℤ) →
        IsPause plant table h [] r d → IsFrom r d r →
        run_instant (state_of plant table h).clock Stop r ≤ℤ pos (2 ^ 62) →
        verdict plant table ((Stop, r) ∷ h) Go (r +ℤ d) ≡ Ok Done }
{}

/// What is answered depends only on what the resource was told, hits apart. After two histories that told it the same,
/// a command that is an event has the same verdict at the same run instant, hits apart, where neither the end nor the
/// clock refuses it; and a variable reads the same. The answers to those commands of an accepted history that are
/// events, hits apart, are the resource's own over what it was told.
pub fn erasure()
    ensures answer { (plant : PlantData) (table : List BreakCondition) (h g : CommandHistory) (command : Command)
        (event : Event) (r s : ℤ) → rules.erasure plant table h ≡ rules.erasure plant table g →
        event_of command ≡ Some event → IsInTime plant table h command r → IsInTime plant table g command s →
        run_instant (state_of plant table h).clock command r ≡ run_instant (state_of plant table g).clock command s →
        plain (verdict plant table h command r) ≡ plain (verdict plant table g command s) }
    ensures read { (plant : PlantData) (table : List BreakCondition) (h g : CommandHistory) (id : VarId) (r s : ℤ) →
        rules.erasure plant table h ≡ rules.erasure plant table g → IsInTime plant table h (Read id) r →
        IsInTime plant table g (Read id) s → verdict plant table h (Read id) r ≡ verdict plant table g (Read id) s }
    ensures answers { (plant : PlantData) (table : List BreakCondition) (h : CommandHistory) →
        IsAccepted plant table h →
        answers_of plant table h ≡ event_answers plant (rules.erasure plant table h) }
{}

/// What is answered goes by the past of the accepted commands. After two lists of the same past each command has the same verdict
/// at each raw instant, happens at the same run instant, and hits a breakpoint after both lists or after neither; the mode and the
/// instants of the latest command, the breakpoints that are set, and the number of commands are the same.
pub fn past_answers()
    ensures verdict { (plant : PlantData) (table : List BreakCondition) (h other : CommandHistory) (command : Command)
        (raw : ℤ) → IsPlant plant → debug_past plant table h ≡ debug_past plant table other →
        verdict plant table h command raw ≡ verdict plant table other command raw }
    ensures hits { (plant : PlantData) (table : List BreakCondition) (h other : CommandHistory) (command : Command)
        (raw : ℤ) → IsPlant plant → debug_past plant table h ≡ debug_past plant table other →
        hits_at plant table (state_of plant table h) command raw ≡ hits_at plant table (state_of plant table other) command raw }
    ensures instant { (plant : PlantData) (table : List BreakCondition) (h other : CommandHistory) (command : Command)
        (raw : ℤ) → debug_past plant table h ≡ debug_past plant table other →
        run_instant (state_of plant table h).clock command raw ≡ run_instant (state_of plant table other).clock command raw }
    ensures clock { (plant : PlantData) (table : List BreakCondition) (h other : CommandHistory) →
        debug_past plant table h ≡ debug_past plant table other →
        (state_of plant table h).clock ≡ (state_of plant table other).clock }
    ensures points { (plant : PlantData) (table : List BreakCondition) (h other : CommandHistory) →
        debug_past plant table h ≡ debug_past plant table other →
        (state_of plant table h).points ≡ (state_of plant table other).points }
    ensures accepted { (plant : PlantData) (table : List BreakCondition) (h other : CommandHistory) →
        debug_past plant table h ≡ debug_past plant table other → length h ≡ length other }
{
    instance::past_answers();
}

/// What a debugger keeps is the past of its commands: all that later answers need, so that it agrees with each list of this past,
/// and with no other.
pub fn kept_past()
    ensures { (debugger : Debugger) (h : CommandHistory) →
        Agrees debugger h ↔ (kept_in debugger ≡ debug_past (plant_of debugger) (table_of debugger) h) }
{}

/// Two lists of the same past have the same past after one more command too, whatever it is, at one raw instant.
pub fn next_past()
    ensures { (plant : PlantData) (table : List BreakCondition) (h other : CommandHistory) (command : Command) (raw : ℤ) →
        IsPlant plant → debug_past plant table h ≡ debug_past plant table other →
        debug_past plant table ((command, raw) ∷ h) ≡ debug_past plant table ((command, raw) ∷ other) }
{
    past_answers();
}

/// A history may be cut at any place, and what came before replaced by its past: after another of the same past the same commands
/// give the same past, and each command has the same verdict at each raw instant, happens at the same run instant, and hits a
/// breakpoint after both or after neither.
pub fn cut()
    ensures past { (plant : PlantData) (table : List BreakCondition) (h other later : CommandHistory) → IsPlant plant →
        debug_past plant table h ≡ debug_past plant table other →
        debug_past plant table (later ++ h) ≡ debug_past plant table (later ++ other) }
    ensures verdict { (plant : PlantData) (table : List BreakCondition) (h other later : CommandHistory) (command : Command)
        (raw : ℤ) → IsPlant plant → debug_past plant table h ≡ debug_past plant table other →
        verdict plant table (later ++ h) command raw ≡ verdict plant table (later ++ other) command raw }
    ensures hits { (plant : PlantData) (table : List BreakCondition) (h other later : CommandHistory) (command : Command)
        (raw : ℤ) → IsPlant plant → debug_past plant table h ≡ debug_past plant table other →
        hits_at plant table (state_of plant table (later ++ h)) command raw ≡
        hits_at plant table (state_of plant table (later ++ other)) command raw }
    ensures instant { (plant : PlantData) (table : List BreakCondition) (h other later : CommandHistory) (command : Command)
        (raw : ℤ) → IsPlant plant → debug_past plant table h ≡ debug_past plant table other →
        run_instant (state_of plant table (later ++ h)).clock command raw ≡
        run_instant (state_of plant table (later ++ other)).clock command raw }
{
    past_answers();
    next_past();
}

/// A longer table of conditions changes nothing for what names only the first ones: after a history that names only conditions of
/// the table everything stands as with more of them behind, and a command that names none but these has the same verdict.
pub fn longer_table()
    ensures stands { (plant : PlantData) (table more : List BreakCondition) (h : CommandHistory) → NamesWithin (length table) h →
        state_of plant (table ++ more) h ≡ state_of plant table h }
    ensures verdict { (plant : PlantData) (table more : List BreakCondition) (h : CommandHistory) (command : Command) (raw : ℤ) →
        NamesWithin (length table) h → IsNamedWithin (length table) command →
        verdict plant (table ++ more) h command raw ≡ verdict plant table h command raw }
{}
