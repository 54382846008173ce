//! Cases that are run, and what becomes of them.

ghost use Rattle.std.specs.Prelude.{◌≡◌, ◌∷◌, ◌++◌, [], None, is_none, IfNone, IfOk, OnOk};
ghost use Rattle.sfc_replay.specs.sfc_output.Output.{debugger_of};
ghost use Rattle.sfc_judge.specs.Answers.{is_passed};
ghost use Rattle.sfc_judge.specs.Courses as courses;
ghost use Rattle.sfc_judge.specs.Holding as holding;
ghost use Rattle.sfc_judge.specs.Moments.{Moment, Step, behind_command, behind_step};
ghost use Rattle.sfc_judge.specs.Running.Benches.{IsGiven, IsReady, Stands, steered_in};
ghost use Rattle.sfc_judge.specs.Running.Cases.{lines_in};
ghost use Rattle.sfc_judge.specs.Running.Watching as watching;
ghost use Rattle.sfc_cases.specs.Stimuli as stimuli;
ghost use Rattle.sfc_judge.specs.Dues as dues;
ghost use Rattle.sfc_judge.specs.Running.Watching.{held_in};

use crate::bench::Bench;
use crate::case::Case;
use crate::complaint::{Complaint, wrong_with};
use crate::given::Given;
use crate::pending::Pending;
use crate::sfc_instance::scan_fault::ScanFault;
use sfc_cases::deed::Deed;
use sfc_cases::joined::Condition;
use sfc_cases::line::Line;
use sfc_cases::stimulus::Stimulus;
use sfc_cases::watch::Watch;
use sfc_events::command::Command;
use std::alloc::{AllocError, Global};

/// The most commands of a line.
const MOST: u64 = 100_000_000;

/// Where a case failed.
#[derive(Clone, Copy)]
pub struct Failure<'a> {
    /// The line at which it did.
    pub line: &'a Line,
    /// What is wrong.
    pub complaint: Complaint<'a>,
}

/// What became of a case.
#[derive(Clone, Copy)]
pub enum Outcome<'a> {
    /// Each line was right.
    Passed,
    /// The first that wasn't.
    Failed(Failure<'a>),
}

// Whether a fault is this one.
fn is_fault(fault: ScanFault, found: Option<ScanFault>) -> bool
    ensures { result ≡ holding.is_fault fault found }
{
    match found {
        Some(other) => other.number() == fault.number(),
        None => false,
    }
}

// That something has to hold.
fn unless<'a>(holds: bool) -> Option<Complaint<'a>>
    ensures { is_none result ≡ holds }
{
    if holds {
        None
    } else {
        Some(Complaint::Differs)
    }
}

// What is wrong with the conditions that are watched, if something is.
fn look<'a>(bench: &Bench, pending: &mut Pending<'a>) -> Option<Complaint<'a>>
    ensures { (m : Moment) → Stands bench.now m →
        watching.Looks (steered_in bench.now) m (held_in pending.old) (held_in pending.new) result }
{
    match pending.look(bench) {
        Some(line) => Some(Complaint::Broken(line)),
        None => None,
    }
}

// What is wrong behind a command that should be accepted, if something is.
fn check<'a>(
    bench: &Bench,
    pending: &mut Pending<'a>,
    given: &Given,
    behind: Case<'a>,
) -> Option<Complaint<'a>>
    ensures { (m : Moment) (step : Step) → IsGiven (steered_in bench.now) m step.timed given.now →
        Stands bench.now (behind_step (steered_in bench.now) m step) →
        watching.ChecksStep (steered_in bench.now) m step (lines_in behind.entry) (held_in pending.old) (held_in pending.new) result }
{
    match wrong_with(bench.resource(), given, behind) {
        Some(wrong) => Some(wrong),
        None => look(bench, pending),
    }
}

// What is wrong with a command that should be accepted, if something is.
fn give<'a>(
    bench: &mut Bench,
    pending: &mut Pending<'a>,
    command: Command,
    behind: Case<'a>,
) -> Option<Complaint<'a>>
    ensures ready { IsReady bench.old → IsReady bench.new }
    ensures steered { steered_in bench.new ≡ steered_in bench.old }
    ensures checks { (m : Moment) → Stands bench.old m →
        watching.Checks (steered_in bench.old) m (command, m.clock) (lines_in behind.entry) (held_in pending.old) (held_in pending.new) result }
    ensures stands { (m : Moment) → Stands bench.old m → Stands bench.new (behind_command (steered_in bench.old) m (command, m.clock)) }
{
    let given = bench.give(command);
    check(bench, pending, &given, behind)
}

// What is wrong with a command that should be refused for the reason of this number, if something is.
fn refuse<'a>(
    bench: &mut Bench,
    pending: &mut Pending<'a>,
    number: u8,
    command: Command,
) -> Option<Complaint<'a>>
    ensures ready { IsReady bench.old → IsReady bench.new }
    ensures steered { steered_in bench.new ≡ steered_in bench.old }
    ensures goes { (m : Moment) → Stands bench.old m → watching.Goes (steered_in bench.old)
        (holding.is_refused number ((debugger_of (steered_in bench.old)).verdict m.history (command, m.clock)))
        (behind_command (steered_in bench.old) m (command, m.clock) ∷ []) (held_in pending.old) (held_in pending.new) result }
    ensures stands { (m : Moment) → Stands bench.old m → Stands bench.new (behind_command (steered_in bench.old) m (command, m.clock)) }
{
    match bench.give(command).answer {
        Ok(_) => Some(Complaint::Accepted),
        Err(refusal) if refusal.number() != number => Some(Complaint::Refused(refusal)),
        Err(_) => look(bench, pending),
    }
}

// What is wrong at the end of a run, behind which nothing comes up to the limit, if something is.
fn end<'a>(bench: &mut Bench, until: &Option<Condition>, limit: i64) -> Option<Complaint<'a>>
    ensures ready { IsReady bench.old → IsReady bench.new }
    ensures steered { steered_in bench.new ≡ steered_in bench.old }
    ensures wrong { is_none result ≡ is_none until.now }
    ensures stands { (m : Moment) → Stands bench.old m → IfNone result
        (Stands bench.new (record { history = m.history; clock = dues.later m.clock limit; stimuli = m.stimuli })) }
{
    if until.is_some() {
        return Some(Complaint::NotYet);
    }
    bench.go_on_to(limit);
    None
}

// Gives what comes up to a limit, or until a condition is TRUE: what is wrong then, if something is.
fn run<'a>(
    bench: &mut Bench,
    pending: &mut Pending<'a>,
    until: &Option<Condition>,
    limit: i64,
    behind: Case<'a>,
) -> Option<Complaint<'a>>
    ensures ready { IsReady bench.old → IsReady bench.new }
    ensures steered { steered_in bench.new ≡ steered_in bench.old }
    ensures runs { (m : Moment) → Stands bench.old m →
        watching.Runs (steered_in bench.old) until.now limit m (lines_in behind.entry) (held_in pending.old) (held_in pending.new) result }
    ensures stands { (m : Moment) → Stands bench.old m → IfNone result
        (Stands bench.new (watching.run_end (steered_in bench.old) until.now limit m)) }
{
    'scans: for _scan in 0..MOST {
        if bench.is_met(until) {
            return None;
        }
        let Some(given) = bench.next(limit) else {
            return end(bench, until, limit);
        };
        if let Some(wrong) = check(bench, pending, &given, behind) {
            return Some(wrong);
        }
    }
    Some(Complaint::TooMany)
}

// Something is watched from here on: what is wrong, if something is. The error is that memory was refused.
fn begin_watch<'a>(
    bench: &Bench,
    pending: &mut Pending<'a>,
    line: &'a Line,
    watched: &'a Watch,
) -> Result<Option<Complaint<'a>>, AllocError>
    ensures { (m : Moment) → Stands bench.now m → IfOk result (λ wrong.
        watching.Starts (steered_in bench.now) m watched.now (held_in pending.old) (held_in pending.new) wrong) }
{
    if pending.begin(bench, line, watched)? {
        return Ok(None);
    }
    Ok(Some(Complaint::Broken(line)))
}

// A stimulus goes on from here. The error is that memory was refused.
fn stir<'a>(bench: &mut Bench, stimulus: Stimulus) -> Result<Option<Complaint<'a>>, AllocError>
    ensures ready { IsReady bench.old → IsReady bench.new }
    ensures steered { steered_in bench.new ≡ steered_in bench.old }
    ensures nothing { IfOk result (λ wrong. wrong ≡ None) }
    ensures stands { (m : Moment) → Stands bench.old m → OnOk result (Stands bench.new (record {
      history = m.history;
      clock = m.clock;
      stimuli = m.stimuli ++ stimuli.begun m.clock stimulus ∷ [];
    })) }
{
    bench.begin_stimulus(stimulus)?;
    Ok(None)
}

// Whether holds what a deed says of now.
fn holds(bench: &Bench, deed: &Deed) -> bool
    ensures { (m : Moment) → Stands bench.now m → result ≡ holding.holds (steered_in bench.now) m deed.now }
{
    match deed {
        Deed::Expects(condition) => bench.reads(true, condition),
        Deed::Active(program, steps) => bench.are_active(*program, steps.as_slice()),
        Deed::Faulted(fault, program) => is_fault(*fault, bench.fault(*program)),
        Deed::Overran(number, task) => bench.overruns(*task) == *number,
        _ => true,
    }
}

// What is wrong with a line, behind which these stand, if something is. The error is that memory was refused.
fn obey<'a>(
    bench: &mut Bench,
    pending: &mut Pending<'a>,
    line: &'a Line,
    behind: Case<'a>,
) -> Result<Option<Complaint<'a>>, AllocError>
    ensures ready { IsReady bench.old → IsReady bench.new }
    ensures steered { steered_in bench.new ≡ steered_in bench.old }
    ensures obeys { (m : Moment) → Stands bench.old m → IfOk result (λ wrong.
        watching.Obeys (steered_in bench.old) m line.now (lines_in behind.entry) (held_in pending.old) (held_in pending.new) wrong) }
    ensures stands { (m : Moment) → Stands bench.old m → IfOk result (λ wrong. IfNone wrong
        (Stands bench.new (courses.behind_line (steered_in bench.old) m line.now))) }
{
    bench.go_to(line.instant);
    match &line.deed {
        Deed::Gives(command) => Ok(give(bench, pending, *command, behind)),
        Deed::Refuses(number, command) => Ok(refuse(bench, pending, *number, *command)),
        Deed::Runs(until, limit) => {
            let limit = limit.after(bench.clock());
            Ok(run(bench, pending, until, limit, behind))
        }
        Deed::Watches(watched) => begin_watch(bench, pending, line, watched),
        Deed::Stirs(stimulus) => stir(bench, *stimulus),
        deed => Ok(unless(holds(bench, deed))),
    }
}

// What becomes of a case whose lines are right, where it ends.
fn ended<'a>(bench: &Bench, pending: &mut Pending<'a>) -> Outcome<'a>
    ensures { (m : Moment) → Stands bench.now m →
        is_passed result ≡ watching.all_held (steered_in bench.now) (held_in pending.old) (m ∷ []) }
{
    match pending.look(bench) {
        Some(line) => Outcome::Failed(Failure {
            line,
            complaint: Complaint::Broken(line),
        }),
        None => Outcome::Passed,
    }
}

/// Runs a case from its opening on, up to its first line that isn't right; the bench stands there then. The one error is that memory was
/// refused.
pub fn judge<'a>(
    alloc: Global,
    bench: &mut Bench,
    case: Case<'a>,
) -> Result<Outcome<'a>, AllocError>
    requires ready { IsReady bench.old }
    ensures ready { IsReady bench.new }
    ensures steered { steered_in bench.new ≡ steered_in bench.old }
    ensures passed { IfOk result (λ outcome. is_passed outcome ≡ holding.passes (steered_in bench.old) (lines_in case.entry)) }
{
    bench.begin();
    let mut pending = Pending::new(alloc);
    let mut rest = case;
    'lines: while let Some((line, behind)) = rest.split_first() {
        if let Some(complaint) = obey(bench, &mut pending, line, behind)? {
            return Ok(Outcome::Failed(Failure { line, complaint }));
        }
        rest = behind;
    }
    Ok(ended(bench, &mut pending))
}
