//! What is wrong in a case.

ghost use Rattle.std.specs.Prelude.{◌≡◌, ◌||◌, not, is_none};
ghost use Rattle.sfc_events.specs.InstanceSets.{has};
ghost use Rattle.sfc_replay.specs.sfc_core.Agreement.{plant_of};
ghost use Rattle.sfc_replay.specs.sfc_debug.Steered.{Steered};
ghost use Rattle.sfc_judge.specs.Holding as holding;
ghost use Rattle.sfc_judge.specs.Moments.{Moment};
ghost use Rattle.sfc_replay.specs.sfc_debug.Histories.{TimedCommand};
ghost use Rattle.sfc_judge.specs.Running.Benches.{IsGiven};
ghost use Rattle.sfc_judge.specs.Running.Cases.{lines_in};

use crate::case::Case;
use crate::given::{Given, task_of};
use crate::sfc_core::resource::Resource;
use sfc_base::ids::{ProgId, TaskId};
use sfc_cases::line::Line;
use sfc_events::command::Answer;
use sfc_events::instance_set::InstanceSet;
use sfc_events::refusal::Refusal;

/// What is wrong in a case.
#[derive(Clone, Copy)]
pub enum Complaint<'a> {
    /// A command was refused.
    Refused(Refusal),
    /// A command was refused that the stimulus of this place among those of the case gave, counted from 0.
    Unstirred(usize, Refusal),
    /// A command that has to be refused was accepted.
    Accepted,
    /// The scan of a program instance ended with a fault that no line expects.
    Faulted(ProgId),
    /// A scan brought overruns of a task that no line expects.
    Overran(TaskId),
    /// The condition wasn't TRUE in time.
    NotYet,
    /// The most commands of a line weren't enough.
    TooMany,
    /// What has to hold doesn't.
    Differs,
    /// What this line watches isn't as it has to be.
    Broken(&'a Line),
}

// Whether a program instance is none of these with a fault, or one of the lines expects its fault.
fn is_expected(faulted: InstanceSet, program: ProgId, behind: Case<'_>) -> bool
    ensures { result ≡ (not (has faulted program.0) || holding.expects_fault (lines_in behind.entry) program) }
{
    !faulted.contains(program) || behind.expects_fault(program)
}

// The first of the program instances with a fault that no line expects.
fn first_unexpected(resource: &Resource, faulted: InstanceSet, behind: Case<'_>) -> Option<ProgId>
    ensures { is_none result ≡ holding.are_expected (plant_of resource.now) (lines_in behind.entry) faulted }
{
    'instances: for number in 0..resource.plant().instances().len() {
        let program = ProgId(number as u8);
        if !is_expected(faulted, program, behind) {
            return Some(program);
        }
    }
    None
}

// The same, at once where there is none with a fault.
fn unexpected(resource: &Resource, faulted: InstanceSet, behind: Case<'_>) -> Option<ProgId>
    ensures { is_none result ≡ holding.are_expected (plant_of resource.now) (lines_in behind.entry) faulted }
{
    match faulted.split_first() {
        Some(_) => first_unexpected(resource, faulted, behind),
        None => None,
    }
}

// What is wrong with how many overruns a task has behind a scan.
fn late<'a>(given: &Given, overruns: u64, behind: Case<'_>) -> Option<Complaint<'a>>
    ensures { (steered : Steered) (m : Moment) (timed : TimedCommand) → IsGiven steered m timed given.now →
        is_none result ≡ holding.is_on_time steered (lines_in behind.entry) m.history (holding.task_of timed.0) overruns }
{
    let task = task_of(given.command)?;
    if overruns == given.overruns || behind.expects_overruns(task) {
        return None;
    }
    Some(Complaint::Overran(task))
}

// That a command was refused.
fn refused<'a>(given: &Given, refusal: Refusal) -> Complaint<'a> {
    match given.stimulus {
        Some(place) => Complaint::Unstirred(place, refusal),
        None => Complaint::Refused(refusal),
    }
}

/// What is wrong with a command that was given and should be accepted, behind which these lines stand, if something is: it was refused; or the
/// scan of a program ended with a fault, or brought an overrun, that none of these lines expects.
pub fn wrong_with<'a>(resource: &Resource, given: &Given, behind: Case<'_>) -> Option<Complaint<'a>>
    ensures { (steered : Steered) (m : Moment) (timed : TimedCommand) → steered.plant ≡ plant_of resource.now →
        IsGiven steered m timed given.now → is_none result ≡ holding.is_fine steered (lines_in behind.entry) m.history timed }
{
    match given.answer {
        Err(refusal) => Some(refused(given, refusal)),
        Ok(
            Answer::Scanned {
                faulted,
                overruns,
                ..
            },
        ) => match unexpected(resource, faulted, behind) {
            Some(program) => Some(Complaint::Faulted(program)),
            None => late(given, overruns, behind),
        },
        Ok(_) => None,
    }
}
