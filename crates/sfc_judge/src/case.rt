//! Cases.

ghost use Rattle.std.specs.Prelude.{◌≡◌, ◌++◌, ◌∷◌, [], MatchOption};
ghost use Rattle.sfc_cases.specs.Files as files;
ghost use Rattle.sfc_judge.specs.Holding as holding;
ghost use Rattle.sfc_judge.specs.Running.Cases.{lines_in};

use sfc_base::ids::{ProgId, TaskId};
use sfc_cases::deed::Deed;
use sfc_cases::line::Line;

/// The lines of a case that are left: of those before the first TEST, and of its own.
#[derive(Clone, Copy)]
pub struct Case<'a> {
    front: &'a [Line],
    own: &'a [Line],
}

// Whether a line expects a fault of the program instance.
fn is_fault_of(line: &Line, program: ProgId) -> bool
    ensures { result ≡ holding.is_fault_of program line.now.deed }
{
    match &line.deed {
        Deed::Faulted(_, other) => other.0 == program.0,
        _ => false,
    }
}

// Whether a line expects overruns of the task.
fn is_overrun_of(line: &Line, task: TaskId) -> bool
    ensures { result ≡ holding.is_overrun_of task line.now.deed }
{
    match &line.deed {
        Deed::Overran(_, other) => other.0 == task.0,
        _ => false,
    }
}

impl<'a> Case<'a> {
    /// The case of these lines: those before the first TEST, and its own.
    pub fn new(front: &'a [Line], own: &'a [Line]) -> Case<'a>
        ensures { lines_in result ≡ front.now ++ own.now }
    {
        Case { front, own }
    }

    /// The first line, and the others; None where none is left.
    pub fn split_first(self) -> Option<(&'a Line, Case<'a>)>
        ensures { MatchOption result (lines_in self.entry ≡ []) (λ r. lines_in self.entry ≡ r.0.now ∷ lines_in r.1) }
    {
        if let Some((line, front)) = self.front.split_first() {
            return Some((line, Case::new(front, self.own)));
        }
        let (line, own) = self.own.split_first()?;
        Some((line, Case::new(self.front, own)))
    }

    /// Whether one of the lines expects a fault of the program instance.
    pub fn expects_fault(self, program: ProgId) -> bool
        ensures { result ≡ holding.expects_fault (lines_in self.entry) program }
    {
        let mut rest = self;
        'lines: while let Some((line, others)) = rest.split_first() {
            if is_fault_of(line, program) {
                return true;
            }
            rest = others;
        }
        false
    }

    /// Whether one of the lines expects overruns of the task.
    pub fn expects_overruns(self, task: TaskId) -> bool
        ensures { result ≡ holding.expects_overruns (lines_in self.entry) task }
    {
        let mut rest = self;
        'lines: while let Some((line, others)) = rest.split_first() {
            if is_overrun_of(line, task) {
                return true;
            }
            rest = others;
        }
        false
    }
}

/// The lines before the first with which a case begins, and the others.
pub fn split_test(lines: &[Line]) -> (&[Line], &[Line])
    ensures front { result.0.now ≡ files.before_test lines.now }
    ensures whole { result.0.now ++ result.1.now ≡ lines.now }
{
    let mut count = 0;
    'lines: for line in lines {
        if line.begins_case() {
            break;
        }
        count += 1;
    }
    lines.split_at(count)
}
