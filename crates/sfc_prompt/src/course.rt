//! Steps that are taken one after the other: until a condition is TRUE, or so often.

ghost use Rattle.std.specs.Prelude.{◌≡◌, ◌<◌, ◌-◌, true, Bool, IfOk, IsFalse, IsTrue, List, ℕ, MatchOption, None, OnOk, Option, Some};
ghost use Rattle.sfc_asking.specs.sfc_debug.Histories.{CommandHistory};
ghost use Rattle.sfc_asking.specs.sfc_debug.Hits.{is_met};
ghost use Rattle.sfc_asking.specs.sfc_instance.Views.{environment_in};
ghost use Rattle.sfc_prompt.specs.declared.course.Course.{Course};
ghost use Rattle.sfc_prompt.specs.Courses as courses;
ghost use Rattle.sfc_prompt.specs.Courses.{BeginsUntil, asked, begun, hides_after, holds_after, is_met_after, is_over_after, most, wanted_course};
ghost use Rattle.sfc_prompt.specs.Notes.{Adds};
ghost use Rattle.sfc_session.specs.declared.step.Step.TheVariants.{First};
ghost use Rattle.sfc_session.specs.Sessions.{HasSaid, steered_in};

use crate::expression::{Fault, Found, UNKNOWN_PROGRAM, read_condition};
use crate::sfc_debug::break_condition::BreakCondition;
use crate::sfc_instance::laws::window;
use crate::sfc_instance::program_view::ProgramView;
use crate::sfc_script::number::magnitude;
use crate::sfc_script::split::{first_word, only_word};
use crate::words::from_word;
use sfc_base::case::is_same_word;
use sfc_base::ids::ProgId;
use sfc_base::ticks::Ticks;
use sfc_base::value::Value;
use sfc_expr::eval::eval;
use sfc_page::append::{append, append_number};
use sfc_plant::plant::Plant;
use sfc_session::session::Session;
use sfc_session::step::Step;
use std::alloc::{AllocError, Global};

/// The most steps that one line takes.
const MOST: u64 = 100_000;

/// Steps that are under way.
pub struct Course {
    /// The step that is taken.
    pub step: Step,
    /// Whether each is shown; else those are in which something changed, and the last one.
    pub shows_all: bool,
    /// The condition until which it is taken, if there is one.
    pub condition: Option<BreakCondition>,
    /// How many are left at most.
    pub left: u64,
    /// How many were taken.
    pub taken: u64,
}

// By hand, so that a caller that drops one proves one call.
impl Drop for Course {
    fn drop(self) {
        let Course {
            step: _,
            shows_all: _,
            condition: _,
            left: _,
            taken: _,
        } = self;
    }
}

impl Course {
    /// So many steps.
    pub fn of_steps(step: Step, count: u64, shows_all: bool) -> Course
        ensures { result ≡ begun step None count shows_all }
    {
        Course {
            step,
            shows_all,
            condition: None,
            left: count,
            taken: 0,
        }
    }

    /// Scans of the task that goes first, until the condition is TRUE, at most 100,000.
    pub fn until(condition: BreakCondition, shows_all: bool) -> Course
        ensures { result ≡ begun First (Some condition) most shows_all }
    {
        Course {
            step: Step::First,
            shows_all,
            condition: Some(condition),
            left: MOST,
            taken: 0,
        }
    }

    /// Whether its condition is TRUE as the session stands. One that ends with a fault isn't.
    pub fn is_met(&self, session: &Session) -> bool
        ensures none { self.now.condition ≡ None → IsFalse result }
        ensures value { (h : CommandHistory) (lines : List ℕ) → HasSaid session.now h lines →
            result ≡ is_met_after (steered_in session.now) h self.now.condition }
    {
        match &self.condition {
            Some(condition) => holds(session, condition),
            None => false,
        }
    }

    /// Whether no step of it is taken any more as the session stands: none is left, or its condition is TRUE.
    pub fn is_over(&self, session: &Session) -> bool
        ensures none { self.now.condition ≡ None → 0 < self.now.left → IsFalse result }
        ensures empty { self.now.left ≡ 0 → IsTrue result }
        ensures left { 0 < self.now.left → (h : CommandHistory) (lines : List ℕ) → HasSaid session.now h lines →
            result ≡ is_met_after (steered_in session.now) h self.now.condition }
        ensures value { (h : CommandHistory) (lines : List ℕ) → HasSaid session.now h lines →
            result ≡ is_over_after (steered_in session.now) h self.now }
    {
        if self.left == 0 {
            return true;
        }
        self.is_met(session)
    }

    /// Whether a step is not shown behind which this is left of them, where nothing changed in it: each is shown, or it was the last one.
    pub fn hides(&self, session: &Session, is_quiet: bool) -> bool
        ensures { (h : CommandHistory) (lines : List ℕ) → HasSaid session.now h lines →
            result ≡ hides_after (steered_in session.now) h self.now is_quiet }
    {
        !self.shows_all && is_quiet && !self.is_over(session)
    }

    /// With one step more behind it.
    pub fn behind_step(self, is_taken: bool) -> Course
        ensures step { result.step ≡ self.step }
        ensures shows { result.shows_all ≡ self.shows_all }
        ensures condition { result.condition ≡ self.condition }
        ensures left { result.left ≡ self.left - 1 }
    {
        let Course {
            step,
            shows_all,
            condition,
            left,
            taken,
        } = self;
        Course {
            step,
            shows_all,
            condition,
            left: left.saturating_sub(1),
            taken: taken.saturating_add(u64::from(is_taken)),
        }
    }

    /// Puts at the end how it ended, where it had a condition. The one error is that memory was refused.
    pub fn append_end(&self, out: &mut Vec<u8>, session: &Session) -> Result<(), AllocError>
        ensures adds { OnOk result (Adds out.old.items out.new.items) }
        ensures nothing { self.now.condition ≡ None → OnOk result (out.new.items ≡ out.old.items) }
    {
        if self.condition.is_none() {
            return Ok(());
        }
        if self.is_met(session) {
            append(out, b"; TRUE after ")?;
        } else {
            append(out, b"; not TRUE after ")?;
        }
        append_number(out, self.taken)?;
        if self.taken == 1 {
            append(out, b" scan\n")
        } else {
            append(out, b" scans\n")
        }
    }
}

// Whether a condition is TRUE over a window. A fault of it is not told.
fn reads_true(condition: &BreakCondition, view: &ProgramView<'_>) -> bool
    ensures { result ≡ is_met (environment_in view.now) (Some condition.now) }
{
    let mut ticks = Ticks::new();
    match eval(condition.condition.expr(), view, &mut ticks) {
        Ok(Value::Bool(value)) => value,
        _ => false,
    }
}

// Whether a condition is TRUE now.
fn holds(session: &Session, condition: &BreakCondition) -> bool
    ensures { (h : CommandHistory) (lines : List ℕ) → HasSaid session.now h lines →
        result ≡ holds_after (steered_in session.now) h condition.now }
{
    let resource = session.debugger().resource();
    if usize::from(condition.program.0) >= session.plant().instances().len() {
        return false;
    }
    window();
    let view = resource.program(condition.program);
    reads_true(condition, &view)
}

/// A program instance, and the text of a condition in it.
#[derive(Clone, Copy)]
struct Asked<'a> {
    program: ProgId,
    text: &'a [u8],
}

// The program instance that a word names, and what stands behind that from the first word on.
fn in_named<'a>(plant: &Plant, name: &[u8], rest: &'a [u8]) -> Option<Asked<'a>>
    ensures { MatchOption result (courses.asked_in plant.now (name.now, rest.now) ≡ None)
        (λ a. courses.asked_in plant.now (name.now, rest.now) ≡ Some (a.program, a.text.now)) }
{
    match plant.find_instance(name) {
        Some(program) => Some(Asked {
            program,
            text: from_word(rest),
        }),
        None => None,
    }
}

// The same behind `IN`, where this word is it.
fn in_behind<'a>(plant: &Plant, word: &[u8], behind: &'a [u8]) -> Option<Asked<'a>>
    ensures { MatchOption result (courses.asked_behind plant.now (word.now, behind.now) ≡ None)
        (λ a. courses.asked_behind plant.now (word.now, behind.now) ≡ Some (a.program, a.text.now)) }
{
    if !is_same_word(word, b"IN") {
        return None;
    }
    match first_word(behind) {
        Some((name, rest)) => in_named(plant, name, rest),
        None => None,
    }
}

// The same of a text that begins so.
fn in_program<'a>(plant: &Plant, text: &'a [u8]) -> Option<Asked<'a>>
    ensures { MatchOption result (courses.asked_first plant.now text.now ≡ None)
        (λ a. courses.asked_first plant.now text.now ≡ Some (a.program, a.text.now)) }
{
    match first_word(text) {
        Some((word, behind)) => in_behind(plant, word, behind),
        None => None,
    }
}

// The whole text in the program instance, where there is one.
fn in_only<'a>(plant: &Plant, text: &'a [u8]) -> Option<Asked<'a>>
    ensures { MatchOption result (courses.asked_alone plant.now text.now ≡ None)
        (λ a. courses.asked_alone plant.now text.now ≡ Some (a.program, a.text.now)) }
{
    if plant.instances().len() == 1 {
        Some(Asked {
            program: ProgId(0),
            text,
        })
    } else {
        None
    }
}

// In which program instance the condition stands; None where none is named and there are several.
fn find_asked<'a>(plant: &Plant, text: &'a [u8]) -> Option<Asked<'a>>
    ensures { MatchOption result (asked plant.now text.now ≡ None)
        (λ a. asked plant.now text.now ≡ Some (a.program, a.text.now)) }
{
    match in_program(plant, text) {
        Some(asked) => Some(asked),
        None => in_only(plant, text),
    }
}

// The number that a word is, from 1 to so many as one line takes steps.
fn number_said(word: &[u8]) -> Option<u64>
    ensures { result ≡ courses.number_said word.now }
{
    match magnitude(word, MOST) {
        Some(0) => None,
        other => other,
    }
}

/// How often the text behind AGAIN says: once where it has no words, else a number from 1 to 100,000; None where it says nothing of that.
pub fn again_count(text: &[u8]) -> Option<u64>
    ensures { result ≡ courses.again_count text.now }
{
    if first_word(text).is_none() {
        return Some(1);
    }
    match only_word(text) {
        Some(word) => number_said(word),
        None => None,
    }
}

/// What stands behind UNTIL.
pub enum Wanted {
    /// A condition.
    Until(BreakCondition),
    /// No program instance is named, and there are several.
    Several,
    /// It is no condition.
    Faulty(Fault),
}

/// The condition that stands behind UNTIL: in the program instance that is named behind `IN`, or in the one that there is. The error is that
/// memory was refused.
pub fn read_wanted(alloc: Global, plant: &Plant, text: &[u8]) -> Result<Wanted, AllocError>
    ensures { (old : Option Course) (all : Bool) → IfOk result (λ wanted.
        BeginsUntil plant.now (asked plant.now text.now) all old (wanted_course wanted all old)) }
{
    let Some(asked) = find_asked(plant, text) else {
        return Ok(Wanted::Several);
    };
    match read_condition(alloc, plant, asked.program, asked.text)? {
        Found::Condition(condition) => Ok(Wanted::Until(condition)),
        Found::NoProgram => Ok(Wanted::Faulty(UNKNOWN_PROGRAM)),
        Found::Faulty(fault) => Ok(Wanted::Faulty(fault)),
    }
}
