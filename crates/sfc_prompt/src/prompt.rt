//! Lines that are obeyed one by one.

ghost use Rattle.std.specs.Prelude.{◌≡◌, ◌<◌, ◌||◌, ◌==◌, false, List, ℕ, OnOk, IfOk, Some, None, is_some, take};
ghost use Rattle.sfc_asking.specs.sfc_debug.Histories.{CommandHistory};
ghost use Rattle.sfc_panel.specs.Pictures.{IsPicture};
ghost use Rattle.sfc_prompt.specs.Courses as courses;
ghost use Rattle.sfc_prompt.specs.Courses.{state_after};
ghost use Rattle.sfc_prompt.specs.Lines.{as_said};
ghost use Rattle.sfc_prompt.specs.Notes.{Adds};
ghost use Rattle.sfc_prompt.specs.Prompts as prompts;
ghost use Rattle.sfc_session.specs.Sessions.{HasSaid, steered_in};

use crate::archive::{Archive, Kept};
use crate::course::{Course, Wanted, again_count, read_wanted};
use crate::expression::append_fault;
use crate::line::{Line, Word, read_line};
use crate::showing::shown;
use crate::spoken::{Spoken, append_hint, say};
use crate::words::trimmed;
use sfc_asking::note::{append_named, append_note};
use sfc_events::command::Answer;
use sfc_events::refusal::Refusal;
use sfc_page::append::append;
use sfc_panel::picture::Picture;
use sfc_session::session::Session;
use sfc_session::step::{Step, ends_steps, take};
use std::alloc::{AllocError, Global};

/// Whether more lines are obeyed.
#[derive(Clone, Copy, Debug, PartialEq, Eq)]
pub enum Flow {
    /// They are.
    GoesOn,
    /// The session has ended.
    Ends,
}

// Whether more lines are obeyed behind this one.
fn flow_of(line: Line<'_>) -> Flow
    ensures { result ≡ prompts.flow_of (as_said line.entry) }
{
    match line {
        Line::Asks(Word::Quit, []) => Flow::Ends,
        _ => Flow::GoesOn,
    }
}

// The end; or that nothing may stand behind QUIT.
fn quit(text: &[u8], out: &mut Vec<u8>) -> Result<(), AllocError>
    ensures { OnOk result (Adds out.old.items out.new.items) }
{
    match text {
        [] => append(out, b""),
        _ => append_note(out, b"QUIT, and nothing behind it"),
    }
}

// The name of a file, and whether what is there may be replaced, which a `!` behind it says.
fn file_of(text: &[u8]) -> (&[u8], bool) {
    match text.strip_suffix(b"!") {
        Some(name) => (trimmed(name), true),
        None => (text, false),
    }
}

// Why nothing was kept.
fn reason_of(kept: Kept) -> &'static [u8] {
    match kept {
        Kept::Kept | Kept::Failed => b"",
        Kept::Foreign => b": it is there, and wasn't saved here; a ! behind the name replaces it",
        Kept::NoFolder => b": the folder isn't there",
        Kept::NoRight => b": there is no right to write there",
    }
}

// That nothing was kept in a file of this name, and why.
fn append_unkept(
    alloc: Global,
    out: &mut Vec<u8>,
    name: &[u8],
    reason: &[u8],
) -> Result<(), AllocError>
    ensures { OnOk result (Adds out.old.items out.new.items) }
{
    let mut named = Vec::new(alloc);
    append(&mut named, name)?;
    append(&mut named, reason)?;
    append_named(out, b"can't be saved to ", &named)
}

// How all programs stand.
fn picture_of(alloc: Global, session: &Session) -> Result<Picture, AllocError>
    ensures { (h : CommandHistory) (lines : List ℕ) → HasSaid session.now h lines →
        IfOk result (λ picture. IsPicture (steered_in session.now).plant (state_after (steered_in session.now) h) picture) }
{
    Picture::of(alloc, session.debugger().resource())
}

// Whether all programs stand as before a scan that was answered so.
fn is_quiet(session: &Session, picture: &Picture, answer: Result<Answer, Refusal>) -> bool
    ensures { (h g : CommandHistory) (lines : List ℕ) → HasSaid session.now g lines →
        IsPicture (steered_in session.now).plant (state_after (steered_in session.now) h) picture.now →
        result ≡ courses.is_quiet (steered_in session.now) h g answer }
{
    match answer {
        Ok(answer) => picture.shows_none(session.debugger().resource(), &answer),
        Err(_) => false,
    }
}

// Leaves what was put from a place on, or takes it back.
fn keep(out: &mut Vec<u8>, begin: usize, hides: bool)
    ensures { out.new.items ≡ courses.shown_by hides (take begin out.old.items) out.old.items }
{
    if hides {
        out.truncate(begin);
    }
}

/// A session, the step that was last taken in it, and the steps that are under way.
pub struct Prompt {
    alloc: Global,
    session: Session,
    last: Option<Step>,
    course: Option<Course>,
}

// By hand, so that a caller that drops one proves one call.
impl Drop for Prompt {
    fn drop(self) {
        let Prompt {
            alloc: _,
            session: _,
            last: _,
            course: _,
        } = self;
    }
}

#[tactic(auto, unfolding(crate::specs::Prompts::session_in, crate::specs::Prompts::course_in, crate::specs::Prompts::last_in))]
impl Prompt {
    ghost use Rattle.sfc_prompt.specs.declared.course.Course.{Course};
    ghost use Rattle.sfc_prompt.specs.Courses.{Begins, BeginsUntil, IsBehindStep, StepsOn, asked, is_over_after, step_behind};
    ghost use Rattle.sfc_prompt.specs.Lines.{Asks, as_said, line_said};
    ghost use Rattle.sfc_prompt.specs.Orders.{IsShown, Obeys, order_of, text_order, text_step};
    ghost use Rattle.std.specs.Option.{option_or};
    ghost use Rattle.sfc_prompt.specs.Prompts.{course_in, last_in, session_in};
    ghost use Rattle.sfc_prompt.specs.Transcripts.{Puts};

    /// A prompt at which nothing was said.
    pub fn new(alloc: Global, session: Session) -> Prompt
        ensures session { session_in result ≡ session }
        ensures course { course_in result ≡ None }
        ensures last { last_in result ≡ None }
    {
        Prompt {
            alloc,
            session,
            last: None,
            course: None,
        }
    }

    /// The session.
    pub fn session(&self) -> &Session
        ensures { result.now ≡ session_in self.now }
    {
        &self.session
    }

    // What should be a command of a script.
    fn say(&mut self, spoken: Spoken<'_>, out: &mut Vec<u8>) -> Result<(), AllocError>
        ensures obeys { (h : CommandHistory) (lines : List ℕ) → HasSaid (session_in self.old) h lines → OnOk result
            (Obeys (session_in self.old) (session_in self.new) out.old.items out.new.items h lines
            (text_order (steered_in (session_in self.old)) h spoken.entry.instant spoken.entry.text.now)) }
        ensures course { OnOk result (course_in self.new ≡ course_in self.old) }
        ensures last { OnOk result (last_in self.new ≡ option_or
            (text_step (steered_in (session_in self.old)).plant spoken.entry.instant spoken.entry.text.now) (last_in self.old)) }
    {
        let step = say(self.alloc, &mut self.session, spoken, out)?;
        self.last = step.or(self.last);
        Ok(())
    }

    // The accepted commands go to a file of this name.
    fn save<A: Archive>(
        &self,
        name: &[u8],
        archive: &mut A,
        out: &mut Vec<u8>,
    ) -> Result<(), AllocError>
        ensures { OnOk result (Adds out.old.items out.new.items) }
    {
        let (name, may_replace) = file_of(name);
        if name.is_empty() {
            return append_note(out, b"SAVE and the name of a file");
        }
        let Ok(text) = str::from_utf8(name) else {
            return append_unkept(self.alloc, out, name, b": the name isn't UTF-8");
        };
        match archive.keep(text, self.session.script(), may_replace) {
            Kept::Kept => append_named(out, b"saved to ", name),
            kept => append_unkept(self.alloc, out, name, reason_of(kept)),
        }
    }

    // The last step again, so often, and whether each is shown.
    fn repeat(&mut self, count: u64, shows_all: bool, out: &mut Vec<u8>) -> Result<(), AllocError>
        ensures session { session_in self.new ≡ session_in self.old }
        ensures last { last_in self.new ≡ last_in self.old }
        ensures course { course_in self.new ≡ courses.again (last_in self.old) count shows_all (course_in self.old) }
        ensures adds { OnOk result (Adds out.old.items out.new.items) }
    {
        match self.last {
            Some(step) => {
                self.course = Some(Course::of_steps(step, count, shows_all));
                Ok(())
            }
            None => append_note(out, b"there was no SCAN or SINGLE yet"),
        }
    }

    // The last step again, so often as the text says, or once, and whether each of several is shown.
    fn again(&mut self, text: &[u8], shows_all: bool, out: &mut Vec<u8>) -> Result<(), AllocError>
        ensures session { session_in self.new ≡ session_in self.old }
        ensures last { last_in self.new ≡ last_in self.old }
        ensures course { course_in self.new
            ≡ courses.again_by (courses.again_count text.now) shows_all (last_in self.old) (course_in self.old) }
        ensures adds { OnOk result (Adds out.old.items out.new.items) }
    {
        match again_count(text) {
            Some(count) => self.repeat(count, shows_all || count == 1, out),
            None => append_note(out, b"AGAIN, or AGAIN and a number from 1 to 100000"),
        }
    }

    // Scans until a condition is TRUE, and whether each is shown.
    fn until(&mut self, text: &[u8], shows_all: bool, out: &mut Vec<u8>) -> Result<(), AllocError>
        ensures session { session_in self.new ≡ session_in self.old }
        ensures last { last_in self.new ≡ last_in self.old }
        ensures course { OnOk result (BeginsUntil (steered_in (session_in self.old)).plant
            (asked (steered_in (session_in self.old)).plant text.now) shows_all (course_in self.old) (course_in self.new)) }
        ensures adds { OnOk result (Adds out.old.items out.new.items) }
    {
        let plant = self.session.debugger().resource().plant();
        match read_wanted(self.alloc, plant, text)? {
            Wanted::Until(condition) => {
                self.course = Some(Course::until(condition, shows_all));
                Ok(())
            }
            Wanted::Several => append_note(
                out,
                b"there are several program instances: UNTIL IN program condition",
            ),
            Wanted::Faulty(fault) => append_fault(out, fault),
        }
    }

    // A word that shows how all stands.
    fn show(&mut self, word: Word, text: &[u8], out: &mut Vec<u8>) -> Result<(), AllocError>
        ensures shown { (h : CommandHistory) (lines : List ℕ) → HasSaid (session_in self.old) h lines → OnOk result
            (IsShown (session_in self.old) (session_in self.new) out.old.items out.new.items h lines) }
        ensures last { last_in self.new ≡ last_in self.old }
        ensures course { course_in self.new ≡ course_in self.old }
    {
        let told = shown(self.alloc, &self.session, word, text)?;
        append(out, &told)
    }

    // A word of the prompt's own that scans on, saves, or ends the session.
    fn ask<A: Archive>(
        &mut self,
        word: Word,
        text: &[u8],
        archive: &mut A,
        out: &mut Vec<u8>,
    ) -> Result<(), AllocError>
        ensures shown { (h : CommandHistory) (lines : List ℕ) → HasSaid (session_in self.old) h lines → OnOk result
            (IsShown (session_in self.old) (session_in self.new) out.old.items out.new.items h lines) }
        ensures last { last_in self.new ≡ last_in self.old }
        ensures begins { OnOk result (Begins (steered_in (session_in self.old)).plant (last_in self.old) (Asks word text.now)
            (course_in self.old) (course_in self.new)) }
    {
        match word {
            Word::Quit => quit(text, out),
            Word::Until => self.until(text, false, out),
            Word::AllUntil => self.until(text, true, out),
            Word::Again => self.again(text, false, out),
            Word::AllAgain => self.again(text, true, out),
            Word::Save => self.save(text, archive, out),
            _ => self.show(word, text, out),
        }
    }

    // What a line says.
    fn obey_line<A: Archive>(
        &mut self,
        line: Line<'_>,
        archive: &mut A,
        out: &mut Vec<u8>,
    ) -> Result<(), AllocError>
        ensures obeys { (h : CommandHistory) (lines : List ℕ) → HasSaid (session_in self.old) h lines → OnOk result
            (Obeys (session_in self.old) (session_in self.new) out.old.items out.new.items h lines
            (order_of (steered_in (session_in self.old)) h (as_said line.entry))) }
        ensures last { OnOk result (last_in self.new
            ≡ step_behind (steered_in (session_in self.old)).plant (last_in self.old) (as_said line.entry)) }
        ensures begins { OnOk result (Begins (steered_in (session_in self.old)).plant (last_in self.old) (as_said line.entry)
            (course_in self.old) (course_in self.new)) }
    {
        match line {
            Line::Comment => Ok(()),
            Line::Empty => self.repeat(1, true, out),
            Line::Says(instant, text) => self.say(Spoken { instant, text }, out),
            Line::Asks(word, text) => self.ask(word, text, archive, out),
        }
    }

    /// Obeys a line, which stands here without its end: a command of a script, with an instant or without one, or a word of the prompt's own.
    /// What is answered is put at the end of `out`: of an accepted command the lines that a replay writes for it, of a refused one its
    /// refusal; what is wrong with a line is told behind a semicolon. Steps that are to be taken again, or until a condition is TRUE,
    /// are under way then. The one error is that memory was refused; then the prompt is of no more use.
    pub fn obey<A: Archive>(
        &mut self,
        line: &[u8],
        archive: &mut A,
        out: &mut Vec<u8>,
    ) -> Result<Flow, AllocError>
        ensures obeys { (h : CommandHistory) (lines : List ℕ) → HasSaid (session_in self.old) h lines → OnOk result
            (Obeys (session_in self.old) (session_in self.new) out.old.items out.new.items h lines
            (order_of (steered_in (session_in self.old)) h (line_said line.now))) }
        ensures puts { OnOk result (Puts (session_in self.old) (session_in self.new) out.old.items out.new.items) }
        ensures last { OnOk result (last_in self.new
            ≡ step_behind (steered_in (session_in self.old)).plant (last_in self.old) (line_said line.now)) }
        ensures begins { OnOk result (Begins (steered_in (session_in self.old)).plant (last_in self.old) (line_said line.now)
            (course_in self.old) (course_in self.new)) }
        ensures flow { IfOk result (λ flow. flow ≡ prompts.flow_of (line_said line.now)) }
    {
        let said = read_line(line);
        self.obey_line(said, archive, out)?;
        Ok(flow_of(said))
    }

    // A step of a course, and the course behind it.
    fn take_step(&mut self, course: Course, out: &mut Vec<u8>) -> Result<(), AllocError>
        ensures puts { OnOk result (Puts (session_in self.old) (session_in self.new) out.old.items out.new.items) }
        ensures steps { (h : CommandHistory) (lines : List ℕ) → HasSaid (session_in self.old) h lines → course_in self.old ≡ None →
            0 < course.left → OnOk result (StepsOn (session_in self.old) (session_in self.new) out.old.items out.new.items h lines course
            (course_in self.new) false) }
        ensures left { course_in self.old ≡ None → 0 < course.left → OnOk result (IsBehindStep course (course_in self.new)) }
        ensures last { last_in self.new ≡ last_in self.old }
    {
        let begin = out.len();
        let picture = picture_of(self.alloc, &self.session)?;
        let answer = take(self.alloc, &mut self.session, course.step, out)?;
        let course = course.behind_step(answer.is_ok());
        if ends_steps(answer) {
            append_hint(out, answer)?;
            return course.append_end(out, &self.session);
        }
        let is_quiet = is_quiet(&self.session, &picture, answer);
        let hides = course.hides(&self.session, is_quiet);
        keep(out, begin, hides);
        self.course = Some(course);
        Ok(())
    }

    /// Whether steps are under way.
    pub fn is_under_way(&self) -> bool
        ensures { result ≡ is_some (course_in self.now) }
    {
        self.course.is_some()
    }

    /// Takes the next of the steps that are under way, and puts its answer at the end of `out`; how it ended, where it ends: a step was
    /// refused, hit a breakpoint, or ended a program's scan with a fault; the condition is TRUE; or no step is left. The one error is that
    /// memory was refused; then the prompt is of no more use.
    pub fn go_on(&mut self, out: &mut Vec<u8>) -> Result<(), AllocError>
        ensures puts { OnOk result (Puts (session_in self.old) (session_in self.new) out.old.items out.new.items) }
        ensures steps { (h : CommandHistory) (lines : List ℕ) (course : Course) → HasSaid (session_in self.old) h lines →
            course_in self.old ≡ Some course → OnOk result (StepsOn (session_in self.old) (session_in self.new) out.old.items out.new.items h
            lines course (course_in self.new) (is_over_after (steered_in (session_in self.old)) h course)) }
        ensures left { (course : Course) → course_in self.old ≡ Some course → OnOk result (IsBehindStep course (course_in self.new)) }
        ensures last { last_in self.new ≡ last_in self.old }
    {
        let Some(course) = self.course.take() else {
            return Ok(());
        };
        if course.is_over(&self.session) {
            return course.append_end(out, &self.session);
        }
        self.take_step(course, out)
    }
}
