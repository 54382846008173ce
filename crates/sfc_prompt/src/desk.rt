//! Lines as they come from a reader.

ghost use Rattle.std.specs.Prelude.{◌≡◌, [], ℕ, List, Bool, true, false, Some, None, OnOk, is_some};
ghost use Rattle.sfc_asking.specs.sfc_script.Arriving.{ended_line};
ghost use Rattle.sfc_asking.specs.sfc_script.Lines.{lines_of};
ghost use Rattle.sfc_base.specs.Writing.{Writes};
ghost use Rattle.sfc_prompt.specs.declared.course.Course.{Course};
ghost use Rattle.sfc_prompt.specs.Courses.{IsBehindStep};
ghost use Rattle.sfc_prompt.specs.Desks.{Holds, Leaves, OpensPrompt, Serves, Tells, WalksOff, WalksOut, WritesBy};
ghost use Rattle.sfc_prompt.specs.Lines.{line_said};
ghost use Rattle.sfc_prompt.specs.Private.Waiting.{TakesEnded, Waits};
ghost use Rattle.sfc_prompt.specs.Prompts.{course_in, flow_of, session_in};
ghost use Rattle.sfc_prompt.specs.Walks.{AnswersInto, BreaksLine, Invites, IsAnswered, IsNext, StepsInto, TakesAll, TakesLine, TakesSome, Walks};
ghost use Rattle.sfc_prompt.specs.Walks.{WalksInto, flow_line};

use crate::archive::Archive;
use crate::arrived::Arrived;
use crate::prompt::{Flow, Prompt};
use crate::sfc_debug::trace_mask::TraceMask;
use sfc_base::write_fault::put_all;
use sfc_page::append::append;
use sfc_replay::input::read_to_end;
use sfc_replay::opening::debugger_of_text;
use sfc_replay::replay_error::ReplayError;
use sfc_session::session::Session;
use std::alloc::Global;
use std::io::{Read, Write};

/// Where answers go, and where scripts are kept.
#[derive(Drop)]
pub struct Desk<W: Write, A: Archive> {
    /// Where answers go.
    pub answers: W,
    /// Where scripts are kept.
    pub archive: A,
    /// Whether an engineer sits before it, who is shown where to write.
    pub is_terminal: bool,
}

// A session that is held.
#[derive(Drop)]
struct Held<W: Write, A: Archive> {
    prompt: Prompt,
    w: W,
    // What waits to be written.
    text: Vec<u8>,
    archive: A,
}

impl<W: Write, A: Archive> Held<W, A> {
    // Has the session recorded, writes what waits, and flushes the writer.
    fn pass(&mut self) -> Result<(), ReplayError>
        ensures prompt { self.new.prompt ≡ self.old.prompt }
        ensures session { session_in self.new.prompt ≡ session_in self.old.prompt }
        ensures empty { OnOk result (self.new.text.items ≡ []) }
        ensures written { Writes (W.contents self.old.w) (W.contents self.new.w) result self.old.text.items }
    {
        self.archive.record(self.prompt.session().script());
        put_all(&mut self.w, &self.text)?;
        self.text.clear();
        match self.w.flush() {
            Ok(()) => Ok(()),
            Err(_) => Err(ReplayError::Write),
        }
    }

    // Takes the next of the steps that are under way, and writes its answer.
    fn step(&mut self) -> Result<(), ReplayError>
        requires empty { self.old.text.items ≡ [] }
        requires under_way { is_some (course_in self.old.prompt) ≡ true }
        ensures empty { OnOk result (self.new.text.items ≡ []) }
        ensures left { (course : Course) → course_in self.old.prompt ≡ Some course →
            OnOk result (IsBehindStep course (course_in self.new.prompt)) }
        ensures tells { Tells (session_in self.old.prompt) (session_in self.new.prompt) (W.contents self.old.w) (W.contents self.new.w) result }
        ensures walks { WritesBy (W.contents self.old.w) (W.contents self.new.w) result
            (λ _ text. IsNext self.old.prompt self.new.prompt text) (StepsInto self.old.prompt) }
    {
        self.prompt.go_on(&mut self.text)?;
        self.pass()?;
        Ok(())
    }

    // Takes the steps that are under way until none is, each answer written at once.
    fn go_on(&mut self) -> Result<(), ReplayError>
        requires { self.old.text.items ≡ [] }
        ensures empty { OnOk result (self.new.text.items ≡ []) }
        ensures idle { OnOk result (course_in self.new.prompt ≡ None) }
        ensures tells { Tells (session_in self.old.prompt) (session_in self.new.prompt) (W.contents self.old.w) (W.contents self.new.w) result }
        ensures walks { WritesBy (W.contents self.old.w) (W.contents self.new.w) result
            (λ _ text. TakesSome self.old.prompt self.new.prompt text) (StepsInto self.old.prompt) }
    {
        'steps: while self.prompt.is_under_way() {
            self.step()?;
        }
        Ok(())
    }

    // Answers a line.
    fn answer(&mut self, line: &[u8]) -> Result<Flow, ReplayError>
        requires { self.old.text.items ≡ [] }
        ensures empty { OnOk result (self.new.text.items ≡ []) }
        ensures tells { Tells (session_in self.old.prompt) (session_in self.new.prompt) (W.contents self.old.w) (W.contents self.new.w) result }
        ensures walks { WritesBy (W.contents self.old.w) (W.contents self.new.w) result
            (λ flow text. IsAnswered self.old.prompt self.new.prompt line.now text × (flow ≡ flow_of (line_said line.now)))
            (AnswersInto self.old.prompt line.now) }
    {
        let flow = self.prompt.obey(line, &mut self.archive, &mut self.text)?;
        self.pass()?;
        Ok(flow)
    }

    // Obeys a line, and takes the steps that it begins.
    fn obey(&mut self, line: &[u8]) -> Result<Flow, ReplayError>
        requires { self.old.text.items ≡ [] }
        ensures empty { OnOk result (self.new.text.items ≡ []) }
        ensures idle { OnOk result (course_in self.new.prompt ≡ None) }
        ensures tells { Tells (session_in self.old.prompt) (session_in self.new.prompt) (W.contents self.old.w) (W.contents self.new.w) result }
        ensures walks { WritesBy (W.contents self.old.w) (W.contents self.new.w) result
            (λ flow text. TakesAll self.old.prompt self.new.prompt line.now text × (flow ≡ flow_line false line.now))
            (BreaksLine false self.old.prompt line.now) }
    {
        let flow = self.answer(line)?;
        self.go_on()?;
        Ok(flow)
    }

    // Writes a text that answers nothing.
    fn tell(&mut self, text: &[u8]) -> Result<(), ReplayError>
        requires { self.old.text.items ≡ [] }
        ensures prompt { self.new.prompt ≡ self.old.prompt }
        ensures empty { OnOk result (self.new.text.items ≡ []) }
        ensures tells { Tells (session_in self.old.prompt) (session_in self.new.prompt) (W.contents self.old.w) (W.contents self.new.w) result }
        ensures written { Writes (W.contents self.old.w) (W.contents self.new.w) result text.now }
    {
        append(&mut self.text, text)?;
        self.pass()
    }

    // Obeys a line, or tells that it is too long.
    fn take(&mut self, line: &[u8], is_long: bool) -> Result<Flow, ReplayError>
        requires empty { self.old.text.items ≡ [] }
        requires idle { course_in self.old.prompt ≡ None }
        ensures empty { OnOk result (self.new.text.items ≡ []) }
        ensures idle { OnOk result (course_in self.new.prompt ≡ None) }
        ensures tells { Tells (session_in self.old.prompt) (session_in self.new.prompt) (W.contents self.old.w) (W.contents self.new.w) result }
        ensures walks { WritesBy (W.contents self.old.w) (W.contents self.new.w) result
            (λ flow text. TakesLine is_long self.old.prompt self.new.prompt line.now text × (flow ≡ flow_line is_long line.now))
            (BreaksLine is_long self.old.prompt line.now) }
    {
        if is_long {
            self.tell(b"; the line has more than 1048576 bytes\n")?;
            return Ok(Flow::GoesOn);
        }
        self.obey(line)
    }

    // Shows where to write, where somebody sits there.
    fn invite(&mut self, is_terminal: bool) -> Result<(), ReplayError>
        requires { self.old.text.items ≡ [] }
        ensures prompt { self.new.prompt ≡ self.old.prompt }
        ensures empty { OnOk result (self.new.text.items ≡ []) }
        ensures tells { Tells (session_in self.old.prompt) (session_in self.new.prompt) (W.contents self.old.w) (W.contents self.new.w) result }
        ensures invites { WritesBy (W.contents self.old.w) (W.contents self.new.w) result
            (λ _ text. Invites is_terminal text) (Invites is_terminal) }
    {
        if !is_terminal {
            return Ok(());
        }
        self.tell(b"sfc> ")
    }

    // Obeys each line that has its end, until the session ends; whether it goes on.
    fn take_lines(&mut self, arrived: &mut Arrived) -> Result<Flow, ReplayError>
        requires empty { self.old.text.items ≡ [] }
        requires idle { course_in self.old.prompt ≡ None }
        ensures empty { OnOk result (self.new.text.items ≡ []) }
        ensures idle { OnOk result (course_in self.new.prompt ≡ None) }
        ensures tells { Tells (session_in self.old.prompt) (session_in self.new.prompt) (W.contents self.old.w) (W.contents self.new.w) result }
        ensures walks { (terminal : Bool) (bytes : List ℕ) → Waits arrived.old bytes →
            WritesBy (W.contents self.old.w) (W.contents self.new.w) result
            (TakesEnded terminal self.old.prompt self.new.prompt bytes arrived.new) (WalksInto terminal (lines_of bytes) self.old.prompt) }
    {
        'lines: while let Some((line, is_long, left)) = arrived.first() {
            let flow = self.take(line, is_long)?;
            arrived.keep(left);
            match flow {
                Flow::GoesOn => {}
                Flow::Ends => return Ok(Flow::Ends),
            }
        }
        Ok(Flow::GoesOn)
    }

    // Obeys the last line, where it has no end.
    fn take_rest(&mut self, arrived: &Arrived) -> Result<(), ReplayError>
        requires empty { self.old.text.items ≡ [] }
        requires idle { course_in self.old.prompt ≡ None }
        ensures empty { OnOk result (self.new.text.items ≡ []) }
        ensures tells { Tells (session_in self.old.prompt) (session_in self.new.prompt) (W.contents self.old.w) (W.contents self.new.w) result }
        ensures walks { (terminal : Bool) (bytes : List ℕ) → Waits arrived.now bytes → ended_line bytes ≡ None →
            WritesBy (W.contents self.old.w) (W.contents self.new.w) result
            (λ _ text. Walks terminal (lines_of bytes) self.old.prompt self.new.prompt text)
            (WalksInto terminal (lines_of bytes) self.old.prompt) }
    {
        let Some((line, is_long)) = arrived.last() else {
            return Ok(());
        };
        let _ = self.take(line, is_long)?;
        Ok(())
    }

    // Ends the line on which somebody was shown where to write.
    fn leave(&mut self, is_terminal: bool) -> Result<(), ReplayError>
        requires { self.old.text.items ≡ [] }
        ensures prompt { self.new.prompt ≡ self.old.prompt }
        ensures tells { Tells (session_in self.old.prompt) (session_in self.new.prompt) (W.contents self.old.w) (W.contents self.new.w) result }
        ensures leaves { WritesBy (W.contents self.old.w) (W.contents self.new.w) result
            (λ _ text. Leaves is_terminal text) (Leaves is_terminal) }
    {
        if !is_terminal {
            return Ok(());
        }
        self.tell(b"\n")
    }

    // Obeys the last line, and leaves.
    fn take_last(&mut self, arrived: &Arrived, is_terminal: bool) -> Result<(), ReplayError>
        requires empty { self.old.text.items ≡ [] }
        requires idle { course_in self.old.prompt ≡ None }
        ensures tells { Tells (session_in self.old.prompt) (session_in self.new.prompt) (W.contents self.old.w) (W.contents self.new.w) result }
        ensures walks { (bytes : List ℕ) → Waits arrived.now bytes → ended_line bytes ≡ None →
            WritesBy (W.contents self.old.w) (W.contents self.new.w) result
            (λ _ text. WalksOut is_terminal (lines_of bytes) self.old.prompt self.new.prompt text)
            (WalksOff is_terminal (lines_of bytes) self.old.prompt) }
    {
        self.take_rest(arrived)?;
        self.leave(is_terminal)
    }
}

// The most bytes that a session takes. None has given so many.
const MOST: u64 = 9_223_372_036_854_775_808;

// Obeys lines as they come, until the session or the reader ends.
fn obey_pieces<S: Read, W: Write, A: Archive>(
    alloc: Global,
    held: &mut Held<W, A>,
    reader: &mut S,
    is_terminal: bool,
) -> Result<(), ReplayError>
    requires empty { held.old.text.items ≡ [] }
    requires idle { course_in held.old.prompt ≡ None }
    ensures tells { Tells (session_in held.old.prompt) (session_in held.new.prompt) (W.contents held.old.w) (W.contents held.new.w) result }
    ensures serves { Serves is_terminal (S.remaining reader.old, S.remaining reader.new) (W.contents held.old.w, W.contents held.new.w)
        held.old.prompt held.new.prompt result }
{
    let mut arrived = Arrived::new(alloc);
    let mut taken: u64 = 0;
    'pieces: while taken < MOST {
        held.invite(is_terminal)?;
        let count = arrived.take(reader)?;
        if count == 0 {
            break;
        }
        taken += count as u64;
        match held.take_lines(&mut arrived)? {
            Flow::GoesOn => {}
            Flow::Ends => return Ok(()),
        }
        arrived.pass_over();
    }
    held.take_last(&arrived, is_terminal)
}

// A prompt with a session on the plant that the bytes of a chart are.
fn open_prompt<C: Read>(alloc: Global, chart: &mut C) -> Result<Prompt, ReplayError>
    ensures { OpensPrompt (C.remaining chart.old, C.remaining chart.new) result }
{
    let text = read_to_end(alloc, chart)?;
    let debugger = debugger_of_text(alloc, &text, 1, TraceMask(0))?;
    Ok(Prompt::new(alloc, Session::new(alloc, debugger)))
}

// Serves lines at a prompt.
fn serve<S: Read, W: Write + Drop, A: Archive + Drop>(
    alloc: Global,
    prompt: Prompt,
    lines: &mut S,
    desk: Desk<W, A>,
) -> (Desk<W, A>, Result<(), ReplayError>)
    requires { course_in prompt ≡ None }
    ensures { (later : Prompt)
        × Tells (session_in prompt) (session_in later) (W.contents desk.answers) (W.contents result.0.answers) result.1
        × Serves desk.is_terminal (S.remaining lines.old, S.remaining lines.new)
        (W.contents desk.answers, W.contents result.0.answers) prompt later result.1 }
{
    let Desk {
        answers,
        archive,
        is_terminal,
    } = desk;
    let mut held = Held {
        prompt,
        w: answers,
        text: Vec::new(alloc),
        archive,
    };
    let served = obey_pieces(alloc, &mut held, lines, is_terminal);
    let desk = Desk {
        answers: held.w,
        archive: held.archive,
        is_terminal,
    };
    (desk, served)
}

/// Holds a session with the plant that the bytes of a chart are: reads lines as they come, and answers each at once, as `Prompt::obey`. It ends
/// at QUIT, and at the end of the lines; a last line without its end is obeyed too. A line of more than 1,048,576 bytes is told, and passed
/// over. The desk is given back with what came of it.
///
/// `Chart` is answered where the chart is refused; then no line was taken, and nothing was written. `Read` is answered where a reader failed,
/// `Write` where the writer failed or took no byte, `Memory` where memory was refused.
pub fn hold<C: Read, S: Read, W: Write + Drop, A: Archive + Drop>(
    alloc: Global,
    chart: &mut C,
    lines: &mut S,
    desk: Desk<W, A>,
) -> (Desk<W, A>, Result<(), ReplayError>)
    ensures { Holds desk.is_terminal (C.remaining chart.old, C.remaining chart.new) (S.remaining lines.old, S.remaining lines.new)
        (W.contents desk.answers, W.contents result.0.answers) result.1 }
{
    match open_prompt(alloc, chart) {
        Ok(prompt) => serve(alloc, prompt, lines, desk),
        Err(error) => (desk, Err(error)),
    }
}
