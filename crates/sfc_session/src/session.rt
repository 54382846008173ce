//! Commands one after the other, and the script that they are.

ghost use Rattle.std.specs.Prelude.{◌≡◌, ◌++◌, ◌∷◌, ◌<◌, ◌+◌, [], IfOk, OnOk, OnErr};
ghost use Rattle.sfc_output.specs.sfc_debug.Agreement.{Agrees};
ghost use Rattle.sfc_output.specs.sfc_debug.Histories.{CommandHistory};
ghost use Rattle.sfc_output.specs.sfc_debug.Meaning.{IsAccepted};
ghost use Rattle.sfc_output.specs.sfc_debug.Verdict.{history_by};
ghost use Rattle.sfc_events.specs.declared.command.Command.TheVariants.{BreakIf};
ghost use Rattle.sfc_output.specs.Output.{debugger_of};
ghost use Rattle.sfc_output.specs.sfc_debug.Steered.{steered_by};
ghost use Rattle.sfc_session.specs.Sessions.{steered_after, waiting, waiting_verdict};

use crate::saved::append_line;
use crate::sfc_debug::break_condition::BreakCondition;
use crate::sfc_debug::debugger::Debugger;
use crate::sfc_debug::timed::Timed;
use sfc_base::ids::ProgId;
use sfc_base::ticks::Ticks;
use sfc_events::command::{Answer, Command, CondId, Point, TraceRow};
use sfc_events::refusal::Refusal;
use sfc_output::answer::append_answer;
use sfc_plant::plant::Plant;
use std::alloc::{AllocError, Global};

/// What commands are given to one after the other: the debugger of a plant, the accepted commands as a script, and what each answered.
pub struct Session {
    debugger: Debugger,
    // How many conditions its table has.
    conditions: usize,
    // The raw instant of the last accepted command, in microseconds.
    instant: i64,
    // The accepted commands, a line each.
    script: Vec<u8>,
    // The accepted commands with their answers.
    rows: Vec<TraceRow>,
}

// By hand, so that a caller that drops one proves one call.
impl Drop for Session {
    fn drop(self) {
        let Session {
            debugger: _,
            conditions: _,
            instant: _,
            script: _,
            rows: _,
        } = self;
    }
}

// A breakpoint with a condition, at a point and a raw instant.
fn obey_break(
    debugger: &mut Debugger,
    placed: (Point, i64),
    condition: BreakCondition,
) -> Result<Result<Answer, Refusal>, AllocError>
    ensures steered { IfOk result (λ answer. steered_by debugger.new ≡ steered_after answer (steered_by debugger.old) condition) }
    ensures answer { (h : CommandHistory) → IsAccepted (steered_by debugger.old).plant (steered_by debugger.old).table h →
        Agrees debugger.old h → IfOk result (λ answer. answer ≡ waiting_verdict (steered_by debugger.old) h placed condition) }
    ensures agrees { (h : CommandHistory) → IsAccepted (steered_by debugger.old).plant (steered_by debugger.old).table h →
        Agrees debugger.old h → IfOk result (λ answer. Agrees debugger.new
        (history_by answer (waiting (steered_by debugger.old) placed condition) h)) }
{
    let (point, raw) = placed;
    let mut ticks = Ticks::new();
    debugger.break_when(point, condition, raw, &mut ticks)
}

#[tactic(auto, unfolding(crate::specs::Sessions::debugger_in, crate::specs::Sessions::instant_in, crate::specs::Sessions::script_in, crate::specs::Sessions::rows_in, crate::specs::Sessions::count_in))]
impl Session {
    ghost use Rattle.std.specs.Prelude.{List, ℕ};
    ghost use Rattle.sfc_output.specs.sfc_debug.Agreement.{Agrees};
    ghost use Rattle.sfc_output.specs.sfc_debug.Histories.{CommandHistory};
    ghost use Rattle.sfc_output.specs.sfc_debug.Steered.{steered_by};
    ghost use Rattle.sfc_output.specs.sfc_debug.Tracing.{row_of};
    ghost use Rattle.sfc_output.specs.sfc_debug.Verdict.{history_by};
    ghost use Rattle.sfc_output.specs.Output.{command_lines, debugger_of, text_of};
    ghost use Rattle.sfc_session.specs.Scanning as scanning;
    ghost use Rattle.sfc_session.specs.Sessions.{HasSaid, debugger_in, instant_in, script_in, rows_in, steered_in};
    ghost use Rattle.sfc_session.specs.Sessions.{count_in, last_instant, with_lines, script_after, script_line, rows_after, rows_of};
    ghost use Rattle.sfc_session.specs.Sessions.{lines_by, steered_after, waiting, waiting_verdict, with_one_more};

    /// A session with a debugger that has no condition and was told nothing.
    pub fn new(alloc: Global, debugger: Debugger) -> Session
        ensures said { Agrees debugger [] → (steered_by debugger).table ≡ [] → HasSaid result [] [] }
        ensures steered { steered_in result ≡ steered_by debugger }
        ensures script { script_in result ≡ [] }
    {
        Session {
            debugger,
            conditions: 0,
            instant: 0,
            script: Vec::new(alloc),
            rows: Vec::new(alloc),
        }
    }

    // Keeps an accepted command. The error is that memory was refused.
    fn keep(&mut self, timed: Timed, answer: Answer, words: &[u8]) -> Result<(), AllocError>
        ensures debugger { debugger_in self.new ≡ debugger_in self.old }
        ensures count { count_in self.new ≡ count_in self.old }
        ensures instant { instant_in self.new ≡ timed.1 }
        ensures script { OnOk result (script_in self.new ≡ script_in self.old ++ script_line timed.1 words.now) }
        ensures rows { (h : CommandHistory) → Agrees (debugger_in self.old) (timed ∷ h) → OnOk result (rows_in self.new ≡ rows_in self.old
            ++ row_of (steered_in self.old).plant (steered_in self.old).table h timed.0 timed.1 answer ∷ []) }
    {
        let Timed { command, raw } = timed;
        self.instant = raw;
        self.rows.push(TraceRow {
            number: self.debugger.accepted(),
            raw,
            t: self.debugger.run_instant(),
            command,
            answer,
        })?;
        append_line(&mut self.script, raw, words)
    }

    // Keeps what was accepted of a command, if it was. The error is that memory was refused.
    fn keep_if(
        &mut self,
        timed: Timed,
        answer: Result<Answer, Refusal>,
        words: &[u8],
    ) -> Result<(), AllocError>
        ensures debugger { debugger_in self.new ≡ debugger_in self.old }
        ensures count { count_in self.new ≡ count_in self.old }
        ensures instant { IfOk answer (λ _. instant_in self.new ≡ timed.1) }
        ensures stays { OnErr answer (instant_in self.new ≡ instant_in self.old) }
        ensures script { OnOk result (script_in self.new ≡ script_after answer (script_in self.old) timed.1 words.now) }
        ensures rows { (h : CommandHistory) → Agrees (debugger_in self.old) (history_by answer timed h) → OnOk result
            (rows_in self.new ≡ rows_after answer (steered_in self.old) h timed (rows_in self.old)) }
    {
        match answer {
            Ok(answer) => self.keep(timed, answer, words),
            Err(_) => Ok(()),
        }
    }

    /// One command at its raw instant, in microseconds, which these words say: what it answers, or what it is refused for, as
    /// `Debugger::command`. Its lines are put at the end of `out`: what a replay writes for it behind the commands before it. An
    /// accepted command becomes a line of the script. The one error is that memory was refused; then the session is of no more use.
    pub fn command(
        &mut self,
        alloc: Global,
        timed: Timed,
        words: &[u8],
        out: &mut Vec<u8>,
    ) -> Result<Result<Answer, Refusal>, AllocError>
        ensures steered { steered_in self.new ≡ steered_in self.old }
        ensures answer { (h : CommandHistory) (lines : List ℕ) → HasSaid self.old h lines →
            IfOk result (λ answer. answer ≡ (debugger_of (steered_in self.old)).verdict h timed) }
        ensures written { (h : CommandHistory) (lines : List ℕ) → HasSaid self.old h lines → OnOk result (out.new.items ≡ out.old.items
            ++ command_lines (debugger_of (steered_in self.old)) (text_of (steered_in self.old)) h timed) }
        ensures said { (h : CommandHistory) (lines : List ℕ) → HasSaid self.old h lines → OnOk result (HasSaid self.new
            ((debugger_of (steered_in self.old)).after h timed) (with_lines ((debugger_of (steered_in self.old)).verdict h timed) lines
            (command_lines (debugger_of (steered_in self.old)) (text_of (steered_in self.old)) h timed))) }
        ensures script { IfOk result (λ answer. script_in self.new ≡ script_after answer (script_in self.old) timed.1 words.now) }
    {
        let answer = self.debugger.obey(timed);
        append_answer(alloc, out, &self.debugger, timed.command, answer)?;
        self.keep_if(timed, answer, words)?;
        Ok(answer)
    }

    // A breakpoint that waits for the condition which the table would have next.
    fn next_break(&self, program: ProgId, point: Point) -> Command
        ensures { count_in self.now < 65535 → result ≡ BreakIf program point (record { 0 = count_in self.now }) }
    {
        let place = self.conditions.min(65_535);
        Command::BreakIf(program, point, CondId(place as u16))
    }

    // One condition more, where it was accepted.
    fn count_if(&mut self, answer: Result<Answer, Refusal>)
        ensures debugger { debugger_in self.new ≡ debugger_in self.old }
        ensures instant { instant_in self.new ≡ instant_in self.old }
        ensures script { script_in self.new ≡ script_in self.old }
        ensures rows { rows_in self.new ≡ rows_in self.old }
        ensures count { count_in self.old < 65535 → OnOk answer (count_in self.new ≡ count_in self.old + 1) }
        ensures stays { OnErr answer (count_in self.new ≡ count_in self.old) }
    {
        if answer.is_ok() {
            self.conditions = self.conditions.saturating_add(1);
        }
    }

    /// A breakpoint with a condition, at a point and a raw instant in microseconds: as `command` of `BreakIf` and this condition, which
    /// joins the table behind all others where it is accepted, and is given up where it is refused. A table of 65,535 conditions takes
    /// no more: then it is refused in its turn as one that isn't there.
    pub fn break_when(
        &mut self,
        alloc: Global,
        placed: (Point, i64),
        condition: BreakCondition,
        words: &[u8],
        out: &mut Vec<u8>,
    ) -> Result<Result<Answer, Refusal>, AllocError>
        ensures steered { IfOk result (λ answer. steered_in self.new ≡ steered_after answer (steered_in self.old) condition) }
        ensures answer { (h : CommandHistory) (lines : List ℕ) → HasSaid self.old h lines →
            IfOk result (λ answer. answer ≡ waiting_verdict (steered_in self.old) h placed condition) }
        ensures written { (h : CommandHistory) (lines : List ℕ) → HasSaid self.old h lines → OnOk result (out.new.items ≡ out.old.items
            ++ lines_by (waiting_verdict (steered_in self.old) h placed condition) (with_one_more (steered_in self.old) condition) h
            (waiting (steered_in self.old) placed condition)) }
        ensures said { (h : CommandHistory) (lines : List ℕ) → HasSaid self.old h lines → OnOk result (HasSaid self.new
            (history_by (waiting_verdict (steered_in self.old) h placed condition) (waiting (steered_in self.old) placed condition) h)
            (with_lines (waiting_verdict (steered_in self.old) h placed condition) lines
            (lines_by (waiting_verdict (steered_in self.old) h placed condition) (with_one_more (steered_in self.old) condition) h
            (waiting (steered_in self.old) placed condition)))) }
        ensures script { IfOk result (λ answer. script_in self.new ≡ script_after answer (script_in self.old) placed.1 words.now) }
    {
        let (point, raw) = placed;
        let timed = Timed {
            command: self.next_break(condition.program, point),
            raw,
        };
        let answer = obey_break(&mut self.debugger, placed, condition)?;
        append_answer(alloc, out, &self.debugger, timed.command, answer)?;
        self.count_if(answer);
        self.keep_if(timed, answer, words)?;
        Ok(answer)
    }

    /// The raw instant of the last accepted command, in microseconds; 0 before the first.
    pub fn instant(&self) -> i64
        ensures value { result ≡ instant_in self.now }
        ensures said { (h : CommandHistory) (lines : List ℕ) → HasSaid self.now h lines → result ≡ last_instant h }
    {
        self.instant
    }

    /// The raw instant at which the run instant comes, where the resource runs on from the last accepted command; as far as 64 bits go.
    pub fn raw_of(&self, next: i64) -> i64
        ensures { (h : CommandHistory) (lines : List ℕ) → HasSaid self.now h lines → result ≡
            scanning.raw_of (last_instant h) ((debugger_of (steered_in self.now)).state h).clock.instant next }
    {
        let stretch = next.saturating_sub(self.debugger.run_instant());
        self.instant.saturating_add(stretch)
    }

    /// The debugger.
    pub fn debugger(&self) -> &Debugger
        ensures { result.now ≡ debugger_in self.now }
    {
        &self.debugger
    }

    /// The plant.
    pub fn plant(&self) -> &Plant
        ensures { result.now ≡ (steered_in self.now).plant }
    {
        self.debugger.resource().plant()
    }

    /// The accepted commands as a script: of each its raw instant and its words, a line each.
    pub fn script(&self) -> &[u8]
        ensures { result.now ≡ script_in self.now }
    {
        self.script.as_slice()
    }

    /// The accepted commands with their answers, the first first: of each also its number, its raw and its run instant.
    pub fn rows(&self) -> &[TraceRow]
        ensures value { result.now ≡ rows_in self.now }
        ensures said { (h : CommandHistory) (lines : List ℕ) → HasSaid self.now h lines → result.now ≡ rows_of (steered_in self.now) h }
    {
        self.rows.as_slice()
    }
}
