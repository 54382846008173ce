//! Lines of scripts, obeyed.

ghost use Rattle.std.specs.Prelude.{◌≡◌, ◌++◌, Some, OnOk, IfOk};
ghost use Rattle.sfc_replay.specs.sfc_debug.Histories.{CommandHistory};
ghost use Rattle.sfc_replay.specs.sfc_debug.Verdict.{after, verdict};
ghost use Rattle.sfc_c.specs.declared.asked.Asked.{Asked as AskedData};
ghost use Rattle.sfc_c.specs.Lines as lines;
ghost use Rattle.sfc_c.specs.Lines.{Obeys, told_lines};
ghost use Rattle.sfc_c.specs.Resources.{Stands, slots_in, steered_in};

use crate::asked::{Asked, asked_by};
use crate::giving::give;
use crate::plc::Plc;
use crate::reply::code;
use crate::sfc_debug::timed::Timed;
use crate::sfc_output::answer::append_answer;
use crate::status::{NO_LINE, NO_MEMORY, TOO_SHORT, UNKNOWN};
use sfc_events::command::Answer;
use sfc_events::refusal::Refusal;
use std::alloc::{AllocError, Global};

/// What came of a command whose lines are to be written to a buffer.
#[derive(Clone, Copy, Debug, PartialEq, Eq)]
pub enum Obeyed {
    /// Its answer; the lines are written.
    Done(Result<Answer, Refusal>),
    /// The buffer is too short, and the command hasn't happened.
    Short,
    /// Memory was refused, and the command hasn't happened.
    OutOfMemory,
}

// One command, and its lines.
fn obey_and_tell(
    alloc: Global,
    plc: &mut Plc,
    timed: Timed,
    out: &mut Vec<u8>,
) -> Result<Result<Answer, Refusal>, AllocError>
    ensures steered { steered_in plc.new ≡ steered_in plc.old }
    ensures slots { slots_in plc.new ≡ slots_in plc.old }
    ensures answer { (h : CommandHistory) → Stands plc.old h →
        IfOk result (λ answer. answer ≡ verdict (steered_in plc.old).plant (steered_in plc.old).table h timed.0 timed.1) }
    ensures stands { (h : CommandHistory) → Stands plc.old h →
        Stands plc.new (after (steered_in plc.old).plant (steered_in plc.old).table h timed) }
    ensures lines { (h : CommandHistory) → Stands plc.old h →
        OnOk result (out.new.items ≡ out.old.items ++ told_lines (steered_in plc.old) h timed) }
{
    let answer = plc.obey(timed);
    append_answer(alloc, out, plc.debugger(), timed.command, answer)?;
    Ok(answer)
}

// The command, and its lines to the buffer; it happens only where they are written.
fn obey_into(
    alloc: Global,
    plc: &mut Plc,
    timed: Timed,
    into: &mut [u8],
    needed: &mut usize,
) -> Obeyed
    ensures steered { steered_in plc.new ≡ steered_in plc.old }
    ensures slots { slots_in plc.new ≡ slots_in plc.old }
    ensures obeyed { (h : CommandHistory) → Stands plc.old h →
        Obeys (steered_in plc.old) h timed into.old into.new needed.new (Some plc.new) result }
{
    *needed = 0;
    let Ok(saved) = plc.keep(alloc) else {
        return Obeyed::OutOfMemory;
    };
    let mut out = Vec::new(alloc);
    let Ok(answer) = obey_and_tell(alloc, plc, timed, &mut out) else {
        plc.go_back(&saved);
        return Obeyed::OutOfMemory;
    };
    if give(out.as_slice(), into, needed) != 0 {
        plc.go_back(&saved);
        return Obeyed::Short;
    }
    Obeyed::Done(answer)
}

// The number of what came of a command.
fn number_of(obeyed: Obeyed) -> i32
    ensures { result ≡ lines.number_of obeyed }
{
    match obeyed {
        Obeyed::Done(answer) => code(answer),
        Obeyed::Short => TOO_SHORT,
        Obeyed::OutOfMemory => NO_MEMORY,
    }
}

// What a line asks of a resource.
fn asked_of(alloc: Global, plc: &Plc, line: &[u8]) -> Asked
    ensures { lines.Asks (steered_in plc.now) line.now result }
{
    asked_by(alloc, plc.debugger(), line)
}

/// What a line asks is done, and its lines are written to the buffer: the code.
pub fn obey_line(
    alloc: Global,
    plc: &mut Plc,
    line: &[u8],
    into: &mut [u8],
    needed: &mut usize,
) -> i32
    ensures steered { steered_in plc.new ≡ steered_in plc.old }
    ensures slots { slots_in plc.new ≡ slots_in plc.old }
    ensures does { (h : CommandHistory) → Stands plc.old h → (asked : AskedData) × lines.Asks (steered_in plc.old) line.now asked
        × lines.Does (steered_in plc.old) h asked into.old into.new needed.new (Some plc.new) result }
{
    *needed = 0;
    match asked_of(alloc, plc, line) {
        Asked::Nothing => 0,
        Asked::Says(command, t) => {
            let timed = Timed { command, raw: t };
            number_of(obey_into(alloc, plc, timed, into, needed))
        }
        Asked::NoLine => NO_LINE,
        Asked::NoCondition => UNKNOWN,
        Asked::NoMemory => NO_MEMORY,
    }
}
