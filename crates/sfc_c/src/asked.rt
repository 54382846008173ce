//! What a line of a script asks.

ghost use Rattle.std.specs.Prelude.{◌≡◌, ◌<◌, ℕ, true, false, Some, MatchOption, slice_get};
ghost use Rattle.sfc_replay.specs.sfc_debug.Agreement.{table_of};
ghost use Rattle.sfc_replay.specs.sfc_debug.Steered.{steered_by};
ghost use Rattle.sfc_c.specs.Lines as lines;

use crate::sfc_debug::break_condition::BreakCondition;
use crate::sfc_debug::debugger::Debugger;
use crate::sfc_debug::timed::Timed;
use crate::sfc_script::script::{ScriptError, read_script};
use sfc_base::ids::ProgId;
use sfc_events::command::{Command, CondId, Point};
use sfc_expr::same::is_same;
use std::alloc::Global;

/// How many numbers of conditions there are.
const CONDITIONS: usize = 65_535;

/// What a line of a script asks.
#[derive(Clone, Copy, Debug, PartialEq, Eq)]
pub enum Asked {
    /// Nothing: it has no words, or begins with a semicolon.
    Nothing,
    /// A command at this raw instant, in microseconds.
    Says(Command, i64),
    /// It is no command, or more than one.
    NoLine,
    /// A breakpoint waits for a condition that is none of the opening's.
    NoCondition,
    /// Memory was refused.
    NoMemory,
}

// Whether the condition of this number is this one.
fn is_there(debugger: &Debugger, id: CondId, condition: &BreakCondition) -> bool
    ensures same { result ≡ true → slice_get (table_of debugger.now) id.0 ≡ Some condition.now }
    ensures other { result ≡ false → slice_get (table_of debugger.now) id.0 ≡ Some condition.now → ⊥ }
{
    match debugger.condition(id) {
        Some((program, own)) => {
            program.0 == condition.program.0 && is_same(own, condition.condition.expr())
        }
        None => false,
    }
}

// The number of a condition of the opening that is this one, if there is one.
fn condition_number(debugger: &Debugger, condition: &BreakCondition) -> Option<CondId>
    ensures { MatchOption result ((k : ℕ) → k < 65535 → slice_get (table_of debugger.now) k ≡ Some condition.now → ⊥)
        (λ id. slice_get (table_of debugger.now) id.0 ≡ Some condition.now) }
{
    'conditions: for k in 0..CONDITIONS {
        if is_there(debugger, CondId(k as u16), condition) {
            return Some(CondId(k as u16));
        }
    }
    None
}

// What a breakpoint asks that waits for a condition.
fn asked_when(
    debugger: &Debugger,
    condition: &BreakCondition,
    program: ProgId,
    point: Point,
    t: i64,
) -> Asked
    ensures { lines.AsksWhen (table_of debugger.now) condition.now program point t result }
{
    match condition_number(debugger, condition) {
        Some(id) => Asked::Says(Command::BreakIf(program, point, id), t),
        None => Asked::NoCondition,
    }
}

// What a line of one command asks, which has these conditions: none, or that of its breakpoint.
fn asked_one(debugger: &Debugger, conditions: &[BreakCondition], timed: Timed) -> Asked
    ensures { lines.AsksOne (table_of debugger.now) conditions.now timed result }
{
    match (conditions.first(), timed.command) {
        (Some(condition), Command::BreakIf(program, point, _)) => {
            asked_when(debugger, condition, program, point, timed.raw)
        }
        _ => Asked::Says(timed.command, timed.raw),
    }
}

// What these commands and conditions of a line ask.
fn asked_in(debugger: &Debugger, commands: &[Timed], conditions: &[BreakCondition]) -> Asked
    ensures { lines.AsksIn (table_of debugger.now) conditions.now commands.now result }
{
    match commands {
        [] => Asked::Nothing,
        [timed] => asked_one(debugger, conditions, *timed),
        _ => Asked::NoLine,
    }
}

/// What a line asks, as a script of this one line says it.
pub fn asked_by(alloc: Global, debugger: &Debugger, line: &[u8]) -> Asked
    ensures { lines.Asks (steered_by debugger.now) line.now result }
{
    match read_script(alloc, debugger.resource(), line) {
        Ok(said) => {
            let (commands, conditions) = said.into_parts();
            asked_in(debugger, commands.as_slice(), conditions.as_slice())
        }
        Err(ScriptError::Faulty(_)) => Asked::NoLine,
        Err(ScriptError::Memory) => Asked::NoMemory,
    }
}
