//! Scripts.

ghost use Rattle.std.specs.Prelude.{◌≡◌, ◌<◌, [], length, MatchOption};
ghost use Rattle.sfc_debug.specs.sfc_core.Agreement.{plant_of};
ghost use Rattle.sfc_script.specs.declared.script.ScriptError.TheVariants.{Memory};
ghost use Rattle.sfc_script.specs.Lines.{lines_of};
ghost use Rattle.sfc_script.specs.Scripts.{LinesRead};
ghost use Rattle.sfc_script.specs.Answers.{ReadsScript, Tells};
ghost use Rattle.sfc_script.specs.Private.Adding.{AddsCondition, AddsLine};
ghost use Rattle.sfc_script.specs.Private.Reading.{as_said};
ghost use Rattle.sfc_script.specs.Private.Repeating.{IsLast, Begins};

use crate::condition::read_condition;
use crate::instant::instant;
use crate::line::{Line, read_line};
use crate::point::Place;
use crate::repeated::{Repeated, command_behind};
use crate::sfc_core::resource::Resource;
use crate::split::next_line;
use sfc_debug::break_condition::BreakCondition;
use sfc_debug::timed::Timed;
use sfc_events::command::{Command, CondId};
use std::alloc::{AllocError, AllocFailed, Global};

/// The most bytes of a script.
const LONGEST: usize = 1_048_576;

/// About how many bytes a command has, with its instant and the end of its line.
const COMMAND: usize = 20;

/// The most conditions of a script. None is long enough for more, since each has a line of its own.
const CONDITIONS: usize = 65_535;

/// Why a script was refused.
#[derive(Clone, Copy, Debug, PartialEq, Eq)]
pub enum ScriptError {
    /// The first line that is no command, counted from 1; 0 where the script is longer than 1,048,576 bytes.
    Faulty(usize),
    /// Memory was refused.
    Memory,
}

impl From<AllocError> for ScriptError {
    ghost from_gives = { λ _ error. error ≡ Memory };

    fn from(_error: AllocError) -> ScriptError {
        ScriptError::Memory
    }
}

impl<T: Drop> From<AllocFailed<T>> for ScriptError {
    ghost from_gives = { λ _ error. error ≡ Memory };

    fn from(_error: AllocFailed<T>) -> ScriptError {
        ScriptError::Memory
    }
}

/// What a script says, in the order of its lines.
#[derive(Debug)]
pub struct Script {
    /// The commands, with their instants in microseconds.
    pub commands: Vec<Timed>,
    /// The conditions of breakpoints. The `CondId` of a breakpoint is the place of its condition here, from 0. Where the
    /// program instance of a breakpoint isn't there, its condition isn't either.
    pub conditions: Vec<BreakCondition>,
}

// By hand, so that a caller that drops one proves one call.
impl Drop for Script {
    fn drop(self) {
        let Script {
            commands: _,
            conditions: _,
        } = self;
    }
}

impl Script {
    /// The commands, and the conditions.
    pub fn into_parts(self) -> (Vec<Timed>, Vec<BreakCondition>)
        ensures commands { result.0 ≡ self.commands }
        ensures conditions { result.1 ≡ self.conditions }
    {
        let Script {
            commands,
            conditions,
        } = self;
        (commands, conditions)
    }

    // Adds a breakpoint, with its condition where that is known; else Faulty at this line.
    fn add_breakpoint(
        &mut self,
        place: Place,
        t: i64,
        condition: Option<BreakCondition>,
        number: usize,
    ) -> Result<(), ScriptError>
        ensures { AddsCondition place t condition number self.old self.new result }
    {
        let id = self.conditions.len();
        if id >= CONDITIONS {
            return Err(ScriptError::Faulty(number));
        }
        let command = Command::BreakIf(place.program, place.point, CondId(id as u16));
        self.commands.push(Timed { command, raw: t })?;
        if let Some(condition) = condition {
            self.conditions.push(condition)?;
        }
        Ok(())
    }

    // Adds what a line says; else Faulty at this line.
    fn add(
        &mut self,
        alloc: Global,
        resource: &Resource,
        line: Line<'_>,
        number: usize,
    ) -> Result<(), ScriptError>
        ensures { AddsLine (plant_of resource.now) (as_said line.entry) number self.old self.new result }
    {
        match line {
            Line::Skipped => Ok(()),
            Line::Plain(command, t) => {
                self.commands.push(Timed { command, raw: t })?;
                Ok(())
            }
            Line::When(conditional, t) => {
                let k = self.conditions.len();
                let condition = read_condition(alloc, resource.plant(), k, conditional, number)?;
                self.add_breakpoint(conditional.place, t, condition, number)
            }
            Line::Faulty => Err(ScriptError::Faulty(number)),
        }
    }
}

// What the first line is, and what stands behind its end; None where there are no bytes. Where it says the last command
// again at another instant, the command is not read again.
fn first_line<'a>(
    resource: &Resource,
    last: &mut Option<Repeated<'a>>,
    bytes: &'a [u8],
) -> Option<(Line<'a>, &'a [u8])>
    requires { IsLast (plant_of resource.now) last.old }
    ensures line { MatchOption result (bytes.now ≡ [])
        (λ r. Begins (plant_of resource.now) bytes.now (as_said r.0) r.1.now × (length r.1.now < length bytes.now)) }
    ensures is_last { IsLast (plant_of resource.now) last.new }
{
    if let Some((t, behind)) = instant(bytes) {
        if let Some((command, rest)) = command_behind(resource, last, behind) {
            return Some((Line::Plain(command, t), rest));
        }
    }
    let (line, rest) = next_line(bytes)?;
    Some((read_line(resource, line), rest))
}

// What the lines say.
fn read_lines(alloc: Global, resource: &Resource, bytes: &[u8]) -> Result<Script, ScriptError>
    ensures { Tells (λ outcome. LinesRead (plant_of resource.now) 1 0 (lines_of bytes.now) outcome) result }
{
    let mut script = Script {
        commands: Vec::with_capacity(alloc, bytes.len() / COMMAND)?,
        conditions: Vec::new(alloc),
    };
    let mut number = 1;
    let mut rest = bytes;
    let mut last = None;
    'lines: while let Some((line, after)) = first_line(resource, &mut last, rest) {
        script.add(alloc, resource, line, number)?;
        number += 1;
        rest = after;
    }
    Ok(script)
}

/// The commands that a script says, with their instants in microseconds, and the conditions of its breakpoints, over the
/// names of the resource's plant. A name that isn't found stands as a number that no plant has: 65,535 for a variable,
/// a step, a transition or an action, 255 for a task or a program instance.
///
/// Instants are from -2^62 to 2^62, and in any order. It takes memory for its answer, and to read conditions. The
/// resource stays as it is.
///
/// `Faulty` tells the first line that is no command, counted from 1, or 0 where the script is longer than 1,048,576
/// bytes. A line whose condition can't be read is none, nor is one whose condition is no BOOL expression of its program
/// instance, where that is there. `Memory` tells that memory was refused. Nothing is left of a script that was refused.
pub fn read_script(alloc: Global, resource: &Resource, bytes: &[u8]) -> Result<Script, ScriptError>
    ensures { ReadsScript (plant_of resource.now) bytes.now result }
{
    if bytes.len() > LONGEST {
        return Err(ScriptError::Faulty(0));
    }
    read_lines(alloc, resource, bytes)
}
