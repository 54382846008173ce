//! Whole files of tests.

ghost use Rattle.std.specs.Prelude.{◌≡◌, ◌∷◌, ◌++◌, ◌<◌, ◌≤◌, [], length, IfErr, IfOk, IsOk, OnOk};
ghost use Rattle.sfc_script.specs.Lines.{lines_of};
ghost use Rattle.sfc_script.specs.declared.script.ScriptError.TheVariants.{Faulty, Memory};
ghost use Rattle.sfc_cases.specs.Conditions.{IsReader, Reader};
ghost use Rattle.sfc_cases.specs.Files.{awaiting, read_from};
ghost use Rattle.sfc_cases.specs.Reading.{Adds};
ghost use Rattle.sfc_debug.specs.sfc_core.Agreement.{plant_of};
ghost use Rattle.sfc_cases.specs.Answers.{ReadsTests, Tells};

use crate::deed::Deed;
use crate::line::Line;
use crate::named::Named;
use crate::said::Said;
use crate::saying::read_line;
use crate::sfc_core::resource::Resource;
use sfc_debug::break_condition::BreakCondition;
use sfc_events::command::{Command, CondId, Point};
use sfc_script::script::ScriptError;
use sfc_script::split::next_line;
use std::alloc::Global;

/// The most bytes of a file of tests.
const LONGEST: usize = 67_108_864;

/// The most conditions of breakpoints in a file.
const CONDITIONS: usize = 65_535;

/// What a file of tests says.
pub struct TestFile {
    /// The lines that do something, in their order.
    pub lines: Vec<Line>,
    /// The byte at which each of them begins.
    pub places: Vec<usize>,
    /// The conditions of breakpoints. The `CondId` of a breakpoint is the place of its condition here, from 0.
    pub table: Vec<BreakCondition>,
}

// By hand, so that a caller that drops one proves one call.
impl Drop for TestFile {
    fn drop(self) {
        let TestFile {
            lines: _,
            places: _,
            table: _,
        } = self;
    }
}

impl TestFile {
    /// The lines with the bytes at which they begin, and the conditions of breakpoints.
    pub fn into_parts(self) -> (Vec<Line>, Vec<usize>, Vec<BreakCondition>)
        ensures lines { result.0 ≡ self.lines }
        ensures table { result.2 ≡ self.table }
    {
        let TestFile {
            lines,
            places,
            table,
        } = self;
        (lines, places, table)
    }

    // Keeps at which byte the last line begins, where it is a new one.
    fn keep_place(&mut self, place: usize) -> Result<(), ScriptError>
        ensures lines { OnOk result (self.new.lines ≡ self.old.lines) }
        ensures table { OnOk result (self.new.table ≡ self.old.table) }
        ensures memory { IfErr result (λ error. error ≡ Memory) }
    {
        if self.places.len() < self.lines.len() {
            self.places.push(place)?;
        }
        Ok(())
    }

    // Adds a line.
    fn add_line(&mut self, line: Line) -> Result<(), ScriptError>
        ensures lines { OnOk result (self.new.lines.items ≡ self.old.lines.items ++ line ∷ []) }
        ensures table { OnOk result (self.new.table ≡ self.old.table) }
        ensures memory { IfErr result (λ error. error ≡ Memory) }
    {
        self.lines.push(line)?;
        Ok(())
    }

    // A breakpoint at a point, which waits for a condition that joins the table; else Faulty at this line.
    fn await_condition(
        &mut self,
        point: Point,
        condition: BreakCondition,
        number: usize,
    ) -> Result<Deed, ScriptError>
        ensures few { length self.old.table.items < 65535 → IfErr result (λ error. error ≡ Memory) }
        ensures many { 65535 ≤ length self.old.table.items → IfErr result (λ error. error ≡ Faulty number) }
        ensures room { IsOk result → length self.old.table.items < 65535 }
        ensures deed { IfOk result (λ deed. deed ≡ awaiting (length self.old.table.items) point condition) }
        ensures table { OnOk result (self.new.table.items ≡ self.old.table.items ++ condition ∷ []) }
        ensures lines { OnOk result (self.new.lines ≡ self.old.lines) }
    {
        let place = self.table.len();
        if place >= CONDITIONS {
            return Err(ScriptError::Faulty(number));
        }
        let command = Command::BreakIf(condition.program, point, CondId(place as u16));
        self.table.push(condition)?;
        Ok(Deed::Gives(command))
    }

    // Adds what a line says; else Faulty at this line.
    fn add(&mut self, names: &mut Vec<Named>, said: Said, number: usize) -> Result<(), ScriptError>
        ensures { Adds number said names.old.items names.new.items self.old self.new result }
    {
        match said {
            Said::Nothing => Ok(()),
            Said::Names(named) => {
                names.push(named)?;
                Ok(())
            }
            Said::Does(instant, deed) => self.add_line(Line {
                number,
                instant,
                deed,
            }),
            Said::Waits(instant, point, condition) => {
                let deed = self.await_condition(point, condition, number)?;
                self.add_line(Line {
                    number,
                    instant,
                    deed,
                })
            }
            Said::Wrong => Err(ScriptError::Faulty(number)),
        }
    }
}

// What the lines say.
fn read_lines(alloc: Global, resource: &Resource, bytes: &[u8]) -> Result<TestFile, ScriptError>
    ensures { (read : Reader) → IsReader read →
        Tells (read_from (plant_of resource.now) read 1 [] [] (lines_of bytes.now)) result }
{
    let mut file = TestFile {
        lines: Vec::new(alloc),
        places: Vec::new(alloc),
        table: Vec::new(alloc),
    };
    let mut names = Vec::new(alloc);
    let mut number = 1;
    let mut rest = bytes;
    'lines: while let Some((line, after)) = next_line(rest) {
        let said = read_line(alloc, resource, &names, line)?;
        file.add(&mut names, said, number)?;
        file.keep_place(bytes.len() - rest.len())?;
        number += 1;
        rest = after;
    }
    Ok(file)
}

/// What a file of tests says, over the names of the resource's plant. It takes memory for its answer, and to read conditions. The resource
/// stays as it is.
///
/// `Faulty` tells the first line that can't be read, counted from 1, or 0 where the file is longer than 67,108,864 bytes. A name of a
/// condition, of a list of steps, or behind FAULT or OVERRUNS, that isn't there makes its line such a one; one of another command doesn't.
/// `Memory` tells that memory was refused. Nothing is left of a file that was refused.
pub fn read_tests(alloc: Global, resource: &Resource, bytes: &[u8]) -> Result<TestFile, ScriptError>
    ensures { ReadsTests (plant_of resource.now) bytes.now result }
{
    if bytes.len() > LONGEST {
        return Err(ScriptError::Faulty(0));
    }
    read_lines(alloc, resource, bytes)
}
