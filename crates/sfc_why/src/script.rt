//! Why a script is refused.

ghost use Rattle.std.specs.Prelude.{IfOk};
ghost use Rattle.sfc_why.specs.Telling.{ExplainsScript, IsReportForScript};

use crate::commands::near_commands;
use crate::condition::{ScriptFault, Site, condition_fault};
use crate::over::{Opened, Over};
use crate::place::{Place, word_place};
use crate::report::{Fault, Report, report_at};
use crate::sfc_core::resource::Resource;
use crate::warning::warnings_of;
use crate::words::{Words, words_of};
use sfc_base::ids::ProgId;
use sfc_hints::hints::Hints;
use sfc_hints::writing::{add_joint, add_line};
use sfc_plant::plant::Plant;
use sfc_script::line_fault::{LineFault, line_fault};
use sfc_script::script::{ScriptError, read_script};
use sfc_script::wanted::Wanted;
use std::alloc::{AllocError, Global};

// What would do in place of a word, and the command that may be meant.
fn wanted_told(alloc: Global, word: &[u8], wanted: Wanted) -> Result<Hints, AllocError> {
    let mut told = Hints::new(alloc);
    if wanted == Wanted::Command {
        add_near_commands(alloc, word, &mut told)?;
    }
    told.lines.extend_from_slice(b"  expected: ")?;
    add_line(&mut told.lines, wanted.text())?;
    Ok(told)
}

// Adds a line with the commands that are near to the word, and keeps the nearest.
fn add_near_commands(alloc: Global, word: &[u8], told: &mut Hints) -> Result<(), AllocError> {
    let (found, nearest) = near_commands(alloc, word)?;
    let Some(nearest) = nearest else {
        return Ok(());
    };
    told.keep_near(alloc, nearest.as_bytes())?;
    told.lines.extend_from_slice(b"  nearby: ")?;
    let mut place = 0usize;
    for command in found.as_slice() {
        add_joint(&mut told.lines, place, 0)?;
        told.lines.extend_from_slice(command.as_bytes())?;
        place = place.saturating_add(1);
    }
    told.lines.extend_from_slice(b"\n")
}

// The fault of a word of a line.
fn word_fault(
    alloc: Global,
    script: &[u8],
    words: &Words,
    place: usize,
    wanted: Wanted,
) -> Result<ScriptFault, AllocError> {
    let word = words.word(script, place).unwrap_or(b"");
    let told = wanted_told(alloc, word, wanted)?;
    let span = words.span(place);
    Ok(ScriptFault { span, told })
}

// The instance that a line names; one that no plant has where there is none of this name.
fn instance_of(plant: &Plant, name: &[u8]) -> ProgId {
    match plant.find_instance(name) {
        Some(instance) => instance,
        None => ProgId(u8::MAX),
    }
}

// The fault of a condition, behind the word at this place.
fn awaited_fault(
    alloc: Global,
    over: &Over<'_>,
    script: &[u8],
    words: &Words,
    place: usize,
) -> Result<ScriptFault, AllocError> {
    let base = words.span(place.saturating_sub(1)).to;
    let text = script.get(base..words.line.to).unwrap_or(b"");
    let instance = instance_of(over.resource.plant(), words.word(script, 2).unwrap_or(b""));
    let site = Site {
        base,
        words: "the condition behind WHEN",
    };
    condition_fault(alloc, over, (instance, text), site)
}

// The fault of a line.
fn fault_of_line(
    alloc: Global,
    over: &Over<'_>,
    script: &[u8],
    line: usize,
) -> Result<ScriptFault, AllocError> {
    let words = words_of(alloc, script, line)?;
    let bytes = script.get(words.line.from..words.line.to).unwrap_or(b"");
    match line_fault(bytes) {
        Some(LineFault::Word(place, wanted)) => word_fault(alloc, script, &words, place, wanted),
        Some(LineFault::Condition(place)) => awaited_fault(alloc, over, script, &words, place),
        None => Ok(ScriptFault {
            span: words.line,
            told: Hints::new(alloc),
        }),
    }
}

// What is told of a script that is refused at a line.
fn refused_at(
    alloc: Global,
    over: &Over<'_>,
    script: &[u8],
    line: usize,
) -> Result<Report, AllocError>
    ensures { IfOk result (IsReportForScript script.now line) }
{
    let fault = fault_of_line(alloc, over, script, line)?;
    let place = word_place(script, fault.span);
    let ScriptFault { span: _, told } = fault;
    let report = report_at(alloc, script, Fault::Script(line), place, &told.lines)?;
    let Hints { lines: _, near } = told;
    Ok(report.with_near(near))
}

// What is told of a script that is too long.
fn too_long(alloc: Global, script: &[u8]) -> Result<Report, AllocError>
    ensures { IfOk result (IsReportForScript script.now 0) }
{
    let lines = b"  there may be: 1048576 bytes\n";
    report_at(alloc, script, Fault::Script(0), Place::Whole, lines)
}

// What is told of a script that is refused at a line, over a plant and the text of its chart.
fn refused_over(
    alloc: Global,
    text: &[u8],
    resource: &Resource,
    script: &[u8],
    line: usize,
) -> Result<Report, AllocError>
    ensures { IfOk result (IsReportForScript script.now line) }
{
    let opened = Opened::of(alloc, text)?;
    let chart = opened.chart(text);
    let text = opened.tree(&chart);
    let over = Over {
        resource,
        text: &text,
    };
    refused_at(alloc, &over, script, line)
}

// The same, where the line may be 0: then the script is too long.
fn refused_script(
    alloc: Global,
    text: &[u8],
    resource: &Resource,
    script: &[u8],
    line: usize,
) -> Result<Report, AllocError>
    ensures { IfOk result (IsReportForScript script.now line) }
{
    if line == 0 {
        return too_long(alloc, script);
    }
    refused_over(alloc, text, resource, script, line)
}

/// What is told of a script.
#[derive(Drop)]
pub enum ScriptTold {
    /// Its first faulty line.
    Fault(Report),
    /// It has no fault: warnings of names in it that the chart hasn't, up to a hundred, in the order of its lines.
    NoFault(Vec<Report>),
}

/// What is told of a script, over a plant and the text of its chart: its first faulty line, which is that of `read_script`; where it has no
/// fault, warnings of names that the chart hasn't, which are refused when the script is played. The one error is that memory was refused.
pub fn explain_script(
    alloc: Global,
    text: &[u8],
    plant: Plant,
    script: &[u8],
) -> Result<ScriptTold, AllocError>
    ensures { IfOk result (ExplainsScript plant script.now) }
{
    let resource = Resource::open(alloc, plant)?;
    match read_script(alloc, &resource, script) {
        Ok(_) => Ok(ScriptTold::NoFault(warnings_of(alloc, text, &resource, script)?)),
        Err(ScriptError::Memory) => Err(AllocError),
        Err(ScriptError::Faulty(line)) => {
            let report = refused_script(alloc, text, &resource, script, line)?;
            Ok(ScriptTold::Fault(report))
        },
    }
}
