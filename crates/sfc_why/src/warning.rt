//! Warnings of names in a script that the chart hasn't.

ghost use Rattle.std.specs.Prelude.{IfOk, All};
ghost use Rattle.sfc_why.specs.Telling.{IsWarningOf};

use crate::naming::{Missing, Sought, missing_name};
use crate::over::{Opened, Over};
use crate::place::word_place;
use crate::report::{Fault, Report, report_at};
use crate::sfc_core::resource::Resource;
use crate::sfc_places::declared::Declared;
use crate::sfc_places::spaces::{
    actions_of, globals_of, instances_of, steps_of, tasks_of, transitions_of, variables_of,
};
use crate::sfc_places::span::Span;
use crate::sfc_places::tree_text::TreeText;
use sfc_base::ids::ProgId;
use sfc_hints::hints::Hints;
use sfc_hints::notes::add_nearest;
use sfc_script::split::next_line;
use std::alloc::{AllocError, Global};

/// The most warnings.
const MOST: usize = 100;

impl<'a> Over<'a> {
    // The names of a kind that an instance's chart has.
    fn points_of(&self, alloc: Global, sought: Sought) -> Result<Vec<Declared>, AllocError> {
        let chart = self.text.chart;
        let program = match sought {
            Sought::Step(instance) | Sought::Transition(instance) | Sought::Action(instance) => {
                self.program_of(instance)
            }
            _ => None,
        };
        let Some(program) = program else {
            return Ok(Vec::new(alloc));
        };
        match sought {
            Sought::Step(_) => steps_of(alloc, chart, program),
            Sought::Action(_) => actions_of(alloc, chart, program),
            _ => transitions_of(alloc, chart, program),
        }
    }

    // The variables of the instance that is named before the dot, or the globals.
    fn variables_of(&self, alloc: Global, instance: &[u8]) -> Result<Vec<Declared>, AllocError> {
        let TreeText { chart, source } = *self.text;
        if instance.is_empty() {
            return globals_of(alloc, chart, source);
        }
        let found = self.resource.plant().find_instance(instance);
        match found.and_then(|instance| self.program_of(instance)) {
            Some(program) => variables_of(alloc, chart, program),
            None => Ok(Vec::new(alloc)),
        }
    }

    // The names that may be meant.
    fn names(
        &self,
        alloc: Global,
        sought: Sought,
        instance: &[u8],
    ) -> Result<Vec<Declared>, AllocError> {
        let TreeText { chart, source } = *self.text;
        match sought {
            Sought::Task => tasks_of(alloc, chart, source),
            Sought::Program => instances_of(alloc, chart, source),
            Sought::Variable => self.variables_of(alloc, instance),
            Sought::Step(_) | Sought::Transition(_) | Sought::Action(_) => {
                self.points_of(alloc, sought)
            }
        }
    }
}

// The instance that stands in a word before a dot, where one does, and the name behind it.
fn parted(word: &[u8]) -> (&[u8], &[u8]) {
    for at in 0..word.len() {
        if word.get(at) == Some(&b'.') {
            let behind = at.saturating_add(1);
            return (
                word.get(..at).unwrap_or(b""),
                word.get(behind..).unwrap_or(b""),
            );
        }
    }
    (b"", word)
}

// The name that may be meant, behind its instance.
fn qualified(alloc: Global, instance: &[u8], near: Vec<u8>) -> Result<Vec<u8>, AllocError> {
    if instance.is_empty() {
        return Ok(near);
    }
    let mut name = Vec::from_slice(alloc, instance)?;
    name.extend_from_slice(b".")?;
    name.extend_from_slice(&near)?;
    Ok(name)
}

/// What is told of a word that names nothing which is sought: the names that may be meant. The one error is that memory was refused.
pub fn hints_of(
    alloc: Global,
    over: &Over<'_>,
    word: &[u8],
    sought: Sought,
) -> Result<Hints, AllocError> {
    let (instance, name) = match sought {
        Sought::Variable => parted(word),
        _ => (b"".as_slice(), word),
    };
    let names = over.names(alloc, sought, instance)?;
    let mut hints = Hints::new(alloc);
    add_nearest(alloc, &mut hints, over.text.chart, name, &names)?;
    let Hints { lines, near } = hints;
    let near = match near {
        Some(near) => Some(qualified(alloc, instance, near)?),
        None => None,
    };
    Ok(Hints { lines, near })
}

// The warning of a name of a line that begins at a place of the script.
fn warning_of(
    alloc: Global,
    over: &Over<'_>,
    script: &[u8],
    base: usize,
    missing: Missing,
) -> Result<Report, AllocError>
    ensures { IfOk result (IsWarningOf script.now) }
{
    let span = Span {
        from: base.saturating_add(missing.span.from),
        to: base.saturating_add(missing.span.to),
    };
    let word = script.get(span.from..span.to).unwrap_or(b"");
    let Hints { lines, near } = hints_of(alloc, over, word, missing.sought)?;
    let refusal = Fault::Warning(missing.sought.refusal());
    let place = word_place(script, span);
    let report = report_at(alloc, script, refusal, place, &lines)?;
    Ok(report.with_near(near))
}

// The warnings of the lines of a script.
fn warnings_over(alloc: Global, over: &Over<'_>, script: &[u8]) -> Result<Vec<Report>, AllocError>
    ensures { IfOk result (λ reports. All (IsWarningOf script.now) reports.items) }
{
    let mut reports = Vec::new(alloc);
    let mut rest = script;
    'lines: while let Some((line, after)) = next_line(rest) {
        if reports.len() >= MOST {
            break;
        }
        let base = script.len().saturating_sub(rest.len());
        if let Some(missing) = missing_name(over.resource, line) {
            reports.push(warning_of(alloc, over, script, base, missing)?)?;
        }
        rest = after;
    }
    Ok(reports)
}

/// The warnings of names in a script that the chart of this text hasn't, up to a hundred, in the order of its lines: a command with such a
/// name is refused when the script is played. The one error is that memory was refused.
pub fn warnings_of(
    alloc: Global,
    text: &[u8],
    resource: &Resource,
    script: &[u8],
) -> Result<Vec<Report>, AllocError>
    ensures { IfOk result (λ reports. All (IsWarningOf script.now) reports.items) }
{
    let opened = Opened::of(alloc, text)?;
    let chart = opened.chart(text);
    let text = opened.tree(&chart);
    let over = Over {
        resource,
        text: &text,
    };
    warnings_over(alloc, &over, script)
}
