//! What is shown of a running chart where it changes.

ghost use Rattle.std.specs.Prelude.{◌≡◌, ◌<◌, ◌++◌, IfOk, OnOk, length};
ghost use Rattle.sfc_events.specs.History.{History};
ghost use Rattle.sfc_output.specs.sfc_core.Agreement.{plant_of};
ghost use Rattle.sfc_output.specs.sfc_core.PlantState.{state_of};
ghost use Rattle.sfc_page.specs.Values.{value_text};
ghost use Rattle.sfc_panel.specs.Changes as changes;
ghost use Rattle.sfc_panel.specs.Changes.{Stands};
ghost use Rattle.sfc_plant.specs.PlantNames.{image_name};

use crate::alike::stands_as;
use crate::sfc_core::resource::Resource;
use crate::sfc_instance::scan_end::ScanEnd;
use sfc_base::ids::{ProgId, VarId};
use sfc_base::value::Value;
use sfc_events::command::Answer;
use sfc_output::naming::append_image_name;
use sfc_output::program::append_program;
use sfc_page::append::{append, append_value};
use sfc_plant::plant::Plant;
use std::alloc::{AllocError, Global};

/// What is shown.
pub struct Panel {
    /// Whether lines of programs are.
    pub programs: bool,
    /// The variables that are, in this order.
    pub variables: Vec<VarId>,
}

// By hand, so that a caller that drops one proves one call.
impl Drop for Panel {
    fn drop(self) {
        let Panel {
            programs: _,
            variables: _,
        } = self;
    }
}

/// A resource before a command, and one behind it. They are to be of one plant; of others nothing is said.
#[derive(Clone, Copy)]
pub struct Passed<'a> {
    pub before: &'a Resource,
    pub behind: &'a Resource,
}

// How a scan of a program ended that is shown; None where it isn't: where the answer tells of no scan of it, where it stands as before, and
// where it was passed over.
fn shown_end(passed: Passed<'_>, answer: &Answer, program: ProgId) -> Option<ScanEnd>
    requires known { program.0 < length (plant_of passed.before.now).instances }
    requires found { program.0 < length (plant_of passed.behind.now).instances }
    ensures { (h g : History) → Stands passed.entry h g →
        result ≡ changes.shown_end (plant_of passed.entry.before.now) (state_of (plant_of passed.entry.before.now) h)
        (state_of (plant_of passed.entry.before.now) g) answer.now program.0 }
{
    let Answer::Scanned { ran, faulted, .. } = answer else {
        return None;
    };
    if ran.contains(program) {
        let before = passed.before.program(program);
        let behind = passed.behind.program(program);
        return if stands_as(&before, &behind) {
            None
        } else {
            Some(ScanEnd::Ran)
        };
    }
    if faulted.contains(program) {
        Some(ScanEnd::Faulted)
    } else {
        None
    }
}

// The line of a program, where it is shown.
fn append_changed(
    out: &mut Vec<u8>,
    passed: Passed<'_>,
    answer: &Answer,
    program: ProgId,
) -> Result<(), AllocError>
    requires known { program.0 < length (plant_of passed.before.now).instances }
    requires found { program.0 < length (plant_of passed.behind.now).instances }
    ensures { (h g : History) → Stands passed.entry h g →
        OnOk result (out.new.items ≡ out.old.items ++ changes.program_change (plant_of passed.entry.before.now)
        (state_of (plant_of passed.entry.before.now) h) (state_of (plant_of passed.entry.before.now) g) answer.now program.0) }
{
    match shown_end(passed, answer, program) {
        Some(scan_end) => append_program(out, &passed.behind.program(program), scan_end),
        None => Ok(()),
    }
}

// The lines of the programs that are shown.
fn append_programs(out: &mut Vec<u8>, passed: Passed<'_>, answer: &Answer) -> Result<(), AllocError>
    ensures { (h g : History) → Stands passed.entry h g →
        OnOk result (out.new.items ≡ out.old.items ++ changes.program_changes (plant_of passed.entry.before.now)
        (state_of (plant_of passed.entry.before.now) h) (state_of (plant_of passed.entry.before.now) g) answer.now
        (length (plant_of passed.entry.before.now).instances)) }
{
    let count = passed.before.plant().instances().len();
    if passed.behind.plant().instances().len() != count {
        return Ok(());
    }
    for k in 0..count {
        append_changed(out, passed, answer, ProgId(k as u8))?;
    }
    Ok(())
}

// The same, where programs are shown.
fn append_shown(
    out: &mut Vec<u8>,
    are_shown: bool,
    passed: Passed<'_>,
    answer: &Answer,
) -> Result<(), AllocError>
    ensures { (h g : History) → Stands passed.entry h g →
        OnOk result (out.new.items ≡ out.old.items ++ changes.programs_shown are_shown (plant_of passed.entry.before.now)
        (state_of (plant_of passed.entry.before.now) h) (state_of (plant_of passed.entry.before.now) g) answer.now) }
{
    if are_shown {
        append_programs(out, passed, answer)
    } else {
        Ok(())
    }
}

// A value as it is written.
fn text_of(alloc: Global, value: Value) -> Result<Vec<u8>, AllocError>
    ensures { IfOk result (λ text. text.items ≡ value_text value) }
{
    let mut text = Vec::new(alloc);
    append_value(&mut text, value)?;
    Ok(text)
}

// The line of a variable, where what it reads is written otherwise than before.
fn append_reading(
    out: &mut Vec<u8>,
    plant: &Plant,
    id: VarId,
    before: &[u8],
    behind: &[u8],
) -> Result<(), AllocError>
    ensures { OnOk result (out.new.items ≡ out.old.items ++ changes.value_change (image_name plant.now id) before.now behind.now) }
{
    if before == behind {
        return Ok(());
    }
    append_image_name(out, plant, id)?;
    append(out, b" ")?;
    append(out, behind)?;
    append(out, b"\n")
}

// The line of a variable, where it is shown.
fn append_variable(
    alloc: Global,
    out: &mut Vec<u8>,
    passed: Passed<'_>,
    id: VarId,
) -> Result<(), AllocError>
    ensures { (h g : History) → Stands passed.entry h g →
        OnOk result (out.new.items ≡ out.old.items ++ changes.variable_change (plant_of passed.entry.before.now)
        (state_of (plant_of passed.entry.before.now) h) (state_of (plant_of passed.entry.before.now) g) id) }
{
    let place = usize::from(id.0);
    if passed.before.variables() <= place || passed.behind.variables() <= place {
        return Ok(());
    }
    let before = text_of(alloc, passed.before.value(id))?;
    let behind = text_of(alloc, passed.behind.value(id))?;
    append_reading(out, passed.before.plant(), id, &before, &behind)
}

// The lines of the variables that are shown.
fn append_variables(
    alloc: Global,
    out: &mut Vec<u8>,
    passed: Passed<'_>,
    variables: &[VarId],
) -> Result<(), AllocError>
    ensures { (h g : History) → Stands passed.entry h g →
        OnOk result (out.new.items ≡ out.old.items ++ changes.variable_changes (plant_of passed.entry.before.now)
        (state_of (plant_of passed.entry.before.now) h) (state_of (plant_of passed.entry.before.now) g) variables.now) }
{
    let mut rest = variables;
    'all: while let Some((id, behind)) = rest.split_first() {
        append_variable(alloc, out, passed, *id)?;
        rest = behind;
    }
    Ok(())
}

impl Panel {
    /// Puts at the end what is shown of a command that was answered so, between these two resources: a line for each program whose scan ran
    /// and that stands otherwise than before it, in its active steps, the transitions that the scan cleared or the actions that it executed,
    /// and for each whose scan ended with a fault, as a replay writes it; and a line for each of the variables that reads another value
    /// than before. It is said where both are of one plant. The one error is that memory was refused; then a front of them may stand there.
    pub fn append_changes(
        &self,
        alloc: Global,
        out: &mut Vec<u8>,
        passed: Passed<'_>,
        answer: &Answer,
    ) -> Result<(), AllocError>
        ensures { (h g : History) → Stands passed.entry h g →
            OnOk result (out.new.items ≡ out.old.items ++ changes.changes self.now (plant_of passed.entry.before.now)
            (state_of (plant_of passed.entry.before.now) h) (state_of (plant_of passed.entry.before.now) g) answer.now) }
    {
        append_shown(out, self.programs, passed, answer)?;
        append_variables(alloc, out, passed, &self.variables)
    }
}
