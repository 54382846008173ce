//! The lines of the image.

ghost use Rattle.std.specs.Prelude.{◌≡◌, ◌<◌, ◌++◌, OnOk};
ghost use Rattle.sfc_debug.specs.sfc_image.Values.{variable_count};
ghost use Rattle.sfc_events.specs.History.{History};
ghost use Rattle.sfc_debug.specs.sfc_core.Agreement as core;
ghost use Rattle.sfc_debug.specs.sfc_core.PlantState.{state_of};
ghost use Rattle.sfc_output.specs.ImageLines as output;

use crate::naming::append_image_name;
use crate::sfc_core::resource::Resource;
use sfc_base::ids::VarId;
use sfc_base::value::Value;
use sfc_page::append::{append, append_value};
use sfc_plant::plant::Plant;
use std::alloc::AllocError;

// Whether a variable is forced.
fn append_forced(out: &mut Vec<u8>, forced: Option<Value>) -> Result<(), AllocError>
    ensures { OnOk result (out.new.items ≡ out.old.items ++ output.forced_text forced) }
{
    match forced {
        Some(_) => append(out, b" forced"),
        None => Ok(()),
    }
}

/// Puts the line of a variable of the image at the end: its name, what it reads, and whether it is forced. The one error
/// is that memory was refused; then a front of it may stand there.
#[tactic(auto, unfolding(crate::specs::ImageLines::image_line))]
pub fn append_variable(
    out: &mut Vec<u8>,
    plant: &Plant,
    id: VarId,
    read: (Value, Option<Value>),
) -> Result<(), AllocError>
    ensures { OnOk result (out.new.items ≡ out.old.items ++ output.image_line plant.now id read.0 read.1) }
{
    let (value, forced) = read;
    append(out, b"image ")?;
    append_image_name(out, plant, id)?;
    append(out, b" ")?;
    append_value(out, value)?;
    append_forced(out, forced)?;
    append(out, b"\n")
}

// The line of the variable with this number.
fn append_numbered(out: &mut Vec<u8>, resource: &Resource, id: VarId) -> Result<(), AllocError>
    requires { id.0 < variable_count (core.plant_of resource.now) }
    ensures { (h : History) → core.Agrees resource.now h → OnOk result (out.new.items ≡
        out.old.items ++ output.variable_line (core.plant_of resource.now) (state_of (core.plant_of resource.now) h) id.0) }
{
    let read = (resource.value(id), resource.forced(id));
    append_variable(out, resource.plant(), id, read)
}

/// Puts a line for each variable at the end, in the order of the image: its name, what it reads, and whether it is forced. The one error
/// is that memory was refused; then a front of them may stand there.
pub fn append_image(out: &mut Vec<u8>, resource: &Resource) -> Result<(), AllocError>
    ensures { (h : History) → core.Agrees resource.now h → OnOk result (out.new.items ≡
        out.old.items ++ output.image_lines (core.plant_of resource.now) (state_of (core.plant_of resource.now) h)) }
{
    for v in 0..resource.variables() {
        append_numbered(out, resource, VarId(v as u16))?;
    }
    Ok(())
}
