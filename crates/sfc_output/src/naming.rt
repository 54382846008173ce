//! Names of variables of the image as they were declared (2.1.2).

ghost use Rattle.std.specs.Prelude.{◌≡◌, ◌++◌, OnOk};
ghost use Rattle.sfc_plant.specs.PlantNames as naming;

use sfc_base::ids::VarId;
use sfc_page::append::append;
use sfc_plant::image_variable::ImageVariable;
use sfc_plant::names::variable_at;
use sfc_plant::plant::Plant;
use std::alloc::AllocError;

// The name of what a variable of the image is.
fn append_image_variable(
    out: &mut Vec<u8>,
    plant: &Plant,
    image_variable: Option<ImageVariable>,
) -> Result<(), AllocError>
    ensures { OnOk result (out.new.items ≡ out.old.items ++ naming.image_variable_name plant.now image_variable) }
{
    match image_variable {
        None => Ok(()),
        Some(ImageVariable::Global(id)) => append(out, variable_at(plant.globals(), id.0)),
        Some(ImageVariable::Local(p, id)) => {
            append(out, plant.instance_name(p))?;
            append(out, b".")?;
            append(out, variable_at(plant.locals(p), id.0))
        }
    }
}

/// Puts the name of a variable of the image at the end: that of a global variable, or INST.NAME. The one error is
/// that memory was refused; then a front of it may stand there.
pub fn append_image_name(out: &mut Vec<u8>, plant: &Plant, id: VarId) -> Result<(), AllocError>
    ensures { OnOk result (out.new.items ≡ out.old.items ++ naming.image_name plant.now id) }
{
    append_image_variable(out, plant, plant.image_variable(id))
}
