//! The variables of a plant: the globals, and then the locals of each instance (2.4.3, 2.7.1).

ghost use Rattle.std.specs.Prelude.{◌≡◌, ◌≤◌, length, slice_get};
ghost use Rattle.sfc_plant.specs.Image as image;

use crate::image_variable::ImageVariable;
use crate::instance::Instance;
use crate::program_type::ProgramType;
use crate::variable::Variable;
use sfc_base::ids::ProgId;
use sfc_base::limits::INSTANCES;
use sfc_base::references::LocalId;

/// The locals of an instance.
pub fn locals_of<'a>(types: &'a [ProgramType], instance: &Instance) -> &'a [Variable]
    ensures { result.now ≡ image.locals_of types.now instance.now }
{
    match types.get(instance.program.0) {
        Some(program) => program.locals.as_slice(),
        None => &[],
    }
}

/// What the local variable at this place is, where the locals of all instances stand in a row.
#[tactic(auto, using(crate::proofs::Images::here, crate::proofs::Images::later))]
pub fn local_at(
    types: &[ProgramType],
    instances: &[Instance],
    place: usize,
) -> Option<ImageVariable>
    requires few { length instances.now ≤ INSTANCES }
    ensures { result ≡ slice_get (image.locals_from types.now 0 instances.now) place }
{
    let mut left = place;
    let mut number: u8 = 0;
    let mut rest = instances;
    'instances: while let Some((instance, after)) = rest.split_first() {
        let count = locals_of(types, instance).len();
        if left < count {
            return Some(ImageVariable::Local(ProgId(number), LocalId(left)));
        }
        left -= count;
        number += 1;
        rest = after;
    }
    None
}
