//! What names stand for in the program types of a plant and in its instances (2.4.3).

ghost use Rattle.std.specs.Prelude.{◌≡◌, ◌<◌, length, slice_get, Some};
ghost use Rattle.sfc_plant.specs.declared.program_type.ProgramType.{ProgramType};
ghost use Rattle.sfc_plant.specs.InstanceSpaces.{space_of};
ghost use Rattle.sfc_plant.specs.Spaces.{space_in};

use sfc_base::ids::{ProgId, TypeId};
use sfc_plant::plant::Plant;
use sfc_program::type_scope::TypeScope;

/// What names stand for in a condition of this program type, which is one of the plant's (2.4.3). It takes no memory.
#[tactic(auto, using(crate::proofs::Scopes::steps_within))]
pub fn scope(plant: &Plant, program: TypeId) -> TypeScope<'_>
    requires { program.0 < length plant.now.types }
    ensures { (p : ProgramType) → slice_get plant.now.types program.0 ≡ Some p → result ≡ space_in plant.now.globals p }
{
    let types = plant.types();
    TypeScope::new(plant.global_table(), &types[program.0])
}

/// What names stand for in a condition of this program instance, which is one of the plant's: its steps, its locals and
/// then the globals, as in the conditions of its transitions (2.4.3, 2.6.2). It takes no memory.
pub fn scope_of(plant: &Plant, instance: ProgId) -> TypeScope<'_>
    requires { instance.0 < length plant.now.instances }
    ensures { result ≡ space_of plant.now instance }
{
    let instances = plant.instances();
    scope(plant, instances[instance.0 as usize].program)
}
