//! A plant: one configuration with its program types.

use crate::image::{local_at, locals_of};
use crate::image_variable::ImageVariable;
use crate::instance::Instance;
use crate::names::{Names, instance_name, task_name};
use crate::parts::Parts;
use crate::program_type::ProgramType;
use crate::task::Task;
use crate::titles::Titles;
use crate::variable::Variable;
use crate::variable_table::VariableTable;
use sfc_base::ids::{ProgId, TaskId, TransitionId, TypeId, VarId};
use sfc_base::name::Name;
use sfc_base::references::{GlobalId, StepId};
use std::marker::Model;

/// A configuration with its one resource (2.7.1), and the program types of its instances. Contracts see all that its text
/// says, as a record.
pub struct Plant {
    titles: Titles,
    parts: Parts,
}

// By hand, so that a caller that drops one proves one call.
impl Drop for Plant {
    fn drop(self) {
        let Plant {
            titles: _,
            parts: _,
        } = self;
    }
}

impl Model for Plant {
    ghost use Rattle.sfc_plant.specs.Plants.{PlantData};

    ghost Value = { PlantData };

    ghost use Rattle.std.specs.Coded.{codes};
    ghost use Rattle.sfc_plant.specs.contracts.program_type.ProgramType as program_type;

    ghost coded = { Prim.hlevel (codes, program_type.the_row.coded) };

    ghost use Rattle.sfc_plant.specs.Private.PlantView.{plant_data, IsWhole};

    ghost view = { plant_data };

    ghost invariant = { IsWhole };
}

ghost use Rattle.std.specs.Prelude.{◌≡◌, ◌<◌, length, option_map, slice_get, IfSome};
ghost use Rattle.sfc_plant.specs.Image.{image_numbering, image_variables};
ghost use Rattle.sfc_plant.specs.InstanceSpaces.{space_of};
ghost use Rattle.sfc_plant.specs.PlantNames as names;
ghost use Rattle.sfc_plant.specs.ProgramTypes.{type_of};
ghost use Rattle.sfc_plant.specs.Sound.{IsPlant, IsProgram};
ghost use Rattle.sfc_plant.specs.PlantParts.{plant_under, AreNamed};
ghost use Rattle.sfc_plant.specs.Finding.{instance_locals, global_named, local_named, variable_named, task_named, instance_named};
ghost use Rattle.sfc_plant.specs.Finding.{type_named, step_named, transition_named, first_dot};

// The variable at this place, if there is one.
fn at(variables: &[Variable], place: usize) -> Option<&Variable>
    ensures { option_map (λ variable. variable.now) result ≡ slice_get variables.now place }
{
    variables.get(place)
}

// Where the first dot stands, if there is one.
fn find_dot(word: &[u8]) -> Option<usize>
    ensures place { result ≡ first_dot word.now }
    ensures within { IfSome result (λ dot. dot < length word.now) }
{
    word.iter().position(|byte| *byte == b'.')
}

impl Plant {
    /// The plant with these names and parts.
    pub fn new(titles: Titles, parts: Parts) -> Plant
        requires sound { IsPlant (plant_under titles parts) }
        requires named { AreNamed parts }
        ensures { result ≡ plant_under titles parts }
    {
        Plant { titles, parts }
    }

    /// The name of the configuration, as it was written.
    pub fn configuration(&self) -> &Name
        ensures { result.now ≡ self.now.configuration }
    {
        &self.titles.configuration
    }

    /// The name of the resource, as it was written.
    pub fn resource(&self) -> &Name
        ensures { result.now ≡ self.now.resource }
    {
        &self.titles.resource
    }

    /// The name of the processor that the resource runs on, as it was written.
    pub fn processor(&self) -> &Name
        ensures { result.now ≡ self.now.processor }
    {
        &self.titles.processor
    }

    /// The global variables: those of the configuration, and then those of its resource.
    pub fn globals(&self) -> &[Variable]
        ensures value { result.now ≡ self.now.globals }
        ensures sound { IsPlant self.now }
    {
        self.parts.declared.globals.as_slice()
    }

    /// The global variables, which are found by name.
    pub fn global_table(&self) -> &VariableTable
        ensures { result.now ≡ self.now.globals }
    {
        &self.parts.declared.globals
    }

    /// The tasks, in text order.
    pub fn tasks(&self) -> &[Task]
        ensures value { result.now ≡ self.now.tasks }
        ensures sound { IsPlant self.now }
    {
        self.parts.declared.tasks.as_slice()
    }

    /// The program types, in text order.
    pub fn types(&self) -> &[ProgramType]
        ensures value { result.now ≡ self.now.types }
        ensures sound { IsPlant self.now }
    {
        self.parts.declared.types.as_slice()
    }

    /// The program instances, in text order.
    pub fn instances(&self) -> &[Instance]
        ensures value { result.now ≡ self.now.instances }
        ensures sound { IsPlant self.now }
    {
        self.parts.instances.as_slice()
    }

    /// The global variable with this name; case is not significant. It takes no memory.
    pub fn find_global(&self, name: &[u8]) -> Option<VarId>
        ensures { result ≡ global_named self.now name.now }
    {
        let place = self.parts.declared.globals.find(name)?;
        Some(VarId(place as u16))
    }

    /// The local variable of this instance with this name; case is not significant. The instance is one of the plant's.
    /// It takes no memory.
    pub fn find_local(&self, instance: ProgId, name: &[u8]) -> Option<VarId>
        requires { instance.0 < length self.now.instances }
        ensures { result ≡ local_named self.now instance name.now }
    {
        let index = instance.0 as usize;
        let program = self.parts.instances.as_slice()[index].program.0;
        let place = self.parts.declared.types.as_slice()[program]
            .locals
            .find(name)?;
        let first = self.parts.starts.as_slice()[index];
        Some(VarId((first + place) as u16))
    }

    /// The variable of the image with this name, `NAME` for a global and `INST.NAME` for a local one of a program
    /// instance; case is not significant. It takes no memory.
    pub fn find_variable(&self, name: &[u8]) -> Option<VarId>
        ensures { result ≡ variable_named self.now name.now }
    {
        let Some(dot) = find_dot(name) else {
            return self.find_global(name);
        };
        let instance = self.find_instance(&name[..dot])?;
        self.find_local(instance, &name[dot + 1..])
    }

    /// What the variable of the image with this number is: the globals go first, and then the locals of each instance,
    /// in text order; `None` past the last. It takes no memory.
    #[tactic(auto, using(crate::proofs::Images::global_here, crate::proofs::Images::behind_globals))]
    pub fn image_variable(&self, id: VarId) -> Option<ImageVariable>
        ensures { result ≡ slice_get (image_numbering self.now) id.0 }
    {
        let place = id.0 as usize;
        let globals = self.parts.declared.globals.as_slice().len();
        if place < globals {
            return Some(ImageVariable::Global(GlobalId(place)));
        }
        local_at(
            self.parts.declared.types.as_slice(),
            self.parts.instances.as_slice(),
            place - globals,
        )
    }

    /// The locals of this program instance, in declared order; none where there is no such instance. It takes no memory.
    pub fn locals(&self, instance: ProgId) -> &[Variable]
        ensures { result.now ≡ instance_locals self.now instance }
    {
        match self.instances().get(instance.0 as usize) {
            None => &[],
            Some(instance) => locals_of(self.types(), instance),
        }
    }

    /// The variable of the image with this number: the globals go first, and then the locals of each instance, in text
    /// order; `None` past the last. It takes no memory.
    pub fn variable(&self, id: VarId) -> Option<&Variable>
        ensures { option_map (λ variable. variable.now) result ≡ slice_get (image_variables self.now) id.0 }
    {
        match self.image_variable(id) {
            Some(ImageVariable::Global(global)) => at(self.globals(), global.0),
            Some(ImageVariable::Local(instance, local)) => at(self.locals(instance), local.0),
            None => None,
        }
    }

    /// The task with this name; case is not significant. It takes no memory.
    pub fn find_task(&self, name: &[u8]) -> Option<TaskId>
        ensures { result ≡ task_named self.now name.now }
    {
        let place = self.parts.declared.task_names.find(name)?;
        Some(TaskId(place as u8))
    }

    /// The program instance with this name; case is not significant. It takes no memory.
    pub fn find_instance(&self, name: &[u8]) -> Option<ProgId>
        ensures { result ≡ instance_named self.now name.now }
    {
        let place = self.parts.instance_names.find(name)?;
        Some(ProgId(place as u8))
    }

    /// The program type with this name; case is not significant. It takes no memory.
    pub fn find_type(&self, name: &[u8]) -> Option<TypeId>
        ensures { result ≡ type_named self.now name.now }
    {
        let place = self.parts.declared.type_names.find(name)?;
        Some(TypeId(place))
    }

    /// The program type of this program instance; `None` where there is no such instance. It takes no memory.
    pub fn type_of(&self, instance: ProgId) -> Option<&ProgramType>
        ensures value { option_map (λ program. program.now) result ≡ type_of self.now instance }
        ensures sound { IfSome result (λ program. IsProgram (length self.now.globals) program.now) }
    {
        let instance = self.instances().get(instance.0 as usize)?;
        self.types().get(instance.program.0)
    }

    /// The names in the program type of this program instance, with those of the global variables; no name at all where
    /// there is no such instance. It takes no memory.
    pub fn names(&self, instance: ProgId) -> Names<'_>
        ensures { result ≡ space_of self.now instance }
    {
        match self.type_of(instance) {
            Some(program) => Names::new(self.globals(), program),
            None => Names::none(),
        }
    }

    /// The step with this name in the chart of this program instance; case is not significant (2.1.2, 2.6.2). It takes
    /// no memory.
    #[tactic(auto, using(crate::proofs::Elements::step_within))]
    pub fn find_step(&self, instance: ProgId, name: &[u8]) -> Option<StepId>
        ensures { result ≡ step_named self.now instance name.now }
    {
        let place = self.type_of(instance)?.find_step(name)?;
        Some(StepId(place as u16))
    }

    /// The transition with this name in the chart of this program instance; case is not significant (2.1.2, 2.6.3). It
    /// takes no memory.
    #[tactic(auto, using(crate::proofs::Elements::transition_within))]
    pub fn find_transition(&self, instance: ProgId, name: &[u8]) -> Option<TransitionId>
        ensures { result ≡ transition_named self.now instance name.now }
    {
        let place = self.type_of(instance)?.find_transition(name)?;
        Some(TransitionId(place as u16))
    }

    /// The name of this task as it was declared; nothing where there is no such task.
    pub fn task_name(&self, task: TaskId) -> &[u8]
        ensures { result.now ≡ names.task_name self.now task }
    {
        task_name(self.tasks(), task.0 as usize)
    }

    /// The name of this program instance as it was declared; nothing where there is no such instance.
    pub fn instance_name(&self, instance: ProgId) -> &[u8]
        ensures { result.now ≡ names.instance_name self.now instance }
    {
        instance_name(self.instances(), instance.0 as usize)
    }
}
