//! Names as they were declared (2.1.2), of what stands in a plant as a number.

ghost use Rattle.std.specs.Prelude.{◌≡◌};
ghost use Rattle.sfc_plant.specs.InstanceSpaces.{no_space};
ghost use Rattle.sfc_plant.specs.Spaces.{space_in};
ghost use Rattle.sfc_plant.specs.VariableNames.{names_of};
ghost use Rattle.sfc_plant.specs.Names as names;

use crate::action::Action;
use crate::association::Target;
use crate::chart::Step;
use crate::instance::Instance;
use crate::program_type::ProgramType;
use crate::task::Task;
use crate::variable::Variable as Declared;
use sfc_base::ids::ActionId;
use sfc_base::references::{StepId, Variable};
use std::marker::Model;

/// The name of the variable at this place; nothing where there is none.
#[tactic(auto, using(crate::proofs::NamesAt::named_there, crate::proofs::NamesAt::none_there))]
pub fn variable_at(variables: &[Declared], place: usize) -> &[u8]
    ensures { result.now ≡ names.name_at (names_of variables.now) place }
{
    match variables.get(place) {
        Some(variable) => variable.name.spelling(),
        None => b"",
    }
}

/// The name of the task with this number; nothing where there is none.
#[tactic(auto, using(crate::proofs::NamesAt::task_there, crate::proofs::NamesAt::no_task_there))]
pub fn task_name(tasks: &[Task], place: usize) -> &[u8]
    ensures { result.now ≡ names.task_name tasks.now place }
{
    match tasks.get(place) {
        Some(task) => task.name.spelling(),
        None => b"",
    }
}

/// The name of the program instance with this number; nothing where there is none.
#[tactic(auto, using(crate::proofs::NamesAt::instance_there, crate::proofs::NamesAt::no_instance_there))]
pub fn instance_name(instances: &[Instance], place: usize) -> &[u8]
    ensures { result.now ≡ names.instance_name instances.now place }
{
    match instances.get(place) {
        Some(instance) => instance.name.spelling(),
        None => b"",
    }
}

/// The name of the program type with this number; nothing where there is none.
#[tactic(auto, using(crate::proofs::NamesAt::type_there, crate::proofs::NamesAt::no_type_there))]
pub fn type_name(types: &[ProgramType], place: usize) -> &[u8]
    ensures { result.now ≡ names.type_name types.now place }
{
    match types.get(place) {
        Some(program) => program.name.spelling(),
        None => b"",
    }
}

/// The names of a program type among the global variables of its plant.
#[derive(Drop)]
pub struct Names<'a> {
    globals: &'a [Declared],
    locals: &'a [Declared],
    steps: &'a [Step],
    actions: &'a [Action],
}

impl<'a> Model for Names<'a> {
    ghost use Rattle.std.specs.Prelude.{map};
    ghost use Rattle.sfc_plant.specs.Spaces.{Space};

    ghost Value = { Space };

    ghost view = { λ names. record {
      globals = names.globals.now;
      locals = names.locals.now;
      steps = map (λ step. step.name) names.steps.now;
      actions = map (λ action. action.name) names.actions.now;
    } };
}

impl<'a> Names<'a> {
    /// The program type among these global variables.
    pub fn new(globals: &'a [Declared], program: &'a ProgramType) -> Names<'a>
        ensures { result ≡ space_in globals.now program.now }
    {
        Names {
            globals,
            locals: program.locals.as_slice(),
            steps: program.chart.steps.as_slice(),
            actions: program.chart.actions.as_slice(),
        }
    }

    // No names at all.
    pub(crate) fn none() -> Names<'a>
        ensures { result ≡ no_space }
    {
        Names {
            globals: &[],
            locals: &[],
            steps: &[],
            actions: &[],
        }
    }

    /// The global variables.
    pub fn globals(&self) -> &[Declared]
        ensures { result.now ≡ self.now.globals }
    {
        self.globals
    }

    /// The name of a variable.
    pub fn variable(&self, variable: Variable) -> &[u8]
        ensures { result.now ≡ names.variable_name self.now variable }
    {
        match variable {
            Variable::Global(id) => variable_at(self.globals, id.0),
            Variable::Local(id) => variable_at(self.locals, id.0),
        }
    }

    /// The name of a step.
    #[tactic(auto, using(crate::proofs::NamesAt::step_there, crate::proofs::NamesAt::no_step_there))]
    pub fn step(&self, step: StepId) -> &[u8]
        ensures { result.now ≡ names.step_name self.now step }
    {
        match self.steps.get(step.0 as usize) {
            Some(step) => step.name.spelling(),
            None => b"",
        }
    }

    /// The name of a declared action.
    #[tactic(auto, using(crate::proofs::NamesAt::action_there, crate::proofs::NamesAt::no_action_there))]
    pub fn action(&self, action: ActionId) -> &[u8]
        ensures { result.now ≡ names.action_name self.now action }
    {
        match self.actions.get(action.0) {
            Some(action) => action.name.spelling(),
            None => b"",
        }
    }

    /// The name of what an association acts on: that of a declared action, or of the variable that is a Boolean one
    /// (2.6.4.1).
    pub fn target(&self, target: Target) -> &[u8]
        ensures { result.now ≡ names.target_name self.now target }
    {
        match target {
            Target::Declared(action) => self.action(action),
            Target::Boolean(variable) => self.variable(variable),
        }
    }
}
