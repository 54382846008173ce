//! A resource on a bench: each call of the core behind one that needs no condition, and all that it shows.

ghost use Rattle.std.specs.Prelude.{◌<◌, length};
ghost use Rattle.sfc_script.specs.sfc_instance.Views.{tables_in};

use crate::sfc_core::opening::Opening;
use crate::sfc_core::resource::Resource;
use crate::sfc_instance::program_view::ProgramView;
use samples::loaded::plant_of;
use sfc_base::ids::{ActionNumber, ProgId, TaskId, TransitionId, VarId};
use sfc_base::references::{StepId, Variable};
use sfc_base::ticks::Ticks;
use sfc_base::value::Value;
use sfc_events::event::{Event, Outcome};
use sfc_events::refusal::Refusal;
use sfc_plant::association::Target;
use std::alloc::{AllocError, Global};
use std::test::Fail;

/// A resource of a chart.
#[derive(Drop)]
pub struct Bench {
    resource: Resource,
}

// Whether a step is active, whether the latest scan activated it, and its time.
fn step_at(view: &ProgramView<'_>, step: StepId) -> (bool, bool, i64)
    requires { step.0 < length (tables_in view.now).initial }
{
    (view.active(step), view.activated(step), view.elapsed(step))
}

// The active steps, those that the latest scan activated, and the times of all.
fn steps_text(alloc: Global, view: &ProgramView<'_>) -> Result<String, AllocError> {
    let mut active = Vec::new(alloc);
    let mut activated = Vec::new(alloc);
    let mut elapsed = Vec::new(alloc);
    for number in 0..view.tables().steps() {
        let (is_active, is_activated, time) = step_at(view, StepId(number as u16));
        if is_active {
            active.push(number)?;
        }
        if is_activated {
            activated.push(number)?;
        }
        elapsed.push(time)?;
    }
    format!(in alloc; "active {active:?} activated {activated:?} elapsed {elapsed:?}")
}

// Whether the latest scan cleared the transition.
fn is_cleared(view: &ProgramView<'_>, transition: TransitionId) -> bool
    requires { transition.0 < length (tables_in view.now).sides }
{
    view.cleared(transition)
}

// The transitions that the latest scan cleared.
fn transitions_text(alloc: Global, view: &ProgramView<'_>) -> Result<String, AllocError> {
    let mut cleared = Vec::new(alloc);
    for number in 0..view.tables().transitions() {
        if is_cleared(view, TransitionId(number as u16)) {
            cleared.push(number)?;
        }
    }
    format!(in alloc; "cleared {cleared:?}")
}

// The number of the variable of a Boolean action; none of the other actions.
fn variable_of(target: Target) -> Option<usize> {
    match target {
        Target::Boolean(Variable::Global(id)) => Some(id.0),
        _ => None,
    }
}

// Of an action its variable, whether its Q is 1, and whether the latest scan executed it.
fn action_at(view: &ProgramView<'_>, number: usize) -> (Option<usize>, bool, bool)
    requires { number < length (tables_in view.now).actions }
{
    let action = ActionNumber(number);
    (
        variable_of(view.tables().target(action)),
        view.q(action),
        view.executed(action),
    )
}

// The variables of the actions whose Q is 1, and of those that the latest scan executed.
fn actions_text(alloc: Global, view: &ProgramView<'_>) -> Result<String, AllocError> {
    let mut q = Vec::new(alloc);
    let mut executed = Vec::new(alloc);
    for number in 0..view.tables().actions() {
        let (variable, has_q, is_executed) = action_at(view, number);
        if let Some(id) = variable {
            if has_q {
                q.push(id)?;
            }
            if is_executed {
                executed.push(id)?;
            }
        }
    }
    format!(in alloc; "q {q:?} executed {executed:?}")
}

// The scans of a program, its steps, transitions and actions.
fn program_text(alloc: Global, view: &ProgramView<'_>) -> Result<String, AllocError> {
    let scans = view.scans();
    let steps = steps_text(alloc, view)?;
    let transitions = transitions_text(alloc, view)?;
    let actions = actions_text(alloc, view)?;
    format!(in alloc; "{scans} {steps} {transitions} {actions}")
}

impl Bench {
    /// A resource of the chart that has seen no event.
    pub fn open(alloc: Global, text: &[u8]) -> Result<Bench, Fail> {
        let plant = plant_of(alloc, text)?;
        let resource = Resource::open(alloc, plant)?;
        Ok(Bench { resource })
    }

    /// One event.
    pub fn apply(&mut self, event: Event, t: i64) -> Result<Outcome, Refusal> {
        let mut ticks = Ticks::new();
        self.resource.apply(event, t, &mut ticks)
    }

    /// The events in turn; how many were accepted.
    pub fn run(&mut self, events: &[(Event, i64)]) -> u64 {
        self.resource.run(events)
    }

    /// The resource is saved, told these events, and restored.
    pub fn interrupt(&mut self, alloc: Global, events: &[(Event, i64)]) -> Result<(), Fail> {
        let mut opening = Opening::new(alloc, self.resource.plant())?;
        self.resource.save(&mut opening);
        self.resource.run(events);
        self.resource.restore(&opening);
        Ok(())
    }

    /// The resource is as one that was opened anew.
    pub fn begin_anew(&mut self, alloc: Global) -> Result<(), Fail> {
        let opening = Opening::new(alloc, self.resource.plant())?;
        self.resource.restore(&opening);
        Ok(())
    }

    // Which of the first five variables are TRUE.
    fn values_text(&self, alloc: Global) -> Result<String, AllocError> {
        let mut values = Vec::new(alloc);
        let count = self.resource.variables();
        for id in 0..5u16 {
            if (id as usize) < count && self.resource.value(VarId(id)) == Value::Bool(true) {
                values.push(id)?;
            }
        }
        format!(in alloc; "true {values:?}")
    }

    // What the first program shows, and the overruns of the first task.
    fn first_text(&self, alloc: Global) -> Result<Option<(String, u64)>, AllocError> {
        let plant = self.resource.plant();
        if plant.tasks().is_empty() || plant.instances().is_empty() {
            return Ok(None);
        }
        let text = program_text(alloc, &self.resource.program(ProgId(0)))?;
        Ok(Some((text, self.resource.overruns(TaskId(0)))))
    }

    /// The scans of the program, its steps, transitions and actions, which of the first five variables are TRUE, and
    /// the overruns of the task.
    pub fn shown(&self, alloc: Global) -> Result<String, Fail> {
        let (program, overruns) = self.first_text(alloc)?.ok_or("no program")?;
        let values = self.values_text(alloc)?;
        Ok(format!(in alloc; "{program} {values} overruns {overruns}")?)
    }

    // What the program instance of this number shows.
    fn instance_text(&self, alloc: Global, number: usize) -> Result<String, AllocError> {
        if number >= self.resource.plant().instances().len() {
            return Ok(String::new(alloc));
        }
        program_text(alloc, &self.resource.program(ProgId(number as u8)))
    }

    // What each variable reads, and to which value it is forced.
    fn image_text(&self, alloc: Global) -> Result<String, AllocError> {
        let mut values = Vec::new(alloc);
        for number in 0..self.resource.variables() {
            let id = VarId(number as u16);
            values.push((self.resource.value(id), self.resource.forced(id)))?;
        }
        format!(in alloc; "{values:?}")
    }

    // The overruns of each task.
    fn overruns_text(&self, alloc: Global) -> Result<String, AllocError> {
        let mut overruns = Vec::new(alloc);
        for number in 0..self.resource.plant().tasks().len() {
            overruns.push(self.resource.overruns(TaskId(number as u8)))?;
        }
        format!(in alloc; "{overruns:?}")
    }

    /// All that a resource of two instances shows.
    pub fn all_shown(&self, alloc: Global) -> Result<String, AllocError> {
        let first = self.instance_text(alloc, 0)?;
        let second = self.instance_text(alloc, 1)?;
        let image = self.image_text(alloc)?;
        let overruns = self.overruns_text(alloc)?;
        format!(in alloc; "{first}; {second}; {image}; {overruns}")
    }
}
