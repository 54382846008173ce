//! The signals of a waveform, in the order in which it declares them.

use crate::sfc_core::resource::Resource;
use crate::sfc_instance::program_view::ProgramView;
use crate::signal::Signal;
use sfc_base::ids::{ActionNumber, ProgId, TaskId, VarId};
use sfc_base::references::{StepId, Variable};
use sfc_base::var_type::VarType;
use sfc_plant::image_variable::ImageVariable;
use sfc_plant::plant::Plant;
use std::alloc::{AllocError, Global};

/// Where the signals of a group begin, and with them its variables: for each a signal of its value, and one of its force.
#[derive(Clone, Copy, Debug)]
pub struct Group {
    /// The number of the first signal.
    pub signal: usize,
    /// The number of the first variable.
    pub variable: usize,
    /// How many variables there are.
    pub count: usize,
}

impl Group {
    /// The number behind the last variable.
    pub fn end(self) -> usize {
        self.variable.saturating_add(self.count)
    }

    /// The signal of the value of a variable, which is one of the group.
    pub fn value_of(self, variable: usize) -> usize {
        let place = variable.saturating_sub(self.variable);
        self.signal.saturating_add(place.saturating_mul(2))
    }
}

/// The signals that are declared: those of the resource, of global variables, and of each instance its local variables, steps and actions.
#[derive(Drop)]
pub struct Signals {
    /// All of them.
    pub list: Vec<Signal>,
    /// Global variables, and each instance.
    pub groups: Vec<Group>,
}

// The instance of which a variable of the image is a local one.
fn owner_of(plant: &Plant, variable: VarId) -> Option<ProgId> {
    match plant.image_variable(variable) {
        Some(ImageVariable::Local(program, _)) => Some(program),
        _ => None,
    }
}

// Where the variables from a place of the image on that belong to an owner end.
fn end_of(resource: &Resource, owner: Option<ProgId>, from: usize) -> usize {
    for number in from..resource.variables() {
        if owner_of(resource.plant(), VarId(number as u16)) != owner {
            return number;
        }
    }
    resource.variables()
}

impl Signals {
    // One signal more.
    fn push(&mut self, signal: Signal) -> Result<(), AllocError> {
        self.list.push(signal)?;
        Ok(())
    }

    // The mode, and scans and overruns of each task.
    fn push_tasks(&mut self, plant: &Plant) -> Result<(), AllocError> {
        self.push(Signal::Running)?;
        for number in 0..plant.tasks().len() {
            let task = TaskId(number as u8);
            self.push(Signal::Scan(task))?;
            self.push(Signal::Overruns(task))?;
        }
        Ok(())
    }

    // A variable.
    fn push_variable(&mut self, plant: &Plant, variable: VarId) -> Result<(), AllocError> {
        let var_type = match plant.variable(variable) {
            Some(variable) => variable.var_type,
            None => VarType::Bool,
        };
        self.push(Signal::Variable(variable, var_type))?;
        self.push(Signal::Forced(variable))
    }

    // The variables from a place of the image on that belong to this instance, or where there is none to the resource: a group; where they
    // end.
    fn push_group(
        &mut self,
        resource: &Resource,
        owner: Option<ProgId>,
        from: usize,
    ) -> Result<usize, AllocError> {
        let end = end_of(resource, owner, from);
        self.groups.push(Group {
            signal: self.list.len(),
            variable: from,
            count: end.saturating_sub(from),
        })?;
        for number in from..end {
            if let Ok(number) = u16::try_from(number) {
                self.push_variable(resource.plant(), VarId(number))?;
            }
        }
        Ok(end)
    }

    // The steps of an instance.
    fn push_steps(&mut self, view: &ProgramView<'_>, program: ProgId) -> Result<(), AllocError> {
        for number in 0..view.tables().steps() {
            let step = StepId(number as u16);
            self.push(Signal::Active(program, step))?;
            self.push(Signal::Elapsed(program, step))?;
        }
        Ok(())
    }

    // The actions of an instance.
    fn push_actions(&mut self, view: &ProgramView<'_>, program: ProgId) -> Result<(), AllocError> {
        for number in 0..view.tables().actions() {
            let action = ActionNumber(number);
            self.push(Signal::Q(program, action))?;
            self.push(Signal::Executed(program, action))?;
        }
        Ok(())
    }

    // An instance, whose local variables begin at this place of the image; where they end.
    fn push_instance(
        &mut self,
        resource: &Resource,
        program: ProgId,
        from: usize,
    ) -> Result<usize, AllocError> {
        let end = self.push_group(resource, Some(program), from)?;
        if usize::from(program.0) < resource.plant().instances().len() {
            let view = resource.program(program);
            self.push_steps(&view, program)?;
            self.push_actions(&view, program)?;
            self.push(Signal::Steps(program))?;
        }
        Ok(end)
    }

    // All instances, whose local variables begin at this place of the image.
    fn push_instances(&mut self, resource: &Resource, from: usize) -> Result<(), AllocError> {
        let mut from = from;
        for number in 0..resource.plant().instances().len() {
            from = self.push_instance(resource, ProgId(number as u8), from)?;
        }
        Ok(())
    }

    /// Those of a resource. The one error is that memory was refused.
    pub fn of_resource(alloc: Global, resource: &Resource) -> Result<Signals, AllocError> {
        let mut signals = Signals {
            list: Vec::new(alloc),
            groups: Vec::new(alloc),
        };
        signals.push_tasks(resource.plant())?;
        let locals = signals.push_group(resource, None, 0)?;
        signals.push_instances(resource, locals)?;
        Ok(signals)
    }

    /// Where the signals of the mode and of tasks end.
    pub fn end_of_tasks(&self) -> usize {
        match self.groups.first() {
            Some(group) => group.signal,
            None => self.list.len(),
        }
    }

    /// Where the signals of the steps of an instance begin, two for each.
    pub fn steps_of(&self, instance: usize) -> usize {
        match self.groups.get(instance.saturating_add(1)) {
            Some(group) => group.value_of(group.end()),
            None => self.list.len(),
        }
    }

    /// Where the signals of an instance begin; behind the last one their end.
    pub fn begin_of(&self, instance: usize) -> usize {
        match self.groups.get(instance.saturating_add(1)) {
            Some(group) => group.signal,
            None => self.list.len(),
        }
    }

    /// The signal of the names of an instance's active steps.
    pub fn names_of(&self, instance: usize) -> usize {
        self.begin_of(instance.saturating_add(1)).saturating_sub(1)
    }

    /// The instance whose signal has this number; none where it is one of the resource.
    pub fn instance_of(&self, number: usize) -> Option<usize> {
        let group = self
            .groups
            .iter()
            .rposition(|group| group.signal <= number)?;
        group.checked_sub(1)
    }

    /// The number in the image of a variable of an instance's program.
    pub fn number_of(&self, instance: usize, variable: Variable) -> Option<usize> {
        match variable {
            Variable::Global(global) => Some(global.0),
            Variable::Local(local) => {
                let group = self.groups.get(instance.saturating_add(1))?;
                Some(group.variable.saturating_add(local.0))
            }
        }
    }

    /// The signal of the value of a variable.
    pub fn value_of(&self, variable: VarId) -> Option<usize> {
        let number = usize::from(variable.0);
        let group = self.groups.iter().find(|group| number < group.end())?;
        Some(group.value_of(number))
    }
}
