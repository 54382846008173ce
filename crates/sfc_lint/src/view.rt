//! A program type that is looked at.

use sfc_base::ids::{ActionNumber, ProgId, TransitionId};
use sfc_base::references::{StepId, Variable};
use sfc_expr::expr::Expr;
use sfc_list::list_expr::list_expr;
use sfc_page::append::{append, append_number};
use sfc_plant::chart::{Chart, Step, Transition};
use sfc_plant::names::Names;
use sfc_plant::plant::Plant;
use sfc_plant::program_type::ProgramType;
use sfc_tables::tables::Tables;
use std::alloc::{AllocError, Global};

/// The step at this place.
pub fn step_id(place: usize) -> StepId {
    StepId(u16::try_from(place).unwrap_or(u16::MAX))
}

/// The transition at this place.
pub fn transition_id(place: usize) -> TransitionId {
    TransitionId(u16::try_from(place).unwrap_or(u16::MAX))
}

/// A program type of a plant, by its number.
#[derive(Clone, Copy)]
pub struct View<'a> {
    pub plant: &'a Plant,
    pub number: usize,
    pub program: &'a ProgramType,
}

impl<'a> View<'a> {
    /// Its chart.
    pub fn chart(&self) -> &'a Chart {
        &self.program.chart
    }

    /// Its steps.
    pub fn steps(&self) -> &'a [Step] {
        self.program.chart.steps.as_slice()
    }

    /// Its transitions.
    pub fn transitions(&self) -> &'a [Transition] {
        self.program.chart.transitions.as_slice()
    }

    /// The name of the program type.
    pub fn name(&self) -> &'a [u8] {
        self.program.name.spelling()
    }

    /// The name of a step; nothing where there is none.
    pub fn step(&self, step: StepId) -> &'a [u8] {
        match self.steps().get(step.0 as usize) {
            Some(step) => step.name.spelling(),
            None => b"",
        }
    }

    /// The name of a variable. The one error is that memory was refused.
    pub fn variable(&self, alloc: Global, variable: Variable) -> Result<Vec<u8>, AllocError> {
        let names = Names::new(self.plant.globals(), self.program);
        Vec::from_slice(alloc, names.variable(variable))
    }

    /// The name of an action or of the variable of a Boolean one, by its number. The one error is that memory was refused.
    pub fn action(
        &self,
        alloc: Global,
        tables: &Tables,
        action: ActionNumber,
    ) -> Result<Vec<u8>, AllocError> {
        let names = Names::new(self.plant.globals(), self.program);
        Vec::from_slice(alloc, tables.action_name(&names, action))
    }

    /// The number of a transition, from 1, and its name if it has one. The one error is that memory was refused.
    pub fn transition(
        &self,
        alloc: Global,
        transition: TransitionId,
    ) -> Result<Vec<u8>, AllocError> {
        let mut text = Vec::new(alloc);
        append_number(&mut text, u64::from(transition.0).saturating_add(1))?;
        if let Some(found) = self.transitions().get(transition.0 as usize) {
            if let Some(name) = &found.name {
                append(&mut text, b" ")?;
                append(&mut text, name.spelling())?;
            }
        }
        Ok(text)
    }

    /// These steps, parted by commas. The one error is that memory was refused.
    pub fn step_list(&self, alloc: Global, steps: &[StepId]) -> Result<Vec<u8>, AllocError> {
        let mut text = Vec::new(alloc);
        for step in steps {
            if !text.is_empty() {
                append(&mut text, b", ")?;
            }
            append(&mut text, self.step(*step))?;
        }
        Ok(text)
    }

    /// The first instance of the program type, if there is one.
    pub fn instance(&self) -> Option<ProgId> {
        for (place, instance) in self.plant.instances().iter().enumerate() {
            if instance.program.0 == self.number {
                return Some(ProgId(place as u8));
            }
        }
        None
    }

    /// How many instances of the program type there are.
    pub fn instances(&self) -> usize {
        let mut count = 0usize;
        for instance in self.plant.instances() {
            if instance.program.0 == self.number {
                count = count.saturating_add(1);
            }
        }
        count
    }

    /// The text of an expression of the program type, where it has an instance. The one error is that memory was refused.
    pub fn expression(&self, alloc: Global, expr: &Expr) -> Result<Option<Vec<u8>>, AllocError> {
        let Some(instance) = self.instance() else {
            return Ok(None);
        };
        if instance.0 as usize >= self.plant.instances().len() {
            return Ok(None);
        }
        let mut text = Vec::new(alloc);
        match list_expr(self.plant, instance, expr, &mut text) {
            Ok(()) => Ok(Some(text)),
            Err(_) => Err(AllocError),
        }
    }
}
