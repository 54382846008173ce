//! Which variables are looked at behind a scan.

use crate::assigned::Assigned;
use crate::sfc_core::resource::Resource;
use crate::sfc_instance::program_view::ProgramView;
use crate::shown::copy;
use crate::signals::Signals;
use sfc_base::ids::{ActionNumber, ProgId, TypeId, VarId};
use sfc_base::location::Area;
use sfc_base::references::Variable;
use sfc_base::ticks::Ticks;
use sfc_flags::flags::Flags;
use sfc_plant::association::Target;
use sfc_plant::plant::Plant;
use std::alloc::{AllocError, Global};

/// Which variables may read something else behind a scan. A scan writes the variables that are actions, and what bodies assign. A variable that
/// is an action, and that nothing else writes, has another value only where Q is another.
pub struct Due {
    // Those that are actions and that something else writes too: an action of another instance, a body, or an input.
    shared: Flags,
    // Those that bodies assign.
    assigned: Flags,
    // Those of the scan that is shown.
    marked: Flags,
}

// By hand, so that a caller that drops one proves one call.
impl Drop for Due {
    fn drop(self) {
        let Due {
            shared: _,
            assigned: _,
            marked: _,
        } = self;
    }
}

// Sets a flag, if there is such a place.
fn mark(flags: &mut Flags, place: usize) {
    if place < flags.count() {
        flags.set(place, true);
    }
}

// Whether a flag is set.
fn is_marked(flags: &Flags, place: usize) -> bool {
    place < flags.count() && flags.get(place)
}

/// The variable that an action of an instance is, if it is one.
pub fn output_of(
    view: &ProgramView<'_>,
    signals: &Signals,
    instance: usize,
    action: usize,
) -> Option<usize> {
    if action >= view.tables().actions() {
        return None;
    }
    match view.tables().target(ActionNumber(action)) {
        Target::Boolean(variable) => signals.number_of(instance, variable),
        Target::Declared(_) => None,
    }
}

// Whether a variable is an input (2.4.1.1).
fn is_input(plant: &Plant, number: usize) -> bool {
    match u16::try_from(number) {
        Ok(number) => match plant.variable(VarId(number)) {
            Some(variable) => match &variable.location {
                Some(location) => matches!(location.area(), Area::Input),
                None => false,
            },
            None => false,
        },
        Err(_) => false,
    }
}

// The flags of this number of variables that are inputs.
fn inputs(alloc: Global, plant: &Plant, count: usize) -> Result<Flags, AllocError> {
    let mut inputs = Flags::new(alloc, count)?;
    for number in 0..count {
        if is_input(plant, number) {
            mark(&mut inputs, number);
        }
    }
    Ok(inputs)
}

impl Due {
    /// Of a resource that no scan was told. The one error is that memory was refused.
    pub fn of_resource(
        alloc: Global,
        resource: &Resource,
        signals: &Signals,
    ) -> Result<Due, AllocError> {
        let count = resource.variables();
        let mut due = Due {
            shared: Flags::new(alloc, count)?,
            assigned: Flags::new(alloc, count)?,
            marked: Flags::new(alloc, count)?,
        };
        due.note_bodies(alloc, resource.plant(), signals)?;
        let mut written = inputs(alloc, resource.plant(), count)?;
        due.note_outputs(resource, signals, &mut written);
        Ok(due)
    }

    // Notes what the bodies of all instances assign.
    fn note_bodies(
        &mut self,
        alloc: Global,
        plant: &Plant,
        signals: &Signals,
    ) -> Result<(), AllocError> {
        let globals = plant.globals().len();
        let mut number = 0usize;
        for program in plant.types() {
            let assigned = Assigned::of_type(alloc, program, globals)?;
            self.note_type(plant, signals, TypeId(number), assigned.as_slice());
            number = number.saturating_add(1);
        }
        Ok(())
    }

    // Notes what the bodies of a program type assign, in each of its instances.
    fn note_type(
        &mut self,
        plant: &Plant,
        signals: &Signals,
        program: TypeId,
        assigned: &[Variable],
    ) {
        if assigned.is_empty() {
            return;
        }
        let mut number = 0usize;
        for instance in plant.instances() {
            if instance.program == program {
                self.note_assigned(signals, number, assigned);
            }
            number = number.saturating_add(1);
        }
    }

    // Notes what the bodies of an instance assign.
    fn note_assigned(&mut self, signals: &Signals, instance: usize, assigned: &[Variable]) {
        for variable in assigned {
            if let Some(number) = signals.number_of(instance, *variable) {
                mark(&mut self.assigned, number);
            }
        }
    }

    // Notes the variables that are actions, where these are written too.
    fn note_outputs(&mut self, resource: &Resource, signals: &Signals, written: &mut Flags) {
        for number in 0..resource.plant().instances().len() {
            let view = resource.program(ProgId(number as u8));
            self.note_outputs_in(&view, signals, number, written);
        }
    }

    // Notes those of an instance.
    fn note_outputs_in(
        &mut self,
        view: &ProgramView<'_>,
        signals: &Signals,
        instance: usize,
        written: &mut Flags,
    ) {
        for action in 0..view.tables().actions() {
            if let Some(number) = output_of(view, signals, instance, action) {
                self.note_output(number, written);
            }
        }
    }

    // Notes a variable that is an action.
    fn note_output(&mut self, number: usize, written: &mut Flags) {
        if is_marked(written, number) || is_marked(&self.assigned, number) {
            mark(&mut self.shared, number);
        } else {
            mark(written, number);
        }
    }

    /// Another scan is shown. Marked are the variables that are actions and that something else writes too.
    pub fn begin(&mut self) {
        copy(&mut self.marked, &self.shared);
    }

    /// Marks the variables that bodies assign.
    pub fn mark_assigned(&mut self) {
        let mut from = 0;
        for _ in 0..self.assigned.count() {
            let Some(number) = self.assigned.next_set(from, &mut Ticks::new()) else {
                break;
            };
            self.mark(number);
            from = number.saturating_add(1);
        }
    }

    /// Marks a variable.
    pub fn mark(&mut self, number: usize) {
        mark(&mut self.marked, number);
    }

    /// The next variable from this one on that is marked.
    pub fn next(&self, from: usize) -> Option<usize> {
        self.marked.next_set(from, &mut Ticks::new())
    }
}
