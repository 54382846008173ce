//! What the expressions of a program instance read (2.4.3, 2.5.3).

ghost use Rattle.std.specs.Prelude.{◌≡◌, ◌<◌, ◌≤◌, ◌+◌, ◌^◌, length};
ghost use Rattle.sfc_image.specs.Environments.{number_among};
ghost use Rattle.sfc_image.specs.Private.Keeping.{shown};

use crate::slot::{Locals, Slot};
use crate::step_readings::StepReadings;
use sfc_base::references::{GlobalId, LocalId, StepId, Variable};
use sfc_base::value::Value;
use sfc_expr::view::View;

/// The variables of a program instance in an image, which of its steps are active and their times, by the steps'
/// numbers, and Q.
#[derive(Clone, Copy)]
pub struct ImageView<'a> {
    pub(crate) slots: &'a [Slot],
    pub(crate) globals: usize,
    pub(crate) locals: Locals,
    pub(crate) steps: StepReadings<'a>,
    pub(crate) q: bool,
    ghost apart: { globals ≤ locals.first },
    ghost within: { locals.first + locals.count ≤ length slots.now },
}

/// The number of the variable in the image, if there is such a variable.
pub(crate) fn number_of(globals: usize, locals: Locals, variable: Variable) -> Option<usize>
    requires { locals.first + locals.count < 2 ^ 64 }
    ensures { result ≡ number_among globals locals.first locals.count variable }
{
    match variable {
        Variable::Global(GlobalId(place)) => { if place < globals { Some(place) } else { None } }
        Variable::Local(LocalId(place)) => {
            if place < locals.count {
                Some(locals.first + place)
            } else {
                None
            }
        }
    }
}

/// What the variable reads: the forced value, if it is forced, else the stored one; FALSE where it is not there.
pub(crate) fn read(slots: &[Slot], globals: usize, locals: Locals, variable: Variable) -> Value
    requires apart { globals ≤ locals.first }
    requires within { locals.first + locals.count ≤ length slots.now }
    ensures { result ≡ shown slots.now (number_among globals locals.first locals.count variable) }
{
    match number_of(globals, locals, variable) {
        Some(i) => {
            let slot = &slots[i];
            slot.forced.unwrap_or(slot.stored)
        }
        None => Value::Bool(false),
    }
}

#[tactic(auto, unfolding(crate::specs::Agreement::environment_in))]
impl<'a> View for ImageView<'a> {
    ghost use Rattle.sfc_image.specs.Agreement.{environment_in};

    ghost environment = { environment_in };

    fn value_at(&self, variable: Variable) -> Value {
        read(self.slots, self.globals, self.locals, variable)
    }

    fn is_active(&self, step: StepId) -> bool {
        self.steps.is_active(step)
    }

    fn time_of(&self, step: StepId) -> i64 {
        self.steps.time_of(step)
    }

    fn q(&self) -> bool {
        self.q
    }
}
