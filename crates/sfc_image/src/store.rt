//! What the statements of a program instance write to (2.4.3, 2.5.3).

ghost use Rattle.std.specs.Prelude.{◌+◌, ◌≤◌, length};

use crate::image::Image;
use crate::slot::Locals;
use crate::step_readings::StepReadings;
use crate::view::{number_of, read};
use sfc_base::references::{StepId, Variable};
use sfc_base::value::Value;
use sfc_expr::store::Store;
use sfc_expr::view::View;

/// The variables of a program instance in an image that is written to, which of its steps are active and their times,
/// and Q.
#[derive(Drop)]
pub(crate) struct ImageStore<'a> {
    pub(crate) image: &'a mut Image,
    pub(crate) globals: usize,
    pub(crate) locals: Locals,
    pub(crate) steps: StepReadings<'a>,
    pub(crate) q: bool,
    ghost apart: { globals ≤ locals.first },
    ghost within: { locals.first + locals.count ≤ length image.now.slots.items },
}

#[tactic(auto, unfolding(crate::specs::Private::Stores::environment_of_store))]
impl<'a> View for ImageStore<'a> {
    ghost use Rattle.sfc_image.specs.Private.Stores.{environment_of_store};

    ghost environment = { environment_of_store };

    fn value_at(&self, variable: Variable) -> Value {
        read(self.image.slots(), self.globals, self.locals, variable)
    }

    fn is_active(&self, step: StepId) -> bool {
        self.steps.is_active(step)
    }

    fn time_of(&self, step: StepId) -> i64 {
        self.steps.time_of(step)
    }

    fn q(&self) -> bool {
        self.q
    }
}

impl<'a> Store for ImageStore<'a> {
    ghost use Rattle.sfc_image.specs.Private.Stores.{Reaches, reaches_itself, reaches_on};

    ghost reaches = { Reaches };

    ghost nothing = { reaches_itself };

    ghost one_more = { reaches_on };

    fn assign(&mut self, variable: Variable, value: Value) {
        if let Some(i) = number_of(self.globals, self.locals, variable) {
            self.image.put(i, value);
        }
    }
}
