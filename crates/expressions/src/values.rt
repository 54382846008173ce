//! The values that the expressions read, and what the statements write.

ghost use Rattle.std.proofs.Common.{◌≡◌, ◌∙◌, refl, length};
ghost use Rattle.expressions.specs.Values as values;

use sfc_base::references::{GlobalId, StepId, Variable};
use sfc_base::value::Value;
use sfc_expr::store::Store;
use sfc_expr::view::View;
use std::alloc::{AllocError, Global};

// The greatest and the negative of the least TIME in microseconds.
const TIME_LIMIT: i64 = 0x4000_0000_0000_0000;

/// The values of the global variables, in their order.
#[derive(Drop)]
pub struct Values {
    values: Vec<Value>,
}

impl Values {
    /// The fixed values that each expression and each body begins with.
    pub fn new(alloc: Global) -> Result<Values, AllocError> {
        let values = [
            Value::Bool(true),
            Value::Bool(false),
            Value::Int(5),
            Value::Int(-7),
            Value::Int(-32_768),
            Value::Dint(100_000),
            Value::Dint(-2_147_483_648),
            Value::Time(2_000_000),
            Value::Time(-TIME_LIMIT),
            Value::Time(TIME_LIMIT),
        ];
        Ok(Values {
            values: Vec::from_slice(alloc, &values)?,
        })
    }
}

impl View for Values {
    ghost environment = { λ v. values.environment_of v.values.items };

    fn value_at(&self, variable: Variable) -> Value {
        match variable {
            Variable::Global(GlobalId(place)) => match self.values.get(place) {
                Some(value) => *value,
                None => Value::Bool(false),
            },
            Variable::Local(_) => Value::Bool(false),
        }
    }

    fn is_active(&self, step: StepId) -> bool {
        step.0 == 0
    }

    fn time_of(&self, step: StepId) -> i64 {
        if step.0 == 0 { 1_500_000 } else { 0 }
    }

    fn q(&self) -> bool {
        true
    }
}

impl Store for Values {
    // as many variables as before
    ghost reaches = { λ old new. length new.values.items ≡ length old.values.items };

    ghost nothing = { λ x. refl };

    ghost one_more = { λ x y z h k. k ∙ h };

    fn assign(&mut self, variable: Variable, value: Value) {
        if let Variable::Global(GlobalId(place)) = variable {
            if let Some(old) = self.values.get_mut(place) {
                *old = value;
            }
        }
    }
}
