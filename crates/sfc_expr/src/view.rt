//! What expressions read.

ghost use Rattle.std.specs.Prelude.{◌≡◌};
ghost use Rattle.sfc_expr.specs.Environment.{Environment, value_at};

use sfc_base::references::{StepId, Variable};
use sfc_base::value::Value;

/// What the expressions of a program read. The member `environment` says which environment it stands for. A view may
/// give any values: no range is assumed of a TIME or of a step time.
pub trait View {
    ghost environment: { Self → Environment };

    /// What a variable reads: the value to which it is forced, if it is, else the stored one.
    fn value_at(&self, variable: Variable) -> Value
        ensures { result ≡ value_at (environment self.now) variable };

    /// Whether a step is active (2.6.2).
    fn is_active(&self, step: StepId) -> bool
        ensures { result ≡ (environment self.now).is_active step };

    /// The time that a step has been active, or was when it was last, in microseconds (2.6.2).
    fn time_of(&self, step: StepId) -> i64
        ensures { result ≡ (environment self.now).time_of step };

    /// The output Q of the action whose body it is (2.6.4.5).
    fn q(&self) -> bool
        ensures { result ≡ (environment self.now).q };
}
