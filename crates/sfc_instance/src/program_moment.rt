//! What conditions of a program instance read at an instant.

ghost use Rattle.std.specs.Prelude.{◌≡◌, ◌≤ℤ◌, ◌^◌, pos};

use crate::program_view::ProgramView;
use sfc_base::references::{StepId, Variable};
use sfc_base::value::Value;
use sfc_expr::view::View;

/// A window on a program instance, and an instant: as a `View` it is what a condition reads that is evaluated then (2.6.2,
/// 2.6.3), as by a scan at that instant.
#[derive(Clone, Copy)]
pub struct ProgramMoment<'a> {
    view: ProgramView<'a>,
    t: i64,
    ghost low: { pos 0 ≤ℤ t },
    ghost high: { t ≤ℤ pos (2 ^ 62) },
}

#[tactic(auto, unfolding(crate::specs::Views::view_of, crate::specs::Views::instant_of))]
impl<'a> ProgramMoment<'a> {
    ghost use Rattle.std.specs.Prelude.{◌≡◌, ◌≤ℤ◌, ◌^◌, pos};
    ghost use Rattle.sfc_instance.specs.Views.{view_of, instant_of};

    /// The window at t, from 0 to 2^62 microseconds.
    pub fn new(view: ProgramView<'a>, t: i64) -> ProgramMoment<'a>
        requires low { pos 0 ≤ℤ t }
        requires high { t ≤ℤ pos (2 ^ 62) }
        ensures view { view_of result ≡ view.entry }
        ensures instant { instant_of result ≡ t }
    {
        ProgramMoment { view, t }
    }
}

#[tactic(auto, unfolding(crate::specs::Views::environment_at, crate::specs::Views::environment_in))]
impl View for ProgramMoment<'_> {
    ghost use Rattle.sfc_instance.specs.Views.{environment_at};

    ghost environment = { environment_at };

    fn value_at(&self, variable: Variable) -> Value {
        self.view.value_at(variable)
    }

    fn is_active(&self, step: StepId) -> bool {
        self.view.is_active(step)
    }

    fn time_of(&self, step: StepId) -> i64 {
        self.view.time_at(step, self.t)
    }

    fn q(&self) -> bool {
        View::q(&self.view)
    }
}
