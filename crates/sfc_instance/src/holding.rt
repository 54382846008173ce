//! Which conditions of transitions are TRUE.

ghost use Rattle.std.specs.Prelude.{◌≡◌, ◌<◌, ℕ, List, Bool, true, slice_set};
ghost use Rattle.sfc_tables.specs.Tables.{Tabled};
ghost use Rattle.sfc_evolve.specs.declared.steps.Steps.{Steps};
ghost use Rattle.sfc_evolve.specs.Agreement.{Enables};
ghost use Rattle.sfc_instance.specs.declared.holding.Holding.TheVariants.{Nothing, One};
ghost use Rattle.sfc_instance.specs.Private.Holding.{AreHeld, IsReady};

use sfc_base::ids::TransitionId;

/// Which conditions of enabled transitions a scan finds TRUE, as far as it is kept.
#[derive(Clone, Copy)]
pub enum Holding {
    /// None.
    Nothing,
    /// That of this transition alone.
    One(TransitionId),
    /// Any.
    Any,
}

impl Holding {
    /// The condition of this transition is TRUE too.
    pub fn with(self, transition: TransitionId) -> Holding
        ensures alone { self ≡ Nothing → result ≡ One transition }
        ensures held { (n : ℕ) (conditions : List Bool) → transition.0 < n → AreHeld n self conditions →
            AreHeld n result (slice_set conditions transition.0 true) }
        ensures ready { (tables : Tabled) (steps : Steps) → Enables tables steps transition.0 → IsReady tables steps result }
    {
        match self {
            Holding::Nothing => Holding::One(transition),
            Holding::One(_) | Holding::Any => Holding::Any,
        }
    }
}
