//! Rising and falling edges (2.5.2.3.2).

use sfc_base::ticks::Ticks;

/// How an input changed from the call before.
#[derive(Clone, Copy, Debug, PartialEq, Eq)]
pub enum Change {
    Rise,
    Fall,
    Same,
}

/// Sees how an input changes. Before the first call it counts as FALSE, whatever the standard's F_TRIG gives at its
/// first execution (our choice).
#[derive(Drop)]
pub struct Edge {
    last: bool,
}

#[tactic(auto, unfolding(crate::specs::Agreement::EdgeAgrees))]
impl Edge {
    ghost use Rattle.std.specs.Prelude.{◌≡◌, Bool, List, [], ◌∷◌};
    ghost use Rattle.sfc_base.specs.Ticks.{Within};
    ghost use Rattle.sfc_timers.specs.Timers.{newest_input, change_between};
    ghost use Rattle.sfc_timers.specs.Agreement.{EdgeAgrees};

    /// An edge that has seen no call.
    pub fn new() -> Self
        ensures { EdgeAgrees result [] }
    {
        Edge { last: false }
    }

    /// Takes the input of one more call, and answers how it changed.
    pub fn step(&mut self, input: bool, ticks: &mut Ticks) -> Change
        ensures agrees { (h : List Bool) → EdgeAgrees self.old h → EdgeAgrees self.new (input ∷ h) }
        ensures answer { (h : List Bool) → EdgeAgrees self.old h → result ≡ change_between (newest_input h) input }
        ensures ticks { Within 1 ticks.old ticks.new }
    {
        ticks.tick();
        let before = self.last;
        self.last = input;
        match (before, input) {
            (false, true) => Change::Rise,
            (true, false) => Change::Fall,
            _ => Change::Same,
        }
    }

    /// Takes over what the other has seen.
    pub fn copy_from(&mut self, other: &Edge)
        ensures { (h : List Bool) → EdgeAgrees other.now h → EdgeAgrees self.new h }
    {
        self.last = other.last;
    }
}
