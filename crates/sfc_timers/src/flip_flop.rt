//! Flip-flops (2.5.2.3.1).

use sfc_base::ticks::Ticks;

/// Is on once S was TRUE, until R is TRUE. R wins where both are: it is reset-dominant.
#[derive(Drop)]
pub struct FlipFlop {
    on: bool,
}

#[tactic(auto, unfolding(crate::specs::Agreement::FlipFlopAgrees))]
impl FlipFlop {
    ghost use Rattle.std.specs.Prelude.{◌≡◌, List, [], ◌∷◌};
    ghost use Rattle.sfc_base.specs.Ticks.{Within};
    ghost use Rattle.sfc_timers.specs.Timers.{Bistable, is_on};
    ghost use Rattle.sfc_timers.specs.Agreement.{FlipFlopAgrees};

    /// A flip-flop that has seen no call, so it is off.
    pub fn new() -> Self
        ensures { FlipFlopAgrees result [] }
    {
        FlipFlop { on: false }
    }

    /// Takes S and R of one more call, and answers whether it is on.
    pub fn step(&mut self, s: bool, r: bool, ticks: &mut Ticks) -> bool
        ensures agrees { (h : List Bistable) → FlipFlopAgrees self.old h → FlipFlopAgrees self.new ((s, r) ∷ h) }
        ensures answer { (h : List Bistable) → FlipFlopAgrees self.old h → result ≡ is_on ((s, r) ∷ h) }
        ensures ticks { Within 1 ticks.old ticks.new }
    {
        ticks.tick();
        self.on = !r && (s || self.on);
        self.on
    }

    /// Takes over what the other has seen.
    pub fn copy_from(&mut self, other: &FlipFlop)
        ensures { (h : List Bistable) → FlipFlopAgrees other.now h → FlipFlopAgrees self.new h }
    {
        self.on = other.on;
    }
}
