//! What the look-backs mean, by the numbers of scans: the first call is number 1, and n calls were made. Each law is a
//! function with an empty body, whose contract is the law.

ghost use Rattle.std.specs.Prelude.{◌≡◌, ◌↔◌, ◌∷◌, ◌++◌, Bool, List, ℕ, true};
ghost use Rattle.sfc_timers.specs.declared.edge.Edge.{Edge};
ghost use Rattle.sfc_timers.specs.declared.flip_flop.FlipFlop.{FlipFlop};
ghost use Rattle.sfc_timers.specs.declared.on_delay.OnDelay.{OnDelay};
ghost use Rattle.sfc_timers.specs.Timers.{Bistable, Reading, is_on, has_elapsed};
ghost use Rattle.sfc_timers.specs.Numbered.{IsSetSince, HasRunSince};
ghost use Rattle.sfc_timers.specs.Agreement.{FlipFlopAgrees, OnDelayAgrees, EdgeAgrees};
ghost use Rattle.sfc_timers.specs.Past.{flip_flop_past, on_delay_past, edge_past, flip_flop_in, on_delay_in, edge_in};

/// A flip-flop is on exactly when some scan has S, and no scan from that one to the newest has R (2.5.2.3.1).
pub fn held()
    ensures { (h : List Bistable) → (is_on h ≡ true) ↔ ((j : ℕ) × IsSetSince h j) }
{}

/// An on-delay has elapsed exactly when its input is TRUE in all scans from some scan m to the newest and not in the
/// one before m, and the time from scan m to the newest is at least the PT of scan m (2.5.2.3.4).
pub fn delayed()
    ensures { (h : List Reading) → (has_elapsed h ≡ true) ↔ ((m : ℕ) × HasRunSince h m) }
{}

/// What a block keeps is the past of its calls, so it agrees with each history of this past, and with no other.
pub fn kept_past()
    ensures flip_flop { (block : FlipFlop) (h : List Bistable) →
        FlipFlopAgrees block h ↔ (flip_flop_in block ≡ flip_flop_past h) }
    ensures on_delay { (timer : OnDelay) (h : List Reading) →
        OnDelayAgrees timer h ↔ (on_delay_in timer ≡ on_delay_past h) }
    ensures edge { (edge : Edge) (h : List Bool) → EdgeAgrees edge h ↔ (edge_in edge ≡ edge_past h) }
{}

/// An on-delay keeps nothing but the past of its calls: two that keep the same past are equal.
pub fn alike()
    ensures { (a b : OnDelay) → on_delay_in a ≡ on_delay_in b → a ≡ b }
{}

/// A history may be cut at any place: after one of the same past the same calls give the same past, and the same
/// answers.
pub fn cut()
    ensures flip_flop { (h g later : List Bistable) → flip_flop_past h ≡ flip_flop_past g →
        is_on (later ++ h) ≡ is_on (later ++ g) }
    ensures on_delay { (h g later : List Reading) → on_delay_past h ≡ on_delay_past g →
        on_delay_past (later ++ h) ≡ on_delay_past (later ++ g) }
    ensures elapsed { (call : Reading) (h g later : List Reading) → on_delay_past h ≡ on_delay_past g →
        has_elapsed (call ∷ later ++ h) ≡ has_elapsed (call ∷ later ++ g) }
    ensures edge { (h g later : List Bool) → edge_past h ≡ edge_past g → edge_past (later ++ h) ≡ edge_past (later ++ g) }
{}
