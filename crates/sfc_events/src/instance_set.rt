//! Sets of program instances.

ghost use Rattle.std.specs.Prelude.{◌≡◌, ◌==◌, ◌<◌, ◌≤◌, ℕ, true, false, None, IfSome};
ghost use Rattle.sfc_events.specs.InstanceSets.{has, no_instance};

use sfc_base::ids::ProgId;

/// A set of program instances of a plant, which has at most 64: one bit for each, the lowest for the first.
#[derive(Clone, Copy, Debug, PartialEq, Eq)]
pub struct InstanceSet {
    pub bits: u64,
}

impl InstanceSet {
    /// No instance.
    pub fn none() -> InstanceSet
        ensures { result ≡ no_instance }
    {
        InstanceSet { bits: 0 }
    }

    /// Whether no instance is in it.
    #[inline]
    pub fn is_empty(self) -> bool
        ensures { result ≡ (self.bits == 0) }
    {
        self.bits == 0
    }

    /// Whether this instance is in it.
    #[inline]
    pub fn contains(self, instance: ProgId) -> bool
        ensures { result ≡ has self instance.0 }
    {
        instance.0 < 64 && (self.bits >> instance.0) & 1 == 1
    }

    /// The first instance in it, and the set of the others.
    #[inline]
    pub fn split_first(self) -> Option<(ProgId, InstanceSet)>
        ensures first { IfSome result (λ p. (has self p.0.0 ≡ true) × ((k : ℕ) → k < p.0.0 → has self k ≡ false)) }
        ensures others { IfSome result (λ p. (k : ℕ) → p.0.0 < k → has p.1 k ≡ has self k) }
        ensures without { IfSome result (λ p. (k : ℕ) → k ≤ p.0.0 → has p.1 k ≡ false) }
        ensures none { result ≡ None → (k : ℕ) → has self k ≡ false }
    {
        if self.bits == 0 {
            return None;
        }
        let first = self.bits.trailing_zeros();
        let bits = self.bits & !(1u64 << first);
        Some((ProgId(first as u8), InstanceSet { bits }))
    }
}
