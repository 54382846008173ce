//! The flags of 64 places at once.

ghost use Rattle.std.specs.Prelude.{◌≡◌, ◌==◌, ◌<◌, ◌≤◌, ◌%◌, ◌||◌, ◌&&◌, ◌↔◌, ℕ, not, cond, true, false, IfSome, None};
ghost use Rattle.sfc_flags.specs.Words.{has, word_of};

/// The flags of 64 places that follow each other. Clauses ask for the flag of a place by its number in the table; the
/// place within the word alone counts.
#[derive(Clone, Copy)]
pub struct Word(pub(crate) u64);

impl Word {
    /// No flag is set.
    pub fn none() -> Word
        ensures { (place : ℕ) → has result place ≡ false }
    {
        Word(0)
    }

    /// Whether no flag is set.
    pub fn is_none(self) -> bool
        ensures { (result ≡ true) ↔ ((place : ℕ) → has self place ≡ false) }
    {
        self.0 == 0
    }

    /// Whether both have the same flags.
    #[inline(always)]
    pub fn is_same(self, other: Word) -> bool
        ensures { (result ≡ true) ↔ ((place : ℕ) → has self place ≡ has other place) }
    {
        self.0 == other.0
    }

    /// All places of the word before this one have their flags, and no others.
    #[inline(always)]
    pub fn before(place: usize) -> Word
        ensures before { (other : ℕ) → word_of other ≡ word_of place → other < place → has result other ≡ true }
        ensures others { (other : ℕ) → word_of other ≡ word_of place → place ≤ other → has result other ≡ false }
    {
        Word((1u64 << (place % 64)) - 1)
    }

    /// The flag of this place.
    pub fn get(self, place: usize) -> bool
        ensures { result ≡ has self place }
    {
        (self.0 >> (place % 64)) & 1 == 1
    }

    /// The flags with that of this place set.
    pub fn plus(self, place: usize) -> Word
        ensures { (other : ℕ) → word_of other ≡ word_of place → has result other ≡ cond (other == place) true (has self other) }
    {
        Word(self.0 | (1 << (place % 64)))
    }

    /// The flags of both, together.
    pub fn or(self, other: Word) -> Word
        ensures { (place : ℕ) → has result place ≡ (has self place || has other place) }
    {
        Word(self.0 | other.0)
    }

    /// The flags that both have.
    pub fn and(self, other: Word) -> Word
        ensures { (place : ℕ) → has result place ≡ (has self place && has other place) }
    {
        Word(self.0 & other.0)
    }

    /// The flags that the other hasn't.
    pub fn without(self, other: Word) -> Word
        ensures { (place : ℕ) → has result place ≡ (has self place && not (has other place)) }
    {
        Word(self.0 & !other.0)
    }

    /// The flags that one of the two has and the other hasn't.
    pub fn apart(self, other: Word) -> Word
        ensures { (place : ℕ) → has result place ≡ cond (has other place) (not (has self place)) (has self place) }
    {
        self.without(other).or(other.without(self))
    }

    /// The first place within the word that has its flag, from 0 to 63, and the flags without that one.
    #[inline(always)]
    pub fn split_first(self) -> Option<(usize, Word)>
        ensures first { IfSome result (λ p. (p.0 < 64) × (has self p.0 ≡ true) × ((j : ℕ) → j < p.0 → has self j ≡ false)) }
        ensures rest { IfSome result (λ p. (place : ℕ) → has p.1 place ≡ (has self place && not (place % 64 == p.0))) }
        ensures none { result ≡ None → (place : ℕ) → has self place ≡ false }
    {
        if self.0 == 0 {
            return None;
        }
        let place = self.0.trailing_zeros() as usize;
        let first = Word::none().plus(place);
        Some((place, self.without(first)))
    }
}
