//! How many entries there are under each seat's number.

ghost use Rattle.std.specs.Prelude.{◌≡◌, ◌<◌, ◌+◌, ◌-◌, ◌^◌, ◌==◌, ℕ, cond, length, IfOk};

use std::alloc::{AllocError, Global};

/// A number for each seat.
#[derive(Drop)]
pub struct SeatCounts {
    counts: Vec<u64>,
    ghost size: { length counts.items ≡ 24 },
}

impl SeatCounts {
    ghost use Rattle.sfc_control.specs.Counts.{count_in};

    /// Each is 0. The one error is that memory was refused.
    pub fn new(alloc: Global) -> Result<SeatCounts, AllocError>
        ensures { IfOk result (λ counts. (k : ℕ) → count_in counts k ≡ 0) }
    {
        let counts = vec![in alloc; 0; 24]?;
        Ok(SeatCounts { counts })
    }

    /// One more for the seat.
    pub fn add(&mut self, seat: u8)
        requires known { seat < 24 }
        requires room { count_in self.old seat < 2 ^ 64 - 1 }
        ensures { (k : ℕ) → count_in self.new k ≡ cond (seat == k) 1 0 + count_in self.old k }
    {
        self.counts[seat as usize] += 1;
    }

    /// That of the seat.
    pub fn of(&self, seat: u8) -> u64
        requires { seat < 24 }
        ensures { result ≡ count_in self.now seat }
    {
        self.counts[seat as usize]
    }
}
