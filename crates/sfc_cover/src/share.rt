//! Shares of what may be reached.

/// So many of so many were reached.
#[derive(Clone, Copy, Debug, PartialEq, Eq)]
pub struct Share {
    /// How many were reached.
    pub reached: u64,
    /// How many there are.
    pub all: u64,
}

impl Share {
    /// None of none.
    pub fn none() -> Share {
        Share { reached: 0, all: 0 }
    }

    /// One more, reached or not.
    pub fn with(self, is_reached: bool) -> Share {
        Share {
            reached: self.reached.saturating_add(if is_reached { 1 } else { 0 }),
            all: self.all.saturating_add(1),
        }
    }

    /// Those of both together.
    pub fn plus(self, other: Share) -> Share {
        Share {
            reached: self.reached.saturating_add(other.reached),
            all: self.all.saturating_add(other.all),
        }
    }

    /// Percents, rounded down; 100 where there is none to be reached.
    pub fn percent(self) -> u64 {
        if self.all == 0 {
            return 100;
        }
        self.reached.saturating_mul(100) / self.all
    }

    /// Whether it is less than so many percents, to the exact.
    pub fn is_below(self, percent: u8) -> bool {
        self.reached.saturating_mul(100) < self.all.saturating_mul(u64::from(percent))
    }
}
