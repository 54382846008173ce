//! What is known of a scan before its on-delays are handled.

ghost use Rattle.std.specs.Prelude.{◌≡◌, ◌&&◌, ◌||◌, true, false};

/// Of some actions whether none has a fault: where it says no, one may have. And whether one may have an on-delay with its input: where
/// it says no, none has.
#[derive(Clone, Copy)]
pub struct Settled {
    pub is_faultless: bool,
    pub is_called: bool,
}

impl Settled {
    /// Of no action.
    pub fn of_none() -> Settled
        ensures faultless { result.is_faultless ≡ true }
        ensures called { result.is_called ≡ false }
    {
        Settled {
            is_faultless: true,
            is_called: false,
        }
    }

    /// Of these actions and the other's.
    pub fn and(self, other: Settled) -> Settled
        ensures faultless { result.is_faultless ≡ (self.is_faultless && other.is_faultless) }
        ensures called { result.is_called ≡ (self.is_called || other.is_called) }
    {
        Settled {
            is_faultless: self.is_faultless && other.is_faultless,
            is_called: self.is_called || other.is_called,
        }
    }
}
