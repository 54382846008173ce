//! Instants of the run clock, in microseconds from 0 to 2^62.

ghost use Rattle.std.specs.Prelude.{◌≡◌, ◌≤ℤ◌, ◌-ℤ◌, ◌^◌, pos};

/// The time since an instant, in microseconds; negative before it.
pub fn time_since(since: i64, at: i64) -> i64
    requires low { pos 0 ≤ℤ at }
    requires high { at ≤ℤ pos (2 ^ 62) }
    requires since_low { pos 0 ≤ℤ since }
    requires since_high { since ≤ℤ pos (2 ^ 62) }
    ensures { result ≡ (at -ℤ since) }
{
    at - since
}
