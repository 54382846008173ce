//! Multiples of an interval, in running form (2.7.2).

ghost use Rattle.std.specs.Prelude.{◌≡◌};
ghost use Rattle.sfc_tasks.specs.Multiples.{multiples_to as count_to, next_multiple as next_after};
ghost use Rattle.sfc_tasks.specs.Private.Keeping.{upcoming_after};

/// The last instant.
const LATEST: u64 = 1 << 62;

// How many multiples are not after t.
fn multiples_to(interval: i64, t: i64) -> u64
    ensures { result ≡ count_to interval t }
{
    if interval > 0 && t >= 0 {
        t.unsigned_abs() / interval.unsigned_abs() + 1
    } else {
        0
    }
}

/// The least multiple after t; where there is no interval the greatest number.
pub fn upcoming(interval: i64, t: i64) -> u64
    ensures { result ≡ upcoming_after interval t }
{
    if interval > 0 {
        multiples_to(interval, t) * interval.unsigned_abs()
    } else {
        u64::MAX
    }
}

/// The least multiple after t, if it is not after the last instant.
pub fn next_multiple(interval: i64, t: i64) -> Option<i64>
    ensures { result ≡ next_after interval t }
{
    if interval <= 0 {
        return None;
    }
    let next = multiples_to(interval, t).saturating_mul(interval.unsigned_abs());
    if next <= LATEST {
        Some(next as i64)
    } else {
        None
    }
}
