//! Instants in their plainest form, such as `T#1240ms`, which are read in one pass.

ghost use Rattle.std.specs.Prelude.{◌≡◌, ◌<◌, ◌^◌, length, MatchOption, IfSome, Some, None};
ghost use Rattle.sfc_script.specs.Private.Instants as instants;

use crate::split::begins_with_blank;

/// Behind a number as great as this no digit is taken: it would make 10,000,000,000 or more.
const GREAT: u64 = 1_000_000_000;

// The number that the decimal digits in front are, and what follows them; None where there are none, and where it is
// 10,000,000,000 or more.
fn number_first(bytes: &[u8]) -> Option<(u64, &[u8])>
    ensures value { MatchOption result (instants.number_first bytes.now ≡ None)
        (λ r. instants.number_first bytes.now ≡ Some (r.0, r.1.now)) }
    ensures small { IfSome result (λ r. (r.0 < 10 ^ 10) × (length r.1.now < length bytes.now)) }
{
    let (first, others) = bytes.split_first()?;
    if !first.is_ascii_digit() {
        return None;
    }
    let mut number = u64::from(*first - b'0');
    let mut rest = others;
    'digits: while let Some((byte, after)) = rest.split_first() {
        if !byte.is_ascii_digit() {
            break;
        }
        if number >= GREAT {
            return None;
        }
        number = number * 10 + u64::from(*byte - b'0');
        rest = after;
    }
    Some((number, rest))
}

// The microseconds of the unit in front, and what follows it; None where it is neither milliseconds nor seconds.
fn unit_first(bytes: &[u8]) -> Option<(u64, &[u8])>
    ensures value { MatchOption result (instants.unit_first bytes.now ≡ None)
        (λ r. instants.unit_first bytes.now ≡ Some (r.0, r.1.now)) }
    ensures small { IfSome result (λ r. (r.0 < 10 ^ 7) × (length r.1.now < length bytes.now)) }
{
    match bytes {
        [b'm' | b'M', b's' | b'S', behind @ ..] => Some((1_000, behind)),
        [b's' | b'S', behind @ ..] => Some((1_000_000, behind)),
        _ => None,
    }
}

/// The instant in front, in microseconds, and what stands behind it, from a blank on. None where it is not `T#`, digits
/// for less than 10,000,000,000, and `ms` or `s`: it may be an instant in another form. It takes no memory.
pub fn instant(bytes: &[u8]) -> Option<(i64, &[u8])>
    ensures value { MatchOption result (instants.instant_first bytes.now ≡ None)
        (λ r. instants.instant_first bytes.now ≡ Some (r.0, r.1.now)) }
    ensures shorter { IfSome result (λ r. length r.1.now < length bytes.now) }
{
    let [b'T' | b't', b'#', digits @ ..] = bytes else {
        return None;
    };
    let (number, rest) = number_first(digits)?;
    let (unit, behind) = unit_first(rest)?;
    if !begins_with_blank(behind) {
        return None;
    }
    Some(((number * unit) as i64, behind))
}
