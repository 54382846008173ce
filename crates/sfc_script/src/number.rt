//! Decimal numbers.

ghost use Rattle.std.specs.Prelude.{◌≡◌, ◌≤◌, ◌^◌, ◌∷◌, [], IfSome};
ghost use Rattle.sfc_script.specs.Values as values;
ghost use Rattle.sfc_script.specs.Values.{limited};

/// The greatest magnitude of a DINT below zero.
const LEAST_DINT: u64 = 2_147_483_648;

/// The greatest DINT.
const GREATEST_DINT: u64 = 2_147_483_647;

// The number that the digits make behind the number, if it is not over the limit.
fn one_more(number: u64, byte: u8, limit: u64) -> Option<u64>
    requires limit { limit ≤ 2 ^ 31 }
    requires number { number ≤ limit }
    ensures { result ≡ limited limit (values.digits_from number (byte ∷ [])) }
{
    if !byte.is_ascii_digit() {
        return None;
    }
    let more = number * 10 + u64::from(byte - b'0');
    if more <= limit { Some(more) } else { None }
}

/// The number that the decimal digits are, if it is not over the limit; None where it is over it, and where the word is none.
pub fn magnitude(word: &[u8], limit: u64) -> Option<u64>
    requires { limit ≤ 2 ^ 31 }
    ensures value { result ≡ limited limit (values.decimal_of word.now) }
    ensures limit { IfSome result (λ n. n ≤ limit) }
{
    if word.is_empty() {
        return None;
    }
    let mut number = 0;
    let mut rest = word;
    'digits: while let Some((byte, after)) = rest.split_first() {
        number = one_more(number, *byte, limit)?;
        rest = after;
    }
    Some(number)
}

/// The number that the word is, decimal digits with a minus or without, in the range of DINT; None where it is none.
pub fn dint(word: &[u8]) -> Option<i32>
    ensures { result ≡ values.dint_of word.now }
{
    let (first, digits) = word.split_first()?;
    if *first == b'-' {
        let number = magnitude(digits, LEAST_DINT)?;
        return Some((0 - number as i64) as i32);
    }
    let number = magnitude(word, GREATEST_DINT)?;
    Some(number as i32)
}
