//! Integers (B.1.2.1).

ghost use Rattle.std.specs.Prelude.{◌≡◌, ◌≤◌, ◌<◌, ◌*◌, ◌+◌, ◌^◌, Option, Some, None, IfSome};
ghost use Rattle.sfc_base.specs.Numbers as numbers;
ghost use Rattle.sfc_tokens.specs.Lexing.Integers as lex;

/// What the byte stands for as a digit, where that is below the base.
pub fn digit_of(base: u8, byte: u8) -> Option<u8>
    ensures value { result ≡ numbers.digit_of base byte }
    ensures below { IfSome result (λ d. d < base) }
{
    let digit = match byte {
        b'0'..=b'9' => byte - b'0',
        b'A'..=b'F' => byte - b'A' + 10,
        b'a'..=b'f' => byte - b'a' + 10,
        _ => return None,
    };
    if digit < base { Some(digit) } else { None }
}

// The number with one more digit, if the byte is one and the number is not over the limit.
fn one_more(base: u8, limit: u64, number: u64, byte: u8) -> Option<u64>
    requires base_small { base ≤ 16 }
    requires limit_small { limit ≤ 2 ^ 56 }
    requires number_small { number ≤ limit }
    ensures { result ≡ lex.one_more base limit number byte }
{
    let digit = digit_of(base, byte)?;
    let more = number * u64::from(base) + u64::from(digit);
    if more <= limit { Some(more) } else { None }
}

/// The number that the word is as an integer of the base, if it is one and not over the limit.
#[tactic(auto, unfolding(crate::specs::Lexing::Integers::digits))]
pub fn integer(base: u8, limit: u64, word: &[u8]) -> Option<u64>
    requires base_small { base ≤ 16 }
    requires limit_small { limit ≤ 2 ^ 56 }
    ensures value { result ≡ lex.integer base limit word.now }
    ensures fits { IfSome result (λ n. n ≤ limit) }
{
    let mut number = 0;
    let mut is_wanted = true;
    let mut rest = word;
    'all: while let Some((byte, after)) = rest.split_first() {
        if !is_wanted && *byte == b'_' {
            is_wanted = true;
        } else {
            number = one_more(base, limit, number, *byte)?;
            is_wanted = false;
        }
        rest = after;
    }
    if is_wanted { None } else { Some(number) }
}

// What stands behind the given bytes.
#[tactic(auto, unfolding(crate::specs::Lexing::Integers::after))]
fn after<'a>(front: &[u8], word: &'a [u8]) -> Option<&'a [u8]>
    ensures { lex.view_slice result ≡ lex.after front.now word.now }
{
    let mut wanted = front;
    let mut rest = word;
    'all: while let Some((first, others)) = wanted.split_first() {
        let (byte, behind) = rest.split_first()?;
        if *byte != *first {
            return None;
        }
        wanted = others;
        rest = behind;
    }
    Some(rest)
}

/// The base in front of the digits, and the digits.
#[tactic(auto, unfolding(crate::specs::Lexing::Integers::base_at))]
pub fn base_at(word: &[u8]) -> Option<(u8, &[u8])>
    ensures value { lex.view_base result ≡ lex.base_at word.now }
    ensures small { IfSome result (λ x. x.0 ≤ 16) }
{
    if let Some(digits) = after(b"2#", word) {
        return Some((2, digits));
    }
    if let Some(digits) = after(b"8#", word) {
        return Some((8, digits));
    }
    let digits = after(b"16#", word)?;
    Some((16, digits))
}
