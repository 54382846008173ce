//! Durations by themselves (B.1.2.3.1).

ghost use Rattle.std.specs.Prelude.{◌≡◌, ℤ, MatchOption};
ghost use Rattle.sfc_tokens.specs.Lexing.DurationWords as word_value;
ghost use Rattle.sfc_tokens.specs.Lexemes.{IsDuration};

use crate::lex_duration::interval;
use crate::literal::{LiteralKind, signed};
use sfc_base::run::{Alphabet, run};

// The value of the parts behind the sign.
fn parts_value(is_negative: bool, parts: &[u8]) -> Option<i64>
    ensures { result ≡ word_value.parts_value is_negative parts.now }
{
    match interval(parts) {
        Some(magnitude) => Some(signed(is_negative, magnitude)),
        None => None,
    }
}

// The value of what stands behind `T#`.
fn signed_value(text: &[u8]) -> Option<i64>
    ensures { result ≡ word_value.signed_value text.now }
{
    let Some((first, parts)) = text.split_first() else {
        return parts_value(false, text);
    };
    if *first == b'-' {
        parts_value(true, parts)
    } else {
        parts_value(false, text)
    }
}

// The value of the word, if it is a duration.
#[tactic(auto, unfolding(crate::specs::Lexing::DurationWords::duration_value))]
fn value_of(word: &[u8]) -> Option<i64>
    ensures { result ≡ word_value.duration_value word.now }
{
    let (front, behind) = run(Alphabet::Word, word);
    let Some((sharp, text)) = behind.split_first() else {
        return None;
    };
    if *sharp != b'#' {
        return None;
    }
    match LiteralKind::of_prefix(front) {
        Some(LiteralKind::Duration) => signed_value(text),
        _ => None,
    }
}

/// How many microseconds the word is, where the whole word is one duration such as `T#1d_2h` or `time#-1.5ms`, from
/// -2^62 to 2^62; None where it is none. It takes no memory.
pub fn duration(word: &[u8]) -> Option<i64>
    ensures is { MatchOption result ((z : ℤ) → IsDuration word.now z → ⊥) (λ z. IsDuration word.now z) }
    ensures value { result ≡ word_value.duration_value word.now }
{
    value_of(word)
}
