//! Literals (2.2): what stands behind their prefix.

ghost use Rattle.std.specs.Prelude.{◌≡◌, ◌≤◌, ◌^◌, Option, Some, None, IfSome, IfOk};
ghost use Rattle.sfc_base.specs.Durations.{IsTimeValue};
ghost use Rattle.sfc_tokens.specs.Literals as literals;
ghost use Rattle.sfc_tokens.specs.Lexing.Literals as lex;

use crate::lex_duration::interval;
use crate::lex_location::location;
use crate::number::{base_at, integer};
use crate::token::TokenKind;
use sfc_base::case::is_same_word;
use sfc_base::run::Alphabet;
use sfc_base::time_value::TimeValue;
use sfc_events::read_error::ReadErrorKind;
use std::alloc::{AllocError, Global};

/// What a literal is, by what stands in front of it.
#[derive(Clone, Copy, Debug, PartialEq, Eq)]
pub enum LiteralKind {
    /// Nothing: it begins with a digit.
    Number,
    /// `INT#`.
    Int,
    /// `DINT#`.
    Dint,
    /// `BOOL#`.
    Truth,
    /// `T#` or `TIME#`.
    Duration,
    /// `%`.
    Location,
}

impl LiteralKind {
    /// The kind that the word before `#` stands for.
    #[tactic(auto, unfolding(crate::specs::Literals::kind_of_prefix))]
    pub fn of_prefix(word: &[u8]) -> Option<LiteralKind>
        ensures { result ≡ literals.kind_of_prefix word.now }
    {
        if is_same_word(word, b"T") || is_same_word(word, b"TIME") {
            Some(LiteralKind::Duration)
        } else if is_same_word(word, b"INT") {
            Some(LiteralKind::Int)
        } else if is_same_word(word, b"DINT") {
            Some(LiteralKind::Dint)
        } else if is_same_word(word, b"BOOL") {
            Some(LiteralKind::Truth)
        } else {
            None
        }
    }

    /// The bytes of which it may consist, behind its prefix and its sign.
    pub fn alphabet(self) -> Alphabet
        ensures { result ≡ literals.alphabet_of self }
    {
        match self {
            LiteralKind::Number | LiteralKind::Int | LiteralKind::Dint | LiteralKind::Truth => {
                Alphabet::Number
            }
            LiteralKind::Duration => Alphabet::Interval,
            LiteralKind::Location => Alphabet::Location,
        }
    }

    /// What is wrong where it is none.
    pub fn fault(self) -> ReadErrorKind
        ensures { result ≡ literals.fault_of self }
    {
        match self {
            LiteralKind::Number | LiteralKind::Int | LiteralKind::Dint => ReadErrorKind::BadNumber,
            LiteralKind::Duration => ReadErrorKind::BadDuration,
            LiteralKind::Truth | LiteralKind::Location => ReadErrorKind::BadToken,
        }
    }
}

/// The greatest integer literal.
const LIMIT: u64 = 0xffff_ffff;

// An integer of 32 bits, with a base or without one.
fn magnitude(word: &[u8]) -> Option<u64>
    ensures value { result ≡ lex.magnitude word.now }
    ensures fits { IfSome result (λ n. n ≤ 2 ^ 62) }
{
    match base_at(word) {
        Some((base, digits)) => integer(base, LIMIT, digits),
        None => integer(10, LIMIT, word),
    }
}

/// The number with its sign.
pub fn signed(is_negative: bool, magnitude: u64) -> i64
    requires { magnitude ≤ 2 ^ 62 }
    ensures value { result ≡ literals.signed is_negative magnitude }
    ensures limited { IsTimeValue result }
{
    let value = magnitude as i64;
    if is_negative { -value } else { value }
}

// The TIME value of so many microseconds with their sign.
fn time(is_negative: bool, magnitude: u64) -> TimeValue
    requires { magnitude ≤ 2 ^ 62 }
    ensures { result ≡ literals.signed is_negative magnitude }
{
    TimeValue::new(signed(is_negative, magnitude))
}

// An integer without a type.
fn untyped(word: &[u8]) -> Option<TokenKind>
    ensures { result ≡ lex.untyped word.now }
{
    match base_at(word) {
        Some((base, digits)) => Some(TokenKind::Based(integer(base, LIMIT, digits)? as u32)),
        None => Some(TokenKind::Integer(integer(10, LIMIT, word)? as u32)),
    }
}

// The value of a BOOL literal.
fn truth(word: &[u8]) -> Option<bool>
    ensures { result ≡ literals.truth_of word.now }
{
    if is_same_word(word, b"0") || is_same_word(word, b"FALSE") {
        Some(false)
    } else if is_same_word(word, b"1") || is_same_word(word, b"TRUE") {
        Some(true)
    } else {
        None
    }
}

// The literal that the word is, with a minus before it or without one; locations apart.
#[tactic(auto, unfolding(crate::specs::Lexing::Literals::value_of))]
fn value_of(kind: LiteralKind, is_negative: bool, word: &[u8]) -> Option<TokenKind>
    ensures { result ≡ lex.value_of kind is_negative word.now }
{
    match kind {
        LiteralKind::Int => Some(TokenKind::Int(signed(is_negative, magnitude(word)?))),
        LiteralKind::Dint => Some(TokenKind::Dint(signed(is_negative, magnitude(word)?))),
        LiteralKind::Duration => Some(TokenKind::Duration(time(is_negative, interval(word)?))),
        LiteralKind::Number if !is_negative => untyped(word),
        LiteralKind::Truth if !is_negative => Some(TokenKind::Truth(truth(word)?)),
        _ => None,
    }
}

/// The literal that the word is, with a minus before it or without one, if it is one. The one error is that memory
/// was refused.
#[tactic(auto, unfolding(crate::specs::Lexing::Literals::literal))]
pub fn literal(
    alloc: Global,
    kind: LiteralKind,
    is_negative: bool,
    word: &[u8],
) -> Result<Option<TokenKind>, AllocError>
    ensures { IfOk result (λ found. lex.literal kind is_negative word.now ≡ found) }
{
    match kind {
        LiteralKind::Location if !is_negative => match location(alloc, word)? {
            Some(location) => Ok(Some(TokenKind::Location(location))),
            None => Ok(None),
        },
        _ => Ok(value_of(kind, is_negative, word)),
    }
}
