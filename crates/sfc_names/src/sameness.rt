//! Whether two texts say the same.

ghost use Rattle.std.specs.Prelude.{◌≡◌, IfOk, IsTrue};
ghost use Rattle.sfc_names.specs.Sameness.{AreSameButNames, HaveSameTokens, HaveSameTokensButNames, IsSameButName};
ghost use Rattle.sfc_tokens.specs.Tokens.{kinds};

use crate::chart::tokens_of;
use sfc_base::location::Location;
use sfc_tokens::token::{Token, TokenKind};
use std::alloc::{AllocError, Global};

// Whether the two locations are one.
fn is_same_location(left: &Location, right: &Location) -> bool
    ensures { IsTrue result → left.now ≡ right.now }
{
    left.area() == right.area() && left.size() == right.size() && left.numbers() == right.numbers()
}

// Whether the two are one token.
fn is_same_kind(left: &TokenKind, right: &TokenKind) -> bool
    ensures { IsTrue result → left.now ≡ right.now }
{
    match (left, right) {
        (TokenKind::Keyword(a), TokenKind::Keyword(b)) => *a == *b,
        (TokenKind::Name(a), TokenKind::Name(b)) => a.spelling() == b.spelling(),
        (TokenKind::Delimiter(a), TokenKind::Delimiter(b)) => *a == *b,
        (TokenKind::Integer(a), TokenKind::Integer(b)) => *a == *b,
        (TokenKind::Based(a), TokenKind::Based(b)) => *a == *b,
        (TokenKind::Int(a), TokenKind::Int(b)) => *a == *b,
        (TokenKind::Dint(a), TokenKind::Dint(b)) => *a == *b,
        (TokenKind::Truth(a), TokenKind::Truth(b)) => *a == *b,
        (TokenKind::Duration(a), TokenKind::Duration(b)) => a.micros() == b.micros(),
        (TokenKind::Location(a), TokenKind::Location(b)) => is_same_location(a, b),
        _ => false,
    }
}

// Whether the tokens are the same, one by one.
fn are_same_kinds(left: &[Token], right: &[Token]) -> bool
    ensures { IsTrue result → kinds left.now ≡ kinds right.now }
{
    let (mut firsts, mut seconds) = (left, right);
    'all: while let Some((first, behind)) = firsts.split_first() {
        let Some((second, others)) = seconds.split_first() else {
            return false;
        };
        if !is_same_kind(&first.kind, &second.kind) {
            return false;
        }
        firsts = behind;
        seconds = others;
    }
    seconds.is_empty()
}

/// Whether two texts have the same tokens, and each has tokens at all. The one error is that memory was refused.
pub fn have_same_tokens(alloc: Global, left: &[u8], right: &[u8]) -> Result<bool, AllocError>
    ensures { IfOk result (λ same. IsTrue same → HaveSameTokens left.now right.now) }
{
    let Some(first) = tokens_of(alloc, left)? else {
        return Ok(false);
    };
    let Some(second) = tokens_of(alloc, right)? else {
        return Ok(false);
    };
    Ok(are_same_kinds(&first, &second))
}

// Whether the two are one token, or both are names.
fn is_same_but_name(left: &TokenKind, right: &TokenKind) -> bool
    ensures { IsTrue result → IsSameButName left.now right.now }
{
    match (left, right) {
        (TokenKind::Name(_), TokenKind::Name(_)) => true,
        _ => is_same_kind(left, right),
    }
}

// Whether the tokens are the same, one by one, but for names.
fn are_same_but_names(left: &[Token], right: &[Token]) -> bool
    ensures { IsTrue result → AreSameButNames (kinds left.now) (kinds right.now) }
{
    let (mut firsts, mut seconds) = (left, right);
    'all: while let Some((first, behind)) = firsts.split_first() {
        let Some((second, others)) = seconds.split_first() else {
            return false;
        };
        if !is_same_but_name(&first.kind, &second.kind) {
            return false;
        }
        firsts = behind;
        seconds = others;
    }
    seconds.is_empty()
}

/// Whether two texts have the same tokens but for names, and each has tokens at all. The one error is that memory was refused.
pub fn have_same_tokens_but_names(
    alloc: Global,
    left: &[u8],
    right: &[u8],
) -> Result<bool, AllocError>
    ensures { IfOk result (λ same. IsTrue same → HaveSameTokensButNames left.now right.now) }
{
    let Some(first) = tokens_of(alloc, left)? else {
        return Ok(false);
    };
    let Some(second) = tokens_of(alloc, right)? else {
        return Ok(false);
    };
    Ok(are_same_but_names(&first, &second))
}
