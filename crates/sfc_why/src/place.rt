//! Where in a text a fault is told. What a place is said to be is held to the lexer's own answers.

ghost use Rattle.std.specs.Prelude.{◌≡◌, ◌∷◌, [], take, IfOk, IfSome, IsTrue, Ok};
ghost use Rattle.sfc_tokens.specs.Texts.{TextLexes};
ghost use Rattle.sfc_tokens.specs.Tokens.{kinds};
ghost use Rattle.sfc_why.specs.Places.{AreTokens, IsPlaceOf, IsPlaceOfScript, front, piece};

use crate::sfc_places::span::Span;
use sfc_base::location::Location;
use sfc_events::read_error::ReadErrorKind;
use sfc_tokens::lex::tokens;
use sfc_tokens::token::{Token, TokenKind};
use std::alloc::{AllocError, Global};

/// A place in a text.
#[derive(Clone, Copy)]
pub enum Place {
    /// A token of the text, behind so many others, and its bytes.
    Token {
        index: usize,
        from: usize,
        length: usize,
    },
    /// Bytes that begin no token, behind so many tokens.
    Byte {
        index: usize,
        from: usize,
        length: usize,
    },
    /// Bytes of a script: a word, or none at the end of a line.
    Word {
        from: usize,
        length: usize,
    },
    /// The end of the text.
    End,
    /// The text as a whole.
    Whole,
}

impl Place {
    /// The bytes of the place in a text.
    pub fn span(self, text: &[u8]) -> Span {
        match self {
            Place::Token { from, length, .. }
            | Place::Byte { from, length, .. }
            | Place::Word { from, length } => Span {
                from,
                to: from.saturating_add(length),
            },
            Place::End => Span {
                from: text.len(),
                to: text.len(),
            },
            Place::Whole => Span { from: 0, to: 0 },
        }
    }
}

// Whether the two locations are one.
fn is_same_location(left: &Location, right: &Location) -> bool
    ensures { IsTrue result → left.now ≡ right.now }
{
    left.area() == right.area() && left.size() == right.size() && left.numbers() == right.numbers()
}

// Whether the two are one token.
fn is_same_kind(left: &TokenKind, right: &TokenKind) -> bool
    ensures { IsTrue result → left.now ≡ right.now }
{
    match (left, right) {
        (TokenKind::Keyword(a), TokenKind::Keyword(b)) => *a == *b,
        (TokenKind::Name(a), TokenKind::Name(b)) => a.spelling() == b.spelling(),
        (TokenKind::Delimiter(a), TokenKind::Delimiter(b)) => *a == *b,
        (TokenKind::Integer(a), TokenKind::Integer(b)) => *a == *b,
        (TokenKind::Based(a), TokenKind::Based(b)) => *a == *b,
        (TokenKind::Int(a), TokenKind::Int(b)) => *a == *b,
        (TokenKind::Dint(a), TokenKind::Dint(b)) => *a == *b,
        (TokenKind::Truth(a), TokenKind::Truth(b)) => *a == *b,
        (TokenKind::Duration(a), TokenKind::Duration(b)) => a.micros() == b.micros(),
        (TokenKind::Location(a), TokenKind::Location(b)) => is_same_location(a, b),
        _ => false,
    }
}

// How many tokens the bytes are; None where they are no tokens. The one error is that memory was refused.
fn count_tokens(alloc: Global, bytes: &[u8]) -> Result<Option<usize>, AllocError>
    ensures { IfOk result (λ count. IfSome count (AreTokens bytes.now)) }
{
    match tokens(alloc, bytes) {
        Ok(found) => Ok(Some(found.len())),
        Err(error) if error.kind == ReadErrorKind::Memory => Err(AllocError),
        Err(_) => Ok(None),
    }
}

// Whether so many tokens stand before a place of the text. The one error is that memory was refused.
fn stands_behind(alloc: Global, text: &[u8], from: usize, index: usize) -> Result<bool, AllocError>
    ensures { IfOk result (λ stands. IsTrue stands → AreTokens (take from text.now) index) }
{
    if from > text.len() {
        return Ok(false);
    }
    let (front, _) = text.split_at(from);
    match count_tokens(alloc, front)? {
        Some(count) => Ok(count == index),
        None => Ok(false),
    }
}

// Whether the bytes are just this token. The one error is that memory was refused.
fn is_only(alloc: Global, bytes: &[u8], token: &Token) -> Result<bool, AllocError>
    ensures { IfOk result (λ only. IsTrue only → TextLexes bytes.now (Ok (token.now.kind ∷ []))) }
{
    match tokens(alloc, bytes) {
        Ok(found) => match found.as_slice() {
            [only] => Ok(is_same_kind(&only.kind, &token.kind)),
            _ => Ok(false),
        },
        Err(error) if error.kind == ReadErrorKind::Memory => Err(AllocError),
        Err(_) => Ok(false),
    }
}

// Whether so many bytes of the text, from a place on, are just this token. The one error is that memory was refused.
fn is_piece(
    alloc: Global,
    text: &[u8],
    token: &Token,
    from: usize,
    length: usize,
) -> Result<bool, AllocError>
    ensures { IfOk result (λ only. IsTrue only → TextLexes (piece text.now from length) (Ok (token.now.kind ∷ []))) }
{
    if from > text.len() {
        return Ok(false);
    }
    let (_, behind) = text.split_at(from);
    if length > behind.len() {
        return Ok(false);
    }
    let (bytes, _) = behind.split_at(length);
    is_only(alloc, bytes, token)
}

/// The place of one of the tokens of a text, which has this index, where these bytes are it; else the text as a whole. The one
/// error is that memory was refused.
pub fn token_place(
    alloc: Global,
    text: &[u8],
    found: &[Token],
    index: usize,
    span: Span,
) -> Result<Place, AllocError>
    requires { TextLexes text.now (Ok (kinds found.now)) }
    ensures { IfOk result (IsPlaceOf text.now) }
{
    let Some(token) = found.get(index) else {
        return Ok(Place::Whole);
    };
    let from = span.from;
    let length = span.to.saturating_sub(from);
    if !is_piece(alloc, text, token, from, length)? {
        return Ok(Place::Whole);
    }
    if !stands_behind(alloc, text, from, index)? {
        return Ok(Place::Whole);
    }
    Ok(Place::Token {
        index,
        from,
        length,
    })
}

/// The place of bytes that begin no token, behind so many tokens, where so many stand before them; else the text as a whole. The
/// one error is that memory was refused.
pub fn byte_place(alloc: Global, text: &[u8], index: usize, span: Span) -> Result<Place, AllocError>
    ensures { IfOk result (IsPlaceOf text.now) }
{
    let from = span.from;
    let length = span.to.saturating_sub(from);
    if from >= text.len() {
        return Ok(Place::Whole);
    }
    if !stands_behind(alloc, text, from, index)? {
        return Ok(Place::Whole);
    }
    Ok(Place::Byte {
        index,
        from,
        length,
    })
}

/// The place of these bytes of a script, where they lie in it; else the script as a whole.
pub fn word_place(script: &[u8], span: Span) -> Place
    ensures { IsPlaceOfScript script.now result }
{
    let from = span.from;
    if from > script.len() || span.to < from || span.to > script.len() {
        return Place::Whole;
    }
    let length = span.to - from;
    Place::Word { from, length }
}

/// The bytes before a place in a text.
pub fn front_of(text: &[u8], place: Place) -> &[u8]
    ensures { result.now ≡ front text.now place }
{
    let from = match place {
        Place::Token { from, .. } | Place::Byte { from, .. } | Place::Word { from, .. } => from,
        Place::End => return text,
        Place::Whole => return b"",
    };
    if from > text.len() {
        return text;
    }
    let (front, _) = text.split_at(from);
    front
}
