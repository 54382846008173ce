//! The tokens of a text by bytes.

ghost use Rattle.std.specs.Prelude.{◌≡◌};
ghost use Rattle.sfc_names.specs.Pieces as pieces;
ghost use Rattle.sfc_outline.specs.Places.{bytes};

use sfc_base::delimiter::Delimiter;
use sfc_base::keyword::Keyword;
use sfc_tokens::span::Span;
use sfc_tokens::token::{Token, TokenKind};

/// The bytes of a text from one place up to another one, as far as it has them.
pub fn piece_of(text: &[u8], from: usize, to: usize) -> &[u8]
    ensures { result.now ≡ pieces.piece text.now from to }
{
    if from > text.len() {
        return b"";
    }
    let (_, behind) = text.split_at(from);
    let count = to.saturating_sub(from);
    if count > behind.len() {
        return behind;
    }
    let (piece, _) = behind.split_at(count);
    piece
}

/// These bytes of a text, as far as it has them.
pub fn bytes_of(text: &[u8], span: Span) -> &[u8]
    ensures { result.now ≡ bytes text.now span }
{
    piece_of(text, span.from as usize, span.to as usize)
}

/// Whether the token is a word.
pub fn is_word(token: &Token) -> bool {
    matches!(&token.kind, TokenKind::Name(_) | TokenKind::Keyword(_))
}

/// The reserved word that a token is, if it is one.
pub fn keyword_of(token: &Token) -> Option<Keyword> {
    match &token.kind {
        TokenKind::Keyword(word) => Some(*word),
        _ => None,
    }
}

/// Whether the token is this sign.
pub fn is_sign(token: Option<&Token>, sign: Delimiter) -> bool {
    match token {
        Some(token) => match &token.kind {
            TokenKind::Delimiter(found) => *found == sign,
            _ => false,
        },
        None => false,
    }
}

/// The place of the token before this one; None where it is the first one.
pub fn before(index: usize) -> Option<usize> {
    index.checked_sub(1)
}

/// The token before this one, so many places away.
pub fn token_before(tokens: &[Token], index: usize, count: usize) -> Option<&Token> {
    tokens.get(index.checked_sub(count)?)
}

/// The place of the token in which a byte stands, or of the word that ends before it.
pub fn token_at(tokens: &[Token], byte: u32) -> Option<usize> {
    let behind = tokens.partition_point(|token| token.span.to <= byte);
    if let Some(token) = tokens.get(behind) {
        if token.span.from <= byte {
            return Some(behind);
        }
    }
    let ended = before(behind)?;
    let token = tokens.get(ended)?;
    if token.span.to == byte && is_word(token) {
        Some(ended)
    } else {
        None
    }
}
