//! Single tokens.

ghost use Rattle.std.specs.Prelude.{◌≡◌, ◌∷◌, []};
ghost use Rattle.sfc_tokens.specs.Tokens.{kinds};
ghost use Rattle.sfc_text.specs.Building as make;
ghost use Rattle.sfc_text.specs.Grammar as grammar;
ghost use Rattle.sfc_text.specs.Marks.{Word, Sign, Named, AnyName};
ghost use Rattle.sfc_text.specs.Parsing.Depth.{reads};
ghost use Rattle.sfc_text.specs.Parsing.Lookahead.{begins};
ghost use Rattle.sfc_text.specs.Parsing.Reading.{Gives, IsSyntax, IsTooDeep, view, view_rest};
ghost use Rattle.sfc_text.specs.Places as places;
ghost use Rattle.sfc_text.specs.Terms as terms;

use crate::parse::fault::ParseFault;
use crate::tree::Literal;
use sfc_base::case::is_same_word;
use sfc_base::delimiter::Delimiter;
use sfc_base::keyword::Keyword;
use sfc_base::location::Location;
use sfc_base::name::Name;
use sfc_base::time_value::TimeValue;
use sfc_base::var_type::VarType;
use sfc_tokens::placed::Placed;
use sfc_tokens::token::{Token, TokenKind};
use std::alloc::Global;

/// The token at the front of these can't stand there.
pub fn syntax(tokens: &[Token]) -> ParseFault
    ensures { IsSyntax result }
{
    ParseFault::Syntax { left: tokens.len() }
}

/// The token at the front of these is beyond a limit.
pub fn too_deep(tokens: &[Token]) -> ParseFault
    ensures { IsTooDeep result }
{
    ParseFault::TooDeep { left: tokens.len() }
}

// Whether the two are one reserved word.
fn is_same_keyword(left: Keyword, right: Keyword) -> bool
    ensures { result ≡ places.same_keyword left right }
{
    left == right
}

// Whether the two are one delimiter.
fn is_same_delimiter(left: Delimiter, right: Delimiter) -> bool
    ensures { result ≡ places.same_delimiter left right }
{
    left == right
}

/// What follows the reserved word.
pub fn word(tokens: &[Token], wanted: Keyword) -> Result<&[Token], ParseFault>
    ensures { Gives view_rest result (reads (terms.word wanted) (kinds tokens.now)) }
{
    match tokens {
        [
            Token {
                kind: TokenKind::Keyword(found),
                ..
            },
            rest @ ..,
        ] if is_same_keyword(*found, wanted) => Ok(rest),
        _ => Err(syntax(tokens)),
    }
}

/// What follows the delimiter.
pub fn sign(tokens: &[Token], wanted: Delimiter) -> Result<&[Token], ParseFault>
    ensures { Gives view_rest result (reads (terms.sign wanted) (kinds tokens.now)) }
{
    match tokens {
        [
            Token {
                kind: TokenKind::Delimiter(found),
                ..
            },
            rest @ ..,
        ] if is_same_delimiter(*found, wanted) => Ok(rest),
        _ => Err(syntax(tokens)),
    }
}

/// What follows a word that is reserved in its place only, given in capital letters.
pub fn named<'a>(tokens: &'a [Token], wanted: &[u8]) -> Result<&'a [Token], ParseFault>
    ensures { Gives view_rest result (reads (terms.named wanted.now) (kinds tokens.now)) }
{
    match tokens {
        [
            Token {
                kind: TokenKind::Name(found),
                ..
            },
            rest @ ..,
        ] if is_same_word(found.spelling(), wanted) => Ok(rest),
        _ => Err(syntax(tokens)),
    }
}

/// A name, and what follows it.
pub fn name(alloc: Global, tokens: &[Token]) -> Result<(Placed<Name>, &[Token]), ParseFault>
    ensures { Gives view result (reads grammar.name (kinds tokens.now)) }
{
    match tokens {
        [
            Token {
                kind: TokenKind::Name(found),
                span,
            },
            rest @ ..,
        ] => Ok((Placed::new(found.copy(alloc)?, *span), rest)),
        _ => Err(syntax(tokens)),
    }
}

/// A decimal integer without a type, and what follows it.
pub fn integer(tokens: &[Token]) -> Result<(u32, &[Token]), ParseFault>
    ensures { Gives view result (reads grammar.integer (kinds tokens.now)) }
{
    match tokens {
        [
            Token {
                kind: TokenKind::Integer(value),
                ..
            },
            rest @ ..,
        ] => Ok((*value, rest)),
        _ => Err(syntax(tokens)),
    }
}

/// A duration, and what follows it.
pub fn duration(tokens: &[Token]) -> Result<(TimeValue, &[Token]), ParseFault>
    ensures { Gives view result (reads grammar.duration (kinds tokens.now)) }
{
    match tokens {
        [
            Token {
                kind: TokenKind::Duration(value),
                ..
            },
            rest @ ..,
        ] => Ok((*value, rest)),
        _ => Err(syntax(tokens)),
    }
}

/// A location, and what follows it.
pub fn location(alloc: Global, tokens: &[Token]) -> Result<(Placed<Location>, &[Token]), ParseFault>
    ensures { Gives view result (reads grammar.location (kinds tokens.now)) }
{
    match tokens {
        [
            Token {
                kind: TokenKind::Location(found),
                span,
            },
            rest @ ..,
        ] => Ok((Placed::new(found.copy(alloc)?, *span), rest)),
        _ => Err(syntax(tokens)),
    }
}

/// A type (2.3.1), and what follows it.
#[tactic(auto, unfolding(crate::specs::Grammar::data_type))]
pub fn var_type(tokens: &[Token]) -> Result<(VarType, &[Token]), ParseFault>
    ensures { Gives view result (reads grammar.data_type (kinds tokens.now)) }
{
    match tokens {
        [
            Token {
                kind: TokenKind::Keyword(found),
                ..
            },
            rest @ ..,
        ] => match found {
            Keyword::Bool => Ok((VarType::Bool, rest)),
            Keyword::Int => Ok((VarType::Int, rest)),
            Keyword::Dint => Ok((VarType::Dint, rest)),
            Keyword::Time => Ok((VarType::Time, rest)),
            _ => Err(syntax(tokens)),
        },
        _ => Err(syntax(tokens)),
    }
}

// The literal that the token is.
fn literal_of(kind: &TokenKind) -> Option<Literal>
    ensures { result ≡ make.literal_of kind.now }
{
    match kind {
        TokenKind::Integer(value) | TokenKind::Based(value) => {
            Some(Literal::Integer(i64::from(*value)))
        }
        TokenKind::Int(value) => Some(Literal::Int(*value)),
        TokenKind::Dint(value) => Some(Literal::Dint(*value)),
        TokenKind::Truth(value) => Some(Literal::Bool(*value)),
        TokenKind::Duration(value) => Some(Literal::Time(*value)),
        TokenKind::Keyword(Keyword::True) => Some(Literal::Bool(true)),
        TokenKind::Keyword(Keyword::False) => Some(Literal::Bool(false)),
        _ => None,
    }
}

/// A literal (2.2), and what follows it.
#[tactic(auto, unfolding(crate::specs::Grammar::literal))]
pub fn literal(tokens: &[Token]) -> Result<(Literal, &[Token]), ParseFault>
    ensures { Gives view result (reads grammar.literal (kinds tokens.now)) }
{
    match tokens {
        [Token { kind, .. }, rest @ ..] => match literal_of(kind) {
            Some(literal) => Ok((literal, rest)),
            None => Err(syntax(tokens)),
        },
        _ => Err(syntax(tokens)),
    }
}

/// An integer with a minus, and what follows it.
#[tactic(auto, unfolding(crate::specs::Grammar::signed))]
pub fn signed(tokens: &[Token]) -> Result<(Literal, &[Token]), ParseFault>
    ensures { Gives view result (reads grammar.signed (kinds tokens.now)) }
{
    let tokens = sign(tokens, Delimiter::Minus)?;
    let (value, tokens) = integer(tokens)?;
    Ok((Literal::Integer(-i64::from(value)), tokens))
}

/// Whether this reserved word stands first.
pub fn begins_word(tokens: &[Token], wanted: Keyword) -> bool
    ensures { result ≡ begins (Word wanted ∷ []) (kinds tokens.now) }
{
    match tokens {
        [
            Token {
                kind: TokenKind::Keyword(found),
                ..
            },
            ..
        ] => is_same_keyword(*found, wanted),
        _ => false,
    }
}

/// Whether this delimiter stands first.
pub fn begins_sign(tokens: &[Token], wanted: Delimiter) -> bool
    ensures { result ≡ begins (Sign wanted ∷ []) (kinds tokens.now) }
{
    match tokens {
        [
            Token {
                kind: TokenKind::Delimiter(found),
                ..
            },
            ..
        ] => is_same_delimiter(*found, wanted),
        _ => false,
    }
}

/// Whether this word stands first, given in capital letters.
pub fn begins_named(tokens: &[Token], wanted: &[u8]) -> bool
    ensures { result ≡ begins (Named wanted.now ∷ []) (kinds tokens.now) }
{
    match tokens {
        [
            Token {
                kind: TokenKind::Name(found),
                ..
            },
            ..
        ] => is_same_word(found.spelling(), wanted),
        _ => false,
    }
}

/// Whether a name stands first.
pub fn begins_name(tokens: &[Token]) -> bool
    ensures { result ≡ begins (AnyName ∷ []) (kinds tokens.now) }
{
    matches!(
        tokens,
        [
            Token {
                kind: TokenKind::Name(_),
                ..
            },
            ..
        ]
    )
}
