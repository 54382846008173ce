//! Operators (3.3.1), by levels from the tightest.

ghost use Rattle.std.specs.Prelude.{◌≡◌};
ghost use Rattle.sfc_tokens.specs.Tokens.{kinds};
ghost use Rattle.sfc_text.specs.Building as make;
ghost use Rattle.sfc_text.specs.Grammar as grammar;
ghost use Rattle.sfc_text.specs.Grammar.{operators_at};
ghost use Rattle.sfc_text.specs.Parsing.Depth.{reads};
ghost use Rattle.sfc_text.specs.Parsing.Lookahead.{begins};
ghost use Rattle.sfc_text.specs.Parsing.Reading.{Gives, view};

use crate::expression::Operator;
use crate::parse::fault::ParseFault;
use crate::parse::terminal::{begins_sign, begins_word, syntax};
use sfc_base::delimiter::Delimiter;
use sfc_base::keyword::Keyword;
use sfc_tokens::token::{Token, TokenKind};

// The operator that the token is.
fn operator_of(kind: &TokenKind) -> Option<Operator>
    ensures { result ≡ make.operator_of kind.now }
{
    match kind {
        TokenKind::Keyword(Keyword::Or) => Some(Operator::Or),
        TokenKind::Keyword(Keyword::Xor) => Some(Operator::Xor),
        TokenKind::Keyword(Keyword::And) => Some(Operator::And),
        TokenKind::Delimiter(Delimiter::Ampersand) => Some(Operator::And),
        TokenKind::Delimiter(Delimiter::Equal) => Some(Operator::Equal),
        TokenKind::Delimiter(Delimiter::NotEqual) => Some(Operator::NotEqual),
        TokenKind::Delimiter(Delimiter::Less) => Some(Operator::Less),
        TokenKind::Delimiter(Delimiter::Greater) => Some(Operator::Greater),
        TokenKind::Delimiter(Delimiter::LessOrEqual) => Some(Operator::LessOrEqual),
        TokenKind::Delimiter(Delimiter::GreaterOrEqual) => Some(Operator::GreaterOrEqual),
        TokenKind::Delimiter(Delimiter::Plus) => Some(Operator::Add),
        TokenKind::Delimiter(Delimiter::Minus) => Some(Operator::Subtract),
        TokenKind::Delimiter(Delimiter::Star) => Some(Operator::Multiply),
        TokenKind::Delimiter(Delimiter::Slash) => Some(Operator::Divide),
        TokenKind::Keyword(Keyword::Mod) => Some(Operator::Modulo),
        _ => None,
    }
}

/// Whether an operator of this level stands first.
pub fn begins_operator(tokens: &[Token], level: u8) -> bool
    ensures { result ≡ begins (operators_at level) (kinds tokens.now) }
{
    match level {
        1 => {
            begins_sign(tokens, Delimiter::Star)
                || begins_sign(tokens, Delimiter::Slash)
                || begins_word(tokens, Keyword::Mod)
        }
        2 => begins_sign(tokens, Delimiter::Plus) || begins_sign(tokens, Delimiter::Minus),
        3 => {
            begins_sign(tokens, Delimiter::Less)
                || begins_sign(tokens, Delimiter::Greater)
                || begins_sign(tokens, Delimiter::LessOrEqual)
                || begins_sign(tokens, Delimiter::GreaterOrEqual)
        }
        4 => begins_sign(tokens, Delimiter::Equal) || begins_sign(tokens, Delimiter::NotEqual),
        5 => begins_word(tokens, Keyword::And) || begins_sign(tokens, Delimiter::Ampersand),
        6 => begins_word(tokens, Keyword::Xor),
        7 => begins_word(tokens, Keyword::Or),
        _ => false,
    }
}

/// An operator of this level, and what follows it.
pub fn operator(tokens: &[Token], level: u8) -> Result<(Operator, &[Token]), ParseFault>
    ensures { Gives view result (reads (grammar.operator level) (kinds tokens.now)) }
{
    if !begins_operator(tokens, level) {
        return Err(syntax(tokens));
    }
    match tokens {
        [Token { kind, .. }, rest @ ..] => match operator_of(kind) {
            Some(operator) => Ok((operator, rest)),
            None => Err(syntax(tokens)),
        },
        _ => Err(syntax(tokens)),
    }
}
