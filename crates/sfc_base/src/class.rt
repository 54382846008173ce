//! What a byte may begin.

ghost use Rattle.std.specs.Prelude.{◌≡◌, Option, Some, None};
ghost use Rattle.sfc_base.specs.Classes as classes;

use crate::delimiter::Delimiter;

/// The class of a byte.
#[derive(Clone, Copy, Debug, PartialEq, Eq)]
pub enum Class {
    /// Space, tab, CR or LF.
    Space,
    Letter,
    Underscore,
    Digit,
    /// `#`, behind the base or the type of a literal.
    Sharp,
    /// `%`, before a location.
    Percent,
    /// `{`, before a pragma.
    Brace,
    /// A byte that is a delimiter by itself.
    Sign(Delimiter),
    /// A byte over 127.
    High,
    /// Any other byte.
    Other,
}

/// The class of the byte.
#[inline(always)]
#[tactic(auto, unfolding(crate::specs::Classes::class_of))]
pub fn class_of(byte: u8) -> Class
    ensures { result ≡ classes.class_of byte }
{
    match byte {
        b' ' | b'\t' | b'\r' | b'\n' => Class::Space,
        b'A'..=b'Z' | b'a'..=b'z' => Class::Letter,
        b'_' => Class::Underscore,
        b'0'..=b'9' => Class::Digit,
        b'#' => Class::Sharp,
        b'%' => Class::Percent,
        b'{' => Class::Brace,
        128.. => Class::High,
        _ => match mark_of(byte) {
            Some(delimiter) => Class::Sign(delimiter),
            None => operator_class(byte),
        },
    }
}

// The mark that parts other tokens.
fn mark_of(byte: u8) -> Option<Delimiter>
    ensures { result ≡ classes.mark_of byte }
{
    match byte {
        b'(' => Some(Delimiter::Open),
        b')' => Some(Delimiter::Close),
        b':' => Some(Delimiter::Colon),
        b';' => Some(Delimiter::Semicolon),
        b',' => Some(Delimiter::Comma),
        b'.' => Some(Delimiter::Dot),
        _ => None,
    }
}

// The class of a byte that joins operands, or begins no token.
fn operator_class(byte: u8) -> Class
    ensures { result ≡ classes.operator_class byte }
{
    match byte {
        b'+' => Class::Sign(Delimiter::Plus),
        b'-' => Class::Sign(Delimiter::Minus),
        b'*' => Class::Sign(Delimiter::Star),
        b'/' => Class::Sign(Delimiter::Slash),
        b'&' => Class::Sign(Delimiter::Ampersand),
        b'<' => Class::Sign(Delimiter::Less),
        b'>' => Class::Sign(Delimiter::Greater),
        b'=' => Class::Sign(Delimiter::Equal),
        _ => Class::Other,
    }
}

/// The class of the first byte; that of no byte is `Other`.
pub fn first_class(bytes: &[u8]) -> Class
    ensures { result ≡ classes.first_class bytes.now }
{
    match bytes.first() {
        Some(byte) => class_of(*byte),
        None => Class::Other,
    }
}
