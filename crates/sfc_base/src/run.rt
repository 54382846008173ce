//! The longest run of bytes of one alphabet.

ghost use Rattle.std.specs.Prelude.{◌≡◌};
ghost use Rattle.sfc_base.specs.Runs as runs;
ghost use Rattle.sfc_base.specs.Private.Runs as lexing;

use crate::class::{Class, class_of};
use crate::delimiter::Delimiter;

/// The bytes of which a part of a token consists.
#[derive(Clone, Copy, Debug, PartialEq, Eq)]
pub enum Alphabet {
    /// Letters.
    Letters,
    /// Digits and underscores.
    Figures,
    /// Digits, underscores and `.`.
    Fraction,
    /// Letters, digits and underscores.
    Word,
    /// Those of a word, and `#`.
    Number,
    /// Those of a word, and `.`.
    Interval,
    /// Those of a word, `#` and `.`.
    Location,
}

/// Whether the byte belongs to the alphabet.
pub fn has(alphabet: Alphabet, byte: u8) -> bool
    ensures { result ≡ runs.has alphabet byte }
{
    let class = class_of(byte);
    let is_letter = matches!(class, Class::Letter);
    let is_figure = matches!(class, Class::Digit | Class::Underscore);
    let is_sharp = matches!(class, Class::Sharp);
    let is_dot = matches!(class, Class::Sign(Delimiter::Dot));
    match alphabet {
        Alphabet::Letters => is_letter,
        Alphabet::Figures => is_figure,
        Alphabet::Fraction => is_figure || is_dot,
        Alphabet::Word => is_letter || is_figure,
        Alphabet::Number => is_letter || is_figure || is_sharp,
        Alphabet::Interval => is_letter || is_figure || is_dot,
        Alphabet::Location => is_letter || is_figure || is_sharp || is_dot,
    }
}

/// The longest run of bytes of the alphabet at the front, and the rest.
#[tactic(auto, unfolding(crate::specs::Private::Runs::run))]
pub fn run(alphabet: Alphabet, bytes: &[u8]) -> (&[u8], &[u8])
    ensures { (result.0.now, result.1.now) ≡ lexing.run alphabet bytes.now }
{
    let mut count = 0;
    'all: for byte in bytes {
        if !has(alphabet, *byte) {
            break;
        }
        count += 1;
    }
    bytes.split_at(count)
}
