//! What is wanted of the cases of a file.

ghost use Rattle.std.specs.Prelude.{◌≡◌};
ghost use Rattle.sfc_test.specs.Cases as cases;

/// What is done with the cases that are taken.
#[derive(Clone, Copy, Debug, PartialEq, Eq)]
pub enum Asked {
    /// Their names are told, and none is run.
    Names,
    /// They are run, and of each is told `ok` or `FAILED`.
    Results,
    /// They are run, and told as the Test Anything Protocol has it.
    Tap,
}

/// Which cases are taken, and what is done with them.
#[derive(Clone, Copy)]
pub struct Choice<'a> {
    /// Those alone are taken whose titles have these bytes in them.
    pub filter: &'a [u8],
    pub asked: Asked,
}

/// Whether a word stands somewhere in the bytes.
pub fn has_word(bytes: &[u8], word: &[u8]) -> bool
    ensures { result ≡ cases.has_word word.now bytes.now }
{
    let mut rest = bytes;
    'bytes: while let Some((_, behind)) = rest.split_first() {
        if rest.starts_with(word) {
            return true;
        }
        rest = behind;
    }
    word.is_empty()
}
