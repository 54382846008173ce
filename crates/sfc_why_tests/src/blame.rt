//! What makes a line no line of a test.

use crate::piece::Piece;
use crate::wanted::Wanted;
use sfc_base::ids::ProgId;
use sfc_why::naming::Sought;
use sfc_why::sfc_hints::sfc_places::span::Span;

/// What makes a line no line of a test, or names what the plant hasn't.
#[derive(Clone, Copy)]
pub enum Blame<'a> {
    /// These bytes, or the place where nothing stands, aren't what is wanted.
    Word(Piece<'a>, Wanted),
    /// These bytes are no condition of the program instance.
    Condition(Piece<'a>, ProgId),
    /// The plant has nothing that is sought by the name in these bytes.
    Missing(Span, Sought),
}

impl<'a> Blame<'a> {
    /// The first word of what stands here isn't what is wanted, or nothing stands here.
    pub fn of_first(text: Piece<'a>, wanted: Wanted) -> Blame<'a> {
        match text.split() {
            Some((word, _)) => Blame::Word(word, wanted),
            None => Blame::Word(text.end(), wanted),
        }
    }
}

/// Tells what stands behind the end of a line, if anything does.
pub fn behind_end(text: Piece<'_>) -> Option<Blame<'_>> {
    let (word, _) = text.split()?;
    Some(Blame::Word(word, Wanted::LineEnd))
}
