//! Reserved words that may be meant where a word is none.

use crate::expected::KEYWORDS;
use crate::misplaced::Misplaced;
use crate::near::distance;
use crate::short_front::short_front;
use crate::trial::{Goal, Outcome, try_front};
use sfc_base::case::is_same_word;
use std::alloc::{AllocError, Global};

/// The shortest word that is taken for a reserved one.
const SHORTEST: usize = 3;

// Whether a text may go on behind its front with the word.
fn may_follow(alloc: Global, front: &[u8], word: &str) -> Result<bool, AllocError> {
    Ok(try_front(alloc, Goal::Chart, front, word.as_bytes())? != Outcome::Wrong)
}

// The reserved word that is nearest to this one, among those that may stand behind the front of a text.
fn nearest_behind(
    alloc: Global,
    front: &[u8],
    word: &[u8],
) -> Result<Option<&'static str>, AllocError> {
    let mut best = None;
    let mut least = usize::MAX;
    for reserved in KEYWORDS.split_whitespace() {
        if let Some(far) = distance(alloc, word, reserved.as_bytes())? {
            if far < least && may_follow(alloc, front, reserved)? {
                best = Some(reserved);
                least = far;
            }
        }
    }
    Ok(best)
}

// The word that two words are together.
fn joined(alloc: Global, first: &[u8], second: &[u8]) -> Result<Vec<u8>, AllocError> {
    let mut word = Vec::from_slice(alloc, first)?;
    word.extend_from_slice(b"_")?;
    word.extend_from_slice(second)?;
    Ok(word)
}

// The reserved word that two words are together, if they are one.
fn joined_word(
    alloc: Global,
    first: &[u8],
    second: &[u8],
) -> Result<Option<&'static str>, AllocError> {
    let word = joined(alloc, first, second)?;
    for reserved in KEYWORDS.split_whitespace() {
        if is_same_word(reserved.as_bytes(), &word) {
            return Ok(Some(reserved));
        }
    }
    Ok(None)
}

impl Misplaced<'_> {
    // The reserved word that is nearest to the name so many places before, and that may stand there.
    fn nearest_before(
        &self,
        alloc: Global,
        count: usize,
    ) -> Result<Option<&'static str>, AllocError> {
        let name = self.name_before(count);
        let Some(at) = self.back(count) else {
            return Ok(None);
        };
        if name.len() < SHORTEST {
            return Ok(None);
        }
        let front = short_front(alloc, &self.chart, at)?;
        nearest_behind(alloc, &front, name)
    }

    /// The reserved word that may be meant: it is near to the word, or to the one before it, and may stand there. Of a condition that
    /// stands alone none is. The one error is that memory was refused.
    pub fn near_reserved(&self, alloc: Global) -> Result<Option<&'static str>, AllocError> {
        if let Goal::Expression = self.goal {
            return Ok(None);
        }
        match self.nearest_before(alloc, 0)? {
            Some(word) => Ok(Some(word)),
            None => self.nearest_before(alloc, 1),
        }
    }

    /// The reserved word that the word makes with the one behind it, or with the one before it. The one error is that memory was refused.
    pub fn one_word(&self, alloc: Global) -> Result<Option<&'static str>, AllocError> {
        match joined_word(
            alloc,
            self.bytes(),
            self.bytes_at(self.index.saturating_add(1)),
        )? {
            Some(word) => Ok(Some(word)),
            None => joined_word(alloc, self.name_before(1), self.bytes()),
        }
    }
}
