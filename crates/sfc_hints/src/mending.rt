//! What mends a text that can't be read, where the fault is a typical one. The one error of each call is that memory was refused.

use crate::blocks::{is_before_name, is_last_word, last_word, open_block};
use crate::foreign::{is_among, serving};
use crate::hints::Hints;
use crate::misplaced::Misplaced;
use crate::signs::{pairs, sign_mending, word_mending};
use crate::surroundings::element_before;
use crate::trial::Goal;
use crate::writing::add_line;
use sfc_base::delimiter::Delimiter;
use sfc_base::keyword::Keyword;
use sfc_events::read_error::ReadErrorKind;
use sfc_page::append::append_number;
use sfc_places::finding::Element;
use sfc_places::marks::{Mark, behind, is_at, keyword_at, line_at, spelling_at};
use sfc_tokens::token::TokenKind;
use std::alloc::{AllocError, Global};

/// The qualifiers that have a time.
const TIMED: &str = "L D SD DS SL";

/// Those that have none.
const TIMELESS: &str = "N R S P P0 P1";

// A word that ends a block, as it is put before a token.
fn put_word(word: &str) -> &'static [u8] {
    match word.as_bytes() {
        b"END_IF" => b"END_IF; ",
        b"END_STEP" => b"END_STEP ",
        b"END_TRANSITION" => b"END_TRANSITION ",
        b"END_ACTION" => b"END_ACTION ",
        b"END_VAR" => b"END_VAR ",
        b"END_PROGRAM" => b"END_PROGRAM ",
        b"END_RESOURCE" => b"END_RESOURCE ",
        _ => b"END_CONFIGURATION ",
    }
}

// Adds a line with what mends a fault.
fn add_mend(told: &mut Vec<u8>, mend: &str) -> Result<(), AllocError> {
    told.extend_from_slice(b"  mend: ")?;
    add_line(told, mend.as_bytes())
}

/// Adds a line with what mends a word that is none, or bytes at which no token begins, if it is known: by the word, and by the bytes of the
/// text from it on.
pub fn add_byte_mending(
    told: &mut Vec<u8>,
    kind: ReadErrorKind,
    word: &[u8],
    bytes: &[u8],
) -> Result<(), AllocError> {
    match word_mending(kind, word, bytes) {
        Some(mend) => add_mend(told, mend),
        None => Ok(()),
    }
}

impl Misplaced<'_> {
    // What mends a sign.
    fn of_sign(&self) -> Option<&'static str> {
        let from = self.from();
        let before = match from.checked_sub(1) {
            Some(at) => self.chart.text.get(at).copied(),
            None => None,
        };
        sign_mending(before, self.chart.text.get(from..).unwrap_or(b""))
    }

    // What mends an assignment that compares, and a comparison that assigns.
    fn of_equal(&self, alloc: Global) -> Result<Option<&'static str>, AllocError> {
        let next = behind(self.index, 1);
        let is_parted = is_at(self.chart.tokens, next, Mark::Sign(Delimiter::Equal));
        if self.is(Mark::Sign(Delimiter::Colon)) && is_parted {
            return Ok(Some(":= is one sign, without a blank in it"));
        }
        if self.is(Mark::Sign(Delimiter::Equal)) && self.takes(alloc, ":=")? {
            return Ok(Some(":= assigns"));
        }
        if self.is(Mark::Sign(Delimiter::Assign)) && self.takes(alloc, "=")? {
            return Ok(Some("= compares"));
        }
        Ok(None)
    }

    // What serves in place of this word, or of the one before it.
    fn of_word(&self) -> Option<&'static str> {
        serving(spelling_at(self.chart.tokens, self.index)).or(serving(self.name_before(1)))
    }

    // What mends a comment in a comment.
    fn of_comment(&self) -> Option<&'static str> {
        let gap = self.gap();
        if pairs(gap, b'(', b'*') <= pairs(gap, b'*', b')') {
            return None;
        }
        Some("a comment in a comment ends both with its *)")
    }

    // What mends a number in place of a time, and a colon in place of an assignment.
    fn of_literal(&self, alloc: Global) -> Result<Option<&'static str>, AllocError> {
        if self.is_number() && self.takes(alloc, "T#1s")? && !self.takes(alloc, "1")? {
            return Ok(Some("T#2s is a time of two seconds"));
        }
        if self.is(Mark::Sign(Delimiter::Dot)) && self.is_number_at(self.back(1)) {
            return Ok(serving(b"REAL"));
        }
        if self.is(Mark::Sign(Delimiter::Colon)) && self.takes(alloc, ":=")? {
            return Ok(Some(":= stands before a condition"));
        }
        Ok(None)
    }

    // Whether what stands before it may end there: a name, a literal or a sign ).
    fn is_behind_value(&self) -> bool {
        match self.back(1).and_then(|at| self.chart.tokens.get(at)) {
            Some(token) => match &token.kind {
                TokenKind::Keyword(word) => matches!(
                    word,
                    Keyword::Bool | Keyword::Int | Keyword::Dint | Keyword::Time
                ),
                TokenKind::Delimiter(sign) => *sign == Delimiter::Close,
                _ => true,
            },
            None => false,
        }
    }

    // What mends a statement or a declaration that isn't ended, where another one begins on a line of its own, or a block begins or ends.
    fn of_end(&self, alloc: Global) -> Result<Option<&'static str>, AllocError> {
        let begins = self.is(Mark::Name) || self.is(Mark::Keyword(Keyword::If));
        if begins && pairs(self.gap(), b'\n', b' ') > 0 && self.takes(alloc, ";")? {
            return Ok(Some("; ends the statement before it"));
        }
        if self.keyword().is_some()
            && self.is_at_edge()
            && self.is_behind_value()
            && self.takes(alloc, ";")?
        {
            return Ok(Some("; ends what stands before it"));
        }
        Ok(None)
    }

    // What mends a task whose parts stand in another order.
    fn of_task(&self) -> Option<&'static str> {
        match (self.goal, element_before(self.chart.tokens, self.index)) {
            (Goal::Chart, Element::Task { .. }) => Some(
                "TASK Main (SINGLE := Start, INTERVAL := T#100ms, PRIORITY := 1); PRIORITY stands in each, and last",
            ),
            _ => None,
        }
    }

    // What mends a call.
    fn of_call(&self) -> Option<&'static str> {
        if self.is(Mark::Sign(Delimiter::Open)) && self.has_before(1, Mark::Name) {
            return Some(
                "nothing is called: a step executes actions, and variables hold what they leave",
            );
        }
        None
    }

    // What mends a sign, a comment or a word of another language.
    fn of_other_language(&self, alloc: Global) -> Result<Option<&'static str>, AllocError> {
        if let Some(mend) = self.of_comment().or(self.of_sign()) {
            return Ok(Some(mend));
        }
        match self.of_equal(alloc)? {
            Some(mend) => Ok(Some(mend)),
            None => Ok(self.of_word()),
        }
    }

    // What mends it in words that don't depend on the text, if that is known.
    fn in_words(&self, alloc: Global) -> Result<Option<&'static str>, AllocError> {
        if let Some(mend) = self.of_literal(alloc)? {
            return Ok(Some(mend));
        }
        if let Some(mend) = self.of_end(alloc)? {
            return Ok(Some(mend));
        }
        match self.of_form(alloc)? {
            Some(mend) => Ok(Some(mend)),
            None => Ok(self.of_task().or(self.of_call())),
        }
    }

    // Whether it ends an association whose qualifier, so many places before it, is one of these.
    fn is_behind_qualifier(&self, count: usize, qualifiers: &str) -> bool {
        let in_step = match element_before(self.chart.tokens, self.index) {
            Element::Step { .. } => true,
            _ => false,
        };
        in_step
            && self.has_before(behind(count, 1), Mark::Sign(Delimiter::Open))
            && is_among(qualifiers, self.name_before(count))
    }

    // Adds what mends an association: its qualifier, and the time of one that has one.
    fn add_association(
        &self,
        told: &mut Vec<u8>,
        count: usize,
        says: &[u8],
        time: &[u8],
    ) -> Result<(), AllocError> {
        let qualifier = self.name_before(count);
        told.extend_from_slice(b"  mend: ")?;
        told.extend_from_slice(qualifier)?;
        told.extend_from_slice(says)?;
        told.extend_from_slice(self.name_before(behind(count, 2)))?;
        told.extend_from_slice(b"(")?;
        told.extend_from_slice(qualifier)?;
        told.extend_from_slice(time)?;
        add_line(told, b")")
    }

    // Adds what mends a qualifier without its time, or one with a time that it hasn't; whether it is one.
    fn add_qualifier(&self, told: &mut Vec<u8>) -> Result<bool, AllocError> {
        if self.is(Mark::Sign(Delimiter::Close)) && self.is_behind_qualifier(1, TIMED) {
            self.add_association(told, 1, b" has a time: ", b", T#1s")?;
            return Ok(true);
        }
        if self.is(Mark::Duration) && self.is_behind_qualifier(2, TIMELESS) {
            self.add_association(told, 2, b" has no time: ", b"")?;
            return Ok(true);
        }
        Ok(false)
    }

    // Whether it is a reserved word that stands where a name is declared or used.
    fn is_named_so(&self) -> bool {
        let next = behind(self.index, 1);
        let is_declared = match self.back(1) {
            Some(at) => match keyword_at(self.chart.tokens, at) {
                Some(word) => is_before_name(word),
                None => false,
            },
            None => false,
        };
        keyword_at(self.chart.tokens, self.index).is_some()
            && (is_declared
                || is_at(self.chart.tokens, next, Mark::Sign(Delimiter::Colon))
                || is_at(self.chart.tokens, next, Mark::Sign(Delimiter::Assign)))
    }

    // Adds what mends a reserved word as a name; whether it is one.
    fn add_reserved(&self, alloc: Global, told: &mut Vec<u8>) -> Result<bool, AllocError> {
        if !self.is_named_so() || !self.takes(alloc, "z")? {
            return Ok(false);
        }
        told.extend_from_slice(b"  mend: ")?;
        told.extend_from_slice(self.bytes())?;
        add_line(told, b" is a reserved word, and no name")?;
        Ok(true)
    }

    // Whether another block begins or ends there, or the text.
    fn is_at_edge(&self) -> bool {
        match keyword_at(self.chart.tokens, self.index) {
            Some(word) => is_last_word(word) || last_word(word).is_some(),
            None => self.index >= self.chart.tokens.len(),
        }
    }

    // The place of the first word of the innermost block that is open, and the word that ends it, where that is missing.
    fn missing_end(&self, alloc: Global) -> Result<Option<(usize, &'static str)>, AllocError> {
        let tokens = self.chart.tokens;
        let Some(begin) = open_block(tokens, self.index) else {
            return Ok(None);
        };
        let Some(word) = keyword_at(tokens, begin).and_then(last_word) else {
            return Ok(None);
        };
        if !self.is_at_edge() || !self.takes(alloc, word)? {
            return Ok(None);
        }
        Ok(Some((begin, word)))
    }

    /// What is missing before it, where that is a semicolon or a word that ends a block: as it is put there, with a blank behind it. The one
    /// error is that memory was refused.
    pub fn missing(&self, alloc: Global) -> Result<Option<&'static [u8]>, AllocError> {
        if self.of_end(alloc)?.is_some() {
            return Ok(Some(b"; "));
        }
        match self.missing_end(alloc)? {
            Some((_, word)) => Ok(Some(put_word(word))),
            None => Ok(None),
        }
    }

    // Adds which word is missing that ends a block, and where the block begins; whether one is.
    fn add_missing_end(&self, alloc: Global, told: &mut Vec<u8>) -> Result<bool, AllocError> {
        let Some((begin, word)) = self.missing_end(alloc)? else {
            return Ok(false);
        };
        told.extend_from_slice(b"  mend: ")?;
        told.extend_from_slice(word.as_bytes())?;
        told.extend_from_slice(b" is missing, for the block that begins on line ")?;
        append_number(told, u64::from(line_at(&self.chart, begin)))?;
        told.extend_from_slice(b"\n")?;
        Ok(true)
    }

    // Adds which reserved word may be meant; whether one is near.
    fn add_near_reserved(&self, alloc: Global, told: &mut Hints) -> Result<bool, AllocError> {
        let Some(word) = self.near_reserved(alloc)? else {
            return Ok(false);
        };
        told.keep_near(alloc, word.as_bytes())?;
        told.lines.extend_from_slice(b"  mend: ")?;
        told.lines.extend_from_slice(word.as_bytes())?;
        add_line(&mut told.lines, b" may be meant")?;
        Ok(true)
    }

    // Adds which reserved word two words are together; whether they are one.
    fn add_one_word(&self, alloc: Global, told: &mut Hints) -> Result<bool, AllocError> {
        let Some(word) = self.one_word(alloc)? else {
            return Ok(false);
        };
        told.keep_near(alloc, word.as_bytes())?;
        told.lines.extend_from_slice(b"  mend: ")?;
        told.lines.extend_from_slice(word.as_bytes())?;
        add_line(&mut told.lines, b" is one word")?;
        Ok(true)
    }

    // Adds what mends it by the text; whether that is known.
    fn add_by_text(&self, alloc: Global, told: &mut Vec<u8>) -> Result<bool, AllocError> {
        Ok(
            self.add_qualifier(told)?
                || self.add_reserved(alloc, told)?
                || self.add_missing_end(alloc, told)?,
        )
    }

    /// Adds a line with what mends it, if that is known, and keeps the reserved word that may be meant.
    pub fn add_mending(&self, alloc: Global, told: &mut Hints) -> Result<(), AllocError> {
        if let Some(mend) = self.of_other_language(alloc)? {
            return add_mend(&mut told.lines, mend);
        }
        if self.add_one_word(alloc, told)? {
            return Ok(());
        }
        if let Some(mend) = self.in_words(alloc)? {
            return add_mend(&mut told.lines, mend);
        }
        if !self.add_by_text(alloc, &mut told.lines)? {
            self.add_near_reserved(alloc, told)?;
        }
        Ok(())
    }
}
