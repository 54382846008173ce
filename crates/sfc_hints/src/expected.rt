//! What could stand at a place, in words of the language.

use crate::trial::{Goal, Outcome, try_front};
use crate::writing::add_joint;
use std::alloc::{AllocError, Global};

/// The signs that are no operators.
const SIGNS: &str = "; , ( ) . : :=";

/// The operators of two operands.
const OPERATORS: &str = "OR XOR AND & = <> < > <= >= + - * / MOD";

/// How many these are.
const OPERATOR_COUNT: usize = 15;

/// The reserved words that are neither operators of two operands nor literals.
pub const KEYWORDS: &str =
    "ACTION AT BOOL CONFIGURATION DINT ELSE ELSIF END_ACTION END_CONFIGURATION END_IF END_PROGRAM END_RESOURCE END_STEP END_TRANSITION END_VAR FROM IF INITIAL_STEP INT NOT ON PROGRAM RESOURCE STEP TASK THEN TIME TO TRANSITION VAR VAR_EXTERNAL VAR_GLOBAL WITH";

/// The words that mean something in their places only.
const PLACED_WORDS: &str = "INTERVAL PRIORITY SINGLE N R S P P0 P1 L D SD DS SL";

/// A literal of each kind.
const LITERALS: &str = "1 16#1 INT#1 T#1s TRUE FALSE";

/// How many these are.
const LITERAL_COUNT: usize = 6;

/// What is expected at a place.
#[derive(Drop)]
pub struct Expected {
    words: Vec<&'static str>,
}

// Whether what is told of it stands in quotes: a sign does.
fn is_quoted(word: &str) -> bool {
    match word.as_bytes() {
        [first, ..] => !first.is_ascii_alphabetic(),
        [] => false,
    }
}

// What is told of a literal of its kind.
fn literal_words(literal: &'static str) -> &'static str {
    match literal.as_bytes() {
        b"1" => "an integer",
        b"16#1" => "an integer with a base",
        b"INT#1" => "a literal with a type",
        b"T#1s" => "a duration",
        _ => literal,
    }
}

/// The front of a text, and what it is to be read as.
#[derive(Clone, Copy)]
pub struct Front<'a> {
    pub goal: Goal,
    pub bytes: &'a [u8],
}

impl Front<'_> {
    // Whether the text may go on so.
    fn takes(&self, alloc: Global, more: &str) -> Result<bool, AllocError> {
        let outcome = try_front(alloc, self.goal, self.bytes, more.as_bytes())?;
        Ok(outcome != Outcome::Wrong)
    }

    // Those of the words with which the text may go on.
    fn taken(&self, alloc: Global, words: &'static str) -> Result<Vec<&'static str>, AllocError> {
        let mut taken = Vec::new(alloc);
        for word in words.split_whitespace() {
            if self.takes(alloc, word)? {
                taken.push(word)?;
            }
        }
        Ok(taken)
    }

    // Whether the text may end here.
    fn may_end(&self, alloc: Global) -> Result<bool, AllocError> {
        let outcome = try_front(alloc, self.goal, self.bytes, b"")?;
        Ok(outcome == Outcome::Whole)
    }
}

impl Expected {
    // Adds those of the words with which the text may go on.
    fn add(
        &mut self,
        alloc: Global,
        front: &Front<'_>,
        words: &'static str,
    ) -> Result<(), AllocError> {
        let taken = front.taken(alloc, words)?;
        self.words.extend_from_slice(&taken)
    }

    // Adds operators, unless they are all of them.
    fn add_some_operators(&mut self, operators: &[&'static str]) -> Result<(), AllocError> {
        if operators.len() == OPERATOR_COUNT {
            return Ok(());
        }
        self.words.extend_from_slice(operators)
    }

    // Adds what all operators are together, where they are all of them.
    fn add_any_operator(&mut self, operators: &[&'static str]) -> Result<(), AllocError> {
        if operators.len() == OPERATOR_COUNT {
            self.words.push("an operator")?;
        }
        Ok(())
    }

    // Adds literals, or what all of them are together.
    fn add_literals(&mut self, literals: &[&'static str]) -> Result<(), AllocError> {
        if literals.len() == LITERAL_COUNT {
            self.words.push("a literal")?;
            return Ok(());
        }
        for literal in literals {
            self.words.push(literal_words(literal))?;
        }
        Ok(())
    }

    // Adds a name, or else the words that mean something in their places.
    fn add_names(&mut self, alloc: Global, front: &Front<'_>) -> Result<(), AllocError> {
        if front.takes(alloc, "z")? {
            self.words.push("a name")?;
            return Ok(());
        }
        self.add(alloc, front, PLACED_WORDS)
    }

    // Adds signs, and operators that aren't all of them.
    fn add_signs(
        &mut self,
        alloc: Global,
        front: &Front<'_>,
        operators: &[&'static str],
    ) -> Result<(), AllocError> {
        self.add(alloc, front, SIGNS)?;
        self.add_some_operators(operators)
    }

    // Adds reserved words and names.
    fn add_words(&mut self, alloc: Global, front: &Front<'_>) -> Result<(), AllocError> {
        self.add(alloc, front, KEYWORDS)?;
        self.add_names(alloc, front)
    }

    // Adds what all operators are together, where they are all of them, and literals.
    fn add_families(
        &mut self,
        alloc: Global,
        front: &Front<'_>,
        operators: &[&'static str],
    ) -> Result<(), AllocError> {
        self.add_any_operator(operators)?;
        let literals = front.taken(alloc, LITERALS)?;
        self.add_literals(&literals)
    }

    // Adds a location, and the end of the text.
    fn add_end(&mut self, alloc: Global, front: &Front<'_>) -> Result<(), AllocError> {
        if front.takes(alloc, "%IX0.0")? {
            self.words.push("a location")?;
        }
        if front.may_end(alloc)? {
            self.words.push("the end of the text")?;
        }
        Ok(())
    }

    /// Adds the words as a list: `';', '.' or an operator`.
    pub fn add_to(&self, told: &mut Vec<u8>) -> Result<(), AllocError> {
        let count = self.words.len();
        for place in 0..count {
            add_joint(told, place, count)?;
            if let Some(word) = self.words.get(place) {
                add_word(told, word)?;
            }
        }
        Ok(())
    }

    /// Whether nothing is expected.
    pub fn is_empty(&self) -> bool {
        self.words.is_empty()
    }
}

// Adds a word, a sign in quotes.
fn add_word(told: &mut Vec<u8>, word: &str) -> Result<(), AllocError> {
    if !is_quoted(word) {
        return told.extend_from_slice(word.as_bytes());
    }
    told.extend_from_slice(b"'")?;
    told.extend_from_slice(word.as_bytes())?;
    told.extend_from_slice(b"'")
}

/// What could stand behind the front of a text: signs, reserved words, names or the words that have a meaning there, operators,
/// literals, a location, the end of the text. The one error is that memory was refused.
pub fn find_expected(alloc: Global, front: &Front<'_>) -> Result<Expected, AllocError> {
    let mut expected = Expected {
        words: Vec::new(alloc),
    };
    let operators = front.taken(alloc, OPERATORS)?;
    expected.add_signs(alloc, front, &operators)?;
    expected.add_words(alloc, front)?;
    expected.add_families(alloc, front, &operators)?;
    expected.add_end(alloc, front)?;
    Ok(expected)
}
