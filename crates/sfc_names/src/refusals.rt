//! What is told of refusals and faults.

use crate::card::Card;
use sfc_base::case::is_same_word;
use sfc_explain::explanation::Explanation;
use sfc_explain::finding::find;
use sfc_explain::table::{of_charts, of_commands};
use sfc_page::append::append_number;
use std::alloc::{AllocError, Global};

// The number that digits are, if it is one of a refusal.
fn number_of(word: &[u8]) -> Option<u8> {
    let Ok(word) = str::from_utf8(word) else {
        return None;
    };
    match word.parse::<u8>() {
        Ok(number) => Some(number),
        Err(_) => None,
    }
}

/// What is explained under a number or a name; None where nothing is.
pub fn explanation_of_word(word: &[u8]) -> Option<&'static Explanation> {
    find(&[of_charts(), of_commands()], number_of(word), word)
}

/// Whether the word is the one behind which a refusal stands in scripts and in tests.
pub fn is_refused(word: &[u8]) -> bool {
    is_same_word(word, b"REFUSED")
}

// The number of an explanation as digits; nothing where it has none.
fn digits_of(alloc: Global, explanation: &Explanation) -> Result<Vec<u8>, AllocError> {
    let mut digits = Vec::new(alloc);
    if let Some(number) = explanation.topic.number() {
        append_number(&mut digits, u64::from(number))?;
        digits.push(b' ')?;
    }
    Ok(digits)
}

/// What is told of a refusal. The one error is that memory was refused.
pub fn card_of_refusal(alloc: Global, explanation: &Explanation) -> Result<Card, AllocError> {
    let mut card = Card::new(alloc);
    let digits = digits_of(alloc, explanation)?;
    card.tell(&[&digits, explanation.topic.name().as_bytes()])?;
    card.tell(&[b"meaning: ", explanation.meaning.as_bytes()])?;
    card.tell(&[b"usual cause: ", explanation.cause.as_bytes()])?;
    Ok(card)
}
