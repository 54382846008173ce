//! Blocks of a text that can't be read: the words at their beginnings and ends.

use sfc_base::keyword::Keyword;
use sfc_places::marks::keyword_at;
use sfc_places::regions::{Region, configuration};
use sfc_tokens::token::Token;

/// The word that ends the block that this one begins; None where it begins none.
pub fn last_word(first: Keyword) -> Option<&'static str> {
    match first {
        Keyword::If => Some("END_IF"),
        Keyword::Step | Keyword::InitialStep => Some("END_STEP"),
        Keyword::Transition => Some("END_TRANSITION"),
        Keyword::Action => Some("END_ACTION"),
        Keyword::Var | Keyword::VarExternal | Keyword::VarGlobal => Some("END_VAR"),
        Keyword::Program => Some("END_PROGRAM"),
        Keyword::Resource => Some("END_RESOURCE"),
        Keyword::Configuration => Some("END_CONFIGURATION"),
        _ => None,
    }
}

/// Whether the word ends a block.
pub fn is_last_word(word: Keyword) -> bool {
    matches!(
        word,
        Keyword::EndIf
            | Keyword::EndStep
            | Keyword::EndTransition
            | Keyword::EndAction
            | Keyword::EndVar
            | Keyword::EndProgram
            | Keyword::EndResource
            | Keyword::EndConfiguration
    )
}

/// Whether a name always stands behind the word, and seldom is left out.
pub fn is_before_name(word: Keyword) -> bool {
    matches!(
        word,
        Keyword::Step | Keyword::InitialStep | Keyword::Action | Keyword::Program | Keyword::Task
    )
}

// Whether a block begins at the place. A program instance, which is declared in the configuration, is none.
fn begins_block(tokens: &[Token], configured: Region, at: usize) -> bool {
    match keyword_at(tokens, at) {
        Some(Keyword::Program) => !configured.has(at),
        Some(word) => last_word(word).is_some(),
        None => false,
    }
}

/// The place of the first word of the innermost block that is open before a place.
pub fn open_block(tokens: &[Token], before: usize) -> Option<usize> {
    let configured = configuration(tokens);
    let mut closed = 0usize;
    for at in (0..before).rev() {
        let ends = matches!(keyword_at(tokens, at), Some(word) if is_last_word(word));
        if ends {
            closed = closed.saturating_add(1);
        } else if begins_block(tokens, configured, at) {
            if closed == 0 {
                return Some(at);
            }
            closed -= 1;
        }
    }
    None
}
