//! Blocks of charts, by their words, whether the text can be read or not.

use crate::reading::keyword_of;
use sfc_base::keyword::Keyword;
use sfc_tokens::span::Span;
use sfc_tokens::token::Token;
use std::alloc::{AllocError, Global};

// The word that ends what a word begins.
fn last_of(word: Keyword) -> Option<Keyword> {
    match word {
        Keyword::Program => Some(Keyword::EndProgram),
        Keyword::Var | Keyword::VarExternal | Keyword::VarGlobal => Some(Keyword::EndVar),
        Keyword::Step | Keyword::InitialStep => Some(Keyword::EndStep),
        Keyword::Transition => Some(Keyword::EndTransition),
        Keyword::Action => Some(Keyword::EndAction),
        Keyword::If => Some(Keyword::EndIf),
        Keyword::Configuration => Some(Keyword::EndConfiguration),
        Keyword::Resource => Some(Keyword::EndResource),
        _ => None,
    }
}

// What has begun and hasn't ended: the word that ends it, and where it begins.
#[derive(Clone, Copy)]
struct Open {
    last: Keyword,
    from: u32,
}

// The innermost of what is open that a word ends, which is taken off with all that is in it.
fn close(open: &mut Vec<Open>, word: Keyword) -> Option<Open> {
    let place = open.iter().rposition(|block| block.last == word)?;
    let found = *open.get(place)?;
    open.truncate(place);
    Some(found)
}

/// The bytes of blocks, from the first word up to the END word, each behind those in it. The one error is that memory was refused.
pub fn blocks_of(alloc: Global, tokens: &[Token]) -> Result<Vec<Span>, AllocError> {
    let mut blocks = Vec::new(alloc);
    let mut open = Vec::new(alloc);
    for token in tokens {
        let Some(word) = keyword_of(token) else {
            continue;
        };
        if let Some(last) = last_of(word) {
            let from = token.span.from;
            open.push(Open { last, from })?;
        } else if let Some(block) = close(&mut open, word) {
            let from = block.from;
            let to = token.span.to;
            blocks.push(Span { from, to })?;
        }
    }
    Ok(blocks)
}
