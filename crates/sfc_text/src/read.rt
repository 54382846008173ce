//! Texts to trees.

ghost use Rattle.std.specs.Prelude.{◌≡◌};
ghost use Rattle.sfc_tokens.specs.Texts.{Finds};
ghost use Rattle.sfc_text.specs.Parsing.Telling.{kind_of};
ghost use Rattle.sfc_text.specs.Reads.{TextReads};
ghost use Rattle.sfc_text.specs.Trees.{source_of};

use crate::parse::fault::ParseFault;
use crate::parse::source::whole_source;
use crate::tree::Source;
use sfc_events::read_error::{ReadError, ReadErrorKind};
use sfc_tokens::lex::tokens_with_place;
use sfc_tokens::placed::Placed;
use sfc_tokens::refusal::{out_of_memory, refused};
use sfc_tokens::span::{Span, end_of};
use sfc_tokens::token::Token;
use std::alloc::Global;

// The bytes of the token at whose place so many are left, or the end of the text where none is.
fn span_at(text: &[u8], tokens: &[Token], left: usize) -> Span {
    let index = tokens.len().checked_sub(left);
    match index.and_then(|index| tokens.get(index)) {
        Some(token) => token.span,
        None => end_of(text),
    }
}

/// Why a text is refused whose tokens the parser refuses, with its line and its bytes.
pub(crate) fn refusal(text: &[u8], tokens: &[Token], fault: ParseFault) -> Placed<ReadError>
    ensures { result.kind ≡ kind_of fault }
{
    match fault {
        ParseFault::Memory => out_of_memory(),
        ParseFault::Syntax { left } => {
            refused(text, ReadErrorKind::Syntax, span_at(text, tokens, left))
        }
        ParseFault::TooDeep { left } => {
            refused(text, ReadErrorKind::TooDeep, span_at(text, tokens, left))
        }
    }
}

/// The tree of a text as `read` answers it, where an error has its place too: as that of `tokens_with_place`; of `Syntax` and
/// `TooDeep` the bytes of the token, or the end of the text.
pub fn read_with_place(alloc: Global, text: &[u8]) -> Result<Source, Placed<ReadError>>
    ensures { Finds source_of result (λ outcome. TextReads text.now outcome) }
{
    let tokens = tokens_with_place(alloc, text)?;
    match whole_source(alloc, tokens.as_slice()) {
        Ok(source) => Ok(source),
        Err(fault) => Err(refusal(text, tokens.as_slice(), fault)),
    }
}

/// The tree of a text (Annex B): program types, and one configuration among them.
///
/// The errors are those of `tokens`; then the first of `Syntax`, at the line of a token that can't continue the text, or
/// at the last line where the tokens end too early, and `TooDeep`, at the line of the first token that stands in more than 64
/// open parentheses, prefix operators and IF statements, or is the 257th operator of an expression (our choice); `Memory`
/// where memory was refused. `Syntax` is told only where no limits would give a tree, and `TooDeep` only where ours give
/// none.
pub fn read(alloc: Global, text: &[u8]) -> Result<Source, ReadError>
    ensures { Finds source_of result (λ outcome. TextReads text.now outcome) }
{
    match read_with_place(alloc, text) {
        Ok(source) => Ok(source),
        Err(error) => Err(error.into_value()),
    }
}
