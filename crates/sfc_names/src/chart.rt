//! A chart that an editor shows, as far as it can be read.

ghost use Rattle.std.specs.Prelude.{◌≡◌, IfOk, IfSome, Ok};
ghost use Rattle.sfc_outline.specs.Places.{bytes};
ghost use Rattle.sfc_names.specs.Charts.{IsBuilt};
ghost use Rattle.sfc_script.specs.sfc_load.Accepted.{IsAccepted};
ghost use Rattle.sfc_text.specs.Reads.{TextReads};
ghost use Rattle.sfc_text.specs.Trees.{source_of as tree_of};
ghost use Rattle.sfc_tokens.specs.Texts.{TextLexes};
ghost use Rattle.sfc_tokens.specs.Tokens.{kinds};

use crate::reading::bytes_of;
use sfc_events::load_error::LoadError;
use sfc_events::read_error::ReadErrorKind;
use sfc_outline::outline::{Outline, outline_of};
use sfc_plant::plant::Plant;
use sfc_script::sfc_load::load::load;
use sfc_text::read::read;
use sfc_text::tree::Source;
use sfc_tokens::lex::tokens;
use sfc_tokens::span::Span;
use sfc_tokens::token::Token;
use std::alloc::{AllocError, Global};

/// A text that was read: its tokens, where it declares and names what, and the plant that it is, where it can be loaded.
pub struct Chart {
    pub text: Vec<u8>,
    pub tokens: Vec<Token>,
    pub outline: Outline,
    pub plant: Option<Plant>,
}

// By hand, so that a caller that drops one proves one call.
impl Drop for Chart {
    fn drop(self) {
        let Chart {
            text: _,
            tokens: _,
            outline: _,
            plant: _,
        } = self;
    }
}

// The plant that a tree is, if it can be loaded.
fn plant_of(alloc: Global, source: &Source) -> Result<Option<Plant>, AllocError>
    ensures { IfOk result (λ found. IfSome found (IsBuilt source.now)) }
{
    match load(alloc, source) {
        Ok(plant) => Ok(Some(plant)),
        Err(LoadError::Memory) => Err(AllocError),
        Err(_) => Ok(None),
    }
}

/// The tokens of a text; None where a byte of it is in none. The one error is that memory was refused.
pub fn tokens_of(alloc: Global, text: &[u8]) -> Result<Option<Vec<Token>>, AllocError>
    ensures { IfOk result (λ found. IfSome found (λ tokens. TextLexes text.now (Ok (kinds tokens.items)))) }
{
    match tokens(alloc, text) {
        Ok(tokens) => Ok(Some(tokens)),
        Err(error) if error.kind == ReadErrorKind::Memory => Err(AllocError),
        Err(_) => Ok(None),
    }
}

// The tree of a text, if it can be read.
fn source_of(alloc: Global, text: &[u8]) -> Result<Option<Source>, AllocError>
    ensures { IfOk result (λ found. IfSome found (λ source. TextReads text.now (Ok (tree_of source)))) }
{
    match read(alloc, text) {
        Ok(source) => Ok(Some(source)),
        Err(error) if error.kind == ReadErrorKind::Memory => Err(AllocError),
        Err(_) => Ok(None),
    }
}

impl Chart {
    /// The chart that a text is; None where it can't be read. The one error is that memory was refused.
    pub fn of(alloc: Global, text: &[u8]) -> Result<Option<Chart>, AllocError>
        ensures text { IfOk result (λ found. IfSome found (λ chart. chart.text.items ≡ text.now)) }
        ensures plant { IfOk result (λ found. IfSome found (λ chart. IfSome chart.plant (IsAccepted text.now))) }
    {
        let Some(tokens) = tokens_of(alloc, text)? else {
            return Ok(None);
        };
        let Some(source) = source_of(alloc, text)? else {
            return Ok(None);
        };
        let outline = outline_of(alloc, text, &source)?;
        let plant = plant_of(alloc, &source)?;
        Ok(Some(Chart {
            text: Vec::from_slice(alloc, text)?,
            tokens,
            outline,
            plant,
        }))
    }

    /// These bytes of the text, as far as it has them.
    pub fn bytes(&self, span: Span) -> &[u8]
        ensures { result.now ≡ bytes self.now.text.items span }
    {
        bytes_of(&self.text, span)
    }
}
