//! Names that may have been declared in what was taken out of a text: what stands on one of them is not told.

use crate::pieces::Piece;
use crate::sfc_places::marks::{Mark, behind, is_at, keyword_at, spelling_at};
use sfc_base::case::is_same_word;
use sfc_base::keyword::Keyword;
use sfc_tokens::token::Token;
use std::alloc::{AllocError, Global};

/// Names that were taken out, whether any other name may have been, and whether an initial step was.
#[derive(Drop)]
pub struct Lost {
    names: Vec<Vec<u8>>,
    has_any: bool,
    pub has_initial: bool,
}

impl Lost {
    /// None is.
    pub fn new(alloc: Global) -> Lost {
        Lost {
            names: Vec::new(alloc),
            has_any: false,
            has_initial: false,
        }
    }

    // Whether the name is one of them.
    fn has(&self, name: &[u8]) -> bool {
        self.names.iter().any(|lost| is_same_word(lost, name))
    }

    /// Whether the name may be one of them.
    pub fn may_have(&self, name: &[u8]) -> bool {
        self.has_any || self.has(name)
    }

    /// That bytes that were no token stood in an element: in a declaration, or between elements, they may have been part of any name.
    pub fn add_wounded(&mut self, tokens: &[Token], element: Piece) {
        match keyword_at(tokens, element.from) {
            Some(Keyword::Var | Keyword::VarExternal | Keyword::VarGlobal) | None => {
                self.has_any = true;
            }
            Some(_) => {}
        }
    }

    /// Whether one of them stands in a piece.
    pub fn is_in(&self, tokens: &[Token], piece: Piece) -> bool {
        (piece.from..piece.to).any(|at| self.has(spelling_at(tokens, at)))
    }

    /// Adds the name of a token, if it is one. The one error is that memory was refused.
    pub fn add(&mut self, alloc: Global, tokens: &[Token], at: usize) -> Result<(), AllocError> {
        if !is_at(tokens, at, Mark::Name) {
            return Ok(());
        }
        let name = Vec::from_slice(alloc, spelling_at(tokens, at))?;
        self.names.push(name)?;
        Ok(())
    }

    // Adds all names in a piece.
    fn add_all(&mut self, alloc: Global, tokens: &[Token], piece: Piece) -> Result<(), AllocError> {
        for at in piece.from..piece.to {
            self.add(alloc, tokens, at)?;
        }
        Ok(())
    }

    /// Adds the names that may be declared in a part of an element, and whether an initial step may be there. Where a piece begins with no
    /// reserved word, one may be misspelt there. The one error is that memory was refused.
    pub fn add_declared(
        &mut self,
        alloc: Global,
        tokens: &[Token],
        element: Piece,
        part: Piece,
    ) -> Result<(), AllocError> {
        match keyword_at(tokens, element.from) {
            Some(Keyword::Var | Keyword::VarExternal | Keyword::VarGlobal) => {
                self.add_all(alloc, tokens, part)
            }
            Some(Keyword::Transition) => Ok(()),
            Some(word) if element == part => {
                self.has_initial = self.has_initial || word == Keyword::InitialStep;
                let name = behind(element.from, 1);
                self.has_any = self.has_any || !is_at(tokens, name, Mark::Name);
                self.add(alloc, tokens, name)
            }
            Some(_) => Ok(()),
            None => {
                self.has_initial = true;
                self.add_all(alloc, tokens, part)
            }
        }
    }
}
