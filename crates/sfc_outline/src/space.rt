//! A name space.

use crate::item::Item;
use crate::mention::Declared;
use sfc_base::name::Name;
use sfc_plant::name_table::NameTable;
use sfc_tokens::placed::Placed;
use std::alloc::{AllocError, Global};

/// Names with what each means; of a name that stands twice the first.
#[derive(Drop)]
pub struct Space {
    names: NameTable,
    declared: Vec<Declared>,
}

impl Space {
    /// A name space without names.
    pub fn new(alloc: Global) -> Space {
        Space {
            names: NameTable::new(alloc),
            declared: Vec::new(alloc),
        }
    }

    /// Puts a name last, unless it is there. The one error is that memory was refused.
    pub fn add(
        &mut self,
        alloc: Global,
        name: &Placed<Name>,
        item: Item,
    ) -> Result<(), AllocError> {
        if self.names.add(alloc, name.spelling())? {
            self.declared.push(Declared {
                item,
                name: name.span(),
            })?;
        }
        Ok(())
    }

    /// What a name means, if it is there; case is not significant.
    pub fn find(&self, name: &Placed<Name>) -> Option<Declared> {
        let place = self.names.find(name.spelling())?;
        self.declared.get(place).copied()
    }
}
