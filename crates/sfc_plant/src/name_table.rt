//! The names of one name space, in declared order.

use crate::name_key::{NameKey, Word};
use indexmap::IndexSet;
use std::alloc::{AllocError, Global};
use std::marker::Model;

/// The names of one name space, in the order in which they were declared. No two are one name but for case. Contracts
/// see the list of them.
pub struct NameTable {
    names: IndexSet<NameKey>,
}

// By hand, so that a caller that drops one proves one call.
impl Drop for NameTable {
    fn drop(self) {
        let NameTable { names: _ } = self;
    }
}

impl Model for NameTable {
    ghost use Rattle.std.specs.Prelude.{List, ℕ};

    ghost Value = { List (List ℕ) };

    ghost view = { λ table. table.names.keys };
}

ghost use Rattle.std.specs.Prelude.{◌≡◌, ◌<◌, ◌++◌, ◌∷◌, [], not, length, IfOk, IfSome, OnErr, if◌then◌else◌};
ghost use Rattle.sfc_base.specs.NameLists.{place_of, has};

impl NameTable {
    /// A table without names. It takes no memory yet.
    pub fn new(alloc: Global) -> NameTable
        ensures { result ≡ [] }
    {
        NameTable {
            names: IndexSet::new(alloc),
        }
    }

    /// Puts a name last, and answers true; or leaves the table as it was where the name is there but for case, and
    /// answers false. After want of memory the table is as it was.
    pub fn add(&mut self, alloc: Global, name: &[u8]) -> Result<bool, AllocError>
        ensures added { IfOk result (λ added. added ≡ not (has self.old name.now)) }
        ensures names { IfOk result (λ added. self.new ≡ (if added then self.old ++ name.now ∷ [] else self.old)) }
        ensures err { OnErr result (self.new ≡ self.old) }
    {
        let key = NameKey::new(alloc, name)?;
        match self.names.insert_full(key) {
            Ok((_, added)) => Ok(added),
            Err(_) => Err(AllocError),
        }
    }

    /// The place of a name, counted from 0; case is not significant. It takes no memory.
    pub fn find(&self, name: &[u8]) -> Option<usize>
        ensures place { result ≡ place_of name.now self.now }
        ensures within { IfSome result (λ place. place < length self.now) }
    {
        self.names.get_index_of(Word { spelling: name })
    }

    /// Whether a name is among them; case is not significant. It takes no memory.
    pub fn contains(&self, name: &[u8]) -> bool
        ensures { result ≡ has self.now name.now }
    {
        self.names.contains(Word { spelling: name })
    }

    /// How many names there are.
    pub fn len(&self) -> usize
        ensures { result ≡ length self.now }
    {
        self.names.len()
    }
}
