//! The places of a list by their groups.

use std::marker::Model;

/// Of each of a number of groups the places in a list that are of it, in rising order. Clauses see these lists.
#[derive(Debug)]
pub struct GroupedPlaces {
    lists: Vec<Vec<usize>>,
}

// By hand, so that a caller that drops one proves one call.
impl Drop for GroupedPlaces {
    fn drop(self) {
        let GroupedPlaces { lists: _ } = self;
    }
}

impl Model for GroupedPlaces {
    ghost use Rattle.std.specs.Prelude.{List, ℕ, map};

    ghost Value = { List (List ℕ) };

    ghost view = { λ places. map (λ list. list.items) places.lists.items };
}

ghost use Rattle.std.specs.Prelude.{◌≡◌, ◌<◌, ◌==◌, ◌++◌, ◌∷◌, [], ℕ, All, cond, length, map, slice_index_or, IfOk, OnOk};
ghost use Rattle.std.specs.List.{range_with_len};
ghost use Rattle.sfc_tables.specs.Places.{places_of};

use std::alloc::{AllocError, Global};

// An empty list for each of so many groups.
fn empty_lists(alloc: Global, groups: usize) -> Result<Vec<Vec<usize>>, AllocError>
    ensures len { IfOk result (λ lists. length lists.items ≡ groups) }
    ensures empty { IfOk result (λ lists. All (λ list. list.items ≡ []) lists.items) }
{
    let mut lists = Vec::new(alloc);
    for _k in 0..groups {
        lists.push(Vec::new(alloc))?;
    }
    Ok(lists)
}

impl GroupedPlaces {
    // One place more, of this group, if it is there.
    fn add(&mut self, group: usize, place: usize) -> Result<(), AllocError>
        ensures len { OnOk result (length self.new ≡ length self.old) }
        ensures lists { OnOk result ((s : ℕ) → s < length self.old →
            slice_index_or self.new s [] ≡ slice_index_or self.old s [] ++ cond (group == s) (place ∷ []) []) }
    {
        if group < self.lists.len() {
            self.lists[group].push(place)?;
        }
        Ok(())
    }

    /// The places of each of so many groups, where the list has the number of the group at each place. It is one pass. The one error is
    /// that memory was refused.
    pub fn build(
        alloc: Global,
        groups: usize,
        numbers: &[usize],
    ) -> Result<GroupedPlaces, AllocError>
        ensures { IfOk result (λ places. places ≡ map (places_of numbers.now) (range_with_len 0 groups)) }
    {
        let lists = empty_lists(alloc, groups)?;
        let mut places = GroupedPlaces { lists };
        for place in 0..numbers.len() {
            places.add(numbers[place], place)?;
        }
        Ok(places)
    }

    /// The places of this group, none where it isn't there.
    pub fn of_group(&self, group: usize) -> &[usize]
        ensures { result.now ≡ slice_index_or self.now group [] }
    {
        match self.lists.get(group) {
            Some(list) => list.as_slice(),
            None => &[],
        }
    }
}
