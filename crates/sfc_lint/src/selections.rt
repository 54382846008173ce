//! Transitions of one step whose conditions may be TRUE together (2.6.5).

use crate::atoms::{Atom, Atoms, Leaf, is_on, value};
use crate::budget::Budget;
use crate::finding::Findings;
use crate::kind::Kind;
use crate::view::{View, transition_id};
use sfc_expr::operator::Operator;
use sfc_outline::item::Item;
use sfc_page::append::{append, append_signed, append_time};
use sfc_plant::chart::Transition;
use std::alloc::{AllocError, Global};

/// The most pairs of transitions that are looked at in one chart.
const MOST: usize = 2_000;

/// How many looks it takes to see whether two conditions are TRUE in one way.
const LOOKS: usize = 100;

/// The least and the greatest number that an operand can be.
const LEAST: i64 = -4_611_686_018_427_387_904;

const GREATEST: i64 = 4_611_686_018_427_387_904;

// The numbers that an operand can be, and one that it can't.
#[derive(Clone, Copy)]
struct Room {
    low: i64,
    high: i64,
}

impl Room {
    // Takes what a comparison says that is TRUE or not.
    fn take(&mut self, operator: Operator, number: i64, is_true: bool) {
        match (operator, is_true) {
            (Operator::Less, true) => self.high = self.high.min(number.saturating_sub(1)),
            (Operator::Less, false) => self.low = self.low.max(number),
            (Operator::Greater, true) => self.low = self.low.max(number.saturating_add(1)),
            (Operator::Greater, false) => self.high = self.high.min(number),
            (_, true) => {
                self.low = self.low.max(number);
                self.high = self.high.min(number);
            }
            (_, false) => {}
        }
    }

    // How many numbers are left, as far as it matters.
    fn has_more_than(&self, count: i64) -> bool {
        self.high.saturating_sub(self.low) >= count
    }
}

// Whether an atom says that this operand isn't this number.
fn is_barred(atoms: &[Atom], bits: u32, text: &[u8], number: i64) -> bool {
    for (place, atom) in atoms.iter().enumerate() {
        let Some(bound) = atom.bound else {
            continue;
        };
        let is_equal = bound.operator == Operator::Equal && bound.number == number;
        if is_equal && !is_on(bits, place) && atom.text.as_slice() == text {
            return true;
        }
    }
    false
}

// Whether some number is left for an operand, of whose numbers at most 16 are barred.
fn has_room(atoms: &[Atom], bits: u32, text: &[u8]) -> bool {
    let mut room = Room {
        low: LEAST,
        high: GREATEST,
    };
    for (place, atom) in atoms.iter().enumerate() {
        if let Some(bound) = atom.bound {
            if atom.text.as_slice() == text {
                room.take(bound.operator, bound.number, is_on(bits, place));
            }
        }
    }
    if room.has_more_than(16) {
        return true;
    }
    for offset in 0..=16i64 {
        let number = room.low.saturating_add(offset);
        if number <= room.high && !is_barred(atoms, bits, text, number) {
            return true;
        }
    }
    false
}

// Whether the atoms can be as the bits say.
fn is_possible(atoms: &[Atom], bits: u32) -> bool {
    atoms.iter().all(|atom| atom.bound.is_none() || has_room(atoms, bits, &atom.text))
}

// How a comparison is written that is TRUE, or FALSE.
fn sign_of(operator: Operator, is_true: bool) -> &'static [u8] {
    match (operator, is_true) {
        (Operator::Less, true) => b" < ",
        (Operator::Less, false) => b" >= ",
        (Operator::Greater, true) => b" > ",
        (Operator::Greater, false) => b" <= ",
        (_, true) => b" = ",
        (_, false) => b" <> ",
    }
}

// Adds what an atom is: its comparison, or TRUE or FALSE.
fn add_atom(told: &mut Vec<u8>, atom: &Atom, is_true: bool) -> Result<(), AllocError> {
    if !told.is_empty() {
        append(told, b", ")?;
    }
    append(told, &atom.text)?;
    let Some(bound) = atom.bound else {
        return append(told, if is_true { b" TRUE" } else { b" FALSE" });
    };
    append(told, sign_of(bound.operator, is_true))?;
    if bound.is_time {
        return append_time(told, bound.number);
    }
    append_signed(told, bound.number)
}

// What the atoms are, in words.
fn told_atoms(alloc: Global, atoms: &[Atom], bits: u32) -> Result<Vec<u8>, AllocError> {
    let mut told = Vec::new(alloc);
    for (place, atom) in atoms.iter().enumerate() {
        add_atom(&mut told, atom, is_on(bits, place))?;
    }
    Ok(told)
}

// What became of a pair of transitions.
enum Looked {
    // In no way both are TRUE, as far as can be seen.
    Apart,
    // The first way in which both are TRUE, in words.
    Together(Vec<u8>),
    // The budget didn't allow to look.
    GaveUp,
}

// Whether a condition is TRUE that reads these atoms, where they are as the bits say.
fn is_true(transition: &Transition, leaves: &[Leaf], bits: u32) -> bool {
    let (value, _) = value(transition.condition.expr(), leaves, bits);
    value
}

// Looks for the first way in which the atoms can be so that both conditions are TRUE; where there are too many atoms, for none.
fn look_at(
    alloc: Global,
    view: &View<'_>,
    (one, other): (&Transition, &Transition),
    budget: &mut Budget,
) -> Result<Looked, AllocError> {
    let (mut atoms, mut leaves, mut other_leaves) = (
        Atoms::new(alloc),
        Vec::new(alloc),
        Vec::new(alloc),
    );
    atoms.take(alloc, view, one.condition.expr(), &mut leaves)?;
    atoms.take(alloc, view, other.condition.expr(), &mut other_leaves)?;
    if atoms.is_full {
        return Ok(Looked::Apart);
    }
    let mut ways = 1u32;
    for _ in 0..atoms.list.len() {
        ways = ways.saturating_mul(2);
    }
    for bits in 0..ways.min(65_536) {
        if !budget.take(LOOKS, 1) {
            return Ok(Looked::GaveUp);
        }
        if is_true(one, &leaves, bits)
            && is_true(other, &other_leaves, bits)
            && is_possible(&atoms.list, bits)
        {
            return Ok(Looked::Together(told_atoms(alloc, &atoms.list, bits)?));
        }
    }
    Ok(Looked::Apart)
}

// Tells a pair of transitions that may be TRUE together.
fn tell_pair(
    findings: &mut Findings,
    view: &View<'_>,
    first: usize,
    second: usize,
    way: &[u8],
) -> Result<(), AllocError> {
    let alloc = findings.alloc();
    let one = view.transition(alloc, transition_id(first))?;
    let other = view.transition(alloc, transition_id(second))?;
    let item = Item::Transition {
        program: view.number,
        transition: second,
    };
    findings.tell(
        Kind::Overlap,
        item,
        &[
            b"transitions ",
            &one,
            b" and ",
            &other,
            b" may be TRUE together, and neither has a PRIORITY",
        ],
    )?;
    if way.is_empty() {
        return Ok(());
    }
    findings.add_line(&[b"where: ", way])
}

// The transitions without a PRIORITY that each step is before, by their places.
fn behind_steps(alloc: Global, view: &View<'_>) -> Result<Vec<Vec<usize>>, AllocError> {
    let mut behind: Vec<Vec<usize>> = Vec::new(alloc);
    for _ in view.steps() {
        behind.push(Vec::new(alloc))?;
    }
    for (place, transition) in view.transitions().iter().enumerate() {
        if transition.priority.is_some() {
            continue;
        }
        for step in transition.preceding.as_slice() {
            if let Some(list) = behind.get_mut(step.0 as usize) {
                list.push(place)?;
            }
        }
    }
    Ok(behind)
}

// The transitions without a PRIORITY that stand before the one at a place and share a step with it, by their places.
fn before(
    alloc: Global,
    behind: &[Vec<usize>],
    place: usize,
    transition: &Transition,
) -> Result<Vec<usize>, AllocError> {
    let mut found = Vec::new(alloc);
    for step in transition.preceding.as_slice() {
        let Some(list) = behind.get(step.0 as usize) else {
            continue;
        };
        let count = list.partition_point(|other| *other < place);
        found.extend_from_slice(list.get(..count).unwrap_or(&[]))?;
    }
    if transition.preceding.as_slice().len() > 1 {
        found.sort_unstable();
        found.dedup();
    }
    Ok(found)
}

// Tells the pairs of one transition, which stands at a place, with those before it; whether it gave up. It takes the pairs from those that
// are left.
fn tell_pairs(
    findings: &mut Findings,
    view: &View<'_>,
    (place, firsts): (usize, &[usize]),
    left: &mut usize,
    budget: &mut Budget,
) -> Result<bool, AllocError> {
    let Some(other) = view.transitions().get(place) else {
        return Ok(false);
    };
    for first in firsts {
        let Some(one) = view.transitions().get(*first) else {
            continue;
        };
        if *left == 0 {
            return Ok(true);
        }
        *left = left.saturating_sub(1);
        match look_at(findings.alloc(), view, (one, other), budget)? {
            Looked::Apart => {}
            Looked::Together(way) => tell_pair(findings, view, *first, place, &way)?,
            Looked::GaveUp => return Ok(true),
        }
    }
    Ok(false)
}

/// Tells the pairs of transitions that share a step before them, have no PRIORITY, and may be TRUE together, as far as they are made of at
/// most 16 atoms; whether it gave up, since there are too many pairs, or the budget doesn't allow to look at them. The one error is that
/// memory was refused.
pub fn tell_selections(
    findings: &mut Findings,
    view: &View<'_>,
    budget: &mut Budget,
) -> Result<bool, AllocError> {
    if view.instance().is_none() {
        return Ok(false);
    }
    let behind = behind_steps(findings.alloc(), view)?;
    let mut left = MOST;
    for (place, transition) in view.transitions().iter().enumerate() {
        if transition.priority.is_some() {
            continue;
        }
        let firsts = before(findings.alloc(), &behind, place, transition)?;
        if tell_pairs(findings, view, (place, &firsts), &mut left, budget)? {
            return Ok(true);
        }
    }
    Ok(false)
}
