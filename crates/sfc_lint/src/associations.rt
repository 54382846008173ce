//! Action blocks (2.6.4).

use crate::finding::Findings;
use crate::kind::Kind;
use crate::view::View;
use sfc_base::ids::ActionId;
use sfc_base::qualifier::TimedQualifier;
use sfc_flags::flags::Flags;
use sfc_outline::item::Item;
use sfc_page::append::append;
use sfc_plant::association::{Qualifier, Target};
use sfc_tables::step_action::StepAction;
use sfc_tables::tables::Tables;
use std::alloc::{AllocError, Global};

// Whether it is this qualifier with a time.
fn is(qualifier: Qualifier, wanted: TimedQualifier) -> bool {
    match qualifier {
        Qualifier::Timed(timed, _) => timed == wanted,
        _ => false,
    }
}

// Whether it stores the action.
fn is_stored(qualifier: Qualifier) -> bool {
    qualifier == Qualifier::Set
        || is(qualifier, TimedQualifier::StoredDelayed)
        || is(qualifier, TimedQualifier::DelayedStored)
        || is(qualifier, TimedQualifier::StoredLimited)
}

// What the associations of one action are together.
#[derive(Clone, Copy)]
struct Block {
    // The place of the first that stores it.
    first_stored: Option<usize>,
    is_reset: bool,
    is_delayed: bool,
}

impl Block {
    // Of no association.
    fn new() -> Block {
        Block {
            first_stored: None,
            is_reset: false,
            is_delayed: false,
        }
    }

    // Takes the association at a place.
    fn take(&mut self, place: usize, qualifier: Qualifier) {
        if is_stored(qualifier) && self.first_stored.is_none() {
            self.first_stored = Some(place);
        }
        self.is_reset = self.is_reset || qualifier == Qualifier::Reset;
        self.is_delayed = self.is_delayed || is(qualifier, TimedQualifier::StoredDelayed);
    }
}

// The block of each action, by its number.
fn blocks_of(alloc: Global, tables: &Tables) -> Result<Vec<Block>, AllocError> {
    let mut blocks = vec![in alloc; Block::new(); tables.actions()]?;
    for (place, association) in tables.step_actions().iter().enumerate() {
        if let Some(block) = blocks.get_mut(association.action.0) {
            block.take(place, association.qualifier);
        }
    }
    Ok(blocks)
}

/// An association by its place, with the block of its action.
#[derive(Clone, Copy)]
struct Entry {
    place: usize,
    association: StepAction,
    block: Block,
}

impl Entry {
    // Its item.
    fn item(&self, view: &View<'_>) -> Item {
        Item::Association {
            program: view.number,
            association: self.place,
        }
    }

    // Whether its step both sets and resets the action, and this is the one that resets it.
    fn is_set_beside(&self, tables: &Tables) -> bool {
        if self.association.qualifier != Qualifier::Reset {
            return false;
        }
        let step = self.association.step;
        (step.0 as usize) < tables.steps()
            && tables.of_step(step).iter().any(|other| other.qualifier == Qualifier::Set
                && other.action == self.association.action)
    }

    // Whether it is SL of an action that has SD too.
    fn is_limited_beside(&self) -> bool {
        self.block.is_delayed && is(self.association.qualifier, TimedQualifier::StoredLimited)
    }

    // Whether it is the first that stores an action which nothing resets.
    fn is_forever(&self) -> bool {
        self.block.first_stored == Some(self.place) && !self.block.is_reset
    }
}

// Tells that a step sets and resets an action.
fn tell_set_and_reset(
    findings: &mut Findings,
    view: &View<'_>,
    entry: &Entry,
    name: &[u8],
) -> Result<(), AllocError> {
    let step = view.step(entry.association.step);
    findings.tell(
        Kind::SetAndReset,
        entry.item(view),
        &[b"step ", step, b" sets and resets action ", name],
    )
}

// Tells that an action is stored both delayed and limited.
fn tell_limited(
    findings: &mut Findings,
    view: &View<'_>,
    entry: &Entry,
    name: &[u8],
) -> Result<(), AllocError> {
    findings.tell(
        Kind::DelayedAndLimited,
        entry.item(view),
        &[
            b"action ",
            name,
            b" has SD and SL: one that comes while the other is stored is a fault",
        ],
    )
}

// Tells that an action is stored and never reset.
fn tell_forever(
    findings: &mut Findings,
    view: &View<'_>,
    entry: &Entry,
    name: &[u8],
) -> Result<(), AllocError> {
    let mut told = Vec::new(findings.alloc());
    append(&mut told, b"action ")?;
    append(&mut told, name)?;
    append(&mut told, b" has ")?;
    append(&mut told, entry.association.qualifier.letters())?;
    append(&mut told, b" and no R: it acts once in its life")?;
    findings.tell_text(Kind::StoredForever, entry.item(view), told)
}

// Tells what is wrong with one association by itself.
fn tell_entry(
    findings: &mut Findings,
    view: &View<'_>,
    tables: &Tables,
    entry: &Entry,
) -> Result<(), AllocError> {
    let (beside, limited, forever) = (
        entry.is_set_beside(tables),
        entry.is_limited_beside(),
        entry.is_forever(),
    );
    if !beside && !limited && !forever {
        return Ok(());
    }
    let name = view.action(findings.alloc(), tables, entry.association.action)?;
    if beside {
        tell_set_and_reset(findings, view, entry, &name)?;
    }
    if limited {
        tell_limited(findings, view, entry, &name)?;
    }
    if forever {
        tell_forever(findings, view, entry, &name)?;
    }
    Ok(())
}

// The declared actions that some step is associated with.
fn associated(alloc: Global, view: &View<'_>, tables: &Tables) -> Result<Flags, AllocError> {
    let mut found = Flags::new(alloc, view.chart().actions.as_slice().len())?;
    for association in tables.step_actions() {
        if association.action.0 < tables.actions() {
            if let Target::Declared(ActionId(place)) = tables.target(association.action) {
                if place < found.count() {
                    found.set(place, true);
                }
            }
        }
    }
    Ok(found)
}

// Tells each declared action that no step is associated with.
fn tell_unassociated(
    findings: &mut Findings,
    view: &View<'_>,
    tables: &Tables,
) -> Result<(), AllocError> {
    let found = associated(findings.alloc(), view, tables)?;
    for (place, action) in view.chart().actions.as_slice().iter().enumerate() {
        if place < found.count() && found.get(place) {
            continue;
        }
        let item = Item::Action {
            program: view.number,
            action: place,
        };
        findings.tell(
            Kind::NoAssociation,
            item,
            &[
                b"no step is associated with action ",
                action.name.spelling(),
            ],
        )?;
    }
    Ok(())
}

/// Tells what is wrong with the associations of a program type, each by itself. The one error is that memory was refused.
pub fn tell_associations(
    findings: &mut Findings,
    view: &View<'_>,
    tables: &Tables,
) -> Result<(), AllocError> {
    let blocks = blocks_of(findings.alloc(), tables)?;
    for (place, association) in tables.step_actions().iter().enumerate() {
        if let Some(block) = blocks.get(association.action.0) {
            let entry = Entry {
                place,
                association: *association,
                block: *block,
            };
            tell_entry(findings, view, tables, &entry)?;
        }
    }
    tell_unassociated(findings, view, tables)
}
