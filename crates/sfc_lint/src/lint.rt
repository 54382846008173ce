//! All warnings of a text.

use crate::associations::tell_associations;
use crate::budget::Budget;
use crate::expressions::{tell_bodies, tell_conditions};
use crate::finding::{Finding, Findings};
use crate::forks::tell_forks;
use crate::kind::Kind;
use crate::names::{tell_cases, tell_near};
use crate::networks::Searched;
use crate::places::Places;
use crate::pragmas::allowed_by;
use crate::reading::Reading;
use crate::selections::tell_selections;
use crate::tasks::tell_tasks;
use crate::timed::tell_timed;
use crate::view::View;
use crate::writers::tell_variables;
use sfc_plant::plant::Plant;
use sfc_tables::tables::Tables;
use sfc_tokens::span::Span;
use std::alloc::{AllocError, Global};

/// A warning of a text.
#[derive(Drop)]
pub struct Warning {
    pub kind: Kind,
    /// The bytes of the text that it is told of.
    pub span: Span,
    /// What is wrong, in one line without its end.
    pub text: Vec<u8>,
    /// What else is told, in lines that begin with two blanks.
    pub more: Vec<u8>,
}

/// The warnings of a text, in text order, and the program types that were not looked at whole.
#[derive(Drop)]
pub struct Warnings {
    pub list: Vec<Warning>,
    /// The names of the program types of which a search gave up, parted by commas.
    pub given_up: Vec<u8>,
}

// The tables of the program type of this number, where there is one.
fn tables_at(alloc: Global, plant: &Plant, number: usize) -> Result<Option<Tables>, AllocError> {
    let types = plant.types();
    if number >= types.len() {
        return Ok(None);
    }
    let tables = Tables::build(alloc, &types[number].chart)?;
    Ok(Some(tables))
}

// Tells what is wrong with a program type by itself; whether something gave up.
fn tell_program(
    findings: &mut Findings,
    view: &View<'_>,
    budget: &mut Budget,
) -> Result<bool, AllocError> {
    let alloc = findings.alloc();
    let Some(tables) = tables_at(alloc, view.plant, view.number)? else {
        return Ok(false);
    };
    let searched = Searched::of(alloc, &tables, budget)?;
    let networks = searched.tell(findings, view, &tables, budget)?;
    let forks = tell_forks(findings, view, &tables, budget)?;
    tell_associations(findings, view, &tables)?;
    tell_timed(findings, view, &tables, &searched)?;
    tell_conditions(findings, view)?;
    tell_bodies(findings, view)?;
    let selections = tell_selections(findings, view, budget)?;
    let names = tell_near(findings, view.plant, view, budget)?;
    Ok(networks || forks || selections || names)
}

// The program types of a plant.
fn views_of(alloc: Global, plant: &Plant) -> Result<Vec<View<'_>>, AllocError> {
    let mut views = Vec::new(alloc);
    for (number, program) in plant.types().iter().enumerate() {
        views.push(View {
            plant,
            number,
            program,
        })?;
    }
    Ok(views)
}

// The warnings that a text doesn't allow, in text order.
fn placed(
    alloc: Global,
    reading: Reading<'_>,
    findings: Vec<Finding>,
) -> Result<Vec<Warning>, AllocError> {
    if findings.is_empty() {
        return Ok(Vec::new(alloc));
    }
    let allowed = allowed_by(alloc, reading.text, reading.tokens)?;
    let places = Places::of(alloc, reading.outline, &findings, &allowed)?;
    let mut list = Vec::new(alloc);
    for finding in findings {
        let span = places.span_of(&finding);
        if !places.is_allowed(&allowed, finding.kind, span) {
            let Finding {
                kind,
                site: _,
                text,
                more,
            } = finding;
            list.push(Warning {
                kind,
                span,
                text,
                more,
            })?;
        }
    }
    list.sort_by_key(|warning| warning.span.from)?;
    Ok(list)
}

/// The warnings of a text of which this was read, and which was loaded as this plant, but those that it allows, as far as the budget
/// goes. The one error is that memory was refused.
pub fn lint(
    alloc: Global,
    reading: Reading<'_>,
    plant: &Plant,
    budget: Budget,
) -> Result<Warnings, AllocError> {
    let views = views_of(alloc, plant)?;
    let mut findings = Findings::new(alloc);
    let mut given_up = Vec::new(alloc);
    let mut budget = budget;
    for view in &views {
        if tell_program(&mut findings, view, &mut budget)? {
            if !given_up.is_empty() {
                given_up.extend_from_slice(b", ")?;
            }
            given_up.extend_from_slice(view.name())?;
        }
    }
    tell_variables(&mut findings, plant, &views)?;
    tell_cases(&mut findings, reading.text, reading.outline)?;
    tell_tasks(&mut findings, plant)?;
    let list = placed(alloc, reading, findings.list)?;
    Ok(Warnings { list, given_up })
}
