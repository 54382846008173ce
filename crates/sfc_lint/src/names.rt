//! Names that are easily taken for one another (2.1.2).

use crate::budget::Budget;
use crate::finding::{Findings, Site};
use crate::kind::Kind;
use crate::near::nearest;
use crate::view::View;
use sfc_outline::item::Item;
use sfc_outline::mention::{Declared, Mention};
use sfc_outline::outline::Outline;
use sfc_plant::plant::Plant;
use sfc_tokens::span::Span;
use std::alloc::AllocError;

/// How many looks a byte of a name takes.
const LOOKS: usize = 20;

/// The most names that are told to be written in another case.
const MOST_CASES: usize = 200;

// A name of a space, and what it is of.
#[derive(Clone, Copy)]
struct Named<'a> {
    name: &'a [u8],
    item: Item,
}

// Tells the names of a space that are near to an earlier one, each once; whether the budget didn't allow it.
fn tell_space(
    findings: &mut Findings,
    space: &[Named<'_>],
    budget: &mut Budget,
) -> Result<bool, AllocError> {
    let alloc = findings.alloc();
    let mut names = Vec::new(alloc);
    let mut bytes = 0usize;
    for named in space {
        names.push(named.name)?;
        bytes = bytes.saturating_add(named.name.len());
    }
    if !budget.take(bytes, LOOKS) {
        return Ok(true);
    }
    for (second, first) in space.iter().zip(nearest(alloc, &names)?) {
        let Some(first) = first.and_then(|first| space.get(first)) else {
            continue;
        };
        findings.tell(
            Kind::NearNames,
            second.item,
            &[
                second.name,
                b" differs from ",
                first.name,
                b" in one letter",
            ],
        )?;
    }
    Ok(false)
}

// Tells the near names of the variables that a program type sees.
fn tell_near_variables(
    findings: &mut Findings,
    plant: &Plant,
    view: &View<'_>,
    budget: &mut Budget,
) -> Result<bool, AllocError> {
    let mut names = Vec::new(findings.alloc());
    for global in view.program.externals.as_slice() {
        if let Some(variable) = plant.globals().get(global.0) {
            names.push(Named {
                name: variable.name.spelling(),
                item: Item::Global { global: global.0 },
            })?;
        }
    }
    for (place, variable) in view.program.locals.as_slice().iter().enumerate() {
        names.push(Named {
            name: variable.name.spelling(),
            item: Item::Local {
                program: view.number,
                local: place,
            },
        })?;
    }
    tell_space(findings, &names, budget)
}

// Tells the near names of the steps of a program type.
fn tell_near_steps(
    findings: &mut Findings,
    view: &View<'_>,
    budget: &mut Budget,
) -> Result<bool, AllocError> {
    let mut names = Vec::new(findings.alloc());
    for (place, step) in view.steps().iter().enumerate() {
        names.push(Named {
            name: step.name.spelling(),
            item: Item::Step {
                program: view.number,
                step: place,
            },
        })?;
    }
    tell_space(findings, &names, budget)
}

/// Tells the names of a program type that differ in one letter; whether it gave up, as the budget didn't allow it. The one error is that
/// memory was refused.
pub fn tell_near(
    findings: &mut Findings,
    plant: &Plant,
    view: &View<'_>,
    budget: &mut Budget,
) -> Result<bool, AllocError> {
    let variables = tell_near_variables(findings, plant, view, budget)?;
    let steps = tell_near_steps(findings, view, budget)?;
    Ok(variables || steps)
}

// The bytes of a text.
fn bytes_of(text: &[u8], span: Span) -> &[u8] {
    match text.get(span.from as usize..span.to as usize) {
        Some(bytes) => bytes,
        None => b"",
    }
}

// Whether an earlier mention of the same is written in another case too.
fn is_told(text: &[u8], earlier: &[Mention], declared: &Declared) -> bool {
    let name = bytes_of(text, declared.name);
    earlier.iter().any(|mention| match &mention.declared {
        Some(other) => other.item == declared.item && bytes_of(text, mention.span) != name,
        None => false,
    })
}

/// Tells the names that are written in another case than where they are declared, the first mention of each. The one error is that
/// memory was refused.
pub fn tell_cases(
    findings: &mut Findings,
    text: &[u8],
    outline: &Outline,
) -> Result<(), AllocError> {
    let mut left = MOST_CASES;
    for (place, mention) in outline.mentions.iter().enumerate() {
        let Some(declared) = &mention.declared else {
            continue;
        };
        let (name, word) = (bytes_of(text, declared.name), bytes_of(text, mention.span));
        let earlier = match outline.mentions.get(..place) {
            Some(earlier) => earlier,
            None => &[],
        };
        if left > 0 && name != word && !is_told(text, earlier, declared) {
            left = left.saturating_sub(1);
            findings.tell_at(
                Kind::OtherCase,
                Site::Bytes(mention.span),
                &[word, b" is declared as ", name],
            )?;
        }
    }
    Ok(())
}
