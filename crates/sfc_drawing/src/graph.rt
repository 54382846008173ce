//! A chart as numbers: how large what is drawn of it is, and the links between its nodes.

ghost use Rattle.std.specs.Prelude.{◌≡◌, IfOk, length, vec_len};

use crate::draw_step::{columns_of, draw_rows};
use crate::draw_transition::text_height;
use crate::listed::text_at;
use crate::widths::{digits, shown, small, wide};
use crate::wrap::wrapped;
use sfc_base::ids::TransitionId;
use sfc_layout::chart::{Chart as Numbers, Link, Step as StepSize, Transition as TransitionSize};
use sfc_plant::chart::{Chart, Step, Transition};
use sfc_plant::names::Names;
use std::alloc::{AllocError, Global};

/// How many characters of the name of a step are shown.
pub const NAME: u32 = 32;

/// Half the least width of the box of a step.
const HALF: u32 = 40;

// The sizes of a step.
fn step_size(alloc: Global, names: &Names<'_>, step: &Step) -> Result<StepSize, AllocError> {
    let rows = draw_rows(alloc, names, step.associations.as_slice(), 0, &[])?;
    let columns = columns_of(rows.as_slice());
    let name = wide(shown(step.name.spelling(), NAME));
    let half = HALF.max(name.saturating_add(36) / 2);
    let count = u32::try_from(rows.len()).unwrap_or(u32::MAX);
    Ok(StepSize {
        initial: step.is_initial,
        name,
        half: u16::try_from(half).unwrap_or(u16::MAX),
        block: columns
            .qualifier
            .saturating_add(columns.time)
            .saturating_add(columns.action)
            .saturating_add(columns.indicators),
        rows: count.saturating_mul(20),
    })
}

// The most characters of a line of a text.
fn widest(lines: &[Vec<u8>]) -> u32 {
    let mut most = 0;
    for line in lines {
        most = most.max(shown(line.as_slice(), 90));
    }
    most
}

// The sizes of the transition with this number, counted from 1, and with this condition.
fn transition_size(
    alloc: Global,
    number: u64,
    transition: &Transition,
    condition: &[u8],
) -> Result<TransitionSize, AllocError> {
    let lines = wrapped(alloc, condition)?;
    let name = match &transition.name {
        Some(name) => shown(name.spelling(), 34),
        None => 0,
    };
    let characters = digits(number).saturating_add(1);
    Ok(TransitionSize {
        name: wide(characters),
        number: u16::try_from(small(characters)).unwrap_or(u16::MAX),
        text: wide(name.max(widest(lines.as_slice()))),
        lines: text_height(transition.name.is_some(), lines.as_slice().len()),
        priority: transition
            .priority
            .map(|priority| small(digits(u64::from(priority)))),
    })
}

// The links of a transition: first those that lead to it.
fn push_links(
    links: &mut Vec<Link>,
    node: usize,
    transition: &Transition,
) -> Result<(), AllocError> {
    for step in transition.preceding.as_slice() {
        links.push(Link {
            source: usize::from(step.0),
            target: node,
        })?;
    }
    for step in transition.following.as_slice() {
        links.push(Link {
            source: node,
            target: usize::from(step.0),
        })?;
    }
    Ok(())
}

// The links of all transitions, in the order of their rank.
fn links_of(
    alloc: Global,
    chart: &Chart,
    ranked: &[TransitionId],
) -> Result<Vec<Link>, AllocError> {
    let steps = chart.steps.len();
    let mut links = Vec::new(alloc);
    for id in ranked {
        let number = usize::from(id.0);
        if let Some(transition) = chart.transitions.as_slice().get(number) {
            push_links(&mut links, steps.saturating_add(number), transition)?;
        }
    }
    Ok(links)
}

/// A chart with all that is drawn of it: its transitions by rank, their conditions, and the bodies of its actions, as listed.
#[derive(Clone, Copy)]
pub struct Subject<'a> {
    pub names: &'a Names<'a>,
    pub chart: &'a Chart,
    pub ranked: &'a [TransitionId],
    pub conditions: &'a [Vec<u8>],
    pub bodies: &'a [Vec<Vec<u8>>],
}

// The sizes of the steps.
fn step_sizes(alloc: Global, subject: Subject<'_>) -> Result<Vec<StepSize>, AllocError>
    ensures { IfOk result (λ sizes. vec_len sizes ≡ length subject.entry.chart.now.steps) }
{
    let mut sizes = Vec::new(alloc);
    for step in subject.chart.steps.as_slice() {
        sizes.push(step_size(alloc, subject.names, step)?)?;
    }
    Ok(sizes)
}

// The sizes of the transitions.
fn transition_sizes(alloc: Global, subject: Subject<'_>) -> Result<Vec<TransitionSize>, AllocError>
    ensures { IfOk result (λ sizes. vec_len sizes ≡ length subject.entry.chart.now.transitions) }
{
    let mut sizes = Vec::new(alloc);
    for (place, transition) in subject.chart.transitions.as_slice().iter().enumerate() {
        let condition = text_at(subject.conditions, place);
        let number = (place as u64).saturating_add(1);
        sizes.push(transition_size(alloc, number, transition, condition)?)?;
    }
    Ok(sizes)
}

/// The chart as numbers. The one error is that memory was refused.
pub fn numbers_of(alloc: Global, subject: Subject<'_>) -> Result<Numbers, AllocError>
    ensures steps { IfOk result (λ numbers. length numbers.steps.items ≡ length subject.entry.chart.now.steps) }
    ensures transitions { IfOk result (λ numbers. length numbers.transitions.items ≡ length subject.entry.chart.now.transitions) }
{
    Ok(Numbers {
        steps: step_sizes(alloc, subject)?,
        transitions: transition_sizes(alloc, subject)?,
        links: links_of(alloc, subject.chart, subject.ranked)?,
    })
}
