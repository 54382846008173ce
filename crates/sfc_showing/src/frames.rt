//! Where a program instance stands: its active steps, and what its latest scan cleared.

use crate::own::{is_active, view_of};
use crate::sfc_instance::program_view::ProgramView;
use crate::shown::{append_step_time, append_transition_name};
use sfc_base::ids::{ProgId, TransitionId};
use sfc_base::references::StepId;
use sfc_outline::item::Item;
use sfc_page::append::append;
use sfc_plant::chart::{Step, Transition};
use sfc_session::session::Session;
use std::alloc::{AllocError, Global};

/// What a frame is.
#[derive(Clone, Copy, Debug, PartialEq, Eq)]
pub enum Stand {
    /// An active step (2.6.2).
    Step(StepId),
    /// The first initial step, before the first scan.
    Initial(StepId),
    /// A transition that the latest scan cleared (2.6.5).
    Cleared(TransitionId),
}

/// A frame: where a program instance stands, in words, and what the text declares there.
pub struct Frame {
    pub stand: Stand,
    pub name: Vec<u8>,
    pub item: Item,
}

// By hand, so that a caller that drops one proves one call.
impl Drop for Frame {
    fn drop(self) {
        let Frame {
            stand: _,
            name: _,
            item: _,
        } = self;
    }
}

// The place of a program instance's type among the types.
fn type_place(session: &Session, program: ProgId) -> Option<usize> {
    match session.plant().instances().get(usize::from(program.0)) {
        Some(instance) => Some(instance.program.0),
        None => None,
    }
}

// Puts a frame for each active step.
fn put_steps(
    alloc: Global,
    view: &ProgramView<'_>,
    steps: &[Step],
    program: usize,
    frames: &mut Vec<Frame>,
) -> Result<(), AllocError> {
    for (number, step) in steps.iter().enumerate() {
        let id = StepId(u16::try_from(number).unwrap_or(u16::MAX));
        if is_active(view, id) {
            let mut name = Vec::new(alloc);
            append_step_time(&mut name, view, id, step.name.spelling())?;
            frames.push(Frame {
                stand: Stand::Step(id),
                name,
                item: Item::Step {
                    program,
                    step: number,
                },
            })?;
        }
    }
    Ok(())
}

// Puts a frame for the first initial step.
fn put_initial(
    alloc: Global,
    steps: &[Step],
    program: usize,
    frames: &mut Vec<Frame>,
) -> Result<(), AllocError> {
    for (number, step) in steps.iter().enumerate() {
        if step.is_initial {
            let mut name = Vec::from_slice(alloc, step.name.spelling())?;
            append(&mut name, b" before the first scan")?;
            frames.push(Frame {
                stand: Stand::Initial(StepId(u16::try_from(number).unwrap_or(u16::MAX))),
                name,
                item: Item::Step {
                    program,
                    step: number,
                },
            })?;
            return Ok(());
        }
    }
    Ok(())
}

// Whether the latest scan cleared a transition.
fn is_cleared(view: &ProgramView<'_>, transition: TransitionId) -> bool {
    usize::from(transition.0) < view.transitions() && view.cleared(transition)
}

// Puts a frame for each transition that the latest scan cleared.
fn put_cleared(
    alloc: Global,
    view: &ProgramView<'_>,
    transitions: &[Transition],
    program: usize,
    frames: &mut Vec<Frame>,
) -> Result<(), AllocError> {
    for (number, transition) in transitions.iter().enumerate() {
        let id = TransitionId(u16::try_from(number).unwrap_or(u16::MAX));
        if is_cleared(view, id) {
            let mut name = Vec::new(alloc);
            append(&mut name, b"cleared TRANSITION ")?;
            append_transition_name(&mut name, number, transition)?;
            frames.push(Frame {
                stand: Stand::Cleared(id),
                name,
                item: Item::Transition {
                    program,
                    transition: number,
                },
            })?;
        }
    }
    Ok(())
}

/// Where a program instance stands: its active steps in text order, and then the transitions that its latest scan cleared; before its first
/// scan its first initial step. Nothing where there is no such instance. The one error is that memory was refused.
pub fn frames(alloc: Global, session: &Session, program: ProgId) -> Result<Vec<Frame>, AllocError> {
    let mut found = Vec::new(alloc);
    let resource = session.debugger().resource();
    let (Some(view), Some(program_type), Some(place)) = (
        view_of(resource, program),
        session.plant().type_of(program),
        type_place(session, program),
    ) else {
        return Ok(found);
    };
    let chart = &program_type.chart;
    if view.scans() == 0 {
        put_initial(alloc, chart.steps.as_slice(), place, &mut found)?;
    } else {
        put_steps(alloc, &view, chart.steps.as_slice(), place, &mut found)?;
        put_cleared(
            alloc,
            &view,
            chart.transitions.as_slice(),
            place,
            &mut found,
        )?;
    }
    Ok(found)
}
