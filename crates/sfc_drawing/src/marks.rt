//! What a run tells of an instance. Marks move nothing: a chart has one layout.

ghost use Rattle.std.specs.Prelude.{◌≡◌, [], option_map, slice_get};
ghost use Rattle.sfc_drawing.specs.Told as told;

use crate::drawn::{ActionMark, TransitionMark};
use sfc_base::ids::ProgId;
use sfc_base::items::Items;
use std::alloc::Global;

/// What is told of a step.
#[derive(Drop)]
pub struct StepState {
    /// For how many microseconds it is active, if it is.
    pub active: Option<i64>,
    /// It was active after no scan that was looked at.
    pub is_never: bool,
    /// What is told of its associations, in the order of the text.
    pub rows: Items<ActionMark>,
}

/// What is told of an instance; nothing of what isn't in its lists.
#[derive(Drop)]
pub struct Marks {
    /// What is told of all of it, behind its name.
    pub note: Items<u8>,
    /// Of the steps, in the order of the text.
    pub steps: Items<StepState>,
    /// Of the transitions, in the order of the text.
    pub transitions: Items<TransitionMark>,
    /// Of the bodies of declared actions, in the order of the text.
    pub bodies: Items<ActionMark>,
}

/// An instance, and what is told of it.
#[derive(Drop)]
pub struct Marked {
    pub instance: ProgId,
    pub marks: Marks,
}

/// What is told of the action with this number; nothing beyond the last.
pub fn action_mark(marks: &[ActionMark], number: usize) -> ActionMark
    ensures { result ≡ told.action_mark (slice_get marks.now number) }
{
    match marks.get(number) {
        Some(mark) => *mark,
        None => ActionMark {
            is_executed: false,
            is_forced: false,
            is_never: false,
        },
    }
}

impl Marks {
    /// Nothing is told.
    pub fn none(alloc: Global) -> Marks
        ensures note { result.note ≡ [] }
        ensures steps { result.steps ≡ [] }
        ensures transitions { result.transitions ≡ [] }
        ensures bodies { result.bodies ≡ [] }
    {
        Marks {
            note: Items::from_vec(Vec::new(alloc)),
            steps: Items::from_vec(Vec::new(alloc)),
            transitions: Items::from_vec(Vec::new(alloc)),
            bodies: Items::from_vec(Vec::new(alloc)),
        }
    }

    /// What is told of the step with this number, if something is.
    pub fn step(&self, number: usize) -> Option<&StepState>
        ensures { option_map (λ state. state.now) result ≡ slice_get self.now.steps number }
    {
        self.steps.as_slice().get(number)
    }

    /// What is told of the transition with this number.
    pub fn transition(&self, number: usize) -> TransitionMark
        ensures { result ≡ told.transition_mark (slice_get self.now.transitions number) }
    {
        match self.transitions.as_slice().get(number) {
            Some(mark) => *mark,
            None => TransitionMark {
                is_enabled: false,
                is_cleared: false,
                is_never: false,
            },
        }
    }

    /// What is told of the body of the action with this number.
    pub fn body(&self, number: usize) -> ActionMark
        ensures { result ≡ told.action_mark (slice_get self.now.bodies number) }
    {
        action_mark(self.bodies.as_slice(), number)
    }
}
