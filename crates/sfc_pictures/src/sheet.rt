//! What one drawing is made from.

use crate::conditions::Conditions;
use crate::sfc_instance::program_view::ProgramView;
use sfc_base::ids::TransitionId;
use sfc_base::references::StepId;
use sfc_page::append::{append, append_number};
use sfc_plant::chart::Chart;
use sfc_plant::names::Names;
use std::alloc::AllocError;

/// A chart with its names and the texts of its conditions, and how an instance of it stands, where that is shown.
#[derive(Drop)]
pub struct Sheet<'a> {
    /// Its number among the drawings of a picture, which parts the names of their nodes.
    pub number: usize,
    /// The numbers of its transitions as they win (2.6.5).
    pub ranked: Vec<TransitionId>,
    /// The names of what the chart refers to.
    pub names: Names<'a>,
    /// The chart.
    pub chart: &'a Chart,
    /// The conditions of all transitions of the plant.
    pub conditions: &'a Conditions,
    /// How many transitions stand in front of the chart's first.
    pub transitions_before: usize,
    /// How an instance of it stands.
    pub view: Option<ProgramView<'a>>,
}

impl<'a> Sheet<'a> {
    /// The time of a step that is active, in microseconds.
    pub fn active_for(&self, step: usize) -> Option<i64> {
        let Some(view) = &self.view else {
            return None;
        };
        let number = u16::try_from(step).ok()?;
        let step = StepId(number);
        if usize::from(number) < view.steps() && view.active(step) {
            Some(view.elapsed(step))
        } else {
            None
        }
    }

    /// Whether the latest scan cleared the transition.
    pub fn is_cleared(&self, transition: usize) -> bool {
        let Some(view) = &self.view else {
            return false;
        };
        match u16::try_from(transition) {
            Ok(number) => {
                usize::from(number) < view.transitions() && view.cleared(TransitionId(number))
            }
            Err(_) => false,
        }
    }

    /// The condition of a transition.
    pub fn condition(&self, transition: usize) -> &[u8] {
        self.conditions
            .of_transition(self.transitions_before.saturating_add(transition))
    }

    /// Puts the name of a node: the drawing's number, a letter for its kind, and its number. The one error is that memory was refused.
    pub fn append_node(
        &self,
        out: &mut Vec<u8>,
        kind: &[u8],
        number: usize,
    ) -> Result<(), AllocError> {
        append(out, b"c")?;
        append_number(out, self.number as u64)?;
        append(out, kind)?;
        append_number(out, number as u64)
    }
}
