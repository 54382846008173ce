//! What was shown last of an instance.

use crate::sfc_instance::program_view::ProgramView;
use sfc_base::ticks::Ticks;
use sfc_flags::flags::Flags;
use std::alloc::{AllocError, Global};

/// Which steps of an instance were active, and which actions had Q and were executed, as they were shown last.
pub struct Shown {
    active: Flags,
    q: Flags,
    executed: Flags,
    // The first action that has a body.
    first_body: usize,
    // Whether each variable that is an action, and that nothing else writes, had its Q.
    is_settled: bool,
}

// By hand, so that a caller that drops one proves one call.
impl Drop for Shown {
    fn drop(self) {
        let Shown {
            active: _,
            q: _,
            executed: _,
            first_body: _,
            is_settled: _,
        } = self;
    }
}

/// The nearer of two places.
pub fn nearer(some: Option<usize>, other: Option<usize>) -> Option<usize> {
    match (some, other) {
        (Some(place), Some(another)) => Some(place.min(another)),
        (None, place) => place,
        (place, None) => place,
    }
}

// The first place from this one on at which two sets of one size differ.
fn next_difference(now: &Flags, last: &Flags, from: usize) -> Option<usize> {
    if now.count() == last.count() {
        now.next_difference(last, from, &mut Ticks::new())
    } else {
        None
    }
}

/// Takes over a set of the same size.
pub fn copy(last: &mut Flags, now: &Flags) {
    if now.count() == last.count() {
        last.copy_from(now, &mut Ticks::new());
    }
}

// Keeps a flag, if there is such a place.
fn keep(last: &mut Flags, place: usize, is_set: bool) {
    if place < last.count() {
        last.set(place, is_set);
    }
}

// The first action of an instance that has a body.
fn first_body(view: &ProgramView<'_>) -> usize {
    let plant = view.plant();
    let Some(instance) = plant.instances().get(usize::from(view.instance().0)) else {
        return 0;
    };
    let bodies = match plant.types().get(instance.program.0) {
        Some(program) => program.chart.actions.as_slice().len(),
        None => 0,
    };
    view.actions().saturating_sub(bodies)
}

impl Shown {
    /// Of an instance as it stands. The one error is that memory was refused.
    pub fn of_view(alloc: Global, view: &ProgramView<'_>) -> Result<Shown, AllocError> {
        let mut shown = Shown {
            active: Flags::new(alloc, view.steps())?,
            q: Flags::new(alloc, view.actions())?,
            executed: Flags::new(alloc, view.actions())?,
            first_body: first_body(view),
            is_settled: false,
        };
        shown.keep(view);
        Ok(shown)
    }

    /// The instance is shown as it stands, and its variables needn't have the Q of their actions.
    pub fn keep(&mut self, view: &ProgramView<'_>) {
        copy(&mut self.active, view.active_flags());
        copy(&mut self.q, view.q_flags());
        copy(&mut self.executed, view.executed_flags());
        self.is_settled = false;
    }

    /// A step is shown, active or not. It answers whether that is another than was shown last.
    pub fn keep_active(&mut self, step: usize, is_active: bool) -> bool {
        let is_other = step < self.active.count() && self.active.get(step) != is_active;
        keep(&mut self.active, step, is_active);
        is_other
    }

    /// Q of an action is shown.
    pub fn keep_q(&mut self, action: usize, q: bool) {
        keep(&mut self.q, action, q);
    }

    /// A of an action is shown.
    pub fn keep_executed(&mut self, action: usize, is_executed: bool) {
        keep(&mut self.executed, action, is_executed);
    }

    /// A scan is shown, which gave the variables that are actions their Q.
    pub fn settle(&mut self) {
        self.is_settled = true;
    }

    /// Whether the latest scan of the instance executed a body.
    pub fn has_body(&self, view: &ProgramView<'_>) -> bool {
        let executed = view.executed_flags();
        executed
            .next_set(self.first_body, &mut Ticks::new())
            .is_some()
    }

    /// The first step from this one on that is active, or was when it was shown last.
    pub fn next_step(&self, view: &ProgramView<'_>, from: usize) -> Option<usize> {
        let ticks = &mut Ticks::new();
        nearer(
            view.active_flags().next_set(from, ticks),
            self.active.next_set(from, ticks),
        )
    }

    /// The first action from this one on whose Q isn't what was shown last.
    pub fn next_q(&self, view: &ProgramView<'_>, from: usize) -> Option<usize> {
        next_difference(view.q_flags(), &self.q, from)
    }

    /// The first action from this one on whose A isn't what was shown last.
    pub fn next_executed(&self, view: &ProgramView<'_>, from: usize) -> Option<usize> {
        next_difference(view.executed_flags(), &self.executed, from)
    }

    /// The first action from this one on whose Q may be another than its variable had.
    pub fn next_output(&self, view: &ProgramView<'_>, from: usize) -> Option<usize> {
        if self.is_settled {
            self.next_q(view, from)
        } else if from < self.first_body {
            Some(from)
        } else {
            None
        }
    }
}
