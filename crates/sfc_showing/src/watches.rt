//! Values that are looked at behind each scan.

use crate::own::{is_action, is_step, variable_value};
use sfc_base::ids::{ActionNumber, ProgId, VarId};
use sfc_base::references::StepId;
use sfc_base::value::Value;
use sfc_session::session::Session;
use std::alloc::{AllocError, Global};

/// What is watched.
#[derive(Clone, Copy, Debug, PartialEq, Eq)]
pub enum Watched {
    /// What a variable reads.
    Variable(VarId),
    /// Whether a step of a program instance is active: its X (2.6.2).
    Active(ProgId, StepId),
    /// The Q of an action of a program instance (2.6.4.5).
    Control(ProgId, ActionNumber),
}

/// Its value, after the commands so far; None where there is no such thing.
pub fn watched_value(session: &Session, watched: Watched) -> Option<Value> {
    match watched {
        Watched::Variable(id) => variable_value(session, id),
        Watched::Active(program, step) => Some(Value::Bool(is_step(session, program, step)?)),
        Watched::Control(program, action) => {
            Some(Value::Bool(is_action(session, program, action)?))
        }
    }
}

// What is watched, and its value when it was looked at last.
#[derive(Clone, Copy)]
struct Watch {
    watched: Watched,
    seen: Option<Value>,
}

/// What is watched.
pub struct Watches {
    watches: Vec<Watch>,
}

// By hand, so that a caller that drops one proves one call.
impl Drop for Watches {
    fn drop(self) {
        let Watches { watches: _ } = self;
    }
}

impl Watches {
    /// Nothing is watched.
    pub fn new(alloc: Global) -> Watches {
        Watches {
            watches: Vec::new(alloc),
        }
    }

    /// These are watched from now on, and no others. The one error is that memory was refused; then a front of them is.
    pub fn replace(&mut self, session: &Session, all: &[Watched]) -> Result<(), AllocError> {
        self.watches.clear();
        for watched in all {
            self.watches.push(Watch {
                watched: *watched,
                seen: watched_value(session, *watched),
            })?;
        }
        Ok(())
    }

    /// What is watched at this place.
    pub fn watched(&self, place: usize) -> Option<Watched> {
        match self.watches.get(place) {
            Some(watch) => Some(watch.watched),
            None => None,
        }
    }

    /// Looks at all: the place of the first whose value has changed since it was looked at last.
    pub fn look(&mut self, session: &Session) -> Option<usize> {
        let mut changed = None;
        let mut place: usize = 0;
        for watch in self.watches.iter_mut() {
            let value = watched_value(session, watch.watched);
            if value != watch.seen && changed.is_none() {
                changed = Some(place);
            }
            watch.seen = value;
            place = place.saturating_add(1);
        }
        changed
    }
}
