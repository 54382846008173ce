//! Program types (2.5.3).

ghost use Rattle.std.specs.Prelude.{◌≡◌};
ghost use Rattle.sfc_plant.specs.ElementNames.{step_place, action_place, transition_place, is_named};

use crate::chart::Chart;
use crate::variable_table::VariableTable;
use sfc_base::case::is_same_word;
use sfc_base::items::Items;
use sfc_base::name::Name;
use sfc_base::references::GlobalId;

/// A program type: its variables, the globals that it names as externals, each in text order, and all networks of its
/// text as one chart.
pub struct ProgramType {
    pub name: Name,
    pub locals: VariableTable,
    pub externals: Items<GlobalId>,
    pub chart: Chart,
}

// By hand, so that a caller that drops one proves one call.
impl Drop for ProgramType {
    fn drop(self) {
        let ProgramType {
            name: _,
            locals: _,
            externals: _,
            chart: _,
        } = self;
    }
}

impl ProgramType {
    /// The place of the step with this name among the steps, counted from 0; case is not significant (2.1.2). It takes
    /// no memory.
    pub fn find_step(&self, name: &[u8]) -> Option<usize>
        ensures { result ≡ step_place self.now.chart name.now }
    {
        let mut steps = self.chart.steps.as_slice().iter();
        steps.position(|step| is_same_word(name, step.name.spelling()))
    }

    /// The place of the declared action with this name among the actions, counted from 0; case is not significant
    /// (2.1.2). It takes no memory.
    pub fn find_action(&self, name: &[u8]) -> Option<usize>
        ensures { result ≡ action_place self.now.chart name.now }
    {
        let mut actions = self.chart.actions.as_slice().iter();
        actions.position(|action| is_same_word(name, action.name.spelling()))
    }

    /// The place of the transition with this name among the transitions, counted from 0; case is not significant
    /// (2.1.2). It takes no memory.
    pub fn find_transition(&self, name: &[u8]) -> Option<usize>
        ensures { result ≡ transition_place self.now.chart name.now }
    {
        let mut transitions = self.chart.transitions.as_slice().iter();
        transitions.position(|transition| is_this(&transition.name, name))
    }
}

// Whether what may have a name has this one.
fn is_this(own: &Option<Name>, name: &[u8]) -> bool
    ensures { result ≡ is_named name.now own.now }
{
    match own {
        Some(own) => is_same_word(name, own.spelling()),
        None => false,
    }
}
