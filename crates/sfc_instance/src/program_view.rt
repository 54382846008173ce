//! A window on a program instance.

ghost use Rattle.std.specs.Prelude.{◌≡◌, ◌<◌, length};
ghost use Rattle.sfc_plant.specs.Finding.{chart_of};
ghost use Rattle.sfc_tables.specs.Tables.{tables_of};
ghost use Rattle.sfc_instance.specs.Agreement.{step_total, transition_total, action_total};

use crate::fault_place::FaultPlace;
use crate::program::Program;
use crate::scan_fault::ScanFault;
use sfc_base::ids::{ActionNumber, ProgId, TransitionId};
use sfc_base::references::{StepId, Variable};
use sfc_base::value::Value;
use sfc_expr::view::View;
use sfc_flags::flags::Flags;
use sfc_image::image::Image;
use sfc_image::step_readings::StepReadings;
use sfc_image::view::ImageView;
use sfc_plant::plant::Plant;
use sfc_tables::tables::Tables;

/// A program instance of a plant as its latest scan left it: the tables of its chart, its steps and its action control,
/// and the variables. As a `View` it is what a condition reads that is evaluated now.
#[derive(Clone, Copy)]
pub struct ProgramView<'a> {
    plant: &'a Plant,
    tables: &'a Tables,
    program: &'a Program,
    variables: ImageView<'a>,
    instance: ProgId,
    ghost known: { instance.0 < length plant.now.instances },
    ghost tabled: { tables.now ≡ tables_of (chart_of plant.now instance) },
    ghost steps_sized: { step_total program.now ≡ length tables.now.initial },
    ghost transitions_sized: { transition_total program.now ≡ length tables.now.sides },
    ghost actions_sized: { action_total program.now ≡ length tables.now.actions },
}

#[tactic(auto, unfolding(crate::specs::Views::plant_in, crate::specs::Views::instance_in, crate::specs::Views::Shows))]
impl<'a> ProgramView<'a> {
    ghost use Rattle.std.specs.Prelude.{◌≡◌, ◌<◌, ◌≤ℤ◌, ◌^◌, cond, nat_lt, ℕ, pos, true, List, length, slice_index_or};
    ghost use Rattle.sfc_image.specs.StepTimes.{times_of};
    ghost use Rattle.sfc_flags.specs.Flags.{flag};
    ghost use Rattle.sfc_plant.specs.Finding.{chart_of};
    ghost use Rattle.sfc_tables.specs.Tables.{tables_of};
    ghost use Rattle.sfc_image.specs.Agreement.{ImageAgrees, instance_total};
    ghost use Rattle.sfc_image.specs.Changes.{Change, settled};
    ghost use Rattle.sfc_instance.specs.Agreement.{IsFor, ProgramAgrees, step_total, elapsed_at};
    ghost use Rattle.sfc_instance.specs.Answers as answers;
    ghost use Rattle.sfc_instance.specs.Life.{InstanceState};
    ghost use Rattle.sfc_instance.specs.Views.{plant_in, instance_in, tables_in, Shows};

    /// The instance of the plant with this number, where these are its tables, its program and the plant's variables.
    #[tactic(auto, unfolding(crate::specs::Views::plant_in, crate::specs::Views::instance_in, crate::specs::Views::Shows), using(crate::proofs::Places::steps_shown, crate::proofs::Places::transitions_shown, crate::proofs::Places::actions_shown))]
    pub fn new(
        plant: &'a Plant,
        tables: &'a Tables,
        program: &'a Program,
        image: &'a Image,
        instance: ProgId,
    ) -> ProgramView<'a>
        requires known { instance.0 < length plant.now.instances }
        requires tables { tables.now ≡ tables_of (chart_of plant.now instance) }
        requires sizes { IsFor tables.now program.now }
        requires image { instance.0 < instance_total image.now }
        ensures plant { plant_in result ≡ plant.now }
        ensures instance { instance_in result ≡ instance }
        ensures shows { (changes : List Change) (instance_state : InstanceState) → ProgramAgrees tables.now program.now instance_state →
            ImageAgrees plant.now image.now (settled changes) → Shows result changes instance_state }
    {
        let steps = program.readings();
        ProgramView {
            plant,
            tables,
            program,
            variables: image.view(instance, steps, false),
            instance,
        }
    }

    /// The plant of which it is an instance.
    pub fn plant(&self) -> &'a Plant
        ensures { result.now ≡ plant_in self.now }
    {
        self.plant
    }

    /// Its number among the instances of its plant.
    pub fn instance(&self) -> ProgId
        ensures value { result ≡ instance_in self.now }
        ensures known { result.0 < length (plant_in self.now).instances }
    {
        self.instance
    }

    /// The tables of its chart.
    pub fn tables(&self) -> &'a Tables
        ensures { result.now ≡ tables_in self.now }
    {
        self.tables
    }

    /// How many steps its chart has.
    pub fn steps(&self) -> usize
        ensures { result ≡ length (tables_in self.now).initial }
    {
        self.tables.steps()
    }

    /// How many transitions its chart has.
    pub fn transitions(&self) -> usize
        ensures { result ≡ length (tables_in self.now).sides }
    {
        self.tables.transitions()
    }

    /// How many actions its chart has, each variable that is one by itself among them.
    pub fn actions(&self) -> usize
        ensures { result ≡ length (tables_in self.now).actions }
    {
        self.tables.actions()
    }

    /// Which steps are active, by number (2.6.2).
    pub fn active_flags(&self) -> &'a Flags
        ensures len { length result.now ≡ length (tables_in self.now).initial }
        ensures each { (changes : List Change) (instance_state : InstanceState) (s : ℕ) → s < length (tables_in self.now).initial →
            Shows self.now changes instance_state → flag result.now s ≡ answers.is_step_active (tables_in self.now) instance_state s }
    {
        self.program.active_flags()
    }

    /// Which transitions the latest scan cleared, by number (2.6.5).
    pub fn cleared_flags(&self) -> &'a Flags
        ensures len { length result.now ≡ length (tables_in self.now).sides }
        ensures each { (changes : List Change) (instance_state : InstanceState) (tr : ℕ) → tr < length (tables_in self.now).sides →
            Shows self.now changes instance_state →
            flag result.now tr ≡ answers.is_transition_cleared (tables_in self.now) instance_state tr }
    {
        self.program.cleared_flags()
    }

    /// Which actions have Q after the latest scan, by number (2.6.4.5).
    pub fn q_flags(&self) -> &'a Flags
        ensures len { length result.now ≡ length (tables_in self.now).actions }
        ensures each { (changes : List Change) (instance_state : InstanceState) (action : ℕ) → action < length (tables_in self.now).actions →
            Shows self.now changes instance_state → flag result.now action ≡ answers.action_q (tables_in self.now) instance_state action }
    {
        self.program.q_flags()
    }

    /// Which actions the latest scan executed, by number: their A (2.6.4.5).
    pub fn executed_flags(&self) -> &'a Flags
        ensures len { length result.now ≡ length (tables_in self.now).actions }
        ensures each { (changes : List Change) (instance_state : InstanceState) (action : ℕ) → action < length (tables_in self.now).actions →
            Shows self.now changes instance_state →
            flag result.now action ≡ answers.is_action_executed (tables_in self.now) instance_state action }
    {
        self.program.executed_flags()
    }

    /// How many scans its life has had; at most 2^64 - 1, where the count stays.
    pub fn scans(&self) -> u64
        ensures { (changes : List Change) (instance_state : InstanceState) → Shows self.now changes instance_state →
            result ≡ answers.scan_count instance_state }
    {
        self.program.scans()
    }

    /// The fault that ended a scan since its latest reset, if one did; each later scan is passed over for it.
    pub fn fault(&self) -> Option<ScanFault>
        ensures { (changes : List Change) (instance_state : InstanceState) → Shows self.now changes instance_state →
            result ≡ instance_state.fault }
    {
        self.program.fault()
    }

    /// Where the fault is that ended a scan since its latest reset, if one did: in the condition of a transition, in the control block of
    /// an action, or in a statement of a body.
    pub fn fault_place(&self) -> Option<FaultPlace>
        ensures { (changes : List Change) (instance_state : InstanceState) → Shows self.now changes instance_state →
            result ≡ instance_state.place }
    {
        self.program.fault_place()
    }

    /// Whether the step is active (2.6.2). The step is one of its chart's.
    pub fn active(&self, step: StepId) -> bool
        requires { step.0 < length (tables_in self.now).initial }
        ensures { (changes : List Change) (instance_state : InstanceState) → Shows self.now changes instance_state →
            result ≡ answers.is_step_active (tables_in self.now) instance_state step.0 }
    {
        self.program.active(step)
    }

    /// The step's time at the latest scan, in microseconds; what it kept, if it is not active (2.6.2). The step is one of
    /// its chart's.
    pub fn elapsed(&self, step: StepId) -> i64
        requires { step.0 < length (tables_in self.now).initial }
        ensures { (changes : List Change) (instance_state : InstanceState) → Shows self.now changes instance_state →
            result ≡ answers.step_elapsed (tables_in self.now) instance_state step.0 }
    {
        self.program.elapsed(step)
    }

    /// The time at the latest scan of a step that is active, in microseconds: the time since its latest activation (2.6.2). Of another
    /// step it is of no use. The step is one of its chart's.
    pub fn elapsed_of_active(&self, step: StepId) -> i64
        requires { step.0 < length (tables_in self.now).initial }
        ensures { (changes : List Change) (instance_state : InstanceState) → Shows self.now changes instance_state →
            answers.is_step_active (tables_in self.now) instance_state step.0 ≡ true →
            result ≡ answers.step_elapsed (tables_in self.now) instance_state step.0 }
    {
        self.program.elapsed_of_active(step)
    }

    /// The step's time at t, from 0 to 2^62 microseconds, as a scan then reads it (2.6.2); 0 of a step that is none of its
    /// chart's.
    #[tactic(auto, unfolding(crate::specs::Views::plant_in, crate::specs::Views::instance_in))]
    pub(crate) fn time_at(&self, step: StepId, t: i64) -> i64
        requires low { pos 0 ≤ℤ t }
        requires high { t ≤ℤ pos (2 ^ 62) }
        ensures { result ≡ cond (nat_lt step.0 (step_total self.now.program.now)) (elapsed_at self.now.program.now t step.0) (pos 0) }
    {
        if (step.0 as usize) < self.program.active_flags().count() {
            self.program.elapsed_at(step, t)
        } else {
            0
        }
    }

    /// What expressions read of its steps, as the latest scan left them: which are active, and their times (2.6.2).
    pub fn readings(&self) -> StepReadings<'a>
        ensures active { (changes : List Change) (instance_state : InstanceState) (s : ℕ) → s < length (tables_in self.now).initial →
            Shows self.now changes instance_state → flag result.active.now s ≡ answers.is_step_active (tables_in self.now) instance_state s }
        ensures times { (changes : List Change) (instance_state : InstanceState) (s : ℕ) → s < length (tables_in self.now).initial →
            Shows self.now changes instance_state →
            slice_index_or (times_of result) s (pos 0) ≡ answers.step_elapsed (tables_in self.now) instance_state s }
    {
        self.program.readings()
    }

    /// Whether the latest scan activated the step, also if it was active before. The step is one of its chart's.
    pub fn activated(&self, step: StepId) -> bool
        requires { step.0 < length (tables_in self.now).initial }
        ensures { (changes : List Change) (instance_state : InstanceState) → Shows self.now changes instance_state →
            result ≡ answers.is_step_activated (tables_in self.now) instance_state step.0 }
    {
        self.program.activated(step)
    }

    /// Whether the latest scan cleared the transition (2.6.5), which is one of its chart's.
    pub fn cleared(&self, transition: TransitionId) -> bool
        requires { transition.0 < length (tables_in self.now).sides }
        ensures { (changes : List Change) (instance_state : InstanceState) → Shows self.now changes instance_state →
            result ≡ answers.is_transition_cleared (tables_in self.now) instance_state transition.0 }
    {
        self.program.cleared(transition)
    }

    /// The action's Q after the latest scan (2.6.4.5). The action is one of its chart's.
    pub fn q(&self, action: ActionNumber) -> bool
        requires { action.0 < length (tables_in self.now).actions }
        ensures { (changes : List Change) (instance_state : InstanceState) → Shows self.now changes instance_state →
            result ≡ answers.action_q (tables_in self.now) instance_state action.0 }
    {
        self.program.q(action)
    }

    /// Whether the latest scan executed the action: its A (2.6.4.5). The action is one of its chart's.
    pub fn executed(&self, action: ActionNumber) -> bool
        requires { action.0 < length (tables_in self.now).actions }
        ensures { (changes : List Change) (instance_state : InstanceState) → Shows self.now changes instance_state →
            result ≡ answers.is_action_executed (tables_in self.now) instance_state action.0 }
    {
        self.program.executed(action)
    }
}

#[tactic(auto, unfolding(crate::specs::Views::environment_in, crate::specs::Views::plant_in, crate::specs::Views::instance_in))]
impl View for ProgramView<'_> {
    ghost use Rattle.sfc_instance.specs.Views.{environment_in};

    ghost environment = { environment_in };

    fn value_at(&self, variable: Variable) -> Value {
        self.variables.value_at(variable)
    }

    fn is_active(&self, step: StepId) -> bool {
        self.variables.is_active(step)
    }

    fn time_of(&self, step: StepId) -> i64 {
        if (step.0 as usize) < self.program.active_flags().count() {
            self.program.elapsed(step)
        } else {
            0
        }
    }

    fn q(&self) -> bool {
        self.variables.q()
    }
}
