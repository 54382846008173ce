//! Programs as they stood, to be compared with how they stand later.

ghost use Rattle.std.specs.Prelude.{◌≡◌, ◌<◌, IfOk, List, Some, length, is_none, option_map, slice_get};
ghost use Rattle.sfc_events.specs.History.{History};
ghost use Rattle.sfc_output.specs.sfc_core.Agreement.{Agrees, plant_of};
ghost use Rattle.sfc_output.specs.sfc_core.PlantState.{state_of};
ghost use Rattle.sfc_output.specs.sfc_image.Changes.{Change};
ghost use Rattle.sfc_output.specs.sfc_instance.Answers.{is_action_executed, is_step_active, is_transition_cleared};
ghost use Rattle.sfc_output.specs.sfc_instance.Life.{InstanceState};
ghost use Rattle.sfc_output.specs.sfc_instance.Views.{Shows, tables_in};
ghost use Rattle.sfc_panel.specs.Changes as changes;
ghost use Rattle.sfc_panel.specs.Changes.{are_alike, stands_alike};
ghost use Rattle.sfc_panel.specs.Pictures.{IsPicture, IsShot, IsShotAt};

use crate::sfc_core::resource::Resource;
use crate::sfc_instance::program_view::ProgramView;
use sfc_base::ids::ProgId;
use sfc_base::ticks::Ticks;
use sfc_events::command::Answer;
use sfc_flags::flags::Flags;
use std::alloc::{AllocError, Global};

/// The active steps of a program, the transitions that its latest scan cleared, and the actions that it executed.
#[derive(Drop)]
struct Shot {
    active: Flags,
    cleared: Flags,
    executed: Flags,
}

// The same flags once more.
fn copy_of(alloc: Global, flags: &Flags) -> Result<Flags, AllocError>
    ensures { IfOk result (λ copy. copy ≡ flags.now) }
{
    let mut copy = Flags::new(alloc, flags.count())?;
    copy.copy_from(flags, &mut Ticks::new());
    Ok(copy)
}

// A program as it stands.
fn shot_of(alloc: Global, view: &ProgramView<'_>) -> Result<Shot, AllocError>
    ensures { (changes : List Change) (state : InstanceState) → Shows view.now changes state →
        IfOk result (λ shot. IsShot (tables_in view.now) state shot) }
{
    let active = copy_of(alloc, view.active_flags())?;
    let cleared = copy_of(alloc, view.cleared_flags())?;
    let executed = copy_of(alloc, view.executed_flags())?;
    Ok(Shot {
        active,
        cleared,
        executed,
    })
}

// Whether the same steps are active (2.6.2).
fn are_steps_alike(shot: &Shot, view: &ProgramView<'_>) -> bool
    ensures { (changes : List Change) (old new : InstanceState) → IsShot (tables_in view.now) old shot.now → Shows view.now changes new →
        result ≡ are_alike (is_step_active (tables_in view.now) old) (is_step_active (tables_in view.now) new)
        (length (tables_in view.now).initial) }
{
    shot.active.is_same(view.active_flags())
}

// Whether the latest scans cleared the same transitions (2.6.5).
fn are_transitions_alike(shot: &Shot, view: &ProgramView<'_>) -> bool
    ensures { (changes : List Change) (old new : InstanceState) → IsShot (tables_in view.now) old shot.now → Shows view.now changes new →
        result ≡ are_alike (is_transition_cleared (tables_in view.now) old) (is_transition_cleared (tables_in view.now) new)
        (length (tables_in view.now).sides) }
{
    shot.cleared.is_same(view.cleared_flags())
}

// Whether the latest scans executed the same actions (2.6.4.5).
fn are_actions_alike(shot: &Shot, view: &ProgramView<'_>) -> bool
    ensures { (changes : List Change) (old new : InstanceState) → IsShot (tables_in view.now) old shot.now → Shows view.now changes new →
        result ≡ are_alike (is_action_executed (tables_in view.now) old) (is_action_executed (tables_in view.now) new)
        (length (tables_in view.now).actions) }
{
    shot.executed.is_same(view.executed_flags())
}

// Whether a program stands as it did.
fn stands_as(shot: &Shot, view: &ProgramView<'_>) -> bool
    ensures { (changes : List Change) (old new : InstanceState) → IsShot (tables_in view.now) old shot.now → Shows view.now changes new →
        result ≡ stands_alike (tables_in view.now) old new }
{
    let steps = are_steps_alike(shot, view);
    let transitions = are_transitions_alike(shot, view);
    let actions = are_actions_alike(shot, view);
    steps && (transitions && actions)
}

// Whether no line of a program is shown of a scan that was answered so.
fn is_unshown(shot: &Shot, resource: &Resource, answer: &Answer, program: ProgId) -> bool
    requires known { program.0 < length (plant_of resource.now).instances }
    ensures { (h g : History) → IsShotAt (plant_of resource.now) (state_of (plant_of resource.now) h) program.0 (Some shot.now) →
        Agrees resource.now g → result ≡ is_none (changes.shown_end (plant_of resource.now) (state_of (plant_of resource.now) h)
        (state_of (plant_of resource.now) g) answer.now program.0) }
{
    let Answer::Scanned { ran, faulted, .. } = answer else {
        return true;
    };
    if ran.contains(program) {
        return stands_as(shot, &resource.program(program));
    }
    !faulted.contains(program)
}

// The shot at a place, if there is one.
fn shot_at(shots: &[Shot], place: usize) -> Option<&Shot>
    ensures { option_map (λ shot. shot.now) result ≡ slice_get shots.now place }
{
    shots.get(place)
}

/// All programs of a resource as they stood.
pub struct Picture {
    shots: Vec<Shot>,
}

// By hand, so that a caller that drops one proves one call.
impl Drop for Picture {
    fn drop(self) {
        let Picture { shots: _ } = self;
    }
}

#[tactic(auto, unfolding(crate::specs::Pictures::IsPicture))]
impl Picture {
    /// How all programs stand: which steps are active, and which transitions their latest scans cleared and which actions they executed
    /// (2.6.2, 2.6.5, 2.6.4.5). The one error is that memory was refused.
    pub fn of(alloc: Global, resource: &Resource) -> Result<Picture, AllocError>
        ensures { (h : History) → Agrees resource.now h →
            IfOk result (λ picture. IsPicture (plant_of resource.now) (state_of (plant_of resource.now) h) picture) }
    {
        let count = resource.plant().instances().len();
        let mut shots = Vec::new(alloc);
        for k in 0..count {
            let shot = shot_of(alloc, &resource.program(ProgId(k as u8)))?;
            shots.push(shot)?;
        }
        Ok(Picture { shots })
    }

    // The same of one program; one that isn't there has none.
    fn hides(&self, resource: &Resource, answer: &Answer, program: ProgId) -> bool
        requires known { program.0 < length (plant_of resource.now).instances }
        ensures { (h g : History) → IsPicture (plant_of resource.now) (state_of (plant_of resource.now) h) self.now → Agrees resource.now g →
            result ≡ is_none (changes.shown_end (plant_of resource.now) (state_of (plant_of resource.now) h)
            (state_of (plant_of resource.now) g) answer.now program.0) }
    {
        match shot_at(&self.shots, usize::from(program.0)) {
            Some(shot) => is_unshown(shot, resource, answer, program),
            None => true,
        }
    }

    /// Whether no line of a program is shown of a command that was answered so, where this is the picture before it and the resource stands
    /// as behind it: as `Panel::append_changes` would show none.
    pub fn shows_none(&self, resource: &Resource, answer: &Answer) -> bool
        ensures { (h g : History) → IsPicture (plant_of resource.now) (state_of (plant_of resource.now) h) self.now → Agrees resource.now g →
            result ≡ changes.shows_none (plant_of resource.now) (state_of (plant_of resource.now) h)
            (state_of (plant_of resource.now) g) answer.now (length (plant_of resource.now).instances) }
    {
        let count = resource.plant().instances().len();
        let mut none = true;
        for k in 0..count {
            let hides = self.hides(resource, answer, ProgId(k as u8));
            none = none && hides;
        }
        none
    }
}
