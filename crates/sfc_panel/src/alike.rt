//! Whether a program stands as another one of the same chart.

ghost use Rattle.std.specs.Prelude.{◌≡◌, List, length};
ghost use Rattle.sfc_output.specs.sfc_instance.Answers.{is_action_executed, is_step_active, is_transition_cleared};
ghost use Rattle.sfc_output.specs.sfc_instance.Life.{InstanceState};
ghost use Rattle.sfc_output.specs.sfc_instance.Views.{Shows, tables_in};
ghost use Rattle.sfc_output.specs.sfc_image.Changes.{Change};
ghost use Rattle.sfc_panel.specs.Changes.{are_alike, stands_alike};

use crate::sfc_instance::program_view::ProgramView;

// Whether the same steps are active in both (2.6.2).
fn are_steps_alike(before: &ProgramView<'_>, behind: &ProgramView<'_>) -> bool
    ensures { tables_in behind.now ≡ tables_in before.now → (earlier later : List Change) (old new : InstanceState) →
        Shows before.now earlier old → Shows behind.now later new →
        result ≡ are_alike (is_step_active (tables_in before.now) old) (is_step_active (tables_in before.now) new)
        (length (tables_in before.now).initial) }
{
    before.active_flags().is_same(behind.active_flags())
}

// Whether the latest scans cleared the same transitions (2.6.5).
fn are_transitions_alike(before: &ProgramView<'_>, behind: &ProgramView<'_>) -> bool
    ensures { tables_in behind.now ≡ tables_in before.now → (earlier later : List Change) (old new : InstanceState) →
        Shows before.now earlier old → Shows behind.now later new →
        result ≡ are_alike (is_transition_cleared (tables_in before.now) old) (is_transition_cleared (tables_in before.now) new)
        (length (tables_in before.now).sides) }
{
    before.cleared_flags().is_same(behind.cleared_flags())
}

// Whether the latest scans executed the same actions (2.6.4.5).
fn are_actions_alike(before: &ProgramView<'_>, behind: &ProgramView<'_>) -> bool
    ensures { tables_in behind.now ≡ tables_in before.now → (earlier later : List Change) (old new : InstanceState) →
        Shows before.now earlier old → Shows behind.now later new →
        result ≡ are_alike (is_action_executed (tables_in before.now) old) (is_action_executed (tables_in before.now) new)
        (length (tables_in before.now).actions) }
{
    before.executed_flags().is_same(behind.executed_flags())
}

/// Whether the same steps are active in both, their latest scans cleared the same transitions and executed the same actions (2.6.2, 2.6.5,
/// 2.6.4.5). Both are of one chart.
pub(crate) fn stands_as(before: &ProgramView<'_>, behind: &ProgramView<'_>) -> bool
    ensures { tables_in behind.now ≡ tables_in before.now → (earlier later : List Change) (old new : InstanceState) →
        Shows before.now earlier old → Shows behind.now later new →
        result ≡ stands_alike (tables_in before.now) old new }
{
    let steps = are_steps_alike(before, behind);
    let transitions = are_transitions_alike(before, behind);
    let actions = are_actions_alike(before, behind);
    steps && (transitions && actions)
}
