//! Associations in groups of one step or one action.

ghost use Rattle.std.specs.Prelude.{◌≡◌, ◌<◌, ◌^◌, ℕ, map, IfOk, IsPermutation};
ghost use Rattle.std.specs.List.Sorted.{IsNonDecreasing, IsNonDecreasingBy};
ghost use Rattle.sfc_tables.specs.Private.Grouping.{first_places, with_action};

use crate::step_action::StepAction;
use std::alloc::{AllocError, Global};

/// The steps of these associations. The one error is that memory was refused.
pub fn steps_of(alloc: Global, members: &[StepAction]) -> Result<Vec<usize>, AllocError>
    ensures { IfOk result (λ steps. steps.items ≡ map (λ member. member.step.0) members.now) }
{
    members
        .iter()
        .map(|member| usize::from(member.step.0))
        .collect(alloc)
}

/// The numbers of the actions of these associations. The one error is that memory was refused.
pub fn actions_of(alloc: Global, members: &[StepAction]) -> Result<Vec<usize>, AllocError>
    ensures { IfOk result (λ actions. actions.items ≡ map (λ member. member.action.0) members.now) }
{
    members.iter().map(|member| member.action.0).collect(alloc)
}

/// The associations by the numbers of their actions, those of one action in text order. The one error is that memory
/// was refused.
pub fn by_action(alloc: Global, associations: &[StepAction]) -> Result<Vec<StepAction>, AllocError>
    ensures permutation { IfOk result (λ members. IsPermutation associations.now members.items) }
    ensures sorted { IfOk result (λ members. IsNonDecreasingBy (λ member. member.action.0) members.items) }
    ensures groups { IfOk result (λ members. (k : ℕ) → with_action k members.items ≡ with_action k associations.now) }
{
    let mut members = Vec::from_slice(alloc, associations)?;
    members.sort_by_key(|member| member.action.0)?;
    Ok(members)
}

/// Where each of so many groups begins among rising numbers, and where the last one ends. The one error is that
/// memory was refused.
pub fn starts(alloc: Global, numbers: &[usize], groups: usize) -> Result<Vec<usize>, AllocError>
    requires sorted { IsNonDecreasing numbers.now }
    requires few { groups < 2 ^ 63 }
    ensures { IfOk result (λ starts. starts.items ≡ first_places numbers.now groups) }
{
    let mut starts = Vec::new(alloc);
    for k in 0..groups + 1 {
        starts.push(numbers.partition_point(|number| *number < k))?;
    }
    Ok(starts)
}
