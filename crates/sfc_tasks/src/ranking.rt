//! The order among tasks that wait (2.7.2).

ghost use Rattle.std.specs.Prelude.{◌≡◌, ◌+◌, ◌<◌, ◌≤◌, ◌<ℤ◌, ◌≤ℤ◌, List, IfSome};
ghost use Rattle.std.specs.Bool.{OnTrue, OnFalse};
ghost use Rattle.sfc_tasks.specs.Private.Keeping.{BestOf, slot_at};
ghost use Rattle.sfc_tasks.specs.declared.task_slot.TaskSlot.{TaskSlot};

/// A task that waits: its number, its priority, and since when it waits.
#[derive(Clone, Copy)]
pub struct Waiting {
    pub number: usize,
    pub priority: u32,
    pub since: i64,
}

// Whether a task of this priority that waits since `since` goes before the other one. The other has the lower number.
fn goes_before(priority: u32, since: i64, other: u32, before: i64) -> bool
    ensures yes { OnTrue result ((priority ≤ other) × (priority ≡ other → since <ℤ before)) }
    ensures no { OnFalse result ((other ≤ priority) × (other ≡ priority → before ≤ℤ since)) }
{
    priority < other || (priority == other && since < before)
}

// Which goes first: the first of the first i tasks, or task i, which has this priority, and waits since then or does not wait.
#[tactic(auto, using(crate::proofs::Firsts::best_stays_with, crate::proofs::Firsts::best_begins, crate::proofs::Firsts::best_overtakes, crate::proofs::Firsts::best_stays))]
pub fn first_with(
    since: Option<i64>,
    priority: u32,
    best: Option<Waiting>,
    i: usize,
) -> Option<Waiting>
    ensures first { (slots : List TaskSlot) → (slot_at slots i).since ≡ since → (slot_at slots i).priority ≡ priority →
        BestOf slots i best → BestOf slots (i + 1) result }
    ensures number { IfSome best (λ b. b.number < i) → IfSome result (λ r. r.number < i + 1) }
{
    let Some(since) = since else {
        return best;
    };
    let this = Waiting {
        number: i,
        priority,
        since,
    };
    let Some(first) = best else {
        return Some(this);
    };
    if goes_before(priority, since, first.priority, first.since) {
        Some(this)
    } else {
        Some(first)
    }
}
