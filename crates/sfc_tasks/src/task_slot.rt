//! What is kept for a task (2.7.2).

ghost use Rattle.std.specs.Prelude.{◌≡◌, ◌+◌, ◌-◌, ◌*◌, ◌/◌, ◌^◌, ◌≤◌, ◌<ℤ◌, ◌≤ℤ◌, ◌++◌, pos, length, unsigned_abs, List, ℤ, Some};
ghost use Rattle.sfc_tasks.specs.Releases.{capped, first_of};
ghost use Rattle.sfc_tasks.specs.Private.Keeping.{blank_slot, empty_slot, upcoming_after, Gains, HoldsReleases, IsAhead, SameTask, elapsed_releases};

use crate::multiples::upcoming;
use sfc_plant::task::Task;

/// The interval and the priority of a task, and the next multiple of the interval; since when it waits for a scan, and how many
/// releases wait beyond the first; and its overruns.
#[derive(Clone, Copy)]
pub struct TaskSlot {
    pub interval: i64,
    pub priority: u32,
    pub next: u64,
    pub since: Option<i64>,
    pub more: u64,
    pub overruns: u64,
}

/// Of no task.
pub fn no_slot() -> TaskSlot
    ensures { result ≡ blank_slot }
{
    TaskSlot {
        interval: 0,
        priority: 0,
        next: 0,
        since: None,
        more: 0,
        overruns: 0,
    }
}

/// Of a task that was not told anything.
pub fn slot_of(task: &Task) -> TaskSlot
    ensures { result ≡ empty_slot task.now.interval task.now.priority }
{
    TaskSlot {
        interval: task.interval,
        priority: task.priority,
        next: upcoming(task.interval, -1),
        since: None,
        more: 0,
        overruns: 0,
    }
}

/// Since when a task waits at t: since then already, or else since its next multiple. It is told nothing.
pub fn since_at(slot: &TaskSlot, t: i64, single: bool) -> Option<i64>
    requires low { pos 0 ≤ℤ t }
    requires high { t ≤ℤ pos (2 ^ 62) }
    ensures { (last : ℤ) (waited : List ℤ) → IsAhead slot.now last → HoldsReleases slot.now waited →
        result ≡ first_of (waited ++ elapsed_releases slot.now.interval last t single) }
{
    if let Some(since) = slot.since {
        return Some(since);
    }
    if single {
        return None;
    }
    if t.unsigned_abs() < slot.next {
        return None;
    }
    Some(slot.next as i64)
}

/// More releases wait: the first of them at `first`, and so many beyond it.
pub fn gain(slot: &mut TaskSlot, first: i64, beyond: u64)
    ensures gains { (us : List ℤ) → first_of us ≡ Some first → length us ≡ beyond + 1 → Gains us slot.old slot.new }
    ensures same { SameTask slot.old slot.new }
    ensures next { slot.new.next ≡ slot.old.next }
{
    match slot.since {
        Some(_) => slot.more = slot.more.saturating_add(beyond).saturating_add(1),
        None => {
            slot.since = Some(first);
            slot.more = beyond;
        }
    }
}

// The next multiple is later than t: it stays the next one, or time went back.
fn pass_none(slot: &mut TaskSlot, last: i64, t: i64)
    requires ahead { IsAhead slot.old last }
    requires later { t <ℤ pos slot.old.next }
    ensures { slot.new ≡ record slot.old { next = upcoming_after slot.old.interval t } }
{
    if t < last {
        slot.next = upcoming(slot.interval, t);
    }
}

// The next multiple is not later than t: it is passed, and each beyond it that isn't later either. It tells how many these are.
fn skip(slot: &mut TaskSlot, t: i64) -> u64
    requires low { pos 0 ≤ℤ t }
    requires high { t ≤ℤ pos (2 ^ 62) }
    requires some { pos 0 <ℤ slot.old.interval }
    requires reached { slot.old.next ≤ unsigned_abs t }
    ensures beyond { result ≡ (unsigned_abs t - slot.old.next) / unsigned_abs slot.old.interval }
    ensures slot { slot.new ≡ record slot.old {
      next = slot.old.next + (result * unsigned_abs slot.old.interval + unsigned_abs slot.old.interval);
    } }
{
    let interval = slot.interval as u64;
    let stretch = t.unsigned_abs() - slot.next;
    if stretch < interval {
        slot.next += interval;
        return 0;
    }
    let first = slot.next;
    let beyond = stretch / interval;
    slot.next = first + (beyond * interval + interval);
    beyond
}

// The next multiple is not later than t, and maybe others beyond it.
fn pass_multiples(slot: &mut TaskSlot, t: i64, single: bool)
    requires low { pos 0 ≤ℤ t }
    requires high { t ≤ℤ pos (2 ^ 62) }
    requires some { pos 0 <ℤ slot.old.interval }
    requires reached { slot.old.next ≤ unsigned_abs t }
    ensures gains { (last : ℤ) → IsAhead slot.old last → Gains (elapsed_releases slot.old.interval last t single) slot.old slot.new }
    ensures ahead { (last : ℤ) → IsAhead slot.old last → IsAhead slot.new t }
{
    let first = slot.next;
    let beyond = skip(slot, t);
    if !single {
        gain(slot, first as i64, beyond);
    }
}

/// Time went on from `last` to t, and SINGLE read so.
pub fn pass_time(slot: &mut TaskSlot, last: i64, t: i64, single: bool)
    requires low { pos 0 ≤ℤ t }
    requires high { t ≤ℤ pos (2 ^ 62) }
    requires ahead { IsAhead slot.old last }
    ensures gains { Gains (elapsed_releases slot.old.interval last t single) slot.old slot.new }
    ensures ahead { IsAhead slot.new t }
{
    if t.unsigned_abs() < slot.next {
        pass_none(slot, last, t);
    } else {
        pass_multiples(slot, t, single);
    }
}

/// A scan served all that waits; each release beyond the first is an overrun.
pub fn serve_all(slot: &mut TaskSlot)
    ensures { slot.new ≡ record slot.old {
      since = None;
      more = 0;
      overruns = capped (slot.old.overruns + slot.old.more);
    } }
{
    slot.overruns = slot.overruns.saturating_add(slot.more);
    slot.since = None;
    slot.more = 0;
}
