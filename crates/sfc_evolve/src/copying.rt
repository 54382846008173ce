//! Copies of what is kept of steps.

ghost use Rattle.std.specs.Prelude.{◌≡◌, ◌<◌, ◌||◌, ℕ, true, cond, length};
ghost use Rattle.sfc_base.specs.Ticks.{Within};
ghost use Rattle.sfc_flags.specs.Flags.{flag};
ghost use Rattle.sfc_flags.specs.Words.{has, word_of, ArePut};
ghost use Rattle.sfc_evolve.specs.Private.Keeping.{number};

use sfc_base::ticks::Ticks;
use sfc_flags::flags::Flags;
use sfc_flags::word::Word;

/// Takes over the flags of two tables. The caller counts it: a tick for what is copied of a step or of a transition.
pub fn copy_flags(first: &mut Flags, second: &mut Flags, from_first: &Flags, from_second: &Flags)
    requires second_len { length second.old ≡ length first.old }
    requires from_first_len { length from_first.now ≡ length first.old }
    requires from_second_len { length from_second.now ≡ length first.old }
    ensures first { first.new ≡ from_first.now }
    ensures second { second.new ≡ from_second.now }
{
    let mut ticks = Ticks::new();
    first.copy_from(from_first, &mut ticks);
    second.copy_from(from_second, &mut ticks);
}

// So many steps are handled.
fn count(steps: usize, ticks: &mut Ticks)
    ensures { Within steps ticks.old ticks.new }
{
    for _ in 0..steps {
        ticks.tick();
    }
}

/// Takes over all instants and times.
pub fn copy_times(
    since: &mut [i64],
    held_times: &mut [i64],
    from_since: &[i64],
    from_held_times: &[i64],
    ticks: &mut Ticks,
)
    requires held_times_len { length held_times.old ≡ length since.old }
    requires from_since_len { length from_since.now ≡ length since.old }
    requires from_held_times_len { length from_held_times.now ≡ length since.old }
    ensures since { since.new ≡ from_since.now }
    ensures held_times { held_times.new ≡ from_held_times.now }
    ensures ticks { Within (length since.old) ticks.old ticks.new }
{
    since.copy_from_slice(from_since);
    held_times.copy_from_slice(from_held_times);
    count(since.len(), ticks);
}

/// When the steps of another were activated, and the times that they keep.
#[derive(Clone, Copy)]
pub struct KeptTimes<'a> {
    pub since: &'a [i64],
    pub held_times: &'a [i64],
}

// Takes over the instants and times of the steps of this word that have a flag.
fn copy_word(
    since: &mut [i64],
    held_times: &mut [i64],
    from: KeptTimes<'_>,
    word: usize,
    moved: Word,
)
    requires held_times_len { length held_times.old ≡ length since.old }
    requires since_len { length from.since.now ≡ length since.old }
    requires from_held_times_len { length from.held_times.now ≡ length since.old }
    requires places { (s : ℕ) → word_of s ≡ word → has moved s ≡ true → s < length since.old }
    ensures since_len { length since.new ≡ length since.old }
    ensures held_times_len { length held_times.new ≡ length held_times.old }
    ensures since { ArePut word (λ s. cond (has moved s) (number from.entry.since.now s) (number since.old s)) (number since.old)
        (number since.new) }
    ensures held_times { ArePut word (λ s. cond (has moved s) (number from.entry.held_times.now s) (number held_times.old s))
        (number held_times.old) (number held_times.new) }
{
    let KeptTimes {
        since: from_since,
        held_times: from_held_times,
    } = from;
    let mut left = moved;
    'moved: while let Some((place, rest)) = left.split_first() {
        let s = word * 64 + place;
        since[s] = from_since[s];
        held_times[s] = from_held_times[s];
        left = rest;
    }
}

/// Takes over the instants and times of the steps that have a flag in one of the two tables. The caller counts it, as at `copy_flags`.
pub fn copy_moved(
    since: &mut [i64],
    held_times: &mut [i64],
    from: KeptTimes<'_>,
    active: &Flags,
    on: &Flags,
)
    requires held_times_len { length held_times.old ≡ length since.old }
    requires since_len { length from.since.now ≡ length since.old }
    requires from_held_times_len { length from.held_times.now ≡ length since.old }
    requires active_len { length active.now ≡ length since.old }
    requires on_len { length on.now ≡ length since.old }
    ensures since_len { length since.new ≡ length since.old }
    ensures held_times_len { length held_times.new ≡ length held_times.old }
    ensures since { (s : ℕ) → s < length since.old →
        number since.new s ≡ cond (flag active.now s || flag on.now s) (number from.entry.since.now s) (number since.old s) }
    ensures held_times { (s : ℕ) → s < length since.old → number held_times.new s
        ≡ cond (flag active.now s || flag on.now s) (number from.entry.held_times.now s) (number held_times.old s) }
{
    // One word, as up to 64 steps have, without a loop.
    if active.words() == 1 {
        let moved = active.word(0).or(on.word(0));
        copy_word(since, held_times, from, 0, moved);
        return;
    }
    for number in 0..active.words() {
        let moved = active.word(number).or(on.word(number));
        copy_word(since, held_times, from, number, moved);
    }
}
