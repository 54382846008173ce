//! Which on-delays a scan handles.

ghost use Rattle.std.specs.Prelude.{◌≡◌, ◌==◌, ◌<◌, ◌||◌, ℕ, true, false, length, slice_index_or};
ghost use Rattle.std.specs.List.{list_any};
ghost use Rattle.sfc_base.specs.Ticks.{Within};
ghost use Rattle.sfc_flags.specs.Flags.{flag};
ghost use Rattle.sfc_flags.specs.Words.{has, word_of, word_count, ArePut};
ghost use Rattle.sfc_action.specs.declared.blocks.Block.{Block};
ghost use Rattle.sfc_action.specs.Private.Live.{has_place};

use crate::blocks::Block;
use sfc_base::ticks::Ticks;
use sfc_flags::flags::Flags;
use sfc_flags::word::Word;
use sfc_tables::grouped_places::GroupedPlaces;

// These places get their flags.
fn set_all(live: &mut Flags, places: &[usize])
    ensures size { length live.new ≡ length live.old }
    ensures kept { (k : ℕ) → flag live.old k ≡ true → flag live.new k ≡ true }
    ensures set { (k : ℕ) → k < length live.old → list_any (λ p. p == k) places.now ≡ true → flag live.new k ≡ true }
{
    for place in places {
        if *place < live.count() {
            live.set(*place, true);
        }
    }
}

/// The on-delays of the actions that are called become live. Each is counted where it is handled.
pub fn wake(live: &mut Flags, places: &GroupedPlaces, called: &Flags, ticks: &mut Ticks)
    ensures size { length live.new ≡ length live.old }
    ensures kept { (k : ℕ) → flag live.old k ≡ true → flag live.new k ≡ true }
    ensures awake { (a k : ℕ) → k < length live.old → flag called.now a ≡ true → has_place places.now a k ≡ true → flag live.new k ≡ true }
    ensures ticks { Within (length called.now) ticks.old ticks.new }
{
    let mut at = 0;
    'called: while let Some(action) = called.next_set(at, ticks) {
        set_all(live, places.of_group(action));
        at = action + 1;
    }
}

// Takes over the on-delays of this word that have a flag.
fn copy_word(blocks: &mut [Block], from: &[Block], word: usize, live: Word)
    requires len { length from.now ≡ length blocks.old }
    requires places { (k : ℕ) → word_of k ≡ word → has live k ≡ true → k < length blocks.old }
    ensures len { length blocks.new ≡ length blocks.old }
    ensures kept { (k : ℕ) (d : Block) → slice_index_or blocks.old k d ≡ slice_index_or from.now k d →
        slice_index_or blocks.new k d ≡ slice_index_or from.now k d }
    ensures taken { (k : ℕ) (d : Block) → word_of k ≡ word → has live k ≡ true →
        slice_index_or blocks.new k d ≡ slice_index_or from.now k d }
{
    let mut left = live;
    'live: while let Some((place, rest)) = left.split_first() {
        let k = word * 64 + place;
        blocks[k] = from[k];
        left = rest;
    }
}

// Takes over the on-delays of this word of the other and which of them are live; those that aren't live in either stay as they are.
fn copy_live_word(
    blocks: &mut [Block],
    live: &mut Flags,
    from: &[Block],
    from_live: &Flags,
    number: usize,
)
    requires len { length from.now ≡ length blocks.old }
    requires live_len { length live.old ≡ length blocks.old }
    requires from_live_len { length from_live.now ≡ length blocks.old }
    requires number { number < word_count live.old }
    ensures len { length blocks.new ≡ length blocks.old }
    ensures live_len { length live.new ≡ length live.old }
    ensures kept { (k : ℕ) (d : Block) → slice_index_or blocks.old k d ≡ slice_index_or from.now k d →
        slice_index_or blocks.new k d ≡ slice_index_or from.now k d }
    ensures taken { (k : ℕ) (d : Block) → word_of k ≡ number → (flag live.old k || flag from_live.now k) ≡ true →
        slice_index_or blocks.new k d ≡ slice_index_or from.now k d }
    ensures put { ArePut number (flag from_live.now) (flag live.old) (flag live.new) }
{
    let own = live.word(number);
    let word = from_live.word(number);
    copy_word(blocks, from, number, own.or(word));
    live.put_word(number, word);
}

// As `copy_live`, word by word.
#[inline(never)]
fn copy_live_words(blocks: &mut [Block], live: &mut Flags, from: &[Block], from_live: &Flags)
    requires len { length from.now ≡ length blocks.old }
    requires live_len { length live.old ≡ length blocks.old }
    requires from_live_len { length from_live.now ≡ length blocks.old }
    requires same { (k : ℕ) (d : Block) → k < length blocks.old → flag live.old k ≡ false → flag from_live.now k ≡ false →
        slice_index_or blocks.old k d ≡ slice_index_or from.now k d }
    ensures blocks { blocks.new ≡ from.now }
    ensures live { live.new ≡ from_live.now }
{
    for number in 0..live.words() {
        copy_live_word(blocks, live, from, from_live, number);
    }
}

/// Takes over the on-delays of the other and which of them are live; those that aren't live in either are equal. The caller counts it.
pub fn copy_live(blocks: &mut [Block], live: &mut Flags, from: &[Block], from_live: &Flags)
    requires len { length from.now ≡ length blocks.old }
    requires live_len { length live.old ≡ length blocks.old }
    requires from_live_len { length from_live.now ≡ length blocks.old }
    requires same { (k : ℕ) (d : Block) → k < length blocks.old → flag live.old k ≡ false → flag from_live.now k ≡ false →
        slice_index_or blocks.old k d ≡ slice_index_or from.now k d }
    ensures blocks { blocks.new ≡ from.now }
    ensures live { live.new ≡ from_live.now }
{
    // One word, as up to 64 on-delays have, without a loop.
    if live.words() == 1 {
        copy_live_word(blocks, live, from, from_live, 0);
        return;
    }
    copy_live_words(blocks, live, from, from_live);
}
