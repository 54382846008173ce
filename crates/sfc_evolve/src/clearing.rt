//! Which transitions a scan clears (2.6.5).

ghost use Rattle.std.specs.Prelude.{◌≡◌, ◌*◌, ℕ, true, false, length, cond, replicate};
ghost use Rattle.sfc_base.specs.Ticks.{Within};
ghost use Rattle.sfc_flags.specs.Flags.{flag};
ghost use Rattle.sfc_tables.specs.Tables.{AreTables};
ghost use Rattle.sfc_evolve.specs.Marks.{marked};
ghost use Rattle.sfc_evolve.specs.Clearing.{preceding_of, is_enabled, is_cleared, cleared_in};
ghost use Rattle.sfc_evolve.specs.Private.Keeping.{AllBelow, clearing_work};
ghost use Rattle.sfc_evolve.specs.Private.Proposing.{AreProposed};

use crate::marks::{all_set, mark, some_set};
use sfc_base::references::StepId;
use sfc_base::ticks::Ticks;
use sfc_flags::flags::Flags;
use sfc_tables::tables::Tables;

// Whether a transition is cleared after those whose preceding steps are used; if so it uses its own.
fn clear_one(
    preceding: &[StepId],
    condition: bool,
    active: &Flags,
    used: &mut Flags,
    ticks: &mut Ticks,
) -> bool
    requires within { AllBelow (length active.now) preceding.now }
    requires used_len { length used.old ≡ length active.now }
    ensures value { result ≡ is_cleared (flag active.now) condition preceding.now used.old }
    ensures used { used.new ≡ cond result (marked preceding.now used.old) used.old }
    ensures len { length used.new ≡ length used.old }
    ensures ticks { Within (3 * length preceding.now) ticks.old ticks.new }
{
    let clears = condition
        && all_set(active, preceding, ticks)
        && !some_set(used, preceding, ticks);
    if clears {
        mark(used, preceding, ticks);
    }
    clears
}

/// Which transitions are cleared, from the first rank to the last; those that are no candidates aren't enabled. All other
/// flags are cleared before.
pub fn clear_in_order(
    tables: &Tables,
    conditions: &[bool],
    active: &Flags,
    candidates: &Flags,
    used: &mut Flags,
    cleared: &mut Flags,
    ticks: &mut Ticks,
)
    requires tables { AreTables tables.now }
    requires active_len { length active.now ≡ length tables.now.initial }
    requires conditions_len { length conditions.now ≡ length tables.now.sides }
    requires used_len { length used.old ≡ length tables.now.initial }
    requires cleared { cleared.old ≡ replicate (length tables.now.sides) false }
    requires candidates_len { length candidates.now ≡ length tables.now.sides }
    ensures cleared { AreProposed tables.now (flag active.now) candidates.now → cleared.new
        ≡ cleared_in tables.now.sides (flag active.now) conditions.now tables.now.ranked used.old cleared.old }
    ensures enabled { (tr : ℕ) → flag cleared.new tr ≡ true → is_enabled (flag active.now) (preceding_of tables.now.sides tr) ≡ true }
    ensures used_len { length used.new ≡ length used.old }
    ensures cleared_len { length cleared.new ≡ length cleared.old }
    ensures ticks { Within (clearing_work tables.now.sides tables.now.ranked) ticks.old ticks.new }
{
    let ranked = tables.ranked();
    let mut at = 0;
    'candidates: while let Some(j) = candidates.next_set(at, ticks) {
        let tr = ranked[j];
        let clears = clear_one(
            tables.preceding(tr),
            conditions[tr.0 as usize],
            active,
            used,
            ticks,
        );
        cleared.set(tr.0 as usize, clears);
        at = j + 1;
    }
}
