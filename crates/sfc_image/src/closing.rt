//! What was tried is committed, or given up; and variables that begin anew.

ghost use Rattle.std.specs.Prelude.{◌+◌, ◌≤◌, length};
ghost use Rattle.sfc_base.specs.Ticks.{Within};
ghost use Rattle.sfc_image.specs.Private.Keeping.{AreNumbers, AreClosed, AreBegun};

use crate::slot::{Slot, begun, close};
use sfc_base::ticks::Ticks;

#[tactic(auto, using(crate::proofs::Tracked::closed_none, crate::proofs::Tracked::closed_more))]
/// Closes the slots of the first `count` numbers.
pub fn close_all(slots: &mut [Slot], numbers: &[usize], count: usize, keep: bool, ticks: &mut Ticks)
    requires count { count ≤ length numbers.now }
    requires numbers { AreNumbers (length slots.old) numbers.now count }
    ensures closed { AreClosed keep numbers.now count slots.old slots.new }
    ensures ticks { Within count ticks.old ticks.new }
{
    for j in 0..count {
        ticks.tick();
        let i = numbers[j];
        close(&mut slots[i], keep);
    }
}

#[tactic(auto, using(crate::proofs::Tracked::begun_none, crate::proofs::Tracked::begun_more))]
/// The variables from `first` on begin anew, `count` of them.
pub fn begin_all(slots: &mut [Slot], first: usize, count: usize, ticks: &mut Ticks)
    requires { first + count ≤ length slots.old }
    ensures begun { AreBegun first count slots.old slots.new }
    ensures ticks { Within count ticks.old ticks.new }
{
    for k in 0..count {
        ticks.tick();
        slots[first + k] = begun(slots[first + k]);
    }
}
