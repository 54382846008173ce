//! The scans of all tasks at their releases, up to an instant (2.7.2).

ghost use Rattle.std.specs.Prelude.{◌≡◌, None, Some};
ghost use Rattle.sfc_replay.specs.sfc_debug.Histories.{CommandHistory};
ghost use Rattle.sfc_replay.specs.sfc_debug.Steered.{Steered};
ghost use Rattle.sfc_c.specs.Advancing as advancing;
ghost use Rattle.sfc_c.specs.Advancing.{Advances, IsEnd};
ghost use Rattle.sfc_c.specs.Codes as codes;
ghost use Rattle.sfc_c.specs.Handles.{Holds};
ghost use Rattle.sfc_c.specs.Resources.{Stands, slots_in, slots_of, steered_in};

use crate::advanced::{Advanced, GOES_ON, NOTHING};
use crate::handle::Handle;
use crate::plc::Plc;
use crate::scanning::next_scan;
use crate::status::CLOSED;
use std::alloc::Global;

// Makes one scan after the other up to a raw instant, as long as more come.
fn advance(plc: &mut Plc, until: i64) -> Advanced
    ensures steered { steered_in plc.new ≡ steered_in plc.old }
    ensures slots { slots_in plc.new ≡ slots_in plc.old }
    ensures advances { (h : CommandHistory) → Stands plc.old h →
        (g : CommandHistory) × Advances (steered_in plc.old) until h g result × Holds (Some plc.new) (steered_in plc.old) g }
    ensures end { IsEnd result }
{
    let mut told = NOTHING;
    'scans: for _count in 0..u64::MAX {
        told = told.behind_next(next_scan(plc, until));
        if told.end != GOES_ON {
            return told;
        }
    }
    told
}

/// Scans all tasks at each of their releases up to a raw instant, in microseconds: from the latest accepted command on, each scan as
/// `sfc_next` tells it. It ends before the first scan behind the instant, and behind a scan that hits a breakpoint or ends that of a program
/// with a fault.
///
/// It answers 0, or where nothing was scanned the number of what the next scan is refused for, as 34 while the resource is halted.
#[unsafe(no_mangle)]
pub extern "C" fn sfc_advance(
    alloc: Global,
    plc: &mut Handle,
    until: i64,
    into: &mut Advanced,
) -> i32
    ensures advances { (s : Steered) (h : CommandHistory) → Holds plc.old.value s h →
        (g : CommandHistory) × Advances s until h g into.new × Holds plc.new.value s g }
    ensures end { (s : Steered) (h : CommandHistory) → Holds plc.old.value s h → IsEnd into.new }
    ensures code { (s : Steered) (h : CommandHistory) → Holds plc.old.value s h → result ≡ advancing.code_of into.new }
    ensures slots { slots_of plc.new.value ≡ slots_of plc.old.value }
    ensures closed { plc.old.value ≡ None → (result ≡ codes.closed) × (into.new ≡ into.old) }
{
    match plc.take(alloc) {
        None => CLOSED,
        Some(mut held) => {
            let told = advance(&mut held, until);
            plc.put(held, alloc);
            *into = told;
            told.code()
        }
    }
}
