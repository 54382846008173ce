//! What comes next.

ghost use Rattle.std.specs.Prelude.{◌≡◌, None, Some, IfOk};
ghost use Rattle.sfc_replay.specs.sfc_debug.Histories.{CommandHistory};
ghost use Rattle.sfc_replay.specs.sfc_debug.Steered.{Steered};
ghost use Rattle.sfc_c.specs.Advancing as advancing;
ghost use Rattle.sfc_c.specs.Advancing.{IsGiven};
ghost use Rattle.sfc_c.specs.Codes as codes;
ghost use Rattle.sfc_c.specs.Handles.{Holds};
ghost use Rattle.sfc_c.specs.Resources.{Stands, slots_in, slots_of, steered_in};

use crate::handle::Handle;
use crate::plc::Plc;
use crate::scanning::{Scan, next_scan};
use crate::status::{CLOSED, NO_MEMORY, UNKNOWN};
use std::alloc::{AllocError, Global};

/// The scan that comes next: `sfc_next_scan_t` of `sfc.h`.
#[repr(C)]
#[derive(Clone, Copy)]
pub struct NextScan {
    /// Its raw instant, in microseconds.
    pub instant: i64,
    /// Its task.
    pub task: i32,
}

// What is told of a scan that was tried.
fn told_of(made: Option<Scan>) -> Option<NextScan>
    ensures { result ≡ advancing.told_made made }
{
    let made = made?;
    match made.answer {
        Ok(_) => Some(NextScan {
            instant: made.raw,
            task: i32::from(made.task.0),
        }),
        Err(_) => None,
    }
}

// The scan that comes next, if one does. The resource stays as it is. The one error is that memory was refused.
fn next_in(alloc: Global, plc: &mut Plc) -> Result<Option<NextScan>, AllocError>
    ensures steered { steered_in plc.new ≡ steered_in plc.old }
    ensures slots { slots_in plc.new ≡ slots_in plc.old }
    ensures next { IfOk result (λ next. (h : CommandHistory) → Stands plc.old h → next ≡ advancing.told_next (steered_in plc.old) h) }
    ensures stands { (h : CommandHistory) → Stands plc.old h → Stands plc.new h }
{
    let saved = plc.keep(alloc)?;
    let made = next_scan(plc, i64::MAX);
    plc.go_back(&saved);
    Ok(told_of(made))
}

// The same, given to a place: the code.
fn give_next(alloc: Global, plc: &mut Plc, into: &mut NextScan) -> i32
    ensures slots { slots_in plc.new ≡ slots_in plc.old }
    ensures next { (h : CommandHistory) → Stands plc.old h → IsGiven (steered_in plc.old) h into.old into.new result }
    ensures holds { (h : CommandHistory) → Stands plc.old h → Holds (Some plc.new) (steered_in plc.old) h }
{
    match next_in(alloc, plc) {
        Ok(Some(next)) => {
            *into = next;
            0
        }
        Ok(None) => UNKNOWN,
        Err(_) => NO_MEMORY,
    }
}

/// Which task is scanned next, and when: where it is a task's turn at the instant of the latest accepted command, that task then; else the
/// one whose turn it is at the earliest next release of all tasks. -3 where none comes, as while the resource is halted; -4 where memory was
/// refused.
#[unsafe(no_mangle)]
pub extern "C" fn sfc_next(alloc: Global, plc: &mut Handle, into: &mut NextScan) -> i32
    ensures next { (s : Steered) (h : CommandHistory) → Holds plc.old.value s h → IsGiven s h into.old into.new result }
    ensures kept { (s : Steered) (h : CommandHistory) → Holds plc.old.value s h → Holds plc.new.value s h }
    ensures slots { slots_of plc.new.value ≡ slots_of plc.old.value }
    ensures closed { plc.old.value ≡ None → result ≡ codes.closed }
{
    match plc.take(alloc) {
        None => CLOSED,
        Some(mut held) => {
            let code = give_next(alloc, &mut held, into);
            plc.put(held, alloc);
            code
        }
    }
}
