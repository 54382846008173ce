//! What a run is opened with.

ghost use Rattle.std.specs.Prelude.{◌≡◌, ◌≤◌, [], IfOk, length};
ghost use Rattle.sfc_control.specs.sfc_debug.Agreement.{Agrees, table_of, mask_of};
ghost use Rattle.sfc_control.specs.sfc_debug.Steered.{steered_by};
ghost use Rattle.sfc_run.specs.Posting.{ArePostsOf};
ghost use Rattle.sfc_run.specs.Running.{Opens, OpensFrom, every_kind};

use crate::pace::Pace;
use crate::real_time::RealTime;
use crate::sfc_debug::debugger::Debugger;
use crate::sfc_debug::trace_mask::TraceMask;
use crate::stopwatch::Stopwatch;
use sfc_base::ids::TaskId;
use sfc_control::bells::Bells;
use sfc_control::post::Post;
use sfc_control::seat::Seat;
use sfc_replay::input::read_to_end;
use sfc_replay::opening::debugger_of_text;
use sfc_replay::replay_error::ReplayError;
use sfc_text::laws::one_reading;
use std::alloc::{AllocError, Global};
use std::io::Read;
use std::sync::Wait;
use std::sync::ledger::Ledger;
use std::time;

/// How many rows the debugger of a run keeps, and the one that follows it.
const KEPT: usize = 1024;

/// The debugger of a run, and three of the same chart beside it.
#[derive(Drop)]
pub struct RunDebuggers {
    /// That of the run. The feed tells all of its commands.
    pub debugger: Debugger,
    /// One for the names that lines of a session are read by, which is told nothing.
    pub names: Debugger,
    /// One that follows the run.
    pub follower: Debugger,
    /// One that follows it a row behind.
    pub before: Debugger,
}

// All four debuggers, each from the same bytes.
fn all_of_text(alloc: Global, text: &[u8]) -> Result<RunDebuggers, ReplayError>
    ensures loads { Opens text.now result }
    ensures agrees { IfOk result (λ opened. Agrees opened.debugger []) }
    ensures follows { IfOk result (λ opened. Agrees opened.follower []) }
    ensures before { IfOk result (λ opened. Agrees opened.before []) }
    ensures alike { IfOk result (λ opened. steered_by opened.before ≡ steered_by opened.follower) }
    ensures same { IfOk result (λ opened. steered_by opened.follower ≡ steered_by opened.debugger) }
    ensures table { IfOk result (λ opened. table_of opened.debugger ≡ []) }
    ensures mask { IfOk result (λ opened. mask_of opened.debugger ≡ every_kind) }
{
    let debugger = debugger_of_text(alloc, text, KEPT, TraceMask(127))?;
    let names = debugger_of_text(alloc, text, 1, TraceMask(0))?;
    let follower = debugger_of_text(alloc, text, KEPT, TraceMask(127))?;
    let before = debugger_of_text(alloc, text, 1, TraceMask(0))?;
    one_reading();
    Ok(RunDebuggers {
        debugger,
        names,
        follower,
        before,
    })
}

/// Reads a chart once and loads it four times. At most 1,048,577 bytes are taken from the reader. `Chart` is answered where the chart is
/// refused, `Read` where the reader failed, `Memory` where memory was refused.
pub fn open_run<C: Read>(alloc: Global, chart: &mut C) -> Result<RunDebuggers, ReplayError>
    ensures agrees { IfOk result (λ opened. Agrees opened.debugger []) }
    ensures follows { IfOk result (λ opened. Agrees opened.follower []) }
    ensures before { IfOk result (λ opened. Agrees opened.before []) }
    ensures alike { IfOk result (λ opened. steered_by opened.before ≡ steered_by opened.follower) }
    ensures same { IfOk result (λ opened. steered_by opened.follower ≡ steered_by opened.debugger) }
    ensures table { IfOk result (λ opened. table_of opened.debugger ≡ []) }
    ensures mask { IfOk result (λ opened. mask_of opened.debugger ≡ every_kind) }
    ensures loads { IfOk result (λ opened. OpensFrom (C.remaining chart.old, C.remaining chart.new) opened) }
{
    let text = read_to_end(alloc, chart)?;
    all_of_text(alloc, &text)
}

/// A post for each seat: the task of the same number, which is scanned as often as it may be, by the clock, and by the stopwatch of that
/// number. The one error is that memory was refused, and then the seats are given up.
pub fn posts_of<'a, L: Ledger, R: Wait + time::Clock>(
    alloc: Global,
    seats: Vec<Seat<L>>,
    clock: &RealTime<'a, R>,
    bells: &'a Bells,
    watches: &'a [Stopwatch],
) -> Result<Vec<Post<L, Pace<'a, R>, RealTime<'a, R>>>, AllocError>
    requires { length seats.items ≤ 24 }
    ensures { IfOk result (λ posts. ArePostsOf seats.items posts.items) }
{
    let mut posts = Vec::new(alloc);
    let mut number = 0u8;
    'seats: for seat in seats {
        let task = TaskId(number);
        let clock = clock.with_watch(watches.get(number as usize));
        let gate = Pace::new(clock.another(), bells, task);
        posts.push(Post {
            task,
            seat,
            gate,
            clock,
        })?;
        number = number.saturating_add(1);
    }
    Ok(posts)
}
