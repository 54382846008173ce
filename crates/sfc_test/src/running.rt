//! Cases that are run.

ghost use Rattle.std.specs.Prelude.{◌≡◌, IfOk};
ghost use Rattle.sfc_judge.specs.Holding.{passes};
ghost use Rattle.sfc_judge.specs.Running.Benches.{IsReady, steered_in};
ghost use Rattle.sfc_judge.specs.Running.Cases.{lines_in};
ghost use Rattle.sfc_test.specs.Running.{has_passed};

use crate::changes::{append_last_changes, append_script};
use crate::desk::Desk;
use crate::sfc_debug::timed::Timed;
use crate::telling::{Source, append_failure};
use sfc_judge::bench::Bench;
use sfc_judge::case::Case;
use sfc_judge::judge::{Outcome, judge};
use std::alloc::{AllocError, Global};

/// What became of a case.
#[derive(Drop)]
pub enum Judged {
    Passed,
    /// It failed, and this is told of it.
    Failed(Vec<u8>),
}

// What a case accepts, which has failed: it is run once more. None where memory is refused for that.
fn accepted(
    alloc: Global,
    bench: &mut Bench,
    case: Case<'_>,
) -> Result<Option<Vec<Timed>>, AllocError>
    requires ready { IsReady bench.old }
    ensures ready { IsReady bench.new }
    ensures steered { steered_in bench.new ≡ steered_in bench.old }
{
    bench.keep_trail(true);
    let _outcome = judge(alloc, bench, case)?;
    let commands = bench.take_trail(alloc);
    bench.keep_trail(false);
    bench.begin();
    Ok(commands)
}

// Tells a case that has failed by its last changes, and hands its commands over.
fn tell_failed<D: Desk>(
    alloc: Global,
    bench: &mut Bench,
    case: Case<'_>,
    desk: &mut D,
    told: &mut Vec<u8>,
) -> Result<(), AllocError>
    requires ready { IsReady bench.old }
    ensures ready { IsReady bench.new }
    ensures steered { steered_in bench.new ≡ steered_in bench.old }
{
    let Some(commands) = accepted(alloc, bench, case)? else {
        return Ok(());
    };
    append_last_changes(alloc, told, bench, &commands)?;
    let mut script = Vec::new(alloc);
    append_script(&mut script, bench, &commands)?;
    desk.take(&script, true)
}

// Hands the commands of a case over that has passed, where they are wanted.
fn hand_over<D: Desk>(alloc: Global, bench: &mut Bench, desk: &mut D) -> Result<(), AllocError>
    requires ready { IsReady bench.old }
    ensures ready { IsReady bench.new }
    ensures steered { steered_in bench.new ≡ steered_in bench.old }
{
    let Some(commands) = bench.take_trail(alloc) else {
        return Ok(());
    };
    let mut script = Vec::new(alloc);
    append_script(&mut script, bench, &commands)?;
    desk.take(&script, false)
}

/// Runs a case, and hands its commands to the desk where it failed, or where those of all cases are wanted. The one error is that memory
/// was refused.
pub fn run<D: Desk>(
    alloc: Global,
    bench: &mut Bench,
    source: Source<'_>,
    case: Case<'_>,
    desk: &mut D,
) -> Result<Judged, AllocError>
    requires ready { IsReady bench.old }
    ensures ready { IsReady bench.new }
    ensures steered { steered_in bench.new ≡ steered_in bench.old }
    ensures passed { IfOk result (λ judged. has_passed judged ≡ passes (steered_in bench.old) (lines_in case.entry)) }
{
    bench.keep_trail(desk.wants_all());
    match judge(alloc, bench, case)? {
        Outcome::Passed => {
            hand_over(alloc, bench, desk)?;
            Ok(Judged::Passed)
        }
        Outcome::Failed(failure) => {
            let mut told = Vec::new(alloc);
            append_failure(alloc, &mut told, source, bench, failure)?;
            tell_failed(alloc, bench, case, desk, &mut told)?;
            Ok(Judged::Failed(told))
        }
    }
}
