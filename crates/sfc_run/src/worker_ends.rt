//! Why workers ended.

ghost use Rattle.std.specs.Prelude.{◌≡◌, ◌≤◌, ◌<◌, ◌+◌, ◌^◌, ◌++◌, length, option_map, IfOk, OnOk};
ghost use Rattle.sfc_run.specs.WorkerEnds as ends;
ghost use Rattle.sfc_run.specs.WorkerEnds.{IsToldOf};

use crate::run_faults::RunFaults;
use sfc_base::write_fault::put_all;
use sfc_control::work::{Why, WorkerEnd};
use sfc_page::append::append;
use sfc_plant::names::task_name;
use sfc_plant::plant::Plant;
use std::alloc::{AllocError, Global};
use std::io::Write;
use std::sync::ledger::Ledger;

// The words for an end that came before the session's; none where it was the session that ended scans.
fn reason(why: Why) -> Option<&'static [u8]>
    ensures { option_map (λ words. words.now) result ≡ ends.reason why }
{
    match why {
        Why::Closed | Why::Ended => None,
        Why::Full => Some(b"HistoryFull"),
        Why::Clock => Some(b"the clock went back or too far"),
        Why::Memory => Some(b"out of memory"),
        Why::Audit => Some(b"AuditMismatch"),
    }
}

// Puts the line of a worker's end, where it came early; whether it did.
fn append_end(out: &mut Vec<u8>, name: &[u8], why: Why) -> Result<bool, AllocError>
    ensures text { OnOk result (out.new.items ≡ out.old.items ++ ends.end_text name.now (ends.reason why)) }
    ensures early { IfOk result (λ early. early ≡ ends.is_early why) }
{
    let Some(words) = reason(why) else {
        return Ok(false);
    };
    append(out, b"scans of ")?;
    append(out, name)?;
    append(out, b" ended: ")?;
    append(out, words)?;
    append(out, b"\n")?;
    Ok(true)
}

// Puts a line for each worker whose end came early, of those that scan task k and the ones behind it; whether there is one.
fn append_ends<L: Ledger>(
    out: &mut Vec<u8>,
    plant: &Plant,
    k: usize,
    workers: &[WorkerEnd<L>],
) -> Result<bool, AllocError>
    requires { k + length workers.now < 2 ^ 64 }
    ensures text { OnOk result (out.new.items ≡ out.old.items ++ ends.ends_text plant.now k workers.now) }
    ensures early { IfOk result (λ early. early ≡ ends.any_early workers.now) }
{
    let Some((worker, rest)) = workers.split_first() else {
        return Ok(false);
    };
    let first = append_end(out, task_name(plant.tasks(), k), worker.why)?;
    let others = append_ends(out, plant, k + 1, rest)?;
    Ok(first || others)
}

/// Tells of each worker that ended before the session did, and why; worker k scans task k. Whether there is one, as a fault of the run, or
/// that memory was refused for the text. Faults of the writer are passed over.
pub fn tell_ends<L: Ledger, E: Write>(
    alloc: Global,
    plant: &Plant,
    workers: &[WorkerEnd<L>],
    errors: &mut E,
) -> RunFaults
    requires few { length workers.now ≤ 24 }
    ensures { IsToldOf plant.now workers.now (E.contents errors.old) (E.contents errors.new) result }
{
    let mut text = Vec::new(alloc);
    match append_ends(&mut text, plant, 0, workers) {
        Ok(early) => {
            let _ = put_all(errors, &text);
            RunFaults::of_ended(early)
        }
        Err(_) => RunFaults::of_memory(),
    }
}
