//! The close of a controller, and its line.

ghost use Rattle.std.specs.Prelude.{◌≡◌, ◌<◌, ◌++◌, [], length, IfOk, OnOk, is_some};
ghost use Rattle.sfc_base.specs.Writing.{Writes};
ghost use Rattle.sfc_control.specs.sfc_core.Agreement as core;
ghost use Rattle.sfc_control.specs.sfc_core.PlantState.{state_of};
ghost use Rattle.sfc_events.specs.History.{History};
ghost use Rattle.sfc_run.specs.Auditing as rules;
ghost use Rattle.sfc_run.specs.Auditing.{Adds, Audits, Gathers, audit_line, is_memory};

use crate::console::Console;
use crate::keeper::Keeper;
use crate::printing::PrintFault;
use crate::sfc_core::resource::Resource;
use sfc_base::ids::ProgId;
use sfc_base::write_fault::put_all;
use sfc_control::clock::Clock;
use sfc_control::controller::Controller;
use sfc_control::opened_with::OpenedWith;
use sfc_control::receipt::Receipt;
use sfc_control::seat::Seat;
use sfc_control::work::{Why, WorkerEnd};
use sfc_page::append::{append, append_number};
use std::alloc::{AllocError, Global};
use std::io::Write;
use std::sync::ledger::Ledger;

/// What all seats of a run leave.
#[derive(Drop)]
pub struct Returned<L: Ledger> {
    /// The seats, the session's first, and then that of the run itself.
    pub seats: Vec<Seat<L>>,
    /// The receipts of each, in the same order.
    pub receipts: Vec<Receipt>,
    /// Whether a worker ended for want of memory.
    pub memory: bool,
}

// Whether it is want of memory.
fn is_memory(why: Why) -> bool
    ensures { result ≡ is_memory why }
{
    matches!(why, Why::Memory)
}

impl<L: Ledger> Returned<L> {
    // Puts what a worker leaves behind the rest. The error is that memory was refused.
    fn add(&mut self, end: WorkerEnd<L>) -> Result<(), AllocError>
        ensures { OnOk result (Adds end self.old self.new) }
    {
        let WorkerEnd {
            seat,
            receipts,
            why,
        } = end;
        self.seats.push(seat)?;
        self.receipts.extend_from_slice(&receipts)?;
        self.memory = self.memory || is_memory(why);
        Ok(())
    }
}

// What the session and the run itself leave.
fn of_session<L: Ledger, C: Clock + Drop>(
    alloc: Global,
    console: Console<L, C>,
    keeper: Keeper<L, C>,
) -> Result<Returned<L>, AllocError>
    ensures { IfOk result (Gathers console keeper.console []) }
{
    let Console {
        seat,
        clock: _,
        mut receipts,
    } = console;
    let Keeper {
        console: own,
        most: _,
    } = keeper;
    let Console {
        seat: own_seat,
        clock: _,
        receipts: own_receipts,
    } = own;
    let mut seats = Vec::new(alloc);
    seats.push(seat)?;
    seats.push(own_seat)?;
    receipts.extend_from_slice(&own_receipts)?;
    Ok(Returned {
        seats,
        receipts,
        memory: false,
    })
}

/// What the session, the run itself and its workers leave: all seats and all receipts, in this order and each worker's in theirs. The one
/// error is that memory was refused, and then it is all given up.
pub fn gather<L: Ledger, C: Clock + Drop>(
    alloc: Global,
    console: Console<L, C>,
    keeper: Keeper<L, C>,
    ends: Vec<WorkerEnd<L>>,
) -> Result<Returned<L>, AllocError>
    ensures { IfOk result (Gathers console keeper.console ends.items) }
{
    let mut returned = of_session(alloc, console, keeper)?;
    'ends: for end in ends {
        returned.add(end)?;
    }
    Ok(returned)
}

// Whether a scan of the program ended with a fault since its latest reset.
fn is_faulted(resource: &Resource, program: ProgId) -> bool
    requires { program.0 < length (core.plant_of resource.now).instances }
    ensures { (h : History) → core.Agrees resource.now h →
        result ≡ is_some ((state_of (core.plant_of resource.now) h).instance_state program.0).fault }
{
    resource.program(program).fault().is_some()
}

// Whether a program stands faulted: a scan of it ended with a fault since its latest reset, and each later one is passed over.
fn has_fault(resource: &Resource) -> bool
    ensures { (h : History) → core.Agrees resource.now h →
        result ≡ rules.any_faulted (core.plant_of resource.now) h (length (core.plant_of resource.now).instances) }
{
    let mut found = false;
    for k in 0..resource.plant().instances().len() {
        let here = is_faulted(resource, ProgId(k as u8));
        found = found || here;
    }
    found
}

/// What is right at the close of a run.
#[derive(Clone, Copy, Debug, PartialEq, Eq)]
pub struct Audited {
    /// How many commands were accepted.
    pub accepted: u64,
    /// Whether a program stood faulted then.
    pub has_fault: bool,
}

/// Closes the controller: how many commands were accepted, which all seats have counted together, and whether a program stands faulted
/// behind them, where history, receipts and seats agree; `None` where they don't. All seats are handed back. Controller and seats are given
/// up.
pub fn audit<L: OpenedWith>(
    controller: Controller<L>,
    seats: Vec<Seat<L>>,
    receipts: Vec<Receipt>,
) -> Option<Audited>
    requires some { 0 < length seats.items }
    requires all { length seats.items ≡ L.parts }
    ensures { Audits L.plant L.table seats.items receipts.items result }
{
    match controller.close(seats, receipts) {
        Ok(book) => Some(Audited {
            accepted: book.accepted(),
            has_fault: has_fault(book.resource()),
        }),
        Err(_) => None,
    }
}

// Puts the last line of a run at the end.
fn append_audit(out: &mut Vec<u8>, accepted: u64) -> Result<(), AllocError>
    ensures { OnOk result (out.new.items ≡ out.old.items ++ audit_line accepted) }
{
    append(out, b"audit ok ")?;
    append_number(out, accepted)?;
    append(out, b"\n")
}

/// Writes the last line of a run: `audit ok`, and how many commands were accepted. `Write` is answered where the writer failed or took no
/// byte, `Memory` where memory was refused; then a front of the line was written.
pub fn put_audit<W: Write>(alloc: Global, accepted: u64, w: &mut W) -> Result<(), PrintFault>
    ensures { Writes (W.contents w.old) (W.contents w.new) result (audit_line accepted) }
{
    let mut text = Vec::new(alloc);
    append_audit(&mut text, accepted)?;
    put_all(w, &text)?;
    Ok(())
}
