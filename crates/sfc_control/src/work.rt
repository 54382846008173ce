//! A worker, which scans one task.

ghost use Rattle.std.specs.Prelude.{◌≡◌, ◌≤◌, ◌+◌, ◌↔◌, nat_le, All, Err, OnOk, true, length, vec_capacity};
ghost use Rattle.sfc_control.specs.Working.{Receives, held_from};
ghost use Rattle.sfc_control.specs.Seats.{number, given, first_held};
ghost use Rattle.sfc_control.specs.Private.Turns as turns;

use crate::call_error::CallError;
use crate::clock::Clock;
use crate::controller::Controller;
use crate::gate::{Gate, Turn};
use crate::opened_with::OpenedWith;
use crate::receipt::Receipt;
use crate::seat::Seat;
use sfc_base::ids::TaskId;
use sfc_events::command::Command;
use sfc_events::refusal::Refusal;
use std::alloc::{AllocError, Global};
use std::sync::Wait;
use std::sync::ledger::Ledger;

/// For how many receipts there is room before the first scan.
const FIRST: usize = 65_536;

/// For how many more there is room where a task waits.
const SPARE: usize = 4_096;

/// Why a worker ended.
#[derive(Clone, Copy, Debug, PartialEq, Eq)]
pub enum Why {
    /// The gate refused a turn.
    Closed,
    /// The debugger has ended.
    Ended,
    /// The limit's entries are held, or as many commands were accepted as may be.
    Full,
    /// The clock went back, or is out of range.
    Clock,
    /// Memory was refused.
    Memory,
    /// The seat's last receipt does not stand, or the scan was refused for another reason.
    Audit,
}

/// What a worker leaves: its seat, the receipts of its accepted scans whose entries are held, and why it ended.
#[derive(Drop)]
pub struct WorkerEnd<L: Ledger> {
    /// The seat that was handed in.
    pub seat: Seat<L>,
    /// The receipts, in order: those from the latest epoch on that an accepted scan of the worker met.
    pub receipts: Vec<Receipt>,
    /// Why it ended.
    pub why: Why,
}

// What a refusal means to a worker, where run instants are below raw ones by the lag: another turn, or why it ends.
fn turn_of(error: CallError, lag: i64) -> Result<Turn, Why>
    ensures turn { result ≡ turns.turn_of lag error }
    ensures open { result ≡ Err Why.Closed → ⊥ }
{
    match error {
        CallError::Refused(Refusal::NotDue(None)) => Ok(Turn::Waits(None)),
        CallError::Refused(Refusal::NotDue(Some(next))) => {
            Ok(Turn::Waits(Some(next.saturating_add(lag))))
        }
        CallError::Refused(Refusal::Yield(task)) => Ok(Turn::Yielded(task)),
        CallError::Refused(Refusal::Stopped) => Ok(Turn::Halted),
        CallError::Refused(Refusal::Ended) => Err(Why::Ended),
        CallError::Refused(Refusal::HistoryFull) => Err(Why::Full),
        CallError::Refused(Refusal::ClockBack) => Err(Why::Clock),
        CallError::Refused(Refusal::InstantRange) => Err(Why::Clock),
        CallError::Refused(_) => Err(Why::Audit),
        CallError::AuditMismatch => Err(Why::Audit),
    }
}

// Makes room for receipts before a turn: for many before the first, and for many more where the task waits. Behind a scan, which may be
// followed at once by the next, it takes none.
fn make_room(receipts: &mut Vec<Receipt>, last: Turn) -> Result<(), AllocError>
    ensures items { receipts.new.items ≡ receipts.old.items }
    ensures room { OnOk result (length receipts.old.items + turns.room_before last ≤ vec_capacity receipts.new) }
{
    match last {
        Turn::First => receipts.reserve(FIRST),
        Turn::Done(_) => Ok(()),
        Turn::Waits(_) | Turn::Yielded(_) | Turn::Halted => receipts.reserve(SPARE),
    }
}

// Lets go of the receipts from before the first entry that is held, where that is another one than before.
fn let_go(receipts: &mut Vec<Receipt>, before: u64, first: u64)
    requires kept { All (λ receipt. nat_le before receipt.index ≡ true) receipts.old.items }
    requires rising { before ≤ first }
    ensures { receipts.new.items ≡ held_from first receipts.old.items }
{
    if before < first {
        receipts.retain(|receipt| first <= receipt.index);
    }
}

/// Scans the task each time that the gate answers true, until it answers false or a scan can't be answered. In each round room for
/// receipts is made, then the gate is asked, then comes the call. Receipts whose entries an epoch has dropped are let go at the next
/// accepted scan, so that the memory is bounded by what is held. The task is one of the plant.
///
/// There is room for 65,536 receipts before the first scan, and for 4,096 more whenever the gate is told that the task has to wait: so
/// between a release and its scan memory is taken only where 4,096 scans followed one another without a wait. Where it is refused and no
/// receipt more has room, the worker ends.
pub fn worker<L: OpenedWith, R: Wait, G: Gate, C: Clock>(
    rt: &R,
    alloc: Global,
    task: TaskId,
    seat: Seat<L>,
    controller: &Controller<L>,
    gate: &mut G,
    clock: &mut C,
) -> WorkerEnd<L>
    ensures seat { number result.seat ≡ number seat }
    ensures receipts { Receives (number seat) task (given seat) (given result.seat) (first_held result.seat) result.receipts.items }
    ensures why { (result.why ≡ Why.Closed) ↔ (G.is_shut gate.new ≡ true) }
{
    let mut seat = seat;
    let mut receipts = Vec::new(alloc);
    let mut last = Turn::First;
    let mut lag = 0;
    let command = Command::Scan(task);
    'turns: for _ in rt.forever() {
        let _ = make_room(&mut receipts, last);
        if !gate.turn(last) {
            return WorkerEnd {
                seat,
                receipts,
                why: Why::Closed,
            };
        }
        if receipts.reserve(1).is_err() {
            return WorkerEnd {
                seat,
                receipts,
                why: Why::Memory,
            };
        }
        let before = seat.first;
        match seat.call_seen(rt, controller, command, clock, &mut lag) {
            Ok(receipt) => {
                receipts.push_reserved(receipt);
                let_go(&mut receipts, before, seat.first);
                last = Turn::Done(receipt);
            }
            Err(error) => match turn_of(error, lag) {
                Ok(turn) => last = turn,
                Err(why) => {
                    return WorkerEnd {
                        seat,
                        receipts,
                        why,
                    };
                }
            },
        }
    }
    unreachable!()
}
