//! Where a worker sits.

ghost use Rattle.sfc_control.specs.Ends.{IsEndOf};

use crate::clock::Clock;
use crate::gate::Gate;
use crate::seat::Seat;
use crate::work::WorkerEnd;
use sfc_base::ids::TaskId;
use std::snapshot::Snapshot;
use std::sync::ledger::Ledger;
use std::thread::Promise;

/// What a worker of a crew is given. The task is one of the plant.
#[derive(Drop)]
pub struct Post<L: Ledger, G: Gate, C: Clock> {
    /// What it scans.
    pub task: TaskId,
    /// Its seat.
    pub seat: Seat<L>,
    /// What it asks before each scan.
    pub gate: G,
    /// What gives its instants.
    pub clock: C,
}

// What the end of a post's worker has to be.
#[derive(Drop)]
pub struct EndOf<L: Ledger> {
    pub task: TaskId,
    pub seat: Snapshot<Seat<L>>,
}

impl<L: Ledger> Promise<WorkerEnd<L>> for EndOf<L> {
    ghost kept_by = { λ promise end. IsEndOf promise.task promise.seat.value end };
}
