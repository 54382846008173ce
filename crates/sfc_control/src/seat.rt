//! A place at a controller.

ghost use Rattle.std.specs.Prelude.{◌≡◌, ◌<◌, ◌≤◌, length};
ghost use Rattle.std.proofs.Props.{props};
ghost use Rattle.sfc_control.specs.Calls.{last_of, latest_cut};
ghost use Rattle.sfc_control.specs.Working.{last_index};

use crate::book::Book;
use crate::call_error::CallError;
use crate::clock::Clock;
use crate::controller::Controller;
use crate::given::{AcceptedCall, Given};
use crate::locked::Locked;
use crate::opened_with::OpenedWith;
use crate::receipt::Receipt;
use sfc_base::ticks::Ticks;
use sfc_events::command::Command;
use std::sync::Wait;
use std::sync::ledger::{Ledger, Share};

/// A place at the controller that handed it out: its number, the number of its accepted calls, its last receipt, the index of the first
/// entry that was held when it was given, and its part of the ledger. Proofs see all its accepted calls besides, to which the others are held.
#[derive(Drop)]
pub struct Seat<L: Ledger> {
    pub(crate) number: u8,
    pub(crate) calls: u64,
    pub(crate) last: Option<Receipt>,
    pub(crate) first: u64,
    pub(crate) given: Given,
    pub(crate) share: Share<L>,
    pub ghost known: { number < 24 },
    pub ghost one_part: { share.parts ≡ 1 },
    pub ghost counted: { share.amount ≡ calls },
    pub ghost numbered: { calls ≡ length given.calls },
    pub ghost latest: { last ≡ last_of given.calls } by { Prim.hlevel props },
    pub ghost cut: { first ≡ latest_cut given.calls },
    pub ghost met: { first ≤ last_index last },
}

impl<L: OpenedWith> Seat<L> {
    ghost use Rattle.std.specs.Prelude.{[], ◌∷◌, ◌++◌, ◌+◌, Some, Err, IfOk, OnOk, OnErr, ℤ, List, IsTrue, ◌↔◌, max};
    ghost use Rattle.sfc_control.specs.declared.entry.Entry.{Entry};
    ghost use Rattle.sfc_control.specs.Answering.{answered};
    ghost use Rattle.sfc_control.specs.Holding.{held_after, first_after};
    ghost use Rattle.sfc_control.specs.Receipts.{entry_of, IsReceiptOf};
    ghost use Rattle.sfc_control.specs.Books.{accepted, entries, first, limit};
    ghost use Rattle.sfc_control.specs.Lock.{book_of, total_of};
    ghost use Rattle.sfc_control.specs.Seats.{number, calls, given, last_receipt, first_held};
    ghost use Rattle.sfc_control.specs.Seats.{KeptStands, called, Puts, IsCalled, BothStand};
    ghost use Rattle.sfc_control.specs.Waiting.{lag_after};

    // Whether the last receipt, if there is one, stands in the book.
    fn last_stands(&self, book: &Book) -> bool
        ensures { IsTrue result ↔ KeptStands (last_receipt self.now) (accepted book.now) }
    {
        match &self.last {
            Some(last) => book.stands(last),
            None => true,
        }
    }

    /// One command at the raw instant, in microseconds, on what lies under the lock: `AuditMismatch` where the last receipt does not
    /// stand, else what the book answers to the seat's number. An accepted one is counted, and its receipt is kept. After a refusal
    /// seat and book are as they were.
    pub fn enter(
        &mut self,
        locked: &mut Locked<L>,
        command: Command,
        raw: i64,
    ) -> Result<Receipt, CallError>
        ensures audit { (KeptStands (last_receipt self.old) (accepted (book_of locked.old)) → ⊥) → result ≡ Err CallError.AuditMismatch }
        ensures answer { KeptStands (last_receipt self.old) (accepted (book_of locked.old)) →
            result ≡ called (answered L.plant L.table L.limit (accepted (book_of locked.old)) (number self.old) command raw) }
        ensures accepted { IfOk result (λ receipt. accepted (book_of locked.new) ≡
            accepted (book_of locked.old) ++ entry_of receipt ∷ []) }
        ensures entries { IfOk result (λ receipt. entries (book_of locked.new) ≡
            held_after command (entries (book_of locked.old)) (entry_of receipt)) }
        ensures first { IfOk result (λ receipt. first (book_of locked.new) ≡
            first_after command (first (book_of locked.old)) receipt.index) }
        ensures total { OnOk result (total_of locked.new ≡ total_of locked.old + 1) }
        ensures number { number self.new ≡ number self.old }
        ensures calls { OnOk result (calls self.new ≡ calls self.old + 1) }
        ensures last { IfOk result (λ receipt. last_receipt self.new ≡ Some receipt) }
        ensures held { OnOk result (first_held self.new ≡ max (first_held self.old) (first (book_of locked.new))) }
        ensures put { Puts (accepted (book_of locked.old)) command (given self.old) (given self.new) result }
        ensures receipt { IfOk result (λ receipt. IsReceiptOf receipt (number self.old) command raw) }
        ensures legal { IfOk result (λ receipt. BothStand L.plant L.table (last_receipt self.old) receipt) }
        ensures seat { OnErr result (self.new ≡ self.old) }
        ensures book { OnErr result (book_of locked.new ≡ book_of locked.old) }
        ensures ledger { OnErr result (total_of locked.new ≡ total_of locked.old) }
    {
        if !self.last_stands(&locked.book) {
            return Err(CallError::AuditMismatch);
        }
        let Locked { book, total } = locked;
        let mut ticks = Ticks::new();
        let receipt = match book.apply(self.number, command, raw, &mut ticks) {
            Ok(receipt) => receipt,
            Err(refusal) => return Err(CallError::Refused(refusal)),
        };
        total.add(&mut self.share, 1);
        total.audit(&mut self.share);
        self.calls += 1;
        self.last = Some(receipt);
        let cut = book.first();
        self.first = self.first.max(cut);
        self.given.push(&AcceptedCall { receipt, cut });
        Ok(receipt)
    }

    /// The same under the lock of the seat's controller, at the instant that the clock reads once the lock is held. It waits for
    /// the lock.
    pub fn call<R: Wait, C: Clock>(
        &mut self,
        rt: &R,
        controller: &Controller<L>,
        command: Command,
        clock: &mut C,
    ) -> Result<Receipt, CallError>
        ensures entered { (raw : ℤ) × (es : List Entry) × C.reads clock.old raw clock.new
            × IsCalled L.plant L.table L.limit es command raw self.old self.new result }
        ensures receipt { IfOk result (λ receipt. (receipt.seat ≡ number self.old) × (receipt.command ≡ command)) }
        ensures number { number self.new ≡ number self.old }
        ensures calls { OnOk result (calls self.new ≡ calls self.old + 1) }
        ensures last { IfOk result (λ receipt. last_receipt self.new ≡ Some receipt) }
        ensures legal { IfOk result (λ receipt. BothStand L.plant L.table (last_receipt self.old) receipt) }
        ensures seat { OnErr result (self.new ≡ self.old) }
    {
        let mut lag = 0;
        self.call_seen(rt, controller, command, clock, &mut lag)
    }

    /// The same, and by how many microseconds run instants are below raw ones behind it, as `Book::lag` says, under the same lock: a
    /// worker that is refused by NotDue may wait until its next release, which is at the raw instant that is so much later. Then the
    /// bells are rung that the call concerns.
    pub fn call_seen<R: Wait, C: Clock>(
        &mut self,
        rt: &R,
        controller: &Controller<L>,
        command: Command,
        clock: &mut C,
        lag: &mut i64,
    ) -> Result<Receipt, CallError>
        ensures entered { (raw : ℤ) × (es : List Entry) × C.reads clock.old raw clock.new
            × IsCalled L.plant L.table L.limit es command raw self.old self.new result
            × (lag.new ≡ lag_after L.plant L.table es result) }
        ensures receipt { IfOk result (λ receipt. (receipt.seat ≡ number self.old) × (receipt.command ≡ command)) }
        ensures number { number self.new ≡ number self.old }
        ensures calls { OnOk result (calls self.new ≡ calls self.old + 1) }
        ensures last { IfOk result (λ receipt. last_receipt self.new ≡ Some receipt) }
        ensures legal { IfOk result (λ receipt. BothStand L.plant L.table (last_receipt self.old) receipt) }
        ensures seat { OnErr result (self.new ≡ self.old) }
    {
        let mut locked = controller.locked.lock(rt);
        let raw = clock.now();
        let answer = self.enter(&mut locked, command, raw);
        *lag = locked.book.lag();
        controller.bells.mark(&locked.book, command, &answer);
        drop(locked);
        controller.bells.ring();
        answer
    }
}
