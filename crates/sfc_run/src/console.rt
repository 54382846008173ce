//! A seat whose commands a session says.

ghost use Rattle.std.specs.Prelude.{◌≡◌, ◌++◌, ◌∷◌, [], IfOk, List, Result, ℤ};
ghost use Rattle.sfc_control.specs.declared.call_error.CallError.{CallError};
ghost use Rattle.sfc_control.specs.declared.entry.Entry.{Entry};
ghost use Rattle.sfc_control.specs.declared.receipt.Receipt.{Receipt};
ghost use Rattle.sfc_control.specs.Seats.{number, IsCalled};
ghost use Rattle.sfc_run.specs.Consoles.{Keeps, KeepsOr, Ends};

use sfc_control::call_error::CallError;
use sfc_control::clock::Clock;
use sfc_control::controller::Controller;
use sfc_control::opened_with::OpenedWith;
use sfc_control::receipt::Receipt;
use sfc_control::seat::Seat;
use sfc_events::command::Command;
use std::alloc::{AllocError, Global};
use std::sync::Wait;
use std::sync::ledger::Ledger;

/// A seat with its clock, and the receipts of its accepted commands.
#[derive(Drop)]
pub struct Console<L: Ledger, C: Clock> {
    /// The seat.
    pub seat: Seat<L>,
    /// What gives its instants.
    pub clock: C,
    /// The receipts, in order.
    pub receipts: Vec<Receipt>,
}

impl<L: OpenedWith, C: Clock> Console<L, C> {
    /// A console at the seat, which has accepted nothing.
    pub fn new(alloc: Global, seat: Seat<L>, clock: C) -> Console<L, C>
        ensures seat { result.seat ≡ seat }
        ensures clock { result.clock ≡ clock }
        ensures receipts { result.receipts.items ≡ [] }
    {
        Console {
            seat,
            clock,
            receipts: Vec::new(alloc),
        }
    }

    /// One command, at the instant that the clock reads under the lock: its receipt, which is kept, or why it is refused. The error is
    /// that there is no memory for the receipt; then nothing was called.
    pub fn call<R: Wait>(
        &mut self,
        rt: &R,
        controller: &Controller<L>,
        command: Command,
    ) -> Result<Result<Receipt, CallError>, AllocError>
        ensures number { number self.new.seat ≡ number self.old.seat }
        ensures called { IfOk result (λ answer. (raw : ℤ) × (es : List Entry) × C.reads self.old.clock raw self.new.clock
            × IsCalled L.plant L.table L.limit es command raw self.old.seat self.new.seat answer) }
        ensures kept { IfOk result (λ answer. Keeps command self.old self.new answer) }
        ensures nothing { KeepsOr self.old self.new result }
    {
        self.receipts.reserve(1)?;
        let answer = self.seat.call(rt, controller, command, &mut self.clock);
        if let Ok(receipt) = answer {
            self.receipts.push_reserved(receipt);
        }
        Ok(answer)
    }

    /// The end of a session: End is called, whether there is memory for its receipt or not. Without memory the receipt isn't kept, and the
    /// audit then goes by the seat's count.
    pub fn end<R: Wait>(&mut self, rt: &R, controller: &Controller<L>) -> Result<(), CallError>
        ensures number { number self.new.seat ≡ number self.old.seat }
        ensures called { (raw : ℤ) × (es : List Entry) × (answer : Result Receipt CallError) × C.reads self.old.clock raw self.new.clock
            × IsCalled L.plant L.table L.limit es Command.End raw self.old.seat self.new.seat answer
            × Ends self.old self.new answer result }
    {
        let room = self.receipts.reserve(1).is_ok();
        let receipt = match self
            .seat
            .call(rt, controller, Command::End, &mut self.clock)
        {
            Ok(receipt) => receipt,
            Err(error) => return Err(error),
        };
        if room {
            self.receipts.push_reserved(receipt);
        }
        Ok(())
    }
}
