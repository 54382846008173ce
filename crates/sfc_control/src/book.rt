//! A debugger with the history of its commands.

ghost use Rattle.std.specs.Prelude.{◌≡◌, ◌-◌, All, take};
ghost use Rattle.std.proofs.Props.{props};
ghost use Rattle.rtrb.specs.Ring.{sent};
ghost use Rattle.sfc_debug.specs.sfc_core.Agreement.{Agrees as ResourceAgrees, plant_of as plant_of_resource};
ghost use Rattle.sfc_debug.specs.Agreement.{Agrees, plant_of, table_of, mask_of};
ghost use Rattle.sfc_debug.specs.Openings.{IsOpeningFor, past_of};
ghost use Rattle.sfc_debug.specs.Past.{debug_past};
ghost use Rattle.sfc_debug.proofs.Openings.{opening_prop};
ghost use Rattle.sfc_control.specs.Histories.{whole, first_of};
ghost use Rattle.sfc_control.specs.Holding.{first_in};
ghost use Rattle.sfc_control.specs.LegalHistory.{IsLegal, commands_of};
ghost use Rattle.sfc_control.specs.Rows.{IsRow, Rise};

use crate::entry::Entry;
use crate::feed::publish;
use crate::history::History;
use crate::receipt::Receipt;
use crate::sfc_core::resource::Resource;
use crate::tail::{Rising, Tail};
use crate::telling::tell;
use rtrb::{Producer, RingBuffer};
use sfc_base::ticks::Ticks;
use sfc_debug::debugger::Debugger;
use sfc_debug::mode::Mode;
use sfc_debug::opening::DebugOpening;
use sfc_events::command::{Command, TraceRow};
use sfc_events::refusal::Refusal;
use std::alloc::{AllocError, Global};

/// A debugger, whose accepted commands are entered in a history and published in a feed. An epoch drops the entries before its
/// own, and what later answers need of them is kept as their opening.
#[derive(Drop)]
pub struct Book {
    debugger: Debugger,
    opening: DebugOpening,
    history: History,
    pub(crate) feed: Producer<TraceRow, Global, Rising>,
    pub ghost cut: { first_of history ≡ first_in (whole history) },
    pub ghost legal: { IsLegal (plant_of debugger) (table_of debugger) (whole history) } by { Prim.hlevel props },
    ghost agrees: { ∥ Agrees debugger (commands_of (whole history)) ∥₁ },
    ghost fits: { IsOpeningFor (plant_of debugger) opening } by { opening_prop (plant_of debugger) opening },
    pub ghost opened: { past_of (plant_of debugger) opening ≡
        debug_past (plant_of debugger) (table_of debugger) (commands_of (take (first_of history - 1) (whole history))) } by { Prim.hlevel props },
    pub ghost rows: { All (IsRow (plant_of debugger) (table_of debugger) (mask_of debugger) (whole history))
        (sent feed) } by { Prim.hlevel props },
    pub ghost rising: { Rise (sent feed) } by { Prim.hlevel props },
}

impl Book {
    ghost use Rattle.std.specs.Prelude.{[], ◌∷◌, ◌++◌, ◌+◌, ◌<◌, ◌≤◌, length, IfOk, OnOk, OnErr, IsTrue, ◌↔◌};
    ghost use Rattle.rtrb.specs.Ring.{SameProducer};
    ghost use Rattle.sfc_base.specs.Ticks.{Within};
    ghost use Rattle.sfc_debug.specs.States.{state_of, erasure};
    ghost use Rattle.sfc_debug.specs.Tracing.{row_of};
    ghost use Rattle.sfc_debug.specs.Work.{command_work};
    ghost use Rattle.sfc_control.specs.Answering.{answered, bar};
    ghost use Rattle.sfc_control.specs.Waiting.{lag, clock_of};
    ghost use Rattle.sfc_control.specs.Holding.{held_after, held_number, first_after, calls_in};
    ghost use Rattle.sfc_control.specs.Receipts.{entry_of, Stands, IsReceiptOf};
    ghost use Rattle.sfc_control.specs.Publishing.{Publishes};
    ghost use Rattle.sfc_control.specs.Tails.{taken, capacity};
    ghost use Rattle.sfc_control.specs.Books.{accepted, entries, first, limit, plant, table, mask};
    ghost use Rattle.sfc_control.specs.Books.{debugger_of, opening_of, feed_of, published, room_of, free_of, IsTailOf};

    /// A book over a debugger that has accepted nothing, with no entry and limit 0, and the end of its feed that takes rows. The
    /// feed has room for so many rows, from 1 to 65,536. The one error is that memory was refused, and then the debugger is given up.
    pub fn new(
        alloc: Global,
        debugger: Debugger,
        feed_capacity: usize,
    ) -> Result<(Book, Tail), AllocError>
        requires { Agrees debugger [] }
        ensures accepted { IfOk result (λ made. accepted made.0 ≡ []) }
        ensures entries { IfOk result (λ made. entries made.0 ≡ []) }
        ensures first { IfOk result (λ made. first made.0 ≡ 1) }
        ensures limit { IfOk result (λ made. limit made.0 ≡ 0) }
        ensures debugger { IfOk result (λ made. debugger_of made.0 ≡ debugger) }
        ensures published { IfOk result (λ made. published made.0 ≡ []) }
        ensures feed { IfOk result (λ made. (room_of made.0 ≡ feed_capacity) × (free_of made.0 ≡ feed_capacity)) }
        ensures tail { IfOk result (λ made. (taken made.1 ≡ []) × (capacity made.1 ≡ feed_capacity) × IsTailOf made.0 made.1) }
    {
        let opening = DebugOpening::new(alloc, &debugger)?;
        let history = History::new(alloc)?;
        let (feed, tail) = RingBuffer::with_protocol::<Global, Rising>(alloc, feed_capacity)?;
        let book = Book {
            debugger,
            opening,
            history,
            feed,
        };
        Ok((book, Tail { feed: tail }))
    }

    /// Makes room for n entries, which are the limit from then on; not fewer than are held. The one error is that memory was
    /// refused, and then the limit is as it was.
    pub fn reserve_events(&mut self, n: usize) -> Result<(), AllocError>
        requires { length (entries self.old) ≤ n }
        ensures accepted { accepted self.new ≡ accepted self.old }
        ensures entries { entries self.new ≡ entries self.old }
        ensures first { first self.new ≡ first self.old }
        ensures debugger { debugger_of self.new ≡ debugger_of self.old }
        ensures opening { opening_of self.new ≡ opening_of self.old }
        ensures feed { feed_of self.new ≡ feed_of self.old }
        ensures ok { OnOk result (limit self.new ≡ n) }
        ensures err { OnErr result (limit self.new ≡ limit self.old) }
    {
        self.history.reserve(n)
    }

    /// Whether the receipt stands: its index is that of an entry that was dropped, or the entry at its index is the receipt's.
    pub fn stands(&self, receipt: &Receipt) -> bool
        ensures { IsTrue result ↔ Stands (accepted self.now) receipt.now }
    {
        self.history.stands(receipt)
    }

    /// The entries that are held, the oldest first: those since the latest epoch, which is the first of them.
    pub fn entries(&self) -> &[Entry]
        ensures entries { result.now ≡ entries self.now }
        ensures count { length result.now ≡ held_number (first self.now) (length (accepted self.now)) }
    {
        self.history.entries()
    }

    /// The index of the first entry that is held; 1 in a new book.
    pub fn first(&self) -> u64
        ensures { result ≡ first self.now }
    {
        self.history.first()
    }

    /// How many entries there were since the first, also those that were dropped since.
    pub fn accepted(&self) -> u64
        ensures { result ≡ length (accepted self.now) }
    {
        self.debugger.accepted()
    }

    /// What the entries that were dropped leave for later answers.
    pub fn opening(&self) -> &DebugOpening
        ensures opening { result.now ≡ opening_of self.now }
        ensures sizes { IsOpeningFor (plant self.now) result.now }
        ensures past { past_of (plant self.now) result.now ≡
            debug_past (plant self.now) (table self.now) (commands_of (take (first self.now - 1) (accepted self.now))) }
    {
        &self.opening
    }

    // How many entries there were under the seat's number, also of those that were dropped.
    pub(crate) fn calls(&self, seat: u8) -> u64
        requires { seat < 24 }
        ensures { result ≡ calls_in (accepted self.now) seat }
    {
        self.history.calls(seat)
    }

    /// By how many microseconds run instants are below raw ones, from the latest entry on, as long as the resource runs: what was spent in
    /// halts, less what single scans let pass. So a release at the run instant t comes at the raw instant t + lag.
    pub fn lag(&self) -> i64
        ensures { result ≡ lag (clock_of (plant self.now) (table self.now) (accepted self.now)) }
    {
        match self.history.entries().last() {
            Some(entry) => entry.raw - self.debugger.run_instant(),
            None => 0,
        }
    }

    /// The resource, as it stands behind the latest entry.
    pub fn resource(&self) -> &Resource
        ensures plant { plant_of_resource result.now ≡ plant self.now }
        ensures agrees { ∥ ResourceAgrees result.now (erasure (plant self.now) (table self.now) (commands_of (accepted self.now))) ∥₁ }
    {
        self.debugger.resource()
    }

    /// Puts into the opening what all entries leave for later answers, also those that were dropped; how many they are. It takes no memory.
    pub fn save(&self, opening: &mut DebugOpening) -> u64
        requires { IsOpeningFor (plant self.now) opening.old }
        ensures count { result ≡ length (accepted self.now) }
        ensures sizes { IsOpeningFor (plant self.now) opening.new }
        ensures past { past_of (plant self.now) opening.new ≡
            debug_past (plant self.now) (table self.now) (commands_of (accepted self.now)) }
    {
        self.debugger.save(opening);
        self.debugger.accepted()
    }

    // Why the command isn't looked at.
    fn bar(&self, command: Command) -> Option<Refusal>
        ensures { result ≡ bar (plant self.now) (table self.now) (limit self.now) (accepted self.now) command }
    {
        match self.debugger.mode() {
            Mode::Ended => Some(Refusal::Ended),
            Mode::Running | Mode::Stopped => {
                if self.history.is_full(command) {
                    Some(Refusal::HistoryFull)
                } else {
                    None
                }
            }
        }
    }

    /// One command of a seat at the raw instant, in microseconds: what it is refused for, else its receipt. An accepted command is an
    /// entry more, and its row is published if the debugger's mask wants it and the feed has room for it. An accepted Epoch saves what
    /// the entries before it leave, drops them and is the first entry; indices go on. After a refusal the book is as it was. It takes
    /// no memory, and its work is bounded by that of the debugger's command.
    ///
    /// The refusals: `Ended` after End; `HistoryFull` where the limit's entries are held, and to Epoch where the limit is 0; then what
    /// `Debugger::command` refuses.
    pub fn apply(
        &mut self,
        seat: u8,
        command: Command,
        raw: i64,
        ticks: &mut Ticks,
    ) -> Result<Receipt, Refusal>
        requires { seat < 24 }
        ensures answer { result ≡
            answered (plant self.old) (table self.old) (limit self.old) (accepted self.old) seat command raw }
        ensures accepted { IfOk result (λ receipt. accepted self.new ≡ accepted self.old ++ entry_of receipt ∷ []) }
        ensures entries { IfOk result (λ receipt. entries self.new ≡ held_after command (entries self.old) (entry_of receipt)) }
        ensures first { IfOk result (λ receipt. first self.new ≡ first_after command (first self.old) receipt.index) }
        ensures receipt { IfOk result (λ receipt. IsReceiptOf receipt seat command raw) }
        ensures index { IfOk result (λ receipt. receipt.index ≡ length (accepted self.old) + 1) }
        ensures plant { plant self.new ≡ plant self.old }
        ensures table { table self.new ≡ table self.old }
        ensures mask { mask self.new ≡ mask self.old }
        ensures limit { limit self.new ≡ limit self.old }
        ensures feed { SameProducer (feed_of self.old) (feed_of self.new) }
        ensures row { IfOk result (λ receipt. Publishes (mask self.old)
            (row_of (plant self.old) (table self.old) (commands_of (accepted self.old)) command raw receipt.answer)
            (feed_of self.old) (feed_of self.new)) }
        ensures err { OnErr result (self.new ≡ self.old) }
        ensures ticks { Within (command_work (plant self.old) (table self.old)
            (state_of (plant self.old) (table self.old) (commands_of (accepted self.old))).points command) ticks.old ticks.new }
    {
        if let Some(refusal) = self.bar(command) {
            return Err(refusal);
        }
        let answer = match tell(&mut self.debugger, &mut self.opening, command, raw, ticks) {
            Ok(answer) => answer,
            Err(refusal) => return Err(refusal),
        };
        let index = self.debugger.accepted();
        let entry = Entry {
            seat,
            command,
            raw,
            answer,
        };
        self.history.push(entry, index);
        let row = TraceRow {
            number: index,
            raw,
            t: self.debugger.run_instant(),
            command,
            answer,
        };
        publish(&mut self.feed, self.debugger.mask(), row);
        Ok(Receipt {
            seat,
            index,
            command,
            raw,
            answer,
        })
    }
}
