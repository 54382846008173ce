//! The entries that are held, and the numbers of all.

ghost use Rattle.std.specs.Prelude.{◌≡◌, ◌≤◌, ◌<◌, ◌+◌, ◌-◌, ◌^◌, ℕ, length, vec_capacity, drop};
ghost use Rattle.std.proofs.Props.{props};
ghost use Rattle.sfc_control.specs.Counts.{count_in};
ghost use Rattle.sfc_control.specs.Holding.{calls_in, first_in};

use crate::accepted::Accepted;
use crate::entry::Entry;
use crate::receipt::Receipt;
use crate::seat_counts::SeatCounts;
use sfc_events::command::Command;
use std::alloc::{AllocError, Global};

/// The entries since the latest epoch, which is the first of them, and how many there were under each seat's number since the
/// beginning.
#[derive(Drop)]
pub struct History {
    entries: Vec<Entry>,
    first: u64,
    limit: usize,
    counts: SeatCounts,
    accepted: Accepted,
    ghost room: { limit ≤ vec_capacity entries },
    ghost within: { length entries.items ≤ limit },
    ghost some: { 0 < first },
    ghost cut: { first ≡ first_in accepted.entries },
    ghost placed: { length entries.items + first ≡ length accepted.entries + 1 },
    ghost held: { entries.items ≡ drop (first - 1) accepted.entries } by { Prim.hlevel props },
    ghost counted: { (k : ℕ) → count_in counts k ≡ calls_in accepted.entries k },
}

// Whether no entry more may be held.
fn is_full(limit: usize, held: usize, command: Command) -> bool
    ensures { result ≡ holding.is_full limit held command }
{
    match command {
        Command::Epoch => limit == 0,
        _ => limit <= held,
    }
}

ghost use Rattle.sfc_control.specs.Holding as holding;

impl History {
    ghost use Rattle.std.specs.Prelude.{[], ◌∷◌, ◌++◌, false, IfOk, OnOk, OnErr, IsTrue, ◌↔◌};
    ghost use Rattle.sfc_control.specs.Holding.{held_number, held_after, first_after, first_in};
    ghost use Rattle.sfc_control.specs.Receipts.{Stands};
    ghost use Rattle.sfc_control.specs.Histories.{whole, held, first_of, limit_of};

    /// With no entry, and limit 0. The one error is that memory was refused.
    #[tactic(auto, using(crate::proofs::Cuts::first_in_none))]
    pub fn new(alloc: Global) -> Result<History, AllocError>
        ensures whole { IfOk result (λ history. whole history ≡ []) }
        ensures held { IfOk result (λ history. held history ≡ []) }
        ensures first { IfOk result (λ history. first_of history ≡ 1) }
        ensures limit { IfOk result (λ history. limit_of history ≡ 0) }
    {
        let counts = SeatCounts::new(alloc)?;
        Ok(History {
            entries: Vec::new(alloc),
            first: 1,
            limit: 0,
            counts,
            accepted: Accepted::new(),
        })
    }

    /// Makes room for n entries, which are the limit from then on. After want of memory the limit is as before.
    pub fn reserve(&mut self, n: usize) -> Result<(), AllocError>
        requires { length (held self.old) ≤ n }
        ensures whole { whole self.new ≡ whole self.old }
        ensures held { held self.new ≡ held self.old }
        ensures first { first_of self.new ≡ first_of self.old }
        ensures ok { OnOk result (limit_of self.new ≡ n) }
        ensures err { OnErr result (limit_of self.new ≡ limit_of self.old) }
    {
        self.entries.reserve(n - self.entries.len())?;
        self.limit = n;
        Ok(())
    }

    /// Whether the limit leaves no room for the command's entry.
    pub fn is_full(&self, command: Command) -> bool
        ensures { result ≡ holding.is_full (limit_of self.now) (held_number (first_in (whole self.now)) (length (whole self.now))) command }
    {
        is_full(self.limit, self.entries.len(), command)
    }

    // One entry behind the others.
    #[tactic(auto, using(crate::proofs::Cuts::cut_stays, crate::proofs::Cuts::calls_push, std::proofs::lemmas::Grind::common_steps))]
    fn append(&mut self, entry: Entry)
        requires seat { entry.seat < 24 }
        requires other { entry.command ≡ Command.Epoch → ⊥ }
        requires room { length (held self.old) < limit_of self.old }
        requires count { length (whole self.old) < 2 ^ 64 - 1 }
        ensures whole { whole self.new ≡ whole self.old ++ entry ∷ [] }
        ensures held { held self.new ≡ held self.old ++ entry ∷ [] }
        ensures first { first_of self.new ≡ first_of self.old }
        ensures limit { limit_of self.new ≡ limit_of self.old }
    {
        self.entries.push_reserved(entry);
        self.counts.add(entry.seat);
        self.accepted.push(&entry);
    }

    // The others are dropped, and the epoch is the first.
    #[tactic(auto, using(crate::proofs::Cuts::cut_moves, crate::proofs::Cuts::calls_push, std::proofs::lemmas::Grind::common_steps))]
    fn begin(&mut self, epoch: Entry, index: u64)
        requires seat { epoch.seat < 24 }
        requires epoch { epoch.command ≡ Command.Epoch }
        requires room { 0 < limit_of self.old }
        requires index { index ≡ length (whole self.old) + 1 }
        ensures whole { whole self.new ≡ whole self.old ++ epoch ∷ [] }
        ensures held { held self.new ≡ epoch ∷ [] }
        ensures first { first_of self.new ≡ index }
        ensures limit { limit_of self.new ≡ limit_of self.old }
    {
        self.entries.clear();
        self.entries.push_reserved(epoch);
        self.first = index;
        self.counts.add(epoch.seat);
        self.accepted.push(&epoch);
    }

    /// One entry more, which stands at the index. An epoch drops those before it.
    pub fn push(&mut self, entry: Entry, index: u64)
        requires seat { entry.seat < 24 }
        requires room { holding.is_full (limit_of self.old) (held_number (first_in (whole self.old)) (length (whole self.old)))
            entry.command ≡ false }
        requires index { index ≡ length (whole self.old) + 1 }
        ensures whole { whole self.new ≡ whole self.old ++ entry ∷ [] }
        ensures held { held self.new ≡ held_after entry.command (held self.old) entry }
        ensures first { first_of self.new ≡ first_after entry.command (first_of self.old) index }
        ensures limit { limit_of self.new ≡ limit_of self.old }
    {
        match entry.command {
            Command::Epoch => self.begin(entry, index),
            _ => self.append(entry),
        }
    }

    /// Whether the receipt's entry stands at its index, or is from before the first one held.
    pub fn stands(&self, receipt: &Receipt) -> bool
        ensures { IsTrue result ↔ Stands (whole self.now) receipt.now }
    {
        if receipt.index < self.first {
            return 0 < receipt.index;
        }
        match self.entries.get((receipt.index - self.first) as usize) {
            Some(entry) => receipt.is_of(entry),
            None => false,
        }
    }

    /// The entries that are held, the oldest first.
    pub fn entries(&self) -> &[Entry]
        ensures entries { result.now ≡ held self.now }
        ensures count { length result.now ≡ held_number (first_of self.now) (length (whole self.now)) }
    {
        self.entries.as_slice()
    }

    /// The index of the first entry held.
    pub fn first(&self) -> u64
        ensures { result ≡ first_of self.now }
    {
        self.first
    }

    /// How many entries there were under the seat's number.
    pub fn calls(&self, seat: u8) -> u64
        requires { seat < 24 }
        ensures { result ≡ calls_in (whole self.now) seat }
    {
        self.counts.of(seat)
    }
}
