//! A book that threads share.

ghost use Rattle.std.specs.Prelude.{◌≡◌, ◌<◌, ◌≤◌, [], List, length, IfOk};
ghost use Rattle.sfc_debug.specs.Agreement.{Agrees, plant_of, table_of, mask_of};
ghost use Rattle.sfc_debug.specs.Openings.{IsOpeningFor};
ghost use Rattle.sfc_control.specs.declared.entry.Entry.{Entry};
ghost use Rattle.sfc_control.specs.Books as books;
ghost use Rattle.sfc_control.specs.Holding.{first_in, held_number};
ghost use Rattle.sfc_control.specs.LegalHistory.{IsLegal};
ghost use Rattle.sfc_control.specs.Saved.{IsSavedAfter};
ghost use Rattle.sfc_control.specs.Seats.{AreFresh};
ghost use Rattle.sfc_control.specs.Tails.{taken, capacity};

use crate::bells::Bells;
use crate::book::Book;
use crate::given::Given;
use crate::locked::Locked;
use crate::opened_with::OpenedWith;
use crate::seat::Seat;
use crate::tail::Tail;
use sfc_debug::debugger::Debugger;
use sfc_debug::opening::DebugOpening;
use std::alloc::{AllocError, Global};
use std::sync::ledger::{Blank, Ledger, Share};
use std::sync::{Mutex, Wait, ledger};

/// A book under a lock, which the seats that it handed out share.
#[derive(Drop)]
pub struct Controller<L: OpenedWith> {
    pub(crate) locked: Mutex<Locked<L>>,
    pub(crate) bells: Bells,
}

// The book under a ledger that has counted nothing.
fn locked<L: OpenedWith>(book: Book, total: ledger::Book<L>) -> Locked<L>
    requires empty { books.accepted book ≡ [] }
    requires total { total.total ≡ 0 }
    requires plant { books.plant book ≡ L.plant }
    requires table { books.table book ≡ L.table }
    requires mask { books.mask book ≡ L.mask }
    requires limit { books.limit book ≡ L.limit }
{
    Locked { book, total }
}

// The seats 0, 1, .. of a share that has one part for each.
fn seats_of<L: Ledger>(alloc: Global, all: Share<L>, count: u8) -> Result<Vec<Seat<L>>, AllocError>
    requires parts { all.parts ≡ count }
    requires amount { all.amount ≡ 0 }
    requires few { count ≤ 24 }
    ensures { IfOk result (λ seats. AreFresh count seats.items) }
{
    let mut rest = all;
    let mut seats = Vec::with_capacity(alloc, count as usize)?;
    for number in 0..count {
        let share = rest.split_off(1, 0);
        seats.push(Seat {
            number,
            calls: 0,
            last: None,
            first: 0,
            given: Given::new(),
            share,
        })?;
    }
    Ok(seats)
}

impl<L: OpenedWith> Controller<L> {
    /// A controller over a debugger that has accepted nothing, with its seats, from 1 to 24, and the end of its feed that takes rows.
    /// So many entries may be held, from 1 to 1,048,576; the feed has room for so many rows, from 1 to 65,536. The one error is that
    /// memory was refused, and then the debugger is given up.
    pub fn open(
        alloc: Global,
        blank: Blank,
        debugger: Debugger,
        seats: u8,
        max_events: usize,
        feed_capacity: usize,
    ) -> Result<(Controller<L>, Vec<Seat<L>>, Tail), AllocError>
        requires name { blank.name ≡ L.name }
        requires parts { blank.parts ≡ L.parts }
        requires one_each { blank.parts ≡ seats }
        requires some { 0 < seats }
        requires few { seats ≤ 24 }
        requires plant { plant_of debugger ≡ L.plant }
        requires table { table_of debugger ≡ L.table }
        requires mask { mask_of debugger ≡ L.mask }
        requires limit { max_events ≡ L.limit }
        requires untold { Agrees debugger [] }
        ensures seats { IfOk result (λ made. AreFresh seats made.1.items) }
        ensures taken { IfOk result (λ made. taken made.2 ≡ []) }
        ensures capacity { IfOk result (λ made. capacity made.2 ≡ feed_capacity) }
    {
        let bells = Bells::new(alloc, debugger.resource().plant().tasks(), debugger.mask())?;
        let (mut book, tail) = Book::new(alloc, debugger, feed_capacity)?;
        book.reserve_events(max_events)?;
        let (total, all) = blank.open::<L>();
        let seats = seats_of(alloc, all, seats)?;
        let controller = Controller {
            locked: Mutex::new(locked(book, total)),
            bells,
        };
        Ok((controller, seats, tail))
    }

    /// What wakes those who wait for the book: a bell for each task, and one for who takes rows of its feed.
    pub fn bells(&self) -> &Bells {
        &self.bells
    }

    /// How many entries are held: those since the latest epoch. It waits for the lock.
    pub fn held<R: Wait>(&self, rt: &R) -> usize
        ensures { (es : List Entry) × IsLegal L.plant L.table es × (result ≡ held_number (first_in es) (length es)) }
    {
        let locked = self.locked.lock(rt);
        locked.book.entries().len()
    }

    /// Puts into the opening what all commands leave for later ones that were accepted so far; how many they are. It waits for the lock, and
    /// takes no memory.
    pub fn save<R: Wait>(&self, rt: &R, opening: &mut DebugOpening) -> u64
        requires { IsOpeningFor L.plant opening.old }
        ensures sizes { IsOpeningFor L.plant opening.new }
        ensures saved { (es : List Entry) × IsSavedAfter L.plant L.table opening.new result es }
    {
        let locked = self.locked.lock(rt);
        locked.book.save(opening)
    }
}
