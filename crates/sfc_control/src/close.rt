//! The end of a controller: whether the history, the receipts and the seats agree.

ghost use Rattle.std.specs.Prelude.{◌≡◌, ◌<◌, ℕ, All, length, MatchOption, IfOk, IfErr};
ghost use Rattle.sfc_control.specs.Receipts.{Stands};
ghost use Rattle.sfc_control.specs.Books as books;
ghost use Rattle.sfc_control.specs.Books.{accepted};
ghost use Rattle.sfc_control.specs.Closing.{IsFirstNot, CountsRight, AllRight, IsFirstMiscounted, IsFirstWrong, all_calls};

use crate::book::Book;
use crate::controller::Controller;
use crate::locked::Locked;
use crate::opened_with::OpenedWith;
use crate::receipt::Receipt;
use crate::seat::Seat;
use std::sync::ledger;
use std::sync::ledger::Ledger;

/// History, receipts and seats do not agree: the first receipt that does not stand, by its seat and index, or else with index 0
/// the first seat whose count is not the number of entries under its number.
#[derive(Drop)]
pub struct CloseError {
    /// The number of the seat.
    pub seat: u8,
    /// The receipt's index.
    pub index: u64,
    /// The book.
    pub book: Book,
}

// The first receipt that does not stand.
fn first_fallen(book: &Book, receipts: &[Receipt]) -> Option<Receipt>
    ensures { MatchOption result (All (Stands (accepted book.now)) receipts.now)
        (λ receipt. (k : ℕ) × IsFirstNot (Stands (accepted book.now)) receipts.now k receipt) }
{
    for receipt in receipts {
        if !book.stands(receipt) {
            return Some(*receipt);
        }
    }
    None
}

// The number of the first seat whose count is wrong.
fn first_miscounted<L: Ledger>(book: &Book, seats: &[Seat<L>]) -> Option<u8>
    ensures { MatchOption result (All (CountsRight (accepted book.now)) seats.now) (IsFirstMiscounted (accepted book.now) seats.now) }
{
    for seat in seats {
        if book.calls(seat.number) != seat.calls {
            return Some(seat.number);
        }
    }
    None
}

// Puts all shares together: the total is the sum of the seats' counts.
fn settle<L: Ledger>(total: &mut ledger::Book<L>, seats: Vec<Seat<L>>)
    requires some { 0 < length seats.items }
    requires all { length seats.items ≡ L.parts }
    ensures sum { total.old.total ≡ all_calls seats.items }
    ensures same { total.new.total ≡ total.old.total }
{
    let mut seats = seats;
    let Some(last) = seats.pop() else {
        unreachable!()
    };
    let Seat {
        number: _,
        calls: _,
        last: _,
        first: _,
        given: _,
        share: mut all,
    } = last;
    while let Some(seat) = seats.pop() {
        let Seat {
            number: _,
            calls: _,
            last: _,
            first: _,
            given: _,
            share,
        } = seat;
        all.merge(share);
    }
    total.audit(&mut all);
}

impl<L: OpenedWith> Controller<L> {
    /// Gives the book back where each of the receipts stands in it and each seat's count is the number of entries under its number,
    /// dropped ones among them; else says what is wrong first, and gives the book back too. All seats are handed back. Controller and
    /// seats are given up.
    pub fn close(self, seats: Vec<Seat<L>>, receipts: Vec<Receipt>) -> Result<Book, CloseError>
        requires some { 0 < length seats.items }
        requires all { length seats.items ≡ L.parts }
        ensures plant { IfOk result (λ book. books.plant book ≡ L.plant) }
        ensures table { IfOk result (λ book. books.table book ≡ L.table) }
        ensures mask { IfOk result (λ book. books.mask book ≡ L.mask) }
        ensures limit { IfOk result (λ book. books.limit book ≡ L.limit) }
        ensures ok { IfOk result (λ book. AllRight (accepted book) seats.items receipts.items) }
        ensures err { IfErr result (λ wrong. IsFirstWrong (accepted wrong.book) seats.items receipts.items wrong.seat wrong.index) }
        ensures sum_ok { IfOk result (λ book. length (accepted book) ≡ all_calls seats.items) }
        ensures sum_err { IfErr result (λ wrong. length (accepted wrong.book) ≡ all_calls seats.items) }
    {
        let Controller { locked, bells: _ } = self;
        let Locked { book, mut total } = locked.into_inner();
        let fallen = first_fallen(&book, &receipts);
        let miscounted = first_miscounted(&book, &seats);
        settle(&mut total, seats);
        if let Some(receipt) = fallen {
            return Err(CloseError {
                seat: receipt.seat,
                index: receipt.index,
                book,
            });
        }
        match miscounted {
            Some(seat) => Err(CloseError {
                seat,
                index: 0,
                book,
            }),
            None => Ok(book),
        }
    }
}
