//! What lies under the lock.

ghost use Rattle.std.specs.Prelude.{◌≡◌, length};
ghost use Rattle.std.proofs.Props.{props};
ghost use Rattle.sfc_control.specs.Private.Sets.{plant_set, table_set};
ghost use Rattle.sfc_control.specs.Books.{accepted, first, limit, plant, table, mask};
ghost use Rattle.sfc_control.specs.Holding.{first_in};

use crate::book::Book;
use crate::opened_with::OpenedWith;
use std::sync::ledger;

/// The book, with the total of the ledger: as many entries were accepted as all seats together have counted.
#[derive(Drop)]
pub struct Locked<L: OpenedWith> {
    pub(crate) book: Book,
    pub(crate) total: ledger::Book<L>,
    pub ghost plant: { plant book ≡ L.plant } by { plant_set (plant book) L.plant },
    pub ghost table: { table book ≡ L.table } by { table_set (table book) L.table },
    pub ghost mask: { mask book ≡ L.mask } by { Prim.hlevel props },
    pub ghost limit: { limit book ≡ L.limit },
    pub ghost cut: { first book ≡ first_in (accepted book) },
    pub ghost counted: { length (accepted book) ≡ total.total },
}
