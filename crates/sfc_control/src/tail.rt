//! The end of the feed that takes rows.

ghost use Rattle.std.specs.Prelude.{◌≡◌, ◌∷◌, [], ◌++◌, IfSome, IfNone};
ghost use Rattle.std.proofs.Props.{props};
ghost use Rattle.rtrb.specs.Ring.{received};
ghost use Rattle.sfc_control.specs.Rows.{ComesAfter, Rise};

use rtrb::{Consumer, Protocol};
use sfc_events::command::TraceRow;
use std::alloc::Global;

/// Each row has a higher number than the rows before it.
#[derive(Clone, Copy)]
pub struct Rising;

impl Protocol<TraceRow> for Rising {
    ghost allows = { ComesAfter };
}

/// The end of a book's feed that takes rows. It may go to another thread; it waits for nobody.
#[derive(Drop)]
pub struct Tail {
    pub(crate) feed: Consumer<TraceRow, Global, Rising>,
    pub ghost rising: { Rise (received feed) } by { Prim.hlevel props },
}

impl Tail {
    ghost use Rattle.std.specs.Prelude.{◌<◌, length, IsSome};
    ghost use mathlib.Core.List.{IsPrefix};
    ghost use Rattle.sfc_control.specs.Tails.{taken, coming, SameTail};

    /// The next row that was published, if there is one.
    pub fn take(&mut self) -> Option<TraceRow>
        ensures same { SameTail self.old self.new }
        ensures row { IfSome result (λ row. (taken self.new ≡ taken self.old ++ row ∷ []) × ComesAfter (taken self.old) row) }
        ensures coming { IfSome result (λ row. IsPrefix (coming self.old) (row ∷ coming self.new)) }
        ensures next { 0 < length (coming self.old) → IsSome result }
        ensures none { IfNone result (taken self.new ≡ taken self.old) }
        ensures rest { IfNone result (coming self.new ≡ []) }
    {
        self.feed.pop().ok()
    }
}
