//! The end of a feed.

ghost use Rattle.std.specs.Prelude.{◌≡◌, ◌<◌, ◌∷◌, [], ◌++◌, length};
ghost use mathlib.Core.List.{IsPrefix};
ghost use Rattle.sfc_control.specs.Rows.{ComesAfter};
ghost use Rattle.sfc_control.specs.Tails.{taken, coming, SameTail};
ghost use Rattle.sfc_run.specs.Draining.{IfRow, IfNothing};

use sfc_control::bells::Bells;
use sfc_control::tail::Tail;
use sfc_events::command::TraceRow;

/// The word that no more rows come. Only the bells give it.
#[derive(Clone, Copy)]
pub struct RowsEnded {
    told: bool,
}

impl RowsEnded {
    /// The word, where it was told.
    pub fn of(bells: &Bells) -> Option<RowsEnded> {
        let told = bells.are_rows_ended();
        if told { Some(RowsEnded { told }) } else { None }
    }
}

/// What a feed leaves in which nothing was found by a look that began behind the word that no more rows come: all of them were taken.
/// Only such a look gives it.
#[derive(Clone, Copy)]
pub struct Drained {
    ended: RowsEnded,
}

/// What a look into a feed finds.
#[derive(Clone, Copy)]
pub enum Found {
    /// A row.
    Row(TraceRow),
    /// Nothing; where the word was known before the look, no more rows come.
    Nothing(Option<Drained>),
}

/// Takes the next row that was published, if there is one, from a feed of which the word is known or not.
pub fn look(tail: &mut Tail, ended: Option<RowsEnded>) -> Found
    ensures same { SameTail tail.old tail.new }
    ensures row { IfRow result (λ row. (taken tail.new ≡ taken tail.old ++ row ∷ []) × ComesAfter (taken tail.old) row) }
    ensures coming { IfRow result (λ row. IsPrefix (coming tail.old) (row ∷ coming tail.new)) }
    ensures next { IfNothing result (0 < length (coming tail.old) → ⊥) }
    ensures none { IfNothing result (taken tail.new ≡ taken tail.old) }
    ensures rest { IfNothing result (coming tail.new ≡ []) }
{
    match (tail.take(), ended) {
        (Some(row), _) => Found::Row(row),
        (None, Some(ended)) => Found::Nothing(Some(Drained { ended })),
        (None, None) => Found::Nothing(None),
    }
}
