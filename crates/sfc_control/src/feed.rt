//! Where accepted commands are published.

ghost use Rattle.std.specs.Prelude.{◌≡◌};
ghost use Rattle.rtrb.specs.Ring.{sent, SameProducer};
ghost use Rattle.sfc_control.specs.Rows.{ComesAfter};
ghost use Rattle.sfc_control.specs.Publishing.{Publishes};

use crate::tail::Rising;
use rtrb::Producer;
use sfc_debug::trace_mask::TraceMask;
use sfc_events::command::TraceRow;
use std::alloc::Global;

/// Publishes the row, if its command's kind is wanted and a slot is free.
pub fn publish(feed: &mut Producer<TraceRow, Global, Rising>, mask: TraceMask, row: TraceRow)
    requires { ComesAfter (sent feed.old) row }
    ensures same { SameProducer feed.old feed.new }
    ensures row { Publishes mask row feed.old feed.new }
{
    if mask.wants(row.command) {
        let _ = feed.push(row);
    }
}
