//! A client, from its first request to its last.

ghost use Rattle.std.specs.Prelude.{OnOk};
ghost use Rattle.sfc_replies.specs.Serving.{ServesEach};

use crate::adapter::Adapter;
use crate::desk::Desk;
use sfc_frames::serving::ServeFault;
use sfc_replies::serving::serve_requests;
use std::alloc::Global;
use std::io::{Read, Write};

/// Serves a client of the Debug Adapter Protocol until it has left: by `disconnect`, or at the end of its stream. Each request has its one
/// response, first, as it comes. The errors are those of `serve_requests`; after one all that there was to tell before was written, and a
/// front of what there was to tell last.
pub fn serve_dap<D: Desk + Drop, R: Read, W: Write>(
    alloc: Global,
    desk: D,
    reader: &mut R,
    writer: &mut W,
) -> Result<(), ServeFault>
    ensures { OnOk result (ServesEach (R.remaining reader.old) (R.remaining reader.new) (W.contents writer.old) (W.contents writer.new)) }
{
    serve_requests(alloc, Adapter::new(alloc, desk), reader, writer)
}
