//! A client of the Debug Adapter Protocol, from its first request to its last.

ghost use Rattle.std.specs.Prelude.{OnOk};
ghost use Rattle.sfc_replies.specs.Serving.{ServesEach};

use sfc_frames::incoming::Incoming;
use sfc_frames::serving::{ServeFault, serve};
use sfc_wire::dap_server::{DapClient, DapServer};
use std::alloc::Global;
use std::io::{Read, Write};

/// Serves a client by this server until it has left, or its stream comes to its end; each of its requests has its one response, first. After a
/// fault all that there was to tell before was written, and a front of what there was to tell last.
pub fn serve_requests<S: DapServer + Drop, R: Read, W: Write>(
    alloc: Global,
    server: S,
    reader: &mut R,
    writer: &mut W,
) -> Result<(), ServeFault>
    ensures { OnOk result (ServesEach (R.remaining reader.old) (R.remaining reader.new) (W.contents writer.old) (W.contents writer.new)) }
{
    let mut incoming = Incoming::new(alloc);
    let mut client = DapClient::new(alloc, server);
    serve(alloc, &mut client, &mut incoming, reader, writer)?;
    Ok(())
}
