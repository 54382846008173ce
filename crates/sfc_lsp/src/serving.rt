//! A client of the Language Server Protocol, from its first message to its last.

ghost use Rattle.std.specs.Prelude.{OnOk};
ghost use Rattle.sfc_lsp.specs.Serving.{ServesEach};

use crate::server::{LspServer, Phase, Serving};
use crate::shelf::Shelf;
use sfc_wire::rpc_server::{RpcClient, RpcServer};
use sfc_wire::sfc_frames::incoming::Incoming;
use sfc_wire::sfc_frames::serving::{ServeFault, serve};
use std::alloc::Global;
use std::io::{Read, Write};

// The exit status of a client that has come so far.
fn status_of(phase: Phase) -> u8 {
    match phase {
        Phase::ShutDown => 0,
        Phase::New | Phase::Ready => 1,
    }
}

// Serves a client by this server until it leaves, or its stream comes to its end.
fn serve_client<C: RpcServer + Drop, R: Read, W: Write>(
    alloc: Global,
    server: C,
    reader: &mut R,
    writer: &mut W,
) -> Result<(), ServeFault>
    ensures { OnOk result (ServesEach (R.remaining reader.old) (R.remaining reader.new) (W.contents writer.old) (W.contents writer.new)) }
{
    let mut incoming = Incoming::new(alloc);
    let mut client = RpcClient::new(alloc, server);
    serve(alloc, &mut client, &mut incoming, reader, writer)?;
    Ok(())
}

/// Serves a client until it leaves, or its stream comes to its end; each of its requests has its one response. The exit status is 0 where it
/// has asked for `shutdown` before, and else 1. After a fault all that there was to tell before was written, and a front of what there was
/// to tell last.
pub fn serve_lsp<S: Shelf, R: Read, W: Write>(
    alloc: Global,
    shelf: &mut S,
    reader: &mut R,
    writer: &mut W,
) -> Result<u8, ServeFault>
    ensures { OnOk result (ServesEach (R.remaining reader.old) (R.remaining reader.new) (W.contents writer.old) (W.contents writer.new)) }
{
    let mut server = LspServer::new(alloc, shelf);
    let serving = Serving {
        server: &mut server,
    };
    serve_client(alloc, serving, reader, writer)?;
    Ok(status_of(server.phase()))
}
