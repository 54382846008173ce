//! The messages of a reader.

ghost use Rattle.std.specs.Prelude.{◌≡◌, ◌≢◌, [], ℕ, List, false, IsErrOf, IfErr, IfOk, OnErr};
ghost use Rattle.std.specs.Io.KnownBytes.{IsAtEnd, Keeps, prepend_known};
ghost use Rattle.sfc_frames.specs.Private.Cutting.{Cuts, IsOutside};
ghost use Rattle.sfc_frames.specs.Streams.{Shows, Takes};

use crate::cut::{Cut, first};
use crate::frame_fault::FrameFault;
use std::alloc::Global;
use std::io::Read;
use std::marker::Model;

/// How many bytes are asked for at a time.
const PIECE: usize = 4096;

// Takes a piece of the reader, behind what is held; whether there was one.
fn fill<R: Read>(reader: &mut R, held: &mut Vec<u8>) -> Result<bool, FrameFault>
    ensures stream { Keeps (prepend_known held.old.items (R.remaining reader.old)) (prepend_known held.new.items (R.remaining reader.new)) }
    ensures end { result ≡ Ok false → IsAtEnd (R.remaining reader.new) }
    ensures none { result ≡ Ok false → held.new.items ≡ held.old.items }
    ensures fault { IfErr result IsOutside }
{
    held.reserve(PIECE)?;
    let mut piece = [0u8; PIECE];
    let Ok(count) = reader.read(&mut piece) else {
        return Err(FrameFault::Read);
    };
    held.extend_from_slice(&piece[..count]).unwrap();
    Ok(count > 0)
}

// Takes the first message off what is held, if it is whole.
fn cut(alloc: Global, held: &mut Vec<u8>) -> Result<Option<Vec<u8>>, FrameFault>
    ensures { Cuts held.old.items held.new.items result }
{
    let (message, rest) = match first(held) {
        Cut::Whole(message, rest) => (
            Vec::from_slice(alloc, message)?,
            Vec::from_slice(alloc, rest)?,
        ),
        Cut::Short => return Ok(None),
        Cut::Wrong(why) => return Err(FrameFault::Malformed(why)),
    };
    *held = rest;
    Ok(Some(message))
}

// What there is where no more comes: nothing, or the fault that some bytes of a frame are held.
fn ended(held: &[u8]) -> Result<Option<Vec<u8>>, FrameFault>
    ensures nothing { IfOk result (λ found. (found ≡ None) × (held.now ≡ [])) }
    ensures within { IfErr result (λ fault. (fault ≡ FrameFault.EndsWithin) × (held.now ≢ [])) }
{
    match held {
        [] => Ok(None),
        [_, ..] => Err(FrameFault::EndsWithin),
    }
}

// The next message of a reader, of which some bytes are held.
fn next_of<R: Read>(
    alloc: Global,
    reader: &mut R,
    held: &mut Vec<u8>,
) -> Result<Option<Vec<u8>>, FrameFault>
    ensures message { IfOk result (Takes (prepend_known held.old.items (R.remaining reader.old)) (prepend_known held.new.items (R.remaining reader.new))) }
    ensures fault { IfErr result (Shows held.new.items) }
    ensures nothing { result ≡ Ok None → (held.new.items ≡ []) × IsAtEnd (R.remaining reader.new) }
    ensures end { IsErrOf result FrameFault.EndsWithin → IsAtEnd (R.remaining reader.new) }
    ensures kept { OnErr result (Keeps (prepend_known held.old.items (R.remaining reader.old)) (prepend_known held.new.items (R.remaining reader.new))) }
{
    'pieces: for _ in 0..u64::MAX {
        if let Some(message) = cut(alloc, held)? {
            return Ok(Some(message));
        }
        if !fill(reader, held)? {
            return ended(held);
        }
    }
    Err(FrameFault::Read)
}

/// What was read of a stream and is no message yet.
#[derive(Drop)]
pub struct Incoming {
    alloc: Global,
    held: Vec<u8>,
}

impl Model for Incoming {
    ghost Value = { List ℕ };

    ghost view = { λ incoming. incoming.held.items };
}

impl Incoming {
    /// Nothing was read yet.
    pub fn new(alloc: Global) -> Incoming
        ensures { result ≡ [] }
    {
        Incoming {
            alloc,
            held: Vec::new(alloc),
        }
    }

    /// The next message of the stream, of which some bytes are held and the reader gives the others, in any pieces; None
    /// where the stream has come to its end.
    ///
    /// `Malformed` is answered where no frame begins as the stream does, `EndsWithin` where the reader gives no more and some
    /// bytes are held, `Read` where it failed, `Memory` where memory was refused. After each of them the stream is as it was.
    pub fn next_message<R: Read>(&mut self, reader: &mut R) -> Result<Option<Vec<u8>>, FrameFault>
        ensures message { IfOk result (Takes (prepend_known self.old (R.remaining reader.old)) (prepend_known self.new (R.remaining reader.new))) }
        ensures fault { IfErr result (Shows self.new) }
        ensures nothing { result ≡ Ok None → (self.new ≡ []) × IsAtEnd (R.remaining reader.new) }
        ensures end { IsErrOf result FrameFault.EndsWithin → IsAtEnd (R.remaining reader.new) }
        ensures kept { OnErr result (Keeps (prepend_known self.old (R.remaining reader.old)) (prepend_known self.new (R.remaining reader.new))) }
    {
        next_of(self.alloc, reader, &mut self.held)
    }
}
