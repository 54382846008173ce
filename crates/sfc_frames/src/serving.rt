//! A client, from its first message to its last.

ghost use Rattle.std.specs.Prelude.{◌≡◌, [], Ok, IfErr, IfOk, List, ℕ};
ghost use Rattle.std.specs.Io.KnownBytes.{IsAtEnd, prepend_known};
ghost use Rattle.sfc_frames.specs.Private.Answers.{IsOfAnswer};
ghost use Rattle.sfc_frames.specs.Serving.{IsServed, IsTold, Puts, StopsBy};
ghost use Rattle.sfc_frames.specs.declared.serving.Flow.{Flow};

use crate::frame_fault::{FrameFault, PutFault};
use crate::incoming::Incoming;
use crate::outbox::Outbox;
use std::alloc::{AllocError, Global};
use std::io::{Read, Write};
use thiserror::Error;

/// Whether more messages of a client are taken.
#[derive(Clone, Copy, Debug, PartialEq, Eq)]
pub enum Flow {
    /// They are.
    GoesOn,
    /// The client has left.
    Ends,
}

/// Why a client was left. All that there was to tell before was written, and a front of what there was to tell last.
#[derive(Clone, Copy, Debug, PartialEq, Eq, Error)]
pub enum ServeFault {
    /// No message could be read.
    #[error(transparent)]
    Frame(FrameFault),
    /// A message could not be written.
    #[error(transparent)]
    Put(PutFault),
    /// Memory was refused to what answers.
    #[error("Memory was refused")]
    Memory,
}

impl From<AllocError> for ServeFault {
    ghost use Rattle.sfc_frames.specs.declared.serving.ServeFault.TheVariants.{Memory};

    ghost from_gives = { λ _ fault. fault ≡ Memory };

    fn from(_error: AllocError) -> ServeFault {
        ServeFault::Memory
    }
}

/// What answers a client.
pub trait Answering {
    // How it is before a message, the message, what is told of it, whether more are taken, and how it is then.
    ghost tells: { Self → List ℕ → List (List ℕ) → Flow → Self → Type 0 };

    /// Takes a message, and puts what there is to tell of it at the end of the outbox. The one error is that memory was
    /// refused.
    fn answer(&mut self, message: &[u8], outbox: &mut Outbox) -> Result<Flow, AllocError>
        ensures { IfOk result (λ flow. Puts outbox.old outbox.new (λ told. tells self.old message.now told flow self.new)) };
}

impl From<FrameFault> for ServeFault {
    ghost use Rattle.sfc_frames.specs.declared.serving.ServeFault.TheVariants.{Frame};

    ghost from_gives = { λ fault given. given ≡ Frame fault };

    fn from(fault: FrameFault) -> ServeFault {
        ServeFault::Frame(fault)
    }
}

impl From<PutFault> for ServeFault {
    ghost use Rattle.sfc_frames.specs.declared.serving.ServeFault.TheVariants.{Put};

    ghost from_gives = { λ fault given. given ≡ Put fault };

    fn from(fault: PutFault) -> ServeFault {
        ServeFault::Put(fault)
    }
}

// Answers a message, and writes what there is to tell of it.
fn answer<A: Answering, W: Write>(
    alloc: Global,
    answering: &mut A,
    writer: &mut W,
    message: &[u8],
) -> Result<Flow, ServeFault>
    ensures told { IfOk result (λ flow. IsTold (W.contents writer.old) (W.contents writer.new) (λ told. A.tells answering.old message.now told flow answering.new)) }
    ensures fault { IfErr result IsOfAnswer }
{
    let mut outbox = Outbox::new(alloc);
    let flow = answering.answer(message, &mut outbox)?;
    outbox.send(writer)?;
    Ok(flow)
}

/// Answers each message of a client as it comes, and writes what there is to tell of it before the next one is taken; until the
/// client has left (`Ends`), or its stream has come to its end (`GoesOn`). Some of its bytes may be held already.
pub fn serve<A: Answering, R: Read, W: Write>(
    alloc: Global,
    answering: &mut A,
    incoming: &mut Incoming,
    reader: &mut R,
    writer: &mut W,
) -> Result<Flow, ServeFault>
    ensures served { IfOk result (λ flow. IsServed A.tells
        (prepend_known incoming.old (R.remaining reader.old)) (prepend_known incoming.new (R.remaining reader.new))
        (W.contents writer.old) (W.contents writer.new) answering.old flow answering.new) }
    ensures end { result ≡ Ok Flow.GoesOn → (incoming.new ≡ []) × IsAtEnd (R.remaining reader.new) }
    ensures fault { IfErr result (StopsBy incoming.new) }
{
    'messages: for _ in 0..u64::MAX {
        let Some(message) = incoming.next_message(reader)? else {
            return Ok(Flow::GoesOn);
        };
        match answer(alloc, answering, writer, &message)? {
            Flow::GoesOn => {}
            Flow::Ends => return Ok(Flow::Ends),
        }
    }
    Err(ServeFault::Frame(FrameFault::Read))
}
