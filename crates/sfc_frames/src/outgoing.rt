//! A message written as a frame.

ghost use Rattle.std.specs.Prelude.{◌≡◌, ◌<◌, ◌↔◌, ◌++◌, codes, length, IsErrOf};
ghost use Rattle.std.specs.Io.KnownBytes.{Keeps};
ghost use Rattle.sfc_base.specs.Writing.{Writes};
ghost use Rattle.sfc_frames.specs.Frames.{frame, length_field};

use crate::frame_fault::PutFault;
use crate::line::LONGEST;
use sfc_base::write_fault::{WriteFault, put_all};
use sfc_page::time_text::put_decimal;
use std::io::Write;

// Writes the field that says how many bytes a message has.
#[tactic(auto, using(sfc_base::proofs::Written::then_writes, sfc_base::proofs::Written::front_first))]
fn put_length<W: Write>(writer: &mut W, count: usize) -> Result<(), WriteFault>
    ensures { Writes (W.contents writer.old) (W.contents writer.new) result (length_field count) }
{
    put_all(writer, b"Content-Length: ")?;
    put_decimal(count as u64, writer)
}

// Writes the ends of two lines, and a message.
#[tactic(auto, using(sfc_base::proofs::Written::then_writes, sfc_base::proofs::Written::front_first))]
fn put_body<W: Write>(writer: &mut W, message: &[u8]) -> Result<(), WriteFault>
    ensures { Writes (W.contents writer.old) (W.contents writer.new) result (codes "\r\n\r\n" ++ message.now) }
{
    put_all(writer, b"\r\n\r\n")?;
    put_all(writer, message)
}

// Writes a frame.
#[tactic(auto, unfolding(crate::specs::Frames::frame), using(sfc_base::proofs::Written::then_writes, sfc_base::proofs::Written::front_first))]
fn put_frame<W: Write>(writer: &mut W, message: &[u8]) -> Result<(), WriteFault>
    ensures { Writes (W.contents writer.old) (W.contents writer.new) result (frame message.now) }
{
    put_length(writer, message.len())?;
    put_body(writer, message)
}

// Has the writer pass on what it holds.
fn flush<W: Write>(writer: &mut W) -> Result<(), WriteFault>
    ensures { Keeps (W.contents writer.old) (W.contents writer.new) }
{
    match writer.flush() {
        Ok(()) => Ok(()),
        Err(_) => Err(WriteFault),
    }
}

/// Writes a message as a frame, and has the writer pass it on. It takes no memory. After a fault of the writer a front of the
/// frame was written, and nothing of a message that is too long.
pub fn put_message<W: Write>(writer: &mut W, message: &[u8]) -> Result<(), PutFault>
    ensures frame { Writes (W.contents writer.old) (W.contents writer.new) result (frame message.now) }
    ensures too_long { IsErrOf result PutFault.TooLong ↔ (16777216 < length message.now) }
    ensures nothing { IsErrOf result PutFault.TooLong → Keeps (W.contents writer.old) (W.contents writer.new) }
{
    if message.len() as u64 > LONGEST {
        return Err(PutFault::TooLong);
    }
    put_frame(writer, message)?;
    flush(writer)?;
    Ok(())
}
