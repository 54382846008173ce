//! The writer's fault, and writing that stops at it.

ghost use Rattle.std.specs.Prelude.{◌≡◌};
ghost use Rattle.sfc_base.specs.Writing.{Writes};

use std::io::Write;
use thiserror::Error;

/// The writer failed, or took no byte.
#[derive(Clone, Copy, Debug, PartialEq, Eq, Error)]
#[error("write fault")]
pub struct WriteFault;

/// Writes all the bytes. The one error is that a write failed or took none, at the first of which it stops: a front of the
/// bytes was then written.
pub fn put_all<W: Write>(writer: &mut W, bytes: &[u8]) -> Result<(), WriteFault>
    ensures { Writes (W.contents writer.old) (W.contents writer.new) result bytes.now }
{
    let mut rest = bytes;
    'all: while !rest.is_empty() {
        match writer.write(rest) {
            Ok(0) | Err(_) => return Err(WriteFault),
            Ok(count) => {
                let (_, unwritten) = rest.split_at(count);
                rest = unwritten;
            }
        }
    }
    Ok(())
}
