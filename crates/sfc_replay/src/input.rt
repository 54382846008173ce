//! Reading a device to its end.

ghost use Rattle.std.specs.Prelude.{IfOk, IfErr, OnErr};
ghost use Rattle.sfc_replay.specs.Working.Faults.{IsInputFault};
ghost use Rattle.sfc_replay.specs.Reading.{TakesAtMost, LosesAtMost};

use crate::replay_error::ReplayError;
use std::alloc::Global;
use std::io::Read;

/// One byte more than the longest text and the longest script have.
pub const MOST: usize = 1_048_577;

/// How many bytes are asked for at a time.
const PIECE: usize = 4096;

/// The bytes that a reader gives up to its end, but at most 1,048,577: these are taken from it, and no more. A read
/// that gives no byte is the end.
///
/// `Read` is answered where the reader failed, `Memory` where memory was refused; then at most as many were taken.
pub fn read_to_end<R: Read>(alloc: Global, reader: &mut R) -> Result<Vec<u8>, ReplayError>
    ensures faults { IfErr result IsInputFault }
    ensures taken { IfOk result (λ bytes. TakesAtMost 1048577 (R.remaining reader.old, R.remaining reader.new) bytes.items) }
    ensures lost { OnErr result (LosesAtMost 1048577 (R.remaining reader.old, R.remaining reader.new)) }
{
    let mut bytes = Vec::new(alloc);
    let mut buffer = [0u8; PIECE];
    'all: while bytes.len() < MOST {
        let wanted = PIECE.min(MOST - bytes.len());
        let piece = &mut buffer[..wanted];
        let Ok(count) = reader.read(piece) else {
            return Err(ReplayError::Read);
        };
        if count == 0 {
            break;
        }
        bytes.extend_from_slice(&piece[..count])?;
    }
    Ok(bytes)
}
