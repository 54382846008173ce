//! Files of tests, read to their end.

ghost use Rattle.std.specs.Prelude.{IfErr, IfOk, OnErr};
ghost use Rattle.sfc_replay.specs.Reading.{LosesAtMost, TakesAtMost};
ghost use Rattle.sfc_replay.specs.Working.Faults.{IsInputFault};

use sfc_replay::replay_error::ReplayError;
use std::alloc::Global;
use std::io::Read;

/// One byte more than the longest file of tests has.
const MOST: usize = 67_108_865;

/// How many bytes are asked for at a time.
const PIECE: usize = 65_536;

/// The bytes that a reader gives up to its end, but at most 67,108,865: these are taken from it, and no more. A read that gives no byte is
/// the end. `Read` is answered where the reader failed, `Memory` where memory was refused; then at most as many were taken.
pub fn read_tests_to_end<R: Read>(alloc: Global, reader: &mut R) -> Result<Vec<u8>, ReplayError>
    ensures faults { IfErr result IsInputFault }
    ensures taken { IfOk result (λ bytes. TakesAtMost 67108865 (R.remaining reader.old, R.remaining reader.new) bytes.items) }
    ensures lost { OnErr result (LosesAtMost 67108865 (R.remaining reader.old, R.remaining reader.new)) }
{
    let mut bytes = Vec::new(alloc);
    let mut buffer = [0u8; PIECE];
    'all: while bytes.len() < MOST {
        let wanted = PIECE.min(MOST - bytes.len());
        let piece = &mut buffer[..wanted];
        let Ok(count) = reader.read(piece) else {
            return Err(ReplayError::Read);
        };
        if count == 0 {
            break;
        }
        bytes.extend_from_slice(&piece[..count])?;
    }
    Ok(bytes)
}
