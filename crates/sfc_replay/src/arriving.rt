//! Lines as they come from a reader.

ghost use Rattle.std.specs.Prelude.{◌≡◌, ◌++◌, ◌-◌, ◌<◌, ◌≤◌, [], ℕ, List, None, Some, MatchOption, IfOk, IfErr, IfSome, OnErr, drop, length};
ghost use Rattle.std.specs.Io.KnownBytes.{Consumes, IsAtEnd};
ghost use Rattle.sfc_script.specs.Arriving as arriving;
ghost use Rattle.sfc_replay.specs.Reading.{LosesFor};
ghost use Rattle.sfc_replay.specs.Working.Faults.{IsInputFault};

use crate::replay_error::ReplayError;
use sfc_script::arriving::ended_line;
use std::alloc::Global;
use std::io::Read;
use std::marker::Model;

/// How many bytes are asked for at a time.
const PIECE: usize = 4096;

/// What has come of lines and waits: bytes, of which the last line may have no end yet.
#[derive(Drop)]
pub struct ArrivingLines {
    bytes: Vec<u8>,
    // How many of these wait no longer.
    begin: usize,
}

impl Model for ArrivingLines {
    ghost use Rattle.std.specs.Prelude.{◌≤◌, ℕ, List, drop, length};

    ghost Value = { List ℕ };

    ghost view = { λ lines. drop lines.begin lines.bytes.items };

    ghost invariant = { λ lines. lines.begin ≤ length lines.bytes.items };
}

impl ArrivingLines {
    /// Nothing waits.
    pub fn new(alloc: Global) -> ArrivingLines
        ensures { result ≡ [] }
    {
        ArrivingLines {
            bytes: Vec::new(alloc),
            begin: 0,
        }
    }

    /// What waits.
    pub fn waiting(&self) -> &[u8]
        ensures { result.now ≡ self.now }
    {
        &self.bytes[self.begin..]
    }

    /// The first line that has its end, without it, and how many bytes wait behind that; None where no line has its end yet.
    #[tactic(auto, using(crate::proofs::Arrivals::behind_line))]
    pub fn first(&self) -> Option<(&[u8], usize)>
        ensures line { MatchOption result (arriving.ended_line self.now ≡ None)
            (λ r. arriving.ended_line self.now ≡ Some (r.0.now, drop (length self.now - r.1) self.now)) }
        ensures fewer { IfSome result (λ r. r.1 < length self.now) }
    {
        let (line, behind) = ended_line(self.waiting())?;
        Some((line, behind.len()))
    }

    /// So many bytes wait, the last ones.
    pub fn keep(&mut self, left: usize)
        requires { left ≤ length self.old }
        ensures { self.new ≡ drop (length self.old - left) self.old }
    {
        self.begin = self.bytes.len() - left;
    }

    // What waits stands at the front of the buffer.
    fn settle(&mut self)
        ensures { self.new ≡ self.old }
    {
        let left = self.bytes.len() - self.begin;
        self.bytes.copy_within(self.begin.., 0);
        self.bytes.truncate(left);
        self.begin = 0;
    }

    /// Takes a piece from the reader, of at most so many bytes, and 4,096: these wait behind the others. It answers how many they are; none
    /// at the end of the reader alone, or where none are wanted.
    ///
    /// `Read` is answered where the reader failed, and nothing was taken, `Memory` where memory was refused. What waits is the same then.
    pub fn take<R: Read>(&mut self, reader: &mut R, most: usize) -> Result<usize, ReplayError>
        ensures faults { IfErr result IsInputFault }
        ensures few { IfOk result (λ count. count ≤ most) }
        ensures taken { IfOk result (λ count. (piece : List ℕ) × (length piece ≡ count) × (self.new ≡ self.old ++ piece)
            × Consumes (R.remaining reader.old) (R.remaining reader.new) piece) }
        ensures ended { IfOk result (λ count. count ≡ 0 → 0 < most → IsAtEnd (R.remaining reader.new)) }
        ensures kept { OnErr result (self.new ≡ self.old) }
        ensures lost { IfErr result (λ error. LosesFor error most (R.remaining reader.old, R.remaining reader.new)) }
    {
        self.settle();
        let mut piece = [0u8; PIECE];
        let wanted = PIECE.min(most);
        let Ok(count) = reader.read(&mut piece[..wanted]) else {
            return Err(ReplayError::Read);
        };
        self.bytes.extend_from_slice(&piece[..count])?;
        Ok(count)
    }
}
