//! A few lines of a Value Change Dump (IEEE 1364-2001, 18.2).

ghost use Rattle.std.specs.Prelude.{◌<◌, ◌≤◌};

use sfc_page::append::append;
use sfc_page::digits::{NUMBER, put_number};
use std::alloc::AllocError;

/// The first character of codes of signals, and how many characters there are.
const FIRST: u8 = b'!';

const CHARACTERS: usize = 94;

/// How many characters a code has at the most: more than a number of 64 bits wants.
const LONGEST: usize = 10;

/// How many bits a number has at the most.
const BITS: u32 = 64;

/// How many bytes a piece has at the most, and with how many it is long: a mark and a change want less than what is between.
const ROOM: usize = 256;

const LONG: usize = 128;

/// How many bytes a text has at the most that stands in a piece.
pub const TEXT: usize = 32;

/// How many bytes a short line has at the most: a bit, a code of two characters, and the end.
const SHORT: usize = 4;

// A digit of a code.
fn character(digit: usize) -> u8 {
    let digit = (digit % CHARACTERS) as u8;
    FIRST + digit
}

// How many digits a number has: from the highest that is set, and one of 0.
fn digits_of(bits: u64) -> u32
    ensures least { 0 < result }
    ensures most { result ≤ 64 }
{
    (BITS - bits.leading_zeros()).max(1)
}

// The lowest bits of a number, so many as it has.
fn within(width: u32, bits: u64) -> u64 {
    if width < BITS {
        bits & ((1u64 << width) - 1)
    } else {
        bits
    }
}

/// Some lines that are put together. What would be beyond the room is left out: behind `is_long` nothing is put.
#[derive(Drop)]
pub struct Piece {
    bytes: [u8; ROOM],
    count: usize,
    ghost within: { count ≤ 256 },
}

impl Piece {
    /// Nothing.
    pub fn new() -> Piece {
        Piece {
            bytes: [0; ROOM],
            count: 0,
        }
    }

    /// Whether a mark and a change may have no room.
    pub fn is_long(&self) -> bool {
        self.count > ROOM - LONG
    }

    /// What was put.
    pub fn as_slice(&self) -> &[u8] {
        &self.bytes[..self.count]
    }

    /// Nothing again.
    pub fn clear(&mut self) {
        self.count = 0;
    }

    // One byte more.
    #[inline(always)]
    fn push(&mut self, byte: u8) {
        if self.count < ROOM {
            self.bytes[self.count] = byte;
            self.count += 1;
        }
    }

    // The code of a signal: its number by the printing characters, the lowest digit first.
    fn push_code(&mut self, number: usize) {
        let mut rest = number;
        for _ in 0..LONGEST {
            self.push(character(rest));
            rest /= CHARACTERS;
            if rest == 0 {
                break;
            }
        }
    }

    // A bit with the code of a signal that has one character or two, on a line.
    fn push_short(&mut self, number: usize, bit: u8) {
        let count = self.count;
        if count > ROOM - SHORT {
            return;
        }
        self.bytes[count] = bit;
        self.bytes[count + 1] = character(number);
        if number < CHARACTERS {
            self.bytes[count + 2] = b'\n';
            self.count = count + 3;
        } else {
            self.bytes[count + 2] = character(number / CHARACTERS);
            self.bytes[count + 3] = b'\n';
            self.count = count + SHORT;
        }
    }

    // The bits of a number from the highest that is set.
    fn push_bits(&mut self, width: u32, bits: u64) {
        let bits = within(width, bits);
        let digits = digits_of(bits);
        let mut rest = bits << (BITS - digits);
        let end = (self.count + digits as usize).min(ROOM);
        for place in self.count..end {
            self.bytes[place] = if rest >> 63 == 0 { b'0' } else { b'1' };
            rest <<= 1;
        }
        self.count = end;
    }

    /// What a signal of so many bits reads from now on, on a line.
    pub fn push_change(&mut self, number: usize, width: u32, bits: u64) {
        if width == 1 {
            self.push_bit(number, if bits == 0 { b'0' } else { b'1' });
        } else {
            self.push(b'b');
            self.push_bits(width, bits);
            self.push(b' ');
            self.push_code(number);
            self.push(b'\n');
        }
    }

    /// The text that a signal reads from now on, on a line. It has at most 32 bytes.
    pub fn push_text(&mut self, number: usize, text: &[u8]) {
        self.push(b's');
        for byte in text {
            self.push(*byte);
        }
        self.push(b' ');
        self.push_code(number);
        self.push(b'\n');
    }

    // What a signal of one bit reads.
    fn push_bit(&mut self, number: usize, bit: u8) {
        if number < CHARACTERS * CHARACTERS {
            self.push_short(number, bit);
        } else {
            self.push(bit);
            self.push_code(number);
            self.push(b'\n');
        }
    }

    // A number in decimal digits.
    fn push_number(&mut self, number: u64) {
        if self.count <= ROOM - NUMBER {
            self.count = put_number(&mut self.bytes, self.count, number);
        }
    }

    /// The mark of an instant, in microseconds.
    pub fn push_instant(&mut self, micros: i64) {
        self.push(b'#');
        self.push_number(micros.unsigned_abs());
        self.push(b'\n');
    }
}

/// Puts the code of a signal. The one error is that memory was refused; then a front of it may stand there.
pub fn append_code(out: &mut Vec<u8>, number: usize) -> Result<(), AllocError> {
    let mut piece = Piece::new();
    piece.push_code(number);
    append(out, piece.as_slice())
}

/// Puts the begin of a scope. The one error is that memory was refused; then a front of it may stand there.
pub fn append_scope(out: &mut Vec<u8>, name: &[u8]) -> Result<(), AllocError> {
    append(out, b"$scope module ")?;
    append(out, name)?;
    append(out, b" $end\n")
}
