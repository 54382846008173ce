//! Where a variable lies: directly represented variables (2.4.1.1).

use crate::items::Items;
use std::alloc::{AllocError, Global};
use std::marker::Model;

/// The part of the address space: `I` input, `Q` output, `M` memory.
#[derive(Clone, Copy, Debug, PartialEq, Eq)]
pub enum Area {
    Input,
    Output,
    Memory,
}

/// How much a location holds: `X` (or no letter) a bit, `B` 8 bits, `W` 16, `D` 32, `L` 64.
#[derive(Clone, Copy, Debug, PartialEq, Eq)]
pub enum Size {
    Bit,
    Byte,
    Word,
    DoubleWord,
    LongWord,
}

/// A location such as `%IX0.1`: an area, a size, and from one to eight numbers. Contracts see the record of the three.
#[derive(Debug, Drop)]
pub struct Location {
    area: Area,
    size: Size,
    numbers: Items<u32>,
}

impl Model for Location {
    ghost use Rattle.std.specs.Prelude.{length};
    ghost use Rattle.sfc_base.specs.Locations.{LocationData, AreNumbers};

    ghost Value = { LocationData };

    ghost view = { λ l. record { area = l.area; size = l.size; numbers = l.numbers } };

    ghost invariant = { λ l. AreNumbers l.numbers };
}

ghost use Rattle.std.specs.Prelude.{◌≡◌, IfOk};
ghost use Rattle.sfc_base.specs.Locations.{AreNumbers};

impl Location {
    /// The location of these three; there are from one to eight numbers.
    pub fn new(area: Area, size: Size, numbers: Items<u32>) -> Location
        requires { AreNumbers numbers }
        ensures { result ≡ record { area = area; size = size; numbers = numbers } }
    {
        Location {
            area,
            size,
            numbers,
        }
    }

    /// The part of the address space.
    pub fn area(&self) -> Area
        ensures { result ≡ self.now.area }
    {
        self.area
    }

    /// How much it holds.
    pub fn size(&self) -> Size
        ensures { result ≡ self.now.size }
    {
        self.size
    }

    /// The numbers, from one to eight of them.
    pub fn numbers(&self) -> &[u32]
        ensures value { result.now ≡ self.now.numbers }
        ensures counted { AreNumbers self.now.numbers }
    {
        self.numbers.as_slice()
    }

    /// The same location once more. The one error is that memory was refused.
    pub fn copy(&self, alloc: Global) -> Result<Location, AllocError>
        ensures { IfOk result (λ location. location ≡ self.now) }
    {
        let numbers = Vec::from_slice(alloc, self.numbers())?;
        Ok(Location::new(self.area, self.size, Items::from_vec(numbers)))
    }
}
