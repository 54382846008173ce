//! Why a text is not opened.

ghost use Rattle.std.specs.Prelude.{◌≡◌, pos, Option, None, Some};
ghost use Rattle.sfc_c.specs.Faults as faults;

use crate::status::{NO_LINE, NO_MEMORY};
use sfc_events::load_error::{Limit, LoadError};
use sfc_events::read_error::ReadError;

/// Why a chart, or a script beside it, is refused.
#[derive(Clone, Copy, Debug, PartialEq, Eq)]
pub enum Fault {
    /// The chart, by the reader.
    Read(ReadError),
    /// The chart, by the loader.
    Load(LoadError),
    /// The script has a line that is no command.
    Line,
    /// Memory was refused.
    Memory,
}

/// Where the fault of a chart is: `sfc_text_fault_t` of `sfc.h`.
#[repr(C)]
#[derive(Clone, Copy)]
pub struct TextFault {
    /// The line, counted from 1, where the reader tells one; else 0.
    pub line: u32,
    /// Of what there is too much: 1 steps, 2 transitions, 3 associations, 4 variables, 5 program instances, 6 tasks; else 0.
    pub limit: i32,
}

impl Fault {
    /// The number by which it is told: 1 to 22, or one below 0. It is never 0.
    pub fn number(self) -> i32
        ensures value { result ≡ faults.number_of self }
        ensures fault { result ≡ pos 0 → ⊥ }
    {
        match self {
            Fault::Read(error) => i32::from(error.kind.number()),
            Fault::Load(error) => i32::from(error.number()),
            Fault::Line => NO_LINE,
            Fault::Memory => NO_MEMORY,
        }
    }
}

// The number of a limit, in their order.
fn limit_number(limit: Limit) -> i32
    ensures { result ≡ faults.limit_number limit }
{
    match limit {
        Limit::Steps => 1,
        Limit::Transitions => 2,
        Limit::Associations => 3,
        Limit::Variables => 4,
        Limit::Instances => 5,
        Limit::Tasks => 6,
    }
}

// Which limit is passed, if one is.
fn limit_of(error: LoadError) -> i32
    ensures { result ≡ faults.limit_of error }
{
    match error {
        LoadError::Limit(limit) => limit_number(limit),
        _ => 0,
    }
}

/// What is told beside the number.
pub fn told_fault(found: Option<Fault>) -> TextFault
    ensures { result ≡ faults.told_fault found }
{
    match found {
        Some(Fault::Read(error)) => TextFault {
            line: error.line,
            limit: 0,
        },
        Some(Fault::Load(error)) => TextFault {
            line: 0,
            limit: limit_of(error),
        },
        _ => TextFault { line: 0, limit: 0 },
    }
}

/// The number of a fault; 0 where there is none.
pub fn number_found(found: Option<Fault>) -> i32
    ensures { result ≡ faults.number_found found }
{
    match found {
        Some(fault) => fault.number(),
        None => 0,
    }
}
