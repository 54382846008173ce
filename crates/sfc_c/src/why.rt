//! Why a chart is refused, as text and as fields.

ghost use Rattle.std.specs.Prelude.{◌≡◌, ◌⊎◌, IfOk, IfSome, Option, Some};
ghost use Rattle.sfc_explain.specs.declared.explanation.Explanation.{Explanation as ExplanationData};
ghost use Rattle.sfc_why.specs.Telling.{Explains};
ghost use Rattle.sfc_why.specs.declared.chart.Told.{Told as ToldData};
ghost use Rattle.sfc_c.specs.Whys as rules;
ghost use Rattle.sfc_c.specs.Whys.{GivesTold, IsPageOf, IsTextOf, TellsNothing};

use crate::giving::give;
use crate::status::NO_MEMORY;
use sfc_why::chart::{Told, explain_chart};
use sfc_why::page::{explanation_of, put_report};
use sfc_why::place::Place;
use sfc_why::report::{Fault, Report};
use std::alloc::{AllocError, Global};

/// Where the first fault of a chart is: `sfc_chart_fault_t` of `sfc.h`.
#[repr(C)]
#[derive(Clone, Copy)]
pub struct ChartFault {
    /// The line, from 1; 0 where the text is a chart.
    pub line: usize,
    /// The column, from 1, in characters; 0 where the text is a chart.
    pub column: usize,
    /// How many bytes are at fault; 0 at the end of the text, and where it is the text as a whole.
    pub length: usize,
    /// The number of the fault, from 1 to 22; 0 where the text is a chart.
    pub number: i32,
}

/// Of a text that is a chart.
pub const NO_FAULT: ChartFault = ChartFault {
    line: 0,
    column: 0,
    length: 0,
    number: 0,
};

// The number of a fault of a chart.
fn number_of(fault: Fault) -> i32
    ensures { result ≡ rules.number_of fault }
{
    match fault {
        Fault::Reading(kind) => i32::from(kind.number()),
        Fault::Loading(error) => i32::from(error.number()),
        Fault::Script(_) | Fault::Warning(_) => 0,
    }
}

// How many bytes a place has.
fn length_of(place: Place) -> usize
    ensures { result ≡ rules.length_of place }
{
    match place {
        Place::Token { length, .. } | Place::Byte { length, .. } | Place::Word { length, .. } => {
            length
        }
        Place::End | Place::Whole => 0,
    }
}

// The fields of a report.
fn fields_of(report: &Report) -> ChartFault
    ensures { result ≡ rules.fields_of report.now }
{
    ChartFault {
        line: report.position.line,
        column: report.position.column,
        length: length_of(report.place),
        number: number_of(report.refusal),
    }
}

// What is told of a chart, as fields.
fn fault_of(told: &Told) -> ChartFault
    ensures { result ≡ rules.fault_of told.now }
{
    match told {
        Told::NoFault(_) => NO_FAULT,
        Told::Fault(report) => fields_of(report),
    }
}

// A report as a text. The one error is that memory was refused.
fn page_of(alloc: Global, report: &Report) -> Result<Vec<u8>, AllocError>
    ensures { IfOk result (λ page. IsPageOf report.now page.items) }
{
    let mut page = Vec::new(alloc);
    match put_report(b"chart", report, explanation_of(report.refusal), &mut page) {
        Ok(()) => Ok(page),
        Err(_) => Err(AllocError),
    }
}

// What is told of a chart, as a text. The one error is that memory was refused.
fn text_of(alloc: Global, told: &Told) -> Result<Vec<u8>, AllocError>
    ensures { IfOk result (λ text. IsTextOf told.now text.items) }
{
    match told {
        Told::NoFault(_) => Ok(Vec::new(alloc)),
        Told::Fault(report) => page_of(alloc, report),
    }
}

/// What is told of a chart: its fields and its text.
struct Telling {
    fault: ChartFault,
    text: Vec<u8>,
}

// By hand, so that a caller that drops one proves one call.
impl Drop for Telling {
    fn drop(self) {
        let Telling { fault: _, text: _ } = self;
    }
}

// What is told of the text of a chart. The one error is that memory was refused.
fn tell_of(alloc: Global, text: &[u8]) -> Result<Telling, AllocError>
    ensures { IfOk result (λ telling. (told : ToldData) × Explains text.now told × (telling.fault ≡ rules.fault_of told)
        × IsTextOf told telling.text.items) }
{
    let told = explain_chart(alloc, text)?;
    let page = text_of(alloc, &told)?;
    Ok(Telling {
        fault: fault_of(&told),
        text: page,
    })
}

/// Why a text is no chart: the first fault as fields, and as the text of `sfcmon why`, in which the file is called `chart`. It answers 0
/// where all is told, also of a text that is a chart, whose number is 0 and which has no text; -6 where the buffer is too short, and the
/// fields are told all the same; -4 where memory was refused, and nothing is told. `needed` tells the length.
#[unsafe(no_mangle)]
pub extern "C" fn sfc_why(
    alloc: Global,
    text: &[u8],
    fault: &mut ChartFault,
    into: &mut [u8],
    needed: &mut usize,
) -> i32
    ensures { ((told : ToldData) × Explains text.now told × GivesTold told fault.new into.old into.new needed.new result)
        ⊎ TellsNothing fault.old fault.new into.old into.new needed.new result }
{
    match tell_of(alloc, text) {
        Ok(told) => {
            *fault = told.fault;
            give(told.text.as_slice(), into, needed)
        }
        Err(_) => {
            *needed = 0;
            NO_MEMORY
        }
    }
}
