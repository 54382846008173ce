//! The faults of a chart.

ghost use Rattle.std.specs.Prelude.{IfOk};
ghost use Rattle.sfc_why.specs.Telling.{ExplainsAll};

use sfc_why::all::explain_all;
use sfc_why::chart::{Told, explain_chart};
use sfc_why::report::Report;
use std::alloc::{AllocError, Global};

/// The most bytes of a text of which all faults are looked for: what an editor shows has to be there soon.
const MOST: usize = 131_072;

// What is told of the first fault of a chart; none where it has no fault.
fn first_report(alloc: Global, text: &[u8]) -> Result<Vec<Report>, AllocError>
    ensures { IfOk result (λ reports. ExplainsAll text.now reports.items) }
{
    let mut reports = Vec::new(alloc);
    if let Told::Fault(report) = explain_chart(alloc, text)? {
        reports.push(report)?;
    }
    Ok(reports)
}

/// What is told of all faults of a chart, the first one first, up to a hundred; of the first one alone where the text has more than 131,072
/// bytes; none exactly where it has no fault. The one error is that memory was refused.
pub fn reports_of(alloc: Global, text: &[u8]) -> Result<Vec<Report>, AllocError>
    ensures { IfOk result (λ reports. ExplainsAll text.now reports.items) }
{
    if text.len() > MOST {
        first_report(alloc, text)
    } else {
        explain_all(alloc, text)
    }
}
