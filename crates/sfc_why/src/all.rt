//! All faults of a chart.

ghost use Rattle.std.specs.Prelude.{IfOk};
ghost use Rattle.sfc_why.specs.Telling.{ExplainsAll, IsBehind};

use crate::chart::{Told, explain_chart};
use crate::report::Report;
use crate::search::{faults_of, start_of};
use std::alloc::{AllocError, Global};

/// The most reports behind the first one.
const MOST: usize = 99;

// Those of the reports that stand at other places than the first one, in the order of the text. They come with the last one first.
fn behind_first(
    alloc: Global,
    first: usize,
    reports: Vec<Report>,
) -> Result<Vec<Report>, AllocError>
    ensures { IfOk result (λ others. IsBehind first others.items) }
{
    let mut others = Vec::new(alloc);
    let mut left = reports;
    let mut least = 0usize;
    'all: while let Some(report) = left.pop() {
        let place = start_of(&report);
        if place != first && place >= least && place < usize::MAX && others.len() < MOST {
            others.push(report)?;
            least = place + 1;
        }
    }
    Ok(others)
}

/// What is told of all faults of a chart, up to a hundred; none exactly where it has no fault. The first one is that of `explain_chart`,
/// and the others stand behind it in the order of the text, each at a place of its own. Behind a fault the text is read again without
/// the smallest piece that has it, or with what was missing; what stands on a name that may have been declared there isn't told. The one
/// error is that memory was refused.
pub fn explain_all(alloc: Global, text: &[u8]) -> Result<Vec<Report>, AllocError>
    ensures { IfOk result (λ reports. ExplainsAll text.now reports.items) }
{
    match explain_chart(alloc, text)? {
        Told::NoFault(_) => Ok(Vec::new(alloc)),
        Told::Fault(first) => {
            let found = faults_of(alloc, text)?;
            let mut reports = behind_first(alloc, start_of(&first), found)?;
            reports.insert(0, first)?;
            Ok(reports)
        }
    }
}
