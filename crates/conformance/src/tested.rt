//! Tests of a chart.

use crate::ending::Ending;
use sfc_replay::replay_error::ReplayError;
use sfc_test::asked::{Asked, Choice};
use sfc_test::suite::Suite;
use std::alloc::{AllocError, Global};

// Takes over how a command ended, behind these words.
fn take(
    alloc: Global,
    ending: &mut Ending,
    front: &str,
    error: ReplayError,
) -> Result<(), AllocError> {
    ending.fault = format!(in alloc; "{front}{error}")?;
    ending.status = error.status();
    Ok(())
}

// Runs the tests, and counts them.
fn run(
    alloc: Global,
    suite: &mut Suite,
    tests: &[u8],
    ending: &mut Ending,
) -> Result<(), AllocError> {
    let mut tests = tests;
    let choice = Choice {
        filter: b"",
        asked: Asked::Results,
    };
    if let Err(error) = suite.test("script", &mut tests, choice, &mut ending.output) {
        take(alloc, ending, "script: ", error)?;
    }
    match suite.put_counts(Asked::Results, &mut ending.output) {
        Err(error) => take(alloc, ending, "", error),
        Ok(()) => {
            if suite.failed() > 0 {
                ending.status = 1;
            }
            Ok(())
        }
    }
}

/// How `test` ends on a chart with these tests, whose file is named `script`.
pub fn tested(alloc: Global, chart: &[u8], tests: &[u8]) -> Result<Ending, AllocError> {
    let mut chart = chart;
    let mut ending = Ending::new(alloc);
    match Suite::of_chart(alloc, &mut chart) {
        Err(error) => take(alloc, &mut ending, "", error)?,
        Ok(mut suite) => run(alloc, &mut suite, tests, &mut ending)?,
    }
    Ok(ending)
}
