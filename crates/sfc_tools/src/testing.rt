//! Tests and their outcome.

ghost use Rattle.std.specs.Prelude.{◌≡◌, ℕ, List, IfErr, IfOk};
ghost use Rattle.sfc_test.specs.Answers.{chart_in, tally_in};
ghost use Rattle.sfc_test.specs.Tallies.{no_cases};
ghost use Rattle.sfc_tools.specs.Codes.{of_replay};
ghost use Rattle.sfc_tools.specs.Outcomes.{IsOutcome, IsUntoldOfTests, TellsOutcome, tests_of};
ghost use Rattle.sfc_tools.specs.Told.{read_of};

use crate::tool_error::ToolError;
use sfc_replay::replay_error::ReplayError;
use sfc_test::asked::{Asked, Choice};
use sfc_test::suite::Suite;
use std::alloc::Global;

/// The name that the tests have.
const NAME: &str = "tests";

// The chart, with no case so far.
fn suite_of(alloc: Global, chart: &[u8]) -> Result<Suite, ReplayError>
    ensures chart { IfOk result (λ suite. chart_in suite ≡ read_of chart.now) }
    ensures untold { IfOk result (λ suite. tally_in suite ≡ no_cases) }
    ensures refused { (tests : List ℕ) → IfErr result (λ error. IsUntoldOfTests (read_of chart.now) tests (of_replay error)) }
{
    let mut chart = chart;
    Suite::of_chart(alloc, &mut chart)
}

// What becomes of each case, and how many have passed and failed.
fn outcome_of(alloc: Global, suite: &mut Suite, tests: &[u8]) -> Result<Vec<u8>, ReplayError>
    requires untold { tally_in suite.old ≡ no_cases }
    ensures told { IfOk result (λ text. IsOutcome (chart_in suite.old) (tests_of tests.now) text.items) }
    ensures refused { IfErr result (λ error. IsUntoldOfTests (chart_in suite.old) (tests_of tests.now) (of_replay error)) }
{
    let mut tests = tests;
    let mut text = Vec::new(alloc);
    let choice = Choice {
        filter: b"",
        asked: Asked::Results,
    };
    suite.test(NAME, &mut tests, choice, &mut text)?;
    suite.put_counts(Asked::Results, &mut text)?;
    Ok(text)
}

/// What `sfcmon test` prints of a chart and a file of tests that includes no other: of each case whether it passes, and how many do. The
/// errors are that the chart is refused, or a line of the tests, and that memory was.
pub fn test(alloc: Global, chart: &[u8], tests: &[u8]) -> Result<Vec<u8>, ToolError>
    ensures { TellsOutcome chart.now tests.now result }
{
    let mut suite = suite_of(alloc, chart)?;
    let text = outcome_of(alloc, &mut suite, tests)?;
    Ok(text)
}
