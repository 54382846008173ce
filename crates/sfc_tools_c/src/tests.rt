//! What is told of tests of a chart. Each call answers 0 where there is a text, which it gives; else -6 where the buffer is too short, or the code of
//! `ToolError`. `needed` tells the length of the text in both cases; 0 where there is none.

ghost use Rattle.sfc_tools.specs.Outcomes.{TellsOutcome};
ghost use Rattle.sfc_tools.specs.Reports.{TellsFaultsOfTests};
ghost use Rattle.sfc_tools_c.specs.Texts.{GivesWhat};

use crate::answering::give;
use sfc_tools::telling::why_tests;
use sfc_tools::testing::test;
use std::alloc::Global;

/// What `sfcmon why` prints of tests, whose name is `tests`, which include no others, on a chart without a fault.
#[unsafe(no_mangle)]
pub extern "C" fn sfc_why_tests(
    alloc: Global,
    chart: &[u8],
    tests: &[u8],
    into: &mut [u8],
    needed: &mut usize,
) -> i32
    ensures { GivesWhat (TellsFaultsOfTests chart.now tests.now) into.old into.new needed.new result }
{
    give(why_tests(alloc, chart, tests), into, needed)
}

/// What `sfcmon test` prints of a chart and tests that include no others.
#[unsafe(no_mangle)]
pub extern "C" fn sfc_test(
    alloc: Global,
    chart: &[u8],
    tests: &[u8],
    into: &mut [u8],
    needed: &mut usize,
) -> i32
    ensures { GivesWhat (TellsOutcome chart.now tests.now) into.old into.new needed.new result }
{
    give(test(alloc, chart, tests), into, needed)
}
