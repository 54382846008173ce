//! Where the faults of charts, scripts and tests are.

ghost use Rattle.std.specs.Prelude.{◌≡◌, ◌++◌, codes, IfOk, List, OnOk, ℕ};
ghost use Rattle.sfc_cases.specs.Answers.{text_in};
ghost use Rattle.sfc_why_tests.specs.Telling.{ExplainsTests};
ghost use Rattle.sfc_tools.specs.Reports as told;
ghost use Rattle.sfc_tools.specs.Reports.{ArePages, IsOfTold, IsPage, TellsFaults, TellsFaultsOfScript, TellsFaultsOfTests};

use crate::tool_error::ToolError;
use sfc_plant::plant::Plant;
use sfc_replay::chart::plant_of_text;
use sfc_why::all::explain_all;
use sfc_why::page::{explanation_of, put_report};
use sfc_why::report::Report;
use sfc_why::script::{ScriptTold, explain_script};
use sfc_why_tests::sfc_cases::sources::Sources;
use sfc_why_tests::tests::{TestFault, TestsTold, explain_tests};
use std::alloc::{AllocError, Global};

/// The names that the texts have in reports.
const CHART: &[u8] = b"chart";

const SCRIPT: &[u8] = b"script";

const TESTS: &[u8] = b"tests";

// The page of a report of a text. A text in memory fails for nothing but want of memory.
fn page_of(alloc: Global, name: &[u8], report: &Report) -> Result<Vec<u8>, AllocError>
    ensures { IfOk result (λ text. IsPage name.now report.now text.items) }
{
    let mut text = Vec::new(alloc);
    match put_report(name, report, explanation_of(report.refusal), &mut text) {
        Ok(()) => Ok(text),
        Err(_) => Err(AllocError),
    }
}

// Puts the pages of reports of a text at the end.
fn append_pages(
    alloc: Global,
    name: &[u8],
    all: &[Report],
    text: &mut Vec<u8>,
) -> Result<(), AllocError>
    ensures { OnOk result ((pages : List ℕ) × ArePages name.now all.now pages × (text.new.items ≡ text.old.items ++ pages)) }
{
    let mut rest = all;
    'reports: while let Some((report, more)) = rest.split_first() {
        let page = page_of(alloc, name, report)?;
        text.extend_from_slice(&page)?;
        rest = more;
    }
    Ok(())
}

// Puts at the end that there is no fault.
fn append_none(text: &mut Vec<u8>) -> Result<(), AllocError>
    ensures { OnOk result (text.new.items ≡ text.old.items ++ told.none_text) }
{
    text.extend_from_slice(b"no fault\n")
}

// The pages of reports of a chart; that there is no fault, where there is no report.
fn pages_of_chart(alloc: Global, reports: &[Report]) -> Result<Vec<u8>, AllocError>
    ensures { IfOk result (λ text. (pages : List ℕ) × ArePages (codes "chart") reports.now pages
        × (text.items ≡ pages ++ told.if_none reports.now)) }
{
    let mut text = Vec::new(alloc);
    append_pages(alloc, CHART, reports, &mut text)?;
    if reports.is_empty() {
        append_none(&mut text)?;
    }
    Ok(text)
}

// The pages of warnings of a script, and that there is no fault.
fn pages_of_warnings(alloc: Global, warnings: &[Report]) -> Result<Vec<u8>, AllocError>
    ensures { IfOk result (λ text. (pages : List ℕ) × ArePages (codes "script") warnings.now pages
        × (text.items ≡ pages ++ told.none_text)) }
{
    let mut text = Vec::new(alloc);
    append_pages(alloc, SCRIPT, warnings, &mut text)?;
    append_none(&mut text)?;
    Ok(text)
}

// What is told of a script.
fn pages_of_script(alloc: Global, said: &ScriptTold) -> Result<Vec<u8>, AllocError>
    ensures { IfOk result (λ text. IsOfTold said.now text.items) }
{
    match said {
        ScriptTold::Fault(report) => page_of(alloc, SCRIPT, report),
        ScriptTold::NoFault(warnings) => pages_of_warnings(alloc, warnings),
    }
}

// The page of what is told of a line of tests.
fn page_of_test(alloc: Global, fault: &TestFault) -> Result<Vec<u8>, AllocError>
    ensures { IfOk result (λ text. text.items ≡ told.page_of_test fault.now) }
{
    let mut text = Vec::new(alloc);
    match put_report(TESTS, &fault.report, None, &mut text) {
        Ok(()) => Ok(text),
        Err(_) => Err(AllocError),
    }
}

// The pages of what is told of lines of tests; that there is no fault, where nothing is.
fn pages_of_lines(alloc: Global, faults: &[TestFault]) -> Result<Vec<u8>, AllocError>
    ensures { IfOk result (λ text. text.items ≡ told.pages_of_tests faults.now ++ told.if_none faults.now) }
{
    let mut text = Vec::new(alloc);
    for fault in faults {
        let page = page_of_test(alloc, fault)?;
        text.extend_from_slice(&page)?;
    }
    if faults.is_empty() {
        append_none(&mut text)?;
    }
    Ok(text)
}

// What is told of tests.
fn pages_of_tests(alloc: Global, said: &TestsTold) -> Result<Vec<u8>, AllocError>
    ensures { IfOk result (λ text. text.items ≡ told.text_of_tests said.now) }
{
    match said {
        TestsTold::Fault(fault) => page_of_test(alloc, fault),
        TestsTold::NoFault(faults) => pages_of_lines(alloc, faults),
    }
}

// The tests as a file that includes no other. That it has their text is looked at: no clause of `of_one` says so.
fn sources_of(alloc: Global, tests: &[u8]) -> Result<Sources, AllocError>
    ensures { IfOk result (λ sources. text_in sources ≡ tests.now) }
{
    let mut copy = Vec::new(alloc);
    copy.extend_from_slice(tests)?;
    let sources = Sources::of_one(alloc, TESTS, copy)?;
    if sources.text() != tests {
        return Err(AllocError);
    }
    Ok(sources)
}

// What is told of tests over a plant, which is that of the chart.
fn told_of_tests(
    alloc: Global,
    chart: &[u8],
    plant: Plant,
    tests: &[u8],
) -> Result<TestsTold, AllocError>
    ensures { IfOk result (ExplainsTests plant tests.now) }
{
    let sources = sources_of(alloc, tests)?;
    explain_tests(alloc, chart, plant, &sources)
}

/// What `sfcmon why --all` prints of a chart, whose name is `chart`: where its faults are, and what mends them. The one error is that memory
/// was refused.
pub fn why(alloc: Global, chart: &[u8]) -> Result<Vec<u8>, ToolError>
    ensures { TellsFaults chart.now result }
{
    let reports = explain_all(alloc, chart)?;
    let text = pages_of_chart(alloc, &reports)?;
    Ok(text)
}

/// What `sfcmon why` prints of a script, whose name is `script`, on a chart without a fault: where its first fault is, or else the names that
/// the chart hasn't. The errors are that the chart is refused, and that memory was.
pub fn why_script(alloc: Global, chart: &[u8], script: &[u8]) -> Result<Vec<u8>, ToolError>
    ensures { TellsFaultsOfScript chart.now script.now result }
{
    let plant = plant_of_text(alloc, chart)?;
    let said = explain_script(alloc, chart, plant, script)?;
    let text = pages_of_script(alloc, &said)?;
    Ok(text)
}

/// The same of tests that include no others, whose name is `tests`.
pub fn why_tests(alloc: Global, chart: &[u8], tests: &[u8]) -> Result<Vec<u8>, ToolError>
    ensures { TellsFaultsOfTests chart.now tests.now result }
{
    let plant = plant_of_text(alloc, chart)?;
    let said = told_of_tests(alloc, chart, plant, tests)?;
    let text = pages_of_tests(alloc, &said)?;
    Ok(text)
}
