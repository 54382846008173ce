//! Where the faults of a chart or a script are.

use crate::arguments::Asking;
use crate::disk::sources_of;
use crate::files::end_with;
use sfc_base::write_fault::put_all;
use sfc_plant::plant::Plant;
use sfc_replay::input::read_to_end;
use sfc_replay::replay_error::ReplayError;
use sfc_why::all::explain_all;
use sfc_why::chart::{Told, explain_chart};
use sfc_why::page::{explanation_of, put_report};
use sfc_why::report::Report;
use sfc_why::script::{ScriptTold, explain_script};
use sfc_why_tests::sfc_cases::sources::Sources;
use sfc_why_tests::tests::{TestFault, TestsTold, explain_tests};
use std::alloc::Global;
use std::io::{Read, Write};
use std::rt::Files;
use std::{fs, io};

// Writes a report of a fault of a file: the exit status.
fn tell<W: Write>(file: &str, report: &Report, writer: &mut W) -> Result<u8, ReplayError> {
    let explanation = explanation_of(report.refusal);
    put_report(file.as_bytes(), report, explanation, writer)?;
    Ok(1)
}

// Writes that there is no fault: the exit status.
fn tell_none<W: Write>(writer: &mut W) -> Result<u8, ReplayError> {
    put_all(writer, b"no fault\n")?;
    Ok(0)
}

// Writes the reports of all faults of a chart's text: the exit status.
fn tell_all<W: Write>(
    alloc: Global,
    file: &str,
    text: &[u8],
    writer: &mut W,
) -> Result<u8, ReplayError> {
    let reports = explain_all(alloc, text)?;
    for report in &reports {
        tell(file, report, writer)?;
    }
    Ok(1)
}

// Tells the fault of a chart's text, or all of them, if it has one: the exit status; else the plant that it is.
fn why_text<W: Write>(
    alloc: Global,
    asking: &Asking,
    text: &[u8],
    writer: &mut W,
) -> Result<Result<Plant, u8>, ReplayError> {
    match explain_chart(alloc, text)? {
        Told::NoFault(plant) => Ok(Ok(plant)),
        Told::Fault(_) if asking.all => {
            Ok(Err(tell_all(alloc, asking.chart.as_str(), text, writer)?))
        }
        Told::Fault(report) => Ok(Err(tell(asking.chart.as_str(), &report, writer)?)),
    }
}

// Tells the faults of a chart, if it has any: the exit status.
fn why_chart<C: Read, W: Write>(
    alloc: Global,
    asking: &Asking,
    chart: &mut C,
    writer: &mut W,
) -> Result<u8, ReplayError> {
    let text = read_to_end(alloc, chart)?;
    match why_text(alloc, asking, &text, writer)? {
        Ok(_plant) => tell_none(writer),
        Err(status) => Ok(status),
    }
}

// Tells the fault of a script, if it has one, or else warnings: the exit status.
fn tell_script<W: Write>(file: &str, told: &ScriptTold, writer: &mut W) -> Result<u8, ReplayError> {
    match told {
        ScriptTold::Fault(report) => tell(file, report, writer),
        ScriptTold::NoFault(warnings) => {
            for warning in warnings {
                tell(file, warning, writer)?;
            }
            tell_none(writer)
        }
    }
}

// Tells the faults of a chart, or else the one of a script with this name, if one has any: the exit status.
fn why_script<C: Read, S: Read, W: Write>(
    alloc: Global,
    (asking, name): (&Asking, &str),
    chart: &mut C,
    script: &mut S,
    writer: &mut W,
) -> Result<u8, ReplayError> {
    let text = read_to_end(alloc, chart)?;
    match why_text(alloc, asking, &text, writer)? {
        Err(status) => Ok(status),
        Ok(plant) => {
            let bytes = read_to_end(alloc, script)?;
            let told = explain_script(alloc, &text, plant, &bytes)?;
            tell_script(name, &told, writer)
        }
    }
}

// Writes a report of a line of a file of tests, or of one that it includes: the exit status.
fn tell_test<W: Write>(
    sources: &Sources,
    fault: &TestFault,
    writer: &mut W,
) -> Result<u8, ReplayError> {
    let (file, _) = sources.place(fault.line);
    put_report(file, &fault.report, None, writer)?;
    Ok(1)
}

// Tells the faults of a file of tests, over a chart's text and the plant that it is: the exit status.
fn tell_tests<W: Write>(
    alloc: Global,
    text: &[u8],
    plant: Plant,
    sources: &Sources,
    writer: &mut W,
) -> Result<u8, ReplayError> {
    match explain_tests(alloc, text, plant, sources)? {
        TestsTold::Fault(fault) => tell_test(sources, &fault, writer),
        TestsTold::NoFault(faults) if faults.is_empty() => tell_none(writer),
        TestsTold::NoFault(faults) => {
            for fault in &faults {
                tell_test(sources, fault, writer)?;
            }
            Ok(1)
        }
    }
}

// Tells the faults of a chart, or else those of a file of tests with this name, if one has any: the exit status.
fn why_tests<R: Print + Eprint + Files + AllocGlobal, C: Read, T: Read>(
    rt: &R,
    (asking, name): (&Asking, &str),
    chart: &mut C,
    tests: &mut T,
) -> Result<u8, ReplayError> {
    let alloc = rt.alloc();
    let mut out = io::writer(rt);
    let text = read_to_end(alloc, chart)?;
    let plant = match why_text(alloc, asking, &text, &mut out)? {
        Ok(plant) => plant,
        Err(status) => return Ok(status),
    };
    match sources_of(rt, name, tests) {
        Ok(sources) => tell_tests(alloc, &text, plant, &sources, &mut out),
        Err((status, _)) => Ok(status),
    }
}

// Tells the faults of a chart, or else those of the script or of the tests in a file: the exit status. A file that can't be opened is a
// read fault.
fn why_files<R: Print + Eprint + Files + AllocGlobal, C: Read>(
    rt: &R,
    asking: &Asking,
    chart: &mut C,
    script: &str,
) -> Result<u8, ReplayError> {
    let Ok(mut file) = fs::open(rt, script) else {
        return Err(ReplayError::Read);
    };
    if script.ends_with(".sfctest") {
        return why_tests(rt, (asking, script), chart, &mut file);
    }
    let mut out = io::writer(rt);
    why_script(rt.alloc(), (asking, script), chart, &mut file, &mut out)
}

/// Tells the first fault of a file's chart, or all of them, or else the first one of a file's script, or of a file of tests, whose name ends
/// with `.sfctest`: the exit status. The files are opened
/// before either is read; one that can't be opened is a read fault.
pub fn explain_fault<R: Print + Eprint + Files + AllocGlobal>(rt: &R, asking: &Asking) -> u8 {
    let Ok(mut chart) = fs::open(rt, asking.chart.as_str()) else {
        return end_with(rt, ReplayError::Read);
    };
    let told = match &asking.script {
        Some(script) => why_files(rt, asking, &mut chart, script.as_str()),
        None => why_chart(rt.alloc(), asking, &mut chart, &mut io::writer(rt)),
    };
    match told {
        Ok(status) => status,
        Err(error) => end_with(rt, error),
    }
}
