//! Tests of a chart, from files to standard output.

use crate::arguments::Testing;
use crate::cover::end_below;
use crate::debug::FileArchive;
use crate::disk::sources_of;
use crate::files::{end_with, end_with_file, open_files};
use crate::test_desk::TestDesk;
use sfc_cover::cover::Cover;
use sfc_prompt::archive::{Archive, Kept};
use sfc_replay::input::read_to_end;
use sfc_replay::replay_error::ReplayError;
use sfc_test::asked::{Asked, Choice};
use sfc_test::suite::Suite;
use sfc_wave::asked::{Asked as AskedWave, Form, Instants};
use sfc_wave::wave::wave_script;
use sfc_wave::wave_error::WaveError;
use sfc_why_tests::sfc_cases::sources::Sources;
use std::alloc::Global;
use std::io::Read;
use std::rt::Files;
use std::{fs, io};

// What is wanted of them.
fn asked_of(testing: &Testing) -> Asked {
    if testing.is_list {
        Asked::Names
    } else if testing.is_tap {
        Asked::Tap
    } else {
        Asked::Results
    }
}

// Which cases are wanted.
fn choice_of(testing: &Testing) -> Choice<'_> {
    Choice {
        filter: match &testing.filter {
            Some(word) => word.as_bytes(),
            None => b"",
        },
        asked: asked_of(testing),
    }
}

// Tells a line of a text that can't be read, by the file in which it stands: the exit status.
fn tell_faulty<R: Eprint>(rt: &R, sources: &Sources, line: usize) -> u8 {
    let (name, number) = sources.place(line);
    let error = ReplayError::Script(number);
    match str::from_utf8(name) {
        Ok(name) => end_with_file(rt, name, error),
        Err(_) => end_with(rt, error),
    }
}

/// A chart with its tests, and what is done with their commands.
#[derive(Drop)]
struct Tested {
    suite: Suite,
    desk: TestDesk,
}

// Runs the cases of a file. A file that is refused is told and passed over; the exit status is 1 then. The error is that with which all
// ends.
fn test_file<R: Print + Eprint + Files + AllocGlobal, S: Read>(
    rt: &R,
    bench: &mut Tested,
    name: &str,
    file: &mut S,
    testing: &Testing,
) -> Result<u8, u8> {
    let sources = match sources_of(rt, name, file) {
        Ok(sources) => sources,
        Err((status, true)) => return Err(status),
        Err((status, false)) => return Ok(status),
    };
    let mut out = io::writer(rt);
    match bench
        .suite
        .test_sources(&sources, choice_of(testing), &mut bench.desk, &mut out)
    {
        Ok(()) => Ok(0),
        Err(ReplayError::Script(line)) => Ok(tell_faulty(rt, &sources, line)),
        Err(error) => Err(end_with(rt, error)),
    }
}

// Runs the cases of all files: whether all can be read, by the exit status. The error is that with which all ends.
fn test_all<R: Print + Eprint + Files + AllocGlobal, S: Read>(
    rt: &R,
    bench: &mut Tested,
    files: &mut [S],
    testing: &Testing,
) -> Result<u8, u8> {
    let mut status = 0;
    for (file, name) in files.iter_mut().zip(&testing.files) {
        let ended = test_file(rt, bench, name.as_str(), file, testing)?;
        status = status.max(ended);
    }
    Ok(status)
}

// Prints how many cases have passed and failed: the exit status.
fn count<R: Print + Eprint + AllocGlobal>(
    rt: &R,
    suite: &Suite,
    testing: &Testing,
    status: u8,
) -> u8 {
    let mut out = io::writer(rt);
    match suite.put_counts(asked_of(testing), &mut out) {
        Err(error) => end_with(rt, error),
        Ok(()) if suite.failed() > 0 => 1,
        Ok(()) => status,
    }
}

// Prints what all cases reach together, where that is asked: the exit status.
fn report_cover<R: Print + Eprint + AllocGlobal>(
    rt: &R,
    desk: &TestDesk,
    testing: &Testing,
    status: u8,
) -> u8 {
    let (Some(cover), Some(least)) = (desk.cover(), testing.cover) else {
        return status;
    };
    if desk.is_cut() {
        let _ = eprintln!(rt;
            "a case has more commands than a script: what it reaches isn't counted"
        );
        return 1;
    }
    let mut out = io::writer(rt);
    if !testing.is_tap
        && let Err(error) = cover.put_report(rt.alloc(), &mut out)
    {
        return end_with(rt, error);
    }
    if cover.total().is_below(least) {
        end_below(rt, cover.total().percent(), least)
    } else {
        status
    }
}

// Writes a file, where its name and its text are there: the exit status.
fn keep<R: Eprint + Files + AllocGlobal>(
    rt: &R,
    name: &Option<String>,
    text: Option<&[u8]>,
    status: u8,
) -> u8 {
    let (Some(name), Some(text)) = (name, text) else {
        return status;
    };
    let mut archive = FileArchive::new(rt, rt.alloc());
    if archive.keep(name.as_str(), text, true) == Kept::Kept {
        status
    } else {
        end_with(rt, ReplayError::Write)
    }
}

// Writes the results to the file that is asked for, if one is: the exit status.
fn keep_junit<R: Eprint + Files + AllocGlobal>(
    rt: &R,
    suite: &Suite,
    testing: &Testing,
    status: u8,
) -> u8 {
    if testing.junit.is_none() {
        return status;
    }
    match suite.junit(testing.chart.as_str()) {
        Ok(text) => keep(rt, &testing.junit, Some(&text), status),
        Err(_) => end_with(rt, ReplayError::Memory),
    }
}

// The signals of a script on a chart.
fn wave_of(alloc: Global, chart: &[u8], script: &[u8]) -> Result<Vec<u8>, ReplayError> {
    let (mut chart, mut script) = (chart, script);
    let asked = AskedWave {
        instants: Instants::Raw,
        form: Form::Dump,
        only: &[],
    };
    let mut out = Vec::new(alloc);
    match wave_script(alloc, &mut chart, &mut script, asked, &mut out) {
        Ok(_) => Ok(out),
        Err(WaveError::Replay(error)) => Err(error),
        Err(_) => Err(ReplayError::Memory),
    }
}

// Writes the script of the first case that has failed, and its signals, to the files that are asked for: the exit status.
fn keep_failed<R: Eprint + Files + AllocGlobal>(
    rt: &R,
    chart: &[u8],
    desk: &TestDesk,
    testing: &Testing,
    status: u8,
) -> u8 {
    let status = keep(rt, &testing.script, desk.script(), status);
    let Some(script) = desk.script() else {
        return status;
    };
    if testing.wave.is_none() {
        return status;
    }
    match wave_of(rt.alloc(), chart, script) {
        Ok(text) => keep(rt, &testing.wave, Some(&text), status),
        Err(error) => end_with(rt, error),
    }
}

// The chart with nothing reached, where it is asked what is.
fn cover_of(alloc: Global, chart: &[u8], testing: &Testing) -> Result<Option<Cover>, ReplayError> {
    if testing.cover.is_none() {
        return Ok(None);
    }
    let mut chart = chart;
    let cover = Cover::of_chart(alloc, &mut chart)?;
    Ok(Some(cover))
}

// The chart with its tests.
fn tested_of(alloc: Global, chart: &[u8], testing: &Testing) -> Result<Tested, ReplayError> {
    let mut text = chart;
    let suite = Suite::of_chart(alloc, &mut text)?;
    let cover = cover_of(alloc, chart, testing)?;
    Ok(Tested {
        suite,
        desk: TestDesk::new(alloc, cover),
    })
}

// Prints and writes what is asked for behind the last case: the exit status.
fn close<R: Print + Eprint + Files + AllocGlobal>(
    rt: &R,
    chart: &[u8],
    bench: &Tested,
    testing: &Testing,
    status: u8,
) -> u8 {
    let status = count(rt, &bench.suite, testing, status);
    let status = report_cover(rt, &bench.desk, testing, status);
    let status = keep_junit(rt, &bench.suite, testing, status);
    keep_failed(rt, chart, &bench.desk, testing, status)
}

// Runs the cases of the files on the chart: the exit status.
fn test_opened<R: Print + Eprint + Files + AllocGlobal, S: Read>(
    rt: &R,
    chart: &[u8],
    files: &mut [S],
    testing: &Testing,
) -> u8 {
    let mut bench = match tested_of(rt.alloc(), chart, testing) {
        Ok(bench) => bench,
        Err(error) => return end_with(rt, error),
    };
    match test_all(rt, &mut bench, files, testing) {
        Err(status) => status,
        Ok(status) => close(rt, chart, &bench, testing, status),
    }
}

/// Runs the cases of files of tests on the chart of another, and prints on standard output what becomes of each: the exit status, which is
/// 1 where a case fails, a file can't be understood, or less is reached than is wanted. All files are opened before one is read; one that
/// can't be opened is a read fault.
pub fn test_files<R: Print + Eprint + Files + AllocGlobal>(rt: &R, testing: &Testing) -> u8 {
    let Ok(mut chart) = fs::open(rt, testing.chart.as_str()) else {
        return end_with(rt, ReplayError::Read);
    };
    let mut files = match open_files(rt, &testing.files) {
        Ok(files) => files,
        Err(status) => return status,
    };
    match read_to_end(rt.alloc(), &mut chart) {
        Ok(chart) => test_opened(rt, &chart, &mut files, testing),
        Err(error) => end_with(rt, error),
    }
}
