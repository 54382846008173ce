//! Reports, from files to standard output.

use crate::arguments::{Reporting, VERSION};
use crate::files::{end_with, end_with_file};
use sfc_base::write_fault::put_all;
use sfc_cover::cover::Cover;
use sfc_replay::input::read_to_end;
use sfc_replay::replay::replay;
use sfc_replay::replay_error::ReplayError;
use sfc_report::contents::{Contents, Run, Source};
use sfc_report::report::page_of;
use sfc_svg::draw::draw_after;
use sfc_svg::svg_error::SvgError;
use sfc_test::asked::{Asked as AskedTests, Choice};
use sfc_test::input::read_tests_to_end;
use sfc_test::suite::Suite;
use sfc_wave::asked::{Asked, Form, Instants};
use sfc_wave::wave::wave_script;
use sfc_wave::wave_error::WaveError;
use std::alloc::{AllocError, Global};
use std::rt::Files;
use std::{fs, io};

/// All cases are run.
const CHOICE: Choice<'static> = Choice {
    filter: b"",
    asked: AskedTests::Results,
};

// What a file is of a report.
#[derive(Clone, Copy, Debug, PartialEq, Eq)]
enum Kind {
    Chart,
    Script,
    Tests,
}

// Why there is no report, and the place of the file, from 0, at which that was found.
enum Refused {
    At(Kind, usize, ReplayError),
    TooLarge,
}

impl From<AllocError> for Refused {
    fn from(_error: AllocError) -> Refused {
        no_memory()
    }
}

impl From<SvgError> for Refused {
    fn from(error: SvgError) -> Refused {
        match error {
            SvgError::Replay(error) => Refused::At(Kind::Chart, 0, error),
            SvgError::NoSuchType | SvgError::TooLarge => Refused::TooLarge,
        }
    }
}

impl From<WaveError> for Refused {
    fn from(error: WaveError) -> Refused {
        match error {
            WaveError::Replay(error) => Refused::At(Kind::Chart, 0, error),
            WaveError::NoSuchSignal(_) | WaveError::TooLong => Refused::TooLarge,
        }
    }
}

// Memory was refused.
fn no_memory() -> Refused {
    Refused::At(Kind::Chart, 0, ReplayError::Memory)
}

// ---- files

// What the file of a name holds: at most 1,048,577 bytes of it, and of tests 67,108,865.
fn text_of<R: Files + AllocGlobal>(rt: &R, name: &str, kind: Kind) -> Result<Vec<u8>, ReplayError> {
    let Ok(mut file) = fs::open(rt, name) else {
        return Err(ReplayError::Read);
    };
    match kind {
        Kind::Tests => read_tests_to_end(rt.alloc(), &mut file),
        Kind::Chart | Kind::Script => read_to_end(rt.alloc(), &mut file),
    }
}

// What the files of these names hold, in turn; or the first that can't be read.
fn texts_of<R: Files + AllocGlobal>(
    rt: &R,
    names: &[String],
    kind: Kind,
) -> Result<Vec<Vec<u8>>, Refused> {
    let mut texts = Vec::new(rt.alloc());
    let mut place = 0usize;
    for name in names {
        match text_of(rt, name.as_str(), kind) {
            Ok(text) => {
                if texts.push(text).is_err() {
                    return Err(no_memory());
                }
            }
            Err(error) => return Err(Refused::At(kind, place, error)),
        }
        place = place.saturating_add(1);
    }
    Ok(texts)
}

// The files as those of a report.
fn sources_of<'a>(
    alloc: Global,
    names: &'a [String],
    texts: &'a [Vec<u8>],
) -> Result<Vec<Source<'a>>, AllocError> {
    let mut sources = Vec::new(alloc);
    for (name, text) in names.iter().zip(texts) {
        let name = name.as_str();
        sources.push(Source { name, text })?;
    }
    Ok(sources)
}

// ---- what came of a script

// What `replay` writes of a script on a chart.
fn replay_of(alloc: Global, chart: &[u8], script: &[u8]) -> Result<Vec<u8>, ReplayError> {
    let (mut chart, mut script) = (chart, script);
    let mut out = Vec::new(alloc);
    replay(alloc, &mut chart, &mut script, &mut out)?;
    Ok(out)
}

// What `wave` writes of it, and its save file.
fn wave_of(alloc: Global, chart: &[u8], script: &[u8]) -> Result<(Vec<u8>, Vec<u8>), WaveError> {
    let (mut chart, mut script) = (chart, script);
    let only = Vec::new(alloc);
    let asked = Asked {
        instants: Instants::Run,
        form: Form::Dump,
        only: &only,
    };
    let mut out = Vec::new(alloc);
    let view = wave_script(alloc, &mut chart, &mut script, asked, &mut out)?;
    Ok((out, view))
}

// The program instances behind it.
fn drawn_behind(alloc: Global, chart: &[u8], script: &[u8]) -> Result<Vec<u8>, SvgError> {
    let (mut chart, mut script) = (chart, script);
    let mut out = Vec::new(alloc);
    draw_after(alloc, &mut chart, &mut script, None, &mut out)?;
    Ok(out)
}

// What came of the script at a place.
fn run_of(alloc: Global, chart: &[u8], script: &[u8], place: usize) -> Result<Run, Refused> {
    let replay = match replay_of(alloc, chart, script) {
        Ok(replay) => replay,
        Err(error) => return Err(Refused::At(Kind::Script, place, error)),
    };
    let (wave, view) = wave_of(alloc, chart, script)?;
    let after = drawn_behind(alloc, chart, script)?;
    Ok(Run {
        replay,
        wave,
        view,
        after,
    })
}

// What came of all scripts.
fn runs_of(alloc: Global, chart: &[u8], scripts: &[Vec<u8>]) -> Result<Vec<Run>, Refused> {
    let mut runs = Vec::new(alloc);
    for place in 0..scripts.len() {
        let run = run_of(alloc, chart, &scripts[place], place)?;
        if runs.push(run).is_err() {
            return Err(no_memory());
        }
    }
    Ok(runs)
}

// ---- what came of all of them

// What the scripts reach together.
fn cover_of(alloc: Global, chart: &[u8], scripts: &[Vec<u8>]) -> Result<Cover, ReplayError> {
    let mut chart = chart;
    let mut cover = Cover::of_chart(alloc, &mut chart)?;
    for script in scripts {
        let mut script = script.as_slice();
        cover.play(alloc, &mut script)?;
    }
    Ok(cover)
}

// What `cover` prints of them.
fn coverage_of(alloc: Global, cover: &Cover) -> Result<Vec<u8>, ReplayError> {
    let mut out = Vec::new(alloc);
    cover.put_report(alloc, &mut out)?;
    Ok(out)
}

// The program instances with what the scripts never reach.
fn unreached_of(alloc: Global, cover: &Cover) -> Result<Vec<u8>, SvgError> {
    match cover.drawing(alloc, None)? {
        Some(text) => Ok(text),
        None => Err(SvgError::NoSuchType),
    }
}

// Runs the cases of a file.
fn judge_file(
    suite: &mut Suite,
    name: &str,
    text: &[u8],
    out: &mut Vec<u8>,
) -> Result<(), ReplayError> {
    let mut text = text;
    suite.test(name, &mut text, CHOICE, out)
}

// What `test` prints of these files.
fn judged_of(
    alloc: Global,
    chart: &[u8],
    names: &[String],
    tests: &[Vec<u8>],
) -> Result<Vec<u8>, Refused> {
    let mut chart = chart;
    let mut out = Vec::new(alloc);
    let mut suite = match Suite::of_chart(alloc, &mut chart) {
        Ok(suite) => suite,
        Err(error) => return Err(Refused::At(Kind::Chart, 0, error)),
    };
    let mut place = 0usize;
    for (name, text) in names.iter().zip(tests) {
        if let Err(error) = judge_file(&mut suite, name.as_str(), text, &mut out) {
            return Err(Refused::At(Kind::Tests, place, error));
        }
        place = place.saturating_add(1);
    }
    match suite.put_counts(AskedTests::Results, &mut out) {
        Ok(()) => Ok(out),
        Err(error) => Err(Refused::At(Kind::Chart, 0, error)),
    }
}

// ---- the page

// What the files of a report hold.
#[derive(Drop)]
struct Texts {
    chart: Vec<u8>,
    scripts: Vec<Vec<u8>>,
    tests: Vec<Vec<u8>>,
}

// What stands in a report, beside the files.
#[derive(Drop)]
struct Found {
    charts: Vec<u8>,
    runs: Vec<Run>,
    judged: Vec<u8>,
    coverage: Vec<u8>,
    unreached: Vec<u8>,
}

// What came of the files.
fn found_in(alloc: Global, reporting: &Reporting, texts: &Texts) -> Result<Found, Refused> {
    let charts = drawn_behind(alloc, &texts.chart, b"")?;
    let runs = runs_of(alloc, &texts.chart, &texts.scripts)?;
    let judged = judged_of(alloc, &texts.chart, &reporting.tests, &texts.tests)?;
    let cover = cover_of(alloc, &texts.chart, &texts.scripts).map_err(SvgError::Replay)?;
    let coverage = coverage_of(alloc, &cover).map_err(SvgError::Replay)?;
    let unreached = unreached_of(alloc, &cover)?;
    Ok(Found {
        charts,
        runs,
        judged,
        coverage,
        unreached,
    })
}

// The page of what was found.
fn page_with(
    alloc: Global,
    reporting: &Reporting,
    texts: &Texts,
    found: &Found,
) -> Result<Vec<u8>, AllocError> {
    let scripts = sources_of(alloc, &reporting.scripts, &texts.scripts)?;
    let tests = sources_of(alloc, &reporting.tests, &texts.tests)?;
    let contents = Contents {
        version: VERSION,
        chart: Source {
            name: reporting.chart.as_str(),
            text: &texts.chart,
        },
        scripts: &scripts,
        runs: &found.runs,
        tests: &tests,
        judged: &found.judged,
        charts: &found.charts,
        coverage: &found.coverage,
        unreached: &found.unreached,
    };
    page_of(alloc, &contents)
}

// The page of a report.
fn report_of(alloc: Global, reporting: &Reporting, texts: &Texts) -> Result<Vec<u8>, Refused> {
    let found = found_in(alloc, reporting, texts)?;
    let page = page_with(alloc, reporting, texts, &found)?;
    Ok(page)
}

// What the files hold; or the first that can't be read.
fn read_files<R: Files + AllocGlobal>(rt: &R, reporting: &Reporting) -> Result<Texts, Refused> {
    let chart = match text_of(rt, reporting.chart.as_str(), Kind::Chart) {
        Ok(chart) => chart,
        Err(error) => return Err(Refused::At(Kind::Chart, 0, error)),
    };
    let scripts = texts_of(rt, &reporting.scripts, Kind::Script)?;
    let tests = texts_of(rt, &reporting.tests, Kind::Tests)?;
    Ok(Texts {
        chart,
        scripts,
        tests,
    })
}

// Reads the files and makes the report.
fn report<R: Files + AllocGlobal>(rt: &R, reporting: &Reporting) -> Result<Vec<u8>, Refused> {
    let texts = read_files(rt, reporting)?;
    report_of(rt.alloc(), reporting, &texts)
}

// The name at a place.
fn name_at(names: &[String], place: usize) -> &str {
    match names.get(place) {
        Some(name) => name.as_str(),
        None => "",
    }
}

// What is wrong is told on standard error: the exit status.
fn fail<R: Eprint>(rt: &R, reporting: &Reporting, refused: Refused) -> u8 {
    match refused {
        Refused::At(Kind::Chart, _, error) => end_with(rt, error),
        Refused::At(Kind::Script, place, error) => {
            end_with_file(rt, name_at(&reporting.scripts, place), error)
        }
        Refused::At(Kind::Tests, place, error) => end_with_file(
            rt,
            name_at(&reporting.tests, place),
            error,
        ),
        Refused::TooLarge => {
            let _ = eprintln!(rt; "error: {}", SvgError::TooLarge);
            1
        }
    }
}

/// Prints the report of the chart of a file, of the scripts of others and of tests on standard output: the exit status. All files are read before
/// anything is written. What is wrong with a script or with tests is told behind the name of its file.
pub fn report_files<R: Print + Eprint + Files + AllocGlobal>(rt: &R, reporting: &Reporting) -> u8 {
    match report(rt, reporting) {
        Ok(page) => match put_all(&mut io::writer(rt), &page) {
            Ok(()) => 0,
            Err(_) => end_with(rt, ReplayError::Write),
        },
        Err(refused) => fail(rt, reporting, refused),
    }
}
