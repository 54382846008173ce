//! `sfcmon`: checks, lists and draws Sequential Function Charts, says where a fault is, plays scripts on them and prints what happens, how
//! the signals go or what they never reach, tests them, runs them in real time, and tells what a refusal or a fault means.
//!
//! - `arguments`: the command line.
//! - `cover`: what scripts on a chart reach together.
//! - `debug`: a chart that is stepped by hand.
//! - `disk`: files that tests include.
//! - `draw`: charts as drawings.
//! - `editors`: editors that are served.
//! - `explain`: what refusals and faults mean.
//! - `files`: charts and scripts in files, standard output and exit status.
//! - `lasting`: input of a run that lasts longer, or shorter, than its input.
//! - `lint`: warnings of a chart.
//! - `report`: reports of charts and scripts.
//! - `run_record`: the files in which a run is recorded.
//! - `terminal`: what is told beside, where standard error is a terminal.
//! - `testing`: tests of a chart; `test_desk`: what is done with their commands.
//! - `wave`: runs as waveforms.
//! - `why`: where the faults of a chart or a script are.
#![tactic(auto)]

mod arguments;
mod cover;
mod debug;
mod disk;
mod draw;
mod editors;
mod explain;
mod files;
mod lasting;
mod lint;
mod report;
mod run_record;
mod terminal;
mod test_desk;
mod testing;
mod wave;
mod why;

use arguments::{Playing, Request, read_words, refuse_words};
use files::Streams;
use run_record::{forget_empty, parts_of};
use sfc_replay::replay_error::ReplayError;
use sfc_run::recording::Recording;
use sfc_why::sfc_explain;
use sfc_why::sfc_script::sfc_debug;
use std::io::Write;
use std::process::ExitCode;
use std::rt::Files;
use std::sync::Wait;
use std::thread::Threads;
use std::{env, io, time};

// The words of the command line. The error is `InvalidData` where one of them isn't UTF-8, and else `OutOfMemory`.
fn words_of(rt: &HostRuntime) -> io::Result<Vec<String>> {
    let words = env::args(rt)?;
    let words = words.collect(rt.alloc())?;
    Ok(words)
}

// Plays a script on a chart: the exit status.
fn replay<R: Print + Eprint + Files + AllocGlobal>(rt: &R, playing: &Playing) -> u8 {
    files::replay_files(
        rt,
        playing.chart.as_str(),
        playing.script.as_str(),
        playing.strict,
    )
}

// The name of the file in which a run is recorded, if one is asked for, and how many bytes a part of it has at most.
fn record_of(request: &Request) -> (Option<&str>, usize) {
    match request {
        Request::Run(running) => (
            running.record.as_ref().map(|name| name.as_str()),
            running.record_size,
        ),
        _ => (None, 0),
    }
}

// Does what is asked for: the exit status. The accepted commands of a run are recorded there.
fn serve<R, F>(rt: &R, streams: Streams, request: &Request, record: (F, Recording)) -> u8
where
    R: Threads
        + Wait
        + time::Clock
        + Sync
        + Print
        + Eprint
        + Files
        + AllocGlobal
        + Copy
        + Drop
        + Send
        + 'static,
    F: Write + Send + Drop,
{
    match request {
        Request::Check { chart } => files::check_file(rt, chart.as_str()),
        Request::Lint(linting) => lint::lint_file(rt, linting),
        Request::List { chart } => files::list_file(rt, chart.as_str()),
        Request::Why(asking) => why::explain_fault(rt, asking),
        Request::Replay(playing) => replay(rt, playing),
        Request::Run(running) => files::run_file(rt, streams, running, record),
        Request::Debug(debugging) => debug::debug_file(rt, streams, debugging),
        Request::Lsp => editors::serve_language(rt, streams),
        Request::Dap => editors::serve_debugger(rt, streams),
        Request::Draw(drawing) => draw::draw_file(rt, drawing),
        Request::Wave(waving) => wave::wave_files(rt, waving),
        Request::Cover(covering) => cover::cover_files(rt, covering),
        Request::Report(reporting) => report::report_files(rt, reporting),
        Request::Test(testing) => testing::test_files(rt, testing),
        Request::Explain { word } => explain::explain_word(rt, word.as_str()),
        Request::ListExplanations => explain::list_explanations(rt),
        Request::Answered(status) => *status,
    }
}

// What the words ask for.
fn request_of(rt: &HostRuntime) -> Request {
    match words_of(rt) {
        Ok(words) => read_words(rt, words.as_slice()),
        Err(error) if error.kind() == io::ErrorKind::InvalidData => {
            Request::Answered(refuse_words(rt))
        }
        Err(_) => Request::Answered(files::end_with(rt, ReplayError::Memory)),
    }
}

fn main(rt: HostRuntime) -> ExitCode {
    let request = request_of(&rt);
    let (name, most) = record_of(&request);
    let record = match parts_of(&rt, name, most) {
        Ok(record) => record,
        Err(status) => return ExitCode::from(status),
    };
    let streams = Streams {
        input: rt.stdin(),
        output: rt.stdout(),
        shower: rt.stdout(),
        answers: rt.stdout(),
        alarms: rt.stderr(),
        notes: rt.stderr(),
        errors: rt.stderr(),
    };
    let status = serve(&rt, streams, &request, record);
    forget_empty(&rt, name);
    let mut errors = rt.stderr();
    terminal::tell_more(&rt, &mut errors, status, &request);
    ExitCode::from(status)
}
