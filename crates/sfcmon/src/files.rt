//! Files, standard output and exit status.

use crate::arguments::Running;
use crate::lasting::{Lasting, LastingInput};
use crate::sfc_debug::trace_mask::TraceMask;
use sfc_replay::check::{check_chart, list_chart};
use sfc_replay::replay::{replay, replay_strict};
use sfc_replay::replay_error::ReplayError;
use sfc_run::picked::Picked;
use sfc_run::recording::Recording;
use sfc_run::run::run_chart;
use sfc_run::streams::{Asked, Streams as RunStreams};
use std::alloc::{AllocError, Global};
use std::io::{IsTerminal, Read, Stderr, Stdin, Stdout, Write};
use std::rt::Files;
use std::sync::Wait;
use std::thread::Threads;
use std::{fs, io, time};

/// Prints the text of the error on standard error, where a fault is passed over; the exit status.
pub fn end_with<R: Eprint>(rt: &R, error: ReplayError) -> u8 {
    let _ = eprintln!(rt; "{error}");
    error.status()
}

/// Prints the text of the error of a file behind its name on standard error, where a fault is passed over; the exit status.
pub fn end_with_file<R: Eprint>(rt: &R, name: &str, error: ReplayError) -> u8 {
    let _ = eprintln!(rt; "{name}: {error}");
    error.status()
}

/// What a file was read as; None where it can't be read. The one error is that memory was refused.
pub fn bytes_or_none(read: Result<Vec<u8>, ReplayError>) -> Result<Option<Vec<u8>>, AllocError> {
    match read {
        Ok(bytes) => Ok(Some(bytes)),
        Err(ReplayError::Memory) => Err(AllocError),
        Err(_) => Ok(None),
    }
}

/// The files of these names, all of which are opened before one is read; or the exit status of the first that can't be, which is a read fault.
pub fn open_files<R: Eprint + Files + AllocGlobal>(
    rt: &R,
    names: &[String],
) -> Result<Vec<R::File>, u8> {
    let mut files = Vec::new(rt.alloc());
    for name in names {
        let Ok(file) = fs::open(rt, name.as_str()) else {
            return Err(end_with_file(rt, name.as_str(), ReplayError::Read));
        };
        if files.push(file).is_err() {
            return Err(end_with(rt, ReplayError::Memory));
        }
    }
    Ok(files)
}

/// Checks the chart of a file: the exit status. A file that can't be opened is a read fault.
pub fn check_file<R: Print + Eprint + Files + AllocGlobal>(rt: &R, chart: &str) -> u8 {
    let Ok(mut chart) = fs::open(rt, chart) else {
        return end_with(rt, ReplayError::Read);
    };
    let mut out = io::writer(rt);
    match check_chart(rt.alloc(), &mut chart, &mut out) {
        Ok(()) => 0,
        Err(error) => end_with(rt, error),
    }
}

/// Prints the text of the plant that a file's chart is: the exit status. A file that can't be opened is a read fault.
pub fn list_file<R: Print + Eprint + Files + AllocGlobal>(rt: &R, chart: &str) -> u8 {
    let Ok(mut chart) = fs::open(rt, chart) else {
        return end_with(rt, ReplayError::Read);
    };
    let mut out = io::writer(rt);
    match list_chart(rt.alloc(), &mut chart, &mut out) {
        Ok(()) => 0,
        Err(error) => end_with(rt, error),
    }
}

// Plays the script on the chart to the end: the exit status, which is 1 only with `strict`, where a command was refused, or a
// scan of a program ended with a fault or passed it over because of one.
fn play<C: Read, S: Read, W: Write>(
    alloc: Global,
    chart: &mut C,
    script: &mut S,
    writer: &mut W,
    strict: bool,
) -> Result<u8, ReplayError> {
    if !strict {
        replay(alloc, chart, script, writer)?;
        return Ok(0);
    }
    match replay_strict(alloc, chart, script, writer)? {
        true => Ok(1),
        false => Ok(0),
    }
}

/// Plays the script on the chart, from files to standard output: the exit status. Both files are opened before either
/// is read; one that can't be opened is a read fault.
pub fn replay_files<R: Print + Eprint + Files + AllocGlobal>(
    rt: &R,
    chart: &str,
    script: &str,
    strict: bool,
) -> u8 {
    let Ok(mut chart) = fs::open(rt, chart) else {
        return end_with(rt, ReplayError::Read);
    };
    let Ok(mut script) = fs::open(rt, script) else {
        return end_with(rt, ReplayError::Read);
    };
    let mut out = io::writer(rt);
    match play(rt.alloc(), &mut chart, &mut script, &mut out, strict) {
        Ok(status) => status,
        Err(error) => end_with(rt, error),
    }
}

/// Standard input, output and error.
#[derive(Drop)]
pub struct Streams {
    pub input: Stdin,
    pub output: Stdout,
    /// Standard output, for what is shown of a run.
    pub shower: Stdout,
    /// Standard output, for what is answered in a run.
    pub answers: Stdout,
    /// Standard error, for what is told as it happens.
    pub alarms: Stderr,
    /// Standard error, for the end of a record.
    pub notes: Stderr,
    /// Standard error, for all else.
    pub errors: Stderr,
}

// Runs a chart whose session comes from this input: the exit status.
fn run_beside<R, C, S, F>(
    rt: &R,
    chart: &mut C,
    input: &mut S,
    asked: Asked<Stdout, Stderr, F>,
    errors: &mut Stderr,
) -> u8
where
    R: Threads + Wait + time::Clock + Sync + AllocGlobal,
    C: Read,
    S: Read,
    F: Write + Send + Drop,
{
    let mut session = RunStreams {
        commands: input,
        errors,
    };
    run_chart(rt, rt.alloc(), chart, asked, &mut session)
}

// The bytes of words.
fn bytes_of(alloc: Global, words: &[String]) -> Result<Vec<Vec<u8>>, AllocError> {
    let mut texts = Vec::new(alloc);
    for word in words {
        texts.push(word.as_bytes().to_vec(alloc)?)?;
    }
    Ok(texts)
}

// Whether it is shown what changes, and which commands have lines.
#[derive(Clone, Copy)]
struct Picks {
    changes: bool,
    mask: TraceMask,
}

// The same at a terminal, where no word says otherwise: what changes, and all commands but scans.
fn at_terminal(running: &Running) -> Picks {
    if running.has_mask {
        return Picks {
            changes: running.changes,
            mask: running.mask,
        };
    }
    Picks {
        changes: running.changes || running.watched.is_empty(),
        mask: TraceMask(126),
    }
}

// What of a run is shown.
fn picked_of(alloc: Global, running: &Running, changes: bool) -> Result<Picked, AllocError> {
    Ok(Picked {
        changes,
        watched: bytes_of(alloc, &running.watched)?,
        at_end: bytes_of(alloc, &running.at_end)?,
    })
}

// Runs a chart, with a session on standard input, and records it: the exit status.
fn run_recorded<R, C, F>(
    rt: &R,
    chart: &mut C,
    streams: Streams,
    running: &Running,
    (record, recording): (F, Recording),
) -> u8
where
    R: Threads + Wait + time::Clock + Sync + Eprint + AllocGlobal + Copy + Drop + Send + 'static,
    C: Read,
    F: Write + Send + Drop,
{
    let Streams {
        mut input,
        output,
        shower,
        answers,
        alarms,
        notes,
        mut errors,
    } = streams;
    let picks = if input.is_terminal() && output.is_terminal() {
        at_terminal(running)
    } else {
        Picks {
            changes: running.changes,
            mask: running.mask,
        }
    };
    let Ok(picked) = picked_of(rt.alloc(), running, picks.changes) else {
        return end_with(rt, ReplayError::Memory);
    };
    let asked = Asked {
        w: output,
        tells: alarms,
        shower,
        answers,
        record,
        notes,
        recording,
        picked,
        timing: running.timing,
        wanted: picks.mask,
        history: running.history,
    };
    if running.lasting == Lasting::Input {
        return run_beside(rt, chart, &mut input, asked, &mut errors);
    }
    match LastingInput::open(rt, rt.alloc(), input, running.lasting) {
        Ok(mut input) => run_beside(rt, chart, &mut input, asked, &mut errors),
        Err(error) => end_with(rt, error),
    }
}

/// Runs the chart of a file in real time, with a session on standard input, and records it: the exit status. A file that can't be opened is
/// a read fault.
pub fn run_file<R, F>(rt: &R, streams: Streams, running: &Running, record: (F, Recording)) -> u8
where
    R: Threads
        + Wait
        + time::Clock
        + Sync
        + Eprint
        + Files
        + AllocGlobal
        + Copy
        + Drop
        + Send
        + 'static,
    F: Write + Send + Drop,
{
    let Ok(mut chart) = fs::open(rt, running.chart.as_str()) else {
        return end_with(rt, ReplayError::Read);
    };
    run_recorded(rt, &mut chart, streams, running, record)
}
