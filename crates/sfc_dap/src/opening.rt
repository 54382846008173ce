//! A chart as a launch asks for it.

use crate::debuggee::Debuggee;
use crate::desk::Desk;
use crate::launch::Launch;
use sfc_editing::opened::open_prompt;
use sfc_editing::played::Played;
use sfc_page::append::append;
use sfc_plant::plant::Plant;
use sfc_prompt::prompt::Prompt;
use sfc_replay::replay_error::ReplayError;
use sfc_replay::sfc_script::script::{ScriptError, read_script};
use sfc_showing::chart::Chart;
use sfc_why::chart::{Told, explain_chart};
use sfc_why::page::{explanation_of, put_report};
use sfc_why::report::Report;
use sfc_why::script::{ScriptTold, explain_script};
use std::alloc::{AllocError, Global};

/// What became of a launch.
#[derive(Drop)]
pub enum Opening {
    /// The chart, to which nothing was said.
    Opened(Debuggee),
    /// It is refused: a report, whose first line says why.
    Refused(Vec<u8>),
}

// That a file can't be read.
fn unread(alloc: Global, path: &str) -> Result<Opening, AllocError> {
    let mut text = Vec::new(alloc);
    append(&mut text, path.as_bytes())?;
    append(&mut text, b": can't be read\n")?;
    Ok(Opening::Refused(text))
}

// The report of a fault of a file.
fn report_text(alloc: Global, path: &str, report: &Report) -> Result<Opening, AllocError> {
    let mut text = Vec::new(alloc);
    match put_report(
        path.as_bytes(),
        report,
        explanation_of(report.refusal),
        &mut text,
    ) {
        Ok(()) => Ok(Opening::Refused(text)),
        Err(_) => Err(AllocError),
    }
}

// Why a chart is refused.
fn refused_chart(alloc: Global, path: &str, text: &[u8]) -> Result<Opening, AllocError> {
    match explain_chart(alloc, text)? {
        Told::Fault(report) => report_text(alloc, path, &report),
        Told::NoFault(_) => unread(alloc, path),
    }
}

// Why a script on a plant is refused.
fn script_report(
    alloc: Global,
    path: &str,
    text: &[u8],
    plant: Plant,
    script: &[u8],
) -> Result<Opening, AllocError> {
    match &explain_script(alloc, text, plant, script)? {
        ScriptTold::Fault(report) => report_text(alloc, path, report),
        ScriptTold::NoFault(_) => unread(alloc, path),
    }
}

// Why a script on a chart is refused.
fn refused_script(
    alloc: Global,
    path: &str,
    text: &[u8],
    script: &[u8],
) -> Result<Opening, AllocError> {
    match explain_chart(alloc, text)? {
        Told::Fault(report) => report_text(alloc, path, &report),
        Told::NoFault(plant) => script_report(alloc, path, text, plant, script),
    }
}

// A chart that was opened, with a script whose lines are played.
fn with_script(
    alloc: Global,
    launch: Launch,
    prompt: Prompt,
    chart: Chart,
    script: Vec<u8>,
) -> Result<Opening, AllocError> {
    let said = read_script(alloc, prompt.session().debugger().resource(), &script);
    match said {
        Ok(_) => {
            let played = Some(Played::new(alloc, script));
            Ok(Opening::Opened(Debuggee::new(alloc, launch, prompt, chart, played)))
        }
        Err(ScriptError::Memory) => Err(AllocError),
        Err(ScriptError::Faulty(_)) => {
            let path = launch.script.as_ref().map_or("", |path| path.as_str());
            refused_script(alloc, path, &chart.text, &script)
        }
    }
}

// A chart that was opened, with the script that the launch names.
fn with_files<D: Desk>(
    alloc: Global,
    desk: &mut D,
    launch: Launch,
    prompt: Prompt,
    chart: Chart,
) -> Result<Opening, AllocError> {
    let script = match &launch.script {
        Some(path) => match desk.read(path.as_str())? {
            Some(script) => Some(script),
            None => return unread(alloc, path.as_str()),
        },
        None => None,
    };
    match script {
        Some(script) => with_script(alloc, launch, prompt, chart, script),
        None => Ok(Opening::Opened(Debuggee::new(alloc, launch, prompt, chart, None))),
    }
}

/// The chart that a launch asks for, to which nothing was said, and the script; or why it is refused. The one error is that memory was
/// refused.
pub fn open<D: Desk>(alloc: Global, desk: &mut D, launch: Launch) -> Result<Opening, AllocError> {
    let Some(text) = desk.read(launch.program.as_str())? else {
        return unread(alloc, launch.program.as_str());
    };
    match open_prompt(alloc, &text) {
        Ok(prompt) => {
            let chart = Chart::of_text(alloc, text, prompt.session().plant())?;
            with_files(alloc, desk, launch, prompt, chart)
        }
        Err(ReplayError::Memory) => Err(AllocError),
        Err(_) => refused_chart(alloc, launch.program.as_str(), &text),
    }
}
