//! What is told behind the text of an error where standard error is a terminal: why a chart or a script is refused, and which file can't be
//! read.

use crate::arguments::{Request, Shown};
use sfc_plant::plant::Plant;
use sfc_replay::input::read_to_end;
use sfc_why::chart::{Told, explain_chart};
use sfc_why::page::{explanation_of, put_report};
use sfc_why::report::Report;
use sfc_why::script::{ScriptTold, explain_script};
use std::alloc::{AllocError, Global};
use std::fs;
use std::io::{IsTerminal, Stderr};
use std::rt::Files;

// Adds names.
fn add_all<'a>(names: &mut Vec<&'a str>, more: &'a [String]) -> Result<(), AllocError> {
    for name in more {
        names.push(name.as_str())?;
    }
    Ok(())
}

// The name of a chart's file, and those of its scripts behind it; none where nothing is told beside.
fn names_of(alloc: Global, request: &Request) -> Result<Vec<&str>, AllocError> {
    let mut names = Vec::new(alloc);
    match request {
        Request::Check { chart } | Request::List { chart } => names.push(chart.as_str())?,
        Request::Debug(debugging) => names.push(debugging.chart.as_str())?,
        Request::Replay(playing) => {
            names.push(playing.chart.as_str())?;
            names.push(playing.script.as_str())?;
        }
        Request::Run(running) => names.push(running.chart.as_str())?,
        Request::Draw(drawing) => {
            names.push(drawing.chart.as_str())?;
            match &drawing.shown {
                Shown::Types => {}
                Shown::After(script) => names.push(script.as_str())?,
                Shown::Covered(scripts) => add_all(&mut names, scripts)?,
            }
        }
        Request::Wave(waving) => {
            names.push(waving.chart.as_str())?;
            names.push(waving.script.as_str())?;
        }
        Request::Cover(covering) => {
            names.push(covering.chart.as_str())?;
            add_all(&mut names, &covering.scripts)?;
        }
        _ => {}
    }
    Ok(names)
}

// The bytes of a file that can be read a second time; None where it can't, as a pipe.
fn bytes_of<R: Files + AllocGlobal>(rt: &R, name: &str) -> Option<Vec<u8>> {
    match fs::metadata(rt, name) {
        Ok(metadata) if metadata.is_file() => {}
        _ => return None,
    }
    let mut file = fs::open(rt, name).ok()?;
    read_to_end(rt.alloc(), &mut file).ok()
}

// Writes a report; a fault of the writer is passed over.
fn tell(name: &str, report: &Report, errors: &mut Stderr) {
    let explanation = explanation_of(report.refusal);
    let _ = put_report(name.as_bytes(), report, explanation, errors);
}

// Tells the fault of a script; whether it has one.
fn tell_script(
    alloc: Global,
    text: &[u8],
    plant: Plant,
    (name, script): (&str, &[u8]),
    errors: &mut Stderr,
) -> bool {
    match explain_script(alloc, text, plant, script) {
        Ok(ScriptTold::Fault(report)) => {
            tell(name, &report, errors);
            true
        }
        _ => false,
    }
}

// Tells the first fault of the scripts.
fn tell_scripts<R: Files + AllocGlobal>(
    rt: &R,
    text: &[u8],
    scripts: &[&str],
    errors: &mut Stderr,
) {
    for name in scripts {
        let Some(script) = bytes_of(rt, name) else {
            continue;
        };
        let Ok(Told::NoFault(plant)) = explain_chart(rt.alloc(), text) else {
            break;
        };
        if tell_script(rt.alloc(), text, plant, (name, &script), errors) {
            break;
        }
    }
}

// Tells the fault of the chart, or else the first one of its scripts.
fn tell_fault<R: Files + AllocGlobal>(rt: &R, names: &[&str], errors: &mut Stderr) {
    let Some((chart, scripts)) = names.split_first() else {
        return;
    };
    let Some(text) = bytes_of(rt, chart) else {
        return;
    };
    match explain_chart(rt.alloc(), &text) {
        Ok(Told::Fault(report)) => tell(chart, &report, errors),
        Ok(Told::NoFault(_)) => tell_scripts(rt, &text, scripts, errors),
        Err(_) => {}
    }
}

// Whether a file, which is no pipe, can't be read.
fn is_unread<R: Files + AllocGlobal>(rt: &R, name: &str) -> bool {
    match fs::metadata(rt, name) {
        Ok(metadata) if metadata.is_file() || metadata.is_dir() => match fs::open(rt, name) {
            Ok(mut file) => read_to_end(rt.alloc(), &mut file).is_err(),
            Err(_) => true,
        },
        Ok(_) => false,
        Err(_) => true,
    }
}

// Tells the first file that can't be read.
fn tell_unread<R: Eprint + Files + AllocGlobal>(rt: &R, names: &[&str]) {
    for name in names {
        if is_unread(rt, name) {
            let _ = eprintln!(rt; "{name}: it can't be opened, or it can't be read");
            break;
        }
    }
}

/// Where standard error is a terminal and a command has ended with this status, tells behind what it has told why the chart or a script
/// is refused, in the words of `why`, or which file can't be read; nothing of `why`, `report`, `test` and `explain`. A file that isn't a
/// regular one is passed over, since it can't be read twice; so is want of memory, and a fault of standard error.
pub fn tell_more<R: Eprint + Files + AllocGlobal>(
    rt: &R,
    errors: &mut Stderr,
    status: u8,
    request: &Request,
) {
    if !errors.is_terminal() {
        return;
    }
    let Ok(names) = names_of(rt.alloc(), request) else {
        return;
    };
    match status {
        1 => tell_fault(rt, &names, errors),
        3 => tell_unread(rt, &names),
        _ => {}
    }
}
