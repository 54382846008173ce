//! What scripts on a chart reach together, from files to standard output.

use crate::arguments::Covering;
use crate::files::{end_with, end_with_file, open_files};
use sfc_cover::cover::Cover;
use sfc_replay::replay_error::ReplayError;
use std::io::Read;
use std::rt::Files;
use std::{fs, io};

// Plays the scripts; or the exit status of the first that is refused.
fn play_all<R: Eprint + AllocGlobal, S: Read>(
    rt: &R,
    cover: &mut Cover,
    scripts: &mut [S],
    names: &[String],
) -> Result<(), u8> {
    for (script, name) in scripts.iter_mut().zip(names) {
        if let Err(error) = cover.play(rt.alloc(), script) {
            return Err(end_with_file(rt, name.as_str(), error));
        }
    }
    Ok(())
}

/// Tells that less was reached than is wanted, in percents: the exit status.
pub fn end_below<R: Eprint>(rt: &R, percent: u64, least: u8) -> u8 {
    let _ = eprintln!(rt; "{percent} % is less than {least} %");
    1
}

// Prints the report; the exit status.
fn print_report<R: Print + Eprint + AllocGlobal>(rt: &R, cover: &Cover, least: u8) -> u8 {
    let mut out = io::writer(rt);
    match cover.put_report(rt.alloc(), &mut out) {
        Err(error) => end_with(rt, error),
        Ok(()) if cover.total().is_below(least) => { end_below(rt, cover.total().percent(), least) }
        Ok(()) => 0,
    }
}

// Plays the scripts, which are open, on the chart; or the exit status.
fn cover_opened<R: Eprint + AllocGlobal, C: Read, S: Read>(
    rt: &R,
    chart: &mut C,
    scripts: &mut [S],
    names: &[String],
) -> Result<Cover, u8> {
    match Cover::of_chart(rt.alloc(), chart) {
        Ok(mut cover) => {
            play_all(rt, &mut cover, scripts, names)?;
            Ok(cover)
        }
        Err(error) => Err(end_with(rt, error)),
    }
}

/// A chart with what the scripts in the files of these names reach together; or the exit status. All files are opened before one is read;
/// one that can't be opened is a read fault. What is wrong with a script is told behind the name of its file.
pub fn open_cover<R: Eprint + Files + AllocGlobal, C: Read>(
    rt: &R,
    chart: &mut C,
    names: &[String],
) -> Result<Cover, u8> {
    let mut scripts = open_files(rt, names)?;
    cover_opened(rt, chart, &mut scripts, names)
}

/// Plays the scripts of files on the chart of another, and prints on standard output what they reach together: the exit status, which is 1
/// also where that is less than the percents that are wanted. All files are opened before one is read; one that can't be opened is a read
/// fault. What is wrong with a script is told behind the name of its file.
pub fn cover_files<R: Print + Eprint + Files + AllocGlobal>(rt: &R, covering: &Covering) -> u8 {
    let Ok(mut chart) = fs::open(rt, covering.chart.as_str()) else {
        return end_with(rt, ReplayError::Read);
    };
    match open_cover(rt, &mut chart, &covering.scripts) {
        Ok(cover) => print_report(rt, &cover, covering.least),
        Err(status) => status,
    }
}
