//! Runs as waveforms, from files to standard output.

use crate::arguments::Waving;
use crate::files::end_with;
use sfc_replay::replay_error::ReplayError;
use sfc_wave::asked::Asked;
use sfc_wave::wave::wave_script;
use sfc_wave::wave_error::WaveError;
use std::rt::Files;
use std::{fs, io};

// Tells a name that leads to no signal on standard error: the exit status.
fn tell_unknown<R: Eprint>(rt: &R, only: &[String], place: usize) -> u8 {
    let name = match only.get(place) {
        Some(name) => name.as_str(),
        None => "",
    };
    let _ = eprintln!(rt; "error: {}: {name}", WaveError::NoSuchSignal(place));
    2
}

// What is wrong is told on standard error: the exit status.
fn fail<R: Eprint>(rt: &R, waving: &Waving, error: WaveError) -> u8 {
    match error {
        WaveError::Replay(error) => end_with(rt, error),
        WaveError::NoSuchSignal(place) => tell_unknown(rt, &waving.only, place),
        WaveError::TooLong => {
            let _ = eprintln!(rt; "error: {}", WaveError::TooLong);
            1
        }
    }
}

// Writes the save file of a viewer, where one is wanted: the exit status.
fn save_view<R: Eprint + Files>(rt: &R, waving: &Waving, view: &[u8]) -> u8 {
    match &waving.view {
        Some(name) if fs::write(rt, name.as_str(), view).is_err() => {
            end_with(rt, ReplayError::Write)
        }
        _ => 0,
    }
}

/// Plays the script of a file on the chart of another, and shows its signals on standard output, and how a viewer shows them first in a file,
/// where one is named: the exit status. Both files are opened before either is read; one that can't be opened is a read fault, and one that
/// can't be written a write fault.
pub fn wave_files<R: Print + Eprint + Files + AllocGlobal>(rt: &R, waving: &Waving) -> u8 {
    let Ok(mut chart) = fs::open(rt, waving.chart.as_str()) else {
        return end_with(rt, ReplayError::Read);
    };
    let Ok(mut script) = fs::open(rt, waving.script.as_str()) else {
        return end_with(rt, ReplayError::Read);
    };
    let asked = Asked {
        instants: waving.instants,
        form: waving.form,
        only: &waving.only,
    };
    let mut out = io::writer(rt);
    match wave_script(rt.alloc(), &mut chart, &mut script, asked, &mut out) {
        Ok(view) => save_view(rt, waving, &view),
        Err(error) => fail(rt, waving, error),
    }
}
