//! What scripts on a chart reach together.

use crate::ending::Ending;
use sfc_cover::cover::Cover;
use sfc_replay::replay_error::ReplayError;
use std::alloc::{AllocError, Global};

/// The scripts of a case, and how many percents are wanted at the least.
#[derive(Clone, Copy)]
pub struct Scripts<'a> {
    pub first: &'a [u8],
    pub second: Option<&'a [u8]>,
    pub least: u8,
}

// Plays a script; whether it was played. What is wrong with it is told behind its name.
fn play(
    alloc: Global,
    cover: &mut Cover,
    name: &str,
    script: &[u8],
    ending: &mut Ending,
) -> Result<bool, AllocError> {
    let mut script = script;
    match cover.play(alloc, &mut script) {
        Ok(()) => Ok(true),
        Err(error) => {
            ending.fault = format!(in alloc; "{name}: {error}")?;
            ending.status = error.status();
            Ok(false)
        }
    }
}

// Plays the scripts in turn; whether both were played.
fn play_both(
    alloc: Global,
    cover: &mut Cover,
    scripts: Scripts<'_>,
    ending: &mut Ending,
) -> Result<bool, AllocError> {
    let is_played = play(alloc, cover, "script", scripts.first, ending)?;
    match scripts.second {
        Some(second) if is_played => play(alloc, cover, "second", second, ending),
        _ => Ok(is_played),
    }
}

// Takes over how a command ended.
fn take(alloc: Global, ending: &mut Ending, error: ReplayError) -> Result<(), AllocError> {
    ending.fault = format!(in alloc; "{error}")?;
    ending.status = error.status();
    Ok(())
}

// Plays the scripts and reports what they reach.
fn report(
    alloc: Global,
    cover: &mut Cover,
    scripts: Scripts<'_>,
    ending: &mut Ending,
) -> Result<(), AllocError> {
    if !play_both(alloc, cover, scripts, ending)? {
        return Ok(());
    }
    match cover.put_report(alloc, &mut ending.output) {
        Err(error) => take(alloc, ending, error),
        Ok(()) => {
            if cover.total().is_below(scripts.least) {
                ending.status = 1;
            }
            Ok(())
        }
    }
}

/// How `cover` ends on a chart with these scripts.
pub fn covered(
    alloc: Global,
    chart: &[u8],
    scripts: Scripts<'_>,
    ending: &mut Ending,
) -> Result<(), AllocError> {
    let mut chart = chart;
    match Cover::of_chart(alloc, &mut chart) {
        Err(error) => take(alloc, ending, error),
        Ok(mut cover) => report(alloc, &mut cover, scripts, ending),
    }
}
