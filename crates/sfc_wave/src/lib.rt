//! Runs as waveforms: the signals of a run for viewers, as a Value Change Dump, and as a picture. A waveform shows what the windows on program
//! instances tell; its text is our choice, and no clause says what it is.
//!
//! - `assigned`: which variables bodies assign.
//! - `asked`: what is asked of a waveform.
//! - `changes`: the changes of signals that are kept for a picture.
//! - `declared`: the declarations of a waveform.
//! - `due`: which variables are looked at behind a scan.
//! - `dump`: a Value Change Dump as it goes on.
//! - `instance`: the signals of an instance's steps and actions.
//! - `named`: the names of signals.
//! - `picked`: which signals are wanted.
//! - `piece`: a few lines of a Value Change Dump.
//! - `row`: a signal as a row of a picture.
//! - `shown`: what was shown last of an instance.
//! - `signal`, `signals`: what a waveform shows.
//! - `timing`: the picture of a run.
//! - `view`: the signals as a viewer shows them first.
//! - `wave`: a script on a chart as a waveform, from bytes to bytes.
//! - `wave_error`: why there is no waveform.
//! - `waveform`: a waveform as it goes on.
#![tactic(auto)]

pub mod asked;
mod assigned;
mod changes;
mod declared;
mod due;
mod dump;
mod instance;
mod named;
mod picked;
mod piece;
mod row;
mod shown;
mod signal;
mod signals;
mod timing;
mod view;
pub mod wave;
pub mod wave_error;
mod waveform;

// What lies deeper, under a name of this crate.
use sfc_core::sfc_instances::sfc_instance;
use sfc_debug::sfc_core;
use sfc_replay::sfc_output::sfc_debug;
