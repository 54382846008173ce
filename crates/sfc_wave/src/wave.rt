//! A script on a chart as a waveform, from bytes to bytes.

ghost use Rattle.std.specs.Prelude.{None, ⊤};

use crate::asked::{Asked, Form, Instants};
use crate::sfc_debug::debugger::Debugger;
use crate::sfc_debug::timed::Timed;
use crate::timing::append_timing;
use crate::view::save_file;
use crate::wave_error::WaveError;
use crate::waveform::Waveform;
use sfc_events::command::Answer;
use sfc_events::refusal::Refusal;
use sfc_page::append::append;
use sfc_page::page::Page;
use sfc_replay::opening::{Opened, open_from};
use sfc_replay::play::play;
use sfc_replay::report::Report;
use std::alloc::{AllocError, Global};
use std::io::{Read, Write};

// The waveform of a run, and what is asked of it.
#[derive(Drop)]
struct Traced<'a> {
    waveform: Waveform,
    asked: Asked<'a>,
}

impl Traced<'_> {
    // The instant of an accepted command.
    fn instant_of(&self, debugger: &Debugger, timed: &Timed) -> i64 {
        match self.asked.instants {
            Instants::Run => debugger.run_instant(),
            Instants::Raw => timed.raw,
        }
    }

    // Whether a picture has room for all changes.
    fn has_room(&self) -> bool {
        match self.waveform.dump.kept() {
            Some(changes) => !changes.is_over,
            None => true,
        }
    }
}

// What it says of a command is what has changed, which no rule says by how the debugger stands.
impl Report for Traced<'_> {
    ghost lines = { λ _. None };

    ghost fits = { λ _ _. ⊤ };

    ghost agrees = { λ _ _ _. ⊤ };

    fn put_answer(
        &mut self,
        page: &mut Page,
        debugger: &Debugger,
        timed: &Timed,
        answer: &Result<Answer, Refusal>,
    ) -> Result<(), AllocError> {
        let Ok(answer) = answer else {
            return Ok(());
        };
        let instant = self.instant_of(debugger, timed);
        self.waveform
            .follow(debugger, instant, timed.command, *answer)?;
        page.line.pass_on(&mut page.text)?;
        append(&mut page.text, &self.waveform.dump.text)?;
        self.waveform.dump.text.clear();
        Ok(())
    }

    fn append_closing(
        &mut self,
        _alloc: Global,
        out: &mut Vec<u8>,
        debugger: &Debugger,
    ) -> Result<(), AllocError> {
        self.waveform.end()?;
        match self.asked.form {
            Form::Dump => append(out, &self.waveform.dump.text),
            Form::Picture => append_timing(out, debugger.resource(), &self.waveform, self.asked),
        }
    }
}

/// Plays a script on a chart, and writes how its signals go: of each step X and T, and the names of an instance's active steps, of each action
/// Q and A, of each variable its value and whether it is forced, of each task its scans and overruns, and whether the resource is halted.
/// Those that are wanted, as a Value Change Dump (IEEE 1364), or as a picture in SVG. Instants are microseconds. It answers the text of a save
/// file of GTKWave with these signals: inputs, steps, outputs in that order.
///
/// The chart is read and loaded first, then the whole script is read, and only then is anything written. At most 1,048,577 bytes are taken
/// from each reader. The errors are those of `replay`, that a name leads to no signal, and that there are more changes than a picture has:
/// with these two, `Chart`, `Script` and `Read` nothing was written, with `Write` and `Memory` a front of the text. A command that is refused
/// changes nothing, and isn't shown.
pub fn wave_script<C: Read, S: Read, W: Write>(
    alloc: Global,
    chart: &mut C,
    script: &mut S,
    asked: Asked<'_>,
    w: &mut W,
) -> Result<Vec<u8>, WaveError> {
    let Opened {
        mut debugger,
        commands,
    } = open_from(alloc, chart, script)?;
    let waveform = Waveform::new(alloc, &debugger, asked)?;
    let resource = debugger.resource();
    let view = save_file(
        alloc,
        resource,
        &waveform.signals,
        waveform.dump.picked(),
        asked,
    )?;
    let mut traced = Traced { waveform, asked };
    play(alloc, &mut traced, &mut debugger, &commands, w)?;
    if traced.has_room() {
        Ok(view)
    } else {
        Err(WaveError::TooLong)
    }
}
