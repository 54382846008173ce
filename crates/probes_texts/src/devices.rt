//! Readers and writers that fail, or that take and give little at a time.

use crate::broken::{BrokenReader, BrokenWriter, Recorder};
use samples::charts::one_step;
use sfc_base::write_fault::{WriteFault, put_all};
use sfc_events::load_error::LoadError;
use sfc_page::time_text::put_time;
use sfc_replay::replay::replay;
use sfc_replay::replay_error::{ChartError, ReplayError};
use std::alloc::{AllocError, Global};
use std::process::Abort;
use std::test::Fail;

// What the replay of the lamp's chart and script answers to a writer.
fn play_lamp(alloc: Global, writer: &mut BrokenWriter) -> Result<(), ReplayError> {
    let mut chart = BrokenReader::new(one_step().chart, false);
    let mut script = BrokenReader::new(one_step().script, false);
    chart.most = 1;
    script.most = 1;
    replay(alloc, &mut chart, &mut script, writer)
}

// Whether a writer that takes so many bytes has exactly those in the end, and the answer goes with it.
fn keeps_a_front(alloc: Global, output: &[u8], count: usize, fails: bool) -> bool {
    let mut writer = BrokenWriter::new(alloc, count, fails);
    let answer = play_lamp(alloc, &mut writer);
    let wanted = if count < output.len() {
        Err(ReplayError::Write)
    } else {
        Ok(())
    };
    answer == wanted && output.get(..count) == Some(writer.taken.as_slice())
}

#[test]
fn a_writer_that_fails_or_takes_no_byte_has_a_front_of_the_output(rt: HostRuntime) {
    let output = one_step().output;
    for count in 0..=output.len() {
        assert!(rt; keeps_a_front(rt.alloc(), output, count, true), "{count}");
        assert!(rt; keeps_a_front(rt.alloc(), output, count, false), "{count}");
    }
}

#[test]
fn readers_and_a_writer_may_move_one_byte_a_call(rt: HostRuntime) {
    let mut writer = BrokenWriter::new(rt.alloc(), usize::MAX, true);
    writer.most = 1;
    assert_eq!(rt; play_lamp(rt.alloc(), &mut writer), Ok(()));
    assert_eq!(rt; writer.taken.as_slice(), one_step().output);
}

// A chart and a script of which one can be read to some place alone, and what the replay answers then.
#[derive(Clone, Copy)]
struct Cut {
    chart: &'static [u8],
    script: &'static [u8],
    is_of_chart: bool,
    wanted: ReplayError,
}

// A script whose second line is no command.
const FAULTY_SCRIPT: &[u8] = b"T#0s SCAN Main\nT#0s JUMP\n";

// A program type whose only step is not an initial one.
const NO_INITIAL_STEP: &[u8] = b"PROGRAM Mix STEP S: END_STEP END_PROGRAM \
CONFIGURATION C RESOURCE R ON Plc VAR_GLOBAL Lamp : BOOL; END_VAR \
TASK Main(INTERVAL := T#10ms, PRIORITY := 1); PROGRAM P WITH Main : Mix; END_RESOURCE END_CONFIGURATION";

// The chart can't be read; then the script; then the script, beside a chart whose refusal is told first.
fn cuts() -> [Cut; 3] {
    [
        Cut {
            chart: one_step().chart,
            script: FAULTY_SCRIPT,
            is_of_chart: true,
            wanted: ReplayError::Read,
        },
        Cut {
            chart: one_step().chart,
            script: FAULTY_SCRIPT,
            is_of_chart: false,
            wanted: ReplayError::Read,
        },
        Cut {
            chart: NO_INITIAL_STEP,
            script: one_step().script,
            is_of_chart: false,
            wanted: ReplayError::Chart(ChartError::Load(LoadError::NoInitial)),
        },
    ]
}

// What the replay answers where the text breaks off behind so many bytes, and whether nothing was written.
fn play_cut(alloc: Global, cut: Cut, count: usize) -> (Result<(), ReplayError>, bool) {
    let mut chart = BrokenReader::new(cut.chart, cut.is_of_chart);
    let mut script = BrokenReader::new(cut.script, !cut.is_of_chart);
    if cut.is_of_chart {
        chart.rest = &cut.chart[..count.min(cut.chart.len())];
    } else {
        script.rest = &cut.script[..count.min(cut.script.len())];
    }
    let mut written = Vec::new(alloc);
    let answer = replay(alloc, &mut chart, &mut script, &mut written);
    (answer, written.is_empty())
}

// Asks for the answer to the cut at each place, and that nothing is written.
fn check_cut(rt: &impl Abort, alloc: Global, cut: Cut) {
    let text = if cut.is_of_chart {
        cut.chart
    } else {
        cut.script
    };
    for count in 0..=text.len() {
        let answer = play_cut(alloc, cut, count);
        assert_eq!(rt; answer, (Err(cut.wanted), true), "{count}");
    }
}

#[test]
fn nothing_is_written_where_a_text_cannot_be_read(rt: HostRuntime) {
    for cut in cuts() {
        check_cut(&rt, rt.alloc(), cut);
    }
}

#[test]
fn bytes_are_put_whole_or_as_a_front(rt: HostRuntime) -> Result<(), Fail> {
    let mut whole = Vec::new(rt.alloc());
    put_all(&mut whole, b"step")?;
    assert_eq!(rt; whole.as_slice(), b"step".as_slice());
    let mut broken = BrokenWriter::new(rt.alloc(), 3, true);
    assert_eq!(rt; put_all(&mut broken, b"step"), Err(WriteFault));
    assert_eq!(rt; broken.taken.as_slice(), b"ste".as_slice());
    let mut none = BrokenWriter::new(rt.alloc(), 0, false);
    assert_eq!(rt; put_all(&mut none, b"step"), Err(WriteFault));
    assert_eq!(rt; put_all(&mut none, b""), Ok(()));
    Ok(())
}

#[test]
fn a_time_is_put_whole_or_as_a_front(rt: HostRuntime) {
    let text = b"T#1d_1h_1m_1s_1.5ms".as_slice();
    for count in 0..=text.len() {
        let mut broken = BrokenWriter::new(rt.alloc(), count, true);
        let answer = put_time(90_061_001_500, &mut broken);
        assert_eq!(rt; answer.is_ok(), count == text.len(), "{count}");
        assert_eq!(rt; text.get(..count), Some(broken.taken.as_slice()));
    }
}

// A scan of the lamp's task each second, so often that its lines fill the buffer more than once.
fn many_scans(alloc: Global) -> Result<String, AllocError> {
    let mut script = String::new(alloc);
    for second in 0..4_000 {
        let line = format!(in alloc; "T#{second}s SCAN Main\n")?;
        script.push_str(&line)?;
    }
    Ok(script)
}

// The pieces in which the output of these scans is written.
fn pieces_of(alloc: Global, script: &str) -> Result<Vec<Vec<u8>>, Fail> {
    let mut writer = Recorder::new(alloc);
    let mut chart = BrokenReader::new(one_step().chart, false);
    let mut script = BrokenReader::new(script.as_bytes(), false);
    replay(alloc, &mut chart, &mut script, &mut writer).map_err(|_| "a refusal")?;
    let Recorder { alloc: _, pieces } = writer;
    Ok(pieces)
}

#[test]
fn whole_commands_are_written_at_once(rt: HostRuntime) -> Result<(), Fail> {
    let script = many_scans(rt.alloc())?;
    let pieces = pieces_of(rt.alloc(), &script)?;
    assert!(rt; pieces.len() > 2, "{} pieces", pieces.len());
    for piece in &pieces {
        assert!(rt; piece.starts_with(b"T#") && piece.ends_with(b"\n"));
    }
    Ok(())
}
