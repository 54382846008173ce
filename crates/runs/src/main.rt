//! A chart that runs in real time, as two compilers make it: its task is scanned by an edge alone, which never comes, so that the audit at
//! the end counts the commands of standard input and the End behind them.
#![tactic(auto)]

use crate::sfc_debug::trace_mask::TraceMask;
use sfc_run::picked::Picked;
use sfc_run::recording::Recording;
use sfc_run::run::run_chart;
use sfc_run::sfc_control::sfc_debug;
use sfc_run::streams::{Asked, Streams};
use std::process::ExitCode;

const CHART: &[u8] = b"PROGRAM P INITIAL_STEP S: END_STEP END_PROGRAM \
CONFIGURATION C RESOURCE R ON Plc VAR_GLOBAL Go AT %IX0.0 : BOOL; Lamp AT %QX0.0 : BOOL; END_VAR \
TASK Edge(SINGLE := Go, PRIORITY := 1); PROGRAM P1 WITH Edge : P; END_RESOURCE END_CONFIGURATION";

fn main(rt: HostRuntime) -> ExitCode {
    let mut chart = CHART;
    let mut commands = rt.stdin();
    let mut errors = rt.stderr();
    let asked = Asked {
        w: rt.stdout(),
        tells: rt.stderr(),
        shower: rt.stdout(),
        answers: rt.stdout(),
        record: rt.stdout(),
        notes: rt.stderr(),
        recording: Recording::Off,
        picked: Picked {
            changes: false,
            watched: Vec::new(rt.alloc()),
            at_end: Vec::new(rt.alloc()),
        },
        timing: false,
        wanted: TraceMask(0),
        history: 1_048_576,
    };
    let mut streams = Streams {
        commands: &mut commands,
        errors: &mut errors,
    };
    ExitCode::from(run_chart(&rt, rt.alloc(), &mut chart, asked, &mut streams))
}
