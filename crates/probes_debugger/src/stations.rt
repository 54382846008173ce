//! The mixing station of the examples, with a second task, and events for it. They stand behind functions, so that no proof goes
//! through them.

use sfc_base::ids::{ProgId, TaskId, VarId};
use sfc_base::value::Value;
use sfc_events::event::Event;

/// An event, and its instant in microseconds.
pub type TimedEvent = (Event, i64);

// Two branches at once, their join, a time from a variable, a counter; a second task by SINGLE with delays that are stored, and a
// step that can fault.
const MIXING: &[u8] = b"PROGRAM Batch VAR Batches : INT; DoseTime : TIME := T#300ms; END_VAR \
INITIAL_STEP Ready: ReadyLamp(N); END_STEP STEP Water: WaterValve(N); END_STEP STEP WaterIn: END_STEP \
STEP Syrup: SyrupValve(L, DoseTime); END_STEP STEP SyrupIn: END_STEP STEP Mixing: Mixer(N); END_STEP \
STEP Draining: DrainValve(N); Count(P0); END_STEP \
TRANSITION Begin FROM Ready TO (Water, Syrup) := Start AND Empty; END_TRANSITION \
TRANSITION FROM Water TO WaterIn := Full; END_TRANSITION \
TRANSITION FROM Syrup TO SyrupIn := Syrup.T >= DoseTime; END_TRANSITION \
TRANSITION Both FROM (WaterIn, SyrupIn) TO Mixing := TRUE; END_TRANSITION \
TRANSITION FROM Mixing TO Draining := Mixing.T >= T#200ms; END_TRANSITION \
TRANSITION FROM Draining TO Ready := Empty; END_TRANSITION \
ACTION Count: Batches := Batches + 1; END_ACTION END_PROGRAM \
PROGRAM Alarm VAR Rest : INT := 10; END_VAR \
INITIAL_STEP Ringing: Horn(SD, T#150ms); Light(DS, T#50ms); END_STEP STEP Silent: Horn(R); Divide(P1); END_STEP \
TRANSITION FROM Ringing TO Silent := Ringing.T >= T#400ms; END_TRANSITION TRANSITION FROM Silent TO Ringing := TRUE; END_TRANSITION \
ACTION Divide: Rest := 10 / (Rest - 10); END_ACTION END_PROGRAM \
CONFIGURATION Station RESOURCE Cpu ON Plc VAR_GLOBAL Start AT %IX0.0 : BOOL; Full AT %IX0.1 : BOOL; \
Empty AT %IX0.2 : BOOL := TRUE; WaterValve AT %QX0.0 : BOOL; SyrupValve AT %QX0.1 : BOOL; Mixer AT %QX0.2 : BOOL; \
DrainValve AT %QX0.3 : BOOL; ReadyLamp AT %QX0.4 : BOOL; Horn : BOOL; Light : BOOL; END_VAR \
TASK Main(INTERVAL := T#100ms, PRIORITY := 1); TASK Side(SINGLE := Full, INTERVAL := T#150ms, PRIORITY := 2); \
PROGRAM Tank1 WITH Main : Batch; PROGRAM Alarm1 WITH Side : Alarm; END_RESOURCE END_CONFIGURATION";

const MAIN: Event = Event::Scan(TaskId(0));

const SIDE: Event = Event::Scan(TaskId(1));

const START: VarId = VarId(0);

const FULL: VarId = VarId(1);

const EMPTY: VarId = VarId(2);

// The script of the example, with scans of the other task, a force over an input and refused events between.
const MIXING_EVENTS: [TimedEvent; 33] = [
    (MAIN, 0),
    (SIDE, 0),
    (Event::Input(START, Value::Bool(true)), 50_000),
    (MAIN, 100_000),
    (Event::Input(START, Value::Bool(false)), 150_000),
    (Event::Input(EMPTY, Value::Bool(false)), 150_000),
    (SIDE, 150_000),
    (MAIN, 200_000),
    (SIDE, 210_000),
    (Event::Input(FULL, Value::Bool(true)), 250_000),
    (SIDE, 260_000),
    (Event::Force(START, Value::Bool(true)), 270_000),
    (Event::Input(START, Value::Bool(false)), 280_000),
    (MAIN, 300_000),
    (MAIN, 400_000),
    (MAIN, 450_000),
    (Event::Release(START), 460_000),
    (Event::Release(START), 470_000),
    (MAIN, 500_000),
    (MAIN, 600_000),
    (MAIN, 700_000),
    (Event::Input(FULL, Value::Bool(false)), 750_000),
    (MAIN, 800_000),
    (SIDE, 820_000),
    (Event::Input(EMPTY, Value::Bool(true)), 850_000),
    (MAIN, 900_000),
    (SIDE, 930_000),
    (MAIN, 1_000_000),
    (SIDE, 1_060_000),
    (Event::ForcedScan(TaskId(1)), 1_070_000),
    (Event::Reset(ProgId(1)), 1_080_000),
    (SIDE, 1_400_000),
    (MAIN, 1_400_000),
];

// What another resource of this chart was told: much later, with another force, and with other steps active.
const OTHER_EVENTS: [TimedEvent; 9] = [
    (MAIN, 5_000_000),
    (SIDE, 5_000_000),
    (Event::Force(FULL, Value::Bool(true)), 5_010_000),
    (Event::Force(EMPTY, Value::Bool(true)), 5_020_000),
    (Event::Input(START, Value::Bool(true)), 5_050_000),
    (MAIN, 5_100_000),
    (SIDE, 5_700_000),
    (Event::ForcedScan(TaskId(1)), 6_300_000),
    (MAIN, 7_000_000),
];

/// The chart.
pub fn mixing_station() -> &'static [u8] {
    MIXING
}

/// Its events.
pub fn mixing_events() -> &'static [TimedEvent] {
    &MIXING_EVENTS
}

/// Events of another day.
pub fn other_events() -> &'static [TimedEvent] {
    &OTHER_EVENTS
}
