//! The core's own calls: what is shown beside the output of a replay, and commands that no script gives.

use crate::bench::Bench;
use samples::charts::one_step;
use sfc_base::ids::{TaskId, VarId};
use sfc_base::value::Value;
use sfc_events::event::{Event, Outcome};
use sfc_events::instance_set::InstanceSet;
use sfc_events::refusal::Refusal;
use std::alloc::Global;
use std::process::Abort;
use std::test::Fail;

// An event at an instant, its answer, and what is shown then.
type Row = (Event, i64, Result<Outcome, Refusal>, &'static str);

// A chart, what it shows before some events, and then.
type Run = (&'static [u8], &'static str, &'static [Row]);

const SCAN: Event = Event::Scan(TaskId(0));

const SCANNED: Result<Outcome, Refusal> = Ok(Outcome::Scanned {
    ran: InstanceSet { bits: 1 },
    faulted: InstanceSet { bits: 0 },
    skipped: InstanceSet { bits: 0 },
    overruns: 0,
});

const LIT: [Row; 3] = [
    (
        SCAN,
        0,
        SCANNED,
        "1 active [0] activated [0] elapsed [0] cleared [] q [0] executed [0] true [0] overruns 0",
    ),
    (
        SCAN,
        10_000,
        SCANNED,
        "2 active [0] activated [] elapsed [10000] cleared [] q [0] executed [0] true [0] overruns 0",
    ),
    (
        SCAN,
        20_000,
        SCANNED,
        "3 active [0] activated [] elapsed [20000] cleared [] q [0] executed [0] true [0] overruns 0",
    ),
];

// Two steps, and an input that lets the first one go.
const GO_ALONG: &[u8] = b"PROGRAM Mix INITIAL_STEP S1: Lamp(N); END_STEP STEP S2: END_STEP \
TRANSITION FROM S1 TO S2 := Go; END_TRANSITION END_PROGRAM \
CONFIGURATION C RESOURCE R ON Plc VAR_GLOBAL Go AT %IX0.0 : BOOL; Lamp : BOOL; END_VAR \
TASK Main(INTERVAL := T#10ms, PRIORITY := 1); PROGRAM P WITH Main : Mix; END_RESOURCE END_CONFIGURATION";

// What it shows behind two scans and the input; a refused event leaves it as it is.
const PRESSED: &str =
    "2 active [0] activated [] elapsed [10000, 0] cleared [] q [1] executed [1] true [0, 1] overruns 0";

// A step that is left keeps its time, and its action has a final scan.
const GONE: [Row; 22] = [
    (
        SCAN,
        0,
        SCANNED,
        "1 active [0] activated [0] elapsed [0, 0] cleared [] q [1] executed [1] true [1] overruns 0",
    ),
    (
        SCAN,
        10_000,
        SCANNED,
        "2 active [0] activated [] elapsed [10000, 0] cleared [] q [1] executed [1] true [1] overruns 0",
    ),
    (
        Event::Input(VarId(0), Value::Bool(true)),
        15_000,
        Ok(Outcome::Done),
        PRESSED,
    ),
    (SCAN, -1, Err(Refusal::InstantRange), PRESSED),
    (SCAN, i64::MIN, Err(Refusal::InstantRange), PRESSED),
    (
        Event::Scan(TaskId(9)),
        4_611_686_018_427_387_905,
        Err(Refusal::InstantRange),
        PRESSED,
    ),
    (
        Event::Input(VarId(9), Value::Int(1)),
        i64::MAX,
        Err(Refusal::InstantRange),
        PRESSED,
    ),
    (SCAN, 14_999, Err(Refusal::ClockBack), PRESSED),
    (Event::Scan(TaskId(9)), 0, Err(Refusal::ClockBack), PRESSED),
    (
        Event::Input(VarId(9), Value::Int(1)),
        14_999,
        Err(Refusal::ClockBack),
        PRESSED,
    ),
    (
        Event::Scan(TaskId(1)),
        20_000,
        Err(Refusal::UnknownTask),
        PRESSED,
    ),
    (
        Event::Scan(TaskId(255)),
        15_000,
        Err(Refusal::UnknownTask),
        PRESSED,
    ),
    (
        Event::Input(VarId(2), Value::Bool(true)),
        20_000,
        Err(Refusal::UnknownVar),
        PRESSED,
    ),
    (
        Event::Input(VarId(65_535), Value::Int(1)),
        15_000,
        Err(Refusal::UnknownVar),
        PRESSED,
    ),
    (
        Event::Input(VarId(0), Value::Int(0)),
        20_000,
        Err(Refusal::ValueType),
        PRESSED,
    ),
    (
        Event::Input(VarId(0), Value::Dint(1)),
        20_000,
        Err(Refusal::ValueType),
        PRESSED,
    ),
    (
        Event::Input(VarId(1), Value::Time(0)),
        20_000,
        Err(Refusal::ValueType),
        PRESSED,
    ),
    (
        Event::Input(VarId(1), Value::Bool(false)),
        20_000,
        Err(Refusal::NotInput),
        PRESSED,
    ),
    (SCAN, 15_000, Err(Refusal::NotDue(Some(20_000))), PRESSED),
    (SCAN, 19_999, Err(Refusal::NotDue(Some(20_000))), PRESSED),
    (
        SCAN,
        20_000,
        SCANNED,
        "3 active [1] activated [1] elapsed [20000, 0] cleared [0] q [] executed [1] true [0] overruns 0",
    ),
    (
        SCAN,
        30_000,
        SCANNED,
        "4 active [1] activated [] elapsed [20000, 10000] cleared [] q [] executed [] true [0] overruns 0",
    ),
];

// A step with a transition to itself, and an action that is associated twice.
const LOOP: &[u8] = b"PROGRAM Mix INITIAL_STEP S: B(N); A(N); B(N); END_STEP \
TRANSITION FROM S TO S := TRUE; END_TRANSITION END_PROGRAM CONFIGURATION C RESOURCE R ON Plc \
VAR_GLOBAL A, B : BOOL; END_VAR TASK Main(INTERVAL := T#10ms, PRIORITY := 1); \
PROGRAM P WITH Main : Mix; END_RESOURCE END_CONFIGURATION";

// Each activation begins its time anew.
const LOOPED: [Row; 3] = [
    (
        SCAN,
        0,
        SCANNED,
        "1 active [0] activated [0] elapsed [0] cleared [] q [1, 0] executed [1, 0] true [0, 1] overruns 0",
    ),
    (
        SCAN,
        10_000,
        SCANNED,
        "2 active [0] activated [0] elapsed [0] cleared [0] q [1, 0] executed [1, 0] true [0, 1] overruns 0",
    ),
    (
        SCAN,
        20_000,
        SCANNED,
        "3 active [0] activated [0] elapsed [0] cleared [0] q [1, 0] executed [1, 0] true [0, 1] overruns 0",
    ),
];

// Two transitions from one step, and one from the step behind the first.
const FORK: &[u8] = b"PROGRAM Mix STEP S1: END_STEP INITIAL_STEP S0: END_STEP STEP S2: END_STEP \
TRANSITION FROM S0 TO S1 := TRUE; END_TRANSITION TRANSITION FROM S1 TO S2 := TRUE; END_TRANSITION \
TRANSITION FROM S0 TO S2 := TRUE; END_TRANSITION END_PROGRAM CONFIGURATION C RESOURCE R ON Plc \
VAR_GLOBAL END_VAR TASK Main(INTERVAL := T#10ms, PRIORITY := 1); \
PROGRAM P WITH Main : Mix; END_RESOURCE END_CONFIGURATION";

// A scan goes one step, and the first transition wins.
const FORKED: [Row; 3] = [
    (
        SCAN,
        0,
        SCANNED,
        "1 active [1] activated [1] elapsed [0, 0, 0] cleared [] q [] executed [] true [] overruns 0",
    ),
    (
        SCAN,
        10_000,
        SCANNED,
        "2 active [0] activated [0] elapsed [0, 10000, 0] cleared [0] q [] executed [] true [] overruns 0",
    ),
    (
        SCAN,
        20_000,
        SCANNED,
        "3 active [2] activated [2] elapsed [10000, 10000, 0] cleared [1] q [] executed [] true [] overruns 0",
    ),
];

// The runs, behind a function, so that no proof goes through them.
fn runs() -> [Run; 4] {
    [
        (
            one_step().chart,
            "0 active [] activated [] elapsed [0] cleared [] q [] executed [] true [] overruns 0",
            &LIT,
        ),
        (
            GO_ALONG,
            "0 active [] activated [] elapsed [0, 0] cleared [] q [] executed [] true [] overruns 0",
            &GONE,
        ),
        (
            LOOP,
            "0 active [] activated [] elapsed [0] cleared [] q [] executed [] true [] overruns 0",
            &LOOPED,
        ),
        (
            FORK,
            "0 active [] activated [] elapsed [0, 0, 0] cleared [] q [] executed [] true [] overruns 0",
            &FORKED,
        ),
    ]
}

// Asks that the bench shows this.
fn check_shown(rt: &impl Abort, alloc: Global, bench: &Bench, wanted: &str) -> Result<(), Fail> {
    let found = bench.shown(alloc)?;
    assert_eq!(rt; found.as_str(), wanted);
    Ok(())
}

// Asks for what the bench shows, then for the answers to the events, and for what it shows behind each.
fn check_rows(
    rt: &impl Abort,
    alloc: Global,
    bench: &mut Bench,
    before: &str,
    rows: &[Row],
) -> Result<(), Fail> {
    check_shown(rt, alloc, bench, before)?;
    for (event, t, wanted, shown) in rows {
        let answer = bench.apply(*event, *t);
        assert_eq!(rt; answer, *wanted, "of {event:?} at {t}");
        check_shown(rt, alloc, bench, shown)?;
    }
    Ok(())
}

// Asks for the run.
fn check_run(rt: &impl Abort, alloc: Global, run: Run) -> Result<(), Fail> {
    let (text, before, rows) = run;
    let mut bench = Bench::open(alloc, text)?;
    check_rows(rt, alloc, &mut bench, before, rows)
}

#[test]
fn each_event_has_its_answer_and_its_effect(rt: HostRuntime) -> Result<(), Fail> {
    for run in runs() {
        check_run(&rt, rt.alloc(), run)?;
    }
    Ok(())
}

// Events of which four are accepted.
const EVENTS: [(Event, i64); 8] = [
    (SCAN, 0),
    (Event::Scan(TaskId(1)), 5_000),
    (SCAN, 10_000),
    (Event::Input(VarId(0), Value::Bool(true)), 15_000),
    (Event::Input(VarId(1), Value::Bool(true)), 15_000),
    (SCAN, 14_000),
    (SCAN, 20_000),
    (SCAN, 20_000),
];

// A scan behind them, two releases late.
const LATE: [Row; 1] = [(
    SCAN,
    55_000,
    Ok(Outcome::Scanned {
        ran: InstanceSet { bits: 1 },
        faulted: InstanceSet { bits: 0 },
        skipped: InstanceSet { bits: 0 },
        overruns: 2,
    }),
    "4 active [1] activated [] elapsed [20000, 35000] cleared [] q [] executed [] true [0] overruns 2",
)];

// The events, and the run that begins behind them; behind a function, so that no proof goes through them.
fn some_events() -> (&'static [(Event, i64)], Run) {
    let behind =
        "3 active [1] activated [1] elapsed [20000, 0] cleared [0] q [] executed [1] true [0] overruns 0";
    (&EVENTS, (GO_ALONG, behind, &LATE))
}

#[test]
fn a_list_of_events_goes_on_after_refusals(rt: HostRuntime) -> Result<(), Fail> {
    let (events, (text, behind, late)) = some_events();
    let mut bench = Bench::open(rt.alloc(), text)?;
    assert_eq!(rt; bench.run(events), 4);
    check_rows(&rt, rt.alloc(), &mut bench, behind, late)
}
