//! The debugger's own calls, before scripts have its commands: commands, what they are answered, and the clock and mode behind them.

use crate::sfc_check::type_error::TypeError;
use crate::sfc_core::resource::Resource;
use crate::sfc_debug::break_condition::BreakCondition;
use crate::sfc_debug::debugger::Debugger;
use crate::sfc_debug::mode::Mode;
use crate::sfc_debug::opening::DebugOpening;
use crate::sfc_debug::trace_mask::TraceMask;
use samples::charts::one_step;
use samples::loaded::plant_of;
use sfc_base::ids::{ActionNumber, ProgId, TaskId, TransitionId, VarId};
use sfc_base::references::StepId;
use sfc_base::ticks::Ticks;
use sfc_base::value::Value;
use sfc_events::command::{Answer, Command, CondId, Point};
use sfc_events::instance_set::InstanceSet;
use sfc_events::refusal::Refusal;
use sfc_expr::expr::Expr;
use sfc_list::list_expr::list_expr;
use sfc_plant::plant::Plant;
use sfc_script::condition_error::ConditionError;
use sfc_script::conditions::conditions_of;
use sfc_text::read_expr::read_expr;
use std::alloc::Global;
use std::process::Abort;
use std::test::Fail;

// A command, its raw instant, what it is answered, and the run instant and the mode behind it.
type Row = (Command, i64, Result<Answer, Refusal>, i64, Mode);

const MAIN: TaskId = TaskId(0);

const SCAN: Command = Command::Scan(MAIN);

const P: ProgId = ProgId(0);

// A step that is reached after 20 ms, beside a lamp that is lit after 30 ms.
const TWO_BRANCHES: &[u8] =
    b"PROGRAM Mix INITIAL_STEP S1: V(D, T#30ms); END_STEP INITIAL_STEP B1: END_STEP STEP B2: END_STEP \
TRANSITION FROM B1 TO B2 := B1.T >= T#20ms; END_TRANSITION END_PROGRAM \
CONFIGURATION C RESOURCE R ON Plc VAR_GLOBAL V : BOOL; END_VAR \
TASK Main(INTERVAL := T#10ms, PRIORITY := 1); PROGRAM P WITH Main : Mix; END_RESOURCE END_CONFIGURATION";

const B2: Point = Point::Step(StepId(2));

const V: Point = Point::Action(ActionNumber(0));

fn two_branches() -> &'static [u8] {
    TWO_BRANCHES
}

// The task's one instance ran.
const RAN: Result<Answer, Refusal> = Ok(Answer::Scanned {
    ran: InstanceSet { bits: 1 },
    faulted: InstanceSet { bits: 0 },
    skipped: InstanceSet { bits: 0 },
    overruns: 0,
    hit: false,
});

// The same, and a breakpoint was hit.
const HIT: Result<Answer, Refusal> = Ok(Answer::Scanned {
    ran: InstanceSet { bits: 1 },
    faulted: InstanceSet { bits: 0 },
    skipped: InstanceSet { bits: 0 },
    overruns: 0,
    hit: true,
});

const DONE: Result<Answer, Refusal> = Ok(Answer::Done);

// The step is a breakpoint: the scan that reaches it halts the resource, and nothing of the halt is seen afterwards.
const HALTED: [Row; 9] = [
    (Command::Break(P, B2), 0, DONE, 0, Mode::Running),
    (SCAN, 0, RAN, 0, Mode::Running),
    (SCAN, 10_000, RAN, 10_000, Mode::Running),
    (SCAN, 20_000, HIT, 20_000, Mode::Stopped),
    (
        SCAN,
        1_000_000,
        Err(Refusal::Stopped),
        20_000,
        Mode::Stopped,
    ),
    (Command::Epoch, 4_000_000, DONE, 20_000, Mode::Stopped),
    (Command::Go, 5_000_000, DONE, 20_000, Mode::Running),
    (SCAN, 5_010_000, RAN, 30_000, Mode::Running),
    (
        Command::Read(VarId(0)),
        5_010_000,
        Ok(Answer::Value(Value::Bool(true))),
        30_000,
        Mode::Running,
    ),
];

// Single scans, each with its own time.
const SINGLE: [Row; 8] = [
    (
        Command::Single(MAIN, 7_000),
        0,
        Err(Refusal::NotStopped),
        0,
        Mode::Running,
    ),
    (Command::Stop, 0, DONE, 0, Mode::Stopped),
    (SCAN, 1_000, Err(Refusal::Stopped), 0, Mode::Stopped),
    (
        Command::Single(MAIN, 7_000),
        2_000,
        RAN,
        7_000,
        Mode::Stopped,
    ),
    (
        Command::Single(MAIN, 2_000),
        3_000,
        RAN,
        9_000,
        Mode::Stopped,
    ),
    (
        Command::Stop,
        4_000,
        Err(Refusal::NotRunning),
        9_000,
        Mode::Stopped,
    ),
    (Command::Go, 4_000, DONE, 9_000, Mode::Running),
    (SCAN, 5_000, RAN, 10_000, Mode::Running),
];

// What is refused, in its order, and both ends of instants and deltas.
const REFUSED: [Row; 21] = [
    (
        Command::Break(P, Point::Step(StepId(1))),
        0,
        Err(Refusal::NoSuchPoint),
        0,
        Mode::Running,
    ),
    (
        Command::Break(P, Point::Transition(TransitionId(0))),
        0,
        Err(Refusal::NoSuchPoint),
        0,
        Mode::Running,
    ),
    (
        Command::Break(P, Point::Action(ActionNumber(1))),
        0,
        Err(Refusal::NoSuchPoint),
        0,
        Mode::Running,
    ),
    (
        Command::Break(ProgId(1), Point::Step(StepId(9))),
        0,
        Err(Refusal::UnknownProgram),
        0,
        Mode::Running,
    ),
    (
        Command::Unbreak(P, Point::Step(StepId(0))),
        0,
        Err(Refusal::NoSuchPoint),
        0,
        Mode::Running,
    ),
    (
        Command::BreakIf(P, Point::Step(StepId(0)), CondId(0)),
        0,
        Err(Refusal::NoSuchCondition),
        0,
        Mode::Running,
    ),
    (
        Command::Read(VarId(1)),
        0,
        Err(Refusal::UnknownVar),
        0,
        Mode::Running,
    ),
    (Command::Go, 0, Err(Refusal::NotStopped), 0, Mode::Running),
    (
        Command::End,
        i64::MIN,
        Err(Refusal::InstantRange),
        0,
        Mode::Running,
    ),
    (
        Command::End,
        i64::MAX,
        Err(Refusal::InstantRange),
        0,
        Mode::Running,
    ),
    (
        Command::Read(VarId(0)),
        1_000,
        Ok(Answer::Value(Value::Bool(false))),
        1_000,
        Mode::Running,
    ),
    (
        Command::Stop,
        999,
        Err(Refusal::ClockBack),
        1_000,
        Mode::Running,
    ),
    (Command::Stop, 2_000, DONE, 2_000, Mode::Stopped),
    (
        Command::Single(MAIN, -1),
        3_000,
        Err(Refusal::InstantRange),
        2_000,
        Mode::Stopped,
    ),
    (
        Command::Single(TaskId(7), i64::MIN),
        3_000,
        Err(Refusal::InstantRange),
        2_000,
        Mode::Stopped,
    ),
    (
        Command::Single(TaskId(7), i64::MAX),
        3_000,
        Err(Refusal::InstantRange),
        2_000,
        Mode::Stopped,
    ),
    (
        Command::Single(TaskId(7), 0),
        3_000,
        Err(Refusal::UnknownTask),
        2_000,
        Mode::Stopped,
    ),
    (
        Command::Single(MAIN, 4_611_686_018_427_385_905),
        3_000,
        Err(Refusal::InstantRange),
        2_000,
        Mode::Stopped,
    ),
    (
        Command::Read(VarId(0)),
        4_611_686_018_427_387_904,
        Ok(Answer::Value(Value::Bool(false))),
        2_000,
        Mode::Stopped,
    ),
    (
        Command::End,
        4_611_686_018_427_387_904,
        DONE,
        2_000,
        Mode::Ended,
    ),
    (
        Command::Read(VarId(9)),
        i64::MIN,
        Err(Refusal::Ended),
        2_000,
        Mode::Ended,
    ),
];

// Waits for the lamp, which is not lit yet: no hit, and the resource runs on.
const WAITS: [Row; 5] = [
    (
        Command::BreakIf(P, B2, CondId(0)),
        0,
        DONE,
        0,
        Mode::Running,
    ),
    (SCAN, 0, RAN, 0, Mode::Running),
    (SCAN, 10_000, RAN, 10_000, Mode::Running),
    (SCAN, 20_000, RAN, 20_000, Mode::Running),
    (SCAN, 30_000, RAN, 30_000, Mode::Running),
];

// The lamp is lit 10 ms after the step was reached.
const LATE: [Row; 5] = [
    (Command::BreakIf(P, V, CondId(0)), 0, DONE, 0, Mode::Running),
    (SCAN, 0, RAN, 0, Mode::Running),
    (SCAN, 10_000, RAN, 10_000, Mode::Running),
    (SCAN, 20_000, RAN, 20_000, Mode::Running),
    (SCAN, 30_000, HIT, 30_000, Mode::Stopped),
];

// The condition always ends with a fault.
const FAULTS: [Row; 5] = [
    (Command::BreakIf(P, V, CondId(0)), 0, DONE, 0, Mode::Running),
    (SCAN, 0, RAN, 0, Mode::Running),
    (SCAN, 10_000, RAN, 10_000, Mode::Running),
    (SCAN, 20_000, RAN, 20_000, Mode::Running),
    (SCAN, 30_000, RAN, 30_000, Mode::Running),
];

// A debugger of a chart, with the newest 64 rows.
fn opened(alloc: Global, chart: &[u8]) -> Result<Debugger, Fail> {
    let resource = Resource::open(alloc, plant_of(alloc, chart)?)?;
    Ok(Debugger::new(alloc, resource, 64, TraceMask(127))?)
}

// The table of these conditions, each of its program instance.
fn table_of(
    alloc: Global,
    plant: &Plant,
    texts: &[(ProgId, &[u8])],
) -> Result<Result<Vec<BreakCondition>, ConditionError>, Fail> {
    let mut written = Vec::new(alloc);
    for (program, text) in texts {
        written.push((*program, read_expr(alloc, text)?))?;
    }
    Ok(conditions_of(alloc, plant, &written))
}

// A debugger of a chart with one condition.
fn opened_with(alloc: Global, chart: &[u8], text: &[u8]) -> Result<Debugger, Fail> {
    let plant = plant_of(alloc, chart)?;
    let written = [(P, read_expr(alloc, text)?)];
    let conditions = conditions_of(alloc, &plant, &written)?;
    let resource = Resource::open(alloc, plant)?;
    Ok(Debugger::with_conditions(alloc, resource, 64, TraceMask(127), conditions)?)
}

// Asks for each of the rows.
fn check_rows(rt: &impl Abort, debugger: &mut Debugger, rows: &[Row]) {
    let mut ticks = Ticks::new();
    for (command, raw, answer, t, mode) in rows {
        assert_eq!(rt;
            debugger.command(*command, *raw, &mut ticks),
            *answer,
            "{command:?} at {raw}"
        );
        assert_eq!(rt; debugger.run_instant(), *t, "behind {command:?} at {raw}");
        assert_eq!(rt; debugger.mode(), *mode, "behind {command:?} at {raw}");
    }
}

#[test]
fn a_halt_is_not_seen_afterwards(rt: HostRuntime) -> Result<(), Fail> {
    check_rows(&rt, &mut opened(rt.alloc(), two_branches())?, &HALTED);
    Ok(())
}

#[test]
fn single_scans_have_their_own_time(rt: HostRuntime) -> Result<(), Fail> {
    check_rows(&rt, &mut opened(rt.alloc(), one_step().chart)?, &SINGLE);
    Ok(())
}

#[test]
fn refusals_come_in_order(rt: HostRuntime) -> Result<(), Fail> {
    check_rows(&rt, &mut opened(rt.alloc(), one_step().chart)?, &REFUSED);
    Ok(())
}

#[test]
fn a_condition_is_waited_for(rt: HostRuntime) -> Result<(), Fail> {
    let alloc = rt.alloc();
    let chart = two_branches();
    check_rows(&rt, &mut opened_with(alloc, chart, b"V")?, &WAITS);
    check_rows(
        &rt,
        &mut opened_with(alloc, chart, b"B2.T >= T#10ms")?,
        &LATE,
    );
    check_rows(&rt, &mut opened_with(alloc, chart, b"1 / 0 = 1")?, &FAULTS);
    Ok(())
}

// What is no condition of the chart: of no program instance, or with a fault of its types.
#[test]
fn each_condition_is_checked(rt: HostRuntime) -> Result<(), Fail> {
    let alloc = rt.alloc();
    let plant = plant_of(alloc, two_branches())?;
    let rows: [(&[(ProgId, &[u8])], Option<ConditionError>); 7] = [
        (&[], None),
        (&[(P, b"V"), (P, b"NOT v OR b1.t = t#1000ms")], None),
        (
            &[(P, b"V"), (ProgId(1), b"W")],
            Some(ConditionError::UnknownProgram(1)),
        ),
        (
            &[(P, b"W"), (ProgId(1), b"V")],
            Some(ConditionError::Wrong(0, TypeError::Unknown)),
        ),
        (
            &[(P, b"V"), (P, b"B2.T")],
            Some(ConditionError::Wrong(1, TypeError::WrongType)),
        ),
        (
            &[(P, b"V"), (P, b"B2.T > 1")],
            Some(ConditionError::Wrong(1, TypeError::WrongType)),
        ),
        (
            &[(P, b"INT#32768 = INT#1")],
            Some(ConditionError::Wrong(0, TypeError::LiteralRange)),
        ),
    ];
    for (texts, wanted) in rows {
        let table = table_of(alloc, &plant, texts)?;
        assert_eq!(&rt; table.err(), wanted);
    }
    Ok(())
}

// The expression as a listing of the plant writes it.
fn listed(rt: &impl Abort, alloc: Global, plant: &Plant, expr: &Expr) -> Result<Vec<u8>, Fail> {
    assert!(rt; !plant.instances().is_empty());
    let mut text = Vec::new(alloc);
    list_expr(plant, P, expr, &mut text)?;
    Ok(text)
}

#[test]
fn a_condition_is_shown(rt: HostRuntime) -> Result<(), Fail> {
    let debugger = opened_with(rt.alloc(), two_branches(), b"not v & b2.t > t#1000ms")?;
    assert!(&rt; debugger.condition(CondId(1)).is_none());
    let (program, expr) = debugger.condition(CondId(0)).ok_or("no condition")?;
    assert_eq!(&rt; program, P);
    let text = listed(&rt, rt.alloc(), debugger.resource().plant(), expr)?;
    assert_eq!(&rt; text.as_slice(), b"NOT V AND B2.T > T#1s".as_slice());
    Ok(())
}

// The debugger is saved, told other commands, and restored.
fn interrupt(alloc: Global, debugger: &mut Debugger) -> Result<(), Fail> {
    let mut opening = DebugOpening::new(alloc, debugger)?;
    let mut ticks = Ticks::new();
    debugger.save(&mut opening);
    let _ = debugger.command(Command::Go, 6_000_000, &mut ticks);
    let _ = debugger.command(Command::Break(P, V), 6_000_000, &mut ticks);
    let _ = debugger.command(SCAN, 7_000_000, &mut ticks);
    let _ = debugger.command(Command::Unbreak(P, B2), 8_000_000, &mut ticks);
    debugger.restore(&opening);
    Ok(())
}

// The rows, where the debugger is interrupted after so many of them.
fn check_interrupted(
    rt: &impl Abort,
    alloc: Global,
    rows: &[Row],
    place: usize,
) -> Result<(), Fail> {
    let mut debugger = opened_with(alloc, two_branches(), b"B2.T >= T#10ms")?;
    check_rows(rt, &mut debugger, rows.get(..place).ok_or("no such place")?);
    let accepted = debugger.accepted();
    interrupt(alloc, &mut debugger)?;
    assert_eq!(rt; debugger.accepted(), accepted);
    check_rows(rt, &mut debugger, rows.get(place..).ok_or("no such place")?);
    Ok(())
}

// tests/refused.sh refuses each allocation of it in turn.
#[test]
fn a_debugger_is_interrupted_once(rt: HostRuntime) -> Result<(), Fail> {
    check_interrupted(&rt, rt.alloc(), &LATE, 4)
}

#[test]
fn a_restored_debugger_goes_on(rt: HostRuntime) -> Result<(), Fail> {
    for place in 0..=9 {
        check_interrupted(&rt, rt.alloc(), &HALTED, place)?;
    }
    for place in 0..=5 {
        check_interrupted(&rt, rt.alloc(), &LATE, place)?;
    }
    Ok(())
}

#[test]
fn the_newest_rows_are_kept(rt: HostRuntime) -> Result<(), Fail> {
    let alloc = rt.alloc();
    let resource = Resource::open(alloc, plant_of(alloc, one_step().chart)?)?;
    let mask = TraceMask::SCAN | TraceMask::READ;
    let mut debugger = Debugger::new(alloc, resource, 2, mask)?;
    let mut ticks = Ticks::new();
    assert_eq!(&rt; debugger.command(SCAN, 0, &mut ticks), RAN);
    assert_eq!(&rt;
        debugger.command(Command::Force(VarId(0), Value::Bool(false)), 0, &mut ticks),
        DONE
    );
    assert_eq!(&rt;
        debugger.command(Command::Read(VarId(0)), 1_000, &mut ticks),
        Ok(Answer::Value(Value::Bool(false)))
    );
    assert_eq!(&rt; debugger.command(SCAN, 10_000, &mut ticks), RAN);
    assert_eq!(&rt;
        debugger.trace(0).map(|row| (row.number, row.t)),
        Some((4, 10_000))
    );
    assert_eq!(&rt;
        debugger.trace(1).map(|row| (row.number, row.t)),
        Some((3, 1_000))
    );
    assert!(&rt; debugger.trace(2).is_none());
    assert_eq!(&rt; debugger.accepted(), 4);
    let resource = debugger.resource();
    assert!(&rt; resource.variables() > 0);
    assert_eq!(&rt; resource.value(VarId(0)), Value::Bool(false));
    Ok(())
}
