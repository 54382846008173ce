//! What is loaded of a text: each part of the plant, by number where the text has names.

use samples::charts::mixture;
use samples::loaded::plant_of;
use sfc_plant::plant::Plant;
use sfc_plant::program_type::ProgramType;
use std::alloc::{AllocError, Global};
use std::process::Abort;
use std::test::Fail;

// A tree as `{:?}` writes it, from a shorter text, in which a name stands between quotes, and the elements of a
// list between angle brackets.
fn written_out(alloc: Global, short: &str) -> Result<String, AllocError> {
    let mut text = String::new(alloc);
    let mut is_name = false;
    for part in short.split('\'') {
        if is_name {
            let bytes = part.as_bytes();
            write!(text, "Name {{ bytes: {bytes:?} }}")?;
        } else {
            text.push_str(part)?;
        }
        is_name = !is_name;
    }
    let opened = text.replace(alloc, '<', "Items { elements: [")?;
    opened.replace(alloc, '>', "] }")
}

// What a plant is to be, in the short form of `written_out`: all but its program types, and these one by one.
#[derive(Clone, Copy)]
struct Wanted {
    parts: &'static str,
    types: &'static [&'static str],
}

const MIXTURE: Wanted = Wanted {
    parts: "'c' 'r' 'plc' \
[Variable { name: 'out', var_type: Bool, location: Some(Location { area: Output, size: Bit, numbers: <0, 1> }), \
initial: Bool(false) }] \
[Task { name: 'main', single: None, interval: 10000, priority: 1 }] \
[Instance { name: 'p', task: TaskId(0), program: TypeId(0) }]",
    types: &[
        "'mix' \
[Variable { name: 'n', var_type: Int, location: None, initial: Int(255) }, \
Variable { name: 't1', var_type: Time, location: None, initial: Time(90900000000) }] <> \
Chart { steps: <\
Step { name: 's0', is_initial: true, associations: <\
Association { target: Declared(ActionId(0)), qualifier: RisingPulse, indicators: <Local(LocalId(0))> }, \
Association { target: Boolean(Global(GlobalId(0))), qualifier: NonStored, indicators: <> }> }, \
Step { name: 's1', is_initial: false, associations: <\
Association { target: Boolean(Global(GlobalId(0))), \
qualifier: Timed(StoredLimited, Variable(Local(LocalId(1)))), indicators: <> }> }>, \
transitions: <Transition { name: Some('go'), priority: Some(2), preceding: <StepId(0)>, following: <StepId(1)>, \
condition: Condition { expr: Binary(Or, Bool, \
Binary(Greater, Int, Binary(Multiply, Int, Binary(Add, Int, Variable(Local(LocalId(0))), Literal(Int(1))), \
Literal(Int(-2))), Minus(Int, Literal(Int(5)))), \
Not(Binary(And, Bool, Variable(Global(GlobalId(0))), \
Binary(GreaterOrEqual, Time, StepTime(StepId(0)), Literal(Time(1500000)))))) } }>, \
actions: <Action { name: 'act', body: Statements { statements: [If([When(\
Binary(Equal, Int, Variable(Local(LocalId(0))), Literal(Int(3))), \
[Assign { target: Local(LocalId(0)), value: Binary(Subtract, Int, Variable(Local(LocalId(0))), \
Binary(Subtract, Int, Literal(Int(1)), Variable(Local(LocalId(0))))) }])])] } }> }",
    ],
};

// Two program types with variables of their own, externals, globals at both levels, a task with SINGLE and one with
// an interval, and two instances.
const PAIR_TEXT: &[u8] = b"PROGRAM Fill
VAR_EXTERNAL Lamp, Go : BOOL; END_VAR
VAR Wait : TIME := T#2s; Full, Halt : BOOL := TRUE; Count : DINT := -7; END_VAR
INITIAL_STEP Idle: Report(P0); Lamp(R); END_STEP
STEP Open: Full(L, T#1500ms, Count, Lamp); Halt(D, Wait); Lamp(S); END_STEP
STEP Watch: Halt(P); Halt(SD, T#0s); Full(DS, T#-1s); END_STEP
TRANSITION FROM Idle TO (Open, Watch) := Go; END_TRANSITION
TRANSITION Back (PRIORITY := 0) FROM (Watch, Open) TO Idle := Open.X XOR Count <= -7; END_TRANSITION
ACTION Report: IF report.q THEN Lamp := FALSE; ELSIF Halt THEN ELSE Count := Count MOD 16#0A; END_IF; END_ACTION
ACTION Rest: END_ACTION
END_PROGRAM
CONFIGURATION Works VAR_GLOBAL Go AT %IX0.3 : BOOL; END_VAR
RESOURCE Cpu ON Plc VAR_GLOBAL Lamp : BOOL; Level AT %MD7 : DINT := 5; END_VAR
TASK Slow(INTERVAL := T#1s, PRIORITY := 4);
TASK Once(SINGLE := GO, PRIORITY := 0);
PROGRAM A WITH once : FILL;
PROGRAM B WITH Slow : Blink;
END_RESOURCE END_CONFIGURATION
PROGRAM Blink
VAR Lamp : INT; END_VAR
INITIAL_STEP S: END_STEP
TRANSITION FROM S TO S := lamp <> 2; END_TRANSITION
END_PROGRAM";

const PAIR: Wanted = Wanted {
    parts: "'Works' 'Cpu' 'Plc' \
[Variable { name: 'Go', var_type: Bool, location: Some(Location { area: Input, size: Bit, numbers: <0, 3> }), \
initial: Bool(false) }, \
Variable { name: 'Lamp', var_type: Bool, location: None, initial: Bool(false) }, \
Variable { name: 'Level', var_type: Dint, location: Some(Location { area: Memory, size: DoubleWord, numbers: <7> }), \
initial: Dint(5) }] \
[Task { name: 'Slow', single: None, interval: 1000000, priority: 4 }, \
Task { name: 'Once', single: Some(GlobalId(0)), interval: 0, priority: 0 }] \
[Instance { name: 'A', task: TaskId(1), program: TypeId(0) }, \
Instance { name: 'B', task: TaskId(0), program: TypeId(1) }]",
    types: &[
        "'Fill' \
[Variable { name: 'Wait', var_type: Time, location: None, initial: Time(2000000) }, \
Variable { name: 'Full', var_type: Bool, location: None, initial: Bool(true) }, \
Variable { name: 'Halt', var_type: Bool, location: None, initial: Bool(true) }, \
Variable { name: 'Count', var_type: Dint, location: None, initial: Dint(-7) }] <GlobalId(1), GlobalId(0)> \
Chart { steps: <\
Step { name: 'Idle', is_initial: true, associations: <\
Association { target: Declared(ActionId(0)), qualifier: FallingPulse, indicators: <> }, \
Association { target: Boolean(Global(GlobalId(1))), qualifier: Reset, indicators: <> }> }, \
Step { name: 'Open', is_initial: false, associations: <\
Association { target: Boolean(Local(LocalId(1))), qualifier: Timed(Limited, Literal(1500000)), \
indicators: <Local(LocalId(3)), Global(GlobalId(1))> }, \
Association { target: Boolean(Local(LocalId(2))), qualifier: Timed(Delayed, Variable(Local(LocalId(0)))), \
indicators: <> }, \
Association { target: Boolean(Global(GlobalId(1))), qualifier: Set, indicators: <> }> }, \
Step { name: 'Watch', is_initial: false, associations: <\
Association { target: Boolean(Local(LocalId(2))), qualifier: Pulse, indicators: <> }, \
Association { target: Boolean(Local(LocalId(2))), qualifier: Timed(StoredDelayed, Literal(0)), indicators: <> }, \
Association { target: Boolean(Local(LocalId(1))), qualifier: Timed(DelayedStored, Literal(-1000000)), \
indicators: <> }> }>, \
transitions: <\
Transition { name: None, priority: None, preceding: <StepId(0)>, following: <StepId(1), StepId(2)>, \
condition: Condition { expr: Variable(Global(GlobalId(0))) } }, \
Transition { name: Some('Back'), priority: Some(0), preceding: <StepId(2), StepId(1)>, following: <StepId(0)>, \
condition: Condition { expr: Binary(Xor, Bool, StepActive(StepId(1)), \
Binary(LessOrEqual, Dint, Variable(Local(LocalId(3))), Literal(Dint(-7)))) } }>, \
actions: <\
Action { name: 'Report', body: Statements { statements: [If([\
When(ActionQ, [Assign { target: Global(GlobalId(1)), value: Literal(Bool(false)) }]), \
When(Variable(Local(LocalId(2))), []), \
Otherwise([Assign { target: Local(LocalId(3)), \
value: Binary(Modulo, Dint, Variable(Local(LocalId(3))), Literal(Dint(10))) }])])] } }, \
Action { name: 'Rest', body: Statements { statements: [] } }> }",
        "'Blink' \
[Variable { name: 'Lamp', var_type: Int, location: None, initial: Int(0) }] <> \
Chart { steps: <Step { name: 'S', is_initial: true, associations: <> }>, \
transitions: <Transition { name: None, priority: None, preceding: <StepId(0)>, following: <StepId(0)>, \
condition: Condition { expr: Binary(NotEqual, Int, Variable(Local(LocalId(0))), Literal(Int(2))) } }>, \
actions: <> }",
    ],
};

// The texts with their plants, behind a function, so that no proof goes through them.
fn plants() -> [(&'static [u8], Wanted); 2] {
    [(mixture(), MIXTURE), (PAIR_TEXT, PAIR)]
}

// Asks for this plant but for its program types.
fn check_parts(rt: &impl Abort, alloc: Global, plant: &Plant, wanted: &str) -> Result<(), Fail> {
    let configuration = plant.configuration();
    let (resource, processor) = (plant.resource(), plant.processor());
    let (globals, tasks, instances) = (plant.globals(), plant.tasks(), plant.instances());
    let found = format!(in alloc;
        "{configuration:?} {resource:?} {processor:?} {globals:?} {tasks:?} {instances:?}"
    )?;
    let wanted = written_out(alloc, wanted)?;
    assert_eq!(rt; found, wanted);
    Ok(())
}

// Asks for this program type.
fn check_type(
    rt: &impl Abort,
    alloc: Global,
    program: &ProgramType,
    wanted: &str,
) -> Result<(), Fail> {
    let (name, locals) = (&program.name, program.locals.as_slice());
    let (externals, chart) = (&program.externals, &program.chart);
    let found = format!(in alloc; "{name:?} {locals:?} {externals:?} {chart:?}")?;
    let wanted = written_out(alloc, wanted)?;
    assert_eq!(rt; found, wanted);
    Ok(())
}

// Asks for this plant.
fn check_plant(rt: &impl Abort, alloc: Global, plant: &Plant, wanted: Wanted) -> Result<(), Fail> {
    check_parts(rt, alloc, plant, wanted.parts)?;
    assert_eq!(rt; plant.types().len(), wanted.types.len());
    for (program, wanted) in plant.types().iter().zip(wanted.types) {
        check_type(rt, alloc, program, wanted)?;
    }
    Ok(())
}

// Asks for this plant of a text.
fn check_text(rt: &impl Abort, alloc: Global, text: &[u8], wanted: Wanted) -> Result<(), Fail> {
    let plant = plant_of(alloc, text)?;
    check_plant(rt, alloc, &plant, wanted)
}

#[test]
fn each_chart_is_loaded_as_its_plant(rt: HostRuntime) -> Result<(), Fail> {
    for (text, wanted) in plants() {
        check_text(&rt, rt.alloc(), text, wanted)?;
    }
    Ok(())
}
