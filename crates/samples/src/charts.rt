//! Charts, and a script and what it prints. A text stands behind a function, so that no proof goes through it.

/// A chart, a script for it, and what that prints.
#[derive(Clone, Copy)]
pub struct Replay {
    pub chart: &'static [u8],
    pub script: &'static [u8],
    pub output: &'static [u8],
}

// A lamp that is lit by the one step.
const ONE_STEP: &[u8] = b"PROGRAM Mix INITIAL_STEP S: Lamp(N); END_STEP END_PROGRAM \
CONFIGURATION C RESOURCE R ON Plc VAR_GLOBAL Lamp : BOOL; END_VAR \
TASK Main(INTERVAL := T#10ms, PRIORITY := 1); PROGRAM P WITH Main : Mix; END_RESOURCE END_CONFIGURATION";

// Three scans of it.
const ONE_STEP_SCRIPT: &[u8] = b"\
T#0s SCAN Main
T#10ms SCAN Main
T#20ms SCAN Main
";

// What they print.
const ONE_STEP_OUTPUT: &[u8] = b"\
T#0s SCAN Main overruns 0
  P 1 steps S=T#0s cleared - run Lamp
T#10ms SCAN Main overruns 0
  P 2 steps S=T#10ms cleared - run Lamp
T#20ms SCAN Main overruns 0
  P 3 steps S=T#20ms cleared - run Lamp
image Lamp TRUE
";

// A chart with something of each kind: an action with a body, a qualifier with a time, a priority, an expression of
// many operators.
const MIXTURE: &[u8] = b"PROGRAM mix
var n : int := 16#FF; t1 : time := t#25h_15m; end_var
initial_step s0: act(p1, n); out(); end_step
step s1: out(sl, t1); end_step
transition go (priority := 2) from s0 to s1
:= (n + 1) * -2 > -(5) or not (out & s0.t >= t#1.5s); end_transition
action act: if n = 3 then n := n - (1 - n); end_if; end_action
end_program
configuration c resource r on plc
var_global out at %q0.1 : bool; end_var
task main(interval := t#10ms, priority := 1);
program p with main : mix;
end_resource end_configuration";

// What it lists as.
const MIXTURE_LISTED: &[u8] = b"\
PROGRAM mix
  VAR
    n : INT := INT#255;
    t1 : TIME := T#1d_1h_15m;
  END_VAR
  INITIAL_STEP s0:
    act(P1, n);
    out(N);
  END_STEP
  STEP s1:
    out(SL, t1);
  END_STEP
  TRANSITION go (PRIORITY := 2) FROM s0 TO s1
    := (n + INT#1) * INT#-2 > -INT#5 OR NOT (out AND s0.T >= T#1s_500ms);
  END_TRANSITION
  ACTION act:
    IF n = INT#3 THEN
      n := n - (INT#1 - n);
    END_IF;
  END_ACTION
END_PROGRAM
CONFIGURATION c
  RESOURCE r ON plc
    VAR_GLOBAL
      out AT %QX0.1 : BOOL := FALSE;
    END_VAR
    TASK main(INTERVAL := T#10ms, PRIORITY := 1);
    PROGRAM p WITH main : mix;
  END_RESOURCE
END_CONFIGURATION
";

// Two tasks of unlike priority, each with one instance of the one step, and an input word.
const TWO_TASKS: &[u8] = b"PROGRAM Mix INITIAL_STEP S: Lamp(N); END_STEP END_PROGRAM \
CONFIGURATION C RESOURCE R ON Plc VAR_GLOBAL Lamp : BOOL; X AT %IW0 : INT; END_VAR \
TASK T1(INTERVAL := T#10ms, PRIORITY := 1); TASK T2(INTERVAL := T#10ms, PRIORITY := 0); \
PROGRAM A WITH T1 : Mix; PROGRAM B WITH T2 : Mix; END_RESOURCE END_CONFIGURATION";

// Sixteen tasks with a release each millisecond.
const SIXTEEN_TASKS: &[u8] = b"PROGRAM Mix INITIAL_STEP S: Lamp(N); END_STEP END_PROGRAM \
CONFIGURATION C RESOURCE R ON Plc VAR_GLOBAL Lamp : BOOL; END_VAR \
TASK T0(INTERVAL := T#1ms, PRIORITY := 1); TASK T1(INTERVAL := T#1ms, PRIORITY := 1); TASK T2(INTERVAL := T#1ms, PRIORITY := 1); \
TASK T3(INTERVAL := T#1ms, PRIORITY := 1); TASK T4(INTERVAL := T#1ms, PRIORITY := 1); TASK T5(INTERVAL := T#1ms, PRIORITY := 1); \
TASK T6(INTERVAL := T#1ms, PRIORITY := 1); TASK T7(INTERVAL := T#1ms, PRIORITY := 1); TASK T8(INTERVAL := T#1ms, PRIORITY := 1); \
TASK T9(INTERVAL := T#1ms, PRIORITY := 1); TASK T10(INTERVAL := T#1ms, PRIORITY := 1); TASK T11(INTERVAL := T#1ms, PRIORITY := 1); \
TASK T12(INTERVAL := T#1ms, PRIORITY := 1); TASK T13(INTERVAL := T#1ms, PRIORITY := 1); TASK T14(INTERVAL := T#1ms, PRIORITY := 1); \
TASK T15(INTERVAL := T#1ms, PRIORITY := 1); \
PROGRAM P0 WITH T0 : Mix; PROGRAM P1 WITH T1 : Mix; PROGRAM P2 WITH T2 : Mix; PROGRAM P3 WITH T3 : Mix; \
PROGRAM P4 WITH T4 : Mix; PROGRAM P5 WITH T5 : Mix; PROGRAM P6 WITH T6 : Mix; PROGRAM P7 WITH T7 : Mix; \
PROGRAM P8 WITH T8 : Mix; PROGRAM P9 WITH T9 : Mix; PROGRAM P10 WITH T10 : Mix; PROGRAM P11 WITH T11 : Mix; \
PROGRAM P12 WITH T12 : Mix; PROGRAM P13 WITH T13 : Mix; PROGRAM P14 WITH T14 : Mix; PROGRAM P15 WITH T15 : Mix; \
END_RESOURCE END_CONFIGURATION";

// One step with every qualifier, each with a variable of its own, left after 40 ms.
const ALL_QUALIFIERS: &[u8] = b"PROGRAM Mix INITIAL_STEP S1: \
bN(N); bS(S); bL(L, T#20ms); bD(D, T#20ms); bP(P); bSD(SD, T#20ms); bDS(DS, T#20ms); bSL(SL, T#20ms); bP1(P1); bP0(P0); \
END_STEP TRANSITION FROM S1 TO S2 := S1.T >= T#40ms; END_TRANSITION STEP S2: END_STEP END_PROGRAM \
CONFIGURATION C RESOURCE R ON Plc VAR_GLOBAL bN : BOOL; bS : BOOL; bL : BOOL; bD : BOOL; bP : BOOL; \
bSD : BOOL; bDS : BOOL; bSL : BOOL; bP1 : BOOL; bP0 : BOOL; END_VAR \
TASK Main(INTERVAL := T#10ms, PRIORITY := 1); PROGRAM P WITH Main : Mix; END_RESOURCE END_CONFIGURATION";

/// Two tasks of unlike priority, each with one instance of the one step, and an input word.
pub fn two_tasks() -> &'static [u8] {
    TWO_TASKS
}

/// Sixteen tasks with a release each millisecond, each with one instance of the one step.
pub fn sixteen_tasks() -> &'static [u8] {
    SIXTEEN_TASKS
}

/// One step with every qualifier, each with a variable of its own, left after 40 ms.
pub fn all_qualifiers() -> &'static [u8] {
    ALL_QUALIFIERS
}

/// A chart with something of each kind.
pub fn mixture() -> &'static [u8] {
    MIXTURE
}

/// What the chart with something of each kind lists as.
pub fn mixture_listed() -> &'static [u8] {
    MIXTURE_LISTED
}

/// A lamp that is lit by the one step, and three scans of it.
pub fn one_step() -> Replay {
    Replay {
        chart: ONE_STEP,
        script: ONE_STEP_SCRIPT,
        output: ONE_STEP_OUTPUT,
    }
}
