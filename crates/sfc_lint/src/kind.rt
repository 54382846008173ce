//! The kinds of warnings.

use sfc_base::case::is_same_word;

/// A kind of warnings.
#[derive(Clone, Copy, Debug, PartialEq, Eq)]
pub enum Kind {
    /// No run activates a step, whatever the conditions are (2.6.5).
    Unreachable,
    /// The steps before a transition are never active together (2.6.5).
    JoinNeverComes,
    /// A run activates a step while it is active (2.6.5).
    Unsafe,
    /// A run leads to where no transition of the network is enabled (2.6.5).
    DeadEnd,
    /// A network has more than one initial step (2.6.2).
    TwoInitial,
    /// Nothing joins the sequences that a transition begins together (2.6.5).
    NotJoined,
    /// Two associations with a time of one action may be active together (2.6.4.5).
    TwoTimed,
    /// One action has both SD and SL (2.6.4.5).
    DelayedAndLimited,
    /// A division by 0 (3.3.1).
    DivisionByZero,
    /// A comparison that is always TRUE, or always FALSE, by the ranges of its operands (2.3.1).
    AlwaysSame,
    /// A condition that is FALSE as it is written (2.6.3).
    NeverTrue,
    /// One step sets and resets an action (2.6.4.4).
    SetAndReset,
    /// A variable has two writers, of which one is lost in each scan (2.6.4.1).
    TwoWriters,
    /// A body reads a variable before the action block of another program assigns it (2.6.4.1, 2.7.2).
    ReadsOld,
    /// A program writes a variable that lies at an input (2.4.1.1).
    InputWritten,
    /// Nobody reads or writes a variable (2.4).
    Unused,
    /// Two names differ in one letter (2.1.2).
    NearNames,
    /// A name is written in another case than where it is declared (2.1.2).
    OtherCase,
    /// Nothing resets an action that stays stored (2.6.4.4).
    StoredForever,
    /// No step is associated with an action (2.6.4.3).
    NoAssociation,
    /// A branch of an IF can't be taken (3.3.2.3).
    DeadBranch,
    /// Two transitions of a step may be TRUE together, and none has a PRIORITY (2.6.5).
    Overlap,
    /// A task has neither INTERVAL nor SINGLE (2.7.2).
    NeverRuns,
    /// A task has no program (2.7.2).
    NoProgram,
    /// Tasks of higher priority may hold up a task for ever (2.7.2).
    Starved,
}

/// All kinds, in the order of their codes.
pub const KINDS: [Kind; 25] = [
    Kind::Unreachable,
    Kind::JoinNeverComes,
    Kind::Unsafe,
    Kind::DeadEnd,
    Kind::TwoInitial,
    Kind::NotJoined,
    Kind::TwoTimed,
    Kind::DelayedAndLimited,
    Kind::DivisionByZero,
    Kind::AlwaysSame,
    Kind::NeverTrue,
    Kind::SetAndReset,
    Kind::TwoWriters,
    Kind::ReadsOld,
    Kind::InputWritten,
    Kind::Unused,
    Kind::NearNames,
    Kind::OtherCase,
    Kind::StoredForever,
    Kind::NoAssociation,
    Kind::DeadBranch,
    Kind::Overlap,
    Kind::NeverRuns,
    Kind::NoProgram,
    Kind::Starved,
];

impl Kind {
    /// Its code, which stays: 1 is told of networks, 2 of what fails or does nothing, 3 of actions and variables, 4 of selections, 5 of
    /// tasks.
    pub fn code(self) -> &'static str {
        match self {
            Kind::Unreachable => "W101",
            Kind::JoinNeverComes => "W102",
            Kind::Unsafe => "W103",
            Kind::DeadEnd => "W104",
            Kind::TwoInitial => "W105",
            Kind::NotJoined => "W106",
            Kind::TwoTimed => "W201",
            Kind::DelayedAndLimited => "W202",
            Kind::DivisionByZero => "W203",
            Kind::AlwaysSame => "W204",
            Kind::NeverTrue => "W205",
            Kind::SetAndReset => "W206",
            Kind::TwoWriters => "W301",
            Kind::ReadsOld => "W302",
            Kind::InputWritten => "W303",
            Kind::Unused => "W304",
            Kind::NearNames => "W305",
            Kind::OtherCase => "W306",
            Kind::StoredForever => "W307",
            Kind::NoAssociation => "W308",
            Kind::DeadBranch => "W309",
            Kind::Overlap => "W401",
            Kind::NeverRuns => "W501",
            Kind::NoProgram => "W502",
            Kind::Starved => "W503",
        }
    }

    /// Its name.
    pub fn name(self) -> &'static str {
        match self {
            Kind::Unreachable => "Unreachable",
            Kind::JoinNeverComes => "JoinNeverComes",
            Kind::Unsafe => "Unsafe",
            Kind::DeadEnd => "DeadEnd",
            Kind::TwoInitial => "TwoInitial",
            Kind::NotJoined => "NotJoined",
            Kind::TwoTimed => "TimedTogether",
            Kind::DelayedAndLimited => "DelayedAndLimited",
            Kind::DivisionByZero => "DivisionByZero",
            Kind::AlwaysSame => "AlwaysSame",
            Kind::NeverTrue => "NeverTrue",
            Kind::SetAndReset => "SetAndReset",
            Kind::TwoWriters => "TwoWriters",
            Kind::ReadsOld => "ReadsOld",
            Kind::InputWritten => "InputWritten",
            Kind::Unused => "Unused",
            Kind::NearNames => "NearNames",
            Kind::OtherCase => "OtherCase",
            Kind::StoredForever => "StoredForever",
            Kind::NoAssociation => "NoAssociation",
            Kind::DeadBranch => "DeadBranch",
            Kind::Overlap => "Overlap",
            Kind::NeverRuns => "NeverRuns",
            Kind::NoProgram => "NoProgram",
            Kind::Starved => "Starved",
        }
    }

    /// What it means.
    pub fn meaning(self) -> &'static str {
        match self {
            Kind::Unreachable =>
                "no run activates the step, whatever the conditions of transitions are (2.6.5 calls such a network unreachable); this is proved",
            Kind::JoinNeverComes =>
                "each step before the transition is active at some time, but never all together, so it is never enabled (2.6.5); this is proved",
            Kind::Unsafe =>
                "a run activates a step that is active and isn't left: two tokens become one (2.6.5 calls such a network unsafe)",
            Kind::DeadEnd =>
                "a run leads to steps of the network from where no transition is enabled, so that nothing goes on (2.6.5)",
            Kind::TwoInitial =>
                "the standard wants one initial step for each network (2.6.2); here all of them begin together",
            Kind::NotJoined =>
                "a transition begins several sequences together, and no transition stands behind two of them (2.6.5)",
            Kind::TwoTimed =>
                "two associations of one action have a time, L, D, SD, DS or SL, and their steps may be active together: such a scan faults (2.6.4.5)",
            Kind::DelayedAndLimited =>
                "one action has SD in one step and SL in another one: a scan in which one comes while the other is stored faults (2.6.4.5)",
            Kind::DivisionByZero =>
                "a number is divided by the literal 0; each scan that comes to it ends with the fault DivZero (3.3.1)",
            Kind::AlwaysSame =>
                "the operands of a comparison can't be otherwise, by the ranges of their types (2.3.1) or as literals",
            Kind::NeverTrue =>
                "the condition of a transition is FALSE as it is written: the transition is never cleared (2.6.3)",
            Kind::SetAndReset =>
                "a step has S and R of one action; R goes before all others, so S does nothing there (2.6.4.5)",
            Kind::TwoWriters =>
                "a variable is written by two action blocks, or by a block and a body, or by two program instances: in each scan the last one stays (2.6.4.1)",
            Kind::ReadsOld =>
                "a body reads a variable that the action block of a program assigns which is scanned later in the same task: it has the value of the scan before",
            Kind::InputWritten =>
                "a program writes a variable at a location of inputs, %I (2.4.1.1), which the machine writes",
            Kind::Unused => "no condition, body, action block or task names the variable (2.4)",
            Kind::NearNames =>
                "two names of the same kind differ in one letter that isn't their last; one may have been mistyped",
            Kind::OtherCase =>
                "the case of letters has no meaning (2.1.2), but a name is easier to find where it is always written alike",
            Kind::StoredForever =>
                "an action is stored by S, SD, DS or SL and never reset: it begins once, and a second activation does nothing (2.6.4.5)",
            Kind::NoAssociation => "an action is declared, and stands in no action block (2.6.4.3)",
            Kind::DeadBranch =>
                "a branch of an IF has a condition that is FALSE as it is written, or one before it that is TRUE (3.3.2.3)",
            Kind::Overlap =>
                "two transitions leave one step, both conditions may be TRUE in one scan, and no PRIORITY says which goes; here the first in the text does (2.6.5)",
            Kind::NeverRuns =>
                "a task without INTERVAL, or with T#0s, is released by SINGLE alone; this one has none (2.7.2)",
            Kind::NoProgram =>
                "no program instance stands WITH the task; its releases wait for a scan all the same (2.7.2)",
            Kind::Starved =>
                "two tasks have the same INTERVAL; whenever both wait, the other one goes first (2.7.2)",
        }
    }

    /// How a chart may have it, in a line.
    pub fn example(self) -> &'static str {
        match self {
            Kind::Unreachable => "STEP Spare : END_STEP    (* no transition leads TO Spare *)",
            Kind::JoinNeverComes =>
                "TRANSITION FROM (Left, Right) TO Done := TRUE; END_TRANSITION    (* Left and Right are alternatives *)",
            Kind::Unsafe =>
                "TRANSITION FROM A TO Start := TRUE; END_TRANSITION    (* B, which began with A, is still active *)",
            Kind::DeadEnd => "STEP Last : END_STEP    (* no transition stands FROM Last *)",
            Kind::TwoInitial =>
                "INITIAL_STEP A : END_STEP INITIAL_STEP B : END_STEP    (* and a transition FROM A TO B *)",
            Kind::NotJoined =>
                "TRANSITION FROM Start TO (A, B) := Go; END_TRANSITION    (* and none FROM (A, B) *)",
            Kind::TwoTimed => "STEP Fill : Valve(L, T#1s); Valve(D, T#2s); END_STEP",
            Kind::DelayedAndLimited =>
                "STEP A : Valve(SD, T#1s); END_STEP STEP B : Valve(SL, T#2s); END_STEP",
            Kind::DivisionByZero => "Share := Count / 0;",
            Kind::AlwaysSame => "TRANSITION FROM A TO B := A.T >= T#0s; END_TRANSITION",
            Kind::NeverTrue => "TRANSITION FROM A TO B := FALSE; END_TRANSITION",
            Kind::SetAndReset => "STEP A : Lamp(S); Lamp(R); END_STEP",
            Kind::TwoWriters => "STEP A : Pump(N); END_STEP    (* and a body has Pump := FALSE; *)",
            Kind::ReadsOld =>
                "Seen := Pump;    (* Pump is an action of a program that stands behind this one in the task *)",
            Kind::InputWritten => "STEP A : Start(N); END_STEP    (* Start AT %IX0.0 : BOOL; *)",
            Kind::Unused => "VAR Old : INT; END_VAR    (* and nothing names Old *)",
            Kind::NearNames =>
                "VAR Levle : INT; Level : INT; END_VAR    (* no: two letters; Lavel and Level: one *)",
            Kind::OtherCase => "TRANSITION FROM a TO B := TRUE; END_TRANSITION    (* STEP A *)",
            Kind::StoredForever => "STEP A : Lamp(S); END_STEP    (* and no Lamp(R) anywhere *)",
            Kind::NoAssociation =>
                "ACTION Count : N := N + 1; END_ACTION    (* and no step has Count *)",
            Kind::DeadBranch => "IF TRUE THEN A := 1; ELSE A := 2; END_IF;",
            Kind::Overlap =>
                "TRANSITION FROM A TO B := Go; END_TRANSITION TRANSITION FROM A TO C := Stop; END_TRANSITION",
            Kind::NeverRuns => "TASK Main(PRIORITY := 1);",
            Kind::NoProgram =>
                "TASK Slow(INTERVAL := T#1s, PRIORITY := 2);    (* and no PROGRAM .. WITH Slow *)",
            Kind::Starved =>
                "TASK A(INTERVAL := T#10ms, PRIORITY := 1); TASK B(INTERVAL := T#10ms, PRIORITY := 2);",
        }
    }

    /// What to do.
    pub fn mend(self) -> &'static str {
        match self {
            Kind::Unreachable => "lead a transition to the step, or take it out",
            Kind::JoinNeverComes =>
                "begin the sequences together, by a transition TO (A, B), or write a transition for each",
            Kind::Unsafe => "join the sequences first, by a transition FROM (A, B)",
            Kind::DeadEnd =>
                "lead a transition out; where the chart is to end here, write {lint: allow DeadEnd} before the step",
            Kind::TwoInitial => "leave INITIAL_STEP at the one with which the network begins",
            Kind::NotJoined =>
                "join them by a transition FROM (A, B); where they are to go on for ever, write {lint: allow NotJoined} before it",
            Kind::TwoTimed =>
                "leave one qualifier with a time, or give each a declared action of its own",
            Kind::DelayedAndLimited =>
                "leave one of the two, or give each a declared action of its own",
            Kind::DivisionByZero => "divide by another number: each scan that comes here faults",
            Kind::AlwaysSame =>
                "compare with a value that the operand can have, or take the comparison out",
            Kind::NeverTrue => "write the condition, or take the transition out",
            Kind::SetAndReset => "leave one of the two: R goes before S",
            Kind::TwoWriters => "leave one writer, or let one of them write a variable of its own",
            Kind::ReadsOld => "declare the program behind the other one, or read in a condition",
            Kind::InputWritten =>
                "write a variable at %Q or %M: the next INPUT overwrites this one",
            Kind::Unused => "take the variable out, or use it",
            Kind::NearNames => "see that the right one is meant everywhere",
            Kind::OtherCase => "write the name as it is declared",
            Kind::StoredForever => "associate the action with R in the step where it is to end",
            Kind::NoAssociation => "associate a step with the action, or take it out",
            Kind::DeadBranch => "mend the condition, or take the branch out",
            Kind::Overlap =>
                "write PRIORITY at both, or make one condition exclude the other; now the first in the text goes",
            Kind::NeverRuns => "give the task an INTERVAL, or a SINGLE",
            Kind::NoProgram =>
                "take the task out, or put a program WITH it: its releases wait, and tasks behind it yield",
            Kind::Starved =>
                "give it a higher priority, or a longer INTERVAL to the task that goes first",
        }
    }
}

/// The kind with this code or name, in any case of the letters.
pub fn kind_named(word: &[u8]) -> Option<Kind> {
    for kind in KINDS {
        if is_same_word(word, kind.code().as_bytes())
            || is_same_word(word, kind.name().as_bytes())
        {
            return Some(kind);
        }
    }
    None
}
