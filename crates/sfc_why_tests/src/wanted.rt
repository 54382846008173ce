//! What may stand in a place of a line of a test.

use sfc_cases::sfc_script::wanted::Wanted as OfScript;

/// What may stand in a place of a line of a test.
#[derive(Clone, Copy, Debug, PartialEq, Eq)]
pub enum Wanted {
    /// What may stand there in a line of a script.
    OfScript(OfScript),
    /// A word that begins what a line says.
    Keyword,
    CaseName,
    Name,
    Equals,
    Word,
    Instant,
    Duration,
    /// A duration above 0.
    Period,
    Condition,
    Within,
    After,
    Expect,
    /// `IN` and the name of a program instance.
    Program,
    Step,
    RefusalNumber,
    FaultKind,
    Count,
    NumberVariable,
    Number,
    /// A duration that gives each step of a ramp a microsecond.
    RampTime,
    LineEnd,
}

impl Wanted {
    /// What would do, in words.
    pub fn text(self) -> &'static [u8] {
        match self {
            Wanted::OfScript(wanted) => wanted.text(),
            Wanted::Keyword => {
                b"an instant, TEST, RUN, UNTIL, EXPECT, ALWAYS, NEVER, WITHIN, EVERY, AT, RAMP, LET, INCLUDE or a command"
            }
            Wanted::CaseName => b"the name of the case",
            Wanted::Name => b"a name",
            Wanted::Equals => b"'='",
            Wanted::Word => b"one word",
            Wanted::Instant => b"an instant, such as T#2s or +T#100ms",
            Wanted::Duration => b"a duration, such as T#500ms",
            Wanted::Period => b"a duration above 0, such as T#500ms",
            Wanted::Condition => b"a condition",
            Wanted::Within => b"WITHIN and a duration",
            Wanted::After => b"AFTER and a condition",
            Wanted::Expect => b"EXPECT and a condition",
            Wanted::Program => b"IN and the name of a program instance",
            Wanted::Step => b"the name of a step",
            Wanted::RefusalNumber => b"the number of a refusal, from 0 to 255",
            Wanted::FaultKind => b"DivZero, Range, TwoTimed, SdWhileSl or SlWhileSd",
            Wanted::Count => b"a number from 0 to 2147483647",
            Wanted::NumberVariable => b"the name of a variable of type INT or DINT",
            Wanted::Number => b"a number of the variable's type",
            Wanted::RampTime => b"a duration of at least a microsecond for each number",
            Wanted::LineEnd => b"the end of the line",
        }
    }
}
