//! What is asked for.

/// What is asked for.
#[derive(Clone, Copy, Debug, PartialEq, Eq)]
pub enum Asked {
    Initialize,
    Launch,
    Attach,
    Restart,
    Disconnect,
    Terminate,
    ConfigurationDone,
    SetBreakpoints,
    SetFunctionBreakpoints,
    SetDataBreakpoints,
    SetExceptionBreakpoints,
    DataBreakpointInfo,
    BreakpointLocations,
    Threads,
    StackTrace,
    Scopes,
    Variables,
    SetVariable,
    Evaluate,
    Continue,
    Next,
    StepIn,
    StepOut,
    StepBack,
    ReverseContinue,
    Pause,
    Goto,
    Save,
    Script,
    /// Something else.
    Other,
}

// What a word asks for that begins or ends, or sets.
fn setting(word: &str) -> Asked {
    match word {
        "initialize" => Asked::Initialize,
        "launch" => Asked::Launch,
        "attach" => Asked::Attach,
        "restart" => Asked::Restart,
        "disconnect" => Asked::Disconnect,
        "terminate" => Asked::Terminate,
        "configurationDone" => Asked::ConfigurationDone,
        "setBreakpoints" => Asked::SetBreakpoints,
        "setFunctionBreakpoints" => Asked::SetFunctionBreakpoints,
        "setDataBreakpoints" => Asked::SetDataBreakpoints,
        "setExceptionBreakpoints" => Asked::SetExceptionBreakpoints,
        "setVariable" => Asked::SetVariable,
        _ => Asked::Other,
    }
}

// What a word asks for that goes on or back.
fn going(word: &str) -> Asked {
    match word {
        "continue" => Asked::Continue,
        "next" => Asked::Next,
        "stepIn" => Asked::StepIn,
        "stepOut" => Asked::StepOut,
        "stepBack" => Asked::StepBack,
        "reverseContinue" => Asked::ReverseContinue,
        "pause" => Asked::Pause,
        "goto" | "gotoTargets" => Asked::Goto,
        _ => Asked::Other,
    }
}

// What a word asks for that shows or keeps.
fn showing(word: &str) -> Asked {
    match word {
        "dataBreakpointInfo" => Asked::DataBreakpointInfo,
        "breakpointLocations" => Asked::BreakpointLocations,
        "threads" => Asked::Threads,
        "stackTrace" => Asked::StackTrace,
        "scopes" => Asked::Scopes,
        "variables" => Asked::Variables,
        "evaluate" => Asked::Evaluate,
        "sfcmon/save" => Asked::Save,
        "sfcmon/script" => Asked::Script,
        _ => Asked::Other,
    }
}

/// What a word asks for.
pub fn asked_by(word: &str) -> Asked {
    let asked = setting(word);
    if asked != Asked::Other {
        return asked;
    }
    let asked = going(word);
    if asked != Asked::Other {
        return asked;
    }
    showing(word)
}
