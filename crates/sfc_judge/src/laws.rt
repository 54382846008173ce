//! What holds of the definitions. Each law is a function with an empty body, whose contract is the law.

ghost use Rattle.std.specs.Prelude.{◌≡◌, List, []};
ghost use Rattle.sfc_replay.specs.sfc_debug.Steered.{Steered};
ghost use Rattle.sfc_replay.specs.sfc_output.Output.{debugger_of, session_after};
ghost use Rattle.sfc_cases.specs.declared.line.Line.{Line};
ghost use Rattle.sfc_judge.specs.Courses.{behind_lines, commands_of};
ghost use Rattle.sfc_judge.specs.Moments.{opening};

/// The commands of a case are a script: what was accepted behind all its lines is what a replay accepts of them, over the same plant and
/// the same conditions.
pub fn a_case_is_a_script()
    ensures { (steered : Steered) (lines : List Line) → (behind_lines steered opening lines).history
        ≡ session_after (debugger_of steered) [] (commands_of steered opening lines) }
{}
