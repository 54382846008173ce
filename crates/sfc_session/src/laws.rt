//! What holds of a session.

ghost use Rattle.std.specs.Prelude.{◌≡◌, ℕ, List, [], reverse};
ghost use Rattle.sfc_output.specs.sfc_debug.Histories.{CommandHistory};
ghost use Rattle.sfc_output.specs.Output.{commands_lines, debugger_of, session_after, text_of};
ghost use Rattle.sfc_session.specs.declared.session.Session.{Session};
ghost use Rattle.sfc_session.specs.Sessions.{HasSaid, steered_in};

/// What a session has written of its accepted commands is what a replay writes for them, in their order, over the conditions that the
/// session has at the end; and the replay accepts all of them.
pub fn said_as_replayed()
    ensures lines { (session : Session) (h : CommandHistory) (lines : List ℕ) → HasSaid session h lines →
        lines ≡ commands_lines (debugger_of (steered_in session)) (text_of (steered_in session)) [] (reverse h) }
    ensures accepted { (session : Session) (h : CommandHistory) (lines : List ℕ) → HasSaid session h lines →
        session_after (debugger_of (steered_in session)) [] (reverse h) ≡ h }
{}

/// A session says one thing of its accepted commands.
pub fn one_text()
    ensures { (session : Session) (h : CommandHistory) (some others : List ℕ) → HasSaid session h some → HasSaid session h others →
        some ≡ others }
{}
