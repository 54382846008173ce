//! What holds of what a session has said to an editor.

ghost use Rattle.std.specs.Prelude.{◌≤◌, ◌++◌, List, ℕ, [], length};
ghost use Rattle.sfc_session.specs.declared.session.Session.{Session};
ghost use Rattle.sfc_session.specs.Sessions.{script_in};
ghost use Rattle.sfc_prompt.specs.Transcripts.{IsReplayed, Puts};
ghost use Rattle.sfc_editing.specs.Edited.{HasWritten, IsOpenedOn};

/// A session that was opened on a chart has written nothing.
pub fn opened()
    ensures { (chart : List ℕ) (session : Session) → IsOpenedOn chart session → HasWritten chart session [] }
{}

/// What an operation puts comes behind what was written before.
pub fn written()
    ensures { (chart : List ℕ) (old new : Session) (text before more : List ℕ) → HasWritten chart old text
        → Puts old new before (before ++ more) → HasWritten chart new (text ++ more) }
{}

/// The script of what an editor did, where it has no more bytes than a script may have (1,048,576), is replayed as what was put for its
/// accepted commands, in their order, and behind that the lines of the variables.
pub fn saved_script()
    ensures { (chart : List ℕ) (session : Session) (text : List ℕ) → HasWritten chart session text
        → length (script_in session) ≤ 1048576 → IsReplayed chart session text }
{}
