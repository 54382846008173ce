//! What holds of what a session has written.

ghost use Rattle.std.specs.Prelude.{◌≤◌, ◌++◌, ℕ, List, [], length};
ghost use Rattle.sfc_plant.specs.Plants.{PlantData};
ghost use Rattle.sfc_asking.specs.sfc_load.Accepted.{IsAccepted};
ghost use Rattle.sfc_session.specs.declared.session.Session.{Session};
ghost use Rattle.sfc_session.specs.Sessions.{script_in};
ghost use Rattle.sfc_prompt.specs.Transcripts.{HasGoneOn, IsReplayed, IsTranscript, Puts, opened_on};

/// What a session has written since its opening is a transcript: pieces of which those of accepted commands are, together, what a replay
/// writes for them.
pub fn transcript()
    ensures { (plant : PlantData) (session : Session) (text : List ℕ) → HasGoneOn (opened_on plant) [] [] [] text session
        → IsTranscript session text }
{}

/// The script of a session that was opened on a chart, where it has no more bytes than a script may have (1,048,576), is played by a replay
/// as it was accepted: what the replay writes are the lines that the session has put for its accepted commands, in their order, and then
/// those of the variables.
pub fn saved_script()
    ensures { (chart : List ℕ) (plant : PlantData) (session : Session) (text : List ℕ) → IsAccepted chart plant
        → HasGoneOn (opened_on plant) [] [] [] text session → length (script_in session) ≤ 1048576 → IsReplayed chart session text }
{}

/// What is put for one thing and then for another one is put for both together.
pub fn puts_then()
    ensures { (first middle last : Session) (before between behind : List ℕ) → Puts first middle before between
        → Puts middle last between behind → Puts first last before behind }
{}

/// A text beside the answers to commands, or none, is put where nothing is said to a session.
pub fn puts_text()
    ensures { (session : Session) (before text : List ℕ) → Puts session session before (before ++ text) }
{}
