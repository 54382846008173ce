//! What holds of the definitions themselves. Each law is a function with an empty body, whose contract is the law.

ghost use Rattle.std.specs.Prelude.{◌≡◌, ◌++◌, ◌+◌, ◌≤◌, ℕ, List, length};
ghost use Rattle.sfc_frames.specs.Frames.{AreOther, frame, framed};
ghost use Rattle.sfc_frames.specs.Heads.{Stays, Whole, first};

/// A frame that was written is read back, whatever stands behind it.
pub fn frame_read()
    ensures { (message rest : List ℕ) → length message ≤ 16777216 → first (frame message ++ rest) ≡ Whole message rest }
{}

/// Other fields are passed over, before the length and behind it.
pub fn framed_read()
    ensures { (before behind : List (List ℕ)) (message rest : List ℕ) → AreOther before → AreOther behind
        → length before + length behind ≤ 14 → length message ≤ 16777216 → first (framed before behind message ++ rest) ≡ Whole message rest }
{}

/// What was found of a front of a stream stays, whatever comes behind: the message, or why no frame begins so.
pub fn stays()
    ensures { (bytes more : List ℕ) → Stays (first bytes) (first (bytes ++ more)) more }
{}
