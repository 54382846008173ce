//! What the definitions mean: each law is a function with an empty body, whose contract is the law.

ghost use Rattle.std.specs.Prelude.{◌≡◌, ◌<◌, ◌≤◌, ◌^◌, ◌∷◌, ◌++◌, ℕ, ℤ, List, Result, codes, unsigned_abs, true, Some};
ghost use Rattle.std.specs.Fmt.{signed_decimal};
ghost use Rattle.sfc_base.specs.Durations.{greatest};
ghost use Rattle.sfc_base.specs.TimeText.{time_text};
ghost use Rattle.sfc_plant.specs.Plants.{PlantData};
ghost use Rattle.sfc_script.specs.Arriving.{ended_line};
ghost use Rattle.sfc_script.specs.Commands.{command_of, conditional_of, said_by, said_of};
ghost use Rattle.sfc_script.specs.LineFaults.{IsToldOf, IsWrongAt, line_fault};
ghost use Rattle.sfc_script.specs.Lines.{is_one_line, lines_of};
ghost use Rattle.sfc_script.specs.Scripts.{ScriptData, ScriptReads};
ghost use Rattle.sfc_script.specs.Values.{number_of};
ghost use Rattle.sfc_script.specs.declared.line_fault.LineFault.TheVariants.{Word};
ghost use Rattle.sfc_script.specs.declared.wanted.Wanted.{Wanted};

/// What is written for a number is read as that number.
pub fn number_read()
    ensures { (z : ℤ) → unsigned_abs z < 2 ^ 64 → number_of (signed_decimal z) ≡ Some z }
{}

/// A script says one thing.
pub fn one_script()
    ensures { (plant : PlantData) (bytes : List ℕ) (a b : Result ScriptData ℕ) → ScriptReads plant bytes a
        → ScriptReads plant bytes b → a ≡ b }
{}

/// Each script says something: commands, or which of its lines is none.
pub fn some_script()
    ensures { (plant : PlantData) (bytes : List ℕ) → (a : Result ScriptData ℕ) × ScriptReads plant bytes a }
{}

/// A line that has its end is the first line of the whole text, whatever bytes come behind it.
pub fn first_line_stays()
    ensures { (bytes line rest more : List ℕ) → ended_line bytes ≡ Some (line, rest)
        → lines_of (bytes ++ more) ≡ line ∷ lines_of (rest ++ more) }
{}

/// The line of the TIME text of an instant, a blank and a text says what the text says, at that instant.
pub fn timed_line_read()
    ensures { (plant : PlantData) (t : ℤ) (text : List ℕ) → unsigned_abs t ≤ greatest
        → said_of plant (time_text t ++ codes " " ++ text) ≡ said_by (command_of plant text) (conditional_of plant text) t }
{}

/// A line with an LF behind it is the first line of a text, and the others are those of what stands behind that.
pub fn line_in_front()
    ensures { (line rest : List ℕ) → is_one_line line ≡ true → lines_of (line ++ codes "\n" ++ rest) ≡ line ∷ lines_of rest }
{}

/// What is told of a line tells what it says, over any plant: nothing of one that says nothing or a command, the condition of a
/// breakpoint with one, and a word of a line that is no command.
pub fn fault_told()
    ensures { (plant : PlantData) (line : List ℕ) → IsToldOf (said_of plant line) (line_fault line) }
{}

/// The word that is told of a line stands there and isn't what is wanted, or the line ends there and may not.
pub fn word_told_is_wrong()
    ensures { (line : List ℕ) (place : ℕ) (wanted : Wanted) → line_fault line ≡ Some (Word place wanted)
        → IsWrongAt line place wanted }
{}
