//! What may stand in a place of a line of a script.

ghost use Rattle.std.specs.Prelude.{◌≡◌, ◌≤◌, length, IfSome, MatchOption, Some, None};
ghost use Rattle.sfc_script.specs.LineFaults as faults;

use crate::point::{are_digits, numbered_transition};
use crate::value::value_of_word;
use sfc_base::case::is_same_word;
use sfc_tokens::duration::duration;

/// What may stand in a place of a line.
#[derive(Clone, Copy, Debug, PartialEq, Eq)]
pub enum Wanted {
    Instant,
    /// An instant, without the bytes EF BB BF before it.
    NoMark,
    Command,
    Task,
    Variable,
    Program,
    Value,
    Duration,
    PointKind,
    PointName,
    TransitionNumber,
    /// WHEN, or the end of the line.
    When,
    LineEnd,
}

impl Wanted {
    /// What would do, in words.
    pub fn text(self) -> &'static [u8] {
        match self {
            Wanted::Instant => b"an instant, such as T#10ms",
            Wanted::NoMark => b"an instant, without the bytes EF BB BF before it",
            Wanted::Command => {
                b"SCAN, INPUT, FORCE, RELEASE, RESET, READ, BREAK, UNBREAK, STOP, GO, SINGLE, EPOCH or END"
            }
            Wanted::Task => b"the name of a task",
            Wanted::Variable => b"the name of a variable",
            Wanted::Program => b"the name of a program instance",
            Wanted::Value => {
                b"TRUE, FALSE, a number from -2147483648 to 2147483647 or a duration"
            }
            Wanted::Duration => b"a duration, such as T#10ms",
            Wanted::PointKind => b"STEP, TRANSITION or ACTION",
            Wanted::PointName =>
                b"the name of a step or an action, or the name or number of a transition",
            Wanted::TransitionNumber => b"a number from 1 to 65535 or a name",
            Wanted::When => b"WHEN or the end of the line",
            Wanted::LineEnd => b"the end of the line",
        }
    }

    /// Whether the word may stand there. Any word may stand in a name's place.
    pub fn fits(self, word: &[u8]) -> bool
        ensures { result ≡ faults.fits self word.now }
    {
        match self {
            Wanted::Instant | Wanted::Duration => duration(word).is_some(),
            Wanted::NoMark => !begins_with_mark(word),
            Wanted::Command => words_behind(word).is_some(),
            Wanted::Value => value_of_word(None, word).is_some(),
            Wanted::PointKind => is_point_kind(word),
            Wanted::TransitionNumber => names_transition(word),
            Wanted::When => is_same_word(word, b"WHEN"),
            Wanted::Task | Wanted::Variable | Wanted::Program | Wanted::PointName => true,
            Wanted::LineEnd => false,
        }
    }
}

/// Whether the bytes EF BB BF stand in front.
pub fn begins_with_mark(word: &[u8]) -> bool
    ensures { result ≡ faults.begins_with_mark word.now }
{
    match word {
        [first, second, third, ..] => *first == 0xef && *second == 0xbb && *third == 0xbf,
        _ => false,
    }
}

/// Whether the word names a kind of points: STEP, ACTION or TRANSITION, in any case.
pub fn is_point_kind(word: &[u8]) -> bool
    ensures { result ≡ faults.is_point_kind word.now }
{
    is_same_word(word, b"STEP")
        || is_same_word(word, b"ACTION")
        || is_same_word(word, b"TRANSITION")
}

// Whether the word may stand for a transition: a name, or a number from 1 to 65,535.
fn names_transition(word: &[u8]) -> bool
    ensures { result ≡ faults.names_transition word.now }
{
    !are_digits(word) || numbered_transition(word).is_some()
}

// What stands behind the words of the debugger's own commands.
fn words_behind_debugging(keyword: &[u8]) -> Option<&'static [Wanted]>
    ensures is { MatchOption result (faults.words_behind_debugging keyword.now ≡ None)
        (λ w. faults.words_behind_debugging keyword.now ≡ Some w.now) }
    ensures count { IfSome result (λ w. length w.now ≤ 3) }
{
    if is_same_word(keyword, b"READ") {
        Some(&[Wanted::Variable])
    } else if is_same_word(keyword, b"BREAK") || is_same_word(keyword, b"UNBREAK") {
        Some(&[Wanted::Program, Wanted::PointKind, Wanted::PointName])
    } else if is_same_word(keyword, b"SINGLE") {
        Some(&[Wanted::Task, Wanted::Duration])
    } else if is_bare(keyword) {
        Some(&[])
    } else {
        None
    }
}

// Whether the word is STOP, GO, END or EPOCH.
fn is_bare(keyword: &[u8]) -> bool
    ensures { result ≡ faults.is_bare keyword.now }
{
    is_same_word(keyword, b"STOP")
        || is_same_word(keyword, b"GO")
        || is_same_word(keyword, b"END")
        || is_same_word(keyword, b"EPOCH")
}

/// What stands behind a word that begins a command, which is one in any case; None where the word begins none. Behind
/// that of BREAK a condition may follow.
pub fn words_behind(keyword: &[u8]) -> Option<&'static [Wanted]>
    ensures is { MatchOption result (faults.words_behind keyword.now ≡ None)
        (λ w. faults.words_behind keyword.now ≡ Some w.now) }
    ensures count { IfSome result (λ w. length w.now ≤ 3) }
{
    if is_same_word(keyword, b"SCAN") {
        Some(&[Wanted::Task])
    } else if is_same_word(keyword, b"INPUT") || is_same_word(keyword, b"FORCE") {
        Some(&[Wanted::Variable, Wanted::Value])
    } else if is_same_word(keyword, b"RELEASE") {
        Some(&[Wanted::Variable])
    } else if is_same_word(keyword, b"RESET") {
        Some(&[Wanted::Program])
    } else {
        words_behind_debugging(keyword)
    }
}
