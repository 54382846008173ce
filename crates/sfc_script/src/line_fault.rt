//! Which word makes a line of a script no command, and what may stand in its place.

ghost use Rattle.std.specs.Prelude.{◌≡◌, ◌≤◌, length};
ghost use Rattle.sfc_script.specs.LineFaults as faults;
ghost use Rattle.sfc_script.specs.Lines as lines;

use crate::line::begins_comment;
use crate::split::first_word;
use crate::wanted::{Wanted, begins_with_mark, is_point_kind, words_behind};
use sfc_base::case::is_same_word;
use sfc_tokens::duration::duration;

/// Why a line is no command.
#[derive(Clone, Copy, Debug, PartialEq, Eq)]
pub enum LineFault {
    /// The word at this place, counted from 0, or the end of the line where there are no more words, isn't what is wanted.
    Word(usize, Wanted),
    /// The condition, which begins with the word at this place, counted from 0.
    Condition(usize),
}

// What is told where more stands on a line than may.
fn ended(place: usize, rest: &[u8]) -> Option<LineFault>
    ensures { result ≡ faults.ended place rest.now }
{
    match first_word(rest) {
        None => None,
        Some(_) => Some(LineFault::Word(place, Wanted::LineEnd)),
    }
}

// What is told of a line whose third word and those behind it are to be these.
fn words_fault(wanted: &[Wanted], rest: &[u8]) -> Option<LineFault>
    requires { length wanted.now ≤ 3 }
    ensures { result ≡ faults.words_fault 2 wanted.now rest.now }
{
    let mut place = 2;
    let mut left = wanted;
    let mut text = rest;
    'all: while let Some((one, others)) = left.split_first() {
        let Some((word, behind)) = first_word(text) else {
            return Some(LineFault::Word(place, *one));
        };
        if !one.fits(word) {
            return Some(LineFault::Word(place, *one));
        }
        place += 1;
        left = others;
        text = behind;
    }
    ended(place, text)
}

// What is told of what stands behind a point, where a condition may stand or not.
fn behind_point(may_have_condition: bool, rest: &[u8]) -> Option<LineFault>
    ensures { result ≡ faults.behind_point may_have_condition (lines.first_word rest.now) }
{
    let Some((word, _)) = first_word(rest) else {
        return None;
    };
    if !may_have_condition {
        return Some(LineFault::Word(5, Wanted::LineEnd));
    }
    if is_same_word(word, b"WHEN") {
        Some(LineFault::Condition(6))
    } else {
        Some(LineFault::Word(5, Wanted::When))
    }
}

// What may stand behind the word for a kind of points.
fn point_wanted(kind: &[u8]) -> Wanted
    ensures { result ≡ faults.point_wanted kind.now }
{
    if is_same_word(kind, b"STEP") || is_same_word(kind, b"ACTION") {
        Wanted::PointName
    } else {
        Wanted::TransitionNumber
    }
}

// What is told of the name of a point, and what stands behind it.
fn point_fault(may_have_condition: bool, kind: &[u8], rest: &[u8]) -> Option<LineFault>
    ensures { result ≡ faults.point_fault may_have_condition kind.now rest.now }
{
    let Some((name, behind)) = first_word(rest) else {
        return Some(LineFault::Word(4, Wanted::PointName));
    };
    if !point_wanted(kind).fits(name) {
        return Some(LineFault::Word(4, Wanted::TransitionNumber));
    }
    behind_point(may_have_condition, behind)
}

// What is told of a point from the word for its kind on.
fn kind_fault(may_have_condition: bool, rest: &[u8]) -> Option<LineFault>
    ensures { result ≡ faults.kind_fault may_have_condition rest.now }
{
    let Some((kind, behind)) = first_word(rest) else {
        return Some(LineFault::Word(3, Wanted::PointKind));
    };
    if !is_point_kind(kind) {
        return Some(LineFault::Word(3, Wanted::PointKind));
    }
    point_fault(may_have_condition, kind, behind)
}

// What is told of a program instance and one of its points.
fn place_fault(may_have_condition: bool, rest: &[u8]) -> Option<LineFault>
    ensures { result ≡ faults.place_fault may_have_condition rest.now }
{
    match first_word(rest) {
        None => Some(LineFault::Word(2, Wanted::Program)),
        Some((_, behind)) => kind_fault(may_have_condition, behind),
    }
}

// What is told of a word that may begin a command, and what stands behind it.
fn command_fault(keyword: &[u8], rest: &[u8]) -> Option<LineFault>
    ensures { result ≡ faults.command_fault keyword.now rest.now }
{
    if is_same_word(keyword, b"BREAK") {
        return place_fault(true, rest);
    }
    if is_same_word(keyword, b"UNBREAK") {
        return place_fault(false, rest);
    }
    match words_behind(keyword) {
        None => Some(LineFault::Word(1, Wanted::Command)),
        Some(wanted) => words_fault(wanted, rest),
    }
}

/// As `line_fault`, of what stands behind an instant: places are those in a line with an instant in front, so that the first word
/// has place 1. A text without words is at fault. It takes no memory.
pub fn text_fault(text: &[u8]) -> Option<LineFault>
    ensures { result ≡ faults.text_fault text.now }
{
    match first_word(text) {
        None => Some(LineFault::Word(1, Wanted::Command)),
        Some((keyword, behind)) => command_fault(keyword, behind),
    }
}

// What is told of an instant, and what stands behind it.
fn instant_fault(word: &[u8], rest: &[u8]) -> Option<LineFault>
    ensures { result ≡ faults.instant_fault word.now rest.now }
{
    if duration(word).is_none() {
        let wanted = if begins_with_mark(word) {
            Wanted::NoMark
        } else {
            Wanted::Instant
        };
        return Some(LineFault::Word(0, wanted));
    }
    text_fault(rest)
}

/// Why a line, without its end, is no command: the first of its words, counted from 0, that isn't what is wanted there, or
/// the end of the line in its place. Of a breakpoint with a condition it is the condition that is told, which isn't read
/// here: where a script is refused at such a line, it is for that. None where the line is skipped, as one without words and
/// one that begins with a semicolon are, or is a command without a condition. Names are words here: whether a plant has
/// them isn't asked. It takes no memory.
pub fn line_fault(line: &[u8]) -> Option<LineFault>
    ensures { result ≡ faults.line_fault line.now }
{
    let Some((word, behind)) = first_word(line) else {
        return None;
    };
    if begins_comment(word) {
        return None;
    }
    instant_fault(word, behind)
}
