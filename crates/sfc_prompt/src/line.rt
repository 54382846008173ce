//! What a line says.

ghost use Rattle.std.specs.Prelude.{◌≡◌};
ghost use Rattle.sfc_prompt.specs.Lines as lines;
ghost use Rattle.sfc_prompt.specs.Lines.{as_said, line_said};
ghost use Rattle.sfc_asking.specs.sfc_script.Commands as commands;
ghost use Rattle.sfc_tokens.specs.Lexing.DurationWords.{duration_value};

use crate::sfc_script::split::first_word;
use crate::words::{before_lf, trimmed};
use sfc_base::case::is_same_word;
use sfc_tokens::duration::duration;

/// A word of the prompt's own.
#[derive(Clone, Copy, Debug, PartialEq, Eq)]
pub enum Word {
    /// How all stands.
    Show,
    /// What variables read.
    Image,
    /// The breakpoints that are set.
    Points,
    /// The newest accepted commands.
    Trace,
    /// The text of the chart.
    List,
    /// Why transitions aren't cleared.
    Why,
    /// What a refusal or a fault means.
    Explain,
    /// What may be said.
    Help,
    /// Scans until a condition is TRUE.
    Until,
    /// The same, of which each is shown.
    AllUntil,
    /// The last step, once or more.
    Again,
    /// The same, of which each is shown.
    AllAgain,
    /// The accepted commands go to a file.
    Save,
    /// The end.
    Quit,
}

/// What a line says. Instants are in microseconds.
#[derive(Clone, Copy, Debug)]
pub enum Line<'a> {
    /// It has no words.
    Empty,
    /// It begins with a semicolon.
    Comment,
    /// It should be a command of a script, whose text is this, at this instant, if it has one.
    Says(Option<i64>, &'a [u8]),
    /// A word of the prompt's own, with what stands behind it.
    Asks(Word, &'a [u8]),
}

// The word that shows how something stands, in any case of its letters.
fn showing_word(word: &[u8]) -> Option<Word>
    ensures { result ≡ lines.showing_word word.now }
{
    if is_same_word(word, b"SHOW") {
        Some(Word::Show)
    } else if is_same_word(word, b"IMAGE") {
        Some(Word::Image)
    } else if is_same_word(word, b"POINTS") {
        Some(Word::Points)
    } else if is_same_word(word, b"TRACE") {
        Some(Word::Trace)
    } else if is_same_word(word, b"LIST") {
        Some(Word::List)
    } else if is_same_word(word, b"WHY") {
        Some(Word::Why)
    } else {
        None
    }
}

// The word that scans on, saves or ends.
fn doing_word(word: &[u8]) -> Option<Word>
    ensures { result ≡ lines.doing_word word.now }
{
    if is_same_word(word, b"UNTIL") {
        Some(Word::Until)
    } else if is_same_word(word, b"AGAIN") {
        Some(Word::Again)
    } else if is_same_word(word, b"SAVE") {
        Some(Word::Save)
    } else if is_same_word(word, b"QUIT") {
        Some(Word::Quit)
    } else if is_same_word(word, b"EXIT") {
        Some(Word::Quit)
    } else {
        None
    }
}

// The word that explains.
fn telling_word(word: &[u8]) -> Option<Word>
    ensures { result ≡ lines.telling_word word.now }
{
    if is_same_word(word, b"EXPLAIN") {
        Some(Word::Explain)
    } else if is_same_word(word, b"HELP") {
        Some(Word::Help)
    } else if is_same_word(word, b"?") {
        Some(Word::Help)
    } else {
        None
    }
}

// The word of the prompt's own.
fn own_word(word: &[u8]) -> Option<Word>
    ensures { result ≡ lines.own_word word.now }
{
    showing_word(word).or(doing_word(word).or(telling_word(word)))
}

// The word behind ALL, of whose scans each is shown.
fn all_word(word: &[u8]) -> Option<Word>
    ensures { result ≡ lines.all_word word.now }
{
    if is_same_word(word, b"UNTIL") {
        Some(Word::AllUntil)
    } else if is_same_word(word, b"AGAIN") {
        Some(Word::AllAgain)
    } else {
        None
    }
}

// Whether the word begins a comment.
fn begins_comment(word: &[u8]) -> bool
    ensures { result ≡ commands.begins_comment word.now }
{
    match word.first() {
        Some(byte) => *byte == b';',
        None => false,
    }
}

// What a text says behind whose first word, which is ALL, this stands.
fn read_all<'a>(text: &'a [u8], behind: &'a [u8]) -> Line<'a>
    ensures { as_said result ≡ lines.said_of_all text.now (lines.first_of_all behind.now) }
{
    let Some((word, rest)) = first_word(behind) else {
        return Line::Says(None, text);
    };
    match all_word(word) {
        Some(asked) => Line::Asks(asked, trimmed(rest)),
        None => Line::Says(None, text),
    }
}

// What a text says whose first word is no word of the prompt's own by itself.
fn read_other<'a>(text: &'a [u8], word: &'a [u8], rest: &'a [u8]) -> Line<'a>
    ensures { as_said result ≡ lines.said_otherwise text.now word.now rest.now }
{
    if is_same_word(word, b"ALL") {
        read_all(text, rest)
    } else {
        Line::Says(None, text)
    }
}

// What a text says whose first word this is, with what stands behind it.
fn read_behind<'a>(text: &'a [u8], word: &'a [u8], rest: &'a [u8]) -> Line<'a>
    ensures { as_said result ≡ lines.said_by text.now word.now rest.now (duration_value word.now) (lines.own_word word.now) }
{
    if let Some(instant) = duration(word) {
        return Line::Says(Some(instant), trimmed(rest));
    }
    match own_word(word) {
        Some(asked) => Line::Asks(asked, trimmed(rest)),
        None => read_other(text, word, rest),
    }
}

// What a text says, which has no blanks around it.
fn read_text(text: &[u8]) -> Line<'_>
    ensures { as_said result ≡ lines.text_said text.now }
{
    let Some((word, rest)) = first_word(text) else {
        return Line::Empty;
    };
    if begins_comment(word) {
        return Line::Comment;
    }
    read_behind(text, word, rest)
}

/// What a line says, which stands here with its end or without it: it ends before its first LF, and neither blanks nor a CR at its
/// end say anything. Texts have no blanks around them. It takes no memory.
pub fn read_line(line: &[u8]) -> Line<'_>
    ensures { as_said result ≡ line_said line.now }
{
    read_text(trimmed(before_lf(line)))
}
