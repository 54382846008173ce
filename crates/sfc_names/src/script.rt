//! Words of scripts: what they mean in a chart, and what may stand there.

use crate::chart::Chart;
use crate::completion::{Candidate, Candidates, Sort};
use crate::names::{Space, find_in, program_of_instance};
use crate::refusals::{explanation_of_word, is_refused};
use sfc_base::case::is_same_word;
use sfc_explain::explanation::Explanation;
use sfc_outline::mention::Declared;
use sfc_places::span::Span;
use sfc_script::line_fault::{LineFault, line_fault};
use sfc_script::split::is_blank;
use sfc_script::wanted::Wanted;
use std::alloc::{AllocError, Global};

/// The commands of scripts.
const COMMANDS: &str = "SCAN INPUT FORCE RELEASE RESET READ BREAK UNBREAK STOP GO SINGLE EPOCH END";

/// The kinds of points.
const POINTS: &str = "STEP TRANSITION ACTION";

/// A line of a script, and the words in it.
pub struct ScriptLine<'a> {
    text: &'a [u8],
    words: Vec<Span>,
}

// By hand, so that a caller that drops one proves one call.
impl Drop for ScriptLine<'_> {
    fn drop(self) {
        let ScriptLine { text: _, words: _ } = self;
    }
}

// Whether the byte parts words.
fn is_part(byte: u8) -> bool {
    is_blank(byte) || byte == b'\r'
}

// The bytes of the line in which a byte stands, without its end.
fn line_around(text: &[u8], byte: usize) -> Span {
    let front = text.get(..byte).unwrap_or(text);
    let from = match front.iter().rposition(|byte| *byte == b'\n') {
        Some(place) => place.saturating_add(1),
        None => 0,
    };
    let behind = text.get(from..).unwrap_or(b"");
    let length = match behind.iter().position(|byte| *byte == b'\n') {
        Some(place) => place,
        None => behind.len(),
    };
    Span {
        from,
        to: from.saturating_add(length),
    }
}

// Where the word ends that begins at a place of a line.
fn word_end(text: &[u8], from: usize, to: usize) -> usize {
    for place in from..to {
        match text.get(place) {
            Some(byte) if !is_part(*byte) => {}
            _ => return place,
        }
    }
    to
}

// The words between these bytes.
fn words_between(alloc: Global, text: &[u8], line: Span) -> Result<Vec<Span>, AllocError> {
    let mut words = Vec::new(alloc);
    let mut behind = line.from;
    for from in line.from..line.to {
        let to = word_end(text, from, line.to);
        if from >= behind && to > from {
            words.push(Span { from, to })?;
            behind = to;
        }
    }
    Ok(words)
}

impl<'a> ScriptLine<'a> {
    /// The line in which a byte stands. The one error is that memory was refused.
    pub fn around(
        alloc: Global,
        text: &'a [u8],
        byte: usize,
    ) -> Result<ScriptLine<'a>, AllocError> {
        let line = line_around(text, byte);
        let words = words_between(alloc, text, line)?;
        Ok(ScriptLine { text, words })
    }

    /// A word, counted from 0; nothing where the line has fewer.
    pub fn word(&self, place: usize) -> &'a [u8] {
        let Some(span) = self.words.get(place) else {
            return b"";
        };
        self.text.get(span.from..span.to).unwrap_or(b"")
    }

    /// The bytes of a word, counted from 0; none where the line has fewer.
    pub fn span(&self, place: usize) -> Span {
        match self.words.get(place) {
            Some(span) => *span,
            None => Span { from: 0, to: 0 },
        }
    }

    /// The place of the word in which a byte stands, or which ends before it.
    pub fn place_of(&self, byte: usize) -> Option<usize> {
        self.words
            .iter()
            .position(|span| span.from <= byte && byte <= span.to)
    }

    // Whether one of these words is the command.
    fn is_one_of(&self, commands: &str) -> bool {
        commands
            .split_whitespace()
            .any(|command| is_same_word(command.as_bytes(), self.word(1)))
    }

    // The points of the kind that the line names, in the program type of its instance.
    fn points(&self, chart: &Chart) -> Option<Space> {
        let program = program_of_instance(chart, self.word(2))?;
        let kind = self.word(3);
        if is_same_word(kind, b"STEP") {
            Some(Space::Steps(program))
        } else if is_same_word(kind, b"TRANSITION") {
            Some(Space::Transitions(program))
        } else if is_same_word(kind, b"ACTION") {
            Some(Space::Actions(program))
        } else {
            None
        }
    }

    // What the word behind the command names.
    fn named(&self, chart: &Chart) -> Option<Declared> {
        let word = self.word(2);
        if self.is_one_of("SCAN SINGLE") {
            find_in(chart, Space::Tasks, word)
        } else if self.is_one_of("INPUT FORCE RELEASE READ") {
            variable_named(chart, word)
        } else if self.is_one_of("RESET BREAK UNBREAK") {
            find_in(chart, Space::Instances, word)
        } else {
            None
        }
    }

    /// What a word means in a chart; None where it means nothing.
    pub fn meaning(&self, chart: &Chart, place: usize) -> Option<Declared> {
        match place {
            2 => self.named(chart),
            4 if self.is_one_of("BREAK UNBREAK") => {
                find_in(chart, self.points(chart)?, self.word(4))
            }
            _ => None,
        }
    }

    /// What is explained of a word behind REFUSED; None where it is none.
    pub fn refusal(&self, place: usize) -> Option<&'static Explanation> {
        let before = place.checked_sub(1)?;
        if is_refused(self.word(before)) {
            explanation_of_word(self.word(place))
        } else {
            None
        }
    }
}

// The variable that a word names: NAME for a global one, INST.NAME for one of a program instance's own.
fn variable_named(chart: &Chart, word: &[u8]) -> Option<Declared> {
    let Some(dot) = word.iter().position(|byte| *byte == b'.') else {
        return find_in(chart, Space::Globals, word);
    };
    let program = program_of_instance(chart, word.get(..dot)?)?;
    let name = word.get(dot.checked_add(1)?..)?;
    find_in(chart, Space::Locals(program), name)
}

// Puts words last.
fn add_all(found: &mut Candidates, words: &str, detail: &[u8]) -> Result<(), AllocError> {
    for word in words.split_whitespace() {
        found.add(word.as_bytes(), Sort::Command, detail)?;
    }
    Ok(())
}

// Puts what is wanted last, of a chart.
fn add_wanted(
    found: &mut Candidates,
    line: &ScriptLine<'_>,
    wanted: Wanted,
    chart: &Chart,
) -> Result<(), AllocError> {
    match wanted {
        Wanted::Task => found.add_space(chart, Space::Tasks),
        Wanted::Variable => found.add_space(chart, Space::Globals),
        Wanted::Program => found.add_space(chart, Space::Instances),
        Wanted::PointName | Wanted::TransitionNumber => match line.points(chart) {
            Some(space) => found.add_space(chart, space),
            None => Ok(()),
        },
        _ => Ok(()),
    }
}

// Puts words last that need no chart.
fn add_fixed(found: &mut Candidates, wanted: Wanted) -> Result<(), AllocError> {
    match wanted {
        Wanted::Command => add_all(found, COMMANDS, b"command"),
        Wanted::PointKind => add_all(found, POINTS, b"kind of points"),
        Wanted::Value => add_all(found, "TRUE FALSE", b"value"),
        _ => Ok(()),
    }
}

// What is wanted behind the front of a line, where something is.
fn wanted_behind(front: &[u8], count: usize) -> Option<Wanted> {
    match line_fault(front)? {
        LineFault::Word(place, wanted) if place == count => Some(wanted),
        LineFault::Word(_, _) | LineFault::Condition(_) => None,
    }
}

// Where the word begins that ends at a byte, in a line.
fn front_of(text: &[u8], line: Span, byte: usize) -> Span {
    let mut to = line.from;
    for place in line.from..byte {
        match text.get(place) {
            Some(byte) if is_part(*byte) => to = place.saturating_add(1),
            _ => {}
        }
    }
    Span {
        from: line.from,
        to,
    }
}

/// What may stand at a byte of a script, in place of the letters of a word before it: commands, and names of its chart. The one error is
/// that memory was refused.
pub fn complete_script(
    alloc: Global,
    text: &[u8],
    byte: usize,
    chart: Option<&Chart>,
) -> Result<Vec<Candidate>, AllocError> {
    let mut found = Candidates::new(alloc);
    let front = front_of(text, line_around(text, byte), byte);
    let words = words_between(alloc, text, front)?;
    let line = ScriptLine { text, words };
    let bytes = text.get(front.from..front.to).unwrap_or(b"");
    if let Some(wanted) = wanted_behind(bytes, line.words.len()) {
        add_fixed(&mut found, wanted)?;
        if let Some(chart) = chart {
            add_wanted(&mut found, &line, wanted, chart)?;
        }
    }
    Ok(found.into_list())
}
