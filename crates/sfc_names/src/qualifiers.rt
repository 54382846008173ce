//! What is told of the qualifiers of associations (2.6.4.4).

use sfc_base::case::is_same_word;

/// What is told of a qualifier.
pub struct QualifierPage {
    pub word: &'static str,
    /// What it means, in one line without its end.
    pub meaning: &'static str,
    /// When the step and the action are active, as lines that go from left to right.
    pub diagram: &'static str,
}

/// All qualifiers, in the order of the standard's table.
static PAGES: [QualifierPage; 11] = [
    QualifierPage {
        word: "N",
        meaning: "not stored: the action is active while the step is",
        diagram: "step    ___/~~~~~~~~\\_________\naction  ___/~~~~~~~~\\_________\n",
    },
    QualifierPage {
        word: "R",
        meaning: "overriding reset: the action that S, SD, DS or SL has stored ends, and isn't active while this step is",
        diagram: "step    ________/~~~~~~~~\\____\naction  ~~~~~~~~\\_____________\n",
    },
    QualifierPage {
        word: "S",
        meaning: "set: the action is active from the step on, until another step has R",
        diagram: "step    ___/~~~~~\\____________\nR       __________________/~~~\naction  ___/~~~~~~~~~~~~~~\\___\n",
    },
    QualifierPage {
        word: "L",
        meaning: "time limited: the action is active while the step is, but no longer than the time",
        diagram: "step    ___/~~~~~~~~~~~~~~\\___\ntime       |<-T->|\naction  ___/~~~~~\\____________\n",
    },
    QualifierPage {
        word: "D",
        meaning: "time delayed: the action becomes active when the step has been active for the time, and ends with it",
        diagram: "step    ___/~~~~~~~~~~~~~~\\___\ntime       |<-T->|\naction  _________/~~~~~~~~\\___\n",
    },
    QualifierPage {
        word: "P",
        meaning: "pulse: the action is active in the one scan in which the step becomes active, and is executed once more as it ends",
        diagram: "step    ___/~~~~~~~~\\_________\naction  ___/~\\________________\n",
    },
    QualifierPage {
        word: "SD",
        meaning: "stored and time delayed: the action becomes active the time after the step, until another step has R",
        diagram: "step    ___/~~~\\______________\ntime       |<-T->|\nR       __________________/~~~\naction  _________/~~~~~~~~\\___\n",
    },
    QualifierPage {
        word: "DS",
        meaning: "delayed and stored: the action becomes active when the step has been active for the time, until another step has R",
        diagram: "step    ___/~~~~~~~~\\_________\ntime       |<-T->|\nR       __________________/~~~\naction  _________/~~~~~~~~\\___\n",
    },
    QualifierPage {
        word: "SL",
        meaning: "stored and time limited: the action is active for the time from the step on, or until another step has R",
        diagram: "step    ___/~~~\\______________\ntime       |<-T->|\naction  ___/~~~~~\\____________\n",
    },
    QualifierPage {
        word: "P1",
        meaning: "pulse, rising edge: the action is executed once, in the scan in which the step becomes active",
        diagram: "step    ___/~~~~~~~~\\_________\naction  ___|__________________\n",
    },
    QualifierPage {
        word: "P0",
        meaning: "pulse, falling edge: the action is executed once, in the scan in which the step ends",
        diagram: "step    ___/~~~~~~~~\\_________\naction  ____________|_________\n",
    },
];

/// What is told of all qualifiers.
pub fn qualifier_pages() -> &'static [QualifierPage] {
    &PAGES
}

/// What is told of the qualifier that a word is, in any case of its letters; None where it is none.
pub fn qualifier_named(word: &[u8]) -> Option<&'static QualifierPage> {
    qualifier_pages()
        .iter()
        .find(|page| is_same_word(page.word.as_bytes(), word))
}

/// Whether the word is a qualifier that has a time, in any case of its letters.
pub fn is_timed(word: &[u8]) -> bool {
    ["L", "D", "SD", "DS", "SL"]
        .iter()
        .any(|timed| is_same_word(timed.as_bytes(), word))
}
