//! The faults of a chart behind its first one: each is told, and taken out of the text or mended, and the rest is read again.

ghost use Rattle.std.specs.Prelude.{◌≡◌};
ghost use Rattle.sfc_why.specs.Telling.{start};

use crate::lost::Lost;
use crate::mended::Mended;
use crate::pieces::{Piece, begins_at, bytes_of, element_round, part_round};
use crate::place::Place;
use crate::reading::{ReadingFault, reading_fault};
use crate::repair::{Broken, Change};
use crate::report::{Fault, Report, report_at};
use crate::sfc_load::load::load_with_place;
use crate::sfc_places::by_tree::finding_of;
use crate::sfc_places::chart_text::ChartText;
use crate::sfc_places::finding::Finding;
use crate::sfc_places::marks::spelling_at;
use crate::sfc_places::span::{Span, spans_of};
use crate::sfc_places::tree_text::TreeText;
use crate::sfc_script::sfc_load::sfc_check::placed_error::PlacedLoadError;
use sfc_events::load_error::LoadError;
use sfc_events::read_error::{ReadError, ReadErrorKind};
use sfc_hints::hints::Hints;
use sfc_hints::misplaced::Misplaced;
use sfc_hints::notes::add_finding;
use sfc_hints::short_front::{LONGEST, short_front};
use sfc_hints::trial::Goal;
use sfc_text::read::read_with_place;
use sfc_text::tree::Source;
use sfc_tokens::lex::tokens;
use sfc_tokens::placed::Placed;
use std::alloc::{AllocError, Global};

/// The most faults that are looked for.
const ROUNDS: usize = 300;

/// The most reports.
const MOST: usize = 100;

/// What the end of a text counts for among places.
const END: usize = 4_294_967_296;

// A text that is being searched.
#[derive(Drop)]
struct Search<'a> {
    mended: Mended<'a>,
    lost: Lost,
    // Bytes of the text as it was that were no tokens, whose elements are to be taken out.
    wounds: Vec<usize>,
    // The reports, the last one of the text first.
    found: Vec<Report>,
}

// Blanks in the place of these bytes; ends of lines stay.
fn blanks(alloc: Global, bytes: &[u8]) -> Result<Vec<u8>, AllocError> {
    let mut blank = Vec::new(alloc);
    for byte in bytes {
        blank.push(if *byte == b'\n' { b'\n' } else { b' ' })?;
    }
    Ok(blank)
}

// Whether the byte parts what is no token from what stands behind it.
fn parts(byte: u8) -> bool {
    byte <= b' ' || matches!(byte, b';' | b',' | b'(' | b')' | b':' | b'=')
}

// The place behind what stands from a place on up to a byte that parts it from the rest.
fn word_end(bytes: &[u8], from: usize) -> usize {
    for place in from..bytes.len() {
        match bytes.get(place) {
            Some(byte) if !parts(*byte) => {}
            _ => return place,
        }
    }
    bytes.len().max(from)
}

// The bytes of a text.
fn piece_bytes(bytes: &[u8], span: Span) -> &[u8] {
    bytes.get(span.from..span.to).unwrap_or(b"")
}

// A text with its tokens and its tree, and what is at fault in it.
#[derive(Clone, Copy)]
struct Loaded<'a> {
    text: &'a TreeText<'a>,
    fault: &'a PlacedLoadError,
}

/// The place in a text at which a report's place begins; the end of the text counts for one that no text has.
pub fn start_of(report: &Report) -> usize
    ensures { result ≡ start report.now }
{
    match report.place {
        Place::Token { from, .. } | Place::Byte { from, .. } | Place::Word { from, .. } => from,
        Place::End => END,
        Place::Whole => 0,
    }
}

impl<'a> Search<'a> {
    // Keeps a report in its place, unless one of that place is kept.
    fn keep(&mut self, report: Report) -> Result<(), AllocError> {
        let start = start_of(&report);
        let mut place = 0usize;
        for other in &self.found {
            if start_of(other) == start {
                return Ok(());
            }
            if start_of(other) > start {
                place = place.saturating_add(1);
            }
        }
        if place <= self.found.len() {
            self.found.insert(place, report)?;
        }
        Ok(())
    }

    // Tells a fault of bytes of the mended text, unless they were put there.
    fn tell(
        &mut self,
        alloc: Global,
        bytes: &[u8],
        refusal: Fault,
        place: Place,
        hints: Hints,
    ) -> Result<(), AllocError> {
        let place = match place {
            Place::Token {
                index,
                from,
                length,
            }
            | Place::Byte {
                index,
                from,
                length,
            } => {
                let to = from.saturating_add(length);
                let Some(span) = self.mended.untouched(bytes, Span { from, to }) else {
                    return Ok(());
                };
                Place::Token {
                    index,
                    from: span.from,
                    length,
                }
            }
            other => other,
        };
        let report = report_at(alloc, self.mended.text(), refusal, place, &hints.lines)?;
        let Hints { lines: _, near } = hints;
        self.keep(report.with_near(near))
    }

    // Puts blanks in the place of these bytes of the mended text.
    fn take_out(&mut self, alloc: Global, bytes: &[u8], span: Span) -> Result<(), AllocError> {
        let blank = blanks(alloc, piece_bytes(bytes, span))?;
        self.mended.replace(alloc, span, &blank)
    }

    // Takes out bytes that are no token; whether the rest can be read.
    fn take_out_byte(
        &mut self,
        alloc: Global,
        bytes: &[u8],
        place: Place,
    ) -> Result<bool, AllocError> {
        let Place::Byte { from, length, .. } = place else {
            return Ok(false);
        };
        let span = Span {
            from,
            to: from.saturating_add(length),
        };
        let opens = match piece_bytes(bytes, span) {
            [b'(', b'*', ..] | [b'{', ..] => true,
            _ => false,
        };
        if opens || length == 0 {
            return Ok(false);
        }
        self.wounds.push(self.mended.original(span).from)?;
        let whole = Span {
            from,
            to: word_end(bytes, span.to),
        };
        self.take_out(alloc, bytes, whole)?;
        Ok(true)
    }

    // Takes out the part of an element in which a token is, with the names that are declared in it; whether there is one.
    fn take_out_round(
        &mut self,
        alloc: Global,
        chart: &ChartText<'_>,
        index: usize,
    ) -> Result<bool, AllocError> {
        let Some(element) = element_round(chart.tokens, index) else {
            return Ok(false);
        };
        let part = part_round(chart.tokens, element, index);
        self.lost.add_declared(alloc, chart.tokens, element, part)?;
        self.take_out(alloc, chart.text, bytes_of(chart, part))?;
        Ok(true)
    }

    // Puts a word before a token.
    fn put_before(
        &mut self,
        alloc: Global,
        chart: &ChartText<'_>,
        index: usize,
        word: &[u8],
    ) -> Result<(), AllocError> {
        let from = match chart.spans.get(index) {
            Some(span) => span.from,
            None => chart.text.len(),
        };
        self.mended.replace(alloc, Span { from, to: from }, word)
    }

    // Mends a token that can't stand there: puts what is missing before it, or takes out the part in which it is; whether that is done.
    fn mend(
        &mut self,
        alloc: Global,
        chart: &ChartText<'_>,
        index: usize,
    ) -> Result<bool, AllocError> {
        let front = short_front(alloc, chart, index)?;
        if front.len() <= LONGEST {
            let misplaced = Misplaced {
                chart: *chart,
                index,
                goal: Goal::Chart,
                front: &front,
            };
            if let Some(word) = misplaced.missing(alloc)? {
                self.put_before(alloc, chart, index, word)?;
                return Ok(true);
            }
        }
        self.take_out_round(alloc, chart, index)
    }

    // Takes out the part round bytes that were no token; whether the rest can be read. None where they stood between elements.
    fn heal(
        &mut self,
        alloc: Global,
        chart: &ChartText<'_>,
        wound: usize,
    ) -> Result<Option<bool>, AllocError> {
        let mut index = 0usize;
        for span in chart.spans {
            if self.mended.original(*span).from >= wound {
                break;
            }
            index = index.saturating_add(1);
        }
        match element_round(chart.tokens, index) {
            Some(piece) if piece.from == index && begins_at(chart.tokens, index) => Ok(None),
            Some(piece) => {
                self.lost.add_wounded(chart.tokens, piece);
                Ok(Some(self.take_out_round(alloc, chart, index)?))
            }
            None => Ok(Some(false)),
        }
    }

    // The same of the last of the wounds round which there is a part, in a text that has tokens.
    fn heal_one(
        &mut self,
        alloc: Global,
        chart: &ChartText<'_>,
    ) -> Result<Option<bool>, AllocError> {
        for _ in 0..self.wounds.len() {
            let Some(wound) = self.wounds.pop() else {
                break;
            };
            if let Some(goes_on) = self.heal(alloc, chart, wound)? {
                return Ok(Some(goes_on));
            }
        }
        Ok(None)
    }

    // Takes out the part round the last bytes that were no token, where there are any and the text has tokens now; whether the rest can
    // be read. None where there is nothing to be done.
    fn heal_last(&mut self, alloc: Global, bytes: &[u8]) -> Result<Option<bool>, AllocError> {
        if self.wounds.is_empty() {
            return Ok(None);
        }
        match tokens(alloc, bytes) {
            Ok(found) => {
                let spans = spans_of(alloc, &found)?;
                let chart = ChartText {
                    text: bytes,
                    tokens: found.as_slice(),
                    spans: spans.as_slice(),
                };
                self.heal_one(alloc, &chart)
            }
            Err(fault) if fault.kind == ReadErrorKind::Memory => Err(AllocError),
            Err(_) => Ok(None),
        }
    }

    // Goes on behind a fault of reading, in a text with its tokens; whether there is more to be found.
    fn read_on(
        &mut self,
        alloc: Global,
        chart: &ChartText<'_>,
        error: &Placed<ReadError>,
    ) -> Result<bool, AllocError> {
        let ReadingFault { place, told } = reading_fault(alloc, Goal::Chart, chart.text, error)?;
        let index = match place {
            Place::Token { index, .. } => index,
            _ => chart.tokens.len(),
        };
        let refusal = Fault::Reading(error.value().kind);
        self.tell(alloc, chart.text, refusal, place, told)?;
        self.mend(alloc, chart, index)
    }

    // Goes on behind a fault of the lexer; whether there is more to be found.
    fn lex_on(
        &mut self,
        alloc: Global,
        bytes: &[u8],
        error: &Placed<ReadError>,
    ) -> Result<bool, AllocError> {
        let ReadingFault { place, told } = reading_fault(alloc, Goal::Chart, bytes, error)?;
        let refusal = Fault::Reading(error.value().kind);
        self.tell(alloc, bytes, refusal, place, told)?;
        self.take_out_byte(alloc, bytes, place)
    }

    // Goes on behind a fault of reading; whether there is more to be found.
    fn reading(
        &mut self,
        alloc: Global,
        bytes: &[u8],
        error: &Placed<ReadError>,
    ) -> Result<bool, AllocError> {
        match error.value().kind {
            ReadErrorKind::Memory => return Err(AllocError),
            ReadErrorKind::TooLong => return Ok(false),
            _ => {}
        }
        match tokens(alloc, bytes) {
            Ok(found) => {
                let spans = spans_of(alloc, &found)?;
                let chart = ChartText {
                    text: bytes,
                    tokens: found.as_slice(),
                    spans: spans.as_slice(),
                };
                self.read_on(alloc, &chart, error)
            }
            Err(fault) if fault.kind == ReadErrorKind::Memory => Err(AllocError),
            Err(_) => self.lex_on(alloc, bytes, error),
        }
    }

    // Whether a fault of loading may go away once an earlier one is mended.
    fn may_go_away(&self, chart: &ChartText<'_>, finding: Finding, piece: Piece) -> bool {
        let is_unknown = matches!(
            finding.error,
            LoadError::Unknown
                | LoadError::UnknownStep
                | LoadError::UnknownAction
                | LoadError::UnknownType
                | LoadError::NoTask
        );
        if finding.error == LoadError::NoInitial {
            return self.lost.has_initial;
        }
        if is_unknown && self.lost.may_have(spelling_at(chart.tokens, finding.token)) {
            return true;
        }
        self.lost.is_in(chart.tokens, piece)
    }

    // Does what is to be done to a piece.
    fn change(
        &mut self,
        alloc: Global,
        chart: &ChartText<'_>,
        piece: Piece,
        change: Change<'_>,
    ) -> Result<(), AllocError> {
        let span = bytes_of(chart, piece);
        match change {
            Change::TakenOut => self.take_out(alloc, chart.text, span),
            Change::True => {
                let mut with = Vec::from_slice(alloc, b"TRUE")?;
                with.extend_from_slice(&blanks(alloc, piece_bytes(chart.text, span))?)?;
                self.mended.replace(alloc, span, &with)
            }
            Change::Word(word) => self.mended.replace(alloc, span, word),
            Change::With(task) => {
                let mut with = Vec::from_slice(alloc, piece_bytes(chart.text, span))?;
                with.extend_from_slice(b" WITH ")?;
                with.extend_from_slice(task)?;
                self.mended.replace(alloc, span, &with)
            }
        }
    }

    // Tells what loading finds.
    fn tell_finding(
        &mut self,
        alloc: Global,
        text: &TreeText<'_>,
        finding: Finding,
    ) -> Result<(), AllocError> {
        let chart = text.chart;
        let Some(span) = chart.spans.get(finding.token) else {
            return Ok(());
        };
        let mut hints = Hints::new(alloc);
        add_finding(alloc, &mut hints, text, finding)?;
        let place = Place::Token {
            index: finding.token,
            from: span.from,
            length: span.to.saturating_sub(span.from),
        };
        self.tell(
            alloc,
            chart.text,
            Fault::Loading(finding.error),
            place,
            hints,
        )
    }

    // Goes on behind a fault of loading; whether there is more to be found.
    fn load_on(&mut self, alloc: Global, loaded: Loaded<'_>) -> Result<bool, AllocError> {
        let text = loaded.text;
        let Some(finding) = finding_of(alloc, text, loaded.fault)? else {
            return Err(AllocError);
        };
        let broken = Broken {
            text,
            finding,
            span: loaded.fault.span(),
        };
        let Some((piece, change)) = broken.repair() else {
            self.tell_finding(alloc, text, finding)?;
            return Ok(false);
        };
        if !self.may_go_away(text.chart, finding, piece) {
            self.tell_finding(alloc, text, finding)?;
        }
        if broken.is_losing() {
            self.lost.add(alloc, text.chart.tokens, finding.token)?;
        }
        self.change(alloc, text.chart, piece, change)?;
        Ok(true)
    }

    // Goes on behind a fault of loading, in a text that is read; whether there is more to be found.
    fn loading(
        &mut self,
        alloc: Global,
        bytes: &[u8],
        source: &Source,
        fault: &PlacedLoadError,
    ) -> Result<bool, AllocError> {
        if fault.error() == LoadError::Memory {
            return Err(AllocError);
        }
        let Ok(found) = tokens(alloc, bytes) else {
            return Err(AllocError);
        };
        let spans = spans_of(alloc, &found)?;
        let chart = ChartText {
            text: bytes,
            tokens: found.as_slice(),
            spans: spans.as_slice(),
        };
        let text = TreeText {
            chart: &chart,
            source,
        };
        self.load_on(alloc, Loaded { text: &text, fault })
    }

    // Reads and loads the mended text, and tells its first fault; whether there is more to be found.
    fn round(&mut self, alloc: Global, bytes: &[u8]) -> Result<bool, AllocError> {
        if let Some(goes_on) = self.heal_last(alloc, bytes)? {
            return Ok(goes_on);
        }
        match read_with_place(alloc, bytes) {
            Err(error) => self.reading(alloc, bytes, &error),
            Ok(source) => match load_with_place(alloc, &source) {
                Ok(_plant) => Ok(false),
                Err(fault) => self.loading(alloc, bytes, &source, &fault),
            },
        }
    }

    // Goes on until there is no more to be found, or the text stays as it is.
    fn run(&mut self, alloc: Global) -> Result<(), AllocError> {
        let mut bytes = self.mended.bytes(alloc)?;
        for _ in 0..ROUNDS {
            if self.found.len() >= MOST || !self.round(alloc, &bytes)? {
                break;
            }
            let more = self.mended.bytes(alloc)?;
            if more.as_slice() == bytes.as_slice() {
                break;
            }
            bytes = more;
        }
        Ok(())
    }
}

/// The reports of the faults of a text, up to a hundred, the last one of the text first, each at a place of its own. The one error is that
/// memory was refused.
pub fn faults_of(alloc: Global, text: &[u8]) -> Result<Vec<Report>, AllocError> {
    let mut search = Search {
        mended: Mended::new(alloc, text),
        lost: Lost::new(alloc),
        wounds: Vec::new(alloc),
        found: Vec::new(alloc),
    };
    search.run(alloc)?;
    let Search {
        mended: _,
        lost: _,
        wounds: _,
        found,
    } = search;
    Ok(found)
}
