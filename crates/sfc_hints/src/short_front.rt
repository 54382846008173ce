//! The front of a chart before a token, without the elements that have ended there: what may follow doesn't depend on them.

use sfc_base::keyword::Keyword;
use sfc_places::chart_text::ChartText;
use sfc_places::marks::{behind, keyword_at};
use std::alloc::{AllocError, Global};

/// The most bytes of a front behind which what could stand there is tried.
pub const LONGEST: usize = 65_536;

const IN_PROGRAM: &[u8] = b"PROGRAM z ";

const BEHIND_ELEMENT: &[u8] = b"PROGRAM z STEP z: END_STEP ";

const IN_CONFIGURATION: &[u8] = b"CONFIGURATION z ";

const IN_RESOURCE: &[u8] = b"CONFIGURATION z RESOURCE z ON z ";

const BEHIND_CONFIGURATION: &[u8] =
    b"CONFIGURATION z RESOURCE z ON z PROGRAM z: z; END_RESOURCE END_CONFIGURATION ";

/// Where the last part of the front begins that hasn't ended, and what stands for all before it.
#[derive(Clone, Copy)]
struct Cut {
    // The place of its first token.
    from: usize,
    before: &'static [u8],
    // What stands for the part round it.
    round: &'static [u8],
    in_configuration: bool,
    is_configured: bool,
}

impl Cut {
    // A part begins at the place, in the part round it.
    fn begin(self, from: usize) -> Cut {
        Cut {
            from,
            before: self.round,
            ..self
        }
    }

    // A part has ended before the place, and in the part round it stands this.
    fn end(self, from: usize, round: &'static [u8]) -> Cut {
        Cut {
            from,
            before: round,
            round,
            ..self
        }
    }

    // What stands for what is outside program types and the configuration.
    fn outside(self) -> &'static [u8] {
        if self.is_configured {
            BEHIND_CONFIGURATION
        } else {
            b""
        }
    }

    // A program type or an instance begins.
    fn with_program(self, at: usize) -> Cut {
        if self.in_configuration {
            return self.begin(at);
        }
        Cut {
            round: IN_PROGRAM,
            ..self.begin(at)
        }
    }

    // The configuration, or its resource, begins; in it this stands.
    fn with_round(self, at: usize, round: &'static [u8]) -> Cut {
        Cut {
            round,
            in_configuration: true,
            ..self.begin(at)
        }
    }

    // The configuration has ended before the place.
    fn behind_configuration(self, from: usize) -> Cut {
        let cut = Cut {
            in_configuration: false,
            is_configured: true,
            ..self
        };
        cut.end(from, BEHIND_CONFIGURATION)
    }

    // Goes on by a reserved word.
    fn pass(self, word: Keyword, at: usize) -> Cut {
        let next = behind(at, 1);
        match word {
            Keyword::Program => self.with_program(at),
            Keyword::Configuration => self.with_round(at, IN_CONFIGURATION),
            Keyword::Resource => self.with_round(at, IN_RESOURCE),
            Keyword::Var | Keyword::VarExternal | Keyword::VarGlobal | Keyword::Task => {
                self.begin(at)
            }
            Keyword::Step | Keyword::InitialStep | Keyword::Transition | Keyword::Action => {
                self.begin(at)
            }
            Keyword::EndVar => self.end(next, self.round),
            Keyword::EndStep | Keyword::EndTransition | Keyword::EndAction => {
                self.end(next, BEHIND_ELEMENT)
            }
            Keyword::EndProgram => self.end(next, self.outside()),
            Keyword::EndConfiguration => self.behind_configuration(next),
            _ => self,
        }
    }
}

// The place of the byte at which a token begins; the end of the text where there is none.
fn byte_of(chart: &ChartText<'_>, token: usize) -> usize {
    match chart.spans.get(token) {
        Some(span) => span.from,
        None => chart.text.len(),
    }
}

/// The front of a chart before the token at a place, without the elements that have ended there. The one error is that memory was
/// refused.
pub fn short_front(
    alloc: Global,
    chart: &ChartText<'_>,
    place: usize,
) -> Result<Vec<u8>, AllocError> {
    let mut cut = Cut {
        from: 0,
        before: b"",
        round: b"",
        in_configuration: false,
        is_configured: false,
    };
    for at in 0..place {
        if let Some(word) = keyword_at(chart.tokens, at) {
            cut = cut.pass(word, at);
        }
    }
    let mut front = Vec::from_slice(alloc, cut.before)?;
    let (from, to) = (byte_of(chart, cut.from), byte_of(chart, place));
    front.extend_from_slice(chart.text.get(from..to).unwrap_or(b""))?;
    Ok(front)
}
