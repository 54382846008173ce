//! What may stand at a place of a chart.

use crate::chart::{Chart, tokens_of};
use crate::names::{Space, program_named};
use crate::qualifiers::qualifier_pages;
use crate::reading::bytes_of;
use crate::wanted::{Wanted, program_around, wanted_behind_tokens};
use sfc_base::var_type::VarType;
use sfc_hints::expected::KEYWORDS;
use sfc_hints::short_front::{LONGEST, short_front};
use sfc_hints::trial::{Goal, Outcome, try_front};
use sfc_outline::entry::Entry;
use sfc_outline::item::Item;
use sfc_places::chart_text::ChartText;
use sfc_places::span::spans_of;
use sfc_tokens::token::Token;
use std::alloc::{AllocError, Global};

/// Operators and literals that are words.
const OTHER_WORDS: &str = "OR XOR AND MOD TRUE FALSE";

/// What kind of word may stand there.
#[derive(Clone, Copy, Debug, PartialEq, Eq)]
pub enum Sort {
    Keyword,
    Qualifier,
    Part,
    Command,
    Variable,
    Step,
    Action,
    Transition,
    Task,
    Instance,
    ProgramType,
}

/// A word that may stand at a place, and what it is, in words.
pub struct Candidate {
    pub word: Vec<u8>,
    pub sort: Sort,
    pub detail: Vec<u8>,
}

// By hand, so that a caller that drops one proves one call.
impl Drop for Candidate {
    fn drop(self) {
        let Candidate {
            word: _,
            sort: _,
            detail: _,
        } = self;
    }
}

/// Words that may stand at a place.
#[derive(Drop)]
pub struct Candidates {
    alloc: Global,
    list: Vec<Candidate>,
}

// What kind of word names something of a space.
fn sort_of(space: Space) -> Sort {
    match space {
        Space::ProgramTypes => Sort::ProgramType,
        Space::Globals | Space::Locals(_) => Sort::Variable,
        Space::Tasks => Sort::Task,
        Space::Instances => Sort::Instance,
        Space::Steps(_) => Sort::Step,
        Space::Transitions(_) => Sort::Transition,
        Space::Actions(_) => Sort::Action,
    }
}

// The type of a variable, where it is known.
fn type_of(chart: &Chart, item: Item) -> Option<VarType> {
    let plant = chart.plant.as_ref()?;
    let variable = match item {
        Item::Global { global } => plant.globals().get(global)?,
        Item::Local { program, local } => {
            plant.types().get(program)?.locals.as_slice().get(local)?
        }
        _ => return None,
    };
    Some(variable.var_type)
}

// Whether a variable may be of a type.
fn may_be(found: Option<VarType>, wanted: VarType) -> bool {
    match found {
        Some(found) => found == wanted,
        None => true,
    }
}

// The first line of what is declared.
fn first_line(bytes: &[u8]) -> &[u8] {
    match bytes.iter().position(|byte| *byte == b'\n') {
        Some(end) => bytes.get(..end).unwrap_or(bytes),
        None => bytes,
    }
}

impl Candidates {
    /// None.
    pub fn new(alloc: Global) -> Candidates {
        Candidates {
            alloc,
            list: Vec::new(alloc),
        }
    }

    /// The words.
    pub fn into_list(self) -> Vec<Candidate> {
        let Candidates { alloc: _, list } = self;
        list
    }

    /// Puts a word last. The one error is that memory was refused.
    pub fn add(&mut self, word: &[u8], sort: Sort, detail: &[u8]) -> Result<(), AllocError> {
        self.list.push(Candidate {
            word: Vec::from_slice(self.alloc, word)?,
            sort,
            detail: Vec::from_slice(self.alloc, detail)?,
        })?;
        Ok(())
    }

    // Puts what an entry declares last, if it has a name.
    fn add_entry(&mut self, chart: &Chart, space: Space, entry: &Entry) -> Result<(), AllocError> {
        let sort = sort_of(space);
        let Some(name) = entry.name else {
            return Ok(());
        };
        let detail = if sort == Sort::Variable {
            first_line(chart.bytes(entry.span))
        } else {
            space.kind().as_bytes()
        };
        self.add(chart.bytes(name), sort, detail)
    }

    /// Puts the names of a space last. The one error is that memory was refused.
    pub fn add_space(&mut self, chart: &Chart, space: Space) -> Result<(), AllocError> {
        for entry in &chart.outline.entries {
            if space.has(entry.item) {
                self.add_entry(chart, space, entry)?;
            }
        }
        Ok(())
    }

    // Puts the variables of a space last that are of a type, and those whose type isn't known.
    fn add_typed(
        &mut self,
        chart: &Chart,
        space: Space,
        wanted: VarType,
    ) -> Result<(), AllocError> {
        for entry in &chart.outline.entries {
            if space.has(entry.item) && may_be(type_of(chart, entry.item), wanted) {
                self.add_entry(chart, space, entry)?;
            }
        }
        Ok(())
    }

    // Puts the qualifiers last.
    fn add_qualifiers(&mut self) -> Result<(), AllocError> {
        for page in qualifier_pages() {
            self.add(
                page.word.as_bytes(),
                Sort::Qualifier,
                page.meaning.as_bytes(),
            )?;
        }
        Ok(())
    }

    // Puts the parts of steps and of actions last.
    fn add_parts(&mut self) -> Result<(), AllocError> {
        self.add(b"X", Sort::Part, b"whether the step is active, a BOOL")?;
        self.add(b"T", Sort::Part, b"how long the step is active, a TIME")?;
        self.add(b"Q", Sort::Part, b"whether the action is active, a BOOL")
    }

    // Puts the names last that are wanted in a program type.
    fn add_own(&mut self, chart: &Chart, program: usize, wanted: Wanted) -> Result<(), AllocError> {
        match wanted {
            Wanted::Action => {
                self.add_space(chart, Space::Actions(program))?;
                self.add_typed(chart, Space::Locals(program), VarType::Bool)
            }
            Wanted::Time => self.add_typed(chart, Space::Locals(program), VarType::Time),
            Wanted::Variable => self.add_space(chart, Space::Locals(program)),
            Wanted::Operand => {
                self.add_space(chart, Space::Locals(program))?;
                self.add_space(chart, Space::Steps(program))
            }
            Wanted::Step => self.add_space(chart, Space::Steps(program)),
            _ => Ok(()),
        }
    }

    // Puts the names last that are wanted and that all program types share.
    fn add_shared(&mut self, chart: &Chart, wanted: Wanted) -> Result<(), AllocError> {
        match wanted {
            Wanted::Action => self.add_typed(chart, Space::Globals, VarType::Bool),
            Wanted::Time => self.add_typed(chart, Space::Globals, VarType::Time),
            Wanted::Variable | Wanted::Operand | Wanted::Global => {
                self.add_space(chart, Space::Globals)
            }
            Wanted::Task => self.add_space(chart, Space::Tasks),
            Wanted::ProgramType => self.add_space(chart, Space::ProgramTypes),
            _ => Ok(()),
        }
    }

    // Puts those of the words last with which the front of a chart may go on.
    fn add_words(&mut self, front: &[u8], words: &'static str) -> Result<(), AllocError> {
        for word in words.split_whitespace() {
            let outcome = try_front(self.alloc, Goal::Chart, front, word.as_bytes())?;
            if outcome != Outcome::Wrong {
                self.add(word.as_bytes(), Sort::Keyword, b"reserved word")?;
            }
        }
        Ok(())
    }
}

// Where the word begins that ends at a byte.
fn word_start(text: &[u8], byte: usize) -> usize {
    let front = text.get(..byte).unwrap_or(text);
    let letters = front
        .iter()
        .rev()
        .take_while(|byte| byte.is_ascii_alphanumeric() || **byte == b'_')
        .count();
    front.len().saturating_sub(letters)
}

// The front of a text before the word at a byte.
fn front_before_word(text: &[u8], byte: usize) -> &[u8] {
    text.get(..word_start(text, byte)).unwrap_or(b"")
}

// The program type of a chart in which the end of these tokens of a text stands.
fn program_at(chart: &Chart, text: &[u8], tokens: &[Token]) -> Option<usize> {
    let name = tokens.get(program_around(tokens)?)?;
    program_named(chart, bytes_of(text, name.span))
}

// The names that are wanted behind these tokens of a text.
fn add_names(
    found: &mut Candidates,
    text: &[u8],
    tokens: &[Token],
    chart: &Chart,
) -> Result<(), AllocError> {
    let wanted = wanted_behind_tokens(tokens);
    if let Some(program) = program_at(chart, text, tokens) {
        found.add_own(chart, program, wanted)?;
    }
    found.add_shared(chart, wanted)
}

// The words of the language that may stand behind these tokens of a text.
fn add_language(
    found: &mut Candidates,
    front: &[u8],
    tokens: &[Token],
) -> Result<bool, AllocError> {
    let alloc = found.alloc;
    let spans = spans_of(alloc, tokens)?;
    let chart = ChartText {
        text: front,
        tokens,
        spans: &spans,
    };
    let short = short_front(alloc, &chart, tokens.len())?;
    if short.len() > LONGEST {
        return Ok(true);
    }
    found.add_words(&short, KEYWORDS)?;
    found.add_words(&short, OTHER_WORDS)?;
    let outcome = try_front(alloc, Goal::Chart, &short, b"z")?;
    Ok(outcome != Outcome::Wrong)
}

/// What may stand at a byte of a text, in place of the letters of a word before it: reserved words by the grammar, and names of the chart
/// that was read last, by what is wanted there. Nothing in a comment. The one error is that memory was refused.
pub fn complete_chart(
    alloc: Global,
    text: &[u8],
    byte: usize,
    chart: Option<&Chart>,
) -> Result<Vec<Candidate>, AllocError> {
    let mut found = Candidates::new(alloc);
    let front = front_before_word(text, byte);
    let Some(tokens) = tokens_of(alloc, front)? else {
        return Ok(found.into_list());
    };
    let may_be_name = add_language(&mut found, front, &tokens)?;
    match wanted_behind_tokens(&tokens) {
        Wanted::Qualifier => found.add_qualifiers()?,
        Wanted::Part => found.add_parts()?,
        _ => {}
    }
    if let (true, Some(chart)) = (may_be_name, chart) {
        add_names(&mut found, text, &tokens, chart)?;
    }
    Ok(found.into_list())
}
