//! Names in commands of a script that the plant hasn't: the commands will be refused when the script is played.

use crate::sfc_core::resource::Resource;
use crate::sfc_places::span::Span;
use sfc_base::case::is_same_word;
use sfc_base::ids::ProgId;
use sfc_events::refusal::Refusal;
use sfc_plant::plant::Plant;
use sfc_script::line_fault::{LineFault, line_fault};
use sfc_script::point::{are_digits, find_action, numbered_transition};
use sfc_script::split::first_word;
use sfc_script::wanted::{Wanted, words_behind};

/// What a name is to be.
#[derive(Clone, Copy, PartialEq, Eq)]
pub enum Sought {
    Task,
    Program,
    Variable,
    /// Points of a program instance.
    Step(ProgId),
    Transition(ProgId),
    Action(ProgId),
}

impl Sought {
    /// Why a command is refused that names one which isn't there.
    pub fn refusal(self) -> Refusal {
        match self {
            Sought::Task => Refusal::UnknownTask,
            Sought::Program => Refusal::UnknownProgram,
            Sought::Variable => Refusal::UnknownVar,
            Sought::Step(_) | Sought::Transition(_) | Sought::Action(_) => Refusal::NoSuchPoint,
        }
    }
}

/// A name in a line that the plant hasn't: its bytes in the line, and what it is to be.
#[derive(Clone, Copy)]
pub struct Missing {
    pub span: Span,
    pub sought: Sought,
}

// A word of a line, and what stands behind it.
#[derive(Clone, Copy)]
struct Named<'a> {
    line: &'a [u8],
    word: &'a [u8],
    behind: &'a [u8],
}

impl<'a> Named<'a> {
    // The first word of what stands behind this one.
    fn next(self) -> Option<Named<'a>> {
        let (word, behind) = first_word(self.behind)?;
        Some(Named {
            line: self.line,
            word,
            behind,
        })
    }

    // That the word is what the plant hasn't.
    fn missing(self, sought: Sought) -> Option<Missing> {
        let to = self.line.len().saturating_sub(self.behind.len());
        let from = to.saturating_sub(self.word.len());
        Some(Missing {
            span: Span { from, to },
            sought,
        })
    }
}

// Whether the program instance has the transition of this number or name.
fn has_transition(resource: &Resource, program: ProgId, word: &[u8]) -> bool {
    let plant = resource.plant();
    if !are_digits(word) {
        return plant.find_transition(program, word).is_some();
    }
    if program.0 as usize >= plant.instances().len() {
        return false;
    }
    match numbered_transition(word) {
        Some(transition) => {
            usize::from(transition.0) < resource.program(program).tables().transitions()
        }
        None => false,
    }
}

// The point of a program instance that isn't there, behind the name of the instance.
fn missing_point(resource: &Resource, program: ProgId, named: Named<'_>) -> Option<Missing> {
    let kind = named.next()?;
    let name = kind.next()?;
    if is_same_word(kind.word, b"STEP") {
        return match resource.plant().find_step(program, name.word) {
            Some(_) => None,
            None => name.missing(Sought::Step(program)),
        };
    }
    if is_same_word(kind.word, b"ACTION") {
        return match find_action(resource, program, name.word) {
            Some(_) => None,
            None => name.missing(Sought::Action(program)),
        };
    }
    if has_transition(resource, program, name.word) {
        return None;
    }
    name.missing(Sought::Transition(program))
}

// The program instance that isn't there, or else its point.
fn missing_program(resource: &Resource, wanted: &[Wanted], named: Named<'_>) -> Option<Missing> {
    match resource.plant().find_instance(named.word) {
        None => named.missing(Sought::Program),
        Some(program) if wanted.len() > 1 => missing_point(resource, program, named),
        Some(_) => None,
    }
}

// Whether a task or a variable isn't there.
fn missing_of(plant: &Plant, wanted: Wanted, named: Named<'_>) -> Option<Missing> {
    match wanted {
        Wanted::Task if plant.find_task(named.word).is_none() => named.missing(Sought::Task),
        Wanted::Variable if plant.find_variable(named.word).is_none() => {
            named.missing(Sought::Variable)
        }
        _ => None,
    }
}

/// The first name in a line of a script, without its end, that the plant hasn't; None where the line is skipped or is no command, or where
/// there is none. It takes no memory.
pub fn missing_name(resource: &Resource, line: &[u8]) -> Option<Missing> {
    if let Some(LineFault::Word(_, _)) = line_fault(line) {
        return None;
    }
    let (instant, command) = first_word(line)?;
    if let Some(b';') = instant.first() {
        return None;
    }
    missing_in(resource, line, command)
}

/// The first name in a command that the plant hasn't, at whose end the line ends; None where there is none. It takes no memory.
pub fn missing_in(resource: &Resource, line: &[u8], command: &[u8]) -> Option<Missing> {
    let start = Named {
        line,
        word: b"",
        behind: command,
    };
    let command = start.next()?;
    let wanted = words_behind(command.word)?;
    let named = command.next()?;
    match wanted.first()? {
        Wanted::Program => missing_program(resource, wanted, named),
        other => missing_of(resource.plant(), *other, named),
    }
}
