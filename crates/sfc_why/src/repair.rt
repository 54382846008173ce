//! What is put in the place of a fault of loading, so that the rest can be loaded.

use crate::pieces::{
    Piece, element_round, last_before, line_round, name_in_list, part_round, statement_round,
};
use crate::sfc_places::enclosing::{holds, program_at};
use crate::sfc_places::finding::{Element, Finding, Part};
use crate::sfc_places::marks::{Mark, behind, is_at, keyword_at, next, spelling_at};
use crate::sfc_places::tree_text::TreeText;
use sfc_base::delimiter::Delimiter;
use sfc_base::keyword::Keyword;
use sfc_events::load_error::LoadError;
use sfc_text::tree;
use sfc_tokens::span::Span;

/// What is done to a piece of a text.
#[derive(Clone, Copy)]
pub enum Change<'a> {
    /// It is taken out.
    TakenOut,
    /// `TRUE` stands in its place.
    True,
    /// This stands in its place.
    Word(&'a [u8]),
    /// WITH and this stand behind it.
    With(&'a [u8]),
}

/// A piece, and what is done to it.
pub type Repair<'a> = (Piece, Change<'a>);

// The token at a place, alone.
fn alone(at: usize) -> Piece {
    Piece {
        from: at,
        to: behind(at, 1),
    }
}

// A piece that is taken out.
fn without<'a>(piece: Piece) -> Option<Repair<'a>> {
    Some((piece, Change::TakenOut))
}

/// A text that was read, and a fault of it.
#[derive(Clone, Copy)]
pub struct Broken<'a> {
    pub text: &'a TreeText<'a>,
    pub finding: Finding,
    pub span: Span,
}

impl<'a> Broken<'a> {
    // The whole element.
    fn element(&self) -> Option<Piece> {
        element_round(self.text.chart.tokens, self.finding.token)
    }

    // The part of the element, or else the element.
    fn part(&self) -> Option<Piece> {
        let element = self.element()?;
        Some(part_round(self.text.chart.tokens, element, self.finding.token))
    }

    // From the last such token before the fault up to the first semicolon, which stays.
    fn from_mark(&self, mark: Mark) -> Option<Piece> {
        let tokens = self.text.chart.tokens;
        let from = last_before(tokens, behind(self.finding.token, 1), mark)?;
        let to = next(tokens, from, Mark::Sign(Delimiter::Semicolon));
        Some(Piece { from, to })
    }

    // The location of a declaration, from AT on.
    fn location(&self) -> Option<Piece> {
        let tokens = self.text.chart.tokens;
        let element = self.element()?;
        let last = element.to;
        let line = line_round(tokens, element.from, self.finding.token, last);
        let from = next(tokens, line.from, Mark::Keyword(Keyword::At));
        if from >= line.to {
            return None;
        }
        Some(Piece {
            from,
            to: behind(from, 2),
        })
    }

    // A name that is declared, in its list, or else its declaration.
    fn declared(&self) -> Option<Piece> {
        match name_in_list(self.text.chart.tokens, self.finding.token) {
            Some(piece) => Some(piece),
            None => self.part(),
        }
    }

    // What a task says by a name and `:=`, up to its comma.
    fn task_part(&self) -> Option<Piece> {
        let tokens = self.text.chart.tokens;
        let sign = last_before(tokens, self.finding.token, Mark::Sign(Delimiter::Assign))?;
        let from = sign.checked_sub(1)?;
        let to = next(tokens, from, Mark::Sign(Delimiter::Comma));
        Some(Piece {
            from,
            to: behind(to, 1),
        })
    }

    // The name of the first task.
    fn first_task(&self) -> Option<&'a [u8]> {
        let source: &'a tree::Source = self.text.source;
        let task = source.configuration.tasks.as_slice().first()?;
        Some(task.value().name.spelling())
    }

    // The name of the first program type.
    fn first_program(&self) -> Option<&'a [u8]> {
        let source: &'a tree::Source = self.text.source;
        let program = source.programs.as_slice().first()?;
        Some(program.name.spelling())
    }

    // The condition of the transition.
    fn condition(&self) -> Option<Piece> {
        let program = program_at(self.text.source, self.span)?;
        for element in program.elements.as_slice() {
            if let tree::Element::Transition(transition, whole) = element {
                if holds(*whole, self.span) {
                    return Some(self.tokens_in(transition.condition_span));
                }
            }
        }
        None
    }

    // The tokens among these bytes.
    fn tokens_in(&self, span: Span) -> Piece {
        let chart = self.text.chart;
        Piece {
            from: crate::sfc_places::enclosing::token_from(chart, span.from),
            to: crate::sfc_places::enclosing::token_from(chart, span.to),
        }
    }

    // The first step of a program type, which is made its initial step.
    fn first_step(&self) -> Option<Repair<'a>> {
        let tokens = self.text.chart.tokens;
        let step = next(tokens, self.finding.token, Mark::Keyword(Keyword::Step));
        let end = next(
            tokens,
            self.finding.token,
            Mark::Keyword(Keyword::EndProgram),
        );
        if step >= end {
            return None;
        }
        Some((alone(step), Change::Word(b"INITIAL_STEP")))
    }

    // What is done to an instance.
    fn of_instance(&self) -> Option<Repair<'a>> {
        let here = alone(self.finding.token);
        match self.finding.part {
            Part::TaskName => Some((here, Change::Word(self.first_task()?))),
            Part::Whole => Some((here, Change::With(self.first_task()?))),
            Part::ProgramType => Some((here, Change::Word(self.first_program()?))),
            _ => without(self.element()?),
        }
    }

    // What is done to a program type.
    fn of_program(&self) -> Option<Repair<'a>> {
        if self.finding.error == LoadError::NoInitial {
            return self.first_step();
        }
        let tokens = self.text.chart.tokens;
        let from = self.finding.token.checked_sub(1)?;
        let to = next(tokens, from, Mark::Keyword(Keyword::EndProgram));
        without(Piece {
            from,
            to: behind(to, 1),
        })
    }

    // What is done to a variable.
    fn of_variable(&self) -> Option<Repair<'a>> {
        match self.finding.part {
            _ if self.finding.error == LoadError::SameLocation => without(self.location()?),
            Part::Location => without(self.location()?),
            Part::InitialValue => without(self.from_mark(Mark::Sign(Delimiter::Assign))?),
            _ => without(self.declared()?),
        }
    }

    // What is done to a transition.
    fn of_transition(&self) -> Option<Repair<'a>> {
        match self.finding.part {
            Part::Condition => Some((self.condition()?, Change::True)),
            Part::Name => without(alone(self.finding.token)),
            _ => without(self.element()?),
        }
    }

    // What is done to an action.
    fn of_action(&self) -> Option<Repair<'a>> {
        if let Part::Name = self.finding.part {
            return without(self.element()?);
        }
        let (piece, is_condition) = statement_round(self.text.chart.tokens, self.finding.token);
        let change = if is_condition {
            Change::True
        } else {
            Change::TakenOut
        };
        Some((piece, change))
    }

    // What is done to a step: it is taken out where its name is at fault, and else the association.
    fn of_step(&self) -> Option<Repair<'a>> {
        match self.finding.part {
            Part::Name => without(self.element()?),
            _ => without(self.part()?),
        }
    }

    /// The smallest piece round the fault without which the rest can be loaded, and what is done to it; None where none is known.
    pub fn repair(&self) -> Option<Repair<'a>> {
        if let LoadError::Limit(_) | LoadError::Memory = self.finding.error {
            return None;
        }
        match self.finding.element {
            Element::Global { .. } | Element::Local { .. } | Element::External { .. } => {
                self.of_variable()
            }
            Element::Task { .. } => match self.finding.part {
                Part::Single | Part::Interval => without(self.task_part()?),
                _ => without(self.element()?),
            },
            Element::Instance { .. } => self.of_instance(),
            Element::Program { .. } => self.of_program(),
            Element::Step { .. } => self.of_step(),
            Element::Transition { .. } => self.of_transition(),
            Element::Action { .. } => self.of_action(),
            Element::Text | Element::Configuration { .. } | Element::Resource { .. } => None,
        }
    }

    /// Whether a name that is declared is lost where the piece is taken out: not where it is declared twice.
    pub fn is_losing(&self) -> bool {
        let declares = matches!(
            self.finding.element,
            Element::Global { .. } | Element::Local { .. } | Element::External { .. }
        );
        declares
            && self.finding.part != Part::InitialValue
            && self.finding.part != Part::Location
            && self.finding.error != LoadError::Duplicate
            && self.finding.error != LoadError::SameLocation
    }
}
