//! What loading has found at fault, by the tree: at which token, in which element, and what is told of it beside. No check is
//! made again: the fault has its place and what is known where it arose.

use crate::chart_text::ChartText;
use crate::enclosing::{program_at, resource_of, token_from, token_of, within};
use crate::finding::{Detail, Element, Finding, Part, Sort, Types};
use crate::marks::{Mark, behind, is_at, spelling_at};
use crate::sfc_check::detail::{Detail as Known, Types as KnownTypes};
use crate::sfc_check::placed_error::PlacedLoadError;
use crate::spaces::{
    Lying, first_of, globals_of, image_of, instances_of, own_of, programs_of, tasks_of,
};
use crate::tree_text::TreeText;
use sfc_base::case::is_same_word;
use sfc_base::delimiter::Delimiter;
use sfc_base::limits::{ASSOCIATIONS, INSTANCES, STEPS, TASKS, TRANSITIONS, VARIABLES};
use sfc_base::name::Name;
use sfc_events::load_error::{Limit, LoadError};
use sfc_text::tree::{self, Program, Source, Transition};
use sfc_tokens::placed::Placed;
use sfc_tokens::span::Span;
use sfc_tokens::token::Token;
use sfc_variables::located::same_location;
use std::alloc::{AllocError, Global};

// A fault of a text that has a tree.
#[derive(Clone, Copy)]
struct Faulty<'a> {
    chart: &'a ChartText<'a>,
    source: &'a Source,
    span: Span,
}

/// The token at a place: the last one of it, which stands behind a sign.
pub fn token_at(chart: &ChartText<'_>, span: Span) -> usize {
    let first = token_from(chart, span.from);
    let last = token_from(chart, span.to).saturating_sub(1);
    if is_at(chart.tokens, first, Mark::Sign(Delimiter::Minus)) && last > first {
        last
    } else {
        first
    }
}

// What is told of a name that isn't found in an expression, or behind `:=`, in a program type whose name has this place.
fn missing_variable(tokens: &[Token], at: usize, program: usize) -> Detail {
    if is_at(tokens, at.saturating_sub(1), Mark::Sign(Delimiter::Dot)) {
        return Detail::MissingPart;
    }
    if !is_at(tokens, behind(at, 1), Mark::Sign(Delimiter::Dot)) {
        return Detail::Missing(Sort::Variables { program });
    }
    if is_same_word(spelling_at(tokens, behind(at, 2)), b"Q") {
        return Detail::OutsideAction;
    }
    Detail::Missing(Sort::Steps { program })
}

/// What is told of a fault at a token of a condition that stands alone, in a program type whose name has this place in the chart.
pub fn condition_detail(
    condition: &ChartText<'_>,
    at: usize,
    program: usize,
    fault: &PlacedLoadError,
) -> Detail {
    match fault.error() {
        LoadError::Unknown => missing_variable(condition.tokens, at, program),
        _ => known(fault.detail()),
    }
}

// Types in words.
fn types_of(types: KnownTypes) -> Types {
    match types {
        KnownTypes::One(var_type) => Types::One(var_type),
        KnownTypes::Integers => Types::Integers,
        KnownTypes::Numbers => Types::Numbers,
        KnownTypes::Untyped => Types::Untyped,
    }
}

// What the fault itself knows.
fn known(detail: Known) -> Detail {
    match detail {
        Known::Nothing => Detail::Nothing,
        Known::Types { wanted, found } => Detail::Types {
            wanted: types_of(wanted),
            found: types_of(found),
        },
        Known::Sizes { var_type, found } => Detail::Sizes { var_type, found },
        Known::Range { wanted, found } => Detail::Range { wanted, found },
        Known::Count { found, most } => Detail::Count { found, most },
    }
}

// The elements of a program type of a kind, counted.
fn steps_in(program: &Program) -> usize {
    let mut count = 0usize;
    for element in program.elements.as_slice() {
        if let tree::Element::Step(_, _) = element {
            count = count.saturating_add(1);
        }
    }
    count
}

fn transitions_in(program: &Program) -> usize {
    let mut count = 0usize;
    for element in program.elements.as_slice() {
        if let tree::Element::Transition(_, _) = element {
            count = count.saturating_add(1);
        }
    }
    count
}

fn associations_in(program: &Program) -> usize {
    let mut count = 0usize;
    for element in program.elements.as_slice() {
        if let tree::Element::Step(step, _) = element {
            count = count.saturating_add(step.associations.len());
        }
    }
    count
}

impl<'a> Faulty<'a> {
    // The token at the place.
    fn token(&self) -> usize {
        token_at(self.chart, self.span)
    }

    // The word at the place.
    fn word(&self) -> &'a [u8] {
        spelling_at(self.chart.tokens, self.token())
    }

    // The name of the program type in which the place is.
    fn program(&self) -> usize {
        match program_at(self.source, self.span) {
            Some(program) => token_of(self.chart, &program.name),
            None => 0,
        }
    }

    // How many there are of what there may be only so much of, and how many there may be.
    fn counts(&self, alloc: Global, limit: Limit) -> Result<(usize, usize), AllocError> {
        let configuration = &self.source.configuration;
        let found = match limit {
            Limit::Tasks => (configuration.tasks.len(), TASKS),
            Limit::Instances => (configuration.instances.len(), INSTANCES),
            Limit::Variables => {
                let image = image_of(alloc, self.chart, self.source)?;
                (image.len(), VARIABLES)
            }
            Limit::Steps | Limit::Transitions | Limit::Associations => self.counts_in(limit),
        };
        Ok(found)
    }

    // The same of a program type.
    fn counts_in(&self, limit: Limit) -> (usize, usize) {
        let Some(program) = program_at(self.source, self.span) else {
            return (0, 0);
        };
        match limit {
            Limit::Steps => (steps_in(program), STEPS),
            Limit::Transitions => (transitions_in(program), TRANSITIONS),
            _ => (associations_in(program), ASSOCIATIONS),
        }
    }

    // What is told of more than there may be.
    fn limit(&self, alloc: Global, limit: Limit) -> Result<(Element, Part, Detail), AllocError> {
        let (found, most) = self.counts(alloc, limit)?;
        let detail = Detail::Count { found, most };
        let (element, part) = match limit {
            Limit::Tasks | Limit::Instances => {
                (resource_of(self.chart, self.source), Part::Whole)
            }
            Limit::Variables => within(self.chart, self.source, self.span),
            Limit::Steps | Limit::Transitions | Limit::Associations => {
                let name = self.program();
                (Element::Program { name }, Part::Whole)
            }
        };
        Ok((element, part, detail))
    }

    // What is told of a name that stands for nothing.
    fn unknown(&self, part: Part) -> Detail {
        let program = self.program();
        match part {
            Part::Name | Part::Single => Detail::Missing(Sort::Globals),
            Part::AssociationTime(_) | Part::Indicator(_) => {
                Detail::Missing(Sort::Variables { program })
            }
            _ => missing_variable(self.chart.tokens, self.token(), program),
        }
    }

    // The transition in which the place is.
    fn transition(&self) -> Option<&'a Transition> {
        let program = program_at(self.source, self.span)?;
        for element in program.elements.as_slice() {
            if let tree::Element::Transition(transition, whole) = element {
                if whole.from <= self.span.from && self.span.to <= whole.to {
                    return Some(transition);
                }
            }
        }
        None
    }

    // What is told of a step that stands twice in a list.
    fn twice_in(&self, names: &[Placed<Name>]) -> Detail {
        for name in names {
            if is_same_word(name.spelling(), self.word()) {
                return Detail::FirstInList(token_of(self.chart, name));
            }
        }
        Detail::Nothing
    }

    // What is told of a name that stands twice in the name space of this element.
    fn twice(&self, alloc: Global, element: Element) -> Result<Detail, AllocError> {
        let (chart, source) = (self.chart, self.source);
        let space = match element {
            Element::Global { .. } => globals_of(alloc, chart, source)?,
            Element::Task { .. } => tasks_of(alloc, chart, source)?,
            Element::Instance { .. } => instances_of(alloc, chart, source)?,
            Element::Program { .. } => programs_of(alloc, chart, source)?,
            _ => match program_at(source, self.span) {
                Some(program) => own_of(alloc, chart, program)?,
                None => Vec::new(alloc),
            },
        };
        match first_of(chart, &space, self.word()) {
            Some(first) => Ok(Detail::First(first)),
            None => Ok(Detail::Nothing),
        }
    }

    // What is told of a duplicate.
    fn duplicate(&self, alloc: Global, element: Element, part: Part) -> Result<Detail, AllocError> {
        match (part, self.transition()) {
            (Part::From, Some(transition)) => Ok(self.twice_in(transition.preceding.as_slice())),
            (Part::To, Some(transition)) => Ok(self.twice_in(transition.following.as_slice())),
            _ => self.twice(alloc, element),
        }
    }

    // What is told of a location at which another variable lies.
    fn same_location(&self, alloc: Global) -> Result<Detail, AllocError> {
        let image = image_of(alloc, self.chart, self.source)?;
        for place in 0..image.len() {
            if let (Some(before), Some(lying)) = (image.get(..place), image.get(place)) {
                if let Some(first) = first_at(before, *lying) {
                    return Ok(Detail::First(first.declared));
                }
            }
        }
        Ok(Detail::Nothing)
    }

    // What is told of the fault beside its place.
    fn detail(
        &self,
        alloc: Global,
        fault: &PlacedLoadError,
        element: Element,
        part: Part,
    ) -> Result<Detail, AllocError> {
        let program = self.program();
        match (fault.error(), part) {
            (LoadError::Unknown, _) => Ok(self.unknown(part)),
            (LoadError::UnknownStep, _) => Ok(Detail::Missing(Sort::Steps { program })),
            (LoadError::UnknownAction, _) => Ok(Detail::Missing(Sort::Actions { program })),
            (LoadError::NoTask, Part::TaskName) => Ok(Detail::Missing(Sort::Tasks)),
            (LoadError::NoTask, _) => Ok(Detail::NoWith),
            (LoadError::UnknownType, _) => Ok(Detail::Missing(Sort::ProgramTypes)),
            (LoadError::Duplicate, _) => self.duplicate(alloc, element, part),
            (LoadError::SameLocation, _) => self.same_location(alloc),
            (LoadError::LiteralRange, Part::Interval) => Ok(Detail::NegativeInterval),
            _ => Ok(known(fault.detail())),
        }
    }
}

// The part that is told: an instance without a task, and a program type without an initial step, are at fault as a whole, an
// external of another type in its type.
fn told_part(error: LoadError, element: Element, part: Part) -> Part {
    match (error, element, part) {
        (LoadError::NoTask, _, Part::Name) | (LoadError::NoInitial, _, _) => Part::Whole,
        (LoadError::WrongType, Element::External { .. }, _) => Part::Type,
        _ => part,
    }
}

// The first of these that lies where this one does.
fn first_at<'a>(before: &[Lying<'a>], lying: Lying<'a>) -> Option<Lying<'a>> {
    let location = lying.location?;
    for other in before {
        if let Some(there) = other.location {
            if same_location(there, location) {
                return Some(*other);
            }
        }
    }
    None
}

/// What loading has found at fault in a text; None where the fault has no place. The one error is that memory was
/// refused.
pub fn finding_of(
    alloc: Global,
    text: &TreeText<'_>,
    fault: &PlacedLoadError,
) -> Result<Option<Finding>, AllocError> {
    let TreeText { chart, source } = *text;
    let faulty = Faulty {
        chart,
        source,
        span: fault.span(),
    };
    let error = fault.error();
    let (element, part, detail) = match error {
        LoadError::Memory => return Ok(None),
        LoadError::Limit(limit) => faulty.limit(alloc, limit)?,
        _ => {
            let (element, part) = within(chart, source, faulty.span);
            let detail = faulty.detail(alloc, fault, element, part)?;
            (element, told_part(error, element, part), detail)
        }
    };
    Ok(Some(Finding {
        error,
        token: faulty.token(),
        element,
        part,
        detail,
    }))
}
