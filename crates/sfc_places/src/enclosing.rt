//! Which element of a chart, and which part of it, a place of the tree is in.

use crate::chart_text::ChartText;
use crate::finding::{Element, Part};
use crate::tree_text::TreeText;
use sfc_base::name::Name;
use sfc_text::statement::{Branch, Statement};
use sfc_text::tree::{
    self, Action, Association, AssociationTime, Configuration, Declaration, Instance, Program,
    Qualifier, Source, Step, Task, Transition, VariableBlock,
};
use sfc_tokens::placed::Placed;
use sfc_tokens::span::Span;

/// An element with one of its parts.
pub type Within = (Element, Part);

/// Whether the bytes stand in others.
pub fn holds(outer: Span, inner: Span) -> bool {
    outer.from <= inner.from && inner.to <= outer.to
}

/// The place among the tokens of the first one that begins at a byte or behind it; how many tokens there are where none does.
pub fn token_from(chart: &ChartText<'_>, place: u32) -> usize {
    let mut low = 0;
    let mut high = chart.tokens.len();
    for _ in 0..64 {
        if low >= high {
            break;
        }
        let middle = low + (high - low) / 2;
        match chart.tokens.get(middle) {
            Some(token) if token.span.from < place => low = middle.saturating_add(1),
            _ => high = middle,
        }
    }
    low
}

/// The place of a name among the tokens.
pub fn token_of(chart: &ChartText<'_>, name: &Placed<Name>) -> usize {
    token_from(chart, name.span().from)
}

/// The variable of a declaration at whose name the place is, else its first one, and what of it the place is.
pub fn variable_at(chart: &ChartText<'_>, declaration: &Declaration, span: Span) -> (usize, Part) {
    let names = declaration.names.as_slice();
    for name in names {
        if name.span() == span {
            return (token_of(chart, name), Part::Name);
        }
    }
    let name = match names.first() {
        Some(name) => token_of(chart, name),
        None => 0,
    };
    match &declaration.location {
        Some(location) if location.span() == span => (name, Part::Location),
        _ => (name, Part::InitialValue),
    }
}

// What of a task the place is.
fn task_part(task: &Task, span: Span) -> Part {
    match &task.single {
        Some(single) if single.span() == span => Part::Single,
        _ if task.interval.span() == span => Part::Interval,
        _ => Part::Name,
    }
}

// What of an instance the place is.
fn instance_part(instance: &Instance, span: Span) -> Part {
    match &instance.task {
        Some(task) if task.span() == span => Part::TaskName,
        _ if instance.program.span() == span => Part::ProgramType,
        _ => Part::Name,
    }
}

// What of an association, which has this number, the place is.
fn association_part(association: &Association, number: usize, span: Span) -> Part {
    if association.action.span() == span {
        return Part::Association(number);
    }
    if let Qualifier::Timed(_, AssociationTime::Variable(name)) = &association.qualifier {
        if name.span() == span {
            return Part::AssociationTime(number);
        }
    }
    Part::Indicator(number)
}

// What of a step the place is.
fn step_part(step: &Step, span: Span) -> Part {
    let mut number = 0usize;
    for association in step.associations.as_slice() {
        number = number.saturating_add(1);
        if holds(association.span(), span) {
            return association_part(association.value(), number, span);
        }
    }
    Part::Name
}

// Whether one of the names is at the place.
fn is_among(names: &[Placed<Name>], span: Span) -> bool {
    names.iter().any(|name| name.span() == span)
}

// What of a transition the place is.
fn transition_part(transition: &Transition, span: Span) -> Part {
    if holds(transition.condition_span, span) {
        return Part::Condition;
    }
    if is_among(transition.preceding.as_slice(), span) {
        return Part::From;
    }
    if is_among(transition.following.as_slice(), span) {
        return Part::To;
    }
    Part::Name
}

// How many statements of a branch begin at the place or before it.
#[cycle(begun)]
fn begun_in(branch: &Branch, place: u32) -> usize {
    match branch {
        Branch::When(_, body) => begun(body.as_slice(), place),
        Branch::Otherwise(body) => begun(body.as_slice(), place),
    }
}

// How many of the statements, and of those in them, begin at the place or before it.
#[cycle(begun)]
fn begun(statements: &[Statement], place: u32) -> usize {
    let mut count = 0usize;
    for statement in statements {
        match statement {
            Statement::Assign(_, _, span) if span.from <= place => count = count.saturating_add(1),
            Statement::If(branches, span) if span.from <= place => {
                count = count.saturating_add(1);
                for branch in branches {
                    count = count.saturating_add(begun_in(branch, place));
                }
            }
            _ => {}
        }
    }
    count
}

// What of an action the place is.
fn action_part(action: &Action, span: Span) -> Part {
    if action.name.span() == span {
        return Part::Name;
    }
    Part::Statement(begun(action.body.as_slice(), span.from))
}

// The element of a configuration in which the place is.
fn in_configuration(
    chart: &ChartText<'_>,
    configuration: &Configuration,
    span: Span,
) -> Option<Within> {
    for declaration in configuration.globals.as_slice() {
        if holds(declaration.span(), span) {
            let (name, part) = variable_at(chart, declaration.value(), span);
            return Some((Element::Global { name }, part));
        }
    }
    for task in configuration.tasks.as_slice() {
        if holds(task.span(), span) {
            let name = token_of(chart, &task.value().name);
            return Some((Element::Task { name }, task_part(task.value(), span)));
        }
    }
    for instance in configuration.instances.as_slice() {
        if holds(instance.span(), span) {
            let name = token_of(chart, &instance.value().name);
            let part = instance_part(instance.value(), span);
            return Some((Element::Instance { name }, part));
        }
    }
    None
}

// The variable of a block in which the place is.
fn in_block(
    chart: &ChartText<'_>,
    block: &VariableBlock,
    program: usize,
    span: Span,
) -> Option<Within> {
    match block {
        VariableBlock::Local(declarations) => {
            for declaration in declarations.as_slice() {
                if holds(declaration.span(), span) {
                    let (name, part) = variable_at(chart, declaration.value(), span);
                    return Some((Element::Local { program, name }, part));
                }
            }
        }
        VariableBlock::External(externals) => {
            for external in externals.as_slice() {
                if is_among(external.names.as_slice(), span) {
                    let name = token_from(chart, span.from);
                    return Some((Element::External { program, name }, Part::Name));
                }
            }
        }
    }
    None
}

// The element of a chart in which the place is; transitions are counted from 1.
fn in_elements(
    chart: &ChartText<'_>,
    elements: &[tree::Element],
    program: usize,
    span: Span,
) -> Option<Within> {
    let mut number = 0usize;
    for element in elements {
        match element {
            tree::Element::Step(step, whole) if holds(*whole, span) => {
                let name = token_of(chart, &step.name);
                return Some((Element::Step { program, name }, step_part(step, span)));
            }
            tree::Element::Action(action, whole) if holds(*whole, span) => {
                let name = token_of(chart, &action.name);
                return Some((Element::Action { program, name }, action_part(action, span)));
            }
            tree::Element::Transition(transition, whole) => {
                number = number.saturating_add(1);
                if holds(*whole, span) {
                    let element = transition_at(chart, transition, program, number);
                    return Some((element, transition_part(transition, span)));
                }
            }
            _ => {}
        }
    }
    None
}

// A transition as an element.
fn transition_at(
    chart: &ChartText<'_>,
    transition: &Transition,
    program: usize,
    number: usize,
) -> Element {
    Element::Transition {
        program,
        number,
        name: match &transition.name {
            Some(name) => Some(token_of(chart, name)),
            None => None,
        },
    }
}

// What of a program type the place is in.
fn in_program(chart: &ChartText<'_>, program: &Program, span: Span) -> Within {
    let name = token_of(chart, &program.name);
    if program.name.span() == span {
        return (Element::Program { name }, Part::Name);
    }
    for block in program.variables.as_slice() {
        if let Some(found) = in_block(chart, block, name, span) {
            return found;
        }
    }
    match in_elements(chart, program.elements.as_slice(), name, span) {
        Some(found) => found,
        None => (Element::Program { name }, Part::Whole),
    }
}

/// The program type in which the place is.
pub fn program_at(source: &Source, span: Span) -> Option<&Program> {
    for program in source.programs.as_slice() {
        if holds(program.span, span) {
            return Some(program);
        }
    }
    None
}

/// The program type whose name has this place among the tokens.
pub fn program_with<'a>(text: &TreeText<'a>, name: usize) -> Option<&'a Program> {
    let source: &'a Source = text.source;
    for program in source.programs.as_slice() {
        if token_of(text.chart, &program.name) == name {
            return Some(program);
        }
    }
    None
}

/// What of a text the place is in.
pub fn within(chart: &ChartText<'_>, source: &Source, span: Span) -> Within {
    if let Some(program) = program_at(source, span) {
        return in_program(chart, program, span);
    }
    match in_configuration(chart, &source.configuration, span) {
        Some(found) => found,
        None => (Element::Text, Part::Whole),
    }
}

/// The resource, as an element.
pub fn resource_of(chart: &ChartText<'_>, source: &Source) -> Element {
    Element::Resource {
        name: token_of(chart, &source.configuration.resource),
    }
}
