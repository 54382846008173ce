//! Transitions as SVG (2.6.3).

ghost use Rattle.std.specs.Prelude.{◌≡◌, ◌++◌, OnOk};
ghost use Rattle.sfc_drawing.specs.Transitions as text;

use crate::drawn::{DrawnTransition, Stubs, TransitionMark};
use crate::element::{append_lines, append_owns, append_sheet};
use crate::part::Part::{Markup, Number, Pixel, Said};
use crate::part::{append_parts, word_if};
use crate::shape::{
    Point, Rect, Way, append_down, append_head, append_number, append_rect, append_text,
};
use sfc_base::items::Items;
use sfc_layout::node_box::NodeBox;
use sfc_page::append::append;
use std::alloc::AllocError;

#[tactic(auto, unfolding(crate::specs::Transitions::transition_head))]
fn append_transition_head(
    out: &mut Vec<u8>,
    chart: &[u8],
    number: u64,
    mark: TransitionMark,
) -> Result<(), AllocError>
    ensures { OnOk result (out.new.items ≡ out.old.items ++ text.transition_head chart.now number mark) }
{
    append_parts(
        out,
        &[
            Markup(b"<g id=\""),
            Said(chart),
            Markup(b"-transition-"),
            Number(number),
            Markup(b"\" class=\"trans"),
            Markup(word_if(mark.is_enabled, b" enabled")),
            Markup(word_if(mark.is_cleared, b" fired")),
            Markup(word_if(mark.is_never, b" never")),
        ],
    )
}

#[tactic(auto, unfolding(crate::specs::Transitions::name_said))]
fn append_name_said(out: &mut Vec<u8>, name: &Option<Items<u8>>) -> Result<(), AllocError>
    ensures { OnOk result (out.new.items ≡ out.old.items ++ text.name_said name.now) }
{
    match name {
        Some(name) => append_parts(out, &[Markup(b" "), Said(name.as_slice())]),
        None => Ok(()),
    }
}

#[tactic(auto, unfolding(crate::specs::Transitions::priority_said))]
fn append_priority_said(out: &mut Vec<u8>, priority: Option<u32>) -> Result<(), AllocError>
    ensures { OnOk result (out.new.items ≡ out.old.items ++ text.priority_said priority) }
{
    match priority {
        Some(priority) => append_parts(out, &[Markup(b" with priority "), Pixel(priority)]),
        None => Ok(()),
    }
}

#[tactic(auto, unfolding(crate::specs::Transitions::number_said))]
fn append_number_said(out: &mut Vec<u8>, number: u64) -> Result<(), AllocError>
    ensures { OnOk result (out.new.items ≡ out.old.items ++ text.number_said number) }
{
    append_parts(out, &[Markup(b"transition "), Number(number)])
}

#[tactic(auto, unfolding(crate::specs::Transitions::condition_said))]
fn append_condition_said(
    out: &mut Vec<u8>,
    condition: &[u8],
    is_never: bool,
) -> Result<(), AllocError>
    ensures { OnOk result (out.new.items ≡ out.old.items ++ text.condition_said condition.now is_never) }
{
    append_parts(
        out,
        &[
            Markup(b": "),
            Said(condition),
            Markup(word_if(is_never, b", never cleared")),
            Markup(b"</title>\n"),
        ],
    )
}

#[tactic(auto, unfolding(crate::specs::Transitions::transition_title))]
fn append_transition_title(
    out: &mut Vec<u8>,
    number: u64,
    transition: &DrawnTransition,
) -> Result<(), AllocError>
    ensures { OnOk result (out.new.items ≡ out.old.items ++ text.transition_title number transition.now) }
{
    append_number_said(out, number)?;
    append_name_said(out, &transition.name)?;
    append_priority_said(out, transition.priority)?;
    append_condition_said(
        out,
        transition.condition.as_slice(),
        transition.mark.is_never,
    )
}

fn bar_of(place: NodeBox) -> Rect
    ensures { result ≡ text.bar_of place }
{
    Rect {
        x: u64::from(place.x).saturating_sub(15),
        y: u64::from(place.top) + 4,
        width: 30,
        height: 4,
    }
}

// The bar, with its number at the left.
#[tactic(auto, unfolding(crate::specs::Transitions::bar_text))]
fn append_bar(out: &mut Vec<u8>, number: u64, place: NodeBox) -> Result<(), AllocError>
    ensures { OnOk result (out.new.items ≡ out.old.items ++ text.bar_text number place) }
{
    append_rect(out, b"bar", bar_of(place))?;
    let at = Point {
        x: u64::from(place.x).saturating_sub(19),
        y: u64::from(place.top) + 10,
    };
    append_number(out, b"q end", at, number)
}

#[tactic(auto, unfolding(crate::specs::Transitions::name_text))]
fn append_name_text(
    out: &mut Vec<u8>,
    place: NodeBox,
    name: &Option<Items<u8>>,
) -> Result<(), AllocError>
    ensures { OnOk result (out.new.items ≡ out.old.items ++ text.name_text place name.now) }
{
    let Some(name) = name else {
        return Ok(());
    };
    let at = Point {
        x: u64::from(place.x) + 21,
        y: u64::from(place.top) + 10,
    };
    append_text(out, b"n", at, 34, name.as_slice())
}

// The arrow by which links without a line come to a double line, if some do.
#[tactic(auto, unfolding(crate::specs::Transitions::stubs_text))]
fn append_stubs(out: &mut Vec<u8>, stubs: &Option<Stubs>) -> Result<(), AllocError>
    ensures { OnOk result (out.new.items ≡ out.old.items ++ text.stubs_text stubs.now) }
{
    let Some(stubs) = stubs else {
        return Ok(());
    };
    append_down(out, stubs.x, stubs.top, stubs.bottom)?;
    append_head(out, Way::Down, stubs.x, stubs.bottom)?;
    append_lines(out, b"n", 32, stubs.names.as_slice())
}

/// Puts the transition of this chart with this number, counted from 1, at the end. The one error is that memory was refused.
#[tactic(auto, unfolding(crate::specs::Transitions::transition_text))]
pub fn append_transition(
    out: &mut Vec<u8>,
    chart: &[u8],
    number: u64,
    transition: &DrawnTransition,
) -> Result<(), AllocError>
    ensures { OnOk result (out.new.items ≡ out.old.items ++ text.transition_text chart.now number transition.now) }
{
    append_transition_head(out, chart, number, transition.mark)?;
    append_sheet(out, transition.sheet)?;
    append_transition_title(out, number, transition)?;
    append_owns(out, transition.own.as_slice())?;
    append_bar(out, number, transition.place)?;
    append_name_text(out, transition.place, &transition.name)?;
    append_lines(out, b"c", 90, transition.lines.as_slice())?;
    append_stubs(out, &transition.stubs)?;
    append(out, b"</g>\n")
}
