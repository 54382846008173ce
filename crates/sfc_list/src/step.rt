//! The text of steps and their action blocks (2.6.2, 2.6.4).

ghost use Rattle.std.specs.Prelude.{◌≡◌, flat_map};
ghost use Rattle.sfc_list.specs.Layout.{line};
ghost use Rattle.sfc_list.specs.Charts as text;
ghost use Rattle.sfc_list.specs.Private.Parts.{indicator_text, association_line};
ghost use Rattle.sfc_list.specs.Private.Sinking.{Puts};

use crate::sink::Sink;
use sfc_base::references::Variable;
use sfc_plant::association::{Association, Qualifier, Time};
use sfc_plant::chart::Step;
use sfc_plant::names::Names;
use std::io::Write;

// Writes the time of an association.
fn put_association_time<W: Write>(names: &Names, time: Time, out: &mut Sink<'_, W>)
    ensures { Puts W.contents out.old out.new (text.association_time names.now time) }
{
    match time {
        Time::Literal(micros) => out.put_micros(micros),
        Time::Variable(variable) => out.put(names.variable(variable)),
    }
}

// Writes a qualifier with its time, if it has one.
#[tactic(auto, using(crate::proofs::Sunk::puts_then))]
fn put_qualifier<W: Write>(names: &Names, qualifier: Qualifier, out: &mut Sink<'_, W>)
    ensures { Puts W.contents out.old out.new (text.qualifier_text names.now qualifier) }
{
    match qualifier {
        Qualifier::NonStored
        | Qualifier::Reset
        | Qualifier::Set
        | Qualifier::Pulse
        | Qualifier::RisingPulse
        | Qualifier::FallingPulse => out.put(qualifier.letters()),
        Qualifier::Timed(_, time) => {
            out.put(qualifier.letters());
            out.put(b", ");
            put_association_time(names, time, out);
        }
    }
}

// Writes an indicator behind a comma.
#[tactic(auto, using(crate::proofs::Sunk::puts_then))]
fn put_indicator<W: Write>(names: &Names, indicator: Variable, out: &mut Sink<'_, W>)
    ensures { Puts W.contents out.old out.new (indicator_text names.now indicator) }
{
    out.put(b", ");
    out.put(names.variable(indicator));
}

// Writes the indicators, each behind a comma.
#[tactic(auto, using(crate::proofs::Sunk::puts_nothing, crate::proofs::Texts::indicators_each))]
fn put_indicators<W: Write>(names: &Names, indicators: &[Variable], out: &mut Sink<'_, W>)
    ensures { Puts W.contents out.old out.new (text.indicators_text names.now indicators.now) }
{
    for indicator in indicators {
        put_indicator(names, *indicator, out);
    }
}

// Writes an association.
#[tactic(auto, using(crate::proofs::Sunk::puts_then))]
fn put_association<W: Write>(names: &Names, association: &Association, out: &mut Sink<'_, W>)
    ensures { Puts W.contents out.old out.new (text.association_text names.now association.now) }
{
    out.put(names.target(association.target));
    out.put(b"(");
    put_qualifier(names, association.qualifier, out);
    put_indicators(names, association.indicators.as_slice(), out);
    out.put(b");");
}

// Writes an association on a line.
#[tactic(auto, using(crate::proofs::Sunk::puts_then))]
fn put_association_line<W: Write>(names: &Names, association: &Association, out: &mut Sink<'_, W>)
    ensures { Puts W.contents out.old out.new (association_line names.now association.now) }
{
    out.put(b"    ");
    put_association(names, association, out);
    out.put(b"\n");
}

// Writes the associations of a step.
#[tactic(auto, using(crate::proofs::Sunk::puts_nothing))]
fn put_associations<W: Write>(names: &Names, associations: &[Association], out: &mut Sink<'_, W>)
    ensures { Puts W.contents out.old out.new (flat_map (association_line names.now) associations.now) }
{
    for association in associations {
        put_association_line(names, association, out);
    }
}

// The word that a step begins with.
fn step_word(is_initial: bool) -> &'static [u8]
    ensures { result.now ≡ text.step_word is_initial }
{
    if is_initial {
        b"INITIAL_STEP "
    } else {
        b"STEP "
    }
}

// Writes how a step begins.
#[tactic(auto, using(crate::proofs::Sunk::puts_then))]
fn put_step_head<W: Write>(step: &Step, out: &mut Sink<'_, W>)
    ensures { Puts W.contents out.old out.new (text.step_head step.now) }
{
    out.put(step_word(step.is_initial));
    out.put(step.name.spelling());
    out.put(b":");
}

// Writes how a step begins, on a line.
#[tactic(auto, using(crate::proofs::Sunk::puts_then))]
fn put_step_line<W: Write>(step: &Step, out: &mut Sink<'_, W>)
    ensures { Puts W.contents out.old out.new (line 1 (text.step_head step.now)) }
{
    out.put(b"  ");
    put_step_head(step, out);
    out.put(b"\n");
}

/// Writes a step.
#[tactic(auto, using(crate::proofs::Sunk::puts_then))]
pub fn put_step<W: Write>(names: &Names, step: &Step, out: &mut Sink<'_, W>)
    ensures { Puts W.contents out.old out.new (text.step_text names.now step.now) }
{
    put_step_line(step, out);
    put_associations(names, step.associations.as_slice(), out);
    out.put(b"  END_STEP\n");
}
