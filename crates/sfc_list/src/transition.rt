//! The text of transitions (2.6.3).

ghost use Rattle.std.specs.Prelude.{flat_map, map};
ghost use Rattle.sfc_list.specs.Charts as text;
ghost use Rattle.sfc_list.specs.Layout.{line};
ghost use Rattle.sfc_plant.specs.Names.{step_name};
ghost use Rattle.sfc_list.specs.Private.Parts.{further_step, steps_text};
ghost use Rattle.sfc_list.specs.Private.Sinking.{Puts};

use crate::expression::put_expression;
use crate::sink::Sink;
use sfc_base::name::Name;
use sfc_base::references::StepId;
use sfc_plant::chart::Transition;
use sfc_plant::names::Names;
use std::io::Write;

// Writes the name of a transition, if it has one.
#[tactic(auto, using(crate::proofs::Sunk::puts_then, crate::proofs::Sunk::puts_nothing))]
fn put_name<W: Write>(name: &Option<Name>, out: &mut Sink<'_, W>)
    ensures { Puts W.contents out.old out.new (text.transition_name name.now) }
{
    if let Some(name) = name {
        out.put(name.spelling());
        out.put(b" ");
    }
}

// Writes a priority, if there is one.
#[tactic(auto, using(crate::proofs::Sunk::puts_then, crate::proofs::Sunk::puts_nothing))]
fn put_priority<W: Write>(priority: Option<u32>, out: &mut Sink<'_, W>)
    ensures { Puts W.contents out.old out.new (text.priority_text priority) }
{
    if let Some(number) = priority {
        out.put(b"(PRIORITY := ");
        out.put_number(u64::from(number));
        out.put(b") ");
    }
}

// Writes a step behind a comma.
#[tactic(auto, using(crate::proofs::Sunk::puts_then))]
fn put_further_step<W: Write>(names: &Names, step: StepId, out: &mut Sink<'_, W>)
    ensures { Puts W.contents out.old out.new (further_step names.now step) }
{
    out.put(b", ");
    out.put(names.step(step));
}

// Writes the steps, each behind a comma.
#[tactic(auto, using(crate::proofs::Sunk::puts_nothing))]
fn put_further_steps<W: Write>(names: &Names, steps: &[StepId], out: &mut Sink<'_, W>)
    ensures { Puts W.contents out.old out.new (flat_map (further_step names.now) steps.now) }
{
    for step in steps {
        put_further_step(names, *step, out);
    }
}

// Writes the steps, parted by commas.
#[tactic(auto, using(crate::proofs::Sunk::puts_then, crate::proofs::Sunk::puts_nothing))]
fn put_steps<W: Write>(names: &Names, steps: &[StepId], out: &mut Sink<'_, W>)
    ensures { Puts W.contents out.old out.new (steps_text names.now steps.now) }
{
    if let Some((step, others)) = steps.split_first() {
        out.put(names.step(*step));
        put_further_steps(names, others, out);
    }
}

// Writes the steps of a side: one plainly, several in parentheses.
#[tactic(auto, using(crate::proofs::Texts::one_step, crate::proofs::Texts::several_steps, crate::proofs::Sunk::puts_then))]
fn put_side<W: Write>(names: &Names, steps: &[StepId], out: &mut Sink<'_, W>)
    ensures { Puts W.contents out.old out.new (text.side_text (map (step_name names.now) steps.now)) }
{
    if steps.len() == 1 {
        put_steps(names, steps, out);
    } else {
        out.put(b"(");
        put_steps(names, steps, out);
        out.put(b")");
    }
}

// Writes what a transition leads from and to.
#[tactic(auto, using(crate::proofs::Sunk::puts_then))]
fn put_head<W: Write>(names: &Names, transition: &Transition, out: &mut Sink<'_, W>)
    ensures { Puts W.contents out.old out.new (text.transition_head names.now transition.now) }
{
    out.put(b"TRANSITION ");
    put_name(&transition.name, out);
    put_priority(transition.priority, out);
    out.put(b"FROM ");
    put_side(names, transition.preceding.as_slice(), out);
    out.put(b" TO ");
    put_side(names, transition.following.as_slice(), out);
}

// Writes the condition of a transition.
#[tactic(auto, using(crate::proofs::Sunk::puts_then))]
fn put_condition<W: Write>(names: &Names, transition: &Transition, out: &mut Sink<'_, W>)
    ensures { Puts W.contents out.old out.new (text.condition_text names.now transition.now) }
{
    out.put(b":= ");
    put_expression(names, b"", transition.condition.expr(), out);
    out.put(b";");
}

// Writes what a transition leads from and to, on a line.
#[tactic(auto, using(crate::proofs::Sunk::puts_then))]
fn put_head_line<W: Write>(names: &Names, transition: &Transition, out: &mut Sink<'_, W>)
    ensures { Puts W.contents out.old out.new (line 1 (text.transition_head names.now transition.now)) }
{
    out.put(b"  ");
    put_head(names, transition, out);
    out.put(b"\n");
}

// Writes the condition of a transition, on a line.
#[tactic(auto, using(crate::proofs::Sunk::puts_then))]
fn put_condition_line<W: Write>(names: &Names, transition: &Transition, out: &mut Sink<'_, W>)
    ensures { Puts W.contents out.old out.new (line 2 (text.condition_text names.now transition.now)) }
{
    out.put(b"    ");
    put_condition(names, transition, out);
    out.put(b"\n");
}

/// Writes a transition.
#[tactic(auto, using(crate::proofs::Sunk::puts_then))]
pub fn put_transition<W: Write>(names: &Names, transition: &Transition, out: &mut Sink<'_, W>)
    ensures { Puts W.contents out.old out.new (text.transition_text names.now transition.now) }
{
    put_head_line(names, transition, out);
    put_condition_line(names, transition, out);
    out.put(b"  END_TRANSITION\n");
}
