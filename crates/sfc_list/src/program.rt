//! The text of program types (2.5.3).

ghost use Rattle.std.specs.Prelude.{flat_map, codes};
ghost use Rattle.sfc_plant.specs.Spaces.{space_in};
ghost use Rattle.sfc_list.specs.Layout.{line, block};
ghost use Rattle.sfc_list.specs.Charts.{step_text, transition_text, action_text};
ghost use Rattle.sfc_list.specs.Listing as text;
ghost use Rattle.sfc_list.specs.Private.Sinking.{Puts};

use crate::action::put_action;
use crate::sink::Sink;
use crate::step::put_step;
use crate::transition::put_transition;
use crate::variables::{put_externals, put_variables};
use sfc_base::references::GlobalId;
use sfc_plant::action::Action;
use sfc_plant::chart::{Chart, Step, Transition};
use sfc_plant::names::Names;
use sfc_plant::program_type::ProgramType;
use sfc_plant::variable::Variable;
use std::io::Write;

// Writes how a program type begins.
fn put_name_line<W: Write>(program: &ProgramType, out: &mut Sink<'_, W>)
    ensures { Puts W.contents out.old out.new (line 0 (text.program_head program.now)) }
{
    out.put(b"PROGRAM ");
    out.put(program.name.spelling());
    out.put(b"\n");
}

// Writes the block of the variables, if there are some.
#[tactic(auto, using(crate::proofs::Blocks::no_block, crate::proofs::Sunk::puts_nothing))]
fn put_locals<W: Write>(variables: &[Variable], out: &mut Sink<'_, W>)
    ensures { Puts W.contents out.old out.new (block 1 (codes "VAR") text.variable_text variables.now) }
{
    if variables.is_empty() {
        return;
    }
    out.put(b"  VAR\n");
    put_variables(2, variables, out);
    out.put(b"  END_VAR\n");
}

// Writes the block of the externals, if there are some.
#[tactic(auto, using(crate::proofs::Blocks::no_block, crate::proofs::Sunk::puts_nothing))]
fn put_external_block<W: Write>(names: &Names, externals: &[GlobalId], out: &mut Sink<'_, W>)
    ensures { Puts W.contents out.old out.new (block 1 (codes "VAR_EXTERNAL") (text.external_text names.now) externals.now) }
{
    if externals.is_empty() {
        return;
    }
    out.put(b"  VAR_EXTERNAL\n");
    put_externals(names, externals, out);
    out.put(b"  END_VAR\n");
}

// Writes the steps.
#[tactic(auto, using(crate::proofs::Sunk::puts_nothing))]
fn put_steps<W: Write>(names: &Names, steps: &[Step], out: &mut Sink<'_, W>)
    ensures { Puts W.contents out.old out.new (flat_map (step_text names.now) steps.now) }
{
    for step in steps {
        put_step(names, step, out);
    }
}

// Writes the transitions.
#[tactic(auto, using(crate::proofs::Sunk::puts_nothing))]
fn put_transitions<W: Write>(names: &Names, transitions: &[Transition], out: &mut Sink<'_, W>)
    ensures { Puts W.contents out.old out.new (flat_map (transition_text names.now) transitions.now) }
{
    for transition in transitions {
        put_transition(names, transition, out);
    }
}

// Writes the actions.
#[tactic(auto, using(crate::proofs::Sunk::puts_nothing))]
fn put_actions<W: Write>(names: &Names, actions: &[Action], out: &mut Sink<'_, W>)
    ensures { Puts W.contents out.old out.new (flat_map (action_text names.now) actions.now) }
{
    for action in actions {
        put_action(names, action, out);
    }
}

// Writes steps, then transitions, then actions.
fn put_chart<W: Write>(names: &Names, chart: &Chart, out: &mut Sink<'_, W>)
    ensures { Puts W.contents out.old out.new (text.chart_text names.now chart.now) }
{
    put_steps(names, chart.steps.as_slice(), out);
    put_transitions(names, chart.transitions.as_slice(), out);
    put_actions(names, chart.actions.as_slice(), out);
}

/// Writes a program type.
pub fn put_program<W: Write>(globals: &[Variable], program: &ProgramType, out: &mut Sink<'_, W>)
    ensures { Puts W.contents out.old out.new (text.program_text globals.now program.now) }
{
    let names = Names::new(globals, program);
    put_name_line(program, out);
    put_locals(program.locals.as_slice(), out);
    put_external_block(&names, program.externals.as_slice(), out);
    put_chart(&names, &program.chart, out);
    out.put(b"END_PROGRAM\n");
}
