//! The text of variables and externals (2.4.3).

ghost use Rattle.std.specs.Prelude.{◌≡◌, flat_map, slice_get};
ghost use Rattle.sfc_list.specs.Layout.{line};
ghost use Rattle.sfc_list.specs.Listing as text;
ghost use Rattle.sfc_list.specs.Private.Parts.{variable_line, external_line};
ghost use Rattle.sfc_list.specs.Private.Sinking.{Puts};

use crate::layout::put_indent;
use crate::sink::Sink;
use crate::value::{put_literal, put_location, type_word};
use sfc_base::location::Location;
use sfc_base::references::{GlobalId, Variable as Named};
use sfc_plant::names::Names;
use sfc_plant::variable::Variable;
use std::io::Write;

// Writes where a variable lies, if it lies somewhere.
#[tactic(auto, using(crate::proofs::Sunk::puts_then, crate::proofs::Sunk::puts_nothing))]
fn put_at<W: Write>(location: &Option<Location>, out: &mut Sink<'_, W>)
    ensures { Puts W.contents out.old out.new (text.at_text location.now) }
{
    if let Some(location) = location {
        out.put(b" AT ");
        put_location(location, out);
    }
}

// Writes a variable with the value that it begins with.
#[tactic(auto, using(crate::proofs::Sunk::puts_then))]
fn put_variable<W: Write>(variable: &Variable, out: &mut Sink<'_, W>)
    ensures { Puts W.contents out.old out.new (text.variable_text variable.now) }
{
    out.put(variable.name.spelling());
    put_at(&variable.location, out);
    out.put(b" : ");
    out.put(type_word(variable.var_type));
    out.put(b" := ");
    put_literal(variable.initial, out);
    out.put(b";");
}

// Writes a variable on a line.
fn put_variable_line<W: Write>(level: usize, variable: &Variable, out: &mut Sink<'_, W>)
    ensures { Puts W.contents out.old out.new (line level (text.variable_text variable.now)) }
{
    put_indent(level, out);
    put_variable(variable, out);
    out.put(b"\n");
}

/// Writes variables, each on a line.
#[tactic(auto, using(crate::proofs::Sunk::puts_nothing))]
pub fn put_variables<W: Write>(level: usize, variables: &[Variable], out: &mut Sink<'_, W>)
    ensures { Puts W.contents out.old out.new (flat_map (variable_line level) variables.now) }
{
    for variable in variables {
        put_variable_line(level, variable, out);
    }
}

// The type of an external, which is that of its global variable.
fn external_type(names: &Names, external: GlobalId) -> &'static [u8]
    ensures { result.now ≡ text.external_type (slice_get names.now.globals external.0) }
{
    match names.globals().get(external.0) {
        Some(global) => type_word(global.var_type),
        None => b"",
    }
}

// Writes an external.
#[tactic(auto, using(crate::proofs::Sunk::puts_then))]
fn put_external<W: Write>(names: &Names, external: GlobalId, out: &mut Sink<'_, W>)
    ensures { Puts W.contents out.old out.new (text.external_text names.now external) }
{
    out.put(names.variable(Named::Global(external)));
    out.put(b" : ");
    out.put(external_type(names, external));
    out.put(b";");
}

// Writes an external on a line.
fn put_external_line<W: Write>(names: &Names, external: GlobalId, out: &mut Sink<'_, W>)
    ensures { Puts W.contents out.old out.new (external_line names.now external) }
{
    out.put(b"    ");
    put_external(names, external, out);
    out.put(b"\n");
}

/// Writes externals, each on a line.
#[tactic(auto, using(crate::proofs::Sunk::puts_nothing))]
pub fn put_externals<W: Write>(names: &Names, externals: &[GlobalId], out: &mut Sink<'_, W>)
    ensures { Puts W.contents out.old out.new (flat_map (external_line names.now) externals.now) }
{
    for external in externals {
        put_external_line(names, *external, out);
    }
}
