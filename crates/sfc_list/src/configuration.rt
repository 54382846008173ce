//! The text of the configuration (2.7.1, 2.7.2).

ghost use Rattle.std.specs.Prelude.{◌≡◌, flat_map, codes};
ghost use Rattle.sfc_list.specs.Layout.{line, block};
ghost use Rattle.sfc_list.specs.Listing as text;
ghost use Rattle.sfc_list.specs.Private.Parts.{task_line, instance_line};
ghost use Rattle.sfc_list.specs.Private.Sinking.{Puts};

use crate::sink::Sink;
use crate::variables::put_variables;
use sfc_base::references::GlobalId;
use sfc_plant::instance::Instance;
use sfc_plant::names::{task_name, type_name, variable_at};
use sfc_plant::plant::Plant;
use sfc_plant::program_type::ProgramType;
use sfc_plant::task::Task;
use sfc_plant::variable::Variable;
use std::io::Write;

// Writes the SINGLE input of a task, if it has one.
#[tactic(auto, using(crate::proofs::Sunk::puts_then, crate::proofs::Sunk::puts_nothing))]
fn put_single<W: Write>(globals: &[Variable], single: Option<GlobalId>, out: &mut Sink<'_, W>)
    ensures { Puts W.contents out.old out.new (text.single_text globals.now single) }
{
    if let Some(id) = single {
        out.put(b"SINGLE := ");
        out.put(variable_at(globals, id.0));
        out.put(b", ");
    }
}

// Writes the interval of a task, if it has one.
#[tactic(auto, using(crate::proofs::Blocks::no_interval, crate::proofs::Sunk::puts_nothing))]
fn put_interval<W: Write>(interval: i64, out: &mut Sink<'_, W>)
    ensures { Puts W.contents out.old out.new (text.interval_text interval) }
{
    if interval == 0 {
        return;
    }
    out.put(b"INTERVAL := ");
    out.put_micros(interval);
    out.put(b", ");
}

// Writes a task.
#[tactic(auto, using(crate::proofs::Sunk::puts_then))]
fn put_task<W: Write>(globals: &[Variable], task: &Task, out: &mut Sink<'_, W>)
    ensures { Puts W.contents out.old out.new (text.task_text globals.now task.now) }
{
    out.put(b"TASK ");
    out.put(task.name.spelling());
    out.put(b"(");
    put_single(globals, task.single, out);
    put_interval(task.interval, out);
    out.put(b"PRIORITY := ");
    out.put_number(u64::from(task.priority));
    out.put(b");");
}

// Writes a task on a line.
fn put_task_line<W: Write>(globals: &[Variable], task: &Task, out: &mut Sink<'_, W>)
    ensures { Puts W.contents out.old out.new (task_line globals.now task.now) }
{
    out.put(b"    ");
    put_task(globals, task, out);
    out.put(b"\n");
}

// Writes the tasks.
#[tactic(auto, using(crate::proofs::Sunk::puts_nothing))]
fn put_tasks<W: Write>(globals: &[Variable], tasks: &[Task], out: &mut Sink<'_, W>)
    ensures { Puts W.contents out.old out.new (flat_map (task_line globals.now) tasks.now) }
{
    for task in tasks {
        put_task_line(globals, task, out);
    }
}

// Writes a program instance.
#[tactic(auto, using(crate::proofs::Sunk::puts_then))]
fn put_instance<W: Write>(
    tasks: &[Task],
    types: &[ProgramType],
    instance: &Instance,
    out: &mut Sink<'_, W>,
)
    ensures { Puts W.contents out.old out.new (text.instance_text tasks.now types.now instance.now) }
{
    out.put(b"PROGRAM ");
    out.put(instance.name.spelling());
    out.put(b" WITH ");
    out.put(task_name(tasks, instance.task.0 as usize));
    out.put(b" : ");
    out.put(type_name(types, instance.program.0));
    out.put(b";");
}

// Writes a program instance on a line.
fn put_instance_line<W: Write>(
    tasks: &[Task],
    types: &[ProgramType],
    instance: &Instance,
    out: &mut Sink<'_, W>,
)
    ensures { Puts W.contents out.old out.new (instance_line tasks.now types.now instance.now) }
{
    out.put(b"    ");
    put_instance(tasks, types, instance, out);
    out.put(b"\n");
}

// Writes the program instances.
#[tactic(auto, using(crate::proofs::Sunk::puts_nothing))]
fn put_instances<W: Write>(
    tasks: &[Task],
    types: &[ProgramType],
    instances: &[Instance],
    out: &mut Sink<'_, W>,
)
    ensures { Puts W.contents out.old out.new (flat_map (instance_line tasks.now types.now) instances.now) }
{
    for instance in instances {
        put_instance_line(tasks, types, instance, out);
    }
}

// Writes the block of the globals, if there are some.
#[tactic(auto, using(crate::proofs::Blocks::no_block, crate::proofs::Sunk::puts_nothing))]
fn put_globals<W: Write>(globals: &[Variable], out: &mut Sink<'_, W>)
    ensures { Puts W.contents out.old out.new (block 2 (codes "VAR_GLOBAL") text.variable_text globals.now) }
{
    if globals.is_empty() {
        return;
    }
    out.put(b"    VAR_GLOBAL\n");
    put_variables(3, globals, out);
    out.put(b"    END_VAR\n");
}

// Writes what the resource begins with.
#[tactic(auto, using(crate::proofs::Sunk::puts_then))]
fn put_resource<W: Write>(plant: &Plant, out: &mut Sink<'_, W>)
    ensures { Puts W.contents out.old out.new (text.resource_head plant.now) }
{
    out.put(b"RESOURCE ");
    out.put(plant.resource().spelling());
    out.put(b" ON ");
    out.put(plant.processor().spelling());
}

// Writes the line that the configuration begins with.
fn put_name_line<W: Write>(plant: &Plant, out: &mut Sink<'_, W>)
    ensures { Puts W.contents out.old out.new (line 0 (text.configuration_head plant.now)) }
{
    out.put(b"CONFIGURATION ");
    out.put(plant.configuration().spelling());
    out.put(b"\n");
}

// Writes the line that the resource begins with.
fn put_resource_line<W: Write>(plant: &Plant, out: &mut Sink<'_, W>)
    ensures { Puts W.contents out.old out.new (line 1 (text.resource_head plant.now)) }
{
    out.put(b"  ");
    put_resource(plant, out);
    out.put(b"\n");
}

/// Writes the configuration.
pub fn put_configuration<W: Write>(plant: &Plant, out: &mut Sink<'_, W>)
    ensures { Puts W.contents out.old out.new (text.configuration_text plant.now) }
{
    put_name_line(plant, out);
    put_resource_line(plant, out);
    put_globals(plant.globals(), out);
    put_tasks(plant.globals(), plant.tasks(), out);
    put_instances(plant.tasks(), plant.types(), plant.instances(), out);
    out.put(b"  END_RESOURCE\n");
    out.put(b"END_CONFIGURATION\n");
}
