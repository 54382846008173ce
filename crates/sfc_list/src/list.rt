//! A plant to its text.

ghost use Rattle.std.specs.Prelude.{◌≡◌, IfOk, flat_map};
ghost use Rattle.sfc_base.specs.Writing.{Writes};
ghost use Rattle.sfc_list.specs.Listing as text;
ghost use Rattle.sfc_list.specs.Private.Sinking.{Puts};

use crate::configuration::put_configuration;
use crate::program::put_program;
use crate::sink::Sink;
use sfc_base::write_fault::WriteFault;
use sfc_plant::plant::Plant;
use sfc_plant::program_type::ProgramType;
use sfc_plant::variable::Variable;
use std::alloc::{AllocError, Global};
use std::io::Write;

// Writes the program types.
#[tactic(auto, using(crate::proofs::Sunk::puts_nothing))]
fn put_programs<W: Write>(globals: &[Variable], types: &[ProgramType], out: &mut Sink<'_, W>)
    ensures { Puts W.contents out.old out.new (flat_map (text.program_text globals.now) types.now) }
{
    for program in types {
        put_program(globals, program, out);
    }
}

// Writes the whole plant.
fn put_plant<W: Write>(plant: &Plant, out: &mut Sink<'_, W>)
    ensures { Puts W.contents out.old out.new (text.listing plant.now) }
{
    put_programs(plant.globals(), plant.types(), out);
    put_configuration(plant, out);
}

/// Writes the text of a plant: its program types in order, and then the configuration, top down in blocks, with two
/// spaces for each level (Annex B; our choice of layout). It has all that the plant says. It takes no memory.
///
/// The one error is that the writer failed or took no byte: a front of the text was then written.
#[tactic(auto, unfolding(crate::specs::Private::Sinking::Puts))]
pub fn list_to<W: Write>(plant: &Plant, writer: &mut W) -> Result<(), WriteFault>
    ensures { Writes (W.contents writer.old) (W.contents writer.new) result (text.listing plant.now) }
{
    let mut sink = Sink {
        writer,
        is_broken: false,
    };
    put_plant(plant, &mut sink);
    if sink.is_broken {
        return Err(WriteFault);
    }
    Ok(())
}

/// The text of a plant, as `list_to` writes it. The one error is that memory was refused.
pub fn list(alloc: Global, plant: &Plant) -> Result<Vec<u8>, AllocError>
    ensures { IfOk result (λ bytes. bytes.items ≡ text.listing plant.now) }
{
    let mut bytes = Vec::new(alloc);
    match list_to(plant, &mut bytes) {
        Ok(()) => Ok(bytes),
        Err(WriteFault) => Err(AllocError),
    }
}
