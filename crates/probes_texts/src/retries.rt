//! A call that memory was refused to, made again once there is some.

use crate::sfc_list::list::list;
use crate::sfc_load::load::load;
use samples::charts::{mixture, mixture_listed};
use sfc_events::load_error::LoadError;
use sfc_plant::plant::Plant;
use sfc_text::read::read;
use sfc_text::tree::Source;
use std::alloc::{AllocError, Global};
use std::process::Abort;
use std::test::Fail;

// Loads the source, once more where memory was refused.
fn loaded(alloc: Global, source: &Source) -> Result<Plant, LoadError> {
    match load(alloc, source) {
        Err(LoadError::Memory) => load(alloc, source),
        first => first,
    }
}

// Lists the plant, once more where memory was refused.
fn listed(alloc: Global, plant: &Plant) -> Result<Vec<u8>, AllocError> {
    match list(alloc, plant) {
        Err(AllocError) => list(alloc, plant),
        first => first,
    }
}

fn check_listed(rt: &impl Abort, alloc: Global, plant: &Plant) -> Result<(), Fail> {
    let bytes = listed(alloc, plant)?;
    assert_eq!(rt; bytes.as_slice(), mixture_listed());
    Ok(())
}

fn check_source(rt: &impl Abort, alloc: Global, source: &Source) -> Result<(), Fail> {
    let plant = loaded(alloc, source)?;
    check_listed(rt, alloc, &plant)
}

// `tests/refused.sh` refuses each allocation in turn: one in the loading or in the listing changes nothing of the answer.
#[test]
fn the_same_source_and_plant_are_right_once_there_is_memory(rt: HostRuntime) -> Result<(), Fail> {
    let source = read(rt.alloc(), mixture())?;
    check_source(&rt, rt.alloc(), &source)
}
