//! What variables read.

use crate::note::append_named;
use crate::sfc_core::resource::Resource;
use sfc_base::ids::VarId;
use sfc_output::image_line::append_variable;
use std::alloc::AllocError;

// The line of a variable.
fn append_numbered(
    out: &mut Vec<u8>,
    resource: &Resource,
    number: usize,
) -> Result<(), AllocError> {
    if number >= resource.variables() {
        return Ok(());
    }
    let id = VarId(number as u16);
    let read = (resource.value(id), resource.forced(id));
    append_variable(out, resource.plant(), id, read)
}

// The line of the variable with this name, or that there is none.
fn append_one(out: &mut Vec<u8>, resource: &Resource, name: &[u8]) -> Result<(), AllocError> {
    match resource.plant().find_variable(name) {
        Some(id) => append_numbered(out, resource, usize::from(id.0)),
        None => append_named(out, b"no variable ", name),
    }
}

/// Puts at the end what the variable with this name reads, or where no name is given what each variable reads, as behind a replay. The one
/// error is that memory was refused.
pub fn append_image(out: &mut Vec<u8>, resource: &Resource, name: &[u8]) -> Result<(), AllocError> {
    if !name.is_empty() {
        return append_one(out, resource, name);
    }
    for number in 0..resource.variables() {
        append_numbered(out, resource, number)?;
    }
    Ok(())
}
