//! What a refusal or a fault means.

use crate::note::append_named;
use sfc_explain::finding::find;
use sfc_explain::page::put_page;
use sfc_explain::table::{faults, of_charts, of_commands};
use std::alloc::AllocError;

/// Puts at the end what the refusal or fault with this number, or where none is given with this name, means. The one error is that memory was
/// refused.
pub fn append_explanation(
    out: &mut Vec<u8>,
    number: Option<u8>,
    name: &[u8],
) -> Result<(), AllocError> {
    let tables = [of_commands(), of_charts(), faults()];
    let Some(explanation) = find(&tables, number, name) else {
        return append_named(out, b"no refusal or fault is called ", name);
    };
    match put_page(explanation, out) {
        Ok(()) => Ok(()),
        Err(_) => Err(AllocError),
    }
}
