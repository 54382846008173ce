//! What a variable of the image is.

use sfc_base::ids::ProgId;
use sfc_base::references::{GlobalId, LocalId};

/// What a variable of the image is: a global variable, or a local one of a program instance.
#[derive(Clone, Copy, Debug, PartialEq, Eq)]
pub enum ImageVariable {
    Global(GlobalId),
    Local(ProgId, LocalId),
}
