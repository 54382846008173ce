//! Texts of one's own.

ghost use Rattle.std.specs.Prelude.{◌≡◌, IfOk};

use sfc_base::items::Items;
use std::alloc::{AllocError, Global};

/// A copy of the bytes. The one error is that memory was refused.
pub fn owned(alloc: Global, bytes: &[u8]) -> Result<Items<u8>, AllocError>
    ensures { IfOk result (λ text. text ≡ bytes.now) }
{
    let copy = Vec::from_slice(alloc, bytes)?;
    Ok(Items::from_vec(copy))
}
