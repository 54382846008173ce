//! Where sheets stand.

use crate::drawing::Sheet;
use crate::sizes::PAGE;
use std::alloc::{AllocError, Global};

/// Where sheets of these sizes stand: side by side up to the width of a page, or of the widest, then in a new row. The one
/// error is that memory was refused.
pub fn arrange(alloc: Global, sizes: &[Sheet]) -> Result<Vec<Sheet>, AllocError> {
    let widest = sizes
        .iter()
        .fold(PAGE, |widest, sheet| widest.max(sheet.width));
    let mut sheets = Vec::new(alloc);
    let mut left = 0u32;
    let mut top = 0u32;
    let mut low = 0u32;
    for size in sizes {
        if left > 0 && left.saturating_add(size.width) > widest {
            left = 0;
            top = low.saturating_add(40);
        }
        sheets.push(Sheet { left, top, ..*size })?;
        left = left.saturating_add(size.width).saturating_add(30);
        low = low.max(top.saturating_add(size.height));
    }
    Ok(sheets)
}
