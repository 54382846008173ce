//! Lists in a line of text.

ghost use Rattle.std.specs.Prelude.{◌≡◌, ◌++◌, [], OnOk};
ghost use Rattle.sfc_output.specs.Private.ListParts.{continued, separator};
ghost use Rattle.sfc_page.specs.Lines.{written};

use sfc_page::line::Line;
use std::alloc::AllocError;

/// What parts a text from one before it. The one error is that memory was refused.
#[inline(always)]
pub fn put_separator(line: &mut Line, out: &mut Vec<u8>, is_first: bool) -> Result<(), AllocError>
    ensures { OnOk result (written out.new.items line.new ≡ written out.old.items line.old ++ separator is_first) }
{
    if is_first {
        Ok(())
    } else {
        line.put(out, b",")
    }
}

/// The end of a list: a dash where it is empty. The one error is that memory was refused; then a front of it may
/// stand there.
#[inline]
pub fn put_end(line: &mut Line, out: &mut Vec<u8>, is_empty: bool) -> Result<(), AllocError>
    ensures { OnOk result (written out.new.items line.new ≡ written out.old.items line.old ++ continued is_empty []) }
{
    if is_empty {
        line.put(out, b"-")
    } else {
        Ok(())
    }
}
