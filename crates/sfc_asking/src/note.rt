//! Lines that tell of a fault. Each is a comment of a script.

ghost use Rattle.std.specs.Prelude.{◌≡◌, ◌++◌, [], OnOk};
ghost use Rattle.sfc_asking.specs.Notes.{note_line};

use sfc_page::append::append;
use std::alloc::AllocError;

/// Puts a line at the end: a semicolon, and the text. The one error is that memory was refused.
pub fn append_note(out: &mut Vec<u8>, text: &[u8]) -> Result<(), AllocError>
    ensures { OnOk result (out.new.items ≡ out.old.items ++ note_line text.now []) }
{
    append_named(out, text, b"")
}

/// Puts a line at the end: a semicolon, the text, and a name or a number behind it. The one error is that memory was refused.
pub fn append_named(out: &mut Vec<u8>, text: &[u8], name: &[u8]) -> Result<(), AllocError>
    ensures { OnOk result (out.new.items ≡ out.old.items ++ note_line text.now name.now) }
{
    append(out, b"; ")?;
    append(out, text)?;
    append(out, name)?;
    append(out, b"\n")
}
