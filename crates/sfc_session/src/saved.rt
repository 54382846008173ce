//! The script of a session.

ghost use Rattle.std.specs.Prelude.{◌≡◌, ◌++◌, OnOk};
ghost use Rattle.sfc_session.specs.Sessions.{script_line};

use sfc_page::append::{append, append_time};
use std::alloc::AllocError;

/// Puts the line of a command at the end: its raw instant in microseconds, and its words. The one error is that memory was refused; then
/// a front of it may stand there.
pub fn append_line(out: &mut Vec<u8>, raw: i64, words: &[u8]) -> Result<(), AllocError>
    ensures { OnOk result (out.new.items ≡ out.old.items ++ script_line raw words.now) }
{
    append_time(out, raw)?;
    append(out, b" ")?;
    append(out, words)?;
    append(out, b"\n")
}
