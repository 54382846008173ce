//! The version.

ghost use Rattle.std.specs.Prelude.{◌≡◌};
ghost use Rattle.sfc_c.specs.Texts.{GivesText};
ghost use Rattle.sfc_c.specs.declared.version.TheConstants.{VERSION};

use crate::giving::give;

/// The version, that of the program.
pub const VERSION: &[u8] = b"0.4.0";

/// The version of the library, as 1.2.3. -6 where the buffer is too short; `needed` tells the length.
#[unsafe(no_mangle)]
pub extern "C" fn sfc_version(into: &mut [u8], needed: &mut usize) -> i32
    ensures { GivesText VERSION.now into.old into.new needed.new result }
{
    give(VERSION, into, needed)
}
