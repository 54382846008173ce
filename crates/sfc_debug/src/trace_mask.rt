//! Which commands have rows in the trace.

use bitflags::{Flag, Flags, bitflag_items};

/// Kinds of commands: the sum of 1 (Scan, Single), 2 (Input), 4 (Force, Release), 8 (Reset), 16 (Break, BreakIf, Unbreak), 32 (Stop, Go,
/// End, Epoch) and 64 (Read).
#[derive(Clone, Copy, PartialEq, Eq, Debug)]
pub struct TraceMask(pub u8);

bitflag_items! {
    impl TraceMask: u8 {
        const SCAN = 1;
        const INPUT = 2;
        const FORCE = 4;
        const RESET = 8;
        const POINT = 16;
        const MODE = 32;
        const READ = 64;
    }
}

impl Flags for TraceMask {
    ghost use Rattle.std.specs.Prelude.{⊤, [], ◌∷◌, codes};

    type Bits = u8;

    ghost exact = { ⊤ };

    ghost table = { (codes "SCAN", 1) ∷ (codes "INPUT", 2) ∷ (codes "FORCE", 4) ∷ (codes "RESET", 8) ∷ (codes "POINT", 16) ∷ (codes "MODE", 32) ∷ (codes "READ", 64) ∷ [] };

    ghost set_of = { λ mask. mask.0 };

    fn flags<'a>() -> &'a [Flag<TraceMask>] {
        TraceMask::FLAGS
    }

    fn bits(&self) -> u8 {
        self.0
    }

    fn from_bits_retain(bits: u8) -> TraceMask {
        TraceMask(bits)
    }
}

ghost use Rattle.std.specs.Prelude.{◌≡◌};
ghost use Rattle.sfc_debug.specs.Tracing as tracing;

use sfc_events::command::Command;

// The kind of a command.
fn kind_of(command: Command) -> TraceMask
    ensures { result.0 ≡ tracing.kind_bit command }
{
    match command {
        Command::Scan(_) | Command::Single(_, _) => TraceMask::SCAN,
        Command::Input(_, _) => TraceMask::INPUT,
        Command::Force(_, _) | Command::Release(_) => TraceMask::FORCE,
        Command::Reset(_) => TraceMask::RESET,
        Command::Break(_, _) | Command::BreakIf(_, _, _) | Command::Unbreak(_, _) =>
            TraceMask::POINT,
        Command::Stop | Command::Go | Command::End | Command::Epoch => TraceMask::MODE,
        Command::Read(_) => TraceMask::READ,
    }
}

impl TraceMask {
    /// Whether rows of the command are wanted.
    pub fn wants(self, command: Command) -> bool
        ensures { result ≡ tracing.is_wanted self command }
    {
        self.contains(kind_of(command))
    }
}
