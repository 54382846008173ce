//! What is refused or fails, by number and name.

ghost use Rattle.std.specs.Prelude.{◌≡◌};
ghost use Rattle.sfc_explain.specs.Topics.{number_of, name_of};

use sfc_events::load_error::LoadError;
use sfc_events::read_error::ReadErrorKind;
use sfc_events::refusal::Refusal;

/// What is refused or fails.
#[derive(Clone, Copy)]
pub enum Topic {
    /// A chart's text is refused by the reader.
    Reading(ReadErrorKind),
    /// A chart is refused by the loader.
    Loading(LoadError),
    /// A command is refused.
    Command(Refusal),
    /// An audit of a controller finds that its history, its receipts and its seats don't agree.
    Audit,
    /// What messages tell by this name alone: a fault of a scan, of a script, of a file or of memory.
    Named(&'static str),
}

impl Topic {
    /// The number that stands for it in messages, if it has one.
    pub fn number(&self) -> Option<u8>
        ensures { result ≡ number_of self.now }
    {
        match self {
            Topic::Reading(kind) => Some(kind.number()),
            Topic::Loading(error) => Some(error.number()),
            Topic::Command(refusal) => Some(refusal.number()),
            Topic::Audit => Some(41),
            Topic::Named(_) => None,
        }
    }

    /// The name that stands for it in messages.
    pub fn name(&self) -> &'static str
        ensures { result.now ≡ name_of self.now }
    {
        match self {
            Topic::Reading(kind) => kind.name(),
            Topic::Loading(error) => error.name(),
            Topic::Command(refusal) => refusal.name(),
            Topic::Audit => "AuditMismatch",
            Topic::Named(name) => name,
        }
    }
}
