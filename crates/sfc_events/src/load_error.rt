//! Why a chart was refused.

ghost use Rattle.std.specs.Prelude.{◌≡◌};
ghost use Rattle.sfc_events.specs.LoadErrors.{number_of, name_of, name_of_limit};
ghost use Rattle.sfc_events.specs.declared.load_error.LoadError.TheVariants.{Memory};

use std::alloc::{AllocError, AllocFailed};
use std::error::Error;
use std::fmt;

/// What there may be only so much of.
#[derive(Clone, Copy, Debug, PartialEq, Eq)]
pub enum Limit {
    /// 1,024 steps of one program type.
    Steps,
    /// 2,048 transitions of one program type.
    Transitions,
    /// 4,096 associations of one program type.
    Associations,
    /// 4,096 variables.
    Variables,
    /// 64 program instances.
    Instances,
    /// 16 tasks.
    Tasks,
}

impl Limit {
    /// The name that stands for it in messages.
    pub fn name(self) -> &'static str
        ensures { result.now ≡ name_of_limit self }
    {
        match self {
            Limit::Steps => "Steps",
            Limit::Transitions => "Transitions",
            Limit::Associations => "Associations",
            Limit::Variables => "Variables",
            Limit::Instances => "Instances",
            Limit::Tasks => "Tasks",
        }
    }
}

/// Why a chart was refused.
#[derive(Clone, Copy, Debug, PartialEq, Eq)]
pub enum LoadError {
    /// A name stands for nothing here.
    Unknown,
    /// The type, or a location's size, is not the one that is wanted.
    WrongType,
    /// A literal lies outside its type, or an interval below zero.
    LiteralRange,
    /// What stands before `:=` can't be assigned.
    NotAssignable,
    /// A name was declared before in its name space, or stands twice in a list of steps.
    Duplicate,
    /// A program type has no initial step.
    NoInitial,
    /// A transition names a step that is not there.
    UnknownStep,
    /// An association names neither an action nor a variable.
    UnknownAction,
    /// An association names a variable that is not BOOL.
    NotBool,
    /// An association's time is a variable that is not TIME.
    NotTime,
    /// An instance has no task, or one that is not there.
    NoTask,
    /// An instance names a program type that is not there.
    UnknownType,
    /// Two variables have the same location.
    SameLocation,
    /// There is too much of something.
    Limit(Limit),
    /// Memory was refused.
    Memory,
}

impl LoadError {
    /// The number that stands for it in messages.
    pub fn number(self) -> u8
        ensures { result ≡ number_of self }
    {
        match self {
            LoadError::Unknown => 9,
            LoadError::WrongType => 10,
            LoadError::LiteralRange => 11,
            LoadError::NotAssignable => 12,
            LoadError::Duplicate => 13,
            LoadError::NoInitial => 14,
            LoadError::UnknownStep => 15,
            LoadError::UnknownAction => 16,
            LoadError::NotBool => 17,
            LoadError::NotTime => 18,
            LoadError::NoTask => 19,
            LoadError::UnknownType => 20,
            LoadError::SameLocation => 21,
            LoadError::Limit(_) => 22,
            LoadError::Memory => 23,
        }
    }

    /// The name that stands for it in messages.
    pub fn name(self) -> &'static str
        ensures { result.now ≡ name_of self }
    {
        match self {
            LoadError::Unknown => "Unknown",
            LoadError::WrongType => "WrongType",
            LoadError::LiteralRange => "LiteralRange",
            LoadError::NotAssignable => "NotAssignable",
            LoadError::Duplicate => "Duplicate",
            LoadError::NoInitial => "NoInitial",
            LoadError::UnknownStep => "UnknownStep",
            LoadError::UnknownAction => "UnknownAction",
            LoadError::NotBool => "NotBool",
            LoadError::NotTime => "NotTime",
            LoadError::NoTask => "NoTask",
            LoadError::UnknownType => "UnknownType",
            LoadError::SameLocation => "SameLocation",
            LoadError::Limit(_) => "Limit",
            LoadError::Memory => "Memory",
        }
    }
}

impl fmt::Display for LoadError {
    ghost use Rattle.std.specs.Prelude.{Some};
    ghost use Rattle.sfc_events.specs.LoadErrors.{error_text};

    ghost output = { λ error. Some (error_text error) };

    fn fmt<W: fmt::Write>(&self, f: &mut fmt::Formatter<W>) -> fmt::Result {
        let number = self.number();
        let name = self.name();
        match self {
            LoadError::Memory => f.write_str("out of memory"),
            LoadError::Limit(limit) => {
                let limit = limit.name();
                write!(f, "refused {number} {name} {limit}")
            }
            _ => write!(f, "refused {number} {name}"),
        }
    }
}

impl Error for LoadError {}

impl From<AllocError> for LoadError {
    ghost from_gives = { λ _ error. error ≡ Memory };

    fn from(_error: AllocError) -> LoadError {
        LoadError::Memory
    }
}

impl<T: Drop> From<AllocFailed<T>> for LoadError {
    ghost from_gives = { λ _ error. error ≡ Memory };

    fn from(_error: AllocFailed<T>) -> LoadError {
        LoadError::Memory
    }
}
