//! What is found at fault in a chart, and where.

use crate::declared::Declared;
use sfc_base::location::Size;
use sfc_base::var_type::VarType;
use sfc_events::load_error::LoadError;

/// What of a text a fault is in. Each number is the place of a name among the tokens.
#[derive(Clone, Copy, PartialEq, Eq)]
pub enum Element {
    /// The text outside program types and the configuration.
    Text,
    /// The configuration, outside its resource.
    Configuration {
        name: usize,
    },
    /// The resource, apart from what stands in it by a name.
    Resource {
        name: usize,
    },
    /// A global variable.
    Global {
        name: usize,
    },
    /// A task.
    Task {
        name: usize,
    },
    /// A program instance.
    Instance {
        name: usize,
    },
    /// A program type, apart from what stands in it by a name.
    Program {
        name: usize,
    },
    /// A variable of a program type's own.
    Local {
        program: usize,
        name: usize,
    },
    /// A global variable that a program type names.
    External {
        program: usize,
        name: usize,
    },
    /// A step.
    Step {
        program: usize,
        name: usize,
    },
    /// A transition, which is counted from 1, with its name if it has one.
    Transition {
        program: usize,
        number: usize,
        name: Option<usize>,
    },
    /// An action.
    Action {
        program: usize,
        name: usize,
    },
}

/// Which part of it. Associations and statements are counted from 1.
#[derive(Clone, Copy, PartialEq, Eq)]
pub enum Part {
    Whole,
    Name,
    Location,
    InitialValue,
    Type,
    Single,
    Interval,
    TaskName,
    ProgramType,
    Association(usize),
    AssociationTime(usize),
    Indicator(usize),
    From,
    To,
    Condition,
    Statement(usize),
}

/// Types that are wanted, or that are there.
#[derive(Clone, Copy, PartialEq, Eq)]
pub enum Types {
    One(VarType),
    /// INT or DINT.
    Integers,
    /// INT, DINT or TIME.
    Numbers,
    /// An integer without a type.
    Untyped,
}

/// Which names may be meant where one isn't found.
#[derive(Clone, Copy, PartialEq, Eq)]
pub enum Sort {
    /// The variables of a program type, whose name has this place, and the globals.
    Variables { program: usize },
    /// The globals.
    Globals,
    /// The steps of a program type.
    Steps { program: usize },
    /// The actions of a program type, its variables and the globals.
    Actions { program: usize },
    Tasks,
    ProgramTypes,
}

/// What is told of a fault beside its place.
#[derive(Clone, Copy, PartialEq, Eq)]
pub enum Detail {
    Nothing,
    /// The name isn't found among these.
    Missing(Sort),
    /// Behind the dot of a step or an action nothing else may stand.
    MissingPart,
    /// `.Q` stands outside the action.
    OutsideAction,
    /// An instance has no WITH.
    NoWith,
    /// The first one of this name, or at this location.
    First(Declared),
    /// The first one in a list of steps.
    FirstInList(usize),
    /// Other types are wanted than are there.
    Types { wanted: Types, found: Types },
    /// A location of another size is wanted, or none, for the type.
    Sizes { var_type: VarType, found: Size },
    /// A number isn't one of the type's.
    Range { wanted: VarType, found: i64 },
    /// An interval is negative.
    NegativeInterval,
    /// There are so many, and there may be so many at most.
    Count { found: usize, most: usize },
}

/// A fault, with the place of the token that is at fault.
#[derive(Clone, Copy, PartialEq, Eq)]
pub struct Finding {
    pub error: LoadError,
    pub token: usize,
    pub element: Element,
    pub part: Part,
    pub detail: Detail,
}
