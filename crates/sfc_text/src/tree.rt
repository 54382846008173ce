//! The trees that a text is read as (Annex B). Nothing is looked up here: a name is what was written. Parentheses and
//! empty statements are not kept. Where a tree stands in the text is kept beside what it says: what contracts see of a tree
//! leaves it out, so that trees are equal wherever they stand.

ghost use Rattle.std.specs.Prelude.{◌≡◌, false};
ghost use Rattle.sfc_text.specs.Lists.{is_empty};

use crate::expression::Expression;
use crate::statement::Statement;
use sfc_base::items::Items;
use sfc_base::location::Location;
use sfc_base::name::Name;
use sfc_base::qualifier::TimedQualifier;
use sfc_base::time_value::TimeValue;
use sfc_base::var_type::VarType;
use sfc_tokens::placed::Placed;
use sfc_tokens::span::Span;

/// A whole text: program types, and one configuration among them, with its bytes.
#[derive(Debug)]
pub struct Source {
    pub programs: Items<Program>,
    pub configuration: Configuration,
    pub configuration_span: Span,
}

// By hand, so that a caller that drops one proves one call.
impl Drop for Source {
    fn drop(self) {
        let Source {
            programs: _,
            configuration: _,
            configuration_span: _,
        } = self;
    }
}

/// A program type (2.5.3): its variables, and the elements of its chart in text order (2.6); its bytes, from PROGRAM up to
/// END_PROGRAM.
#[derive(Debug, Drop)]
pub struct Program {
    pub name: Placed<Name>,
    pub variables: Items<VariableBlock>,
    pub elements: Items<Element>,
    pub span: Span,
}

/// A block of variables of a program type (2.4.3).
#[derive(Debug, Drop)]
pub enum VariableBlock {
    /// VAR; the bytes of a declaration end with its semicolon.
    Local(Items<Placed<Declaration>>),
    /// VAR_EXTERNAL.
    External(Items<External>),
}

/// Variables declared together (2.4.3): with a location there is one name.
#[derive(Debug, Drop)]
pub struct Declaration {
    pub names: Items<Placed<Name>>,
    pub location: Option<Placed<Location>>,
    pub var_type: VarType,
    pub initial: Option<Placed<Literal>>,
}

/// Global variables that a program type names (2.4.3).
#[derive(Debug, Drop)]
pub struct External {
    pub names: Items<Placed<Name>>,
    pub var_type: VarType,
}

/// A literal (2.2).
#[derive(Clone, Copy, Debug, PartialEq, Eq)]
pub enum Literal {
    /// An integer without a type, with its sign; it is from -4,294,967,295 to 4,294,967,295.
    Integer(i64),
    /// `INT#` and an integer.
    Int(i64),
    /// `DINT#` and an integer.
    Dint(i64),
    /// FALSE and TRUE, however they were written.
    Bool(bool),
    /// A duration.
    Time(TimeValue),
}

/// One element of a chart, with its bytes, from its first word up to its END word.
#[derive(Debug, Drop)]
pub enum Element {
    Step(Step, Span),
    Transition(Transition, Span),
    Action(Action, Span),
}

/// A step with its associations to actions (2.6.2, 2.6.4.3); the bytes of an association end with its semicolon.
#[derive(Debug, Drop)]
pub struct Step {
    pub is_initial: bool,
    pub name: Placed<Name>,
    pub associations: Items<Placed<Association>>,
}

/// An action block's line (2.6.4.3): which action, how it goes with the step, and its indicator variables.
#[derive(Debug)]
pub struct Association {
    pub action: Placed<Name>,
    pub qualifier: Qualifier,
    pub indicators: Items<Placed<Name>>,
}

// By hand, so that a caller that drops one proves one call.
impl Drop for Association {
    fn drop(self) {
        let Association {
            action: _,
            qualifier: _,
            indicators: _,
        } = self;
    }
}

/// The qualifier of an association (2.6.4.4).
#[derive(Debug)]
pub enum Qualifier {
    /// N, not stored; it is also what a qualifier left out means.
    NonStored,
    /// R, overriding reset.
    Reset,
    /// S, set and stored.
    Set,
    /// P, a pulse.
    Pulse,
    /// P1, a pulse at the rising edge.
    RisingPulse,
    /// P0, a pulse at the falling edge.
    FallingPulse,
    /// One of the qualifiers with a time.
    Timed(TimedQualifier, AssociationTime),
}

// By hand, so that a caller that drops one proves one call.
impl Drop for Qualifier {
    fn drop(self) {
        match self {
            Qualifier::NonStored => {}
            Qualifier::Reset => {}
            Qualifier::Set => {}
            Qualifier::Pulse => {}
            Qualifier::RisingPulse => {}
            Qualifier::FallingPulse => {}
            Qualifier::Timed(_, _) => {}
        }
    }
}

/// The time of an association: written there, or the value of a variable.
#[derive(Debug)]
pub enum AssociationTime {
    Literal(TimeValue),
    Variable(Placed<Name>),
}

// By hand, so that a caller that drops one proves one call.
impl Drop for AssociationTime {
    fn drop(self) {
        match self {
            AssociationTime::Literal(_) => {}
            AssociationTime::Variable(_) => {}
        }
    }
}

/// A transition from its preceding to its following steps (2.6.3); there is at least one on each side. The bytes of its
/// condition are those between `:=` and the semicolon.
#[derive(Debug, Drop)]
pub struct Transition {
    pub name: Option<Placed<Name>>,
    pub priority: Option<u32>,
    pub preceding: Items<Placed<Name>>,
    pub following: Items<Placed<Name>>,
    pub condition: Expression,
    pub condition_span: Span,
    pub ghost some_preceding: { is_empty preceding ≡ false },
    pub ghost some_following: { is_empty following ≡ false },
}

/// An action with its body (2.6.4.1).
#[derive(Debug, Drop)]
pub struct Action {
    pub name: Placed<Name>,
    pub body: Vec<Statement>,
}

/// A task (2.7.2): what starts it once at each rise, its interval, which is 0 and has no bytes where none was written, and its
/// priority.
#[derive(Debug)]
pub struct Task {
    pub name: Placed<Name>,
    pub single: Option<Placed<Name>>,
    pub interval: Placed<TimeValue>,
    pub priority: u32,
}

// By hand, so that a caller that drops one proves one call.
impl Drop for Task {
    fn drop(self) {
        let Task {
            name: _,
            single: _,
            interval: _,
            priority: _,
        } = self;
    }
}

/// A program instance, with the task that it was given to (2.7.2).
#[derive(Debug)]
pub struct Instance {
    pub name: Placed<Name>,
    pub task: Option<Placed<Name>>,
    pub program: Placed<Name>,
}

// By hand, so that a caller that drops one proves one call.
impl Drop for Instance {
    fn drop(self) {
        let Instance {
            name: _,
            task: _,
            program: _,
        } = self;
    }
}

/// A configuration with its one resource (2.7.1): the global variables of both levels, in text order. The bytes of a
/// declaration, a task and an instance end with its semicolon.
#[derive(Debug)]
pub struct Configuration {
    pub name: Placed<Name>,
    pub resource: Placed<Name>,
    pub processor: Placed<Name>,
    pub globals: Items<Placed<Declaration>>,
    pub tasks: Items<Placed<Task>>,
    pub instances: Items<Placed<Instance>>,
}

// By hand, so that a caller that drops one proves one call.
impl Drop for Configuration {
    fn drop(self) {
        let Configuration {
            name: _,
            resource: _,
            processor: _,
            globals: _,
            tasks: _,
            instances: _,
        } = self;
    }
}
