//! What a text declares.

/// Something that a text declares, or a part of it. Each number is its place among those of its kind, in text order and counted
/// from 0: a plant that is loaded from the text counts them so too. `program` is the place of a program type.
#[derive(Clone, Copy, Debug, PartialEq, Eq)]
pub enum Item {
    /// A program type (2.5.3).
    ProgramType {
        program: usize,
    },
    /// A variable of a program type's own (2.4.3).
    Local {
        program: usize,
        local: usize,
    },
    /// A global variable, where a program type names it behind VAR_EXTERNAL (2.4.3).
    External {
        program: usize,
        external: usize,
    },
    /// A step (2.6.2).
    Step {
        program: usize,
        step: usize,
    },
    /// An association of a step with an action (2.6.4.3); all of a chart are counted together.
    Association {
        program: usize,
        association: usize,
    },
    /// A transition (2.6.3).
    Transition {
        program: usize,
        transition: usize,
    },
    /// The steps before a transition.
    Preceding {
        program: usize,
        transition: usize,
    },
    /// The steps behind a transition.
    Following {
        program: usize,
        transition: usize,
    },
    /// The condition of a transition.
    Condition {
        program: usize,
        transition: usize,
    },
    /// A declared action (2.6.4.1).
    Action {
        program: usize,
        action: usize,
    },
    /// A statement of an action's body (3.3.2); an IF counts before those in it.
    Statement {
        program: usize,
        action: usize,
        statement: usize,
    },
    /// The configuration with its resource (2.7.1).
    Configuration,
    /// A global variable (2.4.3).
    Global {
        global: usize,
    },
    /// A task (2.7.2).
    Task {
        task: usize,
    },
    /// A program instance (2.7.2).
    Instance {
        instance: usize,
    },
}
