//! The branches of IF statements (3.3.2.3).

use sfc_base::ids::ActionId;
use sfc_expr::statement::{Branch, Statement};
use sfc_plant::chart::Chart;
use std::alloc::{AllocError, Global};

/// Which branch of an IF.
#[derive(Clone, Copy, Debug, PartialEq, Eq)]
pub enum ArmKind {
    /// The one behind IF.
    Then,
    /// The one behind the ELSIF with this number, from 1.
    Elsif(usize),
    /// The one behind ELSE.
    Else,
    /// What is taken where no condition is TRUE and no ELSE was written.
    NoElse,
}

/// A branch of an IF in the body of an action.
#[derive(Clone, Copy, Debug)]
pub struct Arm {
    /// The action.
    pub action: ActionId,
    /// The number of the IF in the action's body, from 1 in text order.
    pub number: usize,
    /// Which of its branches it is.
    pub kind: ArmKind,
    // Where the branches of the first IF inside it stand, if there is one.
    inside: usize,
    // Where those of the first IF behind its own stand, if there is one.
    behind: usize,
}

/// The branches of all IFs of a chart: by action, of an IF its own before those of the IFs inside it.
pub struct Arms {
    list: Vec<Arm>,
    // Where those of each declared action begin.
    starts: Vec<usize>,
}

// By hand, so that a caller that drops one proves one call.
impl Drop for Arms {
    fn drop(self) {
        let Arms { list: _, starts: _ } = self;
    }
}

// Which branch of its IF stands at this place.
fn kind_at(branch: &Branch, place: usize) -> ArmKind {
    match branch {
        Branch::When(_, _) if place == 0 => ArmKind::Then,
        Branch::When(_, _) => ArmKind::Elsif(place),
        Branch::Otherwise(_) => ArmKind::Else,
    }
}

// Whether an ELSE was written.
fn has_else(branches: &[Branch]) -> bool {
    matches!(branches.last(), Some(Branch::Otherwise(_)))
}

// Puts the branches of one IF.
fn push_own(
    list: &mut Vec<Arm>,
    action: ActionId,
    number: usize,
    branches: &[Branch],
) -> Result<(), AllocError> {
    let mut arm = Arm {
        action,
        number,
        kind: ArmKind::NoElse,
        inside: 0,
        behind: 0,
    };
    for (place, branch) in branches.iter().enumerate() {
        arm.kind = kind_at(branch, place);
        list.push(arm)?;
    }
    if has_else(branches) {
        return Ok(());
    }
    arm.kind = ArmKind::NoElse;
    list.push(arm)?;
    Ok(())
}

// Puts the branches of the IFs among these statements, where so many IFs stand before them. It answers how many there are then.
#[cycle(arms)]
fn push_statements(
    list: &mut Vec<Arm>,
    action: ActionId,
    statements: &[Statement],
    count: usize,
) -> Result<usize, AllocError> {
    let mut count = count;
    for statement in statements {
        count = push_statement(list, action, statement, count)?;
    }
    Ok(count)
}

// Puts the branches of the IFs that begin with this statement.
#[cycle(arms)]
fn push_statement(
    list: &mut Vec<Arm>,
    action: ActionId,
    statement: &Statement,
    count: usize,
) -> Result<usize, AllocError> {
    match statement {
        Statement::Assign {
            target: _,
            value: _,
        } => Ok(count),
        Statement::If(branches) => push_if(list, action, branches, count.saturating_add(1)),
    }
}

// Puts the branches of the IF with this number and of those inside it.
#[cycle(arms)]
fn push_if(
    list: &mut Vec<Arm>,
    action: ActionId,
    branches: &[Branch],
    number: usize,
) -> Result<usize, AllocError> {
    let first = list.len();
    push_own(list, action, number, branches)?;
    let mut count = number;
    let mut place = first;
    for branch in branches {
        let inside = list.len();
        count = match branch {
            Branch::When(_, body) => push_statements(list, action, body, count)?,
            Branch::Otherwise(body) => push_statements(list, action, body, count)?,
        };
        if let Some(arm) = list.get_mut(place) {
            arm.inside = inside;
        }
        place = place.saturating_add(1);
    }
    let behind = list.len();
    if let Some(arm) = list.get_mut(first) {
        arm.behind = behind;
    }
    Ok(count)
}

impl Arms {
    /// Those of a chart. The one error is that memory was refused.
    pub fn of_chart(alloc: Global, chart: &Chart) -> Result<Arms, AllocError> {
        let mut arms = Arms {
            list: Vec::new(alloc),
            starts: Vec::new(alloc),
        };
        let mut number = 0usize;
        for action in chart.actions.as_slice() {
            arms.push_action(ActionId(number), action.body.as_slice())?;
            number = number.saturating_add(1);
        }
        Ok(arms)
    }

    // Puts those of the next action.
    fn push_action(&mut self, action: ActionId, body: &[Statement]) -> Result<(), AllocError> {
        self.starts.push(self.list.len())?;
        push_statements(&mut self.list, action, body, 0)?;
        Ok(())
    }

    /// How many there are.
    pub fn len(&self) -> usize {
        self.list.len()
    }

    /// All of them.
    pub fn as_slice(&self) -> &[Arm] {
        self.list.as_slice()
    }

    /// Where those of a declared action begin.
    pub fn start(&self, action: ActionId) -> usize {
        match self.starts.get(action.0) {
            Some(start) => *start,
            None => self.list.len(),
        }
    }

    /// Where those of the first IF inside the branch at this place begin, if there is one.
    pub fn inside(&self, place: usize) -> usize {
        match self.list.get(place) {
            Some(arm) => arm.inside,
            None => self.list.len(),
        }
    }

    /// Where those of the IF behind the one that begins at this place begin, if there is one.
    pub fn behind(&self, place: usize) -> usize {
        match self.list.get(place) {
            Some(arm) => arm.behind,
            None => self.list.len(),
        }
    }
}
