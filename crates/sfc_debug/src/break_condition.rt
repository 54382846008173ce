//! The conditions of breakpoints.

ghost use Rattle.std.specs.Prelude.{◌≡◌, true, false, IfOk};

use sfc_base::ids::ProgId;
use sfc_expr::same::is_same;
use sfc_plant::typed::Condition;
use std::alloc::{AllocError, Global};

/// How many conditions a table has at most, so that a number is left that names none.
pub const MOST: usize = 65_535;

/// A condition that breakpoints of a program instance may wait for (3.3).
#[derive(Debug)]
pub struct BreakCondition {
    /// The program instance.
    pub program: ProgId,
    /// The condition, typed like that of a transition.
    pub condition: Condition,
}

// By hand, so that a caller that drops one proves one call.
impl Drop for BreakCondition {
    fn drop(self) {
        let BreakCondition {
            program: _,
            condition: _,
        } = self;
    }
}

impl BreakCondition {
    /// The same condition once more. The one error is that memory was refused.
    pub fn copy(&self, alloc: Global) -> Result<BreakCondition, AllocError>
        ensures { IfOk result (λ copy. copy ≡ self.now) }
    {
        Ok(BreakCondition {
            program: self.program,
            condition: self.condition.copy(alloc)?,
        })
    }

    /// Whether it is the other, wherever its parts lie in memory.
    pub fn is_same(&self, other: &BreakCondition) -> bool
        ensures same { result ≡ true → self.now ≡ other.now }
        ensures other { result ≡ false → self.now ≡ other.now → ⊥ }
    {
        self.program.0 == other.program.0 && is_same(self.condition.expr(), other.condition.expr())
    }
}

/// Whether two tables have the same conditions in the same order.
pub fn are_same(table: &[BreakCondition], other: &[BreakCondition]) -> bool
    ensures same { result ≡ true → table.now ≡ other.now }
    ensures other { result ≡ false → table.now ≡ other.now → ⊥ }
{
    let mut rest = table;
    let mut others = other;
    'conditions: while let Some((one, behind)) = rest.split_first() {
        let Some((its, theirs)) = others.split_first() else {
            return false;
        };
        if !one.is_same(its) {
            return false;
        }
        rest = behind;
        others = theirs;
    }
    others.is_empty()
}
