//! The effect of statements (3.3.2).

ghost use Rattle.std.specs.Prelude.{◌≡◌};
ghost use Rattle.sfc_base.specs.Ticks.{Within};
ghost use Rattle.sfc_expr.specs.Trees.{body_of, branches_of, before, Nothing};
ghost use Rattle.sfc_expr.specs.Effect.{effect, branch_effect};
ghost use Rattle.sfc_expr.specs.Nodes.{body_nodes, branch_nodes};

use crate::eval::eval;
use crate::fault::Fault;
use crate::statement::{Branch, Statement};
use crate::store::Store;
use sfc_base::ticks::Ticks;

/// Executes statements in order, up to the first fault of an expression; what was written before it stays. A tick is
/// made for each statement and each node of an expression at most, and no memory is taken.
#[cycle(exec)]
#[tactic(auto, using(crate::proofs::Effects::sequence))]
pub fn exec<S: Store>(
    statements: &[Statement],
    store: &mut S,
    ticks: &mut Ticks,
) -> Result<(), Fault>
    ensures result { result ≡ (effect (body_of statements.now) (S.environment store.old)).result }
    ensures after { S.environment store.new
        ≡ (effect (body_of statements.now) (S.environment store.old)).environment }
    ensures reached { S.reaches store.old store.new }
    ensures ticks { Within (body_nodes (body_of statements.now)) ticks.old ticks.new }
{
    for statement in statements {
        exec_statement(statement, store, ticks)?;
    }
    Ok(())
}

// Executes one statement.
#[cycle(exec)]
#[tactic(auto, using(crate::proofs::Effects::ifs))]
fn exec_statement<S: Store>(
    statement: &Statement,
    store: &mut S,
    ticks: &mut Ticks,
) -> Result<(), Fault>
    ensures result { result ≡ (effect (before statement.now Nothing) (S.environment store.old)).result }
    ensures after { S.environment store.new
        ≡ (effect (before statement.now Nothing) (S.environment store.old)).environment }
    ensures reached { S.reaches store.old store.new }
    ensures ticks { Within (body_nodes (before statement.now Nothing)) ticks.old ticks.new }
{
    ticks.tick();
    match statement {
        Statement::Assign { target, value } => {
            let value = eval(value, store, ticks)?;
            store.assign(*target, value);
            Ok(())
        }
        Statement::If(branches) => exec_first(branches, store, ticks),
    }
}

// Executes the first branch that applies.
#[cycle(exec)]
#[tactic(auto, using(crate::proofs::Effects::first_branch))]
fn exec_first<S: Store>(branches: &[Branch], store: &mut S, ticks: &mut Ticks) -> Result<(), Fault>
    ensures result { result ≡ (branch_effect (branches_of branches.now) (S.environment store.old)).result }
    ensures after { S.environment store.new
        ≡ (branch_effect (branches_of branches.now) (S.environment store.old)).environment }
    ensures reached { S.reaches store.old store.new }
    ensures ticks { Within (branch_nodes (branches_of branches.now)) ticks.old ticks.new }
{
    for branch in branches {
        match branch {
            Branch::When(condition, body) => {
                if eval(condition, store, ticks)?.is_true() {
                    return exec(body, store, ticks);
                }
            }
            Branch::Otherwise(body) => return exec(body, store, ticks),
        }
    }
    Ok(())
}
