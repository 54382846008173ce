//! Which statement of a body has a fault.

ghost use Rattle.std.specs.Prelude.{◌≡◌};
ghost use Rattle.sfc_base.specs.Ticks.{Within};
ghost use Rattle.sfc_expr.specs.Trees.{body_of};
ghost use Rattle.sfc_expr.specs.Effect.{effect};
ghost use Rattle.sfc_expr.specs.Nodes.{body_nodes};
ghost use Rattle.sfc_image.specs.BodyFaults.{faulty_statement};

use sfc_base::ticks::Ticks;
use sfc_expr::exec::exec;
use sfc_expr::statement::Statement;
use sfc_expr::store::Store;

/// Executes statements as `exec` does, and answers which of them has the fault that ends them, counted from 0, if one does.
pub fn find_statement<S: Store>(
    statements: &[Statement],
    store: &mut S,
    ticks: &mut Ticks,
) -> Option<usize>
    ensures result { result ≡ faulty_statement (body_of statements.now) (S.environment store.old) }
    ensures after { S.environment store.new
        ≡ (effect (body_of statements.now) (S.environment store.old)).environment }
    ensures reached { S.reaches store.old store.new }
    ensures ticks { Within (body_nodes (body_of statements.now)) ticks.old ticks.new }
{
    for k in 0..statements.len() {
        let one = std::slice::from_ref(&statements[k]);
        if exec(one, store, ticks).is_err() {
            return Some(k);
        }
    }
    None
}
