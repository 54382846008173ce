//! An expression to its text.

ghost use Rattle.std.specs.Prelude.{◌≡◌, ◌<◌, [], length};
ghost use Rattle.sfc_base.specs.Writing.{Writes};
ghost use Rattle.sfc_expr.specs.Trees.{expression_of};
ghost use Rattle.sfc_plant.specs.InstanceSpaces.{space_of};
ghost use Rattle.sfc_list.specs.Expressions.{expression_text};

use crate::expression::put_expression;
use crate::sink::Sink;
use sfc_base::ids::ProgId;
use sfc_base::write_fault::WriteFault;
use sfc_expr::expr::Expr;
use sfc_plant::plant::Plant;
use std::io::Write;

/// Writes the text of an expression that stands in a condition of this program instance, which is one of the plant's,
/// as `list_to` writes the condition of a transition (3.3.1, 2.6.3): operators between spaces, literals with their
/// types, parentheses only where they are needed, and names as they were declared. Its numbers are those of the
/// instance's program type; for one that names nothing there, no name is written. It takes no memory.
///
/// The one error is that the writer failed or took no byte: a front of the text was then written.
#[tactic(auto, unfolding(crate::specs::Private::Sinking::Puts))]
pub fn list_expr<W: Write>(
    plant: &Plant,
    instance: ProgId,
    expr: &Expr,
    writer: &mut W,
) -> Result<(), WriteFault>
    requires { instance.0 < length plant.now.instances }
    ensures { Writes (W.contents writer.old) (W.contents writer.new) result
        (expression_text (space_of plant.now instance) [] (expression_of expr.now)) }
{
    let names = plant.names(instance);
    let mut sink = Sink {
        writer,
        is_broken: false,
    };
    put_expression(&names, b"", expr, &mut sink);
    if sink.is_broken {
        return Err(WriteFault);
    }
    Ok(())
}
