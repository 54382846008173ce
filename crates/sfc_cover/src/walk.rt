//! Which branches of IFs an executed body takes (3.3.2.3).

ghost use Rattle.std.specs.Prelude.{◌≡◌, ◌<◌};
ghost use Rattle.sfc_replay.specs.sfc_image.Agreement.{IsAsLarge, instance_total, is_open};

use crate::arms::Arms;
use crate::reach::mark;
use crate::sfc_image::image::Image;
use crate::sfc_image::step_readings::StepReadings;
use sfc_base::ids::ProgId;
use sfc_base::ticks::Ticks;
use sfc_expr::eval::eval;
use sfc_expr::expr::Expr;
use sfc_expr::fault::Fault;
use sfc_expr::statement::{Branch, Statement};
use std::slice::from_ref;

/// What the statements of an executed action read beside the variables: the instance whose action it is, the branches of its IFs, its
/// steps after the scan, and the action's Q.
#[derive(Clone, Copy)]
pub struct Acting<'a> {
    pub instance: ProgId,
    pub arms: &'a Arms,
    pub readings: StepReadings<'a>,
    pub q: bool,
}

// Whether a condition is TRUE over the variables as they stand.
fn condition_holds(image: &Image, acting: Acting<'_>, condition: &Expr) -> Result<bool, Fault>
    requires { acting.instance.0 < instance_total image.now }
{
    let view = image.view(acting.instance, acting.readings, acting.q);
    Ok(eval(condition, &view, &mut Ticks::new())?.is_true())
}

/// Executes statements in order, up to the first fault of an expression, and marks the branches that are taken. Those of the first IF
/// among them begin at `place`.
#[cycle(walk)]
pub fn walk_statements(
    image: &mut Image,
    marks: &mut [bool],
    acting: Acting<'_>,
    statements: &[Statement],
    place: usize,
) -> Result<(), Fault>
    requires { acting.instance.0 < instance_total image.old }
    ensures large { IsAsLarge image.old image.new }
    ensures open { is_open image.new ≡ is_open image.old }
{
    let mut place = place;
    for statement in statements {
        place = walk_statement(image, marks, acting, statement, place)?;
    }
    Ok(())
}

// Executes one statement. It answers where the branches of the next IF begin.
#[cycle(walk)]
fn walk_statement(
    image: &mut Image,
    marks: &mut [bool],
    acting: Acting<'_>,
    statement: &Statement,
    place: usize,
) -> Result<usize, Fault>
    requires { acting.instance.0 < instance_total image.old }
    ensures large { IsAsLarge image.old image.new }
    ensures open { is_open image.new ≡ is_open image.old }
{
    match statement {
        Statement::Assign {
            target: _,
            value: _,
        } => {
            let ticks = &mut Ticks::new();
            image.execute(
                acting.instance,
                from_ref(statement),
                acting.readings,
                acting.q,
                ticks,
            )?;
            Ok(place)
        }
        Statement::If(branches) => {
            walk_branches(image, marks, acting, branches, place)?;
            Ok(acting.arms.behind(place))
        }
    }
}

// Executes the first branch that applies.
#[cycle(walk)]
fn walk_branches(
    image: &mut Image,
    marks: &mut [bool],
    acting: Acting<'_>,
    branches: &[Branch],
    place: usize,
) -> Result<(), Fault>
    requires { acting.instance.0 < instance_total image.old }
    ensures large { IsAsLarge image.old image.new }
    ensures open { is_open image.new ≡ is_open image.old }
{
    let mut place = place;
    for branch in branches {
        match branch {
            Branch::When(condition, body) => {
                if condition_holds(image, acting, condition)? {
                    mark(marks, place);
                    return walk_statements(image, marks, acting, body, acting.arms.inside(place));
                }
            }
            Branch::Otherwise(body) => {
                mark(marks, place);
                return walk_statements(image, marks, acting, body, acting.arms.inside(place));
            }
        }
        place = place.saturating_add(1);
    }
    mark(marks, place);
    Ok(())
}
