//! What statements write to.

ghost use Rattle.std.specs.Prelude.{◌≡◌};
ghost use Rattle.sfc_expr.specs.Environment.{assigned};

use crate::view::View;
use sfc_base::references::Variable;
use sfc_base::value::Value;

/// What the statements of a program read and write. The member `reaches` says what writes alone can make of it, also
/// of what no expression reads.
pub trait Store: View {
    ghost reaches: { Self → Self → Type 0 };

    /// Stores a new value in a variable and changes nothing else. Where there is no such variable nothing changes.
    fn assign(&mut self, variable: Variable, value: Value)
        ensures after { Self.environment self.new ≡ assigned (Self.environment self.old) variable value }
        ensures reached { reaches self.old self.new };

    ghost nothing: { (x : Self) → reaches x x };

    ghost one_more: { (x y z : Self) → reaches x y → reaches y z → reaches x z };
}
